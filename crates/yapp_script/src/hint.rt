//! What is said below a line that tells a code, above the reason of the code: what stands there, and what may have been
//! meant.

ghost use Rattle.std.specs.Prelude.{◌≡◌, ◌∷◌, [], codes, IfOk, map, option_map, slice_get, string_bytes, unwrap_or};
ghost use Rattle.std.specs.Option.{option_map_or};
ghost use Rattle.ysay_text.specs.Line as line_spec;
ghost use Rattle.ylink_grammar.specs.BreakView.{break_view, code_number};
ghost use Rattle.ytext.specs.View.{modules_view};
ghost use Rattle.yschema_model.specs.View as schema_view;
ghost use Rattle.yinst_path.specs.Applying.{edit_number};
ghost use Rattle.yinst_path.specs.EditView.{edit_view};
ghost use Rattle.yinst_tree.specs.Told as document;
ghost use Rattle.yinst_tree.specs.View.{place_view, tree_view};
ghost use Rattle.yspec_run.specs.Hint as spec;

use std::alloc::{AllocError, Global};
use yinst::{Edit, EditCode};
use yinst_tree::{DocCode, Step, Tree};
use ylink_grammar::{BrokenRule, CompileCode};
use ysay_circles::{circle_sentence, condition_sentence, place_sentence};
use ysay_edit::{said_of_edit, said_of_line};
use ysay_forms::{count_sentence, form_sentence};
use ysay_names::{key_sentence, name_sentence, prefix_sentence};
use ysay_nodes::{config_sentence, needed_sentence, twice_sentence};
use ysay_pattern::pattern_sentence;
use ysay_refusal::said_of_refusal;
use ysay_refusals::said_of_others;
use ysay_repeated::said_of_repeated;
use ysay_sets::{import_sentence, taken_sentence};
use ysay_slips::slip_sentence;
use ysay_targets::{leafref_sentence, target_sentence};
use ysay_text::{line_sentence, shown, shown_line};
use ysay_types::{default_sentence, restriction_sentence};
use yschema_model::Schema;
use ytext::Module;

/// A text as a line, behind its front; nothing of an empty one.
fn as_line(alloc: Global, front: &str, text: &str) -> Result<String, AllocError>
    ensures { IfOk result (λ line. string_bytes line ≡ spec.as_line front.now text.now) }
{
    if text.is_empty() {
        Ok(String::new(alloc))
    } else {
        [front, text, "\n"].concat(alloc)
    }
}

/// The line of a text that is told.
fn line_hint(alloc: Global, line: u32, bytes: &[u8]) -> Result<String, AllocError>
    ensures { IfOk result (λ hint. string_bytes hint ≡ spec.line_hint line bytes.now) }
{
    let shown = shown_line(alloc, line, bytes)?;
    as_line(alloc, "  | ", shown.as_str())
}

/// Whether a text begins as a JSON object does, behind white space.
fn begins_object(bytes: &[u8]) -> bool
    ensures { result ≡ spec.begins_object bytes.now }
{
    for byte in bytes {
        if *byte > b' ' {
            return *byte == b'{';
        }
    }
    false
}

fn object_hint(bytes: &[u8]) -> &'static str
    ensures { result.now ≡ spec.object_hint (spec.begins_object bytes.now) }
{
    if begins_object(bytes) {
        "  this begins as JSON, not as a module; a document stands before the modules.\n"
    } else {
        ""
    }
}

/// What is said of a module's text that is refused with this number in a line: that line, what can't be there, and whether it is a
/// document's.
pub fn slip_hint(alloc: Global, code: u8, line: u32, bytes: &[u8]) -> Result<String, AllocError>
    ensures { IfOk result (λ hint. string_bytes hint ≡ spec.slip_hint code line bytes.now) }
{
    let shown = line_hint(alloc, line, bytes)?;
    let said = slip_sentence(alloc, code, bytes)?;
    let told = as_line(alloc, "  ", said.as_str())?;
    [shown.as_str(), told.as_str(), object_hint(bytes)].concat(alloc)
}

/// What is said of the statements of a line of a module of a set, by the code that is told of it.
fn said_of_statements(
    alloc: Global,
    code: CompileCode,
    line: u32,
    modules: &[Module],
    of: &Module,
) -> Result<String, AllocError>
    ensures { IfOk result (λ said. string_bytes said ≡ spec.statement_said
        (code_number code) line (modules_view modules.now) (modules_view (of.now ∷ []))) }
{
    match code.number() {
        1 => line_sentence(alloc, line, of),
        2 => count_sentence(alloc, line, of),
        3 => form_sentence(alloc, line, of),
        5 => import_sentence(alloc, line, modules, of),
        6 => prefix_sentence(alloc, line, of),
        7 => taken_sentence(alloc, line, modules, of),
        8 => name_sentence(alloc, line, modules, of),
        9 => circle_sentence(alloc, line, modules, of),
        10 => restriction_sentence(alloc, line, modules, of),
        11 => default_sentence(alloc, line, modules, of),
        12 => key_sentence(alloc, line, of),
        13 => twice_sentence(alloc, line, of),
        14 => target_sentence(alloc, line, modules, of),
        15 => needed_sentence(alloc, line, of),
        16 => config_sentence(alloc, line, of),
        17 => leafref_sentence(alloc, line, modules, of),
        20 => pattern_sentence(alloc, line, of),
        22 => condition_sentence(alloc, line, modules, of),
        24 => place_sentence(alloc, line, of),
        _ => Ok(String::new(alloc)),
    }
}

/// The same of a module of a set, by its number.
fn said_of_module(alloc: Global, modules: &[Module], rule: BrokenRule) -> Result<String, AllocError>
    ensures { let b = break_view rule in IfOk result (λ said. string_bytes said
        ≡ spec.statement_said b.code b.line (modules_view modules.now)
        (spec.module_at b.module_number (modules_view modules.now))) }
{
    match modules.get(rule.module) {
        Some(of) => said_of_statements(alloc, rule.code, rule.line, modules, of),
        None => Ok(String::new(alloc)),
    }
}

/// The contents of a file, by its number.
fn contents_at(contents: &[Vec<u8>], number: usize) -> &[u8]
    ensures { result.now ≡ unwrap_or (slice_get (map (λ c. c.items) contents.entry.now) number) [] }
{
    match contents.get(number) {
        Some(bytes) => bytes.as_slice(),
        None => &[],
    }
}

/// What is said of a rule that a module breaks, by the contents of the files and the statements of all.
pub fn break_hint(
    alloc: Global,
    contents: &[Vec<u8>],
    modules: &[Module],
    rule: BrokenRule,
) -> Result<String, AllocError>
    ensures { IfOk result (λ hint. string_bytes hint ≡ spec.break_hint
        (map (λ c. c.items) contents.now) (modules_view modules.now) (break_view rule)) }
{
    let mut hint = line_hint(alloc, rule.line, contents_at(contents, rule.module))?;
    let said = said_of_module(alloc, modules, rule)?;
    let told = as_line(alloc, "  ", said.as_str())?;
    hint.push_str(told.as_str())?;
    Ok(hint)
}

/// What is said of a document that is refused at a place, by its bytes, and of all else in it for which it is.
pub fn refusal_hint(
    alloc: Global,
    schema: &Schema,
    bytes: &[u8],
    code: DocCode,
    place: &[Step],
) -> Result<String, AllocError>
    ensures { IfOk result (λ hint. string_bytes hint
        ≡ spec.refusal_hint (schema_view.view schema.now) bytes.now
        (record { code = document.code_number code; place = place_view place.now })) }
{
    let said = said_of_refusal(alloc, schema, bytes, code, place)?;
    let mut hint = as_line(alloc, "  ", said.as_str())?;
    let others = said_of_others(alloc, schema, bytes, code, place)?;
    hint.push_str(others.as_str())?;
    Ok(hint)
}

/// What is said of a document that gives a member twice, by the place of its node.
pub fn repeated_hint(alloc: Global, schema: &Schema, place: &[Step]) -> Result<String, AllocError>
    ensures { IfOk result (λ hint. string_bytes hint
        ≡ spec.repeated_hint (schema_view.view schema.now) (place_view place.now)) }
{
    let said = said_of_repeated(alloc, schema, place)?;
    as_line(alloc, "  ", said.as_str())
}

/// What is said of an edit that is refused, by what is stored now.
fn edit_hint(
    alloc: Global,
    schema: &Schema,
    now: &Tree,
    edit: &Edit,
    code: EditCode,
) -> Result<String, AllocError>
    ensures { IfOk result (λ hint. string_bytes hint ≡ spec.edit_hint (schema_view.view schema.now)
        (tree_view now.now) (edit_view edit.now) (edit_number code)) }
{
    let said = said_of_edit(alloc, schema, now, edit, code)?;
    as_line(alloc, "  ", said.as_str())
}

/// What is said of a line that is refused before it is tried: where it spells no edit.
fn spelling_hint(alloc: Global, line: &[u8], code: EditCode) -> Result<String, AllocError>
    ensures { IfOk result (λ hint. string_bytes hint
        ≡ spec.spelling_hint line.now (edit_number code)) }
{
    if code.number() == 1 {
        let said = said_of_line(alloc, line)?;
        as_line(alloc, "  ", said.as_str())
    } else {
        Ok(String::new(alloc))
    }
}

/// What is said of a line by the edit that it asks for, if it asks for one.
fn asked_hint(
    alloc: Global,
    schema: &Schema,
    now: &Tree,
    line: &[u8],
    edit: Option<&Edit>,
    code: EditCode,
) -> Result<String, AllocError>
    ensures { IfOk result (λ hint. string_bytes hint ≡ option_map_or
        (λ e. spec.edit_hint (schema_view.view schema.now) (tree_view now.now) e (edit_number code))
        (option_map (λ e. edit_view e.now) edit.entry)
        (spec.spelling_hint line.now (edit_number code))) }
{
    match edit {
        Some(edit) => edit_hint(alloc, schema, now, edit, code),
        None => spelling_hint(alloc, line, code),
    }
}

/// A line of a script, behind a bar.
fn bar_hint(alloc: Global, line: &[u8]) -> Result<String, AllocError>
    ensures { IfOk result (λ hint. string_bytes hint
        ≡ spec.as_line (codes "  | ") (line_spec.shown line.now)) }
{
    let shown = shown(alloc, line)?;
    as_line(alloc, "  | ", shown.as_str())
}

/// What is said of a refused line of a script: itself, and what is said by the edit that it asks for, if it asks for one, and by
/// what is stored now.
pub fn script_hint(
    alloc: Global,
    schema: &Schema,
    now: &Tree,
    line: &[u8],
    edit: Option<&Edit>,
    code: EditCode,
) -> Result<String, AllocError>
    ensures { IfOk result (λ hint. string_bytes hint ≡ spec.script_hint
        (schema_view.view schema.now) (tree_view now.now) line.now
        (option_map (λ e. edit_view e.now) edit.entry) (edit_number code)) }
{
    let mut hint = bar_hint(alloc, line)?;
    let said = asked_hint(alloc, schema, now, line, edit, code)?;
    hint.push_str(said.as_str())?;
    Ok(hint)
}
