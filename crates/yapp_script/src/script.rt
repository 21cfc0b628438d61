//! Scripts of edits, one a line.

ghost use Rattle.std.specs.Prelude.{◌≡◌, ◌++◌, ◌==◌, IfOk, OnOk, map, option_map, string_bytes};
ghost use Rattle.std.specs.List.{slice_split};
ghost use Rattle.yspec.specs.Results.{Gives};
ghost use Rattle.yspec.specs.edit.EditText as text;
ghost use Rattle.yspec_run.specs.Script as spec;
ghost use Rattle.yspec.specs.text.Text.{line_feed};
ghost use Rattle.yinst_path.specs.Applying.{told_by};
ghost use Rattle.yinst_path.specs.EditView.{edit_view};
ghost use Rattle.ylive.specs.View.{edits_view, outcomes_view};
ghost use Rattle.yinst_tree.specs.View.{tree_view};
ghost use Rattle.yschema_model.specs.View as schema_view;
ghost use Rattle.yapp_script.specs.Asked as asked;
ghost use Rattle.yapp_script.specs.Asked.{behind, decision_parts, hint_in, line_view, refusal_in, refusal_of, refused_parts};

use crate::hint::script_hint;
use std::alloc::{AllocError, Global};
use yinst::{DocCode, Edit, EditCode, EditFault, Tree};
use ylive::{Live, Outcome};
use ysay_repeated::has_repeated;
use yschema_model::Schema;

/// Why the value of an edit doesn't fit its node.
#[derive(Clone, Copy, Debug)]
pub enum ValueCode {
    /// A document with it would be refused so.
    Document(DocCode),
    /// It has a member twice in one object (J8).
    Repeated,
}

impl ValueCode {
    ghost use Rattle.std.specs.Prelude.{◌≡◌};
    ghost use Rattle.yapp_script.specs.Asked.{value_number};

    /// The number behind the `J`.
    pub fn number(self) -> u8
        ensures { result ≡ value_number self }
    {
        match self {
            ValueCode::Document(code) => code.number(),
            ValueCode::Repeated => 8,
        }
    }
}

/// Why a line is refused, and with E10 why the value doesn't fit.
#[derive(Clone, Copy, Debug)]
pub struct Refusal {
    pub code: EditCode,
    pub value: Option<ValueCode>,
}

impl Refusal {
    ghost use Rattle.std.specs.Prelude.{◌≡◌};
    ghost use Rattle.yinst_path.specs.Applying.{refusal_view};
    ghost use Rattle.yapp_script.specs.Asked.{refusal_of};

    /// That of an edit.
    fn of_edit(code: EditCode, doc: Option<DocCode>) -> Refusal
        ensures { refusal_of result ≡ refusal_view code doc }
    {
        let value = match doc {
            Some(code) => Some(ValueCode::Document(code)),
            None => None,
        };
        Refusal { code, value }
    }
}

/// What a line of a script asks for, and how it reads.
#[derive(Clone, Copy, Debug)]
enum Asked<'s> {
    /// It is passed over.
    Nothing,
    Edit(&'s [u8]),
    /// It is no edit's.
    Refused(&'s [u8], Refusal),
}

/// A refused line of a script, by its number from 1, with what is said of it besides.
#[derive(Debug, Drop)]
pub struct RefusedLine {
    pub number: usize,
    pub refusal: Refusal,
    pub hint: String,
}

/// A script: what each of its lines asks for, and the edits among them.
#[derive(Debug, Drop)]
pub struct Script<'s> {
    alloc: Global,
    lines: Vec<Asked<'s>>,
    edits: Vec<Edit>,
}

impl<'s> Script<'s> {
    ghost use Rattle.std.specs.Prelude.{◌≡◌, ◌++◌, [], ◌∷◌, IfOk, OnOk, Some, map};
    ghost use Rattle.yspec_run.specs.Script.{asked_in, lines_of, unless_twice, without_return};
    ghost use Rattle.yinst_path.specs.EditView.{edit_view};
    ghost use Rattle.ylive.specs.View.{edits_view, outcomes_view};
    ghost use Rattle.ylive.specs.View as live_view;
    ghost use Rattle.yinst_tree.specs.View.{tree_view};
    ghost use Rattle.yschema_model.specs.View as schema_view;
    ghost use Rattle.yapp_script.specs.Asked.{IsScript, edit_of, edits_in, kinds_in, line_of, line_view, refused_parts, told_from};

    /// A script without lines.
    fn new(alloc: Global) -> Script<'s>
        ensures kinds { kinds_in result ≡ [] }
        ensures edits { edits_in result ≡ [] }
    {
        Script {
            alloc,
            lines: Vec::new(alloc),
            edits: Vec::new(alloc),
        }
    }

    /// The script that bytes are; where that is wanted, a line whose value has a member twice asks for no edit.
    pub fn read(alloc: Global, is_strict: bool, bytes: &'s [u8]) -> Result<Script<'s>, AllocError>
        ensures { IfOk result (λ script. IsScript is_strict (kinds_in script) (edits_in script)
            (lines_of bytes.now)) }
    {
        let parts = parts_of(alloc, bytes)?;
        match parts.split_last() {
            Some((last, lines)) => Script::with_lines(alloc, is_strict, lines, *last),
            None => Ok(Script::new(alloc)),
        }
    }

    /// A script of lines that line feeds end, and a last one.
    fn with_lines(
        alloc: Global,
        is_strict: bool,
        lines: &[&'s [u8]],
        last: &'s [u8],
    ) -> Result<Script<'s>, AllocError>
        ensures { IfOk result (λ script. IsScript is_strict (kinds_in script) (edits_in script)
            (map (λ line. without_return line.now) lines.now ++ last.now ∷ [])) }
    {
        let mut script = Script::new(alloc);
        for line in lines {
            script.add(is_strict, without_return(*line))?;
        }
        script.add(is_strict, last)?;
        Ok(script)
    }

    /// Adds a line.
    fn add(&mut self, is_strict: bool, line: &'s [u8]) -> Result<(), AllocError>
        ensures kinds { OnOk result (kinds_in self.new ≡ kinds_in self.old
            ++ line_of line.now (asked_in is_strict line.now) ∷ []) }
        ensures edits { OnOk result (edits_in self.new ≡ edits_in self.old
            ++ edit_of (asked_in is_strict line.now)) }
    {
        let asked = match spelled_in(self.alloc, line) {
            Ok(None) => Asked::Nothing,
            Ok(Some(edit)) => self.take(is_strict, line, edit)?,
            Err(EditFault::Refused { code, doc }) => Asked::Refused(
                line,
                Refusal::of_edit(code, doc),
            ),
            Err(EditFault::Memory) => return Err(AllocError),
        };
        self.lines.push(asked)?;
        Ok(())
    }

    /// Takes up the edit of a line, unless its value has a member twice and that is refused; what the line asks for.
    fn take(&mut self, is_strict: bool, line: &'s [u8], edit: Edit) -> Result<Asked<'s>, AllocError>
        ensures asked { IfOk result (λ asked. line_view asked
            ≡ line_of line.entry.now (unless_twice is_strict (Some (edit_view edit)))) }
        ensures edits { OnOk result (edits_in self.new ≡ edits_in self.old
            ++ edit_of (unless_twice is_strict (Some (edit_view edit)))) }
        ensures kinds { kinds_in self.new ≡ kinds_in self.old }
    {
        if is_strict && gives_twice(self.alloc, &edit)? {
            let refusal = Refusal {
                code: EditCode::E10,
                value: Some(ValueCode::Repeated),
            };
            return Ok(Asked::Refused(line, refusal));
        }
        self.edits.push(edit)?;
        Ok(Asked::Edit(line))
    }

    /// The edits among its lines.
    pub fn edits(&self) -> &[Edit]
        ensures { edits_view result.now ≡ edits_in self.now }
    {
        &self.edits
    }

    /// Its refused lines, by what came of each edit in a document that stands behind the last of them.
    pub fn refused(&self, live: &Live, outcomes: &[Outcome]) -> Result<Vec<RefusedLine>, AllocError>
        ensures { let l = live_view.view live.now in IfOk result (λ lines. refused_parts lines.items
            ≡ told_from l.schema l.tree 1 (kinds_in self.now) (edits_in self.now)
            (outcomes_view outcomes.now)) }
    {
        if is_any_refused(&self.lines, outcomes) {
            let now = live.tree()?;
            self.refused_by(live.schema(), &now, outcomes)
        } else {
            Ok(Vec::new(self.alloc))
        }
    }

    /// The same under a schema, by what is stored now.
    fn refused_by(
        &self,
        schema: &Schema,
        now: &Tree,
        outcomes: &[Outcome],
    ) -> Result<Vec<RefusedLine>, AllocError>
        ensures { IfOk result (λ lines. refused_parts lines.items
            ≡ told_from (schema_view.view schema.now) (tree_view now.now) 1 (kinds_in self.now)
            (edits_in self.now) (outcomes_view outcomes.now)) }
    {
        let mut refused = Vec::new(self.alloc);
        let mut edits = self.edits.as_slice();
        let mut rest = outcomes;
        let mut number = 0;
        for line in &self.lines {
            number += 1;
            let refusal = refusal_of(*line, rest);
            add_refused(
                self.alloc,
                schema,
                now,
                &mut refused,
                number,
                *line,
                edits,
                refusal,
            )?;
            edits = edits_behind(*line, edits);
            rest = outcomes_behind(*line, rest);
        }
        Ok(refused)
    }
}

/// Whether any line is refused, by what came of each edit.
fn is_any_refused(lines: &[Asked<'_>], outcomes: &[Outcome]) -> bool
    ensures { result ≡ asked.any_refused (map line_view lines.now) (outcomes_view outcomes.now) }
{
    let mut rest = outcomes;
    for line in lines {
        match refusal_of(*line, rest) {
            Some(_) => return true,
            None => rest = outcomes_behind(*line, rest),
        }
    }
    false
}

/// Adds a line, where it is refused, with what is said of it by the edits from it on and by what is stored now.
fn add_refused(
    alloc: Global,
    schema: &Schema,
    now: &Tree,
    lines: &mut Vec<RefusedLine>,
    number: usize,
    line: Asked<'_>,
    edits: &[Edit],
    refusal: Option<Refusal>,
) -> Result<(), AllocError>
    ensures { OnOk result (refused_parts lines.new.items ≡ refused_parts lines.old.items
        ++ decision_parts (hint_in (schema_view.view schema.now) (tree_view now.now)
        (line_view line.entry) (edits_view edits.now)) number (option_map refusal_of refusal)) }
{
    if let Some(refusal) = refusal {
        let hint = hint_of(alloc, schema, now, line, edits, refusal)?;
        lines.push(RefusedLine {
            number,
            refusal,
            hint,
        })?;
    }
    Ok(())
}

/// What is said of a refused line, by the edits from it on and by what is stored now.
fn hint_of(
    alloc: Global,
    schema: &Schema,
    now: &Tree,
    line: Asked<'_>,
    edits: &[Edit],
    refusal: Refusal,
) -> Result<String, AllocError>
    ensures { IfOk result (λ hint. string_bytes hint
        ≡ hint_in (schema_view.view schema.now) (tree_view now.now) (line_view line.entry)
        (edits_view edits.now) (refusal_of refusal)) }
{
    match (line, edits.first()) {
        (Asked::Edit(text), Some(edit)) => {
            script_hint(alloc, schema, now, text, Some(edit), refusal.code)
        }
        (Asked::Refused(text, _), _) => {
            script_hint(alloc, schema, now, text, None, refusal.code)
        }
        _ => Ok(String::new(alloc)),
    }
}

/// The edits behind a line.
fn edits_behind<'e>(line: Asked<'_>, edits: &'e [Edit]) -> &'e [Edit]
    ensures { edits_view result.now
        ≡ asked.edits_behind (line_view line.entry) (edits_view edits.entry.now) }
{
    match (line, edits.split_first()) {
        (Asked::Edit(_), Some((_, behind))) => behind,
        _ => edits,
    }
}

/// Why a line is refused, if it is, by what came of the edits from it on.
fn refusal_of(line: Asked<'_>, outcomes: &[Outcome]) -> Option<Refusal>
    ensures { option_map refusal_of result
        ≡ refusal_in (line_view line.entry) (outcomes_view outcomes.now) }
{
    match line {
        Asked::Nothing => None,
        Asked::Refused(_, refusal) => Some(refusal),
        Asked::Edit(_) => match outcomes.first() {
            Some(Outcome::Refused { code, doc }) => Some(Refusal::of_edit(*code, *doc)),
            _ => None,
        },
    }
}

/// What came of the edits behind a line.
fn outcomes_behind<'o>(line: Asked<'_>, outcomes: &'o [Outcome]) -> &'o [Outcome]
    ensures { outcomes_view result.now
        ≡ behind (line_view line.entry) (outcomes_view outcomes.entry.now) }
{
    match (line, outcomes.split_first()) {
        (Asked::Edit(_), Some((_, behind))) => behind,
        _ => outcomes,
    }
}

/// What stands between line feeds.
fn parts_of(alloc: Global, bytes: &[u8]) -> Result<Vec<&[u8]>, AllocError>
    ensures { IfOk result (λ parts. map (λ part. part.now) parts.items
        ≡ slice_split (λ x. x == line_feed) bytes.now) }
{
    bytes.split(|byte| *byte == b'\n').collect(alloc)
}

/// A line without one carriage return at its end.
fn without_return(line: &[u8]) -> &[u8]
    ensures { result.now ≡ spec.without_return line.now }
{
    match line.split_last() {
        Some((last, front)) => { if *last == b'\r' { front } else { line } }
        None => line,
    }
}

/// Whether a line is empty or begins with `#`.
fn is_passed_over(line: &[u8]) -> bool
    ensures { result ≡ text.is_passed_over line.now }
{
    match line.first() {
        Some(byte) => *byte == b'#',
        None => true,
    }
}

/// Whether the value of an edit has a member twice in one object.
fn gives_twice(alloc: Global, edit: &Edit) -> Result<bool, AllocError>
    ensures { IfOk result (λ twice. twice ≡ spec.gives_twice (edit_view edit.now)) }
{
    match edit {
        Edit::Create { value, .. } => has_repeated(alloc, value),
        Edit::Replace { value, .. } => has_repeated(alloc, value),
        Edit::Remove { .. } | Edit::Move { .. } => Ok(false),
    }
}

/// The edit that a line spells, if it asks for one.
fn spelled_in(alloc: Global, line: &[u8]) -> Result<Option<Edit>, EditFault>
    ensures { Gives (option_map edit_view) told_by result (spec.spelled_in line.now) }
{
    if is_passed_over(line) {
        return Ok(None);
    }
    match str::from_utf8(line) {
        Ok(text) => Edit::parse(alloc, text),
        Err(_) => Err(EditFault::Refused {
            code: EditCode::E1,
            doc: None,
        }),
    }
}
