//! What is said of the first statement of a line that takes a name which another one has.

ghost use Rattle.std.specs.Prelude.{◌≡◌, ◌∷◌, [], IfOk, map, option_and_then, option_map, string_bytes};
ghost use Rattle.ytext.specs.View.{modules_view, row_view, view};
ghost use Rattle.ysay_text.specs.Labels.{label};
ghost use Rattle.ysay_sets.specs.Taken as spec;

use itoa::Buffer;
use std::alloc::{AllocError, Global};
use ysay_names::{all_statements, built_in_names, is_among, is_named, is_word};
use ysay_text::shown;
use ytext::{Module, Stmt};

fn has_named(name: &str, modules: &[Module]) -> bool
    ensures { result ≡ spec.has_named name.now (modules_view modules.now) }
{
    for module in modules {
        if is_named(name, &module.top) {
            return true;
        }
    }
    false
}

/// Whether two modules have a name.
fn has_two(name: &str, modules: &[Module]) -> bool
    ensures { result ≡ spec.has_two name.now (modules_view modules.now) }
{
    for place in 0..modules.len() {
        if is_named(name, &modules[place].top) {
            return has_named(name, &modules[place + 1..]);
        }
    }
    false
}

fn of_module(alloc: Global, modules: &[Module], name: &str) -> Result<Option<String>, AllocError>
    ensures { IfOk result (λ text. option_map string_bytes text ≡ spec.of_module (modules_view modules.now) name.now) }
{
    if !has_two(name, modules) {
        return Ok(None);
    }
    let seen = shown(alloc, name.as_bytes())?;
    Ok(Some(["two modules are called ", seen.as_str(), "."].concat(alloc)?))
}

fn is_called(word: &str, name: &str, statement: &Stmt) -> bool
    ensures { result ≡ spec.is_called word.now name.now (label statement.now) }
{
    is_word(word, statement) && is_named(name, statement)
}

/// The line of the first statement of a row with a keyword and a name.
fn line_in(word: &str, name: &str, row: &[Stmt]) -> Option<u32>
    ensures { result ≡ spec.line_in word.now name.now (row_view row.now) }
{
    for statement in row {
        if is_called(word, name, statement) {
            return Some(statement.line());
        }
    }
    None
}

/// Of several definitions around a statement the outermost has the name, and there the first.
fn held_in(word: &str, name: &str, held: Option<u32>, row: &[Stmt]) -> Option<u32>
    ensures { result ≡ spec.held_in word.now name.now held (row_view row.now) }
{
    match held {
        Some(line) => Some(line),
        None => line_in(word, name, row),
    }
}

/// The line of the definition that has the name where the first one of a line stands, if that is a statement or stands below it.
#[cycle(holders)]
fn holder_at(word: &str, name: &str, line: u32, held: Option<u32>, statement: &Stmt) -> Option<u32>
    ensures { result ≡ spec.holder word.now name.now line held (row_view (statement.now ∷ [])) }
{
    if statement.line() == line && is_called(word, name, statement) {
        held
    } else {
        let below = held_in(word, name, held, statement.substatements());
        holder(word, name, line, below, statement.substatements())
    }
}

#[cycle(holders)]
fn holder(word: &str, name: &str, line: u32, held: Option<u32>, statements: &[Stmt]) -> Option<u32>
    ensures { result ≡ spec.holder word.now name.now line held (row_view statements.now) }
{
    for statement in statements {
        if let Some(found) = holder_at(word, name, line, held, statement) {
            return Some(found);
        }
    }
    None
}

fn several(alloc: Global, word: &str) -> Result<String, AllocError>
    ensures { IfOk result (λ text. string_bytes text ≡ spec.several word.now) }
{
    if word == "identity" {
        String::from_str(alloc, "identities")
    } else {
        [word, "s"].concat(alloc)
    }
}

fn taken(alloc: Global, word: &str, name: &str, other: u32) -> Result<String, AllocError>
    ensures { IfOk result (λ text. string_bytes text ≡ spec.taken word.now name.now other) }
{
    let kind = several(alloc, word)?;
    let seen = shown(alloc, name.as_bytes())?;
    let mut digits = Buffer::new();
    [
        "two ",
        kind.as_str(),
        " are called ",
        seen.as_str(),
        "; the other stands in line ",
        digits.format(other),
        ".",
    ]
    .concat(alloc)
}

/// What is said of a definition of a line, where another one has its name.
fn of_name(
    alloc: Global,
    line: u32,
    top: &Stmt,
    word: &str,
    name: &str,
) -> Result<Option<String>, AllocError>
    ensures { IfOk result (λ text. option_map string_bytes text
        ≡ spec.of_name line (row_view (top.now ∷ [])) word.now name.now) }
{
    let Some(other) = holder_at(word, name, line, None, top) else {
        return Ok(None);
    };
    if other == line {
        return Ok(None);
    }
    Ok(Some(taken(alloc, word, name, other)?))
}

fn of_typedef(alloc: Global, name: &str) -> Result<Option<String>, AllocError>
    ensures { IfOk result (λ text. option_map string_bytes text ≡ spec.of_typedef name.now) }
{
    if !is_among(built_in_names(), name) {
        return Ok(None);
    }
    let seen = shown(alloc, name.as_bytes())?;
    Ok(Some([seen.as_str(), " is a built-in type."].concat(alloc)?))
}

const DEFINITION_WORDS: &[&str] = &["grouping", "identity", "feature"];

fn definition_words() -> &'static [&'static str]
    ensures { map (λ w. w.now) result.now ≡ spec.definition_words }
{
    DEFINITION_WORDS
}

fn of_definition(
    alloc: Global,
    line: u32,
    top: &Stmt,
    word: &str,
    name: &str,
) -> Result<Option<String>, AllocError>
    ensures { IfOk result (λ text. option_map string_bytes text
        ≡ spec.of_definition line (row_view (top.now ∷ [])) word.now name.now) }
{
    if word == "typedef" {
        match of_typedef(alloc, name)? {
            Some(said) => Ok(Some(said)),
            None => of_name(alloc, line, top, word, name),
        }
    } else if is_among(definition_words(), word) {
        of_name(alloc, line, top, word, name)
    } else {
        Ok(None)
    }
}

fn of_argument(
    alloc: Global,
    line: u32,
    top: &Stmt,
    word: &str,
    argument: Option<&str>,
) -> Result<Option<String>, AllocError>
    ensures { IfOk result (λ text. option_map string_bytes text ≡ option_and_then
        (spec.of_definition line (row_view (top.now ∷ [])) word.now) (option_map (λ t. t.now) argument.entry)) }
{
    match argument {
        Some(name) => of_definition(alloc, line, top, word, name),
        None => Ok(None),
    }
}

fn of_statement(
    alloc: Global,
    line: u32,
    top: &Stmt,
    statement: &Stmt,
) -> Result<Option<String>, AllocError>
    ensures { IfOk result (λ text. option_map string_bytes text
        ≡ spec.of_entry line (row_view (top.now ∷ [])) (view statement.now)) }
{
    if statement.line() == line {
        of_argument(alloc, line, top, statement.keyword(), statement.argument())
    } else {
        Ok(None)
    }
}

fn of_statements(
    alloc: Global,
    line: u32,
    top: &Stmt,
    statements: &[&Stmt],
) -> Result<String, AllocError>
    ensures { IfOk result (λ text. string_bytes text
        ≡ spec.of_entries line (row_view (top.now ∷ [])) (map (λ s. view s.now) statements.now)) }
{
    for statement in statements {
        if let Some(said) = of_statement(alloc, line, top, *statement)? {
            return Ok(said);
        }
    }
    Ok(String::new(alloc))
}

fn of_module_named(
    alloc: Global,
    modules: &[Module],
    name: Option<&str>,
) -> Result<Option<String>, AllocError>
    ensures { IfOk result (λ text. option_map string_bytes text ≡ option_and_then
        (spec.of_module (modules_view modules.now)) (option_map (λ t. t.now) name.entry)) }
{
    match name {
        Some(name) => of_module(alloc, modules, name),
        None => Ok(None),
    }
}

/// What is said of a module that another one is called as.
fn of_top(
    alloc: Global,
    line: u32,
    modules: &[Module],
    top: &Stmt,
) -> Result<Option<String>, AllocError>
    ensures { IfOk result (λ text. option_map string_bytes text
        ≡ spec.of_top line (modules_view modules.now) (row_view (top.now ∷ []))) }
{
    if top.line() == line && is_word("module", top) {
        of_module_named(alloc, modules, top.argument())
    } else {
        Ok(None)
    }
}

/// What is said of a line of a module of a set in which a name is taken.
#[tactic(auto, unfolding(crate::specs::Taken::of_line))]
pub fn taken_sentence(
    alloc: Global,
    line: u32,
    modules: &[Module],
    of: &Module,
) -> Result<String, AllocError>
    ensures { IfOk result (λ text. string_bytes text
        ≡ spec.of_line line (modules_view modules.now) (modules_view (of.now ∷ []))) }
{
    if let Some(said) = of_top(alloc, line, modules, &of.top)? {
        return Ok(said);
    }
    let statements = all_statements(alloc, of.top.substatements())?;
    of_statements(alloc, line, &of.top, &statements)
}
