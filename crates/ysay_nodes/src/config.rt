//! What is said of the first node of a line that is configuration below state, or a list of configuration without a key.

ghost use Rattle.std.specs.Prelude.{◌≡◌, ◌++◌, ◌∷◌, [], IfOk, OnOk, map, option_map, string_bytes};
ghost use Rattle.ytext.specs.View.{modules_view, row_view, view};
ghost use Rattle.ysay_text.specs.Labels.{label};
ghost use Rattle.ysay_nodes.specs.Config as spec;

use crate::needed::name_of;
use itoa::Buffer;
use std::alloc::{AllocError, Global};
use ysay_names::{all_statements, has_word, is_named, is_word};
use ysay_text::shown;
use ytext::{Module, Stmt};

fn says_config(text: &str, statement: &Stmt) -> bool
    ensures { result ≡ spec.says_config text.now (label statement.now) }
{
    is_word("config", statement) && is_named(text, statement)
}

/// The line of the first `config` statement of a row with an argument.
fn config_line(text: &str, row: &[Stmt]) -> Option<u32>
    ensures { result ≡ spec.config_line text.now (row_view row.now) }
{
    for statement in row {
        if says_config(text, statement) {
            return Some(statement.line());
        }
    }
    None
}

fn is_state(row: &[Stmt]) -> bool
    ensures { result ≡ spec.is_state (row_view row.now) }
{
    config_line("false", row).is_some()
}

fn contradicted(alloc: Global, own: u32, name: &str, other: u32) -> Result<String, AllocError>
    ensures { IfOk result (λ text. string_bytes text ≡ spec.contradicted own name.now other) }
{
    let seen = shown(alloc, name.as_bytes())?;
    let mut digits = Buffer::new();
    let mut others = Buffer::new();
    [
        "config true (line ",
        digits.format(own),
        ") stands below config false of ",
        seen.as_str(),
        " (line ",
        others.format(other),
        ").",
    ]
    .concat(alloc)
}

/// What is said of a statement of a line that says config true, below one that says config false in another.
fn of_config(
    alloc: Global,
    line: u32,
    name: &str,
    other: u32,
    statement: &Stmt,
) -> Result<Option<String>, AllocError>
    ensures { IfOk result (λ text. option_map string_bytes text ≡ spec.of_config line name.now other (view statement.now)) }
{
    if statement.line() != line {
        return Ok(None);
    }
    match config_line("true", statement.substatements()) {
        Some(own) => Ok(Some(contradicted(alloc, own, name, other)?)),
        None => Ok(None),
    }
}

fn of_configs(
    alloc: Global,
    line: u32,
    name: &str,
    other: u32,
    statements: &[&Stmt],
) -> Result<Option<String>, AllocError>
    ensures { IfOk result (λ text. option_map string_bytes text
        ≡ spec.of_configs line name.now other (map (λ s. view s.now) statements.now)) }
{
    for statement in statements {
        if let Some(said) = of_config(alloc, line, name, other, *statement)? {
            return Ok(Some(said));
        }
    }
    Ok(None)
}

fn of_state(alloc: Global, line: u32, statement: &Stmt) -> Result<Option<String>, AllocError>
    ensures { IfOk result (λ text. option_map string_bytes text ≡ spec.of_state line (view statement.now)) }
{
    let Some(other) = config_line("false", statement.substatements()) else {
        return Ok(None);
    };
    let below = all_statements(alloc, statement.substatements())?;
    of_configs(alloc, line, name_of(statement), other, &below)
}

fn of_states(alloc: Global, line: u32, statements: &[&Stmt]) -> Result<Option<String>, AllocError>
    ensures { IfOk result (λ text. option_map string_bytes text
        ≡ spec.of_states line (map (λ s. view s.now) statements.now)) }
{
    for statement in statements {
        if let Some(said) = of_state(alloc, line, *statement)? {
            return Ok(Some(said));
        }
    }
    Ok(None)
}

/// Adds a statement, and those below it that stand below none which says config false.
#[cycle(frees)]
fn add_free<'a>(statement: &'a Stmt, found: &mut Vec<&'a Stmt>) -> Result<(), AllocError>
    ensures { OnOk result (map (λ s. view s.now) found.new.items ≡ map (λ s. view s.now) found.old.items
        ++ spec.free (row_view (statement.now ∷ []))) }
{
    found.push(statement)?;
    if is_state(statement.substatements()) {
        Ok(())
    } else {
        add_row_free(statement.substatements(), found)
    }
}

#[cycle(frees)]
fn add_row_free<'a>(statements: &'a [Stmt], found: &mut Vec<&'a Stmt>) -> Result<(), AllocError>
    ensures { OnOk result (map (λ s. view s.now) found.new.items ≡ map (λ s. view s.now) found.old.items
        ++ spec.free (row_view statements.now)) }
{
    for statement in statements {
        add_free(statement, found)?;
    }
    Ok(())
}

fn is_keyless(statement: &Stmt) -> bool
    ensures { result ≡ spec.is_keyless (view statement.now) }
{
    is_word("list", statement)
        && !(has_word("key", statement.substatements()) || is_state(statement.substatements()))
}

fn keyless(alloc: Global, statement: &Stmt) -> Result<String, AllocError>
    ensures { IfOk result (λ text. string_bytes text ≡ spec.keyless (label statement.now)) }
{
    let seen = shown(alloc, name_of(statement).as_bytes())?;
    [
        "the list ",
        seen.as_str(),
        " is configuration and has no key.",
    ]
    .concat(alloc)
}

fn of_free(alloc: Global, line: u32, statement: &Stmt) -> Result<Option<String>, AllocError>
    ensures { IfOk result (λ text. option_map string_bytes text ≡ spec.of_free line (view statement.now)) }
{
    if statement.line() == line && is_keyless(statement) {
        Ok(Some(keyless(alloc, statement)?))
    } else {
        Ok(None)
    }
}

fn of_frees(alloc: Global, line: u32, statements: &[&Stmt]) -> Result<String, AllocError>
    ensures { IfOk result (λ text. string_bytes text ≡ spec.of_frees line (map (λ s. view s.now) statements.now)) }
{
    for statement in statements {
        if let Some(said) = of_free(alloc, line, *statement)? {
            return Ok(said);
        }
    }
    Ok(String::new(alloc))
}

/// What is said of a line of a module in which configuration can't stand where it does.
#[tactic(auto, unfolding(crate::specs::Config::of_line))]
pub fn config_sentence(alloc: Global, line: u32, of: &Module) -> Result<String, AllocError>
    ensures { IfOk result (λ text. string_bytes text ≡ spec.of_line line (modules_view (of.now ∷ []))) }
{
    let statements = all_statements(alloc, of.top.substatements())?;
    if let Some(said) = of_states(alloc, line, &statements)? {
        return Ok(said);
    }
    let mut free = Vec::new(alloc);
    add_row_free(of.top.substatements(), &mut free)?;
    of_frees(alloc, line, &free)
}
