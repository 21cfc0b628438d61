//! Statements of a module by keyword.

ghost use Rattle.std.specs.Prelude.{◌≡◌, ◌++◌, ◌∷◌, [], IfOk, OnOk, map, option_map};
ghost use Rattle.std.specs.List.{list_any};
ghost use Rattle.ytext.specs.View.{row_view, view};
ghost use Rattle.ysay_text.specs.Labels.{label, labels};
ghost use Rattle.ysay_names.specs.Rows as spec;

use std::alloc::{AllocError, Global};
use ytext::Stmt;

/// Whether a statement has a keyword.
pub fn is_word(word: &str, statement: &Stmt) -> bool
    ensures { result ≡ spec.is_word word.now (label statement.now) }
{
    statement.keyword() == word
}

/// Whether the argument of a statement is a name.
pub fn is_named(name: &str, statement: &Stmt) -> bool
    ensures { result ≡ spec.is_named name.now (label statement.now) }
{
    match statement.argument() {
        Some(argument) => argument == name,
        None => false,
    }
}

/// Whether a row has a statement with a keyword.
pub fn has_word(word: &str, row: &[Stmt]) -> bool
    ensures { result ≡ spec.has_word word.now (row_view row.now) }
{
    for statement in row {
        if is_word(word, statement) {
            return true;
        }
    }
    false
}

pub(crate) fn add_argument<'a>(
    statement: &'a Stmt,
    texts: &mut Vec<&'a str>,
) -> Result<(), AllocError>
    ensures { OnOk result (map (λ t. t.now) texts.new.items
        ≡ map (λ t. t.now) texts.old.items ++ spec.argument_of (label statement.now)) }
{
    if let Some(text) = statement.argument() {
        texts.push(text)?;
    }
    Ok(())
}

/// Adds the argument of a statement that has a keyword.
pub(crate) fn add_called<'a>(
    word: &str,
    statement: &'a Stmt,
    texts: &mut Vec<&'a str>,
) -> Result<(), AllocError>
    ensures { OnOk result (map (λ t. t.now) texts.new.items
        ≡ map (λ t. t.now) texts.old.items ++ spec.argument_called word.now (label statement.now)) }
{
    if is_word(word, statement) {
        add_argument(statement, texts)
    } else {
        Ok(())
    }
}

/// Adds the arguments of the statements of a row that have a keyword.
pub(crate) fn add_row_called<'a>(
    word: &str,
    row: &'a [Stmt],
    texts: &mut Vec<&'a str>,
) -> Result<(), AllocError>
    ensures { OnOk result (map (λ t. t.now) texts.new.items
        ≡ map (λ t. t.now) texts.old.items ++ spec.arguments_called word.now (row_view row.now)) }
{
    for statement in row {
        add_called(word, statement, texts)?;
    }
    Ok(())
}

/// Adds the argument of a statement that has a keyword, and those of such ones below it.
#[cycle(called)]
fn add_called_below<'a>(
    word: &str,
    statement: &'a Stmt,
    texts: &mut Vec<&'a str>,
) -> Result<(), AllocError>
    ensures { OnOk result (map (λ t. t.now) texts.new.items
        ≡ map (λ t. t.now) texts.old.items ++ spec.all_arguments_called word.now (row_view (statement.now ∷ []))) }
{
    add_called(word, statement, texts)?;
    add_all_called(word, statement.substatements(), texts)
}

/// Adds the arguments of the statements of a row that have a keyword, and those of such ones below them.
#[cycle(called)]
pub(crate) fn add_all_called<'a>(
    word: &str,
    row: &'a [Stmt],
    texts: &mut Vec<&'a str>,
) -> Result<(), AllocError>
    ensures { OnOk result (map (λ t. t.now) texts.new.items
        ≡ map (λ t. t.now) texts.old.items ++ spec.all_arguments_called word.now (row_view row.now)) }
{
    for statement in row {
        add_called_below(word, statement, texts)?;
    }
    Ok(())
}

/// Adds a statement and those below it whose keywords stand in a line.
#[cycle(lines)]
pub(crate) fn add_in_line<'a>(
    line: u32,
    statement: &'a Stmt,
    found: &mut Vec<&'a Stmt>,
) -> Result<(), AllocError>
    ensures { OnOk result (labels found.new.items ≡ labels found.old.items
        ++ spec.in_line line (row_view (statement.now ∷ []))) }
{
    if statement.line() == line {
        found.push(statement)?;
    }
    add_row_in_line(line, statement.substatements(), found)
}

#[cycle(lines)]
fn add_row_in_line<'a>(
    line: u32,
    statements: &'a [Stmt],
    found: &mut Vec<&'a Stmt>,
) -> Result<(), AllocError>
    ensures { OnOk result (labels found.new.items ≡ labels found.old.items
        ++ spec.in_line line (row_view statements.now)) }
{
    for statement in statements {
        add_in_line(line, statement, found)?;
    }
    Ok(())
}

/// Adds a statement and those below it.
#[cycle(entries)]
fn add_entries<'a>(statement: &'a Stmt, found: &mut Vec<&'a Stmt>) -> Result<(), AllocError>
    ensures { OnOk result (map (λ s. view s.now) found.new.items ≡ map (λ s. view s.now) found.old.items
        ++ spec.entries (row_view (statement.now ∷ []))) }
{
    found.push(statement)?;
    add_row_entries(statement.substatements(), found)
}

#[cycle(entries)]
fn add_row_entries<'a>(statements: &'a [Stmt], found: &mut Vec<&'a Stmt>) -> Result<(), AllocError>
    ensures { OnOk result (map (λ s. view s.now) found.new.items ≡ map (λ s. view s.now) found.old.items
        ++ spec.entries (row_view statements.now)) }
{
    for statement in statements {
        add_entries(statement, found)?;
    }
    Ok(())
}

/// All statements of a row and below it, in order.
pub fn all_statements<'a>(alloc: Global, row: &'a [Stmt]) -> Result<Vec<&'a Stmt>, AllocError>
    ensures { IfOk result (λ found. map (λ s. view s.now) found.items ≡ spec.entries (row_view row.entry.now)) }
{
    let mut found = Vec::new(alloc);
    add_row_entries(row, &mut found)?;
    Ok(found)
}

fn is_called(word: &str, name: &str, statement: &Stmt) -> bool
    ensures { result ≡ spec.is_called word.now name.now (view statement.now) }
{
    is_word(word, statement) && is_named(name, statement)
}

fn has_called(word: &str, name: &str, statements: &[&Stmt]) -> bool
    ensures { result ≡ list_any (spec.is_called word.now name.now) (map (λ s. view s.now) statements.now) }
{
    for statement in statements {
        if is_called(word, name, *statement) {
            return true;
        }
    }
    false
}

fn alone<'a>(statement: &'a Stmt, others: bool) -> Option<&'a Stmt>
    ensures { option_map (λ s. view s.now) result ≡ spec.alone (view statement.entry.now) others }
{
    if others { None } else { Some(statement) }
}

/// The statement with a keyword and a name, if there is one alone.
pub fn only_called<'a>(word: &str, name: &str, statements: &[&'a Stmt]) -> Option<&'a Stmt>
    ensures { option_map (λ s. view s.now) result ≡ spec.only_called word.now name.now (map (λ s. view s.now) statements.now) }
{
    for place in 0..statements.len() {
        if is_called(word, name, statements[place]) {
            return alone(
                statements[place],
                has_called(word, name, &statements[place + 1..]),
            );
        }
    }
    None
}
