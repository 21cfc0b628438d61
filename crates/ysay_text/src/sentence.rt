//! What is said of the statements of a line in which one isn't known, isn't read or can't stand.

ghost use Rattle.std.specs.Prelude.{◌≡◌, ◌++◌, IfOk, OnOk, find, option_map, string_bytes, ◌∷◌, [], Some, None, false};
ghost use Rattle.std.specs.Option.{option_map_or};
ghost use Rattle.yspec.specs.linking.Keyword.{type_word};
ghost use Rattle.yspec.specs.linking.StatementBreaks.{has_keyword, is_prefixed, is_type_outside};
ghost use Rattle.ytext.specs.View.{modules_view, row_view};
ghost use Rattle.ysay_text.specs.Sentence as spec;
ghost use Rattle.ysay_text.specs.Near.{nearest};
ghost use Rattle.ysay_text.specs.Word.{yang_words};
ghost use Rattle.ysay_text.specs.Labels.{label, labels};

use crate::line::shown;
use crate::word::{is_unread, nearest_word};
use std::alloc::{AllocError, Global};
use ybase_words::Keyword;
use ytext::{Module, Stmt, offset_of};

fn unread_word(alloc: Global, before: &str, word: &str) -> Result<String, AllocError>
    ensures { IfOk result (λ text. string_bytes text ≡ spec.unread_word (before.now ++ word.now)) }
{
    [before, word, " is YANG 1.1, and isn't read here."].concat(alloc)
}

fn unknown_near(alloc: Global, word: &str, near: &str) -> Result<String, AllocError>
    ensures { IfOk result (λ text. string_bytes text ≡ spec.unknown_word word.now (Some near.now)) }
{
    let seen = shown(alloc, word.as_bytes())?;
    [
        "no statement is called ",
        seen.as_str(),
        "; near it: ",
        near,
        ".",
    ]
    .concat(alloc)
}

fn unknown_far(alloc: Global, word: &str) -> Result<String, AllocError>
    ensures { IfOk result (λ text. string_bytes text ≡ spec.unknown_word word.now None) }
{
    let seen = shown(alloc, word.as_bytes())?;
    ["no statement is called ", seen.as_str(), "."].concat(alloc)
}

fn unknown_word(alloc: Global, word: &str) -> Result<String, AllocError>
    ensures { IfOk result (λ text. string_bytes text
        ≡ spec.unknown_word word.now (nearest word.now yang_words)) }
{
    match nearest_word(word) {
        Some(near) => unknown_near(alloc, word, near),
        None => unknown_far(alloc, word),
    }
}

/// Of a word that is no keyword which is read.
fn of_word(alloc: Global, word: &str) -> Result<String, AllocError>
    ensures { IfOk result (λ text. string_bytes text ≡ spec.of_word word.now) }
{
    if is_unread(word) {
        unread_word(alloc, "", word)
    } else {
        unknown_word(alloc, word)
    }
}

fn is_prefixed(statement: &Stmt) -> bool
    ensures { result ≡ is_prefixed (label statement.now).keyword }
{
    offset_of(statement.keyword().as_bytes(), b':').is_some()
}

/// Whether its keyword isn't read; one with a prefix is an extension's.
fn is_foreign(statement: &Stmt) -> bool
    ensures { result ≡ spec.is_foreign (label statement.now) }
{
    !is_prefixed(statement) && Keyword::named(statement.keyword()).is_none()
}

fn is_type(statement: &Stmt) -> bool
    ensures { result ≡ has_keyword type_word (label statement.now) }
{
    match Keyword::named(statement.keyword()) {
        Some(named) => Keyword::Type.is(named),
        None => false,
    }
}

fn has_foreign_name(statement: &Stmt) -> bool
    ensures { result ≡ option_map_or is_type_outside (label statement.now).argument false }
{
    matches!(
        statement.argument(),
        Some("binary") | Some("instance-identifier")
    )
}

/// Whether it is a `type` of a built-in type that isn't read.
fn is_foreign_type(statement: &Stmt) -> bool
    ensures { result ≡ spec.is_foreign_type (label statement.now) }
{
    is_type(statement) && has_foreign_name(statement)
}

fn first_foreign<'a>(statements: &[&'a Stmt]) -> Option<&'a Stmt>
    ensures { option_map (λ s. label s.now) result
        ≡ find spec.is_foreign (labels statements.now) }
{
    for statement in statements {
        if is_foreign(*statement) {
            return Some(*statement);
        }
    }
    None
}

fn first_foreign_type<'a>(statements: &[&'a Stmt]) -> Option<&'a Stmt>
    ensures { option_map (λ s. label s.now) result
        ≡ find spec.is_foreign_type (labels statements.now) }
{
    for statement in statements {
        if is_foreign_type(*statement) {
            return Some(*statement);
        }
    }
    None
}

fn misplaced_word(alloc: Global, statement: &Stmt) -> Result<String, AllocError>
    ensures { IfOk result (λ text. string_bytes text
        ≡ spec.misplaced_word (label statement.now).keyword) }
{
    let seen = shown(alloc, statement.keyword().as_bytes())?;
    [seen.as_str(), " can't stand here."].concat(alloc)
}

fn of_misplaced(alloc: Global, statements: &[&Stmt]) -> Result<String, AllocError>
    ensures { IfOk result (λ text. string_bytes text ≡ spec.of_misplaced (labels statements.now)) }
{
    match statements.split_first() {
        Some((statement, others)) => {
            if others.is_empty() {
                misplaced_word(alloc, *statement)
            } else {
                Ok(String::new(alloc))
            }
        }
        None => Ok(String::new(alloc)),
    }
}

fn of_type(alloc: Global, statement: &Stmt) -> Result<String, AllocError>
    ensures { IfOk result (λ text. string_bytes text ≡ spec.of_type (label statement.now).argument) }
{
    match statement.argument() {
        Some(name) => unread_word(alloc, "the type ", name),
        None => Ok(String::new(alloc)),
    }
}

fn of_statements(alloc: Global, statements: &[&Stmt]) -> Result<String, AllocError>
    ensures { IfOk result (λ text. string_bytes text
        ≡ spec.of_statements (find spec.is_foreign (labels statements.now))
        (labels statements.now)) }
{
    match first_foreign(statements) {
        Some(statement) => of_word(alloc, statement.keyword()),
        None => match first_foreign_type(statements) {
            Some(statement) => of_type(alloc, statement),
            None => of_misplaced(alloc, statements),
        },
    }
}

/// Adds a statement and those below it whose keywords stand in a line.
#[cycle(lines)]
fn add_in_line<'a>(
    line: u32,
    statement: &'a Stmt,
    found: &mut Vec<&'a Stmt>,
) -> Result<(), AllocError>
    ensures { OnOk result (labels found.new.items ≡ labels found.old.items
        ++ spec.in_line line (row_view (statement.now ∷ []))) }
{
    if statement.line() == line {
        found.push(statement)?;
    }
    add_row_in_line(line, statement.substatements(), found)
}

#[cycle(lines)]
fn add_row_in_line<'a>(
    line: u32,
    statements: &'a [Stmt],
    found: &mut Vec<&'a Stmt>,
) -> Result<(), AllocError>
    ensures { OnOk result (labels found.new.items ≡ labels found.old.items
        ++ spec.in_line line (row_view statements.now)) }
{
    for statement in statements {
        add_in_line(line, statement, found)?;
    }
    Ok(())
}

/// What is said of a line of a module in which a statement isn't known, isn't read or can't stand; an empty text where
/// several statements stand there, and any of them may be meant.
#[tactic(auto, unfolding(crate::specs::Sentence::of_line))]
pub fn line_sentence(alloc: Global, line: u32, of: &Module) -> Result<String, AllocError>
    ensures { IfOk result (λ text. string_bytes text
        ≡ spec.of_line line (modules_view (of.now ∷ []))) }
{
    let mut found = Vec::new(alloc);
    add_in_line(line, &of.top, &mut found)?;
    of_statements(alloc, &found)
}
