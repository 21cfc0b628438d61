//! What is said of the first augment of a line that adds a node which must be there.

ghost use Rattle.std.specs.Prelude.{◌≡◌, ◌++◌, ◌∷◌, [], find, IfOk, OnOk, map, option_map, string_bytes};
ghost use Rattle.ytext.specs.View.{modules_view, row_view, view};
ghost use Rattle.ysay_text.specs.Labels.{label};
ghost use Rattle.ysay_nodes.specs.Needed as spec;

use itoa::Buffer;
use std::alloc::{AllocError, Global};
use ysay_names::{all_statements, arguments_called, has_word, is_among, is_word};
use ysay_text::shown;
use ytext::{Module, Stmt};

/// Whether a row has a statement with a keyword and an argument.
fn states(alloc: Global, word: &str, text: &str, row: &[Stmt]) -> Result<bool, AllocError>
    ensures { IfOk result (λ b. b ≡ spec.states word.now text.now (row_view row.now)) }
{
    let arguments = arguments_called(alloc, word, row)?;
    Ok(is_among(&arguments, text))
}

pub(crate) fn name_of(statement: &Stmt) -> &str
    ensures { result.now ≡ spec.name_of (label statement.entry.now) }
{
    match statement.argument() {
        Some(name) => name,
        None => "",
    }
}

/// A name, and the line where it stands.
fn placed(alloc: Global, statement: &Stmt) -> Result<String, AllocError>
    ensures { IfOk result (λ text. string_bytes text ≡ spec.placed (label statement.now)) }
{
    let seen = shown(alloc, name_of(statement).as_bytes())?;
    let mut digits = Buffer::new();
    [
        seen.as_str(),
        " (line ",
        digits.format(statement.line()),
        ")",
    ]
    .concat(alloc)
}

const FLAGGED_WORDS: &[&str] = &["leaf", "choice", "anydata", "anyxml"];

fn flagged_words() -> &'static [&'static str]
    ensures { map (λ w. w.now) result.now ≡ spec.flagged_words }
{
    FLAGGED_WORDS
}

const COUNTED_WORDS: &[&str] = &["leaf-list", "list"];

fn counted_words() -> &'static [&'static str]
    ensures { map (λ w. w.now) result.now ≡ spec.counted_words }
{
    COUNTED_WORDS
}

fn of_flagged(alloc: Global, statement: &Stmt) -> Result<Option<String>, AllocError>
    ensures { IfOk result (λ text. option_map string_bytes text
        ≡ spec.of_flagged (view statement.now).0 (view statement.now).1) }
{
    if !states(alloc, "mandatory", "true", statement.substatements())? {
        return Ok(None);
    }
    let front = placed(alloc, statement)?;
    Ok(Some([front.as_str(), " is mandatory."].concat(alloc)?))
}

/// The first of some amounts that isn't nothing.
fn first_amount<'a>(amounts: &[&'a str]) -> Option<&'a str>
    ensures { option_map (λ t. t.now) result ≡ find spec.is_amount (map (λ t. t.now) amounts.now) }
{
    for amount in amounts {
        if *amount != "0" {
            return Some(*amount);
        }
    }
    None
}

/// How many there must be, where a row says so.
fn least_amount<'a>(alloc: Global, row: &'a [Stmt]) -> Result<Option<&'a str>, AllocError>
    ensures { IfOk result (λ amount. option_map (λ t. t.now) amount ≡ spec.least_amount (row_view row.entry.now)) }
{
    let amounts = arguments_called(alloc, "min-elements", row)?;
    Ok(first_amount(&amounts))
}

fn amount_text(alloc: Global, statement: &Stmt, amount: &str) -> Result<String, AllocError>
    ensures { IfOk result (λ text. string_bytes text ≡ spec.amount_text (label statement.now) amount.now) }
{
    let front = placed(alloc, statement)?;
    let seen = shown(alloc, amount.as_bytes())?;
    [front.as_str(), " has min-elements ", seen.as_str(), "."].concat(alloc)
}

fn of_counted(alloc: Global, statement: &Stmt) -> Result<Option<String>, AllocError>
    ensures { IfOk result (λ text. option_map string_bytes text
        ≡ spec.of_counted (view statement.now).0 (view statement.now).1) }
{
    match least_amount(alloc, statement.substatements())? {
        Some(amount) => Ok(Some(amount_text(alloc, statement, amount)?)),
        None => Ok(None),
    }
}

fn of_node(alloc: Global, statement: &Stmt) -> Result<Option<String>, AllocError>
    ensures { IfOk result (λ text. option_map string_bytes text
        ≡ spec.of_node (view statement.now).0 (view statement.now).1) }
{
    if is_among(flagged_words(), statement.keyword()) {
        of_flagged(alloc, statement)
    } else if is_among(counted_words(), statement.keyword()) {
        of_counted(alloc, statement)
    } else {
        Ok(None)
    }
}

/// Whether a statement is a container without presence.
fn is_plain(statement: &Stmt) -> bool
    ensures { result ≡ spec.is_plain (view statement.now).0 (view statement.now).1 }
{
    is_word("container", statement) && !has_word("presence", statement.substatements())
}

/// Adds a node, or in place of a container without presence the nodes in it.
#[cycle(inners)]
fn add_inner<'a>(statement: &'a Stmt, found: &mut Vec<&'a Stmt>) -> Result<(), AllocError>
    ensures { OnOk result (map (λ s. view s.now) found.new.items ≡ map (λ s. view s.now) found.old.items
        ++ spec.inner_nodes (row_view (statement.now ∷ []))) }
{
    if is_plain(statement) {
        return add_row_inner(statement.substatements(), found);
    }
    found.push(statement)?;
    Ok(())
}

#[cycle(inners)]
fn add_row_inner<'a>(statements: &'a [Stmt], found: &mut Vec<&'a Stmt>) -> Result<(), AllocError>
    ensures { OnOk result (map (λ s. view s.now) found.new.items ≡ map (λ s. view s.now) found.old.items
        ++ spec.inner_nodes (row_view statements.now)) }
{
    for statement in statements {
        add_inner(statement, found)?;
    }
    Ok(())
}

/// Adds the nodes of an added one that may have to be there.
fn add_added<'a>(
    alloc: Global,
    statement: &'a Stmt,
    found: &mut Vec<&'a Stmt>,
) -> Result<(), AllocError>
    ensures { OnOk result (map (λ s. view s.now) found.new.items ≡ map (λ s. view s.now) found.old.items
        ++ spec.added (row_view (statement.now ∷ []))) }
{
    if states(alloc, "config", "false", statement.substatements())? {
        Ok(())
    } else {
        add_inner(statement, found)
    }
}

fn added<'a>(alloc: Global, row: &'a [Stmt]) -> Result<Vec<&'a Stmt>, AllocError>
    ensures { IfOk result (λ found. map (λ s. view s.now) found.items ≡ spec.added (row_view row.entry.now)) }
{
    let mut found = Vec::new(alloc);
    for statement in row {
        add_added(alloc, statement, &mut found)?;
    }
    Ok(found)
}

/// What is said of the first of several nodes that must be there.
fn of_nodes(alloc: Global, nodes: &[&Stmt]) -> Result<Option<String>, AllocError>
    ensures { IfOk result (λ text. option_map string_bytes text ≡ spec.of_nodes (map (λ s. view s.now) nodes.now)) }
{
    for node in nodes {
        if let Some(said) = of_node(alloc, *node)? {
            return Ok(Some(said));
        }
    }
    Ok(None)
}

fn of_augment(alloc: Global, row: &[Stmt]) -> Result<Option<String>, AllocError>
    ensures { IfOk result (λ text. option_map string_bytes text ≡ spec.of_nodes (spec.added (row_view row.now))) }
{
    let nodes = added(alloc, row)?;
    of_nodes(alloc, &nodes)
}

fn of_statement(alloc: Global, line: u32, statement: &Stmt) -> Result<Option<String>, AllocError>
    ensures { IfOk result (λ text. option_map string_bytes text ≡ spec.of_entry line (view statement.now)) }
{
    if statement.line() == line && is_word("augment", statement) {
        of_augment(alloc, statement.substatements())
    } else {
        Ok(None)
    }
}

fn of_statements(alloc: Global, line: u32, statements: &[&Stmt]) -> Result<String, AllocError>
    ensures { IfOk result (λ text. string_bytes text
        ≡ spec.of_entries line (map (λ s. view s.now) statements.now)) }
{
    for statement in statements {
        if let Some(said) = of_statement(alloc, line, *statement)? {
            return Ok(said);
        }
    }
    Ok(String::new(alloc))
}

/// What is said of a line of a module in which an augment adds what must be there.
#[tactic(auto, unfolding(crate::specs::Needed::of_line))]
pub fn needed_sentence(alloc: Global, line: u32, of: &Module) -> Result<String, AllocError>
    ensures { IfOk result (λ text. string_bytes text ≡ spec.of_line line (modules_view (of.now ∷ []))) }
{
    let statements = all_statements(alloc, of.top.substatements())?;
    of_statements(alloc, line, &statements)
}
