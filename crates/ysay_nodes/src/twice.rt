//! What is said of the first node of a line that has the name of another one.

ghost use Rattle.std.specs.Prelude.{◌≡◌, ◌++◌, ◌∷◌, [], codes, IfOk, OnOk, map, option_and_then, option_map, string_bytes};
ghost use Rattle.ytext.specs.View.{modules_view, row_view, view};
ghost use Rattle.ysay_text.specs.Labels.{label, labels};
ghost use Rattle.ysay_nodes.specs.Twice as spec;

use itoa::Buffer;
use std::alloc::{AllocError, Global};
use ysay_names::{all_statements, defines_node, is_named, is_word};
use ysay_text::shown;
use ytext::{Module, Stmt};

/// Whether names below a statement are in the scope around it.
fn is_passed(statement: &Stmt) -> bool
    ensures { result ≡ spec.is_passed (label statement.now) }
{
    is_word("choice", statement) || is_word("case", statement)
}

/// Adds a statement, if it is a node of its own.
fn add_node<'a>(statement: &'a Stmt, found: &mut Vec<&'a Stmt>) -> Result<(), AllocError>
    ensures { OnOk result (labels found.new.items ≡ labels found.old.items ++ spec.node_at (label statement.now)) }
{
    if defines_node(statement) && !is_word("case", statement) {
        found.push(statement)?;
    }
    Ok(())
}

/// Adds the nodes whose names are in the scope of a statement, itself and those below choices and cases.
#[cycle(scopes)]
fn add_scope<'a>(statement: &'a Stmt, found: &mut Vec<&'a Stmt>) -> Result<(), AllocError>
    ensures { OnOk result (labels found.new.items ≡ labels found.old.items
        ++ spec.scope (row_view (statement.now ∷ []))) }
{
    add_node(statement, found)?;
    if is_passed(statement) {
        add_row_scope(statement.substatements(), found)
    } else {
        Ok(())
    }
}

#[cycle(scopes)]
fn add_row_scope<'a>(statements: &'a [Stmt], found: &mut Vec<&'a Stmt>) -> Result<(), AllocError>
    ensures { OnOk result (labels found.new.items ≡ labels found.old.items
        ++ spec.scope (row_view statements.now)) }
{
    for statement in statements {
        add_scope(statement, found)?;
    }
    Ok(())
}

/// The nodes of the scope of a row.
fn scope<'a>(alloc: Global, row: &'a [Stmt]) -> Result<Vec<&'a Stmt>, AllocError>
    ensures { IfOk result (λ found. labels found.items ≡ spec.scope (row_view row.entry.now)) }
{
    let mut found = Vec::new(alloc);
    add_row_scope(row, &mut found)?;
    Ok(found)
}

/// The cases of a choice, short ones among them.
fn cases<'a>(alloc: Global, row: &'a [Stmt]) -> Result<Vec<&'a Stmt>, AllocError>
    ensures { IfOk result (λ found. labels found.items ≡ spec.cases (row_view row.entry.now)) }
{
    let mut found = Vec::new(alloc);
    for statement in row {
        if defines_node(statement) {
            found.push(statement)?;
        }
    }
    Ok(found)
}

fn is_other(line: u32, name: &str, statement: &Stmt) -> bool
    ensures { result ≡ spec.is_other line name.now (label statement.now) }
{
    is_named(name, statement) && statement.line() != line
}

/// The line of the first of a name that stands in another line.
fn other_line(line: u32, name: &str, nodes: &[&Stmt]) -> Option<u32>
    ensures { result ≡ spec.other_line line name.now (labels nodes.now) }
{
    for node in nodes {
        if is_other(line, name, *node) {
            return Some(node.line());
        }
    }
    None
}

fn doubled(alloc: Global, front: &str, name: &str, other: u32) -> Result<String, AllocError>
    ensures { IfOk result (λ text. string_bytes text ≡ spec.doubled front.now name.now other) }
{
    let seen = shown(alloc, name.as_bytes())?;
    let mut digits = Buffer::new();
    [
        front,
        seen.as_str(),
        "; the other stands in line ",
        digits.format(other),
        ".",
    ]
    .concat(alloc)
}

fn of_name(
    alloc: Global,
    front: &str,
    line: u32,
    all: &[&Stmt],
    name: Option<&str>,
) -> Result<Option<String>, AllocError>
    ensures { IfOk result (λ text. option_map string_bytes text ≡ option_and_then
        (spec.of_name front.now line (labels all.now)) (option_map (λ t. t.now) name.entry)) }
{
    let Some(name) = name else {
        return Ok(None);
    };
    match other_line(line, name, all) {
        Some(other) => Ok(Some(doubled(alloc, front, name, other)?)),
        None => Ok(None),
    }
}

fn of_node(
    alloc: Global,
    front: &str,
    line: u32,
    all: &[&Stmt],
    node: &Stmt,
) -> Result<Option<String>, AllocError>
    ensures { IfOk result (λ text. option_map string_bytes text
        ≡ spec.of_node front.now line (labels all.now) (label node.now)) }
{
    if node.line() == line {
        of_name(alloc, front, line, all, node.argument())
    } else {
        Ok(None)
    }
}

/// What is said of the first node of a scope that stands in a line and has the name of another one.
fn of_all(
    alloc: Global,
    front: &str,
    line: u32,
    all: &[&Stmt],
) -> Result<Option<String>, AllocError>
    ensures { IfOk result (λ text. option_map string_bytes text ≡ spec.of_all front.now line (labels all.now)) }
{
    for node in all {
        if let Some(said) = of_node(alloc, front, line, all, *node)? {
            return Ok(Some(said));
        }
    }
    Ok(None)
}

fn of_cases(alloc: Global, line: u32, row: &[Stmt]) -> Result<Option<String>, AllocError>
    ensures { IfOk result (λ text. option_map string_bytes text
        ≡ spec.of_all (codes "two cases are called ") line (spec.cases (row_view row.now))) }
{
    let all = cases(alloc, row)?;
    of_all(alloc, "two cases are called ", line, &all)
}

fn of_scope(alloc: Global, line: u32, row: &[Stmt]) -> Result<Option<String>, AllocError>
    ensures { IfOk result (λ text. option_map string_bytes text
        ≡ spec.of_all (codes "two nodes are called ") line (spec.scope (row_view row.now))) }
{
    let all = scope(alloc, row)?;
    of_all(alloc, "two nodes are called ", line, &all)
}

fn of_statement(alloc: Global, line: u32, statement: &Stmt) -> Result<Option<String>, AllocError>
    ensures { IfOk result (λ text. option_map string_bytes text ≡ spec.of_entry line (view statement.now)) }
{
    if is_word("choice", statement) {
        of_cases(alloc, line, statement.substatements())
    } else if is_word("case", statement) {
        Ok(None)
    } else {
        of_scope(alloc, line, statement.substatements())
    }
}

fn of_statements(alloc: Global, line: u32, statements: &[&Stmt]) -> Result<String, AllocError>
    ensures { IfOk result (λ text. string_bytes text
        ≡ spec.of_entries line (map (λ s. view s.now) statements.now)) }
{
    for statement in statements {
        if let Some(said) = of_statement(alloc, line, *statement)? {
            return Ok(said);
        }
    }
    Ok(String::new(alloc))
}

/// What is said of a line of a module in which a node has the name of another one.
#[tactic(auto, unfolding(crate::specs::Twice::of_line))]
pub fn twice_sentence(alloc: Global, line: u32, of: &Module) -> Result<String, AllocError>
    ensures { IfOk result (λ text. string_bytes text ≡ spec.of_line line (modules_view (of.now ∷ []))) }
{
    let statements = all_statements(alloc, std::slice::from_ref(&of.top))?;
    of_statements(alloc, line, &statements)
}
