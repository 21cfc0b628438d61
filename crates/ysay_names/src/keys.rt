//! What is said of the list of a line, the key or a unique of which names nothing.

ghost use Rattle.std.specs.Prelude.{◌≡◌, ◌++◌, ◌∷◌, [], IfOk, OnOk, map, option_and_then, option_map, string_bytes};
ghost use Rattle.yspec.specs.Forest.{row};
ghost use Rattle.ytext.specs.View.{modules_view, row_view, view};
ghost use Rattle.ylink_arguments.specs.NameView.{names_view};
ghost use Rattle.ysay_text.specs.Labels.{label};
ghost use Rattle.ysay_text.specs.Near as near;
ghost use Rattle.ysay_names.specs.Keys as spec;

use crate::prefixes::is_among;
use crate::rows::{add_argument, has_word, is_named, is_word};
use std::alloc::{AllocError, Global};
use ylink_arguments::{Name, unique_paths};
use ysay_text::{nearest, shown};
use ytext::{Module, Stmt};

/// The statements that define nodes.
const NODE_WORDS: &[&str] = &[
    "container",
    "leaf",
    "leaf-list",
    "list",
    "choice",
    "case",
    "anydata",
    "anyxml",
];

fn node_words() -> &'static [&'static str]
    ensures { map (λ w. w.now) result.now ≡ spec.node_words }
{
    NODE_WORDS
}

/// Whether a statement defines a node.
pub fn defines_node(statement: &Stmt) -> bool
    ensures { result ≡ spec.defines_node (label statement.now) }
{
    is_among(node_words(), statement.keyword())
}

/// Adds the name of the node that a statement defines, if it defines one.
fn add_child<'a>(statement: &'a Stmt, names: &mut Vec<&'a str>) -> Result<(), AllocError>
    ensures { OnOk result (map (λ t. t.now) names.new.items
        ≡ map (λ t. t.now) names.old.items ++ spec.child_at (label statement.now)) }
{
    if defines_node(statement) {
        add_argument(statement, names)
    } else {
        Ok(())
    }
}

/// The names of the nodes that a row defines.
pub fn children<'a>(alloc: Global, row: &'a [Stmt]) -> Result<Vec<&'a str>, AllocError>
    ensures { IfOk result (λ names. map (λ t. t.now) names.items ≡ spec.children (row_view row.entry.now)) }
{
    let mut names = Vec::new(alloc);
    for statement in row {
        add_child(statement, &mut names)?;
    }
    Ok(names)
}

/// Whether it defines one of a name.
pub fn is_child(name: &str, statement: &Stmt) -> bool
    ensures { result ≡ spec.is_child name.now (view statement.now).0 }
{
    defines_node(statement) && is_named(name, statement)
}

/// What stands below the first node of a name.
fn below_child<'a>(name: &str, row: &'a [Stmt]) -> &'a [Stmt]
    ensures { row_view result.now ≡ spec.below_child name.now (row_view row.entry.now) }
{
    for statement in row {
        if is_child(name, statement) {
            return statement.substatements();
        }
    }
    &[]
}

fn absent(alloc: Global, word: &str, step: &str, near: Option<&str>) -> Result<String, AllocError>
    ensures { IfOk result (λ text. string_bytes text
        ≡ spec.absent word.now step.now (option_map (λ n. n.now) near.entry)) }
{
    let seen = shown(alloc, step.as_bytes())?;
    match near {
        Some(near) => [
            "the ",
            word,
            " names ",
            seen.as_str(),
            ", which isn't there; near it: ",
            near,
            ".",
        ]
        .concat(alloc),
        None => [
            "the ",
            word,
            " names ",
            seen.as_str(),
            ", which isn't there.",
        ]
        .concat(alloc),
    }
}

/// What is said of the first step of a path that leads nowhere.
fn of_path(
    alloc: Global,
    word: &str,
    path: &[Name<'_>],
    row: &[Stmt],
) -> Result<Option<String>, AllocError>
    ensures { IfOk result (λ text. option_map string_bytes text
        ≡ spec.of_path word.now (spec.steps_of (names_view path.now)) (row_view row.now)) }
{
    let mut left = row;
    for place in 0..path.len() {
        let step = path[place].identifier;
        if has_word("uses", left) {
            return Ok(None);
        }
        let names = children(alloc, left)?;
        if !is_among(&names, step) {
            return Ok(Some(absent(alloc, word, step, nearest(step, &names))?));
        }
        left = below_child(step, left);
    }
    Ok(None)
}

fn of_paths(
    alloc: Global,
    word: &str,
    paths: &[Vec<Name<'_>>],
    row: &[Stmt],
) -> Result<Option<String>, AllocError>
    ensures { IfOk result (λ text. option_map string_bytes text
        ≡ spec.of_paths word.now (row_view row.now) (map spec.steps_of (map (λ p. names_view p.items) paths.now))) }
{
    for path in paths {
        if let Some(said) = of_path(alloc, word, path, row)? {
            return Ok(Some(said));
        }
    }
    Ok(None)
}

/// What is said of the argument of a key or a unique.
fn of_argument(
    alloc: Global,
    word: &str,
    argument: Option<&str>,
    row: &[Stmt],
) -> Result<Option<String>, AllocError>
    ensures { IfOk result (λ text. option_map string_bytes text
        ≡ option_and_then (spec.of_argument (row_view row.now) word.now) (option_map (λ t. t.now) argument.entry)) }
{
    let Some(argument) = argument else {
        return Ok(None);
    };
    match unique_paths(alloc, argument)? {
        Some(paths) => of_paths(alloc, word, &paths, row),
        None => Ok(None),
    }
}

fn names_leafs(statement: &Stmt) -> bool
    ensures { result ≡ spec.names_leafs (label statement.now) }
{
    is_word("key", statement) || is_word("unique", statement)
}

fn of_statement(alloc: Global, statement: &Stmt, row: &[Stmt]) -> Result<Option<String>, AllocError>
    ensures { IfOk result (λ text. option_map string_bytes text ≡ spec.of_statement (row_view row.now) (label statement.now)) }
{
    if names_leafs(statement) {
        of_argument(alloc, statement.keyword(), statement.argument(), row)
    } else {
        Ok(None)
    }
}

/// What is said of a list, by what stands right below it.
fn of_list(alloc: Global, statements: &[Stmt]) -> Result<String, AllocError>
    ensures { IfOk result (λ text. string_bytes text ≡ spec.of_list (row_view statements.now)) }
{
    for statement in statements {
        if let Some(said) = of_statement(alloc, statement, statements)? {
            return Ok(said);
        }
    }
    Ok(String::new(alloc))
}

/// What stands below a statement, where it is a list of a line, or else below the first such one below it.
#[cycle(lists)]
fn list_at<'a>(line: u32, statement: &'a Stmt) -> Option<&'a [Stmt]>
    ensures { option_map (λ r. row_view r.now) result ≡ spec.list_in line (row_view (statement.entry.now ∷ [])) }
{
    if statement.line() == line && is_word("list", statement) {
        Some(statement.substatements())
    } else {
        list_in(line, statement.substatements())
    }
}

#[cycle(lists)]
fn list_in<'a>(line: u32, statements: &'a [Stmt]) -> Option<&'a [Stmt]>
    ensures { option_map (λ r. row_view r.now) result ≡ spec.list_in line (row_view statements.entry.now) }
{
    for statement in statements {
        if let Some(below) = list_at(line, statement) {
            return Some(below);
        }
    }
    None
}

/// What is said of a line of a module, where the key or a unique of its list names nothing that stands there.
#[tactic(auto, unfolding(crate::specs::Keys::of_line))]
pub fn key_sentence(alloc: Global, line: u32, of: &Module) -> Result<String, AllocError>
    ensures { IfOk result (λ text. string_bytes text ≡ spec.of_line line (modules_view (of.now ∷ []))) }
{
    match list_at(line, &of.top) {
        Some(below) => of_list(alloc, below),
        None => Ok(String::new(alloc)),
    }
}
