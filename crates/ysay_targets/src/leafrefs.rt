//! What is said of leafrefs that lead nowhere, or to no leaf.

ghost use Rattle.std.specs.Prelude.{◌≡◌, ◌∷◌, [], ℕ, IfOk, List, Option, map, option_and_then, option_map, string_bytes, if◌then◌else◌};
ghost use Rattle.yspec.specs.text.Text.{Text};
ghost use Rattle.ytext.specs.View.{modules_view, row_view, view};
ghost use Rattle.ylink_arguments.specs.NameView.{name_view, names_view};
ghost use Rattle.ysay_text.specs.Labels.{label};
ghost use Rattle.ysay_targets.specs.Leafrefs as spec;

use crate::steps::{absent, child_named, further, is_same, may_stand};
use crate::targets::is_whole;
use std::alloc::{AllocError, Global};
use ylink_arguments::{Name, leafref_path};
use ysay_names::{all_statements, arguments_called, children, has_word, is_word, module_meant};
use ysay_text::{nearest, shown};
use ytext::{Module, Stmt};

fn has_value(statement: &Stmt) -> bool
    ensures { result ≡ spec.has_value (label statement.now) }
{
    is_word("leaf", statement) || is_word("leaf-list", statement)
}

fn no_leaf(alloc: Global, seen: &str, statement: &Stmt) -> Result<String, AllocError>
    ensures { IfOk result (λ text. string_bytes text ≡ spec.no_leaf seen.now (label statement.now)) }
{
    let shown = shown(alloc, seen.as_bytes())?;
    [
        shown.as_str(),
        " is a ",
        statement.keyword(),
        ", and no leaf.",
    ]
    .concat(alloc)
}

/// What is said of a step that names no node of a row.
fn unless_brought(
    alloc: Global,
    scope: &str,
    seen: &str,
    prefix: Option<&str>,
    step: &str,
    row: &[Stmt],
) -> Result<Option<String>, AllocError>
    ensures { IfOk result (λ text. option_map string_bytes text ≡ spec.unless_brought scope.now seen.now
        (option_map (λ p. p.now) prefix.entry) step.now (row_view row.now)) }
{
    if may_stand(step, row) {
        return Ok(None);
    }
    let names = children(alloc, row)?;
    let near = nearest(step, &names);
    Ok(Some(absent(alloc, scope, seen, prefix, step, near)?))
}

/// What is said of the node at which a path ends.
fn at_last(alloc: Global, seen: &str, statement: &Stmt) -> Result<Option<String>, AllocError>
    ensures { IfOk result (λ text. option_map string_bytes text ≡ spec.at_last seen.now (label statement.now)) }
{
    if has_value(statement) {
        Ok(None)
    } else {
        Ok(Some(no_leaf(alloc, seen, statement)?))
    }
}

fn is_last(others: &[Name<'_>]) -> bool
    ensures { (last more : Option Text) → spec.if_last (names_view others.now) last more
        ≡ (if result then last else more) }
{
    match others {
        [] => true,
        [..] => false,
    }
}

fn is_shown_whole(prefix: Option<&str>, name: &Name<'_>, row: &[Stmt]) -> bool
    ensures { result ≡ spec.is_shown_whole (option_map (λ p. p.now) prefix.entry) (name_view name.now) (row_view row.now) }
{
    is_same(prefix, name.prefix) && !has_word("choice", row)
}

/// What is said of the first step of a path that leads nowhere, or of its last one.
fn of_steps(
    alloc: Global,
    scope: &str,
    prefix: Option<&str>,
    names: &[Name<'_>],
    row: &[Stmt],
) -> Result<Option<String>, AllocError>
    ensures { IfOk result (λ text. option_map string_bytes text ≡ spec.of_steps scope.now
        (option_map (λ p. p.now) prefix.entry) [] (names_view names.now) (row_view row.now)) }
{
    let mut seen = String::new(alloc);
    let mut left = row;
    for at in 0..names.len() {
        let step = names[at].identifier;
        if !is_shown_whole(prefix, &names[at], left) {
            return Ok(None);
        }
        let Some(found) = child_named(step, left) else {
            return unless_brought(alloc, scope, seen.as_str(), prefix, step, left);
        };
        seen = further(alloc, seen.as_str(), prefix, step)?;
        if is_last(&names[at + 1..]) {
            return at_last(alloc, seen.as_str(), found);
        }
        left = found.substatements();
    }
    Ok(None)
}

fn of_whole(
    alloc: Global,
    prefix: Option<&str>,
    names: &[Name<'_>],
    row: &[Stmt],
) -> Result<Option<String>, AllocError>
    ensures { IfOk result (λ text. option_map string_bytes text ≡ spec.of_whole
        (option_map (λ p. p.now) prefix.entry) (names_view names.now) (row_view row.now)) }
{
    if is_whole(row) {
        of_steps(alloc, "the module", prefix, names, row)
    } else {
        Ok(None)
    }
}

fn of_path(
    alloc: Global,
    modules: &[Module],
    row: &[Stmt],
    names: &[Name<'_>],
) -> Result<Option<String>, AllocError>
    ensures { IfOk result (λ text. option_map string_bytes text ≡ spec.of_path
        (modules_view modules.now) (row_view row.now) (names_view names.now)) }
{
    let Some((first, _)) = names.split_first() else {
        return Ok(None);
    };
    match module_meant(alloc, modules, row, first.prefix)? {
        Some(meant) => of_whole(alloc, first.prefix, names, meant),
        None => Ok(None),
    }
}

fn of_argument(
    alloc: Global,
    modules: &[Module],
    row: &[Stmt],
    path: &str,
) -> Result<Option<String>, AllocError>
    ensures { IfOk result (λ text. option_map string_bytes text
        ≡ spec.of_argument (modules_view modules.now) (row_view row.now) path.now) }
{
    match leafref_path(alloc, path)? {
        Some(names) => of_path(alloc, modules, row, &names),
        None => Ok(None),
    }
}

fn of_paths(
    alloc: Global,
    modules: &[Module],
    row: &[Stmt],
    paths: &[&str],
) -> Result<Option<String>, AllocError>
    ensures { IfOk result (λ text. option_map string_bytes text
        ≡ spec.of_paths (modules_view modules.now) (row_view row.now) (map (λ t. t.now) paths.now)) }
{
    for path in paths {
        if let Some(said) = of_argument(alloc, modules, row, *path)? {
            return Ok(Some(said));
        }
    }
    Ok(None)
}

/// What stands below the first `type` of a row.
fn below_type(row: &[Stmt]) -> &[Stmt]
    ensures { row_view result.now ≡ spec.below_type (row_view row.entry.now) }
{
    for statement in row {
        if is_word("type", statement) {
            return statement.substatements();
        }
    }
    &[]
}

fn of_type(
    alloc: Global,
    modules: &[Module],
    row: &[Stmt],
    own: &[Stmt],
) -> Result<Option<String>, AllocError>
    ensures { IfOk result (λ text. option_map string_bytes text
        ≡ spec.of_type (modules_view modules.now) (row_view row.now) (row_view own.now)) }
{
    let paths = arguments_called(alloc, "path", below_type(own))?;
    of_paths(alloc, modules, row, &paths)
}

fn of_statement(
    alloc: Global,
    line: u32,
    modules: &[Module],
    row: &[Stmt],
    statement: &Stmt,
) -> Result<Option<String>, AllocError>
    ensures { IfOk result (λ text. option_map string_bytes text
        ≡ spec.of_entry line (modules_view modules.now) (row_view row.now) (view statement.now)) }
{
    if statement.line() == line && has_value(statement) {
        of_type(alloc, modules, row, statement.substatements())
    } else {
        Ok(None)
    }
}

fn of_statements(
    alloc: Global,
    line: u32,
    modules: &[Module],
    row: &[Stmt],
    statements: &[&Stmt],
) -> Result<String, AllocError>
    ensures { IfOk result (λ text. string_bytes text ≡ spec.of_entries line
        (modules_view modules.now) (row_view row.now) (map (λ s. view s.now) statements.now)) }
{
    for statement in statements {
        if let Some(said) = of_statement(alloc, line, modules, row, *statement)? {
            return Ok(said);
        }
    }
    Ok(String::new(alloc))
}

/// What is said of a line of a module of a set in which the path of a leafref leads nowhere, or to no leaf.
#[tactic(auto, unfolding(crate::specs::Leafrefs::of_line))]
pub fn leafref_sentence(
    alloc: Global,
    line: u32,
    modules: &[Module],
    of: &Module,
) -> Result<String, AllocError>
    ensures { IfOk result (λ text. string_bytes text
        ≡ spec.of_line line (modules_view modules.now) (modules_view (of.now ∷ []))) }
{
    let statements = all_statements(alloc, of.top.substatements())?;
    of_statements(alloc, line, modules, of.top.substatements(), &statements)
}
