//! Where the steps of a path lead in the text of a module.

ghost use Rattle.std.specs.Prelude.{◌≡◌, [], IfOk, option_map, string_bytes};
ghost use Rattle.std.specs.List.{list_any};
ghost use Rattle.yspec.specs.Forest.{row};
ghost use Rattle.ytext.specs.View.{row_view, view};
ghost use Rattle.ylink_arguments.specs.NameView.{names_view};
ghost use Rattle.ysay_text.specs.Labels.{label};
ghost use Rattle.ysay_names.specs.Rows.{is_named};
ghost use Rattle.ysay_targets.specs.Steps as spec;

use std::alloc::{AllocError, Global};
use ylink_arguments::Name;
use ysay_names::{children, defines_node, has_word, is_child, is_named, is_word, with_prefix};
use ysay_text::{nearest, shown};
use ytext::Stmt;

/// The first node of a name in a row.
pub(crate) fn child_named<'a>(name: &str, row: &'a [Stmt]) -> Option<&'a Stmt>
    ensures { option_map (λ s. view s.now) result ≡ spec.child_named name.now (row_view row.entry.now) }
{
    for statement in row {
        if is_child(name, statement) {
            return Some(statement);
        }
    }
    None
}

fn is_short_case(statement: &Stmt) -> bool
    ensures { result ≡ spec.is_short_case (label statement.now) }
{
    defines_node(statement) && !is_word("case", statement)
}

fn has_short_case(row: &[Stmt]) -> bool
    ensures { result ≡ spec.has_short_case (row_view row.now) }
{
    for statement in row {
        if is_short_case(statement) {
            return true;
        }
    }
    false
}

/// What stands below a node; which names lead on from a choice with short cases isn't looked at.
fn known_below<'a>(statement: &'a Stmt) -> Option<&'a [Stmt]>
    ensures { option_map (λ r. row_view r.now) result ≡ spec.known_below (view statement.entry.now) }
{
    if is_word("choice", statement) && has_short_case(statement.substatements()) {
        None
    } else {
        Some(statement.substatements())
    }
}

fn has_named(name: &str, statements: &[Stmt]) -> bool
    ensures { result ≡ list_any (is_named name.now) (row (row_view statements.now)) }
{
    for statement in statements {
        if is_named(name, statement) {
            return true;
        }
    }
    false
}

/// Whether a `uses` may bring a node, or another statement of the row defines it.
pub(crate) fn may_stand(name: &str, row: &[Stmt]) -> bool
    ensures { result ≡ spec.may_stand name.now (row_view row.now) }
{
    has_word("uses", row) || has_named(name, row)
}

/// What stands behind a step, where that is known; nothing where the step leads nowhere.
fn behind_step<'a>(name: &str, row: &'a [Stmt]) -> Option<Option<&'a [Stmt]>>
    ensures { option_map (λ known. option_map (λ r. row_view r.now) known) result
        ≡ spec.behind_step name.now (row_view row.entry.now) }
{
    match child_named(name, row) {
        Some(statement) => Some(known_below(statement)),
        None => {
            if may_stand(name, row) {
                Some(None)
            } else {
                None
            }
        }
    }
}

fn place(alloc: Global, scope: &str, seen: &str) -> Result<String, AllocError>
    ensures { IfOk result (λ text. string_bytes text ≡ spec.place scope.now seen.now) }
{
    if seen.is_empty() {
        [" stands at the top of ", scope].concat(alloc)
    } else {
        let shown = shown(alloc, seen.as_bytes())?;
        [" stands below ", shown.as_str()].concat(alloc)
    }
}

fn near_text(alloc: Global, prefix: Option<&str>, near: Option<&str>) -> Result<String, AllocError>
    ensures { IfOk result (λ text. string_bytes text
        ≡ spec.near_text (option_map (λ p. p.now) prefix.entry) (option_map (λ n. n.now) near.entry)) }
{
    match near {
        Some(near) => {
            let name = with_prefix(alloc, prefix, near)?;
            ["; near it: ", name.as_str(), "."].concat(alloc)
        }
        None => String::from_str(alloc, "."),
    }
}

pub(crate) fn absent(
    alloc: Global,
    scope: &str,
    seen: &str,
    prefix: Option<&str>,
    step: &str,
    near: Option<&str>,
) -> Result<String, AllocError>
    ensures { IfOk result (λ text. string_bytes text ≡ spec.absent scope.now seen.now
        (option_map (λ p. p.now) prefix.entry) step.now (option_map (λ n. n.now) near.entry)) }
{
    let name = with_prefix(alloc, prefix, step)?;
    let place = place(alloc, scope, seen)?;
    let near = near_text(alloc, prefix, near)?;
    [
        "nothing called \"",
        name.as_str(),
        "\"",
        place.as_str(),
        near.as_str(),
    ]
    .concat(alloc)
}

pub(crate) fn further(
    alloc: Global,
    seen: &str,
    prefix: Option<&str>,
    step: &str,
) -> Result<String, AllocError>
    ensures { IfOk result (λ text. string_bytes text
        ≡ spec.further seen.now (option_map (λ p. p.now) prefix.entry) step.now) }
{
    let name = with_prefix(alloc, prefix, step)?;
    [seen, "/", name.as_str()].concat(alloc)
}

pub(crate) fn is_same(prefix: Option<&str>, other: Option<&str>) -> bool
    ensures { result ≡ spec.is_same (option_map (λ p. p.now) prefix.entry) (option_map (λ p. p.now) other.entry) }
{
    match (prefix, other) {
        (None, None) => true,
        (None, Some(_)) => false,
        (Some(_), None) => false,
        (Some(prefix), Some(other)) => prefix == other,
    }
}

/// What is said of the first step of a path that leads nowhere.
pub(crate) fn of_steps(
    alloc: Global,
    scope: &str,
    prefix: Option<&str>,
    names: &[Name<'_>],
    row: &[Stmt],
) -> Result<Option<String>, AllocError>
    ensures { IfOk result (λ text. option_map string_bytes text ≡ spec.of_steps scope.now
        (option_map (λ p. p.now) prefix.entry) [] (names_view names.now) (row_view row.now)) }
{
    let mut seen = String::new(alloc);
    let mut left = row;
    for at in 0..names.len() {
        let step = names[at].identifier;
        if !is_same(prefix, names[at].prefix) {
            return Ok(None);
        }
        match behind_step(step, left) {
            Some(Some(row)) => {
                left = row;
                seen = further(alloc, seen.as_str(), prefix, step)?;
            }
            Some(None) => return Ok(None),
            None => {
                let names = children(alloc, left)?;
                return Ok(Some(absent(
                    alloc,
                    scope,
                    seen.as_str(),
                    prefix,
                    step,
                    nearest(step, &names),
                )?));
            }
        }
    }
    Ok(None)
}
