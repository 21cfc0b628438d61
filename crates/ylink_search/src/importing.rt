//! What a module imports (RFC 7950, 7.1.5).

ghost use Rattle.std.specs.Prelude.{◌≡◌, ◌∷◌, ◌++◌, [], IfOk, OnOk, map, option_map};
ghost use Rattle.yspec_search.specs.Search as spec;
ghost use Rattle.ytext.specs.View.{modules_view, row_view, view};
ghost use Rattle.ylink_search.specs.WantedView.{wanted_view, wanted_views};

use crate::statements::{argument_below, argument_of, is_word};
use std::alloc::{AllocError, Global};
use ybase_words::is_date;
use ytext::{Module, Stmt, is_identifier, offset_of, parts_around};

/// What an import asks for: the module of a name, of a revision where it says one. One that an augment of the importing module
/// names is implemented (RFC 7950, 5.6.5).
#[derive(Debug, Drop)]
pub struct Wanted {
    pub name: String,
    pub date: Option<String>,
    pub is_augmented: bool,
}

/// Adds the prefix of a step, where it has one.
fn add_prefix<'a>(step: &'a str, prefixes: &mut Vec<&'a str>) -> Result<(), AllocError>
    ensures { OnOk result (map (λ t. t.now) prefixes.new.items
        ≡ map (λ t. t.now) prefixes.old.items ++ spec.prefix_of_step step.entry.now) }
{
    if let Some(colon) = offset_of(step.as_bytes(), b':') {
        prefixes.push(parts_around(step, colon).0)?;
    }
    Ok(())
}

/// Adds the prefixes of the steps of a target.
#[tactic(auto, using(crate::proofs::SplitLemmas::stepped, crate::proofs::SplitLemmas::ended))]
fn add_prefixes<'a>(target: &'a str, prefixes: &mut Vec<&'a str>) -> Result<(), AllocError>
    ensures { OnOk result (map (λ t. t.now) prefixes.new.items
        ≡ map (λ t. t.now) prefixes.old.items ++ spec.prefixes_in target.entry.now) }
{
    let mut rest = target;
    while let Some(slash) = offset_of(rest.as_bytes(), b'/') {
        let (step, more) = parts_around(rest, slash);
        add_prefix(step, prefixes)?;
        rest = more;
    }
    add_prefix(rest, prefixes)
}

/// The prefixes that the targets of a module's augments name.
fn augmented_in<'a>(alloc: Global, row: &'a [Stmt]) -> Result<Vec<&'a str>, AllocError>
    ensures { IfOk result (λ prefixes. map (λ t. t.now) prefixes.items ≡ spec.augmented_in (row_view row.entry.now)) }
{
    let mut prefixes = Vec::new(alloc);
    for statement in row {
        if is_word("augment", statement) {
            add_prefixes(argument_of(statement), &mut prefixes)?;
        }
    }
    Ok(prefixes)
}

/// Whether a prefix is among others.
fn is_among(prefixes: &[&str], prefix: Option<&str>) -> bool
    ensures { result ≡ spec.is_prefix_among (map (λ t. t.now) prefixes.now) (option_map (λ t. t.now) prefix.entry) }
{
    match prefix {
        Some(prefix) => prefixes.contains(&prefix),
        None => false,
    }
}

/// Whether what is said of a revision is a date.
fn is_date_or_none(date: Option<&str>) -> bool
    ensures { result ≡ spec.is_date_or_none (option_map (λ t. t.now) date.entry) }
{
    match date {
        Some(date) => is_date(date),
        None => true,
    }
}

/// What an import asks for, where that is a name, and a date if one is said.
fn asked_by(
    alloc: Global,
    name: &str,
    date: Option<&str>,
    is_augmented: bool,
) -> Result<Option<Wanted>, AllocError>
    ensures { IfOk result (λ asked. option_map wanted_view asked
        ≡ spec.asked_by name.now (option_map (λ t. t.now) date.entry) is_augmented) }
{
    if !is_identifier(name) || !is_date_or_none(date) {
        return Ok(None);
    }
    let date = match date {
        Some(date) => Some(String::from_str(alloc, date)?),
        None => None,
    };
    Ok(Some(Wanted {
        name: String::from_str(alloc, name)?,
        date,
        is_augmented,
    }))
}

/// What a statement asks for, where it is an import.
fn wanted_by(
    alloc: Global,
    prefixes: &[&str],
    statement: &Stmt,
) -> Result<Option<Wanted>, AllocError>
    ensures { IfOk result (λ wanted. option_map wanted_view wanted
        ≡ spec.wanted_by (map (λ t. t.now) prefixes.now) (view statement.now).0 (view statement.now).1) }
{
    if !is_word("import", statement) {
        return Ok(None);
    }
    let below = statement.substatements();
    asked_by(
        alloc,
        argument_of(statement),
        argument_below("revision-date", below),
        is_among(prefixes, argument_below("prefix", below)),
    )
}

/// Adds what a statement asks for.
fn add_wanted(
    alloc: Global,
    prefixes: &[&str],
    statement: &Stmt,
    wanted: &mut Vec<Wanted>,
) -> Result<(), AllocError>
    ensures { OnOk result (wanted_views wanted.new.items ≡ wanted_views wanted.old.items
        ++ spec.listed (spec.wanted_by (map (λ t. t.now) prefixes.now) (view statement.now).0 (view statement.now).1)) }
{
    if let Some(found) = wanted_by(alloc, prefixes, statement)? {
        wanted.push(found)?;
    }
    Ok(())
}

/// What the statements below `module` ask for, whose augments name these prefixes.
fn wanted_in(alloc: Global, prefixes: &[&str], row: &[Stmt]) -> Result<Vec<Wanted>, AllocError>
    ensures { IfOk result (λ wanted. wanted_views wanted.items
        ≡ spec.wanted_in (map (λ t. t.now) prefixes.now) (row_view row.now)) }
{
    let mut wanted = Vec::new(alloc);
    for statement in row {
        add_wanted(alloc, prefixes, statement, &mut wanted)?;
    }
    Ok(wanted)
}

/// What a module imports, in order.
pub fn wanted_by_module(alloc: Global, module: &Module) -> Result<Vec<Wanted>, AllocError>
    ensures { IfOk result (λ wanted. wanted_views wanted.items ≡ spec.wanted_below (modules_view (module.now ∷ []))) }
{
    let row = module.top.substatements();
    let prefixes = augmented_in(alloc, row)?;
    wanted_in(alloc, &prefixes, row)
}
