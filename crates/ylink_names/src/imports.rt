//! Imports of what the set doesn't have (RFC 7950, 5.1.1, 7.1.5 and 7.1.9).

ghost use Rattle.std.specs.Prelude.{◌≡◌, map, option_map, IfOk};
ghost use Rattle.yspec.specs.Forest.{Forest};
ghost use Rattle.yspec.specs.schema.Breaks.{least_from};
ghost use Rattle.yspec.specs.linking.Imports as spec;
ghost use Rattle.yspec.specs.linking.Source as sources;
ghost use Rattle.ybase_preorder.specs.View.{row_by, label_by};
ghost use Rattle.ylink_grammar.specs.BreakView.{seen};
ghost use Rattle.ylink_grammar.specs.LinkView.{view};
ghost use Rattle.ylink_grammar.specs.SourceView.{source_view};
ghost use Rattle.ylink_names.specs.PrefixView.{AreModulesOf};
ghost use Rattle.ylink_names.specs.RevisionView.{date_view, revisions_of, AreRevisionsOf};

use crate::first_named::FirstNamed;
use std::alloc::{AllocError, Global};
use std::cmp::Ordering;
use ybase_preorder::{Node, Siblings};
use ybase_words::Keyword;
use ylink_grammar::{
    BrokenRule, CompileCode, Source, Sources, argument_of, argument_with, broken, least_when,
};

/// The later of a date so far and another.
fn later<'t>(so_far: Option<&'t str>, date: &'t str) -> &'t str
    ensures { result.now ≡ spec.later (date_view so_far.entry) date.entry.now }
{
    match so_far {
        Some(other) => match other.cmp(date) {
            Ordering::Less => date,
            _ => other,
        },
        None => date,
    }
}

/// The date of the newest revision in the row of a module.
fn newest_revision<'t>(body: Siblings<'_, Source<'t>>) -> Option<&'t str>
    ensures { date_view result ≡ spec.newest_revision (row_by source_view body.entry) }
{
    let mut newest = None;
    for statement in body {
        if Keyword::Revision.is(statement.label().keyword) {
            newest = Some(later(newest, argument_of(statement)));
        }
    }
    newest
}

/// The date of the newest revision of each module, by its number.
fn newest_revisions<'t>(
    alloc: Global,
    sources: &Sources<'t>,
) -> Result<Vec<Option<&'t str>>, AllocError>
    ensures { IfOk result (λ newest. AreRevisionsOf newest.items (view sources.now)) }
{
    let mut newest = Vec::new(alloc);
    for top in sources.modules() {
        newest.push(newest_revision(top.children()))?;
    }
    Ok(newest)
}

/// The date of the newest revision of the module of a number.
fn revision_at<'a, 't>(newest: &'a [Option<&'t str>], place: usize) -> Option<&'t str>
    ensures { (modules : Forest sources.Source) → AreRevisionsOf newest.now modules
        → date_view result ≡ spec.newest_revision (spec.body_at modules place) }
{
    match newest.get(place) {
        Some(found) => *found,
        None => None,
    }
}

/// Whether the module of a number is of the revision that an import wants, given what stands below the import.
fn is_met(newest: &[Option<&str>], place: usize, below: Siblings<'_, Source<'_>>) -> bool
    ensures { (modules : Forest sources.Source) → AreRevisionsOf newest.now modules
        → result ≡ spec.is_met_by modules (row_by source_view below.entry) place }
{
    let Some(date) = argument_with(Keyword::RevisionDate, below) else {
        return true;
    };
    match revision_at(newest, place) {
        Some(found) => date == found,
        None => false,
    }
}

/// Whether a statement is an import of what the set doesn't have.
fn is_unmet(
    newest: &[Option<&str>],
    places: &FirstNamed<'_, usize>,
    statement: Node<'_, Source<'_>>,
) -> bool
    ensures { (modules : Forest sources.Source) → AreRevisionsOf newest.now modules
        → AreModulesOf places.now modules
        → result ≡ spec.is_unmet modules (label_by source_view statement.entry)
        (row_by source_view statement.entry.children) }
{
    if !Keyword::Import.is(statement.label().keyword) {
        return false;
    }
    match places.get(argument_of(statement)) {
        Some(place) => !is_met(newest, place, statement.children()),
        None => true,
    }
}

/// The lesser of one so far and of the imports in the row of a module that the set doesn't meet.
fn judge_imports(
    newest: &[Option<&str>],
    places: &FirstNamed<'_, usize>,
    body: Siblings<'_, Source<'_>>,
    so_far: Option<BrokenRule>,
) -> Option<BrokenRule>
    ensures { (modules : Forest sources.Source) → AreRevisionsOf newest.now modules
        → AreModulesOf places.now modules → seen result ≡ least_from (seen so_far)
        (spec.unmet_in modules (row_by source_view body.entry)) }
{
    let mut told = so_far;
    for statement in body {
        let source = statement.label();
        let missing = broken(CompileCode::C5, source.home, source.statement);
        told = least_when(is_unmet(newest, places, statement), told, missing);
    }
    told
}

/// The lesser of one so far and of the imports that the set doesn't meet, by module and line.
pub fn unmet_import(
    alloc: Global,
    sources: &Sources<'_>,
    places: &FirstNamed<'_, usize>,
    so_far: Option<BrokenRule>,
) -> Result<Option<BrokenRule>, AllocError>
    ensures { IfOk result (λ told. AreModulesOf places.now (view sources.now)
        → seen told ≡ least_from (seen so_far) (spec.import_breaks (view sources.now))) }
{
    let newest = newest_revisions(alloc, sources)?;
    let mut told = so_far;
    for top in sources.modules() {
        told = judge_imports(&newest, places, top.children(), told);
    }
    Ok(told)
}
