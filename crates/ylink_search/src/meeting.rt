//! Whether a module is the one that is wanted (RFC 7950, 5.1.1 and 5.6.5).

ghost use Rattle.std.specs.Prelude.{◌≡◌, ◌∷◌, [], option_map, string_bytes};
ghost use Rattle.yspec.specs.linking.Imports.{later};
ghost use Rattle.yspec_search.specs.Search as spec;
ghost use Rattle.ytext.specs.View.{modules_view, row_view, view};
ghost use Rattle.ylink_search.specs.WantedView.{wanted_view};

use crate::importing::Wanted;
use crate::statements::{argument_of, has_word, is_word};
use std::cmp::Ordering;
use ytext::{Module, Stmt};

/// The name of a module.
pub fn module_name(module: &Module) -> &str
    ensures { result.now ≡ spec.name_below (modules_view (module.now ∷ [])) }
{
    argument_of(&module.top)
}

/// Whether a statement defines nodes of documents (RFC 7950, 3).
fn defines_data(statement: &Stmt) -> bool
    ensures { result ≡ spec.defines_data (view statement.now).0 }
{
    matches!(
        statement.keyword(),
        "container"
            | "leaf"
            | "leaf-list"
            | "list"
            | "choice"
            | "case"
            | "augment"
            | "uses"
            | "anydata"
            | "anyxml"
    )
}

/// Whether a statement is an identity that is derived from another.
fn derives(statement: &Stmt) -> bool
    ensures { result ≡ spec.derives (view statement.now).0 (view statement.now).1 }
{
    is_word("identity", statement) && has_word("base", statement.substatements())
}

/// Whether statements below `module` are definitions alone, which mean the same be the module implemented or not.
fn has_definitions_alone(row: &[Stmt]) -> bool
    ensures { result ≡ spec.has_definitions_alone (row_view row.now) }
{
    for statement in row {
        if defines_data(statement) || derives(statement) {
            return false;
        }
    }
    true
}

/// The later of a date so far and another.
fn later<'a>(so_far: Option<&'a str>, date: &'a str) -> &'a str
    ensures { result.now ≡ later (option_map (λ t. t.now) so_far.entry) date.entry.now }
{
    match so_far {
        Some(other) => match other.cmp(date) {
            Ordering::Less => date,
            _ => other,
        },
        None => date,
    }
}

/// The newest revision that statements below `module` say.
fn newest_revision(row: &[Stmt]) -> Option<&str>
    ensures { option_map (λ t. t.now) result ≡ spec.newest_revision (row_view row.entry.now) }
{
    let mut newest = None;
    for statement in row {
        if is_word("revision", statement) {
            newest = Some(later(newest, argument_of(statement)));
        }
    }
    newest
}

/// Whether a module is of a revision, where one is said.
fn is_of(date: Option<&str>, row: &[Stmt]) -> bool
    ensures { result ≡ spec.is_of (option_map (λ t. t.now) date.entry) (row_view row.now) }
{
    match date {
        Some(date) => newest_revision(row) == Some(date),
        None => true,
    }
}

/// Whether a module is the one that an import asks for.
pub fn is_wanted(wanted: &Wanted, module: &Module) -> bool
    ensures { result ≡ spec.is_wanted (wanted_view wanted.now) (modules_view (module.now ∷ [])) }
{
    let top = &module.top;
    let row = top.substatements();
    is_word("module", top)
        && argument_of(top) == wanted.name.as_str()
        && is_of(wanted.date.as_deref(), row)
        && (wanted.is_augmented || has_definitions_alone(row))
}
