//! The names that statements leave of enumerations and bits (RFC 7950, 9.6.4 and 9.7.4).

ghost use Rattle.std.specs.Prelude.{◌≡◌, ◌&&◌, IfOk};
ghost use Rattle.std.specs.List.{list_any};
ghost use Rattle.yspec.specs.Forest.{row};
ghost use Rattle.yspec.specs.text.Text.{is_text};
ghost use Rattle.yspec.specs.types.Restriction.{of_enums, of_bits, narrowed};
ghost use Rattle.yspec.specs.linking.TypeStatements as spec;
ghost use Rattle.yspec_wide.specs.Types as wide;
ghost use Rattle.ytype_numbers.specs.View.{restriction_of};
ghost use Rattle.ybase_preorder.specs.View.{row_by, label_by};
ghost use Rattle.ylink_grammar.specs.SourceView.{source_view};
ghost use Rattle.ylink_values.specs.KeptView.{kept_view};
ghost use Rattle.ylink_values.specs.KindView.{left_by, naming_text, number_by, restriction_of_kind};

use crate::kept::Kept;
use crate::limit::accepted_type;
use crate::matching::is_pattern_statement;
use crate::naming::{NamingKind, naming};
use std::alloc::{AllocError, Global};
use ybase_preorder::{Node, Siblings};
use ybase_words::Keyword;
use ylink_grammar::{Source, argument_of};
use ytype::{Naming, Restriction, YType};

fn has_text(kind: NamingKind, statement: Node<'_, Source<'_>>) -> bool
    ensures { result ≡ is_text
        (label_by source_view statement.entry).statement.keyword (naming_text kind) }
{
    match kind {
        NamingKind::Enum => statement.label().statement.keyword() == "enum",
        NamingKind::Bit => statement.label().statement.keyword() == "bit",
    }
}

/// Whether a statement is an `enum` or a `bit` that restricts a type.
fn is_restricting(kind: NamingKind, statement: Node<'_, Source<'_>>) -> bool
    ensures { result ≡ spec.is_restricting (naming_text kind) (label_by source_view statement.entry) }
{
    Keyword::Extension.is(statement.label().keyword) && has_text(kind, statement)
}

fn is_pattern(statement: Node<'_, Source<'_>>) -> bool
    ensures { result ≡ spec.is_pattern_statement (label_by source_view statement.entry) }
{
    is_pattern_statement(statement.label())
}

/// Whether it is one of both, or a pattern: these come behind the other restrictions.
pub(crate) fn comes_behind(statement: Node<'_, Source<'_>>) -> bool
    ensures { result ≡ spec.comes_behind (label_by source_view statement.entry) }
{
    is_pattern(statement)
        || (is_restricting(NamingKind::Enum, statement)
            || is_restricting(NamingKind::Bit, statement))
}

/// Whether one of a kind stands in a row.
fn restricts(kind: NamingKind, below: Siblings<'_, Source<'_>>) -> bool
    ensures { result ≡ list_any (spec.is_restricting (naming_text kind))
        (row (row_by source_view below.entry)) }
{
    for statement in below {
        if is_restricting(kind, statement) {
            return true;
        }
    }
    false
}

fn is_all(kept: Kept<'_>) -> bool
    ensures { result ≡ wide.is_all (kept_view kept.entry) }
{
    match kept {
        Kept::All => true,
        Kept::Standing(_) => false,
        Kept::Unconditioned(_) => false,
    }
}

/// Whether its name restricts a type: where not all names are kept, it is one that is kept, and that the type has.
fn is_restriction_kept(kept: Kept<'_>, outer: &YType, statement: Node<'_, Source<'_>>) -> bool
    ensures { result ≡ wide.is_restriction_kept (kept_view kept.entry) outer.now
        (label_by source_view statement.entry) (row_by source_view statement.entry.children) }
{
    is_all(kept) || (kept.keeps(statement.children()) && outer.has_name(argument_of(statement)))
}

/// Whether a statement is one of a kind whose name restricts a type.
fn is_left(kept: Kept<'_>, kind: NamingKind, outer: &YType, statement: Node<'_, Source<'_>>) -> bool
    ensures { result ≡ (spec.is_restricting (naming_text kind) (label_by source_view statement.entry)
        && wide.is_restriction_kept (kept_view kept.entry) outer.now
        (label_by source_view statement.entry) (row_by source_view statement.entry.children)) }
{
    is_restricting(kind, statement) && is_restriction_kept(kept, outer, statement)
}

/// The names of a row that restrict a type, each with its number where one is stated.
fn namings_left(
    alloc: Global,
    kept: Kept<'_>,
    kind: NamingKind,
    outer: &YType,
    below: Siblings<'_, Source<'_>>,
) -> Result<Vec<Naming>, AllocError>
    ensures { IfOk result (λ namings. namings.items
        ≡ left_by (kept_view kept.entry) kind outer.now (row_by source_view below.entry)) }
{
    let mut namings = Vec::new(alloc);
    for statement in below {
        if !is_left(kept, kind, outer, statement) {
            continue;
        }
        let number = kind.number_stated(statement.children());
        let named = naming(alloc, statement, number)?;
        namings.push(named)?;
    }
    Ok(namings)
}

/// The restriction that the names of a kind in a row state.
fn restriction_left(
    alloc: Global,
    kept: Kept<'_>,
    kind: NamingKind,
    outer: &YType,
    below: Siblings<'_, Source<'_>>,
) -> Result<Restriction, AllocError>
    ensures { IfOk result (λ r. restriction_of r ≡ restriction_of_kind kind
        (left_by (kept_view kept.entry) kind outer.now (row_by source_view below.entry))) }
{
    let namings = namings_left(alloc, kept, kind, outer, below)?;
    Ok(kind.restriction(namings))
}

/// What that makes of a type.
fn narrowed_by_names(
    alloc: Global,
    kept: Kept<'_>,
    kind: NamingKind,
    outer: &YType,
    below: Siblings<'_, Source<'_>>,
) -> Result<Option<YType>, AllocError>
    ensures { IfOk result (λ type. type ≡ narrowed outer.now (restriction_of_kind kind
        (left_by (kept_view kept.entry) kind outer.now (row_by source_view below.entry)))) }
{
    let restriction = restriction_left(alloc, kept, kind, outer, below)?;
    accepted_type(outer.narrow(alloc, &restriction))
}

/// What the names of a kind in a row make of a type.
fn restricted_to(
    alloc: Global,
    kept: Kept<'_>,
    kind: NamingKind,
    outer: YType,
    below: Siblings<'_, Source<'_>>,
) -> Result<Option<YType>, AllocError>
    ensures { IfOk result (λ type. type
        ≡ spec.restricted_to (restriction_of_kind kind) (naming_text kind)
        (wide.is_restriction_kept (kept_view kept.entry) outer) (number_by kind)
        (row_by source_view below.entry) outer) }
{
    if restricts(kind, below) {
        narrowed_by_names(alloc, kept, kind, &outer, below)
    } else {
        Ok(Some(outer))
    }
}

/// What the enums of a row make of a type.
fn enums_left(
    alloc: Global,
    kept: Kept<'_>,
    outer: YType,
    below: Siblings<'_, Source<'_>>,
) -> Result<Option<YType>, AllocError>
    ensures { IfOk result (λ type. type ≡ spec.restricted_to of_enums spec.enum_text
        (wide.is_restriction_kept (kept_view kept.entry) outer) spec.value_stated
        (row_by source_view below.entry) outer) }
{
    restricted_to(alloc, kept, NamingKind::Enum, outer, below)
}

/// What the bits of a row make of a type.
fn bits_left(
    alloc: Global,
    kept: Kept<'_>,
    outer: YType,
    below: Siblings<'_, Source<'_>>,
) -> Result<Option<YType>, AllocError>
    ensures { IfOk result (λ type. type ≡ spec.restricted_to of_bits spec.bit_text
        (wide.is_restriction_kept (kept_view kept.entry) outer) spec.position_stated
        (row_by source_view below.entry) outer) }
{
    restricted_to(alloc, kept, NamingKind::Bit, outer, below)
}

/// What the names of a row make of a type, given which are kept.
pub fn renamed_type(
    alloc: Global,
    kept: Kept<'_>,
    outer: YType,
    below: Siblings<'_, Source<'_>>,
) -> Result<Option<YType>, AllocError>
    ensures { IfOk result (λ type. type
        ≡ wide.named_kept (kept_view kept.entry) (row_by source_view below.entry) outer) }
{
    match enums_left(alloc, kept, outer, below)? {
        Some(left) => bits_left(alloc, kept, left, below),
        None => Ok(None),
    }
}
