//! What patterns make of types (RFC 7950, 9.4.5 and 9.4.6).

ghost use Rattle.std.specs.Prelude.{◌≡◌, ℕ, IfOk};
ghost use Rattle.yspec.specs.types.Restriction.{narrowed};
ghost use Rattle.yspec.specs.linking.TypeStatements as spec;
ghost use Rattle.ytype_numbers.specs.View.{restriction_of};
ghost use Rattle.ybase_preorder.specs.View.{row_by, label_by};
ghost use Rattle.ylink_grammar.specs.SourceView.{source_view};

use crate::expressions::Expressions;
use crate::limit::{accepted_type, error_text};
use std::alloc::{AllocError, Global};
use ybase_preorder::{Node, Siblings};
use ylink_grammar::{Source, argument_of};
use ytype::{Restriction, YType};

/// Whether a statement is a `pattern`.
pub fn is_pattern_statement(statement: &Source<'_>) -> bool
    ensures { (number : ℕ) → result
        ≡ spec.is_pattern_statement (source_view number statement.now) }
{
    statement.statement.keyword() == "pattern"
}

/// Whether a `modifier` stands in a row: the only one is `invert-match`.
fn is_inverted(below: Siblings<'_, Source<'_>>) -> bool
    ensures { result ≡ spec.is_inverted (row_by source_view below.entry) }
{
    for statement in below {
        if statement.label().statement.keyword() == "modifier" {
            return true;
        }
    }
    false
}

/// The restriction that a `pattern` states.
fn pattern_stated(
    alloc: Global,
    expressions: &Expressions,
    statement: Node<'_, Source<'_>>,
) -> Result<Restriction, AllocError>
    ensures { IfOk result (λ r. restriction_of r
        ≡ spec.pattern_stated (label_by source_view statement.entry)
        (row_by source_view statement.entry.children)) }
{
    let below = statement.children();
    Ok(Restriction::Pattern {
        expression: expressions.with_text(alloc, argument_of(statement))?,
        inverted: is_inverted(below),
        error: error_text(alloc, below)?,
    })
}

/// What a `pattern` makes of a type.
fn matched_by(
    alloc: Global,
    expressions: &Expressions,
    outer: &YType,
    statement: Node<'_, Source<'_>>,
) -> Result<Option<YType>, AllocError>
    ensures { IfOk result (λ type. type
        ≡ narrowed outer.now (spec.pattern_stated (label_by source_view statement.entry)
        (row_by source_view statement.entry.children))) }
{
    let restriction = pattern_stated(alloc, expressions, statement)?;
    accepted_type(outer.narrow(alloc, &restriction))
}

/// What the patterns of a row make of a type, in their order, given expressions that are made.
pub fn matched_type(
    alloc: Global,
    expressions: &Expressions,
    outer: YType,
    below: Siblings<'_, Source<'_>>,
) -> Result<Option<YType>, AllocError>
    ensures { IfOk result
        (λ type. type ≡ spec.matched_in (row_by source_view below.entry) outer) }
{
    let mut made = outer;
    for statement in below {
        if !is_pattern_statement(statement.label()) {
            continue;
        }
        match matched_by(alloc, expressions, &made, statement)? {
            Some(matched) => made = matched,
            None => return Ok(None),
        }
    }
    Ok(Some(made))
}
