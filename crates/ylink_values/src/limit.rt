//! What restrictions make of types (RFC 7950, 9.2.4 and 9.4.4).

ghost use Rattle.std.specs.Prelude.{◌≡◌, Ok, IfOk, [], Option, option_map, ok_or, unwrap_or};
ghost use Rattle.yspec.specs.Results.{Gives};
ghost use Rattle.yspec.specs.types.Restriction as restrictions;
ghost use Rattle.yspec.specs.types.Types.{YangType};
ghost use Rattle.yspec.specs.linking.Arguments.{spans_of};
ghost use Rattle.yspec.specs.linking.Keyword as word;
ghost use Rattle.ybase_words.specs.KeywordView.{keyword_view};
ghost use Rattle.yspec.specs.linking.Source as sources;
ghost use Rattle.yspec.specs.linking.TypeStatements as spec;
ghost use Rattle.ytype_numbers.specs.View.{restriction_of, text_of};
ghost use Rattle.ytype_numbers.specs.Words.{narrow_refusal, same};
ghost use Rattle.ybase_preorder.specs.View.{row_by, label_by};
ghost use Rattle.ylink_grammar.specs.SourceView.{node_view, source_view};
ghost use Rattle.ylink_values.specs.KindView.{word_of, restriction_by};

use crate::restricting::comes_behind;
use std::alloc::{AllocError, Global};
use ybase_preorder::{Node, Siblings};
use ybase_words::Keyword;
use ylink_arguments::spans;
use ylink_grammar::{Source, argument_of, argument_with, found_with};
use ytype::{ErrorText, NarrowFault, Restriction, Span, YType};

/// The restrictions that types have by spans of numbers.
#[derive(Clone, Copy)]
enum SpanRestriction {
    /// Of the numbers themselves.
    Range,
    /// Of the numbers of characters.
    Length,
}

impl SpanRestriction {
    ghost use Rattle.std.specs.Prelude.{◌≡◌};
    ghost use Rattle.ytype_numbers.specs.View.{restriction_of};
    ghost use Rattle.ybase_words.specs.KeywordView.{keyword_view};
    ghost use Rattle.ylink_values.specs.KindView.{word_of, restriction_by};

    /// The keyword of the statement that states one.
    fn keyword(self) -> Keyword
        ensures { keyword_view result ≡ word_of self }
    {
        match self {
            SpanRestriction::Range => Keyword::Range,
            SpanRestriction::Length => Keyword::Length,
        }
    }

    /// The restriction by these spans, with what it says of other values.
    fn restriction(self, spans: Vec<Span>, error: ErrorText) -> Restriction
        ensures { restriction_of result ≡ restriction_by self spans.items error }
    {
        match self {
            SpanRestriction::Range => Restriction::Range { spans, error },
            SpanRestriction::Length => Restriction::Length { spans, error },
        }
    }
}

/// A copy of the argument of the statement of this keyword, where a row has one.
fn text_with(
    alloc: Global,
    keyword: Keyword,
    below: Siblings<'_, Source<'_>>,
) -> Result<Option<String>, AllocError>
    ensures { IfOk result (λ text. text_of text
        ≡ sources.argument_with (keyword_view keyword) (row_by source_view below.entry)) }
{
    match argument_with(keyword, below) {
        Some(text) => Ok(Some(String::from_str(alloc, text)?)),
        None => Ok(None),
    }
}

/// What a row says of values that aren't taken.
pub(crate) fn error_text(
    alloc: Global,
    below: Siblings<'_, Source<'_>>,
) -> Result<ErrorText, AllocError>
    ensures { IfOk result (λ error. error ≡ spec.error_text_in (row_by source_view below.entry)) }
{
    Ok(ErrorText {
        message: text_with(alloc, Keyword::ErrorMessage, below)?,
        app_tag: text_with(alloc, Keyword::ErrorAppTag, below)?,
    })
}

fn spans_stated(alloc: Global, statement: Node<'_, Source<'_>>) -> Result<Vec<Span>, AllocError>
    ensures { IfOk result (λ parts. parts.items
        ≡ unwrap_or (spans_of (sources.argument_in (label_by source_view statement.entry))) []) }
{
    match spans(alloc, argument_of(statement))? {
        Some(parts) => Ok(parts),
        None => Ok(Vec::new(alloc)),
    }
}

/// The restriction of a kind that a statement states.
fn restriction_by(
    alloc: Global,
    kind: SpanRestriction,
    statement: Node<'_, Source<'_>>,
) -> Result<Restriction, AllocError>
    ensures { IfOk result (λ r. restriction_of r
        ≡ spec.stated_by (restriction_by kind) (node_view statement.entry)) }
{
    let spans = spans_stated(alloc, statement)?;
    let error = error_text(alloc, statement.children())?;
    Ok(kind.restriction(spans, error))
}

/// The restriction of a kind that a row states, where it states one.
fn restriction_stated(
    alloc: Global,
    kind: SpanRestriction,
    below: Siblings<'_, Source<'_>>,
) -> Result<Option<Restriction>, AllocError>
    ensures { IfOk result (λ r. option_map restriction_of r
        ≡ spec.stated (word_of kind) (restriction_by kind) (row_by source_view below.entry)) }
{
    match found_with(kind.keyword(), below) {
        Some(statement) => Ok(Some(restriction_by(alloc, kind, statement)?)),
        None => Ok(None),
    }
}

/// A type that was made, or none where it was refused.
pub fn accepted_type(made: Result<YType, NarrowFault>) -> Result<Option<YType>, AllocError>
    ensures { (answer : Option YangType) → Gives same narrow_refusal made (ok_or answer tt)
        → IfOk result (λ type. type ≡ answer) }
{
    match made {
        Ok(made) => Ok(Some(made)),
        Err(NarrowFault::Refused) => Ok(None),
        Err(NarrowFault::Memory) => Err(AllocError),
    }
}

fn limited_type(
    alloc: Global,
    restriction: Option<Restriction>,
    outer: YType,
) -> Result<Option<YType>, AllocError>
    ensures { IfOk result (λ type. type
        ≡ spec.limited (option_map restriction_of restriction) outer) }
{
    match restriction {
        Some(restriction) => accepted_type(outer.narrow(alloc, &restriction)),
        None => Ok(Some(outer)),
    }
}

/// What the restriction of a kind that a row states makes of a type.
fn restricted_type(
    alloc: Global,
    kind: SpanRestriction,
    below: Siblings<'_, Source<'_>>,
    outer: Result<YType, NarrowFault>,
) -> Result<Option<YType>, AllocError>
    ensures { (type : YangType) → outer ≡ Ok type → IfOk result (λ t. t
        ≡ spec.limited
        (spec.stated (word_of kind) (restriction_by kind) (row_by source_view below.entry)) type) }
{
    match outer {
        Ok(outer) => limited_type(alloc, restriction_stated(alloc, kind, below)?, outer),
        Err(_) => Err(AllocError),
    }
}

/// What the range of a row makes of a type.
pub fn ranged_type(
    alloc: Global,
    below: Siblings<'_, Source<'_>>,
    outer: Result<YType, NarrowFault>,
) -> Result<Option<YType>, AllocError>
    ensures { (type : YangType) → outer ≡ Ok type
        → IfOk result (λ t. t ≡ spec.limited_range (row_by source_view below.entry) type) }
{
    restricted_type(alloc, SpanRestriction::Range, below, outer)
}

/// What the length of a row makes of a type.
pub fn measured_type(
    alloc: Global,
    below: Siblings<'_, Source<'_>>,
    outer: Result<YType, NarrowFault>,
) -> Result<Option<YType>, AllocError>
    ensures { (type : YangType) → outer ≡ Ok type → IfOk result (λ t. t ≡ spec.limited
        (spec.stated word.length_word restrictions.length (row_by source_view below.entry)) type) }
{
    restricted_type(alloc, SpanRestriction::Length, below, outer)
}

/// What a range or a length makes of a type; nothing where a statement is neither.
fn narrowed_by(
    alloc: Global,
    outer: &YType,
    statement: Node<'_, Source<'_>>,
) -> Result<Option<YType>, AllocError>
    ensures { IfOk result (λ type. type
        ≡ spec.narrowed_by (label_by source_view statement.entry)
        (row_by source_view statement.entry.children) outer.now) }
{
    let keyword = statement.label().keyword;
    let kind = if Keyword::Range.is(keyword) {
        SpanRestriction::Range
    } else if Keyword::Length.is(keyword) {
        SpanRestriction::Length
    } else {
        return Ok(None);
    };
    let restriction = restriction_by(alloc, kind, statement)?;
    accepted_type(outer.narrow(alloc, &restriction))
}

/// What a statement makes of a type where it is a restriction that the type may bear. Patterns and names leave it as it is,
/// since they come behind the others.
pub fn narrowed_type(
    alloc: Global,
    outer: YType,
    statement: Node<'_, Source<'_>>,
) -> Result<Option<YType>, AllocError>
    ensures { IfOk result (λ type. option_map spec.own type
        ≡ spec.restricted_by (label_by source_view statement.entry)
        (row_by source_view statement.entry.children) (spec.own outer)) }
{
    if comes_behind(statement) {
        return Ok(Some(outer));
    }
    narrowed_by(alloc, &outer, statement)
}
