//! The expressions that texts match, in words, and which of several a text breaks (RFC 7950, 9.4.5 and 9.4.6).

ghost use Rattle.std.specs.Prelude.{◌≡◌, IfOk, length, map, option_map, string_bytes};
ghost use Rattle.ytype.specs.Patterns.{expressions_in, matching_view};
ghost use Rattle.ytype.specs.View.{raw_of};
ghost use Rattle.ysay_value.specs.ExpressionWords as spec;

use crate::joining::joined;
use crate::values::json_text;
use std::alloc::{AllocError, Global};
use ytype::{Matching, Raw, SimpleType};

// ---- what a type takes

fn match_word(is_inverted: bool) -> &'static str
    ensures { result.now ≡ spec.match_word is_inverted }
{
    if is_inverted {
        "doesn't match "
    } else {
        "matches "
    }
}

/// An expression in quotes, as JSON has it.
fn expression_words(alloc: Global, matching: Matching<'_>) -> Result<String, AllocError>
    ensures { IfOk result (λ text. string_bytes text ≡ spec.expression_words (matching_view matching.entry)) }
{
    let expression = json_text(alloc, matching.expression)?;
    [match_word(matching.inverted), expression.as_str()].concat(alloc)
}

fn all_words(alloc: Global, expressions: &[Matching<'_>]) -> Result<String, AllocError>
    ensures { IfOk result (λ text. string_bytes text
        ≡ spec.all_words (map matching_view expressions.now)) }
{
    let mut texts = Vec::with_capacity(alloc, expressions.len())?;
    for expression in expressions {
        texts.push(expression_words(alloc, *expression)?)?;
    }
    joined(alloc, " and ", &texts)
}

/// What expressions ask of texts; nothing where there are none.
pub(crate) fn expressions_words(
    alloc: Global,
    expressions: &[Matching<'_>],
) -> Result<String, AllocError>
    ensures { IfOk result (λ text. string_bytes text
        ≡ spec.expressions_words (map matching_view expressions.now)) }
{
    match expressions.split_first() {
        None => Ok(String::new(alloc)),
        Some(_) => {
            let text = all_words(alloc, expressions)?;
            [" that ", text.as_str()].concat(alloc)
        }
    }
}

// ---- what is said of a text that a type doesn't take

fn break_word(is_inverted: bool) -> &'static str
    ensures { result.now ≡ spec.break_word is_inverted }
{
    if is_inverted {
        ". It matches "
    } else {
        ". It doesn't match "
    }
}

/// That a text breaks this expression.
pub(crate) fn broken_words(alloc: Global, matching: Matching<'_>) -> Result<String, AllocError>
    ensures { IfOk result (λ text. string_bytes text ≡ spec.broken_words (matching_view matching.entry)) }
{
    let expression = json_text(alloc, matching.expression)?;
    [break_word(matching.inverted), expression.as_str(), "."].concat(alloc)
}

fn count_of(expressions: &[Matching<'_>]) -> usize
    ensures { result ≡ length (map matching_view expressions.now) }
{
    expressions.len()
}

fn expression_count(alloc: Global, simple: &SimpleType) -> Result<usize, AllocError>
    ensures { IfOk result (λ count. count ≡ length (expressions_in simple.now.limits)) }
{
    let expressions = simple.expressions(alloc)?;
    Ok(count_of(&expressions))
}

/// The expression that excludes a value, of a type that has several.
fn broken_of<'a>(
    alloc: Global,
    simple: &'a SimpleType,
    raw: &Raw,
) -> Result<Option<Matching<'a>>, AllocError>
    ensures { IfOk result (λ broken. option_map matching_view broken
        ≡ spec.broken_of simple.entry.now (raw_of raw.now)) }
{
    if expression_count(alloc, simple)? < 2 {
        return Ok(None);
    }
    simple.unmatched(alloc, raw)
}

fn only(members: &[SimpleType]) -> Option<&SimpleType>
    ensures { option_map (λ s. s.now) result ≡ spec.only members.entry.now }
{
    let (first, rest) = members.split_first()?;
    if rest.is_empty() { Some(first) } else { None }
}

/// The same of the only one of some types.
pub(crate) fn broken_among<'a>(
    alloc: Global,
    members: &'a [SimpleType],
    raw: &Raw,
) -> Result<Option<Matching<'a>>, AllocError>
    ensures { IfOk result (λ broken. option_map matching_view broken
        ≡ spec.broken_among members.entry.now (raw_of raw.now)) }
{
    match only(members) {
        Some(simple) => broken_of(alloc, simple, raw),
        None => Ok(None),
    }
}
