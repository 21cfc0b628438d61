//! Whether ranges and lengths are sets of numbers, and of which.

ghost use Rattle.std.specs.Prelude.{◌≡◌, ◌∷◌, [], IfOk, option_map};
ghost use Rattle.std.specs.List.{list_any};
ghost use Rattle.yspec.specs.types.Ranges as ranges;
ghost use Rattle.ytype_numbers.specs.Words.{IsNarrow};
ghost use Rattle.ysay_types.specs.Defaults as defaults;
ghost use Rattle.ysay_types.specs.Restrictions as spec;

use crate::built_ins::all_numbers;
use std::alloc::{AllocError, Global};
use ylink_arguments::spans;
use ytype_numbers::{NarrowFault, Part, Range, Span, default_integer_in, restricted};

/// What parts leave of others, if they are parts of them.
fn set_of(alloc: Global, outer: &[Part], spans: &[Span]) -> Result<Option<Range>, AllocError>
    ensures { IfOk result (λ left. left ≡ ranges.restricted outer.now 0 spans.now) }
{
    match restricted(alloc, outer, 0, spans) {
        Ok(left) => Ok(Some(left)),
        Err(NarrowFault::Refused) => Ok(None),
        Err(NarrowFault::Memory) => Err(AllocError),
    }
}

/// Whether parts leave a set of whole numbers of others.
pub(crate) fn restricts(alloc: Global, outer: &[Part], spans: &[Span]) -> Result<bool, AllocError>
    ensures { IfOk result (λ b. b ≡ spec.restricts outer.now spans.now) }
{
    Ok(set_of(alloc, outer, spans)?.is_some())
}

/// Whether a part of all numbers isn't one of some.
fn is_beyond(alloc: Global, outer: &[Part], span: &Span) -> Result<bool, AllocError>
    ensures { IfOk result (λ b. b ≡ spec.is_beyond outer.now span.now) }
{
    if restricts(alloc, outer, std::slice::from_ref(span))? {
        Ok(false)
    } else {
        let all = all_numbers();
        restricts(
            alloc,
            std::slice::from_ref(&all),
            std::slice::from_ref(span),
        )
    }
}

/// Whether one of some parts is such a one.
pub(crate) fn goes_beyond(alloc: Global, outer: &[Part], spans: &[Span]) -> Result<bool, AllocError>
    ensures { IfOk result (λ b. b ≡ list_any (spec.is_beyond outer.now) spans.now) }
{
    for span in spans {
        if is_beyond(alloc, outer, span)? {
            return Ok(true);
        }
    }
    Ok(false)
}

/// What a range leaves of a type's numbers, if it is one.
pub(crate) fn left_of(
    alloc: Global,
    numbers: &Part,
    range: &str,
) -> Result<Option<Range>, AllocError>
    ensures { IfOk result (λ left. left ≡ spec.left_of numbers.now range.now) }
{
    match spans(alloc, range)? {
        Some(spans) => set_of(alloc, std::slice::from_ref(numbers), &spans),
        None => Ok(None),
    }
}

/// Whether a number lies in a range, as far as that is one.
fn is_in_range(alloc: Global, numbers: &Part, number: i128, range: &str) -> Result<bool, AllocError>
    ensures { IfOk result (λ b. b ≡ defaults.is_in_range numbers.now number range.now) }
{
    match left_of(alloc, numbers, range)? {
        Some(left) => Ok(left.holds(number)),
        None => Ok(true),
    }
}

fn is_within(
    alloc: Global,
    numbers: &Part,
    range: Option<&str>,
    number: i128,
) -> Result<bool, AllocError>
    ensures { IfOk result (λ b. b ≡ defaults.is_within numbers.now (option_map (λ r. r.now) range.entry) number) }
{
    match range {
        Some(range) => is_in_range(alloc, numbers, number, range),
        None => Ok(true),
    }
}

/// Whether a text spells a number of a type that lies in a range of it.
pub(crate) fn is_taken(
    alloc: Global,
    numbers: &Part,
    range: Option<&str>,
    text: &str,
) -> Result<bool, AllocError>
    requires { IsNarrow numbers.now }
    ensures { IfOk result (λ b. b ≡ defaults.is_taken numbers.now (option_map (λ r. r.now) range.entry) text.now) }
{
    match default_integer_in(numbers, text.as_bytes()) {
        Some(number) => is_within(alloc, numbers, range, number),
        None => Ok(false),
    }
}
