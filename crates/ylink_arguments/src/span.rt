//! The parts of ranges and lengths as arguments spell them (RFC 7950, 9.2.4 and 9.4.4).

ghost use Rattle.std.specs.Prelude.{◌≡◌, ◌+◌, ◌<◌, ◌≤◌, ◌^◌, ◌==◌, IfOk, IfSome, option_map, option_and_then, length, position};
ghost use Rattle.yspec.specs.types.Numerals.{is_point};
ghost use Rattle.yspec.specs.linking.Arguments as spec;
ghost use Rattle.ytype_numbers.specs.View.{bound_of};
ghost use Rattle.ytype_numbers.specs.Words.{capped};

use crate::cut::{cut, cut_at_dots, trimmed};
use crate::number::{after_minus, digits_from, is_negative, number_of_sign, whole_of};
use std::alloc::{AllocError, Global};
use ytype_numbers::{Bound, Span};

fn point_offset(bytes: &[u8]) -> Option<usize>
    ensures value { result ≡ position is_point bytes.now }
    ensures within { IfSome result (λ n. n < length bytes.now) }
{
    bytes.iter().position(|byte| *byte == b'.')
}

fn number_bound(is_negative: bool, units: u128, places: usize) -> Bound
    requires { units ≤ 2 ^ 64 }
    ensures { bound_of result ≡ spec.number_bound is_negative units places }
{
    Bound::Number {
        units: number_of_sign(is_negative, units),
        places: places.min(19) as u32,
    }
}

/// The number that one digit or more make of the number so far.
fn with_digits(so_far: u128, digits: &[u8]) -> Option<u128>
    requires { so_far ≤ 2 ^ 64 }
    ensures value { result ≡ capped (spec.with_digits so_far digits.now) }
    ensures bound { IfSome result (λ n. n ≤ 2 ^ 64) }
{
    match digits {
        [] => None,
        _ => digits_from(so_far, digits),
    }
}

/// The units of what stands before a point, and of digits behind it.
#[tactic(auto, using(crate::proofs::SpanLemmas::pointed_capped))]
fn pointed(whole: &[u8], digits: &[u8]) -> Option<u128>
    ensures value { result ≡ capped
        (option_and_then (λ n. spec.with_digits n digits.now) (spec.whole_of whole.now)) }
    ensures bound { IfSome result (λ n. n ≤ 2 ^ 64) }
{
    with_digits(whole_of(whole)?, digits)
}

/// The bound whose magnitude is digits, and perhaps a point and digits.
#[tactic(auto, using(crate::proofs::SpanLemmas::bound_capped))]
fn magnitude_bound(is_negative: bool, text: &[u8]) -> Option<Bound>
    ensures { option_map bound_of result
        ≡ spec.bound_cut is_negative text.now (position is_point text.now) }
{
    match point_offset(text) {
        None => Some(number_bound(is_negative, whole_of(text)?, 0)),
        Some(at) => {
            let digits = &text[at + 1..];
            let units = pointed(&text[..at], digits)?;
            Some(number_bound(is_negative, units, digits.len()))
        }
    }
}

/// The bound that a text spells.
fn bound(text: &str) -> Option<Bound>
    ensures { option_map bound_of result ≡ spec.bound_of text.now }
{
    match text {
        "min" => Some(Bound::Min),
        "max" => Some(Bound::Max),
        _ => {
            let bytes = text.as_bytes();
            magnitude_bound(is_negative(bytes), after_minus(bytes))
        }
    }
}

fn span_between(first: Option<Bound>, last: Option<Bound>) -> Option<Span>
    ensures { result ≡ spec.span_between (option_map bound_of first) (option_map bound_of last) }
{
    Some(Span::new(first?, last?))
}

/// One bound, or two with `..` between them.
fn span(text: &str) -> Option<Span>
    ensures { result ≡ spec.span_of text.now }
{
    match cut_at_dots(text) {
        Some((first, last)) => span_between(bound(trimmed(first)), bound(trimmed(last))),
        None => {
            let single = bound(trimmed(text));
            span_between(single, single)
        }
    }
}

/// The parts that a range or length spells, with bars between them.
pub fn spans(alloc: Global, text: &str) -> Result<Option<Vec<Span>>, AllocError>
    ensures { IfOk result (λ spans. option_map (λ s. s.items) spans ≡ spec.spans_of text.now) }
{
    let mut spans = Vec::new(alloc);
    let mut rest = text;
    while let Some((part, more)) = cut(rest, b'|') {
        match span(part) {
            Some(span) => spans.push(span)?,
            None => return Ok(None),
        }
        rest = more;
    }
    match span(rest) {
        Some(span) => {
            spans.push(span)?;
            Ok(Some(spans))
        }
        None => Ok(None),
    }
}
