//! Restrictions as a module writes them, and the sets of numbers that they leave.

ghost use Rattle.std.specs.Prelude.{◌≡◌, ◌≤◌, ◌<◌, ◌^◌, true, Some, None, ok_or};
ghost use Rattle.yspec.specs.types.Ranges.{is_above, is_near, bound_in, part_in, parts_in, is_ascending_from, is_covered, lies_within, ends_of, restricted};
ghost use Rattle.ytype_numbers.specs.Covering.{CoverAlike};
ghost use Rattle.ytype_numbers.specs.View.{bound_of};
ghost use Rattle.yspec.specs.Results.{Gives};
ghost use Rattle.ytype_numbers.specs.Words.{narrow_refusal, same};

use crate::error_text::ErrorText;
use crate::expression::Expression;
use crate::fault::NarrowFault;
use crate::name::Naming;
use crate::range::{Part, Range};
use std::alloc::Global;
use std::marker::Model;
use std::rc::Rc;

/// One end of a part of a range or length.
#[derive(Clone, Copy, Debug, PartialEq, Eq)]
pub enum Bound {
    /// The least number of the type that is restricted.
    Min,
    /// The greatest one.
    Max,
    /// A number in units of its last digit, with how many digits it has after its point, 0 where it has no point.
    Number { units: i128, places: u32 },
}

/// A part of a range or length. One of a single bound has it at both ends.
#[derive(Debug, Drop)]
pub struct Span {
    first: Bound,
    last: Bound,
}

impl Model for Span {
    ghost use Rattle.yspec.specs.types.Ranges as ranges;

    ghost Value = { ranges.Span };

    ghost use Rattle.ytype_numbers.specs.View.{bound_of};

    ghost view = { λ s. record { first = bound_of s.first; last = bound_of s.last } };
}

impl Span {
    /// The part from one bound to another.
    pub fn new(first: Bound, last: Bound) -> Span
        ensures { result ≡ record { first = bound_of first; last = bound_of last } }
    {
        Span { first, last }
    }
}

/// What a derived type says of its values.
#[derive(Debug, Drop)]
pub enum Restriction {
    /// The numbers that it takes (RFC 7950, 9.2.4).
    Range {
        spans: Vec<Span>,
        error: ErrorText,
    },
    /// How many characters its texts have (9.4.4).
    Length {
        spans: Vec<Span>,
        error: ErrorText,
    },
    /// The texts that an expression describes, or all others (9.4.5, 9.4.6).
    Pattern {
        expression: Rc<Expression>,
        inverted: bool,
        error: ErrorText,
    },
    /// The names that are left of an enumeration (9.6.4).
    Enums(Vec<Naming>),
    /// The names that are left of bits (9.7.4).
    Bits(Vec<Naming>),
    /// Whether a leafref requires an instance (9.9.3).
    RequireInstance(bool),
}

const NEAR: i128 = 0x1_0000_0000_0000_0000;

fn is_near(number: i128) -> bool
    ensures { result ≡ is_near number }
{
    -NEAR <= number && number <= NEAR
}

/// 10 to a power.
pub(crate) fn power_of_ten(exponent: u32) -> u64
    requires { exponent ≤ 18 }
    ensures value { result ≡ 10 ^ exponent }
    ensures bound { result ≤ 10 ^ 18 }
    ensures some { 0 < result }
{
    10u64.pow(exponent)
}

fn bound_in(ends: &Part, digits: u32, bound: Bound) -> Option<i128>
    requires { digits ≤ 18 }
    ensures { result ≡ bound_in ends.now digits (bound_of bound) }
{
    match bound {
        Bound::Min => Some(ends.low()),
        Bound::Max => Some(ends.high()),
        Bound::Number { units, places } => {
            if is_near(units) && places <= digits {
                Some(units * i128::from(power_of_ten(digits - places)))
            } else {
                None
            }
        }
    }
}

fn part_in(ends: &Part, digits: u32, span: &Span) -> Option<Part>
    requires { digits ≤ 18 }
    ensures { result ≡ part_in ends.now digits span.now }
{
    let low = bound_in(ends, digits, span.first)?;
    let high = bound_in(ends, digits, span.last)?;
    Some(Part::new(low, high))
}

fn parts_in(
    alloc: Global,
    ends: &Part,
    digits: u32,
    spans: &[Span],
) -> Result<Vec<Part>, NarrowFault>
    requires { digits ≤ 18 }
    ensures { Gives (λ parts. parts.items) narrow_refusal result
        (ok_or (parts_in ends.now digits spans.now) tt) }
{
    let mut parts = Vec::with_capacity(alloc, spans.len())?;
    'spans: for span in spans {
        match part_in(ends, digits, span) {
            None => return Err(NarrowFault::Refused),
            Some(part) => parts.push(part)?,
        }
    }
    Ok(parts)
}

fn is_above(part: &Part, before: Option<i128>) -> bool
    ensures { result ≡ is_above part.now before }
{
    match before {
        None => true,
        Some(high) => high < part.low(),
    }
}

fn is_ascending(parts: &[Part]) -> bool
    ensures { result ≡ is_ascending_from None parts.now }
{
    let mut before = None;
    'parts: for part in parts {
        if part.high() < part.low() || !is_above(part, before) {
            return false;
        }
        before = Some(part.high());
    }
    true
}

fn is_covered(parts: &[Part], part: &Part) -> bool
    ensures { result ≡ is_covered parts.now part.now.low part.now.high }
{
    let mut low = part.low();
    let high = part.high();
    'parts: for outer in parts {
        if outer.high() < low {
            continue;
        }
        if low < outer.low() {
            return false;
        }
        if high <= outer.high() {
            return true;
        }
        low = outer.high() + 1;
    }
    false
}

/// The parts behind those in front that end below another part, which cover nothing of it, nor of what is behind it.
fn without_parts_below<'p>(parts: &'p [Part], part: &Part) -> &'p [Part]
    ensures { CoverAlike part.now.low result.now parts.entry.now }
{
    let mut left = parts;
    while let Some((first, others)) = left.split_first() {
        if part.low() <= first.high() {
            return left;
        }
        left = others;
    }
    left
}

/// Whether each of ascending parts is covered; what ends below one of them is gone through once.
fn lies_within(inner: &[Part], outer: &[Part]) -> bool
    requires { is_ascending_from None inner.now ≡ true }
    ensures { result ≡ lies_within inner.now outer.now }
{
    let mut left = outer;
    'inner: for part in inner {
        left = without_parts_below(left, part);
        if !is_covered(left, part) {
            return false;
        }
    }
    true
}

fn ends_of(parts: &[Part]) -> Part
    ensures { result ≡ ends_of parts.now }
{
    match parts.split_first() {
        None => Part::new(0, 0),
        Some((first, others)) => {
            let mut high = first.high();
            'others: for part in others {
                high = part.high();
            }
            Part::new(first.low(), high)
        }
    }
}

/// The set that a restriction leaves of another.
pub fn restricted(
    alloc: Global,
    outer: &[Part],
    digits: u32,
    spans: &[Span],
) -> Result<Range, NarrowFault>
    requires { digits ≤ 18 }
    ensures { Gives same narrow_refusal result (ok_or (restricted outer.now digits spans.now) tt) }
{
    match parts_in(alloc, &ends_of(outer), digits, spans) {
        Err(fault) => Err(fault),
        Ok(parts) if !parts.is_empty() && is_ascending(&parts) && lies_within(&parts, outer) => Ok(
            Range::new(parts),
        ),
        Ok(_) => Err(NarrowFault::Refused),
    }
}
