//! Canonical texts of enums and of sets of bits (RFC 7950, 9.6.2 and 9.7.2).

ghost use Rattle.std.specs.Prelude.{◌≡◌, ◌++◌, ◌∷◌, if◌then◌else◌, true, IfOk, OnOk, filter};
ghost use Rattle.std.specs.Ordering.{int_cmp};
ghost use Rattle.std.specs.BTreeSet.{IsFromIterResult};
ghost use Rattle.std.specs.String.{string_bytes};
ghost use Rattle.yspec.specs.text.Text.{space};
ghost use Rattle.yspec.specs.types.Values.{name_of_number, spaced_from, names_at};
ghost use Rattle.ytype_numbers.specs.Positions.{holds_position};

use crate::names::Names;
use std::alloc::{AllocError, Global};
use std::collections::BTreeSet;

/// The name of an enum's number; no text where none has it.
pub fn name_of_number(alloc: Global, names: &Names, number: i128) -> Result<String, AllocError>
    ensures { IfOk result (λ text. string_bytes text ≡ name_of_number names.now number) }
{
    match names.name_of(number) {
        None => Ok(String::new(alloc)),
        Some(name) => String::from_str(alloc, name),
    }
}

fn set_of(alloc: Global, positions: &[i64]) -> Result<BTreeSet<i64>, AllocError>
    ensures { IfOk result (IsFromIterResult int_cmp positions.now) }
{
    positions.iter().copied().collect(alloc)
}

fn holds_position(positions: &BTreeSet<i64>, number: &i64) -> bool
    ensures { result ≡ holds_position positions.now number.now }
{
    positions.contains(number)
}

fn names_text(alloc: Global, names: &Names, positions: &BTreeSet<i64>) -> Result<String, AllocError>
    ensures { IfOk result (λ text. string_bytes text
        ≡ spaced_from true (filter (λ a. holds_position positions.now a.number) names.now)) }
{
    let mut text = String::new(alloc);
    let mut first = true;
    for (number, name) in names.by_number() {
        if holds_position(positions, number) {
            push_name(&mut text, name.as_str(), first)?;
            first = false;
        }
    }
    Ok(text)
}

/// Adds a name, and a space before it where another one stands before.
fn push_name(text: &mut String, name: &str, first: bool) -> Result<(), AllocError>
    ensures { OnOk result (string_bytes text.new ≡ string_bytes text.old
        ++ (if first then name.now else (space ∷ name.now))) }
{
    if !first {
        text.push_str(" ")?;
    }
    text.push_str(name)?;
    Ok(())
}

/// The names of the bits at some positions, in the order of the type, with a space between them.
pub fn bits_text(alloc: Global, names: &Names, positions: &[i64]) -> Result<String, AllocError>
    ensures { IfOk result (λ text. string_bytes text
        ≡ spaced_from true (names_at positions.now names.now)) }
{
    names_text(alloc, names, &set_of(alloc, positions)?)
}
