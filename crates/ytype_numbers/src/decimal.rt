//! Canonical texts of numbers (RFC 7950, 9.2.2 and 9.3.2).

ghost use Rattle.std.specs.Prelude.{◌≡◌, ◌≤◌, ◌<◌, ◌^◌, ◌++◌, ◌-◌, ◌/◌, ◌%◌, IfOk, OnOk};
ghost use Rattle.std.specs.String.{string_bytes};
ghost use Rattle.yspec.specs.types.Numerals.{integer_text, fraction_digits, or_zero, decimal_magnitude_text, decimal_text};

use crate::digits::FractionDigits;
use crate::restriction::power_of_ten;
use std::alloc::{AllocError, Global};

/// An integer in decimal.
pub fn integer_text(alloc: Global, number: i128) -> Result<String, AllocError>
    ensures { IfOk result (λ text. string_bytes text ≡ integer_text number) }
{
    format!(in alloc; "{number}")
}

#[tactic(auto, using(crate::proofs::DecimalLemmas::fractions))]
fn first_digit(digits: u32, number: u64) -> (u8, u64)
    requires some { 0 < digits }
    requires digits { digits ≤ 18 }
    requires number { number < 10 ^ digits }
    ensures digit { result.0 ≡ number / 10 ^ (digits - 1) }
    ensures small { result.0 < 10 }
    ensures rest { result.1 ≡ number % 10 ^ (digits - 1) }
    ensures bound { result.1 < 10 ^ (digits - 1) }
{
    let power = power_of_ten(digits - 1);
    ((number / power) as u8, number % power)
}

#[tactic(auto, using(crate::proofs::DecimalLemmas::fractions))]
fn push_digits(text: &mut String, digits: u32, number: u64) -> Result<(), AllocError>
    requires digits { digits ≤ 18 }
    requires number { number < 10 ^ digits }
    ensures { OnOk result (string_bytes text.new ≡ string_bytes text.old
        ++ fraction_digits digits number) }
{
    if digits == 0 || number == 0 {
        return Ok(());
    }
    let (digit, rest) = first_digit(digits, number);
    text.push(char::from(b'0' + digit))?;
    push_digits(text, digits - 1, rest)
}

#[tactic(auto, using(crate::proofs::DecimalLemmas::fractions))]
fn push_fraction(text: &mut String, digits: u32, number: u64) -> Result<(), AllocError>
    requires digits { digits ≤ 18 }
    requires number { number < 10 ^ digits }
    ensures { OnOk result (string_bytes text.new ≡ string_bytes text.old
        ++ or_zero (fraction_digits digits number)) }
{
    if number == 0 {
        text.push_str("0")
    } else {
        push_digits(text, digits, number)
    }
}

#[tactic(auto, using(crate::proofs::DecimalLemmas::fractions))]
fn push_magnitude(text: &mut String, digits: u32, magnitude: u128) -> Result<(), AllocError>
    requires { digits ≤ 18 }
    ensures { OnOk result (string_bytes text.new ≡ string_bytes text.old
        ++ decimal_magnitude_text digits magnitude) }
{
    let power = u128::from(power_of_ten(digits));
    let whole = magnitude / power;
    write!(text, "{whole}.")?;
    push_fraction(text, digits, (magnitude % power) as u64)
}

/// A number in units of its last digit, so many digits standing after the point.
pub fn decimal_text(
    alloc: Global,
    digits: FractionDigits,
    number: i128,
) -> Result<String, AllocError>
    ensures { IfOk result (λ text. string_bytes text ≡ decimal_text digits number) }
{
    let mut text = String::new(alloc);
    if number < 0 {
        text.push_str("-")?;
    }
    push_magnitude(&mut text, digits.digits(), number.unsigned_abs())?;
    Ok(text)
}
