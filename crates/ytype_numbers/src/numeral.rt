//! Numbers as texts (RFC 7950, 9.2.1 and 9.3.1; RFC 7951, 6.1).

ghost use Rattle.std.specs.Prelude.{◌≡◌, ◌≤◌, ◌<◌, ◌^◌, ◌||◌, ◌==◌, ◌*◌, length, IfSome, option_map, position};
ghost use Rattle.std.specs.Char.{digit_value};
ghost use Rattle.std.specs.Option.{ForSome};
ghost use Rattle.yspec.specs.types.Numerals.{number_in, is_negative, unsigned_part, number_of_sign, integer_of, default_magnitude, default_integer_of, is_point, whole_units, fraction_units, added, decimal_magnitude, decimal_of};
ghost use Rattle.ytype_numbers.specs.Words.{capped, kept_in, IsNarrow};

use crate::digits::FractionDigits;
use crate::range::Part;
use crate::restriction::power_of_ten;

/// What stands for every magnitude from here on: no type has it.
const LARGE: u128 = 0x1_0000_0000_0000_0000;

fn digit_value(byte: u8) -> u32
    ensures value { result ≡ digit_value byte }
    ensures bound { result ≤ 36 }
{
    match byte {
        b'0'..=b'9' => u32::from(byte - b'0'),
        b'A'..=b'Z' => u32::from(byte - b'A') + 10,
        b'a'..=b'z' => u32::from(byte - b'a') + 10,
        _ => 36,
    }
}

fn number_in(base: u32, digits: &[u8]) -> Option<u128>
    requires low { 1 ≤ base }
    requires high { base ≤ 16 }
    ensures value { result ≡ capped (number_in base digits.now) }
    ensures bound { IfSome result (λ n. n ≤ 2 ^ 64) }
{
    if digits.is_empty() {
        return None;
    }
    let mut number = 0u128;
    'digits: for byte in digits {
        let digit = digit_value(*byte);
        if digit >= base {
            return None;
        }
        number = (number * u128::from(base) + u128::from(digit)).min(LARGE);
    }
    Some(number)
}

fn is_negative(text: &[u8]) -> bool
    ensures { result ≡ is_negative text.now }
{
    match text.split_first() {
        None => false,
        Some((first, _)) => *first == b'-',
    }
}

fn unsigned_part(text: &[u8]) -> &[u8]
    ensures { result.now ≡ unsigned_part text.now }
{
    match text.split_first() {
        None => text,
        Some((first, rest)) => {
            if *first == b'+' || *first == b'-' {
                rest
            } else {
                text
            }
        }
    }
}

fn number_of_sign(is_negative: bool, magnitude: u128) -> i128
    requires { magnitude ≤ 2 ^ 64 }
    ensures { result ≡ number_of_sign is_negative magnitude }
{
    let number = magnitude as i128;
    if is_negative { -number } else { number }
}

fn kept_in(numbers: &Part, is_negative: bool, magnitude: Option<u128>) -> Option<i128>
    requires { ForSome magnitude (λ n. n ≤ 2 ^ 64) }
    ensures { result ≡ kept_in numbers.now (option_map (number_of_sign is_negative) magnitude) }
{
    let number = number_of_sign(is_negative, magnitude?);
    if numbers.contains(number) {
        Some(number)
    } else {
        None
    }
}

/// The integer of a text in a document, where it lies in a part.
pub fn integer_in(numbers: &Part, text: &[u8]) -> Option<i128>
    requires { IsNarrow numbers.now }
    ensures { result ≡ kept_in numbers.now (integer_of text.now) }
{
    kept_in(
        numbers,
        is_negative(text),
        number_in(10, unsigned_part(text)),
    )
}

fn default_magnitude(text: &[u8]) -> Option<u128>
    ensures value { result ≡ capped (default_magnitude text.now) }
    ensures bound { IfSome result (λ n. n ≤ 2 ^ 64) }
{
    match text {
        [b'0', b'x', digits @ ..] => number_in(16, digits),
        [b'0', _, ..] => number_in(8, &text[1..]),
        _ => number_in(10, text),
    }
}

/// The integer of a text in a module, where it lies in a part.
pub fn default_integer_in(numbers: &Part, text: &[u8]) -> Option<i128>
    requires { IsNarrow numbers.now }
    ensures { result ≡ kept_in numbers.now (default_integer_of text.now) }
{
    kept_in(
        numbers,
        is_negative(text),
        default_magnitude(unsigned_part(text)),
    )
}

fn times_ten_to(magnitude: Option<u128>, exponent: u32) -> Option<u128>
    requires power { exponent ≤ 18 }
    requires bound { ForSome magnitude (λ n. n ≤ 2 ^ 64) }
    ensures value { result ≡ capped (option_map (λ n. n * 10 ^ exponent) magnitude) }
    ensures bound { IfSome result (λ n. n ≤ 2 ^ 64) }
{
    Some((magnitude? * u128::from(power_of_ten(exponent))).min(LARGE))
}

fn whole_units(digits: u32, text: &[u8]) -> Option<u128>
    requires { digits ≤ 18 }
    ensures value { result ≡ capped (whole_units digits text.now) }
    ensures bound { IfSome result (λ n. n ≤ 2 ^ 64) }
{
    times_ten_to(number_in(10, text), digits)
}

fn fraction_units(digits: u32, text: &[u8]) -> Option<u128>
    requires { digits ≤ 18 }
    ensures value { result ≡ capped (fraction_units digits text.now) }
    ensures bound { IfSome result (λ n. n ≤ 2 ^ 64) }
{
    if text.len() > digits as usize {
        return None;
    }
    times_ten_to(number_in(10, text), digits - text.len() as u32)
}

fn sum_of(a: Option<u128>, b: Option<u128>) -> Option<u128>
    requires a { ForSome a (λ n. n ≤ 2 ^ 64) }
    requires b { ForSome b (λ n. n ≤ 2 ^ 64) }
    ensures value { result ≡ capped (added a b) }
    ensures bound { IfSome result (λ n. n ≤ 2 ^ 64) }
{
    Some((a? + b?).min(LARGE))
}

fn point_in(text: &[u8]) -> Option<usize>
    ensures value { result ≡ position is_point text.now }
    ensures bound { IfSome result (λ i. i < length text.now) }
{
    text.iter().position(|byte| *byte == b'.')
}

#[tactic(auto, using(crate::proofs::NumeralLemmas::caps))]
fn decimal_magnitude(digits: u32, text: &[u8]) -> Option<u128>
    requires { digits ≤ 18 }
    ensures value { result ≡ capped (decimal_magnitude digits text.now) }
    ensures bound { IfSome result (λ n. n ≤ 2 ^ 64) }
{
    match point_in(text) {
        None => whole_units(digits, text),
        Some(point) => sum_of(
            whole_units(digits, &text[..point]),
            fraction_units(digits, &text[point + 1..]),
        ),
    }
}

/// The number of a text with a point, in units of its last digit, where it lies in a part.
#[tactic(auto, using(crate::proofs::NumeralLemmas::caps))]
pub fn decimal_in(numbers: &Part, digits: FractionDigits, text: &[u8]) -> Option<i128>
    requires { IsNarrow numbers.now }
    ensures { result ≡ kept_in numbers.now (decimal_of digits text.now) }
{
    kept_in(
        numbers,
        is_negative(text),
        decimal_magnitude(digits.digits(), unsigned_part(text)),
    )
}
