//! Numbers in arguments (RFC 7950, 7.7.5, 7.7.6, 9.3.4, 9.6.4.2 and 9.7.4.2).

ghost use Rattle.std.specs.Prelude.{◌≡◌, ◌≤◌, ◌<◌, ◌^◌, IfSome, option_and_then};
ghost use Rattle.std.specs.Char.{digit_value};
ghost use Rattle.ytype_numbers.specs.Words.{capped};
ghost use Rattle.yspec.specs.types.Numerals.{digits_from, is_negative, number_of_sign};
ghost use Rattle.yspec.specs.linking.Arguments as spec;

/// What stands for every magnitude from here on: no type has it.
pub(crate) const FAR: u128 = 0x1_0000_0000_0000_0000;

fn digit_value(byte: u8) -> u32
    ensures value { result ≡ digit_value byte }
    ensures bound { result ≤ 36 }
{
    match byte {
        b'0'..=b'9' => u32::from(byte - b'0'),
        b'A'..=b'Z' => u32::from(byte - b'A') + 10,
        b'a'..=b'z' => u32::from(byte - b'a') + 10,
        _ => 36,
    }
}

/// The number that these digits make of the number so far.
pub(crate) fn digits_from(so_far: u128, digits: &[u8]) -> Option<u128>
    requires { so_far ≤ 2 ^ 64 }
    ensures value { result ≡ capped (digits_from 10 so_far digits.now) }
    ensures bound { IfSome result (λ n. n ≤ 2 ^ 64) }
{
    let mut number = so_far;
    'digits: for byte in digits {
        let digit = digit_value(*byte);
        if digit >= 10 {
            return None;
        }
        number = (number * 10 + u128::from(digit)).min(FAR);
    }
    Some(number)
}

/// The number of `0`, or of digits with no zero in front.
pub(crate) fn whole_of(text: &[u8]) -> Option<u128>
    ensures value { result ≡ capped (spec.whole_of text.now) }
    ensures bound { IfSome result (λ n. n ≤ 2 ^ 64) }
{
    match text {
        [] => None,
        [b'0', _, ..] => None,
        _ => digits_from(0, text),
    }
}

pub(crate) fn is_negative(text: &[u8]) -> bool
    ensures { result ≡ is_negative text.now }
{
    match text.split_first() {
        None => false,
        Some((first, _)) => *first == b'-',
    }
}

/// What stands behind a minus, if a text begins with it.
pub(crate) fn after_minus(text: &[u8]) -> &[u8]
    ensures { result.now ≡ spec.after_minus text.now }
{
    match text.split_first() {
        Some((first, rest)) if *first == b'-' => rest,
        _ => text,
    }
}

pub(crate) fn number_of_sign(is_negative: bool, magnitude: u128) -> i128
    requires { magnitude ≤ 2 ^ 64 }
    ensures { result ≡ number_of_sign is_negative magnitude }
{
    let number = magnitude as i128;
    if is_negative { -number } else { number }
}

/// The number of a text, where it lies between two that aren't far.
#[tactic(auto, using(crate::proofs::NumberLemmas::between_capped))]
fn between(low: u32, high: u32, text: &str) -> Option<u32>
    ensures { result ≡ option_and_then (spec.between low high) (spec.whole_of text.now) }
{
    let number = u32::try_from(whole_of(text.as_bytes())?).ok()?;
    if low <= number && number <= high {
        Some(number)
    } else {
        None
    }
}

/// The number of `min-elements`, or the position of a bit.
pub fn count(text: &str) -> Option<u32>
    ensures { result ≡ spec.count_of text.now }
{
    between(0, u32::MAX, text)
}

/// The number of `max-elements`; none inside where it is unbounded.
pub fn max_elements(text: &str) -> Option<Option<u32>>
    ensures { result ≡ spec.max_elements_of text.now }
{
    if text == "unbounded" {
        return Some(None);
    }
    match between(1, u32::MAX, text) {
        Some(number) => Some(Some(number)),
        None => None,
    }
}

/// How many digits a decimal64 has after its point.
pub fn fraction_digits(text: &str) -> Option<u32>
    ensures { result ≡ spec.fraction_digits_of text.now }
{
    between(1, 18, text)
}

/// The value of an enum.
pub fn enum_value(text: &str) -> Option<i64>
    ensures { result ≡ spec.value_of text.now }
{
    let bytes = text.as_bytes();
    let magnitude = whole_of(after_minus(bytes))?;
    let number = number_of_sign(is_negative(bytes), magnitude);
    if -2147483648 <= number && number <= 2147483647 {
        Some(number as i64)
    } else {
        None
    }
}
