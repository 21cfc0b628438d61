//! What a type takes, in words.

ghost use Rattle.std.specs.Prelude.{◌≡◌, IfOk, string_bytes};
ghost use Rattle.std.specs.List.{list_all};
ghost use Rattle.yspec.specs.types.Types.{decimal_base, string_base, binary_base};
ghost use Rattle.ytype.specs.View.{base_of, integer_of};
ghost use Rattle.ysay_value.specs.TakenWords as spec;

use crate::expressions::expressions_words;
use crate::identities::taken_identities;
use crate::joining::joined;
use crate::values::json_text;
use itoa::Buffer;
use std::alloc::{AllocError, Global};
use ytype::{Base, FractionDigits, Integer, Names, Part, SimpleType, YType};
use ytype_numbers::{decimal_text, integer_text};

// ---- the numbers that restrictions leave

fn number_words(alloc: Global, base: &Base, number: i128) -> Result<String, AllocError>
    ensures { IfOk result (λ text. string_bytes text
        ≡ spec.number_words (base_of base.now) number) }
{
    match base {
        Base::Decimal(digits) => decimal_text(alloc, *digits, number),
        _ => integer_text(alloc, number),
    }
}

/// One number, or the numbers from one to another.
fn part_words(alloc: Global, base: &Base, part: &Part) -> Result<String, AllocError>
    ensures { IfOk result (λ text. string_bytes text
        ≡ spec.part_words (base_of base.now) part.now) }
{
    if part.low() == part.high() {
        return number_words(alloc, base, part.low());
    }
    let low = number_words(alloc, base, part.low())?;
    let high = number_words(alloc, base, part.high())?;
    [low.as_str(), "..", high.as_str()].concat(alloc)
}

/// The greatest length.
const GREATEST_LENGTH: i128 = 0xFFFF_FFFF_FFFF_FFFF;

fn length_words(alloc: Global, part: &Part) -> Result<String, AllocError>
    ensures { IfOk result (λ text. string_bytes text ≡ spec.length_words part.now) }
{
    if part.high() != GREATEST_LENGTH {
        return part_words(alloc, &Base::Text, part);
    }
    let low = integer_text(alloc, part.low())?;
    [low.as_str(), " or more"].concat(alloc)
}

fn numbers_words(alloc: Global, base: &Base, parts: &[Part]) -> Result<String, AllocError>
    ensures { IfOk result (λ text. string_bytes text
        ≡ spec.numbers_words (base_of base.now) parts.now) }
{
    let mut texts = Vec::with_capacity(alloc, parts.len())?;
    for part in parts {
        texts.push(part_words(alloc, base, part)?)?;
    }
    joined(alloc, " | ", &texts)
}

fn is_any_length(part: &Part) -> bool
    ensures { result ≡ spec.is_any_length part.now }
{
    part.low() == 0 && part.high() == GREATEST_LENGTH
}

fn are_any_length(parts: &[Part]) -> bool
    ensures { result ≡ list_all spec.is_any_length parts.now }
{
    for part in parts {
        if !is_any_length(part) {
            return false;
        }
    }
    true
}

fn all_lengths_words(alloc: Global, parts: &[Part]) -> Result<String, AllocError>
    ensures { IfOk result (λ text. string_bytes text ≡ spec.all_lengths_words parts.now) }
{
    let mut texts = Vec::with_capacity(alloc, parts.len())?;
    for part in parts {
        texts.push(length_words(alloc, part)?)?;
    }
    joined(alloc, " | ", &texts)
}

/// What lengths leave of all texts; nothing where they leave all.
fn lengths_words(alloc: Global, parts: &[Part]) -> Result<String, AllocError>
    ensures { IfOk result (λ text. string_bytes text ≡ spec.lengths_words parts.now) }
{
    if are_any_length(parts) {
        return Ok(String::new(alloc));
    }
    let text = all_lengths_words(alloc, parts)?;
    [" of length ", text.as_str()].concat(alloc)
}

// ---- built-in types

fn form_words(integer: Integer) -> &'static str
    ensures { result.now ≡ spec.form_words (integer_of integer) }
{
    if integer.is_written_as_text() {
        "in quotes"
    } else {
        "without quotes"
    }
}

fn integer_words(alloc: Global, integer: Integer, parts: &[Part]) -> Result<String, AllocError>
    ensures { IfOk result (λ text. string_bytes text
        ≡ spec.integer_words (integer_of integer) parts.now) }
{
    let numbers = numbers_words(alloc, &Base::Integer(integer), parts)?;
    ["an integer ", form_words(integer), " in ", numbers.as_str()].concat(alloc)
}

fn count_words(alloc: Global, count: u32) -> Result<String, AllocError>
    ensures { IfOk result (λ text. string_bytes text ≡ spec.digits_words count) }
{
    if count == 1 {
        return String::from_str(alloc, "1 digit");
    }
    let mut number = Buffer::new();
    [number.format(count), " digits"].concat(alloc)
}

fn digits_words(alloc: Global, digits: FractionDigits) -> Result<String, AllocError>
    ensures { IfOk result (λ text. string_bytes text ≡ spec.digits_words digits) }
{
    count_words(alloc, digits.digits())
}

fn decimals_words(
    alloc: Global,
    digits: FractionDigits,
    parts: &[Part],
) -> Result<String, AllocError>
    ensures { IfOk result (λ text. string_bytes text
        ≡ spec.numbers_words (decimal_base digits) parts.now) }
{
    numbers_words(alloc, &Base::Decimal(digits), parts)
}

fn decimal_words(
    alloc: Global,
    digits: FractionDigits,
    parts: &[Part],
) -> Result<String, AllocError>
    ensures { IfOk result (λ text. string_bytes text ≡ spec.decimal_words digits parts.now) }
{
    let places = digits_words(alloc, digits)?;
    let numbers = decimals_words(alloc, digits, parts)?;
    [
        "a number in quotes, with at most ",
        places.as_str(),
        " after the point, in ",
        numbers.as_str(),
    ]
    .concat(alloc)
}

/// The names, each in quotes.
fn enum_words(alloc: Global, names: &Names) -> Result<String, AllocError>
    ensures { IfOk result (λ text. string_bytes text ≡ spec.enum_words names.now) }
{
    let mut texts = Vec::new(alloc);
    for (_, name) in names.by_number() {
        texts.push(json_text(alloc, name.as_str())?)?;
    }
    let text = joined(alloc, ", ", &texts)?;
    ["one of ", text.as_str()].concat(alloc)
}

fn bits_words(alloc: Global, names: &Names) -> Result<String, AllocError>
    ensures { IfOk result (λ text. string_bytes text ≡ spec.bits_words names.now) }
{
    let mut texts = Vec::new(alloc);
    for (_, name) in names.by_number() {
        texts.push(name.clone()?)?;
    }
    let text = joined(alloc, ", ", &texts)?;
    [
        "names in quotes, parted by spaces and each once, of: ",
        text.as_str(),
    ]
    .concat(alloc)
}

fn octets_words(alloc: Global, parts: &[Part]) -> Result<String, AllocError>
    ensures { IfOk result (λ text. string_bytes text ≡ spec.octets_words parts.now) }
{
    if are_any_length(parts) {
        return String::from_str(alloc, "base64 in quotes");
    }
    let text = all_lengths_words(alloc, parts)?;
    ["base64 in quotes, of ", text.as_str(), " octets"].concat(alloc)
}

// ---- types

fn text_words(alloc: Global, simple: &SimpleType) -> Result<String, AllocError>
    ensures { IfOk result (λ text. string_bytes text
        ≡ spec.base_words string_base simple.now) }
{
    let lengths = Part::new(0, GREATEST_LENGTH);
    let restricted = lengths_words(alloc, simple.left(&lengths))?;
    let expressions = simple.expressions(alloc)?;
    let matched = expressions_words(alloc, &expressions)?;
    ["a text in quotes", restricted.as_str(), matched.as_str()].concat(alloc)
}

fn binary_words(alloc: Global, simple: &SimpleType) -> Result<String, AllocError>
    ensures { IfOk result (λ text. string_bytes text
        ≡ spec.base_words binary_base simple.now) }
{
    let lengths = Part::new(0, GREATEST_LENGTH);
    octets_words(alloc, simple.left(&lengths))
}

/// What a type that is no union takes.
fn simple_words(alloc: Global, simple: &SimpleType) -> Result<String, AllocError>
    ensures { IfOk result (λ text. string_bytes text ≡ spec.simple_words simple.now) }
{
    match simple.base() {
        Base::Integer(integer) => {
            integer_words(alloc, *integer, simple.left(&integer.numbers()))
        }
        Base::Decimal(digits) => {
            decimal_words(alloc, *digits, simple.left(&Integer::Int64.numbers()))
        }
        Base::Text => text_words(alloc, simple),
        Base::Boolean => String::from_str(alloc, "true or false without quotes"),
        Base::Empty => String::from_str(alloc, "[null]"),
        Base::Enumeration(names) => enum_words(alloc, names),
        Base::Bits(names) => bits_words(alloc, names),
        Base::Identity(identities) => taken_identities(alloc, identities),
        Base::Binary => binary_words(alloc, simple),
    }
}

/// What a type takes; of a union, what one of its members takes.
pub fn taken_words(alloc: Global, value_type: &YType) -> Result<String, AllocError>
    ensures { IfOk result (λ text. string_bytes text ≡ spec.taken_words value_type.now) }
{
    let members = value_type.members(alloc)?;
    let mut texts = Vec::with_capacity(alloc, members.len())?;
    for member in &members {
        texts.push(simple_words(alloc, member)?)?;
    }
    joined(alloc, " or ", &texts)
}
