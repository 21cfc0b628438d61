//! Canonical texts of values (RFC 7950, 9.1).

ghost use Rattle.std.specs.Prelude.{◌≡◌, IfOk};
ghost use Rattle.std.specs.String.{string_bytes};
ghost use Rattle.yspec.specs.types.Numerals.{integer_text};
ghost use Rattle.yspec.specs.types.Values.{bool_text, number_text, content_text};
ghost use Rattle.ytype_simple.specs.View.{base_of, content_of};

use crate::base::Base;
use crate::content::Content;
use crate::octets::base64_text;
use itoa::Buffer;
use std::alloc::{AllocError, Global};
use ytype_numbers::{bits_text, decimal_text, name_of_number};

fn bool_text(flag: bool) -> &'static str
    ensures { result.now ≡ bool_text flag }
{
    if flag { "true" } else { "false" }
}

fn integer_text(alloc: Global, number: i128) -> Result<String, AllocError>
    ensures { IfOk result (λ text. string_bytes text ≡ integer_text number) }
{
    let mut digits = Buffer::new();
    String::from_str(alloc, digits.format(number))
}

fn number_text(alloc: Global, base: &Base, number: i128) -> Result<String, AllocError>
    ensures { IfOk result (λ text. string_bytes text ≡ number_text (base_of base.now) number) }
{
    match base {
        Base::Decimal(digits) => decimal_text(alloc, *digits, number),
        Base::Enumeration(names) => name_of_number(alloc, names, number),
        Base::Identity(identities) => name_of_number(alloc, identities.names(), number),
        _ => integer_text(alloc, number),
    }
}

/// The canonical text of a value of a type.
pub(crate) fn content_text(
    alloc: Global,
    base: &Base,
    content: &Content,
) -> Result<String, AllocError>
    ensures { IfOk result (λ text. string_bytes text
        ≡ content_text (base_of base.now) (content_of content.now)) }
{
    match content {
        Content::Text(text) => text.clone(),
        Content::Number(number) => number_text(alloc, base, *number),
        Content::Bool(flag) => String::from_str(alloc, bool_text(*flag)),
        Content::Empty => Ok(String::new(alloc)),
        Content::Bits(positions) => match base {
            Base::Bits(names) => bits_text(alloc, names, positions),
            _ => Ok(String::new(alloc)),
        },
        Content::Octets(octets) => base64_text(alloc, octets),
    }
}
