//! Characters that a terminal obeys in place of showing them.

ghost use Rattle.std.specs.Prelude.{◌≡◌, ◌++◌, IfOk, OnOk, string_bytes};
ghost use Rattle.ysay_text.specs.Control as spec;

use crate::line::hex_digit;
use std::alloc::{AllocError, Global};

/// Whether a terminal obeys a character in place of showing it: U+0000 to U+001F, and U+007F to U+009F.
pub fn is_control(character: char) -> bool
    ensures { result ≡ spec.is_control character }
{
    let code = character as u32;
    code < 0x20 || (127 <= code && code < 160)
}

/// Whether a text has such a character.
pub fn has_control(text: &str) -> bool
    ensures { result ≡ spec.has_control text.now }
{
    text.chars().any(is_control)
}

/// Adds the code of such a character, as a text of JSON spells it.
fn push_code(text: &mut String, code: u8) -> Result<(), AllocError>
    ensures { OnOk result (string_bytes text.new ≡ string_bytes text.old ++ spec.code_text code) }
{
    text.push_str("\\u00")?;
    text.push(hex_digit(code / 16))?;
    text.push(hex_digit(code % 16))
}

/// Adds a character, as its code where a terminal would obey it.
fn push_visible(text: &mut String, character: char) -> Result<(), AllocError>
    ensures { OnOk result (string_bytes text.new ≡ string_bytes text.old
        ++ spec.visible_character character) }
{
    if is_control(character) {
        push_code(text, character as u32 as u8)
    } else {
        text.push(character)
    }
}

/// A text with each such character as its code, so that a terminal shows all of it.
pub fn visible(alloc: Global, text: &str) -> Result<String, AllocError>
    ensures { IfOk result (λ seen. string_bytes seen ≡ spec.visible text.now) }
{
    let mut seen = String::new(alloc);
    for character in text.chars() {
        push_visible(&mut seen, character)?;
    }
    Ok(seen)
}
