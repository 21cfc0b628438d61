//! What is said of bytes that are no JSON (J1).

ghost use Rattle.std.specs.Prelude.{◌≡◌, IfOk, string_bytes};
ghost use Rattle.yspec.specs.text.Text as text_spec;
ghost use Rattle.ysay_refusal.specs.NoJson as spec;
ghost use Rattle.ysay_refusal.specs.ReachedView.{reached_view};

use std::alloc::{AllocError, Global};
use ytext::{is_digit, is_white};

/// What is read so far.
#[derive(Clone, Copy, Debug)]
enum Reached {
    /// A value is due, and no bracket closes.
    Due,
    BehindComma,
    BehindOpen,
    Word,
    Text,
    BehindBackslash,
    BehindSlash,
    /// Behind a text, which may be a name.
    BehindText,
    /// Behind another value.
    BehindValue,
    Comment,
    SingleQuotes,
    CommaInObject,
    CommaInArray,
    /// Of what is wrong first nothing is told.
    Other,
}

// ---- bytes

fn opens(byte: u8) -> bool
    ensures { result ≡ spec.opens byte }
{
    matches!(byte, b'{' | b'[')
}

fn closes(byte: u8) -> bool
    ensures { result ≡ spec.closes byte }
{
    matches!(byte, b'}' | b']')
}

fn is_letter(byte: u8) -> bool
    ensures { result ≡ text_spec.is_letter byte }
{
    matches!(byte, b'A'..=b'Z' | b'a'..=b'z')
}

/// Whether a byte is one of a number, or of `true`, `false` or `null`.
fn is_of_word(byte: u8) -> bool
    ensures { result ≡ spec.is_of_word byte }
{
    is_letter(byte) || is_digit(byte) || byte == b'-' || byte == b'+' || byte == b'.'
}

// ---- what is read

/// Where a value or a name is due; behind white space, and behind a bracket that closes, these are reached.
fn at_due(same: Reached, closed: Reached, byte: u8) -> Reached
    ensures { reached_view result ≡ spec.at_due (reached_view same) (reached_view closed) byte }
{
    if is_white(byte) {
        same
    } else if byte == b'"' {
        Reached::Text
    } else if byte == b'\'' {
        Reached::SingleQuotes
    } else if byte == b'/' {
        Reached::BehindSlash
    } else if opens(byte) {
        Reached::BehindOpen
    } else if closes(byte) {
        closed
    } else if is_of_word(byte) {
        Reached::Word
    } else {
        Reached::Other
    }
}

fn comma_before(byte: u8) -> Reached
    ensures { reached_view result ≡ spec.comma_before byte }
{
    if byte == b'}' {
        Reached::CommaInObject
    } else {
        Reached::CommaInArray
    }
}

fn at_value_end(byte: u8) -> Reached
    ensures { reached_view result ≡ spec.at_value_end byte }
{
    if is_white(byte) || closes(byte) {
        Reached::BehindValue
    } else if byte == b',' {
        Reached::BehindComma
    } else if byte == b'/' {
        Reached::BehindSlash
    } else {
        Reached::Other
    }
}

fn at_text_end(byte: u8) -> Reached
    ensures { reached_view result ≡ spec.at_text_end byte }
{
    if is_white(byte) {
        Reached::BehindText
    } else if byte == b':' {
        Reached::Due
    } else {
        at_value_end(byte)
    }
}

fn at_word(byte: u8) -> Reached
    ensures { reached_view result ≡ spec.at_word byte }
{
    if is_of_word(byte) {
        Reached::Word
    } else {
        at_value_end(byte)
    }
}

fn at_text(byte: u8) -> Reached
    ensures { reached_view result ≡ spec.at_text byte }
{
    if byte == b'"' {
        Reached::BehindText
    } else if byte == b'\\' {
        Reached::BehindBackslash
    } else if byte < b' ' {
        Reached::Other
    } else {
        Reached::Text
    }
}

fn at_slash(byte: u8) -> Reached
    ensures { reached_view result ≡ spec.at_slash byte }
{
    if byte == b'/' || byte == b'*' {
        Reached::Comment
    } else {
        Reached::Other
    }
}

/// Behind one more byte.
fn step(reached: Reached, byte: u8) -> Reached
    ensures { reached_view result ≡ spec.step (reached_view reached) byte }
{
    match reached {
        Reached::Due => at_due(Reached::Due, Reached::Other, byte),
        Reached::BehindComma => at_due(Reached::BehindComma, comma_before(byte), byte),
        Reached::BehindOpen => at_due(Reached::BehindOpen, Reached::BehindValue, byte),
        Reached::Word => at_word(byte),
        Reached::Text => at_text(byte),
        Reached::BehindBackslash => Reached::Text,
        Reached::BehindSlash => at_slash(byte),
        Reached::BehindText => at_text_end(byte),
        Reached::BehindValue => at_value_end(byte),
        Reached::Comment => Reached::Comment,
        Reached::SingleQuotes => Reached::SingleQuotes,
        Reached::CommaInObject => Reached::CommaInObject,
        Reached::CommaInArray => Reached::CommaInArray,
        Reached::Other => Reached::Other,
    }
}

/// So many brackets, and one more.
fn deeper(depth: u32) -> u32
    ensures { result ≡ spec.deeper depth }
{
    depth.saturating_add(1)
}

/// How many brackets are open behind a byte that stands in no text.
fn depth_behind(byte: u8, depth: u32) -> u32
    ensures { result ≡ spec.depth_behind byte depth }
{
    if opens(byte) {
        deeper(depth)
    } else if closes(byte) {
        depth.saturating_sub(1)
    } else {
        depth
    }
}

fn depth_after(reached: Reached, byte: u8, depth: u32) -> u32
    ensures { result ≡ spec.depth_after (reached_view reached) byte depth }
{
    match reached {
        Reached::Text | Reached::BehindBackslash => depth,
        Reached::Due
        | Reached::BehindComma
        | Reached::BehindOpen
        | Reached::Word
        | Reached::BehindSlash
        | Reached::BehindText
        | Reached::BehindValue
        | Reached::Comment
        | Reached::SingleQuotes
        | Reached::CommaInObject
        | Reached::CommaInArray
        | Reached::Other => depth_behind(byte, depth),
    }
}

// ---- what is said

fn at_end(depth: u32) -> &'static str
    ensures { result.now ≡ spec.at_end depth }
{
    if depth == 0 {
        ""
    } else {
        "the document ends before all brackets are closed."
    }
}

fn said_where(reached: Reached, depth: u32) -> &'static str
    ensures { result.now ≡ spec.said_where (reached_view reached) depth }
{
    match reached {
        Reached::Comment => "JSON has no comments.",
        Reached::SingleQuotes => "JSON wants double quotes.",
        Reached::CommaInObject => "no comma stands behind the last member.",
        Reached::CommaInArray => "no comma stands behind the last item.",
        Reached::Other => "",
        Reached::Due
        | Reached::BehindComma
        | Reached::BehindOpen
        | Reached::Word
        | Reached::Text
        | Reached::BehindBackslash
        | Reached::BehindSlash
        | Reached::BehindText
        | Reached::BehindValue => at_end(depth),
    }
}

/// Which of these is wrong first: a comment, single quotes, a comma too many, or an end too early; an empty text where something
/// else is wrong before.
#[tactic(auto, unfolding(crate::specs::NoJson::said_of_no_json))]
fn slip_in(bytes: &[u8]) -> &'static str
    ensures { result.now ≡ spec.said_of_no_json bytes.now }
{
    let mut reached = Reached::Due;
    let mut depth = 0;
    for byte in bytes {
        depth = depth_after(reached, *byte, depth);
        reached = step(reached, *byte);
    }
    said_where(reached, depth)
}

/// What is said of bytes that are no JSON.
pub(crate) fn said_of_no_json(alloc: Global, bytes: &[u8]) -> Result<String, AllocError>
    ensures { IfOk result (λ text. string_bytes text ≡ spec.said_of_no_json bytes.now) }
{
    String::from_str(alloc, slip_in(bytes))
}
