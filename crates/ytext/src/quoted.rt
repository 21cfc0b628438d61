//! What a quoted string says (RFC 7950, 6.1.3; RFC 6020, 6.1.3).
ghost use Rattle.std.specs.Prelude.{◌≡◌, ℕ, ◌+◌, ◌*◌, ◌^◌, ◌<◌, ◌≤◌, Bool, List, ◌++◌, Ok, length, drop, slice_index, slice_range, string_bytes, true, false, IsTrue, ◌==◌, ◌&&◌, ◌||◌, IsSome, IfSome, IfOk, IfErr, OnOk, replicate};
ghost use Rattle.std.specs.Str.{IsCharBoundary};
ghost use Rattle.yspec.specs.text.Text.{is_blank, space, begins, line_feed, carriage_return};
ghost use Rattle.yspec.specs.text.Token.{joined_breaks, stripped_starts, single_text, escape, column_behind, column_after};
ghost use Rattle.yspec.specs.text.Scanning.{wrong_escape};
ghost use Rattle.yspec.specs.Results.{Gives, Fails};
ghost use Rattle.ytext.specs.Told.{told_by};
ghost use Rattle.ytext.specs.Quoted.{reading_in, all_blank, blank_width, is_break, is_plain};

use crate::fault::{TextCode, TextFault};
use crate::scan::{behind_ascii, stands_at};
use std::alloc::AllocError;

/// The column behind these bytes of a line. A tab counts eight columns, another character one.
fn column_behind(bytes: &[u8]) -> usize
    requires { 8 * length bytes.now < 2 ^ 63 }
    ensures { result ≡ column_behind 1 bytes.now }
{
    let mut column = 1usize;
    for byte in bytes {
        column = column_after(*byte, column);
    }
    column
}

/// The column behind one byte.
fn column_after(byte: u8, column: usize) -> usize
    requires { column + 8 < 2 ^ 64 }
    ensures cases { result ≡ column_after byte column }
    ensures bound { result ≤ column + 8 }
{
    if byte == b'\n' {
        1
    } else if byte == b'\t' {
        column + 8
    } else if 128 <= byte && byte < 192 {
        column
    } else {
        column + 1
    }
}

/// What a backslash and this character stand for.
fn escape(byte: u8) -> Option<char>
    ensures value { result ≡ escape byte }
    ensures ascii { IsSome result → byte < 128 }
    ensures ascii_too { IfSome result (λ x. x < 128) }
{
    match byte {
        b'n' => Some('\n'),
        b't' => Some('\t'),
        b'"' | b'\\' => Some(byte as char),
        _ => None,
    }
}

fn is_blank(byte: u8) -> bool
    ensures cases { result ≡ is_blank byte }
    ensures ascii { result ≡ true → byte < 128 }
{
    byte == b' ' || byte == b'\t'
}

/// How many columns a space or a tab takes.
fn blank_width(byte: u8) -> usize
    ensures { result ≡ blank_width byte }
{
    if byte == b'\t' { 8 } else { 1 }
}

/// Whether a carriage return stands at this place, and a line feed behind it.
fn returns_at(bytes: &[u8], at: usize) -> bool
    requires { at < length bytes.now }
    ensures cases { result ≡ (slice_index bytes.now at == carriage_return
        && begins line_feed (drop (at + 1) bytes.now)) }
    ensures ascii { IsTrue result → slice_index bytes.now at ≡ 13 }
{
    bytes[at] == b'\r' && stands_at(bytes, at + 1, b'\n')
}

/// Whether the byte at this place is a line feed, or a carriage return with a line feed behind it.
fn feeds_at(bytes: &[u8], at: usize) -> bool
    requires { at < length bytes.now }
    ensures cases { result ≡ (slice_index bytes.now at == line_feed
        || (slice_index bytes.now at == carriage_return
        && begins line_feed (drop (at + 1) bytes.now))) }
    ensures ascii { IsTrue result → slice_index bytes.now at < 128 }
{
    bytes[at] == b'\n' || returns_at(bytes, at)
}

/// Whether a line break begins at this place.
#[tactic(auto, using(crate::proofs::QuotedLemmas::break_at, crate::proofs::QuotedLemmas::no_break))]
fn breaks_at(bytes: &[u8], at: usize) -> bool
    ensures cases { result ≡ is_break (drop at bytes.now) }
    ensures ascii { IsTrue result → slice_index bytes.now at < 128 }
    ensures within { IsTrue result → at < length bytes.now }
{
    at < bytes.len() && feeds_at(bytes, at)
}

/// Whether the character at this place stands for itself.
#[tactic(auto, using(crate::proofs::QuotedLemmas::plain_at))]
fn is_plain_at(bytes: &[u8], at: usize) -> bool
    requires { at < length bytes.now }
    ensures cases { result ≡ is_plain (drop at bytes.now) }
    ensures ascii { result ≡ false → slice_index bytes.now at < 128 }
{
    bytes[at] != b'\\' && !is_blank(bytes[at]) && !breaks_at(bytes, at)
}

/// Where the spaces and tabs end that go on at this place.
fn blanks_end(raw: &str, from: usize) -> usize
    requires { IsCharBoundary raw.now from }
    ensures blank { all_blank (slice_range raw.now from result) ≡ true }
    ensures ends { result < length raw.now → is_blank (slice_index raw.now result) ≡ false }
    ensures forward { from ≤ result }
    ensures place { IsCharBoundary raw.now result }
{
    let bytes = raw.as_bytes();
    let mut at = from;
    while at < bytes.len() && is_blank(bytes[at]) {
        at = behind_ascii(raw, at);
    }
    at
}

/// Where the characters end that stand for themselves, the first of which is at this place.
fn plain_end(raw: &str, from: usize) -> usize
    requires within { from < length raw.now }
    requires plain { is_plain (drop from raw.now) ≡ true }
    ensures same { (is_yang_1 : Bool) (width left line : ℕ) (text : List ℕ)
        → reading_in is_yang_1 width left line text (drop from raw.now)
        ≡ reading_in is_yang_1 width 0 line (text ++ slice_range raw.now from result)
        (drop result raw.now) }
    ensures forward { from < result }
    ensures place { IsCharBoundary raw.now result }
{
    let bytes = raw.as_bytes();
    let mut at = from + 1;
    while at < bytes.len() && is_plain_at(bytes, at) {
        at += 1;
    }
    at
}

/// Where the next carriage return stands with a line feed behind it, or the end.
fn return_offset(raw: &str, from: usize) -> usize
    requires { from ≤ length raw.now }
    ensures same { joined_breaks (drop from raw.now) ≡ slice_range raw.now from result
        ++ joined_breaks (drop result raw.now) }
    ensures forward { from ≤ result }
    ensures place { IsCharBoundary raw.now result }
    ensures ascii { result < length raw.now → slice_index raw.now result ≡ 13 }
    ensures breaks { result < length raw.now → begins line_feed (drop (result + 1) raw.now) ≡ true }
{
    let bytes = raw.as_bytes();
    let mut at = from;
    while at < bytes.len() && !returns_at(bytes, at) {
        at += 1;
    }
    at
}

/// The text between two places.
fn between(raw: &str, start: usize, end: usize) -> &str
    requires order { start ≤ end }
    requires start { IsCharBoundary raw.now start }
    requires end { IsCharBoundary raw.now end }
    ensures { result.now ≡ slice_range raw.now start end }
{
    &raw[start..end]
}

/// Adds what a single-quoted string says: each of its characters, a line break being a line feed.
pub(crate) fn push_single(text: &mut String, raw: &str) -> Result<(), TextFault>
    ensures { Gives (λ _. string_bytes text.new) told_by result
        (Ok (string_bytes text.old ++ single_text raw.now)) }
{
    let mut at = 0;
    while at <= raw.len() {
        let end = return_offset(raw, at);
        text.push_str(between(raw, at, end))?;
        if end == raw.len() {
            return Ok(());
        }
        at = behind_ascii(raw, end);
    }
    Ok(())
}

/// Adds so many spaces.
fn push_spaces(text: &mut String, count: usize) -> Result<(), AllocError>
    ensures { OnOk result (string_bytes text.new ≡ string_bytes text.old ++ replicate count space) }
{
    let mut left = count;
    while left > 0 {
        text.push(' ')?;
        left -= 1;
    }
    Ok(())
}

/// Adds the spaces and tabs between two places, without so many columns of them.
fn push_blanks(
    text: &mut String,
    raw: &str,
    start: usize,
    end: usize,
    left: usize,
) -> Result<(), AllocError>
    requires order { start ≤ end }
    requires start { IsCharBoundary raw.now start }
    requires end { IsCharBoundary raw.now end }
    requires blank { all_blank (slice_range raw.now start end) ≡ true }
    ensures { OnOk result (string_bytes text.new
        ≡ string_bytes text.old ++ stripped_starts 0 left (slice_range raw.now start end)) }
{
    let bytes = raw.as_bytes();
    let mut left = left;
    let mut at = start;
    while at < end && left > 0 {
        let width = blank_width(bytes[at]);
        push_spaces(text, width.saturating_sub(left))?;
        left = left.saturating_sub(width);
        at = behind_ascii(raw, at);
    }
    text.push_str(between(raw, at, end))?;
    Ok(())
}

/// A place in a double-quoted string, its line, and how many columns of that line are still to be stripped.
#[derive(Clone, Copy)]
struct Place {
    at: usize,
    line: u64,
    left: usize,
}

/// Adds what the backslash at this place and the character behind it say.
fn push_escape(
    text: &mut String,
    raw: &str,
    place: Place,
    is_yang_1: bool,
) -> Result<Place, TextFault>
    requires within { place.at < length raw.now }
    requires slash { slice_index raw.now place.at ≡ 92 }
    requires few_lines { place.line < 2 ^ 32 }
    ensures ok { (width : ℕ) → IfOk result
        (λ p. reading_in is_yang_1 width p.left p.line (string_bytes text.new) (drop p.at raw.now)
        ≡ reading_in is_yang_1 width place.left place.line (string_bytes text.old)
        (drop place.at raw.now)) }
    ensures err { (width : ℕ) → IfErr result (λ e.
        Fails (told_by e) (reading_in is_yang_1 width place.left place.line (string_bytes text.old)
        (drop place.at raw.now))) }
    ensures place { IfOk result (λ p. (place.at < p.at) × IsCharBoundary raw.now p.at) }
    ensures line { IfOk result (λ p. p.line ≡ place.line) }
{
    let bytes = raw.as_bytes();
    let next = behind_ascii(raw, place.at);
    if next == bytes.len() {
        return Ok(Place {
            at: next,
            line: place.line,
            left: place.left,
        });
    }
    match escape(bytes[next]) {
        Some(character) => {
            text.push(character)?;
            Ok(Place {
                at: behind_ascii(raw, next),
                line: place.line,
                left: 0,
            })
        }
        None => {
            if is_yang_1 {
                text.push('\\')?;
                return Ok(Place {
                    at: next,
                    line: place.line,
                    left: 0,
                });
            }
            Err(TextFault::refused(TextCode::L4, place.line))
        }
    }
}

/// Adds what stands at this place.
fn push_next(
    text: &mut String,
    raw: &str,
    width: usize,
    place: Place,
    is_yang_1: bool,
) -> Result<Place, TextFault>
    requires within { place.at < length raw.now }
    requires place { IsCharBoundary raw.now place.at }
    requires few_lines { place.line + length raw.now < 2 ^ 32 + place.at }
    ensures ok { IfOk result
        (λ p. reading_in is_yang_1 width p.left p.line (string_bytes text.new) (drop p.at raw.now)
        ≡ reading_in is_yang_1 width place.left place.line (string_bytes text.old)
        (drop place.at raw.now)) }
    ensures err { IfErr result (λ e. Fails (told_by e)
        (reading_in is_yang_1 width place.left place.line (string_bytes text.old)
        (drop place.at raw.now))) }
    ensures place { IfOk result (λ p. (place.at < p.at) × IsCharBoundary raw.now p.at) }
    ensures line { IfOk result (λ p. p.line + place.at ≤ place.line + p.at) }
{
    let bytes = raw.as_bytes();
    let at = place.at;
    let line = place.line;
    let left = place.left;
    if is_blank(bytes[at]) {
        let end = blanks_end(raw, at);
        if breaks_at(bytes, end) {
            return Ok(Place {
                at: end,
                line,
                left,
            });
        }
        push_blanks(text, raw, at, end, left)?;
        return Ok(Place {
            at: end,
            line,
            left: 0,
        });
    }
    if bytes[at] == b'\n' {
        text.push('\n')?;
        return Ok(Place {
            at: behind_ascii(raw, at),
            line: line + 1,
            left: width,
        });
    }
    if bytes[at] == b'\\' {
        return push_escape(text, raw, place, is_yang_1);
    }
    if returns_at(bytes, at) {
        return Ok(Place {
            at: behind_ascii(raw, at),
            line,
            left,
        });
    }
    let end = plain_end(raw, at);
    text.push_str(between(raw, at, end))?;
    Ok(Place {
        at: end,
        line,
        left: 0,
    })
}

/// How many columns are stripped from the lines of a string whose opening quote stands in a line behind these bytes.
/// Where no line breaks in the string nothing asks for them, and that line isn't looked at.
fn strip_width(before: &[u8], raw: &str) -> usize
    requires { 8 * length before.now < 2 ^ 63 }
    ensures { (is_yang_1 : Bool) (line : ℕ) (text : List ℕ)
        → reading_in is_yang_1 result 0 line text raw.now
        ≡ reading_in is_yang_1 (column_behind 1 before.now) 0 line text raw.now }
{
    if raw.as_bytes().contains(&b'\n') {
        column_behind(before)
    } else {
        0
    }
}

/// Adds what a double-quoted string says, its opening quote standing in a line behind these bytes: its lines
/// stripped, and its escapes replaced.
pub(crate) fn push_double(
    text: &mut String,
    before: &[u8],
    raw: &str,
    line: u64,
    is_yang_1: bool,
) -> Result<(), TextFault>
    requires few_columns { 8 * length before.now < 2 ^ 63 }
    requires few_lines { line + length raw.now < 2 ^ 32 }
    ensures { Gives (λ _. string_bytes text.new) told_by result
        (reading_in is_yang_1 (column_behind 1 before.now) 0 line (string_bytes text.old) raw.now) }
{
    let width = strip_width(before, raw);
    let mut place = Place {
        at: 0,
        line,
        left: 0,
    };
    while place.at < raw.len() {
        place = push_next(text, raw, width, place, is_yang_1)?;
    }
    Ok(())
}

#[tactic(auto, unfolding(yspec::specs::text::Scanning::wrong_escape))]
/// The place of the first backslash that another character follows, the first byte standing at a place.
pub(crate) fn wrong_escape(raw: &[u8], from: usize) -> Option<usize>
    requires { from + length raw.now < 2 ^ 64 }
    ensures place { result ≡ wrong_escape false from raw.now }
    ensures within { IfSome result (λ place. place < from + length raw.now) }
{
    let mut place = from;
    let mut is_escaped = false;
    for byte in raw {
        if is_escaped && escape(*byte).is_none() {
            return Some(place - 1);
        }
        is_escaped = !is_escaped && *byte == b'\\';
        place += 1;
    }
    None
}
