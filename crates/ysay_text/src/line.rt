//! A line of a text, and how it is shown to a person.

ghost use Rattle.std.specs.Prelude.{◌≡◌, ◌++◌, ◌<◌, IfOk, IfSome, OnOk, string_bytes, take, nat_le, length, position};
ghost use Rattle.std.specs.List.{flat_map, list_all};
ghost use Rattle.std.specs.Str.{chars, encode_utf8_all};
ghost use Rattle.yspec.specs.text.Text.{is_blank};
ghost use Rattle.ysay_text.specs.Line as spec;

use std::alloc::{AllocError, Global};
use std::str;
use ytext::offset_of;

/// So many characters of a line are shown.
const SHOWN_LIMIT: usize = 100;

fn ends_line(byte: u8) -> bool
    ensures { result ≡ spec.ends_line byte }
{
    byte == b'\n' || byte == b'\r'
}

/// Where the first line break stands.
fn break_offset(bytes: &[u8]) -> Option<usize>
    ensures value { result ≡ position spec.ends_line bytes.now }
    ensures within { IfSome result (λ at. at < length bytes.now) }
{
    bytes.iter().position(|byte| ends_line(*byte))
}

/// What stands before the first line break.
fn first_line(bytes: &[u8]) -> &[u8]
    ensures { result.now ≡ spec.first_line bytes.now }
{
    match break_offset(bytes) {
        Some(at) => &bytes[..at],
        None => bytes,
    }
}

/// What stands behind the first line feed.
fn other_lines(bytes: &[u8]) -> &[u8]
    ensures { result.now ≡ spec.other_lines bytes.now }
{
    match offset_of(bytes, b'\n') {
        Some(at) => &bytes[at + 1..],
        None => &[],
    }
}

/// The line of a number, counted from 1, without what ends it.
fn line_at(number: u32, bytes: &[u8]) -> &[u8]
    ensures { result.now ≡ spec.line_at number bytes.now }
{
    let mut rest = bytes;
    for _at in 1..number {
        if rest.is_empty() {
            return rest;
        }
        rest = other_lines(rest);
    }
    first_line(rest)
}

fn is_blank(byte: u8) -> bool
    ensures { result ≡ is_blank byte }
{
    byte == b' ' || byte == b'\t'
}

fn without_blanks(line: &[u8]) -> &[u8]
    ensures { result.now ≡ spec.without_blanks line.now }
{
    for at in 0..line.len() {
        if !is_blank(line[at]) {
            return &line[at..];
        }
    }
    &[]
}

/// Whether a character has no shape of its own, or turns the direction of what follows.
fn is_formatting(code: u32) -> bool
    ensures { result ≡ spec.is_formatting code }
{
    (0x200b <= code && code <= 0x200f)
        || (0x2028 <= code && code <= 0x202e)
        || (0x2060 <= code && code <= 0x206f)
        || code == 0xfeff
}

/// Whether a terminal takes a character as one to show.
fn is_shown(character: char) -> bool
    ensures { result ≡ spec.is_shown character }
{
    let code = character as u32;
    character == '\t' || (0x20 <= code && code < 127) || (160 <= code && !is_formatting(code))
}

fn are_shown(text: &str) -> bool
    ensures { result ≡ list_all spec.is_shown (chars text.now) }
{
    text.chars().all(is_shown)
}

pub(crate) fn hex_digit(number: u8) -> char
    requires { number < 16 }
    ensures { result ≡ spec.hex_digit number }
{
    if number < 10 {
        (b'0' + number) as char
    } else {
        (b'a' + (number - 10)) as char
    }
}

/// Adds a byte, as two digits where it is no character of ASCII to be printed.
fn push_escaped(text: &mut String, byte: u8) -> Result<(), AllocError>
    ensures { OnOk result (string_bytes text.new ≡ string_bytes text.old ++ spec.escaped byte) }
{
    if 0x20 <= byte && byte < 127 {
        return text.push(byte as char);
    }
    text.push_str("\\x")?;
    text.push(hex_digit(byte / 16))?;
    text.push(hex_digit(byte % 16))
}

/// Marks that something is left out.
fn ended(is_whole: bool) -> &'static str
    ensures { result.now ≡ spec.ended is_whole }
{
    if is_whole { "" } else { " .." }
}

fn escaped(alloc: Global, bytes: &[u8]) -> Result<String, AllocError>
    ensures { IfOk result (λ text. string_bytes text ≡ flat_map spec.escaped bytes.now) }
{
    let mut text = String::new(alloc);
    for byte in bytes {
        push_escaped(&mut text, *byte)?;
    }
    Ok(text)
}

fn first_characters(alloc: Global, text: &str) -> Result<String, AllocError>
    ensures { IfOk result (λ first. string_bytes first
        ≡ encode_utf8_all (take spec.shown_limit (chars text.now))) }
{
    text.chars().take(SHOWN_LIMIT).collect(alloc)
}

fn first_bytes(bytes: &[u8]) -> &[u8]
    ensures { result.now ≡ take spec.shown_limit bytes.now }
{
    if bytes.len() <= SHOWN_LIMIT {
        bytes
    } else {
        &bytes[..SHOWN_LIMIT]
    }
}

/// A line, or another text, as it is shown.
pub fn shown(alloc: Global, line: &[u8]) -> Result<String, AllocError>
    ensures { IfOk result (λ text. string_bytes text ≡ spec.shown line.now) }
{
    match str::from_utf8(line) {
        Ok(text) => shown_text(alloc, text),
        Err(_) => shown_bytes(alloc, line),
    }
}

fn shown_text(alloc: Global, text: &str) -> Result<String, AllocError>
    ensures { IfOk result (λ shown. string_bytes shown ≡ spec.shown text.now) }
{
    if are_shown(text) {
        shown_characters(alloc, text)
    } else {
        shown_bytes(alloc, text.as_bytes())
    }
}

fn shown_characters(alloc: Global, text: &str) -> Result<String, AllocError>
    ensures { IfOk result (λ shown. string_bytes shown
        ≡ encode_utf8_all (take spec.shown_limit (chars text.now))
        ++ spec.ended (nat_le (length (chars text.now)) spec.shown_limit)) }
{
    let mut shown = first_characters(alloc, text)?;
    shown.push_str(ended(char_count(text) <= SHOWN_LIMIT))?;
    Ok(shown)
}

fn char_count(text: &str) -> usize
    ensures { result ≡ length (chars text.now) }
{
    text.chars().count()
}

fn shown_bytes(alloc: Global, bytes: &[u8]) -> Result<String, AllocError>
    ensures { IfOk result (λ text. string_bytes text
        ≡ flat_map spec.escaped (take spec.shown_limit bytes.now)
        ++ spec.ended (nat_le (length bytes.now) spec.shown_limit)) }
{
    let mut text = escaped(alloc, first_bytes(bytes))?;
    text.push_str(ended(bytes.len() <= SHOWN_LIMIT))?;
    Ok(text)
}

/// The line of a number, counted from 1, as it is shown to a person, without the blanks before it.
#[tactic(auto, unfolding(crate::specs::Line::shown_line))]
pub fn shown_line(alloc: Global, number: u32, bytes: &[u8]) -> Result<String, AllocError>
    ensures { IfOk result (λ text. string_bytes text ≡ spec.shown_line number bytes.now) }
{
    shown(alloc, without_blanks(line_at(number, bytes)))
}
