//! Module text, as a whole.
ghost use Rattle.std.specs.Prelude.{◌≡◌, ℕ, ◌+◌, ◌<◌, ◌≤◌, ◌^◌, List, [], ◌∷◌, ◌&&◌, true, Result, Ok, Some, None, is_some, IfSome, IfNone, IfOk, IfErr, length};
ghost use Rattle.std.specs.Str.{chars};
ghost use Rattle.std.specs.Char.{len_utf8};
ghost use Rattle.std.specs.List.{list_all};
ghost use Rattle.yspec.specs.text.Text.{line_behind, is_noncharacter, is_yang_char, forbidden_line};
ghost use Rattle.yspec.specs.Forest.{Forest};
ghost use Rattle.yspec.specs.text.Statement.{Statement, Slip, module_of, top_statement};
ghost use Rattle.yspec_wide.specs.Language.{Language, is_yang_1};
ghost use Rattle.yspec_wide.specs.Texts.{reads_versions, version_of_text, module_in};
ghost use Rattle.ytext.specs.Versions.{tokens_in};
ghost use Rattle.yspec.specs.Results.{Gives, Fails};
ghost use Rattle.ytext.specs.Told.{told_by};
ghost use Rattle.yspec.specs.text.Spelling.{Spells};
ghost use Rattle.yspec.specs.text.Slips.{told_slip};
ghost use Rattle.yspec.specs.text.Scanning.{forbidden_offset, scan_of};
ghost use Rattle.ytext.specs.Characters.{is_allowed_text, is_plain, judged, pending, pending_place};
ghost use Rattle.ytext.specs.Scanned.{tokens_left};
ghost use Rattle.ytext.specs.View.{modules_view};

use crate::fault::{TextCode, TextFault};
use crate::reader::Reader;
use crate::scanner::Tokens;
use crate::statement::Module;
use std::alloc::Global;
use std::str;

/// A module's text has at most so many bytes.
const TEXT_LIMIT: usize = 4_194_304;

/// The line behind these bytes.
pub(crate) fn line_behind(bytes: &[u8]) -> u64
    ensures line { result ≡ line_behind 1 bytes.now }
    ensures bound { result ≤ length bytes.now + 1 }
{
    let mut line = 1u64;
    for byte in bytes {
        if *byte == b'\n' {
            line += 1;
        }
    }
    line
}

/// Not U+FDD0 to U+FDEF, and not one of the last two characters of a plane.
fn is_noncharacter(code: u32) -> bool
    ensures { result ≡ is_noncharacter code }
{
    (0xfdd0 <= code && code <= 0xfdef) || 0xfffe <= code % 0x1_0000
}

/// Whether a character may stand in a text wherever it is.
fn is_yang_char(character: char) -> bool
    ensures { result ≡ is_yang_char character }
{
    let code = character as u32;
    character == '\t' || character == '\n' || (0x20 <= code && !is_noncharacter(code))
}

/// Whether a byte is part of no character that isn't allowed, and no carriage return.
fn is_plain(byte: u8) -> bool
    ensures { result ≡ is_plain byte }
{
    byte == b'\t' || byte == b'\n' || (0x20 <= byte && byte < 0xef)
}

/// Whether all bytes are plain: most texts are told right so, without a look at their characters.
fn are_plain(bytes: &[u8]) -> bool
    ensures { result ≡ list_all is_plain bytes.now }
{
    bytes.iter().all(|byte| is_plain(*byte))
}

/// The line and whether a carriage return stands just before, behind one more character. None where one of the two
/// characters isn't allowed.
fn behind_character(character: char, line: u64, has_returned: bool) -> Option<(u64, bool)>
    requires { line < 2 ^ 63 }
    ensures allowed { (rest : List ℕ) → IfSome result
        (λ next. pending has_returned line (character ∷ rest) ≡ pending next.1 next.0 rest) }
    ensures forbidden { (rest : List ℕ)
        → IfNone result (pending has_returned line (character ∷ rest) ≡ Some line) }
    ensures bound { IfSome result (λ next. next.0 ≤ line + 1) }
{
    if character == '\n' {
        return Some((line + 1, false));
    }
    if has_returned {
        return None;
    }
    if character == '\r' {
        return Some((line, true));
    }
    if is_yang_char(character) {
        Some((line, false))
    } else {
        None
    }
}

/// The line of the first character that isn't allowed. A carriage return is allowed before a line feed alone.
fn forbidden_line(text: &str) -> Option<u64>
    requires { length text.now < 2 ^ 32 }
    ensures line { result ≡ forbidden_line 1 (chars text.now) }
    ensures bound { IfSome result (λ line. line ≤ length text.now + 1) }
{
    if are_plain(text.as_bytes()) {
        return None;
    }
    let mut line = 1u64;
    let mut has_returned = false;
    for character in text.chars() {
        match behind_character(character, line, has_returned) {
            Some(next) => {
                line = next.0;
                has_returned = next.1;
            }
            None => return Some(line),
        }
    }
    if has_returned { Some(line) } else { None }
}

/// The place behind one more character, and whether that is a carriage return. The place of the character or of the
/// carriage return before it, where it isn't allowed.
fn passed_character(
    character: char,
    place: usize,
    has_returned: bool,
) -> Result<(usize, bool), usize>
    requires room { place + 4 < 2 ^ 64 }
    requires behind { has_returned ≡ true → 0 < place }
    ensures allowed { (rest : List ℕ) → IfOk result
        (λ next. pending_place has_returned place (character ∷ rest)
        ≡ pending_place next.1 next.0 rest) }
    ensures forbidden { (rest : List ℕ) → IfErr result
        (λ found. pending_place has_returned place (character ∷ rest) ≡ Some found) }
    ensures next { IfOk result (λ next. next.0 ≡ place + len_utf8 character) }
    ensures before { IfErr result (λ found. found ≤ place) }
{
    if has_returned && character != '\n' {
        return Err(place - 1);
    }
    let returns = character == '\r';
    if returns || is_yang_char(character) {
        Ok((place + character.len_utf8(), returns))
    } else {
        Err(place)
    }
}

/// The offset of the first character that isn't allowed.
pub(crate) fn forbidden_offset(text: &str) -> Option<usize>
    ensures place { result ≡ forbidden_offset 0 (chars text.now) }
    ensures within { IfSome result (λ place. place ≤ length text.now) }
{
    if are_plain(text.as_bytes()) {
        return None;
    }
    let mut place = 0usize;
    let mut has_returned = false;
    for character in text.chars() {
        match passed_character(character, place, has_returned) {
            Ok(next) => {
                place = next.0;
                has_returned = next.1;
            }
            Err(found) => return Some(found),
        }
    }
    if has_returned { Some(place - 1) } else { None }
}

/// The text of these bytes, where its length, its encoding and its characters are right.
fn checked_text(bytes: &[u8]) -> Result<&str, TextFault>
    ensures text { IfOk result (λ text. text.now ≡ bytes.now) }
    ensures length { IfOk result (λ text. length text.now ≤ 4194304) }
    ensures ok { (top : Result (Forest Statement) Slip) → IfOk result (λ _. judged bytes.now top ≡ top) }
    ensures allowed { IfOk result (λ _. is_allowed_text bytes.now ≡ true) }
    ensures err { (top : Result (Forest Statement) Slip)
        → IfErr result (λ e. Fails (told_by e) (judged bytes.now top)) }
    ensures told { IfErr result (λ e. is_some (told_by e) ≡ true) }
{
    if bytes.len() > TEXT_LIMIT {
        return Err(TextFault::refused(TextCode::L7, 1));
    }
    match str::from_utf8(bytes) {
        Ok(text) => match forbidden_line(text) {
            Some(line) => Err(TextFault::refused(TextCode::L2, line)),
            None => Ok(text),
        },
        Err(error) => {
            let (valid, _) = bytes.split_at(error.valid_up_to());
            Err(TextFault::refused(TextCode::L1, line_behind(valid)))
        }
    }
}

/// The statements of a module's text (RFC 7950, 6), or the first thing that is wrong with it: its length is judged
/// first, then that it is UTF-8, then its characters, all without taking memory, and then the rest from left to right.
pub fn parse(alloc: Global, bytes: &[u8]) -> Result<Module, TextFault>
    ensures answer { Gives (λ read. modules_view (read ∷ [])) told_by result (module_of bytes.now) }
    ensures spells { IfOk result (λ read. Spells bytes.now (modules_view (read ∷ []))) }
    ensures told { IfErr result
        (λ fault. IfSome (told_by fault) (λ slip. told_slip bytes.now ≡ Some slip)) }
    ensures memory { IfErr result
        (λ fault. told_by fault ≡ None → is_allowed_text bytes.now ≡ true) }
{
    parse_in(alloc, bytes, false)
}

/// The same in a language: whether each text is read by its own version, a text of YANG 1 by RFC 6020, 6.1.3, or every
/// text as one of YANG 1.1.
pub fn parse_in(alloc: Global, bytes: &[u8], has_versions: bool) -> Result<Module, TextFault>
    ensures answer { (language : Language) → reads_versions language ≡ has_versions
        → Gives (λ read. modules_view (read ∷ [])) told_by result (module_in language bytes.now) }
    ensures memory { IfErr result
        (λ fault. told_by fault ≡ None → is_allowed_text bytes.now ≡ true) }
{
    match checked_text(bytes) {
        Ok(text) => read_module(alloc, text, has_versions),
        Err(fault) => Err(fault),
    }
}

/// The statements of a text whose characters are right.
fn read_module(alloc: Global, text: &str, has_versions: bool) -> Result<Module, TextFault>
    requires { length text.now ≤ 4194304 }
    ensures { Gives (λ read. modules_view (read ∷ [])) told_by result
        (top_statement (tokens_in (has_versions && is_yang_1 (version_of_text text.now)) text.now)) }
{
    if !has_versions {
        return read_as(alloc, text, false);
    }
    match is_of_yang_1(alloc, text) {
        Ok(is_old) => read_as(alloc, text, is_old),
        Err(fault) => Err(fault),
    }
}

/// Whether a text is one of YANG 1, by what it states up to the first thing that is wrong.
fn is_of_yang_1(alloc: Global, text: &str) -> Result<bool, TextFault>
    requires { length text.now ≤ 4194304 }
    ensures { Gives (λ is. is) told_by result (Ok (is_yang_1 (version_of_text text.now))) }
{
    Reader::new(alloc, text, true).is_yang_1()
}

/// The statements of a text as one of YANG 1, or of YANG 1.1.
fn read_as(alloc: Global, text: &str, is_old: bool) -> Result<Module, TextFault>
    requires { length text.now ≤ 4194304 }
    ensures { Gives (λ read. modules_view (read ∷ [])) told_by result
        (top_statement (tokens_in is_old text.now)) }
{
    Reader::new(alloc, text, is_old).module()
}

/// The tokens of a text (RFC 7950, 6.1), up to the first thing that is wrong with its characters, quotes, comments or
/// escapes; without taking memory. After an error nothing comes.
pub fn tokens(text: &str) -> Tokens<'_>
    ensures { tokens_left result ≡ scan_of text.now }
{
    Tokens::new(text)
}
