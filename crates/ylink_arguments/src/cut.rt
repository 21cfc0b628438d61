//! Cutting the texts of arguments.

ghost use Rattle.std.specs.Prelude.{◌≡◌, ◌+◌, ◌<◌, ◌==◌, ◌&&◌, true, IfSome, IfNone, length, take, drop, slice_index, option_map, position};
ghost use Rattle.std.specs.List.{slice_split};
ghost use Rattle.yspec.specs.text.Text.{is_white};
ghost use Rattle.yspec.specs.types.Numerals.{is_point};
ghost use Rattle.yspec.specs.edit.EditText.{behind};
ghost use Rattle.yspec.specs.linking.Arguments.{after_white, before_white, trimmed, cut_at_dots};
ghost use Rattle.ylink_arguments.specs.Cut.{sides, parts_of};

use ytext::{is_white, offset_of, parts_around};

fn white_offset(bytes: &[u8]) -> Option<usize>
    ensures value { result ≡ position is_white bytes.now }
    ensures within { IfSome result
        (λ n. (n < length bytes.now) × (is_white (slice_index bytes.now n) ≡ true)) }
{
    bytes.iter().position(|byte| is_white(*byte))
}

/// A text before and behind the first of these ASCII characters.
pub(crate) fn cut(text: &str, stop: u8) -> Option<(&str, &str)>
    requires { stop < 128 }
    ensures parts { slice_split (λ x. x == stop) text.now
        ≡ parts_of (λ x. x == stop) text.now (option_map sides result) }
    ensures shorter { IfSome result (λ p. length p.1.now < length text.now) }
{
    let at = offset_of(text.as_bytes(), stop)?;
    Some(parts_around(text, at))
}

/// A text before and behind the first white space.
pub(crate) fn cut_at_white(text: &str) -> Option<(&str, &str)>
    ensures parts { slice_split is_white text.now
        ≡ parts_of is_white text.now (option_map sides result) }
    ensures shorter { IfSome result (λ p. length p.1.now < length text.now) }
{
    let at = white_offset(text.as_bytes())?;
    Some(parts_around(text, at))
}

/// What stands behind a slash, where a text begins with it.
pub(crate) fn behind_slash(text: &str) -> Option<&str>
    ensures { option_map (λ t. t.now) result ≡ behind 47 text.now }
{
    match text.as_bytes().first() {
        Some(b'/') => Some(parts_around(text, 0).1),
        _ => None,
    }
}

/// A text without the white space that it begins with, where it begins with any.
fn behind_white(text: &str) -> Option<&str>
    ensures some { IfSome result (λ t. after_white t.now ≡ after_white text.now) }
    ensures shorter { IfSome result (λ t. length t.now < length text.now) }
    ensures none { IfNone result (after_white text.now ≡ text.now) }
{
    match text.as_bytes().first() {
        Some(byte) if is_white(*byte) => Some(parts_around(text, 0).1),
        _ => None,
    }
}

/// A text without the white space that it ends with, where it ends with any.
fn without_white(text: &str) -> Option<&str>
    ensures some { IfSome result (λ t. before_white t.now ≡ before_white text.now) }
    ensures shorter { IfSome result (λ t. length t.now < length text.now) }
    ensures none { IfNone result (before_white text.now ≡ text.now) }
{
    let bytes = text.as_bytes();
    if bytes.is_empty() {
        return None;
    }
    let last = bytes.len() - 1;
    if is_white(bytes[last]) {
        Some(parts_around(text, last).0)
    } else {
        None
    }
}

/// What stands behind the white space that a text begins with.
pub(crate) fn after_white(text: &str) -> &str
    ensures { result.now ≡ after_white text.now }
{
    let mut rest = text;
    while let Some(more) = behind_white(rest) {
        rest = more;
    }
    rest
}

/// A text without the white space at both ends.
pub(crate) fn trimmed(text: &str) -> &str
    ensures { result.now ≡ trimmed text.now }
{
    let mut rest = after_white(text);
    while let Some(less) = without_white(rest) {
        rest = less;
    }
    rest
}

fn are_dots(first: u8, second: u8) -> bool
    ensures { result ≡ (is_point first && is_point second) }
{
    first == b'.' && second == b'.'
}

/// Where the first `..` stands.
fn dots_offset(bytes: &[u8]) -> Option<usize>
    ensures value { option_map (λ n. (take n bytes.now, drop (n + 2) bytes.now)) result
        ≡ cut_at_dots bytes.now }
    ensures within { IfSome result (λ n. n + 1 < length bytes.now) }
    ensures first { IfSome result (λ n. slice_index bytes.now n ≡ 46) }
    ensures second { IfSome result (λ n. slice_index bytes.now (n + 1) ≡ 46) }
{
    let mut at = 0;
    while at + 1 < bytes.len() {
        if are_dots(bytes[at], bytes[at + 1]) {
            return Some(at);
        }
        at += 1;
    }
    None
}

/// A text before and behind its first `..`.
pub(crate) fn cut_at_dots(text: &str) -> Option<(&str, &str)>
    ensures { option_map sides result ≡ cut_at_dots text.now }
{
    let at = dots_offset(text.as_bytes())?;
    Some((parts_around(text, at).0, parts_around(text, at + 1).1))
}
