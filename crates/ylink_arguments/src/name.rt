//! Names in arguments: alone, in paths, and in rows (RFC 7950, 6.4, 6.5, 7.8.2, 7.8.3 and 9.9.2).

ghost use Rattle.std.specs.Prelude.{◌≡◌, ◌+◌, ◌<◌, ◌==◌, false, IfOk, IfSome, option_map, map, length, position, slice_index};
ghost use Rattle.yspec.specs.text.Text.{colon};
ghost use Rattle.yspec.specs.types.Names as names;
ghost use Rattle.yspec.specs.linking.Arguments as spec;
ghost use Rattle.ylink_arguments.specs.NameView.{name_view, names_view};

use crate::cut::{after_white, behind_slash, cut, cut_at_white, trimmed};
use std::alloc::{AllocError, Global};
use ytext::{is_name, is_white};

/// A name, with the prefix in front of it where it has one.
#[derive(Clone, Copy, Debug)]
pub struct Name<'a> {
    pub prefix: Option<&'a str>,
    pub identifier: &'a str,
}

fn colon_offset(bytes: &[u8]) -> Option<usize>
    ensures value { result ≡ position (λ x. x == colon) bytes.now }
    ensures within { IfSome result (λ n. (n < length bytes.now) × (slice_index bytes.now n ≡ 58)) }
{
    bytes.iter().position(|byte| *byte == b':')
}

/// The name that a text spells.
pub fn name_of<'a>(text: &'a str) -> Option<Name<'a>>
    ensures { option_map name_view result ≡ spec.name_of text.entry.now }
{
    if !is_name(text) {
        return None;
    }
    match colon_offset(text.as_bytes()) {
        None => Some(Name {
            prefix: None,
            identifier: text,
        }),
        Some(at) => Some(Name {
            prefix: Some(&text[..at]),
            identifier: &text[at + 1..],
        }),
    }
}

/// Whether a text ends in white space.
fn ends_white(text: &str) -> bool
    ensures { result ≡ names.ends_white false text.now }
{
    let mut white = false;
    for byte in text.as_bytes() {
        white = is_white(*byte);
    }
    white
}

/// Whether a text isn't empty, and has no white space at either end.
fn is_bare(text: &str) -> bool
    ensures { result ≡ names.is_enum_name text.now }
{
    match text.as_bytes().first() {
        Some(first) => !is_white(*first) && !ends_white(text),
        None => false,
    }
}

/// The names that a text spells with slashes between them.
pub fn relative_path<'a>(alloc: Global, text: &'a str) -> Result<Option<Vec<Name<'a>>>, AllocError>
    ensures { IfOk result (λ path. option_map (λ p. names_view p.items) path
        ≡ spec.relative_path_of text.entry.now) }
{
    let mut path = Vec::new(alloc);
    let mut rest = text;
    while let Some((step, more)) = cut(rest, b'/') {
        match name_of(step) {
            Some(name) => path.push(name)?,
            None => return Ok(None),
        }
        rest = more;
    }
    match name_of(rest) {
        Some(name) => {
            path.push(name)?;
            Ok(Some(path))
        }
        None => Ok(None),
    }
}

/// The names that a text spells, each behind a slash.
pub fn absolute_path<'a>(alloc: Global, text: &'a str) -> Result<Option<Vec<Name<'a>>>, AllocError>
    ensures { IfOk result (λ path. option_map (λ p. names_view p.items) path
        ≡ spec.absolute_path_of text.entry.now) }
{
    match behind_slash(text) {
        Some(steps) => relative_path(alloc, steps),
        None => Ok(None),
    }
}

/// The names that a text spells with slashes between them, and white space beside these.
fn spaced_path<'a>(alloc: Global, text: &'a str) -> Result<Option<Vec<Name<'a>>>, AllocError>
    ensures { IfOk result (λ path. option_map (λ p. names_view p.items) path
        ≡ spec.spaced_path_of text.entry.now) }
{
    let mut path = Vec::new(alloc);
    let mut rest = text;
    while let Some((step, more)) = cut(rest, b'/') {
        match name_of(trimmed(step)) {
            Some(name) => path.push(name)?,
            None => return Ok(None),
        }
        rest = more;
    }
    match name_of(trimmed(rest)) {
        Some(name) => {
            path.push(name)?;
            Ok(Some(path))
        }
        None => Ok(None),
    }
}

/// The names that the path of a leafref spells, each behind a slash, beside which white space may stand.
pub fn leafref_path<'a>(alloc: Global, text: &'a str) -> Result<Option<Vec<Name<'a>>>, AllocError>
    ensures { IfOk result (λ path. option_map (λ p. names_view p.items) path
        ≡ spec.leafref_path_of text.entry.now) }
{
    if ends_white(text) {
        return Ok(None);
    }
    match behind_slash(after_white(text)) {
        Some(steps) => spaced_path(alloc, steps),
        None => Ok(None),
    }
}

/// The names that a key spells.
pub fn key_names<'a>(alloc: Global, text: &'a str) -> Result<Option<Vec<Name<'a>>>, AllocError>
    ensures { IfOk result (λ key. option_map (λ p. names_view p.items) key
        ≡ spec.key_of text.entry.now) }
{
    if !is_bare(text) {
        return Ok(None);
    }
    let mut key = Vec::new(alloc);
    let mut rest = text;
    while let Some((word, more)) = cut_at_white(rest) {
        if !word.is_empty() {
            match name_of(word) {
                Some(name) => key.push(name)?,
                None => return Ok(None),
            }
        }
        rest = more;
    }
    if rest.is_empty() {
        return Ok(Some(key));
    }
    match name_of(rest) {
        Some(name) => {
            key.push(name)?;
            Ok(Some(key))
        }
        None => Ok(None),
    }
}

/// The ways to leafs that a unique spells.
pub fn unique_paths<'a>(
    alloc: Global,
    text: &'a str,
) -> Result<Option<Vec<Vec<Name<'a>>>>, AllocError>
    ensures { IfOk result (λ unique. option_map (λ u. map (λ p. names_view p.items) u.items) unique
        ≡ spec.unique_of text.entry.now) }
{
    if !is_bare(text) {
        return Ok(None);
    }
    let mut unique = Vec::new(alloc);
    let mut rest = text;
    while let Some((word, more)) = cut_at_white(rest) {
        if !word.is_empty() {
            match relative_path(alloc, word)? {
                Some(path) => unique.push(path)?,
                None => return Ok(None),
            }
        }
        rest = more;
    }
    if rest.is_empty() {
        return Ok(Some(unique));
    }
    match relative_path(alloc, rest)? {
        Some(path) => {
            unique.push(path)?;
            Ok(Some(unique))
        }
        None => Ok(None),
    }
}
