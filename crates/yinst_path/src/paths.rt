//! What the texts of paths and edits spell.

ghost use Rattle.std.specs.Prelude.{◌≡◌, ◌+◌, ◌*◌, ◌<◌, IfOk, option_map, None, Some, min, is_some};
ghost use Rattle.std.specs.List.{list_all};
ghost use Rattle.yspec.specs.text.Text.{is_digit, slash};
ghost use Rattle.yspec.specs.edit.EditText as spec;
ghost use Rattle.yinst_path.specs.EditView.{key_view, keys_view, predicate_view, steps_view, step_view, path_view, edit_view};
ghost use Rattle.yinst_path.specs.declared.edit.EditCode.TheVariants.{E1};
ghost use Rattle.yinst_path.specs.declared.edit.EditFault.TheVariants.{Refused};

use crate::cutting::{after_spaces, behind, cut};
use crate::edit::{Edit, EditCode, EditFault, Key, NamedStep, Path, Predicate};
use std::alloc::{AllocError, Global};
use ytext::{is_digit, is_identifier, is_name, offset_of};

fn are_digits(bytes: &[u8]) -> bool
    ensures { result ≡ list_all is_digit bytes.now }
{
    bytes.iter().all(|byte| is_digit(*byte))
}

fn begins_position(bytes: &[u8]) -> bool
    ensures { result ≡ spec.begins_position bytes.now }
{
    match bytes.split_first() {
        None => false,
        Some((first, _)) => *first != b'0',
    }
}

/// The number of these digits, or the last position if it is smaller.
fn digits_value(bytes: &[u8]) -> u32
    ensures { result ≡ min (spec.digits_value 0 bytes.now) spec.last_position }
{
    let mut number = 0u32;
    for byte in bytes {
        let digit = u32::from(byte.saturating_sub(b'0'));
        number = number.saturating_mul(10).saturating_add(digit);
    }
    number
}

/// A decimal number from 1 without leading zeros.
fn position_of(digits: &str) -> Option<u32>
    ensures { result ≡ spec.position_of digits.now }
{
    let bytes = digits.as_bytes();
    if begins_position(bytes) && are_digits(bytes) {
        Some(digits_value(bytes))
    } else {
        None
    }
}

/// The text between two quotes, the second of which ends it and is the next of its kind.
fn quoted_text(text: &str) -> Option<&str>
    ensures { option_map (λ t. t.now) result ≡ spec.quoted_text text.now }
{
    if let Some(rest) = behind(text, '\'') {
        return up_to_last(rest, b'\'');
    }
    up_to_last(behind(text, '"')?, b'"')
}

fn up_to_last(text: &str, quote: u8) -> Option<&str>
    requires { quote < 128 }
    ensures { option_map (λ t. t.now) result ≡ spec.up_to_last quote text.now }
{
    let end = offset_of(text.as_bytes(), quote)?;
    if end + 1 == text.len() {
        Some(&text[..end])
    } else {
        None
    }
}

/// The key that a text spells as `name='text'` or `name="text"`.
fn key_of(alloc: Global, text: &str) -> Result<Option<Key>, AllocError>
    ensures { IfOk result (λ key. option_map key_view key ≡ spec.key_of text.now) }
{
    let Some((name, quoted)) = cut(text, b'=') else {
        return Ok(None);
    };
    if !is_identifier(name) {
        return Ok(None);
    }
    let Some(text) = quoted_text(quoted) else {
        return Ok(None);
    };
    Ok(Some(Key {
        name: String::from_str(alloc, name)?,
        text: String::from_str(alloc, text)?,
    }))
}

/// The key that a part before a closing bracket spells, behind an opening one.
fn key_in(alloc: Global, part: &str) -> Result<Option<Key>, AllocError>
    ensures { IfOk result (λ key. option_map key_view key ≡ spec.key_in part.now) }
{
    match behind(part, '[') {
        Some(inner) => key_of(alloc, inner),
        None => Ok(None),
    }
}

/// The keys in pairs of brackets, behind which nothing stands.
fn keys_of(alloc: Global, text: &str) -> Result<Option<Vec<Key>>, AllocError>
    ensures { IfOk result (λ keys. option_map (λ ks. keys_view ks.items) keys
        ≡ spec.keys_of (spec.parts_at spec.close_bracket None text.now)) }
{
    let mut keys = Vec::new(alloc);
    let mut rest = text;
    while let Some((part, more)) = cut(rest, b']') {
        match key_in(alloc, part)? {
            Some(key) => keys.push(key)?,
            None => return Ok(None),
        }
        rest = more;
    }
    if rest.is_empty() {
        Ok(Some(keys))
    } else {
        Ok(None)
    }
}

/// The position in a pair of brackets, behind which nothing stands.
fn position_in(text: &str) -> Option<u32>
    ensures { result ≡ spec.position_in text.now }
{
    let (digits, rest) = cut(behind(text, '[')?, b']')?;
    if rest.is_empty() {
        position_of(digits)
    } else {
        None
    }
}

/// The predicate that stands behind a name.
fn predicate_of(alloc: Global, text: &str) -> Result<Option<Predicate>, AllocError>
    ensures { IfOk result (λ p. option_map predicate_view p ≡ spec.predicate_of text.now) }
{
    if text.is_empty() {
        return Ok(Some(Predicate::Unsaid));
    }
    if let Some(position) = position_in(text) {
        return Ok(Some(Predicate::Position(position)));
    }
    match keys_of(alloc, text)? {
        Some(keys) => Ok(Some(Predicate::Keys(keys))),
        None => Ok(None),
    }
}

/// A text before its first `[`, and from there on.
pub fn name_and_predicate(text: &str) -> (&str, &str)
    ensures name { result.0.now ≡ (spec.name_and_predicate text.now).0 }
    ensures predicate { result.1.now ≡ (spec.name_and_predicate text.now).1 }
{
    match offset_of(text.as_bytes(), b'[') {
        Some(at) => (&text[..at], &text[at..]),
        None => (text, ""),
    }
}

/// The step that a text spells: a name, or two with a colon between them, and perhaps predicates.
fn step_of(alloc: Global, text: &str) -> Result<Option<NamedStep>, AllocError>
    ensures { IfOk result (λ step. option_map step_view step ≡ spec.step_of text.now) }
{
    let (name, predicate) = name_and_predicate(text);
    if !is_name(name) {
        return Ok(None);
    }
    match predicate_of(alloc, predicate)? {
        Some(predicate) => Ok(Some(NamedStep {
            name: String::from_str(alloc, name)?,
            predicate,
        })),
        None => Ok(None),
    }
}

/// Whether a text spells a step of a path.
pub fn is_step(alloc: Global, text: &str) -> Result<bool, AllocError>
    ensures { IfOk result (λ answer. answer ≡ is_some (spec.step_of text.now)) }
{
    let step = step_of(alloc, text)?;
    Ok(step.is_some())
}

/// The steps between slashes.
fn steps_of(alloc: Global, text: &str) -> Result<Option<Vec<NamedStep>>, AllocError>
    ensures { IfOk result (λ steps. option_map (λ s. steps_view s.items) steps
        ≡ spec.all_or_none spec.step_of (spec.parts_at slash None text.now)) }
{
    let mut steps = Vec::new(alloc);
    let mut rest = text;
    while let Some((part, more)) = cut(rest, b'/') {
        match step_of(alloc, part)? {
            Some(step) => steps.push(step)?,
            None => return Ok(None),
        }
        rest = more;
    }
    match step_of(alloc, rest)? {
        Some(step) => {
            steps.push(step)?;
            Ok(Some(steps))
        }
        None => Ok(None),
    }
}

/// The path that a text spells: one step or more, each behind a `/`.
#[tactic(auto, unfolding(yspec::specs::edit::EditText::path_of))]
fn path_of(alloc: Global, text: &str) -> Result<Option<Path>, AllocError>
    ensures { IfOk result (λ path. option_map path_view path ≡ spec.path_of text.now) }
{
    let Some(steps) = behind(text, '/') else {
        return Ok(None);
    };
    match steps_of(alloc, steps)? {
        Some(steps) => Ok(Some(Path { steps })),
        None => Ok(None),
    }
}

/// What follows the verb: the texts of the path and of the value.
pub fn operands(text: &str) -> (&str, &str)
    ensures path { result.0.now ≡ (spec.operands text.now).0 }
    ensures value { result.1.now ≡ (spec.operands text.now).1 }
{
    let text = after_spaces(text);
    match cut(text, b' ') {
        Some((path, value)) => (path, after_spaces(value)),
        None => (text, ""),
    }
}

/// A position, behind which only spaces stand.
pub fn position_alone(text: &str) -> Option<u32>
    ensures { result ≡ spec.position_alone text.now }
{
    let (digits, rest) = operands(text);
    if rest.is_empty() {
        position_of(digits)
    } else {
        None
    }
}

/// What a verb does at a path, with a value or a position or without.
fn done_by(alloc: Global, verb: &str, value: &str, path: Path) -> Result<Option<Edit>, AllocError>
    ensures { IfOk result (λ edit. option_map edit_view edit
        ≡ spec.done_by verb.now value.now (path_view path)) }
{
    if value.is_empty() {
        return Ok(if verb == "remove" {
            Some(Edit::Remove { path })
        } else {
            None
        });
    }
    if verb == "create" {
        let value = String::from_str(alloc, value)?;
        Ok(Some(Edit::Create { path, value }))
    } else if verb == "replace" {
        let value = String::from_str(alloc, value)?;
        Ok(Some(Edit::Replace { path, value }))
    } else if verb == "move" {
        match position_alone(value) {
            Some(position) => Ok(Some(Edit::Move { path, position })),
            None => Ok(None),
        }
    } else {
        Ok(None)
    }
}

/// The edit that a line spells.
#[tactic(auto, unfolding(yspec::specs::edit::EditText::edit_of))]
fn edit_of(alloc: Global, line: &str) -> Result<Option<Edit>, AllocError>
    ensures { IfOk result (λ edit. option_map edit_view edit ≡ spec.edit_of line.now) }
{
    if offset_of(line.as_bytes(), b'\n').is_some() {
        return Ok(None);
    }
    let Some((verb, rest)) = cut(line, b' ') else {
        return Ok(None);
    };
    let (path, value) = operands(rest);
    match path_of(alloc, path)? {
        Some(path) => done_by(alloc, verb, value, path),
        None => Ok(None),
    }
}

/// Whether a line is empty, or begins with `#`.
fn is_passed_over(line: &str) -> bool
    ensures { result ≡ spec.is_passed_over line.now }
{
    match line.as_bytes().first() {
        None => true,
        Some(first) => *first == b'#',
    }
}

fn refused() -> EditFault
    ensures { result ≡ Refused E1 None }
{
    EditFault::Refused {
        code: EditCode::E1,
        doc: None,
    }
}

impl Path {
    ghost use Rattle.yspec.specs.edit.Editing.{path_spelled};
    ghost use Rattle.yspec.specs.Results.{Gives};
    ghost use Rattle.yinst_path.specs.EditView.{path_view};
    ghost use Rattle.yinst_path.specs.Applying.{told_by};

    /// The path that a text spells, or E1.
    pub fn parse(alloc: Global, text: &str) -> Result<Path, EditFault>
        ensures { Gives path_view told_by result (path_spelled text.now) }
    {
        match path_of(alloc, text)? {
            Some(path) => Ok(path),
            None => Err(refused()),
        }
    }
}

impl Edit {
    ghost use Rattle.std.specs.Prelude.{◌≡◌, option_map, true, Ok, None};
    ghost use Rattle.yspec.specs.edit.EditText.{is_passed_over};
    ghost use Rattle.yspec.specs.edit.Editing.{edit_asked};
    ghost use Rattle.yspec.specs.Results.{Gives};
    ghost use Rattle.yinst_path.specs.EditView.{edit_view};
    ghost use Rattle.yinst_path.specs.Applying.{told_by};

    /// The edit that a line of a script spells; none where it is empty or begins with `#`, which takes no memory; or E1.
    pub fn parse(alloc: Global, line: &str) -> Result<Option<Edit>, EditFault>
        ensures answer { Gives (option_map edit_view) told_by result (edit_asked line.now) }
        ensures passed { is_passed_over line.now ≡ true → result ≡ Ok None }
    {
        if is_passed_over(line) {
            return Ok(None);
        }
        match edit_of(alloc, line)? {
            Some(edit) => Ok(Some(edit)),
            None => Err(refused()),
        }
    }
}
