//! What is said of a line that spells no edit (E1): of its verb, of its path, or of the value or position behind that.

ghost use Rattle.std.specs.Prelude.{◌≡◌, codes, IfOk, None, Some, option_map, string_bytes};
ghost use Rattle.std.specs.List.{list_any};
ghost use Rattle.yspec.specs.text.Text as text_spec;
ghost use Rattle.yspec.specs.text.Text.{is_text};
ghost use Rattle.yinst_path.specs.EditView.{sides};
ghost use Rattle.ysay_text.specs.Near as near;
ghost use Rattle.ysay_edit.specs.Spelling as spec;

use std::alloc::{AllocError, Global};
use yinst_path::{behind, cut, is_step, name_and_predicate, operands, position_alone};
use ysay_text::{nearest, shown};
use ytext::{is_identifier, is_name, offset_of};

pub(crate) fn begins(byte: u8, text: &str) -> bool
    ensures { result ≡ text_spec.begins byte text.now }
{
    match text.as_bytes().first() {
        Some(first) => *first == byte,
        None => false,
    }
}

// ---- the verb

fn is_verb(word: &str) -> bool
    ensures { result ≡ list_any (is_text word.now) spec.verbs }
{
    matches!(word, "create" | "replace" | "remove" | "move")
}

fn near_verb(word: &str) -> Option<&'static str>
    ensures { option_map (λ n. n.now) result ≡ near.nearest word.now spec.verbs }
{
    nearest(word, &["create", "replace", "remove", "move"])
}

/// The first word of a line, and what stands behind it.
fn verb_and_rest(line: &str) -> (&str, &str)
    ensures verb { result.0.now ≡ (spec.verb_and_rest line.now).0 }
    ensures rest { result.1.now ≡ (spec.verb_and_rest line.now).1 }
{
    match cut(line, b' ') {
        Some((verb, rest)) => (verb, rest),
        None => (line, ""),
    }
}

fn other_verb(alloc: Global, verb: &str, near: Option<&str>) -> Result<String, AllocError>
    ensures { IfOk result (λ text. string_bytes text
        ≡ spec.other_verb verb.now (option_map (λ n. n.now) near.entry)) }
{
    let text = shown(alloc, verb.as_bytes())?;
    match near {
        Some(near) => [
            "no edit is called \"",
            text.as_str(),
            "\"; near it: ",
            near,
            ".",
        ]
        .concat(alloc),
        None => {
            [
                "no edit is called \"",
                text.as_str(),
                "\": write create, replace, remove or move.",
            ]
            .concat(alloc)
        }
    }
}

/// The verb in front of the first tab of a word.
fn verb_before_tab(word: &str) -> Option<&str>
    ensures { option_map (λ n. n.now) result ≡ spec.verb_before_tab word.now }
{
    let (verb, _) = cut(word, b'\t')?;
    if is_verb(verb) { Some(verb) } else { None }
}

fn tab_told(alloc: Global, verb: &str) -> Result<String, AllocError>
    ensures { IfOk result (λ text. string_bytes text ≡ spec.tab_told verb.now) }
{
    [
        "words are parted by blanks; a tab stands behind ",
        verb,
        ".",
    ]
    .concat(alloc)
}

/// Of a word that is no verb.
fn of_word(alloc: Global, word: &str) -> Result<String, AllocError>
    ensures { IfOk result (λ text. string_bytes text ≡ spec.of_word word.now) }
{
    match verb_before_tab(word) {
        Some(verb) => tab_told(alloc, verb),
        None => other_verb(alloc, word, near_verb(word)),
    }
}

fn of_verb(alloc: Global, verb: &str) -> Result<String, AllocError>
    ensures { IfOk result (λ text. string_bytes text ≡ spec.of_verb verb.now) }
{
    if verb.is_empty() {
        String::from_str(alloc, "a line begins with create, replace, remove or move.")
    } else {
        of_word(alloc, verb)
    }
}

// ---- the path

/// The name of the first key behind the name of a step, where no quote stands behind its `=`.
fn bare_key_in(predicate: &str) -> Option<&str>
    ensures { option_map (λ n. n.now) result ≡ spec.bare_key_in predicate.now }
{
    let (name, text) = cut(behind(predicate, '[')?, b'=')?;
    if !is_identifier(name) || begins(b'\'', text) || begins(b'"', text) {
        None
    } else {
        Some(name)
    }
}

/// The own name and the text of a key, from both sides of its `=`, if its name has a module and its text a quote.
fn module_key<'t>(name: &'t str, text: &'t str) -> Option<(&'t str, &'t str)>
    ensures { option_map sides result ≡ spec.module_key (name.entry.now, text.entry.now) }
{
    if begins(b'\'', text) || begins(b'"', text) {
        let (module, own) = cut(name, b':')?;
        if is_identifier(module) && is_identifier(own) {
            Some((own, text))
        } else {
            None
        }
    } else {
        None
    }
}

/// Those of the first key behind the name of a step.
fn module_key_in(predicate: &str) -> Option<(&str, &str)>
    ensures { option_map sides result ≡ spec.module_key_in predicate.now }
{
    let (name, text) = cut(behind(predicate, '[')?, b'=')?;
    module_key(name, text)
}

/// What stands in front of the bracket that closes a predicate.
fn in_brackets(text: &str) -> &str
    ensures { result.now ≡ spec.in_brackets text.now }
{
    match cut(text, b']') {
        Some((inner, _)) => inner,
        None => text,
    }
}

fn own_name_due(alloc: Global, own: &str, text: &str) -> Result<String, AllocError>
    ensures { IfOk result (λ said. string_bytes said ≡ spec.own_name_due (own.now, text.now)) }
{
    let name = shown(alloc, own.as_bytes())?;
    let inner = shown(alloc, in_brackets(text).as_bytes())?;
    [
        "in a predicate the name stands without its module: [",
        name.as_str(),
        "=",
        inner.as_str(),
        "].",
    ]
    .concat(alloc)
}

fn quotes_due(alloc: Global, name: &str) -> Result<String, AllocError>
    ensures { IfOk result (λ text. string_bytes text ≡ spec.quotes_due name.now) }
{
    let text = shown(alloc, name.as_bytes())?;
    [
        "a key's text stands in quotes, as in [",
        text.as_str(),
        "='..'].",
    ]
    .concat(alloc)
}

/// Of what stands behind the name of a step, where no key has the name of its module.
fn key_due(alloc: Global, predicate: &str) -> Result<String, AllocError>
    ensures { IfOk result (λ text. string_bytes text ≡ spec.key_due predicate.now) }
{
    match bare_key_in(predicate) {
        Some(name) => quotes_due(alloc, name),
        None => {
            String::from_str(
                alloc,
                "a step is a name, and behind it perhaps [1], or [name='..'] for each key.",
            )
        }
    }
}

/// What is to be changed in what stands behind the name of a step.
fn predicate_due(alloc: Global, predicate: &str) -> Result<String, AllocError>
    ensures { IfOk result (λ text. string_bytes text ≡ spec.predicate_due predicate.now) }
{
    if predicate == "[0]" {
        return String::from_str(alloc, "positions count from 1.");
    }
    match module_key_in(predicate) {
        Some((own, text)) => own_name_due(alloc, own, text),
        None => key_due(alloc, predicate),
    }
}

fn has_byte(byte: u8, text: &str) -> bool
    ensures { result ≡ spec.has_byte byte text.now }
{
    offset_of(text.as_bytes(), byte).is_some()
}

/// The name and the text of a step as RESTCONF spells it (RFC 8040, 3.5.3): without predicates, the text of the key behind a
/// `=`.
fn entry_in(part: &str) -> Option<(&str, &str)>
    ensures { option_map sides result ≡ spec.entry_in part.now }
{
    let (name, text) = cut(part, b'=')?;
    if is_name(name) && !(has_byte(b'\'', text) || has_byte(b',', text)) {
        Some((name, text))
    } else {
        None
    }
}

fn predicate_wanted(alloc: Global, name: &str, text: &str) -> Result<String, AllocError>
    ensures { IfOk result (λ said. string_bytes said ≡ spec.predicate_wanted (name.now, text.now)) }
{
    let list = shown(alloc, name.as_bytes())?;
    let key = shown(alloc, text.as_bytes())?;
    ["write ", list.as_str(), "[KEY='", key.as_str(), "']."].concat(alloc)
}

/// What is to be changed in a part that spells no step.
fn step_due(alloc: Global, part: &str) -> Result<String, AllocError>
    ensures { IfOk result (λ text. string_bytes text ≡ spec.step_due part.now) }
{
    match entry_in(part) {
        Some((name, text)) => predicate_wanted(alloc, name, text),
        None => predicate_due(alloc, name_and_predicate(part).1),
    }
}

fn no_step_told(alloc: Global, part: &str) -> Result<String, AllocError>
    ensures { IfOk result (λ text. string_bytes text ≡ spec.no_step_told part.now) }
{
    let text = shown(alloc, part.as_bytes())?;
    ["\"", text.as_str(), "\" is no step of a path: "].concat(alloc)
}

fn other_step(alloc: Global, part: &str) -> Result<String, AllocError>
    ensures { IfOk result (λ text. string_bytes text ≡ spec.other_step part.now) }
{
    let mut said = no_step_told(alloc, part)?;
    let due = step_due(alloc, part)?;
    said.push_str(due.as_str())?;
    Ok(said)
}

/// Of what stands between two slashes, or behind the last, and spells no step.
fn of_no_step(alloc: Global, part: &str) -> Result<String, AllocError>
    ensures { IfOk result (λ text. string_bytes text ≡ spec.of_no_step part.now) }
{
    if part.is_empty() {
        String::from_str(alloc, "a name stands behind each / of a path.")
    } else {
        other_step(alloc, part)
    }
}

/// The first of these.
#[tactic(auto, using(crate::proofs::SpellingLemmas::step_passed, crate::proofs::SpellingLemmas::no_step_first, crate::proofs::SpellingLemmas::step_last, crate::proofs::SpellingLemmas::no_step_last))]
fn no_step_in(alloc: Global, steps: &str) -> Result<Option<&str>, AllocError>
    ensures { IfOk result (λ part. option_map (λ p. p.now) part ≡ spec.no_step_in steps.now) }
{
    let mut rest = steps;
    while let Some((part, more)) = cut(rest, b'/') {
        if is_step(alloc, part)? {
            rest = more;
        } else {
            return Ok(Some(part));
        }
    }
    if is_step(alloc, rest)? {
        Ok(None)
    } else {
        Ok(Some(rest))
    }
}

// ---- the value, or the position

fn of_no_value(alloc: Global, verb: &str) -> Result<String, AllocError>
    ensures { IfOk result (λ text. string_bytes text ≡ spec.of_no_value verb.now) }
{
    if verb == "remove" {
        Ok(String::new(alloc))
    } else if verb == "move" {
        String::from_str(alloc, "move has a position behind its path.")
    } else {
        [verb, " has a value behind its path."].concat(alloc)
    }
}

/// Of what is to be a position.
fn of_position(alloc: Global, text: &str) -> Result<String, AllocError>
    ensures { IfOk result (λ said. string_bytes said ≡ spec.of_position text.now) }
{
    if position_alone(text).is_some() {
        Ok(String::new(alloc))
    } else {
        String::from_str(
            alloc,
            "move has one position behind its path, as in move PATH 2.",
        )
    }
}

fn of_some_value(alloc: Global, verb: &str, value: &str) -> Result<String, AllocError>
    ensures { IfOk result (λ text. string_bytes text ≡ spec.of_some_value verb.now value.now) }
{
    if verb == "remove" {
        String::from_str(alloc, "remove has no value behind its path.")
    } else if verb == "move" {
        of_position(alloc, value)
    } else {
        Ok(String::new(alloc))
    }
}

fn of_value(alloc: Global, verb: &str, value: &str) -> Result<String, AllocError>
    ensures { IfOk result (λ text. string_bytes text ≡ spec.of_value verb.now value.now) }
{
    if value.is_empty() {
        of_no_value(alloc, verb)
    } else {
        of_some_value(alloc, verb, value)
    }
}

// ---- all

/// Of the texts of a path and a value behind a verb.
fn of_steps(alloc: Global, verb: &str, value: &str, steps: &str) -> Result<String, AllocError>
    ensures { IfOk result (λ text. string_bytes text
        ≡ spec.of_steps verb.now value.now steps.now) }
{
    match no_step_in(alloc, steps)? {
        Some(part) => of_no_step(alloc, part),
        None => of_value(alloc, verb, value),
    }
}

fn of_operands(alloc: Global, verb: &str, path: &str, value: &str) -> Result<String, AllocError>
    ensures { IfOk result (λ text. string_bytes text
        ≡ spec.of_operands verb.now path.now value.now) }
{
    match behind(path, '/') {
        Some(steps) => of_steps(alloc, verb, value, steps),
        None => String::from_str(alloc, "a path begins with /."),
    }
}

fn of_words(alloc: Global, verb: &str, rest: &str) -> Result<String, AllocError>
    ensures { IfOk result (λ text. string_bytes text ≡ spec.of_words verb.now rest.now) }
{
    if is_verb(verb) {
        let (path, value) = operands(rest);
        of_operands(alloc, verb, path, value)
    } else {
        of_verb(alloc, verb)
    }
}

fn of_text(alloc: Global, line: &str) -> Result<String, AllocError>
    ensures { IfOk result (λ text. string_bytes text ≡ spec.of_text line.now) }
{
    let (verb, rest) = verb_and_rest(line);
    of_words(alloc, verb, rest)
}

fn no_text(alloc: Global) -> Result<String, AllocError>
    ensures { IfOk result (λ text. string_bytes text ≡ codes "the line isn't UTF-8.") }
{
    String::from_str(alloc, "the line isn't UTF-8.")
}

/// What is said of a line that spells no edit (E1): that it is no text, or that its verb, a step of its path, or the value
/// or position behind that isn't right; an empty text where all are.
pub fn said_of_line(alloc: Global, line: &[u8]) -> Result<String, AllocError>
    ensures { IfOk result (λ text. string_bytes text ≡ spec.said_of_line line.now) }
{
    match str::from_utf8(line) {
        Ok(text) => of_text(alloc, text),
        Err(_) => no_text(alloc),
    }
}
