//! Texts that end too early, and documents of many brackets.

use crate::building::{push_times, schema_of};
use crate::telling::{is_refusal, is_refusal_of_document, is_text};
use std::alloc::{AllocError, Global};
use test_modules::NETWORK;
use yinst::{Edit, EditFault, Tree, apply, read};
use yschema_model::Schema;
use ytext::{TextFault, parse};

// Whether the text of a module isn't closed: a string in it (L3), or a statement (L6).
fn is_open_module(alloc: Global, bytes: &[u8]) -> Option<bool> {
    match parse(alloc, bytes) {
        Ok(_) => Some(false),
        Err(TextFault::Memory) => None,
        Err(fault) => {
            let told = format!(in alloc; "{fault}").ok()?;
            Some(told.as_str() == "L3" || told.as_str() == "L6")
        }
    }
}

// The number of bytes before the last brace of a text.
fn before_last_brace(text: &str) -> usize {
    let mut last = 0usize;
    let mut place = 0usize;
    for byte in text.as_bytes() {
        if *byte == b'}' {
            last = place;
        }
        place = place.saturating_add(1);
    }
    last
}

#[test]
fn beginnings_of_modules(rt: HostRuntime) {
    let bytes = NETWORK.as_bytes();
    for length in 0..before_last_brace(NETWORK).saturating_add(1) {
        let is_open = match bytes.get(..length) {
            Some(beginning) => is_open_module(rt.alloc(), beginning),
            None => None,
        };
        assert!(rt; is_open == Some(true), "{length}");
    }
    assert!(rt; before_last_brace(NETWORK).saturating_add(2) == NETWORK.len());
}

// A host that refers to another one.
const REFERRING: &str =
    r#"{"ex-net:net":{"host":[{"name":"a","auto":[null],"uplink":"b"},{"name":"b","auto":[null]}]}}"#;

// Whether bytes are refused so at the root, under the module of hosts.
fn is_refused(alloc: Global, bytes: &[u8], told: &str) -> Option<bool> {
    let schema = schema_of(alloc, &[NETWORK])?;
    match read(alloc, &schema, bytes) {
        Ok(_) => Some(false),
        Err(fault) => is_refusal_of_document(alloc, &fault, told),
    }
}

#[test]
fn beginnings_of_documents(rt: HostRuntime) {
    let bytes = REFERRING.as_bytes();
    for length in 0..bytes.len() {
        let is_told = match bytes.get(..length) {
            Some(beginning) => is_refused(rt.alloc(), beginning, "J1"),
            None => None,
        };
        assert!(rt; is_told == Some(true), "{length}");
    }
    assert!(rt; is_refused(rt.alloc(), bytes, "J1") == Some(false));
}

// So many opening brackets, and as many closing ones.
fn brackets(alloc: Global, count: u32) -> Result<String, AllocError> {
    let mut text = String::new(alloc);
    push_times(&mut text, "[", count)?;
    push_times(&mut text, "]", count)?;
    Ok(text)
}

fn are_brackets_refused(alloc: Global, count: u32, told: &str) -> Option<bool> {
    is_refused(alloc, brackets(alloc, count).ok()?.as_bytes(), told)
}

#[test]
fn levels_of_brackets(rt: HostRuntime) {
    assert!(rt; are_brackets_refused(rt.alloc(), 127, "J2") == Some(true));
    assert!(rt; are_brackets_refused(rt.alloc(), 128, "J1") == Some(true));
}

const REPLACEMENT: &str = r#"replace /ex-net:net/host[name='b'] {"name":"b","speed":7}"#;

// What the beginning of an edit comes to that has so many characters: nothing of none, no edit before its value, no value
// within that, and the edit at its end.
fn told_at(length: usize) -> &'static str {
    match REPLACEMENT.split_once('{') {
        Some((before, _)) => match length {
            0 => "passed over",
            _ if length <= before.len() => "E1",
            _ if length < REPLACEMENT.len() => "E9",
            _ => "accepted",
        },
        None => "no value",
    }
}

fn is_answer(alloc: Global, answer: Result<Tree, EditFault>, told: &str) -> Option<bool> {
    match answer {
        Ok(_) => Some(told == "accepted"),
        Err(fault) => is_refusal(alloc, fault, told),
    }
}

// Whether this comes of a line that is tried on a document.
fn is_tried(alloc: Global, schema: &Schema, tree: &Tree, line: &str, told: &str) -> Option<bool> {
    match Edit::parse(alloc, line) {
        Ok(Some(edit)) => is_answer(alloc, apply(alloc, schema, tree, &edit), told),
        Ok(None) => Some(told == "passed over"),
        Err(fault) => is_refusal(alloc, fault, told),
    }
}

// How many beginnings of the edit come to what they must, up to the first that doesn't.
fn right_beginnings(alloc: Global) -> Option<usize> {
    let schema = schema_of(alloc, &[NETWORK])?;
    let tree = read(alloc, &schema, REFERRING.as_bytes()).ok()?;
    let mut line = String::new(alloc);
    let mut count = 0usize;
    for letter in REPLACEMENT.chars() {
        if is_tried(alloc, &schema, &tree, line.as_str(), told_at(line.len()))? {
            count = count.saturating_add(1);
        } else {
            return Some(count);
        }
        line.push(letter).ok()?;
    }
    let is_accepted = is_tried(alloc, &schema, &tree, line.as_str(), "accepted")?;
    Some(if is_accepted {
        count.saturating_add(1)
    } else {
        count
    })
}

#[test]
fn beginnings_of_edits(rt: HostRuntime) {
    assert!(rt; is_text(String::from_str(rt.alloc(), told_at(1)), "E1") == Some(true));
    let count = right_beginnings(rt.alloc()).unwrap_or(0);
    assert!(rt; count == REPLACEMENT.len().saturating_add(1), "{count}");
}
