//! What is said of each code, and of what is none.

use crate::rows::all_hold;
use std::alloc::Global;
use ybase_output::Cut;
use ysay_codes::{
    all_explanations, explain, explanations, first_unknown, write_explanation, write_reason,
};

// Whether that is written of a code, through a sink that takes so many bytes a call.
fn says(alloc: Global, code: &str, bytes_per_call: usize, wanted: &str) -> Option<bool> {
    let mut sink = Cut::new(alloc, 4096, bytes_per_call, None).ok()?;
    match explain(code) {
        None => Some(false),
        Some(explanation) => match write_explanation(&mut sink, explanation) {
            Ok(()) => Some(sink.bytes() == wanted.as_bytes()),
            Err(_) => Some(false),
        },
    }
}

const KEYS: &str = "C12: The key or a unique of a list names no fitting leaf.
  Told: the list.
  To do: Name leafs of the list, each once; keys stand right below it, of the same module and as much configuration as it.
  Source: RFC 7950, 7.8.2 and 7.8.3.
";

#[test]
fn sentences(rt: HostRuntime) {
    assert!(rt; says(rt.alloc(), "C12", 4096, KEYS) == Some(true));
    assert!(rt;
        says(rt.alloc(), "C12", 1, KEYS) == Some(true),
        "byte by byte"
    );
}

// Whether the call of this number, failing, ends it, with a beginning taken.
fn breaks(alloc: Global, row: &str) -> Option<bool> {
    let call = row.parse::<u64>().ok()?;
    let mut sink = Cut::new(alloc, 4096, 4096, Some(call)).ok()?;
    let explanation = explain("C12")?;
    match write_explanation(&mut sink, explanation) {
        Ok(()) => Some(false),
        Err(_) => Some(sink.calls() == call && KEYS.as_bytes().starts_with(sink.bytes())),
    }
}

#[test]
fn failing_calls(rt: HostRuntime) {
    all_hold(&rt, rt.alloc(), "1\n2\n3\n4\n5\n6\n7\n8\n9", breaks);
}

// `CODE` that is one, or `-CODE` for what is none.
fn is_known(word: &str) -> bool {
    match word.split_once('-') {
        Some((_, other)) => explain(other).is_none(),
        None => match explain(word) {
            Some(explanation) => explanation.code == word,
            None => false,
        },
    }
}

// The same of several.
fn are_known(row: &str) -> bool {
    for word in row.split(' ') {
        if !is_known(word) {
            return false;
        }
    }
    true
}

#[test]
fn codes(rt: HostRuntime) {
    let rows = "L1 L2 L3 L4 L5 L6 L7 L8 -L0 -L9
C1 C2 C3 C4 C5 C6 C7 C8 C9 C10 C11 C12 C13 C14 C15 C16 C17 C18 C20 C22 C24 -C0 -C19 -C21 -C23 -c1
J1 J2 J3 J4 J5 J6 J7 J8 -J9
V1 V2 V3 V4 V5 V6 V7 V8 V9 V10 V11 V12 -V13
E1 E2 E3 E4 E5 E6 E7 E8 E9 E10 E11 E12 E13 -E14 -E -";
    all_hold(&rt, rt.alloc(), rows, |_, row| Some(are_known(row)));
}

// Whether these are the codes of which that many are known, with the first and the last of them.
fn are_all(alloc: Global, count: usize, first: &str, last: &str) -> Option<bool> {
    let all = all_explanations(alloc).ok()?;
    Some(all.len() == count && all.first()?.code == first && all.last()?.code == last)
}

// `CODES/COUNT/UNKNOWN`: how many of these are codes, and the first that is none, or `-`
fn are_found(alloc: Global, row: &str) -> Option<bool> {
    let (words, rest) = row.split_once('/')?;
    let (count, unknown) = rest.split_once('/')?;
    let count = count.parse::<usize>().ok()?;
    let words: Vec<&str> = words.split(' ').collect(alloc).ok()?;
    let found = explanations(alloc, &words).ok()?;
    let first = first_unknown(alloc, &words).ok()?;
    Some(found.len() == count && first.unwrap_or("-") == unknown)
}

#[test]
fn several(rt: HostRuntime) {
    assert!(rt; are_all(rt.alloc(), 62, "L1", "E13") == Some(true));
    let rows = "C1/1/-
C1 V3 C1/3/-
C1 V12 V13 x/2/V13
c1 v3 e10 J8/4/-
c1 c0 v12/2/c0";
    all_hold(&rt, rt.alloc(), rows, are_found);
}

// Whether that is the reason of a code, which is given by its letter and its number.
fn is_reason(alloc: Global, letter: &str, number: &str, wanted: &str) -> Option<bool> {
    let mut sink = Cut::new(alloc, 4096, 4096, None).ok()?;
    let is_written = write_reason(&mut sink, letter, number).is_ok();
    Some(is_written && sink.bytes() == wanted.as_bytes())
}

#[test]
fn reasons(rt: HostRuntime) {
    let wanted = "  The edit isn't there.";
    assert!(rt; is_reason(rt.alloc(), "E", "99", "") == Some(true));
    assert!(rt; is_reason(rt.alloc(), "J", "2", wanted) == Some(false));
    let wanted =
        "  The document isn't an object. Put the top nodes into an object: {\"module:name\": ..}.\n";
    assert!(rt; is_reason(rt.alloc(), "J", "2", wanted) == Some(true));
}
