//! How sessions end: at a line that can't be read, an answer that can't be told, and a note that can't be said.

use crate::holding::{GOOD, Held, NOTE, SESSION, Talk, hold, is_held, over};
use std::alloc::Global;

const EDITS: &[&str] = &["create /p:c/note \"a\"", "remove /p:c/note"];

const ANSWER: &str = "{\"before\":0,\"after\":0}\n";

#[test]
fn unread_lines(rt: HostRuntime) {
    let alloc = rt.alloc();
    assert!(rt; ends_unread(alloc, 0, "", "not judged: 1 must\ncannot read -\n") == Some(true));
    assert!(rt; ends_unread(alloc, 1, ANSWER, "not judged: 1 must\ncannot read -\n") == Some(true));
}

// Whether a session whose line of a number can't be read tells this.
fn ends_unread(alloc: Global, number: usize, told: &str, errors: &str) -> Option<bool> {
    let talk = Talk {
        unread: Some(number),
        ..over(SESSION, GOOD, EDITS)
    };
    let held = hold(alloc, talk).ok()?;
    Some(is_held(&held, told, errors, 4))
}

// Whether the note can't be said, and nobody is asked.
fn is_silent(alloc: Global) -> Option<bool> {
    let talk = Talk {
        unsaid: Some(1),
        ..over(SESSION, GOOD, EDITS)
    };
    let held = hold(alloc, talk).ok()?;
    Some(is_held(&held, "", "", 4) && held.asked == 0)
}

#[test]
fn unsaid_notes(rt: HostRuntime) {
    assert!(rt; is_silent(rt.alloc()) == Some(true));
}

// Whether a session under a module that imports one of a folder is held.
fn is_held_with_folders(alloc: Global, words: &str) -> Option<bool> {
    let held = hold(alloc, over(words, "{\"i:x\":1}", &["value /i:x"])).ok()?;
    Some(is_held(&held, "{\"value\":1}\n", "", 0))
}

#[test]
fn folders(rt: HostRuntime) {
    let alloc = rt.alloc();
    assert!(rt; is_held_with_folders(alloc, "yanglive session -p f d.json i.yang") == Some(true));
    assert!(rt;
        is_held_with_folders(alloc, "yanglive session -p e -p f d.json i.yang") == Some(true)
    );
}

// So many times two edits.
fn many_edits<'a>(alloc: Global, count: usize) -> Option<Vec<&'a str>> {
    let mut lines = Vec::new(alloc);
    for _ in 0..count {
        lines.push("create /p:c/note \"a\"").ok()?;
        lines.push("remove /p:c/note").ok()?;
    }
    Some(lines)
}

// A session whose call of a number fails where it tells.
fn held_up_to(alloc: Global, lines: &[&str], call: Option<u64>) -> Option<Held> {
    let talk = Talk {
        untold: call,
        ..over(SESSION, GOOD, lines)
    };
    hold(alloc, talk).ok()
}

// Whether all is told of 2,000 edits.
fn are_all_told(alloc: Global) -> Option<bool> {
    let lines = many_edits(alloc, 1000)?;
    let whole = held_up_to(alloc, &lines, None)?;
    Some(
        whole.status == 0 && whole.told.bytes().len() == 2000 * ANSWER.len() && whole.asked == 2000,
    )
}

#[test]
fn many_answers(rt: HostRuntime) {
    assert!(rt; are_all_told(rt.alloc()) == Some(true));
}

// Whether a session whose call of a number fails tells the answers before it, and ends there. An answer takes a call.
fn is_beginning(alloc: Global, whole: &Held, lines: &[&str], call: u64) -> Option<bool> {
    let held = held_up_to(alloc, lines, Some(call))?;
    Some(
        held.status == 4
            && held.told.calls() == call
            && held.told.bytes().len() < whole.told.bytes().len()
            && whole.told.bytes().starts_with(held.told.bytes())
            && held.errors.bytes() == NOTE.as_bytes(),
    )
}

// Edits together that begin and stand, so many times and each asked for twice: what is answered to the same line differs, and little
// is done for it.
fn many_groups<'a>(alloc: Global, count: usize) -> Option<Vec<&'a str>> {
    let mut lines = Vec::new(alloc);
    for _ in 0..count {
        lines.push("begin").ok()?;
        lines.push("begin").ok()?;
        lines.push("commit").ok()?;
        lines.push("commit").ok()?;
    }
    Some(lines)
}

// Whether that is so of each call of 2,000 answers.
fn are_beginnings(alloc: Global) -> Option<bool> {
    let lines = many_groups(alloc, 500)?;
    let whole = held_up_to(alloc, &lines, None)?;
    for call in 1..2001 {
        if !is_beginning(alloc, &whole, &lines, call)? {
            return Some(false);
        }
    }
    Some(whole.told.calls() == 2000)
}

#[test]
fn untold_answers(rt: HostRuntime) {
    assert!(rt; are_beginnings(rt.alloc()) == Some(true));
}
