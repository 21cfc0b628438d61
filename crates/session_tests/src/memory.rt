//! One request for memory, whichever, may be refused: that is told in place of what isn't done, and what is done is answered as
//! ever. `tools/refuse-memory` refuses each request in turn.

use crate::holding::{GOOD, Held, NOTE, SESSION, hold, over};
use std::alloc::Global;

// Each kind of request.
const LINES: &[&str] = &[
    "faults",
    "replace /p:c/id \"x\"",
    "create /p:c/note \"a\"",
    "faults 1 1",
    "below /p:c",
    "value /p:c/note",
    "document",
    "save a b.json",
    "begin",
    "remove /p:c/note",
    "back",
    "begin",
    "remove /p:c/note",
    "commit",
    "undo",
    "undo",
    "undo",
    "end",
];

const SHORT: &str = "{\"refused\":\"E12\",\"message\":\"Memory ran out.\"}";

// Whether a session ended at its end, or for want of memory, and said so.
fn is_ended_or_short(held: &Held) -> bool {
    let errors = held.errors.bytes();
    if held.status == 4 {
        errors == "memory\n".as_bytes() || errors == "not judged: 1 must\nmemory\n".as_bytes()
    } else {
        errors == NOTE.as_bytes() && is_whole_or_short(held)
    }
}

// Whether all was answered, and well, or a request was refused for want of memory.
fn is_whole_or_short(held: &Held) -> bool {
    match str::from_utf8(held.told.bytes()) {
        Ok(told) => held.asked == LINES.len() && (held.status == 0 || told.contains(SHORT)),
        Err(_) => false,
    }
}

fn is_told(alloc: Global, more: &str) -> Option<bool> {
    let words = [SESSION, more].concat(alloc).ok()?;
    let held = hold(alloc, over(words.as_str(), GOOD, LINES)).ok()?;
    Some(is_ended_or_short(&held))
}

#[test]
fn answers_or_memory(rt: HostRuntime) {
    assert!(rt; is_told(rt.alloc(), "") != Some(false));
    assert!(rt; is_told(rt.alloc(), " --config") != Some(false));
}
