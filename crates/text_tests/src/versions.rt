//! What texts are read as by their versions (RFC 6020, 6.1.3; RFC 7950, 6.1.3 and 7.1.2).

use crate::readings::is_given;
use crate::rows::all_hold;
use crate::spelled::unmarked;
use std::alloc::Global;
use ytext::{TextFault, parse_in};

// Whether a row holds: a text, and what it is read as.
fn holds(alloc: Global, has_versions: bool, row: &str) -> Option<bool> {
    let row = unmarked(alloc, row).ok()?;
    let (text, wanted) = row.as_str().split_once(" => ")?;
    is_given(
        alloc,
        parse_in(alloc, text.as_bytes(), has_versions),
        wanted,
    )
}

#[test]
fn of_yang_1(rt: HostRuntime) {
    let rows = "module a\"b; => 'a\"b
module a'b'c { } => 'a'b'c
module 'a'b; => L5 1
module m { x'c'; } => 'c
module m { x\"c\"d\"; } => L5 1
module m { x +\"c\"; } => '+\"c\"
module \"\\q\\n\\\"\\\\\"; => '\\q¶\"\\
module \"\\q\\¶             b\" + '\\q'; => '\\q\\¶     b\\q
module \"é\\é\"; => 'é\\é
module \"a\" + b; => L5 1
module 'a'\"b\"; => L5 1
module \"a\\ => L3 1
module m { yang-version 1; x a\"b; } => '1
module m { x \"\\q\"; yang-version \"1\\.1\"; } => '\\q
module m { x \"\\q\"; c { yang-version 1.1; } } => '\\q
module m { x \"\\q\"; yang-version; yang-version 1.1; } => '\\q
module m { x \"\\q\"; 9 b; yang-version 1.1; } => L8 1
module m { x \"\\q\"; yang-version 1.1 } => L5 1
module m { x a\"b; c\"d; yang-version 1.1; } => L3 1
module m { yang-version 1.1\"; x b; } => '1.1\"";
    all_hold(&rt, rt.alloc(), rows, |alloc, row| holds(alloc, true, row));
}

// The first `yang-version` right below the top statement says so, as YANG 1 reads it.
#[test]
fn of_yang_1_1(rt: HostRuntime) {
    let rows = "module m { yang-version 1.1; x a\"b\"; } => L5 1
module m { yang-version 1.1; x \"\\q\"; } => L4 1
module m { yang-version \"1\" + '.1';¶ x \"\\q\"; } => L4 2
module m { x \"\\q\"; yang-version 1.1; } => L4 1
module m { x \"\\q\"; yang-version 1.1 { } } => L4 1";
    all_hold(&rt, rt.alloc(), rows, |alloc, row| holds(alloc, true, row));
}

// Where versions aren't read, every text is one of YANG 1.1.
#[test]
fn without_versions(rt: HostRuntime) {
    let rows = "module a\"b; => L3 1
module m { x +\"c\"; } => L5 1
module \"\\q\"; => L4 1
module m { x \"\\q\"; c { yang-version 1.1; } } => L4 1";
    all_hold(&rt, rt.alloc(), rows, |alloc, row| holds(alloc, false, row));
}

// Whether a text of YANG 1 is read, or memory ran out.
fn is_read_or_memory(alloc: Global) -> bool {
    let text = "m a\"b { c \"\\q\" + 'd'; e; }";
    match parse_in(alloc, text.as_bytes(), true) {
        Ok(module) => module.top.argument() == Some("a\"b") && module.top.subs.len() == 2,
        Err(fault) => fault == TextFault::Memory,
    }
}

// Each request for memory may be refused: the answer is that, or the one with ample memory.
#[test]
fn memory(rt: HostRuntime) {
    assert!(rt; is_read_or_memory(rt.alloc()));
}
