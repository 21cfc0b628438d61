//! What whole texts are read as.

use crate::rows::all_hold;
use crate::spelled::{is_fault, unmarked};
use std::alloc::{AllocError, Global};
use ytext::{Module, Stmt, TextFault, is_identifier, is_name, parse};

// Whether a statement has this argument: `'a` for `a`, `-` for none.
fn has_argument(statement: &Stmt, wanted: &str) -> bool {
    match statement.argument() {
        Some(argument) => wanted.strip_prefix('\'') == Some(argument),
        None => wanted == "-",
    }
}

/// Whether this is read of a text: the argument of the first substatement, where there is one, and else of the top
/// statement, or the fault, as `L5 1`. None where memory ran out.
pub(crate) fn is_given(
    alloc: Global,
    given: Result<Module, TextFault>,
    wanted: &str,
) -> Option<bool> {
    match given {
        Ok(module) => match module.top.subs.first() {
            Some(statement) => Some(has_argument(statement, wanted)),
            None => Some(has_argument(&module.top, wanted)),
        },
        Err(fault) => is_fault(alloc, fault, wanted),
    }
}

fn is_read(alloc: Global, text: &[u8], wanted: &str) -> Option<bool> {
    is_given(alloc, parse(alloc, text), wanted)
}

// Whether a row holds: a text, and what it is read as.
fn holds(alloc: Global, row: &str) -> Option<bool> {
    let row = unmarked(alloc, row).ok()?;
    let (text, wanted) = row.as_str().split_once(" => ")?;
    is_read(alloc, text.as_bytes(), wanted)
}

#[test]
fn readings(rt: HostRuntime) {
    let rows = "module¶    \"a¶        b\" + 'c\\n'; => 'a¶   bc\\n
module¶\t\"a¶\t\tb\" { } => 'a¶       b
module \"x\\n   y\"; => 'x¶   y
module \"a  \t¶ b\"; => 'a¶b
module a { namespace http://x;¶; } => 'http:
module a/*c*/{} => 'a
module 'a'+\"b\"; => 'ab
module + ; => '+
module 'a' + b; => L5 1
module 'a''b'; => L5 1
module a; */ => L5 1
module \"a\\x\"; => L4 1
module \"a\\\"b\"; => 'a\"b
module \u{c}x; => L2 1
module \u{fffe}x; => L2 1
module /*é*/\"x¶              y\"; => 'x¶ y
module \rx; => L2 1
 => L6 1
module a { prefix \"x => L3 1
module \"a\r¶ b\"; => 'a¶b
module 'a\r¶b'; => 'a¶b
module /* \" */ \"/* // */\"; => '/* // */";
    all_hold(&rt, rt.alloc(), rows, holds);
    assert!(rt; is_read(rt.alloc(), b"module a {\n\xff}", "L1 2") == Some(true));
}

// So many times a text.
fn repeated(alloc: Global, text: &str, times: usize) -> Result<String, AllocError> {
    let mut all = String::new(alloc);
    for _ in 0..times {
        all.push_str(text)?;
    }
    Ok(all)
}

// So many blocks in one another, each in a line of its own.
fn nested(alloc: Global, depth: usize) -> Result<String, AllocError> {
    let mut text = repeated(alloc, "a {\n", depth)?;
    text.push_str(repeated(alloc, "}", depth)?.as_str())?;
    Ok(text)
}

fn is_nested_read(alloc: Global, depth: usize, wanted: &str) -> Option<bool> {
    let text = nested(alloc, depth).ok()?;
    is_read(alloc, text.as_bytes(), wanted)
}

#[test]
fn levels(rt: HostRuntime) {
    assert!(rt; is_nested_read(rt.alloc(), 64, "-") == Some(true));
    assert!(rt; is_nested_read(rt.alloc(), 65, "L7 65") == Some(true));
}

// A name in front of the argument `b`, both parts of it so long.
fn long_keyword(alloc: Global, length: usize) -> Result<String, AllocError> {
    let part = repeated(alloc, "a", length)?;
    let mut text = part.clone()?;
    text.push_str(":")?;
    text.push_str(part.as_str())?;
    text.push_str(" b;")?;
    Ok(text)
}

// Whether identifiers so long are taken or not, and a text with one as its keyword is read so.
fn is_long_keyword(alloc: Global, length: usize, is_taken: bool, wanted: &str) -> Option<bool> {
    let text = long_keyword(alloc, length).ok()?;
    let (name, _) = text.as_str().split_once(' ')?;
    let (part, _) = name.split_once(':')?;
    let are_judged = is_identifier(part) == is_taken && is_name(name) == is_taken;
    Some(are_judged && is_read(alloc, text.as_bytes(), wanted)?)
}

#[test]
fn identifiers(rt: HostRuntime) {
    assert!(rt; is_long_keyword(rt.alloc(), 64, true, "'b") == Some(true));
    assert!(rt; is_long_keyword(rt.alloc(), 65, false, "L8 1") == Some(true));
}

// `a`, a string of the same character throughout, so long, and `;`.
fn long_text(alloc: Global, length: usize) -> Result<String, AllocError> {
    let mut text = String::from_str(alloc, "a '")?;
    text.push_str(repeated(alloc, "x", length)?.as_str())?;
    text.push_str("';")?;
    Ok(text)
}

// Whether the longest text is read whole.
fn is_longest_read(alloc: Global) -> Option<bool> {
    let text = long_text(alloc, 4_194_299).ok()?;
    let module = parse(alloc, text.as_bytes()).ok()?;
    Some(text.len() == 4_194_304 && module.top.argument()?.len() == 4_194_299)
}

fn is_longer_refused(alloc: Global) -> Option<bool> {
    let text = long_text(alloc, 4_194_300).ok()?;
    is_read(alloc, text.as_bytes(), "L7 1")
}

// Whether bytes that are no text, so many of them, are refused so.
fn are_refused(alloc: Global, length: usize, wanted: &str) -> Option<bool> {
    let bytes = vec![in alloc; 255u8; length].ok()?;
    is_read(alloc, bytes.as_slice(), wanted)
}

#[test]
fn lengths(rt: HostRuntime) {
    assert!(rt; is_longest_read(rt.alloc()) == Some(true));
    assert!(rt; is_longer_refused(rt.alloc()) == Some(true));
    assert!(rt; are_refused(rt.alloc(), 4_194_304, "L1 1") == Some(true));
    assert!(rt; are_refused(rt.alloc(), 4_194_305, "L7 1") == Some(true));
}

// Whether a text is read, or memory ran out.
fn is_read_or_memory(alloc: Global) -> bool {
    let text = "m:a \"b\\t\r\n   c\" + 'd\r\n' { e; f g { h 'i'; } /* j */ k; // l\n }";
    match parse(alloc, text.as_bytes()) {
        Ok(module) => module.top.argument() == Some("b\t\ncd\n") && module.top.subs.len() == 3,
        Err(fault) => fault == TextFault::Memory,
    }
}

// Each request for memory may be refused: the answer is that, or the one with ample memory.
#[test]
fn memory(rt: HostRuntime) {
    assert!(rt; is_read_or_memory(rt.alloc()));
}
