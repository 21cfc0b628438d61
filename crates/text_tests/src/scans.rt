//! The tokens of texts, and the first fault among them.

use crate::rows::all_hold;
use crate::spelled::{is_fault, unmarked};
use std::alloc::Global;
use ytext::{Token, TokenKind, tokens};

fn kind_of(word: &str) -> Option<TokenKind> {
    match word {
        "word" => Some(TokenKind::Word),
        "single" => Some(TokenKind::Single),
        "double" => Some(TokenKind::Double),
        "semi" => Some(TokenKind::Semi),
        "open" => Some(TokenKind::Open),
        "close" => Some(TokenKind::Close),
        _ => None,
    }
}

// Whether a token is the one of a row, as `word 0 1 a`: its kind, its two places, and its text.
fn is_token(token: &Token<'_>, row: &str) -> Option<bool> {
    let (kind, places) = row.split_once(' ')?;
    let (start, rest) = places.split_once(' ')?;
    let (end, text) = rest.split_once(' ')?;
    let is_placed = token.start == start.parse::<usize>().ok()?
        && token.end == end.parse::<usize>().ok()?;
    Some(is_placed && token.kind == kind_of(kind)? && token.text == text)
}

// Whether a text has the tokens of these rows, and no more. None where it has fewer.
fn has_tokens(text: &str, rows: &str) -> Option<bool> {
    let mut found = tokens(text);
    for row in rows.lines() {
        let token = found.next()?.ok()?;
        if !is_token(&token, row)? {
            return Some(false);
        }
    }
    Some(found.next().is_none() && found.next().is_none())
}

#[test]
fn kinds(rt: HostRuntime) {
    let rows = "word 0 1 a
double 5 8 \"b\"
word 8 9 +
single 9 12 'c'
open 13 14 {
close 15 16 }
semi 22 23 ;";
    assert!(rt; has_tokens("a/**/\"b\"+'c' {\n} // d\n;", rows) == Some(true));
}

// Whether this fault comes behind so many tokens, and nothing follows it.
fn is_fault_behind(alloc: Global, text: &str, count: usize, wanted: &str) -> Option<bool> {
    let mut found = tokens(text);
    for _ in 0..count {
        found.next()?.ok()?;
    }
    let fault = found.next()?.err()?;
    Some(is_fault(alloc, fault, wanted)? && found.next().is_none())
}

// Whether a row holds: a text, how many tokens it has in front of its first fault, and that fault.
fn holds(alloc: Global, row: &str) -> Option<bool> {
    let row = unmarked(alloc, row).ok()?;
    let (text, rest) = row.as_str().split_once(" => ")?;
    let (count, wanted) = rest.split_once(" then ")?;
    is_fault_behind(alloc, text, count.parse::<usize>().ok()?, wanted)
}

#[test]
fn first_faults(rt: HostRuntime) {
    let rows = "a¶; */ b => 2 then L5 2
a¶'b¶ => 1 then L3 2
a \"b\\ => 1 then L3 1
a¶¶/*¶ => 1 then L3 3
a \"¶\\\\\\x\" b => 1 then L4 2
a¶ \r b => 1 then L2 2
a; // \u{ffff} => 2 then L2 1
a \"\r\\x\" => 1 then L2 1
a \"\\x\r\" => 1 then L4 1
a '\u{1} => 1 then L3 1";
    all_hold(&rt, rt.alloc(), rows, holds);
}
