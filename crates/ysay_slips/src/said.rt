//! What is said of where a walk ends.

ghost use Rattle.std.specs.Prelude.{◌≡◌, ◌≤◌, ◌==◌, suc, filter, length, take, decimal, IfOk, option_map, string_bytes};
ghost use Rattle.yspec.specs.text.Text.{line_feed};
ghost use Rattle.ytext.specs.Shown.{kind_shown, scanned_of};
ghost use Rattle.ysay_slips.specs.Said as spec;
ghost use Rattle.ysay_slips.specs.Walk.{innermost};
ghost use Rattle.ysay_slips.specs.WalkView.{beginning_view, doubt_view, due_view, blocks_view, stop_view, walk_view};

use crate::walk::{Beginning, Doubt, Due, Stop, Walk, front_of, innermost, stop_of};
use itoa::Buffer;
use std::alloc::{AllocError, Global};
use std::str;
use ysay_text::shown;
use ytext::{Token, TokenKind};

fn feeds_in(bytes: &[u8]) -> usize
    ensures count { result ≡ length (filter (λ x. x == line_feed) bytes.now) }
    ensures bound { result ≤ length bytes.now }
{
    bytes.iter().filter(|byte| **byte == b'\n').count()
}

/// The line in which a place of a text is.
fn line_of(text: &str, place: usize) -> usize
    ensures { result ≡ spec.line_of text.now place }
{
    feeds_in(front_of(text.as_bytes(), place)) + 1
}

fn line_words(alloc: Global, text: &str, place: usize) -> Result<String, AllocError>
    ensures { IfOk result (λ words. string_bytes words ≡ spec.line_words text.now place) }
{
    let mut digits = Buffer::new();
    ["line ", digits.format(line_of(text, place))].concat(alloc)
}

fn token_words(alloc: Global, token: &Token<'_>) -> Result<String, AllocError>
    ensures { IfOk result (λ words. string_bytes words ≡ spec.token_words (scanned_of token.now) (kind_shown token.now.kind)) }
{
    match token.kind {
        TokenKind::Word => shown(alloc, token.text.as_bytes()),
        TokenKind::Semi => String::from_str(alloc, ";"),
        TokenKind::Open => String::from_str(alloc, "{"),
        TokenKind::Close => String::from_str(alloc, "}"),
        TokenKind::Single | TokenKind::Double => String::from_str(alloc, "this string"),
    }
}

fn due_before(kind: TokenKind) -> &'static str
    ensures { result.now ≡ spec.due_before (kind_shown kind) }
{
    if matches!(kind, TokenKind::Close) {
        "; is due before "
    } else {
        "; or { is due before "
    }
}

fn before(alloc: Global, token: &Token<'_>) -> Result<String, AllocError>
    ensures { IfOk result (λ said. string_bytes said ≡ spec.before (scanned_of token.now)) }
{
    let words = token_words(alloc, token)?;
    [due_before(token.kind), words.as_str(), "."].concat(alloc)
}

fn no_block(alloc: Global) -> Result<String, AllocError>
    ensures { IfOk result (λ said. string_bytes said ≡ spec.no_block) }
{
    String::from_str(alloc, "no { is open for this }.")
}

fn no_keyword(alloc: Global, token: &Token<'_>) -> Result<String, AllocError>
    ensures { IfOk result (λ said. string_bytes said ≡ spec.no_keyword (scanned_of token.now) (kind_shown token.now.kind)) }
{
    if matches!(token.kind, TokenKind::Close) {
        return no_block(alloc);
    }
    let words = token_words(alloc, token)?;
    ["a keyword is due in place of ", words.as_str(), "."].concat(alloc)
}

/// Of a token behind the module.
fn second(alloc: Global, text: &str, walk: &Walk, kind: TokenKind) -> Result<String, AllocError>
    ensures { IfOk result (λ said. string_bytes said ≡ spec.second text.now (walk_view walk.now) (kind_shown kind)) }
{
    if matches!(kind, TokenKind::Close) {
        return no_block(alloc);
    }
    let line = line_words(alloc, text, walk.last)?;
    [
        "the module ends in ",
        line.as_str(),
        "; behind it nothing more may stand.",
    ]
    .concat(alloc)
}

/// Of a token that can't stand there.
fn misplaced(
    alloc: Global,
    text: &str,
    walk: &Walk,
    token: &Token<'_>,
) -> Result<String, AllocError>
    ensures { let w = walk_view walk.now in
        IfOk result (λ said. string_bytes said ≡ spec.misplaced text.now w w.due (scanned_of token.now)) }
{
    match walk.due {
        Due::Keyword => no_keyword(alloc, token),
        Due::Argument | Due::Body | Due::Plus => before(alloc, token),
        Due::String => String::from_str(alloc, "a quoted string is due behind +."),
        Due::End => second(alloc, text, walk, token.kind),
    }
}

fn unclosed(alloc: Global, text: &str, block: Beginning) -> Result<String, AllocError>
    ensures { IfOk result (λ said. string_bytes said ≡ spec.unclosed text.now (beginning_view block)) }
{
    let line = line_words(alloc, text, block.start)?;
    ["the block that begins in ", line.as_str(), " isn't closed."].concat(alloc)
}

fn inner_words(alloc: Global, text: &str, inner: Beginning) -> Result<String, AllocError>
    ensures { IfOk result (λ words. string_bytes words ≡ spec.inner_words text.now (beginning_view inner)) }
{
    let line = line_words(alloc, text, inner.start)?;
    [
        ": what begins in it in ",
        line.as_str(),
        " is indented no deeper.",
    ]
    .concat(alloc)
}

fn doubted(alloc: Global, text: &str, doubt: Doubt) -> Result<String, AllocError>
    ensures { IfOk result (λ said. string_bytes said ≡ spec.doubted text.now (doubt_view doubt)) }
{
    let outer = line_words(alloc, text, doubt.outer.start)?;
    let inner = inner_words(alloc, text, doubt.inner)?;
    [
        "a block isn't closed; it may be that of ",
        outer.as_str(),
        inner.as_str(),
    ]
    .concat(alloc)
}

/// Of a text that ends in a block.
fn unclosed_of(
    alloc: Global,
    text: &str,
    block: Beginning,
    doubt: Option<Doubt>,
) -> Result<String, AllocError>
    ensures { IfOk result (λ said. string_bytes said
        ≡ spec.unclosed_of text.now (beginning_view block) (option_map doubt_view doubt)) }
{
    match doubt {
        Some(doubt) => doubted(alloc, text, doubt),
        None => unclosed(alloc, text, block),
    }
}

fn unended(due: Due) -> &'static str
    ensures { result.now ≡ spec.unended (due_view due) }
{
    match due {
        Due::Keyword => "no statement stands there.",
        Due::End => "",
        Due::Argument | Due::Body | Due::Plus | Due::String => "the text ends before ; or {.",
    }
}

/// Of a text that ends too soon.
fn unfinished(alloc: Global, text: &str, walk: &Walk) -> Result<String, AllocError>
    ensures { let w = walk_view walk.now in
        IfOk result (λ said. string_bytes said ≡ spec.unfinished text.now w (innermost w.blocks)) }
{
    match innermost(&walk.blocks) {
        Some(block) => unclosed_of(alloc, text, block, walk.doubt),
        None => String::from_str(alloc, unended(walk.due)),
    }
}

fn said_of(alloc: Global, text: &str, stop: &Stop<'_>) -> Result<String, AllocError>
    ensures { IfOk result (λ said. string_bytes said ≡ spec.said_of text.now (stop_view stop.now)) }
{
    match stop {
        Stop::AtToken(walk, token) => misplaced(alloc, text, walk, token),
        Stop::AtEnd(walk) => unfinished(alloc, text, walk),
        Stop::Elsewhere => Ok(String::new(alloc)),
    }
}

fn is_of_tokens(code: u8) -> bool
    ensures { result ≡ spec.is_of_tokens code }
{
    code == 5 || code == 6
}

fn of_text(alloc: Global, text: &str) -> Result<String, AllocError>
    ensures { IfOk result (λ said. string_bytes said ≡ spec.of_text text.now) }
{
    let stop = stop_of(alloc, text)?;
    said_of(alloc, text, &stop)
}

fn of_bytes(alloc: Global, bytes: &[u8]) -> Result<String, AllocError>
    ensures { IfOk result (λ said. string_bytes said ≡ spec.of_bytes bytes.now) }
{
    match str::from_utf8(bytes) {
        Ok(text) => of_text(alloc, text),
        Err(_) => Ok(String::new(alloc)),
    }
}

/// What is said of the bytes of a module that are refused with this number behind the `L`: of a word, a string or a sign that can't stand
/// where it does (5), and of what isn't one module (6), where it is and what is due. Nothing of other refusals.
#[tactic(auto, unfolding(crate::specs::Said::of_slip))]
pub fn slip_sentence(alloc: Global, code: u8, bytes: &[u8]) -> Result<String, AllocError>
    ensures { IfOk result (λ said. string_bytes said ≡ spec.of_slip code bytes.now) }
{
    if is_of_tokens(code) {
        of_bytes(alloc, bytes)
    } else {
        Ok(String::new(alloc))
    }
}
