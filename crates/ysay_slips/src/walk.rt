//! A walk over the tokens of a text, up to the first that can't stand where it does.

ghost use Rattle.std.specs.Prelude.{◌≡◌, ◌≤◌, ◌<◌, ◌+◌, ◌^◌, ◌∷◌, ℕ, codes, drop, length, take, IfOk, IfSome, OnOk, option_map, Some};
ghost use Rattle.yspec.specs.text.Text.{is_text};
ghost use Rattle.yspec.specs.text.Scanning.{scan_of};
ghost use Rattle.ytext.specs.Shown.{kind_shown, scanned_of};
ghost use Rattle.ysay_slips.specs.Walk as spec;
ghost use Rattle.ysay_slips.specs.WalkView.{beginning_view, doubt_view, due_view, blocks_view, stop_view, walk_view};

use std::alloc::{AllocError, Global};
use ytext::{Token, TokenKind, tokens};

/// What is due in a text.
#[derive(Clone, Copy, Debug, PartialEq, Eq)]
pub(crate) enum Due {
    /// A keyword, or the `}` of a block.
    Keyword,
    /// An argument, `;` or `{`.
    Argument,
    /// `;` or `{`.
    Body,
    /// `+`, `;` or `{`.
    Plus,
    /// A quoted string behind `+`.
    String,
    /// Nothing more.
    End,
}

/// Where the keyword of a statement begins, and how far it is indented where it is the first of its line.
#[derive(Clone, Copy, Debug)]
pub(crate) struct Beginning {
    pub start: usize,
    pub indent: Option<usize>,
}

/// A block that looks as if it weren't closed: a statement in it is indented no deeper.
#[derive(Clone, Copy, Debug)]
pub(crate) struct Doubt {
    pub outer: Beginning,
    pub inner: Beginning,
}

/// Where a walk is.
#[derive(Drop)]
pub(crate) struct Walk {
    pub due: Due,
    /// The statements of the blocks that are open, innermost last.
    pub blocks: Vec<Beginning>,
    /// The statement that was begun last.
    pub statement: Beginning,
    /// Where the last token begins.
    pub last: usize,
    pub doubt: Option<Doubt>,
}

/// Where a walk ends.
#[derive(Drop)]
pub(crate) enum Stop<'t> {
    /// At a token that can't stand there.
    AtToken(Walk, Token<'t>),
    /// At the end of the text.
    AtEnd(Walk),
    /// Where the text has no token.
    Elsewhere,
}

fn ends_statement(kind: TokenKind) -> bool
    ensures { result ≡ spec.ends_statement (kind_shown kind) }
{
    matches!(kind, TokenKind::Semi | TokenKind::Open)
}

fn is_string(kind: TokenKind) -> bool
    ensures { result ≡ spec.is_string (kind_shown kind) }
{
    matches!(kind, TokenKind::Single | TokenKind::Double)
}

fn is_word(kind: TokenKind) -> bool
    ensures { result ≡ spec.is_word (kind_shown kind) }
{
    matches!(kind, TokenKind::Word)
}

fn is_closing(kind: TokenKind) -> bool
    ensures { result ≡ spec.is_closing (kind_shown kind) }
{
    matches!(kind, TokenKind::Close)
}

/// Whether a token of a kind may stand where this is due.
fn may_stand(is_plus: bool, is_open: bool, due: Due, kind: TokenKind) -> bool
    ensures { result ≡ spec.may_stand is_plus is_open (due_view due) (kind_shown kind) }
{
    match due {
        Due::Keyword => is_word(kind) || (is_closing(kind) && is_open),
        Due::Argument => is_word(kind) || (is_string(kind) || ends_statement(kind)),
        Due::Body => ends_statement(kind),
        Due::Plus => ends_statement(kind) || (is_word(kind) && is_plus),
        Due::String => is_string(kind),
        Due::End => false,
    }
}

/// What is due behind a word.
fn due_behind(due: Due) -> Due
    ensures { due_view result ≡ spec.due_behind (due_view due) }
{
    match due {
        Due::Keyword => Due::Argument,
        Due::Plus => Due::String,
        Due::Argument | Due::Body | Due::String | Due::End => Due::Body,
    }
}

fn is_at_keyword(due: Due) -> bool
    ensures { result ≡ spec.is_at_keyword (due_view due) }
{
    matches!(due, Due::Keyword)
}

/// How far what follows one more byte is indented, where it is the first of its line.
fn indent_after(indent: Option<usize>, byte: u8) -> Option<usize>
    requires { IfSome indent (λ n. n + 1 < 2 ^ 64) }
    ensures value { result ≡ spec.indent_after indent byte }
    ensures bound { (limit : ℕ) → IfSome indent (λ n. n ≤ limit) → IfSome result (λ n. n ≤ limit + 1) }
{
    if byte == b'\n' {
        return Some(0);
    }
    if byte == b' ' || byte == b'\t' {
        match indent {
            Some(count) => Some(count + 1),
            None => None,
        }
    } else {
        None
    }
}

/// How far what follows some bytes is indented, where it is the first of its line; they begin a line.
fn indent_behind(bytes: &[u8]) -> Option<usize>
    ensures { result ≡ spec.indent_behind (Some 0) bytes.now }
{
    let mut indent = Some(0);
    for at in 0..bytes.len() {
        indent = indent_after(indent, bytes[at]);
    }
    indent
}

/// What stands in front of a place.
pub(crate) fn front_of(bytes: &[u8], to: usize) -> &[u8]
    ensures front { result.now ≡ take to bytes.now }
    ensures bound { length result.now ≤ length bytes.now }
{
    if to < bytes.len() {
        &bytes[..to]
    } else {
        bytes
    }
}

/// What stands between two places.
fn between(text: &str, from: usize, to: usize) -> &[u8]
    ensures { result.now ≡ spec.between text.now from to }
{
    let front = front_of(text.as_bytes(), to);
    if from < front.len() {
        &front[from..]
    } else {
        &[]
    }
}

fn beginning_at(text: &str, last: usize, start: usize) -> Beginning
    ensures { beginning_view result ≡ spec.beginning_at text.now last start }
{
    Beginning {
        start,
        indent: indent_behind(between(text, last, start)),
    }
}

fn is_no_deeper(outer: Beginning, inner: Beginning) -> bool
    ensures { result ≡ spec.is_no_deeper (beginning_view outer) (beginning_view inner) }
{
    match inner.indent {
        Some(inside) => match outer.indent {
            Some(outside) => inside <= outside,
            None => false,
        },
        None => false,
    }
}

/// The innermost of some blocks.
pub(crate) fn innermost(blocks: &[Beginning]) -> Option<Beginning>
    ensures { option_map beginning_view result ≡ spec.innermost (blocks_view blocks.now) }
{
    match blocks {
        [.., block] => Some(*block),
        [] => None,
    }
}

/// Whether a block looks as if it weren't closed, where a statement begins in it.
fn doubt_between(outer: Beginning, inner: Beginning) -> Option<Doubt>
    ensures { option_map doubt_view result ≡ spec.doubt_between (beginning_view inner) (beginning_view outer) }
{
    if is_no_deeper(outer, inner) {
        Some(Doubt { outer, inner })
    } else {
        None
    }
}

/// Whether the innermost of some blocks does.
fn doubt_of(blocks: &[Beginning], inner: Beginning) -> Option<Doubt>
    ensures { option_map doubt_view result ≡ spec.doubt_of (blocks_view blocks.now) (beginning_view inner) }
{
    match innermost(blocks) {
        Some(outer) => doubt_between(outer, inner),
        None => None,
    }
}

impl Walk {
    fn new(alloc: Global) -> Walk
        ensures { walk_view result ≡ spec.start }
    {
        Walk {
            due: Due::Keyword,
            blocks: Vec::new(alloc),
            statement: Beginning {
                start: 0,
                indent: None,
            },
            last: 0,
            doubt: None,
        }
    }

    fn fits(&self, token: &Token<'_>) -> bool
        ensures { result ≡ spec.fits (walk_view self.now) (scanned_of token.now) }
    {
        may_stand(
            token.text == "+",
            !self.blocks.is_empty(),
            self.due,
            token.kind,
        )
    }

    /// Goes on behind a statement.
    fn end(&mut self)
        ensures { walk_view self.new ≡ spec.ended (walk_view self.old) }
    {
        self.due = if self.blocks.is_empty() {
            Due::End
        } else {
            Due::Keyword
        };
    }

    /// Goes on in a statement that begins there.
    fn begin(&mut self, beginning: Beginning)
        ensures { walk_view self.new ≡ spec.begun (walk_view self.old) (beginning_view beginning) }
    {
        if self.doubt.is_none() {
            self.doubt = doubt_of(&self.blocks, beginning);
        }
        self.due = Due::Argument;
        self.statement = beginning;
    }

    /// Goes on behind a word.
    fn take_word(&mut self, text: &str, start: usize)
        ensures { walk_view self.new ≡ spec.behind_word text.now (walk_view self.old) start }
    {
        if is_at_keyword(self.due) {
            self.begin(beginning_at(text, self.last, start));
        } else {
            self.due = due_behind(self.due);
        }
    }

    /// Goes on in the block of the statement that was begun last.
    fn open_block(&mut self) -> Result<(), AllocError>
        ensures { OnOk result (walk_view self.new ≡ record (walk_view self.old)
            { due = spec.a_keyword; blocks = (walk_view self.old).statement ∷ (walk_view self.old).blocks }) }
    {
        self.blocks.push(self.statement)?;
        self.due = Due::Keyword;
        Ok(())
    }

    /// Goes on behind the innermost block.
    fn close_block(&mut self)
        ensures { walk_view self.new ≡ spec.ended (record (walk_view self.old) { blocks = spec.closed (walk_view self.old).blocks }) }
    {
        self.blocks.pop();
        self.end();
    }

    /// Goes on behind a token of a kind that begins there.
    fn pass(&mut self, text: &str, start: usize, kind: TokenKind) -> Result<(), AllocError>
        ensures { OnOk result (walk_view self.new ≡ spec.behind text.now (walk_view self.old) start (kind_shown kind)) }
    {
        match kind {
            TokenKind::Word => self.take_word(text, start),
            TokenKind::Single | TokenKind::Double => self.due = Due::Plus,
            TokenKind::Semi => self.end(),
            TokenKind::Open => self.open_block()?,
            TokenKind::Close => self.close_block(),
        }
        Ok(())
    }

    /// Goes on behind a token.
    fn step(&mut self, text: &str, token: &Token<'_>) -> Result<(), AllocError>
        ensures { OnOk result (walk_view self.new ≡ spec.step text.now (walk_view self.old) (scanned_of token.now)) }
    {
        self.pass(text, token.start, token.kind)?;
        self.last = token.start;
        Ok(())
    }
}

/// Where a walk over a text ends.
#[tactic(auto, unfolding(crate::specs::Walk::walk_from))]
pub(crate) fn stop_of(alloc: Global, text: &str) -> Result<Stop<'_>, AllocError>
    ensures { IfOk result (λ stop. stop_view stop ≡ spec.stop_of text.entry.now) }
{
    let mut walk = Walk::new(alloc);
    for found in tokens(text) {
        let Ok(token) = found else {
            return Ok(Stop::Elsewhere);
        };
        if !walk.fits(&token) {
            return Ok(Stop::AtToken(walk, token));
        }
        walk.step(text, &token)?;
    }
    Ok(Stop::AtEnd(walk))
}
