//! The words of an expression.

ghost use Rattle.std.specs.Prelude.{◌≡◌, ◌<◌, ◌++◌, [], IfOk, IfSome, OnOk, length, map, position, slice_index, true};
ghost use Rattle.yspec_wide.specs.Expressions as spec;
ghost use Rattle.ylink_conditions.specs.View.{ends_word, own_tokens, token_view};

use std::alloc::{AllocError, Global};
use ytext::{is_white, parts_around};

/// A word or a parenthesis.
#[derive(Clone, Copy, Debug)]
pub(crate) enum Token<'t> {
    Opening,
    Closing,
    Not,
    And,
    Or,
    Name(&'t str),
}

fn token_of<'t>(word: &'t str) -> Token<'t>
    ensures { token_view result ≡ spec.token_of word.entry.now }
{
    match word {
        "and" => Token::And,
        "or" => Token::Or,
        "not" => Token::Not,
        _ => Token::Name(word),
    }
}

/// Whether a character stands behind the word in front of it.
fn ends_word(byte: u8) -> bool
    ensures cases { result ≡ ends_word byte }
    ensures ascii { result ≡ true → byte < 128 }
{
    is_white(byte) || byte == b'(' || byte == b')'
}

fn end_of_word(bytes: &[u8]) -> Option<usize>
    ensures value { result ≡ position ends_word bytes.now }
    ensures within { IfSome result
        (λ n. (n < length bytes.now) × (ends_word (slice_index bytes.now n) ≡ true)) }
{
    bytes.iter().position(|byte| ends_word(*byte))
}

/// Adds a word, where it has a character.
fn add_word<'t>(tokens: &mut Vec<Token<'t>>, word: &'t str) -> Result<(), AllocError>
    ensures { OnOk result (map token_view tokens.new.items
        ≡ map token_view tokens.old.items ++ spec.with_word word.entry.now []) }
{
    if !word.is_empty() {
        tokens.push(token_of(word))?;
    }
    Ok(())
}

/// Adds what ends a word, where it is a parenthesis.
fn add_end(tokens: &mut Vec<Token<'_>>, byte: u8) -> Result<(), AllocError>
    ensures { OnOk result (map token_view tokens.new.items
        ≡ map token_view tokens.old.items ++ own_tokens byte) }
{
    match byte {
        b'(' => tokens.push(Token::Opening)?,
        b')' => tokens.push(Token::Closing)?,
        _ => {}
    }
    Ok(())
}

/// The words and parentheses of a text.
pub(crate) fn tokens_of<'t>(alloc: Global, text: &'t str) -> Result<Vec<Token<'t>>, AllocError>
    ensures { IfOk result (λ tokens. map token_view tokens.items ≡ spec.tokens_from [] text.entry.now) }
{
    let mut tokens = Vec::new(alloc);
    let mut rest = text;
    while let Some(at) = end_of_word(rest.as_bytes()) {
        let (word, more) = parts_around(rest, at);
        add_word(&mut tokens, word)?;
        add_end(&mut tokens, rest.as_bytes()[at])?;
        rest = more;
    }
    add_word(&mut tokens, rest)?;
    Ok(tokens)
}
