//! Reading expressions: `not` binds closest, then `and`, then `or` (RFC 7950, `if-feature-expr` of 14).

ghost use Rattle.std.specs.Prelude.{◌≡◌, IfOk, map, option_map};
ghost use Rattle.yspec.specs.linking.Arguments.{name_of};
ghost use Rattle.yspec_wide.specs.Expressions as spec;
ghost use Rattle.ylink_conditions.specs.View.{expression_view, level_view, read_view, token_view, version_view};

use crate::expression::{Expression, YangVersion};
use crate::words::{Token, tokens_of};
use std::alloc::{AllocError, Global};
use ylink_arguments::name_of;

/// More words than an expression may have, so that none is deeper than a stack.
const MOST_WORDS: usize = 127;

/// What is read: an expression of `or`, of `and`, or of neither.
#[derive(Clone, Copy, Debug)]
pub(crate) enum Level {
    Expression,
    Term,
    Factor,
}

/// An expression, and the words behind it.
#[derive(Debug, Drop)]
pub(crate) struct ReadWords<'k, 't> {
    expression: Expression<'t>,
    rest: &'k [Token<'t>],
}

/// Two expressions joined, the second of which is read where one stands there.
fn either<'k, 't>(
    alloc: Global,
    first: Expression<'t>,
    second: Option<ReadWords<'k, 't>>,
) -> Result<Option<ReadWords<'k, 't>>, AllocError>
    ensures { IfOk result (λ read. read_view read
        ≡ spec.joined spec.one_so (expression_view first.entry) (read_view second.entry)) }
{
    let Some(second) = second else {
        return Ok(None);
    };
    let first = Box::new(alloc, first)?;
    let other = Box::new(alloc, second.expression)?;
    Ok(Some(ReadWords {
        expression: Expression::OneOf(first, other),
        rest: second.rest,
    }))
}

fn both<'k, 't>(
    alloc: Global,
    first: Expression<'t>,
    second: Option<ReadWords<'k, 't>>,
) -> Result<Option<ReadWords<'k, 't>>, AllocError>
    ensures { IfOk result (λ read. read_view read
        ≡ spec.joined spec.both_so (expression_view first.entry) (read_view second.entry)) }
{
    let Some(second) = second else {
        return Ok(None);
    };
    let first = Box::new(alloc, first)?;
    let other = Box::new(alloc, second.expression)?;
    Ok(Some(ReadWords {
        expression: Expression::Both(first, other),
        rest: second.rest,
    }))
}

fn negated<'k, 't>(
    alloc: Global,
    read: Option<ReadWords<'k, 't>>,
) -> Result<Option<ReadWords<'k, 't>>, AllocError>
    ensures { IfOk result (λ negated. read_view negated
        ≡ option_map (λ p. (spec.not_so p.0, p.1)) (read_view read.entry)) }
{
    match read {
        None => Ok(None),
        Some(read) => Ok(Some(ReadWords {
            expression: Expression::Not(Box::new(alloc, read.expression)?),
            rest: read.rest,
        })),
    }
}

/// What was read, where a closing parenthesis stands behind it.
fn closed<'k, 't>(read: Option<ReadWords<'k, 't>>) -> Option<ReadWords<'k, 't>>
    ensures { read_view result ≡ spec.closed (read_view read.entry) }
{
    let read = read?;
    match read.rest.split_first() {
        Some((Token::Closing, rest)) => Some(ReadWords {
            expression: read.expression,
            rest,
        }),
        _ => None,
    }
}

fn feature<'k, 't>(name: &'t str, rest: &'k [Token<'t>]) -> Option<ReadWords<'k, 't>>
    ensures { read_view result ≡ option_map (λ n. (spec.feature n, map token_view rest.entry.now))
        (name_of name.entry.now) }
{
    Some(ReadWords {
        expression: Expression::Feature(name_of(name)?),
        rest,
    })
}

#[cycle(reading)]
fn behind_term<'k, 't>(
    alloc: Global,
    steps: usize,
    read_first: Option<ReadWords<'k, 't>>,
) -> Result<Option<ReadWords<'k, 't>>, AllocError>
    ensures { IfOk result (λ found. read_view found
        ≡ spec.behind_term (spec.read steps) (read_view read_first.entry)) }
{
    let Some(first) = read_first else {
        return Ok(None);
    };
    match first.rest.split_first() {
        Some((Token::Or, more)) => {
            let second = read_level(alloc, steps, Level::Expression, more)?;
            either(alloc, first.expression, second)
        }
        _ => Ok(Some(first)),
    }
}

#[cycle(reading)]
fn behind_factor<'k, 't>(
    alloc: Global,
    steps: usize,
    read_first: Option<ReadWords<'k, 't>>,
) -> Result<Option<ReadWords<'k, 't>>, AllocError>
    ensures { IfOk result (λ found. read_view found
        ≡ spec.behind_factor (spec.read steps) (read_view read_first.entry)) }
{
    let Some(first) = read_first else {
        return Ok(None);
    };
    match first.rest.split_first() {
        Some((Token::And, more)) => {
            let second = read_level(alloc, steps, Level::Term, more)?;
            both(alloc, first.expression, second)
        }
        _ => Ok(Some(first)),
    }
}

#[cycle(reading)]
fn one_factor<'k, 't>(
    alloc: Global,
    steps: usize,
    tokens: &'k [Token<'t>],
) -> Result<Option<ReadWords<'k, 't>>, AllocError>
    ensures { IfOk result (λ found. read_view found
        ≡ spec.one_factor (spec.read steps) (map token_view tokens.entry.now)) }
{
    match tokens.split_first() {
        Some((Token::Not, more)) => {
            let inner = read_level(alloc, steps, Level::Factor, more)?;
            negated(alloc, inner)
        }
        Some((Token::Opening, more)) => Ok(closed(read_level(
            alloc,
            steps,
            Level::Expression,
            more,
        )?)),
        Some((Token::Name(name), more)) => Ok(feature(*name, more)),
        _ => Ok(None),
    }
}

/// What the first words spell, by so many steps at most.
#[cycle(reading)]
fn read_level<'k, 't>(
    alloc: Global,
    steps: usize,
    level: Level,
    tokens: &'k [Token<'t>],
) -> Result<Option<ReadWords<'k, 't>>, AllocError>
    ensures { IfOk result (λ found. read_view found
        ≡ spec.read steps (level_view level) (map token_view tokens.entry.now)) }
{
    if steps == 0 {
        return Ok(None);
    }
    let left = steps - 1;
    match level {
        Level::Expression => {
            let first = read_level(alloc, left, Level::Term, tokens)?;
            behind_term(alloc, left, first)
        }
        Level::Term => {
            let first = read_level(alloc, left, Level::Factor, tokens)?;
            behind_factor(alloc, left, first)
        }
        Level::Factor => one_factor(alloc, left, tokens),
    }
}

/// The expression that words spell, all of them.
fn expression_read<'t>(
    alloc: Global,
    tokens: &[Token<'t>],
) -> Result<Option<Expression<'t>>, AllocError>
    ensures { IfOk result (λ found. option_map expression_view found
        ≡ spec.expression_read (map token_view tokens.now)) }
{
    if tokens.len() > MOST_WORDS {
        return Ok(None);
    }
    match read_level(alloc, 3 * tokens.len() + 3, Level::Expression, tokens)? {
        Some(read) if read.rest.is_empty() => Ok(Some(read.expression)),
        _ => Ok(None),
    }
}

/// The expression that the argument of an `if-feature` spells, if it spells one of at most 127 words; in YANG 1 it is the name
/// of a feature.
pub fn expression_of<'t>(
    alloc: Global,
    version: YangVersion,
    text: &'t str,
) -> Result<Option<Expression<'t>>, AllocError>
    ensures { IfOk result (λ found. option_map expression_view found
        ≡ spec.expression_of (version_view version) text.entry.now) }
{
    match version {
        YangVersion::Yang1 => match name_of(text) {
            Some(name) => Ok(Some(Expression::Feature(name))),
            None => Ok(None),
        },
        YangVersion::Yang1_1 => expression_read(alloc, &tokens_of(alloc, text)?),
    }
}
