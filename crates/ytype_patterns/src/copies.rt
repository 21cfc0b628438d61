//! How often the parts of a pattern's text are repeated at most.

ghost use Rattle.std.specs.Prelude.{◌≡◌, IfOk, option_map};
ghost use Rattle.yspec_patterns.specs.Limits.{bounded};
ghost use Rattle.yspec_patterns.specs.Sizes as spec;
ghost use Rattle.ytype_patterns.specs.BuildingView.{times_given};
ghost use Rattle.ytype_patterns.specs.CopiesView.{around_view, copies_view};
ghost use Rattle.ytype_patterns.specs.PartView.{token_view};

use crate::limits::{bounded, product};
use crate::quantities::Token;
use crate::times::Times;
use std::alloc::{AllocError, Global};

/// How many groups may stand in one another.
const DEEPEST: usize = 200;

/// How often what stands in the group at hand is repeated at most, and so for the groups around it, the innermost last.
#[derive(Drop)]
pub struct Copies {
    here: u32,
    around: Vec<u32>,
}

impl Copies {
    ghost use Rattle.std.specs.Prelude.{◌≡◌};
    ghost use Rattle.yspec_patterns.specs.Sizes as spec;
    ghost use Rattle.ytype_patterns.specs.CopiesView.{copies_view};

    /// Of what stands in no group.
    pub fn one(alloc: Global) -> Copies
        ensures { copies_view result ≡ spec.one_copy }
    {
        Copies {
            here: 1,
            around: Vec::new(alloc),
        }
    }
}

/// How often a piece is spelled out.
fn most_times(times: Option<Times>) -> u64
    ensures { result ≡ spec.most_times (times_given times) }
{
    let Some(times) = times else {
        return 1;
    };
    match times.most {
        Some(most) => u64::from(most),
        None => u64::from(times.least) + 2,
    }
}

fn piece_times(times: Option<Times>) -> Option<u32>
    ensures { result ≡ bounded (spec.most_times (times_given times)) }
{
    bounded(most_times(times))
}

fn times_as_often(times: Option<Times>, copies: u32) -> Option<u32>
    ensures { result ≡ spec.times_as_often (times_given times) copies }
{
    product(piece_times(times)?, copies)
}

fn is_deepest(around: &[u32]) -> bool
    ensures { result ≡ spec.is_deepest (around_view around.now) }
{
    around.len() >= DEEPEST
}

/// Into a group; none where it would stand too deep.
fn opened(copies: Copies) -> Result<Option<Copies>, AllocError>
    ensures { IfOk result (λ opened. option_map copies_view opened ≡ spec.opened (copies_view copies)) }
{
    let Copies { here, around } = copies;
    if is_deepest(&around) {
        return Ok(None);
    }
    let mut around = around;
    around.push(here)?;
    Ok(Some(Copies { here: 1, around }))
}

/// Out of the group at hand; none where there is none, or it would stand too often.
fn closed(copies: Copies, times: Option<Times>) -> Option<Copies>
    ensures { option_map copies_view result ≡ spec.closed (copies_view copies) (times_given times) }
{
    let Copies { here, around } = copies;
    let mut around = around;
    let Some(outer) = around.pop() else {
        return None;
    };
    let Some(inner) = times_as_often(times, here) else {
        return None;
    };
    Some(Copies {
        here: outer.max(inner),
        around,
    })
}

fn with_atom(copies: Copies, times: Option<Times>) -> Option<Copies>
    ensures { option_map copies_view result ≡ spec.with_atom (copies_view copies) (times_given times) }
{
    let Copies { here, around } = copies;
    let Some(often) = piece_times(times) else {
        return None;
    };
    Some(Copies {
        here: here.max(often),
        around,
    })
}

/// Behind a part; none where it can't stand there, or is repeated too often.
pub(crate) fn copies_step(
    copies: Copies,
    token: &Token,
    times: Option<Times>,
) -> Result<Option<Copies>, AllocError>
    ensures { IfOk result (λ step. option_map copies_view step
        ≡ spec.copies_step (copies_view copies) (token_view token.now, times_given times)) }
{
    match token {
        Token::OpenGroup => opened(copies),
        Token::CloseGroup => Ok(closed(copies, times)),
        Token::Bar => Ok(Some(copies)),
        Token::Atom(_) => Ok(with_atom(copies, times)),
    }
}

/// How often anything is repeated at most, where no group is open.
pub(crate) fn copies_ended(copies: Copies) -> Option<u32>
    ensures { result ≡ spec.copies_ended (copies_view copies) }
{
    let Copies { here, around } = copies;
    let mut around = around;
    match around.pop() {
        None => Some(here),
        Some(_) => None,
    }
}
