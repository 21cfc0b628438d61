//! Patterns put together of their parts, as trees of the engine (XML Schema, part 2, appendix F).

ghost use Rattle.std.specs.Prelude.{◌≡◌, ◌∷◌, IfOk, option_map, map};
ghost use Rattle.regex_class.specs.Ranges.{in_ranges};
ghost use Rattle.regex_hir.specs.Meaning.{meaning};
ghost use Rattle.regex_hir.specs.Re.{char_in};
ghost use Rattle.yspec_patterns.specs.Reading as spec;
ghost use Rattle.ytype_patterns.specs.Engine.{engine};
ghost use Rattle.ytype_patterns.specs.BuildingView.{around_of, closed_in, ended_in, level_of, level_view, pair_of, part_built, times_given};
ghost use Rattle.ytype_patterns.specs.PartView.{part_view};

use crate::quantities::{Part, Token};
use crate::times::Times;
use regex_class::Class;
use regex_hir::Hir;
use std::alloc::{AllocError, Global};

/// What has been read of a group: its branches, and the pieces of the branch at hand.
#[derive(Drop)]
pub struct Level {
    branches: Vec<Hir>,
    pieces: Vec<Hir>,
}

/// The group at hand, and those around it, the innermost last.
#[derive(Drop)]
pub struct Groups {
    level: Level,
    around: Vec<Level>,
}

impl Groups {
    ghost use Rattle.std.specs.Prelude.{◌≡◌, []};
    ghost use Rattle.yspec_patterns.specs.Reading as spec;
    ghost use Rattle.ytype_patterns.specs.BuildingView.{around_of, level_of};

    /// No group, and nothing read.
    pub fn new(alloc: Global) -> Groups
        ensures level { level_of result ≡ spec.no_level }
        ensures around { around_of result ≡ [] }
    {
        Groups {
            level: no_level(alloc),
            around: Vec::new(alloc),
        }
    }
}

fn no_level(alloc: Global) -> Level
    ensures { level_view result ≡ spec.no_level }
{
    Level {
        branches: Vec::new(alloc),
        pieces: Vec::new(alloc),
    }
}

fn with_branch(level: Level) -> Result<Vec<Hir>, AllocError>
    ensures { IfOk result (λ branches. map meaning branches.items ≡ spec.with_branch engine (level_view level)) }
{
    let Level { branches, pieces } = level;
    let mut branches = branches;
    branches.push(Hir::Concat(pieces))?;
    Ok(branches)
}

fn next_branch(alloc: Global, level: Level) -> Result<Level, AllocError>
    ensures { IfOk result (λ next. level_view next ≡ spec.next_branch engine (level_view level)) }
{
    Ok(Level {
        branches: with_branch(level)?,
        pieces: Vec::new(alloc),
    })
}

fn group(level: Level) -> Result<Hir, AllocError>
    ensures { IfOk result (λ tree. meaning tree ≡ spec.group engine (level_view level)) }
{
    Ok(Hir::Alternation(with_branch(level)?))
}

fn quantified(alloc: Global, tree: Hir, times: Option<Times>) -> Result<Hir, AllocError>
    ensures { IfOk result (λ quantified. meaning quantified ≡ spec.quantified engine (meaning tree) (times_given times)) }
{
    let Some(times) = times else {
        return Ok(tree);
    };
    Ok(Hir::Repetition {
        min: times.least,
        max: times.most,
        greedy: true,
        sub: Box::new(alloc, tree)?,
    })
}

fn with_piece(level: Level, tree: Hir) -> Result<Level, AllocError>
    ensures { IfOk result (λ with_it. level_view with_it ≡ spec.with_piece engine (level_view level) (meaning tree)) }
{
    let Level { branches, pieces } = level;
    let mut pieces = pieces;
    pieces.push(tree)?;
    Ok(Level { branches, pieces })
}

/// Into a group.
fn opened(alloc: Global, groups: Groups) -> Result<Groups, AllocError>
    ensures level { IfOk result (λ opened. level_of opened ≡ spec.no_level) }
    ensures around { IfOk result (λ opened. around_of opened ≡ level_of groups ∷ around_of groups) }
{
    let Groups { level, around } = groups;
    let mut around = around;
    around.push(level)?;
    Ok(Groups {
        level: no_level(alloc),
        around,
    })
}

/// Out of the group at hand, which is a piece of the one around it; none where there is no group around.
fn closed(alloc: Global, groups: Groups, times: Option<Times>) -> Result<Option<Groups>, AllocError>
    ensures { IfOk result (λ closed. option_map pair_of closed ≡ closed_in (level_of groups) (around_of groups) (times_given times)) }
{
    let Groups { level, around } = groups;
    let mut around = around;
    let Some(outer) = around.pop() else {
        return Ok(None);
    };
    let tree = quantified(alloc, group(level)?, times)?;
    Ok(Some(Groups {
        level: with_piece(outer, tree)?,
        around,
    }))
}

fn characters(class: Class) -> Hir
    ensures { meaning result ≡ char_in class.ranges.items }
{
    Hir::Chars(class)
}

/// With a set as a piece of the group at hand.
fn with_atom(
    alloc: Global,
    groups: Groups,
    class: Class,
    times: Option<Times>,
) -> Result<Groups, AllocError>
    ensures level { IfOk result (λ with_it. level_of with_it ≡ spec.with_piece engine (level_of groups)
        (spec.quantified engine (engine.single (in_ranges class.ranges.items)) (times_given times))) }
    ensures around { IfOk result (λ with_it. around_of with_it ≡ around_of groups) }
{
    let Groups { level, around } = groups;
    let tree = quantified(alloc, characters(class), times)?;
    Ok(Groups {
        level: with_piece(level, tree)?,
        around,
    })
}

/// Into the next branch of the group at hand.
fn behind_bar(alloc: Global, groups: Groups) -> Result<Groups, AllocError>
    ensures level { IfOk result (λ behind. level_of behind ≡ spec.next_branch engine (level_of groups)) }
    ensures around { IfOk result (λ behind. around_of behind ≡ around_of groups) }
{
    let Groups { level, around } = groups;
    Ok(Groups {
        level: next_branch(alloc, level)?,
        around,
    })
}

/// The groups behind a part; none where it can't stand there.
pub fn built_step(alloc: Global, groups: Groups, part: Part) -> Result<Option<Groups>, AllocError>
    ensures { IfOk result (λ step. option_map pair_of step ≡ part_built (part_view part) (level_of groups) (around_of groups)) }
{
    let Part { token, times } = part;
    match token {
        Token::OpenGroup => Ok(Some(opened(alloc, groups)?)),
        Token::CloseGroup => closed(alloc, groups, times),
        Token::Bar => Ok(Some(behind_bar(alloc, groups)?)),
        Token::Atom(class) => Ok(Some(with_atom(alloc, groups, class, times)?)),
    }
}

/// The tree of what was read, where no group is open.
pub fn built(groups: Groups) -> Result<Option<Hir>, AllocError>
    ensures { IfOk result (λ made. option_map meaning made ≡ ended_in (level_of groups) (around_of groups)) }
{
    let Groups { level, around } = groups;
    let mut around = around;
    match around.pop() {
        None => Ok(Some(group(level)?)),
        Some(_) => Ok(None),
    }
}
