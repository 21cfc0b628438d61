//! What became wrong, and what right.

ghost use Rattle.std.specs.Prelude.{◌≡◌, ◌∷◌, IfOk, OnOk};
ghost use Rattle.yspec_session.specs.Carrying as spec;
ghost use Rattle.ycheck.specs.View.{view, views};
ghost use Rattle.yapp_difference.specs.Turning.{difference_view, turn_views};
ghost use Rattle.yapp_difference.specs.Counting.{all_of, among, taken_of, with_gone_unless, without};

use crate::carrying::key_behind;
use crate::counts::Counts;
use crate::key::key_of;
use crate::row_turns::Turn;
use std::alloc::{AllocError, Global};
use ycheck::Fault;

/// What came of faults: those of a later list that aren't among them, and those of them that aren't in it, in order.
#[derive(Debug, Drop)]
pub struct Difference {
    pub told: Vec<Fault>,
    pub gone: Vec<Fault>,
}

/// What came of the faults of a document behind turns of positions. A fault is the same where it is told of the same node with
/// the same code and info.
pub fn difference_of(
    alloc: Global,
    turns: &[Turn],
    earlier: Vec<Fault>,
    later: Vec<Fault>,
) -> Result<Difference, AllocError>
    ensures { IfOk result (λ made. difference_view made
        ≡ spec.difference (turn_views turns.now) (views earlier.items) (views later.items)) }
{
    let mut counts = counts_of(alloc, &later)?;
    let gone = take_same(alloc, turns, earlier, &mut counts)?;
    let told = without_taken(alloc, later, &mut counts)?;
    Ok(Difference { told, gone })
}

/// How many faults there are of each key.
fn counts_of(alloc: Global, faults: &[Fault]) -> Result<Counts, AllocError>
    ensures all { IfOk result (λ counts. (k : _) → all_of counts k ≡ among (views faults.now) k) }
    ensures taken { IfOk result (λ counts. (k : _) → taken_of counts k ≡ 0) }
{
    let mut counts = Counts::with_capacity(alloc, faults.len())?;
    for fault in faults {
        counts.add(key_of(alloc, fault)?)?;
    }
    Ok(counts)
}

/// Takes one of its key for each of some faults behind turns. Answers those for which none is left, and those whose nodes are gone.
fn take_same(
    alloc: Global,
    turns: &[Turn],
    faults: Vec<Fault>,
    counts: &mut Counts,
) -> Result<Vec<Fault>, AllocError>
    ensures { IfOk result (λ gone. (later : _) → ((k : _) → all_of counts.old k ≡ among later k)
        → spec.difference (turn_views turns.now) (views faults.items) (without (taken_of counts.old) later)
        ≡ record { told = without (taken_of counts.new) later; gone = views gone.items }) }
{
    let mut gone = Vec::new(alloc);
    for fault in faults {
        if take_one(alloc, turns, &fault, counts)? {
            continue;
        }
        gone.push(fault)?;
    }
    Ok(gone)
}

/// Takes one of the key of a fault behind turns. Answers whether its node stays and one was left.
fn take_one(
    alloc: Global,
    turns: &[Turn],
    fault: &Fault,
    counts: &mut Counts,
) -> Result<bool, AllocError>
    ensures all { OnOk result ((k : _) → all_of counts.new k ≡ all_of counts.old k) }
    ensures taken { let t = turn_views turns.now in let f = view fault.now in
        IfOk result (λ was. (fs : _) (later : _) → ((k : _) → all_of counts.old k ≡ among later k)
        → spec.difference t (f ∷ fs) (without (taken_of counts.old) later)
        ≡ with_gone_unless was f (spec.difference t fs (without (taken_of counts.new) later))) }
{
    match key_behind(alloc, turns, fault)? {
        Some(key) => counts.take(key),
        None => Ok(false),
    }
}

/// The faults without those that are taken, which are the first of their keys.
fn without_taken(
    alloc: Global,
    faults: Vec<Fault>,
    counts: &mut Counts,
) -> Result<Vec<Fault>, AllocError>
    ensures { IfOk result (λ left. views left.items ≡ without (taken_of counts.old) (views faults.items)) }
{
    let mut left = Vec::new(alloc);
    for fault in faults {
        if counts.give(key_of(alloc, &fault)?)? {
            continue;
        }
        left.push(fault)?;
    }
    Ok(left)
}
