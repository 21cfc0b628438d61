//! How many nodes stand from each on.

ghost use Rattle.std.specs.Prelude.{◌≡◌, ◌+◌, ◌<◌, ◌^◌, IfOk, drop, length, slice_set};
ghost use Rattle.ybase_preorder.specs.Layout.{laid};
ghost use Rattle.yschema_cut.specs.Totals.{at, holds_in, is_implied_in, one_more, standing_in, totals_by};

use std::alloc::{AllocError, Global};
use ybase_preorder::Slot;

/// What is told of a node.
#[derive(Clone, Copy, Debug)]
pub(crate) struct Fate {
    /// Whether its own conditions hold.
    pub holds: bool,
    /// Whether it is a case that isn't written (RFC 7950, 7.9.2).
    pub is_implied: bool,
}

/// The number at a place of a row; 0 behind its end.
pub(crate) fn number_at(numbers: &[u32], place: usize) -> u32
    ensures { result ≡ at numbers.now place }
{
    match numbers.get(place) {
        Some(number) => *number,
        None => 0,
    }
}

/// How many nodes stand from one on, given how many do from each behind it on.
fn total_before(later: &[u32], holds: bool, is_implied: bool, below: usize) -> u32
    requires room { at later.now 0 + 1 < 2 ^ 32 }
    ensures { result ≡ one_more holds is_implied below later.now }
{
    let inside = number_at(later, 0);
    let behind = number_at(later, below);
    if holds && !(is_implied && 0 < below && inside == behind) {
        inside + 1
    } else {
        behind
    }
}

/// How many nodes stand from the node behind those below that of a number on.
pub(crate) fn total_behind(totals: &[u32], number: usize, below: usize) -> u32
    ensures { result ≡ at totals.now (number + 1 + below) }
{
    let (_, later) = totals.split_at(number.saturating_add(1).min(totals.len()));
    number_at(later, below)
}

/// What is told of the node of a number; that it doesn't stand where nothing is.
fn fate_at(fates: &[Fate], number: usize) -> Fate
    ensures holds { result.holds ≡ holds_in (drop number fates.now) }
    ensures is_implied { result.is_implied ≡ is_implied_in (drop number fates.now) }
{
    match fates.get(number) {
        Some(fate) => *fate,
        None => Fate {
            holds: false,
            is_implied: false,
        },
    }
}

/// Tells how many nodes stand from that of a number on.
fn set_total(totals: &mut Vec<u32>, number: usize, below: usize, fate: Fate)
    requires within { number + 1 < length totals.old.items }
    requires room { at (drop (number + 1) totals.old.items) 0 + 1 < 2 ^ 32 }
    ensures { totals.new.items ≡ slice_set totals.old.items number
        (one_more fate.holds fate.is_implied below (drop (number + 1) totals.old.items)) }
{
    let (_, later) = totals.as_slice().split_at(number + 1);
    let total = total_before(later, fate.holds, fate.is_implied, below);
    totals[number] = total;
}

/// How many nodes stand from each of a table on, and from its end, by what is told of each. Each stands before those below it,
/// so the last is told first.
pub(crate) fn totals_of<L>(
    alloc: Global,
    slots: &[Slot<L>],
    fates: &[Fate],
) -> Result<Vec<u32>, AllocError>
    requires few { length slots.now < 2 ^ 32 }
    ensures { IfOk result (λ totals. totals.items ≡ totals_by fates.now (laid slots.now)) }
{
    let mut totals = vec![in alloc; 0; slots.len() + 1]?;
    for number in (0..slots.len()).rev() {
        set_total(
            &mut totals,
            number,
            slots[number].below,
            fate_at(fates, number),
        );
    }
    Ok(totals)
}

/// Of each node of a table, whether it stands where the one above it does.
pub(crate) fn standing_of<L>(
    alloc: Global,
    slots: &[Slot<L>],
    totals: &[u32],
) -> Result<Vec<bool>, AllocError>
    ensures { IfOk result (λ standing. standing.items ≡ standing_in totals.now 0 (laid slots.now)) }
{
    let mut standing = Vec::with_capacity(alloc, slots.len())?;
    for number in 0..slots.len() {
        let behind = total_behind(totals, number, slots[number].below);
        standing.push(number_at(totals, number) != behind)?;
    }
    Ok(standing)
}
