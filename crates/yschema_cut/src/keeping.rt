//! Tables without the nodes that don't stand.

ghost use Rattle.std.specs.Prelude.{◌≡◌, ◌++◌, ◌∷◌, [], ◌+◌, ◌-◌, ◌<◌, ◌^◌, List, IfOk, OnOk, option_map, vec_len};
ghost use Rattle.ybase_preorder.specs.Layout.{laid, place_of, Place};
ghost use Rattle.yschema_cut.specs.Totals.{at};
ghost use Rattle.yschema_cut.specs.Keeping.{kept_from, moved};

use crate::totals::{number_at, total_behind};
use std::alloc::{AllocError, Global};
use ybase_preorder::Slot;

/// The number that the node of a number has once the others are cut.
fn new_number(totals: &[u32], number: u32) -> u32
    ensures { result ≡ at totals.now 0 - at totals.now number }
{
    number_at(totals, 0).saturating_sub(number_at(totals, number as usize))
}

/// The same of the one above a node.
fn new_parent(totals: &[u32], parent: Option<u32>) -> Option<u32>
    ensures { result ≡ option_map (λ above. at totals.now 0 - at totals.now above) parent }
{
    match parent {
        Some(above) => Some(new_number(totals, above)),
        None => None,
    }
}

/// Puts a node where it comes to stand.
fn push_moved<L: Drop>(
    totals: &[u32],
    number: usize,
    slot: Slot<L>,
    made: &mut Vec<Slot<L>>,
) -> Result<(), AllocError>
    requires few { number + 1 < 2 ^ 32 }
    ensures { OnOk result (laid made.new.items
        ≡ laid made.old.items ++ moved totals.now number (place_of slot) ∷ []) }
{
    let inside = number_at(totals, number + 1);
    let behind = total_behind(totals, number, slot.below);
    made.push(Slot {
        parent: new_parent(totals, slot.parent),
        label: slot.label,
        below: inside.saturating_sub(behind) as usize,
    })?;
    Ok(())
}

/// Keeps a node where it stands, and answers how many behind it are cut with one above them.
fn keep_one<L: Drop>(
    totals: &[u32],
    number: usize,
    skipped: usize,
    slot: Slot<L>,
    made: &mut Vec<Slot<L>>,
) -> Result<usize, AllocError>
    requires few { number + 1 < 2 ^ 32 }
    ensures { IfOk result (λ left. (ps : List (Place L))
        → laid made.new.items ++ kept_from totals.now (number + 1) left ps
        ≡ laid made.old.items ++ kept_from totals.now number skipped (place_of slot ∷ ps)) }
{
    if 0 < skipped {
        return Ok(skipped - 1);
    }
    if number_at(totals, number) == total_behind(totals, number, slot.below) {
        return Ok(slot.below);
    }
    push_moved(totals, number, slot, made)?;
    Ok(0)
}

/// The slots of those that stand, given how many do from each on.
pub(crate) fn kept<L: Drop>(
    alloc: Global,
    slots: Vec<Slot<L>>,
    totals: &[u32],
) -> Result<Vec<Slot<L>>, AllocError>
    requires few { vec_len slots < 2 ^ 32 }
    ensures { IfOk result (λ made. laid made.items ≡ kept_from totals.now 0 0 (laid slots.items)) }
{
    let mut made = Vec::new(alloc);
    let mut number = 0;
    let mut skipped = 0;
    for slot in slots {
        skipped = keep_one(totals, number, skipped, slot, &mut made)?;
        number += 1;
    }
    Ok(made)
}
