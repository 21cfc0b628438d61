//! Which nodes have one right below them that must be stored (RFC 7950, 3).

ghost use Rattle.std.specs.Prelude.{◌≡◌, ◌&&◌, IfOk, get_or, slice_set, true};
ghost use Rattle.yspec.specs.Forest.{Forest};
ghost use Rattle.yspec.specs.linking.Planned as spec;
ghost use Rattle.ybase_preorder.specs.Layout.{Shows};
ghost use Rattle.ybase_preorder.specs.View.{slots_in};
ghost use Rattle.yschema_plan.specs.Needs as needs;
ghost use Rattle.yschema_plan.specs.PlannedView.{planned_view, planned_place};

use crate::planned::Planned;
use std::alloc::{AllocError, Global};
use ybase_preorder::{Slot, Table};

/// Of each node, by number, whether one right below it must be stored where it is itself, where it is told by number which
/// stand themselves; those of which nothing is told do. Each node stands before those below it, so the last is the first to tell
/// the one above it.
pub(crate) fn needs_below(
    alloc: Global,
    standing: &[bool],
    table: &Table<Planned<'_, '_>>,
) -> Result<Vec<bool>, AllocError>
    ensures { IfOk result (λ told. (nodes : Forest spec.Planned)
        → Shows planned_view (slots_in table.now) nodes
        → told.items ≡ needs.needs_below (needs.stands_in standing.now) nodes) }
{
    let rows = table.slots();
    let mut told = vec![in alloc; false; rows.len()]?;
    for number in (0..rows.len()).rev() {
        tell_above(standing, &mut told, number, &rows[number]);
    }
    Ok(told)
}

/// Whether the node of a number stands itself.
fn stands(standing: &[bool], number: usize) -> bool
    ensures { result ≡ get_or standing.now number true }
{
    standing.get(number).copied().unwrap_or(true)
}

/// Whether a node stands and must be stored where the one above it is, by what is told to it.
pub(crate) fn must_stand(
    standing: &[bool],
    told: &[bool],
    number: usize,
    planned: &Planned<'_, '_>,
) -> bool
    ensures { result ≡ needs.must_stand (needs.stands_in standing.now)
        (planned_view number planned.now) (needs.is_told told.now number) }
{
    stands(standing, number) && planned.must_be(is_told(told, number))
}

/// Whether it is told of the node of a number.
pub(crate) fn is_told(told: &[bool], number: usize) -> bool
    ensures { result ≡ needs.is_told told.now number }
{
    matches!(told.get(number), Some(true))
}

/// Tells the node above that of a number, if the latter must be stored.
fn tell_above(standing: &[bool], told: &mut Vec<bool>, number: usize, row: &Slot<Planned<'_, '_>>)
    ensures { told.new.items ≡ needs.one_told (needs.stands_in standing.now) number
        (planned_place number row.now) told.old.items }
{
    if !must_stand(standing, told, number, &row.label) {
        return;
    }
    if let Some(above) = row.parent {
        mark(told, above as usize);
    }
}

fn mark(told: &mut Vec<bool>, number: usize)
    ensures { told.new.items ≡ slice_set told.old.items number true }
{
    if let Some(mark) = told.get_mut(number) {
        *mark = true;
    }
}
