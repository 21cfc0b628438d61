//! Which nodes pass a test, as that they bear a `when` (RFC 7950, 7.21.5), or stand below one that does.

ghost use Rattle.std.specs.Prelude.{◌≡◌, IfOk, get_or, map, true};
ghost use Rattle.yspec.specs.linking.Planned.{nodes_of};
ghost use Rattle.yschema_plan.specs.NodesView.{node_view};
ghost use Rattle.yschema_plan.specs.PlanView.{view};
ghost use Rattle.yschema_resolve.specs.Guarding.{hangs_by, is_guarded_by};

use crate::unfit_keys::node_above;
use std::alloc::{AllocError, Global};
use yschema_plan::{Plan, PlanNode};

/// Whether the node of a number doesn't pass itself; one of which nothing is told doesn't.
fn is_unguarded(unguarded: &[bool], number: usize) -> bool
    ensures { result ≡ get_or unguarded.now number true }
{
    unguarded.get(number).copied().unwrap_or(true)
}

/// Whether one of so many nodes on the way up from a node, itself among them, passes.
fn is_guarded_within<'a, 't>(
    plan: &Plan<'a, 't>,
    unguarded: &[bool],
    steps: usize,
    node: PlanNode<'a, 't>,
) -> bool
    ensures { result ≡ is_guarded_by unguarded.now (view plan.now) steps (node_view node.entry) }
{
    if steps == 0 {
        return false;
    }
    if !is_unguarded(unguarded, node.number as usize) {
        return true;
    }
    match node_above(plan, &node.planned) {
        Some(above) => is_guarded_within(plan, unguarded, steps - 1, above),
        None => false,
    }
}

/// Of each node of a plan whether it passes or stands below one that does, where it is told by number which don't themselves.
pub(crate) fn guarded_of(
    alloc: Global,
    plan: &Plan<'_, '_>,
    unguarded: &[bool],
) -> Result<Vec<bool>, AllocError>
    ensures { IfOk result (λ guarded. guarded.items
        ≡ map (hangs_by unguarded.now (view plan.now)) (nodes_of (view plan.now))) }
{
    let steps = plan.nodes();
    let mut guarded = Vec::with_capacity(alloc, steps)?;
    for node in plan.iter() {
        guarded.push(is_guarded_within(plan, unguarded, steps, node))?;
    }
    Ok(guarded)
}
