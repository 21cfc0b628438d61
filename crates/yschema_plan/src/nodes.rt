//! The nodes of a plan, one after another.

ghost use Rattle.std.specs.Prelude.{◌≤◌, vec_len};

use crate::plan::Plan;
use crate::planned::Planned;

/// A planned node with its number.
#[derive(Clone, Copy)]
pub struct PlanNode<'a, 't> {
    pub number: u32,
    pub planned: Planned<'a, 't>,
}

/// The nodes of a plan, in order of definition.
#[derive(Drop)]
pub struct PlanNodes<'p, 'a, 't> {
    plan: &'p Plan<'a, 't>,
    // The number of the first of those that are left.
    number: u32,
    ghost numbered: { number ≤ vec_len plan.now.table.slots },
}

impl<'p, 'a, 't> PlanNodes<'p, 'a, 't> {
    ghost use Rattle.std.specs.Prelude.{◌≡◌};
    ghost use Rattle.yspec.specs.linking.Planned.{nodes_of};
    ghost use Rattle.yschema_plan.specs.PlanView.{view};
    ghost use Rattle.yschema_plan.specs.NodesView.{left};

    /// All nodes of a plan.
    pub(crate) fn new(plan: &'p Plan<'a, 't>) -> PlanNodes<'p, 'a, 't>
        ensures { left result ≡ nodes_of (view plan.entry.now) }
    {
        PlanNodes { plan, number: 0 }
    }
}

impl<'p, 'a, 't> Iterator for PlanNodes<'p, 'a, 't> {
    type Item = PlanNode<'a, 't>;

    ghost use Rattle.std.specs.Prelude.{◌-◌, vec_len};
    ghost use Rattle.std.specs.Iterator.{at_most};
    ghost use Rattle.yschema_plan.specs.NodesView.{TakesNode};

    ghost next_gives = { TakesNode };

    ghost remaining = { λ c. at_most (vec_len c.plan.now.table.slots - c.number) };

    fn next(&mut self) -> Option<PlanNode<'a, 't>> {
        let node = self.plan.at(self.number)?;
        self.number += 1;
        Some(node)
    }
}
