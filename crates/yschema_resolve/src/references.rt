//! Leafrefs that lead nowhere, in a circle, or from configuration to state, those among the members of unions too (RFC 7950, 9.9 and
//! 9.12).

ghost use Rattle.std.specs.Prelude.{◌≡◌, ◌&&◌, Some, false, map, option_map, slice_get};
ghost use Rattle.std.specs.List.{list_any};
ghost use Rattle.std.specs.Option.{option_map_or};
ghost use Rattle.yspec.specs.linking.Planned as spec;
ghost use Rattle.yspec.specs.linking.NodeBreaks as breaks;
ghost use Rattle.ylink.specs.TypeView.{meant_view, member_view};
ghost use Rattle.yschema_plan.specs.NodesView.{node_view};
ghost use Rattle.yschema_plan.specs.PlannedView.{planned_view};
ghost use Rattle.yschema_plan.specs.PlanView.{view};
ghost use Rattle.yschema_types.specs.TypesView.{AreOf};

use ylink::{Meant, Member};
use yschema_plan::{Plan, PlanNode, Planned};
use yschema_types::{Types, meant_at, path_target, target_meant};

/// Whether the target of a leafref isn't there, or is state where configuration requires an instance of it.
fn is_wrong_target(
    planned: &Planned<'_, '_>,
    required: bool,
    target: Option<PlanNode<'_, '_>>,
) -> bool
    ensures { (number : _) → result ≡ breaks.is_wrong_target
        (planned_view number planned.now) required (option_map node_view target.entry) }
{
    match target {
        Some(target) => planned.config && required && !target.planned.config,
        None => true,
    }
}

/// Whether a member of a union is a leafref that is wrong.
fn is_wrong_member<'a, 't>(plan: &Plan<'a, 't>, node: PlanNode<'a, 't>, member: &Member<'_>) -> bool
    ensures { result ≡ breaks.is_wrong_member (view plan.now) (node_view node.entry)
        (member_view member.now) }
{
    match member {
        Member::Own(_) => false,
        Member::Leafref {
            home,
            steps,
            required,
        } => {
            let target = path_target(plan, node.planned.owner(), *home, steps.as_slice());
            is_wrong_target(&node.planned, *required, target)
        }
    }
}

fn has_wrong_member<'a, 't>(
    plan: &Plan<'a, 't>,
    node: PlanNode<'a, 't>,
    members: &[Member<'_>],
) -> bool
    ensures { result ≡ list_any (breaks.is_wrong_member (view plan.now) (node_view node.entry))
        (map member_view members.now) }
{
    for member in members {
        if is_wrong_member(plan, node, member) {
            return true;
        }
    }
    false
}

/// Whether what the type of a node means is a wrong reference, given whether references lead back to the node.
fn is_wrong_meant<'a, 't>(
    plan: &Plan<'a, 't>,
    node: PlanNode<'a, 't>,
    meant: &Meant<'_>,
    on_circle: bool,
) -> bool
    ensures { let p = node_view node.entry in on_circle ≡ spec.is_on_circle (view plan.now) p
        → result ≡ breaks.is_wrong_reference (view plan.now) p (meant_view meant.now) }
{
    match meant {
        Meant::Own(_) => false,
        Meant::OfTarget { required, .. } => {
            let target = target_meant(plan, node.planned.owner(), meant);
            is_wrong_target(&node.planned, *required, target) || on_circle
        }
        Meant::OfUnion(members) => has_wrong_member(plan, node, members.as_slice()) || on_circle,
    }
}

/// Whether the type that a node states is a wrong reference.
fn is_wrong_stated<'a, 't>(
    plan: &Plan<'a, 't>,
    types: &Types<'_, '_>,
    node: PlanNode<'a, 't>,
) -> bool
    requires typed { AreOf types.now (view plan.now) }
    requires stands { slice_get (spec.nodes_of (view plan.now)) node.number
        ≡ Some (node_view node) }
    ensures { let p = node_view node.entry in result
        ≡ option_map_or (breaks.is_wrong_reference (view plan.now) p)
        (spec.meant_in (view plan.now) p) false }
{
    match meant_at(types.meant.as_slice(), node.number as usize) {
        Some(meant) => {
            let on_circle = types.is_on_circle(node.number);
            is_wrong_meant(plan, node, meant, on_circle)
        }
        None => false,
    }
}

/// Whether a leaf or leaf-list is a wrong reference.
pub(crate) fn is_wrong_reference<'a, 't>(
    plan: &Plan<'a, 't>,
    types: &Types<'_, '_>,
    node: PlanNode<'a, 't>,
) -> bool
    requires typed { AreOf types.now (view plan.now) }
    requires stands { slice_get (spec.nodes_of (view plan.now)) node.number
        ≡ Some (node_view node) }
    ensures { let p = node_view node.entry in result ≡ (spec.is_leaf_or_leaf_list p
        && option_map_or (breaks.is_wrong_reference (view plan.now) p)
        (spec.meant_in (view plan.now) p) false) }
{
    if node.planned.is_leaf_or_leaf_list() {
        is_wrong_stated(plan, types, node)
    } else {
        false
    }
}
