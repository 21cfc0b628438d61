//! Operations among the nodes of a plan, and those that stand where none may (RFC 7950, 7.15 and 7.16).

ghost use Rattle.std.specs.Prelude.{◌≡◌, ◌&&◌, ◌||◌, IfOk, get_or, false, map, not};
ghost use Rattle.std.specs.List.{flat_map};
ghost use Rattle.yspec.specs.schema.Breaks.{least_from};
ghost use Rattle.yspec.specs.linking.Planned.{is_data, nodes_of};
ghost use Rattle.yspec_wide.specs.Operations as spec;
ghost use Rattle.ylink_grammar.specs.BreakView.{seen};
ghost use Rattle.ylink_grammar.specs.LanguageView.{language_view};
ghost use Rattle.yschema_plan.specs.NodesView.{node_view};
ghost use Rattle.yschema_plan.specs.PlannedView.{planned_view};
ghost use Rattle.yschema_plan.specs.PlanView.{view};
ghost use Rattle.yschema_resolve.specs.Placing.{is_misplaced_by, place_breaks_by};
ghost use Rattle.yschema_resolve.specs.Standing.{is_told_of};

use crate::config::lacks_key;
use crate::guarding::guarded_of;
use crate::unfit_keys::node_above;
use std::alloc::{AllocError, Global};
use ylink_grammar::{BrokenRule, CompileCode, Language, least_when};
use yschema_plan::{Plan, PlanNode, Planned};

/// Whether none may stand below a node, however deep: below a part of an operation, and below a list without a key.
fn bars_operations(language: &Language, planned: &Planned<'_, '_>) -> bool
    ensures { (number : _) → result
        ≡ spec.bars_operations (language_view language.now) (planned_view number planned.now) }
{
    planned.is_operation_part(language) || lacks_key(planned)
}

/// Of each node whether operations may stand below it.
fn free_of(alloc: Global, language: &Language, plan: &Plan<'_, '_>) -> Result<Vec<bool>, AllocError>
    ensures { IfOk result (λ free. free.items
        ≡ map (λ p. not (spec.bars_operations (language_view language.now) p)) (nodes_of (view plan.now))) }
{
    let mut free = Vec::with_capacity(alloc, plan.nodes())?;
    for node in plan.iter() {
        free.push(!bars_operations(language, &node.planned))?;
    }
    Ok(free)
}

/// Of each node whether it is no operation.
fn others_of(
    alloc: Global,
    language: &Language,
    plan: &Plan<'_, '_>,
) -> Result<Vec<bool>, AllocError>
    ensures { IfOk result (λ others. others.items
        ≡ map (λ p. not (spec.is_operation_node (language_view language.now) p)) (nodes_of (view plan.now))) }
{
    let mut others = Vec::with_capacity(alloc, plan.nodes())?;
    for node in plan.iter() {
        others.push(!node.planned.is_operation(language))?;
    }
    Ok(others)
}

/// Of each node whether it is an operation or stands below one.
pub(crate) fn inside_of(
    alloc: Global,
    language: &Language,
    plan: &Plan<'_, '_>,
) -> Result<Vec<bool>, AllocError>
    ensures { let p = view plan.now in IfOk result (λ inside. inside.items
        ≡ map (spec.is_in_operation (language_view language.now) p) (nodes_of p)) }
{
    let others = others_of(alloc, language, plan)?;
    guarded_of(alloc, plan, others.as_slice())
}

/// Whether it is told of the node of a number.
pub(crate) fn is_told(told: &[bool], number: u32) -> bool
    ensures { result ≡ get_or told.now number false }
{
    told.get(number as usize).copied().unwrap_or(false)
}

/// Whether a node bars the operations right below it, where it is told of each node whether it bars those below it, however deep,
/// or one above it does.
fn is_barred_by(barred: &[bool], above: PlanNode<'_, '_>) -> bool
    ensures { let p = node_view above.entry in result ≡ (not (is_data p) || is_told_of barred.now p) }
{
    !above.planned.is_data() || is_told(barred, above.number)
}

/// Whether an operation stands where none may, where the same is told.
fn is_misplaced<'a, 't>(
    language: &Language,
    plan: &Plan<'a, 't>,
    barred: &[bool],
    planned: &Planned<'a, 't>,
) -> bool
    ensures { (number : _) → result ≡ is_misplaced_by (language_view language.now) barred.now (view plan.now)
        (planned_view number planned.now) }
{
    match node_above(plan, planned) {
        Some(above) => is_barred_by(barred, above),
        None => planned.is_action(language),
    }
}

/// Whether it is an operation that stands where none may, where the same is told.
fn is_wrong_place<'a, 't>(
    language: &Language,
    plan: &Plan<'a, 't>,
    barred: &[bool],
    node: PlanNode<'a, 't>,
) -> bool
    ensures { let l = language_view language.now in let p = node_view node.entry in
        result ≡ (spec.is_operation_node l p && is_misplaced_by l barred.now (view plan.now) p) }
{
    node.planned.is_operation(language) && is_misplaced(language, plan, barred, &node.planned)
}

/// The lesser of one so far and of what is told of a node, where the same is told.
fn least_place<'a, 't>(
    language: &Language,
    plan: &Plan<'a, 't>,
    barred: &[bool],
    node: PlanNode<'a, 't>,
    so_far: Option<BrokenRule>,
) -> Option<BrokenRule>
    ensures { seen result ≡ least_from (seen so_far)
        (place_breaks_by (language_view language.now) barred.now (view plan.now) (node_view node.entry)) }
{
    let found = node.planned.broken(CompileCode::C24);
    least_when(is_wrong_place(language, plan, barred, node), so_far, found)
}

/// The lesser of one so far and of what is told of each node, where the same is told.
fn least_of_places(
    language: &Language,
    plan: &Plan<'_, '_>,
    barred: &[bool],
    so_far: Option<BrokenRule>,
) -> Option<BrokenRule>
    ensures { let p = view plan.now in seen result ≡ least_from (seen so_far)
        (flat_map (place_breaks_by (language_view language.now) barred.now p) (nodes_of p)) }
{
    let mut told = so_far;
    for node in plan.iter() {
        told = least_place(language, plan, barred, node, told);
    }
    told
}

/// The lesser of one so far and of the actions and notifications that stand where none may: below a choice, a case, an operation or a
/// list without a key, and an action at the top.
pub fn broken_place_rule(
    alloc: Global,
    language: &Language,
    plan: &Plan<'_, '_>,
    so_far: Option<BrokenRule>,
) -> Result<Option<BrokenRule>, AllocError>
    ensures { let p = view plan.now in IfOk result (λ told. seen told ≡ least_from (seen so_far)
        (flat_map (spec.place_breaks (language_view language.now) p) (nodes_of p))) }
{
    let free = free_of(alloc, language, plan)?;
    let barred = guarded_of(alloc, plan, free.as_slice())?;
    Ok(least_of_places(language, plan, barred.as_slice(), so_far))
}
