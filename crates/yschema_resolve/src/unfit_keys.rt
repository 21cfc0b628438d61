//! Keys that bear conditions or a `when` (RFC 7950, 7.8.2), and keys of YANG 1 without a value (RFC 7950, 12; RFC 6020, 7.8.2).

ghost use Rattle.std.specs.Prelude.{◌≡◌, ◌&&◌, [], Some, false, IfOk, option_and_then, option_map, slice_get};
ghost use Rattle.std.specs.Option.{option_map_or};
ghost use Rattle.yspec.specs.schema.Breaks.{least_from, when};
ghost use Rattle.yspec.specs.linking.Keyword.{leaf_word};
ghost use Rattle.yspec.specs.linking.Planned as plans;
ghost use Rattle.yspec.specs.linking.Planned.{is_a, meant_in, node_of, nodes_of};
ghost use Rattle.yspec.specs.linking.NodeBreaks.{broken_at};
ghost use Rattle.yspec.specs.linking.SchemaNodes.{is_key};
ghost use Rattle.yspec_wide.specs.VersionBreaks as spec;
ghost use Rattle.ylink_grammar.specs.BreakView.{seen};
ghost use Rattle.ylink_grammar.specs.LanguageView.{language_view};
ghost use Rattle.yschema_plan.specs.NodesView.{node_view};
ghost use Rattle.yschema_plan.specs.PlannedView.{planned_view};
ghost use Rattle.yschema_plan.specs.PlanView.{view};
ghost use Rattle.yschema_resolve.specs.ResolvedView.{IsOf};
ghost use Rattle.yschema_types.specs.TypesView.{AreOf};
ghost use Rattle.yschema_resolve.specs.UnfitKeys.{unfit_by};

use crate::resolved::Resolved;
use std::alloc::{AllocError, Global};
use ybase_words::Keyword;
use ylink::means_empty;
use ylink_grammar::{BrokenRule, CompileCode, Language, least_when};
use yschema_given::bears_guard;
use yschema_plan::{Plan, PlanNode, Planned};
use yschema_types::{Types, meant_at};

/// Whether the statement of a node bears a condition or a `when` itself.
fn bears_itself(language: &Language, plan: &Plan<'_, '_>, planned: &Planned<'_, '_>) -> bool
    ensures { (number : _) → result ≡ spec.bears_itself
        (language_view language.now) (view plan.now) (planned_view number planned.now) }
{
    bears_guard(language, plan.sources().below(planned.statement_number()))
}

/// Whether the type of the node of a number is `empty`.
fn is_empty_at(alloc: Global, types: &Types<'_, '_>, number: u32) -> Result<bool, AllocError>
    ensures { (plan : plans.Plan) (p : plans.Planned) → AreOf types.now plan
        → slice_get (nodes_of plan) number ≡ Some p
        → IfOk result (λ empty. empty ≡ option_map_or spec.is_empty_meant (meant_in plan p) false) }
{
    match meant_at(types.meant.as_slice(), number as usize) {
        Some(meant) => means_empty(alloc, meant),
        None => Ok(false),
    }
}

/// Whether a key is unfit: in YANG 1 one that is `empty`, and else one that bears a condition or a `when` itself.
fn is_unfit(
    alloc: Global,
    language: &Language,
    plan: &Plan<'_, '_>,
    resolved: &Resolved<'_, '_>,
    node: PlanNode<'_, '_>,
) -> Result<bool, AllocError>
    requires of_plan { IsOf resolved.now (language_view language.now) (view plan.now) }
    requires stands { slice_get (nodes_of (view plan.now)) node.number ≡ Some (node_view node) }
    ensures { IfOk result (λ unfit. unfit
        ≡ unfit_by (language_view language.now) (view plan.now) (node_view node.entry)) }
{
    if resolved.versions.is_yang_1(node.planned.home()) {
        is_empty_at(alloc, &resolved.types, node.number)
    } else {
        Ok(bears_itself(language, plan, &node.planned))
    }
}

/// Whether it is a leaf that is a key.
fn is_key_leaf(
    language: &Language,
    plan: &Plan<'_, '_>,
    resolved: &Resolved<'_, '_>,
    node: PlanNode<'_, '_>,
) -> bool
    requires of_plan { IsOf resolved.now (language_view language.now) (view plan.now) }
    requires stands { slice_get (nodes_of (view plan.now)) node.number ≡ Some (node_view node) }
    ensures { let p = node_view node.entry in result ≡ (is_a leaf_word p && is_key (view plan.now) p) }
{
    Keyword::Leaf.is(node.planned.keyword()) && resolved.is_key(node.number)
}

/// Whether it is a leaf that is an unfit key.
fn is_unfit_key(
    alloc: Global,
    language: &Language,
    plan: &Plan<'_, '_>,
    resolved: &Resolved<'_, '_>,
    node: PlanNode<'_, '_>,
) -> Result<bool, AllocError>
    requires of_plan { IsOf resolved.now (language_view language.now) (view plan.now) }
    requires stands { slice_get (nodes_of (view plan.now)) node.number ≡ Some (node_view node) }
    ensures { let p = node_view node.entry in IfOk result (λ unfit. unfit
        ≡ (is_a leaf_word p && spec.is_unfit_key (language_view language.now) (view plan.now) p)) }
{
    if is_key_leaf(language, plan, resolved, node) {
        is_unfit(alloc, language, plan, resolved, node)
    } else {
        Ok(false)
    }
}

/// The node above one.
pub(crate) fn node_above<'a, 't>(
    plan: &Plan<'a, 't>,
    planned: &Planned<'_, '_>,
) -> Option<PlanNode<'a, 't>>
    ensures { (number : _) → option_map node_view result
        ≡ option_and_then (node_of (view plan.now)) (planned_view number planned.now).parent }
{
    match planned.parent {
        Some(parent) => plan.at(parent),
        None => None,
    }
}

/// The lesser of one so far and of C12, told at the list above a key, if that is unfit.
fn least_above(
    plan: &Plan<'_, '_>,
    planned: &Planned<'_, '_>,
    unfit: bool,
    so_far: Option<BrokenRule>,
) -> Option<BrokenRule>
    ensures { (number : _) → seen result ≡ least_from (seen so_far) (when unfit (option_map_or (broken_at 12)
        (option_and_then (node_of (view plan.now)) (planned_view number planned.now).parent) [])) }
{
    match node_above(plan, planned) {
        Some(list) => least_when(unfit, so_far, list.planned.broken(CompileCode::C12)),
        None => so_far,
    }
}

/// The lesser of one so far and of what is told of an unfit key, at its list.
pub(crate) fn least_key(
    alloc: Global,
    language: &Language,
    plan: &Plan<'_, '_>,
    resolved: &Resolved<'_, '_>,
    node: PlanNode<'_, '_>,
    so_far: Option<BrokenRule>,
) -> Result<Option<BrokenRule>, AllocError>
    requires of_plan { IsOf resolved.now (language_view language.now) (view plan.now) }
    requires stands { slice_get (nodes_of (view plan.now)) node.number ≡ Some (node_view node) }
    ensures { IfOk result (λ told. seen told ≡ least_from (seen so_far)
        (spec.key_break (language_view language.now) (view plan.now) (node_view node.entry))) }
{
    let unfit = is_unfit_key(alloc, language, plan, resolved, node)?;
    Ok(least_above(plan, &node.planned, unfit, so_far))
}
