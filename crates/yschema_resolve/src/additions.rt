//! Configuration that must be stored, added to nodes of other modules (RFC 7950, 7.17; RFC 6020, 7.15).

ghost use Rattle.std.specs.Prelude.{◌≡◌, IfOk, None, false, option_and_then};
ghost use Rattle.std.specs.List.{flat_map};
ghost use Rattle.std.specs.Option.{option_map_or};
ghost use Rattle.yspec.specs.schema.Breaks.{least_from};
ghost use Rattle.yspec.specs.linking.Planned.{node_of, nodes_of};
ghost use Rattle.yspec.specs.linking.NodeBreaks as breaks;
ghost use Rattle.yspec.specs.linking.Scopes.{statement_at};
ghost use Rattle.yspec_wide.specs.Additions.{addition_breaks_in};
ghost use Rattle.yspec_wide.specs.Guards as guards;
ghost use Rattle.yspec_wide.specs.Language as languages;
ghost use Rattle.yspec_wide.specs.Sources as sources;
ghost use Rattle.ylink_features.specs.VersionView.{AreVersionsOf};
ghost use Rattle.ylink_grammar.specs.LanguageView.{language_view};
ghost use Rattle.ylink_grammar.specs.BreakView.{seen};
ghost use Rattle.yschema_plan.specs.Needs.{needs_below, stands_in};
ghost use Rattle.yschema_plan.specs.NodesView.{node_view};
ghost use Rattle.yschema_plan.specs.PlannedView.{planned_view};
ghost use Rattle.yschema_plan.specs.PlanView.{view};
ghost use Rattle.yschema_resolve.specs.Standing as spec;

use crate::placing::{inside_of, is_told};
use std::alloc::{AllocError, Global};
use ylink_features::Versions;
use ylink_grammar::{BrokenRule, CompileCode, Language, broken, least_when};
use yschema_given::bears_when;
use yschema_plan::{Plan, PlanNode, Planned};

/// Whether it stands right below a node of another module.
fn is_foreign<'a, 't>(plan: &Plan<'a, 't>, planned: &Planned<'a, 't>) -> bool
    ensures { (number : _) → let p = planned_view number planned.now in
        result ≡ breaks.is_foreign p (option_and_then (node_of (view plan.now)) p.parent) }
{
    match planned.parent {
        Some(parent) => match plan.node(parent) {
            Some(above) => above.owner() != planned.owner(),
            None => false,
        },
        None => false,
    }
}

/// Whether it is configuration that stands itself and must be stored, right below a node of another module.
fn is_wrong_addition<'a, 't>(
    plan: &Plan<'a, 't>,
    standing: &[bool],
    needs: &[bool],
    node: PlanNode<'a, 't>,
) -> bool
    requires { needs.now ≡ needs_below (stands_in standing.now) (view plan.now).nodes }
    ensures { result
        ≡ spec.is_wrong_addition (stands_in standing.now) (view plan.now) (node_view node.entry) }
{
    is_foreign(plan, &node.planned)
        && (node.planned.config && plan.is_needed_standing(node, standing, needs))
}

/// Whether the statement of a number stands in a module of YANG 1.
fn is_of_yang_1(versions: &Versions, plan: &Plan<'_, '_>, number: u32) -> bool
    ensures { (l : languages.Language) → AreVersionsOf versions.now l (view plan.now).modules
        → result ≡ option_map_or (λ a. languages.is_yang_1 (languages.version_of l (view plan.now).modules a.source.home))
        (statement_at (view plan.now).modules number) false }
{
    match plan.sources().slots().get(number as usize) {
        Some(row) => versions.is_yang_1(row.label.home),
        None => false,
    }
}

/// Whether the statement of a number bears a `when`.
fn bears_when_at(language: &Language, plan: &Plan<'_, '_>, number: u32) -> bool
    ensures { result ≡ option_map_or (λ a. sources.bears_when (language_view language.now) a.below)
        (statement_at (view plan.now).modules number) false }
{
    bears_when(language, plan.sources().below(number))
}

/// Whether the `augment` of a number is let add what must be stored: it bears a `when`, in YANG 1.1.
fn is_let_add(language: &Language, versions: &Versions, plan: &Plan<'_, '_>, number: u32) -> bool
    requires { AreVersionsOf versions.now (language_view language.now) (view plan.now).modules }
    ensures { result ≡ guards.is_let_add (language_view language.now) (view plan.now) number }
{
    let is_first = is_of_yang_1(versions, plan, number);
    bears_when_at(language, plan, number) && !is_first
}

/// The lesser of one so far and of what is told of a node at the `augment` that adds it.
fn least_addition<'a, 't>(
    plan: &Plan<'a, 't>,
    standing: &[bool],
    needs: &[bool],
    node: PlanNode<'a, 't>,
    so_far: Option<BrokenRule>,
) -> Option<BrokenRule>
    requires { needs.now ≡ needs_below (stands_in standing.now) (view plan.now).nodes }
    ensures { seen result ≡ least_from (seen so_far)
        (spec.addition_breaks_by (stands_in standing.now) (view plan.now) (node_view node.entry)) }
{
    let Some(number) = node.planned.added_by() else {
        return so_far;
    };
    match plan.sources().slots().get(number as usize) {
        Some(row) => {
            let source = &row.label;
            let found = broken(CompileCode::C15, source.home, source.statement);
            least_when(
                is_wrong_addition(plan, standing, needs, node),
                so_far,
                found,
            )
        }
        None => so_far,
    }
}

/// Whether an `augment` adds a node that is let add what must be stored.
fn is_let(
    language: &Language,
    versions: &Versions,
    plan: &Plan<'_, '_>,
    planned: &Planned<'_, '_>,
) -> bool
    requires { AreVersionsOf versions.now (language_view language.now) (view plan.now).modules }
    ensures { (number : _) → result ≡ option_map_or (guards.is_let_add (language_view language.now) (view plan.now))
        (planned_view number planned.now).part.added_by false }
{
    match planned.added_by() {
        Some(number) => is_let_add(language, versions, plan, number),
        None => false,
    }
}

/// The lesser of one so far and of what is told of a node at the `augment` that adds it, unless that is let add it.
fn least_unless_let<'a, 't>(
    language: &Language,
    versions: &Versions,
    plan: &Plan<'a, 't>,
    standing: &[bool],
    needs: &[bool],
    node: PlanNode<'a, 't>,
    so_far: Option<BrokenRule>,
) -> Option<BrokenRule>
    requires needs { needs.now ≡ needs_below (stands_in standing.now) (view plan.now).nodes }
    requires versions { AreVersionsOf versions.now (language_view language.now) (view plan.now).modules }
    ensures { seen result ≡ least_from (seen so_far) (spec.addition_breaks_unless_let
        (language_view language.now) (stands_in standing.now) (view plan.now) (node_view node.entry)) }
{
    if !is_wrong_addition(plan, standing, needs, node) {
        return so_far;
    }
    if is_let(language, versions, plan, &node.planned) {
        so_far
    } else {
        least_addition(plan, standing, needs, node, so_far)
    }
}

/// The same, unless the node is in an operation, as it is told of each.
fn least_outside<'a, 't>(
    language: &Language,
    versions: &Versions,
    plan: &Plan<'a, 't>,
    standing: &[bool],
    needs: &[bool],
    inside: &[bool],
    node: PlanNode<'a, 't>,
    so_far: Option<BrokenRule>,
) -> Option<BrokenRule>
    requires needs { needs.now ≡ needs_below (stands_in standing.now) (view plan.now).nodes }
    requires versions { AreVersionsOf versions.now (language_view language.now) (view plan.now).modules }
    ensures { seen result ≡ least_from (seen so_far) (spec.addition_breaks_outside
        (language_view language.now) (stands_in standing.now) inside.now (view plan.now) (node_view node.entry)) }
{
    if is_told(inside, node.number) {
        so_far
    } else {
        least_unless_let(language, versions, plan, standing, needs, node, so_far)
    }
}

/// The least of all that are told, where it is told of each node whether one right below it must be stored, and whether it is in
/// an operation.
fn least_of_all(
    language: &Language,
    versions: &Versions,
    plan: &Plan<'_, '_>,
    standing: &[bool],
    needs: &[bool],
    inside: &[bool],
) -> Option<BrokenRule>
    requires needs { needs.now ≡ needs_below (stands_in standing.now) (view plan.now).nodes }
    requires versions { AreVersionsOf versions.now (language_view language.now) (view plan.now).modules }
    ensures { let p = view plan.now in seen result ≡ least_from None
        (flat_map (spec.addition_breaks_outside (language_view language.now) (stands_in standing.now) inside.now p) (nodes_of p)) }
{
    let mut told = None;
    for node in plan.iter() {
        told = least_outside(
            language, versions, plan, standing, needs, inside, node, told,
        );
    }
    told
}

/// The least of the configuration that must be stored, added to nodes of other modules, of all that a set of modules defines:
/// whether what it is added to stands or not. It is told by number which nodes stand themselves; those of which nothing is told
/// do. An `augment` with a `when` may add such in YANG 1.1, and an operation holds no configuration.
pub fn broken_addition_rule(
    alloc: Global,
    language: &Language,
    versions: &Versions,
    plan: &Plan<'_, '_>,
    standing: &[bool],
) -> Result<Option<BrokenRule>, AllocError>
    requires { AreVersionsOf versions.now (language_view language.now) (view plan.now).modules }
    ensures { let l = language_view language.now in let p = view plan.now in spec.TellsStanding standing.now l p
        → IfOk result (λ told. seen told
        ≡ least_from None (flat_map (addition_breaks_in l p) (nodes_of p))) }
{
    let needs = plan.needs_standing(alloc, standing)?;
    let inside = inside_of(alloc, language, plan)?;
    Ok(least_of_all(
        language,
        versions,
        plan,
        standing,
        needs.as_slice(),
        inside.as_slice(),
    ))
}
