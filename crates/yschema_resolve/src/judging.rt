//! The rules that planned nodes break by what they state and refer to.

ghost use Rattle.std.specs.Prelude.{◌≡◌, Some, IfOk, slice_get};
ghost use Rattle.std.specs.List.{flat_map};
ghost use Rattle.yspec.specs.schema.Breaks.{least_from};
ghost use Rattle.yspec.specs.linking.Planned as spec;
ghost use Rattle.yspec_wide.specs.Compiling.{own_breaks_in};
ghost use Rattle.ylink_grammar.specs.BreakView.{seen};
ghost use Rattle.ylink_grammar.specs.LanguageView.{language_view};
ghost use Rattle.yschema_plan.specs.NodesView.{node_view};
ghost use Rattle.yschema_plan.specs.PlanView.{view};
ghost use Rattle.yschema_resolve.specs.ResolvedView.{IsOf};

use crate::config::is_wrong_config;
use crate::defaults::has_wrong_default;
use crate::references::is_wrong_reference;
use crate::resolved::Resolved;
use crate::tuples::has_wrong_tuples;
use crate::unfit_keys::least_key;
use crate::widths::is_too_wide;
use std::alloc::{AllocError, Global};
use ylink_grammar::{BrokenRule, CompileCode, Language, least_when};
use yschema_plan::{Plan, PlanNode};

/// The lesser of one so far and of the rules that a node breaks.
fn broken_own_rule<'a, 't>(
    alloc: Global,
    language: &Language,
    plan: &Plan<'a, 't>,
    resolved: &Resolved<'_, 't>,
    node: PlanNode<'a, 't>,
    so_far: Option<BrokenRule>,
) -> Result<Option<BrokenRule>, AllocError>
    requires of_plan { IsOf resolved.now (language_view language.now) (view plan.now) }
    requires stands { slice_get (spec.nodes_of (view plan.now)) node.number
        ≡ Some (node_view node) }
    ensures { IfOk result (λ told. seen told ≡ least_from (seen so_far)
        (own_breaks_in (language_view language.now) (view plan.now) (node_view node.entry))) }
{
    let planned = &node.planned;
    let config = is_wrong_config(plan, planned);
    let told = least_when(config, so_far, planned.broken(CompileCode::C16));
    let tuples = has_wrong_tuples(alloc, plan, node)?;
    let told = least_when(tuples, told, planned.broken(CompileCode::C12));
    let keyed = least_key(alloc, language, plan, resolved, node, told)?;
    let reference = is_wrong_reference(plan, &resolved.types, node);
    let told = least_when(reference, keyed, planned.broken(CompileCode::C17));
    let wide = is_too_wide(language, &resolved.types, node);
    let told = least_when(wide, told, planned.broken(CompileCode::C18));
    let (is_key, value_type) = (
        resolved.is_key(node.number),
        resolved.value_type(node.number),
    );
    let default = has_wrong_default(alloc, plan, resolved, node, is_key, value_type)?;
    let told = least_when(default, told, planned.broken(CompileCode::C11));
    Ok(told)
}

/// The lesser of one so far and of the rules of defaults, keys, config, references and unions with leafrefs that nodes break in a
/// language, by module, line and number.
pub fn broken_node_rule<'t>(
    alloc: Global,
    language: &Language,
    plan: &Plan<'_, 't>,
    resolved: &Resolved<'_, 't>,
    so_far: Option<BrokenRule>,
) -> Result<Option<BrokenRule>, AllocError>
    requires { IsOf resolved.now (language_view language.now) (view plan.now) }
    ensures { let p = view plan.now in IfOk result (λ told. seen told ≡ least_from (seen so_far)
        (flat_map (own_breaks_in (language_view language.now) p) (spec.nodes_of p))) }
{
    let mut told = so_far;
    for node in plan.iter() {
        told = broken_own_rule(alloc, language, plan, resolved, node, told)?;
    }
    Ok(told)
}
