//! From modules to their schema.

ghost use Rattle.std.specs.Prelude.{◌≡◌, ◌≤◌, [], true, Ok, Some, None, IfOk, nat_lt, map};
ghost use Rattle.std.specs.List.{list_any};
ghost use Rattle.yspec.specs.Forest.{levels};
ghost use Rattle.yspec.specs.Results.{Gives};
ghost use Rattle.yspec.specs.document.Fitting.{LeafsAreBare};
ghost use Rattle.yspec.specs.document.Writing.{NamesDiffer};
ghost use Rattle.yspec.specs.schema.Breaks.{first_broken, least_from, level_limit, limit_breaks, node_limit};
ghost use Rattle.yspec.specs.linking.Augments.{augments_of};
ghost use Rattle.yspec.specs.linking.Compiling as spec;
ghost use Rattle.yspec.specs.linking.Compiling.{compiled};
ghost use Rattle.yspec.specs.linking.Planned as planned;
ghost use Rattle.yspec.specs.linking.Planned.{nodes_of};
ghost use Rattle.yspec_fit.specs.Fit.{IsFit};
ghost use Rattle.yspec_wide.specs.Compiling.{compiled_in, is_too_deep_in, linked_in, linking_phases_in, plan_in, schema_of_plan_in, whole_plan};
ghost use Rattle.yspec_wide.specs.Expansion.{augmented_in};
ghost use Rattle.yspec_wide.specs.Language.{core};
ghost use Rattle.yspec_wide.specs.NodeCounts.{node_count_in};
ghost use Rattle.yspec_wide.specs.Sources as wide_words;
ghost use Rattle.yspec_wide.specs.Sources.{sources_in};
ghost use Rattle.yspec_wide.specs.Standing.{standing};
ghost use Rattle.yschema.specs.Added.{HoldsThose};
ghost use Rattle.yschema.specs.Phases.{all_addition_breaks, expansion_part, plan_part, rule_part, Judges};
ghost use Rattle.ytext.specs.View.{modules_view};
ghost use Rattle.ybase_preorder.specs.Layout.{places};
ghost use Rattle.ybase_preorder.specs.View.{row_by, label_by};
ghost use Rattle.ylink_grammar.specs.LanguageView.{language_view};
ghost use Rattle.ylink_grammar.specs.SourceView.{source_view};
ghost use Rattle.ylink_standing.specs.StandingView.{IsOf as AreOn};
ghost use Rattle.ylink.specs.LinkedView as statements;
ghost use Rattle.ylink.specs.Told.{seen, told_by};
ghost use Rattle.yschema_given.specs.Keeping.{are_kept_right};
ghost use Rattle.yschema_expand.specs.AugmentView.{augments_seen};
ghost use Rattle.yschema_expand.specs.Knowing.{AreCounts};
ghost use Rattle.yschema_expand.specs.NamedView.{language_of, modules_of};
ghost use Rattle.yschema_expand.specs.TableView.{parts_in};
ghost use Rattle.yschema_plan.specs.PlannedView.{part_at};
ghost use Rattle.yschema_plan.specs.PlanView as plans;
ghost use Rattle.yschema_resolve.specs.ResolvedView.{IsOf};
ghost use Rattle.yschema_model.specs.View.{view, module_view};

use crate::augmenting::{Added, augments_in};
use crate::limits::{LEVEL_LIMIT, LOW_LEVEL_LIMIT, NODE_LIMIT};
use crate::making::slots_of;
use std::alloc::{AllocError, Global};
use ybase_preorder::{Node, Slot};
use ybase_words::Keyword;
use ylink::{CompileFault, Linked, link_in};
use ylink_features::Versions;
use ylink_grammar::{
    BrokenRule, CompileCode, Language, Source, argument_of, argument_with, broken,
};
use ylink_standing::FeaturesOn;
use yschema_augment::augmented;
use yschema_cut::{cut, standing_in, unguarded_in};
use yschema_expand::{Groupings, Named, NodeTable, augments_of};
use yschema_model::{Schema, SchemaModule};
use yschema_plan::{Plan, Planned, broken_name_rule};
use yschema_resolve::{Resolved, broken_addition_rule, broken_node_rule, broken_place_rule};
use ytext::Module;

/// The schema of a set of modules of the core, or the least broken rule, by module, line and number, of the first phase that has
/// one. Phases: the table of statements; prefixes, and names of modules and definitions; imports, and what names mean; types; the
/// number of nodes; refines and augments; names of siblings; what nodes state and refer to; levels. Of no modules it is a schema without nodes.
pub fn compile(alloc: Global, modules: &[Module]) -> Result<Schema, CompileFault>
    ensures exact { Gives view told_by result (compiled (modules_view modules.now)) }
    ensures names { IfOk result (λ schema. NamesDiffer (view schema)) }
    ensures bare { IfOk result (λ schema. LeafsAreBare (view schema).nodes) }
    ensures within { IfOk result (λ schema. levels (view schema).nodes ≤ level_limit) }
{
    compile_in(alloc, modules, &Language::Core)
}

/// The same of modules that are read in a language. With the names of siblings it is told which operations are out of place (7.15,
/// 7.16); then operations and what features take away are cut (RFC 7950, 7.20.2), and of what is left is told what nodes state and refer to; what an `augment` adds is judged whether its target is left
/// or not.
pub fn compile_in(
    alloc: Global,
    modules: &[Module],
    language: &Language,
) -> Result<Schema, CompileFault>
    ensures exact { Gives view told_by result
        (compiled_in (language_view language.now) (modules_view modules.now)) }
    ensures names { IfOk result (λ schema. NamesDiffer (view schema)) }
    ensures bare { IfOk result (λ schema. LeafsAreBare (view schema).nodes) }
    ensures within { IfOk result (λ schema. levels (view schema).nodes ≤ level_limit) }
{
    match link_in(alloc, modules, language) {
        Ok(linked) => compile_linked(alloc, modules, language, &linked),
        Err(fault) => Err(fault),
    }
}

/// Compiles modules that link.
fn compile_linked<'t>(
    alloc: Global,
    modules: &[Module],
    language: &Language,
    linked: &Linked<'t>,
) -> Result<Schema, CompileFault>
    requires links { linked_in (language_view language.now) (modules_view modules.now)
        ≡ Ok (statements.view linked.now) }
    ensures { Gives view told_by result
        (compiled_in (language_view language.now) (modules_view modules.now)) }
{
    let sources = linked.sources();
    let versions = Versions::of(alloc, language, sources)?;
    let named = Named::new(
        language,
        sources,
        linked.prefixes(),
        &versions,
        linked.meanings(),
    );
    let groupings = Groupings::of(alloc, &named, linked.order())?;
    let augments = augments_of(alloc, &named)?;
    if let Some(found) = broken_count_rule(modules, &named, &groupings, &augments) {
        return Err(CompileFault::from(found));
    }
    let made = augmented(alloc, &named, &groupings, &augments)?;
    if let Some(found) = made.told {
        return Err(CompileFault::from(found));
    }
    match language {
        Language::Core => compile_whole(alloc, modules, language, linked, &made.table),
        Language::Rfc(_) => compile_standing(alloc, modules, language, linked, made.table),
    }
}

/// Compiles modules of the core, all of whose nodes stand.
fn compile_whole<'t>(
    alloc: Global,
    modules: &[Module],
    language: &Language,
    linked: &Linked<'t>,
    nodes: &NodeTable<'_, 't>,
) -> Result<Schema, CompileFault>
    requires core { language_view language.now ≡ core }
    requires links { linked_in (language_view language.now) (modules_view modules.now)
        ≡ Ok (statements.view linked.now) }
    requires made { parts_in nodes.now
        ≡ places None 0 (augmented_in (language_view language.now) (statements.view linked.now)).0 }
    requires none { None ≡ first_broken (expansion_part (language_view language.now)
        (modules_view modules.now) (statements.view linked.now)) }
    ensures { Gives view told_by result
        (compiled_in (language_view language.now) (modules_view modules.now)) }
{
    let plan = Plan::of(alloc, linked.sources(), linked.prefixes(), nodes)?;
    if let Some(found) = broken_name_rule(&plan) {
        return Err(CompileFault::from(found));
    }
    let versions = Versions::of(alloc, language, linked.sources())?;
    let added = broken_addition_rule(alloc, language, &versions, &plan, &[])?;
    let features = FeaturesOn::of_set(alloc, language, linked.sources(), linked.prefixes())?;
    let resolved = Resolved::of(alloc, language, &features, &[], &plan, linked)?;
    compile_rules(alloc, modules, language, added, &plan, &resolved)
}

/// Compiles modules of which some nodes may not stand: names and what augments add are judged before these are cut.
fn compile_standing<'t>(
    alloc: Global,
    modules: &[Module],
    language: &Language,
    linked: &Linked<'t>,
    nodes: NodeTable<'_, 't>,
) -> Result<Schema, CompileFault>
    requires links { linked_in (language_view language.now) (modules_view modules.now)
        ≡ Ok (statements.view linked.now) }
    requires made { parts_in nodes
        ≡ places None 0 (augmented_in (language_view language.now) (statements.view linked.now)).0 }
    requires none { None ≡ first_broken (expansion_part (language_view language.now)
        (modules_view modules.now) (statements.view linked.now)) }
    ensures { Gives view told_by result
        (compiled_in (language_view language.now) (modules_view modules.now)) }
{
    let features = FeaturesOn::of_set(alloc, language, linked.sources(), linked.prefixes())?;
    let judged = judged_whole(alloc, language, linked, &features, &nodes)?;
    match judged {
        Ok(added) => {
            let left = cut(alloc, language, linked.sources(), &features, nodes)?;
            compile_planned(alloc, modules, language, linked, &features, added, &left)
        }
        Err(found) => Err(CompileFault::from(found)),
    }
}

/// What is told of the names and places of all nodes, and else of what augments add to nodes of other modules, in this phase or a later
/// one.
fn judged_whole<'t>(
    alloc: Global,
    language: &Language,
    linked: &Linked<'t>,
    features: &FeaturesOn,
    nodes: &NodeTable<'_, 't>,
) -> Result<Result<Option<BrokenRule>, BrokenRule>, AllocError>
    requires on { AreOn features.now (language_view language.now) (statements.view linked.now) }
    requires kept { are_kept_right (language_view language.now) (statements.view linked.now) ≡ true }
    requires made { parts_in nodes.now
        ≡ places None 0 (augmented_in (language_view language.now) (statements.view linked.now)).0 }
    ensures { IfOk result (λ judged. Judges judged (language_view language.now)
        (whole_plan (language_view language.now) (statements.view linked.now))) }
{
    let whole = Plan::of(alloc, linked.sources(), linked.prefixes(), nodes)?;
    let named = broken_name_rule(&whole);
    let told = broken_place_rule(alloc, language, &whole, named)?;
    if let Some(found) = told {
        return Ok(Err(found));
    }
    let standing = standing_in(alloc, language, linked.sources(), features, nodes)?;
    let versions = Versions::of(alloc, language, linked.sources())?;
    let added = broken_addition_rule(alloc, language, &versions, &whole, standing.as_slice())?;
    Ok(Ok(added))
}

/// Compiles modules whose nodes are those that stand, given what is told of what augments add.
fn compile_planned<'t>(
    alloc: Global,
    modules: &[Module],
    language: &Language,
    linked: &Linked<'t>,
    features: &FeaturesOn,
    added: Option<BrokenRule>,
    nodes: &NodeTable<'_, 't>,
) -> Result<Schema, CompileFault>
    requires links { linked_in (language_view language.now) (modules_view modules.now)
        ≡ Ok (statements.view linked.now) }
    requires on { AreOn features.now (language_view language.now) (statements.view linked.now) }
    requires kept { are_kept_right (language_view language.now) (statements.view linked.now) ≡ true }
    requires told { let l = language_view language.now in seen added ≡ least_from None
        (all_addition_breaks l (whole_plan l (sources_in l (modules_view modules.now)))) }
    requires made { let l = language_view language.now in let s = statements.view linked.now in
        parts_in nodes.now ≡ places None 0 (standing l s (augmented_in l s).0) }
    requires second { let l = language_view language.now in None ≡ first_broken
        (plan_part l (modules_view modules.now) (whole_plan l (sources_in l (modules_view modules.now)))) }
    ensures { Gives view told_by result
        (compiled_in (language_view language.now) (modules_view modules.now)) }
{
    let plan = Plan::of(alloc, linked.sources(), linked.prefixes(), nodes)?;
    let unguarded = unguarded_in(alloc, language, linked.sources(), nodes)?;
    let resolved = Resolved::of(
        alloc,
        language,
        features,
        unguarded.as_slice(),
        &plan,
        linked,
    )?;
    compile_rules(alloc, modules, language, added, &plan, &resolved)
}

/// Compiles modules that have no more nodes than they may, and no names twice, given what is told of what augments add.
fn compile_rules<'t>(
    alloc: Global,
    modules: &[Module],
    language: &Language,
    added: Option<BrokenRule>,
    plan: &Plan<'_, 't>,
    resolved: &Resolved<'_, 't>,
) -> Result<Schema, CompileFault>
    requires of_plan { IsOf resolved.now (language_view language.now) (plans.view plan.now) }
    requires told { let l = language_view language.now in seen added ≡ least_from None
        (all_addition_breaks l (whole_plan l (sources_in l (modules_view modules.now)))) }
    requires made { let l = language_view language.now in
        plans.view plan.now ≡ plan_in l (sources_in l (modules_view modules.now)) }
    requires first { None ≡ first_broken
        (linking_phases_in (language_view language.now) (modules_view modules.now)) }
    requires second { let l = language_view language.now in None ≡ first_broken
        (plan_part l (modules_view modules.now) (whole_plan l (sources_in l (modules_view modules.now)))) }
    ensures { Gives view told_by result
        (compiled_in (language_view language.now) (modules_view modules.now)) }
{
    if let Some(found) = broken_rule(alloc, modules, language, added, plan, resolved)? {
        return Err(CompileFault::from(found));
    }
    Ok(build(alloc, language, plan, resolved)?)
}

/// A limit that is passed is told at the module given last.
fn at_last(modules: &[Module], is_passed: bool) -> Option<BrokenRule>
    ensures { seen result ≡ least_from None (limit_breaks is_passed (modules_view modules.now)) }
{
    match modules.last() {
        Some(last) if is_passed => Some(broken(CompileCode::C18, modules.len() - 1, &last.top)),
        _ => None,
    }
}

/// The rule that is told of the number of nodes, which are counted before any grouping is expanded.
fn broken_count_rule<'a, 't>(
    modules: &[Module],
    named: &Named<'a, 't>,
    groupings: &Groupings,
    augments: &[Node<'a, Source<'t>>],
) -> Option<BrokenRule>
    requires counts { AreCounts groupings.now.counts.items (language_of named.now) (modules_of named.now) }
    requires augments { augments_seen augments.now ≡ augments_of (modules_of named.now) }
    ensures { seen result ≡ least_from None (limit_breaks
        (nat_lt node_limit (node_count_in (language_of named.now) (modules_of named.now))) (modules_view modules.now)) }
{
    let count = groupings.node_count(named, augments);
    at_last(modules, count as usize > NODE_LIMIT)
}

/// Whether a planned node is an `anydata` or `anyxml`.
fn is_anything(language: &Language, planned: &Planned<'_, '_>) -> bool
    ensures { result ≡ wide_words.is_anything (language_view language.now) (part_at planned.now).source }
{
    planned.is_anydata(language) || planned.is_anyxml(language)
}

/// Whether the node of a row is one.
fn any_anything(language: &Language, rows: &[Slot<Planned<'_, '_>>]) -> bool
    ensures { result ≡ list_any (λ r. wide_words.is_anything (language_view language.now) (part_at r.label).source)
        rows.now }
{
    for row in rows {
        if is_anything(language, &row.label) {
            return true;
        }
    }
    false
}

/// Whether a node of a plan is one.
fn has_anything(language: &Language, plan: &Plan<'_, '_>) -> bool
    ensures { result ≡ list_any (λ p. wide_words.is_anything (language_view language.now) p.part.source)
        (nodes_of (plans.view plan.now)) }
{
    any_anything(language, plan.slots())
}

/// Whether a plan has too many nodes or levels, of which fewer may be where values nest below them.
fn is_too_deep_in(language: &Language, plan: &Plan<'_, '_>) -> bool
    ensures { result ≡ is_too_deep_in (language_view language.now) (plans.view plan.now) }
{
    match language {
        Language::Core => is_too_deep(plan),
        Language::Rfc(_) => {
            is_too_deep(plan) || (plan.is_deeper(LOW_LEVEL_LIMIT) && has_anything(language, plan))
        }
    }
}

/// Whether a plan has too many nodes or levels.
fn is_too_deep(plan: &Plan<'_, '_>) -> bool
    ensures { result ≡ spec.is_too_deep (plans.view plan.now).nodes }
{
    plan.nodes() > NODE_LIMIT || plan.is_deeper(LEVEL_LIMIT)
}

/// The rule that is told of what nodes state and refer to, given what is told of what augments add; or of levels.
fn broken_rule<'t>(
    alloc: Global,
    modules: &[Module],
    language: &Language,
    added: Option<BrokenRule>,
    plan: &Plan<'_, 't>,
    resolved: &Resolved<'_, 't>,
) -> Result<Option<BrokenRule>, AllocError>
    requires of_plan { IsOf resolved.now (language_view language.now) (plans.view plan.now) }
    ensures { (whole : planned.Plan) → let l = language_view language.now in let p = plans.view plan.now in
        seen added ≡ least_from None (all_addition_breaks l whole)
        → IfOk result (λ told. seen told ≡ first_broken (rule_part l (modules_view modules.now) whole p)) }
{
    let told = broken_node_rule(alloc, language, plan, resolved, added)?;
    if let Some(found) = told {
        return Ok(Some(found));
    }
    Ok(at_last(modules, is_too_deep_in(language, plan)))
}

/// The module that a statement defines, with its augments.
fn module_of(
    alloc: Global,
    plan: &Plan<'_, '_>,
    added: &Added,
    top: Node<'_, Source<'_>>,
) -> Result<SchemaModule, AllocError>
    requires { HoldsThose added.now (nodes_of (plans.view plan.now)) }
    ensures { IfOk result (λ made. module_view made ≡ spec.schema_module (plans.view plan.now)
        (label_by source_view top.entry) (row_by source_view top.entry.children)) }
{
    let prefix = argument_with(Keyword::Prefix, top.children()).unwrap_or("");
    Ok(SchemaModule {
        name: String::from_str(alloc, argument_of(top))?,
        prefix: String::from_str(alloc, prefix)?,
        augments: augments_in(alloc, plan, added, top.children())?,
    })
}

fn modules_of(alloc: Global, plan: &Plan<'_, '_>) -> Result<Vec<SchemaModule>, AllocError>
    ensures { let p = plans.view plan.now in IfOk result (λ modules.
        map module_view modules.items ≡ spec.schema_modules p p.modules) }
{
    let added = Added::of(alloc, plan)?;
    let mut modules = Vec::new(alloc);
    for module in plan.sources().modules() {
        modules.push(module_of(alloc, plan, &added, module)?)?;
    }
    Ok(modules)
}

/// The schema whose nodes are planned.
fn build<'t>(
    alloc: Global,
    language: &Language,
    plan: &Plan<'_, 't>,
    resolved: &Resolved<'_, 't>,
) -> Result<Schema, AllocError>
    requires of_plan { IsOf resolved.now (language_view language.now) (plans.view plan.now) }
    requires fit { IsFit (schema_of_plan_in (language_view language.now) (plans.view plan.now)) }
    ensures { IfOk result (λ schema. view schema
        ≡ schema_of_plan_in (language_view language.now) (plans.view plan.now)) }
{
    let modules = modules_of(alloc, plan)?;
    let rows = slots_of(alloc, language, plan, resolved)?;
    let names = plan.names(alloc)?;
    Schema::of(alloc, modules, rows, names)
}
