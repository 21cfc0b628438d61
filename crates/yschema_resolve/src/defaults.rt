//! Defaults that nodes can't have (RFC 7950, 7.6.1, 7.7.2 and 7.9.3).

ghost use Rattle.std.specs.Prelude.{◌≡◌, ◌&&◌, Some, false, map, is_some, option_map, slice_get, IfOk};
ghost use Rattle.std.specs.List.{filter_map, list_any};
ghost use Rattle.std.specs.Option.{option_map_or};
ghost use Rattle.yspec.specs.types.Types.{YangType};
ghost use Rattle.yspec.specs.types.Order.{same_value};
ghost use Rattle.yspec.specs.linking.Keyword.{default_word};
ghost use Rattle.yspec.specs.linking.Planned as plans;
ghost use Rattle.yspec.specs.linking.Planned.{stated_in};
ghost use Rattle.yspec.specs.linking.SchemaNodes as spec;
ghost use Rattle.yspec.specs.linking.NodeBreaks as breaks;
ghost use Rattle.yspec_wide.specs.Language as languages;
ghost use Rattle.yspec_wide.specs.Types as wide;
ghost use Rattle.ylink_features.specs.VersionView.{AreVersionsOf};
ghost use Rattle.ylink_grammar.specs.SourceView.{stated_view};
ghost use Rattle.ylink.specs.LinkedView.{IsOf};
ghost use Rattle.yschema_plan.specs.NodesView.{node_view};
ghost use Rattle.yschema_plan.specs.PlannedView.{planned_view};
ghost use Rattle.yschema_plan.specs.PlanView.{view};
ghost use Rattle.yschema_types.specs.ModulesView.{value_by};
ghost use Rattle.yschema_resolve.specs.ResolvedView as resolved_as;
ghost use Rattle.yschema_types.specs.TypesView.{unmarked_view};
ghost use Rattle.yschema_resolve.specs.Values.{comes_twice, is_refused_by, is_right_by, unmarked_type, value_if_any, wrong_leaf, wrong_leaf_list};

use crate::resolved::Resolved;
use std::alloc::{AllocError, Global};
use std::collections::BTreeSet;
use ybase_words::Keyword;
use ylink::Linked;
use ylink_features::Versions;
use ylink_grammar::Stated;
use yschema_plan::{Plan, PlanNode, Planned, is_wrong_case, own_defaults};
use yschema_types::{ModuleTable, Unmarked};
use ytype::{BadValue, Val, YType};

/// The value that a type takes from a text of a module, where it takes it.
fn value_of(
    alloc: Global,
    modules: &ModuleTable<'_>,
    value_type: &YType,
    stated: Stated<'_>,
) -> Result<Option<Val>, AllocError>
    ensures { IfOk result (λ value. value
        ≡ value_by modules.now value_type.now (stated_view stated.entry)) }
{
    let names = modules.names(stated.home);
    match value_type.from_text(alloc, stated.text, &names) {
        Ok(value) => Ok(Some(value)),
        Err(BadValue::Refused { .. }) => Ok(None),
        Err(BadValue::Memory) => Err(AllocError),
    }
}

/// The values that a type takes from texts of modules, in order.
fn values_of(
    alloc: Global,
    modules: &ModuleTable<'_>,
    value_type: &YType,
    texts: &[Stated<'_>],
) -> Result<Vec<Val>, AllocError>
    ensures { IfOk result (λ values. values.items
        ≡ filter_map (value_by modules.now value_type.now) (map stated_view texts.now)) }
{
    let mut values = Vec::new(alloc);
    for text in texts {
        if let Some(value) = value_of(alloc, modules, value_type, *text)? {
            values.push(value)?;
        }
    }
    Ok(values)
}

/// Whether one of these values is the same as another of them.
fn comes_twice(alloc: Global, values: &[Val]) -> Result<bool, AllocError>
    ensures { IfOk result (λ twice. twice ≡ comes_twice same_value values.now) }
{
    let mut seen = BTreeSet::new(alloc);
    for value in values {
        if !seen.insert(value)? {
            return Ok(true);
        }
    }
    Ok(false)
}

/// The default of the type of a node, where it may be without a value.
fn type_default<'t>(linked: &Linked<'t>, planned: &Planned<'_, 't>) -> Option<Stated<'t>>
    ensures { (plan : plans.Plan) (number : _) → IsOf linked.now plan.modules
        → option_map stated_view result
        ≡ spec.type_default plan (planned_view number planned.now) }
{
    let statement = planned.first_own(Keyword::Type)?;
    // Most types have none, and then nothing else is asked of the node.
    let text = linked.default_named(statement.number())?;
    if planned.is_mandatory() || planned.min_elements() > 0 {
        return None;
    }
    Some(text)
}

/// The defaults of a node that may have some, in order, each with the module in which it stands: its own, or where it has none
/// that of its type.
fn default_texts<'t>(
    alloc: Global,
    linked: &Linked<'t>,
    planned: &Planned<'_, 't>,
) -> Result<Vec<Stated<'t>>, AllocError>
    ensures { (plan : plans.Plan) (number : _) → IsOf linked.now plan.modules
        → IfOk result (λ texts. map stated_view texts.items
        ≡ spec.default_texts plan (planned_view number planned.now)) }
{
    let mut texts = own_defaults(alloc, planned)?;
    if texts.is_empty() {
        if let Some(text) = type_default(linked, planned) {
            texts.push(text)?;
        }
    }
    Ok(texts)
}

/// Whether a node may have defaults: a leaf-list of YANG 1 has none (RFC 6020, 7.7).
fn has_defaults(versions: &Versions, planned: &Planned<'_, '_>) -> bool
    ensures { (language : languages.Language) (plan : plans.Plan) (number : _)
        → AreVersionsOf versions.now language plan.modules
        → result ≡ wide.has_defaults language plan (planned_view number planned.now) }
{
    !(Keyword::LeafList.is(planned.keyword()) && versions.is_yang_1(planned.home()))
}

/// The defaults of a node of a plan in a language, in order, each with the module in which it stands.
fn defaults_of<'t>(
    alloc: Global,
    resolved: &Resolved<'_, 't>,
    planned: &Planned<'_, 't>,
) -> Result<Vec<Stated<'t>>, AllocError>
    ensures { (language : languages.Language) (plan : plans.Plan) (number : _)
        → resolved_as.IsOf resolved.now language plan
        → IfOk result (λ texts. map stated_view texts.items
        ≡ wide.default_texts_in language plan (planned_view number planned.now)) }
{
    if has_defaults(&resolved.versions, planned) {
        default_texts(alloc, resolved.linked, planned)
    } else {
        Ok(Vec::new(alloc))
    }
}

/// The values that a type takes from the defaults of a node of a plan, in order.
pub fn default_values<'t>(
    alloc: Global,
    resolved: &Resolved<'_, 't>,
    value_type: &YType,
    planned: &Planned<'_, 't>,
) -> Result<Vec<Val>, AllocError>
    ensures { (language : languages.Language) (plan : plans.Plan) (number : _)
        → resolved_as.IsOf resolved.now language plan
        → IfOk result (λ values. values.items ≡ filter_map (spec.value_stated plan value_type.now)
        (wide.default_texts_in language plan (planned_view number planned.now))) }
{
    let texts = defaults_of(alloc, resolved, planned)?;
    values_of(alloc, &resolved.modules, value_type, &texts)
}

/// Whether a type, where there is one, makes a value of a text of a module.
fn is_taken_as(
    alloc: Global,
    modules: &ModuleTable<'_>,
    value_type: Option<&YType>,
    stated: Stated<'_>,
    value: &Val,
) -> Result<bool, AllocError>
    ensures { IfOk result (λ same. same ≡ option_map_or (same_value value.now)
        (value_if_any modules.now (option_map (λ t. t.now) value_type.entry) (stated_view stated.entry)) false) }
{
    let Some(value_type) = value_type else {
        return Ok(false);
    };
    match value_of(alloc, modules, value_type, stated)? {
        Some(other) => Ok(*value == other),
        None => Ok(false),
    }
}

/// Whether a type takes a text of a module, and takes it alike without the names that bear conditions (RFC 7950, 7.6.4).
fn is_right(
    alloc: Global,
    modules: &ModuleTable<'_>,
    value_type: &YType,
    unmarked: Unmarked<'_>,
    stated: Stated<'_>,
) -> Result<bool, AllocError>
    ensures { IfOk result (λ right. right ≡ is_right_by modules.now value_type.now
        (unmarked_view value_type.now unmarked.entry) (stated_view stated.entry)) }
{
    let Some(value) = value_of(alloc, modules, value_type, stated)? else {
        return Ok(false);
    };
    match unmarked {
        Unmarked::Same => Ok(true),
        Unmarked::Other(other) => is_taken_as(alloc, modules, other, stated, &value),
    }
}

/// Whether one of some texts of modules isn't right.
fn is_any_refused(
    alloc: Global,
    modules: &ModuleTable<'_>,
    value_type: &YType,
    unmarked: Unmarked<'_>,
    texts: &[Stated<'_>],
) -> Result<bool, AllocError>
    ensures { IfOk result (λ refused. refused
        ≡ list_any (is_refused_by modules.now value_type.now (unmarked_view value_type.now unmarked.entry))
        (map stated_view texts.now)) }
{
    for text in texts {
        if !is_right(alloc, modules, value_type, unmarked, *text)? {
            return Ok(true);
        }
    }
    Ok(false)
}

/// Whether a leaf that is no key is mandatory and has a default of its own, or has one that isn't right.
fn is_wrong_default<'t>(
    alloc: Global,
    resolved: &Resolved<'_, 't>,
    value_type: &YType,
    unmarked: Unmarked<'_>,
    planned: &Planned<'_, 't>,
) -> Result<bool, AllocError>
    ensures { (language : languages.Language) (plan : plans.Plan) (number : _)
        → resolved_as.IsOf resolved.now language plan
        → unmarked_view value_type.now unmarked.entry
        ≡ unmarked_type language plan (planned_view number planned.now)
        → IfOk result (λ wrong. wrong ≡ wide.is_wrong_default_in language plan
        (planned_view number planned.now) value_type.now) }
{
    if planned.is_mandatory() {
        let stated = own_defaults(alloc, planned)?;
        return Ok(!stated.is_empty());
    }
    let texts = defaults_of(alloc, resolved, planned)?;
    is_any_refused(alloc, &resolved.modules, value_type, unmarked, &texts)
}

/// Whether a leaf-list has defaults of its own though there must be items, or one that isn't right, or, as configuration, two
/// that are the same.
fn are_wrong_defaults<'t>(
    alloc: Global,
    resolved: &Resolved<'_, 't>,
    value_type: &YType,
    unmarked: Unmarked<'_>,
    planned: &Planned<'_, 't>,
) -> Result<bool, AllocError>
    ensures { (language : languages.Language) (plan : plans.Plan) (number : _)
        → resolved_as.IsOf resolved.now language plan
        → unmarked_view value_type.now unmarked.entry
        ≡ unmarked_type language plan (planned_view number planned.now)
        → IfOk result (λ wrong. wrong ≡ wide.are_wrong_defaults_in language plan
        (planned_view number planned.now) value_type.now) }
{
    if planned.min_elements() > 0 {
        let stated = own_defaults(alloc, planned)?;
        return Ok(!stated.is_empty());
    }
    let texts = defaults_of(alloc, resolved, planned)?;
    if is_any_refused(alloc, &resolved.modules, value_type, unmarked, &texts)? {
        return Ok(true);
    }
    if planned.config {
        let values = values_of(alloc, &resolved.modules, value_type, &texts)?;
        comes_twice(alloc, &values)
    } else {
        Ok(false)
    }
}

/// Whether a leaf has a wrong default, given whether it is a key, and its types.
fn is_wrong_leaf<'t>(
    alloc: Global,
    resolved: &Resolved<'_, 't>,
    planned: &Planned<'_, 't>,
    is_key: bool,
    value_type: Option<&YType>,
    unmarked: Unmarked<'_>,
) -> Result<bool, AllocError>
    ensures { (language : languages.Language) (plan : plans.Plan) (number : _)
        → resolved_as.IsOf resolved.now language plan
        → let p = planned_view number planned.now in
        ((type : YangType) → option_map (λ t. t.now) value_type.entry ≡ Some type
        → unmarked_view type unmarked.entry ≡ unmarked_type language plan p)
        → IfOk result (λ wrong. wrong
        ≡ wrong_leaf language plan p is_key (option_map (λ t. t.now) value_type.entry)) }
{
    match value_type {
        Some(value_type) => {
            if is_key {
                return Ok(false);
            }
            is_wrong_default(alloc, resolved, value_type, unmarked, planned)
        }
        None => Ok(false),
    }
}

/// Whether a leaf-list has wrong defaults, given its types.
fn is_wrong_leaf_list<'t>(
    alloc: Global,
    resolved: &Resolved<'_, 't>,
    planned: &Planned<'_, 't>,
    value_type: Option<&YType>,
    unmarked: Unmarked<'_>,
) -> Result<bool, AllocError>
    ensures { (language : languages.Language) (plan : plans.Plan) (number : _)
        → resolved_as.IsOf resolved.now language plan
        → let p = planned_view number planned.now in
        ((type : YangType) → option_map (λ t. t.now) value_type.entry ≡ Some type
        → unmarked_view type unmarked.entry ≡ unmarked_type language plan p)
        → IfOk result (λ wrong. wrong
        ≡ wrong_leaf_list language plan p (option_map (λ t. t.now) value_type.entry)) }
{
    match value_type {
        Some(value_type) => are_wrong_defaults(alloc, resolved, value_type, unmarked, planned),
        None => Ok(false),
    }
}

/// Whether a choice states a default case that it can't have.
fn is_wrong_choice<'a, 't>(plan: &Plan<'a, 't>, number: u32, planned: &Planned<'a, 't>) -> bool
    ensures { let p = planned_view number planned.now in
        result ≡ (is_some (stated_in default_word p)
        && breaks.is_wrong_case (view plan.now) p (spec.default_case (view plan.now) p)) }
{
    planned.own_argument(Keyword::Default).is_some() && is_wrong_case(plan, number, planned)
}

/// Whether a node has a default that it can't have, given whether it is a key, and its type, if it has one.
pub(crate) fn has_wrong_default<'a, 't>(
    alloc: Global,
    plan: &Plan<'a, 't>,
    resolved: &Resolved<'_, 't>,
    node: PlanNode<'a, 't>,
    is_key: bool,
    value_type: Option<&YType>,
) -> Result<bool, AllocError>
    requires stands { slice_get (plans.nodes_of (view plan.now)) node.number ≡ Some (node_view node) }
    ensures { (language : languages.Language) → let p = node_view node.entry in
        resolved_as.IsOf resolved.now language (view plan.now)
        → is_key ≡ spec.is_key (view plan.now) p → option_map (λ t. t.now) value_type.entry
        ≡ wide.standing_type language (view plan.now) p
        → IfOk result (λ wrong. wrong ≡ wide.is_default_wrong_in language (view plan.now) p) }
{
    let planned = &node.planned;
    match planned.keyword() {
        Keyword::Leaf => {
            let unmarked = resolved.types.unmarked_type(node.number);
            is_wrong_leaf(alloc, resolved, planned, is_key, value_type, unmarked)
        }
        Keyword::LeafList => {
            let unmarked = resolved.types.unmarked_type(node.number);
            is_wrong_leaf_list(alloc, resolved, planned, value_type, unmarked)
        }
        Keyword::Choice => Ok(is_wrong_choice(plan, node.number, planned)),
        _ => Ok(false),
    }
}
