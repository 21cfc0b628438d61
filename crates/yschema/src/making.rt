//! Schema nodes from planned ones (RFC 7950, 7.5 to 7.9).

ghost use Rattle.std.specs.Prelude.{◌≡◌, [], Some, None, map, option_map, slice_get, unwrap_or, IfOk, if◌then◌else◌};
ghost use Rattle.yspec.specs.types.Types.{string_type};
ghost use Rattle.yspec.specs.linking.Planned.{nodes_of};
ghost use Rattle.yspec.specs.linking.SchemaNodes as spec;
ghost use Rattle.yspec_wide.specs.Guards as guards;
ghost use Rattle.yspec_wide.specs.Types as wide;
ghost use Rattle.ylink_grammar.specs.LanguageView.{language_view};
ghost use Rattle.yschema_plan.specs.Finding.{name_of};
ghost use Rattle.yschema_plan.specs.NodesView as plans;
ghost use Rattle.yschema_plan.specs.PlannedView.{planned_view};
ghost use Rattle.yschema_plan.specs.PlanView as plan_view;
ghost use Rattle.yschema_resolve.specs.ResolvedView.{IsOf};
ghost use Rattle.yschema_model.specs.Layout.{absence_view, amount_view, form_view, kind_view, laid, leaf_type_view, node_view, place_of, places, type_name_view};
ghost use Rattle.yschema_model.specs.Lookup.{names_in};
ghost use Rattle.yschema.specs.Made.{place_made, planned_place};

use std::alloc::{AllocError, Global};
use ybase_words::Keyword;
use ylink_grammar::Language;
use yschema_model::{Absence, Amount, JsonForm, Kind, LeafType, SchemaNode, Slot, TypeName, id_of};
use yschema_plan::{Plan, PlanNode, Planned};
use yschema_resolve::{Resolved, default_values, tuples_of};
use ytype::{Val, YType};

/// The values of the defaults of a leaf or leaf-list, in order.
fn values_of<'a, 't>(
    alloc: Global,
    language: &Language,
    plan: &Plan<'a, 't>,
    resolved: &Resolved<'_, 't>,
    node: PlanNode<'a, 't>,
) -> Result<Vec<Val>, AllocError>
    requires of_plan { IsOf resolved.now (language_view language.now) (plan_view.view plan.now) }
    requires stands { slice_get (nodes_of (plan_view.view plan.now)) node.number
        ≡ Some (plans.node_view node) }
    ensures { IfOk result (λ values. values.items
        ≡ wide.default_values_in (language_view language.now) (plan_view.view plan.now) (plans.node_view node.entry)) }
{
    match resolved.value_type(node.number) {
        Some(value_type) => default_values(alloc, resolved, value_type, &node.planned),
        None => Ok(Vec::new(alloc)),
    }
}

/// The first of some values.
fn first_of(values: Vec<Val>) -> Option<Val>
    ensures { result ≡ spec.first_value values.items }
{
    values.into_iter().next()
}

/// What it means that a leaf isn't stored.
fn absence_of<'a, 't>(
    alloc: Global,
    language: &Language,
    plan: &Plan<'a, 't>,
    resolved: &Resolved<'_, 't>,
    node: PlanNode<'a, 't>,
) -> Result<Absence, AllocError>
    requires of_plan { IsOf resolved.now (language_view language.now) (plan_view.view plan.now) }
    requires stands { slice_get (nodes_of (plan_view.view plan.now)) node.number
        ≡ Some (plans.node_view node) }
    ensures { let p = plan_view.view plan.now in
        IfOk result (λ absence. absence_view absence
        ≡ wide.absence_in (language_view language.now) p (plans.node_view node.entry)) }
{
    if resolved.is_key(node.number) {
        return Ok(Absence::Key);
    }
    if node.planned.is_mandatory() {
        return Ok(Absence::Mandatory);
    }
    let defaults = values_of(alloc, language, plan, resolved, node)?;
    match first_of(defaults) {
        Some(value) => Ok(Absence::DefaultUsed(value)),
        None => Ok(Absence::Allowed),
    }
}

/// A copy of a type; that of texts where there is none.
fn type_or_text(alloc: Global, value_type: Option<&YType>) -> Result<YType, AllocError>
    ensures { IfOk result (λ made. made
        ≡ unwrap_or (option_map (λ t. t.now) value_type.entry) string_type) }
{
    let Some(value_type) = value_type else {
        return match YType::string(alloc) {
            Ok(made) => Ok(made),
            Err(_) => Err(AllocError),
        };
    };
    value_type.clone()
}

/// How documents have what a node holds (RFC 7951, 5.5, 5.6 and 6).
fn form_of(language: &Language, planned: &Planned<'_, '_>) -> JsonForm
    ensures { (number : _) → form_view result
        ≡ wide.form_of (language_view language.now) (planned_view number planned.now).part.source }
{
    if planned.is_anydata(language) {
        JsonForm::AnyObject
    } else if planned.is_anyxml(language) {
        JsonForm::AnyValue
    } else {
        JsonForm::ByType
    }
}

/// The name of a type as it is written, or what stands for it.
fn name_in(alloc: Global, form: JsonForm, name: &str) -> Result<TypeName, AllocError>
    ensures { IfOk result
        (λ made. type_name_view made ≡ wide.form_name (form_view form) name.now) }
{
    match form {
        JsonForm::ByType => TypeName::of(alloc, name),
        JsonForm::AnyValue => Ok(TypeName::Derived(String::from_str(alloc, "<anyxml>")?)),
        JsonForm::AnyObject => Ok(TypeName::Derived(String::from_str(alloc, "<anydata>")?)),
    }
}

/// The type of a leaf or of items, and to which nodes it and its members refer.
fn leaf_type_of<'a, 't>(
    alloc: Global,
    language: &Language,
    plan: &Plan<'a, 't>,
    resolved: &Resolved<'_, 't>,
    node: PlanNode<'a, 't>,
) -> Result<LeafType, AllocError>
    requires of_plan { IsOf resolved.now (language_view language.now) (plan_view.view plan.now) }
    requires stands { slice_get (nodes_of (plan_view.view plan.now)) node.number
        ≡ Some (plans.node_view node) }
    ensures { IfOk result (λ made. leaf_type_view made
        ≡ wide.leaf_type_in (language_view language.now) (plan_view.view plan.now) (plans.node_view node.entry)) }
{
    let form = form_of(language, &node.planned);
    let name = name_in(alloc, form, node.planned.type_name())?;
    let value_type = type_or_text(alloc, resolved.value_type(node.number))?;
    let targets = Vec::from_slice(alloc, resolved.member_targets(node.number))?;
    Ok(LeafType {
        name,
        value_type,
        target: id_of(resolved.target(node.number)),
        targets,
        form,
    })
}

/// What it means that a leaf isn't stored that hangs on a `when`.
fn spared_absence(absence: Absence) -> Absence
    ensures { absence_view result ≡ guards.spared_absence (absence_view absence) }
{
    match absence {
        Absence::Key => Absence::Key,
        Absence::Allowed | Absence::DefaultUsed(_) | Absence::Mandatory => Absence::Allowed,
    }
}

/// What it means that a leaf isn't stored, where it may hang on a `when`.
fn asked_absence(guarded: bool, absence: Absence) -> Absence
    ensures { absence_view result ≡ guards.asked_absence guarded (absence_view absence) }
{
    if guarded {
        spared_absence(absence)
    } else {
        absence
    }
}

/// How many instances there are, where they may hang on a `when`.
fn asked_amount(guarded: bool, amount: Amount) -> Amount
    ensures { amount_view result ≡ guards.asked_amount guarded (amount_view amount) }
{
    Amount {
        min_elements: if guarded { 0 } else { amount.min_elements },
        max_elements: amount.max_elements,
    }
}

/// Defaults, which aren't in use of what hangs on a `when`.
fn asked_defaults(alloc: Global, guarded: bool, defaults: Vec<Val>) -> Vec<Val>
    ensures { result.items ≡ (if guarded then [] else defaults.items) }
{
    if guarded { Vec::new(alloc) } else { defaults }
}

/// A kind of node, of which less is asked where it hangs on a `when`.
fn asked_kind(alloc: Global, guarded: bool, kind: Kind) -> Kind
    ensures { kind_view result ≡ guards.asked_kind guarded (kind_view kind) }
{
    match kind {
        Kind::Container { presence } => Kind::Container { presence },
        Kind::Leaf { leaf_type, absence } => Kind::Leaf {
            leaf_type,
            absence: asked_absence(guarded, absence),
        },
        Kind::LeafList {
            leaf_type,
            defaults,
            amount,
        } => Kind::LeafList {
            leaf_type,
            defaults: asked_defaults(alloc, guarded, defaults),
            amount: asked_amount(guarded, amount),
        },
        Kind::List { tuples, amount } => Kind::List {
            tuples,
            amount: asked_amount(guarded, amount),
        },
        Kind::Choice {
            default_case,
            mandatory,
        } => Kind::Choice {
            default_case,
            mandatory: !guarded && mandatory,
        },
        Kind::Case => Kind::Case,
    }
}

/// What only its kind of node has, by what it states.
fn kind_stated<'a, 't>(
    alloc: Global,
    language: &Language,
    plan: &Plan<'a, 't>,
    resolved: &Resolved<'_, 't>,
    node: PlanNode<'a, 't>,
) -> Result<Kind, AllocError>
    requires of_plan { IsOf resolved.now (language_view language.now) (plan_view.view plan.now) }
    requires stands { slice_get (nodes_of (plan_view.view plan.now)) node.number
        ≡ Some (plans.node_view node) }
    ensures { let p = plans.node_view node.entry in
        IfOk result (λ kind. kind_view kind
        ≡ wide.kind_stated (language_view language.now) (plan_view.view plan.now) p) }
{
    let planned = &node.planned;
    match planned.keyword() {
        Keyword::Container => Ok(Kind::Container {
            presence: planned.has_presence(),
        }),
        Keyword::Leaf => Ok(Kind::Leaf {
            leaf_type: leaf_type_of(alloc, language, plan, resolved, node)?,
            absence: absence_of(alloc, language, plan, resolved, node)?,
        }),
        Keyword::LeafList => Ok(Kind::LeafList {
            leaf_type: leaf_type_of(alloc, language, plan, resolved, node)?,
            defaults: values_of(alloc, language, plan, resolved, node)?,
            amount: planned.amount(),
        }),
        Keyword::List => Ok(Kind::List {
            tuples: tuples_of(alloc, plan, node)?,
            amount: planned.amount(),
        }),
        Keyword::Choice => Ok(Kind::Choice {
            default_case: id_of(plan.default_case(node.number, planned)),
            mandatory: planned.is_mandatory(),
        }),
        _ => Ok(Kind::Case),
    }
}

/// What only its kind of node has.
fn kind_of<'a, 't>(
    alloc: Global,
    language: &Language,
    plan: &Plan<'a, 't>,
    resolved: &Resolved<'_, 't>,
    node: PlanNode<'a, 't>,
) -> Result<Kind, AllocError>
    requires of_plan { IsOf resolved.now (language_view language.now) (plan_view.view plan.now) }
    requires stands { slice_get (nodes_of (plan_view.view plan.now)) node.number
        ≡ Some (plans.node_view node) }
    ensures { let p = plans.node_view node.entry in
        IfOk result (λ kind. kind_view kind
        ≡ wide.kind_in (language_view language.now) (plan_view.view plan.now) p) }
{
    let kind = kind_stated(alloc, language, plan, resolved, node)?;
    let guarded = resolved.is_guarded(node.number);
    Ok(asked_kind(alloc, guarded, kind))
}

/// The schema node that a planned one stands for.
fn node_of<'a, 't>(
    alloc: Global,
    language: &Language,
    plan: &Plan<'a, 't>,
    resolved: &Resolved<'_, 't>,
    node: PlanNode<'a, 't>,
) -> Result<SchemaNode, AllocError>
    requires of_plan { IsOf resolved.now (language_view language.now) (plan_view.view plan.now) }
    requires stands { slice_get (nodes_of (plan_view.view plan.now)) node.number
        ≡ Some (plans.node_view node) }
    ensures { IfOk result (λ made. node_view node.entry.number made
        ≡ wide.schema_node_in (language_view language.now) (plan_view.view plan.now) (plans.node_view node.entry)) }
{
    let planned = &node.planned;
    Ok(SchemaNode {
        module: planned.owner(),
        name: String::from_str(alloc, planned.name())?,
        config: planned.config,
        distinct_items: resolved.has_distinct_items(planned),
        status: planned.status(),
        kind: kind_of(alloc, language, plan, resolved, node)?,
    })
}

/// The row of a schema that a row of a plan stands for.
fn slot_of<'a, 't>(
    alloc: Global,
    language: &Language,
    plan: &Plan<'a, 't>,
    resolved: &Resolved<'_, 't>,
    number: u32,
    row: &ybase_preorder::Slot<Planned<'a, 't>>,
) -> Result<Slot, AllocError>
    requires of_plan { IsOf resolved.now (language_view language.now) (plan_view.view plan.now) }
    requires stands { slice_get (nodes_of (plan_view.view plan.now)) number
        ≡ Some (planned_view number row.now.label) }
    ensures { IfOk result (λ made. place_of number made
        ≡ place_made (wide.schema_node_in (language_view language.now) (plan_view.view plan.now)) (planned_place number row.now)) }
{
    let node = PlanNode {
        number,
        planned: row.label,
    };
    Ok(Slot {
        parent: id_of(row.parent),
        node: node_of(alloc, language, plan, resolved, node)?,
        below: row.below,
    })
}

/// The rows of a schema whose nodes are planned.
pub(crate) fn slots_of<'t>(
    alloc: Global,
    language: &Language,
    plan: &Plan<'_, 't>,
    resolved: &Resolved<'_, 't>,
) -> Result<Vec<Slot>, AllocError>
    requires { IsOf resolved.now (language_view language.now) (plan_view.view plan.now) }
    ensures laid { IfOk result (λ rows. laid 0 rows.items
        ≡ places None (wide.schema_nodes_in (language_view language.now) (plan_view.view plan.now))) }
    ensures names { IfOk result (λ rows. names_in rows.items
        ≡ map name_of (nodes_of (plan_view.view plan.now))) }
{
    let mut rows = Vec::with_capacity(alloc, plan.nodes())?;
    for (number, row) in plan.slots().iter().enumerate() {
        rows.push(slot_of(alloc, language, plan, resolved, number as u32, row)?)?;
    }
    Ok(rows)
}
