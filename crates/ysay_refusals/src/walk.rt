//! The walk over a document's values that finds all for which it is refused: depth first, members in byte order of their
//! names, items by position.

ghost use Rattle.std.specs.Prelude.{◌≡◌, ◌++◌, ◌∷◌, [], IfOk, OnOk};
ghost use Rattle.std.specs.Option.{option_map_or};
ghost use Rattle.serde_json.specs.View as json;
ghost use Rattle.yspec.specs.document.Reading.{named};
ghost use Rattle.yspec.specs.schema.Schema.{module_at, node_at, row_at};
ghost use Rattle.yschema_model.specs.Layout.{form_view, number_of};
ghost use Rattle.yschema_model.specs.View.{view};
ghost use Rattle.yinst_tree.specs.Told.{code_number};
ghost use Rattle.yinst_tree.specs.View.{place_view, step_view};
ghost use Rattle.ysay_refusals.specs.Remarks as spec;
ghost use Rattle.ysay_refusals.specs.View.{remarks_view};

use serde_json::{Map, Value};
use std::alloc::{AllocError, Global};
use yinst_tree::{DocCode, Named, Step, meaning_of, refusal_in};
use yschema_model::{JsonForm, Schema, SchemaId};

/// Why a document isn't read, and at which node.
#[derive(Drop)]
pub(crate) enum Remark<'a> {
    /// An object there has a member of a name that isn't known, or isn't in the form that is due.
    OfName(DocCode, Vec<Step>, &'a str),
    /// This value stands there.
    OfValue(DocCode, Vec<Step>, &'a Value),
}

fn add_name<'a>(
    alloc: Global,
    code: DocCode,
    place: &[Step],
    name: &'a str,
    remarks: &mut Vec<Remark<'a>>,
) -> Result<(), AllocError>
    ensures { OnOk result (remarks_view remarks.new.items ≡ remarks_view remarks.old.items
        ++ spec.of_name (code_number code) (place_view place.now) name.entry.now ∷ []) }
{
    let place = Vec::from_slice(alloc, place)?;
    remarks.push(Remark::OfName(code, place, name))?;
    Ok(())
}

fn add_value<'a>(
    alloc: Global,
    code: DocCode,
    place: &[Step],
    value: &'a Value,
    remarks: &mut Vec<Remark<'a>>,
) -> Result<(), AllocError>
    ensures { OnOk result (remarks_view remarks.new.items ≡ remarks_view remarks.old.items
        ++ spec.of_value (code_number code) (place_view place.now) (json.view value.entry.now) ∷ []) }
{
    let place = Vec::from_slice(alloc, place)?;
    remarks.push(Remark::OfValue(code, place, value))?;
    Ok(())
}

/// Adds those of the members of an object below a node, or at the top, whose steps are given. The place is as before.
#[cycle(remarks)]
pub(crate) fn remark_members<'a>(
    alloc: Global,
    schema: &Schema,
    parent: Option<SchemaId>,
    members: &'a Map<String, Value>,
    place: &mut Vec<Step>,
    remarks: &mut Vec<Remark<'a>>,
) -> Result<(), AllocError>
    ensures adds { OnOk result (remarks_view remarks.new.items ≡ remarks_view remarks.old.items
        ++ spec.member_remarks (view schema.now) (number_of parent) (place_view place.old.items)
        (json.members_view members.entry.now.entries)) }
    ensures place { OnOk result (place.new.items ≡ place.old.items) }
{
    for (name, value) in members.iter() {
        remark_member(alloc, schema, parent, name.as_str(), value, place, remarks)?;
    }
    Ok(())
}

#[cycle(remarks)]
fn remark_member<'a>(
    alloc: Global,
    schema: &Schema,
    parent: Option<SchemaId>,
    name: &'a str,
    value: &'a Value,
    place: &mut Vec<Step>,
    remarks: &mut Vec<Remark<'a>>,
) -> Result<(), AllocError>
    ensures adds { let s = view schema.now in let p = number_of parent in let steps = place_view place.old.items in
        OnOk result (remarks_view remarks.new.items ≡ remarks_view remarks.old.items
        ++ spec.name_remarks steps name.entry.now (λ n. spec.node_remarks s n steps (json.view value.entry.now))
        (named s (module_at s p) name.entry.now (row_at s p))) }
    ensures place { OnOk result (place.new.items ≡ place.old.items) }
{
    match meaning_of(alloc, schema, parent, name)? {
        Named::Child(id) => remark_node(alloc, schema, id, value, place, remarks),
        Named::OtherForm => add_name(alloc, DocCode::J4, place, name, remarks),
        Named::Unknown => add_name(alloc, DocCode::J3, place, name, remarks),
    }
}

/// Adds those of the value of a member, whose node stands below the place.
#[cycle(remarks)]
fn remark_node<'a>(
    alloc: Global,
    schema: &Schema,
    id: SchemaId,
    value: &'a Value,
    place: &mut Vec<Step>,
    remarks: &mut Vec<Remark<'a>>,
) -> Result<(), AllocError>
    ensures adds { let s = view schema.now in
        OnOk result (remarks_view remarks.new.items ≡ remarks_view remarks.old.items
        ++ option_map_or (λ n. spec.node_remarks s n (place_view place.old.items) (json.view value.entry.now))
        (node_at s id.0) []) }
    ensures place { OnOk result (place.new.items ≡ place.old.items) }
{
    let Some(node) = schema.kind(id) else {
        return Ok(());
    };
    if node.kind.is_many() {
        match value {
            Value::Array(items) => remark_items(alloc, schema, id, items, place, remarks),
            _ => add_below(alloc, id, value, place, remarks),
        }
    } else {
        remark_below(
            alloc,
            schema,
            Step { id, position: None },
            value,
            place,
            remarks,
        )
    }
}

/// Adds those of the entries or items of an array.
#[cycle(remarks)]
fn remark_items<'a>(
    alloc: Global,
    schema: &Schema,
    id: SchemaId,
    items: &'a [Value],
    place: &mut Vec<Step>,
    remarks: &mut Vec<Remark<'a>>,
) -> Result<(), AllocError>
    ensures adds { let s = view schema.now in
        OnOk result (remarks_view remarks.new.items ≡ remarks_view remarks.old.items
        ++ option_map_or (λ n. spec.item_remarks s n (place_view place.old.items) 1 (json.items_view items.entry.now))
        (node_at s id.0) []) }
    ensures place { OnOk result (place.new.items ≡ place.old.items) }
{
    for (index, item) in items.iter().enumerate() {
        let position = Some(index + 1);
        remark_below(alloc, schema, Step { id, position }, item, place, remarks)?;
    }
    Ok(())
}

/// Adds those of what stands a step below the place.
#[cycle(remarks)]
fn remark_below<'a>(
    alloc: Global,
    schema: &Schema,
    step: Step,
    value: &'a Value,
    place: &mut Vec<Step>,
    remarks: &mut Vec<Remark<'a>>,
) -> Result<(), AllocError>
    ensures adds { let s = view schema.now in
        OnOk result (remarks_view remarks.new.items ≡ remarks_view remarks.old.items
        ++ option_map_or (λ n. spec.instance_remarks s n (place_view place.old.items ++ step_view step ∷ [])
        (json.view value.entry.now)) (node_at s step.id.0) []) }
    ensures place { OnOk result (place.new.items ≡ place.old.items) }
{
    place.push(step)?;
    remark_instance(alloc, schema, step.id, value, place, remarks)?;
    place.pop();
    Ok(())
}

/// Adds those of what stands at a container, an entry, a leaf or an item.
#[cycle(remarks)]
fn remark_instance<'a>(
    alloc: Global,
    schema: &Schema,
    id: SchemaId,
    value: &'a Value,
    place: &mut Vec<Step>,
    remarks: &mut Vec<Remark<'a>>,
) -> Result<(), AllocError>
    ensures adds { let s = view schema.now in
        OnOk result (remarks_view remarks.new.items ≡ remarks_view remarks.old.items
        ++ option_map_or (λ n. spec.instance_remarks s n (place_view place.old.items) (json.view value.entry.now))
        (node_at s id.0) []) }
    ensures place { OnOk result (place.new.items ≡ place.old.items) }
{
    let Some(node) = schema.kind(id) else {
        return Ok(());
    };
    if node.kind.has_value() {
        return remark_leaf(alloc, node.kind.form(), value, place, remarks);
    }
    match value {
        Value::Object(members) => {
            remark_members(alloc, schema, Some(id), members, place, remarks)
        }
        _ => add_value(alloc, DocCode::J5, place, value, remarks),
    }
}

/// Adds that of the value of a leaf or an item, if it may not hold it.
fn remark_leaf<'a>(
    alloc: Global,
    form: JsonForm,
    value: &'a Value,
    place: &[Step],
    remarks: &mut Vec<Remark<'a>>,
) -> Result<(), AllocError>
    ensures { OnOk result (remarks_view remarks.new.items ≡ remarks_view remarks.old.items
        ++ spec.leaf_remarks (form_view form) (place_view place.now) (json.view value.entry.now)) }
{
    match refusal_in(form, value) {
        None => Ok(()),
        Some(code) => add_value(alloc, code, place, value, remarks),
    }
}

/// Adds that of a value that is no array, at a list or leaf-list below the place.
fn add_below<'a>(
    alloc: Global,
    id: SchemaId,
    value: &'a Value,
    place: &mut Vec<Step>,
    remarks: &mut Vec<Remark<'a>>,
) -> Result<(), AllocError>
    ensures adds { OnOk result (remarks_view remarks.new.items ≡ remarks_view remarks.old.items
        ++ spec.of_value 5 (place_view place.old.items ++ step_view (record { id = id; position = None }) ∷ [])
        (json.view value.entry.now) ∷ []) }
    ensures place { OnOk result (place.new.items ≡ place.old.items) }
{
    place.push(Step { id, position: None })?;
    add_value(alloc, DocCode::J5, place, value, remarks)?;
    place.pop();
    Ok(())
}
