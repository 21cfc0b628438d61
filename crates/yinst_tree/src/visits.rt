//! The walk over a document's values that finds the first refusal: depth first, members in byte order of their names, items
//! by position.

ghost use Rattle.std.specs.Prelude.{◌≡◌, ◌+◌, ◌++◌, OnOk, Some, None, [], ◌∷◌};
ghost use Rattle.serde_json.specs.View as json;
ghost use Rattle.yspec.specs.schema.Schema.{module_at, row_at};
ghost use Rattle.yspec.specs.document.Reading.{right, named, at_named, leaf_visit, member_visits, node_visits, item_visits, instance_visits};
ghost use Rattle.yschema_model.specs.Layout.{form_view, number_of};
ghost use Rattle.yschema_model.specs.View.{view};
ghost use Rattle.yinst_tree.specs.View.{place_view};
ghost use Rattle.yinst_tree.specs.Told.{visits_at, code_number, Tells, Walks};

use crate::fault::{DocCode, DocFault, refused, refused_at_root};
use crate::names::{Named, meaning_of};
use crate::tree::Step;
use crate::values::refusal_in;
use serde_json::{Map, Value};
use std::alloc::Global;
use yschema_model::{JsonForm, Schema, SchemaId};

/// Refuses the members of an object below a node, or at the top, whose steps are given. A right node takes of the room,
/// where there is a limit; what is left of it is answered. The place is as before.
#[cycle(visits)]
pub(crate) fn visit_members(
    alloc: Global,
    schema: &Schema,
    parent: Option<SchemaId>,
    members: &Map<String, Value>,
    place: &mut Vec<Step>,
    room: Option<usize>,
) -> Result<Option<usize>, DocFault>
    ensures told { let s = view schema.now in let p = number_of parent in
        Walks room (member_visits s (module_at s p) (row_at s p)
        (place_view place.old.items) (json.members_view members.now.entries)) result }
    ensures place { OnOk result (place.new.items ≡ place.old.items) }
{
    let mut left = room;
    for (name, value) in members.iter() {
        match visit_member(alloc, schema, parent, name.as_str(), value, place, left) {
            Ok(rest) => left = rest,
            Err(fault) => return Err(fault),
        }
    }
    Ok(left)
}

#[cycle(visits)]
fn visit_member(
    alloc: Global,
    schema: &Schema,
    parent: Option<SchemaId>,
    name: &str,
    value: &Value,
    place: &mut Vec<Step>,
    room: Option<usize>,
) -> Result<Option<usize>, DocFault>
    ensures told { let s = view schema.now in let p = number_of parent in
        let steps = place_view place.old.items in
        Walks room (at_named (named s (module_at s p) name.now (row_at s p)) steps
        (λ n below. node_visits s n below steps (json.view value.now))) result }
    ensures place { OnOk result (place.new.items ≡ place.old.items) }
{
    match meaning_of(alloc, schema, parent, name)? {
        Named::Child(id) => visit_node(alloc, schema, id, value, place, room),
        Named::OtherForm => Err(refused(alloc, DocCode::J4, place)),
        Named::Unknown => Err(refused(alloc, DocCode::J3, place)),
    }
}

/// Refuses the value of a member, whose node stands below the place: of a list or leaf-list an array.
#[cycle(visits)]
fn visit_node(
    alloc: Global,
    schema: &Schema,
    id: SchemaId,
    value: &Value,
    place: &mut Vec<Step>,
    room: Option<usize>,
) -> Result<Option<usize>, DocFault>
    ensures told { let s = view schema.now in
        Walks room (visits_at s id.0 (λ n below. node_visits s n below (place_view place.old.items)
        (json.view value.now))) result }
    ensures place { OnOk result (place.new.items ≡ place.old.items) }
{
    let Some(node) = schema.kind(id) else {
        return Ok(room);
    };
    if node.kind.is_many() {
        match value {
            Value::Array(items) => visit_items(alloc, schema, id, items, place, room),
            _ => Err(refused_below(alloc, DocCode::J5, id, place)),
        }
    } else {
        visit_below(
            alloc,
            schema,
            Step { id, position: None },
            value,
            place,
            room,
        )
    }
}

/// Refuses the entries or items of an array.
#[cycle(visits)]
fn visit_items(
    alloc: Global,
    schema: &Schema,
    id: SchemaId,
    items: &[Value],
    place: &mut Vec<Step>,
    room: Option<usize>,
) -> Result<Option<usize>, DocFault>
    ensures told { let s = view schema.now in
        Walks room (visits_at s id.0 (λ n below. item_visits s n below
        (place_view place.old.items) 1 (json.items_view items.now))) result }
    ensures place { OnOk result (place.new.items ≡ place.old.items) }
{
    let mut left = room;
    for (index, item) in items.iter().enumerate() {
        let position = Some(index + 1);
        match visit_below(alloc, schema, Step { id, position }, item, place, left) {
            Ok(rest) => left = rest,
            Err(fault) => return Err(fault),
        }
    }
    Ok(left)
}

/// Refuses what stands a step below the place.
#[cycle(visits)]
fn visit_below(
    alloc: Global,
    schema: &Schema,
    step: Step,
    value: &Value,
    place: &mut Vec<Step>,
    room: Option<usize>,
) -> Result<Option<usize>, DocFault>
    ensures told { let s = view schema.now in
        Walks room (visits_at s step.id.0 (λ n below. instance_visits s n below
        (place_view (place.old.items ++ step ∷ [])) (json.view value.now))) result }
    ensures place { OnOk result (place.new.items ≡ place.old.items) }
{
    place.push(step)?;
    match visit_instance(alloc, schema, step.id, value, place, room) {
        Ok(left) => {
            place.pop();
            Ok(left)
        }
        Err(fault) => Err(fault),
    }
}

/// Refuses what stands at a container, an entry, a leaf or an item; nothing where no node has that number.
#[cycle(visits)]
pub(crate) fn visit_instance(
    alloc: Global,
    schema: &Schema,
    id: SchemaId,
    value: &Value,
    place: &mut Vec<Step>,
    room: Option<usize>,
) -> Result<Option<usize>, DocFault>
    ensures told { let s = view schema.now in
        Walks room (visits_at s id.0 (λ n below. instance_visits s n below
        (place_view place.old.items) (json.view value.now))) result }
    ensures place { OnOk result (place.new.items ≡ place.old.items) }
{
    let Some(node) = schema.kind(id) else {
        return Ok(room);
    };
    if node.kind.has_value() {
        return visit_leaf(alloc, node.kind.form(), value, place, room);
    }
    match value {
        Value::Object(members) => match one_less(alloc, room) {
            Ok(left) => visit_members(alloc, schema, Some(id), members, place, left),
            Err(fault) => Err(fault),
        },
        _ => Err(refused(alloc, DocCode::J5, place)),
    }
}

/// Refuses the value of a leaf or an item.
fn visit_leaf(
    alloc: Global,
    form: JsonForm,
    value: &Value,
    place: &[Step],
    room: Option<usize>,
) -> Result<Option<usize>, DocFault>
    ensures { Walks room (leaf_visit (form_view form) (place_view place.now) (json.view value.now)) result }
{
    match refusal_in(form, value) {
        None => one_less(alloc, room),
        Some(code) => Err(refused(alloc, code, place)),
    }
}

/// The room that a right node leaves; J7 where it has none.
fn one_less(alloc: Global, room: Option<usize>) -> Result<Option<usize>, DocFault>
    ensures { (place : _) → Walks room (right place ∷ []) result }
{
    match room {
        None => Ok(None),
        Some(0) => Err(refused_at_root(alloc, DocCode::J7)),
        Some(room) => Ok(Some(room - 1)),
    }
}

/// The refusal at a node below the place.
fn refused_below(alloc: Global, code: DocCode, id: SchemaId, place: &mut Vec<Step>) -> DocFault
    ensures { Tells result (Some (record {
      code = code_number code;
      place = place_view
          (place.old.items ++ record { id = id; position = None } ∷ []);
    })) }
{
    match place.push(Step { id, position: None }) {
        Ok(()) => refused(alloc, code, place),
        Err(_) => DocFault::Memory,
    }
}
