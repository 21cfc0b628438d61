//! The place of the first member that a document gives twice in one object.

ghost use Rattle.std.specs.Prelude.{◌≡◌, ◌++◌, ◌∷◌, [], IfOk, OnOk};
ghost use Rattle.json.specs.Value.{items_view, members_view, value_view};
ghost use Rattle.yschema_model.specs.Layout.{number_of};
ghost use Rattle.yschema_model.specs.View.{view};
ghost use Rattle.yinst_tree.specs.View.{place_view, step_view};
ghost use Rattle.ysay_repeated.specs.Repeated as spec;
ghost use Rattle.ysay_repeated.specs.Found.{steps_of};

use json::{Error, Scratch, Value};
use std::alloc::{AllocError, Global};
use std::collections::BTreeSet;
use yinst_tree::Step;
use yschema_model::{Schema, SchemaId};

/// The place of a node below one whose steps are given.
fn place_below(alloc: Global, place: &[Step], step: Step) -> Result<Vec<Step>, AllocError>
    ensures { IfOk result (λ below. place_view below.items
        ≡ place_view place.now ++ step_view step ∷ []) }
{
    let mut below = Vec::from_slice(alloc, place)?;
    below.push(step)?;
    Ok(below)
}

/// The first of the members of an object below a node, or at the top, whose steps are given. The place is as before.
#[cycle(places)]
fn first_of_members<'a>(
    alloc: Global,
    schema: &Schema,
    parent: Option<SchemaId>,
    members: &[(&'a str, Value<'a>)],
    place: &mut Vec<Step>,
) -> Result<Option<Vec<Step>>, AllocError>
    ensures found { IfOk result (λ found. steps_of found
        ≡ spec.repeated_members (view schema.now) (number_of parent) (place_view place.old.items)
        [] (members_view members.now)) }
    ensures place { OnOk result (place.new.items ≡ place.old.items) }
{
    let mut names = BTreeSet::new(alloc);
    for member in members {
        let is_repeated = !names.insert(member.0)?;
        if let Some(found) = first_at_name(alloc, schema, parent, member, is_repeated, place)? {
            return Ok(Some(found));
        }
    }
    Ok(None)
}

/// The member itself, where an earlier one has its name; else the first in its value.
#[cycle(places)]
fn first_at_name<'a>(
    alloc: Global,
    schema: &Schema,
    parent: Option<SchemaId>,
    member: &(&'a str, Value<'a>),
    is_repeated: bool,
    place: &mut Vec<Step>,
) -> Result<Option<Vec<Step>>, AllocError>
    ensures found { IfOk result (λ found. steps_of found
        ≡ spec.at_name (view schema.now) (number_of parent) (place_view place.old.items)
        is_repeated member.now.0.now (λ node. spec.repeated_value (view schema.now) node
        (place_view place.old.items) (value_view member.now.1))) }
    ensures place { OnOk result (place.new.items ≡ place.old.items) }
{
    let Some(id) = schema.child_written(parent, member.0) else {
        return Ok(None);
    };
    if is_repeated {
        let step = Step { id, position: None };
        return Ok(Some(place_below(alloc, place, step)?));
    }
    first_in_value(alloc, schema, id, &member.1, place)
}

/// The first in the value of a member, whose node stands below the place.
#[cycle(places)]
fn first_in_value<'a>(
    alloc: Global,
    schema: &Schema,
    id: SchemaId,
    value: &Value<'a>,
    place: &mut Vec<Step>,
) -> Result<Option<Vec<Step>>, AllocError>
    ensures found { IfOk result (λ found. steps_of found
        ≡ spec.repeated_value (view schema.now) id.0 (place_view place.old.items)
        (value_view value.now)) }
    ensures place { OnOk result (place.new.items ≡ place.old.items) }
{
    match value {
        Value::Array(items) => first_of_items(alloc, schema, id, items, place),
        _ => first_below(alloc, schema, Step { id, position: None }, value, place),
    }
}

/// The first in the entries of an array.
#[cycle(places)]
fn first_of_items<'a>(
    alloc: Global,
    schema: &Schema,
    id: SchemaId,
    items: &[Value<'a>],
    place: &mut Vec<Step>,
) -> Result<Option<Vec<Step>>, AllocError>
    ensures found { IfOk result (λ found. steps_of found
        ≡ spec.repeated_items (view schema.now) id.0 (place_view place.old.items) 1
        (items_view items.now)) }
    ensures place { OnOk result (place.new.items ≡ place.old.items) }
{
    for (index, item) in items.iter().enumerate() {
        let position = Some(index + 1);
        if let Some(found) = first_below(alloc, schema, Step { id, position }, item, place)? {
            return Ok(Some(found));
        }
    }
    Ok(None)
}

/// The first in the object of a node that stands a step below the place; none where there is another value.
#[cycle(places)]
fn first_below<'a>(
    alloc: Global,
    schema: &Schema,
    step: Step,
    value: &Value<'a>,
    place: &mut Vec<Step>,
) -> Result<Option<Vec<Step>>, AllocError>
    ensures found { IfOk result (λ found. steps_of found
        ≡ spec.repeated_entry (view schema.now) step.id.0
        (place_view place.old.items ++ step_view step ∷ []) (value_view value.now)) }
    ensures place { OnOk result (place.new.items ≡ place.old.items) }
{
    let Value::Object(members) = value else {
        return Ok(None);
    };
    place.push(step)?;
    let found = first_of_members(alloc, schema, Some(step.id), members, place)?;
    place.pop();
    Ok(found)
}

/// The first in the object at the top; none where there is another value.
fn first_at_top(
    alloc: Global,
    schema: &Schema,
    value: &Value<'_>,
) -> Result<Option<Vec<Step>>, AllocError>
    ensures { IfOk result (λ found. steps_of found
        ≡ spec.repeated_at_top (view schema.now) (value_view value.now)) }
{
    match value {
        Value::Object(members) => {
            first_of_members(alloc, schema, None, members, &mut Vec::new(alloc))
        }
        _ => Ok(None),
    }
}

/// The place of the first member, in the order of the text, whose name an earlier member of its object has: that of the node
/// that the name means. None where there is none, or where the bytes are no JSON.
pub fn first_repeated(
    alloc: Global,
    schema: &Schema,
    bytes: &[u8],
) -> Result<Option<Vec<Step>>, AllocError>
    ensures { IfOk result (λ found. steps_of found
        ≡ spec.repeated_in (view schema.now) bytes.now) }
{
    let mut scratch = Scratch::new(alloc);
    match Value::from_slice(alloc, bytes, &mut scratch) {
        Ok(value) => first_at_top(alloc, schema, &value),
        Err(error) if error == Error::OutOfMemory => Err(AllocError),
        Err(_) => Ok(None),
    }
}
