//! Other entries with the same tuple, and other items with the same value (RFC 7950, 7.7, 7.8.2 and 7.8.3).

ghost use Rattle.std.specs.Prelude.{◌≡◌, IfOk, option_map, string_bytes};
ghost use Rattle.yspec.specs.document.Instances.{tuple, is_tuple, value_of, is_value};
ghost use Rattle.yschema_model.specs.View as schema_view;
ghost use Rattle.yinst_tree.specs.View as document_view;
ghost use Rattle.ysay_fault.specs.Fellows as spec;

use std::alloc::{AllocError, Global};
use ycheck::{tuple_of, value_of};
use yinst_tree::{Step, Stored};
use ysay_place::{instance_to, position_path};
use yschema_model::{Kind, Schema, SchemaId};
use ytype::Val;

/// The tuple of that number of an entry, from 0 for the key.
pub(crate) fn entry_tuple(
    alloc: Global,
    schema: &Schema,
    stored: &Stored,
    number: usize,
) -> Result<Option<Vec<Val>>, AllocError>
    ensures { let s = document_view.view stored.now in
        IfOk result (λ found. option_map (λ vs. vs.items) found
        ≡ tuple (schema_view.view schema.now) s.0 s.1 number) }
{
    let Some(node) = schema.kind(stored.id()) else {
        return Ok(None);
    };
    match &node.kind {
        Kind::List { tuples, .. } => tuple_of(alloc, schema, tuples, stored.below(), number),
        _ => Ok(None),
    }
}

/// Whether an entry has that tuple.
fn has_tuple(
    alloc: Global,
    schema: &Schema,
    stored: &Stored,
    number: usize,
    wanted: &[Val],
) -> Result<bool, AllocError>
    ensures { let s = document_view.view stored.now in
        IfOk result (λ has. has
        ≡ is_tuple wanted.now (tuple (schema_view.view schema.now) s.0 s.1 number)) }
{
    match entry_tuple(alloc, schema, stored, number)? {
        Some(found) => Ok(wanted == found.as_slice()),
        None => Ok(false),
    }
}

/// Whether an item has that value.
fn has_value(
    alloc: Global,
    schema: &Schema,
    stored: &Stored,
    wanted: &Val,
) -> Result<bool, AllocError>
    ensures { let s = document_view.view stored.now in
        IfOk result (λ has. has
        ≡ is_value wanted.now (value_of (schema_view.view schema.now) s.0)) }
{
    match value_of(alloc, schema, stored)? {
        Some(found) => Ok(*wanted == found),
        None => Ok(false),
    }
}

/// The position of the first entry of a list that has that tuple, but for the entry at a position.
fn other_entry(
    alloc: Global,
    schema: &Schema,
    row: &[Stored],
    id: SchemaId,
    own: usize,
    number: usize,
    wanted: &[Val],
) -> Result<Option<usize>, AllocError>
    ensures { let s = schema_view.view schema.now in
        IfOk result (λ found. found
        ≡ spec.fellow_by (λ r below. is_tuple wanted.now (tuple s r below number))
        (document_view.row_view row.now) id.0 own) }
{
    let mut position = 1;
    for stored in row {
        if stored.id().0 == id.0 {
            if position != own && has_tuple(alloc, schema, stored, number, wanted)? {
                return Ok(Some(position));
            }
            position += 1;
        }
    }
    Ok(None)
}

/// The position of the first item of a leaf-list that has that value, but for the item at a position.
fn other_item(
    alloc: Global,
    schema: &Schema,
    row: &[Stored],
    id: SchemaId,
    own: usize,
    wanted: &Val,
) -> Result<Option<usize>, AllocError>
    ensures { let s = schema_view.view schema.now in
        IfOk result (λ found. found
        ≡ spec.fellow_by (λ r below. is_value wanted.now (value_of s r))
        (document_view.row_view row.now) id.0 own) }
{
    let mut position = 1;
    for stored in row {
        if stored.id().0 == id.0 {
            if position != own && has_value(alloc, schema, stored, wanted)? {
                return Ok(Some(position));
            }
            position += 1;
        }
    }
    Ok(None)
}

/// The position of the first other entry that has the tuple of the entry to which a step leads.
pub(crate) fn fellow_entry(
    alloc: Global,
    schema: &Schema,
    number: usize,
    row: &[Stored],
    step: &Step,
) -> Result<Option<usize>, AllocError>
    ensures { IfOk result (λ found. found
        ≡ spec.fellow_entry (schema_view.view schema.now) number
        (document_view.row_view row.now) (document_view.step_view step.now)) }
{
    let Some(own) = step.position else {
        return Ok(None);
    };
    let Some(entry) = instance_to(row, step) else {
        return Ok(None);
    };
    match entry_tuple(alloc, schema, entry, number)? {
        Some(wanted) => other_entry(alloc, schema, row, step.id, own, number, &wanted),
        None => Ok(None),
    }
}

/// The position of the first other item that has the value of the item to which a step leads.
pub(crate) fn fellow_item(
    alloc: Global,
    schema: &Schema,
    row: &[Stored],
    step: &Step,
) -> Result<Option<usize>, AllocError>
    ensures { IfOk result (λ found. found
        ≡ spec.fellow_item (schema_view.view schema.now) (document_view.row_view row.now)
        (document_view.step_view step.now)) }
{
    let Some(own) = step.position else {
        return Ok(None);
    };
    let Some(item) = instance_to(row, step) else {
        return Ok(None);
    };
    match value_of(alloc, schema, item)? {
        Some(wanted) => other_item(alloc, schema, row, step.id, own, &wanted),
        None => Ok(None),
    }
}

/// The path of a fellow of an entry or item, given the steps above it.
pub(crate) fn fellow_text(
    alloc: Global,
    schema: &Schema,
    above: &[Step],
    id: SchemaId,
    fellow: Option<usize>,
) -> Result<String, AllocError>
    ensures { IfOk result (λ text. string_bytes text
        ≡ spec.fellow_text (schema_view.view schema.now) (document_view.place_view above.now)
        id.0 fellow) }
{
    let Some(position) = fellow else {
        return String::from_str(alloc, "another");
    };
    let mut steps = Vec::from_slice(alloc, above)?;
    steps.push(Step {
        id,
        position: Some(position),
    })?;
    position_path(alloc, schema, &steps)
}
