//! From a document to its text.

ghost use Rattle.std.specs.Prelude.{◌≡◌, ◌≤◌, ◌<◌, IfOk, OnOk, None, Some, Ok, option_map, string_bytes};
ghost use Rattle.serde_json.specs.Data.{object, put};
ghost use Rattle.serde_json.specs.View as json;
ghost use Rattle.yspec.specs.Forest.{end, node, size};
ghost use Rattle.yspec.specs.schema.Schema as spec;
ghost use Rattle.yspec.specs.schema.Schema.{by_type};
ghost use Rattle.yschema_model.specs.Layout.{form_view};
ghost use Rattle.yspec.specs.document.Document.{document_limit};
ghost use Rattle.yspec.specs.document.Reading.{document_of};
ghost use Rattle.yspec.specs.document.Sorting.{IsSorted};
ghost use Rattle.yspec.specs.document.Writing.{whole_number, data_of, leaf_data, written_node, written_items, with_instances, written_text, IsDocument};
ghost use Rattle.ytype.specs.View as held;
ghost use Rattle.yschema_model.specs.View as schema_view;
ghost use Rattle.yinst_tree.specs.View.{view, row_view, tree_view};
ghost use Rattle.yinst_tree.specs.Walk.{walked, members_in};
ghost use Rattle.yinst_tree.specs.Written.{stored_text, written_stored};

use crate::document::Tree;
use crate::instances::instances_of;
use crate::names::written_name;
use crate::tree::Stored;
use crate::values::whole_value;
use serde_json::{Map, Number, Value};
use std::alloc::{AllocError, Global};
use yschema_model::{Child, Children, JsonForm, Schema};
use ytype::Raw;

/// The compact JSON text of a document: members in byte order of their names, no line break (RFC 7951). It reads as that
/// document again.
pub fn write(alloc: Global, schema: &Schema, tree: &Tree) -> Result<String, AllocError>
    // of a document whose siblings stand in order, as they do in one that fits the schema
    ensures text { let s = schema_view.view schema.now in let t = tree_view tree.now in
        IfOk result (λ text. IsSorted t → string_bytes text ≡ written_text s t) }
    ensures reads_back { let s = schema_view.view schema.now in let t = tree_view tree.now in
        IfOk result (λ text. IsDocument s t → size t ≤ document_limit
        → document_of s (string_bytes text) ≡ Ok t) }
{
    value_of_tree(alloc, schema, tree)?.to_string(alloc)
}

/// The compact JSON text of a stored node with all that stands below it; of an entry or item, that of this one.
pub fn write_node(alloc: Global, schema: &Schema, stored: &Stored) -> Result<String, AllocError>
    ensures { IfOk result (λ text. IsSorted (view stored.now).1 → string_bytes text
        ≡ stored_text (schema_view.view schema.now) (view stored.now).0 (view stored.now).1) }
{
    value_of_stored(alloc, schema, stored)?.to_string(alloc)
}

fn value_of_stored(alloc: Global, schema: &Schema, stored: &Stored) -> Result<Value, AllocError>
    ensures { IfOk result (λ value. IsSorted (view stored.now).1 → json.view value
        ≡ written_stored (schema_view.view schema.now) (view stored.now).0 (view stored.now).1) }
{
    let Some(node) = schema.kind(stored.id()) else {
        return Ok(Value::Null);
    };
    if node.kind.has_value() {
        return value_held(alloc, node.kind.form(), stored.value());
    }
    let module = Some(node.module);
    let children = schema.children(stored.id());
    let below = stored.below();
    Ok(Value::Object(members_of(alloc, schema, module, children, below)?))
}

fn value_of_tree(alloc: Global, schema: &Schema, tree: &Tree) -> Result<Value, AllocError>
    ensures { let s = schema_view.view schema.now in
        IfOk result (λ value. json.view value
        ≡ object (members_in s None s.nodes (tree_view tree.now))) }
{
    let nodes = tree.roots();
    Ok(Value::Object(members_of(alloc, schema, None, schema.roots(), nodes)?))
}

/// The members that a row makes below a node of a module, or at the top, given its schema nodes.
#[cycle(members)]
fn members_of(
    alloc: Global,
    schema: &Schema,
    parent_module: Option<usize>,
    children: Children<'_>,
    row: &[Stored],
) -> Result<Map<String, Value>, AllocError>
    ensures { IfOk result (λ members. json.members_view members.entries
        ≡ members_in (schema_view.view schema.now) parent_module
        (schema_view.row_view children.entry) (row_view row.now)) }
{
    let mut members = Map::new(alloc);
    put_row(alloc, schema, parent_module, children, row, &mut members)?;
    Ok(members)
}

/// Puts in the members of a row of schema nodes, and answers what is left of the stored row.
#[cycle(members)]
fn put_row<'a>(
    alloc: Global,
    schema: &Schema,
    parent_module: Option<usize>,
    children: Children<'_>,
    row: &'a [Stored],
    members: &mut Map<String, Value>,
) -> Result<&'a [Stored], AllocError>
    ensures { IfOk result (λ rest. walked (schema_view.view schema.now) parent_module
        (schema_view.row_view children.entry)
        (json.members_view members.old.entries, row_view row.entry.now)
        ≡ (json.members_view members.new.entries, row_view rest.now)) }
{
    let mut rest = row;
    for child in children {
        rest = put_child(alloc, schema, parent_module, child, rest, members)?;
    }
    Ok(rest)
}

/// Puts in the member of a schema node, or those of the data nodes in a choice or case.
#[cycle(members)]
fn put_child<'a>(
    alloc: Global,
    schema: &Schema,
    parent_module: Option<usize>,
    child: Child<'_>,
    rest: &'a [Stored],
    members: &mut Map<String, Value>,
) -> Result<&'a [Stored], AllocError>
    ensures { IfOk result (λ behind. walked (schema_view.view schema.now) parent_module
        (node (schema_view.label_of child.entry) (schema_view.below_of child.entry) end)
        (json.members_view members.old.entries, row_view rest.entry.now)
        ≡ (json.members_view members.new.entries, row_view behind.now)) }
{
    if child.node().kind.is_data() {
        let (found, behind) = instances_of(rest, child.id());
        put_instances(alloc, schema, parent_module, child, found, members)?;
        Ok(behind)
    } else {
        let inside = child.children();
        put_row(alloc, schema, parent_module, inside, rest, members)
    }
}

/// Puts in the member of the instances of a data node, where there are any.
#[cycle(members)]
fn put_instances(
    alloc: Global,
    schema: &Schema,
    parent_module: Option<usize>,
    child: Child<'_>,
    found: &[Stored],
    members: &mut Map<String, Value>,
) -> Result<(), AllocError>
    ensures { let s = schema_view.view schema.now in let n = schema_view.label_of child.entry in
        OnOk result (json.members_view members.new.entries
        ≡ with_instances (spec.written_name s parent_module n) n.kind
        (members_in s (Some n.module_number) (schema_view.below_of child.entry))
        (row_view found.now) (json.members_view members.old.entries)) }
{
    let Some((first, _)) = found.split_first() else {
        return Ok(());
    };
    let node = child.node();
    let name = written_name(alloc, schema, parent_module, node)?;
    let value = if node.kind.is_many() {
        Value::Array(items_of(alloc, schema, child, found)?)
    } else {
        value_of(alloc, schema, child, first)?
    };
    put_member(members, name, value)
}

/// What is written for the entries or items of a list or leaf-list, in their order.
#[cycle(members)]
fn items_of(
    alloc: Global,
    schema: &Schema,
    child: Child<'_>,
    found: &[Stored],
) -> Result<Vec<Value>, AllocError>
    ensures { let s = schema_view.view schema.now in let n = schema_view.label_of child.entry in
        IfOk result (λ items. json.items_view items.items
        ≡ written_items n.kind (members_in s (Some n.module_number)
        (schema_view.below_of child.entry)) (row_view found.now)) }
{
    let mut items = Vec::new(alloc);
    for stored in found {
        items.push(value_of(alloc, schema, child, stored)?)?;
    }
    Ok(items)
}

fn put_member(
    members: &mut Map<String, Value>,
    name: String,
    value: Value,
) -> Result<(), AllocError>
    ensures { OnOk result (json.members_view members.new.entries
        ≡ put (string_bytes name) (json.view value) (json.members_view members.old.entries)) }
{
    members.insert(name, value)?;
    Ok(())
}

/// What is written for a stored node.
#[cycle(members)]
fn value_of(
    alloc: Global,
    schema: &Schema,
    child: Child<'_>,
    stored: &Stored,
) -> Result<Value, AllocError>
    ensures { let s = schema_view.view schema.now in let n = schema_view.label_of child.entry in
        IfOk result (λ value. json.view value ≡ written_node n.kind (view stored.now).0.value
        (members_in s (Some n.module_number) (schema_view.below_of child.entry)
        (view stored.now).1)) }
{
    let node = child.node();
    if node.kind.has_value() {
        return value_held(alloc, node.kind.form(), stored.value());
    }
    let module = Some(node.module);
    let below = stored.below();
    Ok(Value::Object(members_of(alloc, schema, module, child.children(), below)?))
}

/// What is written for the value of a leaf or an item.
fn value_held(alloc: Global, form: JsonForm, raw: Option<&Raw>) -> Result<Value, AllocError>
    ensures { IfOk result (λ value. json.view value
        ≡ leaf_data (form_view form) (option_map (λ r. held.raw_of r.now) raw.entry)) }
{
    match form {
        JsonForm::ByType => value_of_leaf(alloc, raw),
        JsonForm::AnyValue | JsonForm::AnyObject => match raw {
            Some(Raw::Text(text)) => whole_value(alloc, text),
            _ => Ok(Value::Null),
        },
    }
}

/// The same where it is as its type says.
pub fn value_of_leaf(alloc: Global, raw: Option<&Raw>) -> Result<Value, AllocError>
    ensures { IfOk result (λ value. json.view value
        ≡ leaf_data by_type (option_map (λ r. held.raw_of r.now) raw.entry)) }
{
    match raw {
        Some(raw) => value_of_raw(alloc, raw),
        None => Ok(Value::Null),
    }
}

fn value_of_raw(alloc: Global, raw: &Raw) -> Result<Value, AllocError>
    ensures { IfOk result (λ value. json.view value ≡ data_of (held.raw_of raw.now)) }
{
    match raw {
        Raw::Text(text) => Ok(Value::String(text.clone()?)),
        Raw::Int(number) => Ok(value_of_number(*number)),
        Raw::Bool(flag) => Ok(Value::Bool(*flag)),
        Raw::Empty => Ok(Value::Array(vec![in alloc; Value::Null]?)),
    }
}

/// A whole number of 64 bits; of others there is no text.
fn value_of_number(number: i128) -> Value
    ensures { json.view result ≡ whole_number number }
{
    match Number::from_i128(number) {
        Some(whole) => Value::Number(whole),
        None => Value::Null,
    }
}
