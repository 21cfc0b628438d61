//! From bytes to a document.

ghost use Rattle.std.specs.Prelude.{◌≡◌, ◌≤◌, true, [], IfOk, OnOk, Some, option_map};
ghost use Rattle.serde_json.specs.View as json;
ghost use Rattle.yspec.specs.Forest.{size, node, end, join};
ghost use Rattle.yspec.specs.document.Document.{document_limit};
ghost use Rattle.yspec.specs.document.Reading.{is_object, stored_node, raw_in, members_of, item_row, instance_row, tree_or_refusal, document_of};
ghost use Rattle.yspec.specs.document.Fitting.{Fits};
ghost use Rattle.yspec.specs.document.Writing.{IsDocument};
ghost use Rattle.ytype.specs.View.{raw_of};
ghost use Rattle.yschema_model.specs.View as schema_view;
ghost use Rattle.yinst_tree.specs.View.{view, row_view, tree_view};
ghost use Rattle.yspec.specs.Results.{Gives};
ghost use Rattle.yinst_tree.specs.Told.{Judges, denoted_at, refused_at, told_by};
ghost use Rattle.yinst_tree.specs.Taking.{taken, taken_in};

use crate::document::Tree;
use crate::fault::{DocCode, DocFault, refused_at_root};
use crate::names::take_member;
use crate::tree::Stored;
use crate::values::{is_object, raw_in, raw_of_object};
use crate::visits::{visit_instance, visit_members};
use serde_json::{Map, Value};
use std::alloc::{AllocError, Global};
use yschema_model::{Child, Children, Schema, SchemaId, SchemaNode};
use ytype::Raw;

/// The most nodes that a document may have.
pub const DOCUMENT_LIMIT: usize = 1_000_000;

/// The document that JSON bytes denote under a schema, or the first refusal: J1 and J2, then J3 to J7 depth first, members
/// in byte order of their names, items by position (RFC 7951).
pub fn read(alloc: Global, schema: &Schema, bytes: &[u8]) -> Result<Tree, DocFault>
    ensures answer { Gives tree_view told_by result
        (document_of (schema_view.view schema.now) bytes.now) }
    ensures fitting { IfOk result (λ tree. Fits (schema_view.view schema.now) (tree_view tree)) }
    ensures whole { IfOk result
        (λ tree. IsDocument (schema_view.view schema.now) (tree_view tree)) }
    ensures within { IfOk result (λ tree. size (tree_view tree) ≤ document_limit) }
{
    match Value::from_slice(alloc, bytes) {
        Ok(value) => tree_of(alloc, schema, value),
        Err(error) if error.is_memory() => Err(DocFault::Memory),
        Err(_) => Err(refused_at_root(alloc, DocCode::J1)),
    }
}

/// The document that a value denotes, or its first refusal. The value is taken apart while the document is made.
fn tree_of(alloc: Global, schema: &Schema, value: Value) -> Result<Tree, DocFault>
    ensures { Gives tree_view told_by result
        (tree_or_refusal (schema_view.view schema.now) (json.view value)) }
{
    let Value::Object(mut members) = value else {
        return Err(refused_at_root(alloc, DocCode::J2));
    };
    let mut place = Vec::new(alloc);
    match visit_members(
        alloc,
        schema,
        None,
        &members,
        &mut place,
        Some(DOCUMENT_LIMIT),
    ) {
        Ok(_) => {
            let mut row = Vec::with_capacity(alloc, members.len())?;
            put_rows(alloc, schema, None, schema.roots(), &mut members, &mut row)?;
            Ok(Tree::new(row))
        }
        Err(fault) => Err(fault),
    }
}

/// The first refusal of a value at a node of the schema, which is one entry or item of a list or leaf-list; its place leads
/// from there. There is no limit of nodes.
pub fn check_node(
    alloc: Global,
    schema: &Schema,
    id: SchemaId,
    value: &Value,
) -> Result<(), DocFault>
    ensures { Judges result
        (refused_at (schema_view.view schema.now) id.0 [] (json.view value.now)) }
{
    let mut place = Vec::new(alloc);
    match visit_instance(alloc, schema, id, value, &mut place, None) {
        Ok(_) => Ok(()),
        Err(fault) => Err(fault),
    }
}

/// The stored node that a value denotes at a node of the schema, which is one entry or item of a list or leaf-list, or its
/// first refusal, whose place leads from there; nothing where the schema has no such node. There is no limit of nodes.
pub fn read_node(
    alloc: Global,
    schema: &Schema,
    id: SchemaId,
    value: Value,
) -> Result<Option<Stored>, DocFault>
    ensures refused { Judges result
        (refused_at (schema_view.view schema.now) id.0 [] (json.view value)) }
    ensures node { IfOk result (λ s. option_map view s
        ≡ denoted_at (schema_view.view schema.now) id.0 (json.view value)) }
{
    match check_node(alloc, schema, id, &value) {
        Ok(_) => {}
        Err(fault) => return Err(fault),
    }
    match schema.kind(id) {
        Some(node) => Ok(Some(stored_node(alloc, schema, id, node, schema.children(id), value)?)),
        None => Ok(None),
    }
}

/// Takes out of members what they denote below a node, or at the top, whose children are given, and puts it behind a row.
#[cycle(rows)]
fn put_rows(
    alloc: Global,
    schema: &Schema,
    parent_module: Option<usize>,
    children: Children<'_>,
    members: &mut Map<String, Value>,
    row: &mut Vec<Stored>,
) -> Result<(), AllocError>
    ensures { OnOk result (taken (schema_view.view schema.now) parent_module
        (schema_view.row_view children.entry)
        (row_view row.old.items, json.members_view members.old.entries)
        ≡ (row_view row.new.items, json.members_view members.new.entries)) }
{
    for child in children {
        put_child(alloc, schema, parent_module, child, members, row)?;
    }
    Ok(())
}

/// Takes out of members what they denote at a child, and puts it behind a row; choices and cases are passed through.
#[cycle(rows)]
fn put_child(
    alloc: Global,
    schema: &Schema,
    parent_module: Option<usize>,
    child: Child<'_>,
    members: &mut Map<String, Value>,
    row: &mut Vec<Stored>,
) -> Result<(), AllocError>
    ensures { OnOk result (taken (schema_view.view schema.now) parent_module
        (node (schema_view.label_of child.entry) (schema_view.below_of child.entry) end)
        (row_view row.old.items, json.members_view members.old.entries)
        ≡ (row_view row.new.items, json.members_view members.new.entries)) }
{
    if child.node().kind.is_data() {
        match take_member(alloc, schema, parent_module, child.node(), members)? {
            Some(value) => put_instances(alloc, schema, child, value, row),
            None => Ok(()),
        }
    } else {
        put_rows(alloc, schema, parent_module, child.children(), members, row)
    }
}

/// Puts behind a row the instances that a member's value denotes at a data node.
#[cycle(rows)]
fn put_instances(
    alloc: Global,
    schema: &Schema,
    child: Child<'_>,
    value: Value,
    row: &mut Vec<Stored>,
) -> Result<(), AllocError>
    ensures { let n = schema_view.label_of child.entry in
        OnOk result (row_view row.new.items ≡ join (row_view row.old.items)
        (instance_row n (taken_in (schema_view.view schema.now) n
        (schema_view.below_of child.entry)) (Some (json.view value)))) }
{
    if child.node().kind.is_many() {
        match value {
            Value::Array(items) => put_items(alloc, schema, child, items, row),
            _other => Ok(()),
        }
    } else {
        put_instance(alloc, schema, child, value, row)
    }
}

/// Puts behind a row what each item denotes; an item is gone once its node is made.
#[cycle(rows)]
fn put_items(
    alloc: Global,
    schema: &Schema,
    child: Child<'_>,
    items: Vec<Value>,
    row: &mut Vec<Stored>,
) -> Result<(), AllocError>
    ensures { let n = schema_view.label_of child.entry in
        OnOk result (row_view row.new.items ≡ join (row_view row.old.items)
        (item_row n (taken_in (schema_view.view schema.now) n (schema_view.below_of child.entry))
        (json.items_view items.items))) }
{
    row.reserve(items.len())?;
    for item in items {
        put_instance(alloc, schema, child, item, row)?;
    }
    Ok(())
}

#[cycle(rows)]
fn put_instance(
    alloc: Global,
    schema: &Schema,
    child: Child<'_>,
    value: Value,
    row: &mut Vec<Stored>,
) -> Result<(), AllocError>
    ensures { let n = schema_view.label_of child.entry in let d = json.view value in
        OnOk result (row_view row.new.items
        ≡ join (row_view row.old.items) (node (stored_node n d)
        (taken_in (schema_view.view schema.now) n (schema_view.below_of child.entry) d) end)) }
{
    row.push(stored_node(
        alloc,
        schema,
        child.id(),
        child.node(),
        child.children(),
        value,
    )?)?;
    Ok(())
}

/// What a value denotes at a node whose children are given.
#[cycle(rows)]
fn stored_node(
    alloc: Global,
    schema: &Schema,
    id: SchemaId,
    node: &SchemaNode,
    children: Children<'_>,
    value: Value,
) -> Result<Stored, AllocError>
    ensures { let n = schema_view.node_view id.0 node.now in let d = json.view value in
        IfOk result (λ s. view s ≡ (
          stored_node n d,
          taken_in (schema_view.view schema.now) n (schema_view.row_view children.entry) d,
        )) }
{
    let (held, mut members) = parted(alloc, node, value)?;
    let mut below = Vec::with_capacity(alloc, room_below(node, &members))?;
    put_rows(
        alloc,
        schema,
        Some(node.module),
        children,
        &mut members,
        &mut below,
    )?;
    Ok(Stored::new(id, held, below))
}

/// For how many nodes there is room below one whose value has such members.
fn room_below(node: &SchemaNode, members: &Map<String, Value>) -> usize {
    if node.kind.has_value() {
        0
    } else {
        members.len()
    }
}

/// What a node of the schema holds of a value, and the members of the value.
fn parted(
    alloc: Global,
    node: &SchemaNode,
    value: Value,
) -> Result<(Option<Raw>, Map<String, Value>), AllocError>
    ensures { let d = json.view value in IfOk result (λ parts. (option_map raw_of parts.0
        ≡ raw_in (schema_view.kind_view node.now.kind) d)
        × (json.members_view parts.1.entries ≡ members_of d)) }
{
    if is_object(&value) {
        let held = held_of_object(alloc, node, &value)?;
        Ok((held, members_in(alloc, value)))
    } else {
        Ok((held_of(alloc, node, value)?, Map::new(alloc)))
    }
}

fn members_in(alloc: Global, value: Value) -> Map<String, Value>
    ensures { json.members_view result.entries ≡ members_of (json.view value) }
{
    match value {
        Value::Object(members) => members,
        _ => Map::new(alloc),
    }
}

/// What a node of the schema holds of an object: nothing but where it may hold any.
fn held_of_object(
    alloc: Global,
    node: &SchemaNode,
    value: &Value,
) -> Result<Option<Raw>, AllocError>
    ensures { IfOk result (λ raw. is_object (json.view value.now) ≡ true
        → option_map raw_of raw
        ≡ raw_in (schema_view.kind_view node.now.kind) (json.view value.now)) }
{
    if node.kind.has_value() {
        raw_of_object(alloc, node.kind.form(), value)
    } else {
        Ok(None)
    }
}

/// What a node of the schema holds of a value: nothing but at a leaf or item.
fn held_of(alloc: Global, node: &SchemaNode, value: Value) -> Result<Option<Raw>, AllocError>
    ensures { IfOk result (λ raw. option_map raw_of raw
        ≡ raw_in (schema_view.kind_view node.now.kind) (json.view value)) }
{
    if node.kind.has_value() {
        raw_in(alloc, node.kind.form(), value)
    } else {
        Ok(None)
    }
}
