//! Documents that are read, put into a store, changed there, and copied back.

use crate::rows::all_hold;
use crate::stores::hang;
use std::alloc::Global;
use test_modules::{ENTRIES, MODULE, NETWORK, STATE};
use yinst_tree::{Tree, read, write};
use yschema::compile;
use yschema_model::{Schema, SchemaId};
use ystore::{Counted, NodeId, Nodes, Row};
use ystore_tree::{copy_tree, insert_part, remove_nodes, store_of_tree};
use ytext::parse;

pub(crate) fn schema_of(alloc: Global, text: &str) -> Option<Schema> {
    let mut modules = Vec::new(alloc);
    modules.push(parse(alloc, text.as_bytes()).ok()?).ok()?;
    compile(alloc, &modules).ok()
}

// The store of a document.
pub(crate) fn opened(alloc: Global, schema: &Schema, document: &str) -> Option<Nodes> {
    let tree = read(alloc, schema, document.as_bytes()).ok()?;
    store_of_tree(alloc, schema, &tree).ok()
}

// Whether a store has this document, and so many nodes.
pub(crate) fn holds(
    alloc: Global,
    schema: &Schema,
    nodes: &Nodes,
    document: &str,
    count: &str,
) -> Option<bool> {
    let copy = copy_tree(alloc, nodes.view()).ok()?;
    let text = write(alloc, schema, &copy).ok()?;
    let is_count = nodes.view().node_count() == count.parse::<usize>().ok()?;
    Some(is_count && text.as_str() == document)
}

// `document => count`: it comes back from a store, which has so many nodes.
fn comes_back(alloc: Global, module: &str, row: &str) -> Option<bool> {
    let (document, count) = row.split_once(" => ")?;
    let schema = schema_of(alloc, module)?;
    let nodes = opened(alloc, &schema, document)?;
    holds(alloc, &schema, &nodes, document, count)
}

#[test]
fn plain_documents(rt: HostRuntime) {
    let rows = r#"{} => 0
{"p:c":{}} => 1
{"p:c":{"id":7}} => 2
{"p:c":{"note":"x\n"}} => 2
{"p:c":{"id":[null],"note":true}} => 3"#;
    all_hold(&rt, rt.alloc(), rows, |alloc, row| {
        comes_back(alloc, MODULE, row)
    });
}

#[test]
fn documents_with_entries(rt: HostRuntime) {
    let rows = r#"{"v:e":[{"id":2,"in":{"x":"a"},"m":[1,1,2]},{"id":1},{"id":1}]} => 11
{"v:e":[{"in":{}},{"m":[3,2]}]} => 5"#;
    all_hold(&rt, rt.alloc(), rows, |alloc, row| {
        comes_back(alloc, ENTRIES, row)
    });
    let state = r#"{"w:c":{"tag":["b","a","b"],"up":true},"w:log":[{"at":"1"},{"at":"1"}]} => 9"#;
    assert!(rt; comes_back(rt.alloc(), STATE, state) == Some(true));
}

// The first node at the top, and its schema node.
fn first_of(counted: &mut Counted<'_>) -> Option<(SchemaId, NodeId)> {
    let id = counted.child(Row::Top, 0)?;
    Some((counted.schema(id)?, id))
}

// Puts the first top node of another document in the place of this one's, whose own numbers are given back.
fn replaced(alloc: Global, schema: &Schema, nodes: &mut Nodes, other: &str) -> Option<()> {
    let tree = read(alloc, schema, other.as_bytes()).ok()?;
    let mut counted = nodes.counted();
    let (id, old) = first_of(&mut counted)?;
    let mut numbers = Vec::new(alloc);
    let new = insert_part(
        &mut counted,
        schema,
        Row::Top,
        tree.into_roots().pop()?,
        &mut numbers,
    )
    .ok()?;
    counted.put_child(Row::Top, id, old, new);
    let below = counted.child(Row::Below(old), 0)?;
    remove_nodes(&mut counted, &[old, below]);
    Some(())
}

// Takes the first top node out.
fn take_first(nodes: &mut Nodes) -> Option<()> {
    let mut counted = nodes.counted();
    let (id, _) = first_of(&mut counted)?;
    counted.take_child_at(Row::Top, id, 0);
    Some(())
}

fn changes_in(alloc: Global, schema: &Schema, nodes: &mut Nodes) -> Option<bool> {
    let new = r#"{"p:c":{"id":8,"note":"y"}}"#;
    replaced(alloc, schema, nodes, new)?;
    let is_put = holds(alloc, schema, nodes, new, "3")?;
    take_first(nodes)?;
    Some(is_put && holds(alloc, schema, nodes, "{}", "3")?)
}

// A container with a leaf is replaced, and taken out.
fn changes(alloc: Global) -> Option<bool> {
    let schema = schema_of(alloc, MODULE)?;
    let mut nodes = opened(alloc, &schema, r#"{"p:c":{"id":7}}"#)?;
    changes_in(alloc, &schema, &mut nodes)
}

// Hangs an entry behind all others, and moves the first behind the second.
fn hang_entry(counted: &mut Counted<'_>, id: SchemaId, new: NodeId) -> Option<()> {
    hang(counted, Row::Top, id, new)?;
    counted.move_child_at(Row::Top, id, 0, 1);
    Some(())
}

// Adds an entry; whether its nodes are listed.
fn add_entry(alloc: Global, schema: &Schema, nodes: &mut Nodes, entry: &str) -> Option<bool> {
    let other = read(alloc, schema, entry.as_bytes()).ok()?;
    let mut counted = nodes.counted();
    let (id, _) = first_of(&mut counted)?;
    let mut numbers = Vec::new(alloc);
    let new = insert_part(
        &mut counted,
        schema,
        Row::Top,
        other.into_roots().pop()?,
        &mut numbers,
    )
    .ok()?;
    hang_entry(&mut counted, id, new)?;
    Some(numbers.len() == 2 && numbers[0] == new)
}

// An entry stands behind those that are there, and in front of nodes of later schema nodes.
fn added(alloc: Global) -> Option<bool> {
    let schema = schema_of(alloc, ENTRIES)?;
    let mut nodes = opened(alloc, &schema, r#"{"v:e":[{"id":2},{"id":1}]}"#)?;
    let is_listed = add_entry(alloc, &schema, &mut nodes, r#"{"v:e":[{"id":3}]}"#)?;
    let document = r#"{"v:e":[{"id":1},{"id":2},{"id":3}]}"#;
    Some(is_listed && holds(alloc, &schema, &nodes, document, "6")?)
}

#[test]
fn changed_documents(rt: HostRuntime) {
    assert!(rt; changes(rt.alloc()) == Some(true));
    assert!(rt; added(rt.alloc()) == Some(true));
}

#[test]
fn networks(rt: HostRuntime) {
    let row =
        r#"{"ex-net:net":{"host":[{"auto":[null],"name":"a","uplink":"b"},{"auto":[null],"name":"b"}]}} => 8"#;
    assert!(rt; comes_back(rt.alloc(), NETWORK, row) == Some(true));
}
