//! Schemas: what is asked of one.

use crate::building::schema_of;
use crate::rows::all_hold;
use crate::telling::number_of;
use std::alloc::Global;
use test_modules::{FIRST, SECOND};
use yschema_model::{Absence, Child, Children, Kind, Schema, SchemaId};

// Whether that is the node of a number, or none for `-`.
fn is_node(found: Option<SchemaId>, wanted: &str) -> Option<bool> {
    match found {
        Some(id) => Some(id.0 == number_of(wanted)?),
        None => Some(wanted == "-"),
    }
}

fn is_child(schema: &Schema, parent: Option<SchemaId>, row: &str) -> Option<bool> {
    let (name, wanted) = row.split_once('/')?;
    match name.split_once(' ') {
        None => is_node(schema.child_written(parent, name), wanted),
        Some((module, name)) => {
            let module = number_of(module)? as usize;
            is_node(schema.child(parent, module, name), wanted)
        }
    }
}

// `parent/name/number` for a name as it is written, `parent/module name/number` for another; the parent `-` is above
// the roots.
fn is_found(schema: &Schema, row: &str) -> Option<bool> {
    match row.split_once('/')? {
        ("-", rest) => is_child(schema, None, rest),
        (parent, rest) => is_child(schema, Some(SchemaId(number_of(parent)?)), rest),
    }
}

fn holds(alloc: Global, row: &str) -> Option<bool> {
    let schema = schema_of(alloc, &[FIRST, SECOND])?;
    is_found(&schema, row)
}

#[test]
fn children_by_name(rt: HostRuntime) {
    let rows = "-/0 c/0
-/1 c/5
-/0 x/-
0/0 x/1
2/0 x/3
5/1 x/6
5/0 x/-
7/0 x/-
-/a:c/0
-/b:c/5
-/c/-
0/x/1
0/a:x/-
5/x/6";
    all_hold(&rt, rt.alloc(), rows, holds);
}

fn kind_name(kind: &Kind) -> &'static str {
    match kind {
        _ if kind.is_many() || !kind.is_data() => "other",
        Kind::Leaf {
            absence: Absence::Mandatory,
            ..
        } => "mandatory",
        _ if kind.has_value() => "optional",
        _ => "container",
    }
}

// What a node is, and its name as it is written below a node of the first module, and as it isn't.
fn description(alloc: Global, schema: &Schema, id: SchemaId) -> Option<String> {
    match schema.kind(id) {
        None => String::from_str(alloc, "none").ok(),
        Some(node) => {
            let written = schema.written_name(alloc, Some(0), node).ok()?;
            let other = schema.other_name(alloc, Some(0), node).ok()?;
            format!(in alloc; "{} {written} {other}", kind_name(&node.kind)).ok()
        }
    }
}

// The number and the name of a child, and how many children it has.
fn push_child(alloc: Global, text: &mut String, child: Child<'_>) -> Option<()> {
    let (number, name) = (child.id().0, child.node().name.as_str());
    let count = child.children().count();
    let described = format!(in alloc; " {number} {name} {count},").ok()?;
    text.push_str(described.as_str()).ok()
}

// The same of each child.
fn row(alloc: Global, children: Children<'_>) -> Option<String> {
    let mut text = String::new(alloc);
    for child in children {
        push_child(alloc, &mut text, child)?;
    }
    Some(text)
}

fn is_described(alloc: Global, schema: &Schema, id: SchemaId, wanted: &str) -> Option<bool> {
    Some(description(alloc, schema, id)?.as_str() == wanted)
}

fn is_row(alloc: Global, children: Children<'_>, wanted: &str) -> Option<bool> {
    Some(row(alloc, children)?.as_str() == wanted)
}

// `what the node is/its children` of a node of the next number
fn is_next(alloc: Global, schema: &Schema, number: u32, line: &str) -> Option<bool> {
    let (wanted, children) = line.split_once('/')?;
    let id = SchemaId(number);
    let is_described = is_described(alloc, schema, id, wanted)?;
    Some(is_described && is_row(alloc, schema.children(id), children)?)
}

fn are_nodes(alloc: Global, schema: &Schema, lines: &str) -> Option<bool> {
    let mut number = 0;
    for line in lines.lines() {
        if !is_next(alloc, schema, number, line)? {
            return Some(false);
        }
        number = number.saturating_add(1);
    }
    Some(number == 8)
}

fn are_modules(schema: &Schema) -> bool {
    let are_placed = schema.module("b") == Some(1) && schema.module("pb") == None;
    let is_second = schema.module_name(1) == Some("b") && schema.module_prefix(1) == Some("pb");
    schema.modules() == 2 && are_placed && is_second && schema.module_prefix(2) == None
}

fn has_outline(alloc: Global, schema: &Schema) -> Option<bool> {
    let lines = "container c a:c/ 1 x 0, 2 d 1,
mandatory x a:x/
container d a:d/ 3 x 0,
optional x a:x/
optional y a:y/
container b:c c/ 6 x 0,
optional b:x x/
none/";
    let are_roots = is_row(alloc, schema.roots(), " 0 c 2, 4 y 0, 5 c 1,")?;
    let are_found = is_found(schema, "-/1 c/5")? && is_found(schema, "5/x/6")?;
    let is_whole = schema.nodes() == 7 && are_modules(schema) && are_found;
    Some(are_roots && is_whole && are_nodes(alloc, schema, lines)?)
}

/// Whether the schema of both modules has these nodes: what each is and its children, with their numbers, names and
/// how many children they have.
pub(crate) fn is_outlined(alloc: Global) -> Option<bool> {
    let schema = schema_of(alloc, &[FIRST, SECOND])?;
    has_outline(alloc, &schema)
}

#[test]
fn outline(rt: HostRuntime) {
    assert!(rt; is_outlined(rt.alloc()) == Some(true));
}
