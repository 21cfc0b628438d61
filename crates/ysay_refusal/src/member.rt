//! Which member of an object isn't known, or is in the form that isn't due, and which may have been meant (RFC 7951, 4).

ghost use Rattle.std.specs.Prelude.{◌≡◌, IfOk, find, map, option_map, string_bytes};
ghost use Rattle.serde_json.specs.View as json;
ghost use Rattle.yspec.specs.text.Text.{is_text};
ghost use Rattle.yspec.specs.schema.Schema as schema_spec;
ghost use Rattle.ysay_text.specs.Near as near;
ghost use Rattle.yschema_model.specs.Layout.{number_of};
ghost use Rattle.yschema_model.specs.View.{label_of, view};
ghost use Rattle.ysay_refusal.specs.Member as spec;

use crate::nodes::{module_of, nodes_below};
use serde_json::{Map, Value};
use std::alloc::{AllocError, Global};
use ysay_text::nearest;
use yschema_model::{Child, Schema, SchemaId};
use ytext::{offset_of, parts_around};

/// The name of the first member, in byte order of names, that is no child's.
fn strange_in<'a>(
    schema: &Schema,
    parent: Option<SchemaId>,
    members: &'a Map<String, Value>,
) -> Option<&'a str>
    ensures { option_map (λ n. n.now) result ≡ spec.strange_in (view schema.now) (number_of parent)
        (json.members_view members.entry.now.entries) }
{
    for (name, _value) in members.iter() {
        let text = name.as_str();
        match schema.child_written(parent, text) {
            Some(_) => {}
            None => return Some(text),
        }
    }
    None
}

/// The name of the first member of a value that is no child's.
pub(crate) fn strange_member<'a>(
    schema: &Schema,
    parent: Option<SchemaId>,
    value: &'a Value,
) -> Option<&'a str>
    ensures { option_map (λ n. n.now) result ≡ spec.strange_member (view schema.now)
        (number_of parent) (json.view value.entry.now) }
{
    strange_in(schema, parent, value.as_object()?)
}

/// Whether a text is a node's name in the form that isn't due below a node of a module, or at the top.
fn is_other_name(
    alloc: Global,
    schema: &Schema,
    parent_module: Option<usize>,
    child: Child<'_>,
    name: &str,
) -> Result<bool, AllocError>
    ensures { IfOk result (λ is_other. is_other ≡ is_text name.now
        (schema_spec.other_name (view schema.now) parent_module (label_of child.entry))) }
{
    let other = schema.other_name(alloc, parent_module, child.node())?;
    Ok(name == other.as_str())
}

/// The first node that has a name in the form that isn't due.
fn other_node<'a>(
    alloc: Global,
    schema: &Schema,
    parent_module: Option<usize>,
    nodes: &[Child<'a>],
    name: &str,
) -> Result<Option<Child<'a>>, AllocError>
    ensures { IfOk result (λ found. option_map label_of found
        ≡ find (λ n. is_text name.now (schema_spec.other_name (view schema.now) parent_module n))
        (map label_of nodes.now)) }
{
    for child in nodes {
        if is_other_name(alloc, schema, parent_module, *child, name)? {
            return Ok(Some(*child));
        }
    }
    Ok(None)
}

/// A node's name as a document writes it below a node of a module, or at the top.
fn written_name(
    alloc: Global,
    schema: &Schema,
    parent_module: Option<usize>,
    child: Child<'_>,
) -> Result<String, AllocError>
    ensures { IfOk result (λ name. string_bytes name
        ≡ schema_spec.written_name (view schema.now) parent_module (label_of child.entry)) }
{
    schema.written_name(alloc, parent_module, child.node())
}

/// The same of a node, if there is one.
fn name_of(
    alloc: Global,
    schema: &Schema,
    parent_module: Option<usize>,
    child: Option<Child<'_>>,
) -> Result<Option<String>, AllocError>
    ensures { IfOk result (λ name. option_map string_bytes name
        ≡ option_map (schema_spec.written_name (view schema.now) parent_module)
        (option_map label_of child.entry)) }
{
    match child {
        Some(child) => Ok(Some(written_name(alloc, schema, parent_module, child)?)),
        None => Ok(None),
    }
}

/// The name of a node, of some, that is due in place of one in the other form.
fn due_among(
    alloc: Global,
    schema: &Schema,
    parent_module: Option<usize>,
    nodes: &[Child<'_>],
    name: &str,
) -> Result<Option<String>, AllocError>
    ensures { IfOk result (λ due. option_map string_bytes due
        ≡ spec.due_among (view schema.now) parent_module (map label_of nodes.now) name.now) }
{
    let found = other_node(alloc, schema, parent_module, nodes, name)?;
    name_of(alloc, schema, parent_module, found)
}

/// The name that is due in place of one in the other form.
pub fn due_name(
    alloc: Global,
    schema: &Schema,
    parent: Option<SchemaId>,
    name: &str,
) -> Result<Option<String>, AllocError>
    ensures { IfOk result (λ due. option_map string_bytes due
        ≡ spec.due_name (view schema.now) (number_of parent) name.now) }
{
    let parent_module = module_of(schema, parent);
    let nodes = nodes_below(alloc, schema, parent)?;
    due_among(alloc, schema, parent_module, &nodes, name)
}

/// The names of nodes as a document writes them below a node of a module, or at the top.
fn written_names(
    alloc: Global,
    schema: &Schema,
    parent_module: Option<usize>,
    nodes: &[Child<'_>],
) -> Result<Vec<String>, AllocError>
    ensures { IfOk result (λ names. map string_bytes names.items
        ≡ map (schema_spec.written_name (view schema.now) parent_module)
        (map label_of nodes.now)) }
{
    let mut names = Vec::new(alloc);
    for child in nodes {
        names.push(written_name(alloc, schema, parent_module, *child)?)?;
    }
    Ok(names)
}

fn texts_of(alloc: Global, names: &[String]) -> Result<Vec<&str>, AllocError>
    ensures { IfOk result (λ texts. map (λ t. t.now) texts.items ≡ map string_bytes names.now) }
{
    let mut texts = Vec::new(alloc);
    for name in names {
        texts.push(name.as_str())?;
    }
    Ok(texts)
}

/// The nearest of the names of nodes as a document writes them.
fn near_written(
    alloc: Global,
    schema: &Schema,
    parent_module: Option<usize>,
    nodes: &[Child<'_>],
    name: &str,
) -> Result<Option<String>, AllocError>
    ensures { IfOk result (λ found. option_map string_bytes found ≡ near.nearest name.now
        (map (schema_spec.written_name (view schema.now) parent_module)
        (map label_of nodes.now))) }
{
    let names = written_names(alloc, schema, parent_module, nodes)?;
    let texts = texts_of(alloc, &names)?;
    match nearest(name, &texts) {
        Some(found) => Ok(Some(String::from_str(alloc, found)?)),
        None => Ok(None),
    }
}

/// What stands behind the first colon of a name, where it has one.
pub fn own_part(name: &str) -> &str
    ensures { result.now ≡ spec.own_part name.now }
{
    match offset_of(name.as_bytes(), b':') {
        Some(at) => parts_around(name, at).1,
        None => name,
    }
}

/// A node's name, without its module's.
fn own_name<'a>(child: Child<'a>) -> &'a str
    ensures { result.now ≡ (label_of child.entry).name }
{
    child.node().name.as_str()
}

/// The names of nodes, without their modules'.
fn own_names<'a>(alloc: Global, nodes: &[Child<'a>]) -> Result<Vec<&'a str>, AllocError>
    ensures { IfOk result (λ names. map (λ t. t.now) names.items
        ≡ map (λ n. n.name) (map label_of nodes.now)) }
{
    let mut names = Vec::new(alloc);
    for child in nodes {
        names.push(own_name(*child))?;
    }
    Ok(names)
}

/// The first node of a name.
fn named_node<'a>(nodes: &[Child<'a>], name: &str) -> Option<Child<'a>>
    ensures { option_map label_of result
        ≡ find (λ n. is_text name.now n.name) (map label_of nodes.now) }
{
    for child in nodes {
        if name == own_name(*child) {
            return Some(*child);
        }
    }
    None
}

/// The nearest of the names of nodes, without their modules', as a document writes it.
fn near_own(
    alloc: Global,
    schema: &Schema,
    parent_module: Option<usize>,
    nodes: &[Child<'_>],
    name: &str,
) -> Result<Option<String>, AllocError>
    ensures { IfOk result (λ found. option_map string_bytes found
        ≡ spec.near_own (schema_spec.written_name (view schema.now) parent_module)
        (map label_of nodes.now) name.now) }
{
    let names = own_names(alloc, nodes)?;
    match nearest(own_part(name), &names) {
        Some(found) => name_of(alloc, schema, parent_module, named_node(nodes, found)),
        None => Ok(None),
    }
}

/// The nearest of the names of nodes as a document writes them, or where none is near, the nearest behind the colon.
fn near_among(
    alloc: Global,
    schema: &Schema,
    parent_module: Option<usize>,
    nodes: &[Child<'_>],
    name: &str,
) -> Result<Option<String>, AllocError>
    ensures { IfOk result (λ found. option_map string_bytes found
        ≡ spec.near_among (schema_spec.written_name (view schema.now) parent_module)
        (map label_of nodes.now) name.now) }
{
    match near_written(alloc, schema, parent_module, nodes, name)? {
        Some(found) => Ok(Some(found)),
        None => near_own(alloc, schema, parent_module, nodes, name),
    }
}

/// The nearest of the names that may stand there.
pub fn near_name(
    alloc: Global,
    schema: &Schema,
    parent: Option<SchemaId>,
    name: &str,
) -> Result<Option<String>, AllocError>
    ensures { IfOk result (λ found. option_map string_bytes found
        ≡ spec.near_name (view schema.now) (number_of parent) name.now) }
{
    let parent_module = module_of(schema, parent);
    let nodes = nodes_below(alloc, schema, parent)?;
    near_among(alloc, schema, parent_module, &nodes, name)
}
