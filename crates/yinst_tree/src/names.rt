//! Names of members (RFC 7951, 4).

ghost use Rattle.std.specs.Prelude.{◌≡◌, IfOk, OnOk, option_map, string_bytes};
ghost use Rattle.serde_json.specs.Find.{get_member};
ghost use Rattle.serde_json.specs.View as json;
ghost use Rattle.std.specs.List.{list_any};
ghost use Rattle.yspec.specs.Forest.{row, node, end};
ghost use Rattle.yspec.specs.text.Text.{is_text};
ghost use Rattle.yspec.specs.schema.Schema as spec;
ghost use Rattle.yspec.specs.schema.Schema.{row_at, data_row};
ghost use Rattle.yspec.specs.document.Reading.{named};
ghost use Rattle.yschema_model.specs.Layout.{number_of};
ghost use Rattle.yschema_model.specs.View.{view, node_view, row_view, label_of, below_of};
ghost use Rattle.yinst_tree.specs.Taking.{without};
ghost use Rattle.yinst_tree.specs.View.{Means};

use serde_json::{Map, Value};
use std::alloc::{AllocError, Global};
use yschema_model::{Child, Children, Schema, SchemaId, SchemaNode};

/// What the name of a member means.
#[derive(Clone, Copy, Debug)]
pub enum Named {
    /// The child that it is.
    Child(SchemaId),
    /// A child has that name in the form that isn't due.
    OtherForm,
    /// No child has it.
    Unknown,
}

/// What a name means below a node, or at the top: the module's name stands in front where it isn't the parent's.
pub fn meaning_of(
    alloc: Global,
    schema: &Schema,
    parent: Option<SchemaId>,
    name: &str,
) -> Result<Named, AllocError>
    ensures { let s = view schema.now in let p = number_of parent in
        IfOk result (λ m. Means s m (named s (spec.module_at s p) name.now (row_at s p))) }
{
    match schema.child_written(parent, name) {
        Some(id) => Ok(Named::Child(id)),
        None if is_other_form(alloc, schema, parent, name)? => Ok(Named::OtherForm),
        None => Ok(Named::Unknown),
    }
}

/// Whether a child has a name in the form that isn't due there.
fn is_other_form(
    alloc: Global,
    schema: &Schema,
    parent: Option<SchemaId>,
    name: &str,
) -> Result<bool, AllocError>
    ensures { let s = view schema.now in let p = number_of parent in
        IfOk result (λ is_other. is_other
        ≡ list_any (λ n. is_text name.now (spec.other_name s (spec.module_at s p) n))
        (row (data_row (row_at s p)))) }
{
    let parent_module = module_of(schema, parent);
    is_other_in(
        alloc,
        schema,
        parent_module,
        children_of(schema, parent),
        name,
    )
}

/// Whether a data node of a row has a name in the form that isn't due; choices and cases are passed through.
#[cycle(others)]
fn is_other_in(
    alloc: Global,
    schema: &Schema,
    parent_module: Option<usize>,
    children: Children<'_>,
    name: &str,
) -> Result<bool, AllocError>
    ensures { IfOk result (λ is_other. is_other ≡ list_any
        (λ n. is_text name.now (spec.other_name (view schema.now) parent_module n))
        (row (data_row (row_view children.entry)))) }
{
    for child in children {
        if is_other_at(alloc, schema, parent_module, child, name)? {
            return Ok(true);
        }
    }
    Ok(false)
}

#[cycle(others)]
fn is_other_at(
    alloc: Global,
    schema: &Schema,
    parent_module: Option<usize>,
    child: Child<'_>,
    name: &str,
) -> Result<bool, AllocError>
    ensures { IfOk result (λ is_other. is_other
        ≡ list_any (λ n. is_text name.now (spec.other_name (view schema.now) parent_module n))
        (row (data_row (node (label_of child.entry) (below_of child.entry) end)))) }
{
    if child.node().kind.is_data() {
        let other = schema.other_name(alloc, parent_module, child.node())?;
        Ok(name == other.as_str())
    } else {
        is_other_in(alloc, schema, parent_module, child.children(), name)
    }
}

/// The module of a node; none at the top.
fn module_of(schema: &Schema, id: Option<SchemaId>) -> Option<usize>
    ensures { result ≡ spec.module_at (view schema.now) (number_of id) }
{
    match schema.kind(id?) {
        Some(node) => Some(node.module),
        None => None,
    }
}

/// The children of a node, or the top nodes.
fn children_of(schema: &Schema, parent: Option<SchemaId>) -> Children<'_>
    ensures { row_view result ≡ row_at (view schema.now) (number_of parent) }
{
    match parent {
        Some(id) => schema.children(id),
        None => schema.roots(),
    }
}

/// The name that a document writes for a node whose parent is of a module, or that stands at the top.
pub(crate) fn written_name(
    alloc: Global,
    schema: &Schema,
    parent_module: Option<usize>,
    node: &SchemaNode,
) -> Result<String, AllocError>
    ensures { IfOk result (λ s. string_bytes s
        ≡ spec.written_name (view schema.now) parent_module (node_view 0 node.now)) }
{
    schema.written_name(alloc, parent_module, node)
}

/// Takes out of members that of a node whose parent is of a module, or that stands at the top.
pub(crate) fn take_member(
    alloc: Global,
    schema: &Schema,
    parent_module: Option<usize>,
    node: &SchemaNode,
    members: &mut Map<String, Value>,
) -> Result<Option<Value>, AllocError>
    ensures found { let name = spec.written_name (view schema.now) parent_module (node_view 0 node.now) in
        IfOk result (λ found. option_map json.view found
        ≡ get_member name (json.members_view members.old.entries)) }
    ensures left { let name = spec.written_name (view schema.now) parent_module (node_view 0 node.now) in
        OnOk result (json.members_view members.new.entries
        ≡ without name (json.members_view members.old.entries)) }
{
    if is_module(node.module, parent_module) {
        return Ok(members.remove(node.name.as_str()));
    }
    let name = written_name(alloc, schema, parent_module, node)?;
    Ok(members.remove(name.as_str()))
}

/// Whether a module is the parent's, where there is one.
fn is_module(number: usize, parent_module: Option<usize>) -> bool
    ensures { result ≡ spec.is_module number parent_module }
{
    parent_module == Some(number)
}
