//! The nodes that may stand in an object: the children of a node of the schema, or the top nodes, with choices and cases
//! passed through (RFC 7950, 7.9).

ghost use Rattle.std.specs.Prelude.{◌≡◌, ◌++◌, IfOk, OnOk, map};
ghost use Rattle.yspec.specs.Forest.{end, node, row};
ghost use Rattle.yspec.specs.schema.Schema as schema_spec;
ghost use Rattle.yspec.specs.schema.Schema.{data_row};
ghost use Rattle.yschema_model.specs.Layout.{number_of};
ghost use Rattle.yschema_model.specs.View.{below_of, label_of, row_view, view};
ghost use Rattle.ysay_refusal.specs.Member as spec;

use std::alloc::{AllocError, Global};
use yschema_model::{Child, Children, Schema, SchemaId};

/// The module of a node; none at the top.
pub fn module_of(schema: &Schema, id: Option<SchemaId>) -> Option<usize>
    ensures { result ≡ schema_spec.module_at (view schema.now) (number_of id) }
{
    match schema.kind(id?) {
        Some(node) => Some(node.module),
        None => None,
    }
}

/// The children of a node, or the top nodes.
pub fn children_of<'a>(schema: &'a Schema, parent: Option<SchemaId>) -> Children<'a>
    ensures { row_view result
        ≡ schema_spec.row_at (view schema.entry.now) (number_of parent) }
{
    match parent {
        Some(id) => schema.children(id),
        None => schema.roots(),
    }
}

/// Adds the data nodes of a row; choices and cases are passed through.
#[cycle(nodes)]
fn add_data_row<'a>(children: Children<'a>, nodes: &mut Vec<Child<'a>>) -> Result<(), AllocError>
    ensures { OnOk result (map label_of nodes.new.items
        ≡ map label_of nodes.old.items ++ row (data_row (row_view children.entry))) }
{
    for child in children {
        add_data_node(child, nodes)?;
    }
    Ok(())
}

#[cycle(nodes)]
fn add_data_node<'a>(child: Child<'a>, nodes: &mut Vec<Child<'a>>) -> Result<(), AllocError>
    ensures { OnOk result (map label_of nodes.new.items ≡ map label_of nodes.old.items
        ++ row (data_row (node (label_of child.entry) (below_of child.entry) end))) }
{
    if child.node().kind.is_data() {
        nodes.push(child)?;
        Ok(())
    } else {
        add_data_row(child.children(), nodes)
    }
}

/// The nodes that may stand below a node, or at the top, in order.
pub(crate) fn nodes_below<'a>(
    alloc: Global,
    schema: &'a Schema,
    parent: Option<SchemaId>,
) -> Result<Vec<Child<'a>>, AllocError>
    ensures { IfOk result (λ nodes. map label_of nodes.items
        ≡ spec.nodes_below (view schema.entry.now) (number_of parent)) }
{
    let mut nodes = Vec::new(alloc);
    add_data_row(children_of(schema, parent), &mut nodes)?;
    Ok(nodes)
}
