//! The column of types.

ghost use Rattle.std.specs.Prelude.{◌≡◌};
ghost use Rattle.yspec.specs.schema.Diagram as spec;
ghost use Rattle.ybase_output.specs.Writing.{Writes, side};
ghost use Rattle.yschema_model.specs.Layout.{leaf_type_view, number_of};
ghost use Rattle.yschema_model.specs.View.{node_view, view};
ghost use Rattle.ydiagram.specs.View.{step_text};

use crate::fault::{DiagramFault, put};
use crate::label::{label_width, write_prefixed};
use ybase_output::Sink;
use yschema_model::{LeafType, Schema, SchemaId, SchemaNode};

/// Writes so many spaces.
fn write_spaces<W: Sink>(count: u128, sink: &mut W) -> Result<(), DiagramFault>
    ensures { Writes (side W.taken W.failures sink.old) (side W.taken W.failures sink.new)
        (spec.spaces count) result }
{
    let mut left = count;
    while left > 0 {
        put(sink, &[" "])?;
        left -= 1;
    }
    Ok(())
}

/// Writes the step of a path to a node; none to a choice or case.
fn write_step<W: Sink>(
    schema: &Schema,
    shown: usize,
    id: SchemaId,
    sink: &mut W,
) -> Result<(), DiagramFault>
    ensures { Writes (side W.taken W.failures sink.old) (side W.taken W.failures sink.new)
        (step_text (view schema.now) shown id.0) result }
{
    match schema.kind(id) {
        Some(node) => {
            if node.kind.is_data() {
                put(sink, &["/"])?;
                write_prefixed(schema, shown, node, sink)
            } else {
                Ok(())
            }
        }
        None => Ok(()),
    }
}

/// Writes the path to a node.
fn write_path<W: Sink>(
    schema: &Schema,
    shown: usize,
    id: SchemaId,
    sink: &mut W,
) -> Result<(), DiagramFault>
    ensures { Writes (side W.taken W.failures sink.old) (side W.taken W.failures sink.new)
        (spec.path_to (view schema.now) shown id.0) result }
{
    match schema.parent(id) {
        Some(parent) => {
            write_path(schema, shown, parent, sink)?;
            write_step(schema, shown, id, sink)
        }
        None => write_step(schema, shown, id, sink),
    }
}

/// To which node a leafref refers; none of a type that is another by name.
fn referred_node(leaf_type: &LeafType) -> Option<SchemaId>
    ensures { number_of result ≡ spec.referred (leaf_type_view leaf_type.now) }
{
    if leaf_type.name.text() == "leafref" {
        leaf_type.target
    } else {
        None
    }
}

/// Writes the name of a type, or the path of a leafref.
fn write_type<W: Sink>(
    schema: &Schema,
    shown: usize,
    leaf_type: &LeafType,
    sink: &mut W,
) -> Result<(), DiagramFault>
    ensures { Writes (side W.taken W.failures sink.old) (side W.taken W.failures sink.new)
        (spec.type_text (view schema.now) shown (leaf_type_view leaf_type.now)) result }
{
    match referred_node(leaf_type) {
        Some(target) => {
            put(sink, &["-> "])?;
            write_path(schema, shown, target, sink)
        }
        None => put(sink, &[leaf_type.name.text()]),
    }
}

/// Writes the type of a node behind its label, where it has one, given the widest label in its row.
pub(crate) fn write_type_column<W: Sink>(
    schema: &Schema,
    shown: usize,
    width: u128,
    node: &SchemaNode,
    sink: &mut W,
) -> Result<(), DiagramFault>
    ensures { Writes (side W.taken W.failures sink.old) (side W.taken W.failures sink.new)
        (spec.type_column (view schema.now) shown width (node_view 0 node.now)) result }
{
    let Some(leaf_type) = node.kind.leaf_type() else {
        return Ok(());
    };
    write_spaces(width.saturating_sub(label_width(schema, shown, node)), sink)?;
    put(sink, &["   "])?;
    write_type(schema, shown, leaf_type, sink)
}
