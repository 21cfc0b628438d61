//! The lines of a diagram.

ghost use Rattle.std.specs.Prelude.{◌≡◌};
ghost use Rattle.yspec.specs.schema.Schema.{module_name};
ghost use Rattle.yspec.specs.schema.Diagram as spec;
ghost use Rattle.ybase_output.specs.Writing.{Writes, side};
ghost use Rattle.yschema_model.specs.View.{label_of, below_of, node_view, row_view, view};
ghost use Rattle.ydiagram.specs.View.{held_written, indentation_text, line_written, node_written, row_written, shows, shown_in};

use crate::augments::write_augments;
use crate::column::write_type_column;
use crate::fault::{DiagramFault, put};
use crate::indentation::{Indentation, write_indentation};
use crate::label::{label_width, write_label};
use crate::marks::write_marks;
use ybase_output::Sink;
use yschema_model::{Child, Children, Schema, SchemaNode};

/// Whether a row shows a node: one that shows the nodes of one module alone, or all.
fn is_shown(owner: Option<usize>, node: &SchemaNode) -> bool
    ensures { result ≡ shows owner (node_view 0 node.now) }
{
    match owner {
        Some(module) => node.module == module,
        None => true,
    }
}

/// The width of the widest label in a row.
fn row_width(schema: &Schema, shown: usize, owner: Option<usize>, nodes: Children<'_>) -> u128
    ensures { result ≡ spec.row_width (view schema.now) shown
        (shown_in owner (row_view nodes.entry)) }
{
    let mut width = 0;
    for child in nodes {
        let node = child.node();
        if is_shown(owner, node) {
            width = label_width(schema, shown, node).max(width);
        }
    }
    width
}

/// Writes the line of a node, given the widest label in its row.
fn write_line<W: Sink>(
    schema: &Schema,
    shown: usize,
    indentation: &Indentation<'_>,
    width: u128,
    node: &SchemaNode,
    sink: &mut W,
) -> Result<(), DiagramFault>
    ensures { Writes (side W.taken W.failures sink.old) (side W.taken W.failures sink.new)
        (line_written (view schema.now) shown (indentation_text indentation.now) width
        (node_view 0 node.now)) result }
{
    write_indentation(indentation, sink)?;
    write_marks(node, sink)?;
    write_label(schema, shown, node, sink)?;
    write_type_column(schema, shown, width, node, sink)?;
    put(sink, &["\n"])
}

/// Writes the lines of a row, or of its nodes of one module, and of all below them.
#[cycle(rows)]
fn write_row<W: Sink>(
    schema: &Schema,
    shown: usize,
    indentation: &Indentation<'_>,
    owner: Option<usize>,
    nodes: Children<'_>,
    sink: &mut W,
) -> Result<(), DiagramFault>
    ensures { Writes (side W.taken W.failures sink.old) (side W.taken W.failures sink.new)
        (row_written (view schema.now) shown (indentation_text indentation.now)
        (shown_in owner (row_view nodes.entry))) result }
{
    let width = row_width(schema, shown, owner, nodes);
    let mut held = None;
    for child in nodes {
        if !is_shown(owner, child.node()) {
            continue;
        }
        write_held(schema, shown, indentation, width, held, true, sink)?;
        held = Some(child);
    }
    write_held(schema, shown, indentation, width, held, false, sink)
}

/// Writes the lines of a node that was held back until it was known whether others follow, where there is one.
#[cycle(rows)]
pub(crate) fn write_held<W: Sink>(
    schema: &Schema,
    shown: usize,
    indentation: &Indentation<'_>,
    width: u128,
    held: Option<Child<'_>>,
    is_followed: bool,
    sink: &mut W,
) -> Result<(), DiagramFault>
    ensures { Writes (side W.taken W.failures sink.old) (side W.taken W.failures sink.new)
        (held_written (view schema.now) shown
        (indentation_text indentation.now) width held.entry is_followed) result }
{
    match held {
        Some(child) => write_node(schema, shown, indentation, width, child, is_followed, sink),
        None => Ok(()),
    }
}

/// Writes the line of a node, which others follow in its row or not, and those of all below it.
#[cycle(rows)]
fn write_node<W: Sink>(
    schema: &Schema,
    shown: usize,
    indentation: &Indentation<'_>,
    width: u128,
    child: Child<'_>,
    is_followed: bool,
    sink: &mut W,
) -> Result<(), DiagramFault>
    ensures { Writes (side W.taken W.failures sink.old) (side W.taken W.failures sink.new)
        (node_written (view schema.now) shown (indentation_text indentation.now) width
        (label_of child.entry) (below_of child.entry) is_followed) result }
{
    write_line(schema, shown, indentation, width, child.node(), sink)?;
    let inner = Indentation::Below {
        above: &*indentation,
        is_followed,
    };
    write_row(schema, shown, &inner, None, child.children(), sink)
}

/// The name of the module of a number in the set, or no text.
fn module_name(schema: &Schema, shown: usize) -> &str
    ensures { result.now ≡ module_name (view schema.now) shown }
{
    schema.module_name(shown).unwrap_or("")
}

/// Writes the heading of a module, and its own nodes.
fn write_module<W: Sink>(schema: &Schema, module: usize, sink: &mut W) -> Result<(), DiagramFault>
    ensures { let s = view schema.now in
        Writes (side W.taken W.failures sink.old) (side W.taken W.failures sink.new)
        (spec.part_text s «module» (spec.module_part s «module»)) result }
{
    put(sink, &["module: ", module_name(schema, module), "\n"])?;
    write_row(
        schema,
        module,
        &Indentation::Top,
        Some(module),
        schema.roots(),
        sink,
    )
}

/// Writes the diagram of the module of a number in the set, with its augments of other modules (RFC 8340). It takes no
/// memory.
pub fn write<W: Sink>(schema: &Schema, module: usize, sink: &mut W) -> Result<(), DiagramFault>
    ensures { Writes (side W.taken W.failures sink.old) (side W.taken W.failures sink.new)
        (spec.diagram (view schema.now) «module») result }
{
    write_module(schema, module, sink)?;
    write_augments(schema, module, schema.augments(module), sink)
}
