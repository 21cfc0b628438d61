//! The label of a node: its name and its options.

ghost use Rattle.std.specs.Prelude.{◌≡◌, ◌<◌, ◌^◌, length};
ghost use Rattle.yspec.specs.schema.Diagram as spec;
ghost use Rattle.ybase_output.specs.Writing.{Writes, side};
ghost use Rattle.yschema_model.specs.Layout.{absence_view, numbers_of};
ghost use Rattle.yschema_model.specs.View.{kind_view, node_view, view};

use crate::fault::{DiagramFault, put};
use ybase_output::Sink;
use yschema_model::{Absence, Kind, Schema, SchemaId, SchemaNode};

/// Writes the name of a node, behind its module's prefix where that isn't the module that is shown.
pub(crate) fn write_prefixed<W: Sink>(
    schema: &Schema,
    shown: usize,
    node: &SchemaNode,
    sink: &mut W,
) -> Result<(), DiagramFault>
    ensures { Writes (side W.taken W.failures sink.old) (side W.taken W.failures sink.new)
        (spec.prefixed_name (view schema.now) shown (node_view 0 node.now)) result }
{
    let name = node.name.as_str();
    if node.module == shown {
        put(sink, &[name])
    } else {
        let prefix = schema.module_prefix(node.module).unwrap_or("");
        put(sink, &[prefix, ":", name])
    }
}

/// Writes the name of a node; choices and cases stand in parentheses.
fn write_name<W: Sink>(
    schema: &Schema,
    shown: usize,
    node: &SchemaNode,
    sink: &mut W,
) -> Result<(), DiagramFault>
    ensures { Writes (side W.taken W.failures sink.old) (side W.taken W.failures sink.new)
        (spec.name_text (view schema.now) shown (node_view 0 node.now)) result }
{
    if node.kind.is_data() {
        return write_prefixed(schema, shown, node, sink);
    }
    put(sink, &["("])?;
    write_prefixed(schema, shown, node, sink)?;
    put(sink, &[")"])
}

/// The option of a node, or no text.
fn option_mark(kind: &Kind) -> &'static str
    ensures { result.now ≡ spec.option_mark (kind_view kind.now) }
{
    match kind {
        Kind::Container { presence: true } => "!",
        Kind::Container { presence: false } => "",
        Kind::Leaf { absence, .. } => absence_mark(absence),
        Kind::LeafList { .. } | Kind::List { .. } => "*",
        Kind::Choice {
            mandatory: true,
            ..
        } => "",
        Kind::Choice {
            mandatory: false,
            ..
        } => "?",
        Kind::Case => "",
    }
}

fn absence_mark(absence: &Absence) -> &'static str
    ensures { result.now ≡ spec.absence_mark (absence_view absence.now) }
{
    match absence {
        Absence::Allowed | Absence::DefaultUsed(_) => "?",
        Absence::Mandatory | Absence::Key => "",
    }
}

/// The name of a key, or no text of a number that no node has.
fn key_name(schema: &Schema, id: SchemaId) -> &str
    ensures { result.now ≡ spec.key_name (view schema.now) id.0 }
{
    match schema.kind(id) {
        Some(node) => node.name.as_str(),
        None => "",
    }
}

/// Writes the names of keys.
fn write_keys<W: Sink>(schema: &Schema, keys: &[SchemaId], sink: &mut W) -> Result<(), DiagramFault>
    ensures { Writes (side W.taken W.failures sink.old) (side W.taken W.failures sink.new)
        (spec.key_names (view schema.now) (numbers_of keys.now)) result }
{
    let Some((first, others)) = keys.split_first() else {
        return Ok(());
    };
    put(sink, &[" [", key_name(schema, *first)])?;
    for other in others {
        put(sink, &[" ", key_name(schema, *other)])?;
    }
    put(sink, &["]"])
}

/// Writes the label of a node.
pub(crate) fn write_label<W: Sink>(
    schema: &Schema,
    shown: usize,
    node: &SchemaNode,
    sink: &mut W,
) -> Result<(), DiagramFault>
    ensures { Writes (side W.taken W.failures sink.old) (side W.taken W.failures sink.new)
        (spec.label (view schema.now) shown (node_view 0 node.now)) result }
{
    write_name(schema, shown, node, sink)?;
    put(sink, &[option_mark(&node.kind)])?;
    write_keys(schema, node.kind.keys(), sink)
}

/// How many bytes the name of a node has with its prefix.
fn prefixed_width(schema: &Schema, shown: usize, node: &SchemaNode) -> u128
    ensures width { result ≡ length
        (spec.prefixed_name (view schema.now) shown (node_view 0 node.now)) }
    ensures bound { result < 2 ^ 66 }
{
    let width = node.name.len() as u128;
    if node.module == shown {
        width
    } else {
        let prefix = schema.module_prefix(node.module).unwrap_or("");
        prefix.len() as u128 + 1 + width
    }
}

/// How much of the column the label of a node fills: that of a leaf or leaf-list.
pub(crate) fn label_width(schema: &Schema, shown: usize, node: &SchemaNode) -> u128
    ensures { result ≡ spec.label_width (view schema.now) shown (node_view 0 node.now) }
{
    if node.kind.has_value() {
        prefixed_width(schema, shown, node) + option_mark(&node.kind).len() as u128
    } else {
        0
    }
}
