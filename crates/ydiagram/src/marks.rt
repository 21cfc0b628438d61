//! The marks of a node: its status and its flags.

ghost use Rattle.std.specs.Prelude.{◌≡◌};
ghost use Rattle.yspec.specs.schema.Diagram as spec;
ghost use Rattle.ybase_output.specs.Writing.{Writes, side};
ghost use Rattle.yschema_model.specs.View.{kind_view, node_view, status_view};

use crate::fault::{DiagramFault, put};
use ybase_output::Sink;
use ybase_words::Status;
use yschema_model::{Kind, SchemaNode};

fn status_mark(status: Status) -> &'static str
    ensures { result.now ≡ spec.status_mark (status_view status) }
{
    match status {
        Status::Current => "+",
        Status::Deprecated => "x",
        Status::Obsolete => "o",
    }
}

fn flags(kind: &Kind, config: bool) -> &'static str
    ensures { result.now ≡ spec.flags (kind_view kind.now) config }
{
    match kind {
        Kind::Case => ":",
        _ => { if config { "rw " } else { "ro " } }
    }
}

/// Writes the marks of a node.
pub(crate) fn write_marks<W: Sink>(node: &SchemaNode, sink: &mut W) -> Result<(), DiagramFault>
    ensures { Writes (side W.taken W.failures sink.old) (side W.taken W.failures sink.new)
        (spec.marks (node_view 0 node.now)) result }
{
    put(
        sink,
        &[
            status_mark(node.status),
            "--",
            flags(&node.kind, node.config),
        ],
    )
}
