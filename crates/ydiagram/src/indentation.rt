//! What stands in front of a line.

ghost use Rattle.std.specs.Prelude.{◌≡◌};
ghost use Rattle.ybase_output.specs.Writing.{Writes, side};
ghost use Rattle.ydiagram.specs.View.{column, indentation_text};

use crate::fault::{DiagramFault, put};
use ybase_output::Sink;

/// The indentation of a row: that of the row above it, and a column below its parent.
#[derive(Clone, Copy)]
pub(crate) enum Indentation<'a> {
    /// That of top nodes.
    Top,
    /// That of the nodes that an augment adds.
    Added,
    /// Below a node, with a bar where others follow the node in its row.
    Below {
        above: &'a Indentation<'a>,
        is_followed: bool,
    },
}

fn column(is_followed: bool) -> &'static str
    ensures { result.now ≡ column is_followed }
{
    if is_followed { "|  " } else { "   " }
}

/// Writes an indentation.
pub(crate) fn write_indentation<W: Sink>(
    indentation: &Indentation<'_>,
    sink: &mut W,
) -> Result<(), DiagramFault>
    ensures { Writes (side W.taken W.failures sink.old) (side W.taken W.failures sink.new)
        (indentation_text indentation.now) result }
{
    match indentation {
        Indentation::Top => put(sink, &["  "]),
        Indentation::Added => put(sink, &["    "]),
        Indentation::Below { above, is_followed } => {
            write_indentation(above, sink)?;
            put(sink, &[column(*is_followed)])
        }
    }
}
