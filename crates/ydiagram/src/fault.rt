//! Why a diagram wasn't written, and how texts of it are.

ghost use Rattle.std.specs.List.{flat_map};
ghost use Rattle.ybase_output.specs.Writing.{Writes, side};

use thiserror::Error;
use ybase_output::{Sink, SinkFault, write_texts};

/// Why a diagram wasn't written.
#[derive(Clone, Copy, Debug, PartialEq, Eq, Error)]
pub enum DiagramFault {
    /// A call of the sink failed.
    #[error("write failed")]
    Device,
}

impl From<SinkFault> for DiagramFault {
    fn from(_fault: SinkFault) -> DiagramFault {
        DiagramFault::Device
    }
}

/// Writes some texts, one after the other.
pub(crate) fn put<W: Sink>(sink: &mut W, texts: &[&str]) -> Result<(), DiagramFault>
    ensures { Writes (side W.taken W.failures sink.old) (side W.taken W.failures sink.new)
        (flat_map (λ t. t.now) texts.now) result }
{
    match write_texts(sink, texts) {
        Ok(()) => Ok(()),
        Err(fault) => Err(DiagramFault::from(fault)),
    }
}
