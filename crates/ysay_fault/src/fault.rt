//! Why what is said of a fault wasn't written.

use std::alloc::AllocError;
use thiserror::Error;
use ybase_output::SinkFault;

/// Why what is said of a fault wasn't written.
#[derive(Clone, Copy, Debug, PartialEq, Eq, Error)]
pub enum ExplanationFault {
    /// A call of the sink failed.
    #[error("write failed")]
    Device,
    /// Memory ran out, before anything was written.
    #[error("out of memory")]
    Memory,
}

impl From<SinkFault> for ExplanationFault {
    ghost use Rattle.std.specs.Prelude.{◌≡◌};
    ghost use Rattle.ysay_fault.specs.declared.fault.ExplanationFault.TheVariants.{Device};

    ghost from_gives = { λ _ fault. fault ≡ Device };

    fn from(_fault: SinkFault) -> ExplanationFault {
        ExplanationFault::Device
    }
}

impl From<AllocError> for ExplanationFault {
    ghost use Rattle.std.specs.Prelude.{◌≡◌};
    ghost use Rattle.ysay_fault.specs.declared.fault.ExplanationFault.TheVariants.{Memory};

    ghost from_gives = { λ _ fault. fault ≡ Memory };

    fn from(_error: AllocError) -> ExplanationFault {
        ExplanationFault::Memory
    }
}
