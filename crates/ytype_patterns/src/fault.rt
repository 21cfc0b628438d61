//! Why a pattern isn't read.

ghost use Rattle.std.specs.Prelude.{◌≡◌};
ghost use Rattle.ytype_patterns.specs.declared.fault.PatternFault.TheVariants as faults;

use std::alloc::{AllocError, AllocFailed};
use thiserror::Error;

/// Why it isn't known what a text spells.
#[derive(Clone, Copy, Debug, PartialEq, Eq, Error)]
pub enum PatternFault {
    /// The automaton would be too large.
    #[error("pattern too large")]
    TooLarge,
    #[error("memory")]
    Memory,
}

impl From<AllocError> for PatternFault {
    ghost from_gives = { λ _ e. e ≡ faults.Memory };

    fn from(_e: AllocError) -> PatternFault {
        PatternFault::Memory
    }
}

impl<T: Drop> From<AllocFailed<T>> for PatternFault {
    ghost from_gives = { λ _ e. e ≡ faults.Memory };

    fn from(_e: AllocFailed<T>) -> PatternFault {
        PatternFault::Memory
    }
}
