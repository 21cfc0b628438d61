//! Why there is no such type.

ghost use Rattle.std.specs.Prelude.{◌≡◌};
ghost use Rattle.ytype_numbers.specs.declared.fault.NarrowFault.TheVariants as narrow_fault;

use std::alloc::{AllocError, AllocFailed};
use thiserror::Error;

/// Why there is no such type.
#[derive(Clone, Copy, Debug, PartialEq, Eq, Error)]
pub enum NarrowFault {
    #[error("no such type")]
    Refused,
    #[error("memory")]
    Memory,
}

impl From<AllocError> for NarrowFault {
    ghost from_gives = { λ _ e. e ≡ narrow_fault.Memory };

    fn from(_e: AllocError) -> NarrowFault {
        NarrowFault::Memory
    }
}

impl<T: Drop> From<AllocFailed<T>> for NarrowFault {
    ghost from_gives = { λ _ e. e ≡ narrow_fault.Memory };

    fn from(_e: AllocFailed<T>) -> NarrowFault {
        NarrowFault::Memory
    }
}
