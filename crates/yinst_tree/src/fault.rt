//! Why a document isn't read.

ghost use Rattle.std.specs.Prelude.{◌≡◌, Some, []};
ghost use Rattle.yinst_tree.specs.View.{place_view};
ghost use Rattle.yinst_tree.specs.Told.{Tells, code_number};
ghost use Rattle.yinst_tree.specs.declared.fault.DocFault.TheVariants.{Memory};

use crate::tree::Step;
use std::alloc::{AllocError, AllocFailed, Global};
use std::fmt;
use thiserror::Error;

/// Why a document isn't read under a schema.
#[derive(Clone, Copy, Debug, PartialEq, Eq)]
pub enum DocCode {
    /// The bytes are no JSON: not UTF-8, not well formed, or nested over 127 deep.
    J1 = 1,
    /// The top isn't an object.
    J2 = 2,
    /// No child has a member's name.
    J3 = 3,
    /// A child has a member's name, but with its module's name where none is due, or without it where it is.
    J4 = 4,
    /// A value isn't of the kind that its node wants.
    J5 = 5,
    /// A number with a fraction or an exponent, or one too large for a whole number, at a leaf.
    J6 = 6,
    /// More nodes than a document may have.
    J7 = 7,
}

impl DocCode {
    ghost use Rattle.std.specs.Prelude.{◌≡◌};
    ghost use Rattle.yinst_tree.specs.Told.{code_number};

    /// The number behind the `J`.
    pub fn number(self) -> u8
        ensures { result ≡ code_number self }
    {
        self as u8
    }
}

impl fmt::Display for DocCode {
    fn fmt<W: fmt::Write>(&self, f: &mut fmt::Formatter<W>) -> fmt::Result {
        write!(f, "J{}", self.number())
    }
}

/// Why a document isn't read, and at which node; no step leads to the root.
#[derive(Debug, Drop, Error)]
pub enum DocFault {
    #[error("{code}")]
    Refused { code: DocCode, place: Vec<Step> },
    #[error("memory")]
    Memory,
}

impl From<AllocError> for DocFault {
    ghost from_gives = { λ _ e. e ≡ Memory };

    fn from(_e: AllocError) -> DocFault {
        DocFault::Memory
    }
}

impl<T: Drop> From<AllocFailed<T>> for DocFault {
    ghost from_gives = { λ _ e. e ≡ Memory };

    fn from(_e: AllocFailed<T>) -> DocFault {
        DocFault::Memory
    }
}

/// The refusal of a document at a place; for want of memory for the place, that.
pub(crate) fn refused(alloc: Global, code: DocCode, place: &[Step]) -> DocFault
    ensures { Tells result (Some
        (record { code = code_number code; place = place_view place.now })) }
{
    match Vec::from_slice(alloc, place) {
        Ok(place) => DocFault::Refused { code, place },
        Err(_) => DocFault::Memory,
    }
}

/// The refusal of a document as a whole.
pub(crate) fn refused_at_root(alloc: Global, code: DocCode) -> DocFault
    ensures { Tells result (Some (record { code = code_number code; place = [] })) }
{
    DocFault::Refused {
        code,
        place: Vec::new(alloc),
    }
}
