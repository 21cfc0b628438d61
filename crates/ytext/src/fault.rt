//! Why a module's text isn't read.

ghost use Rattle.std.specs.Prelude.{◌≡◌, ◌<◌, ◌^◌};
ghost use Rattle.ytext.specs.declared.fault.TextFault.TheVariants.{Memory, Refused};

use std::alloc::{AllocError, AllocFailed};
use std::fmt;
use thiserror::Error;

/// What is wrong with a text.
#[derive(Clone, Copy, Debug, PartialEq, Eq)]
pub enum TextCode {
    /// It isn't UTF-8.
    L1 = 1,
    /// A character isn't allowed in it.
    L2 = 2,
    /// A quote or a comment isn't closed.
    L3 = 3,
    /// A backslash in double quotes stands before another character than `n`, `t`, `"` and `\`.
    L4 = 4,
    /// A token is out of place.
    L5 = 5,
    /// The text isn't one statement: a `}` too many, an early end, no statement, or a second one.
    L6 = 6,
    /// The text is too long, or a block nests too deep.
    L7 = 7,
    /// A keyword isn't formed as one.
    L8 = 8,
}

impl TextCode {
    ghost use Rattle.std.specs.Prelude.{◌≡◌};
    ghost use Rattle.ytext.specs.Told.{number_of};

    /// The number behind the `L`.
    pub fn number(self) -> u8
        ensures { result ≡ number_of self }
    {
        self as u8
    }
}

impl fmt::Display for TextCode {
    fn fmt<W: fmt::Write>(&self, f: &mut fmt::Formatter<W>) -> fmt::Result {
        write!(f, "L{}", self.number())
    }
}

/// Why a text isn't read, and in which line, counted from 1.
#[derive(Clone, Copy, Debug, PartialEq, Eq, Error)]
pub enum TextFault {
    #[error("{code}")]
    Refused { code: TextCode, line: u32 },
    #[error("memory")]
    Memory,
}

impl TextFault {
    /// What is wrong with a text, and in which line.
    pub(crate) fn refused(code: TextCode, line: u64) -> TextFault
        requires { line < 2 ^ 32 }
        ensures { result ≡ Refused code line }
    {
        TextFault::Refused {
            code,
            line: line as u32,
        }
    }
}

impl From<AllocError> for TextFault {
    ghost from_gives = { λ _ e. e ≡ Memory };

    fn from(_e: AllocError) -> TextFault {
        TextFault::Memory
    }
}

impl<T: Drop> From<AllocFailed<T>> for TextFault {
    ghost from_gives = { λ _ e. e ≡ Memory };

    fn from(_e: AllocFailed<T>) -> TextFault {
        TextFault::Memory
    }
}
