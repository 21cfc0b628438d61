//! What comes of edits of a live document, and why a call on one gives nothing.

ghost use Rattle.std.specs.Prelude.{◌≡◌};
ghost use Rattle.ylive.specs.Answers.{stop_number};

use std::fmt;
use thiserror::Error;
use yinst::{DocCode, EditCode, EditFault};

/// How many faults the document had before an edit, and how many it has after it.
#[derive(Clone, Copy, Debug, PartialEq, Eq)]
pub struct Applied {
    pub before: usize,
    pub after: usize,
}

/// Why an edit isn't done.
#[derive(Clone, Copy, Debug, PartialEq, Eq, Error)]
pub enum Refused {
    /// The edit is refused, and the document stays as it was. It is never `EditFault::Memory`.
    #[error(transparent)]
    Edit(EditFault),
    /// E12: memory ran out, so the document is stale from now on.
    #[error("E12")]
    Memory,
    /// E13: the document is stale, and stays as it was.
    #[error("E13")]
    Stale,
}

/// What comes of an edit of a list.
#[derive(Clone, Copy, Debug, PartialEq, Eq)]
pub enum Outcome {
    Accepted,
    /// Why it is refused, and with E10 why the value doesn't fit: J3 to J6.
    Refused {
        code: EditCode,
        doc: Option<DocCode>,
    },
}

/// Which want ends a list of edits.
#[derive(Clone, Copy, Debug, PartialEq, Eq)]
pub enum StopCode {
    /// Memory ran out, so the document is stale from now on.
    E12 = 12,
    /// The document is stale.
    E13 = 13,
}

impl StopCode {
    /// The number behind the `E`.
    pub fn number(self) -> u8
        ensures { result ≡ stop_number self }
    {
        self as u8
    }
}

impl fmt::Display for StopCode {
    fn fmt<W: fmt::Write>(&self, f: &mut fmt::Formatter<W>) -> fmt::Result {
        write!(f, "E{}", self.number())
    }
}

/// Why a list of edits ended early, and how many of its edits were decided.
#[derive(Clone, Copy, Debug, PartialEq, Eq, Error)]
#[error("{code}")]
pub struct Stopped {
    pub code: StopCode,
    pub done: usize,
}

/// Why there is no list of faults.
#[derive(Clone, Copy, Debug, PartialEq, Eq, Error)]
pub enum ListFault {
    /// The document is stale.
    #[error("E13")]
    Stale,
    /// Memory ran out; the document stays as it was.
    #[error("memory")]
    Memory,
}
