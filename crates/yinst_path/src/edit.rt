//! Edits as their texts spell them.

ghost use Rattle.std.specs.Prelude.{◌≡◌};
ghost use Rattle.yinst_path.specs.declared.edit.EditFault.TheVariants.{Memory};

use std::alloc::{AllocError, AllocFailed};
use std::fmt;
use thiserror::Error;
use yinst_tree::DocCode;

/// The canonical text that a key is to have.
#[derive(Debug, Drop)]
pub struct Key {
    pub name: String,
    pub text: String,
}

/// Which of several instances a step of a path means: it doesn't say, by position from 1, or by keys.
#[derive(Debug, Drop)]
pub enum Predicate {
    Unsaid,
    Position(u32),
    Keys(Vec<Key>),
}

/// A step of a path; its name as it is written, perhaps with a module's name in front.
#[derive(Debug, Drop)]
pub struct NamedStep {
    pub name: String,
    pub predicate: Predicate,
}

/// Where in a document, from its top on.
#[derive(Debug, Drop)]
pub struct Path {
    pub steps: Vec<NamedStep>,
}

/// What is to be done at a path; of a value its JSON text.
#[derive(Debug, Drop)]
pub enum Edit {
    Create { path: Path, value: String },
    Replace { path: Path, value: String },
    Remove { path: Path },
    /// To a position among the entries or items of its list, from 1.
    Move { path: Path, position: u32 },
}

/// Why an edit isn't done, the first cause in this order.
#[derive(Clone, Copy, Debug, PartialEq, Eq)]
pub enum EditCode {
    /// The text is no edit's, or no path's; positions to move to count from 1, as those in paths do.
    E1 = 1,
    /// A step's name isn't there, or has its module's name in front where none is due, or lacks it where it is.
    E2 = 2,
    /// A step says which of several instances it means where its node has but one, or doesn't say it as its node is to be
    /// told. Of nodes to be moved also one that is no entry and no item.
    E3 = 3,
    /// A node before the last step isn't stored.
    E4 = 4,
    /// A position is past the last instance, in a path or to move to.
    E5 = 5,
    /// Several entries have these keys.
    E6 = 6,
    /// What is to be replaced, removed or moved isn't stored.
    E7 = 7,
    /// What is to be created is stored.
    E8 = 8,
    /// The value is no JSON.
    E9 = 9,
    /// The value doesn't fit the node.
    E10 = 10,
    /// The document would have over 1,000,000 nodes.
    E11 = 11,
}

impl EditCode {
    ghost use Rattle.std.specs.Prelude.{◌≡◌};
    ghost use Rattle.yinst_path.specs.Applying.{edit_number};

    /// The number behind the `E`.
    pub fn number(self) -> u8
        ensures { result ≡ edit_number self }
    {
        self as u8
    }
}

impl fmt::Display for EditCode {
    fn fmt<W: fmt::Write>(&self, f: &mut fmt::Formatter<W>) -> fmt::Result {
        write!(f, "E{}", self.number())
    }
}

/// Why an edit isn't done, and with E10 why the value doesn't fit: J3 to J6.
#[derive(Clone, Copy, Debug, PartialEq, Eq, Error)]
pub enum EditFault {
    #[error("{code}{}", Because(*.doc))]
    Refused {
        code: EditCode,
        doc: Option<DocCode>,
    },
    #[error("memory")]
    Memory,
}

/// Why a value doesn't fit, as it stands behind an edit's code.
#[derive(Clone, Copy)]
struct Because(Option<DocCode>);

impl fmt::Display for Because {
    fn fmt<W: fmt::Write>(&self, f: &mut fmt::Formatter<W>) -> fmt::Result {
        match self.0 {
            Some(code) => write!(f, " {code}"),
            None => Ok(()),
        }
    }
}

impl From<AllocError> for EditFault {
    ghost from_gives = { λ _ e. e ≡ Memory };

    fn from(_e: AllocError) -> EditFault {
        EditFault::Memory
    }
}

impl<T: Drop> From<AllocFailed<T>> for EditFault {
    ghost from_gives = { λ _ e. e ≡ Memory };

    fn from(_e: AllocFailed<T>) -> EditFault {
        EditFault::Memory
    }
}
