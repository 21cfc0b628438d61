//! Where bytes are read from.

ghost use Rattle.std.specs.Prelude.{◌≡◌, ℕ, ◌+◌, List, Option, IfOk};

use thiserror::Error;

/// Why the system can't read a file.
#[derive(Clone, Copy, Debug, PartialEq, Eq)]
pub enum Unreadable {
    /// None of that name is there.
    NoFile,
    /// The program may not read it.
    NoPermission,
    /// A directory has that name.
    Directory,
    /// The system says another cause.
    Other,
}

impl Unreadable {
    ghost use Rattle.std.specs.Prelude.{◌≡◌};
    ghost use Rattle.yspec_run.specs.Output.{words_of};
    ghost use Rattle.yapp_report.specs.Unread.{unreadable_view};

    /// The cause in words.
    pub fn words(self) -> &'static str
        ensures { result.now ≡ words_of (unreadable_view self) }
    {
        match self {
            Unreadable::NoFile => "no such file",
            Unreadable::NoPermission => "permission is denied",
            Unreadable::Directory => "it is a directory",
            Unreadable::Other => "the system can't read it",
        }
    }
}

/// Why a file wasn't read.
#[derive(Clone, Copy, Debug, PartialEq, Eq, Error)]
pub enum FileFault {
    /// It couldn't be read.
    #[error("cannot read")]
    Unread(Unreadable),
    /// There was no memory for its contents.
    #[error("memory")]
    Memory,
}

/// Reads files.
pub trait Files {
    ghost use Rattle.yapp_report.specs.Unread.{IsTold, failed_reads};

    /// What the file of a name contains, where it tells that.
    ghost contents: { Self → List ℕ → Option (List ℕ) };

    /// How many calls it got.
    ghost reads: { Self → ℕ };

    /// How many of its calls failed for another cause than memory.
    ghost failures: { Self → ℕ };

    /// All that the file of a name contains.
    fn read(&mut self, name: &str) -> Result<Vec<u8>, FileFault>
        ensures ok { IfOk result (λ bytes. IsTold (contents self.old name.now) bytes.items) }
        ensures kept { (other : List ℕ) → contents self.new other ≡ contents self.old other }
        ensures one_more { reads self.new ≡ reads self.old + 1 }
        ensures counted { failures self.new ≡ failures self.old + failed_reads result };
}
