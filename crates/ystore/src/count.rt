//! How a store is used, as only proofs read it.

ghost use Rattle.std.specs.Prelude.{◌≡◌, ◌≤◌};

use ybase_output::CallCount;

/// How often a store was lent to edits, how many reading calls there were, and how many of them when it was lent last.
#[derive(Drop)]
pub(crate) struct UseCount {
    pub(crate) loans: CallCount,
    pub(crate) reads: CallCount,
    pub(crate) begun: CallCount,
    ghost risen: { begun.calls ≤ reads.calls },
}

impl UseCount {
    ghost use Rattle.std.specs.Prelude.{◌≡◌, ◌+◌};

    /// That of a new store.
    pub(crate) fn new() -> UseCount
        ensures loans { result.loans.calls ≡ 0 }
        ensures reads { result.reads.calls ≡ 0 }
    {
        UseCount {
            loans: CallCount::new(),
            reads: CallCount::new(),
            begun: CallCount::new(),
        }
    }

    /// Counts one reading call.
    pub(crate) fn count_read(&mut self)
        ensures loans { self.new.loans ≡ self.old.loans }
        ensures reads { self.new.reads.calls ≡ self.old.reads.calls + 1 }
        ensures begun { self.new.begun ≡ self.old.begun }
    {
        self.reads.rise();
    }

    /// Counts one loan, which begins.
    pub(crate) fn count_loan(&mut self)
        ensures loans { self.new.loans.calls ≡ self.old.loans.calls + 1 }
        ensures reads { self.new.reads ≡ self.old.reads }
        ensures begun { self.new.begun.calls ≡ self.old.reads.calls }
    {
        self.loans.rise();
        self.begun = same_count(&self.reads);
    }
}

/// A count of as many calls.
fn same_count(count: &CallCount) -> CallCount
    ensures { result.calls ≡ count.now.calls }
{
    CallCount {}
}
