//! A count of calls that only proofs read.
ghost use Rattle.std.specs.Prelude.{◌≡◌, ℕ, ◌+◌};
ghost use base.Fml.{ftrue};

use std::marker::Model;

/// How many calls were of a kind, as contracts see it in `calls`. It takes no bytes and no time when a program runs: a
/// type whose contracts count its failed calls holds one, and calls `rise` wherever one of its calls fails.
#[derive(Drop)]
pub struct CallCount {
    pub ghost calls: { ℕ },
}

impl Model for CallCount {
    ghost also_owns = { λ _. ftrue };
}

impl CallCount {
    /// No call yet.
    pub fn new() -> CallCount
        ensures { result.calls ≡ 0 }
    {
        CallCount {}
    }

    /// The count with one more call.
    fn with_one_more(&self) -> CallCount
        ensures { result.calls ≡ self.now.calls + 1 }
    {
        CallCount {}
    }

    /// Counts one call.
    pub fn rise(&mut self)
        ensures { self.new.calls ≡ self.old.calls + 1 }
    {
        *self = self.with_one_more();
    }
}
