//! What `type` statements mean over the names of values that are kept (RFC 7950, 7.20.2).

use crate::verdicts::verdict_held;
use ylink_types::{Meant, Verdict};

/// What the `type` statements of a set mean over the names of values that are kept.
#[derive(Drop)]
pub struct KeptMeanings<'t> {
    // The verdict on each `type` statement, by its number.
    verdicts: Vec<Option<Box<Verdict<'t>>>>,
}

impl<'t> KeptMeanings<'t> {
    ghost use Rattle.std.specs.Prelude.{◌≡◌, option_map};
    ghost use Rattle.ylink_types.specs.TypeView.{meant_view};
    ghost use Rattle.ylink.specs.KeptMeaningsView.{meant_held};

    /// Those that verdicts tell.
    pub(crate) fn new(verdicts: Vec<Option<Box<Verdict<'t>>>>) -> KeptMeanings<'t>
        ensures { result.verdicts ≡ verdicts.entry }
    {
        KeptMeanings { verdicts }
    }

    /// What the `type` statement of a number means.
    pub fn meant(&self, number: u32) -> Option<&Meant<'t>>
        ensures { option_map (λ m. meant_view m.now) result ≡ meant_held self.now number }
    {
        match verdict_held(&self.verdicts, number as usize) {
            Some(verdict) => verdict.meaning(),
            None => None,
        }
    }
}
