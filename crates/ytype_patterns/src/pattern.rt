//! Patterns (RFC 7950, 9.4.5).

use crate::fault::PatternFault;
use crate::reading::tree_of;
use crate::whole::Whole;
use std::alloc::{AllocError, Global};

/// A pattern that was read, with the automaton that finds its texts. It never changes.
#[derive(Drop)]
pub struct Pattern {
    whole: Whole,
}

impl Pattern {
    ghost use Rattle.std.specs.Prelude.{◌≡◌, IfOk, chars};
    ghost use Rattle.yspec_patterns.specs.Pattern.{accepts};
    ghost use Rattle.yspec_patterns.specs.Reading.{pattern_of};
    ghost use Rattle.ytype_patterns.specs.View.{IsOf, Reads};

    /// The pattern that a text spells; none where it spells none.
    pub fn parse(alloc: Global, text: &str) -> Result<Option<Pattern>, PatternFault>
        ensures { IfOk result (λ made. Reads made (pattern_of (chars text.now))) }
    {
        let Some(tree) = tree_of(alloc, text)? else {
            return Ok(None);
        };
        match Whole::of(alloc, tree)? {
            Some(whole) => Ok(Some(Pattern { whole })),
            None => Err(PatternFault::TooLarge),
        }
    }

    /// Whether a text, all of it, is one of the pattern.
    pub fn fits(&self, alloc: Global, text: &str) -> Result<bool, AllocError>
        ensures { IfOk result (λ b. (p : _) → IsOf self.now p → b ≡ accepts p (chars text.now)) }
    {
        self.whole.fits(alloc, text)
    }
}
