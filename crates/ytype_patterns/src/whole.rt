//! Patterns that take the whole of a text.

ghost use Rattle.regex_hir.specs.Meaning.{meaning};
ghost use Rattle.regex_compile.specs.Implements.{Implements};

use regex_compile::Error;
use regex_hir::{Hir, Look};
use regex_nfa::Nfa;
use regex_vm::PikeVm;
use std::alloc::{AllocError, Global};

/// How large the automaton of a pattern may be, in bytes: more than what is read as a pattern takes.
const SIZE_LIMIT: usize = 41_943_040;

/// A pattern that has to match to the end of a text, with the automaton that finds its matches. It never changes.
#[derive(Drop)]
pub struct Whole {
    tree: Hir,
    automaton: Nfa,
    ghost implements: { ∥ Implements automaton (meaning tree) ∥₁ },
}

impl Whole {
    ghost use Rattle.std.specs.Prelude.{◌↔◌, IsTrue, IfOk, IfSome, chars};
    ghost use Rattle.regex_hir.specs.Meaning.{meaning};
    ghost use Rattle.yspec_patterns.specs.Pattern.{Fits};
    ghost use Rattle.ytype_patterns.specs.Means.{Means};
    ghost use Rattle.ytype_patterns.specs.View.{IsWhole};

    /// A pattern with its automaton; none where that would be too large.
    pub fn of(alloc: Global, pattern: Hir) -> Result<Option<Whole>, AllocError>
        ensures { IfOk result (λ made. IfSome made (λ w. IsWhole w (meaning pattern))) }
    {
        let tree = Hir::Concat(vec![in alloc; pattern, Hir::Look(Look::End)]?);
        match regex_compile::compile(alloc, &tree, 1, SIZE_LIMIT) {
            Ok(automaton) => Ok(Some(Whole { tree, automaton })),
            Err(Error::OutOfMemory) => Err(AllocError),
            Err(_) => Ok(None),
        }
    }

    /// Whether a text, all of it, is one of the pattern.
    pub fn fits(&self, alloc: Global, text: &str) -> Result<bool, AllocError>
        ensures { IfOk result (λ b. (re p : _) → IsWhole self.now re → Means re p → IsTrue b ↔ Fits p (chars text.now)) }
    {
        let mut machine = PikeVm::new(alloc, &self.automaton)?;
        let bytes = text.as_bytes();
        Ok(machine.is_match(&self.automaton, bytes, 0, 0, bytes.len()))
    }
}
