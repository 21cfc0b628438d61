//! Lists of edits.

ghost use Rattle.std.specs.Prelude.{◌≡◌};

use crate::live::Live;
use crate::outcome::{Outcome, Refused, StopCode, Stopped};
use std::alloc::AllocError;
use yinst::{Edit, EditFault};

impl Live {
    ghost use Rattle.std.specs.Prelude.{◌≡◌, ◌+◌, false};
    ghost use Rattle.yinst_path.specs.EditView.{edit_view};
    ghost use Rattle.ylive.specs.View.{view, edits_view};
    ghost use Rattle.ylive.specs.Answers.{Decides, Runs, Tries};
    ghost use Rattle.ystore.specs.Store.{loans};

    /// Applies edits in order, each to what the ones before it left, and tells what comes of each. A refused edit changes
    /// nothing and doesn't end the list. Where memory runs out what was accepted stands, the document is stale, and all edits
    /// before the one at which it ran out are `done`.
    pub fn run(&mut self, edits: &[Edit]) -> Result<Vec<Outcome>, Stopped>
        ensures runs { Runs (view self.old) (edits_view edits.now) result (view self.new) }
        ensures lent { Tries (edits_view edits.now) result (loans self.old.nodes) (loans self.new.nodes) }
    {
        if self.is_stale() {
            return Err(Stopped {
                code: StopCode::E13,
                done: 0,
            });
        }
        let mut outcomes = match Vec::with_capacity(self.alloc(), edits.len()) {
            Ok(outcomes) => outcomes,
            Err(_) => {
                self.mark_stale();
                return Err(out_of_memory(0));
            }
        };
        for edit in edits {
            match self.decide(edit) {
                Ok(outcome) => outcomes.push(outcome).unwrap(),
                Err(_) => return Err(out_of_memory(outcomes.len())),
            }
        }
        Ok(outcomes)
    }

    /// What comes of an edit of a document that isn't stale.
    fn decide(&mut self, edit: &Edit) -> Result<Outcome, AllocError>
        requires { (view self.old).is_stale ≡ false }
        ensures decides { Decides (view self.old) (edit_view edit.now) result (view self.new) }
        ensures lent { loans self.new.nodes ≡ loans self.old.nodes + 1 }
    {
        match self.edit(edit) {
            Ok(_) => Ok(Outcome::Accepted),
            Err(Refused::Edit(EditFault::Refused { code, doc })) => {
                Ok(Outcome::Refused { code, doc })
            }
            Err(_) => Err(AllocError),
        }
    }
}

fn out_of_memory(done: usize) -> Stopped
    ensures code { result.code ≡ StopCode.E12 }
    ensures done { result.done ≡ done }
{
    Stopped {
        code: StopCode::E12,
        done,
    }
}
