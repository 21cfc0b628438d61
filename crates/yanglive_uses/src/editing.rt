//! Edits of a live document.

ghost use Rattle.std.specs.Prelude.{◌≡◌, true, false, None, option_map, slice_get, IfOk, OnOk, OnErr};
ghost use Rattle.yspec.specs.edit.Live.{faults_in, made_anew};
ghost use Rattle.yinst.specs.EditView.{edit_view};
ghost use Rattle.ylive.specs.Seen.{seen_view};
ghost use Rattle.ylive.specs.View.{view, edits_view};
ghost use Rattle.ylive.specs.Answers.{Edits, after_edits};
ghost use Rattle.yanglive_uses.specs.Editing.{accepted_count};

use yinst::Edit;
use ylive::{Applied, Live, Refused, Seen};

/// Applies edits in order, and tells how many were accepted. A refused one changes nothing and doesn't end it; want of memory
/// does, and leaves the document stale.
pub fn apply_all(live: &mut Live, edits: &[Edit]) -> Result<usize, Refused>
    ensures tree { OnOk result (view live.new ≡ after_edits (edits_view edits.now) (view live.old)) }
    ensures count { IfOk result
        (λ count. count ≡ accepted_count (view live.old) (edits_view edits.now)) }
    ensures err { OnErr result ((view live.new).is_stale ≡ true) }
{
    let mut accepted = 0;
    for edit in edits {
        match live.edit(edit) {
            Ok(_) => accepted += 1,
            Err(Refused::Edit(_)) => {}
            Err(Refused::Memory) => return Err(Refused::Memory),
            Err(Refused::Stale) => return Err(Refused::Stale),
        }
    }
    Ok(accepted)
}

/// The first fault of a document, without taking memory; nothing of one without a fault, or of a stale one.
pub fn first_fault(live: &Live) -> Option<Seen<'_>>
    ensures fresh { (view live.now).is_stale ≡ false
        → option_map seen_view result ≡ slice_get (faults_in (view live.now)) 0 }
    ensures stale { (view live.now).is_stale ≡ true → option_map seen_view result ≡ None }
{
    live.walk()?.next()
}

/// Applies an edit as if the document weren't stale: where memory runs out, or ran out before, the document is rebuilt and the
/// edit tried once more. It is never `Refused::Stale`.
pub fn edit_or_rebuild(live: &mut Live, edit: &Edit) -> Result<Applied, Refused>
    ensures { Edits (made_anew (view live.old)) (edit_view edit.now) result (view live.new) }
{
    match live.edit(edit) {
        Ok(applied) => Ok(applied),
        Err(Refused::Edit(fault)) => Err(Refused::Edit(fault)),
        Err(_) => match live.rebuild() {
            Ok(()) => live.edit(edit),
            Err(_) => Err(Refused::Memory),
        },
    }
}
