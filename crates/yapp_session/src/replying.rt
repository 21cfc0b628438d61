//! What requests are answered that change a session.

ghost use Rattle.std.specs.Prelude.{◌≡◌, IfOk, OnErr, string_bytes};
ghost use Rattle.yspec_session.specs.Session as spec;
ghost use Rattle.yinst_path.specs.EditView.{edit_view};
ghost use Rattle.ylive.specs.View.{view};
ghost use Rattle.yapp_session.specs.View.{past_view};
ghost use Rattle.yapp_session.specs.Kept.{AreFit};
ghost use Rattle.yapp_session.specs.Answered.{IsPlaced, Replies, Stays, configured_view};
ghost use Rattle.yapp_session.specs.Came.{Falls};

use crate::past::Past;
use crate::rewinding::rewind;
use crate::telling::{count_of, seen, seen_text};
use crate::turning::{turns_behind, turns_there};
use std::alloc::{AllocError, Global};
use yinst::{Edit, EditFault};
use ylive::{Live, Refused};
use ysay_session::{begun_text, done_text, edit_refused_text, not_begun_text, nothing_text};
use yschema_model::Schema;

/// Applies an edit and remembers it.
pub(crate) fn change(
    alloc: Global,
    live: &mut Live,
    past: &mut Past,
    limit: usize,
    tells_changes: bool,
    configured: &Option<Schema>,
    edit: Edit,
) -> Result<String, AllocError>
    ensures answer { IfOk result (λ text. Replies tells_changes (configured_view configured.now) limit (view live.old) (past_view past.old)
        (spec.change (edit_view edit)) (string_bytes text) (view live.new) (past_view past.new)) }
    ensures stays { Stays (view live.old) (past_view past.old) (view live.new) (past_view past.new) }
    ensures memory { OnErr result (past_view past.new ≡ past_view past.old) }
{
    let before = count_of(alloc, live, configured)?;
    let earlier = seen(alloc, live, tells_changes, configured)?;
    let turns = turns_there(alloc, live, &earlier, &edit)?;
    match live.edit(&edit) {
        Ok(_) => {
            let after = count_of(alloc, live, configured)?;
            let text = seen_text(alloc, live, configured, earlier, &turns, before, after)?;
            past.add(limit, edit)?;
            Ok(text)
        }
        Err(Refused::Edit(EditFault::Refused { code, doc })) => {
            edit_refused_text(alloc, code, doc)
        }
        Err(_) => Err(AllocError),
    }
}

/// Puts a live document to where it was behind the first groups of edits, and tells what came of its faults.
fn go_back(
    alloc: Global,
    live: &mut Live,
    past: &Past,
    groups: usize,
    tells_changes: bool,
    configured: &Option<Schema>,
) -> Result<String, AllocError>
    requires { AreFit (view live.old).schema (past_view past.now) }
    ensures text { IfOk result (λ text. Falls tells_changes (configured_view configured.now) (view live.old) (past_view past.now) groups
        (string_bytes text) (view live.new)) }
    ensures live { IfOk result (λ text. IsPlaced (view live.old).schema (past_view past.now) groups (view live.new)) }
    ensures schema { (view live.new).schema ≡ (view live.old).schema }
{
    let before = count_of(alloc, live, configured)?;
    let earlier = seen(alloc, live, tells_changes, configured)?;
    rewind(live, past, groups)?;
    let turns = turns_behind(alloc, live, past, groups, tells_changes)?;
    let after = count_of(alloc, live, configured)?;
    seen_text(alloc, live, configured, earlier, &turns, before, after)
}

/// Takes back the last group of edits that is remembered.
pub(crate) fn undo(
    alloc: Global,
    live: &mut Live,
    past: &mut Past,
    limit: usize,
    tells_changes: bool,
    configured: &Option<Schema>,
) -> Result<String, AllocError>
    requires { AreFit (view live.old).schema (past_view past.old) }
    ensures answer { IfOk result (λ text. Replies tells_changes (configured_view configured.now) limit (view live.old) (past_view past.old)
        spec.undo (string_bytes text) (view live.new) (past_view past.new)) }
    ensures stays { Stays (view live.old) (past_view past.old) (view live.new) (past_view past.new) }
    ensures memory { OnErr result (past_view past.new ≡ past_view past.old) }
{
    if past.kept() == 0 {
        return nothing_text(alloc);
    }
    let groups = past.groups().len().saturating_sub(1);
    let text = go_back(alloc, live, past, groups, tells_changes, configured)?;
    past.take_back(groups);
    Ok(text)
}

/// Begins edits that stand or fall together.
pub(crate) fn begin(
    alloc: Global,
    live: &Live,
    past: &mut Past,
    limit: usize,
    tells_changes: bool,
    configured: &Option<Schema>,
) -> Result<String, AllocError>
    ensures answer { IfOk result (λ text. Replies tells_changes (configured_view configured.now) limit (view live.now) (past_view past.old)
        spec.begin (string_bytes text) (view live.now) (past_view past.new)) }
    ensures stays { Stays (view live.now) (past_view past.old) (view live.now) (past_view past.new) }
    ensures memory { OnErr result (past_view past.new ≡ past_view past.old) }
{
    if past.begun().is_some() {
        return begun_text(alloc);
    }
    let text = done_text(alloc)?;
    past.begin();
    Ok(text)
}

/// Makes one of the edits since they began.
pub(crate) fn commit(
    alloc: Global,
    live: &Live,
    past: &mut Past,
    limit: usize,
    tells_changes: bool,
    configured: &Option<Schema>,
) -> Result<String, AllocError>
    ensures answer { IfOk result (λ text. Replies tells_changes (configured_view configured.now) limit (view live.now) (past_view past.old)
        spec.commit (string_bytes text) (view live.now) (past_view past.new)) }
    ensures stays { Stays (view live.now) (past_view past.old) (view live.now) (past_view past.new) }
    ensures memory { OnErr result (past_view past.new ≡ past_view past.old) }
{
    let Some(since) = past.begun() else {
        return not_begun_text(alloc);
    };
    let text = done_text(alloc)?;
    past.commit(limit, since)?;
    Ok(text)
}

/// Lets fall the edits since they began.
pub(crate) fn back(
    alloc: Global,
    live: &mut Live,
    past: &mut Past,
    limit: usize,
    tells_changes: bool,
    configured: &Option<Schema>,
) -> Result<String, AllocError>
    requires { AreFit (view live.old).schema (past_view past.old) }
    ensures answer { IfOk result (λ text. Replies tells_changes (configured_view configured.now) limit (view live.old) (past_view past.old)
        spec.back (string_bytes text) (view live.new) (past_view past.new)) }
    ensures stays { Stays (view live.old) (past_view past.old) (view live.new) (past_view past.new) }
    ensures memory { OnErr result (past_view past.new ≡ past_view past.old) }
{
    let Some(since) = past.begun() else {
        return not_begun_text(alloc);
    };
    let text = go_back(alloc, live, past, since.groups, tells_changes, configured)?;
    past.back(since);
    Ok(text)
}
