//! A live document at an earlier place of its past.

ghost use Rattle.std.specs.Prelude.{◌≡◌, OnOk, false};
ghost use Rattle.yspec.specs.document.Fitting.{Fits};
ghost use Rattle.yspec.specs.edit.Live.{opened, with_tree};
ghost use Rattle.yspec_session.specs.Remembering.{behind_groups};
ghost use Rattle.ylive.specs.Answers.{after_edits};
ghost use Rattle.yinst_tree.specs.View.{tree_view};
ghost use Rattle.ylive.specs.View.{view};
ghost use Rattle.yapp_session.specs.View.{edits_view, groups_view, past_view};
ghost use Rattle.yapp_session.specs.Kept.{AreFit};
ghost use Rattle.yapp_session.specs.Answered.{IsPlaced};

use crate::parts::{first_items, items_behind};
use crate::past::Past;
use std::alloc::AllocError;
use yinst::{Edit, Tree};
use ylive::Live;

/// Puts a live document to where it was behind the first groups of edits, from the nearest document that is kept before. Where
/// memory runs out it is at some other place.
pub(crate) fn rewind(live: &mut Live, past: &Past, groups: usize) -> Result<(), AllocError>
    requires { AreFit (view live.old).schema (past_view past.now) }
    ensures ok { OnOk result (IsPlaced (view live.old).schema (past_view past.now) groups (view live.new)) }
    ensures fresh { OnOk result ((view live.new).is_stale ≡ false) }
    ensures schema { (view live.new).schema ≡ (view live.old).schema }
{
    let led = first_items(past.groups(), groups);
    match past.later_until(groups) {
        Some(later) => run_from(live, &later.tree, items_behind(led, later.groups)),
        None => run_from(live, past.base(), led),
    }
}

/// Opens a document, and applies the edits of groups.
fn run_from(live: &mut Live, tree: &Tree, groups: &[Vec<Edit>]) -> Result<(), AllocError>
    requires { Fits (view live.old).schema (tree_view tree.now) }
    ensures ok { let s = (view live.old).schema in OnOk result (view live.new
        ≡ opened s (behind_groups s (tree_view tree.now) (groups_view groups.now))) }
    ensures schema { (view live.new).schema ≡ (view live.old).schema }
{
    live.reopen(tree.clone()?)?;
    run_groups(live, groups)?;
    Ok(())
}

/// Applies the edits of groups.
fn run_groups(live: &mut Live, groups: &[Vec<Edit>]) -> Result<(), AllocError>
    ensures ok { OnOk result (view live.new ≡ with_tree
        (behind_groups (view live.old).schema (view live.old).tree (groups_view groups.now)) (view live.old)) }
    ensures schema { (view live.new).schema ≡ (view live.old).schema }
{
    for group in groups {
        run_group(live, group)?;
    }
    Ok(())
}

/// Applies the edits of a group.
fn run_group(live: &mut Live, group: &[Edit]) -> Result<(), AllocError>
    ensures ok { OnOk result (view live.new ≡ after_edits (edits_view group.now) (view live.old)) }
    ensures schema { (view live.new).schema ≡ (view live.old).schema }
{
    match live.run(group) {
        Ok(_) => Ok(()),
        Err(_) => Err(AllocError),
    }
}
