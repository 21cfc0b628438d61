//! Where positions turn with edits, and with taking them back.

ghost use Rattle.std.specs.Prelude.{◌≡◌, ◌++◌, [], ◌∷◌, IfOk, IfSome, OnOk, drop, option_map, option_to_list, reverse, true};
ghost use Rattle.std.specs.List.{flat_map};
ghost use Rattle.yspec_session.specs.Remembering.{turns_back};
ghost use Rattle.yspec_session.specs.Session as session;
ghost use Rattle.yinst_tree.specs.View.{tree_view};
ghost use Rattle.yinst_path.specs.EditView.{edit_view};
ghost use Rattle.ylive.specs.View.{view};
ghost use Rattle.ylive.specs.Answers.{after_edits};
ghost use Rattle.yapp_difference.specs.Turning.{turn_view, turn_views};
ghost use Rattle.yapp_session.specs.View.{edits_view, groups_view, past_view};
ghost use Rattle.yapp_session.specs.Kept.{AreFit};
ghost use Rattle.yapp_session.specs.Answered.{IsPlaced};

use crate::parts::items_behind;
use crate::past::Past;
use crate::rewinding::rewind;
use crate::telling::Earlier;
use std::alloc::{AllocError, Global};
use yapp_difference::{Turn, turns_of};
use yinst::{Edit, EditFault, Tree};
use ylive::{Live, Refused};

/// The turns of an edit of a document, where that is kept.
pub(crate) fn turns_there(
    alloc: Global,
    live: &Live,
    earlier: &Option<Earlier>,
    edit: &Edit,
) -> Result<Vec<Turn>, AllocError>
    ensures { IfOk result (λ turns. IfSome earlier.now (λ e. turn_views turns.items
        ≡ (session.turns_of (view live.now).schema (tree_view e.tree) (edit_view edit.now)).there)) }
{
    match earlier {
        Some(earlier) => turns_at(alloc, live, &earlier.tree, edit),
        None => Ok(Vec::new(alloc)),
    }
}

fn turns_at(alloc: Global, live: &Live, tree: &Tree, edit: &Edit) -> Result<Vec<Turn>, AllocError>
    ensures { IfOk result (λ turns. turn_views turns.items
        ≡ (session.turns_of (view live.now).schema (tree_view tree.now) (edit_view edit.now)).there) }
{
    let found = turns_of(alloc, live.schema(), tree, edit)?;
    let mut turns = Vec::new(alloc);
    add(&mut turns, found.there)?;
    Ok(turns)
}

/// Adds a turn, if there is one.
fn add(turns: &mut Vec<Turn>, turn: Option<Turn>) -> Result<(), AllocError>
    ensures { OnOk result (turn_views turns.new.items
        ≡ turn_views turns.old.items ++ option_to_list (option_map turn_view turn)) }
{
    let Some(turn) = turn else {
        return Ok(());
    };
    turns.push(turn)?;
    Ok(())
}

/// The turns that lead back over the groups behind the first ones, where they are wanted, by applying these to a document that was
/// put to where they begin. It is put there again.
pub(crate) fn turns_behind(
    alloc: Global,
    live: &mut Live,
    past: &Past,
    groups: usize,
    are_wanted: bool,
) -> Result<Vec<Turn>, AllocError>
    requires { AreFit (view live.old).schema (past_view past.now) }
    ensures turns { IfOk result (λ turns. are_wanted ≡ true → turn_views turns.items ≡ turns_back (view live.old).schema
        (view live.old).tree (flat_map (λ g. g) (drop groups (past_view past.now).groups))) }
    ensures live { let k = past_view past.now in let s = (view live.old).schema in
        IfOk result (λ turns. IsPlaced s k groups (view live.old) → IsPlaced s k groups (view live.new)) }
    ensures schema { (view live.new).schema ≡ (view live.old).schema }
{
    if are_wanted {
        found_behind(alloc, live, past, groups)
    } else {
        Ok(Vec::new(alloc))
    }
}

fn found_behind(
    alloc: Global,
    live: &mut Live,
    past: &Past,
    groups: usize,
) -> Result<Vec<Turn>, AllocError>
    requires { AreFit (view live.old).schema (past_view past.now) }
    ensures turns { IfOk result (λ turns. turn_views turns.items ≡ turns_back (view live.old).schema
        (view live.old).tree (flat_map (λ g. g) (drop groups (past_view past.now).groups))) }
    ensures live { IfOk result (λ turns. IsPlaced (view live.old).schema (past_view past.now) groups (view live.new)) }
    ensures schema { (view live.new).schema ≡ (view live.old).schema }
{
    let mut turns = Vec::new(alloc);
    add_all_turns(alloc, live, items_behind(past.groups(), groups), &mut turns)?;
    turns.reverse();
    rewind(live, past, groups)?;
    Ok(turns)
}

/// Applies the edits of groups, and adds the turns that lead back over them, those of the first edit first.
fn add_all_turns(
    alloc: Global,
    live: &mut Live,
    groups: &[Vec<Edit>],
    turns: &mut Vec<Turn>,
) -> Result<(), AllocError>
    ensures turns { OnOk result (turn_views turns.new.items ≡ turn_views turns.old.items
        ++ reverse (turns_back (view live.old).schema (view live.old).tree (flat_map (λ g. g) (groups_view groups.now)))) }
    ensures schema { (view live.new).schema ≡ (view live.old).schema }
{
    for group in groups {
        add_turns(alloc, live, group, turns)?;
    }
    Ok(())
}

/// The same for the edits of a group.
fn add_turns(
    alloc: Global,
    live: &mut Live,
    edits: &[Edit],
    turns: &mut Vec<Turn>,
) -> Result<(), AllocError>
    ensures turns { OnOk result (turn_views turns.new.items ≡ turn_views turns.old.items
        ++ reverse (turns_back (view live.old).schema (view live.old).tree (edits_view edits.now))) }
    ensures live { OnOk result (view live.new ≡ after_edits (edits_view edits.now) (view live.old)) }
    ensures schema { (view live.new).schema ≡ (view live.old).schema }
{
    for edit in edits {
        add_turn(alloc, live, edit, turns)?;
        run_edit(live, edit)?;
    }
    Ok(())
}

/// Adds the turn that takes back an edit of a document.
fn add_turn(
    alloc: Global,
    live: &Live,
    edit: &Edit,
    turns: &mut Vec<Turn>,
) -> Result<(), AllocError>
    ensures { OnOk result (turn_views turns.new.items ≡ turn_views turns.old.items
        ++ reverse (session.turns_of (view live.now).schema (view live.now).tree (edit_view edit.now)).back) }
{
    let tree = live.tree()?;
    let found = turns_of(alloc, live.schema(), &tree, edit)?;
    add(turns, found.back)
}

/// Applies an edit; one that is refused leaves all as it was.
fn run_edit(live: &mut Live, edit: &Edit) -> Result<(), AllocError>
    ensures ok { OnOk result (view live.new ≡ after_edits (edit_view edit.now ∷ []) (view live.old)) }
    ensures schema { (view live.new).schema ≡ (view live.old).schema }
{
    match live.edit(edit) {
        Ok(_) => Ok(()),
        Err(Refused::Edit(EditFault::Refused { .. })) => Ok(()),
        Err(_) => Err(AllocError),
    }
}
