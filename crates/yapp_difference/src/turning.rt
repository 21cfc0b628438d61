//! Which positions an edit turns.

ghost use Rattle.std.specs.Prelude.{◌≡◌, ◌+◌, IfOk};
ghost use Rattle.yspec.specs.Results.{Gives};
ghost use Rattle.yspec.specs.edit.Edit.{instance_index};
ghost use Rattle.yspec_session.specs.Session as spec;
ghost use Rattle.yschema_model.specs.View as schema_view;
ghost use Rattle.yinst_tree.specs.View.{tree_view};
ghost use Rattle.yinst_path.specs.Applying.{told_by};
ghost use Rattle.yinst_path.specs.EditView.{edit_view, path_view};
ghost use Rattle.yinst.specs.Locating.{located_view, spot_view, spots_view};
ghost use Rattle.yapp_difference.specs.Turning.{closing, moving, positions_view, turn_view, turns_beside, turns_of_move, turns_of_removal, turns_view};

use crate::row_turns::{Positions, Turn};
use std::alloc::{AllocError, Global};
use yinst::{Edit, EditCode, EditFault, Located, Path, Spot, Tree, instance_meant, locate};
use yinst_path::{bind_path, bind_to_move};
use yschema_model::{Schema, SchemaId};

/// The turn of an edit, and that of taking it back.
#[derive(Debug, Drop)]
pub struct Turns {
    pub there: Option<Turn>,
    pub back: Option<Turn>,
}

impl Turns {
    const NONE: Turns = Turns {
        there: None,
        back: None,
    };
}

/// Which positions an edit turns, where it is accepted; none where it is refused for its place.
pub fn turns_of(
    alloc: Global,
    schema: &Schema,
    tree: &Tree,
    edit: &Edit,
) -> Result<Turns, AllocError>
    ensures { IfOk result (λ turns. turns_view turns
        ≡ spec.turns_of (schema_view.view schema.now) (tree_view tree.now) (edit_view edit.now)) }
{
    match edit {
        Edit::Create { path: _, value: _ } => Ok(Turns::NONE),
        Edit::Replace { path: _, value: _ } => Ok(Turns::NONE),
        Edit::Remove { path } => turns_or_none(turns_of_removal(alloc, schema, tree, path)),
        Edit::Move { path, position } => {
            turns_or_none(turns_of_move(alloc, schema, tree, path, *position))
        }
    }
}

/// The turns that are found; none where it is refused to find them.
fn turns_or_none(turns: Result<Turns, EditFault>) -> Result<Turns, AllocError>
    ensures { (answer : _) → Gives turns_view told_by turns answer
        → IfOk result (λ found. turns_view found ≡ spec.turns_or_none answer) }
{
    match turns {
        Ok(found) => Ok(found),
        Err(EditFault::Refused { code: _, doc: _ }) => Ok(Turns::NONE),
        Err(EditFault::Memory) => Err(AllocError),
    }
}

/// Those behind what is removed close up.
fn turns_of_removal(
    alloc: Global,
    schema: &Schema,
    tree: &Tree,
    path: &Path,
) -> Result<Turns, EditFault>
    ensures { let s = schema_view.view schema.now in Gives turns_view told_by result
        (turns_of_removal s (tree_view tree.now) (path_view path.now)) }
{
    match bind_path(alloc, schema, false, path) {
        Ok(bound) => match locate(alloc, schema, tree.roots(), bound.steps.as_slice()) {
            Ok(target) => turns_closing(alloc, schema, &target),
            Err(fault) => Err(fault),
        },
        Err(fault) => Err(fault),
    }
}

fn turns_of_move(
    alloc: Global,
    schema: &Schema,
    tree: &Tree,
    path: &Path,
    position: u32,
) -> Result<Turns, EditFault>
    ensures { let s = schema_view.view schema.now in Gives turns_view told_by result
        (turns_of_move s (tree_view tree.now) (path_view path.now) position) }
{
    match bind_to_move(alloc, schema, path, position) {
        Ok(bound) => match locate(alloc, schema, tree.roots(), bound.steps.as_slice()) {
            Ok(target) => turns_moving(alloc, schema, &target, position),
            Err(fault) => Err(fault),
        },
        Err(fault) => Err(fault),
    }
}

fn turns_closing(
    alloc: Global,
    schema: &Schema,
    target: &Located<'_, '_>,
) -> Result<Turns, EditFault>
    ensures { let s = schema_view.view schema.now in Gives turns_view told_by result
        (spec.turns_with s spec.turns_closing (located_view s target.now)) }
{
    match instance_meant(alloc, schema, EditCode::E7, target.row, target.last) {
        Ok(spot) => Ok(closing(alloc, &target.above, spot)?),
        Err(fault) => Err(fault),
    }
}

fn turns_moving(
    alloc: Global,
    schema: &Schema,
    target: &Located<'_, '_>,
    to: u32,
) -> Result<Turns, EditFault>
    ensures { let s = schema_view.view schema.now in Gives turns_view told_by result
        (spec.turns_with s (spec.turns_moving to) (located_view s target.now)) }
{
    match instance_meant(alloc, schema, EditCode::E7, target.row, target.last) {
        Ok(spot) => Ok(moving(alloc, &target.above, spot, to as usize)?),
        Err(fault) => Err(fault),
    }
}

/// Those behind a node close up, and make room for it again.
fn closing(alloc: Global, above: &[Spot], spot: Spot) -> Result<Turns, AllocError>
    ensures { IfOk result (λ turns. turns_view turns
        ≡ closing (spots_view above.now) (spot_view spot)) }
{
    let position = position_of(spot);
    turns_beside(
        alloc,
        above,
        spot,
        Positions::ClosedUp(position),
        Positions::MadeRoom(position),
    )
}

/// A node is put to a position, and back.
fn moving(alloc: Global, above: &[Spot], spot: Spot, to: usize) -> Result<Turns, AllocError>
    ensures { IfOk result (λ turns. turns_view turns
        ≡ moving to (spots_view above.now) (spot_view spot)) }
{
    let from = position_of(spot);
    turns_beside(
        alloc,
        above,
        spot,
        Positions::Turned { from, to },
        Positions::Turned { from: to, to: from },
    )
}

/// The position of a node among those of its schema node, from 1.
fn position_of(spot: Spot) -> usize
    ensures { result ≡ instance_index (spot_view spot) + 1 }
{
    match spot.position {
        Some(position) => position.max(1),
        None => 1,
    }
}

/// The turns of what stands beside an entry or item; none beside other nodes.
fn turns_beside(
    alloc: Global,
    above: &[Spot],
    spot: Spot,
    there: Positions,
    back: Positions,
) -> Result<Turns, AllocError>
    ensures { IfOk result (λ turns. turns_view turns
        ≡ turns_beside (spots_view above.now) (spot_view spot) (positions_view there) (positions_view back)) }
{
    match spot.position {
        Some(_) => Ok(Turns {
            there: Some(turn_of(alloc, above, spot.id, there)?),
            back: Some(turn_of(alloc, above, spot.id, back)?),
        }),
        None => Ok(Turns::NONE),
    }
}

fn turn_of(
    alloc: Global,
    above: &[Spot],
    id: SchemaId,
    positions: Positions,
) -> Result<Turn, AllocError>
    ensures { IfOk result (λ turn. turn_view turn
        ≡ record { above = spots_view above.now; number = id.0; position = positions_view positions }) }
{
    Ok(Turn {
        above: Vec::from_slice(alloc, above)?,
        id,
        positions,
    })
}
