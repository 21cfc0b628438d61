//! What an edit makes of a document.

ghost use Rattle.std.specs.Prelude.{◌≡◌, IfOk, nat_lt};
ghost use Rattle.yspec.specs.schema.Schema as schemas;
ghost use Rattle.yspec.specs.document.Document.{instances_in};
ghost use Rattle.yspec.specs.document.Fitting.{Fits};
ghost use Rattle.yspec.specs.document.Writing.{IsDocument};
ghost use Rattle.yspec.specs.edit.Edit.{edit_at};
ghost use Rattle.yspec.specs.edit.Editing as spec;
ghost use Rattle.yschema_model.specs.View as schema_view;
ghost use Rattle.yinst_tree.specs.View.{tree_view, row_view};
ghost use Rattle.yinst_path.specs.EditView.{edit_view, path_view};
ghost use Rattle.yspec.specs.Results.{Gives};
ghost use Rattle.yinst_path.specs.Applying.{told_by};
ghost use Rattle.yinst_path.specs.Binding.{node_of};
ghost use Rattle.yinst.specs.Locating.{spot_view, spots_view, located_view};
ghost use Rattle.yinst.specs.Rows.{branch_view, change_view};

use crate::branch::part;
use crate::locating::{Located, Spot, count_of, instance_meant, locate};
use crate::rows::{Change, changed_row, is_over};
use std::alloc::{AllocError, Global};
use yinst_path::{Edit, EditCode, EditFault, Path, bind_path, bind_to_move, refused};
use yinst_tree::{DOCUMENT_LIMIT, Stored, Tree};
use yschema_model::{Schema, SchemaId};

/// The document after an edit, or the first refusal: of the path's steps and the position to move to E1, of the path's
/// names E2 and its predicates E3, of where it stands E4 to E8, of its value E9 and E10, and E11. The document that is given stays as it is.
pub fn apply(alloc: Global, schema: &Schema, tree: &Tree, edit: &Edit) -> Result<Tree, EditFault>
    ensures answer { Gives tree_view told_by result
        (spec.applied (schema_view.view schema.now) (tree_view tree.now) (edit_view edit.now)) }
    ensures fitting { let s = schema_view.view schema.now in
        Fits s (tree_view tree.now) → IfOk result (λ t. Fits s (tree_view t)) }
    // in values as in shape
    ensures whole { let s = schema_view.view schema.now in
        IsDocument s (tree_view tree.now) → IfOk result (λ t. IsDocument s (tree_view t)) }
{
    edited_tree(alloc, schema, tree, edit)
}

/// The document after an edit.
#[tactic(auto, unfolding(yspec::specs::edit::Editing::applied))]
fn edited_tree(alloc: Global, schema: &Schema, tree: &Tree, edit: &Edit) -> Result<Tree, EditFault>
    ensures { Gives tree_view told_by result
        (spec.applied (schema_view.view schema.now) (tree_view tree.now) (edit_view edit.now)) }
{
    match edit {
        Edit::Create { path, value } => match target_of(alloc, schema, tree, true, path) {
            Ok(target) => create(alloc, schema, tree, &target, value.as_str()),
            Err(fault) => Err(fault),
        },
        Edit::Replace { path, value } => match target_of(alloc, schema, tree, false, path) {
            Ok(target) => replace(alloc, schema, tree, &target, value.as_str()),
            Err(fault) => Err(fault),
        },
        Edit::Remove { path } => match target_of(alloc, schema, tree, false, path) {
            Ok(target) => remove(alloc, schema, tree, &target),
            Err(fault) => Err(fault),
        },
        Edit::Move { path, position } => {
            match target_to_move(alloc, schema, tree, path, *position) {
                Ok(target) => move_node(alloc, schema, tree, &target, *position),
                Err(fault) => Err(fault),
            }
        }
    }
}

/// Where a path leads in a document.
fn target_of<'t, 'e>(
    alloc: Global,
    schema: &Schema,
    tree: &'t Tree,
    is_create: bool,
    path: &'e Path,
) -> Result<Located<'t, 'e>, EditFault>
    ensures { let s = schema_view.view schema.now in
        Gives (located_view s) told_by result
        (spec.target_of s (tree_view tree.entry.now) is_create (path_view path.entry.now)) }
{
    match bind_path(alloc, schema, is_create, path) {
        Ok(bound) => locate(alloc, schema, tree.roots(), bound.steps.as_slice()),
        Err(fault) => Err(fault),
    }
}

/// Where the path of a node that is moved leads.
fn target_to_move<'t, 'e>(
    alloc: Global,
    schema: &Schema,
    tree: &'t Tree,
    path: &'e Path,
    position: u32,
) -> Result<Located<'t, 'e>, EditFault>
    ensures { let s = schema_view.view schema.now in
        Gives (located_view s) told_by result
        (spec.target_to_move s (tree_view tree.entry.now) (path_view path.entry.now) position) }
{
    match bind_to_move(alloc, schema, path, position) {
        Ok(bound) => locate(alloc, schema, tree.roots(), bound.steps.as_slice()),
        Err(fault) => Err(fault),
    }
}

/// E8 of a container or leaf that is there.
fn create(
    alloc: Global,
    schema: &Schema,
    tree: &Tree,
    target: &Located<'_, '_>,
    value: &str,
) -> Result<Tree, EditFault>
    ensures { let s = schema_view.view schema.now in
        Gives tree_view told_by result
        (spec.created s (tree_view tree.now) value.now (located_view s target.now)) }
{
    if is_there(schema, target) {
        return Err(refused(EditCode::E8));
    }
    match part_at(alloc, schema, target.last.id, value) {
        Ok(branch) => tree_within_limit(alloc, tree, target.above.as_slice(), Change::Add(branch)),
        Err(fault) => Err(fault),
    }
}

/// Whether a container or leaf that is to be created is there.
fn is_there(schema: &Schema, target: &Located<'_, '_>) -> bool
    ensures { result ≡ spec.is_there (located_view (schema_view.view schema.now) target.now) }
{
    !is_many(schema, target.last.id) && is_stored(schema, target.row, target.last.id)
}

fn is_many(schema: &Schema, id: SchemaId) -> bool
    ensures { result ≡ schemas.is_many (node_of (schema_view.view schema.now) id.0).kind }
{
    match schema.kind(id) {
        Some(node) => node.kind.is_many(),
        None => false,
    }
}

/// Whether a row has an instance of a schema node.
fn is_stored(schema: &Schema, row: &[Stored], id: SchemaId) -> bool
    ensures { result ≡ nat_lt 0
        (instances_in (row_view row.now) (node_of (schema_view.view schema.now) id.0).number) }
{
    0 < count_of(row, id)
}

/// The value at a schema node: E9, E10.
fn part_at(alloc: Global, schema: &Schema, id: SchemaId, text: &str) -> Result<Stored, EditFault>
    ensures { let s = schema_view.view schema.now in
        Gives branch_view told_by result (spec.branch_of s (node_of s id.0).number text.now) }
{
    part(alloc, schema, id, text)
}

fn replace(
    alloc: Global,
    schema: &Schema,
    tree: &Tree,
    target: &Located<'_, '_>,
    value: &str,
) -> Result<Tree, EditFault>
    ensures { let s = schema_view.view schema.now in
        Gives tree_view told_by result
        (spec.replaced s (tree_view tree.now) value.now (located_view s target.now)) }
{
    match last_meant(alloc, schema, target) {
        Ok(spot) => match part_at(alloc, schema, target.last.id, value) {
            Ok(branch) => tree_within_limit(
                alloc,
                tree,
                target.above.as_slice(),
                Change::Put(spot, branch),
            ),
            Err(fault) => Err(fault),
        },
        Err(fault) => Err(fault),
    }
}

fn remove(
    alloc: Global,
    schema: &Schema,
    tree: &Tree,
    target: &Located<'_, '_>,
) -> Result<Tree, EditFault>
    ensures { let s = schema_view.view schema.now in
        Gives tree_view told_by result
        (spec.removed s (tree_view tree.now) (located_view s target.now)) }
{
    match last_meant(alloc, schema, target) {
        Ok(spot) => {
            let change = Change::TakeAway(spot);
            Ok(with_row(alloc, tree, &target.above, change)?)
        }
        Err(fault) => Err(fault),
    }
}

/// E5 of a position past the end.
fn move_node(
    alloc: Global,
    schema: &Schema,
    tree: &Tree,
    target: &Located<'_, '_>,
    position: u32,
) -> Result<Tree, EditFault>
    ensures { let s = schema_view.view schema.now in
        Gives tree_view told_by result
        (spec.moved s (tree_view tree.now) position (located_view s target.now)) }
{
    match last_meant(alloc, schema, target) {
        Ok(spot) => {
            if are_fewer(schema, target.row, target.last.id, position) {
                return Err(refused(EditCode::E5));
            }
            let change = Change::Move(spot, (position as usize).saturating_sub(1));
            Ok(with_row(alloc, tree, &target.above, change)?)
        }
        Err(fault) => Err(fault),
    }
}

/// Whether a row has fewer instances of a schema node than this.
fn are_fewer(schema: &Schema, row: &[Stored], id: SchemaId, position: u32) -> bool
    ensures { result ≡ nat_lt
        (instances_in (row_view row.now) (node_of (schema_view.view schema.now) id.0).number)
        position }
{
    count_of(row, id) < position as usize
}

/// The node that the last step means: E5 to E7.
fn last_meant(alloc: Global, schema: &Schema, target: &Located<'_, '_>) -> Result<Spot, EditFault>
    ensures { let s = schema_view.view schema.now in
        Gives spot_view told_by result (spec.last_meant s (located_view s target.now)) }
{
    instance_meant(alloc, schema, EditCode::E7, target.row, target.last)
}

/// A copy of a document with a change in a row.
fn with_row(alloc: Global, tree: &Tree, above: &[Spot], change: Change) -> Result<Tree, AllocError>
    ensures { IfOk result (λ t. tree_view t
        ≡ edit_at (spots_view above.now) (change_view change) (tree_view tree.now)) }
{
    Ok(Tree::new(changed_row(alloc, tree.roots(), above, change)?))
}

/// The same, where the document has room for it: E11.
fn tree_within_limit(
    alloc: Global,
    tree: &Tree,
    above: &[Spot],
    change: Change,
) -> Result<Tree, EditFault>
    ensures { Gives tree_view told_by result
        (spec.within_limit (edit_at (spots_view above.now) (change_view change)
        (tree_view tree.now))) }
{
    within_limit(with_row(alloc, tree, above, change)?)
}

fn within_limit(tree: Tree) -> Result<Tree, EditFault>
    ensures { Gives tree_view told_by result (spec.within_limit (tree_view tree)) }
{
    if is_over(tree.roots(), DOCUMENT_LIMIT) {
        Err(refused(EditCode::E11))
    } else {
        Ok(tree)
    }
}
