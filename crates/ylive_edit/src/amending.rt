//! Edits of the document that a store holds.

ghost use Rattle.std.specs.Prelude.{◌≡◌, ◌+◌, ◌*◌, ◌≤◌, [], false, List, IfOk, OnOk};
ghost use Rattle.yspec.specs.Forest.{end, levels, node, size};
ghost use Rattle.yspec.specs.schema.Schema as schemas;
ghost use Rattle.yspec.specs.document.Document as document;
ghost use Rattle.yspec.specs.document.Document.{Step};
ghost use Rattle.yspec.specs.document.Fitting.{Fits};
ghost use Rattle.yspec.specs.document.Sorting.{IsSorted};
ghost use Rattle.yspec.specs.edit.Editing as spec;
ghost use Rattle.yspec_reach.specs.Parts.{exchange_of};
ghost use Rattle.yschema_model.specs.View as schema_view;
ghost use Rattle.yinst_path.specs.Binding.{node_of};
ghost use Rattle.yinst_path.specs.EditView.{edit_view, path_view, predicate_view};
ghost use Rattle.ystore.specs.Entries as entries;
ghost use Rattle.ystore.specs.Entries.{StandsOnce};
ghost use Rattle.ystore_rows.specs.Rows.{of_schema};
ghost use Rattle.ystore.specs.Store.{children_at, node_count, reads};
ghost use Rattle.ystore.specs.Views.{store_of, lent};
ghost use Rattle.ystore_rows.specs.declared.row.Row as rows;
ghost use Rattle.ystore_tree.specs.Hanging.{Branches, Hangs, Numbered, Stands};
ghost use Rattle.ystore_tree.specs.Copies.{ids_of};
ghost use Rattle.ystore_tree.specs.Parts.{OnlyReads};
ghost use Rattle.ylive_edit.specs.Places.{Amends, HoldsSorted, HoldsTold, IsAt, IsSomewhere};
ghost use Rattle.ylive_edit.specs.Locating.{Locates, target_at};
ghost use Rattle.ylive_edit.specs.Reads.{ReadsWithin, created_parts, moved_parts, parts_reads, removed_parts, replaced_parts};

use crate::instances::instance_meant;
use crate::locating::{Place, locate};
use crate::parts::{add_part, put_part, shift_part, take_part};
use std::alloc::AllocError;
use yinst::part;
use yinst_path::{Edit, EditCode, EditFault, Path, Predicate, bind_path, bind_to_move, refused};
use yschema_model::{Schema, SchemaId};
use ystore::{Counted, NodeId};
use ystore_tree::copy_part;

/// Does an edit of the document that a store holds, and tells anew what is told of it; or tells the first refusal, as the
/// definition of edits gives them. Where memory runs out the document stays as it was, perhaps with nodes beside it that hang
/// on nothing.
pub fn amend(counted: &mut Counted<'_>, schema: &Schema, edit: &Edit) -> Result<(), EditFault>
    requires { HoldsSorted (schema_view.view schema.now) (store_of counted.old) }
    ensures amends { let s = schema_view.view schema.now in
        (tree : document.Tree) → HoldsTold s (store_of counted.old) tree → IsSorted tree
        → Amends s tree (spec.applied s tree (edit_view edit.now)) (store_of counted.new) result }
    ensures reads { let s = schema_view.view schema.now in
        (tree : document.Tree) → HoldsTold s (store_of counted.old) tree → IsSorted tree → Fits s tree
        → ReadsWithin (2 * levels s.nodes + 4 + parts_reads s tree (exchange_of s tree (edit_view edit.now)))
        (store_of counted.old) (store_of counted.new) result }
    ensures same_reference { lent counted.new ≡ lent counted.old }
{
    match edit {
        Edit::Create { path, value } => match place_of(counted, schema, true, path) {
            Ok(place) => create(counted, schema, place, value.as_str()),
            Err(fault) => Err(fault),
        },
        Edit::Replace { path, value } => match place_of(counted, schema, false, path) {
            Ok(place) => replace(counted, schema, place, value.as_str()),
            Err(fault) => Err(fault),
        },
        Edit::Remove { path } => match place_of(counted, schema, false, path) {
            Ok(place) => remove(counted, schema, place),
            Err(fault) => Err(fault),
        },
        Edit::Move { path, position } => match place_to_move(counted, schema, path, *position) {
            Ok(place) => move_node(counted, schema, place, *position),
            Err(fault) => Err(fault),
        },
    }
}

/// Where a path leads: E1 to E6.
fn place_of<'e>(
    counted: &mut Counted<'_>,
    schema: &Schema,
    is_create: bool,
    path: &'e Path,
) -> Result<Place<'e>, EditFault>
    ensures place { let s = schema_view.view schema.now in
        (tree : document.Tree) → HoldsTold s (store_of counted.old) tree → IsSorted tree
        → Locates s tree [] (spec.target_of s tree is_create (path_view path.entry.now))
        (store_of counted.new) result }
    ensures from_one { IfOk result (λ place. spec.is_zero (predicate_view place.last.predicate.now)
        ≡ false) }
    ensures reads { reads (store_of counted.new)
        ≤ reads (store_of counted.old) + 2 * levels (schema_view.view schema.now).nodes }
    ensures kept { OnlyReads (store_of counted.old) (store_of counted.new) }
    ensures same_reference { lent counted.new ≡ lent counted.old }
{
    match bind_path(counted.alloc(), schema, is_create, path) {
        Ok(bound) => locate(counted, schema, bound.steps.as_slice()),
        Err(fault) => Err(fault),
    }
}

/// The same of an edit that moves what a path leads to; E3 also where that is no entry or item.
fn place_to_move<'e>(
    counted: &mut Counted<'_>,
    schema: &Schema,
    path: &'e Path,
    position: u32,
) -> Result<Place<'e>, EditFault>
    ensures place { let s = schema_view.view schema.now in
        (tree : document.Tree) → HoldsTold s (store_of counted.old) tree → IsSorted tree
        → Locates s tree [] (spec.target_to_move s tree (path_view path.entry.now) position)
        (store_of counted.new) result }
    ensures from_one { IfOk result (λ place. spec.is_zero (predicate_view place.last.predicate.now)
        ≡ false) }
    ensures reads { reads (store_of counted.new)
        ≤ reads (store_of counted.old) + 2 * levels (schema_view.view schema.now).nodes }
    ensures fewer { OnOk result (reads (store_of counted.new) + 2
        ≤ reads (store_of counted.old) + 2 * levels (schema_view.view schema.now).nodes) }
    ensures kept { OnlyReads (store_of counted.old) (store_of counted.new) }
    ensures same_reference { lent counted.new ≡ lent counted.old }
{
    match bind_to_move(counted.alloc(), schema, path, position) {
        Ok(bound) => locate(counted, schema, bound.steps.as_slice()),
        Err(fault) => Err(fault),
    }
}

/// E8 of a container or leaf that is there, E9 to E11.
fn create(
    counted: &mut Counted<'_>,
    schema: &Schema,
    place: Place<'_>,
    value: &str,
) -> Result<(), EditFault>
    requires { IsSomewhere (schema_view.view schema.now) (store_of counted.old) place.above }
    ensures amends { let s = schema_view.view schema.now in
        (tree : document.Tree) (above : List Step) (f : Branches)
        → IsAt s (store_of counted.old) tree above place.entry.above f
        → Amends s tree (spec.created s tree value.now (target_at s above f place.entry.last))
        (store_of counted.new) result }
    ensures reads { let s = schema_view.view schema.now in
        (tree : document.Tree) (above : List Step) (f : Branches)
        → IsAt s (store_of counted.old) tree above place.entry.above f → Fits s tree
        → IfOk (spec.created s tree value.now (target_at s above f place.entry.last)) (Fits s)
        → ReadsWithin (1 + parts_reads s tree (created_parts s value.now (target_at s above f place.entry.last)))
        (store_of counted.old) (store_of counted.new) result }
    ensures same_reference { lent counted.new ≡ lent counted.old }
{
    if is_there(counted, schema, place) {
        return Err(refused(EditCode::E8));
    }
    match part(counted.alloc(), schema, place.last.id, value) {
        Ok(part) => add_part(counted, schema, place.above, part),
        Err(fault) => Err(fault),
    }
}

/// Whether a container or leaf that is to be created is there.
fn is_there(counted: &mut Counted<'_>, schema: &Schema, place: Place<'_>) -> bool
    ensures there { let s = schema_view.view schema.now in
        (above : List Step) (f : Branches) → Hangs (store_of counted.old) place.entry.above f
        → result ≡ spec.is_there (target_at s above f place.entry.last) }
    ensures reads { reads (store_of counted.new) ≤ reads (store_of counted.old) + 1 }
    ensures kept { OnlyReads (store_of counted.old) (store_of counted.new) }
    ensures same_reference { lent counted.new ≡ lent counted.old }
{
    let count = counted.count_of(place.above, place.last.id);
    !is_many(schema, place.last.id) && 0 < count
}

fn is_many(schema: &Schema, id: SchemaId) -> bool
    ensures { result ≡ schemas.is_many (node_of (schema_view.view schema.now) id.0).kind }
{
    match schema.kind(id) {
        Some(node) => node.kind.is_many(),
        None => false,
    }
}

/// E5 to E7, and E9 to E11.
fn replace(
    counted: &mut Counted<'_>,
    schema: &Schema,
    place: Place<'_>,
    value: &str,
) -> Result<(), EditFault>
    requires from_one { spec.is_zero (predicate_view place.last.predicate.now) ≡ false }
    requires at { IsSomewhere (schema_view.view schema.now) (store_of counted.old) place.above }
    ensures amends { let s = schema_view.view schema.now in
        (tree : document.Tree) (above : List Step) (f : Branches)
        → IsAt s (store_of counted.old) tree above place.entry.above f
        → Amends s tree (spec.replaced s tree value.now (target_at s above f place.entry.last))
        (store_of counted.new) result }
    ensures reads { let s = schema_view.view schema.now in
        (tree : document.Tree) (above : List Step) (f : Branches)
        → IsAt s (store_of counted.old) tree above place.entry.above f → Fits s tree
        → IfOk (spec.replaced s tree value.now (target_at s above f place.entry.last)) (Fits s)
        → ReadsWithin (2 + parts_reads s tree (replaced_parts s value.now (target_at s above f place.entry.last)))
        (store_of counted.old) (store_of counted.new) result }
    ensures same_reference { lent counted.new ≡ lent counted.old }
{
    match instance_meant(counted, schema, EditCode::E7, place.above, place.last) {
        Ok(node) => match part(counted.alloc(), schema, place.last.id, value) {
            Ok(part) => {
                let numbers = numbers_of(counted, node)?;
                put_part(counted, schema, place.above, node, &numbers, part)
            }
            Err(fault) => Err(fault),
        },
        Err(fault) => Err(fault),
    }
}

/// E5 to E7.
fn remove(counted: &mut Counted<'_>, schema: &Schema, place: Place<'_>) -> Result<(), EditFault>
    requires from_one { spec.is_zero (predicate_view place.last.predicate.now) ≡ false }
    requires at { IsSomewhere (schema_view.view schema.now) (store_of counted.old) place.above }
    ensures amends { let s = schema_view.view schema.now in
        (tree : document.Tree) (above : List Step) (f : Branches)
        → IsAt s (store_of counted.old) tree above place.entry.above f
        → Amends s tree (spec.removed s tree (target_at s above f place.entry.last))
        (store_of counted.new) result }
    ensures reads { let s = schema_view.view schema.now in
        (tree : document.Tree) (above : List Step) (f : Branches)
        → IsAt s (store_of counted.old) tree above place.entry.above f → Fits s tree
        → IfOk (spec.removed s tree (target_at s above f place.entry.last)) (Fits s)
        → ReadsWithin (4 + parts_reads s tree (removed_parts s (target_at s above f place.entry.last)))
        (store_of counted.old) (store_of counted.new) result }
    ensures same_reference { lent counted.new ≡ lent counted.old }
{
    match instance_meant(counted, schema, EditCode::E7, place.above, place.last) {
        Ok(node) => {
            let numbers = numbers_of(counted, node)?;
            let before = place_among(counted, place, node);
            take_part(
                counted,
                schema,
                place.above,
                place.last.id,
                before,
                node,
                &numbers,
            )?;
            Ok(())
        }
        Err(fault) => Err(fault),
    }
}

/// E5 to E7, and E5 of the position.
fn move_node(
    counted: &mut Counted<'_>,
    schema: &Schema,
    place: Place<'_>,
    position: u32,
) -> Result<(), EditFault>
    requires from_one { spec.is_zero (predicate_view place.last.predicate.now) ≡ false }
    requires at { IsSomewhere (schema_view.view schema.now) (store_of counted.old) place.above }
    ensures amends { let s = schema_view.view schema.now in
        (tree : document.Tree) (above : List Step) (f : Branches)
        → IsAt s (store_of counted.old) tree above place.entry.above f
        → Amends s tree (spec.moved s tree position (target_at s above f place.entry.last))
        (store_of counted.new) result }
    ensures reads { let s = schema_view.view schema.now in
        (tree : document.Tree) (above : List Step) (f : Branches)
        → IsAt s (store_of counted.old) tree above place.entry.above f → Fits s tree
        → IfOk (spec.moved s tree position (target_at s above f place.entry.last)) (Fits s)
        → ReadsWithin (5 + parts_reads s tree (moved_parts s position (target_at s above f place.entry.last)))
        (store_of counted.old) (store_of counted.new) result }
    ensures same_reference { lent counted.new ≡ lent counted.old }
{
    match instance_meant(counted, schema, EditCode::E7, place.above, place.last) {
        Ok(node) => {
            if counted.count_of(place.above, place.last.id) < position as usize {
                return Err(refused(EditCode::E5));
            }
            let from = place_among(counted, place, node);
            let to = (position as usize).saturating_sub(1);
            shift_part(counted, schema, place.above, place.last.id, node, from, to)?;
            Ok(())
        }
        Err(fault) => Err(fault),
    }
}

/// The place of the node that the last step of a path means, among those of its schema node. It is looked for from the position
/// that the step says, or from where the node was put.
fn place_among(counted: &mut Counted<'_>, place: Place<'_>, node: NodeId) -> usize
    ensures place { let nodes = of_schema place.entry.last.id (children_at (store_of counted.old) place.entry.above) in
        StandsOnce node nodes → result ≡ entries.place_of node nodes }
    ensures reads { reads (store_of counted.new) ≤ reads (store_of counted.old) + 2 }
    ensures kept { OnlyReads (store_of counted.old) (store_of counted.new) }
    ensures same_reference { lent counted.new ≡ lent counted.old }
{
    let near = place_said(counted, place.last.predicate, node);
    counted.place_near(place.above, place.last.id, node, near)
}

/// A place near which a node is looked for that a predicate means.
fn place_said(counted: &mut Counted<'_>, predicate: &Predicate, node: NodeId) -> usize
    ensures reads { reads (store_of counted.new) ≤ reads (store_of counted.old) + 1 }
    ensures kept { OnlyReads (store_of counted.old) (store_of counted.new) }
    ensures same_reference { lent counted.new ≡ lent counted.old }
{
    match predicate {
        Predicate::Unsaid => 0,
        Predicate::Position(position) => (*position as usize).saturating_sub(1),
        Predicate::Keys(_) => counted.place_put(node),
    }
}

/// The numbers of a node and of all below it, in preorder.
fn numbers_of(counted: &mut Counted<'_>, id: NodeId) -> Result<Vec<NodeId>, AllocError>
    ensures numbers { (above : rows.Row) (n : Numbered) (below : Branches) → n.id ≡ id
        → Stands (store_of counted.old) above (node n below end)
        → size (node n below end) ≤ node_count (store_of counted.old)
        → IfOk result (λ all. all.items ≡ ids_of (node n below end)) }
    ensures reads { (above : rows.Row) (n : Numbered) (below : Branches) → n.id ≡ id
        → Stands (store_of counted.old) above (node n below end)
        → size (node n below end) ≤ node_count (store_of counted.old)
        → OnOk result (reads (store_of counted.new) ≤ reads (store_of counted.old) + 4 * size (node n below end)) }
    ensures kept { OnlyReads (store_of counted.old) (store_of counted.new) }
    ensures same_reference { lent counted.new ≡ lent counted.old }
{
    let depth = counted.node_count();
    let mut copy = Vec::new(counted.alloc());
    let mut numbers = Vec::new(counted.alloc());
    copy_part(counted, id, depth, &mut copy, &mut numbers)?;
    Ok(numbers)
}
