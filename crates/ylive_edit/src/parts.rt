//! A part of a document: put into a row, in the place of another, taken out, or moved within it.

ghost use Rattle.std.specs.Prelude.{◌≡◌, ◌+◌, ◌-◌, ◌≤◌, ◌^◌, ℕ, true, List, IfOk, OnErr, OnOk};
ghost use Rattle.yspec.specs.Forest.{end, size};
ghost use Rattle.yspec.specs.document.Document as document;
ghost use Rattle.yspec.specs.document.Document.{Step};
ghost use Rattle.yspec.specs.document.Fitting.{Fits};
ghost use Rattle.yspec.specs.document.Sorting.{IsSorted};
ghost use Rattle.yspec.specs.edit.Edit.{edit_at, instance_index};
ghost use Rattle.yspec.specs.edit.Editing.{BoundStep, with_branch, with_instead, with_moved, within_limit, without};
ghost use Rattle.yspec_reach.specs.Parts.{comes, gives_way, goes, stays};
ghost use Rattle.yschema_model.specs.View as schema_view;
ghost use Rattle.yinst_tree.specs.View.{view};
ghost use Rattle.ystore.specs.Store.{reads};
ghost use Rattle.ystore.specs.Views.{store_of, lent};
ghost use Rattle.ystore_rows.specs.declared.row.Row as rows;
ghost use Rattle.ystore_rows.specs.declared.row.Row.TheVariants.{Top};
ghost use Rattle.ystore_tree.specs.Hanging.{Branches, Keeps, tree_of};
ghost use Rattle.ystore_tree.specs.Ways.{around, end_of};
ghost use Rattle.ylive_retell.specs.IsTold.{IsFresh, IsTold};
ghost use Rattle.ylive_retell.specs.Reads.{IsNarrow, moved_pairs, row_reads};
ghost use Rattle.ylive_retell.specs.Standing.{Every, standing};
ghost use Rattle.ylive_edit.specs.Places.{Amends, Carries, HangsPart, HoldsTold, IsAt, IsPart, IsPartThere, IsSomewhere, Shows, Swapping, branch_of};
ghost use Rattle.ylive_edit.specs.Reads.{ReadsWithin, exchange_reads, row_target};

use std::alloc::AllocError;
use yinst_path::{EditCode, EditFault, refused};
use yinst_tree::{DOCUMENT_LIMIT, Stored};
use ylive_retell::retell;
use yschema_model::{Schema, SchemaId};
use ystore::{Counted, NodeId, Row};
use ystore_tree::{Change, Swap, insert_part, remove_nodes};

/// Adds a part to a row, behind the nodes of its schema node and of those before it; E11 where the document has no room for
/// it. Where memory runs out the document stays as it was, perhaps with nodes beside it that hang on nothing.
pub fn add_part(
    counted: &mut Counted<'_>,
    schema: &Schema,
    above: Row,
    part: Stored,
) -> Result<(), EditFault>
    requires at { IsSomewhere (schema_view.view schema.now) (store_of counted.old) above }
    requires sorted { IsSorted (view part).1 }
    ensures amends { let s = schema_view.view schema.now in
        (tree : document.Tree) (steps : List Step) (f : Branches)
        → IsAt s (store_of counted.old) tree steps above f
        → Amends s tree (within_limit (edit_at steps (with_branch (branch_of part)) tree))
        (store_of counted.new) result }
    ensures reads { let s = schema_view.view schema.now in
        (tree : document.Tree) (steps : List Step) (f : Branches) (last : BoundStep)
        → IsAt s (store_of counted.old) tree steps above f → Fits s tree
        → IfOk (within_limit (edit_at steps (with_branch (branch_of part)) tree)) (Fits s)
        → ReadsWithin (exchange_reads s tree (comes (row_target steps f last) (branch_of part)))
        (store_of counted.old) (store_of counted.new) result }
    ensures same_reference { lent counted.new ≡ lent counted.old }
{
    match hang_part(counted, schema, above, part, DOCUMENT_LIMIT)? {
        true => Ok(()),
        false => Err(refused(EditCode::E11)),
    }
}

/// The same, and false where there would be more nodes than `most` in the document.
pub(crate) fn hang_part(
    counted: &mut Counted<'_>,
    schema: &Schema,
    above: Row,
    part: Stored,
    most: usize,
) -> Result<bool, AllocError>
    requires at { IsSomewhere (schema_view.view schema.now) (store_of counted.old) above }
    requires sorted { IsSorted (view part).1 }
    requires most { most ≤ 2 ^ 28 }
    ensures hangs { let s = schema_view.view schema.now in
        (tree : document.Tree) (steps : List Step) (f : Branches)
        → IsAt s (store_of counted.old) tree steps above f
        → IfOk result (HangsPart s most tree (edit_at steps (with_branch (branch_of part)) tree)
        (store_of counted.new)) }
    ensures carries { let s = schema_view.view schema.now in
        (tree : document.Tree) (steps : List Step) (f : Branches)
        → (at : IsAt s (store_of counted.old) tree steps above f)
        → IfOk result (λ hung. hung ≡ true → Carries s (store_of counted.new) at.way
        (with_branch (branch_of part) (tree_of f))) }
    ensures shows { let s = schema_view.view schema.now in (tree : document.Tree) (steps : List Step) (f : Branches)
        → IsAt s (store_of counted.old) tree steps above f
        → OnErr result (Shows (store_of counted.new) tree) }
    ensures reads { let s = schema_view.view schema.now in
        (tree : document.Tree) (steps : List Step) (f : Branches) (last : BoundStep)
        → IsAt s (store_of counted.old) tree steps above f → Fits s tree
        → (size (edit_at steps (with_branch (branch_of part)) tree) ≤ most
        → Fits s (edit_at steps (with_branch (branch_of part)) tree))
        → OnOk result (reads (store_of counted.new) ≤ reads (store_of counted.old)
        + exchange_reads s tree (comes (row_target steps f last) (branch_of part))) }
    ensures same_reference { lent counted.new ≡ lent counted.old }
{
    let of = part.id();
    let mut numbers = Vec::new(counted.alloc());
    let new = insert_part(counted, schema, above, part, &mut numbers)?;
    if counted.node_count() > most {
        remove_nodes(counted, &numbers);
        return Ok(false);
    }
    let swap = Swap {
        above,
        schema: of,
        change: Change::Add { new },
    };
    change_row(counted, schema, swap, &[], &numbers)?;
    Ok(true)
}

/// Puts a part in the place of one of the same schema node, of which these are the numbers; E11 where the document has no
/// room for it. Where memory runs out the document stays as it was, perhaps with nodes beside it that hang on nothing.
pub fn put_part(
    counted: &mut Counted<'_>,
    schema: &Schema,
    above: Row,
    old: NodeId,
    old_numbers: &[NodeId],
    part: Stored,
) -> Result<(), EditFault>
    requires at { (index : ℕ) × IsPartThere (schema_view.view schema.now) (store_of counted.old) above
        (view part).0.schema_number index old old_numbers.now }
    requires sorted { IsSorted (view part).1 }
    ensures amends { let s = schema_view.view schema.now in
        (tree : document.Tree) (steps : List Step) (f : Branches) (step : Step) (of : SchemaId)
        → IsAt s (store_of counted.old) tree steps above f → IsPart step of old old_numbers.now f
        → (view part).0.schema_number ≡ of.0
        → Amends s tree (within_limit (edit_at steps (with_instead step (branch_of part)) tree))
        (store_of counted.new) result }
    ensures reads { let s = schema_view.view schema.now in
        (tree : document.Tree) (steps : List Step) (f : Branches) (last : BoundStep) (step : Step) (of : SchemaId)
        → IsAt s (store_of counted.old) tree steps above f → IsPart step of old old_numbers.now f
        → (view part).0.schema_number ≡ of.0 → Fits s tree
        → IfOk (within_limit (edit_at steps (with_instead step (branch_of part)) tree)) (Fits s)
        → ReadsWithin (exchange_reads s tree (gives_way (row_target steps f last) step (branch_of part)))
        (store_of counted.old) (store_of counted.new) result }
    ensures same_reference { lent counted.new ≡ lent counted.old }
{
    let of = part.id();
    let mut numbers = Vec::new(counted.alloc());
    let new = insert_part(counted, schema, above, part, &mut numbers)?;
    if counted.node_count().saturating_sub(old_numbers.len()) > DOCUMENT_LIMIT {
        remove_nodes(counted, &numbers);
        return Err(refused(EditCode::E11));
    }
    let swap = Swap {
        above,
        schema: of,
        change: Change::Put { old, new },
    };
    change_row(counted, schema, swap, old_numbers, &numbers)?;
    Ok(())
}

/// Takes a part out of a row, of which these are the numbers, and which has so many of its schema node before it. Where memory
/// runs out the document stays as it was.
pub fn take_part(
    counted: &mut Counted<'_>,
    schema: &Schema,
    above: Row,
    of: SchemaId,
    place: usize,
    old: NodeId,
    old_numbers: &[NodeId],
) -> Result<(), AllocError>
    requires { IsPartThere (schema_view.view schema.now) (store_of counted.old) above of.0 place old
        old_numbers.now }
    ensures taken { let s = schema_view.view schema.now in
        (tree : document.Tree) (steps : List Step) (f : Branches) (step : Step)
        → IsAt s (store_of counted.old) tree steps above f → IsPart step of old old_numbers.now f
        → instance_index step ≡ place
        → OnOk result (HoldsTold s (store_of counted.new) (edit_at steps (without step) tree)) }
    ensures shows { let s = schema_view.view schema.now in (tree : document.Tree) (steps : List Step) (f : Branches)
        → IsAt s (store_of counted.old) tree steps above f
        → OnErr result (Shows (store_of counted.new) tree) }
    ensures reads { let s = schema_view.view schema.now in
        (tree : document.Tree) (steps : List Step) (f : Branches) (last : BoundStep) (step : Step)
        → IsAt s (store_of counted.old) tree steps above f → IsPart step of old old_numbers.now f
        → instance_index step ≡ place → Fits s tree → Fits s (edit_at steps (without step) tree)
        → OnOk result (reads (store_of counted.new) ≤ reads (store_of counted.old)
        + exchange_reads s tree (goes (row_target steps f last) step)) }
    ensures same_reference { lent counted.new ≡ lent counted.old }
{
    let swap = Swap {
        above,
        schema: of,
        change: Change::Take { old, place },
    };
    change_row(counted, schema, swap, old_numbers, &[])
}

/// Moves a node of a row, which has so many of its schema node before it, to a place among the others of them. Where memory runs
/// out the document stays as it was.
pub fn shift_part(
    counted: &mut Counted<'_>,
    schema: &Schema,
    above: Row,
    of: SchemaId,
    node: NodeId,
    from: usize,
    to: usize,
) -> Result<(), AllocError>
    requires { (numbers : List NodeId) × IsPartThere (schema_view.view schema.now) (store_of counted.old) above of.0 from node
        numbers }
    ensures shifted { let s = schema_view.view schema.now in
        (tree : document.Tree) (steps : List Step) (f : Branches) (step : Step) (numbers : List NodeId) (position : ℕ)
        → IsAt s (store_of counted.old) tree steps above f → IsPart step of node numbers f
        → instance_index step ≡ from → position - 1 ≡ to
        → OnOk result (HoldsTold s (store_of counted.new) (edit_at steps (with_moved step position) tree)) }
    ensures shows { let s = schema_view.view schema.now in (tree : document.Tree) (steps : List Step) (f : Branches)
        → IsAt s (store_of counted.old) tree steps above f
        → OnErr result (Shows (store_of counted.new) tree) }
    ensures reads { let s = schema_view.view schema.now in
        (tree : document.Tree) (steps : List Step) (f : Branches) (last : BoundStep) (step : Step) (numbers : List NodeId) (position : ℕ)
        → IsAt s (store_of counted.old) tree steps above f → IsPart step of node numbers f
        → instance_index step ≡ from → position - 1 ≡ to
        → Fits s tree → Fits s (edit_at steps (with_moved step position) tree)
        → OnOk result (reads (store_of counted.new) ≤ reads (store_of counted.old)
        + exchange_reads s tree (stays (row_target steps f last) step position)) }
    ensures same_reference { lent counted.new ≡ lent counted.old }
{
    let swap = Swap {
        above,
        schema: of,
        change: Change::Move { node, from, to },
    };
    change_row(counted, schema, swap, &[], &[])
}

/// Changes a row of a document, given the numbers of the nodes that go and of those that come, and all that is told of it. Where
/// memory runs out the document stays as it was.
fn change_row(
    counted: &mut Counted<'_>,
    schema: &Schema,
    swap: Swap,
    old: &[NodeId],
    new: &[NodeId],
) -> Result<(), AllocError>
    requires { Swapping swap (store_of counted.old) old.now new.now }
    ensures told { let s = schema_view.view schema.now in
        (p : Swapping swap (store_of counted.old) old.now new.now)
        → IsTold s (store_of counted.old) (around p.way p.f)
        → Every (IsFresh s (store_of counted.old)) (standing (end_of Top p.way) p.loose)
        → size (around p.way p.g) ≤ 2 ^ 28
        → OnOk result (IsTold s (store_of counted.new) (around p.way p.g)) }
    ensures reads { let s = schema_view.view schema.now in
        (p : Swapping swap (store_of counted.old) old.now new.now)
        → IsTold s (store_of counted.old) (around p.way p.f)
        → Every (IsFresh s (store_of counted.old)) (standing (end_of Top p.way) p.loose)
        → size (around p.way p.g) ≤ 2 ^ 28 → IsNarrow s p.way p.f p.g
        → OnOk result (reads (store_of counted.new) ≤ reads (store_of counted.old)
        + row_reads s p.loose p.left (moved_pairs s p.way p.f p.loose p.g p.left)) }
    ensures keeps { (p : Swapping swap (store_of counted.old) old.now new.now)
        → OnOk result (Keeps (store_of counted.new) (around p.way p.g) swap.above end) }
    ensures keeps_still { OnErr result ((tree : Branches) (above : rows.Row) (loose : Branches)
        → Keeps (store_of counted.old) tree above loose → Keeps (store_of counted.new) tree above loose) }
    ensures same_reference { lent counted.new ≡ lent counted.old }
{
    counted.reserve_child(swap.above)?;
    retell(counted, schema, swap, old, new)
}
