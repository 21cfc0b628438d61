//! What stands in a document where steps lead.

ghost use Rattle.std.specs.Prelude.{◌≡◌, ◌≤◌, length, ltb, option_and_then, option_map, slice_get, true};
ghost use Rattle.std.specs.List.{prefix_len};
ghost use Rattle.yspec.specs.document.Document.{instances_in};
ghost use Rattle.yspec.specs.document.Sorting.{IsSorted};
ghost use Rattle.yinst_tree.specs.View as document_view;
ghost use Rattle.ysay_place.specs.Instances.{instance_of};
ghost use Rattle.ysay_place.specs.Places as spec;

use yinst_tree::{Step, Stored, Tree};
use yschema_model::SchemaId;

/// The instance of a schema node at an index in a row, from 0.
pub(crate) fn nth_instance(row: &[Stored], id: SchemaId, index: usize) -> Option<&Stored>
    ensures { option_map (λ s. document_view.view s.now) result
        ≡ spec.nth_instance id.0 index (document_view.row_view row.entry.now) }
{
    let mut left = index;
    for stored in row {
        if stored.id().0 == id.0 {
            if left == 0 {
                return Some(stored);
            }
            left -= 1;
        }
    }
    None
}

/// The place of the first node of a row in order whose schema number isn't less than one.
fn first_place(row: &[Stored], id: SchemaId) -> usize
    requires { IsSorted (document_view.row_view row.now) }
    ensures place { result ≡ prefix_len (λ s. ltb (document_view.view s).0.schema_number id.0) row.now }
    ensures within { result ≤ length row.now }
{
    row.partition_point(|stored| stored.id().0 < id.0)
}

/// The node at a place of a row, if it is an instance of a schema node.
fn instance_at(row: &[Stored], id: SchemaId, place: usize) -> Option<&Stored>
    ensures { option_map (λ s. document_view.view s.now) result
        ≡ option_and_then (instance_of id.0) (slice_get row.entry.now place) }
{
    match row.get(place) {
        Some(stored) => {
            if stored.id().0 == id.0 {
                Some(stored)
            } else {
                None
            }
        }
        None => None,
    }
}

/// The same in a row in order, found by halves.
fn nth_in_order(row: &[Stored], id: SchemaId, index: usize) -> Option<&Stored>
    requires { IsSorted (document_view.row_view row.now) }
    ensures { option_map (λ s. document_view.view s.now) result
        ≡ spec.nth_instance id.0 index (document_view.row_view row.entry.now) }
{
    let first = first_place(row, id);
    if index < row.len() - first {
        instance_at(row, id, first + index)
    } else {
        None
    }
}

/// The instance to which a step leads from a row, where it is said whether that is known to stand in order.
pub fn instance_found<'a>(row: &'a [Stored], in_order: bool, step: &Step) -> Option<&'a Stored>
    requires { in_order ≡ true → IsSorted (document_view.row_view row.now) }
    ensures { option_map (λ s. document_view.view s.now) result
        ≡ spec.instance_to (document_view.row_view row.entry.now)
        (document_view.step_view step.now) }
{
    let index = index_of(step);
    if in_order {
        nth_in_order(row, step.id, index)
    } else {
        nth_instance(row, step.id, index)
    }
}

/// How many instances stand before the one to which a step leads.
fn index_of(step: &Step) -> usize
    ensures { result ≡ spec.index_of step.now.position }
{
    match step.position {
        Some(position) => position.saturating_sub(1),
        None => 0,
    }
}

/// The row below that instance, in which nothing stands where there is none.
pub fn row_found<'a>(row: &'a [Stored], in_order: bool, step: &Step) -> &'a [Stored]
    requires { in_order ≡ true → IsSorted (document_view.row_view row.now) }
    ensures { document_view.row_view result.now
        ≡ spec.row_to (document_view.row_view row.entry.now) (document_view.step_view step.now) }
{
    match instance_found(row, in_order, step) {
        Some(stored) => stored.below(),
        None => &[],
    }
}

/// The instance to which a step leads from a row, gone through from the front.
pub fn instance_to<'a>(row: &'a [Stored], step: &Step) -> Option<&'a Stored>
    ensures { option_map (λ s. document_view.view s.now) result
        ≡ spec.instance_to (document_view.row_view row.entry.now)
        (document_view.step_view step.now) }
{
    nth_instance(row, step.id, index_of(step))
}

/// The row below that instance.
pub fn row_to<'a>(row: &'a [Stored], step: &Step) -> &'a [Stored]
    ensures { document_view.row_view result.now
        ≡ spec.row_to (document_view.row_view row.entry.now) (document_view.step_view step.now) }
{
    match instance_to(row, step) {
        Some(stored) => stored.below(),
        None => &[],
    }
}

/// The row below the place to which steps lead.
pub fn row_at<'a>(tree: &'a Tree, steps: &[Step]) -> &'a [Stored]
    ensures { document_view.row_view result.now
        ≡ spec.row_at (document_view.tree_view tree.entry.now)
        (document_view.place_view steps.now) }
{
    let in_order = tree.is_in_order();
    let mut row = tree.roots();
    for step in steps {
        row = row_found(row, in_order, step);
    }
    row
}

/// How many instances of a schema node a row has.
pub fn count_of(row: &[Stored], id: SchemaId) -> usize
    ensures { result ≡ instances_in (document_view.row_view row.now) id.0 }
{
    let mut count = 0;
    for stored in row {
        if stored.id().0 == id.0 {
            count += 1;
        }
    }
    count
}
