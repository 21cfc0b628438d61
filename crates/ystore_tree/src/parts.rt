//! A part of a document that hangs in a store, copied by counted reads.

ghost use Rattle.std.specs.Prelude.{◌≡◌, ◌≤◌, drop, IfOk, OnOk, option_map, option_and_then};
ghost use Rattle.yspec.specs.Forest.{end, node, levels};
ghost use Rattle.ytype.specs.View.{raw_of};
ghost use Rattle.ystore.specs.Store.{children_at, label_at};
ghost use Rattle.ystore.specs.Views.{store_of, lent, IsRead};
ghost use Rattle.ystore_rows.specs.declared.row.Row as rust;
ghost use Rattle.ystore_rows.specs.declared.row.Row.TheVariants.{Below};
ghost use Rattle.ystore_tree.specs.Hanging.{Numbered, Branches, Stands, children_of};
ghost use Rattle.ystore_tree.specs.Parts.{CopiesBut, OnlyReads};

use crate::copying::copy_of_value;
use std::alloc::AllocError;
use yinst_tree::Stored;
use ystore::{Counted, NodeId, Row};
use ytype::Raw;

/// Puts a copy of a node, with all that hangs on it down to so many levels, behind a row, and lists their numbers, in preorder.
/// Each node is read four times, but the first, which is read three times.
#[cycle(part_copies)]
pub fn copy_part(
    counted: &mut Counted<'_>,
    id: NodeId,
    depth: usize,
    row: &mut Vec<Stored>,
    numbers: &mut Vec<NodeId>,
) -> Result<(), AllocError>
    ensures part { OnOk result ((above : rust.Row) (n : Numbered) (below : Branches) → n.id ≡ id
        → Stands (store_of counted.old) above (node n below end) → levels (node n below end) ≤ depth
        → CopiesBut 1 n below (store_of counted.old) (store_of counted.new) row.old.items row.new.items numbers.old.items numbers.new.items) }
    ensures kept { OnlyReads (store_of counted.old) (store_of counted.new) }
    ensures same_reference { lent counted.new ≡ lent counted.old }
{
    if depth == 0 {
        return Ok(());
    }
    let value = value_at(counted, id)?;
    let Some(schema) = counted.schema(id) else {
        return Ok(());
    };
    let count = counted.child_count(Row::Below(id));
    numbers.push(id)?;
    let mut below = Vec::new(counted.alloc());
    for place in 0..count {
        copy_child(counted, id, place, depth - 1, &mut below, numbers)?;
    }
    row.push(Stored::new(schema, value, below))?;
    Ok(())
}

/// Puts a copy of the child at a place behind a row, if there is one.
#[cycle(part_copies)]
fn copy_child(
    counted: &mut Counted<'_>,
    above: NodeId,
    place: usize,
    depth: usize,
    row: &mut Vec<Stored>,
    numbers: &mut Vec<NodeId>,
) -> Result<(), AllocError>
    ensures part { OnOk result ((n : Numbered) (below after : Branches)
        → drop place (children_at (store_of counted.old) (Below above)) ≡ children_of (node n below after)
        → Stands (store_of counted.old) (Below above) (node n below end) → levels (node n below end) ≤ depth
        → CopiesBut 0 n below (store_of counted.old) (store_of counted.new) row.old.items row.new.items numbers.old.items numbers.new.items) }
    ensures kept { OnlyReads (store_of counted.old) (store_of counted.new) }
    ensures same_reference { lent counted.new ≡ lent counted.old }
{
    match counted.child(Row::Below(above), place) {
        Some(child) => copy_part(counted, child, depth, row, numbers),
        None => Ok(()),
    }
}

/// A copy of the value of a node.
fn value_at(counted: &mut Counted<'_>, id: NodeId) -> Result<Option<Raw>, AllocError>
    ensures value { IfOk result (λ raw. option_map raw_of raw
        ≡ option_and_then (λ l. l.value) (label_at (store_of counted.old) id)) }
    ensures counted { IsRead counted.old counted.new }
{
    copy_of_value(counted.value(id))
}
