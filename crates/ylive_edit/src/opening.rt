//! Documents put into stores, with all that is told of them.

ghost use Rattle.std.specs.Prelude.{◌≡◌, ◌-◌, IfOk, List, OnOk, length, option_map, slice_get};
ghost use Rattle.yspec.specs.Forest.{end, join, node};
ghost use Rattle.yspec.specs.document.Document as document;
ghost use Rattle.yspec.specs.document.Document.{Step};
ghost use Rattle.yspec.specs.document.Sorting.{IsSorted};
ghost use Rattle.yschema_model.specs.View as schema_view;
ghost use Rattle.yinst_tree.specs.View.{row_view, tree_view, view};
ghost use Rattle.ystore.specs.Store.{children_at};
ghost use Rattle.ystore.specs.Views.{store_of, lent};
ghost use Rattle.ystore_tree.specs.Hanging.{Branches, tree_of};
ghost use Rattle.ystore_tree.specs.Parts.{OnlyReads};
ghost use Rattle.ylive_edit.specs.Places.{branch_of, Carries, HoldsTold, IsAt, IsBehind};

use crate::parts::hang_part;
use std::alloc::{AllocError, Global};
use yinst::left_of;
use yinst_tree::{Stored, Tree};
use ylive_retell::begin;
use yschema_model::{Children, Kind, Schema};
use ystore::{Counted, NodeId, Nodes, Row};

/// As many nodes as a store can tell of.
const MOST_NODES: usize = 1 << 28;

/// A container with more nodes below it is put into a store child by child, so that what is told of all of them needn't be
/// planned at once.
const LARGE: usize = 1_000;

/// How many schema nodes of a row are looked at for each child that is put into it, at most.
const NARROW: usize = 64;

/// How many containers deep documents are taken apart.
const LEVELS: usize = 8;

/// A store that holds a document, and tells of it what is told of it. A document of more than 2^28 nodes is too large for it,
/// which counts as want of memory.
pub fn told_store(alloc: Global, schema: &Schema, tree: Tree) -> Result<Nodes, AllocError>
    requires { IsSorted (tree_view tree) }
    ensures { IfOk result (λ nodes. HoldsTold (schema_view.view schema.now) nodes
        (tree_view tree)) }
{
    let Some(left) = left_of(MOST_NODES, tree.roots()) else {
        return Err(AllocError);
    };
    let mut nodes = Nodes::new(alloc);
    let mut counted = nodes.counted();
    counted.reserve_nodes(MOST_NODES - left)?;
    begin(&mut counted, schema)?;
    hang_row(&mut counted, schema, Row::Top, tree.into_roots(), LEVELS)?;
    Ok(nodes)
}

/// Hangs nodes in a row that has none, one behind the other.
#[cycle(hanging)]
fn hang_row(
    counted: &mut Counted<'_>,
    schema: &Schema,
    above: Row,
    row: Vec<Stored>,
    levels: usize,
) -> Result<(), AllocError>
    requires at { (tree : document.Tree) × (steps : List Step) × IsAt (schema_view.view schema.now) (store_of counted.old) tree steps above end }
    requires sorted { IsSorted (row_view row.items) }
    ensures hung { (tree : document.Tree) (steps : List Step) (at : IsAt (schema_view.view schema.now) (store_of counted.old) tree steps above end)
        → OnOk result (Carries (schema_view.view schema.now) (store_of counted.new) at.way (row_view row.items)) }
    ensures same_reference { lent counted.new ≡ lent counted.old }
{
    for stored in row {
        hang_node(counted, schema, above, stored, levels)?;
    }
    Ok(())
}

/// Hangs a node behind all of a row; what stands below a large container child by child.
#[cycle(hanging)]
fn hang_node(
    counted: &mut Counted<'_>,
    schema: &Schema,
    above: Row,
    stored: Stored,
    levels: usize,
) -> Result<(), AllocError>
    requires { IsBehind (schema_view.view schema.now) (store_of counted.old) above (branch_of stored) }
    ensures hung { (tree : document.Tree) (steps : List Step) (f : Branches)
        → (at : IsAt (schema_view.view schema.now) (store_of counted.old) tree steps above f)
        → IsSorted (join (tree_of f) (node (view stored).0 (view stored).1 end))
        → OnOk result (Carries (schema_view.view schema.now) (store_of counted.new) at.way
        (join (tree_of f) (node (view stored).0 (view stored).1 end))) }
    ensures same_reference { lent counted.new ≡ lent counted.old }
{
    if levels == 0 || !is_parted(schema, &stored) {
        return hang_whole(counted, schema, above, stored);
    }
    let alloc = counted.alloc();
    let (id, value, below) = stored.into_parts();
    let bare = Stored::new(id, value, Vec::new(alloc));
    hang_whole(counted, schema, above, bare)?;
    match last_child(counted, above) {
        Some(node) => hang_row(counted, schema, Row::Below(node), below, levels - 1),
        None => Err(AllocError),
    }
}

/// The last node of a row.
fn last_child(counted: &mut Counted<'_>, row: Row) -> Option<NodeId>
    ensures child { result ≡ option_map (λ c. c.1) (slice_get (children_at (store_of counted.old) row)
        (length (children_at (store_of counted.old) row) - 1)) }
    ensures kept { OnlyReads (store_of counted.old) (store_of counted.new) }
    ensures same_reference { lent counted.new ≡ lent counted.old }
{
    let count = counted.child_count(row);
    counted.child(row, count.saturating_sub(1))
}

/// Hangs a node with all below it behind all of a row.
fn hang_whole(
    counted: &mut Counted<'_>,
    schema: &Schema,
    above: Row,
    stored: Stored,
) -> Result<(), AllocError>
    requires { IsBehind (schema_view.view schema.now) (store_of counted.old) above (branch_of stored) }
    ensures hung { (tree : document.Tree) (steps : List Step) (f : Branches)
        → (at : IsAt (schema_view.view schema.now) (store_of counted.old) tree steps above f)
        → IsSorted (join (tree_of f) (node (view stored).0 (view stored).1 end))
        → OnOk result (Carries (schema_view.view schema.now) (store_of counted.new) at.way
        (join (tree_of f) (node (view stored).0 (view stored).1 end))) }
    ensures same_reference { lent counted.new ≡ lent counted.old }
{
    match hang_part(counted, schema, above, stored, MOST_NODES)? {
        true => Ok(()),
        false => Err(AllocError),
    }
}

/// Whether a node is a container with many nodes below it, of whose row little can be told at once.
fn is_parted(schema: &Schema, stored: &Stored) -> bool {
    let id = stored.id();
    let is_container = match schema.kind(id) {
        Some(node) => matches!(node.kind, Kind::Container { .. }),
        None => false,
    };
    is_container
        && left_of(LARGE, stored.below()).is_none()
        && left_in_play(schema.children(id), NARROW, NARROW).is_some()
}

/// What is left of a number when schema nodes that may be in play at once are taken from it, down to so many levels; nothing
/// where they are more.
#[cycle(play)]
fn left_in_play(row: Children<'_>, most: usize, levels: usize) -> Option<usize> {
    if levels == 0 {
        return None;
    }
    let mut left = most;
    for child in row {
        left = left.checked_sub(1)?;
        let is_list = matches!(child.node().kind, Kind::List { .. });
        if !is_list {
            left = left_in_play(child.children(), left, levels - 1)?;
        }
    }
    Some(left)
}
