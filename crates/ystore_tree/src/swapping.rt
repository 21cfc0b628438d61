//! Changes of a row by one branch, done and undone.

ghost use Rattle.std.specs.Prelude.{◌≡◌, option_map};
ghost use Rattle.yspec.specs.document.Sorting.{IsSorted};
ghost use Rattle.ystore.specs.Held.{with_children};
ghost use Rattle.ystore.specs.Store.{has_room, ChangesRow};
ghost use Rattle.ystore.specs.Views.{store_of, lent};
ghost use Rattle.ystore_rows.specs.declared.row.Row.TheVariants.{Top};
ghost use Rattle.ystore.specs.declared.nodes.Nodes.{Nodes};
ghost use Rattle.ystore_tree.specs.Hanging.{Branches, Keeps, tree_of};
ghost use Rattle.ystore_tree.specs.Parts.{OnlyReads};
ghost use Rattle.ystore_tree.specs.Swaps.{Swaps, makes_room, swapped, swapped_back};
ghost use Rattle.ystore_tree.specs.Ways.{Way, around, end_of};

use yschema_model::SchemaId;
use ystore::{Counted, NodeId, Row};

/// What is put into a row, and what is taken out of it.
#[derive(Clone, Copy, Debug)]
pub enum Change {
    /// A node is added behind those of its schema node.
    Add {
        new: NodeId,
    },
    /// One is put in the place of another.
    Put {
        old: NodeId,
        new: NodeId,
    },
    /// One is taken out, which has so many of its schema node before it.
    Take {
        old: NodeId,
        place: usize,
    },
    /// One is moved, from a place among those of its schema node to another.
    Move {
        node: NodeId,
        from: usize,
        to: usize,
    },
}

/// A change of a row by one branch, of nodes of one schema node.
#[derive(Clone, Copy, Debug)]
pub struct Swap {
    pub above: Row,
    pub schema: SchemaId,
    pub change: Change,
}

impl Swap {
    ghost use Rattle.std.specs.Prelude.{◌≡◌, option_map};
    ghost use Rattle.ystore.specs.Held.{with_children};
    ghost use Rattle.ystore.specs.Store.{has_room, ChangesRow};
    ghost use Rattle.ystore.specs.Views.{store_of, lent};
    ghost use Rattle.ystore_rows.specs.declared.row.Row.TheVariants.{Top};
    ghost use Rattle.ystore_tree.specs.Hanging.{Branches, Keeps};
    ghost use Rattle.ystore_tree.specs.Swaps.{Swaps, swapped, swapped_back};
    ghost use Rattle.ystore_tree.specs.Ways.{Way, around, end_of};

    /// Changes the row, which has room for a node more.
    pub fn make(self, counted: &mut Counted<'_>)
        requires { has_room (store_of counted.old) self.above }
        ensures store { ChangesRow self.above (option_map (with_children (swapped self.schema self.change)))
            (store_of counted.old) (store_of counted.new) }
        ensures tree { (way : Way) (f loose g left : Branches) → end_of Top way ≡ self.above
            → Swaps self.schema self.change f loose g left
            → Keeps (store_of counted.old) (around way f) self.above loose
            → Keeps (store_of counted.new) (around way g) self.above left }
        ensures same_reference { lent counted.new ≡ lent counted.old }
    {
        match self.change {
            Change::Add { new } => counted.add_child(self.above, self.schema, new),
            Change::Put { old, new } => counted.put_child(self.above, self.schema, old, new),
            Change::Take { place, .. } => counted.take_child_at(self.above, self.schema, place),
            Change::Move { from, to, .. } => {
                counted.move_child_at(self.above, self.schema, from, to)
            }
        }
    }

    /// Undoes the change of the row.
    pub fn undo(self, counted: &mut Counted<'_>)
        requires { makes_room self.change (has_room (store_of counted.old) self.above) }
        ensures store { ChangesRow self.above (option_map (with_children (swapped_back self.schema self.change)))
            (store_of counted.old) (store_of counted.new) }
        ensures same_reference { lent counted.new ≡ lent counted.old }
    {
        match self.change {
            Change::Add { .. } => counted.take_last_child(self.above, self.schema),
            Change::Put { old, new } => counted.put_child(self.above, self.schema, new, old),
            Change::Take { old, place } => {
                counted.add_child_at(self.above, self.schema, old, place)
            }
            Change::Move { from, to, .. } => {
                counted.move_child_at(self.above, self.schema, to, from)
            }
        }
    }
}

/// A change that is undone leaves the store as it was, if it was only read meanwhile; and where a change takes a node out of
/// a row, there is room for it.
pub fn undone_changes()
    ensures undone { (swap : Swap) (way : Way) (f loose g left : Branches) (before changed read after : Nodes) → end_of Top way ≡ swap.above
        → Swaps swap.schema swap.change f loose g left → IsSorted (tree_of f)
        → Keeps before (around way f) swap.above loose
        → ChangesRow swap.above (option_map (with_children (swapped swap.schema swap.change))) before changed
        → OnlyReads changed read
        → ChangesRow swap.above (option_map (with_children (swapped_back swap.schema swap.change))) read after
        → OnlyReads before after }
    ensures room { (swap : Swap) (way : Way) (f loose g left : Branches) (before changed read : Nodes) → end_of Top way ≡ swap.above
        → Swaps swap.schema swap.change f loose g left
        → Keeps before (around way f) swap.above loose
        → has_room before swap.above
        → ChangesRow swap.above (option_map (with_children (swapped swap.schema swap.change))) before changed
        → OnlyReads changed read
        → makes_room swap.change (has_room read swap.above) }
{}
