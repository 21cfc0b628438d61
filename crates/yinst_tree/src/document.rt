//! A document as a whole.

ghost use Rattle.std.specs.Prelude.{◌≡◌};
ghost use Rattle.yinst_tree.specs.Rows.{row_view};
ghost use Rattle.yinst_tree.specs.Order.{is_in_order};

use crate::tree::Stored;
use std::alloc::Global;

/// A document under a schema.
#[derive(Debug, Drop)]
pub struct Tree {
    nodes: Vec<Stored>,
    in_order: bool,
    ghost ordered: { in_order ≡ is_in_order (row_view nodes.items) },
}

impl Tree {
    ghost use Rattle.std.specs.Prelude.{◌≡◌, true};
    ghost use Rattle.yspec.specs.document.Sorting.{IsSorted};
    ghost use Rattle.yinst_tree.specs.View.{row_view, tree_view};

    /// The document with these top nodes, which stand in the order of their schema nodes.
    pub fn new(nodes: Vec<Stored>) -> Tree
        ensures { tree_view result ≡ row_view nodes.items }
    {
        let in_order = stand_in_order(&nodes);
        Tree { nodes, in_order }
    }

    /// The top nodes, in the order of their schema nodes.
    pub fn roots(&self) -> &[Stored]
        ensures { row_view result.now ≡ tree_view self.now }
    {
        self.nodes.as_slice()
    }

    /// The top nodes as they are.
    pub fn into_roots(self) -> Vec<Stored>
        ensures { row_view result.items ≡ tree_view self }
    {
        self.nodes
    }

    /// Whether each of its rows is known to stand in the order of schema nodes, as those of every document that was read do.
    pub fn is_in_order(&self) -> bool
        ensures { result ≡ true → IsSorted (tree_view self.now) }
    {
        self.in_order
    }

    /// Where its nodes lie.
    pub(crate) fn alloc(&self) -> Global {
        *self.nodes.allocator()
    }
}

/// Whether the nodes of a row stand in order, and all below them.
#[cycle(order)]
fn stand_in_order(row: &[Stored]) -> bool
    ensures { result ≡ is_in_order (row_view row.now) }
{
    let mut least = 0;
    for stored in row {
        if stored.id().0 < least {
            return false;
        }
        if !stand_in_order(stored.below()) {
            return false;
        }
        least = stored.id().0;
    }
    true
}
