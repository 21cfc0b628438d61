//! Schema nodes as they lie in a schema.

ghost use Rattle.std.specs.Prelude.{◌≡◌, ◌+◌, ◌<◌, ◌^◌, length};
ghost use Rattle.std.specs.Iterator.{at_most};

use crate::node::{SchemaId, SchemaNode};

/// A node as a schema holds it, the node above it, and how many nodes stand below it; these follow it.
#[derive(Debug, Drop)]
pub struct Slot {
    pub parent: Option<SchemaId>,
    pub node: SchemaNode,
    pub below: usize,
}

/// The nodes of a row, in order of definition.
#[derive(Clone, Copy)]
pub struct Children<'a> {
    // The nodes and those below them, in preorder.
    slots: &'a [Slot],
    // The number of the first of them.
    number: u32,
    ghost numbered: { number + length slots.now < 2 ^ 32 },
}

/// A node in its row.
#[derive(Clone, Copy)]
pub struct Child<'a> {
    id: SchemaId,
    node: &'a SchemaNode,
    children: Children<'a>,
}

impl<'a> Children<'a> {
    ghost use Rattle.std.specs.Prelude.{◌≡◌};
    ghost use Rattle.yschema_model.specs.View.{row_view, forest_of};

    /// The row of the nodes that lie there, the first of which has that number.
    pub(crate) fn new(slots: &'a [Slot], number: u32) -> Children<'a>
        requires { number + length slots.now < 2 ^ 32 }
        ensures { row_view result ≡ forest_of number slots.entry.now }
    {
        Children { slots, number }
    }
}

impl<'a> Child<'a> {
    ghost use Rattle.std.specs.Prelude.{◌≡◌};
    ghost use Rattle.yschema_model.specs.View.{label_of, below_of, node_view, row_view};

    /// The node of a number, with its children.
    pub(crate) fn new(id: SchemaId, node: &'a SchemaNode, children: Children<'a>) -> Child<'a>
        ensures label { label_of result ≡ node_view id.0 node.entry.now }
        ensures below { below_of result ≡ row_view children.entry }
    {
        Child { id, node, children }
    }

    /// Its name in the schema.
    pub fn id(&self) -> SchemaId
        ensures { result.0 ≡ (label_of self.now).number }
    {
        self.id
    }

    /// All that the schema holds of it.
    pub fn node(&self) -> &'a SchemaNode
        ensures { node_view (label_of self.now).number result.now ≡ label_of self.now }
    {
        self.node
    }

    /// Its children, in order of definition.
    pub fn children(&self) -> Children<'a>
        ensures { row_view result ≡ below_of self.now }
    {
        self.children
    }
}

impl<'a> Iterator for Children<'a> {
    type Item = Child<'a>;

    ghost use Rattle.std.specs.Prelude.{length};
    ghost use Rattle.std.specs.Iterator.{at_most};
    ghost use Rattle.yschema_model.specs.View.{TakesFirst};

    ghost next_gives = { TakesFirst };

    ghost remaining = { λ c. at_most (length c.slots.now) };

    fn next(&mut self) -> Option<Child<'a>> {
        let (first, rest) = self.slots.split_first()?;
        let number = self.number;
        let below = first.below.min(rest.len());
        let (inner, after) = rest.split_at(below);
        self.slots = after;
        self.number = number + 1 + below as u32;
        Some(Child {
            id: SchemaId::new(number),
            node: &first.node,
            children: Children::new(inner, number + 1),
        })
    }
}
