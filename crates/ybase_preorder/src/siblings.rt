//! The siblings of a row, one after another.

ghost use Rattle.std.specs.Prelude.{◌≡◌, ◌+◌, ◌<◌, ◌^◌, length};
ghost use Rattle.std.specs.Iterator.{at_most};

use crate::slot::Slot;
use std::alloc::AllocError;

/// Siblings, in order.
pub struct Siblings<'a, L> {
    // The nodes and those below them, in preorder.
    slots: &'a [Slot<L>],
    // The number of the first of them.
    number: u32,
    ghost numbered: { number + length slots.now < 2 ^ 32 },
}

/// A node in its row.
pub struct Node<'a, L> {
    number: u32,
    label: &'a L,
    children: Siblings<'a, L>,
}

impl<'a, L> Siblings<'a, L> {
    ghost use Rattle.std.specs.Prelude.{◌≡◌};
    ghost use Rattle.ybase_preorder.specs.Layout.{forest_of};
    ghost use Rattle.ybase_preorder.specs.View.{row_view};

    /// The row of the nodes that lie there, the first of which has that number.
    pub fn new(slots: &'a [Slot<L>], number: u32) -> Siblings<'a, L>
        requires { number + length slots.now < 2 ^ 32 }
        ensures row { row_view result ≡ forest_of slots.entry.now }
        ensures number { result.number ≡ number }
    {
        Siblings { slots, number }
    }
}

impl<'a, L> Node<'a, L> {
    ghost use Rattle.std.specs.Prelude.{◌≡◌};
    ghost use Rattle.ybase_preorder.specs.View.{label_of};

    /// Its number in preorder.
    pub fn number(&self) -> u32
        ensures { result ≡ self.now.number }
    {
        self.number
    }

    /// What the table holds of it.
    pub fn label(&self) -> &'a L
        ensures { result.now ≡ label_of self.now }
    {
        self.label
    }

    /// Its children, in order.
    pub fn children(&self) -> Siblings<'a, L>
        ensures { result ≡ self.now.children }
    {
        self.children
    }
}

impl<'a, L> Clone for Siblings<'a, L> {
    ghost use Rattle.std.specs.Prelude.{◌≡◌, ⊤};

    ghost is_clone = { λ s r. (r.slots ≡ s.slots) × (r.number ≡ s.number) };

    ghost is_infallible = { λ _. ⊤ };

    fn clone(&self) -> Result<Siblings<'a, L>, AllocError> {
        Ok(Siblings {
            slots: self.slots,
            number: self.number,
        })
    }
}

impl<'a, L> Copy for Siblings<'a, L> {}

impl<'a, L> Clone for Node<'a, L> {
    ghost use Rattle.std.specs.Prelude.{◌≡◌, ⊤};

    ghost is_clone = { λ s r. r ≡ s };

    ghost is_infallible = { λ _. ⊤ };

    fn clone(&self) -> Result<Node<'a, L>, AllocError> {
        Ok(Node {
            number: self.number,
            label: self.label,
            children: self.children,
        })
    }
}

impl<'a, L> Copy for Node<'a, L> {}

impl<'a, L> Iterator for Siblings<'a, L> {
    type Item = Node<'a, L>;

    ghost use Rattle.std.specs.Prelude.{length};
    ghost use Rattle.std.specs.Iterator.{at_most};
    ghost use Rattle.ybase_preorder.specs.View.{TakesFirst};

    ghost next_gives = { TakesFirst };

    ghost remaining = { λ c. at_most (length c.slots.now) };

    fn next(&mut self) -> Option<Node<'a, L>> {
        let (first, rest) = self.slots.split_first()?;
        let number = self.number;
        let below = first.below.min(rest.len());
        let (inner, after) = rest.split_at(below);
        self.slots = after;
        self.number = number + 1 + below as u32;
        Some(Node {
            number,
            label: &first.label,
            children: Siblings::new(inner, number + 1),
        })
    }
}
