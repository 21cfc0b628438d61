//! A table of slots, and how one grows.

ghost use Rattle.std.specs.Prelude.{◌≡◌, ◌++◌, ◌∷◌, [], ◌<◌, ◌^◌, Some, IfOk, OnOk, length, vec_len};

use crate::siblings::Siblings;
use crate::slot::Slot;
use std::alloc::{AllocError, Global};

/// The trees of a forest, in preorder. It grows node by node: one is opened, then those below it, and then it is closed.
#[derive(Debug, Drop)]
pub struct Table<L> {
    slots: Vec<Slot<L>>,
    ghost numbered: { vec_len slots < 2 ^ 32 },
}

impl<L: Drop> Table<L> {
    ghost use Rattle.std.specs.Prelude.{◌≡◌, ◌+◌, Some, None, slice_get, take, drop};
    ghost use Rattle.yspec.specs.Forest.{end};
    ghost use Rattle.ybase_preorder.specs.Layout.{laid, closed, opened, forest_of};
    ghost use Rattle.ybase_preorder.specs.View.{row_view, slots_in, forest_in};

    /// A table without slots.
    pub fn new(alloc: Global) -> Table<L>
        ensures { slots_in result ≡ [] }
    {
        Table {
            slots: Vec::new(alloc),
        }
    }

    /// How many slots it has.
    pub fn len(&self) -> usize
        ensures { result ≡ length (slots_in self.now) }
    {
        self.slots.len()
    }

    /// The slots.
    pub fn slots(&self) -> &[Slot<L>]
        ensures { result.now ≡ slots_in self.now }
    {
        self.slots.as_slice()
    }

    /// The top nodes, in order.
    pub fn roots(&self) -> Siblings<'_, L>
        ensures row { row_view result ≡ forest_in self.now }
        ensures number { result.number ≡ 0 }
    {
        Siblings::new(self.slots.as_slice(), 0)
    }

    /// The children of the node of a number, in order; none of a number that no node has.
    pub fn children(&self, number: u32) -> Siblings<'_, L>
        ensures row { (r : Slot L) → slice_get (slots_in self.now) number ≡ Some r
            → row_view result ≡ forest_of (take r.below (drop (number + 1) (slots_in self.now))) }
        ensures number { (r : Slot L) → slice_get (slots_in self.now) number ≡ Some r
            → result.number ≡ number + 1 }
        ensures none { slice_get (slots_in self.now) number ≡ None → row_view result ≡ end }
    {
        let slots = self.slots.as_slice();
        let (_, from) = slots.split_at((number as usize).min(slots.len()));
        match from.split_first() {
            Some((first, rest)) => {
                let (below, _) = rest.split_at(first.below.min(rest.len()));
                Siblings::new(below, number + 1)
            }
            None => Siblings::new(&[], 0),
        }
    }

    /// Adds a node behind all others, below one of them or at the top, with nothing below it yet. It answers its number;
    /// there are at most 4,294,967,295.
    pub fn open(&mut self, parent: Option<u32>, label: L) -> Result<u32, AllocError>
        ensures laid { OnOk result (laid (slots_in self.new) ≡ laid (slots_in self.old)
            ++ opened parent label ∷ []) }
        ensures number { IfOk result (λ number. number ≡ length (slots_in self.old)) }
    {
        let number = self.slots.len() as u32;
        if number == u32::MAX {
            return Err(AllocError);
        }
        self.slots.push(Slot {
            parent,
            label,
            below: 0,
        })?;
        Ok(number)
    }

    /// All nodes behind that of a number stand below it.
    pub fn close(&mut self, number: u32)
        ensures { laid (slots_in self.new) ≡ closed number (laid (slots_in self.old)) }
    {
        let behind = self.slots.len() as u32;
        if let Some(slot) = self.slots.get_mut(number as usize) {
            slot.below = (behind - number - 1) as usize;
        }
    }
}
