//! The nodes of modules in a table, as they are made.

ghost use Rattle.std.specs.Prelude.{◌<◌, ◌^◌, vec_len};

use crate::nodes::ExpandedNode;
use std::alloc::{AllocError, Global};
use ybase_preorder::{Siblings, Slot};
use ylink_grammar::{Language, Source};

/// Nodes in preorder. One is opened, then those below it, and then it is closed; refines change it afterwards.
#[derive(Drop)]
pub struct NodeTable<'a, 't> {
    pub slots: Vec<Slot<ExpandedNode<'a, 't>>>,
    ghost numbered: { vec_len slots < 2 ^ 32 },
}

impl<'a, 't> NodeTable<'a, 't> {
    ghost use Rattle.std.specs.Prelude.{◌≡◌, ◌++◌, ◌∷◌, [], ◌<◌, ◌^◌, ℕ, List, Option, vec_len, IfOk, OnOk, length, drop, option_map, slice_get, true};
    ghost use Rattle.yspec.specs.Forest.{Forest};
    ghost use Rattle.yspec.specs.linking.Parts.{Part, own_of};
    ghost use Rattle.yspec_wide.specs.Expansion.{conditioned};
    ghost use Rattle.ybase_preorder.specs.Layout.{Place, laid, opened, closed, forest_of, numbered_by, places};
    ghost use Rattle.ybase_preorder.specs.View.{row_by};
    ghost use Rattle.ylink_grammar.specs.LanguageView.{language_view};
    ghost use Rattle.ylink_grammar.specs.SourceView.{source_view};
    ghost use Rattle.yschema_expand.specs.NodeView.{numbered_part};
    ghost use Rattle.yschema_expand.specs.NumberedView.{rows_between, with_number};
    ghost use Rattle.yschema_expand.specs.TableView.{slots_of, parts_in, conditioned_part, nodes_in, refined_part, changed_place};
    ghost use Rattle.yschema_given.specs.Keeping.{are_kept_right};

    /// A table without nodes.
    pub fn new(alloc: Global) -> NodeTable<'a, 't>
        ensures { slots_of result ≡ [] }
    {
        NodeTable {
            slots: Vec::new(alloc),
        }
    }

    /// The top nodes, in order.
    pub fn roots(&self) -> Siblings<'_, ExpandedNode<'a, 't>>
        ensures { row_by numbered_part result ≡ nodes_in self.now }
    {
        self.from(0)
    }

    /// The nodes as they lie from that of a number on.
    pub(crate) fn slots_from(&self, number: u32) -> &[Slot<ExpandedNode<'a, 't>>]
        ensures { result.now ≡ drop number (slots_of self.now) }
    {
        let slots = self.slots.as_slice();
        let (_, from) = slots.split_at((number as usize).min(slots.len()));
        from
    }

    /// The nodes from that of a number on.
    pub(crate) fn from(&self, number: u32) -> Siblings<'_, ExpandedNode<'a, 't>>
        ensures row { row_by numbered_part result
            ≡ numbered_by numbered_part number (forest_of (drop number (slots_of self.now))) }
        ensures number { result.number ≡ number }
    {
        let slots = self.slots.as_slice();
        let (_, from) = slots.split_at((number as usize).min(slots.len()));
        Siblings::new(from, number)
    }

    /// The nodes from that of a number up to that of another one.
    pub fn between(&self, first: u32, past: u32) -> Siblings<'_, ExpandedNode<'a, 't>>
        ensures { row_by with_number result ≡ rows_between first past (slots_of self.now) }
    {
        let slots = self.slots.as_slice();
        let (_, from) = slots.split_at((first as usize).min(slots.len()));
        let count = past.saturating_sub(first) as usize;
        let (rows, _) = from.split_at(count.min(from.len()));
        Siblings::new(rows, first)
    }

    /// The node of a number.
    pub fn node(&self, number: u32) -> Option<&ExpandedNode<'a, 't>>
        ensures { option_map (λ n. n.now) result
            ≡ option_map (λ r. r.label) (slice_get (slots_of self.now) number) }
    {
        match self.slots.get(number as usize) {
            Some(slot) => Some(&slot.label),
            None => None,
        }
    }

    /// The nodes as they lie, in the order of their numbers.
    pub fn slots(&self) -> &[Slot<ExpandedNode<'a, 't>>]
        ensures { result.now ≡ slots_of self.now }
    {
        self.slots.as_slice()
    }

    /// How many nodes there are.
    pub fn len(&self) -> u32
        ensures { result ≡ length (slots_of self.now) }
    {
        self.slots.len() as u32
    }

    /// Adds a node behind all others, below one of them or at the top, with nothing below it yet, and answers its number.
    pub fn open(
        &mut self,
        parent: Option<u32>,
        label: ExpandedNode<'a, 't>,
    ) -> Result<u32, AllocError>
        ensures laid { OnOk result (laid (slots_of self.new) ≡ laid (slots_of self.old)
            ++ opened parent label.entry ∷ []) }
        ensures number { IfOk result (λ number. number ≡ length (slots_of self.old)) }
    {
        let number = self.slots.len() as u32;
        if number == u32::MAX {
            return Err(AllocError);
        }
        self.slots.push(Slot {
            parent,
            label,
            below: 0,
        })?;
        Ok(number)
    }

    /// All nodes behind that of a number stand below it.
    pub fn close(&mut self, number: u32)
        ensures { laid (slots_of self.new) ≡ closed number (laid (slots_of self.old)) }
    {
        let behind = self.slots.len() as u32;
        if let Some(slot) = self.slots.get_mut(number as usize) {
            slot.below = (behind - number - 1) as usize;
        }
    }

    /// Gives the node of a number what a refine gives.
    pub(crate) fn refine(
        &mut self,
        language: &'a Language,
        number: u32,
        given: Siblings<'a, Source<'t>>,
    ) -> Result<(), AllocError>
        requires { are_kept_right (language_view language.now) (row_by source_view given) ≡ true }
        ensures { OnOk result (parts_in self.new ≡ changed_place number
            (refined_part (language_view language.now) (row_by source_view given.entry))
            (parts_in self.old)) }
    {
        match self.slots.get_mut(number as usize) {
            Some(slot) => slot.label.refine(language, given),
            None => Ok(()),
        }
    }

    /// How many nodes stand below that of a number.
    pub(crate) fn below(&self, number: usize) -> Option<usize>
        ensures { result ≡ option_map (λ r. r.below) (slice_get (slots_of self.now) number) }
    {
        match self.slots.get(number) {
            Some(slot) => Some(slot.below),
            None => None,
        }
    }

    /// Asks the conditions of a row of the node of a number.
    fn condition(
        &mut self,
        language: &'a Language,
        number: usize,
        given: Siblings<'a, Source<'t>>,
    ) -> Result<(), AllocError>
        requires { are_kept_right (language_view language.now) (row_by source_view given) ≡ true }
        ensures { OnOk result (parts_in self.new ≡ changed_place number
            (conditioned_part (language_view language.now) (own_of (row_by source_view given.entry)))
            (parts_in self.old)) }
    {
        match self.slots.get_mut(number) {
            Some(slot) => slot.label.condition(language, given),
            None => Ok(()),
        }
    }

    /// Asks the conditions of a row of the top ones among the nodes from that of a number on.
    pub(crate) fn condition_from(
        &mut self,
        language: &'a Language,
        first: u32,
        given: Siblings<'a, Source<'t>>,
    ) -> Result<(), AllocError>
        requires { are_kept_right (language_view language.now) (row_by source_view given) ≡ true }
        ensures { (earlier : List (Place Part)) (parent : Option ℕ) (f : Forest Part) → length earlier ≡ first
            → parts_in self.old ≡ earlier ++ places parent first f
            → OnOk result (parts_in self.new ≡ earlier ++ places parent first
            (conditioned (language_view language.now) (own_of (row_by source_view given.entry)) f)) }
    {
        let mut number = first as usize;
        while let Some(below) = self.below(number) {
            self.condition(language, number, given)?;
            number = number.saturating_add(below).saturating_add(1);
        }
        Ok(())
    }
}
