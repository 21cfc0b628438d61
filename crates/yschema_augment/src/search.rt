//! How the targets of augments are found (RFC 7950, 6.5 and 7.17).

ghost use Rattle.std.specs.Prelude.{◌≡◌};
ghost use Rattle.ybase_index.specs.Names.{AreNamesOf};
ghost use Rattle.ybase_index.specs.Index.{texts_of};

use crate::waiting::{Waiter, Waiting};
use std::alloc::{AllocError, Global};
use std::collections::BTreeSet;
use ybase_index::{Among, IndexedNode, Key, Names, NodeIndex};
use ybase_preorder::{Node, Siblings};
use yschema_expand::ExpandedNode;

/// A step of a path: a module, where its prefix names one, and the place of its name among texts.
#[derive(Clone, Copy, Debug)]
pub(crate) struct Step {
    pub module: Option<usize>,
    pub text: u32,
}

/// How far targets are found.
#[derive(Drop)]
pub(crate) struct Search<'t> {
    // The nodes that stand in their places, by the names that are asked for.
    index: NodeIndex<'t>,
    // The numbers of these names.
    names: Names,
    waiting: Waiting,
    // Augments whose targets are found, by their places among all.
    arrived: BTreeSet<usize>,
    ghost named: { AreNamesOf names (texts_of index) },
}

impl<'t> Search<'t> {
    ghost use Rattle.yschema_augment.specs.WaitingView.{waiters_at};
    ghost use Rattle.std.specs.Prelude.{◌≡◌, ◌<◌, ◌++◌, [], None, Some, OnOk, IfOk, take, length};
    ghost use Rattle.ybase_index.specs.Index.{texts_of};
    ghost use Rattle.std.specs.List.{flat_map};
    ghost use Rattle.yspec.specs.Forest.{row as list_row};
    ghost use Rattle.ybase_preorder.specs.View.{row_by, label_by};
    ghost use Rattle.yschema_augment.specs.Arranging.{taken};
    ghost use Rattle.yschema_expand.specs.NumberedView.{with_number};
    ghost use Rattle.yschema_augment.specs.Searching.{reached, target_in};
    ghost use Rattle.yschema_augment.specs.Settling.{Among as Within, Moves, StandsAt};
    ghost use Rattle.yschema_augment.specs.SearchView.{look_in, name_in, names_in, path_at, woken_by, Adds, AreTexts, Follows, Pops, Waits};

    /// Nodes that stand in their places, where no augment waits yet.
    pub fn new(alloc: Global, index: NodeIndex<'t>) -> Result<Search<'t>, AllocError>
        ensures index { IfOk result (λ s. s.index ≡ index.entry) }
        ensures none { IfOk result (λ s. (key : _) → waiters_at s.waiting key ≡ []) }
    {
        let names = index.names(alloc)?;
        Ok(Search {
            index,
            names,
            waiting: Waiting::new(alloc),
            arrived: BTreeSet::new(alloc),
        })
    }

    /// The child of a node, or the top node, that a step names.
    fn child(&self, above: Option<u32>, step: Step) -> Option<u32>
        ensures { result ≡ look_in self.now above (name_in self.now step) }
    {
        self.index
            .first_like(Among::Children, above, step.module?, step.text)
    }

    /// The node to which a path leads.
    pub fn target(&self, path: &[Step]) -> Option<u32>
        ensures { result ≡ target_in (look_in self.now) (names_in self.now path.now) }
    {
        let mut above = None;
        for step in path {
            above = Some(self.child(above, *step)?);
        }
        above
    }

    /// Notes that an augment lacks a child of a node, or a top node.
    fn wait(
        &mut self,
        alloc: Global,
        above: Option<u32>,
        step: Step,
        waiter: Waiter,
    ) -> Result<(), AllocError>
        ensures { OnOk result (Waits above step waiter self.old self.new) }
    {
        let name = self.names.of_nodes.get(step.text as usize).copied();
        let (Some(module), Some(name)) = (step.module, name) else {
            return Ok(());
        };
        let key = Key {
            above,
            module,
            name,
        };
        self.waiting.add(alloc, key, waiter)
    }

    /// Goes on along the path of an augment from a node, or from the top, until it arrives or lacks a child.
    pub fn follow(
        &mut self,
        alloc: Global,
        paths: &[Vec<Step>],
        waiter: Waiter,
        above: Option<u32>,
    ) -> Result<(), AllocError>
        requires within { waiter.augment < length paths.now }
        requires so_far { reached (look_in self.old) None (take waiter.found
            (names_in self.old (path_at paths.now waiter.augment))) ≡ Some above }
        ensures { OnOk result (Follows (path_at paths.now waiter.augment) waiter.augment self.old self.new) }
    {
        let path = &paths[waiter.augment];
        let mut above = above;
        let mut found = waiter.found;
        while let Some(step) = path.get(found) {
            let Some(next) = self.child(above, *step) else {
                let waiter = Waiter { found, ..waiter };
                return self.wait(alloc, above, *step, waiter);
            };
            above = Some(next);
            found += 1;
        }
        self.arrived.insert(waiter.augment)?;
        Ok(())
    }

    /// The first augment that has arrived and isn't taken yet, which is taken.
    pub fn pop(&mut self) -> Option<usize>
        ensures { Pops result self.old self.new }
    {
        match self.arrived.pop_first() {
            Some(augment) => Some(augment),
            None => None,
        }
    }

    /// Lets augments go on from a node, or from the top, where so many of their steps lead.
    pub fn settle(
        &mut self,
        alloc: Global,
        paths: &[Vec<Step>],
        woken: &[Waiter],
        above: Option<u32>,
    ) -> Result<(), AllocError>
        requires { (w : Waiter) → Within w woken.now → StandsAt self.old paths.now above w }
        ensures { OnOk result (Moves paths.now woken.now self.old self.new) }
    {
        for waiter in woken {
            self.follow(alloc, paths, *waiter, above)?;
        }
        Ok(())
    }

    /// Adds the nodes of a row behind the children of a node.
    fn add_row(
        &mut self,
        target: u32,
        row: Siblings<'_, ExpandedNode<'_, 't>>,
    ) -> Result<(), AllocError>
        requires { AreTexts (texts_of self.old.index) (row_by with_number row) }
        ensures { OnOk result (Adds target (row_by with_number row.entry) self.old self.new) }
    {
        for node in row {
            self.index.add(IndexedNode {
                number: node.number(),
                parent: Some(target),
                scope: None,
                module: node.label().owner(),
                is_data: false,
            })?;
        }
        Ok(())
    }

    /// Adds what an augment adds behind the children of its target, without the cases unless that is a choice.
    pub fn add_body(
        &mut self,
        target: u32,
        is_choice: bool,
        body: Siblings<'_, ExpandedNode<'_, 't>>,
    ) -> Result<(), AllocError>
        requires { AreTexts (texts_of self.old.index) (row_by with_number body) }
        ensures { OnOk result (Adds target (taken is_choice (row_by with_number body.entry)) self.old self.new) }
    {
        if is_choice {
            return self.add_row(target, body);
        }
        for case in body {
            self.add_row(target, case.children())?;
        }
        Ok(())
    }

    /// Adds the augments that a node lets go on below its parent, where it is the first of its name there.
    fn wake(
        &self,
        target: u32,
        node: Node<'_, ExpandedNode<'_, 't>>,
        woken: &mut Vec<Waiter>,
    ) -> Result<(), AllocError>
        ensures { OnOk result (woken.new.items ≡ woken.old.items
            ++ woken_by self.now target (label_by with_number node.entry)) }
    {
        let (number, module) = (node.number(), node.label().owner());
        let first = self
            .index
            .first_like(Among::Children, Some(target), module, number);
        if first != Some(number) {
            return Ok(());
        }
        if let Some(name) = self.names.of_nodes.get(number as usize) {
            let key = Key {
                above: Some(target),
                module,
                name: *name,
            };
            woken.extend_from_slice(self.waiting.of(key))?;
        }
        Ok(())
    }

    /// Those that the nodes of a row let go on.
    fn wake_row(
        &self,
        target: u32,
        row: Siblings<'_, ExpandedNode<'_, 't>>,
        woken: &mut Vec<Waiter>,
    ) -> Result<(), AllocError>
        ensures { OnOk result (woken.new.items ≡ woken.old.items
            ++ flat_map (woken_by self.now target) (list_row (row_by with_number row.entry))) }
    {
        for node in row {
            self.wake(target, node, woken)?;
        }
        Ok(())
    }

    /// Those that what an augment adds lets go on, without the cases unless its target is a choice.
    pub fn wake_body(
        &self,
        alloc: Global,
        target: u32,
        is_choice: bool,
        body: Siblings<'_, ExpandedNode<'_, 't>>,
    ) -> Result<Vec<Waiter>, AllocError>
        ensures { IfOk result (λ woken. woken.items ≡ flat_map (woken_by self.now target)
            (list_row (taken is_choice (row_by with_number body.entry)))) }
    {
        let mut woken = Vec::new(alloc);
        if is_choice {
            self.wake_row(target, body, &mut woken)?;
            return Ok(woken);
        }
        for case in body {
            self.wake_row(target, case.children(), &mut woken)?;
        }
        Ok(woken)
    }
}
