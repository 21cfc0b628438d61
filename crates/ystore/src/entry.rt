//! What an index holds at a key.

ghost use Rattle.std.specs.Prelude.{◌+◌, ◌≤◌, length, vec_capacity};

use std::alloc::{AllocError, Global};
use ystore_rows::NodeId;

/// How many instances have a value, and the nodes that hold a key. It has room for nodes that are awaited.
#[derive(Debug, Drop)]
pub(crate) struct Entry {
    instances: usize,
    nodes: Vec<NodeId>,
    awaited: usize,
    ghost room: { length nodes.items + awaited ≤ vec_capacity nodes },
}

impl Entry {
    ghost use Rattle.std.specs.Prelude.{◌≡◌, ◌+◌, ◌-◌, ◌<◌, ◌^◌, min, length, slice_get, IfOk, OnOk, OnErr};
    ghost use Rattle.ystore.specs.Entries as entries;

    /// One without instances and nodes.
    pub(crate) fn new(alloc: Global) -> Entry
        ensures { entries.entry_of result ≡ entries.none }
    {
        Entry {
            instances: 0,
            nodes: Vec::new(alloc),
            awaited: 0,
        }
    }

    /// One without instances and nodes, with room for one node.
    pub(crate) fn awaiting(alloc: Global) -> Result<Entry, AllocError>
        ensures { IfOk result (λ made. entries.entry_of made ≡ entries.with_awaited entries.none) }
    {
        let mut entry = Entry::new(alloc);
        entry.await_node()?;
        Ok(entry)
    }

    /// How many instances there are.
    pub(crate) fn instances(&self) -> usize
        ensures { result ≡ (entries.entry_of self.now).instances }
    {
        self.instances
    }

    /// The nodes, in no order.
    pub(crate) fn nodes(&self) -> &[NodeId]
        ensures { result.now ≡ (entries.entry_of self.now).nodes }
    {
        self.nodes.as_slice()
    }

    /// Whether it holds nothing, and awaits nothing.
    pub(crate) fn is_idle(&self) -> bool
        ensures { result ≡ entries.is_idle (entries.entry_of self.now) }
    {
        self.instances == 0 && self.nodes.is_empty() && self.awaited == 0
    }

    /// Makes room for one node more than are awaited.
    pub(crate) fn await_node(&mut self) -> Result<(), AllocError>
        ensures ok { OnOk result (entries.entry_of self.new ≡ entries.with_awaited (entries.entry_of self.old)) }
        ensures err { OnErr result (entries.entry_of self.new ≡ entries.entry_of self.old) }
    {
        self.nodes.reserve(self.awaited + 1)?;
        self.awaited += 1;
        Ok(())
    }

    /// Counts one instance more.
    pub(crate) fn add_instance(&mut self)
        ensures { entries.entry_of self.new ≡ entries.with_instance (entries.entry_of self.old) }
    {
        self.instances = self.instances.saturating_add(1);
    }

    /// Counts one instance less.
    pub(crate) fn take_instance(&mut self)
        ensures { entries.entry_of self.new ≡ entries.without_instance (entries.entry_of self.old) }
    {
        self.instances = self.instances.saturating_sub(1);
    }

    /// Adds a node, where one is awaited.
    pub(crate) fn add_node(&mut self, node: NodeId)
        requires { 0 < (entries.entry_of self.old).awaited }
        ensures { entries.entry_of self.new ≡ entries.with_node node (entries.entry_of self.old) }
    {
        self.awaited -= 1;
        self.nodes.push_reserved(node);
    }

    /// The place of a node, or the end.
    fn place_of(&self, node: NodeId) -> usize
        ensures { result ≡ entries.place_of node (entries.entry_of self.now).nodes }
    {
        let mut place = 0;
        while place < self.nodes.len() {
            if self.nodes[place].0 == node.0 {
                return place;
            }
            place += 1;
        }
        place
    }

    /// Takes a node away, if it is there; the last comes into its place.
    pub(crate) fn take_node(&mut self, node: NodeId)
        ensures { entries.entry_of self.new ≡ entries.without_node node (entries.entry_of self.old) }
    {
        let place = self.place_of(node);
        if place < self.nodes.len() {
            self.nodes.swap_remove(place);
        }
    }
}
