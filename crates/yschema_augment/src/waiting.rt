//! Augments that lack a step of their path.

use indexmap::IndexMap;
use std::alloc::{AllocError, Global};
use ybase_index::Key;

/// An augment, by its place among all, and how many steps of its path are found.
#[derive(Clone, Copy, Debug)]
pub(crate) struct Waiter {
    pub augment: usize,
    pub found: usize,
}

/// Augments by the child that they lack: its module and name, and the node below which it is due.
#[derive(Drop)]
pub(crate) struct Waiting {
    by_child: IndexMap<Key, Vec<Waiter>>,
}

impl Waiting {
    ghost use Rattle.std.specs.Prelude.{◌≡◌, ◌++◌, ◌∷◌, [], OnOk, if◌then◌else◌};
    ghost use Rattle.ybase_index.specs.Keys.{same_key};
    ghost use Rattle.yschema_augment.specs.WaitingView.{waiters_at};

    /// None.
    pub fn new(alloc: Global) -> Waiting
        ensures { (key : _) → waiters_at result key ≡ [] }
    {
        Waiting {
            by_child: IndexMap::new(alloc),
        }
    }

    /// Those that lack a child.
    pub fn of(&self, key: Key) -> &[Waiter]
        ensures { result.now ≡ waiters_at self.now key }
    {
        match self.by_child.get(&key) {
            Some(waiters) => waiters.as_slice(),
            None => &[],
        }
    }

    /// Adds one behind those that lack the same child.
    pub fn add(&mut self, alloc: Global, key: Key, waiter: Waiter) -> Result<(), AllocError>
        ensures { OnOk result ((k : _) → waiters_at self.new k ≡ (if same_key key k
            then waiters_at self.old k ++ waiter ∷ [] else waiters_at self.old k)) }
    {
        let mut waiters = match self.by_child.swap_remove(&key) {
            Some(waiters) => waiters,
            None => Vec::new(alloc),
        };
        waiters.push(waiter)?;
        match self.by_child.insert(key, waiters) {
            Ok(_) => Ok(()),
            Err(_) => Err(AllocError),
        }
    }
}
