//! The store.

mod counted;
mod view;

use crate::count::UseCount;
use crate::entry::Entry;
use crate::key::Key;
use crate::record::Record;
pub use counted::Counted;
use slab::Slab;
use std::alloc::Global;
use std::collections::BTreeMap;
pub use view::View;
use ystore_rows::Row;

/// The nodes that a document stores, and indexes of them. It counts how often it is lent as a `Counted`, and the reading calls
/// of that.
#[derive(Drop)]
pub struct Nodes {
    alloc: Global,
    top: Record,
    records: Slab<Record>,
    index: BTreeMap<Key, Entry>,
    count: UseCount,
}

impl Nodes {
    ghost use Rattle.std.specs.Prelude.{◌≡◌, None, Some, option_copied};
    ghost use Rattle.std.specs.Option.{option_copied_mut};
    ghost use Rattle.std.specs.Borrow.{sem};
    ghost use Rattle.ystore.specs.Held.{nothing_held};
    ghost use Rattle.ystore.specs.Store as store;
    ghost use Rattle.ystore.specs.Store.{Stays};
    ghost use Rattle.ystore_rows.specs.declared.row.Row.TheVariants.{Top, Below};
    ghost use Rattle.ystore.specs.Lending.{LendsRecord};
    ghost use Rattle.ystore.specs.Viewed.{viewed};
    ghost use Rattle.ystore.specs.Views.{lent, new_loan, store_of};

    /// The store of an empty document.
    pub fn new(alloc: Global) -> Nodes
        ensures alloc { store.alloc result ≡ alloc }
        ensures top { store.held_at result Top ≡ Some nothing_held }
        ensures nodes { (id : _) → store.held_at result (Below id) ≡ None }
        ensures index { (key : _) → store.entry_at result key ≡ None }
        ensures reads { store.reads result ≡ 0 }
        ensures count { store.node_count result ≡ 0 }
        ensures loans { store.loans result ≡ 0 }
    {
        Nodes {
            alloc,
            top: Record::top(alloc),
            records: Slab::new(alloc),
            index: BTreeMap::new(alloc),
            count: UseCount::new(),
        }
    }

    /// Where the store lies.
    pub fn alloc(&self) -> Global
        ensures { result ≡ store.alloc self.now }
    {
        self.alloc
    }

    /// How many nodes are stored.
    pub fn node_count(&self) -> usize
        ensures { result ≡ store.node_count self.now }
    {
        self.records.len()
    }

    fn record(&self, row: Row) -> Option<&Record>
        ensures { option_copied result ≡ store.record_at self.now row }
    {
        match row {
            Row::Top => Some(&self.top),
            Row::Below(id) => self.records.get(id.0 as usize),
        }
    }

    fn record_mut(&mut self, row: Row) -> Option<&mut Record>
        ensures* lends { sem 𝓛 (LendsRecord self.entry row result) }
        ensures value { option_copied_mut result ≡ store.record_at self.old row }
    {
        match row {
            Row::Top => Some(&mut self.top),
            Row::Below(id) => self.records.get_mut(id.0 as usize),
        }
    }

    fn entry(&self, key: &Key) -> Option<&Entry>
        ensures { option_copied result ≡ store.entry_in self.now key.now }
    {
        self.index.get(key)
    }

    /// All that an edit may call: its reading calls are counted here.
    pub fn counted(&mut self) -> Counted<'_>
        ensures loan { lent result ≡ new_loan self.entry.ghost_name self.old }
        ensures store { Stays self.old (store_of result) }
    {
        self.count.count_loan();
        Counted { nodes: self }
    }

    /// All that it holds, read without a count.
    pub fn view(&self) -> View<'_>
        ensures { viewed result ≡ self.now }
    {
        View { nodes: self }
    }
}
