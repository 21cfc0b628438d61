//! What an edit may call of a store.

use super::Nodes;
use crate::entry::Entry;
use crate::index::await_at;
use crate::key::Key;
use crate::record::{Judged, Label, Record, Told};
use std::alloc::{AllocError, Global};
use yschema_model::SchemaId;
use ystore_rows::{Absence, NodeId, Row};
use ytype::Raw;

/// A store whose reading calls are counted. Each is given a node or a row, or a key, perhaps with a place, and answers
/// one number or one value of what is held there. No call answers more, and none lends the store.
#[derive(Drop)]
pub struct Counted<'a> {
    pub(super) nodes: &'a mut Nodes,
}

impl<'a> Counted<'a> {
    ghost use Rattle.std.specs.Prelude.{◌≡◌, ◌+◌, ◌-◌, ◌<◌, ◌^◌, Some, None, min, length, option_map, option_and_then, slice_get, slice_set, IfOk, OnOk, OnErr};
    ghost use Rattle.std.specs.Option.{option_map_or};
    ghost use Rattle.std.specs.Borrow.{sem};
    ghost use Rattle.slab.specs.Slab.{HasRoomFor};
    ghost use Rattle.ytype.specs.View.{raw_of};
    ghost use Rattle.ystore_rows.specs.Rows as rows;
    ghost use Rattle.ystore.specs.Held.{label_of, told_of};
    ghost use Rattle.ystore.specs.Entries as entries;
    ghost use Rattle.ystore.specs.Index.{made_ready, tidied};
    ghost use Rattle.ystore.specs.Store as store;
    ghost use Rattle.ystore.specs.Store.{ChangesRow, ChangesEntry, MakesRoom, Stays};
    ghost use Rattle.ystore.specs.Views.{store_of, lent, IsRead};
    ghost use Rattle.ystore.specs.Ending.{EndsRead};
    ghost use Rattle.ystore_rows.specs.declared.row.Row.TheVariants.{Top, Below};

    // ---- not counted

    /// How many nodes are stored.
    pub fn node_count(&self) -> usize
        ensures { result ≡ store.node_count (store_of self.now) }
    {
        self.nodes.node_count()
    }

    /// Where the store lies.
    pub fn alloc(&self) -> Global
        ensures { result ≡ store.alloc (store_of self.now) }
    {
        self.nodes.alloc()
    }

    // ---- reading calls on records

    /// The schema node of a node.
    pub fn schema(&mut self, id: NodeId) -> Option<SchemaId>
        ensures schema { result ≡ option_map (λ l. l.schema) (store.label_at (store_of self.old) id) }
        ensures counted { IsRead self.old self.new }
    {
        self.nodes.count.count_read();
        match self.nodes.record(Row::Below(id)) {
            Some(record) => record.schema(),
            None => None,
        }
    }

    /// The value of a node, at a leaf or item.
    pub fn value(&mut self, id: NodeId) -> Option<&Raw>
        ensures value { option_map (λ raw. raw_of raw.now) result
            ≡ option_and_then (λ l. l.value) (store.label_at (store_of self.old) id) }
        ensures* counted { sem 𝓛 (EndsRead self.entry) }
    {
        self.nodes.count.count_read();
        match self.nodes.record(Row::Below(id)) {
            Some(record) => record.value(),
            None => None,
        }
    }

    /// The row in which a node stands.
    pub fn parent(&mut self, id: NodeId) -> Option<Row>
        ensures parent { result ≡ option_map (λ l. l.parent) (store.label_at (store_of self.old) id) }
        ensures counted { IsRead self.old self.new }
    {
        self.nodes.count.count_read();
        match self.nodes.record(Row::Below(id)) {
            Some(record) => record.parent(),
            None => None,
        }
    }

    /// How many faults are told of the node above a row, and of all nodes of the row and below it.
    pub fn total(&mut self, row: Row) -> usize
        ensures total { result ≡ store.total_at (store_of self.old) row }
        ensures counted { IsRead self.old self.new }
    {
        self.nodes.count.count_read();
        match self.nodes.record(row) {
            Some(record) => record.total,
            None => 0,
        }
    }

    /// How much is told of what isn't stored in a row.
    pub fn play_len(&mut self, row: Row) -> usize
        ensures length { result ≡ length (store.play_at (store_of self.old) row) }
        ensures counted { IsRead self.old self.new }
    {
        self.nodes.count.count_read();
        match self.nodes.record(row) {
            Some(record) => record.extent.play().len(),
            None => 0,
        }
    }

    /// What is told, at a place, of what isn't stored in a row.
    pub fn absence(&mut self, row: Row, place: usize) -> Option<Absence>
        ensures absence { result ≡ slice_get (store.play_at (store_of self.old) row) place }
        ensures counted { IsRead self.old self.new }
    {
        self.nodes.count.count_read();
        match self.nodes.record(row) {
            Some(record) => record.extent.play().get(place).copied(),
            None => None,
        }
    }

    /// How many nodes a row has.
    pub fn child_count(&mut self, row: Row) -> usize
        ensures count { result ≡ length (store.children_at (store_of self.old) row) }
        ensures counted { IsRead self.old self.new }
    {
        self.nodes.count.count_read();
        match self.nodes.record(row) {
            Some(record) => record.extent.len(),
            None => 0,
        }
    }

    /// The node at a place of a row.
    pub fn child(&mut self, row: Row, place: usize) -> Option<NodeId>
        ensures child { result
            ≡ option_map (λ c. c.1) (slice_get (store.children_at (store_of self.old) row) place) }
        ensures counted { IsRead self.old self.new }
    {
        self.nodes.count.count_read();
        match self.nodes.record(row) {
            Some(record) => record.extent.get(place),
            None => None,
        }
    }

    /// The node at a place among those of a schema node in a row.
    pub fn child_of(&mut self, row: Row, schema: SchemaId, place: usize) -> Option<NodeId>
        ensures child { result
            ≡ slice_get (rows.of_schema schema (store.children_at (store_of self.old) row)) place }
        ensures counted { IsRead self.old self.new }
    {
        self.nodes.count.count_read();
        match self.nodes.record(row) {
            Some(record) => record.extent.get_of(schema, place),
            None => None,
        }
    }

    /// How many nodes of a schema node a row has.
    pub fn count_of(&mut self, row: Row, schema: SchemaId) -> usize
        ensures count { result
            ≡ length (rows.of_schema schema (store.children_at (store_of self.old) row)) }
        ensures counted { IsRead self.old self.new }
    {
        self.nodes.count.count_read();
        match self.nodes.record(row) {
            Some(record) => record.extent.count_of(schema),
            None => 0,
        }
    }

    /// At which place among those of its schema node a node was put in its row; it may stand elsewhere since.
    pub fn place_put(&mut self, id: NodeId) -> usize
        ensures place { result ≡ store.place_put (store_of self.old) id }
        ensures counted { IsRead self.old self.new }
    {
        self.nodes.count.count_read();
        match self.nodes.record(Row::Below(id)) {
            Some(record) => record.extent.place(),
            None => 0,
        }
    }

    /// The place of a node among those of a schema node in a row, the one that is next to another place; or their number.
    pub fn place_near(&mut self, row: Row, schema: SchemaId, node: NodeId, near: usize) -> usize
        ensures place { result
            ≡ entries.place_near near node (rows.of_schema schema (store.children_at (store_of self.old) row)) }
        ensures counted { IsRead self.old self.new }
    {
        self.nodes.count.count_read();
        match self.nodes.record(row) {
            Some(record) => record.extent.index_near(schema, node, near),
            None => 0,
        }
    }

    // ---- reading calls on the index

    /// How many instances have a value.
    pub fn instance_count(&mut self, key: &Key) -> usize
        ensures count { result ≡ store.instances_at (store_of self.old) key.now }
        ensures counted { IsRead self.old self.new }
    {
        self.nodes.count.count_read();
        match self.nodes.entry(key) {
            Some(entry) => entry.instances(),
            None => 0,
        }
    }

    /// How many nodes hold a key.
    pub fn holder_count(&mut self, key: &Key) -> usize
        ensures count { result ≡ length (store.holders_at (store_of self.old) key.now) }
        ensures counted { IsRead self.old self.new }
    {
        self.nodes.count.count_read();
        match self.nodes.entry(key) {
            Some(entry) => entry.nodes().len(),
            None => 0,
        }
    }

    /// The node at a place among those that hold a key, which stand in no order.
    pub fn holder(&mut self, key: &Key, place: usize) -> Option<NodeId>
        ensures holder { result ≡ slice_get (store.holders_at (store_of self.old) key.now) place }
        ensures counted { IsRead self.old self.new }
    {
        self.nodes.count.count_read();
        match self.nodes.entry(key) {
            Some(entry) => entry.nodes().get(place).copied(),
            None => None,
        }
    }

    // ---- growths

    /// Makes room for so many nodes more.
    pub fn reserve_nodes(&mut self, nodes: usize) -> Result<(), AllocError>
        ensures store { Stays (store_of self.old) (store_of self.new) }
        ensures room { OnOk result (HasRoomFor (store_of self.new).records nodes) }
        ensures same_reference { lent self.new ≡ lent self.old }
    {
        self.nodes.records.reserve(nodes)
    }

    /// Makes room for one child more in a row, if there is such a row.
    pub fn reserve_child(&mut self, row: Row) -> Result<(), AllocError>
        ensures ok { OnOk result (MakesRoom row (store_of self.old) (store_of self.new)) }
        ensures err { OnErr result (Stays (store_of self.old) (store_of self.new)) }
        ensures same_reference { lent self.new ≡ lent self.old }
    {
        let alloc = self.nodes.alloc;
        match self.nodes.record_mut(row) {
            Some(record) => record.extent.reserve(alloc),
            None => Ok(()),
        }
    }

    /// Makes an entry at a key, for an instance.
    pub fn await_instance(&mut self, key: Key) -> Result<(), AllocError>
        ensures ok { OnOk result (ChangesEntry key (made_ready (λ e. e)) (store_of self.old) (store_of self.new)) }
        ensures err { OnErr result (Stays (store_of self.old) (store_of self.new)) }
        ensures same_reference { lent self.new ≡ lent self.old }
    {
        if self.nodes.index.contains_key(&key) {
            return Ok(());
        }
        let entry = Entry::new(self.nodes.alloc);
        match self.nodes.index.insert(key, entry) {
            Ok(_) => Ok(()),
            Err(_) => Err(AllocError),
        }
    }

    /// Makes room at a key for one node more than are awaited.
    pub fn await_holder(&mut self, key: Key) -> Result<(), AllocError>
        ensures ok { OnOk result (ChangesEntry key (made_ready entries.with_awaited) (store_of self.old) (store_of self.new)) }
        ensures err { OnErr result (Stays (store_of self.old) (store_of self.new)) }
        ensures same_reference { lent self.new ≡ lent self.old }
    {
        let alloc = self.nodes.alloc;
        await_at(&mut self.nodes.index, key, alloc)
    }

    /// Inserts a node without children, with room for so many. It hangs on nothing: its parent doesn't have it yet.
    pub fn insert(
        &mut self,
        label: Label,
        told: Told,
        total: usize,
        room: usize,
    ) -> Result<NodeId, AllocError>
        ensures vacant { IfOk result (λ id. store.held_at (store_of self.old) (Below id) ≡ None) }
        ensures ok { IfOk result (λ id. ChangesRow (Below id)
            (λ _. Some (store.new_held (label_of label) (told_of told) total room)) (store_of self.old) (store_of self.new)) }
        ensures err { OnErr result (Stays (store_of self.old) (store_of self.new)) }
        ensures same_reference { lent self.new ≡ lent self.old }
    {
        let number = self.nodes.records.vacant_key();
        if number > u32::MAX as usize {
            return Err(AllocError);
        }
        let record = Record::new(self.nodes.alloc, label, told, total, room)?;
        match self.nodes.records.insert(record) {
            Ok(_) => Ok(NodeId(number as u32)),
            Err(_) => Err(AllocError),
        }
    }

    // ---- writes to records

    /// Remembers at which place among those of its schema node a node was put in its row.
    fn remember(&mut self, id: NodeId, place: usize)
        ensures store { ChangesRow (Below id) (λ held. held) (store_of self.old) (store_of self.new) }
        ensures same_reference { lent self.new ≡ lent self.old }
    {
        if let Some(record) = self.nodes.record_mut(Row::Below(id)) {
            record.extent.set_place(place);
        }
    }

    /// Adds a node to a row, and answers its place among those of its schema node.
    fn add(&mut self, row: Row, child: (SchemaId, NodeId)) -> usize
        requires { store.has_room (store_of self.old) row }
        ensures store { ChangesRow row (option_map (store.with_children (rows.added child)))
            (store_of self.old) (store_of self.new) }
        ensures same_reference { lent self.new ≡ lent self.old }
    {
        match self.nodes.record_mut(row) {
            Some(record) => record.extent.add(child),
            None => 0,
        }
    }

    /// Adds a node to a row, behind those of its schema node. There is room for it.
    #[tactic(auto, using(crate::proofs::StoreLemmas::then_kept))]
    pub fn add_child(&mut self, row: Row, schema: SchemaId, child: NodeId)
        requires { store.has_room (store_of self.old) row }
        ensures store { ChangesRow row (option_map (store.with_children (rows.added (schema, child))))
            (store_of self.old) (store_of self.new) }
        ensures same_reference { lent self.new ≡ lent self.old }
    {
        let place = self.add(row, (schema, child));
        self.remember(child, place);
    }

    /// Adds a node to a row, at a place among those of its schema node, or behind them. There is room for it.
    pub fn add_child_at(&mut self, row: Row, schema: SchemaId, child: NodeId, place: usize)
        requires { store.has_room (store_of self.old) row }
        ensures store { ChangesRow row (option_map (store.with_children (rows.brought (schema, child) place)))
            (store_of self.old) (store_of self.new) }
        ensures same_reference { lent self.new ≡ lent self.old }
    {
        if let Some(record) = self.nodes.record_mut(row) {
            record.extent.add_at((schema, child), place);
        }
    }

    /// Puts a node in the place of a child of a row, and answers its place among those of its schema node.
    fn put(&mut self, row: Row, child: (SchemaId, NodeId), new: NodeId) -> usize
        ensures store { ChangesRow row (option_map (store.with_children (rows.put child new)))
            (store_of self.old) (store_of self.new) }
        ensures same_reference { lent self.new ≡ lent self.old }
    {
        match self.nodes.record_mut(row) {
            Some(record) => record.extent.put(child, new),
            None => 0,
        }
    }

    /// Puts a node in the place of one of the same schema node, if that is in the row.
    #[tactic(auto, using(crate::proofs::StoreLemmas::then_kept))]
    pub fn put_child(&mut self, row: Row, schema: SchemaId, old: NodeId, new: NodeId)
        ensures store { ChangesRow row (option_map (store.with_children (rows.put (schema, old) new)))
            (store_of self.old) (store_of self.new) }
        ensures same_reference { lent self.new ≡ lent self.old }
    {
        let place = self.put(row, (schema, old), new);
        self.remember(new, place);
    }

    /// Takes the node at a place among those of a schema node out of a row, if there is one.
    pub fn take_child_at(&mut self, row: Row, schema: SchemaId, place: usize)
        ensures store { ChangesRow row (option_map (store.with_children (rows.without_at schema place)))
            (store_of self.old) (store_of self.new) }
        ensures same_reference { lent self.new ≡ lent self.old }
    {
        if let Some(record) = self.nodes.record_mut(row) {
            record.extent.take_at(schema, place);
        }
    }

    /// Takes the last node of a schema node out of a row, if there is one.
    pub fn take_last_child(&mut self, row: Row, schema: SchemaId)
        ensures store { ChangesRow row (option_map (store.with_children (rows.without_last schema)))
            (store_of self.old) (store_of self.new) }
        ensures same_reference { lent self.new ≡ lent self.old }
    {
        if let Some(record) = self.nodes.record_mut(row) {
            record.extent.take_last(schema);
        }
    }

    /// Brings the node at a place among those of a schema node in a row, or the last of them, to another place among them, and
    /// answers it, with its place among them then.
    fn shift_at(
        &mut self,
        row: Row,
        schema: SchemaId,
        from: usize,
        to: usize,
    ) -> Option<(NodeId, usize)>
        ensures store { ChangesRow row (option_map (store.with_children (rows.shifted schema from to)))
            (store_of self.old) (store_of self.new) }
        ensures same_reference { lent self.new ≡ lent self.old }
    {
        match self.nodes.record_mut(row) {
            Some(record) => record.extent.shift_at(schema, from, to),
            None => None,
        }
    }

    /// Brings the node at a place among those of a schema node in a row, or the last of them, to another place among them.
    #[tactic(auto, using(crate::proofs::StoreLemmas::then_kept))]
    pub fn move_child_at(&mut self, row: Row, schema: SchemaId, from: usize, to: usize)
        ensures store { ChangesRow row (option_map (store.with_children (rows.shifted schema from to)))
            (store_of self.old) (store_of self.new) }
        ensures same_reference { lent self.new ≡ lent self.old }
    {
        if let Some((node, place)) = self.shift_at(row, schema, from, to) {
            self.remember(node, place);
        }
    }

    /// Sets what is told of what isn't stored in a row.
    pub fn set_play(&mut self, row: Row, play: Vec<Absence>)
        ensures store { ChangesRow row (option_map (store.with_told (store.with_play play.items)))
            (store_of self.old) (store_of self.new) }
        ensures same_reference { lent self.new ≡ lent self.old }
    {
        if let Some(record) = self.nodes.record_mut(row) {
            record.extent.set_play(play);
        }
    }

    /// Sets what is told of the value of a node.
    pub fn set_judged(&mut self, id: NodeId, judged: Judged)
        ensures store { ChangesRow (Below id) (option_map (store.with_told (store.with_judged judged)))
            (store_of self.old) (store_of self.new) }
        ensures same_reference { lent self.new ≡ lent self.old }
    {
        if let Some(record) = self.nodes.record_mut(Row::Below(id)) {
            record.judged = judged;
        }
    }

    /// Sets whether another node has the same value as a node, or the same values, by their number.
    pub fn set_same(&mut self, id: NodeId, number: usize, is_same: bool)
        ensures store { ChangesRow (Below id) (option_map (store.with_told (store.with_same number is_same)))
            (store_of self.old) (store_of self.new) }
        ensures same_reference { lent self.new ≡ lent self.old }
    {
        if let Some(record) = self.nodes.record_mut(Row::Below(id)) {
            record.extent.set_same(number, is_same);
        }
    }

    /// Raises the total of a row by some, up to the greatest number, and then lowers it by others.
    pub fn change_total(&mut self, row: Row, more: usize, less: usize)
        ensures store { ChangesRow row (option_map (store.with_total (λ t. min (t + more) (2 ^ 64 - 1) - less)))
            (store_of self.old) (store_of self.new) }
        ensures same_reference { lent self.new ≡ lent self.old }
    {
        if let Some(record) = self.nodes.record_mut(row) {
            record.total = record.total.saturating_add(more).saturating_sub(less);
        }
    }

    /// Gives back a node, if it is there.
    pub fn remove(&mut self, id: NodeId)
        ensures store { ChangesRow (Below id) (λ _. None) (store_of self.old) (store_of self.new) }
        ensures same_reference { lent self.new ≡ lent self.old }
    {
        self.nodes.records.try_remove(id.0 as usize);
    }

    // ---- writes to the index

    /// Counts one instance more of a value, where an entry is there.
    pub fn add_instance(&mut self, key: &Key)
        ensures store { ChangesEntry key.now (option_map entries.with_instance) (store_of self.old) (store_of self.new) }
        ensures same_reference { lent self.new ≡ lent self.old }
    {
        if let Some(entry) = self.nodes.index.get_mut(key) {
            entry.add_instance();
        }
    }

    /// Counts one instance less of a value.
    pub fn take_instance(&mut self, key: &Key)
        ensures store { ChangesEntry key.now (option_map entries.without_instance) (store_of self.old) (store_of self.new) }
        ensures same_reference { lent self.new ≡ lent self.old }
    {
        if let Some(entry) = self.nodes.index.get_mut(key) {
            entry.take_instance();
        }
    }

    /// Takes a node from those that hold a key, if it is among them; the last comes into its place.
    pub fn take_holder(&mut self, key: &Key, id: NodeId)
        ensures store { ChangesEntry key.now (option_map (entries.without_node id)) (store_of self.old) (store_of self.new) }
        ensures same_reference { lent self.new ≡ lent self.old }
    {
        if let Some(entry) = self.nodes.index.get_mut(key) {
            entry.take_node(id);
        }
    }

    /// Adds a node to those that hold a key. It is awaited.
    pub fn add_holder(&mut self, key: &Key, id: NodeId)
        requires { store.is_awaited (store_of self.old) key.now }
        ensures store { ChangesEntry key.now (option_map (entries.with_node id)) (store_of self.old) (store_of self.new) }
        ensures same_reference { lent self.new ≡ lent self.old }
    {
        if let Some(entry) = self.nodes.index.get_mut(key) {
            entry.add_node(id);
        }
    }

    /// Gives back the entry of a key, if it holds and awaits nothing.
    pub fn tidy(&mut self, key: &Key)
        ensures store { ChangesEntry key.now tidied (store_of self.old) (store_of self.new) }
        ensures same_reference { lent self.new ≡ lent self.old }
    {
        let is_idle = match self.nodes.entry(key) {
            Some(entry) => entry.is_idle(),
            None => false,
        };
        if is_idle {
            self.nodes.index.remove(key);
        }
    }
}
