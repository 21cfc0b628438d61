//! What a store holds, without a count.

use super::Nodes;
use crate::record::Judged;
use yschema_model::SchemaId;
use ystore_rows::{Absence, NodeId, Row};
use ytype::Raw;

/// A store that is only read. Its reads aren't counted.
#[derive(Clone, Copy)]
pub struct View<'a> {
    pub(super) nodes: &'a Nodes,
}

impl<'a> View<'a> {
    ghost use Rattle.std.specs.Prelude.{◌≡◌, length, option_map, option_and_then, slice_get};
    ghost use Rattle.ytype.specs.View.{raw_of};
    ghost use Rattle.ystore.specs.Store as store;
    ghost use Rattle.ystore.specs.Viewed.{viewed};
    ghost use Rattle.ystore_rows.specs.declared.row.Row.TheVariants.{Below};

    /// How many nodes are stored.
    pub fn node_count(self) -> usize
        ensures { result ≡ store.node_count (viewed self.entry) }
    {
        self.nodes.node_count()
    }

    /// How many nodes a row has.
    pub fn child_count(self, row: Row) -> usize
        ensures { result ≡ length (store.children_at (viewed self.entry) row) }
    {
        match self.nodes.record(row) {
            Some(record) => record.extent.len(),
            None => 0,
        }
    }

    /// The node at a place of a row, with its schema node, by which they ascend.
    pub fn child_at(self, row: Row, place: usize) -> Option<(SchemaId, NodeId)>
        ensures { result ≡ slice_get (store.children_at (viewed self.entry) row) place }
    {
        match self.nodes.record(row) {
            Some(record) => record.extent.child_at(place),
            None => None,
        }
    }

    /// The schema node of a node.
    pub fn schema(self, id: NodeId) -> Option<SchemaId>
        ensures { result ≡ option_map (λ l. l.schema) (store.label_at (viewed self.entry) id) }
    {
        match self.nodes.record(Row::Below(id)) {
            Some(record) => record.schema(),
            None => None,
        }
    }

    /// The value of a node, at a leaf or item.
    pub fn value(self, id: NodeId) -> Option<&'a Raw>
        ensures { option_map (λ raw. raw_of raw.now) result
            ≡ option_and_then (λ l. l.value) (store.label_at (viewed self.entry) id) }
    {
        match self.nodes.record(Row::Below(id)) {
            Some(record) => record.value(),
            None => None,
        }
    }

    /// The row in which a node stands.
    pub fn parent(self, id: NodeId) -> Option<Row>
        ensures { result ≡ option_map (λ l. l.parent) (store.label_at (viewed self.entry) id) }
    {
        match self.nodes.record(Row::Below(id)) {
            Some(record) => record.parent(),
            None => None,
        }
    }

    /// What is told of the value of a node.
    pub fn judged(self, id: NodeId) -> Option<&'a Judged>
        ensures { option_map (λ j. j.now) result
            ≡ option_map (λ held. held.told.judged) (store.held_at (viewed self.entry) (Below id)) }
    {
        match self.nodes.record(Row::Below(id)) {
            Some(record) => Some(&record.judged),
            None => None,
        }
    }

    /// Whether another node has the same value as a node, or the same values, by their number.
    pub fn same(self, id: NodeId) -> &'a [bool]
        ensures { result.now ≡ store.same_at (viewed self.entry) id }
    {
        match self.nodes.record(Row::Below(id)) {
            Some(record) => record.extent.same(),
            None => &[],
        }
    }

    /// What is told of what isn't stored in a row.
    pub fn play(self, row: Row) -> &'a [Absence]
        ensures { result.now ≡ store.play_at (viewed self.entry) row }
    {
        match self.nodes.record(row) {
            Some(record) => record.extent.play(),
            None => &[],
        }
    }

    /// How many faults are told of the node above a row, and of all nodes of the row and below it.
    pub fn total(self, row: Row) -> usize
        ensures { result ≡ store.total_at (viewed self.entry) row }
    {
        match self.nodes.record(row) {
            Some(record) => record.total,
            None => 0,
        }
    }
}
