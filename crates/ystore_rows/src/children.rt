//! The nodes of one row.

ghost use Rattle.std.specs.Prelude.{◌≡◌, true};
ghost use Rattle.ybase_tiers.specs.Tiers.{tiered};
ghost use Rattle.ystore_rows.specs.Rows.{ascends};

use crate::row::NodeId;
use std::alloc::{AllocError, Global};
use ybase_tiers::Tiers;
use yschema_model::SchemaId;

/// The nodes of a row, each with its schema node, by which they ascend.
#[derive(Debug, Drop)]
pub struct Children {
    nodes: Tiers<(SchemaId, NodeId)>,
    ghost ascending: { ascends (tiered nodes) ≡ true },
}

impl Children {
    ghost use Rattle.std.specs.Prelude.{◌≡◌, ◌+◌, ◌-◌, ◌<◌, ◌≤◌, [], drop, eqb, false, length, map, min, option_map, slice_get, take, IfOk, OnOk, OnErr};
    ghost use Rattle.std.specs.Option.{option_map_or};
    ghost use Rattle.ystore_rows.specs.Children.{nodes_of, room_of};
    ghost use Rattle.ystore_rows.specs.Rows as rows;
    ghost use Rattle.ystore_rows.specs.Places as places;

    /// None, with room for so many.
    pub fn with_capacity(alloc: Global, room: usize) -> Result<Children, AllocError>
        ensures none { IfOk result (λ made. nodes_of made ≡ []) }
        ensures room { IfOk result (λ made. room_of made ≡ room) }
    {
        Ok(Children {
            nodes: Tiers::with_capacity(alloc, room)?,
        })
    }

    /// None, without room.
    pub fn new(alloc: Global) -> Children
        ensures none { nodes_of result ≡ [] }
        ensures room { room_of result ≡ 0 }
    {
        Children {
            nodes: Tiers::new(alloc),
        }
    }

    /// How many they are.
    pub fn len(&self) -> usize
        ensures { result ≡ length (nodes_of self.now) }
    {
        self.nodes.len()
    }

    /// The one at a place, with its schema node.
    pub fn child_at(&self, place: usize) -> Option<(SchemaId, NodeId)>
        ensures { result ≡ slice_get (nodes_of self.now) place }
    {
        self.nodes.get(place)
    }

    /// The place of the first of a schema node.
    fn first_place(&self, schema: SchemaId) -> usize
        ensures place { result ≡ rows.first_place schema (nodes_of self.now) }
        ensures within { result ≤ length (nodes_of self.now) }
    {
        self.nodes.partition_point(|child| child.0.0 < schema.0)
    }

    /// The place behind the last of a schema node.
    fn end_place(&self, schema: SchemaId) -> usize
        ensures place { result ≡ rows.end_place schema (nodes_of self.now) }
        ensures within { result ≤ length (nodes_of self.now) }
    {
        self.nodes.partition_point(|child| child.0.0 <= schema.0)
    }

    /// The place of a child, or the end.
    fn place_of(&self, child: (SchemaId, NodeId)) -> usize
        ensures place { result ≡ rows.place_of child (nodes_of self.now) }
        ensures within { result ≤ length (nodes_of self.now) }
    {
        let end = self.end_place(child.0);
        let place = self.first_place(child.0) + self.index_of(child.0, child.1);
        if place < end { place } else { self.nodes.len() }
    }

    /// How many are of a schema node.
    pub fn count_of(&self, schema: SchemaId) -> usize
        ensures { result ≡ length (rows.of_schema schema (nodes_of self.now)) }
    {
        self.end_place(schema) - self.first_place(schema)
    }

    /// The one at a place.
    pub fn get(&self, place: usize) -> Option<NodeId>
        ensures { result ≡ option_map (λ c. c.1) (slice_get (nodes_of self.now) place) }
    {
        match self.nodes.get(place) {
            Some(child) => Some(child.1),
            None => None,
        }
    }

    /// The one at a place among those of a schema node.
    pub fn get_of(&self, schema: SchemaId, place: usize) -> Option<NodeId>
        ensures { result ≡ slice_get (rows.of_schema schema (nodes_of self.now)) place }
    {
        let first = self.first_place(schema);
        if place < self.end_place(schema) - first {
            self.get(first + place)
        } else {
            None
        }
    }

    /// The place of a node among those of a schema node, or their number.
    pub fn index_of(&self, schema: SchemaId, node: NodeId) -> usize
        ensures { result ≡ places.place_of node (rows.of_schema schema (nodes_of self.now)) }
    {
        let first = self.first_place(schema);
        let count = self.end_place(schema) - first;
        for place in 0..count {
            if self.get(first + place) == Some(node) {
                return place;
            }
        }
        count
    }

    /// The one of them that is next to a place.
    pub fn index_near(&self, schema: SchemaId, node: NodeId, near: usize) -> usize
        ensures { result ≡ places.place_near near node (rows.of_schema schema (nodes_of self.now)) }
    {
        let first = self.first_place(schema);
        let end = self.end_place(schema);
        self.place_near(first, end, node, near)
    }

    /// The place of a node among those between two places that is next to another place among them, or their number. It is looked
    /// for forward and backward at once.
    fn place_near(&self, first: usize, end: usize, node: NodeId, near: usize) -> usize
        requires order { first ≤ end }
        requires within { end ≤ length (nodes_of self.now) }
        ensures { result ≡ places.place_near near node (map (λ c. c.1) (take (end - first) (drop first (nodes_of self.now)))) }
    {
        let count = end - first;
        let near = near.min(count);
        for step in 0..count {
            if self.is_ahead(first, end, near, step, node) {
                return near + step;
            }
            if step < near && self.is_among(first, end, near - 1 - step, node) {
                return near - 1 - step;
            }
        }
        count
    }

    /// Whether the one so far behind a place among those between two places is this node.
    fn is_ahead(&self, first: usize, end: usize, near: usize, step: usize, node: NodeId) -> bool
        requires order { first ≤ end }
        requires within { end ≤ length (nodes_of self.now) }
        requires near { near ≤ end - first }
        ensures { result ≡ option_map_or (λ c. eqb c.1.0 node.0) (slice_get (take (end - first) (drop first (nodes_of self.now))) (near + step)) false }
    {
        step < end - first - near && self.is_among(first, end, near + step, node)
    }

    /// Whether the one at a place among those between two places is this node.
    fn is_among(&self, first: usize, end: usize, place: usize, node: NodeId) -> bool
        requires order { first ≤ end }
        requires within { end ≤ length (nodes_of self.now) }
        ensures { result ≡ option_map_or (λ c. eqb c.1.0 node.0) (slice_get (take (end - first) (drop first (nodes_of self.now))) place) false }
    {
        place < end - first && self.is_at(first + place, node)
    }

    /// Whether the one at a place is this node.
    fn is_at(&self, place: usize, node: NodeId) -> bool
        ensures { result ≡ option_map_or (λ c. eqb c.1.0 node.0) (slice_get (nodes_of self.now) place) false }
    {
        match self.nodes.get(place) {
            Some(child) => child.1 == node,
            None => false,
        }
    }

    /// The place in the row of a place among those of a schema node, or that behind them.
    fn place_among(&self, schema: SchemaId, place: usize) -> usize
        ensures place { result ≡ rows.first_place schema (nodes_of self.now)
            + min place (length (rows.of_schema schema (nodes_of self.now))) }
        ensures within { result ≤ length (nodes_of self.now) }
    {
        let first = self.first_place(schema);
        let end = self.end_place(schema);
        if place < end - first {
            first + place
        } else {
            end
        }
    }

    /// The place in the row of the one at a place among those of a schema node, or the end.
    fn place_at(&self, schema: SchemaId, place: usize) -> usize
        ensures place { result ≡ rows.place_at schema place (nodes_of self.now) }
        ensures within { result ≤ length (nodes_of self.now) }
    {
        let first = self.first_place(schema);
        if place < self.end_place(schema) - first {
            first + place
        } else {
            self.nodes.len()
        }
    }

    /// Makes room for one more.
    pub fn reserve(&mut self) -> Result<(), AllocError>
        ensures nodes { nodes_of self.new ≡ nodes_of self.old }
        ensures room { OnOk result (length (nodes_of self.new) < room_of self.new) }
        ensures kept { room_of self.old ≤ room_of self.new }
        ensures err { OnErr result (room_of self.new ≡ room_of self.old) }
    {
        self.nodes.reserve()
    }

    /// Adds a child behind those of its schema node, where there is room for one, and answers its place among them.
    pub fn add(&mut self, child: (SchemaId, NodeId)) -> usize
        requires { length (nodes_of self.old) < room_of self.old }
        ensures nodes { nodes_of self.new ≡ rows.added child (nodes_of self.old) }
        ensures room { room_of self.new ≡ room_of self.old }
    {
        let first = self.first_place(child.0);
        let place = self.end_place(child.0);
        self.nodes.insert(place, child);
        place.saturating_sub(first)
    }

    /// Adds a child at a place among those of its schema node, or behind them, where there is room for one.
    pub fn add_at(&mut self, child: (SchemaId, NodeId), place: usize)
        requires { length (nodes_of self.old) < room_of self.old }
        ensures nodes { nodes_of self.new ≡ rows.brought child place (nodes_of self.old) }
        ensures room { room_of self.new ≡ room_of self.old }
    {
        let place = self.place_among(child.0, place);
        self.nodes.insert(place, child);
    }

    /// Puts another node of the same schema node in the place of a child, if it is there, and answers its place among those of
    /// the schema node.
    pub fn put(&mut self, child: (SchemaId, NodeId), node: NodeId) -> usize
        ensures nodes { nodes_of self.new ≡ rows.put child node (nodes_of self.old) }
        ensures room { room_of self.new ≡ room_of self.old }
    {
        let first = self.first_place(child.0);
        let place = self.place_of(child);
        if place < self.nodes.len() {
            self.nodes.set(place, (child.0, node));
        }
        place.saturating_sub(first)
    }

    /// Takes away the one at a place among those of a schema node, if there is one.
    pub fn take_at(&mut self, schema: SchemaId, place: usize)
        ensures nodes { nodes_of self.new ≡ rows.without_at schema place (nodes_of self.old) }
        ensures room { room_of self.new ≡ room_of self.old }
    {
        let place = self.place_at(schema, place);
        if place < self.nodes.len() {
            self.nodes.remove(place);
        }
    }

    /// Takes the last of a schema node away, if there is one.
    pub fn take_last(&mut self, schema: SchemaId)
        ensures nodes { nodes_of self.new ≡ rows.without_last schema (nodes_of self.old) }
        ensures room { room_of self.new ≡ room_of self.old }
    {
        let end = self.end_place(schema);
        if self.first_place(schema) < end {
            self.nodes.remove(end - 1);
        }
    }

    /// Brings the one at a place among those of a schema node, or the last of them, to another place among them, or behind them.
    /// Answers which one it is, and its place among them then; none where there are none of them.
    pub fn shift_at(&mut self, schema: SchemaId, from: usize, to: usize) -> Option<(NodeId, usize)>
        ensures nodes { nodes_of self.new ≡ rows.shifted schema from to (nodes_of self.old) }
        ensures room { room_of self.new ≡ room_of self.old }
    {
        let first = self.first_place(schema);
        let last = self.count_of(schema).saturating_sub(1);
        let from = self.place_at(schema, from.min(last));
        if from < self.nodes.len() {
            let child = self.nodes.remove(from);
            let to = self.place_among(child.0, to);
            self.nodes.insert(to, child);
            Some((child.1, to.saturating_sub(first)))
        } else {
            None
        }
    }
}
