//! What stands in a row, with what else few rows have.

ghost use Rattle.std.specs.Prelude.{◌≡◌, [], ◌<◌, IfOk};
ghost use Rattle.ystore_rows.specs.Within.{within_of, Within};

use crate::children::Children;
use crate::row::{Absence, NodeId};
use std::alloc::{AllocError, Global};
use std::mem;
use yschema_model::SchemaId;

/// The nodes of a row, the flags of the node above it, and what is told of what isn't stored in the row.
#[derive(Drop)]
pub struct Parts {
    children: Children,
    same: Vec<bool>,
    play: Vec<Absence>,
    place: usize,
}

/// The same, in little room where there are neither nodes nor flags.
#[derive(Drop)]
pub enum Extent {
    Small { play: Vec<Absence>, place: u32 },
    Large(Box<Parts>),
}

impl Extent {
    ghost use Rattle.std.specs.Prelude.{◌≡◌, ◌<◌, [], length, option_map, slice_get, slice_set, IfOk, OnOk, OnErr};
    ghost use Rattle.ystore_rows.specs.Rows as rows;
    ghost use Rattle.ystore_rows.specs.Places as places;
    ghost use Rattle.ystore_rows.specs.Within.{within_of, place_of};

    /// Nothing, without room.
    pub fn empty(alloc: Global) -> Extent
        ensures { within_of result ≡ record { children = []; room = 0; same = []; play = [] } }
    {
        small(Vec::new(alloc))
    }

    /// No nodes, with room for so many.
    pub fn new(
        alloc: Global,
        same: Vec<bool>,
        play: Vec<Absence>,
        room: usize,
    ) -> Result<Extent, AllocError>
        ensures { IfOk result (λ made. within_of made
            ≡ record { children = []; room = room; same = same.items; play = play.items }) }
    {
        if room == 0 && same.is_empty() {
            return Ok(small(play));
        }
        large(alloc, same, play, room)
    }

    /// How many nodes there are.
    pub fn len(&self) -> usize
        ensures { result ≡ length (within_of self.now).children }
    {
        match self {
            Extent::Small { .. } => 0,
            Extent::Large(parts) => parts.children.len(),
        }
    }

    /// The node at a place, with its schema node.
    pub fn child_at(&self, place: usize) -> Option<(SchemaId, NodeId)>
        ensures { result ≡ slice_get (within_of self.now).children place }
    {
        match self {
            Extent::Small { .. } => None,
            Extent::Large(parts) => parts.children.child_at(place),
        }
    }

    /// How many nodes are of a schema node.
    pub fn count_of(&self, schema: SchemaId) -> usize
        ensures { result ≡ length (rows.of_schema schema (within_of self.now).children) }
    {
        match self {
            Extent::Small { .. } => 0,
            Extent::Large(parts) => parts.children.count_of(schema),
        }
    }

    /// The node at a place.
    pub fn get(&self, place: usize) -> Option<NodeId>
        ensures { result ≡ option_map (λ c. c.1) (slice_get (within_of self.now).children place) }
    {
        match self {
            Extent::Small { .. } => None,
            Extent::Large(parts) => parts.children.get(place),
        }
    }

    /// The node at a place among those of a schema node.
    pub fn get_of(&self, schema: SchemaId, place: usize) -> Option<NodeId>
        ensures { result ≡ slice_get (rows.of_schema schema (within_of self.now).children) place }
    {
        match self {
            Extent::Small { .. } => None,
            Extent::Large(parts) => parts.children.get_of(schema, place),
        }
    }

    /// The place of a node among those of a schema node, the one that is next to another place; or their number.
    pub fn index_near(&self, schema: SchemaId, node: NodeId, near: usize) -> usize
        ensures { result ≡ places.place_near near node (rows.of_schema schema (within_of self.now).children) }
    {
        match self {
            Extent::Small { .. } => 0,
            Extent::Large(parts) => parts.children.index_near(schema, node, near),
        }
    }

    /// At which place among those of its schema node the node above was put.
    pub fn place(&self) -> usize
        ensures { result ≡ place_of self.now }
    {
        match self {
            Extent::Small { place, .. } => *place as usize,
            Extent::Large(parts) => parts.place,
        }
    }

    /// The flags of the node above.
    pub fn same(&self) -> &[bool]
        ensures { result.now ≡ (within_of self.now).same }
    {
        match self {
            Extent::Small { .. } => &[],
            Extent::Large(parts) => parts.same.as_slice(),
        }
    }

    /// What is told of what isn't stored.
    pub fn play(&self) -> &[Absence]
        ensures { result.now ≡ (within_of self.now).play }
    {
        match self {
            Extent::Small { play, .. } => play.as_slice(),
            Extent::Large(parts) => parts.play.as_slice(),
        }
    }

    /// Makes room for one node more.
    pub fn reserve(&mut self, alloc: Global) -> Result<(), AllocError>
        ensures kept { within_of self.new ≡ record (within_of self.old) { room = (within_of self.new).room } }
        ensures room { OnOk result (length (within_of self.new).children < (within_of self.new).room) }
        ensures err { OnErr result (within_of self.new ≡ within_of self.old) }
    {
        match self {
            Extent::Large(parts) => parts.children.reserve(),
            Extent::Small { play, place } => {
                let mut made = large(alloc, Vec::new(alloc), Vec::new(alloc), 1)?;
                made.set_play(mem::replace(play, Vec::new(alloc)));
                made.set_place(*place as usize);
                *self = made;
                Ok(())
            }
        }
    }

    /// Adds a node behind those of its schema node, where there is room for one, and answers its place among them.
    pub fn add(&mut self, child: (SchemaId, NodeId)) -> usize
        requires { length (within_of self.old).children < (within_of self.old).room }
        ensures { within_of self.new ≡ record (within_of self.old) { children = rows.added child (within_of self.old).children } }
    {
        match self {
            Extent::Small { .. } => 0,
            Extent::Large(parts) => parts.children.add(child),
        }
    }

    /// Adds a node at a place among those of its schema node, or behind them, where there is room for one.
    pub fn add_at(&mut self, child: (SchemaId, NodeId), place: usize)
        requires { length (within_of self.old).children < (within_of self.old).room }
        ensures { within_of self.new ≡ record (within_of self.old) { children = rows.brought child place (within_of self.old).children } }
    {
        if let Extent::Large(parts) = self {
            parts.children.add_at(child, place);
        }
    }

    /// Puts another node of the same schema node in the place of one, if it is there, and answers its place among them.
    pub fn put(&mut self, child: (SchemaId, NodeId), node: NodeId) -> usize
        ensures { within_of self.new ≡ record (within_of self.old) { children = rows.put child node (within_of self.old).children } }
    {
        match self {
            Extent::Small { .. } => 0,
            Extent::Large(parts) => parts.children.put(child, node),
        }
    }

    /// Takes away the node at a place among those of a schema node, if there is one.
    pub fn take_at(&mut self, schema: SchemaId, place: usize)
        ensures { within_of self.new ≡ record (within_of self.old) { children = rows.without_at schema place (within_of self.old).children } }
    {
        if let Extent::Large(parts) = self {
            parts.children.take_at(schema, place);
        }
    }

    /// Takes the last node of a schema node away, if there is one.
    pub fn take_last(&mut self, schema: SchemaId)
        ensures { within_of self.new ≡ record (within_of self.old) { children = rows.without_last schema (within_of self.old).children } }
    {
        if let Extent::Large(parts) = self {
            parts.children.take_last(schema);
        }
    }

    /// Brings the node at a place among those of a schema node, or the last of them, to another place among them. Answers which one
    /// it is, and its place among them then.
    pub fn shift_at(&mut self, schema: SchemaId, from: usize, to: usize) -> Option<(NodeId, usize)>
        ensures { within_of self.new ≡ record (within_of self.old) { children = rows.shifted schema from to (within_of self.old).children } }
    {
        match self {
            Extent::Small { .. } => None,
            Extent::Large(parts) => parts.children.shift_at(schema, from, to),
        }
    }

    /// Sets a flag of the node above.
    pub fn set_same(&mut self, number: usize, is_same: bool)
        ensures { within_of self.new ≡ record (within_of self.old) { same = slice_set (within_of self.old).same number is_same } }
    {
        if let Extent::Large(parts) = self {
            if number < parts.same.len() {
                parts.same[number] = is_same;
            }
        }
    }

    /// Sets what is told of what isn't stored.
    pub fn set_play(&mut self, play: Vec<Absence>)
        ensures { within_of self.new ≡ record (within_of self.old) { play = play.items } }
    {
        match self {
            Extent::Small { play: was, .. } => *was = play,
            Extent::Large(parts) => parts.play = play,
        }
    }

    /// Remembers at which place among those of its schema node the node above was put.
    pub fn set_place(&mut self, place: usize)
        ensures { within_of self.new ≡ within_of self.old }
    {
        match self {
            Extent::Small { place: was, .. } => *was = u32::try_from(place).unwrap_or(u32::MAX),
            Extent::Large(parts) => parts.place = place,
        }
    }
}

/// Neither nodes nor flags, without room.
fn small(play: Vec<Absence>) -> Extent
    ensures { within_of result ≡ record { children = []; room = 0; same = []; play = play.items } }
{
    Extent::Small { play, place: 0 }
}

/// No nodes, with room for so many, and flags.
fn large(
    alloc: Global,
    same: Vec<bool>,
    play: Vec<Absence>,
    room: usize,
) -> Result<Extent, AllocError>
    ensures { IfOk result (λ made. within_of made
        ≡ record { children = []; room = room; same = same.items; play = play.items }) }
{
    let parts = Parts {
        children: Children::with_capacity(alloc, room)?,
        same,
        play,
        place: 0,
    };
    Ok(Extent::Large(Box::new(alloc, parts)?))
}
