//! Nodes found by their names.

ghost use Rattle.std.specs.Prelude.{◌<◌, ◌^◌, length, map};
ghost use Rattle.ybase_index.specs.Names.{AreNamesOf};

use crate::keys::{Among, FirstNodes, IndexedNode, Key};
use crate::names::{Names, names_of, number_named};
use std::alloc::{AllocError, Global};

/// Nodes by their names. A name has as its number that of the first node that has it.
#[derive(Debug, Drop)]
pub struct NodeIndex<'t> {
    // The name of each node.
    texts: Vec<&'t str>,
    names: Names,
    nodes: FirstNodes,
    ghost named: { AreNamesOf names (map (λ t. t.now) texts.items) },
}

impl<'t> NodeIndex<'t> {
    ghost use Rattle.std.specs.Prelude.{◌≡◌, ◌<◌, ◌^◌, ℕ, None, Some, if◌then◌else◌, length, map, IfOk, OnOk};
    ghost use Rattle.yspec.specs.Forest.{first_of};
    ghost use Rattle.ybase_index.specs.Index.{named, texts_of, found};
    ghost use Rattle.ybase_index.specs.Names.{is_at, text_in, AreNamesOf};

    /// None of the nodes that have these names, by number, with room for all.
    pub fn of(alloc: Global, texts: Vec<&'t str>) -> Result<NodeIndex<'t>, AllocError>
        requires { length texts.items < 2 ^ 32 }
        ensures texts { IfOk result (λ made. texts_of made ≡ map (λ t. t.now) texts.entry.items) }
        ensures nodes { IfOk result (λ made. (among : _) → (above : _) → (m : _) → (name : _)
            → found made among above m name ≡ None) }
    {
        let names = names_of(alloc, &texts)?;
        let nodes = FirstNodes::with_capacity(alloc, texts.len())?;
        Ok(NodeIndex {
            texts,
            names,
            nodes,
        })
    }

    /// The first node of a module and a name below one, or at the top.
    pub fn first(&self, among: Among, above: Option<u32>, module: usize, name: &str) -> Option<u32>
        ensures { result ≡ found self.now among above «module» name.now }
    {
        let name = number_named(&self.texts, &self.names.ordered, name)?;
        let key = Key {
            above,
            module,
            name,
        };
        self.nodes.first(among, key)
    }

    /// The first node of a module and of the name of a node; of no text where there is none of that number.
    pub fn first_like(
        &self,
        among: Among,
        above: Option<u32>,
        module: usize,
        node: u32,
    ) -> Option<u32>
        ensures { result ≡ found self.now among above «module» (text_in (texts_of self.now) node) }
    {
        match self.names.of_nodes.get(node as usize) {
            Some(name) => {
                let key = Key {
                    above,
                    module,
                    name: *name,
                };
                self.nodes.first(among, key)
            }
            None => self.first(among, above, module, ""),
        }
    }

    /// Adds a node behind those so far.
    pub fn add(&mut self, node: IndexedNode) -> Result<(), AllocError>
        requires { node.number < length (texts_of self.old) }
        ensures texts { texts_of self.new ≡ texts_of self.old }
        ensures nodes { OnOk result ((among : _) → (above : _) → (m : _) → (t : _)
            → found self.new among above m t ≡ first_of (found self.old among above m t)
            (if is_at among above m t node (text_in (texts_of self.old) node.number)
            then Some node.number else None)) }
    {
        let name = self.names.of_nodes[node.number as usize];
        self.nodes.add(node, name)
    }

    /// A copy of the names of its nodes.
    pub fn names(&self, alloc: Global) -> Result<Names, AllocError>
        ensures { IfOk result (λ names. AreNamesOf names (texts_of self.now)) }
    {
        Ok(Names {
            ordered: Vec::from_slice(alloc, &self.names.ordered)?,
            of_nodes: Vec::from_slice(alloc, &self.names.of_nodes)?,
        })
    }
}
