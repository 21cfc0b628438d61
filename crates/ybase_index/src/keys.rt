//! Nodes found by numbers alone.

ghost use Rattle.std.specs.Prelude.{◌≡◌, None, Some, false, ◌==◌, if◌then◌else◌, IfOk, OnOk, OnErr};
ghost use Rattle.yspec.specs.Forest.{first_of};
ghost use Rattle.ybase_index.specs.Keys.{asks_for, first_at, first_in, is_key};

use indexmap::IndexMap;
use std::alloc::{AllocError, Global};

/// The nodes among which one is looked for by its name.
#[derive(Clone, Copy, Debug, PartialEq, Eq)]
pub enum Among {
    /// Those right below a node, or at the top.
    Children,
    /// Those that share their names below a node, or at the top.
    Scope,
    /// The data nodes of these.
    DataNodes,
}

/// What a node is looked for by: the node above it, or the top; its module; the number of its name.
#[derive(Clone, Copy, Debug, PartialEq, Eq, Hash)]
pub struct Key {
    pub above: Option<u32>,
    pub module: usize,
    pub name: u32,
}

/// A node as it is found, all but its name.
#[derive(Clone, Copy, Debug)]
pub struct IndexedNode {
    pub number: u32,
    /// The node above it.
    pub parent: Option<u32>,
    /// The node below which its name is shared.
    pub scope: Option<u32>,
    pub module: usize,
    pub is_data: bool,
}

/// The first nodes of a key.
#[derive(Clone, Copy, Debug, Drop)]
struct Firsts {
    child: Option<u32>,
    in_scope: Option<u32>,
    data_node: Option<u32>,
}

/// Those among which a node is, below one of the nodes above it.
#[derive(Clone, Copy, Debug)]
struct Asked {
    child: bool,
    in_scope: bool,
    data_node: bool,
}

impl Asked {
    const CHILD: Asked = Asked {
        child: true,
        in_scope: false,
        data_node: false,
    };
}

/// The first nodes by their keys.
#[derive(Debug, Drop)]
pub struct FirstNodes {
    by_key: IndexMap<Key, Firsts>,
}

/// The first of a node so far and one that is asked for.
fn earlier(so_far: Option<u32>, is_asked: bool, number: u32) -> Option<u32>
    ensures { result ≡ first_of so_far (if is_asked then Some number else None) }
{
    match so_far {
        Some(_) => so_far,
        None if is_asked => Some(number),
        None => None,
    }
}

impl Firsts {
    ghost use Rattle.std.specs.Prelude.{◌≡◌, None, Some, if◌then◌else◌};
    ghost use Rattle.yspec.specs.Forest.{first_of};
    ghost use Rattle.ybase_index.specs.Keys.{asks_for, first_in};

    const NONE: Firsts = Firsts {
        child: None,
        in_scope: None,
        data_node: None,
    };

    fn among(self, among: Among) -> Option<u32>
        ensures { result ≡ first_in among self }
    {
        match among {
            Among::Children => self.child,
            Among::Scope => self.in_scope,
            Among::DataNodes => self.data_node,
        }
    }

    /// With a node behind those so far.
    fn followed_by(self, asked: Asked, number: u32) -> Firsts
        ensures { (among : _) → first_in among result
            ≡ first_of (first_in among self) (if asks_for among asked then Some number else None) }
    {
        Firsts {
            child: earlier(self.child, asked.child, number),
            in_scope: earlier(self.in_scope, asked.in_scope, number),
            data_node: earlier(self.data_node, asked.data_node, number),
        }
    }
}

impl FirstNodes {
    ghost use Rattle.std.specs.Prelude.{◌≡◌, ◌==◌, ◌&&◌, None, Some, false, if◌then◌else◌, IfOk, OnOk, OnErr};
    ghost use Rattle.yspec.specs.Forest.{first_of};
    ghost use Rattle.ybase_index.specs.Keys.{asks_for, first_at, is_key, same_key};

    /// No nodes, with room for some keys.
    pub fn with_capacity(alloc: Global, keys: usize) -> Result<FirstNodes, AllocError>
        ensures { IfOk result (λ made. (among : _) → (key : _) → first_at made among key ≡ None) }
    {
        Ok(FirstNodes {
            by_key: IndexMap::with_capacity(alloc, keys)?,
        })
    }

    /// The first node of a key.
    pub fn first(&self, among: Among, key: Key) -> Option<u32>
        ensures { result ≡ first_at self.now among key }
    {
        match self.by_key.get(&key) {
            Some(firsts) => firsts.among(among),
            None => None,
        }
    }

    /// Adds a node behind those so far.
    fn note(&mut self, key: Key, asked: Asked, number: u32) -> Result<(), AllocError>
        ensures noted { OnOk result ((among : _) → (k : _) → first_at self.new among k
            ≡ first_of (first_at self.old among k)
            (if same_key key k && asks_for among asked then Some number else None)) }
        ensures err { OnErr result ((among : _) → (k : _)
            → first_at self.new among k ≡ first_at self.old among k) }
    {
        // Most keys are new, so they are looked for no earlier than they are put in.
        match self
            .by_key
            .insert(key, Firsts::NONE.followed_by(asked, number))
        {
            Ok(None) => Ok(()),
            Ok(Some(before)) => match self.by_key.insert(key, before.followed_by(asked, number)) {
                Ok(_) => Ok(()),
                Err(_) => Err(AllocError),
            },
            Err(_) => Err(AllocError),
        }
    }

    /// Adds a node behind those so far, whose name has a number.
    pub fn add(&mut self, node: IndexedNode, name: u32) -> Result<(), AllocError>
        ensures added { OnOk result ((among : _) → (key : _) → first_at self.new among key
            ≡ first_of (first_at self.old among key)
            (if is_key among node name key then Some node.number else None)) }
        ensures others { (among : _) → (key : _) → (key.name == name) ≡ false
            → first_at self.new among key ≡ first_at self.old among key }
    {
        let IndexedNode {
            number,
            parent,
            scope,
            module,
            is_data,
        } = node;
        let below_scope = Key {
            above: scope,
            module,
            name,
        };
        if parent == scope {
            let all = Asked {
                child: true,
                in_scope: true,
                data_node: is_data,
            };
            return self.note(below_scope, all, number);
        }
        let below_parent = Key {
            above: parent,
            module,
            name,
        };
        self.note(below_parent, Asked::CHILD, number)?;
        let others = Asked {
            child: false,
            in_scope: true,
            data_node: is_data,
        };
        self.note(below_scope, others, number)
    }
}
