//! How nodes are found by their names, below a node or at the top.
#![tactic(auto)]

mod index;
mod keys;
mod names;

pub use index::NodeIndex;
pub use keys::{Among, FirstNodes, IndexedNode, Key};
pub use names::{Named, Names, number_named};
