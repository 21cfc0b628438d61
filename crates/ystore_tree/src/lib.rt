//! What hangs in a store: the document's tree, as rows of nodes that list one another, and its changes.
#![tactic(auto)]

mod copying;
mod inserting;
mod laws;
mod parts;
mod swapping;
mod worked;

pub use copying::copy_tree;
pub use inserting::{insert_part, insert_tree, remove_nodes, store_of_tree};
pub use laws::{
    changed_documents, changed_trees, found_children, kept_forests, kept_shapes, nodes_beside_trees,
};
pub use parts::copy_part;
pub use swapping::{Change, Swap, undone_changes};
pub use worked::{hanging_trees, worked_trees};
