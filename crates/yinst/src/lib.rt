//! What edits do to documents.
#![tactic(auto)]

mod applying;
mod branch;
mod locating;
mod rows;

pub use applying::apply;
pub use branch::part;
pub use locating::{Located, Spot, instance_index, instance_meant, locate, row_at};
pub use rows::{instance_at, left_of};
pub use yinst_path::{
    Bound, BoundStep, Edit, EditCode, EditFault, Key, NamedStep, Path, Predicate,
};
pub use yinst_tree::{DocCode, DocFault, Step, Stored, Tree, read, write};
