//! Trees of any labels as slots of a table, in preorder.
#![tactic(auto)]

mod siblings;
mod slot;
mod table;

pub use siblings::{Node, Siblings};
pub use slot::Slot;
pub use table::Table;
