//! The list of the faults that a store holds.
#![tactic(auto)]

mod absent;
mod down;
mod findings;
mod laws;
mod listing;
mod node_left;
mod place;
mod row_left;
mod seen;
mod walk;

pub use laws::{parted_faults, told_documents, told_nodes, walked_faults};
pub use listing::list;
pub use place::Place;
pub use seen::Seen;
pub use walk::Walk;
