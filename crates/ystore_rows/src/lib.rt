//! The nodes of a row in a store: in tiers, by schema node, each found by halves.
#![tactic(auto)]

mod children;
mod extent;
mod row;

pub use children::Children;
pub use extent::{Extent, Parts};
pub use row::{Absence, NodeId, Row};
