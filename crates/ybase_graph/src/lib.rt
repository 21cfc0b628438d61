//! Graphs: which edges lie on circles, an order of the nodes, and which nodes derive from which others.
#![tactic(auto)]

mod circles;
pub mod derivation;
mod derivations;
mod order;
mod search;

pub use circles::{Edge, on_circles};
pub use derivations::Derivations;
pub use order::in_order;
