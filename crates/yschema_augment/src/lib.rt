//! The nodes of a set of modules with all that augments add (RFC 7950, 7.17).
#![tactic(auto)]

mod applied;
mod arranging;
mod augmenting;
mod paths;
mod places;
mod search;
mod starting;
mod targets;
mod waiting;

pub use augmenting::augmented;
