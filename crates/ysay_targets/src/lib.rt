//! What is said of augments, refines and leafrefs that lead nowhere.
#![tactic(auto)]

mod leafrefs;
mod steps;
mod targets;

pub use leafrefs::leafref_sentence;
pub use targets::target_sentence;
