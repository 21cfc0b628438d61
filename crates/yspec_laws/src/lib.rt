//! Laws of the definitions that tell a reader what these mean, and on which no proof of a body rests: which break is told,
//! that a name has one meaning, what is left once something was done in turn, that a bound on steps is no bound on what is
//! meant, and that configuration alone is all of a document where a schema has no state. The functions have no code; their
//! contracts are the laws.
#![tactic(auto)]

pub mod breaks;
pub mod configuration;
pub mod names;
pub mod steps;
pub mod turns;
