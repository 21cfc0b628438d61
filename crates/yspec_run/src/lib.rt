//! What a run of the program prints: the definitions stand in `specs/`, over those of `yspec` and what `ysay_codes` says of
//! codes; the functions here have no code, and their contracts are laws of them. Whole runs are worked out in `yspec_examples`.
#![tactic(auto)]

pub mod dumping;
pub mod formats;
pub mod unjudged;
