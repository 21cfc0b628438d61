//! What documents rest on of a schema: the definition stands in `specs/`, over those of `yspec`. The functions here have no
//! code, and their contracts are laws.
#![tactic(auto)]

pub mod laws;
