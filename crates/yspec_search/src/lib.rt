//! Definitions of the search for modules that are imported and not named. They stand in `specs/`; the functions here have no code,
//! and their contracts are laws, and worked examples, which compute both sides.
#![tactic(auto)]

pub mod examples;
pub mod laws;
