//! Patterns of XML Schema (RFC 7950, 9.4.5): what a text spells, and which texts a pattern takes. They stand in `specs/`; the
//! functions here have no code, and their contracts are the law on the test of a pattern, and worked examples, which compute.
#![tactic(auto)]

pub mod classes;
pub mod escapes;
pub mod laws;
pub mod pieces;
pub mod published;
pub mod sizes;
