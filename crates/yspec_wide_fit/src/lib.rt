//! Every schema that compiles in a language is one that documents can rest on. The functions here have no code, and their contracts
//! are laws.
#![tactic(auto)]

pub mod laws;
