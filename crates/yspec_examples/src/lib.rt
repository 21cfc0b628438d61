//! Worked examples of the definitions: what modules, documents, scripts and whole runs come to by them. The functions
//! have no code, and their contracts compute both sides. No crate stands on this one.
#![tactic(auto)]

pub mod augments;
pub mod commands;
pub mod corners;
pub mod diagrams;
pub mod documents;
pub mod examples;
pub mod groupings;
pub mod identities;
pub mod linking;
pub mod modules;
pub mod moves;
pub mod refusals;
pub mod scopes;
pub mod scripts;
