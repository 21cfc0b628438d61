//! Modules that are imported and not named are looked for in folders, file by file.
#![tactic(auto)]

mod asking;
mod finding;
mod looking;
mod starting;

pub use finding::search;
