//! What is said of names that are taken in a set of modules, and of imports that aren't met.
#![tactic(auto)]

mod examples;
mod imports;
mod taken;

pub use examples::{takings, unmet};
pub use imports::import_sentence;
pub use taken::taken_sentence;
