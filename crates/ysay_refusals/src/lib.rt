//! What is said of all for which a document is refused, behind the first.
#![tactic(auto)]

mod lines;
mod walk;

pub use lines::said_of_others;
