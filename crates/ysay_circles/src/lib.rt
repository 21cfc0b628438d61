//! What is said of what leads back to itself, of conditions, and of operations that stand where none may.
#![tactic(auto)]

mod circles;
mod conditions;
mod examples;
mod places;
mod references;

pub use conditions::condition_sentence;
pub use examples::{conditions_of_lines, imports_back, leading_back, standings};
pub use places::place_sentence;
pub use references::circle_sentence;
