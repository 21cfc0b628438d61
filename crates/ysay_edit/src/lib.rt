//! What is said of an edit that is refused, of its path, of what stands there and of its value, and what is wrong in a line
//! that spells no edit.
#![tactic(auto)]

mod choice;
mod examples;
mod laws;
mod now;
mod part;
mod predicate;
mod spelling;
mod step;

pub use examples::{choices, parts, paths, predicates, spellings, stored};
pub use laws::spelled_lines;
pub use part::said_of_edit;
pub use spelling::said_of_line;
