//! The faults of a document, and what is refused, as lines of JSON.
#![tactic(auto)]

mod line;
mod members;
mod refusal;

pub use line::{json_count, json_line, json_text};
pub use refusal::{Refused, refused_text};
