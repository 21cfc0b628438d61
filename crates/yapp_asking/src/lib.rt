//! What is asked of a node of a document, by its path.
#![tactic(auto)]

mod faults;
mod place;
mod value;

pub use faults::keep_below;
pub use place::place_of;
pub use value::value_at;
