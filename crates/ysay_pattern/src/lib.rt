//! Where a pattern stops being one, and what is said of that.
#![tactic(auto)]

mod examples;
mod said;
mod stop;

pub use examples::{places, sentences};
pub use said::pattern_sentence;
pub use stop::{Stop, stop_of};
