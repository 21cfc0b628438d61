//! What is said of a text of a module with a word, a string or a sign where it can't be, or that isn't one module.
#![tactic(auto)]

mod examples;
mod said;
mod walk;

pub use examples::{blocks, sentences};
pub use said::slip_sentence;
