//! What is said of statements that break their rows of the table: an argument isn't of its form, or there are too many or too few
//! substatements of a kind.
#![tactic(auto)]

mod amounts;
mod arguments;
mod walk;
mod words;

pub use walk::{count_sentence, form_sentence};
