//! Which member a JSON text gives twice in one object (RFC 8259, 4): in a document the first, with its place, and what is
//! said of it; of an edit's value, whether there is any.
#![tactic(auto)]

mod examples;
mod place;
mod sentence;
mod value;

pub use examples::{documents, sentences, values};
pub use place::first_repeated;
pub use sentence::said_of_repeated;
pub use value::has_repeated;
