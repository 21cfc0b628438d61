//! What is said of values to a person: their texts, what a type takes, what a text that it doesn't take may have meant, what the
//! module says itself, and the values of keys and `unique`s.
#![tactic(auto)]

mod binaries;
mod examples;
mod expressions;
mod identities;
mod joining;
mod messages;
mod near;
mod taken;
mod tuples;
mod values;

pub use binaries::taken_octets;
pub use examples::{broken_texts, taken_texts};
pub use identities::hint_words;
pub use messages::{message_at, message_words, type_at};
pub use near::near_words;
pub use taken::taken_words;
pub use tuples::{keys_at, keys_said, leafs_said, unique_at};
pub use values::value_text;
