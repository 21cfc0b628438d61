//! What is said of a document that is refused: which member isn't known, or isn't in the form that is due, and which may
//! have been meant; of what kind a value is where another is due.
#![tactic(auto)]

mod examples;
mod member;
mod no_json;
mod nodes;
mod number;
mod place;
mod sentence;

pub use examples::{members, texts, values};
pub use member::{due_name, near_name, own_part};
pub use nodes::{children_of, module_of};
pub use place::{last_step, value_from};
pub use sentence::{other_member, said_at, said_of_refusal, unknown_member};
