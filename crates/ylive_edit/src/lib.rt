//! Edits of the document that hangs in a store: located, and done or refused as the definition of edits gives them.
#![tactic(auto)]

mod amending;
mod instances;
mod keys;
mod locating;
mod opening;
mod parts;

pub use amending::amend;
pub use opening::told_store;
pub use parts::{add_part, put_part, take_part};
