//! What a session answers, as lines of JSON without their line feeds.
#![tactic(auto)]

mod answers;
mod refusals;

pub use answers::{changed_text, changes_text, document_text, listed_text, value_text};
pub use refusals::{
    begun_text, done_text, edit_refused_text, not_begun_text, not_understood_text, nothing_text,
    short_text, unserved_text,
};
