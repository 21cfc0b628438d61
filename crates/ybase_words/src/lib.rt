//! The words of the language, each kind of them an enum: keywords, built-in types, and words of arguments.
#![tactic(auto)]

mod builtin;
mod keyword;
mod word;

pub use builtin::BuiltIn;
pub use keyword::{KEYWORDS, Keyword};
pub use word::{OrderedBy, Status, flag_of, is_date, ordered_by_of, status_of};
