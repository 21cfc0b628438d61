//! What stands at a place of a text, and what may have been meant: the line that is told, a text of which a terminal shows
//! all, the nearest of some names, and what is said of statements that aren't known, aren't read or can't stand where they
//! do.
#![tactic(auto)]

mod control;
mod examples;
mod laws;
mod line;
mod near;
mod sentence;
mod word;

pub use control::{has_control, is_control, visible};
pub use examples::{edits, lines, names, statements, visibly, words};
pub use laws::nearness;
pub use line::{shown, shown_line};
pub use near::{is_near, nearest};
pub use sentence::line_sentence;
pub use word::{is_unread, nearest_word};
