//! A talk over a live document: requests in lines, each answered before the next is asked for.
#![tactic(auto)]

mod saving;
mod talking;
mod watching;

pub use talking::talk;
pub use watching::Watched;
