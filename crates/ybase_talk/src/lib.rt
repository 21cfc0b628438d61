//! Talks in lines: each line is answered before the next is asked for.
#![tactic(auto)]

mod talk;

pub use talk::{Answerer, Caller, LineFault, TalkFault, converse};
