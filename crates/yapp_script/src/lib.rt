//! The lines of a script of edits: what each asks for, which are refused, and what is said below a line that tells a code.
#![tactic(auto)]

mod hint;
mod script;

pub use hint::{break_hint, refusal_hint, repeated_hint, slip_hint};
pub use script::{Refusal, RefusedLine, Script, ValueCode};
