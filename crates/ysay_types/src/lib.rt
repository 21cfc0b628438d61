//! What is said of restrictions of types that are wrong, and of defaults that aren't taken.
#![tactic(auto)]

mod built_ins;
mod chain;
mod defaults;
mod quoting;
mod restrictions;
mod sets;

pub use defaults::default_sentence;
pub use restrictions::restriction_sentence;
