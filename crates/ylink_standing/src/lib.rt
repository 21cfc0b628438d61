//! Which features of a set are on, and which statements stand (RFC 7950, 7.20.1 and 7.20.2).
#![tactic(auto)]

mod asking;
mod choosing;
mod chosen;
mod condition;
mod standing;

pub use condition::Condition;
pub use standing::FeaturesOn;
