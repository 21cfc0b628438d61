//! What is said of nodes that have one name, that must be there, and of configuration that can't stand where it does.
#![tactic(auto)]

mod config;
mod examples;
mod needed;
mod twice;

pub use config::config_sentence;
pub use examples::{doublings, needs, standings};
pub use needed::needed_sentence;
pub use twice::twice_sentence;
