//! What the names, types and defaults of planned nodes refer to, and which rules planned nodes break.
#![tactic(auto)]

mod additions;
mod config;
mod defaults;
mod guarding;
mod judging;
mod placing;
mod references;
mod resolved;
mod tuples;
mod unfit_keys;
mod widths;

pub use additions::broken_addition_rule;
pub use defaults::default_values;
pub use judging::broken_node_rule;
pub use placing::broken_place_rule;
pub use resolved::Resolved;
pub use tuples::tuples_of;
