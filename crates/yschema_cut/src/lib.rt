//! The nodes of a set of modules that stand (RFC 7950, 7.9.2, 7.9.3 and 7.20.2).
#![tactic(auto)]

mod cutting;
mod defaults;
mod guarding;
mod holding;
mod keeping;
mod nodes;
mod totals;

pub use cutting::{cut, cut_by, standing_in};
pub use guarding::unguarded_in;
