//! What nodes are given besides their own statements, and the conditions among it (RFC 7950, 7.13, 7.13.2 and 7.20.2).
#![tactic(auto)]

mod conditions;
mod given;
mod given_row;
mod holding;

pub use conditions::{are_remarks, bears_guard, bears_when, may_bear_in};
pub use given::Given;
pub use given_row::GivenRow;
pub use holding::kept_hold;
