//! Conditions of `if-feature`: what an argument spells (RFC 7950, 7.20.2; RFC 6020, 7.18.2).
#![tactic(auto)]

mod expression;
mod reading;
mod words;

pub use expression::{Expression, YangVersion};
pub use reading::expression_of;
