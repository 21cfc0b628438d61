//! Rows of things that share what they are made of.
#![tactic(auto)]

mod row;

pub use row::Row;
