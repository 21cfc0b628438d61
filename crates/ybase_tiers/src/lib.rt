//! Rows in which an insertion or a removal costs about the root of their length.
#![tactic(auto)]

#[cfg(test)]
mod tests;
mod tiers;

pub use tiers::Tiers;
