//! Tests of patterns.
#![tactic(auto)]

#[cfg(test)]
mod patterns;
