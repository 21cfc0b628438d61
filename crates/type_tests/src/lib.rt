//! Tests of types and values.
#![tactic(auto)]

#[cfg(test)]
mod described;
#[cfg(test)]
mod patterns;
#[cfg(test)]
mod refusals;
#[cfg(test)]
mod rows;
#[cfg(test)]
mod tables;
#[cfg(test)]
mod values;
