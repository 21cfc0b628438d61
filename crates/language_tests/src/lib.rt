//! Tests of modules that are read in a language: versions of YANG, features, patterns, binaries, operations, and conditions that aren't judged.
#![tactic(auto)]

#[cfg(test)]
mod anything;
#[cfg(test)]
mod binaries;
#[cfg(test)]
mod building;
#[cfg(test)]
mod choosing;
#[cfg(test)]
mod compiling;
#[cfg(test)]
mod documents;
#[cfg(test)]
mod extending;
#[cfg(test)]
mod features;
#[cfg(test)]
mod guards;
#[cfg(test)]
mod memory;
#[cfg(test)]
mod operations;
#[cfg(test)]
mod patterns;
#[cfg(test)]
mod referring;
#[cfg(test)]
mod restricting;
#[cfg(test)]
mod rows;
#[cfg(test)]
mod telling;
#[cfg(test)]
mod versions;
