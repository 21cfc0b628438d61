//! Tests of the program, over files and sides in memory.
#![tactic(auto)]

#[cfg(test)]
mod augments;
#[cfg(test)]
mod codes;
#[cfg(test)]
mod commands;
#[cfg(test)]
mod configuring;
#[cfg(test)]
mod cutting;
#[cfg(test)]
mod explaining;
#[cfg(test)]
mod failing;
#[cfg(test)]
mod formatting;
#[cfg(test)]
mod groupings;
#[cfg(test)]
mod identities;
#[cfg(test)]
mod languages;
#[cfg(test)]
mod memory;
#[cfg(test)]
mod modules;
#[cfg(test)]
mod rows;
#[cfg(test)]
mod running;
#[cfg(test)]
mod saving;
#[cfg(test)]
mod searching;
#[cfg(test)]
mod strictness;
#[cfg(test)]
mod telling;
