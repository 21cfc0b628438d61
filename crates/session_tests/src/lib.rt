//! Tests of sessions, over files and who asks in memory.
#![tactic(auto)]

#[cfg(test)]
mod ending;
#[cfg(test)]
mod holding;
#[cfg(test)]
mod memory;
#[cfg(test)]
mod opening;
#[cfg(test)]
mod requests;
