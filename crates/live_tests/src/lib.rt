//! Tests of faults and of live documents: edits one after the other, lists of edits, the walk over faults, and want of memory.
#![tactic(auto)]

#[cfg(test)]
mod building;
#[cfg(test)]
mod faults;
#[cfg(test)]
mod lists;
#[cfg(test)]
mod lives;
#[cfg(test)]
mod many;
#[cfg(test)]
mod memory;
#[cfg(test)]
mod moves;
#[cfg(test)]
mod telling;
#[cfg(test)]
mod walks;
