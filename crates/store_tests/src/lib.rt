//! Tests of the store of a live document, of documents in it, and of what their nodes and rows hold.
#![tactic(auto)]

#[cfg(test)]
mod documents;
#[cfg(test)]
mod held;
#[cfg(test)]
mod memory;
#[cfg(test)]
mod rows;
#[cfg(test)]
mod stores;
