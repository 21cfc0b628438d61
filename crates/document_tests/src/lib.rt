//! Tests of schemas, of documents under them, and of the texts and values of edits.
#![tactic(auto)]

#[cfg(test)]
mod augments;
#[cfg(test)]
mod building;
#[cfg(test)]
mod compiling;
#[cfg(test)]
mod cutting;
#[cfg(test)]
mod documents;
#[cfg(test)]
mod edits;
#[cfg(test)]
mod groupings;
#[cfg(test)]
mod halves;
#[cfg(test)]
mod identities;
#[cfg(test)]
mod kinds;
#[cfg(test)]
mod limits;
#[cfg(test)]
mod linking;
#[cfg(test)]
mod memory;
#[cfg(test)]
mod rows;
#[cfg(test)]
mod schemas;
#[cfg(test)]
mod telling;
