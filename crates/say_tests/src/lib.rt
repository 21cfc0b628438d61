//! Tests of what is said of documents, edits and faults, and of tree diagrams.
#![tactic(auto)]

#[cfg(test)]
mod diagrams;
#[cfg(test)]
mod editing;
#[cfg(test)]
mod explaining;
#[cfg(test)]
mod formatting;
#[cfg(test)]
mod module;
#[cfg(test)]
mod modules;
#[cfg(test)]
mod placing;
#[cfg(test)]
mod repeating;
#[cfg(test)]
mod rows;
#[cfg(test)]
mod saying;
#[cfg(test)]
mod state;
#[cfg(test)]
mod taking;
#[cfg(test)]
mod type_names;
#[cfg(test)]
mod writing;
