//! Tests of module text, of conditions, of the rules of the table, and of what is said of codes, lines, words and names.
#![tactic(auto)]

#[cfg(test)]
mod codes;
#[cfg(test)]
mod conditions;
#[cfg(test)]
mod hinting;
#[cfg(test)]
mod readings;
#[cfg(test)]
mod rows;
#[cfg(test)]
mod scans;
#[cfg(test)]
mod sinks;
#[cfg(test)]
mod spelled;
#[cfg(test)]
mod statements;
#[cfg(test)]
mod versions;
