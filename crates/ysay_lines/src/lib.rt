//! Where in a JSON text the value of a node stands, by line and column (RFC 8259).
#![tactic(auto)]

mod examples;
mod laws;
mod lines;
mod located;
mod passing;
mod place;
mod reading;
mod start;

pub use examples::{absent_nodes, entries, lines_and_columns, members_by_name, starts_of_tokens};
pub use laws::tokens_where_they_begin;
pub use lines::Lines;
pub use place::Place;
