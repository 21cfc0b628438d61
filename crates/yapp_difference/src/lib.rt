//! What became wrong with a document, and what right.
#![tactic(auto)]

mod carrying;
mod comparing;
mod counts;
mod key;
mod row_turns;
mod turning;

pub use comparing::{Difference, difference_of};
pub use row_turns::{Positions, Turn};
pub use turning::{Turns, turns_of};
