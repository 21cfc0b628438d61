//! What is told with the place in a file to which an editor jumps: `FILE:LINE:COLUMN: error: ..`.
#![tactic(auto)]

mod line_start;
mod telling;

pub use line_start::beginning;
pub use telling::{jump, jumps_text};
pub use ysay_lines::Place;
