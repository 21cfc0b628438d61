//! From modules and a document to what comes of edits, and the faults that are left.
#![tactic(auto)]

mod checking;

pub use checking::{CheckFault, Checked, check_edits, check_edits_in};
