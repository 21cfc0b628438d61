//! What a command found, or why it found nothing, with the places in files to which an editor jumps.
#![tactic(auto)]

mod documents;
mod files;
mod refusals;

pub use documents::faults_by_lines;
pub use refusals::failure_by_lines;
