//! A document's configuration alone: the document without its state data, the faults that tell of this data, and those of what
//! is left (RFC 7950, 4.2.3 and 7.21.1).
#![tactic(auto)]

mod inspecting;
mod state;
mod without;

pub use inspecting::{Inspection, inspect};
pub use state::state_faults;
pub use without::configuration_tree;
