//! Documents under a schema that edits change, and whose faults are known after each.
#![tactic(auto)]

mod laws;
mod live;
mod outcome;
mod running;

pub use laws::told_documents;
pub use live::Live;
pub use outcome::{Applied, ListFault, Outcome, Refused, StopCode, Stopped};
pub use ylive_list::{Seen, Walk};
