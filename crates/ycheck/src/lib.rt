//! The check of a document: its faults, in order, and the line of each.
#![tactic(auto)]

mod cases;
mod checking;
mod fault;
mod lines;
mod repeated;
mod targets;
mod values;

pub use cases::has_stored;
pub use checking::faults;
pub use fault::{ErrorTag, Fault, FaultCode, FaultParts, Info, LentInfo};
pub use lines::{LineFault, write_line, write_parts, write_path};
pub use repeated::tuple_of;
pub use values::{valid_value, value_of};
