//! What the types of planned nodes mean and are: leafrefs and the members of unions followed to where they lead.
#![tactic(auto)]

mod making;
mod marks;
mod meanings;
mod modules;
mod types;

pub use making::{Made, meant_at};
pub use marks::mark;
pub use meanings::{path_target, target_meant};
pub use modules::ModuleTable;
pub use types::{Types, Unmarked, types_of};
