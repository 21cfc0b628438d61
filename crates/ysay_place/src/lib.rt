//! Where a fault of a document is: what stands where its steps lead, its path by keys, and the node to which a leafref refers.
#![tactic(auto)]

mod path;
mod place;
mod target;

pub use path::{keyed_path, leaf_in, module_at, name_of, position_path};
pub use place::{count_of, instance_found, instance_to, row_at, row_found, row_to};
pub use target::{add_steps_to, target_path};
