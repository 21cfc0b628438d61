//! Paths and edits, as their texts spell them, and what they mean under a schema.
#![tactic(auto)]

mod binding;
mod cutting;
mod edit;
mod paths;

pub use binding::{Bound, BoundStep, bind_path, bind_to_move, fits_node, has_name, refused};
pub use cutting::{after_spaces, behind, cut};
pub use edit::{Edit, EditCode, EditFault, Key, NamedStep, Path, Predicate};
pub use paths::{is_step, name_and_predicate, operands, position_alone};
