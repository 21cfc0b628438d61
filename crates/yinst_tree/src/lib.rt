//! Documents: reading them under a schema, and writing them (RFC 7951).
#![tactic(auto)]

mod copying;
mod document;
mod fault;
mod instances;
mod names;
mod reading;
mod tree;
mod values;
mod visits;
mod writing;

pub use document::Tree;
pub use fault::{DocCode, DocFault};
pub use instances::instances_of;
pub use names::{Named, meaning_of};
pub use reading::{DOCUMENT_LIMIT, check_node, read, read_node};
pub use tree::{Step, Stored};
pub use values::refusal_in;
pub use writing::{value_of_leaf, write, write_node};
