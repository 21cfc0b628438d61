//! The tree diagrams of the modules of a schema (RFC 8340).
#![tactic(auto)]

mod augments;
mod column;
mod fault;
mod indentation;
mod label;
mod marks;
mod rows;

pub use fault::DiagramFault;
pub use rows::write;
