//! The schema of a set of modules, as a compiler makes it: its nodes, and what can be asked of it.
#![tactic(auto)]

mod children;
mod configuration;
mod index;
mod node;
mod references;
mod schema;
mod written;

pub use children::{Child, Children, Slot};
pub use index::id_of;
pub use node::{
    Absence, Amount, JsonForm, Kind, LeafType, MemberTarget, MemberTargets, Reference, SchemaId,
    SchemaNode, Tuples, TypeName,
};
pub use schema::{Augment, Schema, SchemaModule};
pub use ybase_words::{BuiltIn, Status};
