//! The schema of a set of modules: which rules the modules break, and the schema tree where they break none.
#![tactic(auto)]

mod augmenting;
mod building;
mod limits;
mod making;

pub use building::{compile, compile_in};
pub use limits::{LEVEL_LIMIT, NODE_LIMIT};
pub use ylink::{CompileCode, CompileFault};
pub use yschema_model::{
    Absence, Amount, Augment, BuiltIn, Child, Children, Kind, LeafType, Schema, SchemaId,
    SchemaModule, SchemaNode, Status, Tuples, TypeName,
};
