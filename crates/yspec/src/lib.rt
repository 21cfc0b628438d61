//! Every definition that yanglive claims something about: what a module's text, a schema, a value, a document, a
//! fault and a program's output are. They stand in `specs/`; the functions here have no code, and their contracts are
//! laws of those definitions, and worked examples of texts, types, spelling and edits. Whole modules, documents and
//! runs are worked out in `yspec_examples`.
#![tactic(auto)]

pub mod changes;
pub mod checking;
pub mod compiling;
pub mod editing;
pub mod expansion;
pub mod octets;
pub mod reading;
pub mod references;
pub mod spelling;
pub mod text;
pub mod types;
