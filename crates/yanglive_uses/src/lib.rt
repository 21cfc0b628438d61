//! Six callers of the library, as a user writes them.
#![tactic(auto)]

mod checking;
mod compiling;
mod drawing;
mod editing;

pub use checking::faults_in;
pub use compiling::{Uncompiled, compile_texts, parse_all};
pub use drawing::{Buffer, diagram_of};
pub use editing::{apply_all, edit_or_rebuild, first_fault};
