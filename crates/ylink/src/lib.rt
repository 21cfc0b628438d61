//! The statements of a set of modules, linked: what their names and types mean, and the rules that they break.
#![tactic(auto)]

mod fault;
mod features;
mod judging;
mod kept;
mod linked;
mod linking;
mod modules;
mod ordering;
mod patterns;
mod repeated;
mod statements;
mod verdicts;
mod versions;

pub use fault::CompileFault;
pub use kept::KeptMeanings;
pub use linked::{Linked, StmtId};
pub use linking::{link, link_in};
pub use modules::prefixed_in;
pub use statements::Statements;
pub use versions::means_empty;
pub use ylink_grammar::{CompileCode, Language};
pub use ylink_types::{Kept, Meant, Member};
