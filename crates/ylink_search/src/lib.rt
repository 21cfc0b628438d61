//! Modules that are imported and not named: what a module imports, which module is the one that is wanted, and in which files it is
//! looked for.
#![tactic(auto)]

mod files;
mod importing;
mod meeting;
mod statements;

pub use files::files_for;
pub use importing::{Wanted, wanted_by_module};
pub use meeting::{is_wanted, module_name};
