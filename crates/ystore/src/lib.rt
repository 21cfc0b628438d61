//! The store of a live document: numbered nodes, and what is told of them.
#![tactic(auto)]

mod count;
mod entry;
mod index;
mod key;
mod laws;
mod nodes;
mod record;

pub use key::Key;
pub use laws::{kept_loans, same_keys};
pub use nodes::{Counted, Nodes, View};
pub use record::{Judged, Label, Told};
pub use ystore_rows::{Absence, NodeId, Row};
