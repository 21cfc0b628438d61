//! The nodes that a set of modules defines, with each `uses` replaced by the nodes of its grouping (RFC 7950, 7.12 and 7.13).
#![tactic(auto)]

mod augments;
mod bodies;
mod bringing;
mod counting;
mod expanding;
mod extending;
mod groupings;
mod hanging;
mod indexing;
mod laying;
mod named;
mod nodes;
mod refining;
mod stating;
mod table;
mod taking;
mod target;
mod walking;

pub use augments::augments_of;
pub use bodies::add_bodies;
pub use expanding::{Context, Made, expanded};
pub use groupings::Groupings;
pub use named::Named;
pub use nodes::ExpandedNode;
pub use table::NodeTable;
pub use taking::holds_by;
