//! The schema nodes that modules define, planned before they are made: numbered, with the names by which they refer to
//! one another, and the rules that they break.
#![tactic(auto)]

mod facts;
mod finding;
mod levels;
mod names;
mod needs;
mod nodes;
mod own;
mod plan;
mod planned;
mod planning;

pub use facts::{is_wrong_case, own_defaults};
pub use names::broken_name_rule;
pub use nodes::{PlanNode, PlanNodes};
pub use own::OwnStatements;
pub use plan::Plan;
pub use planned::Planned;
