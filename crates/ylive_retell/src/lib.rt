//! What a store tells of its document: the faults of each node, their number, and the indexes that they stand on.
#![tactic(auto)]

mod account;
mod bare;
mod beginning;
mod changing;
mod defaults;
mod growing;
mod instead;
mod joining;
mod planning;
mod retelling;
mod staying;
mod telling;
mod tidying;
mod values;

pub use account::{Account, News, enter_new_nodes, enter_node, enter_nodes, enter_row, enter_way};
pub use bare::kept_tops;
pub use beginning::begin;
pub use changing::change_row;
pub use growing::{awaited_nodes, entries_there, grow, grown_stores};
pub use joining::{join_all, leave_all};
pub use planning::{Plan, plan_of};
pub use retelling::{change, retell};
pub use telling::tell_all;
pub use tidying::tidy_all;
pub use values::{add_all, take_all};
