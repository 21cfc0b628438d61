//! What is told at the nodes of a store: its totals, and the keys that tell.
#![tactic(auto)]

mod agreements;
mod alike;
mod keys;
mod laws;
mod telling;
mod totals;
mod values;

pub use agreements::{
    changed_keys, counted_holders, kept_agreements, same_entries, same_totals, similar_keys,
};
pub use alike::keys_alike;
pub use keys::{join, leave};
pub use laws::{changed_totals, kept_totals, kept_trees, same_faults, silent_branches};
pub use telling::{tell_judged, tell_play, tell_same};
pub use totals::climb;
pub use values::{add_value, take_value};
