//! What the nodes and rows of a store hold, by counted reads: values, keys of indexes, and what is in play.
#![tactic(auto)]

mod cases;
mod given;
mod judging;
mod keys;
mod laws;
mod over;
mod play;
mod rows;
mod texts;
mod tuples;
mod values;
mod worked;

pub use given::own_value_of;
pub use judging::judged_of;
pub use keys::{flag_count, key_at, keys_of};
pub use laws::{found_entries, given_values, held_keys, told_nodes, viewed_keys};
pub use over::child_over;
pub use play::{InPlay, in_play, in_play_over};
pub use tuples::tuple_of;
pub use values::{leaf_value, value_at, value_of};
pub use worked::worked_keys;
