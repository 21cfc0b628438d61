//! What names in statements mean: prefixes, modules, and what is defined in a scope.
#![tactic(auto)]

mod circular;
mod definitions;
mod first_named;
mod importing;
mod imports;
mod linking;
mod lost;
mod meanings;
mod prefix;
mod references;
mod referring;
mod repeated;
mod taken;

pub use first_named::FirstNamed;
pub use linking::broken_meaning_rule;
pub use lost::meaning_at;
pub use meanings::meanings_of;
pub use prefix::{NodeName, Prefixes, broken_prefix_rule};
pub use references::definition_edges_of;
pub use referring::holders_of;
pub use taken::broken_taken_rule;
