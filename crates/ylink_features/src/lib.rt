//! Which features modules have, and what conditions name.
#![tactic(auto)]

mod asked;
mod condition;
mod features;
mod importing;
mod lost;
mod taken;
mod unknown;
mod versions;

pub use features::Features;
pub use importing::broken_version_import_rule;
pub use lost::{broken_condition_rule, feature_edges};
pub use taken::broken_taken_feature_rule;
pub use unknown::broken_condition_prefix_rule;
pub use versions::Versions;
