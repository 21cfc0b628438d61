//! How many nodes a schema may have, and how deep these may nest.

/// The most schema nodes that a set of modules may have.
pub const NODE_LIMIT: usize = 65535;

/// The most levels that schema nodes may nest.
pub const LEVEL_LIMIT: usize = 60;

/// The most levels of one with an `anydata` or `anyxml`, whose values nest below them.
pub(crate) const LOW_LEVEL_LIMIT: usize = 31;
