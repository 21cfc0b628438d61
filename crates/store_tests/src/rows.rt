//! The rows of a table.

use std::alloc::Global;
use std::process::Abort;

/// Asserts each row of a table: a line.
pub(crate) fn all_hold<F: Fn(Global, &str) -> Option<bool>>(
    rt: &impl Abort,
    alloc: Global,
    rows: &str,
    holds: F,
)
    requires { F.IsAlwaysCallable holds }
{
    for row in rows.lines() {
        assert!(rt; holds(alloc, row) == Some(true), "{row:?}");
    }
}
