//! The rows of a table.

use std::alloc::Global;
use std::process::Abort;

/// Asserts each row of a table: a line.
pub(crate) fn all_hold<F: Fn(Global, &str) -> Option<bool>>(
    rt: &impl Abort,
    alloc: Global,
    rows: &str,
    holds: F,
)
    requires { F.IsAlwaysCallable holds }
{
    for row in rows.lines() {
        assert!(rt; holds(alloc, row) == Some(true), "{row:?}");
    }
}

/// Asserts each row of a table: what stands between lines `==`.
pub(crate) fn all_parts_hold<F: Fn(Global, &str) -> Option<bool>>(
    rt: &impl Abort,
    alloc: Global,
    rows: &str,
    holds: F,
)
    requires { F.IsAlwaysCallable holds }
{
    for row in rows.split("==\n") {
        assert!(rt; holds(alloc, row) == Some(true), "{row}");
    }
}
