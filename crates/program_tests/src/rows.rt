//! The rows of a table.

use std::alloc::Global;
use std::process::Abort;

/// Asserts each row of a table: a line.
pub(crate) fn all_hold<F: Fn(Global, &str) -> Option<bool>>(
    rt: &impl Abort,
    alloc: Global,
    rows: &str,
    holds: F,
)
    requires { F.IsAlwaysCallable holds }
{
    for row in rows.lines() {
        assert!(rt; holds(alloc, row) == Some(true), "{row:?}");
    }
}

/// Asserts each row of a table: what stands between lines `==`.
pub(crate) fn all_parts_hold<F: Fn(Global, &str) -> Option<bool>>(
    rt: &impl Abort,
    alloc: Global,
    rows: &str,
    holds: F,
)
    requires { F.IsAlwaysCallable holds }
{
    for row in rows.split("==\n") {
        assert!(rt; holds(alloc, row) == Some(true), "{row}");
    }
}

/// Asserts what is said of each number below that one.
pub(crate) fn all_hold_below<F: Fn(Global, usize) -> Option<bool>>(
    rt: &impl Abort,
    alloc: Global,
    end: usize,
    holds: F,
)
    requires { F.IsAlwaysCallable holds }
{
    for number in 0..end {
        assert!(rt; holds(alloc, number) == Some(true), "{number}");
    }
}

/// Asserts that no row is wrong.
pub(crate) fn assert_right(rt: &impl Abort, wrong: Option<&str>) {
    let row = wrong.unwrap_or("");
    assert!(rt; wrong.is_none(), "{row}");
}
