//! Texts as regular expressions.

use crate::tables::all_hold;
use std::alloc::Global;
use ytype::Expression;

// Whether a row holds: an expression, a text, and whether that is one of its pattern; or that it spells none.
fn holds(alloc: Global, row: &str) -> Option<bool> {
    let (text, rest) = row.split_once('/')?;
    let (given, wanted) = rest.split_once('/')?;
    let expression = Expression::read(alloc, text).ok()?;
    let matches = expression.matches(alloc, given).ok()?;
    let is_right = match wanted {
        "yes" => expression.is_pattern() && matches,
        "no" => expression.is_pattern() && !matches,
        _ => !expression.is_pattern() && !matches,
    };
    Some(is_right && expression.text() == text)
}

#[test]
fn expressions(rt: HostRuntime) {
    let rows = "a+|b/aa/yes
a+|b/b/yes
a+|b/ab/no
//yes
/a/no
^a$/a/no
^a$/^a$/yes
[a/a/none
a{3,2}/aa/none
(a/a/none
aaa{50000}/a/no
aaa{50001}/a/none";
    all_hold(&rt, rt.alloc(), rows, holds);
}
