//! Rows that are joined of others.

use crate::tables::all_hold;
use std::alloc::Global;
use std::rc::Rc;
use ybase_row::Row;

// The numbers from one to below another, each joined behind those before it.
fn counted(alloc: Global, first: usize, end: usize) -> Option<Row<usize>> {
    let mut row = Row::new();
    for number in first..end {
        let one = Row::one(Rc::new(alloc, number).ok()?);
        row = Row::joined(alloc, &row, &one).ok()?;
    }
    Some(row)
}

// Whether a row has the numbers from 0 to below that one, and no more.
fn counts(row: &Row<usize>, end: usize) -> bool {
    for number in 0..end {
        if row.get(number) != Some(&number) {
            return false;
        }
    }
    row.len() == end && row.is_empty() == (end == 0) && row.get(end).is_none()
}

// Whether the first numbers and those behind them, up to another, are together all of them; also where they are copied.
fn joins(alloc: Global, first: usize, end: usize) -> Option<bool> {
    let front = counted(alloc, 0, first)?;
    let row = Row::joined(alloc, &front, &counted(alloc, first, end)?).ok()?;
    Some(counts(&front, first) && counts(&row, end) && counts(&row.clone().ok()?, end))
}

// `FIRST of END`
fn holds(alloc: Global, row: &str) -> Option<bool> {
    let (first, end) = row.split_once(" of ")?;
    joins(
        alloc,
        first.parse::<usize>().ok()?,
        end.parse::<usize>().ok()?,
    )
}

#[test]
fn rows(rt: HostRuntime) {
    let rows = "0 of 0
0 of 1
1 of 1
1 of 2
1 of 3
2 of 3
1 of 100
50 of 100
99 of 100";
    all_hold(&rt, rt.alloc(), rows, holds);
}
