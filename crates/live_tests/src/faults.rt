//! Lines of the faults of documents.

use crate::building::schema_of;
use crate::telling::{have_lines, number_of};
use std::alloc::{AllocError, Global};
use test_modules::{MODULE, STATE};
use ycheck::{Fault, faults};
use yinst::{Tree, read};
use yschema_model::Schema;

fn are_lines_of(alloc: Global, schema: &Schema, tree: &Tree, lines: &str) -> Option<bool> {
    match faults(alloc, schema, tree) {
        Ok(faults) => have_lines(alloc, schema, &faults, lines),
        Err(_) => None,
    }
}

/// Whether the faults of a document have these lines.
pub(crate) fn is_faulty(alloc: Global, document: &str, lines: &str) -> Option<bool> {
    let schema = schema_of(alloc, &[MODULE])?;
    match read(alloc, &schema, document.as_bytes()) {
        Ok(tree) => are_lines_of(alloc, &schema, &tree, lines),
        Err(_) => None,
    }
}

// `document => lines`
fn has_lines(alloc: Global, row: &str) -> Option<bool> {
    let (document, lines) = row.split_once(" => ")?;
    is_faulty(alloc, document, lines)
}

#[test]
fn lines_of_faults(rt: HostRuntime) {
    let row =
        r#"{"p:c":{"id":256,"note":5}} => V1 invalid-value - /p:c/id -|V1 invalid-value - /p:c/note -|"#;
    assert!(rt; has_lines(rt.alloc(), row) == Some(true));
}

// A container with an item, and with so many more of the same value.
fn document(alloc: Global, more: u32) -> Result<String, AllocError> {
    let mut text = String::from_str(alloc, r#"{"w:c":{"tag":["""#)?;
    for _ in 0..more {
        text.push_str(r#","""#)?;
    }
    text.push_str("]}}")?;
    Ok(text)
}

// Whether there are so many faults, and the last one has this line.
fn end_so(
    alloc: Global,
    schema: &Schema,
    faults: &[Fault],
    count: usize,
    line: &str,
) -> Option<bool> {
    let (_, last) = faults.split_at(faults.len().saturating_sub(1));
    Some(faults.len() == count && have_lines(alloc, schema, last, line)?)
}

// `more/faults/line`: how many faults the document with so many more items has, and the line of the last one.
fn has_last_line(alloc: Global, row: &str) -> Option<bool> {
    let (more, row) = row.split_once('/')?;
    let (count, line) = row.split_once('/')?;
    let schema = schema_of(alloc, &[STATE])?;
    let text = document(alloc, number_of(more)?).ok()?;
    match read(alloc, &schema, text.as_str().as_bytes()) {
        Ok(tree) => match faults(alloc, &schema, &tree) {
            Ok(found) => end_so(alloc, &schema, &found, number_of(count)? as usize, line),
            Err(_) => None,
        },
        Err(_) => None,
    }
}

// Positions of more than two bytes.
#[test]
fn far_positions(rt: HostRuntime) {
    let row = "69999/70000/V10 operation-failed - /w:c/tag[70000] -|";
    assert!(rt; has_last_line(rt.alloc(), row) == Some(true));
}
