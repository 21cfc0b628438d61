//! Codes, counts and lines of faults, as the rows of the tables spell them.

use std::alloc::{AllocError, Global};
use std::process::Abort;
use ycheck::{Fault, write_line};
use yinst::EditFault;
use yschema_model::Schema;
use ytext::Cut;

/// Asserts that no row is wrong.
pub(crate) fn assert_right(rt: &impl Abort, wrong: Option<&str>) {
    let row = wrong.unwrap_or("");
    assert!(rt; wrong.is_none(), "{row}");
}

pub(crate) fn number_of(digits: &str) -> Option<u32> {
    digits.parse::<u32>().ok()
}

/// Whether a text that is made is this one.
pub(crate) fn is_text(made: Result<String, AllocError>, wanted: &str) -> Option<bool> {
    Some(made.ok()?.as_str() == wanted)
}

/// Whether an edit is refused so, as in `E9` or `E10 J5`. Nothing for want of memory.
pub(crate) fn is_refusal(alloc: Global, fault: EditFault, told: &str) -> Option<bool> {
    match fault {
        EditFault::Memory => None,
        EditFault::Refused { .. } => is_text(format!(in alloc; "{fault}"), told),
    }
}

fn are_written(schema: &Schema, faults: &[Fault], told: &mut Cut) -> bool {
    for fault in faults {
        if write_line(schema, fault, told).is_err() {
            return false;
        }
    }
    true
}

fn are_lines(told: &[u8], lines: &str) -> bool {
    let mut rest = lines.bytes();
    for byte in told {
        match rest.next() {
            Some(b'|') if *byte == b'\n' => {}
            Some(wanted) if *byte == wanted => {}
            _ => return false,
        }
    }
    rest.next().is_none()
}

/// Whether faults have these lines, each with a `|` at its end; `none` for no line.
pub(crate) fn have_lines(
    alloc: Global,
    schema: &Schema,
    faults: &[Fault],
    lines: &str,
) -> Option<bool> {
    if lines == "none" {
        return Some(faults.is_empty());
    }
    match Cut::new(alloc, 4096, 4096, None) {
        Ok(mut told) => {
            let are_written = are_written(schema, faults, &mut told);
            Some(are_written && are_lines(told.bytes(), lines))
        }
        Err(_) => None,
    }
}
