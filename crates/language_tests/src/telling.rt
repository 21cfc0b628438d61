//! Codes, counts and lines of faults, as the rows of the tables spell them.

use std::alloc::{AllocError, Global};
use ycheck::{Fault, write_line};
use yschema::CompileFault;
use yschema_model::Schema;
use ytext::Cut;

pub(crate) fn number_of(digits: &str) -> Option<u32> {
    digits.parse::<u32>().ok()
}

/// Whether a text that is made is this one.
pub(crate) fn is_text(made: Result<String, AllocError>, wanted: &str) -> Option<bool> {
    Some(made.ok()?.as_str() == wanted)
}

// Whether the line of a refusal, and the place of its module in the set, are those of `4`, or `4 of 1`.
fn is_place(module: usize, line: u32, told: &str) -> Option<bool> {
    match told.split_once(" of ") {
        Some((at, place)) => {
            Some(number_of(at)? == line && number_of(place)? as usize == module)
        }
        None => Some(number_of(told)? == line && module == 0),
    }
}

/// Whether modules are refused so, as in `C4:1`, of the first module, or `C4:1 of 2`. Nothing for want of memory.
pub(crate) fn is_refusal_of_modules(
    alloc: Global,
    fault: CompileFault,
    told: &str,
) -> Option<bool> {
    match fault {
        CompileFault::Memory => None,
        CompileFault::Refused { module, line, .. } => match told.split_once(':') {
            Some((rule, at)) => {
                let is_there = is_place(module, line, at)?;
                Some(is_there && is_text(format!(in alloc; "{fault}"), rule)?)
            }
            None => Some(false),
        },
    }
}

fn are_written(schema: &Schema, faults: &[Fault], told: &mut Cut) -> bool {
    for fault in faults {
        if write_line(schema, fault, told).is_err() {
            return false;
        }
    }
    true
}

fn are_lines(told: &[u8], lines: &str) -> bool {
    let mut rest = lines.bytes();
    for byte in told {
        match rest.next() {
            Some(b'|') if *byte == b'\n' => {}
            Some(wanted) if *byte == wanted => {}
            _ => return false,
        }
    }
    rest.next().is_none()
}

/// Whether faults have these lines, each with a `|` at its end; `none` for no line.
pub(crate) fn have_lines(
    alloc: Global,
    schema: &Schema,
    faults: &[Fault],
    lines: &str,
) -> Option<bool> {
    if lines == "none" {
        return Some(faults.is_empty());
    }
    match Cut::new(alloc, 4096, 4096, None) {
        Ok(mut told) => {
            let are_written = are_written(schema, faults, &mut told);
            Some(are_written && are_lines(told.bytes(), lines))
        }
        Err(_) => None,
    }
}
