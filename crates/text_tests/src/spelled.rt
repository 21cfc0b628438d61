//! What stands in the rows of tables: texts with line breaks in them, and faults.

use std::alloc::{AllocError, Global};
use ytext::TextFault;

/// A row with a line feed in place of each `¶`.
pub(crate) fn unmarked(alloc: Global, row: &str) -> Result<String, AllocError> {
    let mut text = String::new(alloc);
    for character in row.chars() {
        text.push(if character == '¶' { '\n' } else { character })?;
    }
    Ok(text)
}

/// Whether a fault is the one that a row spells, as `L5 1`: its code and its line. None where memory ran out.
pub(crate) fn is_fault(alloc: Global, fault: TextFault, wanted: &str) -> Option<bool> {
    match fault {
        TextFault::Refused { line, .. } => {
            let told = format!(in alloc; "{fault} {line}").ok()?;
            Some(told.as_str() == wanted)
        }
        TextFault::Memory => None,
    }
}
