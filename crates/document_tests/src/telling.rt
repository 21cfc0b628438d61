//! Codes and counts, as the rows of the tables spell them.

use std::alloc::{AllocError, Global};
use yinst::{DocFault, EditFault};
use yschema::CompileFault;

pub(crate) fn number_of(digits: &str) -> Option<u32> {
    digits.parse::<u32>().ok()
}

/// Whether a text that is made is this one.
pub(crate) fn is_text(made: Result<String, AllocError>, wanted: &str) -> Option<bool> {
    Some(made.ok()?.as_str() == wanted)
}

/// Whether the module of a number in the set is refused so, as in `C4:1`: the code and the line. Nothing for want of
/// memory.
pub(crate) fn is_refusal_of_modules(
    alloc: Global,
    fault: CompileFault,
    place: usize,
    told: &str,
) -> Option<bool> {
    match fault {
        CompileFault::Memory => None,
        CompileFault::Refused { module, line, .. } => match told.split_once(':') {
            Some((rule, at)) => {
                let is_there = module == place && number_of(at)? == line;
                Some(is_there && is_text(format!(in alloc; "{fault}"), rule)?)
            }
            None => Some(false),
        },
    }
}

/// Whether a document is refused so at its root. Nothing for want of memory.
pub(crate) fn is_refusal_of_document(alloc: Global, fault: &DocFault, told: &str) -> Option<bool> {
    match fault {
        DocFault::Memory => None,
        DocFault::Refused { place, .. } => {
            Some(place.is_empty() && is_text(format!(in alloc; "{fault}"), told)?)
        }
    }
}

/// Whether an edit is refused so, as in `E9` or `E10 J5`. Nothing for want of memory.
pub(crate) fn is_refusal(alloc: Global, fault: EditFault, told: &str) -> Option<bool> {
    match fault {
        EditFault::Memory => None,
        EditFault::Refused { .. } => is_text(format!(in alloc; "{fault}"), told),
    }
}
