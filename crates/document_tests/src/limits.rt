//! Documents of more nodes than there may be. Those of as many are tried over the built program: here they take minutes.

use crate::building::{push_times, schema_of};
use crate::telling::is_refusal_of_document;
use std::alloc::{AllocError, Global};
use test_modules::STATE;
use yinst::read;

// A container with an item, and with so many more of the same value.
fn document(alloc: Global, more: u32) -> Result<String, AllocError> {
    let mut text = String::from_str(alloc, r#"{"w:c":{"tag":["""#)?;
    push_times(&mut text, r#","""#, more)?;
    text.push_str("]}}")?;
    Ok(text)
}

// Whether a document of so many items more than one is refused so.
fn is_refused(alloc: Global, more: u32, told: &str) -> Option<bool> {
    let schema = schema_of(alloc, &[STATE])?;
    let text = document(alloc, more).ok()?;
    match read(alloc, &schema, text.as_str().as_bytes()) {
        Ok(_) => Some(false),
        Err(fault) => is_refusal_of_document(alloc, &fault, told),
    }
}

#[test]
fn too_many_nodes(rt: HostRuntime) {
    assert!(rt; is_refused(rt.alloc(), 999999, "J7") == Some(true));
}
