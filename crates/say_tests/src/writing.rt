//! The line that is written of a fault.

use crate::module::{ADDED, NET};
use crate::modules::schema_of;
use std::alloc::Global;
use ybase_output::Cut;
use ycheck::faults;
use yinst_tree::{Tree, read};
use ysay_fault::{ExplanationFault, write_fault_explanation};
use yschema_model::Schema;

const DOCUMENT: &str = r#"{"net:host":[{"name":"b"}]}"#;

const LINE: &str = "  /net:host[name='b']: speed is missing.\n";

// Whether what is said of the faults of a tree goes to a sink, or a call fails. Nothing for want of memory.
fn tells(alloc: Global, schema: &Schema, tree: &Tree, sink: &mut Cut) -> Option<bool> {
    let found = faults(alloc, schema, tree).ok()?;
    for fault in &found {
        match write_fault_explanation(alloc, schema, tree, fault, sink) {
            Ok(()) => {}
            Err(ExplanationFault::Device) => return Some(false),
            Err(ExplanationFault::Memory) => return None,
        }
    }
    Some(true)
}

// The same of the document.
fn goes_to(alloc: Global, sink: &mut Cut) -> Option<bool> {
    let schema = schema_of(alloc, &[NET, ADDED])?;
    let tree = read(alloc, &schema, DOCUMENT.as_bytes()).ok()?;
    tells(alloc, &schema, &tree, sink)
}

// Whether a sink that takes so many bytes a call has the line in the end.
fn is_written(alloc: Global, bytes_per_call: usize) -> Option<bool> {
    let mut sink = Cut::new(alloc, 4096, bytes_per_call, None).ok()?;
    let is_whole = goes_to(alloc, &mut sink)?;
    Some(is_whole && sink.bytes() == LINE.as_bytes())
}

#[test]
fn lines(rt: HostRuntime) {
    assert!(rt; is_written(rt.alloc(), 4096) == Some(true));
    assert!(rt; is_written(rt.alloc(), 1) == Some(true), "byte by byte");
}

// Whether a failing call ends it, with a beginning taken.
fn breaks(alloc: Global, call: u64) -> Option<bool> {
    let mut sink = Cut::new(alloc, 4096, 10, Some(call)).ok()?;
    let is_whole = goes_to(alloc, &mut sink)?;
    let is_beginning = LINE.as_bytes().starts_with(sink.bytes());
    Some(!is_whole && is_beginning && sink.calls() == call)
}

#[test]
fn failing_calls(rt: HostRuntime) {
    for call in 1..5 {
        assert!(rt; breaks(rt.alloc(), call) == Some(true), "{call}");
    }
}
