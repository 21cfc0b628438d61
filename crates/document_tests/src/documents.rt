//! Documents: the text that is written for each.

use crate::building::schema_of;
use crate::rows::all_hold;
use crate::telling::is_text;
use std::alloc::Global;
use test_modules::{MODULE, NETWORK};
use yinst::{DocFault, read, write};
use yschema_model::Schema;

fn is_text_of(alloc: Global, schema: &Schema, document: &str, text: &str) -> Option<bool> {
    match read(alloc, schema, document.as_bytes()) {
        Ok(tree) => is_text(write(alloc, schema, &tree), text),
        Err(DocFault::Memory) => None,
        Err(_) => Some(false),
    }
}

// Whether a document under a module that is read is written as this text.
fn is_rewritten_under(alloc: Global, module: &str, document: &str, text: &str) -> Option<bool> {
    let schema = schema_of(alloc, &[module])?;
    is_text_of(alloc, &schema, document, text)
}

pub(crate) fn is_rewritten(alloc: Global, document: &str, text: &str) -> Option<bool> {
    is_rewritten_under(alloc, MODULE, document, text)
}

/// Whether a document with entries is written in the schema's order.
pub(crate) fn is_network_rewritten(alloc: Global) -> Option<bool> {
    let document =
        r#"{"ex-net:net":{"host":[{"name":"a","auto":[null],"uplink":"b"},{"name":"b","auto":[null]}]}}"#;
    let text =
        r#"{"ex-net:net":{"host":[{"auto":[null],"name":"a","uplink":"b"},{"auto":[null],"name":"b"}]}}"#;
    is_rewritten_under(alloc, NETWORK, document, text)
}

// `document => text`, and the text is written as it is.
fn is_written(alloc: Global, row: &str) -> Option<bool> {
    let (document, text) = row.split_once(" => ")?;
    Some(is_rewritten(alloc, document, text)? && is_rewritten(alloc, text, text)?)
}

#[test]
fn written_documents(rt: HostRuntime) {
    let rows = r#"{} => {}
{"p:c": {}} => {"p:c":{}}
{ "p:c": {"note": "x\n", "id": 7} } => {"p:c":{"id":7,"note":"x\n"}}
{"p:c":{"id":-9223372036854775808}} => {"p:c":{"id":-9223372036854775808}}
{"p:c":{"id":[null],"note":true}} => {"p:c":{"id":[null],"note":true}}"#;
    all_hold(&rt, rt.alloc(), rows, is_written);
    assert!(rt; is_network_rewritten(rt.alloc()) == Some(true));
}
