//! One request for memory, whichever, may be refused: the answer is that, or the one with ample memory.

use crate::building::schema_of;
use crate::compiling::{are_compiled, comes_of};
use crate::documents::{is_network_rewritten, is_rewritten};
use crate::groupings::are_replaced;
use crate::kinds::are_asked;
use crate::rows::all_hold;
use crate::schemas::is_outlined;
use crate::telling::{is_refusal, is_text};
use std::alloc::Global;
use test_modules::NETWORK;
use yinst::{Edit, apply, read, write};

#[test]
fn answer_or_memory(rt: HostRuntime) {
    assert!(rt; is_outlined(rt.alloc()) != Some(false));
    let document = r#"{ "p:c": {"note": "x\n", "id": 7} }"#;
    let text = r#"{"p:c":{"id":7,"note":"x\n"}}"#;
    assert!(rt; is_rewritten(rt.alloc(), document, text) != Some(false));
    assert!(rt; are_compiled(rt.alloc()) != Some(false));
    assert!(rt; is_network_rewritten(rt.alloc()) != Some(false));
}

#[test]
fn groupings_or_memory(rt: HostRuntime) {
    assert!(rt; are_replaced(rt.alloc()) != Some(false));
}

#[test]
fn configuration_or_memory(rt: HostRuntime) {
    assert!(rt; are_asked(rt.alloc()) != Some(false));
}

// A container, one that is added to it, and a leaf that is added to that; the last module is given first.
const AUGMENTED: [&str; 3] = [
    "module a { yang-version 1.1; namespace u; prefix a; import m { prefix m; } import b { prefix b; }
  augment /m:c/b:x { leaf y { type string; } } }",
    "module b { yang-version 1.1; namespace u; prefix b; import m { prefix m; } augment /m:c { container x; } }",
    "module m { yang-version 1.1; namespace u; prefix m; container c; }",
];

#[test]
fn augments_or_memory(rt: HostRuntime) {
    assert!(rt; comes_of(rt.alloc(), &AUGMENTED, 0, "3 nodes") != Some(false));
}

// `document => edit => text`: the text of the document then, or the code of the refusal. Nothing for want of memory.
fn is_applied(alloc: Global, row: &str) -> Option<bool> {
    let (document, row) = row.split_once(" => ")?;
    let (line, told) = row.split_once(" => ")?;
    let schema = schema_of(alloc, &[NETWORK])?;
    let tree = read(alloc, &schema, document.as_bytes()).ok()?;
    let edit = Edit::parse(alloc, line).ok()??;
    match apply(alloc, &schema, &tree, &edit) {
        Ok(tree) => is_text(write(alloc, &schema, &tree), told),
        Err(fault) => is_refusal(alloc, fault, told),
    }
}

const APPLIED: &str =
    r#"{"ex-net:net":{"host":[{"name":"a","auto":[null],"uplink":"b"},{"name":"b","auto":[null]}]}} => remove /ex-net:net/host[name='b'] => {"ex-net:net":{"host":[{"auto":[null],"name":"a","uplink":"b"}]}}
{"ex-net:net":{"host":[{"name":"a","auto":[null],"uplink":"b"},{"name":"b","auto":[null]}]}} => replace /ex-net:net/host[2] {"name":"b","speed":7} => {"ex-net:net":{"host":[{"auto":[null],"name":"a","uplink":"b"},{"name":"b","speed":7}]}}
{"ex-net:net":{"host":[{"name":"a","auto":[null]},{"name":"a","auto":[null]}]}} => remove /ex-net:net/host[name='a'] => E6
{"ex-net:net":{"host":[{"name":"a","auto":[null]},{"name":"a","auto":[null]}]}} => remove /ex-net:net/host[2] => {"ex-net:net":{"host":[{"auto":[null],"name":"a"}]}}"#;

#[test]
fn edits_or_memory(rt: HostRuntime) {
    for row in APPLIED.lines() {
        assert!(rt; is_applied(rt.alloc(), row) != Some(false), "{row}");
    }
}

#[test]
fn edits_with_memory(rt: HostRuntime) {
    all_hold(&rt, rt.alloc(), APPLIED, is_applied);
    assert!(rt; comes_of(rt.alloc(), &AUGMENTED, 0, "3 nodes") == Some(true));
}
