//! What is told of state data in a configuration.

use crate::module::{ADDED, NET};
use crate::modules::schema_of;
use crate::rows::all_parts_hold;
use std::alloc::Global;
use ybase_output::Cut;
use ycheck::{Fault, FaultCode, Info, write_line};
use yinst_tree::{Step, Tree, read};
use ysay_fault::explanation_of;
use ysay_json::json_line;
use yschema_model::{Schema, SchemaId};

// `NAME` as it is written there, or `NAME[POSITION]`.
fn step_of(schema: &Schema, parent: Option<SchemaId>, word: &str) -> Option<Step> {
    match word.split_once('[') {
        Some((name, rest)) => {
            let id = schema.child_written(parent, name)?;
            let position = rest.strip_suffix(']')?.parse::<usize>().ok()?;
            Some(Step {
                id,
                position: Some(position),
            })
        }
        None => {
            let id = schema.child_written(parent, word)?;
            Some(Step { id, position: None })
        }
    }
}

/// The steps of a place, which are parted by spaces.
pub(crate) fn steps_of(alloc: Global, schema: &Schema, place: &str) -> Option<Vec<Step>> {
    let mut steps = Vec::new(alloc);
    let mut parent = None;
    for word in place.split(' ') {
        let step = step_of(schema, parent, word)?;
        parent = Some(step.id);
        steps.push(step).ok()?;
    }
    Some(steps)
}

fn fault_at(alloc: Global, schema: &Schema, place: &str) -> Option<Fault> {
    Some(Fault {
        code: FaultCode::V12,
        tag: FaultCode::V12.tag(),
        app_tag: None,
        steps: steps_of(alloc, schema, place)?,
        info: Info::None,
    })
}

// The line of a fault.
fn line_of(alloc: Global, schema: &Schema, fault: &Fault) -> Option<String> {
    let mut sink = Cut::new(alloc, 4096, 4096, None).ok()?;
    write_line(schema, fault, &mut sink).ok()?;
    String::from_str(alloc, str::from_utf8(sink.bytes()).ok()?).ok()
}

// The line of a fault, what is said of it, and JSON.
fn text_of(alloc: Global, schema: &Schema, tree: &Tree, fault: &Fault) -> Option<String> {
    let mut text = line_of(alloc, schema, fault)?;
    text.push_str(explanation_of(alloc, schema, tree, fault).ok()?.as_str())
        .ok()?;
    text.push_str(json_line(alloc, schema, tree, fault).ok()?.as_str())
        .ok()?;
    text.push_str("\n").ok()?;
    Some(text)
}

fn text_at(alloc: Global, schema: &Schema, tree: &Tree, place: &str) -> Option<String> {
    let fault = fault_at(alloc, schema, place)?;
    text_of(alloc, schema, tree, &fault)
}

// A line with a document, one with a place, and what is told there: a line, what is said of it, and JSON.
fn is_told(alloc: Global, row: &str) -> Option<bool> {
    let (document, rest) = row.split_once("\n")?;
    let (place, told) = rest.split_once("\n")?;
    let schema = schema_of(alloc, &[NET, ADDED])?;
    match read(alloc, &schema, document.as_bytes()) {
        Ok(tree) => Some(text_at(alloc, &schema, &tree, place)?.as_str() == told),
        Err(_) => None,
    }
}

const ROWS: &str =
    r#"{"net:host":[{"name":"b","speed":1},{"name":"a","speed":1,"added:in":{"port":[{"number":4}]}}]}
net:host[2] added:in
V12 unknown-element - /net:host[2]/added:in -
  /net:host[name='a']/added:in: added:in is config false, so no configuration holds it.
{"error-message":"added:in is config false, so no configuration holds it.","error-path":"/net:host[name='a']/added:in","error-tag":"unknown-element","error-type":"application","yanglive:code":"V12","yanglive:path":"/net:host[2]/added:in"}
==
{"net:more":{"rate":1,"item":[3,4],"added:of":[4,6]}}
net:more added:of
V12 unknown-element - /net:more/added:of -
  /net:more/added:of: added:of is config false, so no configuration holds it.
{"error-message":"added:of is config false, so no configuration holds it.","error-path":"/net:more/added:of","error-tag":"unknown-element","error-type":"application","yanglive:code":"V12","yanglive:path":"/net:more/added:of"}
"#;

#[test]
fn state_data(rt: HostRuntime) {
    all_parts_hold(&rt, rt.alloc(), ROWS, is_told);
}
