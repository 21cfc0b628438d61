//! One request for memory, whichever, may be refused: the answer is that, or the one with ample memory. Where an edit met
//! it, the document is stale, and all that is asked of it afterwards is answered. `tools/refuse-memory` refuses each
//! request in turn.

use crate::building::{live_under, schema_of};
use crate::faults::is_faulty;
use crate::lists::are_entries_checked;
use crate::lives::{
    CREATIONS, FAULTY, INVALID, REPLACEMENTS, are_checked, are_modules_refused, are_outcomes,
    edits_of, go, is_answer, is_document_refused, is_rebuilt, is_stored, runs, stands,
};
use crate::telling::is_text;
use std::alloc::Global;
use test_modules::{MODULE, NETWORK};
use yinst::{Edit, read, write};
use ylive::{ListFault, Live, Refused, StopCode, Stopped};
use yschema_model::Schema;

// `text => faults`: whether a document has both.
fn is_in(alloc: Global, live: &Live, state: &str) -> Option<bool> {
    let (text, lines) = state.split_once(" => ")?;
    stands(alloc, live, text, lines)
}

fn is_barred(live: &mut Live, edits: &[Edit]) -> bool {
    match edits.first() {
        Some(edit) => matches!(live.edit(edit), Err(Refused::Stale)),
        None => false,
    }
}

fn is_stopped(live: &mut Live, edits: &[Edit]) -> bool {
    matches!(
        live.run(edits),
        Err(Stopped {
            code: StopCode::E13,
            done: 0
        })
    )
}

// Whether a document is stale, and neither faults of it are told nor edits are done.
fn is_shut(live: &mut Live, edits: &[Edit]) -> bool {
    let is_unlisted = live.fault_count().is_none() && matches!(live.list(), Err(ListFault::Stale));
    live.is_stale()
        && is_unlisted
        && live.walk().is_none()
        && is_barred(live, edits)
        && is_stopped(live, edits)
}

// Whether a stale document is rebuilt to this state.
fn is_made_anew(alloc: Global, live: &mut Live, state: &str) -> bool {
    live.rebuild().is_ok() && !live.is_stale() && is_in(alloc, live, state) == Some(true)
}

// Whether a document from which an edit took memory away is stale, has the text of this state, and is rebuilt to it. The
// one request that was refused is spent, so that no memory is wanting here.
fn is_mended(alloc: Global, live: &mut Live, edits: &[Edit], state: &str) -> bool {
    match state.split_once(" => ") {
        Some((text, _)) => {
            let is_kept = is_shut(live, edits) && is_stored(alloc, live, text) == Some(true);
            is_kept && is_made_anew(alloc, live, state)
        }
        None => false,
    }
}

// What came of edits that found no memory.
fn told_of_mending(is_mended: bool) -> &'static str {
    if is_mended {
        "stale and mended"
    } else {
        "wrong"
    }
}

// What came of edits that were done.
fn told_of_edits(is_so: bool) -> &'static str {
    if is_so { "ample" } else { "wrong" }
}

// `edit => what comes of it => text => faults`: what came of the edit.
fn of_edit(
    alloc: Global,
    live: &mut Live,
    edits: &[Edit],
    before: &str,
    row: &str,
) -> Option<&'static str> {
    let answer = live.edit(edits.first()?);
    if matches!(answer, Err(Refused::Memory)) {
        return Some(told_of_mending(is_mended(alloc, live, edits, before)));
    }
    let (_, row) = row.split_once(" => ")?;
    let (told, after) = row.split_once(" => ")?;
    Some(told_of_edits(is_answer(alloc, answer, told)? && is_in(alloc, live, after)?))
}

// `text => faults ==> edit => what comes of it => text => faults`, of a document that is opened, or finds no memory and is
// given back as it was.
fn of_document(alloc: Global, schema: Schema, row: &str) -> Option<&'static str> {
    let (before, row) = row.split_once(" ==> ")?;
    let (document, _) = before.split_once(" => ")?;
    let edits = edits_of(alloc, row)?;
    match read(alloc, &schema, document.as_bytes()) {
        Ok(tree) => match Live::open(alloc, schema, tree) {
            Ok(mut live) => of_edit(alloc, &mut live, &edits, before, row),
            Err((schema, tree)) => match is_text(write(alloc, &schema, &tree), document) {
                Some(true) => None,
                _ => Some("wrong"),
            },
        },
        Err(_) => None,
    }
}

fn of_row(alloc: Global, module: &str, row: &str) -> Option<&'static str> {
    let schema = schema_of(alloc, &[module])?;
    of_document(alloc, schema, row)
}

fn of_rows(alloc: Global, module: &str, rows: &str) -> Option<&'static str> {
    for row in rows.lines() {
        let told = of_row(alloc, module, row)?;
        if told != "ample" {
            return Some(told);
        }
    }
    Some("ample")
}

// An edit of a leaf.
const REPLACEMENT: &str =
    r#"{"p:c":{"id":256,"note":"x"}} => V1 invalid-value - /p:c/id -| ==> replace /p:c/id 7 => 1 to 0 => {"p:c":{"id":7,"note":"x"}} => none"#;

// Edits of entries, each of a document of its own.
const EDITS: &str =
    r#"{"ex-net:net":{"host":[{"auto":[null],"name":"a","uplink":"b"},{"auto":[null],"name":"b"}]}} => none ==> remove /ex-net:net/host[name='b'] => 0 to 1 => {"ex-net:net":{"host":[{"auto":[null],"name":"a","uplink":"b"}]}} => V11 data-missing instance-required /ex-net:net/host[1]/uplink -|
{"ex-net:net":{"host":[{"auto":[null],"name":"a","uplink":"b"},{"auto":[null],"name":"b"}]}} => none ==> replace /ex-net:net/host[2] {"name":"b","speed":7} => 0 to 0 => {"ex-net:net":{"host":[{"auto":[null],"name":"a","uplink":"b"},{"name":"b","speed":7}]}} => none
{"ex-net:net":{"host":[{"auto":[null],"name":"a"},{"auto":[null],"name":"a"}]}} => V8 operation-failed - /ex-net:net/host[1] -|V8 operation-failed - /ex-net:net/host[2] -| ==> remove /ex-net:net/host[name='a'] => E6 => {"ex-net:net":{"host":[{"auto":[null],"name":"a"},{"auto":[null],"name":"a"}]}} => V8 operation-failed - /ex-net:net/host[1] -|V8 operation-failed - /ex-net:net/host[2] -|
{"ex-net:net":{"host":[{"auto":[null],"name":"a"},{"auto":[null],"name":"a"}]}} => V8 operation-failed - /ex-net:net/host[1] -|V8 operation-failed - /ex-net:net/host[2] -| ==> remove /ex-net:net/host[2] => 2 to 0 => {"ex-net:net":{"host":[{"auto":[null],"name":"a"}]}} => none
{"ex-net:net":{"host":[{"auto":[null],"name":"a","uplink":"q"},{"auto":[null],"name":"b"}]}} => V11 data-missing instance-required /ex-net:net/host[1]/uplink -| ==> move /ex-net:net/host[name='a'] 2 => 1 to 1 => {"ex-net:net":{"host":[{"auto":[null],"name":"b"},{"auto":[null],"name":"a","uplink":"q"}]}} => V11 data-missing instance-required /ex-net:net/host[2]/uplink -|
{"ex-net:net":{"host":[{"auto":[null],"name":"a","uplink":"q"},{"auto":[null],"name":"b"}]}} => V11 data-missing instance-required /ex-net:net/host[1]/uplink -| ==> move /ex-net:net/host[1] 3 => E5 => {"ex-net:net":{"host":[{"auto":[null],"name":"a","uplink":"q"},{"auto":[null],"name":"b"}]}} => V11 data-missing instance-required /ex-net:net/host[1]/uplink -|
{"ex-net:net":{"host":[{"auto":[null],"name":"a"},{"auto":[null],"name":"b"},{"name":"c"}]}} => V4 data-missing missing-choice /ex-net:net/host[3] mode| ==> move /ex-net:net/host[3] 1 => 1 to 1 => {"ex-net:net":{"host":[{"name":"c"},{"auto":[null],"name":"a"},{"auto":[null],"name":"b"}]}} => V4 data-missing missing-choice /ex-net:net/host[1] mode|"#;

// Edits of one document after the other.
const LIST: &str = "remove /ex-net:net/host[name='a'] => E6
remove /ex-net:net/host[2] => accepted
remove /ex-net:net/host[name='a'] => accepted";

// The document before each, and after the last.
const STATES: &str =
    r#"{"ex-net:net":{"host":[{"auto":[null],"name":"a"},{"auto":[null],"name":"a"}]}} => V8 operation-failed - /ex-net:net/host[1] -|V8 operation-failed - /ex-net:net/host[2] -|
{"ex-net:net":{"host":[{"auto":[null],"name":"a"},{"auto":[null],"name":"a"}]}} => V8 operation-failed - /ex-net:net/host[1] -|V8 operation-failed - /ex-net:net/host[2] -|
{"ex-net:net":{"host":[{"auto":[null],"name":"a"}]}} => none
{"ex-net:net":{}} => V6 operation-failed too-few-elements /ex-net:net/host -|"#;

// What came of the list: it is done, or ends where it finds no memory, what was accepted stands, and the document is mended.
fn of_run(alloc: Global, live: &mut Live, edits: &[Edit]) -> Option<&'static str> {
    match live.run(edits) {
        Ok(outcomes) => {
            let last = STATES.lines().nth(edits.len())?;
            Some(told_of_edits(are_outcomes(alloc, &outcomes, LIST)? && is_in(alloc, live, last)?))
        }
        Err(
            Stopped {
                code: StopCode::E12,
                done,
            },
        ) => {
            let state = STATES.lines().nth(done)?;
            Some(told_of_mending(is_mended(alloc, live, edits, state)))
        }
        Err(_) => Some("wrong"),
    }
}

fn of_list(alloc: Global) -> Option<&'static str> {
    let (document, _) = STATES.split_once(" => ")?;
    let edits = edits_of(alloc, LIST)?;
    let mut live = live_under(alloc, NETWORK, document)?;
    of_run(alloc, &mut live, &edits)
}

// What came of the first edit or list of edits that wasn't answered as with ample memory; nothing where memory ran out
// elsewhere.
fn of_all(alloc: Global) -> Option<&'static str> {
    let of_leaf = of_rows(alloc, MODULE, REPLACEMENT)?;
    if of_leaf != "ample" {
        return Some(of_leaf);
    }
    let of_entries = of_rows(alloc, NETWORK, EDITS)?;
    if of_entries != "ample" {
        return Some(of_entries);
    }
    of_list(alloc)
}

// Where a request is refused this may fail, and says what came of it.
#[test]
fn stale_documents(rt: HostRuntime) {
    let told = of_all(rt.alloc()).unwrap_or("memory");
    assert!(rt; told == "ample", "{told}");
}

#[test]
fn answer_or_memory(rt: HostRuntime) {
    assert!(rt; is_faulty(rt.alloc(), FAULTY, INVALID) != Some(false));
    assert!(rt; go(rt.alloc(), FAULTY, REPLACEMENTS) != Some(false));
    assert!(rt; go(rt.alloc(), "{}", CREATIONS) != Some(false));
    assert!(rt; runs(rt.alloc()) != Some(false));
    assert!(rt; is_rebuilt(rt.alloc()) != Some(false));
    assert!(rt; are_checked(rt.alloc()) != Some(false));
    assert!(rt; are_entries_checked(rt.alloc()) != Some(false));
    assert!(rt; is_document_refused(rt.alloc()) != Some(false));
    assert!(rt; are_modules_refused(rt.alloc()) != Some(false));
}
