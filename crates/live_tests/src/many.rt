//! An edit of one entry beside 2,000 others, and what is asked of that document without taking memory. `tools/refuse-memory`
//! counts their requests for memory, which are those of one test that another doesn't make.

use crate::building::live_under;
use crate::lives::edits_of;
use std::alloc::{AllocError, Global};
use test_modules::NETWORK;
use ylive::Live;

// Two hosts of which the first refers to the second, and 2,000 more that have a name alone.
fn document(alloc: Global) -> Result<String, AllocError> {
    let hosts =
        r#"{"ex-net:net":{"host":[{"name":"a","auto":[null],"uplink":"b"},{"name":"b","auto":[null]}"#;
    let mut text = String::from_str(alloc, hosts)?;
    for number in 1..2001 {
        text.push_str(r#",{"name":"#)?;
        text.push_str(format!(in alloc; "\"h{}\"", number)?.as_str())?;
        text.push_str("}")?;
    }
    text.push_str("]}}")?;
    Ok(text)
}

// The document after edits, all of which are accepted.
fn live_after(alloc: Global, rows: &str) -> Option<Live> {
    let text = document(alloc).ok()?;
    let mut live = live_under(alloc, NETWORK, text.as_str())?;
    let edits = edits_of(alloc, rows)?;
    for edit in &edits {
        live.edit(edit).ok()?;
    }
    Some(live)
}

// How many faults there are after edits.
fn faults_after(alloc: Global, rows: &str) -> Option<usize> {
    live_after(alloc, rows)?.fault_count()
}

// Whether a walk gives so many faults, and then ends.
fn is_walked(live: &Live, faults: usize) -> Option<bool> {
    let mut walk = live.walk()?;
    for _ in 0..faults {
        walk.next()?;
    }
    Some(walk.next().is_none())
}

// Whether a document that isn't stale tells so much of itself, and needs no rebuilding.
fn tells(live: &mut Live, faults: usize) -> bool {
    let is_counted = !live.is_stale() && live.fault_count() == Some(faults);
    let is_asked = live.schema().nodes() == 12 && live.schema().module("ex-net") == Some(0);
    is_counted && is_asked && live.rebuild().is_ok() && is_walked(live, faults) == Some(true)
}

// There are too many hosts, and those of a name alone lack a choice.
#[test]
fn opened(rt: HostRuntime) {
    assert!(rt; faults_after(rt.alloc(), "") == Some(2001));
}

// The reference to the host that goes is left without one.
#[test]
fn edited(rt: HostRuntime) {
    let row = "remove /ex-net:net/host[name='b'] => 2001 to 2002";
    assert!(rt; faults_after(rt.alloc(), row) == Some(2002));
}

// All that is asked here takes no memory.
#[test]
fn asked(rt: HostRuntime) {
    let is_told = match live_after(rt.alloc(), "") {
        Some(mut live) => tells(&mut live, 2001),
        None => false,
    };
    assert!(rt; is_told);
}
