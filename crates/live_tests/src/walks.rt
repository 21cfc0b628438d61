//! Walks over the faults of documents, beside the lists of them.

use crate::telling::assert_right;
use std::alloc::Global;
use test_modules::{DEFAULT_CASE, ENTRIES, MODULE, NETWORK, STATE};
use ycheck::{Fault, Info, LentInfo};
use yinst_path::Edit;
use yinst_tree::{Step, read};
use ylive::Live;
use ylive_list::{Seen, Walk};
use yschema::compile;
use ytext::parse;

fn is_app_tag(seen: Option<&str>, app_tag: &Option<String>) -> bool {
    match (seen, app_tag) {
        (Some(seen), Some(text)) => seen == text.as_str(),
        (None, None) => true,
        _ => false,
    }
}

fn is_info(seen: LentInfo<'_>, info: &Info) -> bool {
    match (seen, info) {
        (LentInfo::None, Info::None) => true,
        (LentInfo::Choice(seen), Info::Choice(name)) => seen == name.as_str(),
        (LentInfo::Unique(seen), Info::Unique(number)) => seen == *number,
        _ => false,
    }
}

fn are_steps(seen: &[Step], steps: &[Step]) -> bool {
    if seen.len() != steps.len() {
        return false;
    }
    for index in 0..seen.len() {
        if seen[index] != steps[index] {
            return false;
        }
    }
    true
}

fn is_fault(seen: &Seen<'_>, fault: &Fault) -> bool {
    seen.code == fault.code
        && seen.tag == fault.tag
        && is_app_tag(seen.app_tag, &fault.app_tag)
        && are_steps(seen.place.steps(), &fault.steps)
        && is_info(seen.info, &fault.info)
}

// Whether a walk gives these faults, whose codes these are, and then ends.
fn gives(walk: &mut Walk<'_>, faults: &[Fault], codes: &str) -> bool {
    let mut codes = codes.split(' ');
    for fault in faults {
        let is_code = match codes.next() {
            Some(code) => code.as_bytes().get(1) != None && is_number(code, fault.code.number()),
            None => false,
        };
        let is_next = match walk.next() {
            Some(seen) => is_fault(&seen, fault),
            None => false,
        };
        if !is_code || !is_next {
            return false;
        }
    }
    walk.next().is_none() && walk.next().is_none()
}

fn is_number(code: &str, number: u8) -> bool {
    match code.split_once('V') {
        Some((_, digits)) => digits.parse::<u8>() == Ok(number),
        None => false,
    }
}

fn goes(live: &Live, codes: &str) -> Option<bool> {
    let faults = live.list().ok()?;
    let is_all = codes.split(' ').count() == faults.len() || codes == "none";
    let mut walk = live.walk()?;
    Some(is_all && gives(&mut walk, &faults, codes))
}

fn live_under(alloc: Global, module: &str, document: &str) -> Option<Live> {
    let mut modules = Vec::new(alloc);
    modules.push(parse(alloc, module.as_bytes()).ok()?).ok()?;
    let schema = compile(alloc, &modules).ok()?;
    match read(alloc, &schema, document.as_bytes()) {
        Ok(tree) => Live::open(alloc, schema, tree).ok(),
        Err(_) => None,
    }
}

// `document => codes`
fn goes_by(alloc: Global, module: &str, row: &str) -> Option<bool> {
    let (document, codes) = row.split_once(" => ")?;
    goes(&live_under(alloc, module, document)?, codes)
}

// `document => edits, with a bar between them => codes`: all edits are done before the walk.
fn goes_after(alloc: Global, module: &str, row: &str) -> Option<bool> {
    let (document, row) = row.split_once(" => ")?;
    let (lines, codes) = row.split_once(" => ")?;
    let mut live = live_under(alloc, module, document)?;
    for line in lines.split('|') {
        let edit = Edit::parse(alloc, line).ok()??;
        live.edit(&edit).ok()?;
    }
    goes(&live, codes)
}

fn first_wrong<'a>(alloc: Global, module: &str, rows: &'a str) -> Option<&'a str> {
    for row in rows.lines() {
        if goes_by(alloc, module, row) != Some(true) {
            return Some(row);
        }
    }
    None
}

fn first_wrong_after<'a>(alloc: Global, module: &str, rows: &'a str) -> Option<&'a str> {
    for row in rows.lines() {
        if goes_after(alloc, module, row) != Some(true) {
            return Some(row);
        }
    }
    None
}

#[test]
fn plain_documents(rt: HostRuntime) {
    let rows = r#"{} => V3
{"p:c":{}} => V3
{"p:c":{"id":7}} => none
{"p:c":{"id":256,"note":"x"}} => V1
{"p:c":{"note":5}} => V3 V1"#;
    assert_right(&rt, first_wrong(rt.alloc(), MODULE, rows));
}

#[test]
fn hosts(rt: HostRuntime) {
    let rows = r#"{} => V6
{"ex-net:net":{"host":[{"auto":[null],"name":"a","uplink":"b"},{"addr":"x","name":"b","use-port":80}]}} => V4
{"ex-net:net":{"host":[{"auto":[null],"name":"a","uplink":"c"},{"addr":"x","name":"b","use-port":81}]}} => V11 V11 V4
{"ex-net:net":{"host":[{"auto":[null],"name":"a","addr":"x","port":7},{"speed":"u","name":"a","addr":"x","port":7},{"speed":1,"name":"b","addr":"y"}]}} => V8 V9 V8 V9 V1
{"ex-net:net":{"host":[{"auto":[null],"port":5000,"speed":1},{"auto":[null],"name":"123456789"},{"auto":[null]},{"auto":[null]}]}} => V7 V2 V1 V5 V1 V2 V2"#;
    assert_right(&rt, first_wrong(rt.alloc(), NETWORK, rows));
}

#[test]
fn choices(rt: HostRuntime) {
    let rows = r#"{} => none
{"k:boost":1,"k:want":3} => V11
{"k:boost":1,"k:rate":2,"k:want":3} => V5 V11"#;
    assert_right(&rt, first_wrong(rt.alloc(), DEFAULT_CASE, rows));
}

#[test]
fn entries_and_items(rt: HostRuntime) {
    let rows =
        r#"{"v:e":[{"id":1,"in":{"x":"p"}},{"id":2,"in":{"x":"p"},"m":[4,5,4]},{"in":{}}]} => V9 V9 V10 V10 V2
{"v:e":[{"id":1,"in":{"x":"p"}},{"id":2,"in":{"x":"p"},"m":[4,5,4]},{"id":2,"in":{}}]} => V9 V8 V9 V10 V10 V8
{"v:e":[{"id":2,"in":{"x":"a"},"m":[1,1,300]},{"id":1}]} => V10 V10 V1"#;
    assert_right(&rt, first_wrong(rt.alloc(), ENTRIES, rows));
    let rows = r#"{"w:c":{"tag":["b","a"]},"w:log":[{},{"at":"1"},{}]} => V3 V3"#;
    assert_right(&rt, first_wrong(rt.alloc(), STATE, rows));
}

#[test]
fn moved_entries_and_items(rt: HostRuntime) {
    let rows =
        r#"{"ex-net:net":{"host":[{"auto":[null],"name":"a","uplink":"c"},{"addr":"x","name":"b","use-port":81}]}} => move /ex-net:net/host[2] 1 => V11 V4 V11
{"ex-net:net":{"host":[{"auto":[null],"name":"a","addr":"x","port":7},{"speed":"u","name":"a","addr":"x","port":7},{"speed":1,"name":"b","addr":"y"}]}} => move /ex-net:net/host[1] 3|move /ex-net:net/host[name='b'] 1 => V8 V9 V1 V8 V9
{"ex-net:net":{"host":[{"auto":[null],"port":5000,"speed":1},{"auto":[null],"name":"123456789"},{"auto":[null]},{"auto":[null]}]}} => move /ex-net:net/host[1] 4 => V7 V1 V2 V2 V2 V1 V5"#;
    assert_right(&rt, first_wrong_after(rt.alloc(), NETWORK, rows));
    let rows =
        r#"{"v:e":[{"id":1,"in":{"x":"p"}},{"id":2,"in":{"x":"p"},"m":[4,5,4]},{"in":{}}]} => move /v:e[3] 2|move /v:e[id='2']/m[1] 2 => V9 V2 V9 V10 V10
{"v:e":[{"id":1,"in":{"x":"p"}},{"id":2,"in":{"x":"p"},"m":[4,5,4]},{"id":2,"in":{}}]} => move /v:e[1] 3 => V8 V9 V10 V10 V8 V9
{"v:e":[{"id":2,"in":{"x":"a"},"m":[1,1,300]},{"id":1}]} => move /v:e[1]/m[3] 1|move /v:e[id='1'] 1 => V1 V10 V10"#;
    assert_right(&rt, first_wrong_after(rt.alloc(), ENTRIES, rows));
    let rows =
        r#"{"w:c":{"tag":["b","a","b"]},"w:log":[{},{"at":"1"},{"at":"x"}]} => move /w:log[3] 1|move /w:c/tag[2] 3 => V10 V10 V1 V3"#;
    assert_right(&rt, first_wrong_after(rt.alloc(), STATE, rows));
}
