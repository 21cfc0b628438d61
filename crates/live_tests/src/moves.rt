//! Live documents in which entries and items are moved, beside what is told of the documents that come of it.

use crate::building::live_under;
use crate::lists::first_wrong_history;
use crate::lives::{is_answer, stands};
use crate::telling::{assert_right, number_of};
use std::alloc::Global;
use test_modules::{DEFAULT_CASE, ENTRIES, NETWORK, STATE};
use yinst::{Edit, NamedStep, Path, Predicate};

// Whether a document that is opened anew has the lines that it has in a row `line => what comes of it => text => lines`.
fn is_opened(alloc: Global, module: &str, row: &str) -> Option<bool> {
    let (_, row) = row.split_once(" => ")?;
    let (_, row) = row.split_once(" => ")?;
    let (text, lines) = row.split_once(" => ")?;
    let live = live_under(alloc, module, text)?;
    stands(alloc, &live, text, lines)
}

// The first row that doesn't go as it says, or after which the document isn't what it is once it is opened anew.
fn first_wrong<'a>(alloc: Global, module: &str, histories: &'a str) -> Option<&'a str> {
    for row in histories.lines() {
        if row.contains(" => ") && is_opened(alloc, module, row) != Some(true) {
            return Some(row);
        }
    }
    first_wrong_history(alloc, module, histories)
}

#[test]
fn entries(rt: HostRuntime) {
    let histories =
        r#"{"ex-net:net":{"host":[{"name":"a","auto":[null]},{"name":"b","auto":[null]},{"name":"c"}]}}
# opened => passed over => {"ex-net:net":{"host":[{"auto":[null],"name":"a"},{"auto":[null],"name":"b"},{"name":"c"}]}} => V4 data-missing missing-choice /ex-net:net/host[3] mode|
move /ex-net:net/host[3] 1 => 1 to 1 => {"ex-net:net":{"host":[{"name":"c"},{"auto":[null],"name":"a"},{"auto":[null],"name":"b"}]}} => V4 data-missing missing-choice /ex-net:net/host[1] mode|
move /ex-net:net/host[name='c'] 2 => 1 to 1 => {"ex-net:net":{"host":[{"auto":[null],"name":"a"},{"name":"c"},{"auto":[null],"name":"b"}]}} => V4 data-missing missing-choice /ex-net:net/host[2] mode|
move /ex-net:net/host[1] 3 => 1 to 1 => {"ex-net:net":{"host":[{"name":"c"},{"auto":[null],"name":"b"},{"auto":[null],"name":"a"}]}} => V4 data-missing missing-choice /ex-net:net/host[1] mode|
move /ex-net:net/host[2] 2 => 1 to 1 => {"ex-net:net":{"host":[{"name":"c"},{"auto":[null],"name":"b"},{"auto":[null],"name":"a"}]}} => V4 data-missing missing-choice /ex-net:net/host[1] mode|
move /ex-net:net/host[1] 2 => 1 to 1 => {"ex-net:net":{"host":[{"auto":[null],"name":"b"},{"name":"c"},{"auto":[null],"name":"a"}]}} => V4 data-missing missing-choice /ex-net:net/host[2] mode|
create /ex-net:net/host[2]/auto [null] => 1 to 0 => {"ex-net:net":{"host":[{"auto":[null],"name":"b"},{"auto":[null],"name":"c"},{"auto":[null],"name":"a"}]}} => none
==
{"ex-net:net":{"host":[{"name":"a","auto":[null]},{"name":"b","auto":[null]},{"name":"a","auto":[null]}]}}
# opened => passed over => {"ex-net:net":{"host":[{"auto":[null],"name":"a"},{"auto":[null],"name":"b"},{"auto":[null],"name":"a"}]}} => V8 operation-failed - /ex-net:net/host[1] -|V8 operation-failed - /ex-net:net/host[3] -|
move /ex-net:net/host[name='b'] 1 => 2 to 2 => {"ex-net:net":{"host":[{"auto":[null],"name":"b"},{"auto":[null],"name":"a"},{"auto":[null],"name":"a"}]}} => V8 operation-failed - /ex-net:net/host[2] -|V8 operation-failed - /ex-net:net/host[3] -|
move /ex-net:net/host[name='a'] 1 => E6 => {"ex-net:net":{"host":[{"auto":[null],"name":"b"},{"auto":[null],"name":"a"},{"auto":[null],"name":"a"}]}} => V8 operation-failed - /ex-net:net/host[2] -|V8 operation-failed - /ex-net:net/host[3] -|
move /ex-net:net/host[3] 1 => 2 to 2 => {"ex-net:net":{"host":[{"auto":[null],"name":"a"},{"auto":[null],"name":"b"},{"auto":[null],"name":"a"}]}} => V8 operation-failed - /ex-net:net/host[1] -|V8 operation-failed - /ex-net:net/host[3] -|
remove /ex-net:net/host[1] => 2 to 0 => {"ex-net:net":{"host":[{"auto":[null],"name":"b"},{"auto":[null],"name":"a"}]}} => none
==
{"ex-net:net":{"host":[{"name":"a","auto":[null],"uplink":"q"},{"name":"b","auto":[null],"uplink":"a"}]}}
# opened => passed over => {"ex-net:net":{"host":[{"auto":[null],"name":"a","uplink":"q"},{"auto":[null],"name":"b","uplink":"a"}]}} => V11 data-missing instance-required /ex-net:net/host[1]/uplink -|
move /ex-net:net/host[1] 2 => 1 to 1 => {"ex-net:net":{"host":[{"auto":[null],"name":"b","uplink":"a"},{"auto":[null],"name":"a","uplink":"q"}]}} => V11 data-missing instance-required /ex-net:net/host[2]/uplink -|
replace /ex-net:net/host[2]/name "q" => 1 to 1 => {"ex-net:net":{"host":[{"auto":[null],"name":"b","uplink":"a"},{"auto":[null],"name":"q","uplink":"q"}]}} => V11 data-missing instance-required /ex-net:net/host[1]/uplink -|"#;
    assert_right(&rt, first_wrong(rt.alloc(), NETWORK, histories));
}

#[test]
fn items(rt: HostRuntime) {
    let histories =
        r#"{"v:e":[{"id":1,"in":{"x":"p"}},{"id":3,"in":{"x":"q"}},{"id":2,"in":{"x":"p"},"m":[4,5,4]}]}
# opened => passed over => {"v:e":[{"id":1,"in":{"x":"p"}},{"id":3,"in":{"x":"q"}},{"id":2,"in":{"x":"p"},"m":[4,5,4]}]} => V9 operation-failed data-not-unique /v:e[1] 1|V9 operation-failed data-not-unique /v:e[3] 1|V10 operation-failed - /v:e[3]/m[1] -|V10 operation-failed - /v:e[3]/m[3] -|
move /v:e[3] 1 => 4 to 4 => {"v:e":[{"id":2,"in":{"x":"p"},"m":[4,5,4]},{"id":1,"in":{"x":"p"}},{"id":3,"in":{"x":"q"}}]} => V9 operation-failed data-not-unique /v:e[1] 1|V10 operation-failed - /v:e[1]/m[1] -|V10 operation-failed - /v:e[1]/m[3] -|V9 operation-failed data-not-unique /v:e[2] 1|
move /v:e[1]/m[3] 1 => 4 to 4 => {"v:e":[{"id":2,"in":{"x":"p"},"m":[4,4,5]},{"id":1,"in":{"x":"p"}},{"id":3,"in":{"x":"q"}}]} => V9 operation-failed data-not-unique /v:e[1] 1|V10 operation-failed - /v:e[1]/m[1] -|V10 operation-failed - /v:e[1]/m[2] -|V9 operation-failed data-not-unique /v:e[2] 1|
move /v:e[id='2']/m[3] 2 => 4 to 4 => {"v:e":[{"id":2,"in":{"x":"p"},"m":[4,5,4]},{"id":1,"in":{"x":"p"}},{"id":3,"in":{"x":"q"}}]} => V9 operation-failed data-not-unique /v:e[1] 1|V10 operation-failed - /v:e[1]/m[1] -|V10 operation-failed - /v:e[1]/m[3] -|V9 operation-failed data-not-unique /v:e[2] 1|
move /v:e[1]/m[1] 3 => 4 to 4 => {"v:e":[{"id":2,"in":{"x":"p"},"m":[5,4,4]},{"id":1,"in":{"x":"p"}},{"id":3,"in":{"x":"q"}}]} => V9 operation-failed data-not-unique /v:e[1] 1|V10 operation-failed - /v:e[1]/m[2] -|V10 operation-failed - /v:e[1]/m[3] -|V9 operation-failed data-not-unique /v:e[2] 1|
move /v:e[1]/m[1] 4 => E5 => {"v:e":[{"id":2,"in":{"x":"p"},"m":[5,4,4]},{"id":1,"in":{"x":"p"}},{"id":3,"in":{"x":"q"}}]} => V9 operation-failed data-not-unique /v:e[1] 1|V10 operation-failed - /v:e[1]/m[2] -|V10 operation-failed - /v:e[1]/m[3] -|V9 operation-failed data-not-unique /v:e[2] 1|
remove /v:e[1]/m[3] => 4 to 2 => {"v:e":[{"id":2,"in":{"x":"p"},"m":[5,4]},{"id":1,"in":{"x":"p"}},{"id":3,"in":{"x":"q"}}]} => V9 operation-failed data-not-unique /v:e[1] 1|V9 operation-failed data-not-unique /v:e[2] 1|"#;
    assert_right(&rt, first_wrong(rt.alloc(), ENTRIES, histories));
    let histories = r#"{"w:c":{"tag":["b","a"]},"w:log":[{},{"at":"1"},{}]}
# opened => passed over => {"w:c":{"tag":["b","a"]},"w:log":[{},{"at":"1"},{}]} => V3 data-missing - /w:log[1]/at -|V3 data-missing - /w:log[3]/at -|
move /w:log[2] 1 => 2 to 2 => {"w:c":{"tag":["b","a"]},"w:log":[{"at":"1"},{},{}]} => V3 data-missing - /w:log[2]/at -|V3 data-missing - /w:log[3]/at -|
move /w:log[1] 3 => 2 to 2 => {"w:c":{"tag":["b","a"]},"w:log":[{},{},{"at":"1"}]} => V3 data-missing - /w:log[1]/at -|V3 data-missing - /w:log[2]/at -|
move /w:c/tag[2] 1 => 2 to 2 => {"w:c":{"tag":["a","b"]},"w:log":[{},{},{"at":"1"}]} => V3 data-missing - /w:log[1]/at -|V3 data-missing - /w:log[2]/at -|
move /w:c/tag[1] 3 => E5 => {"w:c":{"tag":["a","b"]},"w:log":[{},{},{"at":"1"}]} => V3 data-missing - /w:log[1]/at -|V3 data-missing - /w:log[2]/at -|"#;
    assert_right(&rt, first_wrong(rt.alloc(), STATE, histories));
}

#[test]
fn refusals(rt: HostRuntime) {
    let histories = r#"{"v:e":[{"id":1,"in":{"x":"p"}},{"id":2,"m":[4]}]}
move /v:e[2] => E1 => {"v:e":[{"id":1,"in":{"x":"p"}},{"id":2,"m":[4]}]} => none
move /v:e[2] 0 => E1 => {"v:e":[{"id":1,"in":{"x":"p"}},{"id":2,"m":[4]}]} => none
move /v:e[2] 01 => E1 => {"v:e":[{"id":1,"in":{"x":"p"}},{"id":2,"m":[4]}]} => none
move /v:e[2] 1 2 => E1 => {"v:e":[{"id":1,"in":{"x":"p"}},{"id":2,"m":[4]}]} => none
move /v:e[2] x => E1 => {"v:e":[{"id":1,"in":{"x":"p"}},{"id":2,"m":[4]}]} => none
move /v:zz 1 => E2 => {"v:e":[{"id":1,"in":{"x":"p"}},{"id":2,"m":[4]}]} => none
move /v:e 1 => E3 => {"v:e":[{"id":1,"in":{"x":"p"}},{"id":2,"m":[4]}]} => none
move /v:e[1]/in 1 => E3 => {"v:e":[{"id":1,"in":{"x":"p"}},{"id":2,"m":[4]}]} => none
move /v:e[9]/id 1 => E3 => {"v:e":[{"id":1,"in":{"x":"p"}},{"id":2,"m":[4]}]} => none
move /v:e[9]/m[1] 1 => E5 => {"v:e":[{"id":1,"in":{"x":"p"}},{"id":2,"m":[4]}]} => none
move /v:e[id='9']/m[1] 1 => E4 => {"v:e":[{"id":1,"in":{"x":"p"}},{"id":2,"m":[4]}]} => none
move /v:e[3] 1 => E5 => {"v:e":[{"id":1,"in":{"x":"p"}},{"id":2,"m":[4]}]} => none
move /v:e[2] 3 => E5 => {"v:e":[{"id":1,"in":{"x":"p"}},{"id":2,"m":[4]}]} => none
move /v:e[2] 4294967295 => E5 => {"v:e":[{"id":1,"in":{"x":"p"}},{"id":2,"m":[4]}]} => none
move /v:e[2] 99999999999 => E5 => {"v:e":[{"id":1,"in":{"x":"p"}},{"id":2,"m":[4]}]} => none
move /v:e[id='9'] 1 => E7 => {"v:e":[{"id":1,"in":{"x":"p"}},{"id":2,"m":[4]}]} => none
move /v:e[id='9'] 3 => E7 => {"v:e":[{"id":1,"in":{"x":"p"}},{"id":2,"m":[4]}]} => none
move /v:e[1]/m[1] 1 => E5 => {"v:e":[{"id":1,"in":{"x":"p"}},{"id":2,"m":[4]}]} => none
move /v:e[2]/m[1] 2 => E5 => {"v:e":[{"id":1,"in":{"x":"p"}},{"id":2,"m":[4]}]} => none
==
{}
move /v:e[1] 1 => E5 => {} => none
move /v:e[id='1'] 1 => E7 => {} => none"#;
    assert_right(&rt, first_wrong(rt.alloc(), ENTRIES, histories));
    let histories = r#"{"k:boost":1}
move /k:boost 1 => E3 => {"k:boost":1} => none
move /k:rate 1 => E3 => {"k:boost":1} => none"#;
    assert_right(&rt, first_wrong(rt.alloc(), DEFAULT_CASE, histories));
}

// An edit that moves what a path of one step leads to, which bears a position.
fn moving(alloc: Global, name: &str, from: u32, position: u32) -> Option<Edit> {
    let mut steps = Vec::new(alloc);
    let name = String::from_str(alloc, name).ok()?;
    let predicate = Predicate::Position(from);
    steps.push(NamedStep { name, predicate }).ok()?;
    let path = Path { steps };
    Some(Edit::Move { path, position })
}

// Whether it is refused so in a document with one entry.
fn is_refused(alloc: Global, edit: &Edit, told: &str) -> Option<bool> {
    let mut live = live_under(alloc, ENTRIES, r#"{"v:e":[{"id":1}]}"#)?;
    is_answer(alloc, live.edit(edit), told)
}

// `name from position => what comes of it`
fn goes(alloc: Global, row: &str) -> Option<bool> {
    let (name, row) = row.split_once(' ')?;
    let (from, row) = row.split_once(' ')?;
    let (position, told) = row.split_once(" => ")?;
    let edit = moving(alloc, name, number_of(from)?, number_of(position)?)?;
    is_refused(alloc, &edit, told)
}

// The position 0 is looked at before any name.
#[test]
fn positions_that_no_text_spells(rt: HostRuntime) {
    let rows = "v:e 1 0 => E1
v:zz 1 0 => E1
v:e 0 1 => E1
v:zz 1 1 => E2
v:e 1 2 => E5
v:e 1 1 => 0 to 0";
    for row in rows.lines() {
        assert!(rt; goes(rt.alloc(), row) == Some(true));
    }
}

// Rows of several lists, and lists within entries.
const SEVERAL: &str = "module r {
  yang-version 1.1;
  namespace \"urn:r\";
  prefix r;
  list a {
    key k;
    leaf k { type uint8; }
    list b {
      key \"x y\";
      leaf x { type uint8; }
      leaf y { type uint8; }
    }
    leaf-list c { type uint8; }
    leaf to { type leafref { path /a/k; } }
  }
  leaf-list d { type string; }
  list e { key k; leaf k { type string; } }
}
";

#[test]
fn several_lists(rt: HostRuntime) {
    let histories =
        r#"{"r:a":[{"k":1,"b":[{"x":1,"y":1},{"x":1,"y":2},{"x":2,"y":1}],"c":[7,8,9],"to":3},{"k":2,"c":[5]}],"r:d":["p","q","r"],"r:e":[{"k":"s"},{"k":"t"}]}
# opened => passed over => {"r:a":[{"b":[{"x":1,"y":1},{"x":1,"y":2},{"x":2,"y":1}],"c":[7,8,9],"k":1,"to":3},{"c":[5],"k":2}],"r:d":["p","q","r"],"r:e":[{"k":"s"},{"k":"t"}]} => V11 data-missing instance-required /r:a[1]/to -|
move /r:d[1] 3 => 1 to 1 => {"r:a":[{"b":[{"x":1,"y":1},{"x":1,"y":2},{"x":2,"y":1}],"c":[7,8,9],"k":1,"to":3},{"c":[5],"k":2}],"r:d":["q","r","p"],"r:e":[{"k":"s"},{"k":"t"}]} => V11 data-missing instance-required /r:a[1]/to -|
move /r:e[k='t'] 1 => 1 to 1 => {"r:a":[{"b":[{"x":1,"y":1},{"x":1,"y":2},{"x":2,"y":1}],"c":[7,8,9],"k":1,"to":3},{"c":[5],"k":2}],"r:d":["q","r","p"],"r:e":[{"k":"t"},{"k":"s"}]} => V11 data-missing instance-required /r:a[1]/to -|
move /r:a[k='1']/b[x='1'][y='2'] 3 => 1 to 1 => {"r:a":[{"b":[{"x":1,"y":1},{"x":2,"y":1},{"x":1,"y":2}],"c":[7,8,9],"k":1,"to":3},{"c":[5],"k":2}],"r:d":["q","r","p"],"r:e":[{"k":"t"},{"k":"s"}]} => V11 data-missing instance-required /r:a[1]/to -|
move /r:a[1]/b[3] 1 => 1 to 1 => {"r:a":[{"b":[{"x":1,"y":2},{"x":1,"y":1},{"x":2,"y":1}],"c":[7,8,9],"k":1,"to":3},{"c":[5],"k":2}],"r:d":["q","r","p"],"r:e":[{"k":"t"},{"k":"s"}]} => V11 data-missing instance-required /r:a[1]/to -|
move /r:a[1]/c[3] 2 => 1 to 1 => {"r:a":[{"b":[{"x":1,"y":2},{"x":1,"y":1},{"x":2,"y":1}],"c":[7,9,8],"k":1,"to":3},{"c":[5],"k":2}],"r:d":["q","r","p"],"r:e":[{"k":"t"},{"k":"s"}]} => V11 data-missing instance-required /r:a[1]/to -|
move /r:a[k='1'] 2 => 1 to 1 => {"r:a":[{"c":[5],"k":2},{"b":[{"x":1,"y":2},{"x":1,"y":1},{"x":2,"y":1}],"c":[7,9,8],"k":1,"to":3}],"r:d":["q","r","p"],"r:e":[{"k":"t"},{"k":"s"}]} => V11 data-missing instance-required /r:a[2]/to -|
create /r:a {"k":3} => 1 to 0 => {"r:a":[{"c":[5],"k":2},{"b":[{"x":1,"y":2},{"x":1,"y":1},{"x":2,"y":1}],"c":[7,9,8],"k":1,"to":3},{"k":3}],"r:d":["q","r","p"],"r:e":[{"k":"t"},{"k":"s"}]} => none
move /r:a[k='3'] 1 => 0 to 0 => {"r:a":[{"k":3},{"c":[5],"k":2},{"b":[{"x":1,"y":2},{"x":1,"y":1},{"x":2,"y":1}],"c":[7,9,8],"k":1,"to":3}],"r:d":["q","r","p"],"r:e":[{"k":"t"},{"k":"s"}]} => none
move /r:a[3]/b[y='1'][x='2'] 2 => 0 to 0 => {"r:a":[{"k":3},{"c":[5],"k":2},{"b":[{"x":1,"y":2},{"x":2,"y":1},{"x":1,"y":1}],"c":[7,9,8],"k":1,"to":3}],"r:d":["q","r","p"],"r:e":[{"k":"t"},{"k":"s"}]} => none
move /r:a[3]/b[x='2'][y='2'] 1 => E7 => {"r:a":[{"k":3},{"c":[5],"k":2},{"b":[{"x":1,"y":2},{"x":2,"y":1},{"x":1,"y":1}],"c":[7,9,8],"k":1,"to":3}],"r:d":["q","r","p"],"r:e":[{"k":"t"},{"k":"s"}]} => none
remove /r:a[1] => 0 to 1 => {"r:a":[{"c":[5],"k":2},{"b":[{"x":1,"y":2},{"x":2,"y":1},{"x":1,"y":1}],"c":[7,9,8],"k":1,"to":3}],"r:d":["q","r","p"],"r:e":[{"k":"t"},{"k":"s"}]} => V11 data-missing instance-required /r:a[2]/to -|
move /r:d[3] 1 => 1 to 1 => {"r:a":[{"c":[5],"k":2},{"b":[{"x":1,"y":2},{"x":2,"y":1},{"x":1,"y":1}],"c":[7,9,8],"k":1,"to":3}],"r:d":["p","q","r"],"r:e":[{"k":"t"},{"k":"s"}]} => V11 data-missing instance-required /r:a[2]/to -|
move /r:a[2]/c[1] 4 => E5 => {"r:a":[{"c":[5],"k":2},{"b":[{"x":1,"y":2},{"x":2,"y":1},{"x":1,"y":1}],"c":[7,9,8],"k":1,"to":3}],"r:d":["p","q","r"],"r:e":[{"k":"t"},{"k":"s"}]} => V11 data-missing instance-required /r:a[2]/to -|"#;
    assert_right(&rt, first_wrong(rt.alloc(), SEVERAL, histories));
}

#[test]
fn entries_with_faults_of_all_kinds(rt: HostRuntime) {
    let histories =
        r#"{"ex-net:net":{"host":[{"name":"a","auto":[null]},{"name":"b","auto":[null],"uplink":"z","use-port":7},{"name":"c","addr":"x","port":7,"auto":[null]},{"name":"d","addr":"x","port":7}]}}
# opened => passed over => {"ex-net:net":{"host":[{"auto":[null],"name":"a"},{"auto":[null],"name":"b","uplink":"z","use-port":7},{"addr":"x","auto":[null],"name":"c","port":7},{"addr":"x","name":"d","port":7}]}} => V7 operation-failed too-many-elements /ex-net:net/host -|V11 data-missing instance-required /ex-net:net/host[2]/uplink -|V9 operation-failed data-not-unique /ex-net:net/host[3] 1|V9 operation-failed data-not-unique /ex-net:net/host[4] 1|V4 data-missing missing-choice /ex-net:net/host[4] mode|
move /ex-net:net/host[2] 4 => 5 to 5 => {"ex-net:net":{"host":[{"auto":[null],"name":"a"},{"addr":"x","auto":[null],"name":"c","port":7},{"addr":"x","name":"d","port":7},{"auto":[null],"name":"b","uplink":"z","use-port":7}]}} => V7 operation-failed too-many-elements /ex-net:net/host -|V9 operation-failed data-not-unique /ex-net:net/host[2] 1|V9 operation-failed data-not-unique /ex-net:net/host[3] 1|V4 data-missing missing-choice /ex-net:net/host[3] mode|V11 data-missing instance-required /ex-net:net/host[4]/uplink -|
move /ex-net:net/host[name='d'] 1 => 5 to 5 => {"ex-net:net":{"host":[{"addr":"x","name":"d","port":7},{"auto":[null],"name":"a"},{"addr":"x","auto":[null],"name":"c","port":7},{"auto":[null],"name":"b","uplink":"z","use-port":7}]}} => V7 operation-failed too-many-elements /ex-net:net/host -|V9 operation-failed data-not-unique /ex-net:net/host[1] 1|V4 data-missing missing-choice /ex-net:net/host[1] mode|V9 operation-failed data-not-unique /ex-net:net/host[3] 1|V11 data-missing instance-required /ex-net:net/host[4]/uplink -|
remove /ex-net:net/host[3] => 5 to 2 => {"ex-net:net":{"host":[{"addr":"x","name":"d","port":7},{"auto":[null],"name":"a"},{"auto":[null],"name":"b","uplink":"z","use-port":7}]}} => V4 data-missing missing-choice /ex-net:net/host[1] mode|V11 data-missing instance-required /ex-net:net/host[3]/uplink -|"#;
    assert_right(&rt, first_wrong(rt.alloc(), NETWORK, histories));
}
