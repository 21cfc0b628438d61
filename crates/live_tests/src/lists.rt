//! Live documents under modules with lists and choices: edits one after the other.

use crate::lives::{are_checked_under, first_wrong, runs_under};
use crate::telling::assert_right;
use std::alloc::Global;
use test_modules::{DEFAULT_CASE, ENTRIES, NETWORK, STATE};

/// The first of some histories that doesn't go as it says, or its first row that doesn't. A history is a document and the
/// rows of its edits; lines `==` stand between them.
pub(crate) fn first_wrong_history<'a>(
    alloc: Global,
    module: &str,
    histories: &'a str,
) -> Option<&'a str> {
    for history in histories.split("\n==\n") {
        let wrong = match history.split_once('\n') {
            Some((document, rows)) => first_wrong(alloc, module, document, rows),
            None => Some(history),
        };
        if wrong.is_some() {
            return wrong;
        }
    }
    None
}

#[test]
fn defaults_in_use(rt: HostRuntime) {
    let histories = r#"{"ex-net:net":{"host":[{"name":"a","auto":[null],"use-port":80}]}}
# opened => passed over => {"ex-net:net":{"host":[{"auto":[null],"name":"a","use-port":80}]}} => none
create /ex-net:net/host[1]/port 22 => 0 to 1 => {"ex-net:net":{"host":[{"auto":[null],"name":"a","port":22,"use-port":80}]}} => V11 data-missing instance-required /ex-net:net/host[1]/use-port -|
remove /ex-net:net/host[1]/port => 1 to 0 => {"ex-net:net":{"host":[{"auto":[null],"name":"a","use-port":80}]}} => none"#;
    assert_right(&rt, first_wrong_history(rt.alloc(), NETWORK, histories));
    let histories = r#"{"k:want":3}
# opened => passed over => {"k:want":3} => none
create /k:boost 1 => 0 to 1 => {"k:boost":1,"k:want":3} => V11 data-missing instance-required /k:want -|
remove /k:boost => 1 to 0 => {"k:want":3} => none"#;
    assert_right(
        &rt,
        first_wrong_history(rt.alloc(), DEFAULT_CASE, histories),
    );
}

#[test]
fn references(rt: HostRuntime) {
    let histories =
        r#"{"ex-net:net":{"host":[{"name":"a","auto":[null],"uplink":"b"},{"name":"b","auto":[null]}]}}
# opened => passed over => {"ex-net:net":{"host":[{"auto":[null],"name":"a","uplink":"b"},{"auto":[null],"name":"b"}]}} => none
remove /ex-net:net/host[name='b'] => 0 to 1 => {"ex-net:net":{"host":[{"auto":[null],"name":"a","uplink":"b"}]}} => V11 data-missing instance-required /ex-net:net/host[1]/uplink -|
==
{"ex-net:net":{"host":[{"name":"a","auto":[null],"uplink":"b"},{"name":"b","auto":[null]}]}}
replace /ex-net:net/host[2] {"name":"b","speed":7} => 0 to 0 => {"ex-net:net":{"host":[{"auto":[null],"name":"a","uplink":"b"},{"name":"b","speed":7}]}} => none"#;
    assert_right(&rt, first_wrong_history(rt.alloc(), NETWORK, histories));
}

#[test]
fn positions_and_keys(rt: HostRuntime) {
    let histories =
        r#"{"ex-net:net":{"host":[{"name":"a","auto":[null]},{"name":"b","auto":[null]},{"name":"c"}]}}
# opened => passed over => {"ex-net:net":{"host":[{"auto":[null],"name":"a"},{"auto":[null],"name":"b"},{"name":"c"}]}} => V4 data-missing missing-choice /ex-net:net/host[3] mode|
remove /ex-net:net/host[1] => 1 to 1 => {"ex-net:net":{"host":[{"auto":[null],"name":"b"},{"name":"c"}]}} => V4 data-missing missing-choice /ex-net:net/host[2] mode|
==
{"ex-net:net":{"host":[{"name":"a","auto":[null]},{"name":"a","auto":[null]}]}}
# opened => passed over => {"ex-net:net":{"host":[{"auto":[null],"name":"a"},{"auto":[null],"name":"a"}]}} => V8 operation-failed - /ex-net:net/host[1] -|V8 operation-failed - /ex-net:net/host[2] -|
remove /ex-net:net/host[name='a'] => E6 => {"ex-net:net":{"host":[{"auto":[null],"name":"a"},{"auto":[null],"name":"a"}]}} => V8 operation-failed - /ex-net:net/host[1] -|V8 operation-failed - /ex-net:net/host[2] -|
remove /ex-net:net/host[2] => 2 to 0 => {"ex-net:net":{"host":[{"auto":[null],"name":"a"}]}} => none
==
{"ex-net:net":{"host":[{"name":"a","auto":[null]},{"name":"b","auto":[null]},{"name":"c","auto":[null]},{"name":"d","auto":[null]}]}}
# opened => passed over => {"ex-net:net":{"host":[{"auto":[null],"name":"a"},{"auto":[null],"name":"b"},{"auto":[null],"name":"c"},{"auto":[null],"name":"d"}]}} => V7 operation-failed too-many-elements /ex-net:net/host -|
remove /ex-net:net/host[4] => 1 to 0 => {"ex-net:net":{"host":[{"auto":[null],"name":"a"},{"auto":[null],"name":"b"},{"auto":[null],"name":"c"}]}} => none"#;
    assert_right(&rt, first_wrong_history(rt.alloc(), NETWORK, histories));
}

#[test]
fn edits_of_entries(rt: HostRuntime) {
    let histories = r#"{"ex-net:net":{"host":[{"name":"a","auto":[null]}]}}
# opened => passed over => {"ex-net:net":{"host":[{"auto":[null],"name":"a"}]}} => none
create /ex-net:net/host[1]/name "b" => E8 => {"ex-net:net":{"host":[{"auto":[null],"name":"a"}]}} => none
replace /ex-net:net/host[1]/port 9 => E7 => {"ex-net:net":{"host":[{"auto":[null],"name":"a"}]}} => none
replace /ex-net:net/host[1]/name {} => E10 J5 => {"ex-net:net":{"host":[{"auto":[null],"name":"a"}]}} => none
remove /ex-net:net/host => E3 => {"ex-net:net":{"host":[{"auto":[null],"name":"a"}]}} => none
remove /ex-net:net/host[2] => E5 => {"ex-net:net":{"host":[{"auto":[null],"name":"a"}]}} => none
replace /ex-net:net/host[9]/zz 1 => E2 => {"ex-net:net":{"host":[{"auto":[null],"name":"a"}]}} => none
remove /ex-net:net[1] => E3 => {"ex-net:net":{"host":[{"auto":[null],"name":"a"}]}} => none
create /ex-net:net/host[1] {} => E3 => {"ex-net:net":{"host":[{"auto":[null],"name":"a"}]}} => none
remove /ex-net:net/host[0] => E1 => {"ex-net:net":{"host":[{"auto":[null],"name":"a"}]}} => none
remove /ex-net:net/host[01] => E1 => {"ex-net:net":{"host":[{"auto":[null],"name":"a"}]}} => none
remove /ex-net:net/host[1] => 0 to 1 => {"ex-net:net":{}} => V6 operation-failed too-few-elements /ex-net:net/host -|
==
{"ex-net:net":{"host":[{"name":"a","auto":[null]}]}}
create /ex-net:net/host[name="a"]/addr "q" => 0 to 0 => {"ex-net:net":{"host":[{"addr":"q","auto":[null],"name":"a"}]}} => none
==
{}
# opened => passed over => {} => V6 operation-failed too-few-elements /ex-net:net/host -|
create /ex-net:net/host {"name":"z","auto":[null]} => E4 => {} => V6 operation-failed too-few-elements /ex-net:net/host -|
==
{"ex-net:net": {"host": [{"name":"a","auto":[null]}]}}
# opened => passed over => {"ex-net:net":{"host":[{"auto":[null],"name":"a"}]}} => none"#;
    assert_right(&rt, first_wrong_history(rt.alloc(), NETWORK, histories));
}

#[test]
fn items(rt: HostRuntime) {
    let histories = r#"{}
create /w:c/tag "a" => E4 => {} => none
create /w:c {} => 0 to 0 => {"w:c":{}} => none
create /w:c/tag "a" => 0 to 0 => {"w:c":{"tag":["a"]}} => none
remove /w:c/tag[1] => 0 to 0 => {"w:c":{}} => none"#;
    assert_right(&rt, first_wrong_history(rt.alloc(), STATE, histories));
}

#[test]
fn tuples(rt: HostRuntime) {
    let histories =
        r#"{"v:e":[{"id":1,"in":{"x":"p"}},{"id":2,"in":{"x":"p"},"m":[4,5,4]},{"in":{}}]}
# opened => passed over => {"v:e":[{"id":1,"in":{"x":"p"}},{"id":2,"in":{"x":"p"},"m":[4,5,4]},{"in":{}}]} => V9 operation-failed data-not-unique /v:e[1] 1|V9 operation-failed data-not-unique /v:e[2] 1|V10 operation-failed - /v:e[2]/m[1] -|V10 operation-failed - /v:e[2]/m[3] -|V2 missing-element - /v:e[3]/id -|
replace /v:e[2]/in/x "q" => 5 to 3 => {"v:e":[{"id":1,"in":{"x":"p"}},{"id":2,"in":{"x":"q"},"m":[4,5,4]},{"in":{}}]} => V10 operation-failed - /v:e[2]/m[1] -|V10 operation-failed - /v:e[2]/m[3] -|V2 missing-element - /v:e[3]/id -|
==
{"v:e":[{"id":1,"in":{"x":"p"}},{"id":2,"in":{"x":"p"},"m":[4,5,4]},{"in":{}}]}
remove /v:e[1] => 5 to 3 => {"v:e":[{"id":2,"in":{"x":"p"},"m":[4,5,4]},{"in":{}}]} => V10 operation-failed - /v:e[1]/m[1] -|V10 operation-failed - /v:e[1]/m[3] -|V2 missing-element - /v:e[2]/id -|
==
{"v:e":[{"id":1,"in":{"x":"p"}},{"id":2,"in":{"x":"p"},"m":[4,5,4]},{"in":{}}]}
create /v:e[3]/id 2 => 5 to 6 => {"v:e":[{"id":1,"in":{"x":"p"}},{"id":2,"in":{"x":"p"},"m":[4,5,4]},{"id":2,"in":{}}]} => V9 operation-failed data-not-unique /v:e[1] 1|V8 operation-failed - /v:e[2] -|V9 operation-failed data-not-unique /v:e[2] 1|V10 operation-failed - /v:e[2]/m[1] -|V10 operation-failed - /v:e[2]/m[3] -|V8 operation-failed - /v:e[3] -|"#;
    assert_right(&rt, first_wrong_history(rt.alloc(), ENTRIES, histories));
}

// Identities as keys, values of tuples and targets of references, by either spelling.
const IDENTITIES: &str = "module m {
  yang-version 1.1;
  namespace \"urn:m\";
  prefix m;
  identity r;
  identity a { base r; }
  identity b { base a; }
  list l {
    key k;
    unique x;
    leaf k { type identityref { base r; } }
    leaf x { type identityref { base r; } default m:a; }
  }
  leaf t { type leafref { path /l/k; } }
}
";

#[test]
fn identities(rt: HostRuntime) {
    let histories = r#"{"m:l":[{"k":"a"},{"k":"m:b","x":"m:b"}],"m:t":"m:a"}
# opened => passed over => {"m:l":[{"k":"a"},{"k":"m:b","x":"m:b"}],"m:t":"m:a"} => none
create /m:l[k='m:a']/x "b" => 0 to 2 => {"m:l":[{"k":"a","x":"b"},{"k":"m:b","x":"m:b"}],"m:t":"m:a"} => V9 operation-failed data-not-unique /m:l[1] 1|V9 operation-failed data-not-unique /m:l[2] 1|
replace /m:l[k='m:b']/k "a" => 2 to 4 => {"m:l":[{"k":"a","x":"b"},{"k":"a","x":"m:b"}],"m:t":"m:a"} => V8 operation-failed - /m:l[1] -|V9 operation-failed data-not-unique /m:l[1] 1|V8 operation-failed - /m:l[2] -|V9 operation-failed data-not-unique /m:l[2] 1|
remove /m:l[k='m:r'] => E7 => {"m:l":[{"k":"a","x":"b"},{"k":"a","x":"m:b"}],"m:t":"m:a"} => V8 operation-failed - /m:l[1] -|V9 operation-failed data-not-unique /m:l[1] 1|V8 operation-failed - /m:l[2] -|V9 operation-failed data-not-unique /m:l[2] 1|
remove /m:l[1] => 4 to 0 => {"m:l":[{"k":"a","x":"m:b"}],"m:t":"m:a"} => none
replace /m:t "r" => 0 to 1 => {"m:l":[{"k":"a","x":"m:b"}],"m:t":"r"} => V1 invalid-value - /m:t -|
replace /m:t "b" => 1 to 1 => {"m:l":[{"k":"a","x":"m:b"}],"m:t":"b"} => V11 data-missing instance-required /m:t -|
create /m:l {"k":"m:b"} => 1 to 0 => {"m:l":[{"k":"a","x":"m:b"},{"k":"m:b"}],"m:t":"b"} => none"#;
    assert_right(&rt, first_wrong_history(rt.alloc(), IDENTITIES, histories));
}

// No entry stands at a position of a list without any.
#[test]
fn absent_lists(rt: HostRuntime) {
    let histories = r#"{}
remove /v:e[1] => E5 => {} => none
create /v:e[1]/id 1 => E5 => {} => none
replace /v:e[1]/m[1] 1 => E5 => {} => none"#;
    assert_right(&rt, first_wrong_history(rt.alloc(), ENTRIES, histories));
}

// Whether edits of two entries of one key are decided so, and leave one of them.
fn removes_one(alloc: Global) -> Option<bool> {
    let rows = "remove /ex-net:net/host[name='a'] => E6
remove /ex-net:net/host[2] => accepted";
    let document =
        r#"{"ex-net:net":{"host":[{"name":"a","auto":[null]},{"name":"a","auto":[null]}]}}"#;
    let text = r#"{"ex-net:net":{"host":[{"auto":[null],"name":"a"}]}}"#;
    runs_under(alloc, NETWORK, document, rows, text)
}

// Whether a list of one edit is decided so, and leaves no faults.
fn removes_itself(alloc: Global) -> Option<bool> {
    let document = r#"{"ex-net:net":{"host":[{"name":"a","auto":[null]},{"name":"b"}]}}"#;
    let text = r#"{"ex-net:net":{"host":[{"auto":[null],"name":"a"}]}}"#;
    runs_under(
        alloc,
        NETWORK,
        document,
        "remove /ex-net:net/host[2] => accepted",
        text,
    )
}

/// Whether a list of edits of entries is checked from the module and the document on.
pub(crate) fn are_entries_checked(alloc: Global) -> Option<bool> {
    let rows = "remove /ex-net:net/host[name='a'] => E6
remove /ex-net:net/host[2] => accepted";
    let document =
        r#"{"ex-net:net":{"host":[{"name":"a","auto":[null]},{"name":"a","auto":[null]}]}}"#;
    are_checked_under(alloc, NETWORK, document, rows)
}

#[test]
fn lists_of_edits(rt: HostRuntime) {
    assert!(rt; removes_one(rt.alloc()) == Some(true));
    assert!(rt; removes_itself(rt.alloc()) == Some(true));
    assert!(rt; are_entries_checked(rt.alloc()) == Some(true));
}
