//! Modules of every kind of node: what is printed of documents under them, and which are refused. Rows are parted by
//! lines `==`.

use crate::rows::{all_hold, all_parts_hold, assert_right};
use crate::telling::{is_refused_pair, is_told};
use std::alloc::{AllocError, Global};

/// Hosts with a key, a `unique`, amounts, a default, references and a choice.
pub const NETWORK: &str = "module ex-net {
  yang-version 1.1;
  namespace \"urn:ex-net\";
  prefix n;
  container net {
    list host {
      key name; unique \"addr port\"; min-elements 1; max-elements 3;
      leaf name { type string { length 1..8; } }
      leaf addr { type string; }
      leaf port {
        type uint16 { range \"1..1024 | 8080\" { error-app-tag bad-port; } }
        default 80;
      }
      leaf uplink { type leafref { path /n:net/n:host/n:name; } }
      leaf use-port { type leafref { path /n:net/n:host/n:port; } }
      choice mode {
        mandatory true;
        case auto { leaf auto { type empty; } }
        case fixed { leaf speed { type uint32; } }
      }
    }
  }
}
";

/// A choice with a default case, to whose leaf another one refers.
pub const DEFAULT_CASE: &str = "module k {
  yang-version 1.1;
  namespace \"urn:k\";
  prefix k;
  choice how {
    default slow;
    case slow { leaf rate { type uint8; default 3; } }
    case fast { leaf boost { type uint8; } }
  }
  leaf want { type leafref { path /k:rate; } }
}
";

/// Entries with a `unique` through a container, and items.
const ENTRIES: &str = "module v {
  yang-version 1.1;
  namespace \"urn:v\";
  prefix v;
  list e {
    key id; unique \"in/x\";
    leaf id { type uint8; }
    container in { leaf x { type string; } }
    leaf-list m { type uint8; }
  }
}
";

/// Items of a union.
const UNION: &str = "module y {
  yang-version 1.1;
  namespace \"urn:y\";
  prefix y;
  leaf-list z { type union { type uint8; type string; } }
}
";

/// A container with presence, and a list of state without keys.
const STATE: &str = "module w {
  yang-version 1.1;
  namespace \"urn:w\";
  prefix w;
  container c { presence on; leaf-list tag { type string; } leaf up { status deprecated; config false; type boolean; } }
  list log { config false; leaf at { type uint64; mandatory true; } }
}
";

/// A typedef that restricts another, and a number of 18 digits behind the point.
const FRACTION: &str = "module t {
  yang-version 1.1;
  namespace \"urn:t\";
  prefix t;
  typedef a { type int32 { range 1..10; } }
  typedef b { type a { range 1..10; } }
  leaf d { type decimal64 { fraction-digits 18; } }
}
";

/// The first document of rows that doesn't print so under a module. A row is the document, the status and the output.
fn first_wrong<'a>(alloc: Global, module: &str, rows: &'a str) -> Option<&'a str> {
    for row in rows.split("==\n") {
        if is_told(alloc, module, row) != Some(true) {
            return Some(row);
        }
    }
    None
}

#[test]
fn lists_and_choices(rt: HostRuntime) {
    let rows = r#"{}
1
V6 operation-failed too-few-elements /ex-net:net/host -
1 faults
==
{"ex-net:net":{"host":[{"name":"a","auto":[null]}]}}
0
0 faults
==
{"ex-net:net":{"host":[{"name":"a","auto":[null],"speed":5}]}}
1
V5 bad-element - /ex-net:net/host[1] mode
1 faults
==
{"ex-net:net":{"host":[{"name":"a"}]}}
1
V4 data-missing missing-choice /ex-net:net/host[1] mode
1 faults
==
{"ex-net:net":{"host":[{"name":"a","auto":[null]},{"name":"b","auto":[null]},{"name":"c"}]}}
1
V4 data-missing missing-choice /ex-net:net/host[3] mode
1 faults
==
{"ex-net:net":{"host":[{"name":"a","auto":[null]},{"name":"a","auto":[null]}]}}
1
V8 operation-failed - /ex-net:net/host[1] -
V8 operation-failed - /ex-net:net/host[2] -
2 faults
==
{"ex-net:net":{"host":[{"name":"a","auto":[null]},{"name":"b","auto":[null]},{"name":"c","auto":[null]},{"name":"d","auto":[null]}]}}
1
V7 operation-failed too-many-elements /ex-net:net/host -
1 faults
"#;
    assert_right(&rt, first_wrong(rt.alloc(), NETWORK, rows));
}

#[test]
fn values_of_entries(rt: HostRuntime) {
    let rows = r#"{"ex-net:net":{"host":[{"name":"a","auto":[null],"port":1025}]}}
1
V1 invalid-value bad-port /ex-net:net/host[1]/port -
1 faults
==
{"ex-net:net":{"host":[{"name":"a","auto":[null],"port":1024}]}}
0
0 faults
==
{"ex-net:net":{"host":[{"name":"a","auto":[null],"port":8080}]}}
0
0 faults
==
{"ex-net:net":{"host":[{"name":"a","auto":[null],"port":70000}]}}
1
V1 invalid-value - /ex-net:net/host[1]/port -
1 faults
==
{"ex-net:net":{"host":[{"name":"a","addr":"x","auto":[null]},{"name":"b","addr":"x","port":80,"auto":[null]}]}}
1
V9 operation-failed data-not-unique /ex-net:net/host[1] 1
V9 operation-failed data-not-unique /ex-net:net/host[2] 1
2 faults
==
{"ex-net:net":{"host":[{"name":"a","auto":[null],"use-port":80}]}}
0
0 faults
==
{"ex-net:net":{"host":[{"name":"a","auto":[null],"port":22,"use-port":80}]}}
1
V11 data-missing instance-required /ex-net:net/host[1]/use-port -
1 faults
==
{"ex-net:net":{"host":[{"name":"a","auto":[null],"uplink":"b"},{"name":"b","auto":[null]}]}}
0
0 faults
==
{"ex-net:net":{"host":[{"name":"a","auto":[null],"uplink":"b"}]}}
1
V11 data-missing instance-required /ex-net:net/host[1]/uplink -
1 faults
"#;
    assert_right(&rt, first_wrong(rt.alloc(), NETWORK, rows));
}

#[test]
fn default_cases(rt: HostRuntime) {
    let rows = "{\"k:want\":3}
0
0 faults
==
{\"k:boost\":1,\"k:want\":3}
1
V11 data-missing instance-required /k:want -
1 faults
";
    assert_right(&rt, first_wrong(rt.alloc(), DEFAULT_CASE, rows));
}

#[test]
fn entries_and_items(rt: HostRuntime) {
    let rows = r#"{"v:e":[{"id":1,"in":{"x":"p"}},{"id":2,"in":{"x":"p"},"m":[4,5,4]},{"in":{}}]}
1
V9 operation-failed data-not-unique /v:e[1] 1
V9 operation-failed data-not-unique /v:e[2] 1
V10 operation-failed - /v:e[2]/m[1] -
V10 operation-failed - /v:e[2]/m[3] -
V2 missing-element - /v:e[3]/id -
5 faults
"#;
    assert_right(&rt, first_wrong(rt.alloc(), ENTRIES, rows));
    let rows = r#"{"y:z":[5,"5",5]}
1
V10 operation-failed - /y:z[1] -
V10 operation-failed - /y:z[3] -
2 faults
"#;
    assert_right(&rt, first_wrong(rt.alloc(), UNION, rows));
}

#[test]
fn state_and_fractions(rt: HostRuntime) {
    let rows = r#"{"w:log":[{"at":"1"},{"at":"1"}]}
0
0 faults
==
{"w:log":[{}]}
1
V3 data-missing - /w:log[1]/at -
1 faults
"#;
    assert_right(&rt, first_wrong(rt.alloc(), STATE, rows));
    let rows = r#"{"t:d":"9.223372036854775807"}
0
0 faults
==
{"t:d":"9.223372036854775808"}
1
V1 invalid-value - /t:d -
1 faults
"#;
    assert_right(&rt, first_wrong(rt.alloc(), FRACTION, rows));
}

/// Whether a document under the module of lists and choices is refused so: the row is the document, and what is said.
fn is_refused_document(alloc: Global, row: &str) -> Option<bool> {
    let (document, line) = row.split_once('|')?;
    is_refused_pair(alloc, NETWORK.as_bytes(), document, line)
}

#[test]
fn refused_documents(rt: HostRuntime) {
    let rows = r#"{"ex-net:net":{"ex-net:host":[]}}|d.json: J4 /ex-net:net
==
{"net":{}}|d.json: J4 /
==
{"ex-net:net":{"host":[{"name":"a","port":1.5}]}}|d.json: J6 /ex-net:net/host[1]/port
==
|d.json: J1 /
==
[]|d.json: J2 /
==
{"ex-net:nat":1}|d.json: J3 /
"#;
    all_parts_hold(&rt, rt.alloc(), rows, is_refused_document);
}

/// A module of these lines, the first of which is its fifth.
pub fn module_of(alloc: Global, lines: &str) -> Result<String, AllocError> {
    let text = "module p {\n  yang-version 1.1;\n  namespace \"urn:p\";\n  prefix p;\n";
    let mut text = String::from_str(alloc, text)?;
    text.push_str(lines)?;
    text.push_str("}\n")?;
    Ok(text)
}

/// Whether a module is refused so: the row is its lines and what is said.
pub fn is_refused_module(alloc: Global, row: &str) -> Option<bool> {
    let (lines, told) = row.split_once('|')?;
    let text = module_of(alloc, lines).ok()?;
    is_refused_pair(alloc, text.as_str().as_bytes(), "{}", told)
}

#[test]
fn refused_modules(rt: HostRuntime) {
    let rows = "  list l { leaf a { type string; } }
|p.yang:5: C16
==
  leaf a { type uint8; default 256; }
|p.yang:5: C11
==
  leaf a { type uint8 { range 5..1; } }
  leaf b { type string; }
  leaf b { type string; }
|p.yang:5: C10
==
  leaf a { type uint8 { range 1..5; } }
  leaf b { type string; }
  leaf b { type string; }
|p.yang:7: C13
==
  typedef a { type int32 { range 1..10; } }
  typedef b { type a { range 0..10; } }
  leaf d { type decimal64 { fraction-digits 18; } }
|p.yang:6: C10
==
  typedef a { type b; }
  typedef b { type a; }
|p.yang:5: C9
";
    all_parts_hold(&rt, rt.alloc(), rows, is_refused_module);
}

/// Whether an empty document has no fault under a module of these lines.
fn is_accepted_module(alloc: Global, lines: &str) -> Option<bool> {
    let text = module_of(alloc, lines).ok()?;
    is_told(alloc, text.as_str(), "{}\n0\n0 faults\n")
}

#[test]
fn accepted_modules(rt: HostRuntime) {
    let rows = "list l { config false; leaf a { type string; } }
choice c { leaf a { type string; } }
leaf a { type uint8; default 0x1F; }
leaf a { type uint8 { range 1..5; } }";
    all_hold(&rt, rt.alloc(), rows, is_accepted_module);
}

/// Whether a document prints so under a module: the row is the module's lines, a line `--`, and the document's row.
pub fn is_told_under(alloc: Global, row: &str) -> Option<bool> {
    let (lines, row) = row.split_once("--\n")?;
    let text = module_of(alloc, lines).ok()?;
    is_told(alloc, text.as_str(), row)
}

#[test]
fn corners(rt: HostRuntime) {
    let rows = r#"  list l { key k; leaf k { type string; mandatory true; } }
--
{"p:l":[{}]}
1
V2 missing-element - /p:l[1]/k -
1 faults
==
  leaf-list a { config false; type uint8; }
--
{"p:a":[1,1]}
0
0 faults
==
  leaf-list a { type leafref { path /p:b; } }
  leaf b { type string; }
--
{"p:a":["x","x"]}
1
V11 data-missing instance-required /p:a[1] -
V10 operation-failed - /p:a[1] -
V11 data-missing instance-required /p:a[2] -
V10 operation-failed - /p:a[2] -
4 faults
==
  list l {
    key k; unique c/d;
    leaf k { type uint8; }
    container c { leaf d { type uint8; default 1; } }
  }
--
{"p:l":[{"k":1},{"k":2,"c":{"d":1}}]}
1
V9 operation-failed data-not-unique /p:l[1] 1
V9 operation-failed data-not-unique /p:l[2] 1
2 faults
==
  choice h {
    case a { leaf x { type uint8; } leaf y { type uint8; mandatory true; } }
    case b { leaf z { type uint8; } leaf u { type uint8; mandatory true; } }
  }
--
{"p:x":1,"p:z":1}
1
V5 bad-element - / h
V3 data-missing - /p:y -
V3 data-missing - /p:u -
3 faults
==
  leaf a { type uint8 { range 1 { error-app-tag "a b c"; } } }
--
{"p:a":2}
1
V1 invalid-value a_b_c /p:a -
1 faults
"#;
    all_parts_hold(&rt, rt.alloc(), rows, is_told_under);
}

#[test]
fn derived_types(rt: HostRuntime) {
    let rows = r#"  container c { typedef t { type uint8 { range 1..5; } } leaf a { type t; } }
--
{"p:c":{"a":6}}
1
V1 invalid-value - /p:c/a -
1 faults
==
  typedef r { type leafref { path /p:b; } }
  leaf a { type r; }
  leaf b { type string; }
--
{"p:a":"x"}
1
V11 data-missing instance-required /p:a -
1 faults
==
  typedef s { type string { length 1; } }
  typedef n { type uint8 { range 2..20; } }
  typedef u { type union { type n; type s; } }
  leaf-list a { type u; }
--
{"p:a":[2,"2","22",1]}
1
V1 invalid-value - /p:a[3] -
V1 invalid-value - /p:a[4] -
2 faults
==
  typedef t { type uint8; default 3; }
  leaf-list a { type t; min-elements 1; }
  leaf b { type leafref { path /p:a; } }
--
{"p:b":3}
1
V6 operation-failed too-few-elements /p:a -
V11 data-missing instance-required /p:b -
2 faults
==
  typedef t { type uint8; default 3; }
  leaf-list a { type t; }
  leaf b { type leafref { path /p:a; } }
--
{"p:b":3}
0
0 faults
"#;
    all_parts_hold(&rt, rt.alloc(), rows, is_told_under);
}
