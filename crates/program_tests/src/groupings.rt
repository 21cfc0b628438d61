//! Modules with groupings in use: what is printed of them, of documents under them, and of edits. Rows are parted by lines
//! `==`.

use crate::commands::{DUMP, EDIT, first_wrong, is_shown};
use crate::modules::{is_refused_module, is_told_under, module_of};
use crate::rows::{all_parts_hold, assert_right};
use crate::running::{file, shown_of};
use std::alloc::Global;

/// A grouping, and a type of the same name as one of the module that uses it.
const GROUPINGS: &str = "module s {
  yang-version 1.1;
  namespace \"urn:s\";
  prefix s;
  typedef t { type uint8 { range 0..9; } }
  grouping g { leaf v { type t; } }
}
";

const USER: &str = "module u {
  yang-version 1.1;
  namespace \"urn:u\";
  prefix u;
  import s { prefix s; }
  typedef t { type string; }
  uses s:g;
}
";

/// Whether words show so of both modules and a document: the row is the words, the document, the status, what is said on
/// the error side, a line `--`, and the output.
fn is_shown_of_both(alloc: Global, row: &str) -> Option<bool> {
    let (line, rest) = row.split_once('\n')?;
    let (document, rest) = rest.split_once('\n')?;
    let (status, rest) = rest.split_once('\n')?;
    let (errors, output) = rest.split_once("--\n")?;
    let files = [
        file("s.yang", GROUPINGS),
        file("u.yang", USER),
        file("d.json", document),
    ];
    let shown = shown_of(alloc, line, &files).ok()?;
    is_shown(&shown, status, errors, output)
}

// The type is that of the module in which the grouping stands, and the node belongs to the one that uses it.
#[test]
fn groupings_of_another_module(rt: HostRuntime) {
    let rows = "yanglive compile s.yang u.yang
{}
0
--
1 nodes
==
yanglive tree u s.yang u.yang
{}
0
--
module: u
  +--rw v?   t
==
yanglive tree s s.yang u.yang
{}
0
--
module: s
==
yanglive validate d.json u.yang s.yang
{\"u:v\":9}
0
--
0 faults
==
yanglive validate d.json s.yang u.yang
{\"u:v\":10}
1
--
V1 invalid-value - /u:v -
1 faults
==
yanglive validate d.json s.yang u.yang
{\"u:v\":\"x\"}
1
--
V1 invalid-value - /u:v -
1 faults
==
yanglive validate d.json s.yang u.yang
{\"s:v\":9}
2
d.json: J3 /
--
==
yanglive compile u.yang
{}
2
u.yang:5: C5
--
";
    all_parts_hold(&rt, rt.alloc(), rows, is_shown_of_both);
}

#[test]
fn refused_modules(rt: HostRuntime) {
    let rows = "  grouping h { uses h; }
|p.yang:5: C9
==
  grouping g { leaf a { type uint8; } }
  uses g { refine b { default 7; } }
|p.yang:6: C14
==
  grouping g {
    leaf a { type uint8; }
  }
  uses g { refine a { default 256; } }
|p.yang:6: C11
";
    all_parts_hold(&rt, rt.alloc(), rows, is_refused_module);
}

/// Whether a diagram shows so: the row is the module's lines from the fifth on, a line `--`, and the diagram.
fn is_drawn(alloc: Global, row: &str) -> Option<bool> {
    let (lines, output) = row.split_once("--\n")?;
    let text = module_of(alloc, lines).ok()?;
    let files = [file("p.yang", text.as_str())];
    let shown = shown_of(alloc, "yanglive tree p p.yang", &files).ok()?;
    is_shown(&shown, "0", "", output)
}

// Nodes bear their own status, whatever that of their grouping or `uses` is.
#[test]
fn diagrams(rt: HostRuntime) {
    let rows = "  grouping g { container a { leaf b { type string; } } leaf c { type string; } }
  uses g { refine a { config false; } refine c { mandatory true; } }
--
module: p
  +--ro a
  |  +--ro b?   string
  +--rw c   string
==
  grouping e { status obsolete; leaf a { type string; } leaf-list bb { type uint8; } }
  grouping g { choice h { case x { uses e { status deprecated; } } leaf z { type uint8; } } }
  uses g { refine h { mandatory true; } }
--
module: p
  +--rw (h)
     +--:(x)
     |  +--rw a?    string
     |  +--rw bb*   uint8
     +--:(z)
        +--rw z?   uint8
";
    all_parts_hold(&rt, rt.alloc(), rows, is_drawn);
}

#[test]
fn documents(rt: HostRuntime) {
    let rows = r#"  grouping g { leaf a { type uint8; } }
  uses g { refine a { default 7; } }
  leaf r { type leafref { path /p:a; } }
--
{"p:r":7}
0
0 faults
==
  grouping g { leaf-list a { type uint8; default 1; default 2; } }
  uses g { refine a { default 7; default 8; } }
  leaf-list r { type leafref { path /p:a; } }
--
{"p:r":[7,8,1]}
1
V11 data-missing instance-required /p:r[3] -
1 faults
==
  grouping g { leaf k { type string; } leaf v { type uint8; mandatory true; } }
  list l { key k; uses g; }
--
{"p:l":[{"k":"a","v":1},{"v":2},{"k":"b"}]}
1
V2 missing-element - /p:l[2]/k -
V3 data-missing - /p:l[3]/v -
2 faults
==
  grouping g { leaf k { type string; } leaf v { type uint8; } }
  list l { key k; unique v; uses g { refine v { default 3; } } }
--
{"p:l":[{"k":"a"},{"k":"b","v":3}]}
1
V9 operation-failed data-not-unique /p:l[1] 1
V9 operation-failed data-not-unique /p:l[2] 1
2 faults
==
  grouping g { container c { leaf a { type string; } } }
  uses g { refine c/a { mandatory true; } }
--
{}
1
V3 data-missing - /p:c/a -
1 faults
==
  grouping g { container c { leaf a { type string; mandatory true; } } }
  uses g { refine c { presence x; } }
--
{}
0
0 faults
==
  grouping g { container c { leaf a { type string; mandatory true; } } }
  uses g { refine c { presence x; } }
--
{"p:c":{}}
1
V3 data-missing - /p:c/a -
1 faults
==
  grouping g { leaf-list a { type uint8; } leaf-list b { type uint8; max-elements 1; } }
  uses g { refine a { min-elements 1; } refine b { max-elements 2; } }
--
{"p:b":[1,2,3]}
1
V6 operation-failed too-few-elements /p:a -
V7 operation-failed too-many-elements /p:b -
2 faults
==
  grouping g { leaf-list a { type uint8; } }
  uses g { refine a { config false; } }
  container c { uses g; }
--
{"p:a":[1,1],"p:c":{"a":[2,2]}}
1
V10 operation-failed - /p:c/a[1] -
V10 operation-failed - /p:c/a[2] -
2 faults
==
  grouping g { choice h { leaf a { type uint8; } leaf b { type uint8; } } }
  uses g { refine h { mandatory true; } }
--
{}
1
V4 data-missing missing-choice / h
1 faults
==
  grouping g { choice h {
    default a;
    case a { leaf a { type uint8; default 1; } }
    case b { leaf b { type uint8; default 2; } }
  } }
  uses g { refine h { default b; } }
  leaf r { type leafref { path /p:a; } }
  leaf t { type leafref { path /p:b; } }
--
{"p:r":1,"p:t":2}
1
V11 data-missing instance-required /p:r -
1 faults
"#;
    all_parts_hold(&rt, rt.alloc(), rows, is_told_under);
}

/// A list, a choice and a reference in groupings, in a container.
const BOX: &str = "module p {
  yang-version 1.1;
  namespace \"urn:p\";
  prefix p;
  grouping entry {
    leaf k { type string; }
    leaf v { type uint8; default 3; }
  }
  grouping box {
    list l { key k; uses entry { refine v { default 5; } } }
    leaf b { type leafref { path /p:c/p:l/p:v; } }
  }
  container c { uses box { refine l { max-elements 2; } refine b { mandatory true; } } }
}
";

#[test]
fn edits(rt: HostRuntime) {
    let rows = r#"{"p:c":{"l":[{"k":"x"}],"b":5}}
# as it is
--
0
--
0 faults
==
{"p:c":{"l":[{"k":"x"}],"b":5}}
create /p:c/l[k='x']/v 6
--
1
--
V11 data-missing instance-required /p:c/b -
1 faults
==
{"p:c":{"l":[{"k":"x"}],"b":5}}
create /p:c/l[k='x']/v 6
remove /p:c/l[k='x']/v
create /p:c/l {"k":"y","v":5}
create /p:c/l {"k":"z"}
remove /p:c/b
--
1
--
V7 operation-failed too-many-elements /p:c/l -
V3 data-missing - /p:c/b -
2 faults
==
{"p:c":{"l":[{"k":"x"}],"b":5}}
create /p:c/p:l {"k":"y"}
create /p:c/entry {"k":"y"}
--
1
line 1: E2
line 2: E2
--
0 faults
"#;
    assert_right(&rt, first_wrong(rt.alloc(), EDIT, BOX, rows));
    let rows = r#"{"p:c":{"l":[{"v":6,"k":"x"}],"b":5}}
create /p:c/l {"k":"y"}
--
0
--
{"p:c":{"b":5,"l":[{"k":"x","v":6},{"k":"y"}]}}
==
{"p:c":{"b":3}}
--
1
--
{"p:c":{"b":3}}
"#;
    assert_right(&rt, first_wrong(rt.alloc(), DUMP, BOX, rows));
}
