//! For each code a small input that gives it: what is printed, and that something is said of the code. Only limits that take
//! large inputs, and codes of live documents alone, stand elsewhere.

use crate::modules::module_of;
use crate::rows::all_hold;
use crate::running::{NamedFile, file, shown_of};
use std::alloc::Global;
use ysay_codes::explain;

/// Whether something is said of a code.
fn is_known(code: &str) -> bool {
    explain(code).is_some()
}

/// Whether a text of a module is refused so: `CODE:LINE`.
fn is_refused_text(alloc: Global, text: &[u8], told: &str) -> Option<bool> {
    let (code, line) = told.split_once(':')?;
    let files = [NamedFile {
        name: "p.yang",
        bytes: text,
    }];
    let shown = shown_of(alloc, "yanglive compile p.yang", &files).ok()?;
    let wanted = format!(in alloc; "p.yang:{line}: {code}\n").ok()?;
    Some(is_known(code) && shown.errors.bytes() == wanted.as_str().as_bytes())
}

// `CODE:LINE/text`
fn is_text_refused(alloc: Global, row: &str) -> Option<bool> {
    let (told, text) = row.split_once('/')?;
    is_refused_text(alloc, text.as_bytes(), told)
}

#[test]
fn texts(rt: HostRuntime) {
    let alloc = rt.alloc();
    assert!(rt; is_refused_text(alloc, b"module\n\xff", "L1:2") == Some(true));
    let rows = "L2:1/module \u{1};
L3:1/module \"a
L4:1/module \"\\q\";
L5:1/module a b;
L6:1/module a;}
L8:1/1module a;
C4:1/module a { namespace b; prefix c; }";
    all_hold(&rt, alloc, rows, is_text_refused);
}

// Blocks in one another, so many.
fn nested(alloc: Global, times: u32, block: &str) -> Option<String> {
    let mut text = String::new(alloc);
    for _ in 0..times {
        text.push_str(block).ok()?;
    }
    for _ in 0..times {
        text.push_str("}").ok()?;
    }
    Some(text)
}

fn is_limited(alloc: Global) -> Option<bool> {
    let text = nested(alloc, 65, "a {")?;
    let is_text_limited = is_refused_text(alloc, text.as_str().as_bytes(), "L7:1")?;
    let lines = nested(alloc, 61, "container c {")?;
    let module = module_of(alloc, lines.as_str()).ok()?;
    Some(is_text_limited && is_refused_text(alloc, module.as_str().as_bytes(), "C18:1")?)
}

#[test]
fn limits(rt: HostRuntime) {
    assert!(rt; is_limited(rt.alloc()) == Some(true));
}

// `CODE:LINE/lines`, the first of which is the module's fifth
fn is_module_refused(alloc: Global, row: &str) -> Option<bool> {
    let (told, lines) = row.split_once('/')?;
    let text = module_of(alloc, lines).ok()?;
    is_refused_text(alloc, text.as_str().as_bytes(), told)
}

#[test]
fn modules(rt: HostRuntime) {
    let rows = "C1:5/leafs a;
C2:5/leaf a;
C3:5/container;
C5:5/import q { prefix q; }
C6:5/leaf a { type q:t; }
C7:5/grouping g; grouping g;
C8:5/leaf a { type t; }
C9:5/typedef t { type t; }
C10:5/leaf a { type decimal64; }
C11:5/leaf a { type uint8; default x; }
C12:5/list l { key k; }
C13:5/container c; container c;
C14:5/augment /p:q;
C16:5/list l { leaf a { type string; } }
C17:5/leaf a { type leafref { path /p:b; } }";
    all_hold(&rt, rt.alloc(), rows, is_module_refused);
}

const MODULE: &str = "module p {
  yang-version 1.1;
  namespace \"urn:p\";
  prefix p;
  list e { key k; unique u; max-elements 2; leaf k { type uint8; } leaf u { type string; } }
  leaf m { type string; mandatory true; }
  choice h { mandatory true; leaf x { type string; } leaf y { type string; } }
  leaf-list n { type uint8; min-elements 1; }
  leaf r { type leafref { path /p:e/p:k; } }
  container c { presence on; leaf z { type uint8; } }
}
";

// `CODE -> document -> script -> printed` on one of the sides; there `|` stands for a line feed
fn is_printed(alloc: Global, row: &str) -> Option<bool> {
    let (code, row) = row.split_once(" -> ")?;
    let (document, row) = row.split_once(" -> ")?;
    let (script, printed) = row.split_once(" -> ")?;
    let files = [
        file("p.yang", MODULE),
        file("d.json", document),
        file("s.txt", script),
    ];
    let shown = shown_of(alloc, "yanglive edit d.json s.txt p.yang", &files).ok()?;
    let mut told = String::new(alloc);
    for letter in printed.chars() {
        told.push(if letter == '|' { '\n' } else { letter }).ok()?;
    }
    let are_errors = shown.errors.bytes() == told.as_str().as_bytes();
    Some(is_known(code) && (are_errors || shown.output.bytes() == told.as_str().as_bytes()))
}

#[test]
fn documents(rt: HostRuntime) {
    let rows = r#"J1 -> { ->  -> d.json: J1 /|
J2 -> [] ->  -> d.json: J2 /|
J3 -> {"p:q":1} ->  -> d.json: J3 /|
J4 -> {"m":"a"} ->  -> d.json: J4 /|
J5 -> {"p:c":1} ->  -> d.json: J5 /p:c|
J6 -> {"p:n":[1.5]} ->  -> d.json: J6 /p:n[1]|
V1 -> {"p:m":"a","p:x":"b","p:n":["c"]} ->  -> V1 invalid-value - /p:n[1] -|1 faults|
V2 -> {"p:m":"a","p:x":"b","p:n":[1],"p:e":[{}]} ->  -> V2 missing-element - /p:e[1]/k -|1 faults|
V3 -> {"p:x":"b","p:n":[1]} ->  -> V3 data-missing - /p:m -|1 faults|
V4 -> {"p:m":"a","p:n":[1]} ->  -> V4 data-missing missing-choice / h|1 faults|
V5 -> {"p:m":"a","p:x":"b","p:y":"b","p:n":[1]} ->  -> V5 bad-element - / h|1 faults|
V6 -> {"p:m":"a","p:x":"b"} ->  -> V6 operation-failed too-few-elements /p:n -|1 faults|
V7 -> {"p:m":"a","p:x":"b","p:n":[1],"p:e":[{"k":1},{"k":2},{"k":3}]} ->  -> V7 operation-failed too-many-elements /p:e -|1 faults|
V8 -> {"p:m":"a","p:x":"b","p:n":[1],"p:e":[{"k":1},{"k":1}]} ->  -> V8 operation-failed - /p:e[1] -|V8 operation-failed - /p:e[2] -|2 faults|
V9 -> {"p:m":"a","p:x":"b","p:n":[1],"p:e":[{"k":1,"u":"s"},{"k":2,"u":"s"}]} ->  -> V9 operation-failed data-not-unique /p:e[1] 1|V9 operation-failed data-not-unique /p:e[2] 1|2 faults|
V10 -> {"p:m":"a","p:x":"b","p:n":[1,1]} ->  -> V10 operation-failed - /p:n[1] -|V10 operation-failed - /p:n[2] -|2 faults|
V11 -> {"p:m":"a","p:x":"b","p:n":[1],"p:r":7} ->  -> V11 data-missing instance-required /p:r -|1 faults|"#;
    all_hold(&rt, rt.alloc(), rows, is_printed);
}

#[test]
fn edits(rt: HostRuntime) {
    let rows = r#"E1 -> {} -> creat /p:c {} -> line 1: E1|
E2 -> {} -> remove /p:q -> line 1: E2|
E3 -> {} -> remove /p:c[1] -> line 1: E3|
E4 -> {} -> create /p:c/z 1 -> line 1: E4|
E5 -> {} -> remove /p:e[9] -> line 1: E5|
E6 -> {"p:e":[{"k":1},{"k":1}]} -> remove /p:e[k='1'] -> line 1: E6|
E7 -> {} -> remove /p:c -> line 1: E7|
E8 -> {"p:c":{}} -> create /p:c {} -> line 1: E8|
E9 -> {} -> create /p:c { -> line 1: E9|
E10 -> {} -> create /p:c {"q":1} -> line 1: E10 J3|"#;
    all_hold(&rt, rt.alloc(), rows, is_printed);
}
