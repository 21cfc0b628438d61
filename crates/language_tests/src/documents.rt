//! Documents under modules that are read in a language.

use crate::building::{language_of, modules_of};
use crate::rows::all_hold;
use crate::telling::{have_lines, is_text};
use std::alloc::Global;
use ycheck::Fault;
use ylink_grammar::Language;
use ylive_whole::{CheckFault, check_edits_in};
use yschema::compile_in;
use ytext::Module;

fn are_lines_of(
    alloc: Global,
    modules: &[Module],
    language: &Language,
    faults: &[Fault],
    lines: &str,
) -> Option<bool> {
    match compile_in(alloc, modules, language) {
        Ok(schema) => have_lines(alloc, &schema, faults, lines),
        Err(_) => None,
    }
}

// Whether these are the lines of a document's faults, or the code of its refusal.
fn is_found(
    alloc: Global,
    modules: &[Module],
    language: &Language,
    document: &str,
    told: &str,
) -> Option<bool> {
    match check_edits_in(alloc, modules, language, document.as_bytes(), &[]) {
        Ok(checked) => are_lines_of(alloc, modules, language, &checked.faults, told),
        Err(CheckFault::Document(fault)) => is_text(format!(in alloc; "{fault}"), told),
        Err(CheckFault::Modules(_)) => Some(false),
        Err(CheckFault::Memory) => None,
    }
}

/// `FEATURES => LINES OF FAULTS => DOCUMENT => MODULES`, or the code of the document's refusal in place of the lines.
pub(crate) fn is_validated(alloc: Global, row: &str) -> Option<bool> {
    let (chosen, row) = row.split_once(" => ")?;
    let (told, row) = row.split_once(" => ")?;
    let (document, modules) = row.split_once(" => ")?;
    let language = language_of(alloc, chosen).ok()?;
    let modules = modules_of(alloc, modules)?;
    is_found(alloc, &modules, &language, document, told)
}

// Lines of faults, or the code of the refusal.
#[test]
fn validated(rt: HostRuntime) {
    let rows =
        r#"all => none => {"m:a":"x"} => m:1.1 feature f; leaf a { if-feature f; type string; }
m: => J3 => {"m:a":"x"} => m:1.1 feature f; leaf a { if-feature f; type string; }
m: => V3 data-missing - /m:b -| => {} => m:1.1 feature f; leaf a { if-feature f; type string; mandatory true; } leaf b { if-feature 'not f'; type string; mandatory true; }
m: => V1 invalid-value - /m:a -| => {"m:a":"x"} => m:1.1 feature f; leaf a { type enumeration { enum x { if-feature f; } enum y; } }
m:f => none => {"m:a":"x"} => m:1.1 feature f; leaf a { type enumeration { enum x { if-feature f; } enum y; } }
m: => none => {"m:a":"y"} => m:1.1 feature f; leaf a { type enumeration { enum x { if-feature f; } enum y; } }
m: => V1 invalid-value - /m:a -| => {"m:a":"x y","m:b":"y"} => m:1.1 feature f; typedef t { type bits { bit x { if-feature f; } bit y; } } leaf a { type t; } leaf b { type t; }
m: => V1 invalid-value - /m:a -| => {"m:a":"j","m:b":"k"} => m:1.1 feature f; identity i; identity j { base i; if-feature f; } identity k { base j; } leaf a { type identityref { base i; } } leaf b { type identityref { base i; } }
n: => V1 invalid-value - /m:a -| => {"m:a":"n:j"} => m:1.1 import n { prefix n; } leaf a { type identityref { base n:i; } } ~ n:1.1 feature f; identity i; identity j { base i; if-feature f; }
all => none => {"m:a":"n:j"} => m:1.1 import n { prefix n; } leaf a { type identityref { base n:i; } } ~ n:1.1 feature f; identity i; identity j { base i; if-feature f; }
m: => J3 => {"m:c":{}} => m:1.1 feature f; container c { if-feature f; }
m: => J3 => {"m:c":{"a":"x"}} => m:1.1 feature f; container c; augment /m:c { if-feature f; leaf a { type string; } }
m: => V4 data-missing missing-choice / c| => {} => m:1.1 feature f; choice c { mandatory true; case d { if-feature f; leaf a { type string; } } case e { leaf b { type string; } } }
m: => none => {} => m:1.1 feature f; choice c { default d; case d { if-feature f; container p { leaf a { type string; } leaf b { type string; mandatory true; } } } case e { leaf e { type string; } } }
m:f => none => {} => m:1.1 feature f; choice c { default d; case d { container p { if-feature 'not f'; leaf b { type string; mandatory true; } } leaf q { type uint8; } } } container r { leaf s { if-feature 'not f'; type string; mandatory true; } }
m: => none => {"m:l":[{"k":"1"},{"k":"2"}]} => m:1.1 feature f; list l { key k; leaf k { type string; } leaf u { if-feature f; type string; mandatory true; } }
m:f => V8 operation-failed - /m:l[1] -|V3 data-missing - /m:l[1]/u -|V8 operation-failed - /m:l[2] -|V3 data-missing - /m:l[2]/u -| => {"m:l":[{"k":"1"},{"k":"1"}]} => m:1.1 feature f; list l { key k; leaf k { type string; } leaf u { if-feature f; type string; mandatory true; } }
all => none => {"m:a":[1,1]} => m:1.1 leaf-list a { config false; type uint8; }
all => none => {"m:a":[]} => m: leaf-list a { type t; } typedef t { type uint8; default 3; }
all => none => {"m:a":[1,1]} => m: import n { prefix n; } uses n:g; ~ n:1.1 grouping g { leaf-list a { config false; type uint8; } }
all => V10 operation-failed - /m:a[1] -|V10 operation-failed - /m:a[2] -| => {"m:a":[1,1]} => m:1.1 import n { prefix n; } uses n:g; ~ n: grouping g { leaf-list a { config false; type uint8; } }
all => V10 operation-failed - /m:c/b[1] -|V10 operation-failed - /m:c/b[3] -| => {"m:c":{"b":["x","y","x"]}} => m: container c { config false; leaf-list b { type string; } }
all => V1 invalid-value - /m:a[2] -|V1 invalid-value - /m:a[3] -|V10 operation-failed - /m:d[1] -|V10 operation-failed - /m:d[2] -| => {"m:d":[1,1],"m:a":[1,"x","x"]} => m: leaf-list a { config false; type uint8; } leaf-list d { type uint8; }
all => V11 data-missing instance-required /m:a -| => {"m:a":"zz"} => m: leaf a { type leafref { path /m:b; } } leaf b { type string; }
m: => V1 invalid-value - /m:a -| => {"m:a":300} => m:1.1 feature f; leaf a { if-feature 'not f'; type uint8; }
m:g => J3 => {"m:c":{"a":1}} => m:1.1 feature f; feature g; grouping h { leaf a { type uint8; } leaf b { type uint8; mandatory true; } } container c { uses h { refine a { if-feature f; } refine b { if-feature g; } } }"#;
    all_hold(&rt, rt.alloc(), rows, is_validated);
}
