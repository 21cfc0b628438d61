//! Unions with leafrefs among their members (RFC 7950, 9.9 and 9.12); under the core each such module is refused at the member.

use crate::building::push_module;
use crate::compiling::{
    is_told, is_told_of_set, is_told_of_yang_1, is_told_where_chosen, is_wide_outcome,
};
use crate::documents::is_validated;
use crate::rows::all_hold;
use std::alloc::{AllocError, Global};

// By itself, by a typedef, or in a union within the union; such a union bears no restriction.
#[test]
fn places(rt: HostRuntime) {
    let rows =
        "2 nodes/C10:5/leaf y { type string; }|leaf x { type union { type uint8; type leafref { path /y; } } }
2 nodes/C10:6/leaf y { type string; } typedef r { type leafref { path /m:y; } }|typedef u { type union { type uint8;| type r; } }|leaf x { type union { type u; type r { require-instance false; } } }
2 nodes/C10:6/leaf y { type string; }|leaf x { type union { type uint8; type union {| type leafref { path /y; } } } }
1 nodes/C10:4/typedef u { type union { type leafref { path /z; } } } leaf x { type string; }
C10:5/C10:4/leaf y { type string; } typedef u { type union { type leafref { path /y; } } }|leaf x { type u { require-instance false; } }
C10:5/C1:5/leaf y { type string; } typedef u { type union { type leafref { path /y; } } }|leaf x { type u { pattern a; } }
C10:5/C10:4/leaf y { type string; } typedef u { type union { type leafref { path /y; } } }|leaf x { type u { length 1; } }
C10:6/C10:5/leaf y { type string; }|leaf x { type union { type leafref { path /y; }| type uint8 { length 1; } } }
C10:5/C10:5/leaf y { type string; }|leaf x { type union { type leafref; } }";
    all_hold(&rt, rt.alloc(), rows, is_told);
}

// YANG 1 has none of it.
#[test]
fn of_yang_1(rt: HostRuntime) {
    let rows = "C10:5/leaf y { type string; }|leaf x { type union { type leafref { path /y; } } }
C10:6/leaf y { type string; } typedef r { type leafref { path /m:y; } }|leaf x { type union {| type r; } }";
    all_hold(&rt, rt.alloc(), rows, is_told_of_yang_1);
}

// A member leads to a leaf or leaf-list, in no circle, and from configuration to state only where no instance is required.
#[test]
fn references(rt: HostRuntime) {
    let rows =
        "C17:5/C10:5/container y;|leaf x { type union { type string; type leafref { path /y; } } }
C17:4/C10:4/leaf x { type union { type string; type leafref { path /y; } } }
C17:4/C10:4/leaf x { type union { type string; type leafref { path /x; } } }
C17:4/C10:5/leaf y { type leafref { path /x; } }|leaf x { type union { type leafref { path /y; } type string; } }
C17:6/C10:4/leaf a { type union { type leafref { path /b; } type string; } }|leaf b { type string; }|leaf c { type union { type leafref { path /d; } type string; } }|leaf d { type union { type leafref { path /b; } type leafref { path /c; } } }
C17:5/C10:4/leaf a { type union { type leafref { path /c; } type string; } }|leaf c { type union { type leafref { path /c; } } }
C17:5/C10:5/leaf y { config false; type string; }|leaf x { type union { type uint8; type leafref { path /y; } } }
2 nodes/C10:5/leaf y { config false; type string; }|leaf x { type union { type uint8; type leafref { path /y; require-instance false; } } }
2 nodes/C10:5/leaf y { config false; type string; }|leaf x { config false; type union { type uint8; type leafref { path /y; } } }
2 nodes/C10:5/leaf y { type uint8; }|leaf x { type union { type leafref { path /y; } type boolean; } default 7; }
C11:5/C10:5/leaf y { type uint8; }|leaf x { type union { type leafref { path /y; } type boolean; } default 300; }
C11:6/C10:5/leaf y { type uint8; }|typedef u { type union { type leafref { path /m:y; } type boolean; } default 300; }|leaf x { type u; }";
    all_hold(&rt, rt.alloc(), rows, is_told);
}

// Names without a prefix are those of the module that has the node, names with one as the module says that has the path.
#[test]
fn of_other_modules(rt: HostRuntime) {
    let rows =
        "all/2 nodes/m:1.1 import n { prefix n; }|leaf y { type string; }|leaf x { type n:u; } ~ n:1.1 typedef u { type union { type uint8; type leafref { path /y; } } }
all/C17:6/m:1.1 import n { prefix n; }|leaf z { type string; }|leaf x { type n:u; } ~ n:1.1 typedef u { type union { type uint8; type leafref { path /y; } } } leaf y { type string; }
all/2 nodes/m:1.1 import n { prefix n; }|leaf x { type n:u; } ~ n:1.1 typedef u { type union { type uint8; type leafref { path /n:y; } } } leaf y { type string; }";
    all_hold(&rt, rt.alloc(), rows, is_told_of_set);
}

// What a feature takes away is no target.
#[test]
fn of_features(rt: HostRuntime) {
    let rows =
        "m:/C17:4/feature g; leaf x { type union { type string; type leafref { path /y; } } }|leaf y { if-feature g; type string; }
m:g/2 nodes/feature g; leaf x { type union { type string; type leafref { path /y; } } }|leaf y { if-feature g; type string; }";
    all_hold(&rt, rt.alloc(), rows, is_told_where_chosen);
}

// The first member that takes a value decides; where that is a leafref's, V11 is asked of it.
#[test]
fn values(rt: HostRuntime) {
    let rows =
        r#"all => none => {"m:x":"a"} => m:1.1 leaf-list y { type uint8; } leaf x { type union { type enumeration { enum a; } type leafref { path /y; } type int16; } }
all => V11 data-missing instance-required /m:x -| => {"m:x":7} => m:1.1 leaf-list y { type uint8; } leaf x { type union { type enumeration { enum a; } type leafref { path /y; } type int16; } }
all => V11 data-missing instance-required /m:x -| => {"m:y":[6],"m:x":7} => m:1.1 leaf-list y { type uint8; } leaf x { type union { type enumeration { enum a; } type leafref { path /y; } type int16; } }
all => none => {"m:y":[6,7],"m:x":7} => m:1.1 leaf-list y { type uint8; } leaf x { type union { type enumeration { enum a; } type leafref { path /y; } type int16; } }
all => none => {"m:x":300} => m:1.1 leaf-list y { type uint8; } leaf x { type union { type enumeration { enum a; } type leafref { path /y; } type int16; } }
all => V1 invalid-value - /m:x -| => {"m:x":"b"} => m:1.1 leaf-list y { type uint8; } leaf x { type union { type enumeration { enum a; } type leafref { path /y; } type int16; } }
all => none => {"m:x":7} => m:1.1 leaf-list y { type uint8; } typedef r { type leafref { path /m:y; } } leaf x { type union { type r { require-instance false; } type boolean; } }
all => V1 invalid-value - /m:x -| => {"m:x":300} => m:1.1 leaf-list y { type uint8; } typedef r { type leafref { path /m:y; } } leaf x { type union { type r { require-instance false; } type boolean; } }
all => none => {"m:x":true} => m:1.1 leaf-list y { type uint8; } typedef r { type leafref { path /m:y; } } leaf x { type union { type r { require-instance false; } type boolean; } }
all => none => {"m:y":7,"m:x":7} => m:1.1 leaf y { type uint8; } leaf z { type uint16; } leaf x { type union { type leafref { path /y; } type leafref { path /z; } } }
all => V11 data-missing instance-required /m:x -| => {"m:z":7,"m:x":7} => m:1.1 leaf y { type uint8; } leaf z { type uint16; } leaf x { type union { type leafref { path /y; } type leafref { path /z; } } }
all => none => {"m:z":300,"m:x":300} => m:1.1 leaf y { type uint8; } leaf z { type uint16; } leaf x { type union { type leafref { path /y; } type leafref { path /z; } } }
all => V11 data-missing instance-required /m:x -| => {"m:y":7,"m:x":300} => m:1.1 leaf y { type uint8; } leaf z { type uint16; } leaf x { type union { type leafref { path /y; } type leafref { path /z; } } }"#;
    all_hold(&rt, rt.alloc(), rows, is_validated);
}

// A member of a union is looked for where the leafref leads, as that member.
#[test]
fn values_of_unions(rt: HostRuntime) {
    let rows =
        r#"all => none => {"m:y":[true],"m:x":true} => m:1.1 leaf-list y { type union { type uint8; type boolean; } } leaf x { type union { type int8 { range "-9..-1"; } type leafref { path /y; } } }
all => none => {"m:y":[7],"m:x":7} => m:1.1 leaf-list y { type union { type uint8; type boolean; } } leaf x { type union { type int8 { range "-9..-1"; } type leafref { path /y; } } }
all => V11 data-missing instance-required /m:x -| => {"m:y":[7],"m:x":true} => m:1.1 leaf-list y { type union { type uint8; type boolean; } } leaf x { type union { type int8 { range "-9..-1"; } type leafref { path /y; } } }
all => none => {"m:y":[7],"m:x":-7} => m:1.1 leaf-list y { type union { type uint8; type boolean; } } leaf x { type union { type int8 { range "-9..-1"; } type leafref { path /y; } } }
all => none => {"m:y":[7],"m:u":[7],"m:x":7} => m:1.1 leaf-list y { type uint8; } leaf-list u { type union { type boolean; type leafref { path /y; } } } leaf x { type leafref { path /u; } }
all => V11 data-missing instance-required /m:u[1] -| => {"m:u":[7],"m:x":7} => m:1.1 leaf-list y { type uint8; } leaf-list u { type union { type boolean; type leafref { path /y; } } } leaf x { type leafref { path /u; } }
all => V11 data-missing instance-required /m:x -| => {"m:y":[7],"m:x":7} => m:1.1 leaf-list y { type uint8; } leaf-list u { type union { type boolean; type leafref { path /y; } } } leaf x { type leafref { path /u; } }
all => none => {"m:y":[200],"m:u":[200],"m:x":200} => m:1.1 leaf-list y { type uint8; } leaf-list u { type union { type boolean; type leafref { path /y; } } } leaf x { type union { type int8; type leafref { path /u; } } }
all => V11 data-missing instance-required /m:x -| => {"m:u":[true],"m:x":200} => m:1.1 leaf-list y { type uint8; } leaf-list u { type union { type boolean; type leafref { path /y; } } } leaf x { type union { type int8; type leafref { path /u; } } }
all => none => {"m:u":[true],"m:x":true} => m:1.1 leaf-list y { type uint8; } leaf-list u { type union { type boolean; type leafref { path /y; } } } leaf x { type union { type int8; type leafref { path /u; } } }"#;
    all_hold(&rt, rt.alloc(), rows, is_validated);
}

// A default in use is there, and isn't asked itself; items, keys and uniques are told apart as all are.
#[test]
fn defaults_and_repeated(rt: HostRuntime) {
    let rows =
        r#"all => none => {} => m:1.1 leaf y { type uint8; default 7; } leaf x { type union { type leafref { path /y; } type boolean; } default 8; }
all => none => {"m:x":7} => m:1.1 leaf y { type uint8; default 7; } leaf x { type union { type leafref { path /y; } type boolean; } default 8; }
all => V11 data-missing instance-required /m:x -| => {"m:x":8} => m:1.1 leaf y { type uint8; default 7; } leaf x { type union { type leafref { path /y; } type boolean; } default 8; }
all => none => {"m:x":[7,true]} => m:1.1 leaf y { type uint8; default 7; } leaf-list x { type union { type boolean; type leafref { path /y; } } }
all => V10 operation-failed - /m:x[1] -|V10 operation-failed - /m:x[2] -| => {"m:x":[7,7]} => m:1.1 leaf y { type uint8; default 7; } leaf-list x { type union { type boolean; type leafref { path /y; } } }
all => none => {"m:l":[{"k":7},{"k":true}]} => m:1.1 leaf y { type uint8; default 7; } list l { key k; unique u; leaf k { type union { type leafref { path /y; } type boolean; } } leaf u { type union { type boolean; type leafref { path /l/k; } } } }
all => V8 operation-failed - /m:l[1] -|V8 operation-failed - /m:l[2] -| => {"m:l":[{"k":7},{"k":7}]} => m:1.1 leaf y { type uint8; default 7; } list l { key k; unique u; leaf k { type union { type leafref { path /y; } type boolean; } } leaf u { type union { type boolean; type leafref { path /l/k; } } } }
all => V9 operation-failed data-not-unique /m:l[1] 1|V9 operation-failed data-not-unique /m:l[2] 1| => {"m:l":[{"k":7,"u":7},{"k":true,"u":7}]} => m:1.1 leaf y { type uint8; default 7; } list l { key k; unique u; leaf k { type union { type leafref { path /y; } type boolean; } } leaf u { type union { type boolean; type leafref { path /l/k; } } } }
all => V11 data-missing instance-required /m:l[1]/u -| => {"m:l":[{"k":true,"u":7}]} => m:1.1 leaf y { type uint8; default 7; } list l { key k; unique u; leaf k { type union { type leafref { path /y; } type boolean; } } leaf u { type union { type boolean; type leafref { path /l/k; } } } }"#;
    all_hold(&rt, rt.alloc(), rows, is_validated);
}

// Leafs a1 to a15 in a line each, each a union of two leafrefs to the one before.
fn push_doubles(alloc: Global, text: &mut String) -> Result<(), AllocError> {
    for number in 1..16u32 {
        let before = number - 1;
        let line = format!(in alloc;
            "leaf a{number} {{ type union {{ type leafref {{ path /a{before}; }} type leafref {{ path /a{before}; }} }} }}\n"
        )?;
        text.push_str(line.as_str())?;
    }
    Ok(())
}

// Leafrefs to a0 to a15.
fn push_members(alloc: Global, text: &mut String) -> Result<(), AllocError> {
    for number in 0..16u32 {
        let member = format!(in alloc; " type leafref {{ path /a{number}; }}")?;
        text.push_str(member.as_str())?;
    }
    Ok(())
}

// Leafs a0 to a15 from line 4 on, the last of 32,768 members; and a leaf behind them that has leafrefs to all for its members, which
// are 65,535, and whatever more is asked for.
fn doubled(alloc: Global, more: &str) -> Result<String, AllocError> {
    let mut text = String::from_str(
        alloc,
        "module m {\n namespace urn;\n prefix m; yang-version 1.1;\nleaf a0 { type union { type int8; } }\n",
    )?;
    push_doubles(alloc, &mut text)?;
    text.push_str("leaf x { type union {")?;
    push_members(alloc, &mut text)?;
    text.push_str(more)?;
    text.push_str(" } }\n}")?;
    Ok(text)
}

// How many nodes such a module has, or whether it is refused so.
fn is_doubled(alloc: Global, more: &str, told: &str) -> Option<bool> {
    let text = doubled(alloc, more).ok()?;
    let mut modules = Vec::new(alloc);
    push_module(alloc, &mut modules, text.as_str())?;
    is_wide_outcome(alloc, &modules, told)
}

// Members count with those of what leafrefs lead to.
#[test]
fn widths(rt: HostRuntime) {
    assert!(rt; is_doubled(rt.alloc(), "", "17 nodes") == Some(true));
    assert!(rt; is_doubled(rt.alloc(), " type boolean;", "C18:20") == Some(true));
}
