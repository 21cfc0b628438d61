//! Modules of YANG 1, which the core refuses.

use crate::compiling::is_told_of_yang_1;
use crate::rows::all_hold;

// What YANG 1 has.
#[test]
fn accepted(rt: HostRuntime) {
    let rows = "1 nodes/leaf a { type string; }
5 nodes/choice a { case b { choice c { leaf d { type string; } } } }
2 nodes/container c { presence x; config false; leaf-list a { type string; min-elements 1; } }
3 nodes/list l { key k; unique a; leaf k { type string; } leaf a { type uint8; default 3; } }
1 nodes/grouping g { leaf a { type uint8; } } uses g { refine a { default 3; } }
1 nodes/identity i; identity j { base i; } leaf a { type identityref { base i; } default j; }
2 nodes/leaf a { type leafref { path /m:b; } } leaf b { type string; }
1 nodes/leaf a { type union { type uint8; type enumeration { enum x; } } default x; }
1 nodes/typedef t { type decimal64 { fraction-digits 2; } } leaf a { type t { range 1..2; } default 1.5; }
3 nodes/feature f; feature g { if-feature f; } leaf a { if-feature f; if-feature m:g; type string; } container c { if-feature g; leaf b { type empty; } }
3 nodes/feature f; grouping g { leaf a { type string; } } uses g { if-feature f; } container c; augment /m:c { if-feature f; leaf a { type string; } }
2 nodes/feature f; list l { key k; leaf k { if-feature f; type string; } }
1 nodes/leaf a { type string; } revision 2020-01-01; organization o; contact c;
C3:4/import xml { prefix xmli; }
8 nodes/choice c { default a; leaf a { type string; } container b; list l { key k; leaf k { type string; } } }";
    all_hold(&rt, rt.alloc(), rows, is_told_of_yang_1);
}

// What YANG 1 lacks of YANG 1.1: statements, amounts and arguments.
#[test]
fn lacking(rt: HostRuntime) {
    let rows = "C1:5/choice a {| choice b { leaf c { type string; } } }
C1:5/leaf-list a { type string;| default x; }
C1:5/feature f; identity i {| if-feature f; }
C1:5/feature f; leaf a { type enumeration { enum x {| if-feature f; } } }
C1:5/feature f; leaf a { type bits { bit x {| if-feature f; } } }
C1:5/feature f; grouping g { leaf a { type string; } } uses g { refine a {| if-feature f; } }
C1:5/import n { prefix n;| description x; }
C1:5/import n { prefix n;| reference x; }
C2:5/identity a; identity b; leaf c {| type identityref { base a; base b; } }
C2:5/identity a; identity b;|identity c { base a; base b; }
C2:5/grouping g { leaf-list a { type string; } } uses g {| refine a { default x; default y; } }
C3:4/leaf xmla { type string; }
C3:4/container XmL;
C3:4/typedef xMl { type string; }
C3:5/feature f;| leaf xMLa { if-feature f; type string; }
C3:4/feature xmlf;
C3:5/feature f; leaf a {| if-feature 'f or f'; type string; }
C3:4/feature f; leaf a { if-feature 'not f'; type string; }
C3:4/feature f; leaf a { if-feature '(f)'; type string; }
C3:4/feature f; leaf a { if-feature ' f'; type string; }";
    all_hold(&rt, rt.alloc(), rows, is_told_of_yang_1);
}

// The same of types, keys and augments, and what is refused in both.
#[test]
fn refused(rt: HostRuntime) {
    let rows = "C10:5/leaf a { type union {| type empty; } }
C10:4/leaf a { type union { type uint8; type t; } }|typedef t { type empty; }
C10:5/leaf b { type string; } leaf a { type union {| type leafref { path /m:b; } } }
C10:5/leaf b { type string; } leaf a {| type leafref { path /m:b; require-instance false; } }
C10:5/leaf b { type string; } typedef t {| type leafref { path /m:b; require-instance true; } }
C10:5/typedef t { type enumeration { enum a; enum b; } } leaf a {| type t { enum a; } }
C10:5/typedef t { type bits { bit a; bit b; } } leaf a {| type t { bit a; } }
C12:4/list l { key k; leaf k { type empty; } }
C12:4/list l { key 'j k'; leaf j { type string; } leaf k { type t; } } typedef t { type empty; }
C12:4/list l { config false; key k; leaf k { type empty; } }
C22:4/leaf a { if-feature f; type string; }
C22:4/feature f { if-feature f; }
C6:4/feature f; leaf a { if-feature q:f; type string; }
C7:4/feature f; feature f;
C14:5/choice c;|augment /m:c { choice d { leaf a { type string; } } }
6 nodes/choice c { case d { leaf a { type string; } } }|augment /m:c/m:d { choice e { leaf b { type string; } } }
C13:5/feature f; leaf a { type string; }|leaf a { if-feature f; type string; }
C11:4/leaf a { type uint8; default 256; }
C17:4/leaf a { type leafref { path /m:z; } }
C16:4/list l { leaf a { type string; } }";
    all_hold(&rt, rt.alloc(), rows, is_told_of_yang_1);
}
