//! Features that are all chosen, and conditions of statements; under the core each such module is refused as ever.

use crate::compiling::is_told;
use crate::rows::all_hold;

// Each statement that may bear a condition.
#[test]
fn conditions_that_hold(rt: HostRuntime) {
    let rows = "1 nodes/C1:4/feature f; leaf a { if-feature f; type string; }
0 nodes/C1:4/feature f { description x; reference y; status current; }
1 nodes/C1:4/feature f; feature g { if-feature f; } leaf a { if-feature 'not f or (f and g)'; type string; }
1 nodes/C1:4/feature f; leaf a { if-feature f; if-feature 'f or f'; type string; }
2 nodes/C1:4/feature f; container c { if-feature m:f; leaf a { type string; } }
2 nodes/C1:4/feature f; list l { if-feature f; key k; leaf k { type string; } }
1 nodes/C1:4/feature f; leaf-list a { if-feature f; type string; default x; }
3 nodes/C1:4/feature f; choice c { if-feature f; case d { if-feature f; leaf a { if-feature f; type string; } } }
1 nodes/C1:4/feature f; grouping g { leaf a { type string; } } uses g { if-feature f; refine a { if-feature f; mandatory true; } }
2 nodes/C1:4/feature f; container c; augment /m:c { if-feature f; leaf a { type string; } }
1 nodes/C1:4/feature f; leaf a { type enumeration { enum x { if-feature f; } enum y; } default y; }
1 nodes/C1:4/feature f; leaf a { type bits { bit x { if-feature f; } bit y; } default y; }
1 nodes/C1:4/feature f; identity i; identity j { base i; if-feature f; } identity k { base j; } leaf a { type identityref { base i; } default k; }
1 nodes/C1:4/feature f; leaf a { if-feature '  f| and  f  '; type string; }
1 nodes/C1:4/feature f; leaf a { if-feature 'not not (not (f))'; type string; } leaf b { if-feature 'not not((f))or f'; type string; }
1 nodes/C1:4/feature f; typedef f { type string; } grouping f { leaf f { if-feature f; type f; } } identity f; uses f;
1 nodes/1 nodes/leaf a { type string; }";
    all_hold(&rt, rt.alloc(), rows, is_told);
}

// What they take away, with what stands below it.
#[test]
fn conditions_that_do_not(rt: HostRuntime) {
    let rows =
        "1 nodes/C1:4/feature f; leaf a { if-feature 'not f'; type string; } leaf b { type string; }
0 nodes/C1:4/feature f; leaf a { if-feature f; if-feature 'not f'; type string; }
1 nodes/C1:4/feature f; feature g { if-feature 'not f'; } leaf a { if-feature g; type string; } leaf b { if-feature 'not g'; type string; }
1 nodes/C1:4/feature f; container c { if-feature 'not f'; container d { leaf a { type string; } } } leaf b { type string; }
1 nodes/C1:4/feature f; container c { container d { if-feature 'not f'; leaf a { type string; } } }
1 nodes/C1:4/feature f; list l { if-feature 'not f'; key k; leaf k { type string; } leaf-list v { type string; } } leaf b { type string; }
3 nodes/C1:4/feature f; list l { key k; leaf k { type string; } leaf-list v { if-feature 'not f'; type string; } leaf w { type string; } }
0 nodes/C1:4/feature f; choice c { if-feature 'not f'; mandatory true; leaf a { type string; } }
3 nodes/C1:4/feature f; choice c { case d { if-feature 'not f'; leaf a { type string; } } case e { leaf b { type string; } } }
3 nodes/C1:4/feature f; choice c { leaf a { if-feature 'not f'; type string; } leaf b { type string; } }
3 nodes/C1:4/feature f; choice c { case d { leaf a { if-feature 'not f'; type string; } leaf b { type string; } } }
3 nodes/C1:4/feature f; choice c { default d; case d { if-feature 'not f'; leaf a { type string; } } case e { leaf b { type string; } } }
3 nodes/C1:4/feature f; choice c { default d; leaf d { if-feature 'not f'; type string; } leaf e { type string; } }
3 nodes/C1:4/feature f; choice c { choice d { if-feature 'not f'; leaf a { type string; } leaf b { type string; } } leaf e { type string; } }
1 nodes/C1:4/feature f; grouping g { leaf a { type string; } container c { leaf b { type string; } } } uses g { if-feature 'not f'; } leaf z { type string; }
3 nodes/C1:4/feature f; grouping g { leaf a { if-feature 'not f'; type string; } leaf b { type string; } } container c { uses g; } uses g;
1 nodes/C1:4/feature f; grouping g { leaf a { type string; } leaf b { type string; } } uses g { refine a { if-feature 'not f'; } }
4 nodes/C1:4/feature f; grouping g { container c { leaf a { type string; } } } container d { uses g { refine c/a { if-feature 'not f'; } } } uses g;
1 nodes/C1:4/feature f; grouping h { leaf a { type string; } } grouping g { uses h { if-feature 'not f'; } leaf b { type string; } } uses g;
0 nodes/C1:4/feature f; grouping h { leaf a { type string; } } grouping g { uses h { if-feature f; } } uses g { refine a { if-feature 'not f'; } }
2 nodes/C1:4/feature f; container c; augment /m:c { if-feature 'not f'; leaf a { type string; } container d; } augment /m:c { leaf e { type string; } }
1 nodes/C1:4/feature f; container c; augment /m:c { if-feature 'not f'; container d; } augment /m:c/m:d { leaf e { type string; } }
0 nodes/C1:4/feature f; container c { if-feature 'not f'; } augment /m:c { leaf a { type string; } }
3 nodes/C1:4/feature f; choice c { leaf a { type string; } } augment /m:c { if-feature 'not f'; case d { leaf e { type string; } } leaf h { type string; } }
2 nodes/C1:4/feature f; grouping g { leaf a { type string; } leaf b { type string; } } list l { key a; uses g { refine b { if-feature 'not f'; mandatory true; } } }";
    all_hold(&rt, rt.alloc(), rows, is_told);
}

// Names of features: C6, C7, C22, and which phase comes first.
#[test]
fn refused_names(rt: HostRuntime) {
    let rows = "C22:4/C1:4/leaf a { if-feature f; type string; }
C22:5/C1:4/feature f; leaf a {| if-feature 'f and g'; type string; }
C22:5/C1:4/feature f {| if-feature f; }
C22:5/C1:4/feature f {| if-feature g; }|feature g {| if-feature 'not f'; }
C22:7/C1:4/feature f { if-feature g; }|feature g {| if-feature h;| if-feature 'h or g'; }|feature h;
C22:5/C1:4/feature f { if-feature g; }|feature g { if-feature h; }|feature h { if-feature g; }
C22:5/C1:5/grouping g { leaf a {| if-feature h; type string; } }
C22:7/C1:7/grouping g { leaf a { type string; } }|container c {| uses g {| if-feature h; } }
C22:6/C1:6/grouping g { leaf a { type string; } }|uses g { refine a {| if-feature h; } }
C22:6/C1:6/container c;|augment /m:c {| if-feature h; leaf a { type string; } }
C22:6/C1:6/typedef t { type enumeration {| enum x {| if-feature h; } } }
C22:5/C1:5/leaf a { type bits { bit x {| if-feature h; } } }
C22:5/C1:5/identity i {| if-feature h; }
C22:6/C1:6/typedef f { type string; }|identity f;|leaf a { if-feature f; type string; }
C22:4/C1:4/container c { if-feature m:f; }
C8:4/C1:5/leaf a { type t; }|leaf b { if-feature f; type string; }
C22:5/C1:5/leaf a { type uint8 { range 5..1; } }|leaf b { if-feature f; type string; }
C6:5/C1:4/feature f; leaf a {| if-feature q:f; type string; }
C6:5/C1:4/feature f; leaf a {| if-feature 'f or not (q:f)'; type string; }
C7:6/C1:4/feature f;|feature g;|feature f;
C7:5/C1:4/feature f { if-feature g; }|feature f;";
    all_hold(&rt, rt.alloc(), rows, is_told);
}

// Arguments that are no expressions.
#[test]
fn refused_expressions(rt: HostRuntime) {
    let rows = "C3:5/C1:4/feature f; leaf a {| if-feature 'f or'; type string; }
C3:5/C1:4/feature f; leaf a {| if-feature '(f'; type string; }
C3:5/C1:4/feature f; leaf a {| if-feature 'f)'; type string; }
C3:5/C1:4/feature f; leaf a {| if-feature 'not'; type string; }
C3:5/C1:4/feature f; leaf a {| if-feature 'f f'; type string; }
C3:5/C1:4/feature f; leaf a {| if-feature ''; type string; }
C3:5/C1:4/feature f; leaf a {| if-feature 'f and and f'; type string; }
C3:5/C1:4/feature f; leaf a {| if-feature '()'; type string; }
C3:5/C1:4/feature f; leaf a {| if-feature 'f, f'; type string; }
C3:5/C1:4/feature f; leaf a {| if-feature; type string; }";
    all_hold(&rt, rt.alloc(), rows, is_told);
}

// Features and conditions that may not stand where they do.
#[test]
fn refused_places(rt: HostRuntime) {
    let rows = "C3:4/C1:4/feature;
C3:4/C1:4/feature 1;
C3:4/C1:4/feature m:f;
C1:4/C1:4/feature f { type string; }
C2:4/C1:4/feature f {| status current; status current; }
C1:4/C1:4/feature f { default true; }
C1:4/C1:4/feature f; leaf a { type string; if-feature f { description x; } }
C1:4/C1:4/container c { feature f; }
C1:5/C1:5/grouping g {| feature f; }
C1:5/C1:4/feature f; typedef t {| if-feature f; type string; }
C1:4/C1:4/feature f; grouping g { if-feature f; leaf a { type string; } }
C1:5/C1:4/feature f; leaf a { type string {| if-feature f; } }
C1:5/C1:4/feature f;|if-feature f;
C1:4/C1:4/feature f; list l { key k; leaf k { type string { length 1 { if-feature f; } } } }
C1:4/C1:4/import n { prefix n; if-feature f; }";
    all_hold(&rt, rt.alloc(), rows, is_told);
}

// A default of a name that bears a condition, whether it holds or not; a default case that is taken away.
#[test]
fn refused_defaults(rt: HostRuntime) {
    let rows =
        "C11:4/C1:4/feature f; leaf a {| type enumeration { enum x { if-feature f; } enum y; } default x; }
C11:4/C1:4/feature f; leaf a { type enumeration { enum x { if-feature 'not f'; } enum y; } default x; }
C11:4/C1:4/feature f; leaf-list a { type enumeration { enum x { if-feature f; } enum y; } default y; default x; }
0 nodes/C1:4/feature f; typedef t { type enumeration { enum x { if-feature f; } enum y; } default x; }
C11:5/C1:4/feature f; typedef t { type enumeration { enum x { if-feature f; } enum y; } default x; }|leaf a { type t; }
1 nodes/C1:4/feature f; typedef t { type enumeration { enum x { if-feature f; } enum y; } default x; }|leaf a { type t; default y; }
C11:5/C1:4/feature f; typedef t { type enumeration { enum x { if-feature f; } enum y; } }|leaf a { type t; default x; }
C11:4/C1:4/feature f; leaf a { type bits { bit x { if-feature f; } bit y; } default 'y x'; }
C11:4/C1:4/feature f; leaf a { type union { type enumeration { enum x { if-feature f; } } type enumeration { enum y; } } default x; }
C11:4/C1:4/feature f; leaf a { type union { type enumeration { enum x { if-feature f; } } type string; } default x; }
C11:5/C1:4/feature f; identity i; identity j { base i; if-feature f; }|leaf a { type identityref { base i; } default j; }
1 nodes/C1:4/feature f; identity i { if-feature f; } identity j { base i; }|leaf a { type identityref { base i; } default j; }
1 nodes/C1:4/feature f; identity i { if-feature 'not f'; } identity j { base i; }|leaf a { type identityref { base i; } default j; }
1 nodes/C1:4/feature f; identity i; identity j { base i; if-feature 'not f'; } identity k { base j; }|leaf a { type identityref { base i; } default k; }
C11:4/C1:4/feature f; grouping g { leaf a { type enumeration { enum x { if-feature f; } enum y; } } } uses g {| refine a { default x; } }
0 nodes/C1:4/feature f; leaf a { if-feature 'not f'; type enumeration { enum x { if-feature f; } enum y; } default x; }
0 nodes/C1:4/feature f; leaf a { if-feature 'not f'; type uint8; default 256; }
C11:4/C1:4/feature f; leaf a { if-feature f; type uint8; default 256; }
C10:4/C1:4/feature f; leaf a { if-feature 'not f'; type uint8 { range 5..1; } }
C11:4/C1:4/feature f; choice c { default d; leaf e { if-feature f; type string; } }
1 nodes/C1:4/feature f; choice c { default d; case d { if-feature 'not f'; leaf a { type string; mandatory true; } } }
C11:4/C1:4/feature f; choice c { default d; case d { if-feature f; leaf a { type string; mandatory true; } } }
2 nodes/C1:4/feature f; choice c { default d; case d { leaf a { if-feature 'not f'; type string; mandatory true; } } }";
    all_hold(&rt, rt.alloc(), rows, is_told);
}

// Keys and names are judged whether the conditions hold or not.
#[test]
fn refused_keys(rt: HostRuntime) {
    let rows = "C12:4/C1:4/feature f; list l { key k; leaf k { if-feature f; type string; } }
C12:4/C1:4/feature f; list l { key k; leaf k { if-feature 'not f'; type string; } }
2 nodes/C1:4/feature f; list l { if-feature f; key k; leaf k { type string; } }
0 nodes/C1:4/feature f; list l { if-feature 'not f'; key k; leaf k { if-feature f; type string; } }
2 nodes/C1:4/feature f; grouping g { leaf k { type string; } }|list l { key k; uses g { if-feature f; } }
2 nodes/C1:4/feature f; grouping g { leaf k { type string; } }|list l { key k; uses g {| refine k { if-feature f; } } }
3 nodes/C1:4/feature f; grouping g { leaf k { if-feature f; type string; } list l { key k; uses h; } }|grouping h { leaf k { type string; } }|uses g;
3 nodes/C1:4/feature f; list l { key k; leaf k { type string; } leaf a { if-feature f; type string; } unique a; }
C12:4/C1:4/feature f; list l { key k; leaf k { type string; } leaf a { if-feature 'not f'; type string; } unique a; }
C12:4/C1:4/feature f; list l { config false; if-feature f; key k; leaf k { if-feature f; type string; } }
C13:5/C1:4/feature f; leaf a { if-feature f; type string; }|leaf a { if-feature 'not f'; type string; }
C13:5/C1:4/feature f; choice c { case d { if-feature f; leaf a { type string; } } case e { if-feature 'not f';| leaf a { type string; } } }
C13:4/C1:4/feature f; grouping g { leaf a { type string; } }|uses g { if-feature f; }|uses g { if-feature 'not f'; }
C13:5/C1:4/feature f; container c { leaf a { type string; } }|augment /m:c { if-feature 'not f'; leaf a { type string; } }";
    all_hold(&rt, rt.alloc(), rows, is_told);
}

// What is taken away is no state, refers to nothing, and nothing refers to it; but it is refined and added to.
#[test]
fn refused_ends(rt: HostRuntime) {
    let rows = "0 nodes/C1:4/feature f; list l { if-feature 'not f'; leaf a { type string; } }
C16:4/C1:4/feature f; list l { if-feature f; leaf a { type string; } }
1 nodes/C1:4/feature f; container c { config false; container d { if-feature 'not f'; config true; } }
C17:4/C1:4/feature f; leaf a { type leafref { path /m:b; } } leaf b { if-feature 'not f'; type string; }
2 nodes/C1:4/feature f; leaf a { type leafref { path /m:b; } } leaf b { if-feature f; type string; }
0 nodes/C1:4/feature f; leaf a { if-feature 'not f'; type leafref { path /m:b; } } leaf b { if-feature 'not f'; type string; }
0 nodes/C1:4/feature f; leaf a { if-feature 'not f'; type leafref { path /m:z; } }
C17:4/C1:4/feature f; leaf a { type leafref { path /m:c/m:b; } } container c { if-feature 'not f'; leaf b { type string; } }
C17:4/C1:4/feature f; leaf a { type leafref { path /m:b; } } leaf b { if-feature 'not f'; type leafref { path /m:a; } }
C14:5/C1:4/feature f; grouping g { container c; } uses g {| refine d { if-feature f; } }
C14:5/C1:4/feature f; grouping g { container c; } uses g { if-feature 'not f';| refine c { mandatory true; } }
C14:4/C1:4/feature f; container c { if-feature 'not f'; } augment /m:d { leaf a { type string; } }
C14:4/C1:4/feature f; augment /m:d {| if-feature 'not f'; leaf a { type string; } }";
    all_hold(&rt, rt.alloc(), rows, is_told);
}
