//! Augments below a `uses`: what they add, where they may lead, and that the core refuses them (RFC 7950, 7.13 and 7.17).

use crate::compiling::{is_told, is_told_of_set, is_told_of_yang_1, is_told_where_chosen};
use crate::rows::all_hold;

// What they add: to nodes of each kind, one behind the other, and with groupings in use below them.
#[test]
fn augments_that_are_read(rt: HostRuntime) {
    let rows =
        "9 nodes/C1:4/grouping g { container c { leaf x { type string; } list l { key k; leaf k { type string; } } choice h { leaf y { type string; } } } leaf z { type string; } } uses g { augment c { leaf a { type string; } } }
10 nodes/C1:4/grouping g { container c { leaf x { type string; } list l { key k; leaf k { type string; } } choice h { leaf y { type string; } } } leaf z { type string; } } uses g { augment c { list n { key j; leaf j { type string; } } } }
11 nodes/C1:4/grouping g { container c { leaf x { type string; } list l { key k; leaf k { type string; } } choice h { leaf y { type string; } } } leaf z { type string; } } uses g { augment c/l { leaf a { type string; } container d { leaf b { type string; } } } }
11 nodes/C1:4/grouping g { container c { leaf x { type string; } list l { key k; leaf k { type string; } } choice h { leaf y { type string; } } } leaf z { type string; } } uses g { augment c/h { case i { leaf a { type string; } leaf b { type string; } } } }
14 nodes/C1:4/grouping g { container c { leaf x { type string; } list l { key k; leaf k { type string; } } choice h { leaf y { type string; } } } leaf z { type string; } } uses g { augment c/h { leaf a { type string; } container b; case d { leaf e { type string; } } } }
9 nodes/C1:4/grouping g { container c { leaf x { type string; } list l { key k; leaf k { type string; } } choice h { leaf y { type string; } } } leaf z { type string; } } uses g { augment c/h/y { leaf a { type string; } } }
10 nodes/C1:4/grouping g { container c { leaf x { type string; } list l { key k; leaf k { type string; } } choice h { leaf y { type string; } } } leaf z { type string; } } uses g { augment m:c/m:h { leaf a { mandatory true; type string; } } }
8 nodes/C1:4/grouping g { container c { leaf x { type string; } list l { key k; leaf k { type string; } } choice h { leaf y { type string; } } } leaf z { type string; } } uses g { augment c { description d; } }
11 nodes/C1:4/grouping g { container c { leaf x { type string; } list l { key k; leaf k { type string; } } choice h { leaf y { type string; } } } leaf z { type string; } } uses g { augment c { container d; } augment c/d { leaf a { type string; } } augment c { leaf b { type string; } } }
13 nodes/C1:4/grouping g { container c { leaf x { type string; } list l { key k; leaf k { type string; } } choice h { leaf y { type string; } } } leaf z { type string; } } container w { leaf before { type string; } uses g { augment c { leaf a { type string; } } augment c/l { leaf b { type string; } } } leaf behind { type string; } }
10 nodes/C1:4/grouping g { container c { leaf x { type string; } list l { key k; leaf k { type string; } } choice h { leaf y { type string; } } } leaf z { type string; } } grouping f { uses g { augment c { leaf a { type string; } } } } uses f { refine c/a { default b; } augment c/l { leaf b { type string; } } }
10 nodes/C1:4/grouping g { container c { leaf x { type string; } list l { key k; leaf k { type string; } } choice h { leaf y { type string; } } } leaf z { type string; } } grouping f { leaf b { type string; } } uses g { augment c { uses f; leaf a { type string; } } }
11 nodes/C1:4/grouping g { container c { leaf x { type string; } list l { key k; leaf k { type string; } } choice h { leaf y { type string; } } } leaf z { type string; } } grouping f { container e; } uses g { augment c { uses f { augment e { leaf w { type string; } } } leaf a { type string; } } }
11 nodes/C1:4/grouping g { container c { leaf x { type string; } list l { key k; leaf k { type string; } } choice h { leaf y { type string; } } } leaf z { type string; } } grouping f { container e; } grouping i { uses f { augment e { uses g { augment c/l { leaf v { type string; } } } } } } container d { uses i; }
0 nodes/C1:4/grouping g { container c { leaf x { type string; } list l { key k; leaf k { type string; } } choice h { leaf y { type string; } } } leaf z { type string; } } grouping f { uses g { augment q { leaf a { type string; } } } }
10 nodes/C1:4/grouping g { container c { leaf x { type string; } list l { key k; leaf k { type string; } } choice h { leaf y { type string; } } } leaf z { type string; } } uses g { augment c { container d { typedef t { type string; } leaf a { type t; } } } }
10 nodes/C1:4/grouping g { container c { leaf x { type string; } list l { key k; leaf k { type string; } } choice h { leaf y { type string; } } } leaf z { type string; } } uses g { augment c { action a; notification n; choice i; anydata b; } }
0 nodes/C1:4/grouping g { container c { leaf x { type string; } list l { key k; leaf k { type string; } } choice h { leaf y { type string; } } } leaf z { type string; } } rpc r { input { uses g { augment c { leaf a { type string; } } } } }
3 nodes/C1:4/grouping g { list l { key k; } } uses g { augment l { leaf k { type string; } leaf a { type string; } } }
10 nodes/C1:4/grouping g { container c { leaf x { type string; } list l { key k; leaf k { type string; } } choice h { leaf y { type string; } } } leaf z { type string; } } uses g { augment c { leaf a { type string; } } } leaf q { type leafref { path /m:c/m:a; } }
18 nodes/C1:4/grouping g { container c { leaf x { type string; } list l { key k; leaf k { type string; } } choice h { leaf y { type string; } } } leaf z { type string; } } uses g { augment c { container d; } } augment /m:c/m:d { uses g { augment c { leaf a { type string; } } } }";
    all_hold(&rt, rt.alloc(), rows, is_told);
}

// Without a fit target, of wrong names, or out of place.
#[test]
fn augments_that_are_told(rt: HostRuntime) {
    let rows =
        "C14:5/C1:5/grouping g { container c { leaf x { type string; } list l { key k; leaf k { type string; } } choice h { leaf y { type string; } } } leaf z { type string; } } uses g {| augment d { leaf a { type string; } } }
C14:5/C1:5/grouping g { container c { leaf x { type string; } list l { key k; leaf k { type string; } } choice h { leaf y { type string; } } } leaf z { type string; } } container d; uses g {| augment d { leaf a { type string; } } }
C14:5/C1:5/grouping g { container c { leaf x { type string; } list l { key k; leaf k { type string; } } choice h { leaf y { type string; } } } leaf z { type string; } } uses g {| augment z { leaf a { type string; } } }
C14:5/C1:5/grouping g { container c { leaf x { type string; } list l { key k; leaf k { type string; } } choice h { leaf y { type string; } } } leaf z { type string; } } uses g {| augment c { case b { leaf a { type string; } } } }
C14:5/C1:5/grouping g { container c { leaf x { type string; } list l { key k; leaf k { type string; } } choice h { leaf y { type string; } } } leaf z { type string; } } grouping f { leaf b { type string; } } uses g {| augment c/h { uses f; } }
C14:5/C1:5/grouping g { container c { leaf x { type string; } list l { key k; leaf k { type string; } } choice h { leaf y { type string; } } } leaf z { type string; } } uses g {| augment c/h { action a; } }
C14:5/C1:5/grouping g { container c { leaf x { type string; } list l { key k; leaf k { type string; } } choice h { leaf y { type string; } } } leaf z { type string; } } uses g {| augment c/d { leaf a { type string; } }| augment c { container d; } }
C14:5/C1:4/grouping g { container c { leaf x { type string; } list l { key k; leaf k { type string; } } choice h { leaf y { type string; } } } leaf z { type string; } } uses g { augment c { leaf a { type string; } }| refine c/a { default b; } }
C14:5/C1:5/grouping e; uses e {| augment c { leaf a { type string; } } }
C14:5/C1:5/grouping e; uses e {| augment c {| uses e {| refine q { description d; } } } }
C14:5/C1:5/grouping e; grouping f { uses e {| augment c {| uses e {| augment q; } } } } uses f;
C14:7/C1:5/grouping g { container c { leaf x { type string; } list l { key k; leaf k { type string; } } choice h { leaf y { type string; } } } leaf z { type string; } } grouping e; uses g {| augment c {| uses e {| refine q { description d; } } } }
C14:5/C1:6/grouping g { container c { leaf x { type string; } list l { key k; leaf k { type string; } } choice h { leaf y { type string; } } } leaf z { type string; } } grouping e; grouping f { uses e {| refine q { description d; } } } uses g {| augment r { uses f; } }
C13:6/C1:5/grouping g { container c { leaf x { type string; } list l { key k; leaf k { type string; } } choice h { leaf y { type string; } } } leaf z { type string; } } uses g {| augment c {| leaf x { type string; } } }
C13:5/C1:4/grouping g { container c { leaf x { type string; } list l { key k; leaf k { type string; } } choice h { leaf y { type string; } } } leaf z { type string; } } uses g { augment c { leaf a { type string; }| leaf a { type string; } } }
C3:5/C1:5/grouping g { container c { leaf x { type string; } list l { key k; leaf k { type string; } } choice h { leaf y { type string; } } } leaf z { type string; } } uses g {| augment /m:c { leaf a { type string; } } }
C3:5/C1:5/grouping g { container c { leaf x { type string; } list l { key k; leaf k { type string; } } choice h { leaf y { type string; } } } leaf z { type string; } } uses g {| augment; }
C3:5/C3:5/container c;|augment c { leaf a { type string; } }
C6:5/C1:5/grouping g { container c { leaf x { type string; } list l { key k; leaf k { type string; } } choice h { leaf y { type string; } } } leaf z { type string; } } uses g {| augment n:c { leaf a { type string; } } }
C6:5/C1:5/grouping g { container c { leaf x { type string; } list l { key k; leaf k { type string; } } choice h { leaf y { type string; } } } leaf z { type string; } } uses g {| augment c/n:h { leaf a { type string; } } }
C2:5/C1:5/grouping g { container c { leaf x { type string; } list l { key k; leaf k { type string; } } choice h { leaf y { type string; } } } leaf z { type string; } } uses g {| augment c { description d; description e; } }
C1:6/C1:5/grouping g { container c { leaf x { type string; } list l { key k; leaf k { type string; } } choice h { leaf y { type string; } } } leaf z { type string; } } uses g {| augment c {| typedef t { type string; } } }
C8:6/C1:5/grouping g { container c { leaf x { type string; } list l { key k; leaf k { type string; } } choice h { leaf y { type string; } } } leaf z { type string; } } uses g {| augment c {| leaf a { type t; } } }
C9:6/C1:5/grouping g { container c { leaf x { type string; } list l { key k; leaf k { type string; } } choice h { leaf y { type string; } } } leaf z { type string; } } grouping f { uses g {| augment c {| uses f; } } }
C1:5/C1:5/grouping g { container c { leaf x { type string; } list l { key k; leaf k { type string; } } choice h { leaf y { type string; } } } leaf z { type string; } } uses g {| leaf a { type string; } }";
    all_hold(&rt, rt.alloc(), rows, is_told);
}

// In YANG 1, with features, and in the groupings of other modules.
#[test]
fn augments_of_others(rt: HostRuntime) {
    let rows =
        "4 nodes/grouping g { container c { choice h; } } uses g { augment c { leaf a { type string; } choice i; } }
C14:5/grouping g { container c { choice h; } } uses g {| augment c/h { choice i; } }
C1:5/grouping g { container c; } uses g { augment c {| anydata a; } }";
    all_hold(&rt, rt.alloc(), rows, is_told_of_yang_1);
    let rows =
        "m:f/10 nodes/feature f; grouping g { container c { leaf x { type string; } list l { key k; leaf k { type string; } } choice h { leaf y { type string; } } } leaf z { type string; } } uses g { augment c { if-feature f; leaf a { type string; } container b; } }
m:/8 nodes/feature f; grouping g { container c { leaf x { type string; } list l { key k; leaf k { type string; } } choice h { leaf y { type string; } } } leaf z { type string; } } uses g { augment c { if-feature f; leaf a { type string; } container b; } }
m:f/10 nodes/feature f; grouping g { container c { leaf x { type string; } list l { key k; leaf k { type string; } } choice h { leaf y { type string; } } } leaf z { type string; } } uses g { augment c/h { if-feature f; leaf a { type string; } } }
m:/8 nodes/feature f; grouping g { container c { leaf x { type string; } list l { key k; leaf k { type string; } } choice h { leaf y { type string; } } } leaf z { type string; } } uses g { augment c/h { if-feature f; leaf a { type string; } } }
m:f/9 nodes/feature f; grouping g { container c { leaf x { type string; } list l { key k; leaf k { type string; } } choice h { leaf y { type string; } } } leaf z { type string; } } uses g { if-feature f; augment c { leaf a { type string; } } }
m:/0 nodes/feature f; grouping g { container c { leaf x { type string; } list l { key k; leaf k { type string; } } choice h { leaf y { type string; } } } leaf z { type string; } } uses g { if-feature f; augment c { leaf a { type string; } } }
m:f/10 nodes/feature f; grouping g { container c { leaf x { type string; } list l { key k; leaf k { type string; } } choice h { leaf y { type string; } } } leaf z { type string; } } uses g { augment c { leaf a { if-feature f; type string; } container b; } }
m:/9 nodes/feature f; grouping g { container c { leaf x { type string; } list l { key k; leaf k { type string; } } choice h { leaf y { type string; } } } leaf z { type string; } } uses g { augment c { leaf a { if-feature f; type string; } container b; } }
m:f/C14:5/feature f; grouping g { container c { leaf x { type string; } list l { key k; leaf k { type string; } } choice h { leaf y { type string; } } } leaf z { type string; } } uses g {| augment q { if-feature f; } }
m:/C14:5/feature f; grouping g { container c { leaf x { type string; } list l { key k; leaf k { type string; } } choice h { leaf y { type string; } } } leaf z { type string; } } uses g {| augment q { if-feature f; } }";
    all_hold(&rt, rt.alloc(), rows, is_told_where_chosen);
    let rows =
        "all/4 nodes/m:1.1 import n { prefix n; } uses n:g { augment c { leaf a { mandatory true; type string; } } } leaf q { type leafref { path /m:c/m:a; } } ~ n:1.1 grouping g { container c { leaf x { type string; } } }
all/C14:5/m:1.1 import n { prefix n; } uses n:g {| augment n:c { leaf a { type string; } } } ~ n:1.1 grouping g { container c { leaf x { type string; } } }
all/4 nodes/m:1.1 import n { prefix n; } uses n:g; leaf q { type leafref { path /m:c/m:a; } } ~ n:1.1 grouping f { container c { leaf x { type string; } } } grouping g { uses f { augment c { leaf a { type string; } } } }
all/C14:5/n:1.1 grouping f { container c { leaf x { type string; } } } grouping g { uses f {| augment n:c { leaf a { type string; } } } } ~ m:1.1 import n { prefix n; } uses n:g;
all/1 nodes/n:1.1 grouping f { container c { leaf x { type string; } } } grouping g { uses f {| augment n:c { leaf a { type string; } } } } ~ m:1.1 import n { prefix n; } container d;";
    all_hold(&rt, rt.alloc(), rows, is_told_of_set);
}
