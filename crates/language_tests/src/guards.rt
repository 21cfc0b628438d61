//! Conditions that are read and not judged, and what is asked of the nodes that hang on them (RFC 7950, 7.5.3 and 7.21.5).

use crate::compiling::is_told_of_set;
use crate::documents::is_validated;
use crate::rows::all_hold;

// Where each may stand, how often, and what it may bear.
#[test]
fn places(rt: HostRuntime) {
    let rows = "all/C1:4/m:1.1 leaf a { must b; type string; }
all/C1:4/m:1.1 leaf a { when b; type string; }
must/1 nodes/m:1.1 leaf a { must b; must ''; type string; }
must/C1:4/m:1.1 leaf a { when b; type string; }
when/1 nodes/m:1.1 leaf a { when b; type string; }
when/C1:4/m:1.1 leaf a { must b; type string; }
must when/7 nodes/m:1.1 container c { must a; when b; } list l { config false; must a; when b; } leaf-list d { must a; when b; type string; } choice h { when a; case k { when a; leaf x { type string; } } } leaf y { type string; must a; }
must when/2 nodes/m:1.1 grouping g { leaf x { type string; } } uses g { when a; refine x { must a; must b; } } augment /m:c { when a; } container c;
must when/1 nodes/m: grouping g { leaf x { when a; type string; } } uses g { when b; refine x { must a; } }
must when/1 nodes/m:1.1 leaf a { must b { error-message a; error-app-tag b; description c; reference d; } when c { description c; reference d; } type string; }
must when/C1:4/m:1.1 must a;
must when/C1:4/m:1.1 when a;
must when/C1:5/m:1.1 choice c {| must a; }
must when/C1:6/m:1.1 grouping g { leaf x { type string; } }|uses g {| refine x { when a; } }
must when/C1:5/m:1.1 typedef t {| when a; type string; }
must when/C1:5/m:1.1 container c {| when a { error-message b; } }
must when/C2:4/m:1.1 container c { when a; when b; }
must when/C2:5/m:1.1 container c {| must a { description b; description c; } }
must when/C3:5/m:1.1 container c {| must; }
must when/C3:5/m:1.1 container c {| when; }";
    all_hold(&rt, rt.alloc(), rows, is_told_of_set);
}

// Keys, and what augments add.
#[test]
fn rules(rt: HostRuntime) {
    let rows = "must when/C12:4/m:1.1 list l { key k;| leaf k { when a; type string; } }
must when/2 nodes/m: list l { key k; leaf k { when a; type string; } }
must when/2 nodes/m:1.1 list l { key k; uses g { when a; } } grouping g { leaf k { must a; type string; } }
must when/2 nodes/m:1.1 import n { prefix n; } augment /n:c { when a; leaf x { mandatory true; type string; } } ~ n:1.1 container c;
must when/C15:5/m:1.1 import n { prefix n; }|augment /n:c { leaf x { when a; mandatory true; type string; } } ~ n:1.1 container c;
must when/C15:5/m: import n { prefix n; }|augment /n:c { when a; leaf x { mandatory true; type string; } } ~ n: container c;
must when/C11:4/m:1.1 leaf x { when a; type int8; default 200; }";
    all_hold(&rt, rt.alloc(), rows, is_told_of_set);
}

// What isn't there isn't asked, and what is there is judged as ever.
#[test]
fn documents(rt: HostRuntime) {
    let rows =
        r#"must when => none => {} => m:1.1 leaf x { when a; mandatory true; type string; } leaf-list y { when a; min-elements 1; type string; } list l { when a; key k; min-elements 1; leaf k { type string; } } choice h { when a; mandatory true; leaf z { type string; } }
must when => V3 data-missing - /m:x -| => {} => m:1.1 leaf x { must a; mandatory true; type string; }
must when => V3 data-missing - /m:e/z -| => {} => m:1.1 container c { when a; container d { leaf x { mandatory true; type string; } } leaf y { type string; } } container e { leaf z { mandatory true; type string; } }
must when => V11 data-missing instance-required /m:y -| => {"m:y":1} => m:1.1 leaf x { when a; default 1; type int8; } leaf y { type leafref { path /m:x; } }
must when => none => {"m:x":""} => m:1.1 choice h { mandatory true; case k { when a; leaf x { type string; } leaf y { mandatory true; type string; } } leaf z { type string; } }
must when => V4 data-missing missing-choice / h| => {} => m:1.1 choice h { mandatory true; case k { when a; leaf x { type string; } leaf y { mandatory true; type string; } } leaf z { type string; } }
must when => V3 data-missing - /m:e/c/y -| => {"m:e":{"x":""}} => m:1.1 grouping g { leaf x { mandatory true; type string; } container c { leaf y { mandatory true; type string; } } } container d { uses g { when a; } } container e { presence p; uses g; }
must when => V3 data-missing - /m:c/d/z -| => {} => m:1.1 container c { container d; } augment /m:c { when a; leaf x { mandatory true; type string; } } augment /m:c/m:d { uses g { when a; } leaf z { mandatory true; type string; } } grouping g { leaf y { mandatory true; type string; } }
must when => V1 invalid-value - /m:c/x -| => {"m:c":{"x":200}} => m:1.1 container c { when a; leaf x { type int8; } }
must when => V7 operation-failed too-many-elements /m:c/y -| => {"m:c":{"y":["a","b"]}} => m:1.1 container c { when a; leaf-list y { min-elements 1; max-elements 1; type string; } }
must when => V2 missing-element - /m:c/l[1]/k -| => {"m:c":{"l":[{"u":"a"}]}} => m:1.1 container c { when a; list l { key k; leaf k { type string; } leaf u { type string; } leaf v { mandatory true; type string; } } }"#;
    all_hold(&rt, rt.alloc(), rows, is_validated);
}
