//! Operations: where they stand, what is told of them, and that no schema holds them; under the core each such module is refused.

use crate::compiling::is_told;

// What stands in them, and what augments and refines make of them.
#[test]
fn operations_that_are_read(rt: HostRuntime) {
    let rows = "0 nodes/C1:4/rpc r;
0 nodes/C1:4/rpc r { typedef t { type string; } grouping g { leaf a { type t; } } input { uses g; } output { leaf b { type t; } } }
0 nodes/C1:4/feature f; rpc r { if-feature f; input { typedef t { type string; } container c { leaf a { type t; } } } }
0 nodes/C1:4/notification n { leaf a { type string; } list l { leaf b { type string; } } }
2 nodes/C1:4/container c { action a { input { leaf x { type string; } } } notification n; leaf b { type string; } }
2 nodes/C1:4/list l { key k; leaf k { type string; } action a; notification n; }
1 nodes/C1:4/grouping g { action a { input { leaf x { type string; } } } } container c { uses g { refine a/input/x { mandatory true; } } }
0 nodes/C1:4/rpc r { input { leaf a { type string; } } } augment /m:r/m:input { leaf b { type string; } }
0 nodes/C1:4/notification n { container c; } augment /m:n/m:c { leaf b { type string; } }
1 nodes/C1:4/container c; augment /m:c { action a { output { leaf x { type string; } } } }
0 nodes/C1:4/rpc r { input { list l { leaf a { type int8; default x; } } leaf b { type leafref { path /m:none; } } } }
3 nodes/C1:4/choice h { default d; case d { container c { action a { input { leaf x { mandatory true; type string; } } } } } }
0 nodes/C1:4/feature f; rpc r { if-feature 'not f'; } notification n { if-feature 'not f'; leaf a { type string; } }";
    for row in rows.lines() {
        assert!(rt; is_told(rt.alloc(), row) == Some(true), "{row:?}");
    }
}

// What the table, names, targets and places tell.
#[test]
fn operations_that_are_told(rt: HostRuntime) {
    let rows = "C3:4/C1:4/rpc r { input x { leaf a { type string; } } }
C2:4/C1:4/rpc r { output { leaf a { type string; } } output { leaf b { type string; } } }
C1:5/C1:4/rpc r {| leaf a { type string; } }
C1:4/C1:4/action a;
C13:5/C1:5/container r;|rpc r;
C13:5/C1:4/rpc r { input { leaf a { type string; }| leaf a { type string; } } }
C8:5/C1:4/notification n {| leaf a { type t; } }
C14:5/C1:4/rpc r { input { leaf a { type string; } } }|augment /m:r { leaf b { type string; } }
C14:5/C1:4/rpc r;|augment /m:r/m:input { leaf b { type string; } }
C14:5/C1:5/choice h { case d; }|augment /m:h/m:d { action a; }
C24:5/C1:5/grouping g {| action a; }|uses g;
C24:5/C1:5/grouping g {| notification n; }|choice h { case d { uses g; } }
C24:5/C1:5/grouping g {| notification n; }|rpc r { input { uses g; } }
C24:5/C1:5/list l { config false;| action a; }
C24:5/C1:5/list l { config false; container c {| notification n; } }
C17:5/C1:4/rpc r { input { leaf a { type string; } } }|leaf b { type leafref { path /m:r/m:input/m:a; } }";
    for row in rows.lines() {
        assert!(rt; is_told(rt.alloc(), row) == Some(true), "{row:?}");
    }
}
