//! Nodes without a type: where they stand, what is told of them; under the core each such module is refused.

use crate::compiling::{is_told, is_told_of_yang_1};
use crate::documents::is_validated;
use crate::rows::all_hold;

// What they bear, and what augments and refines make of them.
#[test]
fn nodes_that_are_read(rt: HostRuntime) {
    let rows = "1 nodes/C1:4/anydata a;
2 nodes/C1:4/anydata a; anyxml b { config false; mandatory true; status obsolete; description d; reference e; }
4 nodes/C1:4/list l { key k; leaf k { type string; } anydata a; anyxml b; }
5 nodes/C1:4/choice h { anydata b; case d { anyxml e; } }
2 nodes/C1:4/grouping g { anyxml a; } container c { uses g { refine a { mandatory true; config false; } } }
2 nodes/C1:5/container c;|augment /m:c { anydata a; }
1 nodes/C1:4/feature f; anydata a { if-feature f; } anyxml b { if-feature 'not f'; }
0 nodes/C1:4/rpc r { input { anydata a; } output { anyxml b; } } notification n { anydata c; }";
    all_hold(&rt, rt.alloc(), rows, is_told);
}

// What the table, names, keys, leafrefs, refines, augments and configuration tell.
#[test]
fn nodes_that_are_told(rt: HostRuntime) {
    let rows = "C1:5/C1:4/anydata a {| default x; }
C1:5/C1:4/anyxml a {| type string; }
C2:4/C1:4/anyxml a { config true; config true; }
C3:4/C1:4/anydata;
C1:5/C1:5/leaf a { type string;| anydata b; }
C13:5/C1:4/anydata a;|anyxml a;
C12:4/C1:4/list l { key a; anyxml a; }
C12:4/C1:4/list l { key k; unique b; leaf k { type string; } anydata b; }
C17:5/C1:4/anydata a;|leaf b { type leafref { path /m:a; } }
C14:6/C1:4/grouping g { anyxml a; }|uses g {| refine a { default x; } }
C14:5/C1:4/anydata a;|augment /m:a { leaf b { type string; } }
C16:5/C1:5/container c { config false;| anyxml a { config true; } }
C11:4/C1:5/choice h { default a;| anydata a { mandatory true; } }";
    all_hold(&rt, rt.alloc(), rows, is_told);
}

#[test]
fn nodes_of_yang_1(rt: HostRuntime) {
    let rows = "4 nodes/anyxml a; choice h { anyxml b; }
1 nodes/anyxml a; rpc r { input { anyxml c; } } notification n { anyxml d; }
C1:4/anydata a;
C1:4/container c { anydata a; }";
    all_hold(&rt, rt.alloc(), rows, is_told_of_yang_1);
}

// What documents have for them, and what is asked of them.
#[test]
fn values(rt: HostRuntime) {
    let rows = r#"all => none => {"m:a":{}} => m:1.1 anydata a;
all => none => {"m:a":{"x":[1,{"n:y":null}],"z":"t"}} => m:1.1 anydata a;
all => J5 => {"m:a":[]} => m:1.1 anydata a;
all => J5 => {"m:a":null} => m:1.1 anydata a;
all => J5 => {"m:a":1.5} => m:1.1 anydata a;
all => J6 => {"m:a":{"x":[1.5]}} => m:1.1 anydata a;
all => J6 => {"m:a":{"x":18446744073709551616}} => m:1.1 anydata a;
all => none => {"m:a":{"x":18446744073709551615}} => m:1.1 anydata a;
all => none => {"m:a":null} => m:1.1 anyxml a;
all => none => {"m:a":[[],"x",true]} => m:1.1 anyxml a;
all => J6 => {"m:a":1.5} => m:1.1 anyxml a;
all => V3 data-missing - /m:a -| => {} => m:1.1 anydata a { mandatory true; }
all => none => {} => m:1.1 container c { presence p; anydata a { mandatory true; } }
all => V3 data-missing - /m:c/a -| => {"m:c":{}} => m:1.1 container c { presence p; anydata a { mandatory true; } }
all => V5 bad-element - / h| => {"m:a":{},"m:b":{}} => m:1.1 choice h { anydata a; anydata b; }
all => none => {"m:l":[{"k":1,"a":{"k":1}},{"k":2,"a":{"k":1}}]} => m:1.1 list l { key k; leaf k { type int8; } anydata a; }"#;
    all_hold(&rt, rt.alloc(), rows, is_validated);
}
