//! Leafs of octets (RFC 7950, 9.8); under the core each such module is refused as ever.

use crate::compiling::{is_told, is_told_of_yang_1};
use crate::documents::is_validated;
use crate::rows::all_hold;

// What a binary may bear, in derived types and unions, and its defaults.
#[test]
fn places(rt: HostRuntime) {
    let rows = "1 nodes/C1:4/leaf a { type binary; }
1 nodes/C1:4/leaf a { type binary { length 1..3 { error-message x; error-app-tag y; } } }
2 nodes/C1:4/typedef t { type binary { length 1..9; } } leaf a { type t { length 3..5; } } leaf b { type t; }
2 nodes/C1:4/list l { key a; leaf a { type binary; } }
1 nodes/C1:5/leaf a { type union {| type binary; type int8; } }
C10:4/C1:4/leaf a { type binary { pattern a; } }
C10:4/C1:4/leaf a { type binary { range 1; } }
C10:4/C1:4/leaf a { type binary { length 3..2; } }
C10:5/C1:4/typedef t { type binary { length 1..9; } }|leaf a { type t { length 0..5; } }
C10:5/C1:4/typedef t { type binary; }|leaf a { type t { pattern a; } }
C7:4/C1:4/typedef binary { type binary; }
C7:4/C7:4/typedef binary { type string; }
C1:4/C1:4/leaf a { type instance-identifier; }
1 nodes/C1:4/leaf a { type binary; default Zm8=; }
1 nodes/C1:4/leaf a { type binary; default ''; }
1 nodes/C1:4/typedef t { type binary { length 2; } default Zm8=; } leaf a { type t; }
C11:4/C1:4/leaf a { type binary; default Zm8; }
C11:4/C1:4/leaf a { type binary; default 'Zm 8='; }
C11:4/C1:4/leaf a { type binary { length 4; } default Zm8=; }
C11:5/C1:4/typedef t { type binary; default Zm8=; }|leaf a { type t { length 3; } }
C11:4/C1:4/leaf-list a { type binary; default Zm8=; default Zm8=; }
1 nodes/C1:4/leaf-list a { type binary; default Zm8=; default Zm9v; }";
    all_hold(&rt, rt.alloc(), rows, is_told);
}

#[test]
fn of_yang_1(rt: HostRuntime) {
    let rows = "1 nodes/leaf a { type binary { length 3; } default Zm9v; }
C11:4/leaf a { type binary { length 4; } default Zm9v; }";
    all_hold(&rt, rt.alloc(), rows, is_told_of_yang_1);
}

// Values, keys, items and references; octets are measured, and no characters.
#[test]
fn values(rt: HostRuntime) {
    let rows = r#"all => none => {"m:a":""} => m:1.1 leaf a { type binary; }
all => none => {"m:a":"+/8="} => m: leaf a { type binary; }
all => V1 invalid-value - /m:a -| => {"m:a":"Zm9vYg"} => m:1.1 leaf a { type binary; }
all => V1 invalid-value - /m:a -| => {"m:a":"Zm9v\nYmFy"} => m:1.1 leaf a { type binary; }
all => V1 invalid-value - /m:a -| => {"m:a":"-_8="} => m:1.1 leaf a { type binary; }
all => V1 invalid-value - /m:a -| => {"m:a":"Zm9="} => m:1.1 leaf a { type binary; }
all => V1 invalid-value - /m:a -| => {"m:a":5} => m:1.1 leaf a { type binary; }
all => none => {"m:a":"Zm9v"} => m:1.1 leaf a { type binary { length 3; } }
all => V1 invalid-value few /m:a -| => {"m:a":"Zm8="} => m:1.1 leaf a { type binary { length 3..4 { error-app-tag few; } } }
all => V1 invalid-value few /m:a -| => {"m:a":"Zm9vYmE="} => m:1.1 leaf a { type binary { length 3..4 { error-app-tag few; } } }
all => none => {"m:l":[{"k":"Zm8="},{"k":"Zm9v"}]} => m:1.1 list l { key k; leaf k { type binary; } }
all => V8 operation-failed - /m:l[1] -|V8 operation-failed - /m:l[2] -| => {"m:l":[{"k":"Zm8="},{"k":"Zm8="}]} => m:1.1 list l { key k; leaf k { type binary; } }
all => V10 operation-failed - /m:a[1] -|V10 operation-failed - /m:a[3] -| => {"m:a":["Zm8=","Zm9v","Zm8="]} => m:1.1 leaf-list a { type binary; }
all => none => {"m:a":"Zm8=","m:b":"Zm8="} => m:1.1 leaf a { type leafref { path /m:b; } } leaf b { type binary; }
all => V11 data-missing instance-required /m:a -| => {"m:a":"Zm8=","m:b":"Zm9v"} => m:1.1 leaf a { type leafref { path /m:b; } } leaf b { type binary; }
all => none => {"m:a":["Zm8","Zm8="]} => m:1.1 leaf-list a { type union { type binary; type string; } }
all => none => {} => m:1.1 leaf a { type leafref { path /m:b; } default Zm8=; } leaf b { type binary; default Zm8=; }"#;
    all_hold(&rt, rt.alloc(), rows, is_validated);
}
