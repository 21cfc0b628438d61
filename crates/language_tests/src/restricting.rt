//! Names that restrict enumerations and bits; under the core each such module is refused as ever.

use crate::compiling::{is_told, is_told_of_yang_1};
use crate::documents::is_validated;
use crate::rows::all_hold;

// Names below a derived type are some of its own, each once and with no other number.
#[test]
fn names(rt: HostRuntime) {
    let rows =
        "1 nodes/C10:5/typedef c { type enumeration { enum white; enum yellow; enum red; } }|leaf a { type c { enum white; enum yellow; } }
1 nodes/C10:5/typedef c { type enumeration { enum white { value 1; } enum red { value 3; } } }|leaf a { type c { enum red { value 3; description x; reference y; status deprecated; } } }
1 nodes/C10:5/typedef c { type enumeration { enum white; enum red; } }|typedef d { type c { enum red { value 1; } } } leaf a { type d { enum red; } }
1 nodes/C10:5/typedef b { type bits { bit half; bit fast; bit slow { position 4; } } }|leaf a { type b { bit slow { position 4; } bit half; } }
2 nodes/C10:6/typedef c { type enumeration { enum x; enum y; } }|leaf b { type c; }|leaf a { type union { type c { enum x; } type string; } }
1 nodes/C10:4/grouping g { leaf a { type c { enum x; } } } typedef c { type d; } typedef d { type enumeration { enum x; enum y; } } uses g;
C10:5/C10:5/typedef c { type enumeration { enum white; enum red; } }|leaf a { type c {| enum white; enum blue; } }
C10:5/C10:5/typedef c { type enumeration { enum white; enum red { value 3; } } }|leaf a { type c {| enum red { value 4; } } }
C10:5/C10:5/typedef c { type enumeration { enum white; enum red; } }|leaf a { type c {| enum red;| enum red; } }
C10:6/C10:5/typedef c { type enumeration { enum white; enum red; } }|typedef d { type c { enum white; } }|leaf a { type d { enum red; } }
C10:5/C10:5/typedef b { type bits { bit half; bit fast; } }|leaf a { type b {| bit fast { position 0; } } }
C10:5/C10:5/typedef b { type bits { bit half; bit fast; } }|leaf a { type b {| bit slow; } }
C10:5/C10:5/typedef b { type bits { bit half; bit fast; } }|leaf a { type b {| enum half; } }
C10:5/C10:5/typedef c { type enumeration { enum white; enum red; } }|leaf a { type c {| bit white; } }
C10:5/C10:5/typedef c { type enumeration { enum white; enum red; } }|leaf a { type c {| enum white; bit white; } }
C10:5/C10:5/typedef c { type enumeration { enum white; enum red; } }|leaf a { type c {| enum white; range 1; } }
C10:5/C10:5/typedef t { type string; }|leaf a { type t {| enum white; } }
C10:5/C10:5/typedef u { type union { type string; } }|leaf a { type u {| enum white; } }
C10:6/C10:6/leaf b { type string; }|typedef r { type leafref { path /b; } }|leaf a { type r {| enum white; } }
C10:4/C10:4/leaf b { type c { enum x; enum z; } } typedef c { type enumeration { enum x; } }|leaf a { type string { enum x; } }
C3:6/C3:6/typedef c { type enumeration { enum x; } }|leaf a { type c {| enum x { value y; } } }
C1:6/C1:6/typedef c { type enumeration { enum x; } }|leaf a { type c {| enum x { range 1; } } }
C3:6/C3:6/typedef b { type bits { bit x; } }|leaf a { type b {| bit '1x'; } }";
    all_hold(&rt, rt.alloc(), rows, is_told);
}

// YANG 1 has none of it.
#[test]
fn of_yang_1(rt: HostRuntime) {
    let rows = "1 nodes/typedef c { type enumeration { enum x; enum y; } } leaf a { type c; }
C10:5/typedef c { type enumeration { enum x; enum y; } }|leaf a { type c {| enum x; } }
C10:5/typedef b { type bits { bit x; bit y; } }|leaf a { type b {| bit x; } }";
    all_hold(&rt, rt.alloc(), rows, is_told_of_yang_1);
}

// A default is one of the names that are left, and bears no condition in any type on the way.
#[test]
fn defaults(rt: HostRuntime) {
    let rows =
        "1 nodes/C10:5/typedef c { type enumeration { enum x; enum y; } default x; }|leaf a { type c { enum x; } }
C11:5/C10:5/typedef c { type enumeration { enum x; enum y; } default x; }|leaf a { type c { enum y; } }
C11:5/C10:5/typedef c { type enumeration { enum x; enum y; } }|leaf a { type c { enum y; } default x; }
C11:5/C10:5/typedef b { type bits { bit x; bit y; } }|leaf a { type b { bit x; } default 'x y'; }
C11:6/C1:4/feature f; typedef c { type enumeration { enum x { if-feature f; } enum y; } }|typedef d { type c { enum x; } }|leaf a { type d; default x; }
C11:6/C1:4/feature f; typedef c { type enumeration { enum x; enum y; } }|typedef d { type c { enum x { if-feature f; } enum y; } }|leaf a { type d { enum x; } default x; }
1 nodes/C1:4/feature f; typedef c { type enumeration { enum x { if-feature f; } enum y; } }|leaf a { type c { enum x; enum y; } default y; }";
    all_hold(&rt, rt.alloc(), rows, is_told);
}

// What isn't left is no value, nor what a condition takes away, below the restriction or below the type that it restricts.
#[test]
fn values(rt: HostRuntime) {
    let rows =
        r#"all => V1 invalid-value - /m:a -| => {"m:a":"red","m:b":"red"} => m:1.1 typedef c { type enumeration { enum white; enum yellow; enum red; } } leaf a { type c { enum white; enum yellow; } } leaf b { type c; }
all => none => {"m:a":"yellow"} => m:1.1 typedef c { type enumeration { enum white; enum yellow; enum red; } } leaf a { type c { enum white; enum yellow; } }
all => V1 invalid-value - /m:a -| => {"m:a":"half slow"} => m:1.1 typedef b { type bits { bit half; bit fast; bit slow; } } leaf a { type b { bit slow; bit fast; } }
all => none => {"m:a":"slow fast"} => m:1.1 typedef b { type bits { bit half; bit fast; bit slow; } } leaf a { type b { bit slow; bit fast; } }
all => V9 operation-failed data-not-unique /m:l[1] 1|V9 operation-failed data-not-unique /m:l[2] 1| => {"m:l":[{"k":"x","v":"slow fast"},{"k":"y","v":"fast slow"}]} => m:1.1 typedef b { type bits { bit half; bit fast; bit slow; } } list l { key k; unique v; leaf k { type c { enum x; enum y; } } leaf v { type b { bit slow; bit fast; } } } typedef c { type enumeration { enum x; enum y; enum z; } }
m: => V1 invalid-value - /m:a -| => {"m:a":"x","m:b":"y"} => m:1.1 feature f; typedef c { type enumeration { enum x { if-feature f; } enum y; } } leaf a { type c { enum x; enum y; } } leaf b { type c { enum x; enum y; } }
m:f => none => {"m:a":"x","m:b":"y"} => m:1.1 feature f; typedef c { type enumeration { enum x { if-feature f; } enum y; } } leaf a { type c { enum x; enum y; } } leaf b { type c { enum x; enum y; } }
m: => V1 invalid-value - /m:a -| => {"m:a":"x","m:b":"y"} => m:1.1 feature f; typedef c { type enumeration { enum x; enum y; } } leaf a { type c { enum x { if-feature f; } enum y; } } leaf b { type c { enum x { if-feature f; } enum y; } }
m: => V1 invalid-value - /m:a -| => {"m:a":"x"} => m:1.1 feature f; typedef b { type bits { bit x { if-feature f; } bit y; } } leaf a { type b { bit x; } }
m: => none => {"m:a":""} => m:1.1 feature f; typedef b { type bits { bit x { if-feature f; } bit y; } } leaf a { type b { bit x; } }
all => none => {"m:a":"x","m:b":"z"} => m:1.1 typedef c { type enumeration { enum x; enum y; } } leaf a { type union { type c { enum x; } type string; } } leaf b { type union { type c { enum x; } type string; } }"#;
    all_hold(&rt, rt.alloc(), rows, is_validated);
}
