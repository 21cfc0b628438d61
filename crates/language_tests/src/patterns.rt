//! Patterns of types, and what they say of values; under the core each such module is refused as ever.

use crate::compiling::{is_told, is_told_of_yang_1};
use crate::documents::is_validated;
use crate::rows::all_hold;

// Where a pattern and a modifier may stand, and what they may bear.
#[test]
fn places(rt: HostRuntime) {
    let rows = "1 nodes/C1:4/leaf a { type string { pattern '[a-z]+'; } }
1 nodes/C1:4/leaf a { type string { pattern a; pattern 'b?' { modifier invert-match; error-message x; error-app-tag y; description d; reference r; } length 1..3; } }
2 nodes/C1:4/typedef t { type string { pattern a.*; } } leaf a { type t { pattern .*b; } } leaf b { type t; }
1 nodes/C1:5/leaf a { type union { type int8;| type string { pattern a; } } }
1 nodes/C1:5/typedef t { type string; }|grouping g { leaf a { type t { pattern a; length 1; } } } uses g;
1 nodes/C1:4/leaf a { type string { pattern ''; } }
C10:4/C1:5/leaf a { type int8 {| pattern a; } }
C10:4/C1:5/leaf a { type enumeration {| pattern a; enum a; } }
C10:5/C1:6/typedef u { type union { type string; type int8; } }|leaf a { type u {| pattern a; } }
C10:6/C1:7/leaf b { type string; }|typedef r { type leafref { path /b; } }|leaf a { type r {| pattern a; } }
C1:5/C1:5/leaf a {| pattern a; type string; }
C1:5/C1:5/leaf a { type string {| modifier invert-match; } }
C1:6/C1:5/leaf a { type string {| pattern a {| pattern b; } } }
C3:6/C1:5/leaf a { type string {| pattern a {| modifier invert; } } }
C3:6/C1:5/leaf a { type string {| pattern a {| modifier; } } }
C3:5/C1:5/leaf a { type string {| pattern; } }
C2:5/C1:5/leaf a { type string {| pattern a {| modifier invert-match;| modifier invert-match; } } }
C2:5/C1:5/leaf a { type string {| pattern a {| error-message x;| error-message y; } } }";
    all_hold(&rt, rt.alloc(), rows, is_told);
}

// Texts that spell no pattern, where they stand, and a default that isn't one of the values.
#[test]
fn told(rt: HostRuntime) {
    let rows = r"C20:5/C1:5/leaf a { type string {| pattern '[a'; } }
C20:5/C1:5/leaf a { type string {| pattern '('; } }
C20:5/C1:5/leaf a { type string {| pattern '*a'; } }
C20:5/C1:5/leaf a { type string {| pattern 'a{3,2}'; } }
C20:5/C1:5/leaf a { type string {| pattern '\p{IsGreek}'; } }
C20:6/C1:5/leaf a { type string {| pattern a;| pattern '[a'; } }
C20:4/C1:4/typedef t { type string { pattern '('; } } leaf a { type t; } leaf b { type string { pattern ')'; } }
C20:4/C1:4/leaf a { type string { pattern '('; } }|leaf b { type int8 { length 1; } }
C10:4/C1:5/leaf b { type int8 { length 1; } }|leaf a { type string { pattern '('; } }
C10:4/C1:4/leaf a { type string { pattern '('; } } leaf b { type int8 { length 1; } }
C8:5/C1:4/leaf a { type string { pattern '('; } }|leaf b { type t; }
C20:5/C1:5/grouping g {| leaf a { type string { pattern '('; } } }
C20:4/C1:4/leaf a { type string { pattern '('; } default b; }
C11:4/C1:4/leaf a { type string { pattern '[a-z]+'; } default a1; }
C11:5/C1:4/typedef t { type string { pattern '[a-z]+'; } }|leaf a { type t { pattern b.* { modifier invert-match; } } default b; }
1 nodes/C1:4/typedef t { type string { pattern '[a-z]+'; } default a; } leaf a { type t; }";
    all_hold(&rt, rt.alloc(), rows, is_told);
}

// YANG 1 has patterns without modifiers.
#[test]
fn of_yang_1(rt: HostRuntime) {
    let rows = "1 nodes/leaf a { type string { pattern a { error-app-tag x; } } }
C1:5/leaf a { type string { pattern a {| modifier invert-match; } } }
C20:4/leaf a { type string { pattern '['; } }";
    all_hold(&rt, rt.alloc(), rows, is_told_of_yang_1);
}

// The first restriction that excludes a value is told, a length ahead of the patterns of its type.
#[test]
fn values(rt: HostRuntime) {
    let rows = r#"all => none => {"m:a":"abc"} => m:1.1 leaf a { type string { pattern '[a-z]+'; } }
all => V1 invalid-value - /m:a -| => {"m:a":"Abc"} => m:1.1 leaf a { type string { pattern '[a-z]+'; } }
all => V1 invalid-value low /m:a -| => {"m:a":"B"} => m:1.1 typedef t { type string { pattern '[a-z]+' { error-app-tag low; } } } leaf a { type t { pattern a.* { error-app-tag a; } length 1..3 { error-app-tag len; } } }
all => V1 invalid-value len /m:a -| => {"m:a":"bbbb"} => m:1.1 typedef t { type string { pattern '[a-z]+' { error-app-tag low; } } } leaf a { type t { pattern a.* { error-app-tag a; } length 1..3 { error-app-tag len; } } }
all => V1 invalid-value a /m:a -| => {"m:a":"bb"} => m:1.1 typedef t { type string { pattern '[a-z]+' { error-app-tag low; } } } leaf a { type t { pattern a.* { error-app-tag a; } length 1..3 { error-app-tag len; } } }
all => none => {"m:a":"ab"} => m:1.1 typedef t { type string { pattern '[a-z]+' { error-app-tag low; } } } leaf a { type t { pattern a.* { error-app-tag a; } length 1..3 { error-app-tag len; } } }
all => V1 invalid-value - /m:a -| => {"m:a":"ab"} => m:1.1 leaf a { type string { pattern .*b { modifier invert-match; } } }
all => none => {"m:a":1,"m:b":"x"} => m: leaf a { type union { type int8; type string { pattern x; } } } leaf b { type union { type int8; type string { pattern x; } } }
all => V1 invalid-value - /m:a -| => {"m:a":"y"} => m: leaf a { type union { type int8; type string { pattern x; } } }"#;
    all_hold(&rt, rt.alloc(), rows, is_validated);
}
