//! One request for memory, whichever, may be refused: the answer is that, or the one with ample memory.

use crate::compiling::{is_told, is_told_of_set};
use crate::documents::is_validated;

#[test]
fn features_or_memory(rt: HostRuntime) {
    let row =
        "3 nodes/C1:4/feature f; choice c { default d; case d { if-feature 'not f'; leaf a { type string; } } case e { leaf b { type string; } } }";
    assert!(rt; is_told(rt.alloc(), row) != Some(false));
}

// A module of YANG 1 that adds to another one, which has nodes and a name that are taken away.
const ADDED: &str =
    "m:/3 nodes/n: import m { prefix o; } identity k { base o:i; } augment /o:c { leaf b { type o:t; default y; } } ~ m:1.1 feature f; identity i { if-feature f; } container c { leaf a { if-feature f; type string; } } typedef t { type enumeration { enum x { if-feature f; } enum y; } } leaf d { type identityref { base i; } }";

#[test]
fn additions_or_memory(rt: HostRuntime) {
    assert!(rt; is_told_of_set(rt.alloc(), ADDED) != Some(false));
}

#[test]
fn additions_with_memory(rt: HostRuntime) {
    assert!(rt; is_told_of_set(rt.alloc(), ADDED) == Some(true));
}

#[test]
fn documents_or_memory(rt: HostRuntime) {
    let row =
        r#"m: => V1 invalid-value - /m:a -| => {"m:a":"x","m:b":"y"} => m:1.1 feature f; typedef t { type enumeration { enum x { if-feature f; } enum y; } } leaf a { type t; } leaf b { type t; }"#;
    assert!(rt; is_validated(rt.alloc(), row) != Some(false));
}
