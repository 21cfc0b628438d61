//! Defaults that name identities: what they are, and where they are refused (RFC 7950, 9.10).

use crate::building::{schema_of, with_line_feeds};
use crate::compiling::comes_of;
use crate::kinds::are_nodes;
use crate::rows::all_hold;
use crate::telling::number_of;
use std::alloc::Global;

const IDENTITIES: &str = "module i {
  yang-version 1.1; namespace 'urn:i'; prefix i;
  identity base1;
  identity eth { base base1; }
  identity fast { base eth; }
  identity odd;
  typedef kind { type identityref { base base1; } }
  typedef kind-eth { type kind; default eth; }
  typedef kind-i-eth { type kind; default i:eth; }
  grouping g {
    leaf own { type kind; default eth; }
    leaf derived { type kind-eth; }
    leaf none { type kind; }
  }
  leaf-list x { type kind; default eth; }
  container c;
  uses g;
}
";

/// A module with identities of its own, one of them of a name that the other module has too.
const NAMING: &str = "module j {
  yang-version 1.1; namespace 'urn:j'; prefix j;
  import i { prefix p; }
  identity eth { base p:base1; }
  identity slow { base p:fast; }
  typedef mine { type p:kind; default slow; }
  typedef theirs { type p:kind-eth; }
  leaf a { type p:kind-eth; }
  leaf b { type p:kind-i-eth; }
  leaf c { type p:kind; default eth; }
  leaf d { type p:kind; default p:eth; }
  leaf e { type p:kind; default j:eth; }
  leaf f { type mine; }
  leaf h { type theirs; }
  leaf k { type leafref { path /p:x; require-instance false; } default eth; }
  leaf l { type union { type p:kind; type string; } default eth; }
  leaf m { type union { type p:kind; type string; } default i:eth; }
  leaf-list n { type p:kind; default eth; default p:eth; default slow; }
  container o {
    uses p:g {
      refine own { default eth; }
      refine derived { default p:fast; }
      refine none { default j:slow; }
    }
  }
  uses p:g;
  augment /p:c {
    leaf q { type p:kind; default eth; }
    uses p:g { refine none { default slow; } }
  }
}
";

const BEGINNING: &str = "module j {
  yang-version 1.1; namespace 'urn:j'; prefix j; import i { prefix p; }
  identity eth { base p:base1; } identity slow { base p:fast; }
";

// A default is read as its module names identities: that of the leaf, of its typedef, or of the refine.
#[test]
fn defaults_that_name_identities(rt: HostRuntime) {
    let lines = "items 1 0 on x
container c
leaf else j:eth q
leaf else i:eth own
leaf else i:eth derived
leaf else j:slow none
leaf else i:eth own
leaf else i:eth derived
leaf none
leaf else i:eth a
leaf else i:eth b
leaf else j:eth c
leaf else i:eth d
leaf else j:eth e
leaf else j:slow f
leaf else i:eth h
leaf to 0 else j:eth k
leaf else j:eth l
leaf else i:eth m
items 3 0 on n
container o
leaf else j:eth own
leaf else i:fast derived
leaf else j:slow none
leaf else i:eth own
leaf else i:eth derived
leaf none";
    let alloc = rt.alloc();
    let right = match schema_of(alloc, &[IDENTITIES, NAMING]) {
        Some(schema) => are_nodes(alloc, &schema, lines),
        None => None,
    };
    assert!(rt; right == Some(true));
}

// Whether this comes of both modules, the second of which has these statements from its fourth line on: `MODULE N
// nodes/statements` or `MODULE CODE:LINE/statements`.
fn is_told_of_both(alloc: Global, row: &str) -> Option<bool> {
    let (told, statements) = row.split_once('/')?;
    let (place, told) = told.split_once(' ')?;
    let statements = with_line_feeds(alloc, statements).ok()?;
    let mut text = String::from_str(alloc, BEGINNING).ok()?;
    text.push_str(statements.as_str()).ok()?;
    text.push_str("\n}\n").ok()?;
    comes_of(
        alloc,
        &[IDENTITIES, text.as_str()],
        number_of(place)? as usize,
        told,
    )
}

#[test]
fn refused_defaults_that_name_identities(rt: HostRuntime) {
    let rows = "1 C11:4/leaf k { type p:kind; default i:eth; }
1 C11:4/leaf k { type p:kind; default fast; }
1 C11:4/leaf k { type p:kind; default p:slow; }
1 C11:4/leaf k { type p:kind; default p:odd; }
1 C11:4/leaf k { type p:kind; default p:base1; }
1 C11:4/leaf k { type p:kind; default ':eth'; }
1 C11:4/leaf k { type p:kind; default 'p:eth:'; }
1 C11:4/leaf k { type p:kind; default q:eth; }
1 C11:5/typedef t { type p:kind; default fast; }|leaf k { type t; }
0 6 nodes/typedef t { type p:kind; default fast; }|leaf k { type t; default slow; }
0 5 nodes/typedef t { type p:kind; default fast; }
0 C11:11/uses p:g { refine own { default fast; } }
0 C11:11/uses p:g { refine own { default i:eth; } }
0 8 nodes/uses p:g { refine own { default p:eth; } }
1 C11:4/augment /p:c { leaf k { type p:kind; default fast; } }
1 C11:4/leaf k { type leafref { path /p:x; require-instance false; } default fast; }
0 6 nodes/leaf k { type leafref { path /p:x; require-instance false; } default p:fast; }
1 C11:4/leaf k { type union { type uint8; type p:kind; } default fast; }
1 C11:4/leaf-list k { type p:kind; default eth; default j:eth; }
0 6 nodes/leaf-list k { type p:kind; default eth; default p:eth; }
0 6 nodes/leaf-list k { config false; type p:kind; default eth; default j:eth; }
0 6 nodes/leaf-list k { type union { type p:kind; type string; } default p:eth; default i:eth; }
0 7 nodes/list l { key k; leaf k { type p:kind; default fast; } }";
    all_hold(&rt, rt.alloc(), rows, is_told_of_both);
}
