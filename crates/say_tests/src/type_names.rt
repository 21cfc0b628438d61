//! The column of types: names as `type` statements have them, and the paths of leafrefs (RFC 8340, 2.6).

use crate::diagrams::shows;
use crate::rows::all_hold;
use std::alloc::Global;

const BEGINNING: &str = "module m {
  yang-version 1.1;
  namespace \"urn:m\";
  prefix m;
  import n { prefix o; }
  typedef t { type uint8; }
  typedef leafref-of-b { type leafref { path /m:b; } }
  leaf b { type string; }
  leaf a { type ";

const IMPORTED: &str = "module n {
  yang-version 1.1;
  namespace \"urn:n\";
  prefix n;
  typedef t { type string; }
}
";

// Whether the type of a leaf is shown so: `SHOWN = TYPE`, a `type` statement without its keyword.
fn is_shown(alloc: Global, row: &str) -> Option<bool> {
    let (shown, type_text) = row.split_once(" = ")?;
    let module = format!(in alloc; "{}{type_text} }}\n}}\n", BEGINNING).ok()?;
    let wanted = format!(in alloc; "module: m\n  +--rw b?   string\n  +--rw a?   {shown}\n").ok()?;
    shows(
        alloc,
        &[module.as_str(), IMPORTED],
        0,
        4096,
        wanted.as_str(),
    )
}

#[test]
fn names_of_types(rt: HostRuntime) {
    let rows = "uint8 = uint8;
t = t;
m:t = m:t;
m:t = \"m:t\";
o:t = o:t;
t = t { range 1..5; }
string = string { length 1..8; }
union = union { type t; type o:t; }
-> /b = leafref { path /b; }
leafref-of-b = leafref-of-b;
m:leafref-of-b = m:leafref-of-b;";
    all_hold(&rt, rt.alloc(), rows, is_shown);
}
