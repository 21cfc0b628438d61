//! Modules that augment one another: what is printed of them, of their diagrams, of documents and of edits. Rows are parted
//! by lines `==`.

use crate::commands::is_shown;
use crate::rows::assert_right;
use crate::running::{file, shown_of};
use std::alloc::Global;

const TARGET: &str = "module m {
  yang-version 1.1;
  namespace \"urn:m\";
  prefix m;
  container c { }
}
";

const FIRST: &str = "module b {
  yang-version 1.1;
  namespace \"urn:b\";
  prefix b;
  import m { prefix m; }
  augment /m:c { container x { } }
}
";

/// It augments what the other one adds.
const SECOND: &str = "module a {
  yang-version 1.1;
  namespace \"urn:a\";
  prefix a;
  import m { prefix m; }
  import b { prefix b; }
  augment /m:c/b:x { leaf y { type string; } }
}
";

/// It adds a leaf that must be there, of configuration and of state.
const MANDATORY: &str = "module d {
  yang-version 1.1;
  namespace \"urn:d\";
  prefix d;
  import m { prefix m; }
  augment /m:c { leaf x { type string; mandatory true; } }
}
";

const STATE: &str = "module e {
  yang-version 1.1;
  namespace \"urn:e\";
  prefix e;
  import m { prefix m; }
  augment /m:c { leaf x { type string; mandatory true; config false; } }
}
";

/// Whether words show so of these modules, a document and a script: the row is the words, the document, the script, the
/// status, what is said on the error side, a line `--`, and the output.
fn is_shown_of_all(alloc: Global, row: &str) -> Option<bool> {
    let (line, rest) = row.split_once('\n')?;
    let (document, rest) = rest.split_once('\n')?;
    let (script, rest) = rest.split_once('\n')?;
    let (status, rest) = rest.split_once('\n')?;
    let (errors, output) = rest.split_once("--\n")?;
    let files = [
        file("m.yang", TARGET),
        file("b.yang", FIRST),
        file("a.yang", SECOND),
        file("d.yang", MANDATORY),
        file("e.yang", STATE),
        file("d.json", document),
        file("s.txt", script),
    ];
    let shown = shown_of(alloc, line, &files).ok()?;
    is_shown(&shown, status, errors, output)
}

/// The first row that isn't shown so.
fn first_wrong<'a>(alloc: Global, rows: &'a str) -> Option<&'a str> {
    for row in rows.split("==\n") {
        if is_shown_of_all(alloc, row) != Some(true) {
            return Some(row);
        }
    }
    None
}

// The augment that is applied first stands in a module that is given later.
#[test]
fn modules(rt: HostRuntime) {
    let rows = "yanglive compile a.yang b.yang m.yang
{}

0
--
3 nodes
==
yanglive compile m.yang b.yang a.yang
{}

0
--
3 nodes
==
yanglive compile a.yang m.yang
{}

2
a.yang:6: C5
--
==
yanglive compile m.yang d.yang
{}

2
d.yang:6: C15
--
==
yanglive compile m.yang e.yang
{}

0
--
2 nodes
==
yanglive tree m a.yang b.yang m.yang
{}

0
--
module: m
  +--rw c
     +--rw b:x
        +--rw a:y?   string
==
yanglive tree b a.yang b.yang m.yang
{}

0
--
module: b

  augment /m:c:
    +--rw x
       +--rw a:y?   string
==
yanglive tree a a.yang b.yang m.yang
{}

0
--
module: a

  augment /m:c/b:x:
    +--rw y?   string
";
    assert_right(&rt, first_wrong(rt.alloc(), rows));
}

// A name bears its module where that isn't the one of the data node above.
#[test]
fn documents(rt: HostRuntime) {
    let rows = "yanglive validate d.json a.yang b.yang m.yang
{\"m:c\":{\"b:x\":{\"a:y\":\"v\"}}}

0
--
0 faults
==
yanglive validate d.json a.yang b.yang m.yang
{\"m:c\":{\"x\":{}}}

2
d.json: J4 /m:c
--
==
yanglive validate d.json a.yang b.yang m.yang
{\"m:c\":{\"b:x\":{\"b:y\":\"v\"}}}

2
d.json: J3 /m:c/b:x
--
==
yanglive validate d.json a.yang b.yang m.yang
{\"m:c\":{\"b:x\":{\"a:y\":5}}}

1
--
V1 invalid-value - /m:c/b:x/a:y -
1 faults
==
yanglive validate d.json m.yang e.yang
{}

1
--
V3 data-missing - /m:c/e:x -
1 faults
==
yanglive edit --dump d.json s.txt a.yang b.yang m.yang
{\"m:c\":{}}
create /m:c/b:x {\"a:y\":\"v\"}
0
--
{\"m:c\":{\"b:x\":{\"a:y\":\"v\"}}}
==
yanglive edit d.json s.txt a.yang b.yang m.yang
{\"m:c\":{\"b:x\":{}}}
create /m:c/b:x/a:y 5
1
--
V1 invalid-value - /m:c/b:x/a:y -
1 faults
==
yanglive edit --dump d.json s.txt a.yang b.yang m.yang
{\"m:c\":{\"b:x\":{}}}
create /m:c/b:x/y \"v\"
1
line 1: E2
--
{\"m:c\":{\"b:x\":{}}}
";
    assert_right(&rt, first_wrong(rt.alloc(), rows));
}
