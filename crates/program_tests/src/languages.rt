//! What is printed of modules in each language, and of words that name none. Rows are parted by lines `==`, and what belongs to
//! one by lines `--`.

use crate::commands::is_shown;
use crate::rows::all_parts_hold;
use crate::running::{file, shown_of};
use std::alloc::Global;

/// A module of YANG 1 with a leaf that rests on a feature.
const FEATURE: &str = "module a {
  namespace \"urn:a\";
  prefix a;
  feature f;
  leaf x { if-feature f; type string; mandatory true; }
  leaf y { type string; }
}
";

/// A module of YANG 1.1 with conditions.
const CONDITIONS: &str = "module b {
  yang-version 1.1;
  namespace \"urn:b\";
  prefix b;
  leaf x { must \"../y\"; when \"../z\"; type string; mandatory true; }
  leaf y { must \"../x\"; type string; mandatory true; }
}
";

/// Whether words show so of these modules: the row is the words, the status, what is said on the error side, and the output.
fn is_shown_so(alloc: Global, row: &str) -> Option<bool> {
    let (line, rest) = row.split_once('\n')?;
    let (status, rest) = rest.split_once('\n')?;
    let (errors, output) = rest.split_once("--\n")?;
    let files = [
        file("a.yang", FEATURE),
        file("b.yang", CONDITIONS),
        file("d.json", "{}"),
        file("s.txt", "create /a:y \"v\""),
        file("t.txt", "create /b:y \"v\""),
    ];
    let shown = shown_of(alloc, line, &files).ok()?;
    is_shown(&shown, status, errors, output)
}

#[test]
fn profiles(rt: HostRuntime) {
    let rows = "yanglive compile a.yang
2
a.yang:1: C4
--
==
yanglive compile --profile core a.yang
2
a.yang:1: C4
--
==
yanglive compile --profile rfc a.yang
0
--
2 nodes
==
yanglive validate --profile rfc d.json a.yang
1
--
V3 data-missing - /a:x -
1 faults
==
yanglive edit --dump --profile rfc d.json s.txt a.yang
1
--
{\"a:y\":\"v\"}
==
yanglive tree --profile rfc a.yang
0
--
module: a
  +--rw x    string
  +--rw y?   string
";
    all_parts_hold(&rt, rt.alloc(), rows, is_shown_so);
}

#[test]
fn features(rt: HostRuntime) {
    let rows = "yanglive compile --profile rfc --features a: a.yang
0
--
1 nodes
==
yanglive compile --profile rfc --features a:f a.yang
0
--
2 nodes
==
yanglive compile --profile rfc --features a:g,,f, a.yang
0
--
2 nodes
==
yanglive compile --profile rfc --features b: a.yang
0
--
2 nodes
==
yanglive compile --profile rfc --features b: --features a:g a.yang
0
--
1 nodes
==
yanglive compile --profile rfc --features a: --features a:f a.yang
0
--
1 nodes
==
yanglive validate --profile rfc --features a:g d.json a.yang
0
--
0 faults
==
yanglive tree --profile rfc --features a: a.yang
0
--
module: a
  +--rw y?   string
==
yanglive edit --dump --profile rfc --features a: d.json s.txt a.yang
0
--
{\"a:y\":\"v\"}
";
    all_parts_hold(&rt, rt.alloc(), rows, is_shown_so);
}

#[test]
fn unjudged(rt: HostRuntime) {
    let rows = "yanglive compile --profile rfc b.yang
2
b.yang:5: C1
--
==
yanglive compile --profile rfc --unjudged must b.yang
2
b.yang:5: C1
--
==
yanglive compile --profile rfc --unjudged when b.yang
2
b.yang:5: C1
--
==
yanglive compile --profile rfc --unjudged must,when b.yang
0
not judged: 2 must, 1 when
--
2 nodes
==
yanglive validate --profile rfc --unjudged when,must d.json b.yang
1
not judged: 2 must, 1 when
--
V3 data-missing - /b:y -
1 faults
==
yanglive edit --dump --profile rfc --unjudged must,when d.json t.txt b.yang
0
not judged: 2 must, 1 when
--
{\"b:y\":\"v\"}
==
yanglive tree --profile rfc --unjudged must,when b.yang
0
not judged: 2 must, 1 when
--
module: b
  +--rw x?   string
  +--rw y    string
==
yanglive validate --profile rfc --unjudged must,when --features a: d.json a.yang
0
--
0 faults
";
    all_parts_hold(&rt, rt.alloc(), rows, is_shown_so);
}

#[test]
fn refused_words(rt: HostRuntime) {
    let rows = "yanglive compile --profile yang a.yang
3
error: invalid value 'yang' for '--profile <PROFILE>'
  [possible values: core, rfc]

For more information, try '--help'.
--
==
yanglive validate --profile rfc --features a: --features f d.json a.yang
3
error: '--features f' names no module: write MODULE:FEATURES, as net:ssh,ntp

For more information, try '--help'.
--
==
yanglive compile --features a:f a.yang
3
error: the profile core has no features: '--features' stands with '--profile rfc'

For more information, try '--help'.
--
==
yanglive compile --profile rfc --unjudged must, b.yang
3
error: invalid value 'must,' for '--unjudged <CONDITIONS>'
  [possible values: must, when, must,when]

For more information, try '--help'.
--
==
yanglive validate --unjudged must,when d.json b.yang
3
error: the profile core has no conditions: '--unjudged' stands with '--profile rfc'

For more information, try '--help'.
--
==
yanglive edit --profile core --features a:f d.json s.txt a.yang
3
error: the profile core has no features: '--features' stands with '--profile rfc'

For more information, try '--help'.
--
";
    all_parts_hold(&rt, rt.alloc(), rows, is_shown_so);
}
