//! Modules that are imported and not named are looked for in folders.

use crate::commands::is_shown;
use crate::rows::all_parts_hold;
use crate::running::{InMemory, WHOLLY, file, shown_by};
use std::alloc::Global;

/// One that imports another.
const IMPORTING: &str = "module m {
  yang-version 1.1;
  namespace \"urn:m\";
  prefix m;
  import n { prefix n; }
  leaf x { type n:t; }
}
";

/// The same, by a date.
const OF_DATE: &str = "module m {
  yang-version 1.1;
  namespace \"urn:m\";
  prefix m;
  import n { prefix n; revision-date 2020-01-01; }
  leaf x { type n:t; }
}
";

const TYPES: &str = "module n {
  yang-version 1.1;
  namespace \"urn:n\";
  prefix n;
  typedef t { type uint8; }
}
";

/// The same, of that date.
const DATED: &str = "module n {
  yang-version 1.1;
  namespace \"urn:n\";
  prefix n;
  revision 2020-01-01;
  typedef t { type uint8; }
}
";

/// The same, which imports a third.
const CHAINED: &str = "module n {
  yang-version 1.1;
  namespace \"urn:n\";
  prefix n;
  import o { prefix o; }
  typedef t { type o:u; }
}
";

const LAST: &str = "module o {
  yang-version 1.1;
  namespace \"urn:o\";
  prefix o;
  typedef u { type uint8; }
}
";

/// Whether words come to this where the read of a number fails: the row is that number, or 0, the words, the status, how many
/// files were asked for, what is said on the error side, and the output.
fn is_found(alloc: Global, row: &str) -> Option<bool> {
    let (failing, rest) = row.split_once('\n')?;
    let (line, rest) = rest.split_once('\n')?;
    let (status, rest) = rest.split_once('\n')?;
    let (reads, rest) = rest.split_once('\n')?;
    let (errors, output) = rest.split_once("--\n")?;
    let failing = failing.parse::<u64>().ok()?;
    let reads = reads.parse::<u64>().ok()?;
    let files = [
        file("m.yang", IMPORTING),
        file("o.yang", OF_DATE),
        file("a/n.yang", TYPES),
        file("a/n@2020-01-01.yang", DATED),
        file("b/n.yang", TYPES),
        file("c/n.yang", CHAINED),
        file("c/o.yang", LAST),
        file("d.json", "{}"),
        file("s.txt", "create /m:x 7"),
    ];
    let files = InMemory::new(alloc, &files, Some(failing));
    let shown = shown_by(alloc, line, files, WHOLLY, WHOLLY).ok()?;
    Some(is_shown(&shown, status, errors, output)? && shown.reads == reads)
}

#[test]
fn folders(rt: HostRuntime) {
    let rows = "0
yanglive compile -p a m.yang
0
4
--
1 nodes
==
2
yanglive compile -p a -p b m.yang
0
5
--
1 nodes
==
0
yanglive compile -p a o.yang
0
4
--
1 nodes
==
0
yanglive compile -p c m.yang
0
6
--
1 nodes
==
2
yanglive compile -p a m.yang
2
3
m.yang:5: C5
--
==
1
yanglive compile -p a m.yang
2
2
m.yang:5: C5
--
==
0
yanglive compile m.yang
2
1
m.yang:5: C5
--
==
0
yanglive compile -p x m.yang
2
4
x/n.yang:1: L6
--
==
0
yanglive compile -p b m.yang a/n.yang
0
4
--
1 nodes
==
0
yanglive validate -p a d.json m.yang
0
5
--
0 faults
==
0
yanglive edit -p a --dump d.json s.txt m.yang
0
6
--
{\"m:x\":7}
";
    all_parts_hold(&rt, rt.alloc(), rows, is_found);
}
