//! Members that are given twice: refused with `--strict`, taken without it. Rows are parted by lines `==`.

use crate::commands::is_shown;
use crate::rows::all_parts_hold;
use crate::running::{MODULE, file, shown_of};
use std::alloc::Global;

/// Whether words show so of a document and a script: the row is the words, the document, the script, the status, what is said
/// on the error side, and the output, parted by `~`.
fn is_shown_so(alloc: Global, row: &str) -> Option<bool> {
    let (line, rest) = row.split_once('~')?;
    let (document, rest) = rest.split_once('~')?;
    let (script, rest) = rest.split_once('~')?;
    let (status, rest) = rest.split_once('~')?;
    let (errors, output) = rest.split_once('~')?;
    let files = [
        file("p.yang", MODULE),
        file("d.json", document),
        file("s.txt", script),
    ];
    let shown = shown_of(alloc, line, &files).ok()?;
    is_shown(&shown, status, errors, output)
}

#[test]
fn repeated_members(rt: HostRuntime) {
    let rows = r#"yanglive validate d.json p.yang~{"p:c":{"id":300,"id":1}}~~0~~0 faults
==
yanglive validate --strict d.json p.yang~{"p:c":{"id":1}}~~0~~0 faults
==
yanglive validate --strict d.json p.yang~{"p:c":{"id":300,"id":1}}~~2~d.json: J8 /p:c/id
~==
yanglive validate --strict d.json p.yang~{"p:c":{"id":1},"p:c":{"id":1}}~~2~d.json: J8 /p:c
~==
yanglive validate --explain --strict d.json p.yang~{"p:c":{"id":1,"id":1}}~~2~d.json: J8 /p:c/id
  id is given twice.
  A member is given twice in one object, which --strict refuses; without it the last one counts. Take one of them out.
~==
yanglive validate --strict d.json p.yang~{"p:c":{"id":1,"id":{}}}~~2~d.json: J5 /p:c/id
~==
yanglive validate --strict d.json p.yang~{"p:c":{"id":1,"id":1}~~2~d.json: J1 /
~==
yanglive validate --strict d.json p.yang~{"p:c":{"id":1,"x":1,"x":1}}~~2~d.json: J3 /p:c
~==
yanglive edit --strict --dump d.json s.txt p.yang~{"p:c":{"id":1},"p:c":{"id":2}}~~2~d.json: J8 /p:c
~==
yanglive edit --dump d.json s.txt p.yang~{"p:c":{"id":1}}~replace /p:c {"id":2,"id":3}~0~~{"p:c":{"id":3}}
==
yanglive edit --strict --dump d.json s.txt p.yang~{"p:c":{"id":1}}~replace /p:c {"id":2,"id":3}
replace /p:c/id 4~1~line 1: E10 J8
~{"p:c":{"id":4}}
==
yanglive edit --strict d.json s.txt p.yang~{}~create /p:c {"id":{"a":1,"a":1}}
create /p:c {"id":1}
# {"a":1,"a":1}
create /q {"a":1,"a":1}
make /q {"a":1,"a":1}
replace /p:c/id {"a":1,"a":1~1~line 1: E10 J8
line 4: E10 J8
line 5: E1
line 6: E9
~0 faults
==
yanglive edit --explain --strict --dump d.json s.txt p.yang~{"p:c":{"id":1}}~replace /p:c {"id":2,"id":3}~1~line 1: E10 J8
  | replace /p:c {"id":2,"id":3}
  A member is given twice in one object, which --strict refuses; without it the last one counts. Take one of them out.
~{"p:c":{"id":1}}
"#;
    all_parts_hold(&rt, rt.alloc(), rows, is_shown_so);
}
