//! What is printed of several modules, of their nodes, and of documents after scripts of edits. Rows are parted by lines
//! `==`, and what belongs to one by lines `--`.

use crate::modules::{DEFAULT_CASE, NETWORK};
use crate::rows::{all_parts_hold, assert_right};
use crate::running::{MODULE, NamedFile, Shown, file, shown_of};
use std::alloc::Global;

/// Another module, which the program takes.
const SECOND: &str = "module q {
  yang-version 1.1;
  namespace \"urn:q\";
  prefix q;
  leaf n { type uint8; mandatory true; }
}
";

/// One with a list without a key.
const SECOND_REFUSED: &str = "module q {
  yang-version 1.1;
  namespace \"urn:q\";
  prefix q;
  list l { leaf a { type string; } }
}
";

/// Whether a run has this status, and these bytes on both sides.
pub fn is_shown(shown: &Shown, status: &str, errors: &str, output: &str) -> Option<bool> {
    let status = status.parse::<u8>().ok()?;
    let are_told = shown.errors.bytes() == errors.as_bytes();
    Some(are_told && shown.output.bytes() == output.as_bytes() && shown.status == status)
}

/// Whether words show so of two modules and an empty document: the row is the words, the status, what is said on the
/// error side, and the output.
fn is_shown_of_two(alloc: Global, second: &str, row: &str) -> Option<bool> {
    let (line, rest) = row.split_once('\n')?;
    let (status, rest) = rest.split_once('\n')?;
    let (errors, output) = rest.split_once("--\n")?;
    let files = [
        file("p.yang", MODULE),
        file("k.yang", second),
        file("d.json", "{}"),
        file("s.txt", "create /q:n 7"),
    ];
    let shown = shown_of(alloc, line, &files).ok()?;
    is_shown(&shown, status, errors, output)
}

fn is_shown_of_second(alloc: Global, row: &str) -> Option<bool> {
    is_shown_of_two(alloc, SECOND, row)
}

fn is_shown_of_refused(alloc: Global, row: &str) -> Option<bool> {
    is_shown_of_two(alloc, SECOND_REFUSED, row)
}

#[test]
fn several_modules(rt: HostRuntime) {
    let rows = "yanglive validate d.json p.yang k.yang
1
--
V3 data-missing - /p:c/id -
V3 data-missing - /q:n -
2 faults
==
yanglive validate d.json k.yang p.yang
1
--
V3 data-missing - /q:n -
V3 data-missing - /p:c/id -
2 faults
==
yanglive validate d.json p.yang p.yang
2
p.yang:1: C7
--
==
yanglive compile p.yang k.yang
0
--
4 nodes
==
yanglive compile p.yang
0
--
3 nodes
==
yanglive edit d.json s.txt p.yang k.yang
1
--
V3 data-missing - /p:c/id -
1 faults
==
yanglive edit --dump d.json s.txt p.yang k.yang
1
--
{\"q:n\":7}
";
    all_parts_hold(&rt, rt.alloc(), rows, is_shown_of_second);
    let rows = "yanglive validate d.json p.yang k.yang
2
k.yang:5: C16
--
==
yanglive compile p.yang k.yang
2
k.yang:5: C16
--
==
yanglive edit d.json s.txt k.yang p.yang
2
k.yang:5: C16
--
==
yanglive compile p.yang d.json
2
d.json:1: L5
--
";
    all_parts_hold(&rt, rt.alloc(), rows, is_shown_of_refused);
}

fn is_counted(alloc: Global) -> Option<bool> {
    let files = [file("m.yang", NETWORK)];
    let shown = shown_of(alloc, "yanglive compile m.yang", &files).ok()?;
    is_shown(&shown, "0", "", "12 nodes\n")
}

#[test]
fn counts(rt: HostRuntime) {
    assert!(rt; is_counted(rt.alloc()) == Some(true));
}

/// Whether a diagram shows so: the row is the words, the status, what is said on the error side, and the output.
fn is_drawn(alloc: Global, row: &str) -> Option<bool> {
    let (words, rest) = row.split_once('\n')?;
    let (status, rest) = rest.split_once('\n')?;
    let (errors, output) = rest.split_once("--\n")?;
    let files = [file("net.yang", NETWORK), file("p.yang", MODULE)];
    let shown = shown_of(alloc, words, &files).ok()?;
    is_shown(&shown, status, errors, output)
}

#[test]
fn diagrams(rt: HostRuntime) {
    let rows = "yanglive tree ex-net net.yang
0
--
module: ex-net
  +--rw net
     +--rw host* [name]
        +--rw name        string
        +--rw addr?       string
        +--rw port?       uint16
        +--rw uplink?     -> /net/host/name
        +--rw use-port?   -> /net/host/port
        +--rw (mode)
           +--:(auto)
           |  +--rw auto?   empty
           +--:(fixed)
              +--rw speed?   uint32
==
yanglive tree zz net.yang
2
zz: no such module
--
==
yanglive tree p net.yang p.yang
0
--
module: p
  +--rw c
     +--rw id      uint8
     +--rw note?   string
==
yanglive tree p.yang
0
--
module: p
  +--rw c
     +--rw id      uint8
     +--rw note?   string
==
yanglive tree --all p.yang net.yang
0
--
module: p
  +--rw c
     +--rw id      uint8
     +--rw note?   string

module: ex-net
  +--rw net
     +--rw host* [name]
        +--rw name        string
        +--rw addr?       string
        +--rw port?       uint16
        +--rw uplink?     -> /net/host/name
        +--rw use-port?   -> /net/host/port
        +--rw (mode)
           +--:(auto)
           |  +--rw auto?   empty
           +--:(fixed)
              +--rw speed?   uint32
";
    all_parts_hold(&rt, rt.alloc(), rows, is_drawn);
}

/// Whether an edit shows so under a module: the row is the document, the script, the status, what is said on the error
/// side, and the output.
fn is_edited(alloc: Global, words: &str, module: &str, row: &str) -> Option<bool> {
    let (document, rest) = row.split_once('\n')?;
    let (script, rest) = rest.split_once("--\n")?;
    let (status, rest) = rest.split_once('\n')?;
    let (errors, output) = rest.split_once("--\n")?;
    let files = [
        file("p.yang", module),
        file("d.json", document),
        file("s.txt", script),
    ];
    let shown = shown_of(alloc, words, &files).ok()?;
    is_shown(&shown, status, errors, output)
}

/// The first row that isn't shown so.
pub fn first_wrong<'a>(alloc: Global, words: &str, module: &str, rows: &'a str) -> Option<&'a str> {
    for row in rows.split("==\n") {
        if is_edited(alloc, words, module, row) != Some(true) {
            return Some(row);
        }
    }
    None
}

/// The words that edit the document of the tests by their script, under their module.
pub const EDIT: &str = "yanglive edit d.json s.txt p.yang";

/// The same, and print what comes of it.
pub const DUMP: &str = "yanglive edit --dump d.json s.txt p.yang";

#[test]
fn edits(rt: HostRuntime) {
    let rows = "{}
# x

create /p:c {\"id\":1}\r
move /p:c
replace /p:c/id 300--
1
line 4: E1
--
V1 invalid-value - /p:c/id -
1 faults
==
{\"p:c\":{\"id\":256}}
--
1
--
V1 invalid-value - /p:c/id -
1 faults
==
{\"p:c\":{\"id\":7}}


--
0
--
0 faults
==
{\"p:c\":{\"id\":7}}
remove /p:d
--
1
line 1: E2
--
0 faults
==
{\"c\":{}}
#
--
2
d.json: J4 /
--
";
    assert_right(&rt, first_wrong(rt.alloc(), EDIT, MODULE, rows));
}

#[test]
fn dumps(rt: HostRuntime) {
    let rows = "{}
# x

create /p:c {\"id\":1}\r
move /p:c
replace /p:c/id 300--
1
line 4: E1
--
{\"p:c\":{\"id\":300}}
==
{ \"p:c\": {\"note\": \"x\", \"id\": 7} }
--
0
--
{\"p:c\":{\"id\":7,\"note\":\"x\"}}
==
{\"p:c\":{\"id\":7}}
remove /p:c
--
1
--
{}
==
{\"c\":{}}
#
--
2
d.json: J4 /
--
";
    assert_right(&rt, first_wrong(rt.alloc(), DUMP, MODULE, rows));
}

#[test]
fn edits_of_lists(rt: HostRuntime) {
    let rows = r#"{"ex-net:net":{"host":[{"name":"a","auto":[null],"use-port":80}]}}
create /ex-net:net/host[1]/port 22--
1
--
V11 data-missing instance-required /ex-net:net/host[1]/use-port -
1 faults
==
{"ex-net:net":{"host":[{"name":"a","auto":[null],"use-port":80}]}}
create /ex-net:net/host[1]/port 22
remove /ex-net:net/host[1]/port--
0
--
0 faults
==
{"ex-net:net":{"host":[{"name":"a","auto":[null],"uplink":"b"},{"name":"b","auto":[null]}]}}
remove /ex-net:net/host[name='b']--
1
--
V11 data-missing instance-required /ex-net:net/host[1]/uplink -
1 faults
==
{"ex-net:net":{"host":[{"name":"a","auto":[null],"uplink":"b"},{"name":"b","auto":[null]}]}}
replace /ex-net:net/host[2] {"name":"b","speed":7}--
0
--
0 faults
==
{"ex-net:net":{"host":[{"name":"a","auto":[null],"uplink":"b"},{"name":"b","auto":[null]}]}}
replace /ex-net:net/host[2] {"name":"c","speed":7}--
1
--
V11 data-missing instance-required /ex-net:net/host[1]/uplink -
1 faults
==
{"ex-net:net":{"host":[{"name":"a","auto":[null],"uplink":"b"},{"name":"b","auto":[null]}]}}
replace /ex-net:net/host[2] {"name":"c","speed":7}
replace /ex-net:net/host[2]/name "b"--
0
--
0 faults
==
{"ex-net:net":{"host":[{"name":"a","auto":[null]},{"name":"b","auto":[null]},{"name":"c","auto":[null]},{"name":"d","auto":[null]}]}}
remove /ex-net:net/host[4]--
0
--
0 faults
==
{"ex-net:net":{"host":[{"name":"a","auto":[null]},{"name":"b","auto":[null]},{"name":"c"}]}}
remove /ex-net:net/host[1]--
1
--
V4 data-missing missing-choice /ex-net:net/host[2] mode
1 faults
==
{"ex-net:net":{"host":[{"name":"a","auto":[null]},{"name":"a","auto":[null]}]}}
remove /ex-net:net/host[name='a']
remove /ex-net:net/host[2]--
1
line 1: E6
--
0 faults
==
{"ex-net:net":{"host":[{"name":"a","auto":[null]}]}}
replace /ex-net:net/host[1]/port 9
replace /ex-net:net/host[1]/name {}
remove /ex-net:net/host

remove /ex-net:net/host[2]
--
1
line 1: E7
line 2: E10 J5
line 3: E3
line 5: E5
--
0 faults
==
{"ex-net:net":{"host":[{"name":"a","auto":[null]}]}}
create /ex-net:net/host[1]/name "b"
remove /ex-net:net/host[1]--
1
line 1: E8
--
V6 operation-failed too-few-elements /ex-net:net/host -
1 faults
==
{}
create /ex-net:net/host {"name":"z","auto":[null]}--
1
line 1: E4
--
V6 operation-failed too-few-elements /ex-net:net/host -
1 faults
"#;
    assert_right(&rt, first_wrong(rt.alloc(), EDIT, NETWORK, rows));
    let rows = r#"{"ex-net:net":{"host":[{"name":"a","auto":[null]}]}}
create /ex-net:net/host[1]/name "b"
remove /ex-net:net/host[1]--
1
line 1: E8
--
{"ex-net:net":{}}
==
{"ex-net:net":{"host":[{"name":"a","auto":[null],"uplink":"b"},{"name":"b","auto":[null]}]}}
replace /ex-net:net/host[2] {"name":"b","speed":7}--
0
--
{"ex-net:net":{"host":[{"auto":[null],"name":"a","uplink":"b"},{"name":"b","speed":7}]}}
"#;
    assert_right(&rt, first_wrong(rt.alloc(), DUMP, NETWORK, rows));
    let rows = "{\"k:want\":3}
create /k:boost 1--
1
--
V11 data-missing instance-required /k:want -
1 faults
==
{\"k:want\":3}
create /k:boost 1
remove /k:boost
--
0
--
0 faults
";
    assert_right(&rt, first_wrong(rt.alloc(), EDIT, DEFAULT_CASE, rows));
}

/// Whether a script of any bytes shows so of an empty document.
fn is_shown_of_bytes(alloc: Global, script: &[u8], errors: &str, output: &str) -> Option<bool> {
    let script = NamedFile {
        name: "s.txt",
        bytes: script,
    };
    let files = [file("p.yang", MODULE), file("d.json", "{}"), script];
    let shown = shown_of(alloc, EDIT, &files).ok()?;
    is_shown(&shown, "1", errors, output)
}

#[test]
fn bytes_that_are_no_text(rt: HostRuntime) {
    let output = "V1 invalid-value - /p:c/id -\n1 faults\n";
    let script = b"#\xFF\n\xFF\ncreate /p:c {\"id\":300}";
    let is_told = is_shown_of_bytes(rt.alloc(), script, "line 2: E1\n", output);
    assert!(rt; is_told == Some(true));
}
