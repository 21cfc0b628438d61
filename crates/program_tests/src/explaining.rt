//! What is said of codes: by a command of its own, and below the lines that tell them. Where a row has lines of its own, the
//! rows are parted by lines `==`.

use crate::rows::all_parts_hold;
use crate::running::{NamedFile, file, shown_of};
use std::alloc::Global;

const MODULE: &str = "module p {
  yang-version 1.1;
  namespace \"urn:p\";
  prefix p;
  container c {
    leaf id { type uint8; mandatory true; }
    leaf note { type string; }
  }
}
";

/// How many lines end in some bytes.
fn line_count(bytes: &[u8]) -> usize {
    let mut count = 0usize;
    for byte in bytes {
        if *byte == b'\n' {
            count = count.saturating_add(1);
        }
    }
    count
}

/// Whether a text is what was said and what was printed, the first of so many whole lines.
fn is_parted(lines: &[u8], count: usize, said: &[u8], printed: &[u8]) -> bool {
    let is_whole = said.is_empty() || said.ends_with(b"\n");
    is_whole
        && line_count(said) == count
        && lines.len() == said.len().saturating_add(printed.len())
        && lines.starts_with(said)
        && lines.ends_with(printed)
}

/// Whether a run over the files of the tests prints so: its row is the words, the status, how many of the lines behind them
/// go to the error side, and these lines, those of the error side first.
pub(crate) fn prints(alloc: Global, files: &[NamedFile<'_>], row: &str) -> Option<bool> {
    let (line, rest) = row.split_once('\n')?;
    let (counts, lines) = rest.split_once('\n')?;
    let (status, count) = counts.split_once(' ')?;
    let status = status.parse::<u8>().ok()?;
    let count = count.parse::<usize>().ok()?;
    let shown = shown_of(alloc, line, files).ok()?;
    let (said, printed) = (shown.errors.bytes(), shown.output.bytes());
    Some(is_parted(lines.as_bytes(), count, said, printed) && shown.status == status)
}

pub(crate) const NET: &str = "module net {
  yang-version 1.1; namespace \"urn:net\"; prefix n;
  list host {
    key name; unique port; max-elements 3;
    leaf name { type string; }
    leaf speed { type uint16; mandatory true; }
    leaf port { type uint16; }
    leaf uplink { type leafref { path /n:host/n:name; } }
    leaf-list tag { type string; }
  }
  container more {
    presence more;
    leaf-list item { type uint8; min-elements 2; }
    choice how {
      mandatory true;
      case slow { leaf rate { type uint8; } }
      case fast { leaf up { type empty; } }
    }
  }
}
";

const SCRIPT: &str = "# the others are refused
create /p:c {\"id\":7}
replace /p:c/id 300
replace /p:c/speed 1
replace /p:c/note 5 6
replace /p:c {\"speed\":1}
";

const TYPED: &str = "module t {
  yang-version 1.1; namespace urn:t; prefix t;
  contaner c {
    leef a { type string; }
  }
}
";

const UNREAD: &str = "module u {
  yang-version 1.1; namespace urn:u; prefix u;
  leaf a { type string {
    pattern x;
  } }
}
";

const BINARY: &str = "module b { yang-version 1.1; namespace urn:b; prefix b;
  leaf a { type binary; }
}
";

const PLACED: &str = "module r { yang-version 1.1; namespace urn:r; prefix r;
  range 1;
}
";

const SEVERAL: &str = "module s { yang-version 1.1; namespace urn:s; prefix s;
  leaf a { range 1; }
}
";

const PATTERNED: &str = "module w { yang-version 1.1; namespace urn:w; prefix w;
  leaf a { type string { pattern 'a)b'; } }
}
";

const ROWS: &str = "yanglive explain V3
0 0
V3: A leaf that must be there is missing.
  Told: the leaf.
  To do: Add it, or take the node out around which it must be there.
  Source: RFC 7950, 7.6.5.
==
yanglive explain L8 E13 L8
0 0
L8: A keyword isn't formed as one: letters, digits, _, - and ., perhaps behind a prefix and a colon.
  Told: the line of the keyword.
  To do: Correct the keyword; an argument with such signs stands behind its keyword.
  Source: RFC 7950, 6.1.2 and 6.2.
E13: The document is stale, since memory ran out in an edit before.
  Told: the line of the script.
  To do: Begin again with the document.
  Source: README, edits.
L8: A keyword isn't formed as one: letters, digits, _, - and ., perhaps behind a prefix and a colon.
  Told: the line of the keyword.
  To do: Correct the keyword; an argument with such signs stands behind its keyword.
  Source: RFC 7950, 6.1.2 and 6.2.
==
yanglive explain v3
0 0
V3: A leaf that must be there is missing.
  Told: the leaf.
  To do: Add it, or take the node out around which it must be there.
  Source: RFC 7950, 7.6.5.
==
yanglive explain C1 c0 V12
2 1
c0: no such code
==
yanglive --version
0 0
yanglive 0.1.0
==
yanglive compile --explain p.yang
0 0
3 nodes
==
yanglive compile --explain open.yang
2 3
open.yang:1: L3
  | module \"p
  A quoted string or a comment isn't closed. Close it: a string with the quote that opens it, a comment with */.
==
yanglive compile --explain p.yang bare.yang
2 4
bare.yang:1: C4
  | module q { namespace \"urn:q\"; prefix q; }
  with --profile rfc this is read.
  The module has no yang-version, or another than 1.1. Write yang-version 1.1; at its beginning.
==
yanglive compile --explain escape.yang
2 3
escape.yang:3: L2
  | leaf\\x1b[2J a;
  The module's text has a character that YANG doesn't allow: a control character other than tab and line break, a carriage return without a line feed, or a noncharacter. Take the character out; end lines with a line feed, or a carriage return and a line feed.
==
yanglive compile --explain p.yang typed.yang
2 4
typed.yang:3: C1
  | contaner c {
  no statement is called contaner; near it: container.
  A statement or a built-in type isn't known, may not stand there, or isn't read by this program. Correct its name, or move it; README says what of YANG is read.
==
yanglive compile typed.yang p.yang
2 1
typed.yang:3: C1
==
yanglive tree --explain u unread.yang
2 5
unread.yang:4: C1
  | pattern x;
  pattern is YANG 1.1, and isn't read here.
  with --profile rfc this is read.
  A statement or a built-in type isn't known, may not stand there, or isn't read by this program. Correct its name, or move it; README says what of YANG is read.
==
yanglive validate --explain empty.json p.yang binary.yang
2 5
binary.yang:2: C1
  | leaf a { type binary; }
  the type binary is YANG 1.1, and isn't read here.
  with --profile rfc this is read.
  A statement or a built-in type isn't known, may not stand there, or isn't read by this program. Correct its name, or move it; README says what of YANG is read.
==
yanglive compile --explain placed.yang
2 4
placed.yang:2: C1
  | range 1;
  range can't stand here.
  A statement or a built-in type isn't known, may not stand there, or isn't read by this program. Correct its name, or move it; README says what of YANG is read.
==
yanglive compile --explain several.yang
2 3
several.yang:2: C1
  | leaf a { range 1; }
  A statement or a built-in type isn't known, may not stand there, or isn't read by this program. Correct its name, or move it; README says what of YANG is read.
==
yanglive compile --explain --profile rfc patterned.yang
2 4
patterned.yang:2: C20
  | leaf a { type string { pattern 'a)b'; } }
  character 2 of the pattern can't stand there: )b
  A pattern isn't a regular expression as XML Schema has it. Close each class and group, and put a backslash before a sign that stands for itself; blocks such as IsGreek aren't read.
==
yanglive compile --profile rfc patterned.yang
2 1
patterned.yang:2: C20
==
yanglive tree --explain q p.yang
2 1
q: no such module
==
yanglive validate --explain bare.json p.yang
2 3
bare.json: J3 /p:c
  nothing called \"speed\" may stand here.
  No node of that name may stand there. Correct the name, or give the module that defines it.
==
yanglive validate --explain two.json p.yang
1 0
V1 invalid-value - /p:c/id -
  /p:c/id: 256 isn't a value of uint8: it takes an integer without quotes in 0..255.
  A value isn't one that its type takes. Look at the type's range, length and names; 64-bit integers and decimal64 are strings, and identities of other modules are module:name.
V1 invalid-value - /p:c/note -
  /p:c/note: 5 isn't a value of string: it takes a text in quotes.
  A value isn't one that its type takes. Look at the type's range, length and names; 64-bit integers and decimal64 are strings, and identities of other modules are module:name.
2 faults
==
yanglive validate two.json p.yang
1 0
V1 invalid-value - /p:c/id -
V1 invalid-value - /p:c/note -
2 faults
==
yanglive validate - p.yang
0 0
0 faults
==
yanglive edit --explain empty.json script p.yang
1 12
line 4: E2
  | replace /p:c/speed 1
  nothing called \"speed\" may stand here.
  A step of the path names no node there, or in the wrong form. Write /module:name at the top and where the module changes, and /name elsewhere.
line 5: E7
  | replace /p:c/note 5 6
  note isn't stored in /p:c; write create in place of replace.
  What is to be replaced, removed or moved isn't stored. Create it, or leave the line out.
line 6: E10 J3
  | replace /p:c {\"speed\":1}
  nothing called \"speed\" may stand here.
  No node of that name may stand there. Correct the name, or give the module that defines it.
V1 invalid-value - /p:c/id -
  /p:c/id: 300 isn't a value of uint8: it takes an integer without quotes in 0..255.
  A value isn't one that its type takes. Look at the type's range, length and names; 64-bit integers and decimal64 are strings, and identities of other modules are module:name.
1 fault
==
yanglive edit --dump --explain empty.json script p.yang
1 12
line 4: E2
  | replace /p:c/speed 1
  nothing called \"speed\" may stand here.
  A step of the path names no node there, or in the wrong form. Write /module:name at the top and where the module changes, and /name elsewhere.
line 5: E7
  | replace /p:c/note 5 6
  note isn't stored in /p:c; write create in place of replace.
  What is to be replaced, removed or moved isn't stored. Create it, or leave the line out.
line 6: E10 J3
  | replace /p:c {\"speed\":1}
  nothing called \"speed\" may stand here.
  No node of that name may stand there. Correct the name, or give the module that defines it.
{\"p:c\":{\"id\":300}}
";

// Each fault of a document under the module of a network, with what stands there.
const FAULTS: &str = "yanglive validate --explain unnamed n.yang
1 0
V2 missing-element - /net:host[1]/name -
  /net:host[1]: its key name is missing.
  An entry of a list lacks a leaf of its key. Add it.
V1 invalid-value - /net:host[1]/speed -
  /net:host[1]/speed: \"x\" isn't a value of uint16: it takes an integer without quotes in 0..65535.
  A value isn't one that its type takes. Look at the type's range, length and names; 64-bit integers and decimal64 are strings, and identities of other modules are module:name.
2 faults
==
yanglive validate --explain uplink n.yang
1 0
V3 data-missing - /net:host[1]/speed -
  /net:host[name=\"it's\"]: speed is missing.
  A leaf that must be there is missing. Add it, or take the node out around which it must be there.
V11 data-missing instance-required /net:host[1]/uplink -
  /net:host[name=\"it's\"]/uplink: no instance of /net:host/name is \"b\".
  A leafref has no instance of its target with its value. Add the instance, or correct the value.
2 faults
==
yanglive validate --explain one n.yang
1 0
V6 operation-failed too-few-elements /net:more/item -
  /net:more/item: it has 1, and must have at least 2.
  A list or leaf-list has fewer entries or items than it must have. Add some.
V4 data-missing missing-choice /net:more how
  /net:more: no case of the choice how is there.
  A choice that must be met has no node of any case. Add a node of one of its cases.
2 faults
==
yanglive validate --explain both n.yang
1 0
V5 bad-element - /net:more how
  /net:more: the choice how has nodes of more than one case: slow, fast.
  Nodes of two or more cases of a choice are there. Leave the nodes of one case.
1 fault
==
yanglive validate --explain four n.yang
1 0
V7 operation-failed too-many-elements /net:host -
  /net:host: it has 4, and may have at most 3.
  A list or leaf-list has more entries or items than it may have. Take some out.
1 fault
==
yanglive validate --explain twins n.yang
1 0
V8 operation-failed - /net:host[1] -
  /net:host[1]: its key name='a' is that of /net:host[3].
  Another entry has the same key. Change the key of one, or take one out.
V8 operation-failed - /net:host[3] -
  /net:host[3]: its key name='a' is that of /net:host[1].
  Another entry has the same key. Change the key of one, or take one out.
2 faults
==
yanglive validate --explain ports n.yang
1 0
V9 operation-failed data-not-unique /net:host[1] 1
  /net:host[name='a']: its port 5 is that of /net:host[2].
  Another entry has the same values of a unique. Change one of these values.
V9 operation-failed data-not-unique /net:host[2] 1
  /net:host[name='b']: its port 5 is that of /net:host[1].
  Another entry has the same values of a unique. Change one of these values.
2 faults
==
yanglive validate --explain tags n.yang
1 0
V10 operation-failed - /net:host[1]/tag[1] -
  /net:host[1]/tag[1]: its value \"x\" is that of /net:host[1]/tag[3].
  Another item of a configuration leaf-list has the same value. Take one of them out.
V10 operation-failed - /net:host[1]/tag[3] -
  /net:host[1]/tag[3]: its value \"x\" is that of /net:host[1]/tag[1].
  Another item of a configuration leaf-list has the same value. Take one of them out.
2 faults
==
yanglive validate --explain good n.yang
0 0
0 faults
==
yanglive edit --explain good adding n.yang
1 0
V1 invalid-value - /net:host[2]/port -
  /net:host[name='b']/port: \"7\" isn't a value of uint16: it takes an integer without quotes in 0..65535.
  A value isn't one that its type takes. Look at the type's range, length and names; 64-bit integers and decimal64 are strings, and identities of other modules are module:name.
1 fault
==
yanglive edit --dump --explain good adding n.yang
1 0
{\"net:host\":[{\"name\":\"a\",\"speed\":1},{\"name\":\"b\",\"port\":\"7\",\"speed\":2}]}
";

// The refused lines of a script under the same module, each as it reads, with what is to be changed in it.
const LINES: &str = "yanglive edit --dump --explain good refused n.yang
1 32
line 1: E1
  | add /net:host {}
  no edit is called \"add\": write create, replace, remove or move.
  The line isn't an edit. Write create PATH VALUE, replace PATH VALUE, remove PATH or move PATH N.
line 2: E1
  |  remove /net:more
  a line begins with create, replace, remove or move.
  The line isn't an edit. Write create PATH VALUE, replace PATH VALUE, remove PATH or move PATH N.
line 4: E1
  | remove /net:host[name=a]
  \"net:host[name=a]\" is no step of a path: a key's text stands in quotes, as in [name='..'].
  The line isn't an edit. Write create PATH VALUE, replace PATH VALUE, remove PATH or move PATH N.
line 5: E1
  | create /net:more/item \\xff
  the line isn't UTF-8.
  The line isn't an edit. Write create PATH VALUE, replace PATH VALUE, remove PATH or move PATH N.
line 6: E3
  | replace /net:host/speed 9
  net:host is a list: write net:host[name='..'] or net:host[1].
  A predicate is missing, out of place or of another kind than its node wants; or what is moved is no entry or item. Give a list entry [position] or a [key='value'] for each key, an item [position], and nothing to others, nor to the last step of create. Move entries and items alone.
line 7: E9
  | create /net:host[1]/uplink a
  a isn't JSON; a text stands in double quotes.
  The value isn't JSON. Put texts into double quotes; look at brackets and commas.
line 8: E10 J5
  | create /net:host [{\"name\":\"b\"}]
  an array stands where an entry is due: write the object alone.
  A value is of another kind than its node: no object for a container or an entry, no array for a list or leaf-list. Write a container as an object, a list as an array of objects, a leaf-list as an array of values, an empty leaf as [null].
line 9: E1
  | remove /net:host\\x1b[2J
  \"net:host\\x1b[2J\" is no step of a path: a step is a name, and behind it perhaps [1], or [name='..'] for each key.
  The line isn't an edit. Write create PATH VALUE, replace PATH VALUE, remove PATH or move PATH N.
{\"net:host\":[{\"name\":\"a\",\"speed\":1}]}
==
yanglive edit --dump good refused n.yang
1 8
line 1: E1
line 2: E1
line 4: E1
line 5: E1
line 6: E3
line 7: E9
line 8: E10 J5
line 9: E1
{\"net:host\":[{\"name\":\"a\",\"speed\":1}]}
";

const REFUSED_LINES: &[u8] = b"add /net:host {}
 remove /net:more\r
# all others are refused
remove /net:host[name=a]
create /net:more/item \xff
replace /net:host/speed 9
create /net:host[1]/uplink a
create /net:host [{\"name\":\"b\"}]
remove /net:host\x1b[2J
";

fn is_said_of_lines(alloc: Global, row: &str) -> Option<bool> {
    let files = [
        file("n.yang", NET),
        file("good", "{\"net:host\":[{\"name\":\"a\",\"speed\":1}]}"),
        NamedFile {
            name: "refused",
            bytes: REFUSED_LINES,
        },
    ];
    prints(alloc, &files, row)
}

#[test]
fn explained_lines(rt: HostRuntime) {
    all_parts_hold(&rt, rt.alloc(), LINES, is_said_of_lines);
}

// Refused documents under the same module, of which what stands there is said of J3, J4 and J5.
const REFUSALS: &str = "yanglive validate --explain near n.yang
2 3
near: J3 /
  nothing called \"net:hots\" may stand here; near it: net:host.
  No node of that name may stand there. Correct the name, or give the module that defines it.
==
yanglive validate near n.yang
2 1
near: J3 /
==
yanglive edit --explain near adding n.yang
2 3
near: J3 /
  nothing called \"net:hots\" may stand here; near it: net:host.
  No node of that name may stand there. Correct the name, or give the module that defines it.
==
yanglive validate --explain far n.yang
2 3
far: J3 /net:more
  nothing called \"colour\" may stand here.
  No node of that name may stand there. Correct the name, or give the module that defines it.
==
yanglive edit --dump --explain far adding n.yang
2 3
far: J3 /net:more
  nothing called \"colour\" may stand here.
  No node of that name may stand there. Correct the name, or give the module that defines it.
==
yanglive validate --explain bare n.yang
2 3
bare: J4 /
  here \"host\" is written net:host.
  A name has a module where it must have none, or none where it must have one. Write module:name at the top and where the module changes, and the name alone elsewhere.
==
yanglive edit --explain qualified adding n.yang
2 3
qualified: J4 /net:more
  here \"net:item\" is written item.
  A name has a module where it must have none, or none where it must have one. Write module:name at the top and where the module changes, and the name alone elsewhere.
==
yanglive edit qualified adding n.yang
2 1
qualified: J4 /net:more
==
yanglive validate --explain alone n.yang
2 3
alone: J5 /net:host
  an object stands where an array is due.
  A value is of another kind than its node: no object for a container or an entry, no array for a list or leaf-list. Write a container as an object, a list as an array of objects, a leaf-list as an array of values, an empty leaf as [null].
==
yanglive edit --explain second adding n.yang
2 3
second: J5 /net:host[2]
  a number stands where an object is due.
  A value is of another kind than its node: no object for a container or an entry, no array for a list or leaf-list. Write a container as an object, a list as an array of objects, a leaf-list as an array of values, an empty leaf as [null].
==
yanglive edit --dump second adding n.yang
2 1
second: J5 /net:host[2]
==
yanglive validate --explain fraction n.yang
2 3
fraction: J6 /net:host[1]/speed
  a number with a point or an exponent, or beyond 64 bits, isn't a value of uint16: it takes an integer without quotes in 0..65535.
  A number has a fraction or an exponent. Write an integer without them; write a decimal64 as a string.
==
yanglive edit --explain fraction adding n.yang
2 3
fraction: J6 /net:host[1]/speed
  a number with a point or an exponent, or beyond 64 bits, isn't a value of uint16: it takes an integer without quotes in 0..65535.
  A number has a fraction or an exponent. Write an integer without them; write a decimal64 as a string.
==
yanglive validate --explain open n.yang
2 4
open: J1 /
  the document ends before all brackets are closed.
  The document isn't JSON. Look for a comma or a bracket too many or too few, and for text that isn't UTF-8.
open:1:1: reading stops here
==
yanglive edit --explain array adding n.yang
2 2
array: J2 /
  The document isn't an object. Put the top nodes into an object: {\"module:name\": ..}.
";

fn is_said_of_refusals(alloc: Global, row: &str) -> Option<bool> {
    let files = [
        file("n.yang", NET),
        file("near", "{\"net:hots\":[]}"),
        file("far", "{\"net:more\":{\"item\":[1,2],\"colour\":1}}"),
        file("bare", "{\"host\":[]}"),
        file("qualified", "{\"net:more\":{\"net:item\":[1,2]}}"),
        file("alone", "{\"net:host\":{\"name\":\"a\"}}"),
        file("second", "{\"net:host\":[{\"name\":\"a\",\"speed\":1},7]}"),
        file(
            "fraction",
            "{\"net:host\":[{\"name\":\"a\",\"speed\":1.5}]}",
        ),
        file("open", "{"),
        file("array", "[]"),
        file("adding", "create /net:host {\"name\":\"b\",\"speed\":2}"),
    ];
    prints(alloc, &files, row)
}

#[test]
fn explained_refusals(rt: HostRuntime) {
    all_parts_hold(&rt, rt.alloc(), REFUSALS, is_said_of_refusals);
}

fn is_said_of_faults(alloc: Global, row: &str) -> Option<bool> {
    let files = [
        file("n.yang", NET),
        file("unnamed", "{\"net:host\":[{\"speed\":\"x\"}]}"),
        file(
            "uplink",
            "{\"net:host\":[{\"name\":\"it's\",\"uplink\":\"b\"}]}",
        ),
        file("one", "{\"net:more\":{\"item\":[1]}}"),
        file(
            "both",
            "{\"net:more\":{\"item\":[1,2],\"rate\":1,\"up\":[null]}}",
        ),
        file(
            "four",
            "{\"net:host\":[{\"name\":\"a\",\"speed\":1},{\"name\":\"b\",\"speed\":1},{\"name\":\"c\",\"speed\":1},{\"name\":\"d\",\"speed\":1}]}",
        ),
        file(
            "twins",
            "{\"net:host\":[{\"name\":\"a\",\"speed\":1},{\"name\":\"b\",\"speed\":1},{\"name\":\"a\",\"speed\":1}]}",
        ),
        file(
            "ports",
            "{\"net:host\":[{\"name\":\"a\",\"speed\":1,\"port\":5},{\"name\":\"b\",\"speed\":1,\"port\":5}]}",
        ),
        file(
            "tags",
            "{\"net:host\":[{\"name\":\"a\",\"speed\":1,\"tag\":[\"x\",\"y\",\"x\"]}]}",
        ),
        file("good", "{\"net:host\":[{\"name\":\"a\",\"speed\":1}]}"),
        file(
            "adding",
            "create /net:host {\"name\":\"b\",\"speed\":2,\"port\":\"7\"}",
        ),
    ];
    prints(alloc, &files, row)
}

#[test]
fn explained_faults(rt: HostRuntime) {
    all_parts_hold(&rt, rt.alloc(), FAULTS, is_said_of_faults);
}

// Refused lines of a script under the same module, of which is said which name of their paths isn't known, and what stands in
// their values.
const EDITS: &str = "yanglive edit --explain good refused n.yang
1 40
line 2: E2
  | create /net:hots {}
  nothing called \"net:hots\" may stand here; near it: net:host.
  A step of the path names no node there, or in the wrong form. Write /module:name at the top and where the module changes, and /name elsewhere.
line 3: E2
  | remove /host[1]
  here \"host\" is written net:host.
  A step of the path names no node there, or in the wrong form. Write /module:name at the top and where the module changes, and /name elsewhere.
line 4: E2
  | replace /net:host[1]/sped 1
  nothing called \"sped\" may stand here; near it: speed.
  A step of the path names no node there, or in the wrong form. Write /module:name at the top and where the module changes, and /name elsewhere.
line 5: E2
  | remove /net:host[1]/net:speed
  here \"net:speed\" is written speed.
  A step of the path names no node there, or in the wrong form. Write /module:name at the top and where the module changes, and /name elsewhere.
line 6: E10 J3
  | create /net:host {\"name\":\"b\",\"sped\":2}
  nothing called \"sped\" may stand here; near it: speed.
  No node of that name may stand there. Correct the name, or give the module that defines it.
line 7: E10 J4
  | create /net:more {\"net:item\":[1,2]}
  here \"net:item\" is written item.
  A name has a module where it must have none, or none where it must have one. Write module:name at the top and where the module changes, and the name alone elsewhere.
line 8: E10 J5
  | create /net:host [{\"name\":\"b\"}]
  an array stands where an entry is due: write the object alone.
  A value is of another kind than its node: no object for a container or an entry, no array for a list or leaf-list. Write a container as an object, a list as an array of objects, a leaf-list as an array of values, an empty leaf as [null].
line 9: E10 J5
  | replace /net:host[1]/speed {}
  an object stands where a leaf's value is due.
  A value is of another kind than its node: no object for a container or an entry, no array for a list or leaf-list. Write a container as an object, a list as an array of objects, a leaf-list as an array of values, an empty leaf as [null].
line 10: E10 J5
  | create /net:host[1]/tag null
  null stands where an item's value is due.
  A value is of another kind than its node: no object for a container or an entry, no array for a list or leaf-list. Write a container as an object, a list as an array of objects, a leaf-list as an array of values, an empty leaf as [null].
line 11: E10 J6
  | replace /net:host[1]/speed 1.5
  a number with a point or an exponent, or beyond 64 bits, isn't a value of uint16: it takes an integer without quotes in 0..65535.
  A number has a fraction or an exponent. Write an integer without them; write a decimal64 as a string.
0 faults
==
yanglive edit good refused n.yang
1 10
line 2: E2
line 3: E2
line 4: E2
line 5: E2
line 6: E10 J3
line 7: E10 J4
line 8: E10 J5
line 9: E10 J5
line 10: E10 J5
line 11: E10 J6
0 faults
";

const REFUSED: &str = "# what is refused is said of
create /net:hots {}
remove /host[1]
replace /net:host[1]/sped 1
remove /net:host[1]/net:speed
create /net:host {\"name\":\"b\",\"sped\":2}
create /net:more {\"net:item\":[1,2]}
create /net:host [{\"name\":\"b\"}]
replace /net:host[1]/speed {}
create /net:host[1]/tag null
replace /net:host[1]/speed 1.5
";

fn is_said_of_edits(alloc: Global, row: &str) -> Option<bool> {
    let files = [
        file("n.yang", NET),
        file("good", "{\"net:host\":[{\"name\":\"a\",\"speed\":1}]}"),
        file("refused", REFUSED),
    ];
    prints(alloc, &files, row)
}

#[test]
fn explained_edits(rt: HostRuntime) {
    all_parts_hold(&rt, rt.alloc(), EDITS, is_said_of_edits);
}

fn is_said_of_runs(alloc: Global, row: &str) -> Option<bool> {
    let files = [
        file("p.yang", MODULE),
        file("open.yang", "module \"p"),
        file("bare.yang", "module q { namespace \"urn:q\"; prefix q; }"),
        file(
            "escape.yang",
            "module e {\n  prefix e;\n  leaf\x1b[2J a;\n}\n",
        ),
        file("typed.yang", TYPED),
        file("unread.yang", UNREAD),
        file("binary.yang", BINARY),
        file("placed.yang", PLACED),
        file("several.yang", SEVERAL),
        file("patterned.yang", PATTERNED),
        file("bare.json", "{\"p:c\":{\"speed\":1}}"),
        file("two.json", "{\"p:c\":{\"id\":256,\"note\":5}}"),
        file("empty.json", "{}"),
        file("-", "{\"p:c\":{\"id\":1}}"),
        file("script", SCRIPT),
    ];
    prints(alloc, &files, row)
}

#[test]
fn explained_runs(rt: HostRuntime) {
    all_parts_hold(&rt, rt.alloc(), ROWS, is_said_of_runs);
}
