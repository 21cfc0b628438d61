//! Faults and refusals told as JSON, or by lines to which an editor jumps. Rows with lines of their own are parted by lines `==`.

use crate::explaining::{NET, prints};
use crate::rows::all_parts_hold;
use crate::running::file;
use std::alloc::Global;

const ROWS: &str = "yanglive validate --format json faulty n.yang
1 0
{\"error-message\":\"\\\"x\\\" isn't a value of uint16: it takes an integer without quotes in 0..65535.\",\"error-path\":\"/net:host[name='a']/speed\",\"error-tag\":\"invalid-value\",\"error-type\":\"application\",\"yanglive:code\":\"V1\",\"yanglive:path\":\"/net:host[1]/speed\"}
{\"error-app-tag\":\"missing-choice\",\"error-message\":\"no case of the choice how is there.\",\"error-path\":\"/net:more\",\"error-tag\":\"data-missing\",\"error-type\":\"application\",\"yanglive:code\":\"V4\",\"yanglive:info\":\"how\",\"yanglive:path\":\"/net:more\"}
{\"yanglive:faults\":2}
==
yanglive validate --explain --format json faulty n.yang
1 0
{\"error-message\":\"\\\"x\\\" isn't a value of uint16: it takes an integer without quotes in 0..65535.\",\"error-path\":\"/net:host[name='a']/speed\",\"error-tag\":\"invalid-value\",\"error-type\":\"application\",\"yanglive:code\":\"V1\",\"yanglive:path\":\"/net:host[1]/speed\"}
{\"error-app-tag\":\"missing-choice\",\"error-message\":\"no case of the choice how is there.\",\"error-path\":\"/net:more\",\"error-tag\":\"data-missing\",\"error-type\":\"application\",\"yanglive:code\":\"V4\",\"yanglive:info\":\"how\",\"yanglive:path\":\"/net:more\"}
{\"yanglive:faults\":2}
==
yanglive validate --format json good n.yang
0 0
{\"yanglive:faults\":0}
==
yanglive validate --format text good n.yang
0 0
0 faults
==
yanglive edit --format json good script n.yang
1 1
line 2: E7
{\"error-message\":\"What is to be replaced, removed or moved isn't stored.\",\"error-tag\":\"data-missing\",\"error-type\":\"application\",\"yanglive:code\":\"E7\",\"yanglive:line\":2}
{\"error-app-tag\":\"data-not-unique\",\"error-message\":\"its port 5 is that of /net:host[2].\",\"error-path\":\"/net:host[name='a']\",\"error-tag\":\"operation-failed\",\"error-type\":\"application\",\"yanglive:code\":\"V9\",\"yanglive:info\":1,\"yanglive:path\":\"/net:host[1]\"}
{\"error-app-tag\":\"data-not-unique\",\"error-message\":\"its port 5 is that of /net:host[1].\",\"error-path\":\"/net:host[name='b']\",\"error-tag\":\"operation-failed\",\"error-type\":\"application\",\"yanglive:code\":\"V9\",\"yanglive:info\":1,\"yanglive:path\":\"/net:host[2]\"}
{\"yanglive:faults\":2}
==
yanglive edit --format json --dump good script n.yang
1 1
line 2: E7
{\"net:host\":[{\"name\":\"a\",\"port\":5,\"speed\":1},{\"name\":\"b\",\"port\":5,\"speed\":2}]}
==
yanglive edit --format json good list n.yang
1 1
line 1: E10 J5
{\"error-message\":\"A value is of another kind than its node: no object for a container or an entry, no array for a list or leaf-list.\",\"error-tag\":\"invalid-value\",\"error-type\":\"application\",\"yanglive:code\":\"E10\",\"yanglive:line\":1,\"yanglive:value-code\":\"J5\"}
{\"yanglive:faults\":0}
==
yanglive validate --format json bare n.yang
2 1
bare: J4 /
{\"error-message\":\"A name has a module where it must have none, or none where it must have one.\",\"error-tag\":\"unknown-namespace\",\"error-type\":\"application\",\"yanglive:code\":\"J4\",\"yanglive:file\":\"bare\",\"yanglive:path\":\"/\"}
==
yanglive validate --strict --format json twice n.yang
2 1
twice: J8 /net:host[1]/port
{\"error-message\":\"A member is given twice in one object, which --strict refuses; without it the last one counts.\",\"error-tag\":\"bad-element\",\"error-type\":\"application\",\"yanglive:code\":\"J8\",\"yanglive:file\":\"twice\",\"yanglive:path\":\"/net:host[1]/port\"}
==
yanglive edit --dump --format json good script half.yang
2 1
half.yang:1: L6
{\"error-message\":\"The text isn't one whole module: it ends within a statement, has a } too many, no statement, or a second one at the top.\",\"error-tag\":\"malformed-message\",\"error-type\":\"application\",\"yanglive:code\":\"L6\",\"yanglive:file\":\"half.yang\",\"yanglive:line\":1}
==
yanglive validate --format json good frob.yang
2 1
frob.yang:2: C1
{\"error-message\":\"A statement or a built-in type isn't known, may not stand there, or isn't read by this program.\",\"error-tag\":\"operation-not-supported\",\"error-type\":\"application\",\"yanglive:code\":\"C1\",\"yanglive:file\":\"frob.yang\",\"yanglive:line\":2}
==
yanglive validate --format lines faulty n.yang
1 0
faulty:1:34: error: V1 /net:host[name='a']/speed: \"x\" isn't a value of uint16: it takes an integer without quotes in 0..65535.
faulty:1:51: error: V4 /net:more: no case of the choice how is there.
2 faults
==
yanglive validate --format lines good n.yang
0 0
0 faults
==
yanglive edit --format lines good script n.yang
1 1
script:2:1: error: E7
V9 operation-failed data-not-unique /net:host[1] 1
V9 operation-failed data-not-unique /net:host[2] 1
2 faults
==
yanglive edit --format lines --dump good list n.yang
1 1
list:1:1: error: E10 J5
{\"net:host\":[{\"name\":\"a\",\"port\":5,\"speed\":1}]}
==
yanglive validate --format lines bare n.yang
2 1
bare:1:1: error: J4 /
==
yanglive validate --strict --format lines twice n.yang
2 1
twice:1:52: error: J8 /net:host[1]/port
==
yanglive validate --format lines list n.yang
2 1
list:1:1: error: J1 /
==
yanglive compile --format lines half.yang
2 1
half.yang:1:1: error: L6
==
yanglive tree --format lines p frob.yang
2 1
frob.yang:2:3: error: C1
==
yanglive compile --format lines empty.yang
2 1
empty.yang:1:1: error: L6
";

fn is_told_in_its_format(alloc: Global, row: &str) -> Option<bool> {
    let files = [
        file("n.yang", NET),
        file(
            "faulty",
            "{\"net:host\":[{\"name\":\"a\",\"speed\":\"x\"}],\"net:more\":{\"item\":[1,2]}}",
        ),
        file(
            "good",
            "{\"net:host\":[{\"name\":\"a\",\"speed\":1,\"port\":5}]}",
        ),
        file(
            "script",
            "create /net:host {\"name\":\"b\",\"speed\":2,\"port\":5}\nremove /net:more\n",
        ),
        file("list", "replace /net:host[1] []\n"),
        file("bare", "{\"host\":[]}"),
        file(
            "twice",
            "{\"net:host\":[{\"name\":\"a\",\"speed\":1,\"port\":5,\"port\":6}]}",
        ),
        file("half.yang", "module p {"),
        file(
            "frob.yang",
            "module p { yang-version 1.1; namespace \"urn:p\"; prefix p;\n  frob x; }",
        ),
    ];
    prints(alloc, &files, row)
}

#[test]
fn formats(rt: HostRuntime) {
    all_parts_hold(&rt, rt.alloc(), ROWS, is_told_in_its_format);
}
