//! One request for memory, whichever, may be refused: `memory` is told in place of the answer, or behind a beginning of it.
//! `tools/refuse-memory` refuses each request in turn.

use crate::modules::NETWORK;
use crate::running::{NamedFile, Shown, file, shown_of};
use std::alloc::Global;

// Whether a run has this status, these bytes on its output and none on its error side, or ends for want of memory.
fn is_shown_or_memory(shown: &Shown, status: u8, output: &str) -> bool {
    let taken = shown.output.bytes();
    if shown.status == 4 {
        output.as_bytes().starts_with(taken) && shown.errors.bytes() == "memory\n".as_bytes()
    } else {
        shown.status == status && taken == output.as_bytes() && shown.errors.bytes().is_empty()
    }
}

// The same of words over files. Nothing where the words or the sides find no memory.
fn comes_to(
    alloc: Global,
    line: &str,
    files: &[NamedFile<'_>],
    status: u8,
    output: &str,
) -> Option<bool> {
    let shown = shown_of(alloc, line, files).ok()?;
    Some(is_shown_or_memory(&shown, status, output))
}

const GOOD: &str = r#"{"ex-net:net":{"host":[{"name":"a","auto":[null]}]}}"#;

const BY_DEFAULT: &str = r#"{"ex-net:net":{"host":[{"name":"a","auto":[null],"use-port":80}]}}"#;

const OUT_OF_USE: &str = "V11 data-missing instance-required /ex-net:net/host[1]/use-port -
1 faults
";

fn are_hosts_told(alloc: Global) -> Option<bool> {
    let module = file("net.yang", NETWORK);
    let good = [module, file("d.json", GOOD)];
    let edited = [
        module,
        file("d.json", BY_DEFAULT),
        file("s.txt", "create /ex-net:net/host[1]/port 22"),
    ];
    let checked = comes_to(
        alloc,
        "yanglive validate d.json net.yang",
        &good,
        0,
        "0 faults\n",
    )?;
    let line = "yanglive edit d.json s.txt net.yang";
    Some(checked && comes_to(alloc, line, &edited, 1, OUT_OF_USE)?)
}

// A container, one that is added to it, and a leaf that is added to that.
const OF_A: &str =
    "module a { yang-version 1.1; namespace u; prefix a; import m { prefix m; } import b { prefix b; }
  augment /m:c/b:x { leaf y { type string; } } }";

const OF_B: &str =
    "module b { yang-version 1.1; namespace u; prefix b; import m { prefix m; } augment /m:c { container x; } }";

const OF_M: &str = "module m { yang-version 1.1; namespace u; prefix m; container c; }";

fn are_augments_told(alloc: Global) -> Option<bool> {
    let files = [
        file("a.yang", OF_A),
        file("b.yang", OF_B),
        file("m.yang", OF_M),
        file("d.json", r#"{"m:c":{"b:x":{"a:y":"v"}}}"#),
    ];
    let compiled = comes_to(
        alloc,
        "yanglive compile a.yang b.yang m.yang",
        &files,
        0,
        "3 nodes\n",
    )?;
    let line = "yanglive validate d.json a.yang b.yang m.yang";
    Some(compiled && comes_to(alloc, line, &files, 0, "0 faults\n")?)
}

#[test]
fn hosts_or_memory(rt: HostRuntime) {
    assert!(rt; are_hosts_told(rt.alloc()) != Some(false));
}

#[test]
fn augments_or_memory(rt: HostRuntime) {
    assert!(rt; are_augments_told(rt.alloc()) != Some(false));
}
