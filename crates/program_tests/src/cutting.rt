//! Runs whose sides take a byte a call, and fail at each call in turn. Rows are parted by lines `==`, and what belongs to one
//! by `--`: the words, the document and the script.

use crate::modules::NETWORK;
use crate::running::{InMemory, Shown, WHOLLY, Way, file, shown_by};
use std::alloc::{AllocError, Global};

// Words over the module of hosts, of which each prints something on one side or on both.
const ROWS: &str = r#"yanglive validate d.json net.yang
--
{"ex-net:net":{"host":[{"name":"a","addr":"x","auto":[null]},{"name":"b","addr":"x","port":80,"auto":[null]}]}}
--
# no edit
==
yanglive edit d.json s.txt net.yang
--
{"ex-net:net":{"host":[{"name":"a","auto":[null]},{"name":"a","auto":[null]}]}}
--
remove /ex-net:net/host[name='a']
remove /ex-net:net/host[2]
==
yanglive edit d.json s.txt net.yang
--
{}
--
create /ex-net:net/host {"name":"z","auto":[null]}
==
yanglive edit --dump d.json s.txt net.yang
--
{"ex-net:net":{"host":[{"name":"a","auto":[null]}]}}
--
replace /ex-net:net/host[1]/name {}
==
yanglive tree ex-net net.yang
--
{}
--
# no edit"#;

fn shown(alloc: Global, row: &str, output: Way, errors: Way) -> Option<Result<Shown, AllocError>> {
    let (line, rest) = row.split_once("\n--\n")?;
    let (document, script) = rest.split_once("\n--\n")?;
    let files = [
        file("net.yang", NETWORK),
        file("d.json", document),
        file("s.txt", script),
    ];
    let files = InMemory::new(alloc, &files, None);
    Some(shown_by(alloc, line, files, output, errors))
}

// A side that takes a byte a call, and fails at the call behind so many.
fn failing_behind(written: usize) -> Way {
    Way {
        bytes_per_call: 1,
        failing_call: Some((written as u64).saturating_add(1)),
    }
}

const BYTE_BY_BYTE: Way = Way {
    bytes_per_call: 1,
    failing_call: None,
};

// Whether a run whose output fails behind so many bytes wrote these alone, behind the whole error side.
fn is_output_cut(alloc: Global, row: &str, due: &Shown, written: usize) -> Option<bool> {
    let cut = shown(alloc, row, failing_behind(written), WHOLLY)?.ok()?;
    let is_beginning = due.output.bytes().get(..written) == Some(cut.output.bytes());
    let is_tried_once = cut.output.calls() == (written as u64).saturating_add(1);
    let is_told = cut.errors.bytes() == due.errors.bytes();
    Some(is_beginning && is_tried_once && is_told && cut.status == 4)
}

// Whether a run whose error side fails behind so many bytes wrote these alone, and nothing on the output.
fn are_errors_cut(alloc: Global, row: &str, due: &Shown, written: usize) -> Option<bool> {
    let cut = shown(alloc, row, WHOLLY, failing_behind(written))?.ok()?;
    let is_beginning = due.errors.bytes().get(..written) == Some(cut.errors.bytes());
    let is_tried_once = cut.errors.calls() == (written as u64).saturating_add(1);
    Some(is_beginning && is_tried_once && cut.output.calls() == 0 && cut.status == 4)
}

// Whether a run shows the same where both sides take a byte a call.
fn is_same_by_bytes(alloc: Global, row: &str, due: &Shown) -> Option<bool> {
    let slow = shown(alloc, row, BYTE_BY_BYTE, BYTE_BY_BYTE)?.ok()?;
    let is_output = slow.output.bytes() == due.output.bytes();
    Some(is_output && slow.errors.bytes() == due.errors.bytes() && slow.status == due.status)
}

// Whether a row's run ends so at each call of either side.
fn ends_everywhere(alloc: Global, row: &str) -> Option<bool> {
    let due = shown(alloc, row, WHOLLY, WHOLLY)?.ok()?;
    for written in 0..due.output.bytes().len() {
        if !is_output_cut(alloc, row, &due, written)? {
            return Some(false);
        }
    }
    for written in 0..due.errors.bytes().len() {
        if !are_errors_cut(alloc, row, &due, written)? {
            return Some(false);
        }
    }
    Some(!due.output.bytes().is_empty() && is_same_by_bytes(alloc, row, &due)?)
}

#[test]
fn sides_that_fail_anywhere(rt: HostRuntime) {
    for row in ROWS.split("\n==\n") {
        assert!(rt; ends_everywhere(rt.alloc(), row) == Some(true), "{row}");
    }
}
