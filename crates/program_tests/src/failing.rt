//! Files that can't be read, and sides that fail or take nothing.

use crate::rows::{all_hold, all_hold_below};
use crate::running::{
    BOTH_LINES, InMemory, MODULE, Shown, TWO_FAULTS, VALIDATE, WHOLLY, Way, file, shown_by,
};
use std::alloc::{AllocError, Global};

/// Whether a run whose read of a number fails tells the name of its file, and prints this.
fn ends_unread(alloc: Global, line: &str, failing: u64, name: &str, printed: &str) -> Option<bool> {
    let told = format!(in alloc; "cannot read {name}\n").ok()?;
    let files = InMemory::new(alloc, &[], Some(failing));
    let shown = shown_by(alloc, line, files, WHOLLY, WHOLLY).ok()?;
    let is_told = shown.errors.bytes() == told.as_bytes();
    let is_printed = shown.output.bytes() == printed.as_bytes();
    Some(is_told && is_printed && shown.status == 4 && shown.reads == failing)
}

/// Whether the read of a number ends a run with a line: the row is the words, the number and the file's name.
fn is_told_unread(alloc: Global, row: &str) -> Option<bool> {
    let (line, rest) = row.split_once('|')?;
    let (failing, name) = rest.split_once('|')?;
    let failing = failing.parse::<u64>().ok()?;
    ends_unread(alloc, line, failing, name, "")
}

#[test]
fn failing_reads(rt: HostRuntime) {
    let rows = "yanglive compile p.yang k.yang|1|p.yang
yanglive compile p.yang k.yang|2|k.yang
yanglive validate d.json p.yang|1|p.yang
yanglive validate d.json p.yang|2|d.json
yanglive edit d.json s.txt net.yang|1|net.yang
yanglive edit d.json s.txt net.yang|2|d.json
yanglive edit d.json s.txt net.yang|3|s.txt
yanglive edit d.json s.txt p.yang k.yang|2|k.yang
yanglive edit d.json s.txt p.yang k.yang|3|d.json
yanglive edit --dump d.json s.txt p.yang k.yang|4|s.txt";
    all_hold(&rt, rt.alloc(), rows, is_told_unread);
}

/// Whether the read of a number is told by an object too: the row is the words, the number and the file's name.
fn is_told_as_json(alloc: Global, row: &str) -> Option<bool> {
    let (line, rest) = row.split_once('|')?;
    let (failing, name) = rest.split_once('|')?;
    let failing = failing.parse::<u64>().ok()?;
    let front =
        "{\"error-message\":\"The file can't be read.\",\"error-tag\":\"operation-failed\",\"error-type\":\"application\",\"yanglive:file\":\"";
    let object = [front, name, "\"}\n"].concat(alloc).ok()?;
    ends_unread(alloc, line, failing, name, object.as_str())
}

#[test]
fn failing_reads_as_json(rt: HostRuntime) {
    let rows = "yanglive validate --format json d.json p.yang|1|p.yang
yanglive validate --format json d.json p.yang|2|d.json
yanglive edit --dump --format json d.json s.txt p.yang|3|s.txt";
    all_hold(&rt, rt.alloc(), rows, is_told_as_json);
}

/// A side that takes one byte a call, and fails at the call behind so many.
fn failing_behind(written: usize) -> Way {
    Way {
        bytes_per_call: 1,
        failing_call: Some(calls_with(written)),
    }
}

/// So many calls, and one more.
fn calls_with(written: usize) -> u64 {
    (written as u64).saturating_add(1)
}

fn faulty(alloc: Global, written: usize) -> Result<Shown, AllocError> {
    let files = [file("p.yang", MODULE), file("d.json", TWO_FAULTS)];
    let files = InMemory::new(alloc, &files, None);
    shown_by(alloc, VALIDATE, files, failing_behind(written), WHOLLY)
}

/// Whether a run whose output fails behind so many bytes took these alone and tried nothing more.
fn is_output_cut(alloc: Global, written: usize) -> Option<bool> {
    let shown = faulty(alloc, written).ok()?;
    let is_tried_once = shown.output.calls() == calls_with(written) && shown.errors.calls() == 0;
    let is_beginning = BOTH_LINES.as_bytes().get(..written) == Some(shown.output.bytes());
    Some(is_beginning && is_tried_once && shown.status == 4)
}

/// Whether a failure that comes behind the last byte is met by nothing.
fn is_output_whole(alloc: Global) -> Option<bool> {
    let shown = faulty(alloc, BOTH_LINES.len()).ok()?;
    Some(shown.output.bytes() == BOTH_LINES.as_bytes() && shown.status == 1)
}

#[test]
fn failing_output(rt: HostRuntime) {
    all_hold_below(&rt, rt.alloc(), BOTH_LINES.len(), is_output_cut);
    assert!(rt; is_output_whole(rt.alloc()) == Some(true));
}

const REFUSAL: &str = "d.json: J5 /p:c/id\n";

/// Whether a run whose error side fails behind so many bytes took these alone and tried nothing more.
fn is_refusal_cut(alloc: Global, written: usize) -> Option<bool> {
    let files = [
        file("p.yang", MODULE),
        file("d.json", "{\"p:c\":{\"id\":{}}}"),
    ];
    let files = InMemory::new(alloc, &files, None);
    let shown = shown_by(alloc, VALIDATE, files, WHOLLY, failing_behind(written)).ok()?;
    let is_tried_once = shown.errors.calls() == calls_with(written) && shown.output.calls() == 0;
    let is_beginning = REFUSAL.as_bytes().get(..written) == Some(shown.errors.bytes());
    Some(is_beginning && is_tried_once && shown.status == 4)
}

#[test]
fn failing_errors(rt: HostRuntime) {
    all_hold_below(&rt, rt.alloc(), REFUSAL.len(), is_refusal_cut);
}

/// Whether words whose sides take nothing are tried once, on the output or on the error side.
fn is_tried_once(alloc: Global, row: &str) -> Option<bool> {
    let nothing = Way {
        bytes_per_call: 0,
        failing_call: None,
    };
    let (side, line) = row.split_once('|')?;
    let (to_output, to_errors) = match side {
        "output" => (1, 0),
        "errors" => (0, 1),
        _ => return None,
    };
    let files = [
        file("p.yang", MODULE),
        file("d.json", "{}"),
        file("s.txt", "remove /p:d"),
    ];
    let files = InMemory::new(alloc, &files, None);
    let shown = shown_by(alloc, line, files, nothing, nothing).ok()?;
    let is_tried = shown.output.calls() == to_output && shown.errors.calls() == to_errors;
    let is_empty = shown.output.bytes().is_empty() && shown.errors.bytes().is_empty();
    Some(is_tried && is_empty && shown.status == 4)
}

#[test]
fn sides_that_take_nothing(rt: HostRuntime) {
    let rows = "output|yanglive validate d.json p.yang
output|yanglive compile p.yang
output|yanglive tree p p.yang
errors|yanglive edit d.json s.txt p.yang
errors|yanglive edit --dump d.json s.txt p.yang
output|yanglive edit --dump d.json empty.txt p.yang
errors|yanglive validate
output|yanglive -h";
    all_hold(&rt, rt.alloc(), rows, is_tried_once);
}

const SCRIPT: &str = "create /p:c {\"id\":300}
remove /p:d
create /p:c/id {}";

const REFUSED_LINES: &str = "line 2: E2
line 3: E8
";

const FAULT_LINES: &str = "V1 invalid-value - /p:c/id -
1 faults
";

const DUMPED: &str = "{\"p:c\":{\"id\":300}}
";

/// What a line of words shows of the script.
fn scripted(alloc: Global, line: &str, output: Way, errors: Way) -> Result<Shown, AllocError> {
    let files = [
        file("p.yang", MODULE),
        file("d.json", "{}"),
        file("s.txt", SCRIPT),
    ];
    shown_by(
        alloc,
        line,
        InMemory::new(alloc, &files, None),
        output,
        errors,
    )
}

/// Whether nothing is written behind a failure on the output, where this is due.
fn ends_behind_output(alloc: Global, line: &str, due: &str, written: usize) -> Option<bool> {
    let shown = scripted(alloc, line, failing_behind(written), WHOLLY).ok()?;
    let is_tried_once = shown.output.calls() == calls_with(written);
    let is_beginning = due.as_bytes().get(..written) == Some(shown.output.bytes());
    let is_told = shown.errors.bytes() == REFUSED_LINES.as_bytes();
    Some(is_beginning && is_tried_once && is_told && shown.status == 4)
}

/// Whether nothing is written behind a failure on the error side.
fn ends_behind_errors(alloc: Global, line: &str, written: usize) -> Option<bool> {
    let shown = scripted(alloc, line, WHOLLY, failing_behind(written)).ok()?;
    let is_tried_once = shown.errors.calls() == calls_with(written) && shown.output.calls() == 0;
    let is_beginning = REFUSED_LINES.as_bytes().get(..written) == Some(shown.errors.bytes());
    Some(is_beginning && is_tried_once && shown.status == 4)
}

const EDIT: &str = "yanglive edit d.json s.txt p.yang";

const DUMP: &str = "yanglive edit --dump d.json s.txt p.yang";

#[test]
fn failing_edits(rt: HostRuntime) {
    all_hold_below(&rt, rt.alloc(), FAULT_LINES.len(), |alloc, written| {
        ends_behind_output(alloc, EDIT, FAULT_LINES, written)
    });
    all_hold_below(&rt, rt.alloc(), DUMPED.len(), |alloc, written| {
        ends_behind_output(alloc, DUMP, DUMPED, written)
    });
    all_hold_below(&rt, rt.alloc(), REFUSED_LINES.len(), |alloc, written| {
        let is_edit_ended = ends_behind_errors(alloc, EDIT, written)?;
        Some(is_edit_ended && ends_behind_errors(alloc, DUMP, written)?)
    });
}
