//! The file to which a document is written at the end.

ghost use Rattle.std.specs.Prelude.{None};

use crate::rows::all_parts_hold;
use crate::running::{InMemory, MODULE, Shown, WHOLLY, Way, file, shown_by};
use std::alloc::{AllocError, Global};
use yapp::{Ended, SavedFile, Shelf, Unsaved, save, tell_unwritten};
use ytext::{CallCount, Cut};

const SCRIPT: &str = "create /p:c {\"id\":300}
remove /p:d";

/// What words show of the module of the tests, an empty document and a script with a refused line.
fn shown(alloc: Global, line: &str, output: Way, errors: Way) -> Result<Shown, AllocError> {
    let files = [
        file("p.yang", MODULE),
        file("d.json", "{}"),
        file("s.txt", SCRIPT),
        file("none.txt", ""),
        file("bad.json", "{\"p:d\":1}"),
    ];
    let files = InMemory::new(alloc, &files, None);
    shown_by(alloc, line, files, output, errors)
}

/// Whether a file is due with this name and text, or none where the name is `-`.
fn is_due(saved: &Option<SavedFile>, name: &str, text: &str) -> bool {
    match saved {
        Some(file) => file.name.as_str() == name && file.text.as_str() == text,
        None => name == "-",
    }
}

/// Whether words end so: the row is the words, the status, the name of the file, its text, and the output.
fn ends_so(alloc: Global, row: &str) -> Option<bool> {
    let (line, rest) = row.split_once('|')?;
    let (status, rest) = rest.split_once('|')?;
    let (name, rest) = rest.split_once('|')?;
    let (text, output) = rest.split_once('|')?;
    let status = status.parse::<u8>().ok()?;
    let shown = shown(alloc, line, WHOLLY, WHOLLY).ok()?;
    let is_shown = shown.status == status && shown.output.bytes() == output.as_bytes();
    Some(is_shown && is_due(&shown.saved, name, text))
}

#[test]
fn saved_documents(rt: HostRuntime) {
    let rows = "yanglive edit --output o.json d.json s.txt p.yang|1|o.json|{\"p:c\":{\"id\":300}}
|V1 invalid-value - /p:c/id -
1 faults
==
yanglive edit --dump --output=o.json d.json s.txt p.yang|1|o.json|{\"p:c\":{\"id\":300}}
|{\"p:c\":{\"id\":300}}
==
yanglive edit --output d.json d.json none.txt p.yang|1|d.json|{}
|V3 data-missing - /p:c/id -
1 faults
==
yanglive edit d.json s.txt p.yang|1|-||V1 invalid-value - /p:c/id -
1 faults
==
yanglive edit --output o.json bad.json s.txt p.yang|2|-||==
yanglive edit --output o.json d.json s.txt d.json|2|-||==
yanglive validate --output o.json d.json p.yang|3|-||==
yanglive edit --output|3|-||";
    all_parts_hold(&rt, rt.alloc(), rows, ends_so);
}

/// Whether no file is due once the call of a number failed on a side.
fn is_dropped(alloc: Global, call: u64) -> Option<bool> {
    let line = "yanglive edit --output o.json d.json s.txt p.yang";
    let failing = Way {
        bytes_per_call: 1,
        failing_call: Some(call),
    };
    let by_output = shown(alloc, line, failing, WHOLLY).ok()?;
    let by_errors = shown(alloc, line, WHOLLY, failing).ok()?;
    let is_cut = by_output.saved.is_none() && by_output.status == 4;
    Some(is_cut && by_errors.saved.is_none() && by_errors.status == 4)
}

#[test]
fn nothing_saved_behind_a_failure(rt: HostRuntime) {
    for call in 1..12 {
        assert!(rt; is_dropped(rt.alloc(), call) == Some(true), "{call}");
    }
}

/// Keeps the last file that it was given, or fails for a cause.
#[derive(Drop)]
struct Last {
    alloc: Global,
    failing: Option<Unsaved>,
    text: String,
    count: CallCount,
    cause: Option<Unsaved>,
}

impl Shelf for Last {
    ghost written = { λ _. None };

    ghost failures = { λ s. s.count.calls };

    ghost cause = { λ s. s.cause };

    fn save(&mut self, file: &SavedFile) -> Result<(), Unsaved> {
        let copy = [file.name.as_str(), " ", file.text.as_str()].concat(self.alloc);
        match (self.failing, copy) {
            (None, Ok(text)) => {
                self.text = text;
                self.cause = None;
                Ok(())
            }
            (failing, _) => {
                let cause = failing.unwrap_or(Unsaved::Other);
                self.count.rise();
                self.cause = Some(cause);
                Err(cause)
            }
        }
    }
}

/// The cause of a word.
fn cause_of(word: &str) -> Option<Unsaved> {
    match word {
        "part" => Some(Unsaved::PartThere),
        "target" => Some(Unsaved::TargetPartThere),
        "folder" => Some(Unsaved::NoFolder),
        "permission" => Some(Unsaved::NoPermission),
        "file" => Some(Unsaved::NoRegularFile),
        "other" => Some(Unsaved::Other),
        "memory" => Some(Unsaved::Memory),
        _ => None,
    }
}

/// A file to write, where the word says so.
fn saved_file(alloc: Global, word: &str) -> Result<Option<SavedFile>, AllocError> {
    if word != "file" {
        return Ok(None);
    }
    let name = String::from_str(alloc, "o.json")?;
    let text = String::from_str(alloc, "{}")?;
    Ok(Some(SavedFile { name, text }))
}

/// The status with which a run ends that says this; 255 where it says something else.
fn ends_with(alloc: Global, ended: &Ended, shelf: &mut Last, said: &str) -> Option<u8> {
    let mut errors = Cut::new(alloc, 200, 7, None).ok()?;
    let status = save(ended, shelf, &mut errors);
    Some(if errors.bytes() == said.as_bytes() {
        status
    } else {
        255
    })
}

/// Whether a run that ends with a status and perhaps with a file comes to that: the row is the status, whether there is a
/// file, the cause for which it can't be written, whether reasons are wanted, the status then, what is kept, and what is said.
fn is_saved(alloc: Global, row: &str) -> Option<bool> {
    let (before, rest) = row.split_once('|')?;
    let (is_there, rest) = rest.split_once('|')?;
    let (failing, rest) = rest.split_once('|')?;
    let (wanted, rest) = rest.split_once('|')?;
    let (after, rest) = rest.split_once('|')?;
    let (kept, said) = rest.split_once('|')?;
    let (before, after) = (before.parse::<u8>().ok()?, after.parse::<u8>().ok()?);
    let ended = Ended {
        status: before,
        saved: saved_file(alloc, is_there).ok()?,
        with_reasons: wanted == "reasons",
    };
    let mut shelf = Last {
        alloc,
        failing: cause_of(failing),
        text: String::new(alloc),
        count: CallCount::new(),
        cause: None,
    };
    Some(ends_with(alloc, &ended, &mut shelf, said)? == after && shelf.text.as_str() == kept)
}

/// Whether that the output couldn't be written out is said where reasons are wanted alone.
fn is_unwritten_told(alloc: Global, with_reasons: bool, said: &str) -> Option<bool> {
    let ended = Ended {
        status: 0,
        saved: None,
        with_reasons,
    };
    let mut errors = Cut::new(alloc, 100, 7, None).ok()?;
    let status = tell_unwritten(&ended, &mut errors);
    Some(status == 4 && errors.bytes() == said.as_bytes())
}

#[test]
fn output_that_is_not_written_out(rt: HostRuntime) {
    let told = is_unwritten_told(rt.alloc(), true, "write failed\n");
    assert!(rt; told == Some(true), "told");
    let silent = is_unwritten_told(rt.alloc(), false, "");
    assert!(rt; silent == Some(true), "silent");
}

#[test]
fn files_in_their_place(rt: HostRuntime) {
    let rows = "0|file|-|plain|0|o.json {}|==
1|file|-|reasons|1|o.json {}|==
1|none|part|reasons|1||==
4|none|-|plain|4||==
0|file|part|plain|4||cannot write o.json
==
1|file|other|plain|4||cannot write o.json
==
0|file|part|reasons|4||cannot write o.json
  o.json.part is there already: another run may be writing it; remove it if none is.
==
0|file|target|reasons|4||cannot write o.json
  a .part is there already beside the file to which it leads: another run may be writing it; remove it if none is.
==
0|file|folder|reasons|4||cannot write o.json
  no such folder.
==
1|file|permission|reasons|4||cannot write o.json
  permission is denied.
==
0|file|file|reasons|4||cannot write o.json
  it is no regular file.
==
0|file|other|reasons|4||cannot write o.json
  the system can't write it.
==
0|file|memory|plain|4||memory
==
1|file|memory|reasons|4||memory
";
    all_parts_hold(&rt, rt.alloc(), rows, is_saved);
}
