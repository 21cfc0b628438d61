//! What the program prints. Where a row has lines of its own, the rows are parted by lines `==`.

use crate::rows::all_parts_hold;
use crate::running::{BOTH_LINES, MODULE, TWO_FAULTS, file, shown_of, validated};
use std::alloc::Global;
use ytext::Cut;

/// The module of the tests with a type that the program doesn't take.
const OTHER_TYPE: &str = "module p {
  yang-version 1.1;
  namespace \"urn:p\";
  prefix p;
  container c {
    leaf id { type instance-identifier; mandatory true; }
    leaf note { type string; }
  }
}
";

/// Whether a document prints so under a module: its row is the document, the status and the output.
pub fn is_told(alloc: Global, module: &str, row: &str) -> Option<bool> {
    let (document, rest) = row.split_once('\n')?;
    let (status, output) = rest.split_once('\n')?;
    let status = status.parse::<u8>().ok()?;
    let shown = validated(alloc, module.as_bytes(), document.as_bytes()).ok()?;
    let is_silent = shown.errors.bytes().is_empty();
    Some(is_silent && shown.status == status && shown.output.bytes() == output.as_bytes())
}

fn is_told_of_module(alloc: Global, row: &str) -> Option<bool> {
    is_told(alloc, MODULE, row)
}

#[test]
fn documents(rt: HostRuntime) {
    let rows = "{\"p:c\":{\"note\":\"x\"}}
1
V3 data-missing - /p:c/id -
1 faults
==
{\"p:c\":{\"id\":256}}
1
V1 invalid-value - /p:c/id -
1 faults
==
{\"p:c\":{\"id\":255}}
0
0 faults
==
{}
1
V3 data-missing - /p:c/id -
1 faults
==
{\"p:c\":{\"id\":256,\"note\":5}}
1
V1 invalid-value - /p:c/id -
V1 invalid-value - /p:c/note -
2 faults
==
{\"p:c\":{\"id\":1,\"note\":\"\"}}
0
0 faults
";
    all_parts_hold(&rt, rt.alloc(), rows, is_told_of_module);
}

/// Whether a document or its module is refused with these lines, and nothing is printed.
pub fn is_refused_pair(alloc: Global, module: &[u8], document: &str, lines: &str) -> Option<bool> {
    let shown = validated(alloc, module, document.as_bytes()).ok()?;
    let is_said = shown.errors.bytes() == lines.as_bytes();
    Some(is_said && shown.output.bytes().is_empty() && shown.status == 2)
}

/// Whether a document or its module is refused so: the row is the module (`p`, `other`, or its text), the document, and
/// what is said.
fn is_refused(alloc: Global, row: &str) -> Option<bool> {
    let (module, rest) = row.split_once('|')?;
    let (document, lines) = rest.split_once('|')?;
    let module = match module {
        "p" => MODULE,
        "other" => OTHER_TYPE,
        text => text,
    };
    is_refused_pair(alloc, module.as_bytes(), document, lines)
}

#[test]
fn refused_files(rt: HostRuntime) {
    let rows = "p|{\"c\":{}}|d.json: J4 /
==
p|{\"p:c\":{\"p:id\":1}}|d.json: J4 /p:c
==
p|{\"p:c\":{\"id\":{}}}|d.json: J5 /p:c/id
==
p|{\"p:c\":{\"id\":1.5}}|d.json: J6 /p:c/id
==
p|{\"p:d\":1}|d.json: J3 /
==
p|[]|d.json: J2 /
==
p||d.json: J1 /
==
other|{}|p.yang:6: C1
==
|{}|p.yang:1: L6
==
module a { prefix \"x|{}|p.yang:1: L3
==
module a {|[]|p.yang:1: L6
";
    all_parts_hold(&rt, rt.alloc(), rows, is_refused);
    let found = is_refused_pair(rt.alloc(), b"module a {\n\xFF", "{}", "p.yang:2: L1\n");
    assert!(rt; found == Some(true), "a byte that is no text");
}

/// Whether a side took whole lines with this part.
fn has_part(side: &Cut, part: &str) -> bool {
    match str::from_utf8(side.bytes()) {
        Ok(text) => text.ends_with('\n') && text.contains(part),
        Err(_) => false,
    }
}

/// Whether words are answered so without a file being read: the row is the words, the side with the status, and a part
/// of what is said.
fn is_answered(alloc: Global, row: &str) -> Option<bool> {
    let (line, rest) = row.split_once('\n')?;
    let (place, part) = rest.split_once('\n')?;
    let (side, status) = place.split_once(' ')?;
    let status = status.parse::<u8>().ok()?;
    let shown = shown_of(alloc, line, &[]).ok()?;
    let is_said = match side {
        "output" => has_part(&shown.output, part) && shown.errors.bytes().is_empty(),
        "errors" => has_part(&shown.errors, part) && shown.output.bytes().is_empty(),
        _ => false,
    };
    Some(is_said && shown.status == status && shown.reads == 0)
}

#[test]
fn command_lines(rt: HostRuntime) {
    let rows = "yanglive validate
errors 3
<DATA>
  <MODULE>...

==
yanglive validate d.json
errors 3
<MODULE>...

==
yanglive compile
errors 3
<MODULE>...

==
yanglive edit d.json s.txt
errors 3
<MODULE>...

==
yanglive
errors 3
requires a subcommand
==
yanglive check d.json p.yang
errors 3
'check'
==
yanglive help
output 0
  validate  
==
yanglive help edit
output 0
Example: yanglive edit 
==
yanglive help check
errors 3
error: no command is called 'check'; the commands are compile, tree, validate, edit, session and explain
==
yanglive edit - - p.yang
errors 3
error: DATA and SCRIPT can't both be -: standard input is read once
==
yanglive edit --output - d.json s.txt p.yang
errors 3
error: '--output -' names no file: --dump prints the edited document
==
yanglive edit --output /dev/stdout d.json s.txt p.yang
errors 3
error: '--output /dev/stdout' names no file: --dump prints the edited document
==
yanglive tree --all
errors 3
<NAME>
==
yanglive help edit d.json
errors 3
'help'
==
yanglive validate --dump d.json p.yang
errors 3
'--dump'
==
yanglive edit --dump --dump d.json s.txt p.yang
errors 3
'--dump'
==
yanglive session --undo 1 --undo 2 d.json p.yang
errors 3
'--undo
==
yanglive session --undo 01 d.json p.yang
errors 3
error: invalid value '01' for '--undo <N>': it isn't a whole number in 0..=4294967295
==
yanglive session --changes --changes d.json p.yang
errors 3
'--changes'
==
yanglive session --config --config d.json p.yang
errors 3
'--config'
==
yanglive validate --undo 1 d.json p.yang
errors 3
'--undo'
==
yanglive help session
output 0
  save FILE 
==
yanglive validate --format xml d.json p.yang
errors 3
error: invalid value 'xml' for '--format <FORMAT>'
  [possible values: text, lines, and of a document json]
==
yanglive edit --format= d.json s.txt p.yang
errors 3
'--format <FORMAT>'
==
yanglive compile --format json p.yang
errors 3
error: invalid value 'json' for '--format <FORMAT>'
==
yanglive tree --strict p p.yang
errors 3
'--strict'
==
yanglive --help
output 0
  validate  
==
yanglive compile -h
output 0
Example: yanglive compile 
==
yanglive validate -h
output 0
Example: yanglive validate 
==
yanglive edit --help
output 0
Example: yanglive edit 
==
yanglive edit d.json --help
output 0
[OPTIONS] <DATA> <SCRIPT> <MODULE>...";
    for row in rows.split("\n==\n") {
        assert!(rt; is_answered(rt.alloc(), row) == Some(true), "{row}");
    }
}

/// Whether both lines are told, or `memory` behind a beginning of them.
fn is_answer_or_memory(alloc: Global) -> Option<bool> {
    let shown = validated(alloc, MODULE.as_bytes(), TWO_FAULTS.as_bytes()).ok()?;
    let output = shown.output.bytes();
    let is_whole = output == BOTH_LINES.as_bytes() && shown.errors.bytes().is_empty();
    let is_beginning = BOTH_LINES.as_bytes().starts_with(output);
    Some(match shown.status {
        1 => is_whole,
        4 => is_beginning && shown.errors.bytes() == "memory\n".as_bytes(),
        _ => false,
    })
}

// Each request for memory may be refused: `memory` is told in place of the answer, or behind a beginning of it.
#[test]
fn answer_or_memory(rt: HostRuntime) {
    assert!(rt; is_answer_or_memory(rt.alloc()) != Some(false));
}
