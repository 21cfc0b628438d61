//! What requests are answered. Sessions are parted by lines `==`; the first line of one has its status and, behind a space, words
//! of its own; answers stand behind `> `, and what is kept for them behind `< `, its name in front.

use crate::holding::{GOOD, Held, NOTE, SESSION, hold, is_held, over};
use std::alloc::{AllocError, Global};

const TALKS: &str = r#"0
faults
> {"faults":[],"count":0}
document
> {"document":{"p:c":{"id":1}}}
create /p:c/note "a"
> {"before":0,"after":0}
replace /p:c/id 2
> {"before":0,"after":0}
document
> {"document":{"p:c":{"id":2,"note":"a"}}}
undo
> {"before":0,"after":0}
remove /p:c/note
> {"before":0,"after":0}
document
> {"document":{"p:c":{"id":1}}}
==
1
replace /p:c/id "x"
> {"before":0,"after":1}
faults
> {"faults":[{"error-message":"\"x\" isn't a value of uint8: it takes an integer without quotes in 0..255.","error-path":"/p:c/id","error-tag":"invalid-value","error-type":"application","yanglive:code":"V1","yanglive:path":"/p:c/id"}],"count":1}
faults 2
> {"faults":[],"count":1}
below /p:c
> {"faults":[{"error-message":"\"x\" isn't a value of uint8: it takes an integer without quotes in 0..255.","error-path":"/p:c/id","error-tag":"invalid-value","error-type":"application","yanglive:code":"V1","yanglive:path":"/p:c/id"}],"count":1}
below /p:c/id
> {"faults":[{"error-message":"\"x\" isn't a value of uint8: it takes an integer without quotes in 0..255.","error-path":"/p:c/id","error-tag":"invalid-value","error-type":"application","yanglive:code":"V1","yanglive:path":"/p:c/id"}],"count":1}
below /p:c/note
> {"faults":[],"count":1}
below /p:d
> {"refused":"E2","message":"A step of the path names no node there, or in the wrong form."}
value /p:c/id
> {"value":"x"}
value /p:c
> {"value":{"id":"x"}}
value /p:c/note
> {"refused":"E7","message":"What is to be replaced, removed or moved isn't stored."}
faults 1 0
> {"refused":"E1","message":"The line is no request."}
==
1
replace /p:c/id "x"
> {"before":0,"after":1}
==
0
begin
> {"done":true}
replace /p:c/id "x"
> {"before":0,"after":1}
create /p:c/note "a"
> {"before":1,"after":1}
back
> {"before":1,"after":0}
begin
> {"done":true}
create /p:c/note "a"
> {"before":0,"after":0}
replace /p:c/id 3
> {"before":0,"after":0}
commit
> {"done":true}
undo
> {"before":0,"after":0}
document
> {"document":{"p:c":{"id":1}}}
==
1
undo
> {"refused":"undo","message":"Nothing is remembered."}
==
1 --undo 1
create /p:c/note "a"
> {"before":0,"after":0}
replace /p:c/id 2
> {"before":0,"after":0}
undo
> {"before":0,"after":0}
undo
> {"refused":"undo","message":"Nothing is remembered."}
document
> {"document":{"p:c":{"id":1,"note":"a"}}}
==
0 --undo 2
create /p:c/note "a"
> {"before":0,"after":0}
replace /p:c/id 2
> {"before":0,"after":0}
undo
> {"before":0,"after":0}
undo
> {"before":0,"after":0}
==
1 --undo 0
create /p:c/note "a"
> {"before":0,"after":0}
undo
> {"refused":"undo","message":"Nothing is remembered."}
==
0
save a.json
> {"saved":"a.json"}
< a.json {"p:c":{"id":1}}
replace /p:c/id 2
> {"before":0,"after":0}
save my "own" file
> {"saved":"my \"own\" file"}
< my "own" file {"p:c":{"id":2}}
undo
> {"before":0,"after":0}
save a.json
> {"saved":"a.json"}
< a.json {"p:c":{"id":1}}
==
1
save no/a.json
> {"refused":"save","message":"Cannot write no/a.json: no such folder."}
save a.json
> {"saved":"a.json"}
< a.json {"p:c":{"id":1}}
==
1
save
> {"refused":"E1","message":"The line is no request."}
saved a.json
> {"refused":"E1","message":"The line is no request."}
==
1
commit
> {"refused":"end","message":"No edits together have begun."}
back
> {"refused":"end","message":"No edits together have begun."}
begin
> {"done":true}
begin
> {"refused":"begin","message":"Edits together have begun."}
==
1
remove /p:c/note
> {"refused":"E7","message":"What is to be replaced, removed or moved isn't stored."}
replace /p:c []
> {"refused":"E10","document":"J5","message":"A value is of another kind than its node: no object for a container or an entry, no array for a list or leaf-list."}
document
> {"document":{"p:c":{"id":1}}}
==
1
what
> {"refused":"E1","message":"The line is no request."}
==
1
create /p:c/seen "x"
> {"before":0,"after":0}
create /p:e {}
> {"before":0,"after":1}
==
0 --config
create /p:e {}
> {"before":0,"after":0}
==
1 --config
create /p:c/seen "x"
> {"before":0,"after":1}
==
0 --config --changes
create /p:c/seen "x"
> {"before":0,"after":1,"told":[{"error-message":"seen is config false, so no configuration holds it.","error-path":"/p:c/seen","error-tag":"unknown-element","error-type":"application","yanglive:code":"V12","yanglive:path":"/p:c/seen"}],"gone":[]}
replace /p:c/id "x"
> {"before":1,"after":2,"told":[{"error-message":"\"x\" isn't a value of uint8: it takes an integer without quotes in 0..255.","error-path":"/p:c/id","error-tag":"invalid-value","error-type":"application","yanglive:code":"V1","yanglive:path":"/p:c/id"}],"gone":[]}
faults
> {"faults":[{"error-message":"seen is config false, so no configuration holds it.","error-path":"/p:c/seen","error-tag":"unknown-element","error-type":"application","yanglive:code":"V12","yanglive:path":"/p:c/seen"},{"error-message":"\"x\" isn't a value of uint8: it takes an integer without quotes in 0..255.","error-path":"/p:c/id","error-tag":"invalid-value","error-type":"application","yanglive:code":"V1","yanglive:path":"/p:c/id"}],"count":2}
faults 2
> {"faults":[{"error-message":"\"x\" isn't a value of uint8: it takes an integer without quotes in 0..255.","error-path":"/p:c/id","error-tag":"invalid-value","error-type":"application","yanglive:code":"V1","yanglive:path":"/p:c/id"}],"count":2}
below /p:c/seen
> {"faults":[{"error-message":"seen is config false, so no configuration holds it.","error-path":"/p:c/seen","error-tag":"unknown-element","error-type":"application","yanglive:code":"V12","yanglive:path":"/p:c/seen"}],"count":2}
value /p:c/seen
> {"value":"x"}
document
> {"document":{"p:c":{"id":"x","seen":"x"}}}
save a.json
> {"saved":"a.json"}
< a.json {"p:c":{"id":"x","seen":"x"}}
undo
> {"before":2,"after":1,"told":[],"gone":[{"error-message":"\"x\" isn't a value of uint8: it takes an integer without quotes in 0..255.","error-path":"/p:c/id","error-tag":"invalid-value","error-type":"application","yanglive:code":"V1","yanglive:path":"/p:c/id"}]}
begin
> {"done":true}
remove /p:c/seen
> {"before":1,"after":0,"told":[],"gone":[{"error-message":"seen is config false, so no configuration holds it.","error-path":"/p:c/seen","error-tag":"unknown-element","error-type":"application","yanglive:code":"V12","yanglive:path":"/p:c/seen"}]}
back
> {"before":0,"after":1,"told":[{"error-message":"seen is config false, so no configuration holds it.","error-path":"/p:c/seen","error-tag":"unknown-element","error-type":"application","yanglive:code":"V12","yanglive:path":"/p:c/seen"}],"gone":[]}
undo
> {"before":1,"after":0,"told":[],"gone":[{"error-message":"seen is config false, so no configuration holds it.","error-path":"/p:c/seen","error-tag":"unknown-element","error-type":"application","yanglive:code":"V12","yanglive:path":"/p:c/seen"}]}
==
0
document
> {"document":{"p:c":{"id":1}}}
end
"#;

// A session: what it is opened by, what it is asked, and what is to come of that.
#[derive(Drop)]
struct Row<'a> {
    words: String,
    status: u8,
    lines: Vec<&'a str>,
    told: String,
    kept: String,
}

impl<'a> Row<'a> {
    // Adds a line.
    fn add(&mut self, line: &'a str) -> Result<(), AllocError> {
        if let Some(answer) = line.strip_prefix("> ") {
            self.told.push_str(answer)?;
            self.told.push_str("\n")?;
            return Ok(());
        }
        if let Some(file) = line.strip_prefix("< ") {
            self.kept.push_str(file)?;
            self.kept.push_str("\n")?;
            return Ok(());
        }
        self.lines.push(line)?;
        Ok(())
    }
}

// The session that a text spells.
fn row_of(alloc: Global, text: &str) -> Option<Row<'_>> {
    let (first, rest) = text.split_once('\n')?;
    let (status, words) = match first.split_once(' ') {
        Some((status, words)) => (status, words),
        None => (first, ""),
    };
    let mut row = Row {
        words: [SESSION, " ", words].concat(alloc).ok()?,
        status: status.parse::<u8>().ok()?,
        lines: Vec::new(alloc),
        told: String::new(alloc),
        kept: String::new(alloc),
    };
    for line in rest.lines() {
        row.add(line).ok()?;
    }
    Some(row)
}

// Whether a session told and had kept what is due, and ended so.
fn is_due(held: &Held, row: &Row<'_>) -> bool {
    is_held(held, row.told.as_str(), NOTE, row.status)
        && held.kept.bytes() == row.kept.as_str().as_bytes()
}

// Whether a session is answered so.
fn is_answered(alloc: Global, text: &str) -> Option<bool> {
    let row = row_of(alloc, text)?;
    let held = hold(alloc, over(row.words.as_str(), GOOD, &row.lines)).ok()?;
    Some(is_due(&held, &row))
}

#[test]
fn answers(rt: HostRuntime) {
    for text in TALKS.split("==\n") {
        assert!(rt; is_answered(rt.alloc(), text) == Some(true), "{text}");
    }
}
