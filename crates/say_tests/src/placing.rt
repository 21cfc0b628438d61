//! Where values stand in documents.

use crate::modules::host_schema;
use crate::rows::all_parts_hold;
use crate::state::steps_of;
use std::alloc::Global;
use ysay_lines::{Lines, Place};

// `LINE:COLUMN`
fn place_in(word: &str) -> Option<Place> {
    let (line, column) = word.split_once(':')?;
    Some(Place {
        line: line.parse::<usize>().ok()?,
        column: column.parse::<usize>().ok()?,
    })
}

// A line with `LINE:COLUMN` and the steps of a place, and the document.
fn is_placed(alloc: Global, row: &str) -> Option<bool> {
    let (told, document) = row.split_once("\n")?;
    let (place, steps) = told.split_once(' ')?;
    let schema = host_schema(alloc)?;
    let lines = Lines::read(alloc, &schema, document.as_bytes()).ok()?;
    Some(lines.get(&steps_of(alloc, &schema, steps)?) == place_in(place)?)
}

const ROWS: &str = r#"1:14 net:host
{"net:host": {}}
==
2:13 net:host

{"net:host":{}}
==
4:5 net:host port[2] id
{"net:host": { "name": "a", "tag": ["{", "\"["],
  "port": [{"id": 1}, {
    "speed": 2, "id":
    3}]}}
==
1:33 net:host tag[3]
{"net:host":{"tag":["é", "\\", "},]"]}}
==
1:14 net:host name
{"net:host": {"tag": []}}
==
1:1 net:link id
{"net:host": {}}
==
3:11 net:host port[1] state up
{"net:host": {"port": [{"id": 1,
  "state": {"up": true,
    "up": false}}]}}
==
2:14 net:host port[1] added:more depth
{"net:host": {"port": [{"id": 1, "label": [[{}]],
"added:more":{"x":{"depth":1}}}]}}
==
1:1 net:host
{"net:host": {}
"#;

#[test]
fn places_of_values(rt: HostRuntime) {
    all_parts_hold(&rt, rt.alloc(), ROWS, is_placed);
}
