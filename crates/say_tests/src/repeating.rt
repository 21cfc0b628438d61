//! Members that a document, or the value of an edit, gives twice.

use crate::modules::host_schema;
use crate::rows::all_hold;
use std::alloc::Global;
use ybase_output::Cut;
use ycheck::write_path;
use ysay_repeated::{first_repeated, has_repeated};

// `DOCUMENT => PATH` with the path of the first member that the document gives twice, or `-`.
fn is_told(alloc: Global, row: &str) -> Option<bool> {
    let (document, path) = row.split_once(" => ")?;
    let schema = host_schema(alloc)?;
    let mut told = Cut::new(alloc, 4096, 4096, None).ok()?;
    match first_repeated(alloc, &schema, document.as_bytes()).ok()? {
        Some(place) => write_path(&schema, &place, &mut told).ok()?,
        None => return Some(path == "-"),
    }
    Some(told.bytes() == path.as_bytes())
}

const DOCUMENTS: &str = r#"{} => -
{"net:host":{"name":"a","tag":["a","a"],"port":[{"id":1},{"id":1}]}} => -
{"net:host":{},"net:link":[],"net:host":{}} => /net:host
{"net:link":[{"id":1}],"net:link":[{"id":1}]} => /net:link
{"net:host":{"name":"a","name":"a"}} => /net:host/name
{"net:host":{"name":"a","tag":["b"],"tag":[],"name":"c"}} => /net:host/tag
{"net:host":{"name":"a","rate":1,"rate":2}} => /net:host/rate
{"net:host":{"port":[{"id":1,"speed":2},{"speed":3,"id":2,"speed":3}]}} => /net:host/port[2]/speed
{"net:host":{"port":[{"id":1,"state":{"up":true,"up":true}},{"id":2,"id":2}]}} => /net:host/port[1]/state/up
{"net:host":{"port":[{"id":1,"added:label":"a","speed":1,"added:label":"a"}]}} => /net:host/port[1]/added:label
{"net:host":{"port":[{"id":1,"added:more":{"depth":1,"depth":2}}]}} => /net:host/port[1]/added:more/depth
{"net:host":{"name":"a","na\u006de":"a"}} => /net:host/name
{"net:host":{"name":"a","name":"b"},"net:host":{}} => /net:host/name
{"net:host":{},"net:host":{"name":"a","name":"b"}} => /net:host
{"net:host":{"name":"a","name":"b","name":"c"},"net:link":[{"id":1,"id":1}]} => /net:host/name
{"net:link":[{"id":2,"id":2},{"id":1,"id":1}]} => /net:link[1]/id
{"net:host":{"x":{"a":1,"a":1}},"net:host":{}} => /net:host
{"net:host":[{"name":"a","name":"b"}],"net:host":{}} => /net:host[1]/name
{"net:host":[[{"name":"a","name":"b"}]]} => -
{"net:host":{"x":1,"x":1}} => -
[{"a":1,"a":1}] => -
{"a":1,"a":1 => -
7 => -
"#;

#[test]
fn places_of_repeated_members(rt: HostRuntime) {
    all_hold(&rt, rt.alloc(), DOCUMENTS, is_told);
}

// `VALUE => yes` or `VALUE => no`
fn is_judged(alloc: Global, row: &str) -> Option<bool> {
    let (value, answer) = row.split_once(" => ")?;
    Some(has_repeated(alloc, value).ok()? == (answer == "yes"))
}

const VALUES: &str = r#"1 => no
"a" => no
{} => no
{"a":1,"b":{"a":1}} => no
[{"a":1},{"a":1}] => no
{"a":1,"b":2,"a":1} => yes
{"a":[1,{"b":{},"b":{}}]} => yes
[[{"a":1,"\u0061":1}]] => yes
{"a":{"a":1},"a":{}} => yes
{"a":1,"a":1 => no
{"a":1,"a":1} x => no
"#;

#[test]
fn values_with_repeated_members(rt: HostRuntime) {
    all_hold(&rt, rt.alloc(), VALUES, is_judged);
}
