//! What is said of each fault of a document, in order.

use crate::module::{ADDED, NET};
use crate::modules::schema_of;
use crate::rows::all_hold;
use std::alloc::{AllocError, Global};
use ycheck::{Fault, faults};
use yinst_tree::{Tree, read};
use ysay_fault::explanation_of;
use yschema_model::Schema;

fn all_explained(
    alloc: Global,
    schema: &Schema,
    tree: &Tree,
    found: &[Fault],
) -> Result<String, AllocError> {
    let mut text = String::new(alloc);
    for fault in found {
        text.push_str(explanation_of(alloc, schema, tree, fault)?.as_str())?;
    }
    Ok(text)
}

/// What is said of the faults of a document.
pub(crate) fn explained(alloc: Global, schema: &Schema, document: &str) -> Option<String> {
    match read(alloc, schema, document.as_bytes()) {
        Ok(tree) => {
            let found = faults(alloc, schema, &tree).ok()?;
            all_explained(alloc, schema, &tree, &found).ok()
        }
        Err(_) => None,
    }
}

// `document => LINE|LINE|`, each line without its indentation.
fn is_explained(alloc: Global, row: &str) -> Option<bool> {
    let (document, lines) = row.split_once(" => ")?;
    let schema = schema_of(alloc, &[NET, ADDED])?;
    let text = explained(alloc, &schema, document)?;
    are_lines(alloc, text.as_str(), lines)
}

// A line, with its indentation.
fn push_line(text: &mut String, line: &str) -> Result<(), AllocError> {
    for part in ["  ", line, "\n"] {
        text.push_str(part)?;
    }
    Ok(())
}

// Whether a text has these lines.
fn are_lines(alloc: Global, text: &str, lines: &str) -> Option<bool> {
    let mut wanted = String::new(alloc);
    for line in lines.split('|') {
        if !line.is_empty() {
            push_line(&mut wanted, line).ok()?;
        }
    }
    Some(text == wanted.as_str())
}

const ROWS: &str =
    r#"{"net:host":[{"name":"a","speed":1},{"name":"b","speed":70000}]} => /net:host[name='b']/speed: 70000 isn't a value of uint16: it takes an integer without quotes in 0..65535.|
{"net:host":[{"name":"a","speed":1,"tag":["x",5]}]} => /net:host[name='a']/tag[2]: 5 isn't a value of string: it takes a text in quotes.|
{"net:host":[{"speed":"x"}]} => /net:host[1]: its key name is missing.|/net:host[1]/speed: "x" isn't a value of uint16: it takes an integer without quotes in 0..65535.|
{"net:host":[{"name":"b"}]} => /net:host[name='b']: speed is missing.|
{"net:more":{"item":[1,2]}} => /net:more: no case of the choice how is there.|
{"net:more":{"item":[1,2],"rate":1,"down":[null]}} => /net:more: the choice how has nodes of more than one case: slow, fast.|
{"net:more":{"item":[1,2],"up":[null],"down":[null]}} => /net:more: the choice way has nodes of more than one case: up, down.|
{"net:more":{"item":[1,2],"rate":1,"added:one":1,"added:two":2}} => /net:more: the choice how has nodes of more than one case: one, two.|
{"net:more":{"item":[1],"rate":1}} => /net:more/item: it has 1, and must have at least 2.|
{"net:host":[{"name":"a","speed":1},{"name":"b","speed":1},{"name":"c","speed":1},{"name":"d","speed":1}]} => /net:host: it has 4, and may have at most 3.|
{"net:host":[{"name":"a","speed":1},{"name":"b","speed":1},{"name":"a","speed":1}]} => /net:host[1]: its key name='a' is that of /net:host[3].|/net:host[3]: its key name='a' is that of /net:host[1].|
{"net:pairs":{"pair":[{"a":"x","b":true},{"a":"x","b":false},{"a":"x","b":true}]}} => /net:pairs/pair[1]: its keys a='x' and b='true' are those of /net:pairs/pair[3].|/net:pairs/pair[3]: its keys a='x' and b='true' are those of /net:pairs/pair[1].|
{"net:pairs":{"pair":[{"a":"it's","b":true,"v":300}]}} => /net:pairs/pair[a="it's"][b='true']/v: 300 isn't a value of uint8: it takes an integer without quotes in 0..255.|
{"net:pairs":{"pair":[{"a":"two\nlines","b":true,"v":-1}]}} => /net:pairs/pair[1]/v: -1 isn't a value of uint8: it takes an integer without quotes in 0..255.|
{"net:pairs":{"pair":[{"a":"it's \"both\"","b":true,"v":300}]}} => /net:pairs/pair[1]/v: 300 isn't a value of uint8: it takes an integer without quotes in 0..255.|
{"net:pairs":{"pair":[{"a":"q\"q\\","b":false,"v":300}]}} => /net:pairs/pair[a='q"q\'][b='false']/v: 300 isn't a value of uint8: it takes an integer without quotes in 0..255.|
{"net:pairs":{"pair":[{"a":"\u009b31m","b":true,"v":"\u007f\u0080\u001b"}]}} => /net:pairs/pair[1]/v: "\u007f\u0080\u001b" isn't a value of uint8: it takes an integer without quotes in 0..255.|
{"net:pairs":{"pair":[{"a":"x\u007f","b":true},{"a":"x\u007f","b":true}]}} => /net:pairs/pair[1]: its keys a='x\u007f' and b='true' are those of /net:pairs/pair[2].|/net:pairs/pair[2]: its keys a='x\u007f' and b='true' are those of /net:pairs/pair[1].|
{"net:pairs":{"pair":[{"a":"x","b":"true","v":1}]}} => /net:pairs/pair[1]/b: "true" isn't a value of boolean: it takes true or false without quotes.|
{"net:host":[{"name":"a","speed":1,"port":5},{"name":"b","speed":1},{"name":"c","speed":1,"port":5}]} => /net:host[name='a']: its port 5 is that of /net:host[3].|/net:host[name='c']: its port 5 is that of /net:host[1].|
{"net:host":[{"name":"a","speed":1,"tag":["x","y","x","x"]}]} => /net:host[1]/tag[1]: its value "x" is that of /net:host[1]/tag[3].|/net:host[1]/tag[3]: its value "x" is that of /net:host[1]/tag[1].|/net:host[1]/tag[4]: its value "x" is that of /net:host[1]/tag[1].|
{"net:host":[{"name":"a","speed":1,"uplink":"b"}]} => /net:host[name='a']/uplink: no instance of /net:host/name is "b".|
{"net:host":[{"name":"core","speed":1},{"name":"edge","speed":1,"uplink":"cora"}]} => /net:host[name='edge']/uplink: no instance of /net:host/name is "cora"; near it: "core".|
{"net:host":[{"name":"a","speed":1,"added:in":{"port":[{"number":4},{"number":400}]}}]} => /net:host[name='a']/added:in/port[2]/number: 400 isn't a value of int8: it takes an integer without quotes in -128..127.|
{"net:host":[{"name":"a","speed":1,"added:in":{"port":[{"number":4}]}}],"net:more":{"rate":1,"item":[3,4],"added:of":[4,6]}} => /net:more/added:of[2]: no instance of /net:host/added:in/port/number is 6.|
{"net:site":[{"name":"a","at":{"ip":"x"}},{"name":"b","port":80,"at":{"ip":"x"}},{"name":"c","at":{"ip":"y"}}]} => /net:site[name='a']: its at/ip "x" and port by default are those of /net:site[2].|/net:site[name='b']: its at/ip "x" and port 80 are those of /net:site[1].|
"#;

#[test]
fn faults_explained(rt: HostRuntime) {
    all_hold(&rt, rt.alloc(), ROWS, is_explained);
}
