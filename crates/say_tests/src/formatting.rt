//! The faults of a document as lines of JSON.

use crate::module::{ADDED, NET};
use crate::modules::schema_of;
use crate::rows::all_parts_hold;
use std::alloc::{AllocError, Global};
use ycheck::{Fault, faults};
use yinst_tree::{Tree, read};
use ysay_json::{json_count, json_line};
use yschema_model::Schema;

fn all_lines(
    alloc: Global,
    schema: &Schema,
    tree: &Tree,
    found: &[Fault],
) -> Result<String, AllocError> {
    let mut text = String::new(alloc);
    for fault in found {
        text.push_str(json_line(alloc, schema, tree, fault)?.as_str())?;
        text.push_str("\n")?;
    }
    text.push_str(json_count(alloc, found.len())?.as_str())?;
    text.push_str("\n")?;
    Ok(text)
}

// The lines of the faults of a document.
fn formatted(alloc: Global, schema: &Schema, document: &str) -> Option<String> {
    match read(alloc, schema, document.as_bytes()) {
        Ok(tree) => {
            let found = faults(alloc, schema, &tree).ok()?;
            all_lines(alloc, schema, &tree, &found).ok()
        }
        Err(_) => None,
    }
}

// A line with a document, and the lines of its faults.
fn is_formatted(alloc: Global, row: &str) -> Option<bool> {
    let (document, lines) = row.split_once("\n")?;
    let schema = schema_of(alloc, &[NET, ADDED])?;
    Some(formatted(alloc, &schema, document)?.as_str() == lines)
}

const ROWS: &str = r#"{"net:host":[{"name":"a","speed":1}]}
{"yanglive:faults":0}
==
{"net:host":[{"name":"a","speed":1},{"name":"b","speed":70000}]}
{"error-message":"70000 isn't a value of uint16: it takes an integer without quotes in 0..65535.","error-path":"/net:host[name='b']/speed","error-tag":"invalid-value","error-type":"application","yanglive:code":"V1","yanglive:path":"/net:host[2]/speed"}
{"yanglive:faults":1}
==
{"net:host":[{"name":"it's"}]}
{"error-message":"speed is missing.","error-path":"/net:host[name=\"it's\"]/speed","error-tag":"data-missing","error-type":"application","yanglive:code":"V3","yanglive:path":"/net:host[1]/speed"}
{"yanglive:faults":1}
==
{"net:more":{"item":[1,2]}}
{"error-app-tag":"missing-choice","error-message":"no case of the choice how is there.","error-path":"/net:more","error-tag":"data-missing","error-type":"application","yanglive:code":"V4","yanglive:info":"how","yanglive:path":"/net:more"}
{"yanglive:faults":1}
==
{"net:host":[{"name":"a","speed":1,"port":5},{"name":"b","speed":1,"port":5}]}
{"error-app-tag":"data-not-unique","error-message":"its port 5 is that of /net:host[2].","error-path":"/net:host[name='a']","error-tag":"operation-failed","error-type":"application","yanglive:code":"V9","yanglive:info":1,"yanglive:path":"/net:host[1]"}
{"error-app-tag":"data-not-unique","error-message":"its port 5 is that of /net:host[1].","error-path":"/net:host[name='b']","error-tag":"operation-failed","error-type":"application","yanglive:code":"V9","yanglive:info":1,"yanglive:path":"/net:host[2]"}
{"yanglive:faults":2}
==
{"net:host":[{"name":"a","speed":1,"tag":["x","x"]}]}
{"error-message":"its value \"x\" is that of /net:host[1]/tag[2].","error-path":"/net:host[name='a']/tag[1]","error-tag":"operation-failed","error-type":"application","yanglive:code":"V10","yanglive:path":"/net:host[1]/tag[1]"}
{"error-message":"its value \"x\" is that of /net:host[1]/tag[1].","error-path":"/net:host[name='a']/tag[2]","error-tag":"operation-failed","error-type":"application","yanglive:code":"V10","yanglive:path":"/net:host[1]/tag[2]"}
{"yanglive:faults":2}
==
{"net:host":[{"name":"a","speed":1},{"name":"a","speed":1}]}
{"error-message":"its key name='a' is that of /net:host[2].","error-path":"/net:host[1]","error-tag":"operation-failed","error-type":"application","yanglive:code":"V8","yanglive:path":"/net:host[1]"}
{"error-message":"its key name='a' is that of /net:host[1].","error-path":"/net:host[2]","error-tag":"operation-failed","error-type":"application","yanglive:code":"V8","yanglive:path":"/net:host[2]"}
{"yanglive:faults":2}
==
{"net:host":[{"name":"\u007f\u009b"}]}
{"error-message":"speed is missing.","error-path":"/net:host[1]/speed","error-tag":"data-missing","error-type":"application","yanglive:code":"V3","yanglive:path":"/net:host[1]/speed"}
{"yanglive:faults":1}
==
{"net:limits":{"small":9,"word":"abc"}}
{"error-app-tag":"too big","error-message":"9 isn't a value of uint8: it takes an integer without quotes in 1..5 | 7.","error-path":"/net:limits/small","error-tag":"invalid-value","error-type":"application","yanglive:code":"V1","yanglive:path":"/net:limits/small"}
{"error-message":"\"abc\" isn't a value of string: it takes a text in quotes of length 2.","error-path":"/net:limits/word","error-tag":"invalid-value","error-type":"application","yanglive:code":"V1","yanglive:path":"/net:limits/word"}
{"yanglive:faults":2}
==
{"net:limits":{"much":20}}
{"error-message":"At least \"half\".","error-path":"/net:limits/much","error-tag":"invalid-value","error-type":"application","yanglive:code":"V1","yanglive:path":"/net:limits/much"}
{"yanglive:faults":1}
==
{"net:limits":{"much":101}}
{"error-app-tag":"part","error-message":"A part\n  of 100.","error-path":"/net:limits/much","error-tag":"invalid-value","error-type":"application","yanglive:code":"V1","yanglive:path":"/net:limits/much"}
{"yanglive:faults":1}
==
{"net:limits":{"much":"x"}}
{"error-message":"\"x\" isn't a value of percent: it takes an integer without quotes in 50..100.","error-path":"/net:limits/much","error-tag":"invalid-value","error-type":"application","yanglive:code":"V1","yanglive:path":"/net:limits/much"}
{"yanglive:faults":1}
"#;

#[test]
fn lines_of_json(rt: HostRuntime) {
    all_parts_hold(&rt, rt.alloc(), ROWS, is_formatted);
}
