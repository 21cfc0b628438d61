//! What each node of a store holds, in preorder: its keys, the values that it gives, and what is told of it and below it.

use crate::documents::{opened, schema_of};
use std::alloc::Global;
use test_modules::{DEFAULT_CASE, ENTRIES, MODULE, NETWORK, STATE};
use ylive_facts::{
    InPlay, child_over, flag_count, in_play, in_play_over, judged_of, keys_of, own_value_of,
};
use yschema_model::{Schema, SchemaId};
use ystore::{Counted, Judged, Key, NodeId, Row};
use ystore_tree::copy_part;

// A `leafref` with its target; an `item` with its leaf-list; a `tuple` with its list, its number and its length; `texts` with
// their list, and each of them.
fn key_word(alloc: Global, key: &Key) -> Option<String> {
    match key {
        Key::Value(target, _) => format!(in alloc; "leafref{} ", target.0).ok(),
        Key::Item(_, list, _) => format!(in alloc; "item{} ", list.0).ok(),
        Key::Tuple(_, list, number, values) => {
            format!(in alloc; "tuple{}.{}.{} ", list.0, number, values.len()).ok()
        }
        Key::Texts(_, list, texts) => {
            let mut word = format!(in alloc; "texts{}", list.0).ok()?;
            for text in texts {
                word.push_str(":").ok()?;
                word.push_str(text.as_str()).ok()?;
            }
            word.push_str(" ").ok()?;
            Some(word)
        }
    }
}

fn add_keys(
    counted: &mut Counted<'_>,
    schema: &Schema,
    id: NodeId,
    text: &mut String,
) -> Option<()> {
    let alloc = counted.alloc();
    let above = counted.parent(id)?;
    let mut held = Vec::new(alloc);
    keys_of(counted, schema, above, id, &mut held).ok()?;
    for (key, _) in &held {
        text.push_str(key_word(alloc, key)?.as_str()).ok()?;
    }
    Some(())
}

// A value `=` of its own, and defaults in use `*` in a row, each with the schema node.
fn add_own(
    counted: &mut Counted<'_>,
    schema: &Schema,
    id: NodeId,
    text: &mut String,
) -> Option<()> {
    let alloc = counted.alloc();
    let mut given = Vec::new(alloc);
    own_value_of(counted, schema, id, &mut given).ok()?;
    for (of, _) in &given {
        text.push_str(format!(in alloc; "={} ", of.0).ok()?.as_str())
            .ok()?;
    }
    Some(())
}

// What is told of what isn't stored, and defaults in use.
fn add_play(alloc: Global, found: &InPlay, text: &mut String) -> Option<()> {
    for (code, of) in &found.absences {
        text.push_str(
            format!(in alloc; "V{}@{} ", code.number(), of.0)
                .ok()?
                .as_str(),
        )
        .ok()?;
    }
    for (of, _) in &found.defaults {
        text.push_str(format!(in alloc; "*{} ", of.0).ok()?.as_str())
            .ok()?;
    }
    Some(())
}

fn add_row(
    counted: &mut Counted<'_>,
    schema: &Schema,
    row: Row,
    above: Option<SchemaId>,
    text: &mut String,
) -> Option<()> {
    let found = in_play(counted, schema, row, above).ok()?;
    add_play(counted.alloc(), &found, text)
}

fn add_judged(
    counted: &mut Counted<'_>,
    schema: &Schema,
    id: NodeId,
    text: &mut String,
) -> Option<()> {
    match judged_of(counted, schema, id).ok()? {
        Judged::Wrong(Some(tag)) => {
            text.push_str("V1:").ok()?;
            text.push_str(tag.as_str()).ok()?;
            text.push_str(" ").ok()
        }
        Judged::Wrong(None) => text.push_str("V1 ").ok(),
        Judged::Missing => None,
        Judged::Right => Some(()),
    }
}

fn add_node(
    counted: &mut Counted<'_>,
    schema: &Schema,
    id: NodeId,
    text: &mut String,
) -> Option<()> {
    let alloc = counted.alloc();
    let of = counted.schema(id)?;
    text.push_str(
        format!(in alloc; "{}:{} ", of.0, flag_count(schema, of))
            .ok()?
            .as_str(),
    )
    .ok()?;
    add_keys(counted, schema, id, text)?;
    add_own(counted, schema, id, text)?;
    add_judged(counted, schema, id, text)?;
    add_row(counted, schema, Row::Below(id), Some(of), text)
}

// The numbers of all nodes of a document.
fn numbers_of(counted: &mut Counted<'_>) -> Option<Vec<NodeId>> {
    let alloc = counted.alloc();
    let depth = counted.node_count();
    let mut copy = Vec::new(alloc);
    let mut numbers = Vec::new(alloc);
    let count = counted.child_count(Row::Top);
    for place in 0..count {
        let id = counted.child(Row::Top, place)?;
        copy_part(counted, id, depth, &mut copy, &mut numbers).ok()?;
    }
    Some(numbers)
}

fn add_document(counted: &mut Counted<'_>, schema: &Schema, text: &mut String) -> Option<()> {
    add_row(counted, schema, Row::Top, None, text)?;
    let numbers = numbers_of(counted)?;
    for id in &numbers {
        add_node(counted, schema, *id, text)?;
    }
    Some(())
}

fn text_of(alloc: Global, schema: &Schema, document: &str) -> Option<String> {
    let mut nodes = opened(alloc, schema, document)?;
    let mut counted = nodes.counted();
    let mut text = String::new(alloc);
    add_document(&mut counted, schema, &mut text)?;
    Some(text)
}

// `document => what is told of the top row and its defaults, then of each node its schema node, the number of its flags, its
// keys, its value, what is told of it and of the row below it, and the defaults there`
fn holds(alloc: Global, module: &str, row: &str) -> Option<bool> {
    let (document, expected) = row.split_once(" => ")?;
    let schema = schema_of(alloc, module)?;
    let text = text_of(alloc, &schema, document)?;
    Some(text.as_str() == expected)
}

fn hold(alloc: Global, module: &str, rows: &str) -> Option<bool> {
    for row in rows.lines() {
        if !holds(alloc, module, row)? {
            return Some(false);
        }
    }
    Some(true)
}

const PLAIN: &str = r#"{} => V3@1 
{"p:c":{}} => 0:0 V3@1 
{"p:c":{"id":7}} => 0:0 1:0 
{"p:c":{"id":256,"note":"x"}} => 0:0 1:0 V1 2:0 "#;

#[test]
fn plain_documents(rt: HostRuntime) {
    assert!(rt; hold(rt.alloc(), MODULE, PLAIN) == Some(true));
}

const HOSTS: &str = r#"{} => V6@1 
{"ex-net:net":{"host":[{"auto":[null],"name":"a","uplink":"b"},{"addr":"x","name":"b","use-port":80}]}} => 0:0 1:2 texts1:a tuple1.0.1 *4 2:0 =2 5:0 leafref2 9:0 1:2 texts1:b tuple1.0.1 tuple1.1.2 V4@7 *4 2:0 =2 3:0 6:0 leafref4 
{"ex-net:net":{"host":[{"auto":[null],"port":5000,"speed":1},{"auto":[null],"name":"123456789"},{"auto":[null]},{"auto":[null]}]}} => 0:0 V7@1 1:2 V2@2 V5@7 4:0 V1:bad-port 9:0 11:0 1:2 *4 2:0 V1 9:0 1:2 V2@2 *4 9:0 1:2 V2@2 *4 9:0 "#;

#[test]
fn hosts(rt: HostRuntime) {
    assert!(rt; hold(rt.alloc(), NETWORK, HOSTS) == Some(true));
}

const CHOICES: &str = r#"{} => *2 
{"k:boost":1} => 4:0 
{"k:rate":1,"k:want":1} => 2:0 =2 5:0 leafref2 
{"k:boost":1,"k:rate":2} => V5@0 2:0 =2 4:0 "#;

#[test]
fn choices(rt: HostRuntime) {
    assert!(rt; hold(rt.alloc(), DEFAULT_CASE, CHOICES) == Some(true));
}

const ITEMS: &str =
    r#"{"v:e":[{"id":2,"in":{"x":"a"},"m":[1,1,300]},{"id":1}]} => 0:2 texts0:2 tuple0.0.1 tuple0.1.1 1:0 2:0 3:0 4:1 item4 4:1 item4 4:1 V1 0:2 texts0:1 tuple0.0.1 1:0 "#;

#[test]
fn items(rt: HostRuntime) {
    assert!(rt; hold(rt.alloc(), ENTRIES, ITEMS) == Some(true));
    let state =
        r#"{"w:c":{"tag":["b","a"]},"w:log":[{},{"at":"1"}]} => 0:0 1:1 item1 1:1 item1 3:1 V3@4 3:1 4:0 "#;
    assert!(rt; hold(rt.alloc(), STATE, state) == Some(true));
}

// The child of the top row that is over a schema node, and what is in play of that child there.
fn add_over(
    counted: &mut Counted<'_>,
    schema: &Schema,
    number: u32,
    text: &mut String,
) -> Option<()> {
    let alloc = counted.alloc();
    let child = child_over(schema, None, SchemaId::new(number));
    text.push_str(
        format!(in alloc; "{}:{} ", number, child?.id().0)
            .ok()?
            .as_str(),
    )
    .ok()?;
    let found = in_play_over(counted, schema, Row::Top, child).ok()?;
    add_play(alloc, &found, text)
}

// Of each schema node.
fn add_overs(counted: &mut Counted<'_>, schema: &Schema, text: &mut String) -> Option<()> {
    for number in 0..6u32 {
        add_over(counted, schema, number, text)?;
    }
    Some(())
}

fn play_over(alloc: Global, schema: &Schema, document: &str) -> Option<String> {
    let mut nodes = opened(alloc, schema, document)?;
    let mut counted = nodes.counted();
    let mut text = String::new(alloc);
    add_overs(&mut counted, schema, &mut text)?;
    Some(text)
}

fn plays(alloc: Global, document: &str, expected: &str) -> Option<bool> {
    let schema = schema_of(alloc, DEFAULT_CASE)?;
    let text = play_over(alloc, &schema, document)?;
    Some(text.as_str() == expected)
}

#[test]
fn children_over_nodes(rt: HostRuntime) {
    assert!(rt; plays(rt.alloc(), "{}", "0:0 *2 1:0 *2 2:0 *2 3:0 *2 4:0 *2 5:5 ") == Some(true));
    assert!(rt; plays(rt.alloc(), r#"{"k:boost":1}"#, "0:0 1:0 2:0 3:0 4:0 5:5 ") == Some(true));
    let both = "0:0 V5@0 1:0 V5@0 2:0 V5@0 3:0 V5@0 4:0 V5@0 5:5 ";
    assert!(rt; plays(rt.alloc(), r#"{"k:boost":1,"k:rate":2}"#, both) == Some(true));
}
