//! Each call of a store, on a container with two leafs, and on the index.

use std::alloc::Global;
use ycheck::FaultCode;
use yschema_model::SchemaId;
use ystore::{Counted, Judged, Key, Label, NodeId, Nodes, Row, Told, kept_loans, same_keys};
use ytype::{Raw, Val, YType};

pub(crate) const CONTAINER: SchemaId = SchemaId(1);

pub(crate) const FIRST: SchemaId = SchemaId(2);

pub(crate) const SECOND: SchemaId = SchemaId(3);

// Inserts a node of which nothing is told, with a flag, and with room for so many children.
pub(crate) fn insert(
    counted: &mut Counted<'_>,
    schema: SchemaId,
    value: Option<Raw>,
    parent: Row,
    room: usize,
) -> Option<NodeId> {
    let alloc = counted.alloc();
    let label = Label {
        schema,
        value,
        parent,
    };
    let mut same = Vec::new(alloc);
    same.push(false).ok()?;
    let told = Told {
        judged: Judged::Right,
        same,
        play: Vec::new(alloc),
    };
    counted.insert(label, told, 0, room).ok()
}

// Hangs a node on a row.
#[tactic(auto, using(ystore::proofs::CallerLemmas::room_is_there))]
pub(crate) fn hang(
    counted: &mut Counted<'_>,
    row: Row,
    schema: SchemaId,
    node: NodeId,
) -> Option<()> {
    match counted.reserve_child(row) {
        Ok(()) => {
            counted.add_child(row, schema, node);
            Some(())
        }
        Err(_) => None,
    }
}

// Hangs a node in a row at a place among those of its schema node.
#[tactic(auto, using(ystore::proofs::CallerLemmas::room_is_there))]
fn hang_at(
    counted: &mut Counted<'_>,
    row: Row,
    schema: SchemaId,
    node: NodeId,
    place: usize,
) -> Option<()> {
    match counted.reserve_child(row) {
        Ok(()) => {
            counted.add_child_at(row, schema, node, place);
            Some(())
        }
        Err(_) => None,
    }
}

pub(crate) fn instances_of(schema: SchemaId, value: &Val) -> Option<Key> {
    Some(Key::Value(schema, value.clone().ok()?))
}

pub(crate) fn items_of(row: Row, schema: SchemaId, value: &Val) -> Option<Key> {
    Some(Key::Item(row, schema, value.clone().ok()?))
}

// Adds a node to those that hold an item's value.
#[tactic(auto, using(ystore::proofs::CallerLemmas::node_is_awaited))]
pub(crate) fn hold(counted: &mut Counted<'_>, value: &Val, node: NodeId) -> Option<()> {
    let key = Key::Item(Row::Top, FIRST, value.clone().ok()?);
    let again = Key::Item(Row::Top, FIRST, value.clone().ok()?);
    match counted.await_holder(key) {
        Ok(()) => {
            counted.add_holder(&again, node);
            Some(())
        }
        Err(_) => None,
    }
}

pub(crate) fn text(alloc: Global, text: &str) -> Option<Raw> {
    Some(Raw::Text(String::from_str(alloc, text).ok()?))
}

pub(crate) fn value_of(alloc: Global, of: &str) -> Option<Val> {
    YType::string(alloc)
        .ok()?
        .check(alloc, &text(alloc, of)?)
        .ok()
}

// Inserts a leaf with a text.
pub(crate) fn leaf(
    counted: &mut Counted<'_>,
    schema: SchemaId,
    of: &str,
    row: Row,
) -> Option<NodeId> {
    let value = text(counted.alloc(), of)?;
    insert(counted, schema, Some(value), row, 0)
}

// Two nodes at the top that aren't hung yet.
fn two(counted: &mut Counted<'_>) -> Option<(NodeId, NodeId)> {
    let a = insert(counted, FIRST, None, Row::Top, 0)?;
    let b = insert(counted, FIRST, None, Row::Top, 0)?;
    Some((a, b))
}

pub(crate) fn container(counted: &mut Counted<'_>) -> Option<NodeId> {
    let above = insert(counted, CONTAINER, None, Row::Top, 0)?;
    hang(counted, Row::Top, CONTAINER, above)?;
    Some(above)
}

fn number_of(word: &str) -> Option<usize> {
    word.parse::<usize>().ok()
}

// The node of a number, in the order in which they were made.
fn node_of(made: &[NodeId], word: &str) -> Option<NodeId> {
    match made.get(number_of(word)?) {
        Some(node) => Some(*node),
        None => None,
    }
}

// `top`, or the row below a node.
fn row_of(made: &[NodeId], word: &str) -> Option<Row> {
    if word == "top" {
        return Some(Row::Top);
    }
    Some(Row::Below(node_of(made, word)?))
}

// What stands behind the word of a step: a row, a schema node, and two words more.
#[derive(Clone, Copy)]
struct Given<'a> {
    row: Row,
    schema: SchemaId,
    first: &'a str,
    second: &'a str,
}

fn given_of<'a>(made: &[NodeId], words: &'a str) -> Option<Given<'a>> {
    let (row, rest) = words.split_once(' ')?;
    let (schema, rest) = rest.split_once(' ')?;
    let (first, second) = rest.split_once(' ')?;
    Some(Given {
        row: row_of(made, row)?,
        schema: SchemaId(schema.parse::<u32>().ok()?),
        first,
        second,
    })
}

// Inserts a node with a text, or with none for `-`.
fn makes(counted: &mut Counted<'_>, made: &mut Vec<NodeId>, given: Given<'_>) -> Option<()> {
    let node = match given.first {
        "-" => insert(counted, given.schema, None, given.row, 0)?,
        of => leaf(counted, given.schema, of, given.row)?,
    };
    made.push(node).ok()
}

// A node is hung, or stands in the place of another.
fn hangs(counted: &mut Counted<'_>, made: &[NodeId], word: &str, given: Given<'_>) -> Option<()> {
    let (row, schema) = (given.row, given.schema);
    let node = node_of(made, given.first)?;
    match word {
        "hang" => hang(counted, row, schema, node),
        "hang-at" => hang_at(counted, row, schema, node, number_of(given.second)?),
        "put" => {
            counted.put_child(row, schema, node, node_of(made, given.second)?);
            Some(())
        }
        "remove" => {
            counted.remove(node);
            Some(())
        }
        _ => None,
    }
}

// What stands at a place is moved or taken out.
fn changes(counted: &mut Counted<'_>, made: &[NodeId], word: &str, given: Given<'_>) -> Option<()> {
    let (row, schema) = (given.row, given.schema);
    match word {
        "reserve" => counted.reserve_nodes(number_of(given.first)?).ok(),
        "move" => {
            let to = number_of(given.second)?;
            counted.move_child_at(row, schema, number_of(given.first)?, to);
            Some(())
        }
        "take" => {
            counted.take_child_at(row, schema, number_of(given.first)?);
            Some(())
        }
        "take-last" => {
            counted.take_last_child(row, schema);
            Some(())
        }
        _ => hangs(counted, made, word, given),
    }
}

// Whether that is the node of a word, or none for `-`.
fn is_node(made: &[NodeId], found: Option<NodeId>, word: &str) -> Option<bool> {
    match found {
        Some(node) => Some(word != "-" && node_of(made, word)? == node),
        None => Some(word == "-"),
    }
}

// Whether these stand in a row, in this order, and none behind them.
fn are_children(counted: &mut Counted<'_>, made: &[NodeId], row: Row, words: &str) -> Option<bool> {
    let mut place = 0usize;
    for word in words.split(' ') {
        let found = counted.child(row, place);
        if !is_node(made, found, word)? {
            return Some(false);
        }
        place = place.saturating_add(1);
    }
    Some(counted.child_count(row) == place)
}

// The place of a node among those of its schema node in a row, looked for from where it was put.
fn place_in(counted: &mut Counted<'_>, row: Row, schema: SchemaId, node: NodeId) -> usize {
    let near = counted.place_put(node);
    counted.place_near(row, schema, node, near)
}

// What is told by a number.
fn number_told(
    counted: &mut Counted<'_>,
    made: &[NodeId],
    word: &str,
    given: Given<'_>,
) -> Option<usize> {
    let (row, schema) = (given.row, given.schema);
    match word {
        "nodes" => Some(counted.node_count()),
        "count-of" => Some(counted.count_of(row, schema)),
        "near" => {
            let near = number_of(given.second)?;
            Some(counted.place_near(row, schema, node_of(made, given.first)?, near))
        }
        "placed" => Some(place_in(counted, row, schema, node_of(made, given.first)?)),
        _ => None,
    }
}

// Whether the schema node of a node is that of a number, or none for `-`.
fn is_schema(found: Option<SchemaId>, word: &str) -> Option<bool> {
    match found {
        Some(id) => Some(word != "-" && word.parse::<u32>().ok()? == id.0),
        None => Some(word == "-"),
    }
}

// Whether this is told of a node.
fn is_labelled(
    counted: &mut Counted<'_>,
    made: &[NodeId],
    word: &str,
    node: NodeId,
    told: &str,
) -> Option<bool> {
    match word {
        "schema" => is_schema(counted.schema(node), told),
        "parent" => Some(counted.parent(node)? == row_of(made, told)?),
        "value" => {
            Some(matches!(counted.value(node), Some(Raw::Text(value)) if value.as_str() == told))
        }
        _ => None,
    }
}

// Whether this is told of a row or of a node.
fn is_answered(
    counted: &mut Counted<'_>,
    made: &[NodeId],
    word: &str,
    given: Given<'_>,
    told: &str,
) -> Option<bool> {
    let (row, schema) = (given.row, given.schema);
    match word {
        "row" => are_children(counted, made, row, told),
        "child" => {
            let found = counted.child(row, number_of(given.first)?);
            is_node(made, found, told)
        }
        "child-of" => {
            let found = counted.child_of(row, schema, number_of(given.first)?);
            is_node(made, found, told)
        }
        "schema" | "parent" | "value" => {
            is_labelled(counted, made, word, node_of(made, given.first)?, told)
        }
        _ => Some(number_told(counted, made, word, given)? == number_of(told)?),
    }
}

// `WORD ROW SCHEMA FIRST SECOND`, of a question with ` => ANSWER` behind it.
fn goes(counted: &mut Counted<'_>, made: &mut Vec<NodeId>, line: &str) -> Option<bool> {
    let (word, rest) = line.split_once(' ')?;
    match rest.split_once(" => ") {
        Some((words, told)) => {
            let given = given_of(made, words)?;
            is_answered(counted, made, word, given, told)
        }
        None => {
            let given = given_of(made, rest)?;
            match word {
                "insert" => makes(counted, made, given)?,
                _ => changes(counted, made, word, given)?,
            }
            Some(true)
        }
    }
}

fn goes_on(counted: &mut Counted<'_>, made: &mut Vec<NodeId>, lines: &str) -> Option<bool> {
    for line in lines.lines() {
        if !goes(counted, made, line)? {
            return Some(false);
        }
    }
    Some(true)
}

fn runs_in(counted: &mut Counted<'_>, lines: &str) -> Option<bool> {
    let mut made = Vec::new(counted.alloc());
    goes_on(counted, &mut made, lines)
}

// Whether each line of steps goes as it says, each after the ones before it. Nothing for want of memory.
fn runs(alloc: Global, lines: &str) -> Option<bool> {
    let mut nodes = Nodes::new(alloc);
    let mut counted = nodes.counted();
    runs_in(&mut counted, lines)
}

// A container; below it two leafs of one schema node, and one of a later one, which is hung first. A row is read as it was made,
// also once its nodes moved, came and went.
const ROWS: &str = "reserve top 0 4 -
insert top 1 - -
hang top 1 0 -
insert 0 3 b -
insert 0 2 a -
insert 0 2 - -
hang 0 3 1 -
hang 0 2 2 -
hang 0 2 3 -
nodes top 0 - - => 4
child top 0 0 - => 0
child 0 0 0 - => 2
child 0 0 2 - => 1
child 0 0 3 - => -
child-of 0 2 1 - => 3
child-of 0 2 2 - => -
count-of 0 2 - - => 2
near 0 2 3 0 => 1
near 0 2 1 1 => 2
near 0 3 1 7 => 0
schema top 0 2 - => 2
parent top 0 2 - => 0
value top 0 2 - => a
move 0 2 0 1
child 0 0 1 - => 2
put 0 2 3 1
child 0 0 0 - => 1
take 0 2 1 -
remove top 0 2 -
count-of 0 2 - - => 1
schema top 0 2 - => -
nodes top 0 - - => 3";

pub(crate) fn rows(alloc: Global) -> Option<bool> {
    runs(alloc, ROWS)
}

// Three nodes of one schema node, and one of a later one, which is hung first. What stands at a place is taken out or moved; where
// none stands there nothing is taken, and the last is moved.
const PLACES: &str = "insert top 3 - -
insert top 2 - -
insert top 2 - -
insert top 2 - -
hang top 3 0 -
hang top 2 1 -
hang top 2 2 -
hang top 2 3 -
take top 2 3 -
take top 1 0 -
move top 1 0 0
row top 0 - - => 1 2 3 0
move top 2 9 0
row top 0 - - => 3 1 2 0
move top 2 0 9
row top 0 - - => 1 2 3 0
take top 2 1 -
row top 0 - - => 1 3 0";

// A node is found where it stands, also once others came, went and moved before it.
const FOUND_PLACES: &str = "insert top 2 - -
insert top 2 - -
insert top 2 - -
insert top 2 - -
hang top 2 0 -
hang top 2 1 -
placed top 2 1 - => 1
hang-at top 2 2 0
hang-at top 2 3 0
placed top 2 0 - => 2
placed top 2 1 - => 3
placed top 2 2 - => 1
move top 2 3 0
placed top 2 1 - => 0
placed top 2 0 - => 3
take top 2 0 -
take top 2 0 -
placed top 2 0 - => 1
placed top 2 2 - => 0
placed top 2 1 - => 2
placed 0 2 1 - => 0";

// One node stands at both ends of a row, and between them three times another. Of a node that stands in a row more than once the
// place is found that is next to another, and of two as near the one before it.
const NEXT_PLACES: &str = "insert top 2 - -
insert top 2 - -
hang top 2 0 -
hang top 2 1 -
hang top 2 1 -
hang top 2 1 -
hang top 2 0 -
near top 2 0 0 => 0
near top 2 0 1 => 0
near top 2 0 2 => 0
near top 2 0 3 => 4
near top 2 0 9 => 4
near top 2 1 0 => 1
near top 2 1 9 => 3
near top 3 1 0 => 0";

// Nodes come and go at both ends of a row and in it, more than once; the shorter side makes way for each.
const WAYS_MADE: &str = "insert top 2 - -
insert top 2 - -
insert top 2 - -
insert top 2 - -
insert top 2 - -
hang top 2 0 -
hang top 2 1 -
hang top 2 2 -
hang top 2 3 -
hang top 2 4 -
take top 2 0 -
take top 2 0 -
row top 0 - - => 2 3 4
hang-at top 2 0 1
row top 0 - - => 2 0 3 4
hang-at top 2 1 0
row top 0 - - => 1 2 0 3 4
take top 2 1 -
move top 2 3 0
row top 0 - - => 4 1 0 3
hang-at top 2 2 9
put top 2 0 0
row top 0 - - => 4 1 0 3 2";

// The last node of a schema node is taken out of a row, and none where there is none; one that comes back stands at its place.
const LAST_CHILDREN: &str = "reserve top 0 3 -
insert top 2 - -
insert top 2 - -
insert top 3 - -
hang top 3 2 -
hang top 2 0 -
hang-at top 2 1 0
row top 0 - - => 1 0 2
take-last top 2 - -
row top 0 - - => 1 2
hang-at top 2 0 7
row top 0 - - => 1 0 2
take-last top 1 - -
take-last top 2 - -
take-last top 2 - -
take-last top 2 - -
row top 0 - - => 2";

fn tell(counted: &mut Counted<'_>) -> Option<NodeId> {
    let node = leaf(counted, FIRST, "a", Row::Top)?;
    hang(counted, Row::Top, FIRST, node)?;
    let mut play = Vec::new(counted.alloc());
    play.push((FaultCode::V3, SECOND)).ok()?;
    counted.set_play(Row::Top, play);
    counted.set_judged(node, Judged::Missing);
    counted.set_same(node, 0, true);
    counted.change_total(Row::Top, 5, 2);
    Some(node)
}

fn is_read(counted: &mut Counted<'_>, node: NodeId) -> bool {
    counted.total(Row::Top) == 3
        && counted.play_len(Row::Top) == 1
        && counted.absence(Row::Top, 0) == Some((FaultCode::V3, SECOND))
        && counted.absence(Row::Top, 1) == None
        && counted.absence(Row::Below(node), 0) == None
}

fn is_label_seen(nodes: &Nodes, node: NodeId) -> bool {
    let view = nodes.view();
    view.node_count() == 1
        && view.child_count(Row::Top) == 1
        && view.child_at(Row::Top, 0) == Some((FIRST, node))
        && view.child_at(Row::Top, 1) == None
        && view.schema(node) == Some(FIRST)
        && view.parent(node) == Some(Row::Top)
        && matches!(view.value(node), Some(Raw::Text(_)))
}

fn is_told_seen(nodes: &Nodes, node: NodeId) -> bool {
    let view = nodes.view();
    matches!(view.judged(node), Some(Judged::Missing))
        && view.same(node) == [true].as_slice()
        && view.play(Row::Top) == [(FaultCode::V3, SECOND)].as_slice()
        && view.total(Row::Top) == 3
}

fn is_seen(alloc: Global, nodes: &Nodes, node: NodeId) -> bool {
    nodes.alloc() == alloc
        && nodes.node_count() == 1
        && is_label_seen(nodes, node)
        && is_told_seen(nodes, node)
}

// What is told is kept at its node, and a view shows it.
pub(crate) fn told(alloc: Global) -> Option<bool> {
    let mut nodes = Nodes::new(alloc);
    let mut counted = nodes.counted();
    let node = tell(&mut counted)?;
    let read = is_read(&mut counted, node);
    Some(read && is_seen(alloc, &nodes, node))
}

fn is_counted(counted: &mut Counted<'_>, key: &Key) -> bool {
    counted.add_instance(key);
    counted.add_instance(key);
    counted.take_instance(key);
    counted.instance_count(key) == 1
}

fn instances_in(counted: &mut Counted<'_>, value: &Val) -> Option<bool> {
    counted.await_instance(instances_of(FIRST, value)?).ok()?;
    let instances = instances_of(FIRST, value)?;
    Some(is_counted(counted, &instances))
}

fn two_holders(counted: &mut Counted<'_>, value: &Val) -> Option<(NodeId, NodeId)> {
    let (node, other) = two(counted)?;
    hold(counted, value, node)?;
    hold(counted, value, other)?;
    Some((node, other))
}

fn are_held(counted: &mut Counted<'_>, key: &Key, other: NodeId) -> bool {
    counted.holder_count(key) == 2 && counted.holder(key, 1) == Some(other)
}

fn is_other_left(counted: &mut Counted<'_>, key: &Key, node: NodeId, other: NodeId) -> bool {
    counted.take_holder(key, node);
    counted.holder_count(key) == 1 && counted.holder(key, 0) == Some(other)
}

fn is_none_left(counted: &mut Counted<'_>, key: &Key, other: NodeId) -> bool {
    counted.take_holder(key, other);
    counted.tidy(key);
    counted.holder(key, 0) == None
}

fn holders_in(counted: &mut Counted<'_>, key: &Key, node: NodeId, other: NodeId) -> bool {
    are_held(counted, key, other)
        && is_other_left(counted, key, node, other)
        && is_none_left(counted, key, other)
}

fn keys_in(counted: &mut Counted<'_>, value: &Val) -> Option<bool> {
    let counts = instances_in(counted, value)?;
    let (node, other) = two_holders(counted, value)?;
    let key = items_of(Row::Top, FIRST, value)?;
    Some(counts && holders_in(counted, &key, node, other))
}

fn laws() {
    kept_loans();
    same_keys();
}

// What holds a key, and how many instances a value has.
pub(crate) fn keys(alloc: Global) -> Option<bool> {
    laws();
    let value = value_of(alloc, "a")?;
    let mut nodes = Nodes::new(alloc);
    let mut counted = nodes.counted();
    keys_in(&mut counted, &value)
}

#[test]
fn steps(rt: HostRuntime) {
    let alloc = rt.alloc();
    assert!(rt; rows(alloc) == Some(true));
    assert!(rt; runs(alloc, PLACES) == Some(true));
    assert!(rt; runs(alloc, FOUND_PLACES) == Some(true));
    assert!(rt; runs(alloc, NEXT_PLACES) == Some(true));
    assert!(rt; runs(alloc, WAYS_MADE) == Some(true));
    assert!(rt; runs(alloc, LAST_CHILDREN) == Some(true));
}

#[test]
fn all_calls(rt: HostRuntime) {
    let alloc = rt.alloc();
    assert!(rt; told(alloc) == Some(true));
    assert!(rt; keys(alloc) == Some(true));
}
