//! One request for memory, whichever, may be refused: a growth says so, and all that was stored is as it was.
//! `tools/refuse-memory` refuses each request in turn.

use crate::stores::{
    FIRST, SECOND, container, hang, hold, insert, instances_of, items_of, keys, leaf, rows, told,
    value_of,
};
use std::alloc::{AllocError, Global};
use ycheck::FaultCode;
use ystore::{Counted, Judged, Key, NodeId, Nodes, Row};
use ytype::Val;

// What a store is asked for: a container with two leafs, and what is held at two keys and at one that isn't there.
#[derive(Drop)]
struct Stored {
    container: NodeId,
    first: NodeId,
    second: NodeId,
    value: Val,
    instances: Key,
    holders: Key,
    absent: Key,
}

// Tells of the leafs and the rows.
fn tell(counted: &mut Counted<'_>, stored: &Stored) -> Option<()> {
    let mut play = Vec::new(counted.alloc());
    play.push((FaultCode::V3, SECOND)).ok()?;
    counted.set_play(Row::Below(stored.container), play);
    counted.set_judged(stored.first, Judged::Missing);
    counted.set_same(stored.second, 0, true);
    counted.change_total(Row::Top, 3, 0);
    counted
        .await_instance(Key::Value(FIRST, stored.value.clone().ok()?))
        .ok()?;
    counted.add_instance(&stored.instances);
    hold(counted, &stored.value, stored.first)?;
    hold(counted, &stored.value, stored.second)
}

// A container with two leafs.
fn store_nodes(counted: &mut Counted<'_>) -> Option<(NodeId, NodeId, NodeId)> {
    let container = container(counted)?;
    let row = Row::Below(container);
    let first = leaf(counted, FIRST, "a", row)?;
    hang(counted, row, FIRST, first)?;
    let second = leaf(counted, SECOND, "b", row)?;
    hang(counted, row, SECOND, second)?;
    Some((container, first, second))
}

fn store(alloc: Global, counted: &mut Counted<'_>) -> Option<Stored> {
    let (container, first, second) = store_nodes(counted)?;
    let value = value_of(alloc, "a")?;
    let stored = Stored {
        container,
        first,
        second,
        instances: instances_of(FIRST, &value)?,
        holders: items_of(Row::Top, FIRST, &value)?,
        absent: items_of(Row::Below(container), SECOND, &value)?,
        value,
    };
    tell(counted, &stored)?;
    Some(stored)
}

fn grow_rows(counted: &mut Counted<'_>, row: Row) -> Result<(), AllocError> {
    counted.reserve_nodes(64)?;
    counted.reserve_child(Row::Top)?;
    counted.reserve_child(row)
}

fn grow_instances(counted: &mut Counted<'_>, known: Key, new: Key) -> Result<(), AllocError> {
    counted.await_instance(known)?;
    counted.await_instance(new)
}

fn grow_holders(counted: &mut Counted<'_>, known: Key, new: Key) -> Result<(), AllocError> {
    counted.await_holder(known)?;
    counted.await_holder(new)
}

// Each growth, by keys that are made before.
fn grow(
    counted: &mut Counted<'_>,
    row: Row,
    known: Key,
    new: Key,
    held: Key,
    instance: Key,
) -> Result<(), AllocError> {
    grow_rows(counted, row)?;
    grow_instances(counted, known, instance)?;
    grow_holders(counted, held, new)
}

// Whether each growth was done.
fn is_grown(counted: &mut Counted<'_>, row: Row, value: &Val) -> Option<bool> {
    let known = instances_of(FIRST, value)?;
    let new = items_of(row, SECOND, value)?;
    let held = items_of(Row::Top, FIRST, value)?;
    let instance = instances_of(SECOND, value)?;
    Some(grow(counted, row, known, new, held, instance).is_ok())
}

// Whether the rows are read as they were made.
fn are_rows_kept(counted: &mut Counted<'_>, stored: &Stored) -> bool {
    let row = Row::Below(stored.container);
    counted.child(Row::Top, 0) == Some(stored.container)
        && counted.child(Row::Top, 1) == None
        && counted.child(row, 0) == Some(stored.first)
        && counted.child_of(row, SECOND, 0) == Some(stored.second)
        && counted.child(row, 2) == None
        && counted.schema(stored.second) == Some(SECOND)
        && counted.parent(stored.first) == Some(row)
        && counted.total(Row::Top) == 3
        && counted.play_len(row) == 1
}

// Whether the keys hold what they held.
fn are_keys_kept(counted: &mut Counted<'_>, stored: &Stored) -> bool {
    counted.instance_count(&stored.instances) == 1
        && counted.holder_count(&stored.holders) == 2
        && counted.holder(&stored.holders, 0) == Some(stored.first)
        && counted.holder(&stored.holders, 1) == Some(stored.second)
        && counted.holder_count(&stored.absent) == 0
        && counted.instance_count(&stored.absent) == 0
}

// Whether what is told of the nodes is told still.
fn is_told_kept(nodes: &Nodes, stored: &Stored) -> bool {
    let view = nodes.view();
    matches!(view.judged(stored.first), Some(Judged::Missing))
        && matches!(view.judged(stored.second), Some(Judged::Right))
        && view.same(stored.second) == [true].as_slice()
        && view.play(Row::Below(stored.container)) == [(FaultCode::V3, SECOND)].as_slice()
}

// Whether all is read as it was once another node is inserted, where there is memory for it.
fn is_read(counted: &mut Counted<'_>, stored: &Stored, is_grown: bool) -> bool {
    let row = Row::Below(stored.container);
    let is_inserted = insert(counted, SECOND, None, row, 4).is_some();
    counted.node_count() == 3 + usize::from(is_inserted)
        && are_rows_kept(counted, stored)
        && are_keys_kept(counted, stored)
        && (is_grown || is_inserted)
}

fn is_kept(alloc: Global) -> Option<bool> {
    let mut nodes = Nodes::new(alloc);
    let mut counted = nodes.counted();
    let stored = store(alloc, &mut counted)?;
    let is_grown = is_grown(&mut counted, Row::Below(stored.container), &stored.value)?;
    let is_read = is_read(&mut counted, &stored, is_grown);
    Some(is_read && is_told_kept(&nodes, &stored))
}

#[test]
fn growths_or_memory(rt: HostRuntime) {
    assert!(rt; is_kept(rt.alloc()) != Some(false));
}

#[test]
fn answer_or_memory(rt: HostRuntime) {
    assert!(rt; rows(rt.alloc()) != Some(false));
    assert!(rt; told(rt.alloc()) != Some(false));
    assert!(rt; keys(rt.alloc()) != Some(false));
}

#[test]
fn growths(rt: HostRuntime) {
    assert!(rt; is_kept(rt.alloc()) == Some(true));
}
