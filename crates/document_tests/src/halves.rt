//! The halves of an edit apart: what its path means, and what its value denotes.

use crate::building::schema_of;
use crate::rows::all_hold;
use crate::telling::{is_refusal, is_text, number_of};
use std::alloc::{AllocError, Global};
use test_modules::{MODULE, NETWORK};
use yinst::{Bound, Edit, part};
use yschema_model::{Schema, SchemaId};

// The numbers of the schema nodes that a path means, from the top on.
fn numbers_text(alloc: Global, bound: &Bound<'_>) -> Result<String, AllocError> {
    let mut text = String::new(alloc);
    for step in bound.steps.iter() {
        let number = format!(in alloc; "/{}", step.id.0)?;
        text.push_str(number.as_str())?;
    }
    Ok(text)
}

// `line => told`: the numbers of what the line's path means, or the code of its refusal.
fn is_bound(alloc: Global, schema: &Schema, row: &str) -> Option<bool> {
    let (line, told) = row.split_once(" => ")?;
    let edit = Edit::parse(alloc, line).ok()??;
    match edit.bind(alloc, schema) {
        Ok(bound) => is_text(numbers_text(alloc, &bound), told),
        Err(fault) => is_refusal(alloc, fault, told),
    }
}

fn binds(alloc: Global, row: &str) -> Option<bool> {
    let schema = schema_of(alloc, &[MODULE])?;
    is_bound(alloc, &schema, row)
}

fn binds_of_hosts(alloc: Global, row: &str) -> Option<bool> {
    let schema = schema_of(alloc, &[NETWORK])?;
    is_bound(alloc, &schema, row)
}

#[test]
fn meanings_of_paths(rt: HostRuntime) {
    let rows = "create /p:c {} => /0
replace /p:c/id 7 => /0/1
remove /p:c/note => /0/2
remove /p:c/zz => E2
remove /c => E2
remove /p:c/p:id => E2
remove /p:c[1] => E3
create /p:c/id[1] 7 => E3
remove /p:c[id='7']/note => E3
remove /p:c[1]/zz => E2
move /p:c/note 1 => E3
move /p:c 1 => E3
move /p:c[1] 1 => E3
move /p:c[1]/zz 1 => E2";
    all_hold(&rt, rt.alloc(), rows, binds);
}

#[test]
fn meanings_of_moves(rt: HostRuntime) {
    let rows = "move /ex-net:net/host[3] 1 => /0/1
move /ex-net:net/host[name='a'] 9 => /0/1
move /ex-net:net/host 1 => E3
move /ex-net:net/host[addr='a'] 1 => E3
move /ex-net:net/host[9]/name 1 => E3
move /ex-net:net/host/name 1 => E3
move /ex-net:net 1 => E3";
    all_hold(&rt, rt.alloc(), rows, binds_of_hosts);
}

// `node text => told`: how many nodes stand below what the text denotes at a schema node, or the code of its refusal.
fn is_part(alloc: Global, schema: &Schema, row: &str) -> Option<bool> {
    let (given, told) = row.split_once(" => ")?;
    let (node, text) = given.split_once(' ')?;
    let id = SchemaId(number_of(node)?);
    match part(alloc, schema, id, text) {
        Ok(stored) => Some(stored.id() == id && number_of(told)? as usize == stored.below().len()),
        Err(fault) => is_refusal(alloc, fault, told),
    }
}

fn denotes(alloc: Global, row: &str) -> Option<bool> {
    let schema = schema_of(alloc, &[MODULE])?;
    is_part(alloc, &schema, row)
}

#[test]
fn values_of_edits(rt: HostRuntime) {
    let rows = "0 {} => 0
0 {\"id\":7,\"note\":\"x\"} => 2
1 7 => 0
1 x => E9
1 1.5 => E10 J6
1 {} => E10 J5
0 7 => E10 J5
0 {\"zz\":1} => E10 J3
0 {\"p:id\":1} => E10 J4
7 1 => E2";
    all_hold(&rt, rt.alloc(), rows, denotes);
}
