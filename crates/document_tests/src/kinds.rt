//! What a schema holds of nodes of every kind.

use crate::building::schema_of;
use crate::telling::is_text;
use std::alloc::{AllocError, Global};
use test_modules::{DEFAULT_CASE, ENTRIES, NETWORK, STATE};
use yschema_model::{Absence, Amount, Kind, LeafType, Schema, SchemaId, SchemaNode, Tuples};

// Nodes of state that ask for something, beside a mandatory leaf of configuration.
const ASKING: &str = "module s {
  yang-version 1.1; namespace 'urn:s'; prefix s;
  container c {
    leaf id { type uint8; mandatory true; }
    leaf up { config false; type boolean; mandatory true; }
    leaf load { config false; type uint8; default 7; }
    list log { config false; min-elements 1; max-elements 3; leaf at { type string; } }
    leaf-list tag { config false; type string; min-elements 2; }
    leaf-list mark { config false; type string; default a; default b; }
    choice how { config false; mandatory true; case a { leaf fast { type empty; } } }
  }
}";

fn number_text(alloc: Global, word: &str, id: Option<SchemaId>) -> Result<String, AllocError> {
    match id {
        Some(id) => format!(in alloc; " {word} {}", id.0),
        None => Ok(String::new(alloc)),
    }
}

fn leaf_text(alloc: Global, leaf_type: &LeafType, absence: &Absence) -> Result<String, AllocError> {
    let target = number_text(alloc, "to", leaf_type.target)?;
    match absence {
        Absence::Allowed => format!(in alloc; "leaf{target}"),
        Absence::Mandatory => format!(in alloc; "mandatory leaf{target}"),
        Absence::Key => format!(in alloc; "key{target}"),
        Absence::DefaultUsed(value) => {
            let value = value.canonical(alloc, &leaf_type.value_type)?;
            format!(in alloc; "leaf{target} else {value}")
        }
    }
}

fn amount_text(alloc: Global, amount: &Amount) -> Result<String, AllocError> {
    match amount.max_elements {
        Some(most) => format!(in alloc; " {} to {most}", amount.min_elements),
        None => format!(in alloc; " {} on", amount.min_elements),
    }
}

// The numbers of the nodes on a way, each behind a slash.
fn push_way(alloc: Global, text: &mut String, way: &[SchemaId]) -> Result<(), AllocError> {
    for id in way {
        let step = format!(in alloc; "/{}", id.0)?;
        text.push_str(step.as_str())?;
    }
    Ok(())
}

fn push_unique(alloc: Global, text: &mut String, ways: &[Vec<SchemaId>]) -> Result<(), AllocError> {
    text.push_str(" unique")?;
    for way in ways {
        text.push_str(" ")?;
        push_way(alloc, text, way)?;
    }
    Ok(())
}

fn list_text(alloc: Global, tuples: &Tuples, amount: &Amount) -> Result<String, AllocError> {
    let mut text = String::from_str(alloc, "list ")?;
    push_way(alloc, &mut text, &tuples.keys)?;
    for unique in &tuples.uniques {
        push_unique(alloc, &mut text, unique)?;
    }
    text.push_str(amount_text(alloc, amount)?.as_str())?;
    Ok(text)
}

fn kind_text(alloc: Global, kind: &Kind) -> Result<String, AllocError> {
    match kind {
        Kind::Container { presence: false } => String::from_str(alloc, "container"),
        Kind::Container { presence: true } => String::from_str(alloc, "presence"),
        Kind::Leaf { leaf_type, absence } => leaf_text(alloc, leaf_type, absence),
        Kind::LeafList {
            defaults,
            amount,
            ..
        } => {
            let amount = amount_text(alloc, amount)?;
            format!(in alloc; "items {}{amount}", defaults.len())
        }
        Kind::List { tuples, amount } => list_text(alloc, tuples, amount),
        Kind::Choice {
            default_case,
            mandatory,
        } => {
            let case = number_text(alloc, "else", *default_case)?;
            let word = if *mandatory { "mandatory " } else { "" };
            format!(in alloc; "{word}choice{case}")
        }
        Kind::Case => String::from_str(alloc, "case"),
    }
}

fn node_text(alloc: Global, node: &SchemaNode) -> Result<String, AllocError> {
    let kind = kind_text(alloc, &node.kind)?;
    let config = if node.config { "" } else { "state " };
    format!(in alloc; "{config}{kind} {}", node.name.as_str())
}

/// Whether the nodes of a schema are these, a line each.
pub(crate) fn are_nodes(alloc: Global, schema: &Schema, lines: &str) -> Option<bool> {
    let mut number = 0;
    for line in lines.lines() {
        let node = schema.kind(SchemaId(number))?;
        if !is_text(node_text(alloc, node), line)? {
            return Some(false);
        }
        number = number.saturating_add(1);
    }
    Some(number as usize == schema.nodes())
}

/// Whether a module has these nodes.
pub(crate) fn has_nodes(alloc: Global, module: &str, lines: &str) -> Option<bool> {
    let schema = schema_of(alloc, &[module])?;
    are_nodes(alloc, &schema, lines)
}

/// Whether a module has these nodes, as far as configuration alone is asked for.
fn has_asked(alloc: Global, module: &str, lines: &str) -> Option<bool> {
    let schema = schema_of(alloc, &[module])?.configuration(alloc).ok()?;
    are_nodes(alloc, &schema, lines)
}

/// Whether nothing is asked of state, and of configuration what its statements say.
pub(crate) fn are_asked(alloc: Global) -> Option<bool> {
    let whole = "container c
mandatory leaf id
state mandatory leaf up
state leaf else 7 load
state list  1 to 3 log
state leaf at
state items 0 2 on tag
state items 2 0 on mark
state mandatory choice how
state case a
state leaf fast";
    let configuration = "container c
mandatory leaf id
state leaf up
state leaf load
state list  0 on log
state leaf at
state items 0 0 on tag
state items 0 0 on mark
state choice how
state case a
state leaf fast";
    Some(has_nodes(alloc, ASKING, whole)? && has_asked(alloc, ASKING, configuration)?)
}

/// Whether each kind of node is made as its statements say.
pub(crate) fn are_made(alloc: Global) -> Option<bool> {
    let network = "container net
list /2 unique /3 /4 1 to 3 host
key name
leaf addr
leaf else 80 port
leaf to 2 uplink
leaf to 4 use-port
mandatory choice mode
case auto
leaf auto
case fixed
leaf speed";
    let default_case = "choice else 1 how
case slow
leaf else 3 rate
case fast
leaf boost
leaf to 2 want";
    let are_first = has_nodes(alloc, NETWORK, network)?
        && has_nodes(alloc, DEFAULT_CASE, default_case)?;
    let entries = "list /1 unique /2/3 0 on e
key id
container in
leaf x
items 0 0 on m";
    let state = "presence c
items 0 0 on tag
state leaf up
state list  0 on log
state mandatory leaf at";
    Some(are_first && has_nodes(alloc, ENTRIES, entries)? && has_nodes(alloc, STATE, state)?)
}

#[test]
fn nodes(rt: HostRuntime) {
    assert!(rt; are_made(rt.alloc()) == Some(true));
}

#[test]
fn configuration(rt: HostRuntime) {
    assert!(rt; are_asked(rt.alloc()) == Some(true));
}
