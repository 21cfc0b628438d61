//! What a schema asks of configuration alone (RFC 7950, 7.21.1).

ghost use Rattle.std.specs.Prelude.{◌≡◌, IfOk};
ghost use Rattle.yspec.specs.schema.Configuration as words;
ghost use Rattle.yschema_model.specs.Layout.{kind_view, node_view, place_of};
ghost use Rattle.yschema_model.specs.Configuration.{asked_place, AreAsked};

use crate::children::Slot;
use crate::node::{Absence, Amount, Kind, SchemaNode};
use std::alloc::{AllocError, Global};

/// Any number of entries or items.
const ANY_AMOUNT: Amount = Amount {
    min_elements: 0,
    max_elements: None,
};

/// The slots of a schema, in which nothing is asked of state.
#[tactic(auto, using(crate::proofs::ConfigurationLemmas::asked_push))]
pub(crate) fn asked_slots(alloc: Global, slots: Vec<Slot>) -> Result<Vec<Slot>, AllocError>
    ensures { IfOk result (λ asked. AreAsked slots.items asked.items) }
{
    let mut asked = Vec::with_capacity(alloc, slots.len())?;
    for slot in slots {
        asked.push(asked_slot(alloc, slot))?;
    }
    Ok(asked)
}

/// A slot, of which nothing is asked where its node is one of state.
fn asked_slot(alloc: Global, slot: Slot) -> Slot
    ensures { place_of 0 result ≡ asked_place (place_of 0 slot) }
{
    Slot {
        parent: slot.parent,
        node: asked_node(alloc, slot.node),
        below: slot.below,
    }
}

/// A node, of which nothing is asked where it is one of state.
fn asked_node(alloc: Global, node: SchemaNode) -> SchemaNode
    ensures { node_view 0 result ≡ words.asked_node (node_view 0 node) }
{
    if node.config {
        return node;
    }
    SchemaNode {
        module: node.module,
        name: node.name,
        config: node.config,
        distinct_items: false,
        status: node.status,
        kind: unasked(alloc, node.kind),
    }
}

/// A kind of node that may be absent, without a default in use.
fn unasked(alloc: Global, kind: Kind) -> Kind
    ensures { kind_view result ≡ words.unasked (kind_view kind) }
{
    match kind {
        Kind::Leaf { leaf_type, .. } => Kind::Leaf {
            leaf_type,
            absence: Absence::Allowed,
        },
        Kind::LeafList { leaf_type, .. } => Kind::LeafList {
            leaf_type,
            defaults: Vec::new(alloc),
            amount: ANY_AMOUNT,
        },
        Kind::List { tuples, .. } => Kind::List {
            tuples,
            amount: ANY_AMOUNT,
        },
        Kind::Choice { default_case, .. } => Kind::Choice {
            default_case,
            mandatory: false,
        },
        other => other,
    }
}
