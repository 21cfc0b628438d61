//! Where the search for the targets of augments starts: the nodes of modules, before any augment is applied (RFC 7950, 7.17).

ghost use Rattle.std.specs.Prelude.{◌≡◌, ◌<◌, ◌^◌, ◌||◌, ◌&&◌, ℕ, Option, Some, None, IfOk, OnOk, is_some, length, nat_lt, if◌then◌else◌};
ghost use Rattle.yspec.specs.Forest.{first_of};
ghost use Rattle.yspec.specs.linking.Expansion.{is_step};
ghost use Rattle.yspec.specs.linking.Source.{argument_in};
ghost use Rattle.ybase_index.specs.Names.{text_in};
ghost use Rattle.yschema_expand.specs.NodeView.{part_view};
ghost use Rattle.yspec.specs.linking.Prefixes.{NodeName};
ghost use Rattle.ybase_index.specs.Index.{texts_of};
ghost use Rattle.yschema_augment.specs.Asking.{AreNames, texts_seen};
ghost use Rattle.yschema_augment.specs.SearchView.{look_by};
ghost use Rattle.yschema_augment.specs.Starting.{first_child, is_child};
ghost use Rattle.yschema_expand.specs.TableView.{parts_in, slots_of};

use std::alloc::{AllocError, Global};
use ybase_index::{IndexedNode, NodeIndex};
use ybase_preorder::Slot;
use yschema_expand::{ExpandedNode, NodeTable};

/// Whether a node stands where it is found: below another one, or at the top before a number.
fn is_placed(number: u32, parent: Option<u32>, first: u32) -> bool
    ensures { result ≡ (nat_lt number first || is_some parent) }
{
    number < first || parent.is_some()
}

/// Adds the node of a number behind those so far, where it stands in its place.
fn add_placed<'t>(
    index: &mut NodeIndex<'t>,
    number: u32,
    slot: &Slot<ExpandedNode<'_, 't>>,
    first: u32,
) -> Result<(), AllocError>
    requires within { number < length (texts_of index.old) }
    requires name { text_in (texts_of index.old) number ≡ argument_in (part_view slot.now.label).source }
    ensures texts { texts_of index.new ≡ texts_of index.old }
    ensures look { OnOk result ((above : Option ℕ) (name : NodeName) → look_by index.new above name
        ≡ first_of (look_by index.old above name) (if is_child first above number slot.now.parent
        && is_step name (part_view slot.now.label) then Some number else None)) }
{
    if !is_placed(number, slot.parent, first) {
        return Ok(());
    }
    index.add(IndexedNode {
        number,
        parent: slot.parent,
        scope: None,
        module: slot.label.owner(),
        is_data: false,
    })
}

/// The nodes below their parents by the names that are asked for, and at the top those before a number.
pub(crate) fn index_of<'t>(
    alloc: Global,
    texts: Vec<&'t str>,
    nodes: &NodeTable<'_, 't>,
    first: u32,
) -> Result<NodeIndex<'t>, AllocError>
    requires few { length texts.items < 2 ^ 32 }
    requires names { AreNames (texts_seen texts.items) (slots_of nodes.now) }
    ensures texts { IfOk result (λ index. texts_of index ≡ texts_seen texts.entry.items) }
    ensures look { IfOk result (λ index. (above : Option ℕ) (name : NodeName)
        → look_by index above name ≡ first_child first above name 0 (parts_in nodes.now)) }
{
    let mut index = NodeIndex::of(alloc, texts)?;
    for (number, slot) in nodes.slots().iter().enumerate() {
        add_placed(&mut index, number as u32, slot, first)?;
    }
    Ok(index)
}
