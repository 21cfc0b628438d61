//! Nodes found by an index, where many refines look for their targets among them.

ghost use Rattle.std.specs.Prelude.{◌≡◌, ◌<◌, ◌^◌, ◌&&◌, ℕ, Option, Some, None, IfOk, OnOk, length, map, if◌then◌else◌};
ghost use Rattle.yspec.specs.Forest.{first_of};
ghost use Rattle.yspec.specs.linking.Expansion.{is_step};
ghost use Rattle.yspec.specs.linking.Planned.{same_number};
ghost use Rattle.yspec.specs.linking.Prefixes as spec;
ghost use Rattle.ybase_index.specs.Index.{texts_of};
ghost use Rattle.ybase_index.specs.Names.{text_in};
ghost use Rattle.ybase_preorder.specs.Layout.{laid, seen};
ghost use Rattle.yschema_expand.specs.Indexing.{first_child, is_before, look_by, parent_of, row_name};
ghost use Rattle.yschema_expand.specs.NodeView.{numbered_part, part_view};

use crate::nodes::ExpandedNode;
use crate::table::NodeTable;
use std::alloc::{AllocError, Global};
use ybase_index::{Among, IndexedNode, NodeIndex};
use ybase_preorder::Slot;
use ylink_arguments::Name;
use ylink_names::{NodeName, Prefixes};

/// The nodes of a table from that of a number on, by their names.
#[derive(Drop)]
pub(crate) struct TargetIndex<'t> {
    // The number of the first of them.
    first: u32,
    // The number of the node below which that stands.
    parent: Option<u32>,
    // They by their names, the first of them with the number 0.
    nodes: NodeIndex<'t>,
}

/// Whether a node, if there is one, lies before a number.
fn is_before(node: Option<u32>, first: u32) -> bool
    ensures { result ≡ is_before node first }
{
    match node {
        Some(number) => number < first,
        None => true,
    }
}

/// The number of the node below which the first of some nodes stands.
fn parent_of(slots: &[Slot<ExpandedNode<'_, '_>>]) -> Option<u32>
    ensures { result ≡ parent_of (laid slots.now) }
{
    match slots.first() {
        Some(slot) => slot.parent,
        None => None,
    }
}

/// The names of nodes, as they lie.
fn names_of<'t>(
    alloc: Global,
    slots: &[Slot<ExpandedNode<'_, 't>>],
) -> Result<Vec<&'t str>, AllocError>
    ensures { IfOk result (λ names. map (λ t. t.now) names.items ≡ map row_name slots.now) }
{
    let mut names = Vec::with_capacity(alloc, slots.len())?;
    for slot in slots {
        names.push(slot.label.name())?;
    }
    Ok(names)
}

/// Adds a node behind those so far.
fn add<'t>(
    index: &mut NodeIndex<'t>,
    number: u32,
    slot: &Slot<ExpandedNode<'_, 't>>,
) -> Result<(), AllocError>
    requires within { number < length (texts_of index.old) }
    requires name { text_in (texts_of index.old) number ≡ row_name slot.now }
    ensures texts { texts_of index.new ≡ texts_of index.old }
    ensures look { OnOk result ((above : Option ℕ) (name : spec.NodeName) → look_by index.new above name
        ≡ first_of (look_by index.old above name) (if same_number above slot.now.parent
        && is_step name (part_view slot.now.label) then Some number else None)) }
{
    index.add(IndexedNode {
        number,
        parent: slot.parent,
        scope: slot.parent,
        module: slot.label.owner(),
        is_data: false,
    })
}

/// Nodes as they lie, by their names, the first of them with the number 0.
fn index_of<'t>(
    alloc: Global,
    slots: &[Slot<ExpandedNode<'_, 't>>],
) -> Result<NodeIndex<'t>, AllocError>
    requires few { length slots.now < 2 ^ 32 }
    ensures { IfOk result (λ index. (above : Option ℕ) (name : spec.NodeName)
        → look_by index above name ≡ first_child above name 0 (seen numbered_part 0 (laid slots.now))) }
{
    let names = names_of(alloc, slots)?;
    let mut index = NodeIndex::of(alloc, names)?;
    for (number, slot) in slots.iter().enumerate() {
        add(&mut index, number as u32, slot)?;
    }
    Ok(index)
}

impl<'t> TargetIndex<'t> {
    ghost use Rattle.std.specs.Prelude.{◌≡◌, IfOk, IfSome, map};
    ghost use Rattle.yspec.specs.Forest.{Forest};
    ghost use Rattle.yspec.specs.linking.Prefixes as spec;
    ghost use Rattle.yspec.specs.linking.Source as sources;
    ghost use Rattle.ylink_arguments.specs.NameView.{names_view};
    ghost use Rattle.ylink_names.specs.PrefixView.{IsOf, node_name_view};
    ghost use Rattle.yschema_expand.specs.Indexing.{led, look_in, Indexes};
    ghost use Rattle.yschema_expand.specs.TableView.{parts_in};

    /// That of the nodes from that of a number on; none where they stand below a node that isn't before them.
    pub fn of(
        alloc: Global,
        table: &NodeTable<'_, 't>,
        first: u32,
    ) -> Result<Option<TargetIndex<'t>>, AllocError>
        ensures { IfOk result (λ made. IfSome made (λ x. Indexes first x (parts_in table.now))) }
    {
        let slots = table.slots_from(first);
        let parent = parent_of(slots);
        if !is_before(parent, first) {
            return Ok(None);
        }
        let nodes = index_of(alloc, slots)?;
        Ok(Some(TargetIndex {
            first,
            parent,
            nodes,
        }))
    }

    /// The first child of a node that a step names.
    fn child(&self, above: Option<u32>, step: &NodeName<'_>) -> Option<u32>
        ensures { result ≡ look_in self.now above (node_name_view step.now) }
    {
        let place = self
            .nodes
            .first(Among::Children, above, step.module?, step.name)?;
        self.first.checked_add(place)
    }

    /// The number of the node at a path that begins among them, the names of which stand in a module; those without a prefix
    /// are of a module that is given.
    pub fn number_at(
        &self,
        prefixes: &Prefixes<'_>,
        home: usize,
        owner: usize,
        path: &[Name<'_>],
    ) -> Option<u32>
        ensures { (modules : Forest sources.Source) → IsOf prefixes.now modules
            → result ≡ led (look_in self.now) self.now.parent
            (map (spec.node_name modules home owner) (names_view path.now)) }
    {
        let (first, mut left) = path.split_first()?;
        let mut number = self.child(self.parent, &prefixes.node_name(home, owner, *first))?;
        while let Some((name, steps)) = left.split_first() {
            number = self.child(Some(number), &prefixes.node_name(home, owner, *name))?;
            left = steps;
        }
        Some(number)
    }
}
