//! The index by which a child is found.

ghost use Rattle.std.specs.Prelude.{◌≡◌, ◌<◌, ◌^◌, [], IfOk, length, None};
ghost use Rattle.yspec.specs.schema.Schema.{is_called, module_at};
ghost use Rattle.yspec.specs.document.Writing.{ModulesDiffer, NodesAreNamed};
ghost use Rattle.ybase_index.specs.Names.{found_by, AreNamesOf};
ghost use Rattle.yschema_model.specs.Layout.{number_of, node_view, data_at, data_above, data_places, laid, forest_of, schema_view, IsLaidOut};
ghost use Rattle.yschema_model.specs.Lookup.{indexed, names_in, FindsNamed, FindsWritten};

use crate::children::Slot;
use crate::node::SchemaId;
use crate::schema::SchemaModule;
use crate::written::meant_name;
use std::alloc::{AllocError, Global};
use ybase_index::{Among, FirstNodes, IndexedNode, Key, Named, Names, number_named};

/// How the nodes that lie in slots are found below a node, or at the top.
#[derive(Drop)]
pub(crate) struct Index {
    /// The first node of each name, in the order of the names.
    names: Vec<u32>,
    /// By these, by their modules and by what stands above them.
    nodes: FirstNodes,
}

impl Named for Slot {
    ghost use Rattle.std.specs.Prelude.{string_bytes};

    ghost text = { λ r. string_bytes r.node.name };

    fn name(&self) -> &str {
        self.node.name.as_str()
    }
}

/// The index of the nodes that lie in slots, given their names.
pub(crate) fn index_of(alloc: Global, slots: &[Slot], names: Names) -> Result<Index, AllocError>
    requires numbered { length slots.now < 2 ^ 32 }
    requires laid_out { IsLaidOut slots.now }
    requires names { AreNamesOf names (names_in slots.now) }
    ensures named { IfOk result (λ index. FindsNamed index slots.now) }
    ensures written { IfOk result (λ index. FindsWritten index slots.now
        (data_places None (forest_of 0 slots.now))) }
{
    let Names { ordered, of_nodes } = names;
    let mut nodes = FirstNodes::with_capacity(alloc, slots.len())?;
    let mut nearest = Vec::with_capacity(alloc, slots.len())?;
    for (number, slot) in slots.iter().enumerate() {
        let above = data_parent(&nearest, slot.parent);
        let node = indexed_node(slot, number as u32, above);
        nodes.add(node, of_nodes[number])?;
        nearest.push(nearest_to(slot, above, number as u32))?;
    }
    Ok(Index {
        names: ordered,
        nodes,
    })
}

/// A node with the node above it and the data node above it.
fn indexed_node(slot: &Slot, number: u32, above: Option<u32>) -> IndexedNode
    ensures { result ≡ indexed number slot.now above }
{
    IndexedNode {
        number,
        parent: parent_number(slot.parent),
        scope: above,
        module: slot.node.module,
        is_data: slot.node.kind.is_data(),
    }
}

/// The data node above a node of a parent, given the nearest of each node before it: itself, or the one above it.
fn data_parent(nearest: &[Option<u32>], parent: Option<SchemaId>) -> Option<u32>
    ensures { result ≡ data_above nearest.now (number_of parent) }
{
    *nearest.get(parent?.number())?
}

/// The data node that a node is, or the one above it.
fn nearest_to(slot: &Slot, above: Option<u32>, number: u32) -> Option<u32>
    ensures { result ≡ data_at above (node_view number slot.now.node) }
{
    if slot.node.kind.is_data() {
        Some(number)
    } else {
        above
    }
}

/// The number of a node, where there is one.
pub(crate) fn parent_number(parent: Option<SchemaId>) -> Option<u32>
    ensures { result ≡ number_of parent }
{
    match parent {
        Some(id) => Some(id.0),
        None => None,
    }
}

/// The node of a number, where there is one.
pub fn id_of(number: Option<u32>) -> Option<SchemaId>
    ensures { number_of result ≡ number }
{
    match number {
        Some(number) => Some(SchemaId::new(number)),
        None => None,
    }
}

/// The module of the node above; none at the top.
fn module_above(slots: &[Slot], above: Option<u32>) -> Option<usize>
    requires { IsLaidOut slots.now }
    ensures { result ≡ module_at (schema_view [] slots.now) above }
{
    match slots.get(above? as usize) {
        Some(slot) => Some(slot.node.module),
        None => None,
    }
}

impl Index {
    ghost use Rattle.std.specs.Prelude.{◌≡◌, true, None};
    ghost use Rattle.yspec.specs.schema.Schema.{is_called};
    ghost use Rattle.yspec.specs.document.Writing.{ModulesDiffer, NodesAreNamed};
    ghost use Rattle.ybase_index.specs.Names.{found_by};
    ghost use Rattle.yschema_model.specs.Layout.{data_places, laid, forest_of, schema_view, IsLaidOut};
    ghost use Rattle.yschema_model.specs.Lookup.{number_among_names, names_ascend, FindsNamed, FindsWritten, first_below, is_stored_as};

    /// The first node of a module and a name among some.
    fn first(
        &self,
        slots: &[Slot],
        among: Among,
        above: Option<u32>,
        module: usize,
        name: &str,
    ) -> Option<u32>
        requires { names_ascend self.now slots.now ≡ true }
        ensures { result ≡ found_by (number_among_names self.now slots.now) self.now.nodes
            among above «module» name.now }
    {
        let name = number_named(slots, &self.names, name)?;
        let key = Key {
            above,
            module,
            name,
        };
        self.nodes.first(among, key)
    }

    /// The first node below another, or at the top, of a module and a name.
    pub(crate) fn named(
        &self,
        slots: &[Slot],
        parent: Option<u32>,
        module: usize,
        name: &str,
    ) -> Option<u32>
        requires { FindsNamed self.now slots.now }
        ensures { result ≡ first_below parent (is_called «module» name.now) (laid 0 slots.now) }
    {
        self.first(slots, Among::Children, parent, module, name)
    }

    /// The first data node below another, or at the top, whose name a document writes so.
    pub(crate) fn written(
        &self,
        modules: &[SchemaModule],
        slots: &[Slot],
        above: Option<u32>,
        name: &str,
    ) -> Option<u32>
        requires laid_out { IsLaidOut slots.now }
        requires named { FindsNamed self.now slots.now }
        requires written { FindsWritten self.now slots.now
            (data_places None (forest_of 0 slots.now)) }
        requires modules_differ { ModulesDiffer (schema_view modules.now slots.now) }
        requires nodes_named { NodesAreNamed (schema_view modules.now slots.now)
            (forest_of 0 slots.now) }
        ensures { result ≡ first_below above (is_stored_as
            (schema_view modules.now slots.now) above name.now)
            (data_places None (forest_of 0 slots.now)) }
    {
        let meant = meant_name(modules, module_above(slots, above), name)?;
        self.first(slots, Among::DataNodes, above, meant.module, meant.name)
    }
}
