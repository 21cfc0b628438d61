//! The schema of a set of modules, and what can be asked of it.

ghost use Rattle.std.specs.Prelude.{◌≡◌, ◌+◌, ◌<◌, ◌^◌, None, length, vec_len, position, string_bytes};
ghost use Rattle.yspec.specs.text.Text.{is_text};
ghost use Rattle.yspec_fit.specs.Fit.{IsFit};
ghost use Rattle.yspec.specs.linking.Planned.{same_number};
ghost use Rattle.yschema_model.specs.Layout.{data_places, laid, forest_of, number_of, schema_view, IsLaidOut};
ghost use Rattle.yschema_model.specs.Lookup.{FindsNamed, FindsWritten};
ghost use Rattle.yschema_model.specs.References.{FindsReferences};

use crate::children::{Child, Children, Slot};
use crate::configuration::asked_slots;
use crate::index::{Index, id_of, index_of, parent_number};
use crate::node::{SchemaId, SchemaNode};
use crate::references::References;
use crate::written::{first_written, module_named, other_name, written_name};
use std::alloc::{AllocError, Global};
use ybase_index::Names;

/// What an `augment` adds: the node below which it stands, and the nodes right below that one (RFC 7950, 7.17).
#[derive(Debug, Drop)]
pub struct Augment {
    pub target: SchemaId,
    pub nodes: Vec<SchemaId>,
}

/// A module of a schema, with its augments in order of its text.
#[derive(Debug, Drop)]
pub struct SchemaModule {
    pub name: String,
    pub prefix: String,
    pub augments: Vec<Augment>,
}

/// The schema tree of a set of modules (RFC 7950, 4.2.2).
#[derive(Drop)]
pub struct Schema {
    modules: Vec<SchemaModule>,
    slots: Vec<Slot>,
    index: Index,
    references: References,
    ghost numbered: { vec_len slots < 2 ^ 32 },
    ghost laid_out: { IsLaidOut slots.items },
    ghost named: { FindsNamed index slots.items },
    ghost written: { FindsWritten index slots.items (data_places None (forest_of 0 slots.items)) },
    ghost referred: { FindsReferences references (laid 0 slots.items) },
    ghost fit: { ∥ IsFit (schema_view modules.items slots.items) ∥₁ },
}

impl Schema {
    ghost use Rattle.std.specs.Prelude.{◌≡◌, ◌<◌, ◌++◌, map, option_map, slice_get, IfOk, IfSome, None};
    ghost use Rattle.yspec.specs.Forest.{size};
    ghost use Rattle.yspec.specs.schema.Schema as spec;
    ghost use Rattle.yspec.specs.schema.Schema.{node_at, children_of, row_at, child_in, child_named, child_written, way_to};
    ghost use Rattle.yspec.specs.schema.Configuration.{configuration_schema};
    ghost use Rattle.yspec.specs.schema.References.{references_to};
    ghost use Rattle.yschema_model.specs.Layout.{augment_view, node_view, number_of, numbers_of};
    ghost use Rattle.yschema_model.specs.Lookup.{alone, module_passed, names_in, way_above};
    ghost use Rattle.ybase_index.specs.Names.{AreNamesOf};
    ghost use Rattle.yschema_model.specs.View.{view, child_view, row_view, forest_of};

    /// The schema of some modules whose nodes lie in slots, each before those below it, where documents can rest on it, and the
    /// names of these nodes.
    pub fn of(
        alloc: Global,
        modules: Vec<SchemaModule>,
        slots: Vec<Slot>,
        names: Names,
    ) -> Result<Schema, AllocError>
        requires laid_out { IsLaidOut slots.items }
        requires named { AreNamesOf names (names_in slots.items) }
        requires fit { IsFit (schema_view modules.items slots.items) }
        ensures { IfOk result (λ schema. view schema ≡ schema_view modules.items slots.items) }
    {
        let index = index_of(alloc, &slots, names)?;
        let references = References::of(alloc, &slots)?;
        Ok(Schema {
            modules,
            slots,
            index,
            references,
        })
    }

    /// What it asks of configuration alone: of nodes of state nothing is wanted, and none of their defaults is in use
    /// (RFC 7950, 7.21.1).
    pub fn configuration(self, alloc: Global) -> Result<Schema, AllocError>
        ensures { IfOk result (λ schema. view schema ≡ configuration_schema (view self)) }
    {
        let Schema {
            modules,
            slots,
            index,
            references,
        } = self;
        let slots = asked_slots(alloc, slots)?;
        Ok(Schema {
            modules,
            slots,
            index,
            references,
        })
    }

    /// How many nodes it has.
    pub fn nodes(&self) -> usize
        ensures { result ≡ size (view self.now).nodes }
    {
        self.slots.len()
    }

    /// All that it holds of a node; nothing of a number that no node has.
    pub fn kind(&self, id: SchemaId) -> Option<&SchemaNode>
        ensures { option_map (λ n. node_view id.0 n.now) result ≡ node_at (view self.now) id.0 }
    {
        match self.slots.get(id.number()) {
            Some(row) => Some(&row.node),
            None => None,
        }
    }

    /// The node above a node; none above a top node, nor of a number that no node has.
    pub fn parent(&self, id: SchemaId) -> Option<SchemaId>
        ensures way { way_to (view self.now) id.0 ≡ way_above (view self.now) (number_of result)
            ++ alone (node_at (view self.now) id.0) }
        ensures above { IfSome result (λ p. p.0 < id.0) }
        ensures none { node_at (view self.now) id.0 ≡ None → result ≡ None }
    {
        match self.slots.get(id.number()) {
            Some(row) => row.parent,
            None => None,
        }
    }

    /// The top nodes, in order of definition.
    pub fn roots(&self) -> Children<'_>
        ensures { row_view result ≡ (view self.now).nodes }
    {
        Children::new(self.slots.as_slice(), 0)
    }

    /// The children of a node, in order of definition; none of a number that no node has.
    pub fn children(&self, id: SchemaId) -> Children<'_>
        ensures { row_view result ≡ children_of (view self.now) id.0 }
    {
        let slots = self.slots.as_slice();
        let (_, from) = slots.split_at(id.number().min(slots.len()));
        match from.split_first() {
            Some((first, rest)) => {
                let (below, _) = rest.split_at(first.below.min(rest.len()));
                Children::new(below, id.0 + 1)
            }
            None => Children::new(&[], 0),
        }
    }

    /// The child of a node, or the top node, of that number, in its row; nothing where there is none.
    pub fn child_at(&self, parent: Option<SchemaId>, id: SchemaId) -> Option<Child<'_>>
        ensures { option_map child_view result
            ≡ child_in (row_at (view self.now) (number_of parent)) id.0 }
    {
        let slot = self.slots.get(id.number())?;
        if !is_same(parent, slot.parent) {
            return None;
        }
        Some(Child::new(id, &slot.node, self.children(id)))
    }

    /// The child of a node, or the top node, of a module and a name.
    pub fn child(&self, parent: Option<SchemaId>, module: usize, name: &str) -> Option<SchemaId>
        ensures { number_of result
            ≡ child_named (view self.now) (number_of parent) «module» name.now }
    {
        id_of(
            self.index
                .named(&self.slots, parent_number(parent), module, name),
        )
    }

    /// The child of a node, or the top node, whose name a document writes so; choices and cases are passed through.
    pub fn child_written(&self, parent: Option<SchemaId>, name: &str) -> Option<SchemaId>
        ensures { number_of result ≡ child_written (view self.now) (number_of parent) name.now }
    {
        match self.module_passed(parent) {
            Some(module) => first_written(&self.modules, module, self.children(parent?), name),
            None => id_of(
                self.index
                    .written(&self.modules, &self.slots, parent_number(parent), name),
            ),
        }
    }

    /// The module of a choice or a case; none of other nodes.
    fn module_passed(&self, id: Option<SchemaId>) -> Option<usize>
        ensures { result ≡ module_passed (view self.now) (number_of id) }
    {
        let node = self.kind(id?)?;
        if node.kind.is_data() {
            None
        } else {
            Some(node.module)
        }
    }

    /// The leafs and leaf-lists that refer to a node by a leafref, in order (RFC 7950, 9.9).
    pub fn targets(&self, id: SchemaId) -> &[SchemaId]
        ensures { numbers_of result.now ≡ references_to (view self.now) id.0 }
    {
        self.references.get(id)
    }

    /// The name that a document writes for a node whose parent is of a module, or that stands at the top.
    pub fn written_name(
        &self,
        alloc: Global,
        parent_module: Option<usize>,
        node: &SchemaNode,
    ) -> Result<String, AllocError>
        ensures { IfOk result (λ s. string_bytes s
            ≡ spec.written_name (view self.now) parent_module (node_view 0 node.now)) }
    {
        written_name(alloc, &self.modules, parent_module, node)
    }

    /// The form of its name that isn't due there.
    pub fn other_name(
        &self,
        alloc: Global,
        parent_module: Option<usize>,
        node: &SchemaNode,
    ) -> Result<String, AllocError>
        ensures { IfOk result (λ s. string_bytes s
            ≡ spec.other_name (view self.now) parent_module (node_view 0 node.now)) }
    {
        other_name(alloc, &self.modules, parent_module, node)
    }

    /// How many modules the set has.
    pub fn modules(&self) -> usize
        ensures { result ≡ length (view self.now).modules }
    {
        self.modules.len()
    }

    /// The number of the module of a name.
    pub fn module(&self, name: &str) -> Option<usize>
        ensures { result ≡ position (λ m. is_text m.name name.now) (view self.now).modules }
    {
        module_named(&self.modules, name)
    }

    /// The name of the module of a number; nothing where the set has fewer.
    pub fn module_name(&self, module: usize) -> Option<&str>
        ensures { option_map (λ t. t.now) result
            ≡ option_map (λ m. m.name) (slice_get (view self.now).modules «module») }
    {
        Some(self.modules.get(module)?.name.as_str())
    }

    /// The prefix of the module of a number, by its own `prefix` statement; nothing where the set has fewer.
    pub fn module_prefix(&self, module: usize) -> Option<&str>
        ensures { option_map (λ t. t.now) result
            ≡ option_map (λ m. m.prefix) (slice_get (view self.now).modules «module») }
    {
        Some(self.modules.get(module)?.prefix.as_str())
    }

    /// What the module of a number augments, in order of its text (RFC 7950, 7.17); nothing where the set has fewer.
    pub fn augments(&self, module: usize) -> &[Augment]
        ensures { map augment_view result.now ≡ spec.augments_in (view self.now) «module» }
    {
        match self.modules.get(module) {
            Some(found) => found.augments.as_slice(),
            None => &[],
        }
    }
}

/// Whether two nodes, each of which may be none, are the same or both none.
fn is_same(one: Option<SchemaId>, other: Option<SchemaId>) -> bool
    ensures { result ≡ same_number (number_of one) (number_of other) }
{
    match (one, other) {
        (Some(one), Some(other)) => one.0 == other.0,
        (None, None) => true,
        _ => false,
    }
}
