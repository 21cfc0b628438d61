//! How planned nodes are found by their names.

ghost use Rattle.std.specs.Prelude.{◌≡◌, ℕ, IfOk, option_map, find, map};
ghost use Rattle.yspec.specs.linking.SchemaNodes.{number_in};
ghost use Rattle.yschema_plan.specs.PlannedView.{planned_view};
ghost use Rattle.yschema_plan.specs.Finding.{indexed, is_found, list_of, name_of, row_name};
ghost use Rattle.ybase_index.specs.Index.{found, texts_of};

use crate::planned::Planned;
use std::alloc::{AllocError, Global};
use ybase_index::{IndexedNode, NodeIndex};
use ybase_preorder::{Slot, Table};

/// A planned node as it is found.
fn indexed_node(planned: &Planned<'_, '_>, number: u32) -> IndexedNode
    ensures { result ≡ indexed (planned_view number planned.now) }
{
    IndexedNode {
        number,
        parent: planned.parent,
        scope: planned.scope,
        module: planned.owner(),
        is_data: planned.is_data(),
    }
}

/// The names of nodes, in their order.
fn names_of<'t>(alloc: Global, rows: &[Slot<Planned<'_, 't>>]) -> Result<Vec<&'t str>, AllocError>
    ensures { IfOk result (λ names. map (λ t. t.now) names.items ≡ map row_name rows.now) }
{
    let mut names = Vec::with_capacity(alloc, rows.len())?;
    for row in rows {
        names.push(row.label.name())?;
    }
    Ok(names)
}

/// All nodes, by their names.
pub(crate) fn index_of<'t>(
    alloc: Global,
    table: &Table<Planned<'_, 't>>,
) -> Result<NodeIndex<'t>, AllocError>
    ensures texts { IfOk result (λ index. texts_of index ≡ map name_of (list_of table.now)) }
    ensures nodes { IfOk result (λ index. (among : _) → (above : _) → (m : ℕ) → (name : _)
        → found index among above m name ≡ option_map number_in
        (find (is_found among above m name) (list_of table.now))) }
{
    let names = names_of(alloc, table.slots())?;
    let mut index = NodeIndex::of(alloc, names)?;
    for (number, row) in table.slots().iter().enumerate() {
        index.add(indexed_node(&row.label, number as u32))?;
    }
    Ok(index)
}
