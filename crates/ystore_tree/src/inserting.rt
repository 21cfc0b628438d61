//! Documents put into stores, and parts of them put in and taken out beside the tree.

ghost use Rattle.std.specs.Prelude.{◌≡◌, ◌<◌, ◌^◌, IfOk, OnOk, replicate, false};
ghost use Rattle.yspec.specs.Forest.{end};
ghost use Rattle.yspec.specs.document.Sorting.{IsSorted};
ghost use Rattle.yschema_model.specs.View as schema_view;
ghost use Rattle.yinst_tree.specs.View.{view, tree_view};
ghost use Rattle.ystore.specs.Held.{told_of};
ghost use Rattle.ystore.specs.Views.{store_of, lent};
ghost use Rattle.ystore_tree.specs.Hanging.{Branches, Holds, Keeps};
ghost use Rattle.ystore_tree.specs.Growing.{Gets, Grows, Inserts, Removes, Freshens};
ghost use Rattle.ystore_tree.specs.Growing as growing;
ghost use Rattle.ystore_rows.specs.declared.row.Row.TheVariants.{Top};

use std::alloc::{AllocError, Global};
use yinst_tree::{Stored, Tree};
use yschema_model::{Kind, Schema, SchemaId};
use ystore::{Counted, Judged, Label, NodeId, Nodes, Row, Told};

/// A store that holds a document. Of its faults nothing is told yet.
pub fn store_of_tree(alloc: Global, schema: &Schema, tree: &Tree) -> Result<Nodes, AllocError>
    ensures { IsSorted (tree_view tree.now)
        → IfOk result (λ nodes. Holds nodes (tree_view tree.now)) }
{
    let mut nodes = Nodes::new(alloc);
    let mut counted = nodes.counted();
    insert_tree(&mut counted, schema, tree)?;
    Ok(nodes)
}

/// Puts a document into a store that holds one, each node behind those of its schema node. Where memory runs out the store
/// is to be given up.
#[tactic(auto, using(ystore::proofs::CallerLemmas::room_is_there))]
pub fn insert_tree(
    counted: &mut Counted<'_>,
    schema: &Schema,
    tree: &Tree,
) -> Result<(), AllocError>
    ensures trees { OnOk result ((before : Branches) → Keeps (store_of counted.old) before Top end
        → Gets before (tree_view tree.now) (store_of counted.new)) }
    ensures fresh { Freshens (schema_view.view schema.now) (store_of counted.old) (store_of counted.new) }
    ensures same_reference { lent counted.new ≡ lent counted.old }
{
    let mut numbers = Vec::new(counted.alloc());
    for stored in tree.roots() {
        let part = copy_of(stored)?;
        let id = insert_part(counted, schema, Row::Top, part, &mut numbers)?;
        counted.reserve_child(Row::Top)?;
        counted.add_child(Row::Top, stored.id(), id);
        numbers.clear();
    }
    Ok(())
}

fn copy_of(stored: &Stored) -> Result<Stored, AllocError>
    ensures { IfOk result (λ copy. view copy ≡ view stored.now) }
{
    stored.clone()
}

/// Inserts a stored node with all that stands below it, as one of a row that doesn't list it yet, and lists their numbers,
/// in preorder. Where memory runs out some of them may be in the store, where they hang on nothing.
#[cycle(parts)]
pub fn insert_part(
    counted: &mut Counted<'_>,
    schema: &Schema,
    above: Row,
    stored: Stored,
    numbers: &mut Vec<NodeId>,
) -> Result<NodeId, AllocError>
    ensures ok { IfOk result (λ id. Inserts above id (view stored).0 (view stored).1
        (store_of counted.old) (store_of counted.new) numbers.old.items numbers.new.items) }
    ensures grows { Grows (store_of counted.old) (store_of counted.new) }
    ensures fresh { Freshens (schema_view.view schema.now) (store_of counted.old) (store_of counted.new) }
    ensures same_reference { lent counted.new ≡ lent counted.old }
{
    let (of, value, below) = stored.into_parts();
    let told = nothing_told(counted.alloc(), flag_count(schema, of))?;
    let label = Label {
        schema: of,
        value,
        parent: above,
    };
    let id = counted.insert(label, told, 0, below.len())?;
    numbers.push(id)?;
    for child in below {
        let number = child.id();
        let node = insert_part(counted, schema, Row::Below(id), child, numbers)?;
        counted.add_child(Row::Below(id), number, node);
    }
    Ok(id)
}

/// How many flags a node has: an entry one for its key and one for each `unique`, an item that may stand but once one.
pub fn flag_count(schema: &Schema, id: SchemaId) -> usize
    ensures { result ≡ growing.flag_count (schema_view.view schema.now) id.0 }
{
    match schema.kind(id) {
        Some(node) => kind_flags(&node.kind, node.distinct_items),
        None => 0,
    }
}

fn kind_flags(kind: &Kind, distinct: bool) -> usize
    ensures { result ≡ growing.kind_flags (schema_view.kind_view kind.now) distinct }
{
    match kind {
        Kind::List { tuples, .. } => tuples.uniques.len() + 1,
        Kind::LeafList { .. } if distinct => 1,
        _ => 0,
    }
}

/// Nothing is told of a node that is new, and so many flags say so.
fn nothing_told(alloc: Global, flags: usize) -> Result<Told, AllocError>
    ensures told { IfOk result (λ told. told_of told ≡ growing.nothing_told flags) }
    ensures few { OnOk result (flags < 2 ^ 32) }
{
    if flags > u32::MAX as usize {
        return Err(AllocError);
    }
    Ok(Told {
        judged: Judged::Right,
        same: unset(alloc, flags)?,
        play: Vec::new(alloc),
    })
}

/// So many flags, none of them set.
fn unset(alloc: Global, flags: usize) -> Result<Vec<bool>, AllocError>
    ensures { IfOk result (λ made. made.items ≡ replicate flags false) }
{
    let mut made = Vec::with_capacity(alloc, flags)?;
    for _flag in 0..flags {
        made.push(false)?;
    }
    Ok(made)
}

/// Gives nodes back, one after another.
pub fn remove_nodes(counted: &mut Counted<'_>, numbers: &[NodeId])
    ensures store { Removes numbers.now (store_of counted.old) (store_of counted.new) }
    ensures same_reference { lent counted.new ≡ lent counted.old }
{
    for id in numbers {
        counted.remove(*id);
    }
}
