//! Growths that a plan needs, before anything is changed.

ghost use Rattle.std.specs.Prelude.{◌≡◌, ◌+◌, ◌∷◌, List, true, is_some, option_map, IfOk, OnOk};
ghost use Rattle.yspec.specs.types.Types as types;
ghost use Rattle.yschema_model.specs.declared.node.SchemaId as schema_id;
ghost use Rattle.ystore.specs.Entries.{Entry, with_node};
ghost use Rattle.ystore.specs.Store.{entry_at, has_room, is_awaited};
ghost use Rattle.ystore.specs.Views.{store_of, lent};
ghost use Rattle.ystore_rows.specs.declared.row.NodeId as node_id;
ghost use Rattle.ystore_rows.specs.declared.row.Row.{Row};
ghost use Rattle.ystore.specs.declared.key.Key as rust;
ghost use Rattle.ystore.specs.declared.nodes.Nodes.{Nodes};
ghost use Rattle.ystore_tree.specs.Hanging.{Branches, Keeps};
ghost use Rattle.ylive_marks.specs.Keys.{Agrees, Keys};
ghost use Rattle.ylive_marks.specs.Totals.{IsTree, Totals};
ghost use Rattle.ylive_facts.specs.Keys.{key_view, value_key};
ghost use Rattle.ylive_retell.specs.Growing.{AreAwaited, AreThere, Changes, Grows, awaited_at, times_joined, times_valued};

use crate::planning::Plan;
use std::alloc::AllocError;
use yschema_model::SchemaId;
use ystore::{Counted, Key, NodeId, same_keys};
use ytype::Val;

/// Makes an entry for each value that comes, and room for each node that joins a key. Where memory runs out there may be
/// more room than before.
pub fn grow(counted: &mut Counted<'_>, plan: &Plan) -> Result<(), AllocError>
    ensures there { OnOk result (AreThere (store_of counted.new) plan.now.comes.items) }
    ensures awaited { OnOk result ((key : rust.Key) → awaited_at (store_of counted.new) key
        ≡ awaited_at (store_of counted.old) key + times_joined key plan.now.joins.items) }
    ensures others { OnOk result ((key : rust.Key) → times_valued key plan.now.comes.items ≡ 0 → times_joined key plan.now.joins.items ≡ 0
        → entry_at (store_of counted.new) key ≡ entry_at (store_of counted.old) key) }
    ensures grows { Grows (store_of counted.old) (store_of counted.new) }
    ensures same_reference { lent counted.new ≡ lent counted.old }
{
    await_values(counted, &plan.comes)?;
    await_nodes(counted, &plan.joins)
}

/// Makes an entry for each value.
pub(crate) fn await_values(
    counted: &mut Counted<'_>,
    values: &[(SchemaId, Val)],
) -> Result<(), AllocError>
    ensures there { OnOk result (AreThere (store_of counted.new) values.now) }
    ensures awaited { (key : rust.Key) → awaited_at (store_of counted.new) key ≡ awaited_at (store_of counted.old) key }
    ensures others { OnOk result ((key : rust.Key) → times_valued key values.now ≡ 0
        → entry_at (store_of counted.new) key ≡ entry_at (store_of counted.old) key) }
    ensures grows { Grows (store_of counted.old) (store_of counted.new) }
    ensures same_reference { lent counted.new ≡ lent counted.old }
{
    same_keys();
    for (id, value) in values {
        let key = Key::Value(*id, value.clone()?);
        counted.await_instance(key)?;
    }
    Ok(())
}

/// Makes room for each node at its key.
fn await_nodes(counted: &mut Counted<'_>, pairs: &[(Key, NodeId)]) -> Result<(), AllocError>
    ensures awaited { OnOk result ((key : rust.Key) → awaited_at (store_of counted.new) key
        ≡ awaited_at (store_of counted.old) key + times_joined key pairs.now) }
    ensures others { OnOk result ((key : rust.Key) → times_joined key pairs.now ≡ 0
        → entry_at (store_of counted.new) key ≡ entry_at (store_of counted.old) key) }
    ensures grows { Grows (store_of counted.old) (store_of counted.new) }
    ensures same_reference { lent counted.new ≡ lent counted.old }
{
    same_keys();
    for (key, _id) in pairs {
        let copy = copy_of_key(key)?;
        counted.await_holder(copy)?;
    }
    Ok(())
}

/// A copy of a key.
fn copy_of_key(key: &Key) -> Result<Key, AllocError>
    ensures { IfOk result (λ copy. key_view copy ≡ key_view key.now) }
{
    match key {
        Key::Value(id, value) => Ok(Key::Value(*id, value.clone()?)),
        Key::Item(row, id, value) => Ok(Key::Item(*row, *id, value.clone()?)),
        Key::Tuple(row, id, number, values) => {
            Ok(Key::Tuple(*row, *id, *number, values.clone()?))
        }
        Key::Texts(row, id, texts) => Ok(Key::Texts(*row, *id, texts.clone()?)),
    }
}

/// Nodes are awaited at their keys once there is room for each. The first of them can join its key, and then the others are
/// awaited; a change of an entry that leaves how many are awaited leaves all of them so.
pub fn awaited_nodes()
    ensures grown { (before after : Nodes) (pairs : List (rust.Key × node_id.NodeId))
        → ((key : rust.Key) → awaited_at after key ≡ awaited_at before key + times_joined key pairs) → AreAwaited after pairs }
    ensures first { (nodes : Nodes) (p : rust.Key × node_id.NodeId) (ps : List (rust.Key × node_id.NodeId)) (key : rust.Key)
        → AreAwaited nodes (p ∷ ps) → key_view key ≡ key_view p.0 → is_awaited nodes key × (is_some (entry_at nodes key) ≡ true) }
    ensures rest { (before after : Nodes) (p : rust.Key × node_id.NodeId) (ps : List (rust.Key × node_id.NodeId)) (key : rust.Key) (id : node_id.NodeId)
        → key_view key ≡ key_view p.0 → Changes key (option_map (with_node id)) before after
        → AreAwaited before (p ∷ ps) → AreAwaited after ps }
    ensures kept { (before after : Nodes) (pairs : List (rust.Key × node_id.NodeId)) (key : rust.Key) (change : Entry → Entry)
        → Changes key (option_map change) before after → ((e : Entry) → (change e).awaited ≡ e.awaited)
        → AreAwaited before pairs → AreAwaited after pairs }
    ensures same { (before after : Nodes) (pairs : List (rust.Key × node_id.NodeId)) → ((key : rust.Key) → entry_at after key ≡ entry_at before key)
        → AreAwaited before pairs → AreAwaited after pairs }
{
    same_keys();
}

/// The entry of each value is there, and stays there where what entries hold is changed.
pub fn entries_there()
    ensures first { (nodes : Nodes) (p : schema_id.SchemaId × types.Val) (ps : List (schema_id.SchemaId × types.Val)) (key : rust.Key)
        → AreThere nodes (p ∷ ps) → key_view key ≡ value_key p.0.0 p.1 → is_some (entry_at nodes key) ≡ true }
    ensures kept { (before after : Nodes) (pairs : List (schema_id.SchemaId × types.Val)) (key : rust.Key) (change : Entry → Entry)
        → Changes key (option_map change) before after → AreThere before pairs → AreThere after pairs }
    ensures same { (before after : Nodes) (pairs : List (schema_id.SchemaId × types.Val)) → ((key : rust.Key) → entry_at after key ≡ entry_at before key)
        → AreThere before pairs → AreThere after pairs }
{
    same_keys();
}

/// A growth leaves trees and room for children, what is told, and what agrees with an index.
pub fn grown_stores()
    ensures keeps { (before after : Nodes) (tree : Branches) (above : Row) (loose : Branches) → Grows before after
        → Keeps before tree above loose → Keeps after tree above loose }
    ensures room { (before after : Nodes) (row : Row) → Grows before after → has_room before row → has_room after row }
    ensures trees { (before after : Nodes) (f : Branches) → Grows before after → IsTree before f → IsTree after f }
    ensures totals { (before after : Nodes) (f : Branches) → Grows before after → Totals before f → Totals after f }
    ensures agrees { (before after : Nodes) (keys : Keys) (f : Branches) → Grows before after → Agrees before keys f → Agrees after keys f }
{}
