//! Laws of what agrees with an index.

ghost use Rattle.std.specs.Prelude.{◌≡◌, ◌+◌, ◌-◌, ◌^◌, ◌<◌, ◌≤◌, ℕ, true, false, is_some, List, [], Option, Some, None, length, option_map, if◌then◌else◌, IfSome};
ghost use Rattle.yspec.specs.Forest.{weigh};
ghost use Rattle.ycheck.specs.declared.fault.FaultCode.{FaultCode};
ghost use Rattle.yschema_model.specs.declared.node.SchemaId.{SchemaId};
ghost use Rattle.ystore.specs.Held.{with_judged, with_play};
ghost use Rattle.ystore.specs.Entries.{Entry, with_awaited, with_instance, with_node, without_instance, without_node};
ghost use Rattle.ystore.specs.Index.{made_ready, tidied};
ghost use Rattle.ystore.specs.Store.{entry_at, holders_at, instances_at, same_key, total_at, ChangesEntry};
ghost use Rattle.ystore.specs.declared.key.Key.{Key};
ghost use Rattle.ystore_rows.specs.declared.row.NodeId.{NodeId};
ghost use Rattle.ystore_rows.specs.declared.row.Row.{Row};
ghost use Rattle.ystore_rows.specs.declared.row.Row.TheVariants.{Below};
ghost use Rattle.ystore.specs.declared.record.Judged.{Judged};
ghost use Rattle.ystore.specs.declared.nodes.Nodes.{Nodes};
ghost use Rattle.ystore_tree.specs.Hanging.{Branches, times};
ghost use Rattle.ystore_tree.specs.Changes.{SameShapes};
ghost use Rattle.ylive_marks.specs.Totals.{ChangesTold, IsFew, StandsIn, TellsNothing, Totals, told_at};
ghost use Rattle.ylive_marks.specs.Keys.{Agrees, ChangesKey, IsSimilar, Keys, SameKeys, TellsNoKey, has_key, is_missing, slot_of};

use crate::alike::keys_alike;

/// What leaves the instances and the nodes of all keys: whatever leaves the entries, room for a node or an instance, and giving
/// back what holds nothing.
pub fn same_entries()
    ensures entries { (before after : Nodes) → ((key : Key) → entry_at after key ≡ entry_at before key) → SameKeys before after }
    ensures holder { (key : Key) (before after : Nodes) → ChangesEntry key (made_ready with_awaited) before after → SameKeys before after }
    ensures instance { (key : Key) (before after : Nodes) → ChangesEntry key (made_ready (λ e. e)) before after → SameKeys before after }
    ensures tidied { (key : Key) (before after : Nodes) → ChangesEntry key tidied before after → SameKeys before after }
    ensures joined { (first second third : Nodes) → SameKeys first second → SameKeys second third → SameKeys first third }
{
    keys_alike();
}

/// What is told agrees with an index as long as keys have what they had and the same is told of the forest's nodes, and where
/// something is told by no key; also of another forest with those keys, at whose new nodes no key tells anything.
pub fn kept_agreements()
    ensures told { (before after : Nodes) (keys : Keys) (f : Branches) → SameKeys before after
        → ((id : NodeId) → 0 < times id.0 f → told_at after (Below id) ≡ told_at before (Below id))
        → Agrees before keys f → Agrees after keys f }
    ensures play { (before after : Nodes) (keys : Keys) (f : Branches) (row : Row) (play : List (FaultCode × SchemaId))
        → ChangesTold row (with_play play) before after → Agrees before keys f → Agrees after keys f }
    ensures judged { (before after : Nodes) (keys : Keys) (f : Branches) (id : NodeId) (judged : Judged)
        → ChangesTold (Below id) (with_judged judged) before after → keys id.0 0 ≡ None → is_missing judged ≡ false
        → Agrees before keys f → Agrees after keys f }
    ensures forest { (nodes : Nodes) (keys : Keys) (f g : Branches) → Agrees nodes keys f
        → ((number slot : ℕ) → times number g ≡ 0 → keys number slot ≡ None)
        → ((id : NodeId) → 0 < times id.0 g → times id.0 f ≡ 0 → TellsNoKey nodes id)
        → Agrees nodes keys g }
    ensures silent { (nodes : Nodes) (f : Branches) → TellsNothing nodes f → (id : NodeId) → 0 < times id.0 f → TellsNoKey nodes id }
    ensures alike { (nodes : Nodes) (keys others : Keys) (f : Branches) → ((number slot : ℕ) → keys number slot ≡ others number slot)
        → Agrees nodes keys f → Agrees nodes others f }
    ensures empty { (nodes : Nodes) (f : Branches) → ((key : Key) → holders_at nodes key ≡ [])
        → ((id : NodeId) → 0 < times id.0 f → TellsNoKey nodes id) → Agrees nodes (λ number slot. None) f }
{}

/// How many instances keys have once one comes or goes, or a node joins a key or leaves it; and all shapes stay.
pub fn changed_keys()
    ensures more { (key : Key) (before after : Nodes) → ChangesKey key with_instance before after
        → is_some (entry_at before key) ≡ true → instances_at before key < 2 ^ 64 - 1
        → (other : Key) → instances_at after other ≡ instances_at before other + (if same_key key other then 1 else 0) }
    ensures fewer { (key : Key) (before after : Nodes) → ChangesKey key without_instance before after
        → 1 ≤ instances_at before key
        → (other : Key) → instances_at after other + (if same_key key other then 1 else 0) ≡ instances_at before other }
    ensures joined { (key : Key) (id : NodeId) (before after : Nodes) → ChangesKey key (with_node id) before after
        → (other : Key) → instances_at after other ≡ instances_at before other }
    ensures left { (key : Key) (id : NodeId) (before after : Nodes) → ChangesKey key (without_node id) before after
        → (other : Key) → instances_at after other ≡ instances_at before other }
    ensures shapes { (key : Key) (change : Entry → Entry) (before after : Nodes) → ChangesKey key change before after → SameShapes before after }
{
    keys_alike();
}

/// What is told agrees with an index whichever of keys that are the same a node is said to hold.
pub fn similar_keys()
    ensures { (nodes : Nodes) (keys others : Keys) (f : Branches) → ((number slot : ℕ) → IsSimilar (keys number slot) (others number slot))
        → Agrees nodes keys f → Agrees nodes others f }
{
    keys_alike();
}

/// The nodes of a key are as many as hold it in a forest in which no node stands twice.
pub fn counted_holders()
    ensures { (nodes : Nodes) (keys : Keys) (f : Branches) (key : Key) → Agrees nodes keys f
        → ((number : ℕ) → times number f ≤ 1)
        → length (holders_at nodes key) ≡ weigh (λ n. if has_key keys n.id.0 key then 1 else 0) f }
{}

/// Totals are right as long as the same is told in all rows of the forest, with the same totals.
pub fn same_totals()
    ensures { (before after : Nodes) (f : Branches) → ((row : Row) → StandsIn row f → told_at after row ≡ told_at before row)
        → ((row : Row) → StandsIn row f → total_at after row ≡ total_at before row)
        → ((row : Row) → IfSome (told_at after row) IsFew) → Totals before f → Totals after f }
{}
