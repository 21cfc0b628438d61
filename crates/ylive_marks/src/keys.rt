//! Keys that nodes join and leave, and what is told by them.

ghost use Rattle.std.specs.Prelude.{◌+◌, ◌*◌, ◌≤◌, ◌≡◌, true, false, not, Some, None, is_some, length, option_map, slice_get, eqb};
ghost use Rattle.std.specs.Option.{option_map_or};
ghost use Rattle.yspec.specs.Forest.{levels};
ghost use Rattle.ystore.specs.Entries.{with_node, without_node};
ghost use Rattle.ystore.specs.Held.{with_same};
ghost use Rattle.ystore.specs.Store.{entry_at, holders_at, is_awaited, reads, same_at, total_at};
ghost use Rattle.ystore.specs.Views.{store_of, lent};
ghost use Rattle.ystore_rows.specs.declared.row.NodeId as rust;
ghost use Rattle.ystore_rows.specs.declared.row.Row.TheVariants.{Below};
ghost use Rattle.ystore_tree.specs.Hanging.{Branches, times};
ghost use Rattle.ystore_tree.specs.Parts.{OnlyReads};
ghost use Rattle.ylive_marks.specs.Totals.{IsTree, OnlyFaults, StandsIn, Totals};
ghost use Rattle.ylive_marks.specs.Keys.{Agrees, CanHold, ChangesAt, ChangesKey, Follows, Keys, flag_of, found_at, has_key, is_touched, slot_of, two_climbs, with_key};

use crate::alike::keys_alike;
use crate::telling::{tell_judged, tell_same};
use ystore::{Counted, Judged, Key, NodeId};

/// Adds a node to those that hold a key. It is awaited.
pub fn join(counted: &mut Counted<'_>, key: &Key, id: NodeId)
    requires { is_awaited (store_of counted.old) key.now }
    ensures follows { (keys : Keys) (f : Branches) → IsTree (store_of counted.old) f
        → Agrees (store_of counted.old) keys f → Totals (store_of counted.old) f → StandsIn (Below id) f
        → keys id.0 (slot_of key.now) ≡ None → CanHold (store_of counted.old) id (flag_of key.now)
        → is_some (entry_at (store_of counted.old) key.now) ≡ true
        → Follows (two_climbs f) (with_key id.0 (slot_of key.now) (Some key.now) keys) f (store_of counted.old) (store_of counted.new) }
    ensures kept { ChangesKey key.now (with_node id) (store_of counted.old) (store_of counted.new) }
    ensures same_reference { lent counted.new ≡ lent counted.old }
{
    match flag_number(key) {
        Some(number) => join_fellows(counted, key, id, number),
        None => join_value(counted, key, id),
    }
}

/// Takes a node from those that hold a key.
pub fn leave(counted: &mut Counted<'_>, key: &Key, id: NodeId)
    ensures follows { (keys : Keys) (f : Branches) → IsTree (store_of counted.old) f
        → Agrees (store_of counted.old) keys f → Totals (store_of counted.old) f → has_key keys id.0 key.now ≡ true
        → Follows (two_climbs f) (with_key id.0 (slot_of key.now) None keys) f (store_of counted.old) (store_of counted.new) }
    ensures kept { ChangesKey key.now (without_node id) (store_of counted.old) (store_of counted.new) }
    ensures same_reference { lent counted.new ≡ lent counted.old }
{
    match flag_number(key) {
        Some(number) => leave_fellows(counted, key, id, number),
        None => leave_value(counted, key, id),
    }
}

/// The number of the flag that a key sets at its nodes.
fn flag_number(key: &Key) -> Option<usize>
    ensures { result ≡ flag_of key.now }
{
    match key {
        Key::Item(_, _, _) => Some(0),
        Key::Tuple(_, _, number, _) => Some(*number),
        _ => None,
    }
}

/// Adds a node to those that refer to a value, or have the same texts. If a value has no instance, one is missing.
fn join_value(counted: &mut Counted<'_>, key: &Key, id: NodeId)
    requires { is_awaited (store_of counted.old) key.now }
    ensures follows { flag_of key.now ≡ None → (keys : Keys) (f : Branches) → IsTree (store_of counted.old) f
        → Agrees (store_of counted.old) keys f → Totals (store_of counted.old) f → StandsIn (Below id) f
        → keys id.0 (slot_of key.now) ≡ None → CanHold (store_of counted.old) id None
        → is_some (entry_at (store_of counted.old) key.now) ≡ true
        → Follows (two_climbs f) (with_key id.0 (slot_of key.now) (Some key.now) keys) f (store_of counted.old) (store_of counted.new) }
    ensures kept { ChangesKey key.now (with_node id) (store_of counted.old) (store_of counted.new) }
    ensures same_reference { lent counted.new ≡ lent counted.old }
{
    keys_alike();
    counted.add_holder(key, id);
    if found_count(counted, key) > 0 {
        return;
    }
    tell_judged(counted, id, Judged::Missing, false);
}

/// How many instances are found of what a key names. Nothing is missing of a key of texts.
fn found_count(counted: &mut Counted<'_>, key: &Key) -> usize
    ensures found { result ≡ found_at (store_of counted.old) key.now }
    ensures kept { OnlyReads (store_of counted.old) (store_of counted.new) }
    ensures reads { reads (store_of counted.new) ≤ reads (store_of counted.old) + 1 }
    ensures same_reference { lent counted.new ≡ lent counted.old }
{
    match key {
        Key::Texts(_, _, _) => 1,
        _ => counted.instance_count(key),
    }
}

/// Adds a node to those that have the same values. With one other, both get the flag; with more, the new one does.
fn join_fellows(counted: &mut Counted<'_>, key: &Key, id: NodeId, number: usize)
    requires { is_awaited (store_of counted.old) key.now }
    ensures follows { flag_of key.now ≡ Some number → (keys : Keys) (f : Branches) → IsTree (store_of counted.old) f
        → Agrees (store_of counted.old) keys f → Totals (store_of counted.old) f → StandsIn (Below id) f
        → keys id.0 (slot_of key.now) ≡ None → CanHold (store_of counted.old) id (Some number)
        → is_some (entry_at (store_of counted.old) key.now) ≡ true
        → Follows (two_climbs f) (with_key id.0 (slot_of key.now) (Some key.now) keys) f (store_of counted.old) (store_of counted.new) }
    ensures kept { ChangesKey key.now (with_node id) (store_of counted.old) (store_of counted.new) }
    ensures same_reference { lent counted.new ≡ lent counted.old }
{
    keys_alike();
    let fellows = counted.holder_count(key);
    let fellow = fellow_of(counted, key, fellows);
    counted.add_holder(key, id);
    tell_fellows(counted, id, fellow, number, fellows, true);
}

/// The first of the nodes that hold a key, of which there are so many.
fn fellow_of(counted: &mut Counted<'_>, key: &Key, fellows: usize) -> Option<NodeId>
    requires { fellows ≡ length (holders_at (store_of counted.old) key.now) }
    ensures holder { result ≡ slice_get (holders_at (store_of counted.old) key.now) 0 }
    ensures kept { OnlyReads (store_of counted.old) (store_of counted.new) }
    ensures reads { reads (store_of counted.new) ≤ reads (store_of counted.old) + 1 }
    ensures same_reference { lent counted.new ≡ lent counted.old }
{
    if fellows == 0 {
        return None;
    }
    counted.holder(key, 0)
}

/// Takes a node from those that refer to a value, or have the same texts. No instance is missing of it any more.
fn leave_value(counted: &mut Counted<'_>, key: &Key, id: NodeId)
    ensures follows { flag_of key.now ≡ None → (keys : Keys) (f : Branches) → IsTree (store_of counted.old) f
        → Agrees (store_of counted.old) keys f → Totals (store_of counted.old) f → has_key keys id.0 key.now ≡ true
        → Follows (two_climbs f) (with_key id.0 (slot_of key.now) None keys) f (store_of counted.old) (store_of counted.new) }
    ensures kept { ChangesKey key.now (without_node id) (store_of counted.old) (store_of counted.new) }
    ensures same_reference { lent counted.new ≡ lent counted.old }
{
    keys_alike();
    counted.take_holder(key, id);
    if found_count(counted, key) > 0 {
        return;
    }
    tell_judged(counted, id, Judged::Right, true);
}

/// Takes a node from those that have the same values. It loses its flag, and so does a last fellow.
fn leave_fellows(counted: &mut Counted<'_>, key: &Key, id: NodeId, number: usize)
    ensures follows { flag_of key.now ≡ Some number → (keys : Keys) (f : Branches) → IsTree (store_of counted.old) f
        → Agrees (store_of counted.old) keys f → Totals (store_of counted.old) f → has_key keys id.0 key.now ≡ true
        → Follows (two_climbs f) (with_key id.0 (slot_of key.now) None keys) f (store_of counted.old) (store_of counted.new) }
    ensures kept { ChangesKey key.now (without_node id) (store_of counted.old) (store_of counted.new) }
    ensures same_reference { lent counted.new ≡ lent counted.old }
{
    keys_alike();
    counted.take_holder(key, id);
    let fellows = counted.holder_count(key);
    let fellow = fellow_of(counted, key, fellows);
    tell_fellows(counted, id, fellow, number, fellows, false);
}

/// Sets the flag of a node that comes to so many fellows, or takes that of one that goes from them, and that of a single fellow.
fn tell_fellows(
    counted: &mut Counted<'_>,
    id: NodeId,
    fellow: Option<NodeId>,
    number: usize,
    fellows: usize,
    is_same: bool,
)
    ensures told { ChangesAt (is_touched id fellow fellows) (with_same number is_same) (store_of counted.old) (store_of counted.new) }
    ensures kept { OnlyFaults (store_of counted.old) (store_of counted.new) }
    ensures totals { (f : Branches) → IsTree (store_of counted.old) f → Totals (store_of counted.old) f
        → ((x : rust.NodeId) → is_touched id fellow fellows (Below x) ≡ true
        → StandsIn (Below x) f × (slice_get (same_at (store_of counted.old) x) number ≡ Some (not is_same)))
        → option_map_or (λ other. eqb id.0 other.0) fellow false ≡ false → Totals (store_of counted.new) f }
    ensures reads { (f : Branches) → IsTree (store_of counted.old) f
        → ((x : rust.NodeId) → is_touched id fellow fellows (Below x) ≡ true → StandsIn (Below x) f)
        → reads (store_of counted.new) ≤ reads (store_of counted.old) + 2 * levels f }
    ensures beside { (f : Branches) → IsTree (store_of counted.old) f
        → ((x : rust.NodeId) → is_touched id fellow fellows (Below x) ≡ true → StandsIn (Below x) f)
        → (x : rust.NodeId) → times x.0 f ≡ 0
        → total_at (store_of counted.new) (Below x) ≡ total_at (store_of counted.old) (Below x) }
    ensures same_reference { lent counted.new ≡ lent counted.old }
{
    if fellows == 0 {
        return;
    }
    tell_same(counted, id, number, is_same, !is_same);
    if fellows > 1 {
        return;
    }
    let Some(other) = fellow else {
        return;
    };
    tell_same(counted, other, number, is_same, !is_same);
}
