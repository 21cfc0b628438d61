//! Keys that many nodes leave, or join.

ghost use Rattle.std.specs.Prelude.{◌≡◌, ◌+◌, ◌*◌, ◌≤◌, length};
ghost use Rattle.ystore.specs.Store.{reads, same_key};
ghost use Rattle.ystore.specs.Views.{store_of, lent};
ghost use Rattle.ystore_tree.specs.Hanging.{Branches};
ghost use Rattle.ylive_marks.specs.Keys.{Agrees, Keys, slot_of, two_climbs};
ghost use Rattle.ylive_marks.specs.Totals.{IsTree, Totals};
ghost use Rattle.ylive_retell.specs.Assigned.{CanJoin, CanLeave, joined, left};
ghost use Rattle.ylive_retell.specs.Growing.{AreAwaited};
ghost use Rattle.ylive_retell.specs.Joins.{Follows, CanHoldAll, KeepsRows, KeepsInstances, KeepsAwaited, KeepsThere};

use ylive_marks::{join, keys_alike, leave};
use ystore::{Counted, Key, NodeId};

/// Nodes leave their keys, one after another.
pub fn leave_all(counted: &mut Counted<'_>, keys: &[(Key, NodeId)])
    ensures follows { (held : Keys) (f : Branches) → IsTree (store_of counted.old) f
        → Agrees (store_of counted.old) held f → Totals (store_of counted.old) f
        → CanLeave slot_of same_key held keys.now
        → Follows (left slot_of keys.now held) f (store_of counted.old) (store_of counted.new) }
    ensures reads { (held : Keys) (f : Branches) → IsTree (store_of counted.old) f
        → Agrees (store_of counted.old) held f → Totals (store_of counted.old) f
        → CanLeave slot_of same_key held keys.now
        → reads (store_of counted.new) ≤ reads (store_of counted.old) + length keys.now * two_climbs f }
    ensures kept { KeepsRows (store_of counted.old) (store_of counted.new) }
    ensures instances { KeepsInstances (store_of counted.old) (store_of counted.new) }
    ensures awaited { KeepsAwaited (store_of counted.old) (store_of counted.new) }
    ensures there { KeepsThere (store_of counted.old) (store_of counted.new) }
    ensures same_reference { lent counted.new ≡ lent counted.old }
{
    keys_alike();
    for at in 0..keys.len() {
        let pair = &keys[at];
        leave(counted, &pair.0, pair.1);
    }
}

/// Nodes join keys, one after another. They are awaited there.
pub fn join_all(counted: &mut Counted<'_>, keys: &[(Key, NodeId)])
    requires { AreAwaited (store_of counted.old) keys.now }
    ensures follows { (held : Keys) (f : Branches) → IsTree (store_of counted.old) f
        → Agrees (store_of counted.old) held f → Totals (store_of counted.old) f
        → CanJoin slot_of held keys.now → CanHoldAll (store_of counted.old) f keys.now
        → Follows (joined slot_of keys.now held) f (store_of counted.old) (store_of counted.new) }
    ensures reads { (held : Keys) (f : Branches) → IsTree (store_of counted.old) f
        → Agrees (store_of counted.old) held f → Totals (store_of counted.old) f
        → CanJoin slot_of held keys.now → CanHoldAll (store_of counted.old) f keys.now
        → reads (store_of counted.new) ≤ reads (store_of counted.old) + length keys.now * two_climbs f }
    ensures kept { KeepsRows (store_of counted.old) (store_of counted.new) }
    ensures instances { KeepsInstances (store_of counted.old) (store_of counted.new) }
    ensures same_reference { lent counted.new ≡ lent counted.old }
{
    keys_alike();
    for at in 0..keys.len() {
        let pair = &keys[at];
        join(counted, &pair.0, pair.1);
    }
}
