//! Instances of values that come and go, and what is told by them.

ghost use Rattle.std.specs.Prelude.{◌≡◌, ◌+◌, ◌*◌, ◌≤◌, false, Some, None, eqb, length, if◌then◌else◌};
ghost use Rattle.yspec.specs.Forest.{levels};
ghost use Rattle.ystore.specs.Entries.{with_instance, without_instance};
ghost use Rattle.ystore.specs.Held.{with_judged};
ghost use Rattle.ystore.specs.Store.{holders_at, instances_at, reads, total_at};
ghost use Rattle.ystore.specs.Views.{store_of, lent};
ghost use Rattle.ystore_rows.specs.declared.row.NodeId as rust;
ghost use Rattle.ystore_rows.specs.declared.row.Row.TheVariants.{Below};
ghost use Rattle.ystore.specs.declared.record.Judged.TheVariants.{Right, Missing};
ghost use Rattle.ystore_tree.specs.Hanging.{Branches, times};
ghost use Rattle.ylive_marks.specs.Totals.{IsTree, OnlyFaults, StandsIn, Totals, judged_at};
ghost use Rattle.ylive_marks.specs.Keys.{Agrees, ChangesAt, ChangesKey, Follows, Keys, among, flag_of, is_holder, is_texts, judging};

use crate::alike::keys_alike;
use crate::telling::tell_judged;
use ystore::{Counted, Judged, Key};

/// Counts one instance more of a value. At the first one, all that refer to the value are right.
pub fn add_value(counted: &mut Counted<'_>, key: &Key)
    ensures follows { (keys : Keys) (f : Branches) → IsTree (store_of counted.old) f
        → Agrees (store_of counted.old) keys f → Totals (store_of counted.old) f → flag_of key.now ≡ None → is_texts key.now ≡ false
        → Follows (judging (eqb (instances_at (store_of counted.old) key.now) 0) (holders_at (store_of counted.old) key.now) f)
        keys f (store_of counted.old) (store_of counted.new) }
    ensures kept { ChangesKey key.now with_instance (store_of counted.old) (store_of counted.new) }
    ensures same_reference { lent counted.new ≡ lent counted.old }
{
    keys_alike();
    let instances = counted.instance_count(key);
    counted.add_instance(key);
    if instances > 0 {
        return;
    }
    judge_holders(counted, key, true);
}

/// Counts one instance less of a value. At the last one, it is missing at all that refer to it.
pub fn take_value(counted: &mut Counted<'_>, key: &Key)
    ensures follows { (keys : Keys) (f : Branches) → IsTree (store_of counted.old) f
        → Agrees (store_of counted.old) keys f → Totals (store_of counted.old) f → flag_of key.now ≡ None → is_texts key.now ≡ false
        → 1 ≤ instances_at (store_of counted.old) key.now
        → Follows (judging (eqb (instances_at (store_of counted.old) key.now) 1) (holders_at (store_of counted.old) key.now) f)
        keys f (store_of counted.old) (store_of counted.new) }
    ensures kept { ChangesKey key.now without_instance (store_of counted.old) (store_of counted.new) }
    ensures same_reference { lent counted.new ≡ lent counted.old }
{
    keys_alike();
    counted.take_instance(key);
    if counted.instance_count(key) > 0 {
        return;
    }
    judge_holders(counted, key, false);
}

/// Tells of all nodes that refer to a value that it was found, where it was missing, or that it is missing.
fn judge_holders(counted: &mut Counted<'_>, key: &Key, is_found: bool)
    ensures told { ChangesAt (is_holder (holders_at (store_of counted.old) key.now)) (with_judged (if is_found then Right else Missing))
        (store_of counted.old) (store_of counted.new) }
    ensures kept { OnlyFaults (store_of counted.old) (store_of counted.new) }
    ensures totals { (f : Branches) → IsTree (store_of counted.old) f → Totals (store_of counted.old) f
        → ((x : rust.NodeId) → 1 ≤ among x.0 (holders_at (store_of counted.old) key.now)
        → StandsIn (Below x) f × (among x.0 (holders_at (store_of counted.old) key.now) ≤ 1)
        × (judged_at (store_of counted.old) x ≡ Some (if is_found then Missing else Right)))
        → Totals (store_of counted.new) f }
    ensures reads { (f : Branches) → IsTree (store_of counted.old) f
        → ((x : rust.NodeId) → 1 ≤ among x.0 (holders_at (store_of counted.old) key.now) → StandsIn (Below x) f)
        → reads (store_of counted.new) ≤ reads (store_of counted.old) + (1 + length (holders_at (store_of counted.old) key.now) * (1 + levels f)) }
    ensures beside { (f : Branches) → IsTree (store_of counted.old) f
        → ((x : rust.NodeId) → 1 ≤ among x.0 (holders_at (store_of counted.old) key.now) → StandsIn (Below x) f)
        → (x : rust.NodeId) → times x.0 f ≡ 0
        → total_at (store_of counted.new) (Below x) ≡ total_at (store_of counted.old) (Below x) }
    ensures same_reference { lent counted.new ≡ lent counted.old }
{
    for place in 0..counted.holder_count(key) {
        let Some(id) = counted.holder(key, place) else {
            return;
        };
        tell_judged(counted, id, judged_if(is_found), is_found);
    }
}

/// What is told of a node that refers to a value.
fn judged_if(is_found: bool) -> Judged
    ensures { result ≡ (if is_found then Right else Missing) }
{
    if is_found {
        Judged::Right
    } else {
        Judged::Missing
    }
}
