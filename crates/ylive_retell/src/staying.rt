//! The keys that nodes hold before a change as well as after it.

ghost use Rattle.std.specs.Prelude.{◌≡◌, ◌≤◌, length, take};
ghost use Rattle.ystore.specs.Store.{same_key};
ghost use Rattle.ylive_facts.specs.Keys.{holdings};
ghost use Rattle.ylive_retell.specs.Staying.{is_same};

use ystore::{Key, NodeId};

/// How many pairs of a key and a node are the same in both from the first on.
pub(crate) fn staying(old: &[(Key, NodeId)], new: &[(Key, NodeId)]) -> usize
    ensures old { result ≤ length old.now }
    ensures new { result ≤ length new.now }
    ensures same { holdings (take result old.now) ≡ holdings (take result new.now) }
{
    for place in 0..old.len() {
        let Some(one) = old.get(place) else {
            return place;
        };
        let Some(other) = new.get(place) else {
            return place;
        };
        if !is_same(one, other) {
            return place;
        }
    }
    old.len()
}

fn is_same(one: &(Key, NodeId), other: &(Key, NodeId)) -> bool
    ensures { result ≡ is_same one.now other.now }
{
    one.1 == other.1 && one.0.cmp(&other.0).is_eq()
}
