//! Entries of an index that hold nothing any more.

ghost use Rattle.std.specs.Prelude.{◌≡◌};
ghost use Rattle.ystore.specs.Views.{store_of, lent};
ghost use Rattle.ystore.specs.Index.{tidied};
ghost use Rattle.ystore.specs.Store.{ChangesEntry, reads};
ghost use Rattle.ylive_retell.specs.Joins.{IsTidy, Tidies};
ghost use Rattle.ylive_retell.specs.Standing.{Every};

use ylive_marks::{keys_alike, same_entries};
use ystore::{Counted, Key, NodeId};

/// Gives back the entry of a key, if it holds and awaits nothing.
pub fn tidy(counted: &mut Counted<'_>, key: &Key)
    ensures tidies { Tidies (store_of counted.old) (store_of counted.new) }
    ensures entry { ChangesEntry key.now tidied (store_of counted.old) (store_of counted.new) }
    ensures reads { reads (store_of counted.new) ≡ reads (store_of counted.old) }
    ensures same_reference { lent counted.new ≡ lent counted.old }
{
    keys_alike();
    same_entries();
    counted.tidy(key);
}

/// The same of each of some keys.
pub fn tidy_all(counted: &mut Counted<'_>, keys: &[(Key, NodeId)])
    ensures tidies { Tidies (store_of counted.old) (store_of counted.new) }
    ensures entries { Every (λ p. IsTidy (store_of counted.new) p.0) keys.now }
    ensures reads { reads (store_of counted.new) ≡ reads (store_of counted.old) }
    ensures same_reference { lent counted.new ≡ lent counted.old }
{
    keys_alike();
    same_entries();
    for at in 0..keys.len() {
        let pair = &keys[at];
        tidy(counted, &pair.0);
    }
}
