//! Instances of values that come, and that go.

ghost use Rattle.std.specs.Prelude.{◌≡◌, ◌≤◌, ◌+◌, ◌-◌, ◌^◌, eqb};
ghost use Rattle.ystore.specs.Store.{holders_at, instances_at, reads};
ghost use Rattle.ystore.specs.Views.{store_of, lent};
ghost use Rattle.ystore.specs.declared.key.Key as rust;
ghost use Rattle.ystore.specs.declared.nodes.Nodes.{Nodes};
ghost use Rattle.ystore_tree.specs.Hanging.{Branches};
ghost use Rattle.ystore.specs.Entries.{with_instance, without_instance};
ghost use Rattle.ystore.specs.declared.key.Key.TheVariants.{Value};
ghost use Rattle.ylive_marks.specs.Keys.{Agrees, ChangesKey, Keys, judging};
ghost use Rattle.ylive_marks.specs.Totals.{IsTree, Totals};
ghost use Rattle.ylive_retell.specs.Growing.{AreThere};
ghost use Rattle.ylive_retell.specs.Reads.{holder_count, lastly_judged, newly_judged, values_reads};
ghost use Rattle.ylive_retell.specs.Joins.{Follows, IsTidy, KeepsRows, KeepsAwaited, Tidies, times_valued};

use crate::tidying::tidy;
use ylive_marks::{add_value, keys_alike, take_value};
use yschema_model::SchemaId;
use ystore::{Counted, Key};
use ytype::Val;

/// Counts one instance more of each value, one after another. There is an entry for each.
pub fn add_all(counted: &mut Counted<'_>, values: Vec<(SchemaId, Val)>)
    ensures follows { (held : Keys) (f : Branches) → IsTree (store_of counted.old) f
        → Agrees (store_of counted.old) held f → Totals (store_of counted.old) f
        → Follows held f (store_of counted.old) (store_of counted.new) }
    ensures reads { (held : Keys) (f : Branches) → IsTree (store_of counted.old) f
        → Agrees (store_of counted.old) held f → Totals (store_of counted.old) f
        → AreThere (store_of counted.old) values.items
        → ((key : rust.Key) → instances_at (store_of counted.old) key + times_valued key values.items ≤ 2 ^ 64 - 1)
        → reads (store_of counted.new) ≤ reads (store_of counted.old)
        + values_reads (newly_judged (instances_at (store_of counted.old)) (holder_count (store_of counted.old)) values.items values.items) values.items f }
    ensures instances { AreThere (store_of counted.old) values.items
        → ((key : rust.Key) → instances_at (store_of counted.old) key + times_valued key values.items ≤ 2 ^ 64 - 1)
        → (key : rust.Key) → instances_at (store_of counted.new) key ≡ instances_at (store_of counted.old) key + times_valued key values.items }
    ensures kept { KeepsRows (store_of counted.old) (store_of counted.new) }
    ensures awaited { KeepsAwaited (store_of counted.old) (store_of counted.new) }
    ensures same_reference { lent counted.new ≡ lent counted.old }
{
    keys_alike();
    for pair in values {
        add_pair(counted, pair);
    }
}

/// Counts one instance more of a value.
fn add_pair(counted: &mut Counted<'_>, pair: (SchemaId, Val))
    ensures follows { (held : Keys) (f : Branches) → IsTree (store_of counted.old) f
        → Agrees (store_of counted.old) held f → Totals (store_of counted.old) f
        → Follows held f (store_of counted.old) (store_of counted.new) }
    ensures reads { (held : Keys) (f : Branches) → IsTree (store_of counted.old) f
        → Agrees (store_of counted.old) held f → Totals (store_of counted.old) f
        → reads (store_of counted.new) ≤ reads (store_of counted.old)
        + judging (eqb (instances_at (store_of counted.old) (Value pair.0 pair.1)) 0) (holders_at (store_of counted.old) (Value pair.0 pair.1)) f }
    ensures kept { ChangesKey (Value pair.0 pair.1) with_instance (store_of counted.old) (store_of counted.new) }
    ensures same_reference { lent counted.new ≡ lent counted.old }
{
    let key = Key::Value(pair.0, pair.1);
    add_value(counted, &key);
}

/// Counts one instance less of each value, one after another. No more go than are there.
pub fn take_all(counted: &mut Counted<'_>, values: Vec<(SchemaId, Val)>)
    ensures follows { (held : Keys) (f : Branches) → IsTree (store_of counted.old) f
        → Agrees (store_of counted.old) held f → Totals (store_of counted.old) f
        → ((key : rust.Key) → times_valued key values.items ≤ instances_at (store_of counted.old) key)
        → Follows held f (store_of counted.old) (store_of counted.new) }
    ensures reads { (held : Keys) (f : Branches) → IsTree (store_of counted.old) f
        → Agrees (store_of counted.old) held f → Totals (store_of counted.old) f
        → ((key : rust.Key) → times_valued key values.items ≤ instances_at (store_of counted.old) key)
        → reads (store_of counted.new) ≤ reads (store_of counted.old)
        + values_reads (lastly_judged (instances_at (store_of counted.old)) (holder_count (store_of counted.old)) values.items values.items) values.items f }
    ensures instances { ((key : rust.Key) → times_valued key values.items ≤ instances_at (store_of counted.old) key)
        → (key : rust.Key) → instances_at (store_of counted.new) key + times_valued key values.items ≡ instances_at (store_of counted.old) key }
    ensures kept { KeepsRows (store_of counted.old) (store_of counted.new) }
    ensures awaited { KeepsAwaited (store_of counted.old) (store_of counted.new) }
    ensures same_reference { lent counted.new ≡ lent counted.old }
{
    keys_alike();
    for pair in values {
        take_pair(counted, pair);
    }
}

/// Counts one instance less of a value.
fn take_pair(counted: &mut Counted<'_>, pair: (SchemaId, Val))
    ensures follows { (held : Keys) (f : Branches) → IsTree (store_of counted.old) f
        → Agrees (store_of counted.old) held f → Totals (store_of counted.old) f
        → 1 ≤ instances_at (store_of counted.old) (Value pair.0 pair.1)
        → Follows held f (store_of counted.old) (store_of counted.new) }
    ensures reads { (held : Keys) (f : Branches) → IsTree (store_of counted.old) f
        → Agrees (store_of counted.old) held f → Totals (store_of counted.old) f
        → 1 ≤ instances_at (store_of counted.old) (Value pair.0 pair.1)
        → reads (store_of counted.new) ≤ reads (store_of counted.old)
        + judging (eqb (instances_at (store_of counted.old) (Value pair.0 pair.1)) 1) (holders_at (store_of counted.old) (Value pair.0 pair.1)) f }
    ensures kept { (mid : Nodes) × ChangesKey (Value pair.0 pair.1) without_instance (store_of counted.old) mid
        × Tidies mid (store_of counted.new) }
    ensures entry { IsTidy (store_of counted.new) (Value pair.0 pair.1) }
    ensures same_reference { lent counted.new ≡ lent counted.old }
{
    let key = Key::Value(pair.0, pair.1);
    take_value(counted, &key);
    tidy(counted, &key);
}
