//! Writes of what is told, with the totals above.

ghost use Rattle.std.specs.Prelude.{◌≡◌, ◌<◌, ◌≤◌, ◌^◌, Some, length, option_map, slice_get, if◌then◌else◌, ◌+◌};
ghost use Rattle.yspec.specs.Forest.{levels};
ghost use Rattle.ystore.specs.Held.{with_judged, with_same, with_play};
ghost use Rattle.ystore.specs.Store.{reads, same_at, total_at};
ghost use Rattle.ystore.specs.Views.{store_of, lent};
ghost use Rattle.ystore_rows.specs.declared.row.NodeId as rust;
ghost use Rattle.ystore_rows.specs.declared.row.Row.TheVariants.{Below};
ghost use Rattle.ystore_tree.specs.Hanging.{Branches, times};
ghost use Rattle.ylive_marks.specs.Totals.{ChangesTold, IsTree, StandsIn, Totals, is_told, judged_at};

use crate::totals::climb;
use ystore::{Absence, Counted, Judged, NodeId, Row};

/// Sets what is told of the value of a node. It is given whether a fault was told there before.
pub fn tell_judged(counted: &mut Counted<'_>, id: NodeId, judged: Judged, was: bool)
    ensures told { ChangesTold (Below id) (with_judged judged) (store_of counted.old) (store_of counted.new) }
    ensures totals { (f : Branches) → IsTree (store_of counted.old) f → Totals (store_of counted.old) f
        → StandsIn (Below id) f → option_map is_told (judged_at (store_of counted.old) id) ≡ Some was
        → Totals (store_of counted.new) f }
    ensures reads { (f : Branches) → IsTree (store_of counted.old) f → StandsIn (Below id) f
        → reads (store_of counted.new) ≤ reads (store_of counted.old) + levels f }
    ensures beside { (f : Branches) (x : rust.NodeId) → IsTree (store_of counted.old) f → StandsIn (Below id) f → times x.0 f ≡ 0
        → total_at (store_of counted.new) (Below x) ≡ total_at (store_of counted.old) (Below x) }
    ensures same_reference { lent counted.new ≡ lent counted.old }
{
    let more = count_of(is_fault(&judged));
    counted.set_judged(id, judged);
    climb(counted, Row::Below(id), more, count_of(was));
}

/// Sets whether another node has the same value as a node, or the same values, by their number. It is given whether that was
/// told before.
pub fn tell_same(counted: &mut Counted<'_>, id: NodeId, number: usize, is_same: bool, was: bool)
    ensures told { ChangesTold (Below id) (with_same number is_same) (store_of counted.old) (store_of counted.new) }
    ensures totals { (f : Branches) → IsTree (store_of counted.old) f → Totals (store_of counted.old) f
        → StandsIn (Below id) f → slice_get (same_at (store_of counted.old) id) number ≡ Some was
        → Totals (store_of counted.new) f }
    ensures reads { (f : Branches) → IsTree (store_of counted.old) f → StandsIn (Below id) f
        → reads (store_of counted.new) ≤ reads (store_of counted.old) + levels f }
    ensures beside { (f : Branches) (x : rust.NodeId) → IsTree (store_of counted.old) f → StandsIn (Below id) f → times x.0 f ≡ 0
        → total_at (store_of counted.new) (Below x) ≡ total_at (store_of counted.old) (Below x) }
    ensures same_reference { lent counted.new ≡ lent counted.old }
{
    counted.set_same(id, number, is_same);
    climb(counted, Row::Below(id), count_of(is_same), count_of(was));
}

/// Sets what is told of what isn't stored in a row.
pub fn tell_play(counted: &mut Counted<'_>, row: Row, play: Vec<Absence>)
    ensures told { ChangesTold row (with_play play.items) (store_of counted.old) (store_of counted.new) }
    ensures totals { (f : Branches) → IsTree (store_of counted.old) f → Totals (store_of counted.old) f
        → StandsIn row f → length play.items ≤ 2 ^ 32 → Totals (store_of counted.new) f }
    ensures reads { (f : Branches) → IsTree (store_of counted.old) f → StandsIn row f
        → reads (store_of counted.new) ≤ reads (store_of counted.old) + (1 + levels f) }
    ensures beside { (f : Branches) (x : rust.NodeId) → IsTree (store_of counted.old) f → StandsIn row f → times x.0 f ≡ 0
        → total_at (store_of counted.new) (Below x) ≡ total_at (store_of counted.old) (Below x) }
    ensures same_reference { lent counted.new ≡ lent counted.old }
{
    let more = play.len();
    let less = counted.play_len(row);
    counted.set_play(row, play);
    climb(counted, row, more, less);
}

/// Whether a fault is told of a value.
fn is_fault(judged: &Judged) -> bool
    ensures { result ≡ is_told judged.now }
{
    match judged {
        Judged::Right => false,
        Judged::Wrong(_) => true,
        Judged::Missing => true,
    }
}

/// How many faults a flag tells.
fn count_of(is_told: bool) -> usize
    ensures { result ≡ (if is_told then 1 else 0) }
{
    if is_told { 1 } else { 0 }
}
