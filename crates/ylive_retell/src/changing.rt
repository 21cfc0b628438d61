//! A change of a row, with the totals above it.

ghost use Rattle.std.specs.Prelude.{◌≡◌, ◌+◌, ◌≤◌, ◌^◌, length, option_map, if◌then◌else◌};
ghost use Rattle.yspec.specs.Forest.{end, size, levels};
ghost use Rattle.ystore.specs.Held.{with_play};
ghost use Rattle.ystore.specs.Store.{entry_at, reads, same_row, total_at};
ghost use Rattle.ystore.specs.Views.{store_of, lent};
ghost use Rattle.ystore.specs.declared.key.Key as key;
ghost use Rattle.ystore_rows.specs.declared.row.Row as rows;
ghost use Rattle.ystore_rows.specs.declared.row.Row.TheVariants.{Top, Below};
ghost use Rattle.ystore_tree.specs.Hanging.{Keeps};
ghost use Rattle.ystore_tree.specs.Copies.{ids_of};
ghost use Rattle.ystore_tree.specs.Parts.{OnlyReads};
ghost use Rattle.ystore_tree.specs.Ways.{around};
ghost use Rattle.ylive_marks.specs.Totals.{StandsIn, TellsNothing, Totals, told_at};
ghost use Rattle.ylive_retell.specs.Changed.{gone_of, total_of};
ghost use Rattle.ylive_retell.specs.Plans.{IsReady};

use ylive_marks::{climb, tell_play};
use ystore::{Absence, Counted, NodeId, Row};
use ystore_tree::{Change, Swap, remove_nodes};

/// Changes a row, tells what isn't stored in it then, and gives back the nodes that are gone, of which these are the numbers.
/// What comes tells nothing yet.
pub fn change_row(counted: &mut Counted<'_>, swap: Swap, absences: Vec<Absence>, old: &[NodeId])
    requires { IsReady swap (store_of counted.old) }
    ensures keeps { (r : IsReady swap (store_of counted.old)) → ids_of r.left ≡ old.now
        → Keeps (store_of counted.new) (around r.way r.g) swap.above end }
    ensures totals { (r : IsReady swap (store_of counted.old)) → ids_of r.left ≡ old.now
        → Totals (store_of counted.old) (around r.way r.f) → TellsNothing (store_of counted.old) r.loose
        → size (around r.way r.g) ≤ 2 ^ 28 → length absences.items ≤ 2 ^ 32
        → Totals (store_of counted.new) (around r.way r.g) }
    ensures told { (r : IsReady swap (store_of counted.old)) → ids_of r.left ≡ old.now
        → (row : rows.Row) → StandsIn row (around r.way r.g) → told_at (store_of counted.new) row
        ≡ (if same_row swap.above row then option_map (with_play absences.items) (told_at (store_of counted.old) row)
        else told_at (store_of counted.old) row) }
    ensures reads { (r : IsReady swap (store_of counted.old)) → ids_of r.left ≡ old.now
        → reads (store_of counted.new) ≤ reads (store_of counted.old) + (2 + (length r.way + levels (around r.way r.g))) }
    ensures entries { (k : key.Key) → entry_at (store_of counted.new) k ≡ entry_at (store_of counted.old) k }
    ensures same_reference { lent counted.new ≡ lent counted.old }
{
    let less = total_of_gone(counted, swap.change);
    swap.make(counted);
    climb(counted, swap.above, 0, less);
    tell_play(counted, swap.above, absences);
    remove_nodes(counted, old);
}

/// The total of the node that goes, if there is one.
fn total_of_gone(counted: &mut Counted<'_>, change: Change) -> usize
    ensures total { result ≡ total_of (store_of counted.old) (gone_of change) }
    ensures kept { OnlyReads (store_of counted.old) (store_of counted.new) }
    ensures reads { reads (store_of counted.new) ≤ reads (store_of counted.old) + 1 }
    ensures same_reference { lent counted.new ≡ lent counted.old }
{
    match change {
        Change::Add { .. } | Change::Move { .. } => 0,
        Change::Put { old, .. } | Change::Take { old, .. } => counted.total(Row::Below(old)),
    }
}
