//! Totals of a row and of all rows above it.

ghost use Rattle.std.specs.Prelude.{◌≡◌, ◌+◌, ◌≤◌, length};
ghost use Rattle.ystore.specs.Store.{reads};
ghost use Rattle.ystore.specs.Views.{store_of, lent};
ghost use Rattle.ystore_rows.specs.declared.row.Row.TheVariants.{Top};
ghost use Rattle.ystore_tree.specs.Hanging.{Branches};
ghost use Rattle.ystore_tree.specs.Parts.{OnlyReads};
ghost use Rattle.ystore_tree.specs.Ways.{Way, around, end_of};
ghost use Rattle.ylive_marks.specs.Totals.{IsTree, Climbs, OnlyFaults, SameTold, above_of};

use ystore::{Counted, Row};

/// Raises the total of a row and of all rows above it, and then lowers them. Each row above is read.
pub fn climb(counted: &mut Counted<'_>, row: Row, more: usize, less: usize)
    ensures climbs { (way : Way) (f : Branches) → IsTree (store_of counted.old) (around way f)
        → end_of Top way ≡ row → Climbs way more less (store_of counted.old) (store_of counted.new) }
    ensures reads { (way : Way) (f : Branches) → IsTree (store_of counted.old) (around way f)
        → end_of Top way ≡ row → reads (store_of counted.new) ≤ reads (store_of counted.old) + length way }
    ensures told { SameTold (store_of counted.old) (store_of counted.new) }
    ensures kept { OnlyFaults (store_of counted.old) (store_of counted.new) }
    ensures same_reference { lent counted.new ≡ lent counted.old }
{
    counted.change_total(row, more, less);
    let mut here = row;
    for round in 0..counted.node_count() {
        let Some(above) = row_above(counted, here) else {
            return;
        };
        counted.change_total(above, more, less);
        here = above;
    }
}

/// The row above a row.
fn row_above(counted: &mut Counted<'_>, row: Row) -> Option<Row>
    ensures above { result ≡ above_of (store_of counted.old) row }
    ensures kept { OnlyReads (store_of counted.old) (store_of counted.new) }
    ensures reads { reads (store_of counted.new) ≤ reads (store_of counted.old) + 1 }
    ensures top { row ≡ Top → reads (store_of counted.new) ≡ reads (store_of counted.old) }
    ensures same_reference { lent counted.new ≡ lent counted.old }
{
    match row {
        Row::Top => None,
        Row::Below(id) => counted.parent(id),
    }
}
