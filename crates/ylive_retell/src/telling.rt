//! What is told of nodes that are new.

ghost use Rattle.std.specs.Prelude.{◌≡◌, ◌+◌, ◌*◌, ◌≤◌, ◌^◌, length, Some, option_map, if◌then◌else◌};
ghost use Rattle.yspec.specs.Forest.{levels};
ghost use Rattle.ystore.specs.Store.{reads, same_row};
ghost use Rattle.ystore.specs.Views.{store_of, lent};
ghost use Rattle.ystore_rows.specs.declared.row.Row as rows;
ghost use Rattle.ystore_rows.specs.declared.row.Row.TheVariants.{Below};
ghost use Rattle.ystore.specs.declared.record.Judged.TheVariants.{Right};
ghost use Rattle.ystore_tree.specs.Hanging.{Branches};
ghost use Rattle.ylive_marks.specs.Totals.{IsTree, OnlyFaults, StandsIn, Totals, judged_at, told_at};
ghost use Rattle.ylive_retell.specs.Telling.{AreNew, told_by, with_news};

use crate::account::News;
use ylive_marks::{kept_trees, tell_judged, tell_play};
use ystore::{Counted, Row};

/// Tells of new nodes what is to be told, one after another.
pub fn tell_all(counted: &mut Counted<'_>, news: Vec<News>)
    ensures told { (row : rows.Row) → told_at (store_of counted.new) row
        ≡ told_by news.items row (told_at (store_of counted.old) row) }
    ensures totals { (f : Branches) → IsTree (store_of counted.old) f → Totals (store_of counted.old) f
        → AreNew (store_of counted.old) f news.items → Totals (store_of counted.new) f }
    ensures reads { (f : Branches) → IsTree (store_of counted.old) f → AreNew (store_of counted.old) f news.items
        → reads (store_of counted.new) ≤ reads (store_of counted.old) + length news.items * (1 + 2 * levels f) }
    ensures kept { OnlyFaults (store_of counted.old) (store_of counted.new) }
    ensures same_reference { lent counted.new ≡ lent counted.old }
{
    kept_trees();
    for one in news {
        tell(counted, one);
    }
}

/// Tells of a new node what is to be told.
fn tell(counted: &mut Counted<'_>, news: News)
    ensures told { (row : rows.Row) → told_at (store_of counted.new) row
        ≡ (if same_row (Below news.id) row then option_map (with_news news) (told_at (store_of counted.old) row)
        else told_at (store_of counted.old) row) }
    ensures totals { (f : Branches) → IsTree (store_of counted.old) f → Totals (store_of counted.old) f
        → StandsIn (Below news.id) f → judged_at (store_of counted.old) news.id ≡ Some Right
        → length news.absences.items ≤ 2 ^ 32 → Totals (store_of counted.new) f }
    ensures reads { (f : Branches) → IsTree (store_of counted.old) f → StandsIn (Below news.id) f
        → reads (store_of counted.new) ≤ reads (store_of counted.old) + (1 + 2 * levels f) }
    ensures kept { OnlyFaults (store_of counted.old) (store_of counted.new) }
    ensures same_reference { lent counted.new ≡ lent counted.old }
{
    kept_trees();
    let News {
        id,
        judged,
        absences,
    } = news;
    tell_judged(counted, id, judged, false);
    tell_play(counted, Row::Below(id), absences);
}
