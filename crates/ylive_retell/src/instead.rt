//! What is told of a row of what isn't stored, once it is told anew of one child of its schema row.

ghost use Rattle.std.specs.Prelude.{◌≡◌, ◌+◌, ◌-◌, ◌*◌, ◌≤◌, ◌++◌, length, take, drop, option_map, IfOk, OnOk};
ghost use Rattle.yschema_model.specs.View.{child_view};
ghost use Rattle.ystore.specs.Store.{play_at, reads};
ghost use Rattle.ystore.specs.Views.{store_of, lent};
ghost use Rattle.ystore_tree.specs.Parts.{OnlyReads};
ghost use Rattle.yspec_play.specs.Over as spec;
ghost use Rattle.yspec_play.specs.Over.{number_over};
ghost use Rattle.ylive_facts.specs.InPlay.{absence_views};

use std::alloc::AllocError;
use yschema_model::{Child, SchemaId};
use ystore::{Absence, Counted, Row};

/// What is told of a row with something else in place of so many that are told from a child on; with it at the end, where
/// there is no child.
pub fn told_instead(
    counted: &mut Counted<'_>,
    row: Row,
    child: Option<Child<'_>>,
    count: usize,
    told: Vec<Absence>,
) -> Result<Vec<Absence>, AllocError>
    ensures told { IfOk result (λ all. absence_views all.items
        ≡ spec.told_instead (number_over (option_map child_view child.entry)) count (absence_views told.items)
        (absence_views (play_at (store_of counted.old) row))) }
    ensures kept { OnlyReads (store_of counted.old) (store_of counted.new) }
    ensures reads { reads (store_of counted.new)
        ≤ reads (store_of counted.old) + (2 + 2 * length (play_at (store_of counted.old) row)) }
    ensures same_reference { lent counted.new ≡ lent counted.old }
{
    let mut told = told;
    let length = counted.play_len(row);
    let before = told_before(counted, row, child);
    let mut all = Vec::new(counted.alloc());
    copy_told(counted, row, 0, before, &mut all)?;
    all.append(&mut told)?;
    copy_told(counted, row, before.saturating_add(count), length, &mut all)?;
    Ok(all)
}

/// How many are told first of nodes before a child; all, where there is none.
fn told_before(counted: &mut Counted<'_>, row: Row, child: Option<Child<'_>>) -> usize
    ensures before { result ≡ spec.told_before (number_over (option_map child_view child.entry))
        (absence_views (play_at (store_of counted.old) row)) }
    ensures kept { OnlyReads (store_of counted.old) (store_of counted.new) }
    ensures reads { reads (store_of counted.new)
        ≤ reads (store_of counted.old) + (1 + length (play_at (store_of counted.old) row)) }
    ensures within { result ≤ length (play_at (store_of counted.old) row) }
    ensures same_reference { lent counted.new ≡ lent counted.old }
{
    let length = counted.play_len(row);
    for place in 0..length {
        let Some((_, id)) = counted.absence(row, place) else {
            return place;
        };
        if !is_before(child, id) {
            return place;
        }
    }
    length
}

fn is_before(child: Option<Child<'_>>, id: SchemaId) -> bool
    ensures { result ≡ spec.is_before (number_over (option_map child_view child.entry)) id.0 }
{
    match child {
        Some(child) => id.0 < child.id().0,
        None => true,
    }
}

/// Adds what is told of a row from a place on and before another.
fn copy_told(
    counted: &mut Counted<'_>,
    row: Row,
    from: usize,
    until: usize,
    all: &mut Vec<Absence>,
) -> Result<(), AllocError>
    ensures told { OnOk result (all.new.items
        ≡ all.old.items ++ take (until - from) (drop from (play_at (store_of counted.old) row))) }
    ensures kept { OnlyReads (store_of counted.old) (store_of counted.new) }
    ensures reads { reads (store_of counted.new) ≤ reads (store_of counted.old) + (until - from) }
    ensures same_reference { lent counted.new ≡ lent counted.old }
{
    for place in from..until {
        let Some(absence) = counted.absence(row, place) else {
            return Ok(());
        };
        all.push(absence)?;
    }
    Ok(())
}
