//! A change of a row of a document, and of all that is told of it.

ghost use Rattle.std.specs.Prelude.{◌≡◌, ◌≤◌, ◌^◌, ◌+◌, ℕ, Option, OnErr, OnOk};
ghost use Rattle.yspec.specs.Forest.{end, size};
ghost use Rattle.yspec.specs.schema.Schema as spec;
ghost use Rattle.yspec.specs.schema.Schema.{row_at};
ghost use Rattle.yschema_model.specs.View as schema_view;
ghost use Rattle.ystore_rows.specs.declared.row.Row.{Row};
ghost use Rattle.ystore.specs.Store.{instances_at, reads, same_key};
ghost use Rattle.ystore.specs.Views.{store_of, lent};
ghost use Rattle.ystore.specs.declared.key.Key as rust;
ghost use Rattle.ystore_tree.specs.Hanging.{Branches, Keeps};
ghost use Rattle.ystore_tree.specs.Copies.{ids_of};
ghost use Rattle.ystore_tree.specs.Ways.{around, end_of};
ghost use Rattle.ystore_rows.specs.declared.row.Row.TheVariants.{Top};
ghost use Rattle.ylive_marks.specs.Keys.{Agrees, Keys, slot_of};
ghost use Rattle.ylive_marks.specs.Totals.{IsTree, Totals};
ghost use Rattle.ylive_retell.specs.Assigned.{CanLeave, left};
ghost use Rattle.ylive_retell.specs.Growing.{AreAwaited, AreThere, times_valued};
ghost use Rattle.ylive_retell.specs.Joins.{Follows, KeepsAwaited, KeepsRows, WithdrawsValues};
ghost use Rattle.ylive_retell.specs.IsTold.{IsFresh, IsTold};
ghost use Rattle.ylive_retell.specs.Reads.{IsNarrow, change_reads, moved_pairs, row_reads, withdraw_reads};
ghost use Rattle.ylive_retell.specs.Plans.{IsReady, Plans, Prepared};
ghost use Rattle.ylive_retell.specs.Standing.{Every, standing};

use crate::changing::change_row;
use crate::growing::grow;
use crate::joining::{join_all, leave_all};
use crate::planning::{Plan, plan_of};
use crate::telling::tell_all;
use crate::tidying::tidy_all;
use crate::values::{add_all, take_all};
use std::alloc::AllocError;
use yschema_model::{Schema, SchemaId};
use ystore::{Counted, Key, NodeId};
use ystore_tree::Swap;
use ytype::Val;

/// Changes a row of a document, given the numbers of the nodes that go and of those that come, and all that is told of it. Where
/// memory is wanting the document and what is told of it are as they were, and there may be more room than before.
pub fn retell(
    counted: &mut Counted<'_>,
    schema: &Schema,
    swap: Swap,
    old: &[NodeId],
    new: &[NodeId],
) -> Result<(), AllocError>
    requires { Prepared swap (store_of counted.old) old.now new.now }
    ensures told { let s = schema_view.view schema.now in (p : Prepared swap (store_of counted.old) old.now new.now)
        → IsTold s (store_of counted.old) (around p.ready.way p.ready.f)
        → Every (IsFresh s (store_of counted.old)) (standing (end_of Top p.ready.way) p.ready.loose)
        → size (around p.ready.way p.ready.g) ≤ 2 ^ 28
        → OnOk result (IsTold s (store_of counted.new) (around p.ready.way p.ready.g)) }
    ensures keeps { (p : Prepared swap (store_of counted.old) old.now new.now)
        → OnOk result (Keeps (store_of counted.new) (around p.ready.way p.ready.g) swap.above end) }
    ensures reads { let s = schema_view.view schema.now in (p : Prepared swap (store_of counted.old) old.now new.now)
        → IsTold s (store_of counted.old) (around p.ready.way p.ready.f)
        → Every (IsFresh s (store_of counted.old)) (standing (end_of Top p.ready.way) p.ready.loose)
        → size (around p.ready.way p.ready.g) ≤ 2 ^ 28
        → IsNarrow s p.ready.way p.ready.f p.ready.g
        → OnOk result (reads (store_of counted.new) ≤ reads (store_of counted.old)
        + row_reads s p.ready.loose p.ready.left (moved_pairs s p.ready.way p.ready.f p.ready.loose p.ready.g p.ready.left)) }
    ensures told_still { OnErr result ((s : spec.Schema) (f : Branches) → IsTold s (store_of counted.old) f → IsTold s (store_of counted.new) f) }
    ensures keeps_still { OnErr result ((tree : Branches) (above : Row) (loose : Branches) → Keeps (store_of counted.old) tree above loose
        → Keeps (store_of counted.new) tree above loose) }
    ensures same_reference { lent counted.new ≡ lent counted.old }
{
    let plan = plan_of(counted, schema, swap, old, new)?;
    grow(counted, &plan)?;
    change(counted, swap, plan, old);
    Ok(())
}

/// Changes a row as planned, and all that is told of the document; nothing grows. These are the numbers of the nodes that go.
pub fn change(counted: &mut Counted<'_>, swap: Swap, plan: Plan, old: &[NodeId])
    requires ready { IsReady swap (store_of counted.old) }
    requires awaited { AreAwaited (store_of counted.old) plan.joins.items }
    ensures keeps { (r : IsReady swap (store_of counted.old)) → ids_of r.left ≡ old.now
        → Keeps (store_of counted.new) (around r.way r.g) swap.above end }
    ensures told { (schema : spec.Schema) (r : IsReady swap (store_of counted.old)) → ids_of r.left ≡ old.now
        → IsTold schema (store_of counted.old) (around r.way r.f)
        → Every (IsFresh schema (store_of counted.old)) (standing (end_of Top r.way) r.loose)
        → Plans schema r.way r.f r.loose r.g r.left plan
        → AreThere (store_of counted.old) plan.comes.items
        → size (around r.way r.g) ≤ 2 ^ 28 → ((above : Option ℕ) → size (row_at schema above) ≤ 2 ^ 32)
        → IsTold schema (store_of counted.new) (around r.way r.g) }
    ensures reads { (schema : spec.Schema) (r : IsReady swap (store_of counted.old)) → ids_of r.left ≡ old.now
        → (is : IsTold schema (store_of counted.old) (around r.way r.f))
        → Every (IsFresh schema (store_of counted.old)) (standing (end_of Top r.way) r.loose)
        → Plans schema r.way r.f r.loose r.g r.left plan
        → AreThere (store_of counted.old) plan.comes.items
        → size (around r.way r.g) ≤ 2 ^ 28 → ((above : Option ℕ) → size (row_at schema above) ≤ 2 ^ 32)
        → reads (store_of counted.new) ≤ reads (store_of counted.old)
        + change_reads (instances_at (store_of counted.old)) (left slot_of plan.leaves.items is.held) plan r.way r.f r.g }
    ensures same_reference { lent counted.new ≡ lent counted.old }
{
    let Plan {
        leaves,
        joins,
        goes,
        comes,
        absences,
        news,
    } = plan;
    withdraw(counted, &leaves, comes, goes);
    change_row(counted, swap, absences, old);
    tell_all(counted, news);
    join_all(counted, &joins);
    tidy_all(counted, &leaves);
}

/// Nodes leave their keys, and instances come and go; the document and what no key tells of it stay.
fn withdraw(
    counted: &mut Counted<'_>,
    leaves: &[(Key, NodeId)],
    comes: Vec<(SchemaId, Val)>,
    goes: Vec<(SchemaId, Val)>,
)
    ensures follows { WithdrawsValues (store_of counted.old) comes.items goes.items → (held : Keys) (f : Branches) → IsTree (store_of counted.old) f
        → Agrees (store_of counted.old) held f → Totals (store_of counted.old) f
        → CanLeave slot_of same_key held leaves.now
        → Follows (left slot_of leaves.now held) f (store_of counted.old) (store_of counted.new) }
    ensures reads { WithdrawsValues (store_of counted.old) comes.items goes.items → (held : Keys) (f : Branches) → IsTree (store_of counted.old) f
        → Agrees (store_of counted.old) held f → Totals (store_of counted.old) f
        → CanLeave slot_of same_key held leaves.now
        → reads (store_of counted.new) ≤ reads (store_of counted.old)
        + withdraw_reads (instances_at (store_of counted.old)) (left slot_of leaves.now held) leaves.now comes.items goes.items f }
    ensures instances { WithdrawsValues (store_of counted.old) comes.items goes.items → (key : rust.Key)
        → instances_at (store_of counted.new) key + times_valued key goes.items ≡ instances_at (store_of counted.old) key + times_valued key comes.items }
    ensures kept { KeepsRows (store_of counted.old) (store_of counted.new) }
    ensures awaited { KeepsAwaited (store_of counted.old) (store_of counted.new) }
    ensures same_reference { lent counted.new ≡ lent counted.old }
{
    leave_all(counted, leaves);
    add_all(counted, comes);
    take_all(counted, goes);
}
