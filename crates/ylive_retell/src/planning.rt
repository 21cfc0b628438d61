//! What a change of a row changes of what is told.

ghost use Rattle.std.specs.Prelude.{◌≡◌, ◌+◌, ◌*◌, ◌≤◌, ◌++◌, ℕ, Option, None, drop, length, option_map, IfOk, OnOk};
ghost use Rattle.yspec.specs.Forest.{size};
ghost use Rattle.yspec.specs.schema.Schema.{row_at};
ghost use Rattle.yschema_model.specs.Layout.{number_of};
ghost use Rattle.yschema_model.specs.View as schema_view;
ghost use Rattle.yschema_model.specs.View.{child_view};
ghost use Rattle.yspec_play.specs.Over as over;
ghost use Rattle.yspec_reach.specs.Sizes.{levels, near_count};
ghost use Rattle.ystore.specs.Store.{node_count, play_at, reads};
ghost use Rattle.ystore.specs.Views.{store_of, lent};
ghost use Rattle.ystore_rows.specs.declared.row.Row.TheVariants.{Top};
ghost use Rattle.ystore_tree.specs.Hanging.{Branches, Hangs, tree_of};
ghost use Rattle.ystore_tree.specs.Parts.{OnlyReads};
ghost use Rattle.ystore_tree.specs.Ways.{Way, around, end_of};
ghost use Rattle.ylive_facts.specs.InPlay.{absence_views};
ghost use Rattle.ylive_retell.specs.Reads.{plan_reads, way_reads};
ghost use Rattle.ylive_retell.specs.Standing as words;
ghost use Rattle.ylive_retell.specs.Accounts.{Enters};
ghost use Rattle.ylive_retell.specs.Plans.{IsReady, Prepared, Plans, row_schema};

use crate::account::{Account, News, enter_child, enter_new_nodes, enter_nodes, enter_way};
use crate::instead::told_instead;
use crate::staying::staying;
use std::alloc::AllocError;
use ylive_facts::child_over;
use yschema_model::{Child, Schema, SchemaId};
use ystore::{Absence, Counted, Key, NodeId, Row};
use ystore_tree::Swap;
use ytype::Val;

/// What is to be told of a document once a row of it is changed.
#[derive(Debug, Drop)]
pub struct Plan {
    /// The keys that are left, each by a node that goes or that stands above the row; of the latter those that stay may be
    /// left out.
    pub leaves: Vec<(Key, NodeId)>,
    /// The keys that are joined then, by nodes that come and those above the row, but for those that stay.
    pub joins: Vec<(Key, NodeId)>,
    /// The values of instances that go, and of defaults in use in the row before, but for some that stay.
    pub goes: Vec<(SchemaId, Val)>,
    /// The values of instances that come, and of defaults in use in the row then, but for those.
    pub comes: Vec<(SchemaId, Val)>,
    /// What is told then of what isn't stored in the row.
    pub absences: Vec<Absence>,
    /// What is told of the nodes that come.
    pub news: Vec<News>,
}

/// The plan of a change of a row, given the numbers of the nodes that go and of those that come. The row is changed for a
/// while, and is as it was then. What is in play of it is looked at for one child of its schema row: the one that is the
/// schema node of these nodes, or that is above it.
pub fn plan_of(
    counted: &mut Counted<'_>,
    schema: &Schema,
    swap: Swap,
    old: &[NodeId],
    new: &[NodeId],
) -> Result<Plan, AllocError>
    requires { Prepared swap (store_of counted.old) old.now new.now }
    ensures plan { let s = schema_view.view schema.now in (p : Prepared swap (store_of counted.old) old.now new.now)
        → absence_views (play_at (store_of counted.old) swap.above) ≡ words.absences_in_row s (row_schema None p.ready.way) (tree_of p.ready.f)
        → IfOk result (Plans s p.ready.way p.ready.f p.ready.loose p.ready.g p.ready.left) }
    ensures kept { OnlyReads (store_of counted.old) (store_of counted.new) }
    ensures reads { let s = schema_view.view schema.now in (p : Prepared swap (store_of counted.old) old.now new.now)
        → reads (store_of counted.new) ≤ reads (store_of counted.old)
        + (plan_reads s (row_schema None p.ready.way) p.ready.way p.ready.left p.ready.loose + 2 * length (play_at (store_of counted.old) swap.above)) }
    ensures same_reference { lent counted.new ≡ lent counted.old }
{
    let mut gone = Account::new(counted.alloc());
    let mut before = Account::new(counted.alloc());
    let mut come = Account::new(counted.alloc());
    let mut after = Account::new(counted.alloc());
    let of = schema_above(counted, swap.above);
    let child = child_over(schema, of, swap.schema);
    enter_nodes(counted, schema, old, &mut gone)?;
    let was = enter_place(counted, schema, swap.above, child, &mut before)?;
    let news = enter_new_nodes(counted, schema, new, &mut come)?;
    let told = enter_changed(counted, schema, swap, child, &mut after)?;
    let absences = told_instead(counted, swap.above, child, was.len(), told)?;
    let stay = staying(&before.keys, &after.keys);
    add_account(&mut gone, before, stay)?;
    add_account(&mut come, after, stay)?;
    Ok(Plan {
        leaves: gone.keys,
        joins: come.keys,
        goes: gone.values,
        comes: come.values,
        absences,
        news,
    })
}

/// The schema node above a row; none above the top.
fn schema_above(counted: &mut Counted<'_>, row: Row) -> Option<SchemaId>
    ensures schema { (way : Way) (f : Branches) → Hangs (store_of counted.old) Top (around way f)
        → end_of Top way ≡ row → number_of result ≡ row_schema None way }
    ensures kept { OnlyReads (store_of counted.old) (store_of counted.new) }
    ensures reads { reads (store_of counted.new) ≤ reads (store_of counted.old) + 1 }
    ensures same_reference { lent counted.new ≡ lent counted.old }
{
    match row {
        Row::Top => None,
        Row::Below(id) => counted.schema(id),
    }
}

/// Adds what another account has to an account, but for so many of its first keys.
fn add_account(account: &mut Account, other: Account, first: usize) -> Result<(), AllocError>
    requires { first ≤ length other.keys.items }
    ensures keys { OnOk result (account.new.keys.items ≡ account.old.keys.items ++ drop first other.keys.items) }
    ensures values { OnOk result (account.new.values.items ≡ account.old.values.items ++ other.values.items) }
{
    let Account {
        mut keys,
        mut values,
    } = other;
    account.keys.append(&mut keys.split_off(first)?)?;
    account.values.append(&mut values)?;
    Ok(())
}

/// Enters the defaults in use of one child of a schema row in a row, and the keys of the nodes above that, and answers what is
/// told of what isn't stored of the child.
fn enter_place(
    counted: &mut Counted<'_>,
    schema: &Schema,
    row: Row,
    child: Option<Child<'_>>,
    account: &mut Account,
) -> Result<Vec<Absence>, AllocError>
    ensures place { let s = schema_view.view schema.now in
        IfOk result (λ told. (way : Way) (f : Branches) → Hangs (store_of counted.old) Top (around way f)
        → end_of Top way ≡ row → size (around way f) ≤ node_count (store_of counted.old)
        → Enters account.old account.new (words.way_held s Top way f) (words.defaults_over s (option_map child_view child.entry) (tree_of f))) }
    ensures absences { IfOk result (λ told. (f : Branches) → Hangs (store_of counted.old) row f
        → absence_views told.items ≡ words.absences_over (option_map child_view child.entry) (tree_of f)) }
    ensures kept { OnlyReads (store_of counted.old) (store_of counted.new) }
    ensures reads { let s = schema_view.view schema.now in (above : Option ℕ) (number : ℕ) (way : Way) (f : Branches)
        → option_map child_view child.entry ≡ over.child_over (row_at s above) number → Hangs (store_of counted.old) Top (around way f)
        → end_of Top way ≡ row → size (around way f) ≤ node_count (store_of counted.old)
        → reads (store_of counted.new) ≤ reads (store_of counted.old) + (levels s * near_count (row_at s above) + way_reads s way) }
    ensures same_reference { lent counted.new ≡ lent counted.old }
{
    let absences = enter_child(counted, schema, row, child, account)?;
    enter_way(counted, schema, row, &mut account.keys)?;
    Ok(absences)
}

/// The same of a row that is changed for a while.
fn enter_changed(
    counted: &mut Counted<'_>,
    schema: &Schema,
    swap: Swap,
    child: Option<Child<'_>>,
    account: &mut Account,
) -> Result<Vec<Absence>, AllocError>
    requires { IsReady swap (store_of counted.old) }
    ensures place { let s = schema_view.view schema.now in
        (r : IsReady swap (store_of counted.old)) → IfOk result (λ told.
        Enters account.old account.new (words.way_held s Top r.way r.g) (words.defaults_over s (option_map child_view child.entry) (tree_of r.g))) }
    ensures absences { (r : IsReady swap (store_of counted.old)) → IfOk result (λ told.
        absence_views told.items ≡ words.absences_over (option_map child_view child.entry) (tree_of r.g)) }
    ensures kept { OnlyReads (store_of counted.old) (store_of counted.new) }
    ensures reads { let s = schema_view.view schema.now in (r : IsReady swap (store_of counted.old)) (above : Option ℕ) (number : ℕ)
        → option_map child_view child.entry ≡ over.child_over (row_at s above) number
        → reads (store_of counted.new) ≤ reads (store_of counted.old) + (levels s * near_count (row_at s above) + way_reads s r.way) }
    ensures same_reference { lent counted.new ≡ lent counted.old }
{
    swap.make(counted);
    let told = enter_place(counted, schema, swap.above, child, account);
    swap.undo(counted);
    told
}
