//! What stored nodes hold and give, by counted reads.

ghost use Rattle.std.specs.Prelude.{◌≡◌, ◌+◌, ◌*◌, ◌≤◌, ◌++◌, [], ℕ, List, Option, map, option_map, IfOk, OnOk};
ghost use Rattle.std.specs.List.{flat_map};
ghost use Rattle.yspec.specs.Forest.{end, node, size};
ghost use Rattle.yspec.specs.schema.Schema.{row_at};
ghost use Rattle.yschema_model.specs.Layout.{number_of};
ghost use Rattle.yschema_model.specs.View as schema_view;
ghost use Rattle.yschema_model.specs.View.{child_view};
ghost use Rattle.yspec_play.specs.Over.{child_over};
ghost use Rattle.yspec_reach.specs.Sizes.{levels, near_count, weight};
ghost use Rattle.ystore.specs.Store.{node_count, reads};
ghost use Rattle.ystore.specs.Views.{store_of, lent};
ghost use Rattle.ystore_rows.specs.declared.row.Row as rows;
ghost use Rattle.ystore_rows.specs.declared.row.Row.TheVariants.{Top, Below};
ghost use Rattle.ystore_tree.specs.Hanging.{Branches, Hangs, Stands, stored_of, tree_of};
ghost use Rattle.ystore_tree.specs.Copies.{ids_of};
ghost use Rattle.ystore_tree.specs.Parts.{OnlyReads};
ghost use Rattle.ystore_tree.specs.Ways.{Way, around, end_of};
ghost use Rattle.ylive_facts.specs.Given.{given_view};
ghost use Rattle.ylive_facts.specs.InPlay.{absence_views};
ghost use Rattle.ylive_facts.specs.Keys.{holdings};
ghost use Rattle.ylive_facts.specs.Reads.{names_of};
ghost use Rattle.ylive_retell.specs.Reads.{nodes_reads, way_reads};
ghost use Rattle.ylive_retell.specs.Standing as words;
ghost use Rattle.ylive_retell.specs.Standing.{Standing};
ghost use Rattle.ylive_retell.specs.Accounts.{Enters, StandsThere, news_of, news_view};

use std::alloc::{AllocError, Global};
use ylive_facts::{InPlay, in_play, in_play_over, judged_of, keys_of, own_value_of};
use yschema_model::{Child, Schema, SchemaId};
use ystore::{Absence, Counted, Judged, Key, NodeId, Row};
use ytype::Val;

/// The keys that some nodes hold, each with the node, and the values that they and what is in use below them give to schema
/// nodes to which leafrefs refer.
#[derive(Debug, Drop)]
pub struct Account {
    pub keys: Vec<(Key, NodeId)>,
    pub values: Vec<(SchemaId, Val)>,
}

/// What is to be told of a new node.
#[derive(Debug, Drop)]
pub struct News {
    pub id: NodeId,
    pub judged: Judged,
    pub absences: Vec<Absence>,
}

impl Account {
    ghost use Rattle.std.specs.Prelude.{◌≡◌, []};

    /// Nothing yet.
    pub fn new(alloc: Global) -> Account
        ensures keys { result.keys.items ≡ [] }
        ensures values { result.values.items ≡ [] }
    {
        Account {
            keys: Vec::new(alloc),
            values: Vec::new(alloc),
        }
    }
}

/// Enters what a node holds and gives, and answers what is told of what isn't stored right below it.
pub fn enter_node(
    counted: &mut Counted<'_>,
    schema: &Schema,
    id: NodeId,
    account: &mut Account,
) -> Result<Vec<Absence>, AllocError>
    ensures node { let s = schema_view.view schema.now in
        IfOk result (λ told. (n : Standing) → StandsThere (store_of counted.old) id n
        → Enters account.old account.new (words.keys_held s n) (words.values_given s n)) }
    ensures absences { let s = schema_view.view schema.now in
        IfOk result (λ told. (n : Standing) → StandsThere (store_of counted.old) id n
        → absence_views told.items ≡ words.absences_there s n) }
    ensures kept { OnlyReads (store_of counted.old) (store_of counted.new) }
    ensures reads { let s = schema_view.view schema.now in (n : Standing) → StandsThere (store_of counted.old) id n
        → reads (store_of counted.new) ≤ reads (store_of counted.old) + (levels s + 7) * weight s (stored_of n.label) }
    ensures same_reference { lent counted.new ≡ lent counted.old }
{
    enter_above(counted, schema, id, &mut account.keys)?;
    own_value_of(counted, schema, id, &mut account.values)?;
    let of = counted.schema(id);
    let told = enter_row(counted, schema, Row::Below(id), of, account)?;
    Ok(told)
}

/// Enters the defaults in use in a row, and answers what is told of what isn't stored in it.
pub fn enter_row(
    counted: &mut Counted<'_>,
    schema: &Schema,
    row: Row,
    of: Option<SchemaId>,
    account: &mut Account,
) -> Result<Vec<Absence>, AllocError>
    ensures row { let s = schema_view.view schema.now in
        IfOk result (λ told. (f : Branches) → Hangs (store_of counted.old) row f
        → Enters account.old account.new [] (words.defaults_in_row s (number_of of) (tree_of f))) }
    ensures absences { let s = schema_view.view schema.now in
        IfOk result (λ told. (f : Branches) → Hangs (store_of counted.old) row f
        → absence_views told.items ≡ words.absences_in_row s (number_of of) (tree_of f)) }
    ensures kept { OnlyReads (store_of counted.old) (store_of counted.new) }
    ensures reads { let s = schema_view.view schema.now in
        reads (store_of counted.new) ≤ reads (store_of counted.old) + levels s * near_count (row_at s (number_of of)) }
    ensures same_reference { lent counted.new ≡ lent counted.old }
{
    let InPlay {
        absences,
        mut defaults,
    } = in_play(counted, schema, row, of)?;
    account.values.append(&mut defaults)?;
    Ok(absences)
}

/// The same of one child of the schema row.
pub fn enter_child(
    counted: &mut Counted<'_>,
    schema: &Schema,
    row: Row,
    child: Option<Child<'_>>,
    account: &mut Account,
) -> Result<Vec<Absence>, AllocError>
    ensures row { let s = schema_view.view schema.now in
        IfOk result (λ told. (f : Branches) → Hangs (store_of counted.old) row f
        → Enters account.old account.new [] (words.defaults_over s (option_map child_view child.entry) (tree_of f))) }
    ensures absences { IfOk result (λ told. (f : Branches) → Hangs (store_of counted.old) row f
        → absence_views told.items ≡ words.absences_over (option_map child_view child.entry) (tree_of f)) }
    ensures kept { OnlyReads (store_of counted.old) (store_of counted.new) }
    ensures reads { let s = schema_view.view schema.now in (above : Option ℕ) (number : ℕ)
        → option_map child_view child.entry ≡ child_over (row_at s above) number
        → reads (store_of counted.new) ≤ reads (store_of counted.old) + levels s * near_count (row_at s above) }
    ensures same_reference { lent counted.new ≡ lent counted.old }
{
    let InPlay {
        absences,
        mut defaults,
    } = in_play_over(counted, schema, row, child)?;
    account.values.append(&mut defaults)?;
    Ok(absences)
}

/// Enters what nodes hold and give.
pub fn enter_nodes(
    counted: &mut Counted<'_>,
    schema: &Schema,
    numbers: &[NodeId],
    account: &mut Account,
) -> Result<(), AllocError>
    ensures nodes { let s = schema_view.view schema.now in
        OnOk result ((above : rows.Row) (f : Branches) → Stands (store_of counted.old) above f
        → ids_of f ≡ numbers.now
        → Enters account.old account.new (words.all_held s above f) (words.all_given s above f)) }
    ensures kept { OnlyReads (store_of counted.old) (store_of counted.new) }
    ensures reads { let s = schema_view.view schema.now in (above : rows.Row) (f : Branches) → Stands (store_of counted.old) above f
        → ids_of f ≡ numbers.now → reads (store_of counted.new) ≤ reads (store_of counted.old) + nodes_reads s 7 f }
    ensures same_reference { lent counted.new ≡ lent counted.old }
{
    for id in numbers {
        enter_node(counted, schema, *id, account)?;
    }
    Ok(())
}

/// Enters what new nodes hold and give, and answers what is to be told of each.
pub fn enter_new_nodes(
    counted: &mut Counted<'_>,
    schema: &Schema,
    numbers: &[NodeId],
    account: &mut Account,
) -> Result<Vec<News>, AllocError>
    ensures nodes { let s = schema_view.view schema.now in
        IfOk result (λ news. (above : rows.Row) (f : Branches) → Stands (store_of counted.old) above f
        → ids_of f ≡ numbers.now
        → Enters account.old account.new (words.all_held s above f) (words.all_given s above f)) }
    ensures news { let s = schema_view.view schema.now in
        IfOk result (λ news. (above : rows.Row) (f : Branches) → Stands (store_of counted.old) above f
        → ids_of f ≡ numbers.now
        → map news_view news.items ≡ map (news_of s) (words.standing above f)) }
    ensures kept { OnlyReads (store_of counted.old) (store_of counted.new) }
    ensures reads { let s = schema_view.view schema.now in (above : rows.Row) (f : Branches) → Stands (store_of counted.old) above f
        → ids_of f ≡ numbers.now → reads (store_of counted.new) ≤ reads (store_of counted.old) + nodes_reads s 9 f }
    ensures same_reference { lent counted.new ≡ lent counted.old }
{
    let mut all = Vec::with_capacity(counted.alloc(), numbers.len())?;
    for id in numbers {
        let absences = enter_node(counted, schema, *id, account)?;
        let judged = judged_of(counted, schema, *id)?;
        all.push(News {
            id: *id,
            judged,
            absences,
        })?;
    }
    Ok(all)
}

/// Enters the keys that the nodes on the way to a row hold, from the nearest up.
pub fn enter_way(
    counted: &mut Counted<'_>,
    schema: &Schema,
    row: Row,
    keys: &mut Vec<(Key, NodeId)>,
) -> Result<(), AllocError>
    ensures way { let s = schema_view.view schema.now in
        OnOk result ((way : Way) (f : Branches) → Hangs (store_of counted.old) Top (around way f)
        → end_of Top way ≡ row → size (around way f) ≤ node_count (store_of counted.old)
        → holdings keys.new.items ≡ holdings keys.old.items ++ words.way_held s Top way f) }
    ensures kept { OnlyReads (store_of counted.old) (store_of counted.new) }
    ensures reads { let s = schema_view.view schema.now in (way : Way) (f : Branches)
        → Hangs (store_of counted.old) Top (around way f) → end_of Top way ≡ row → size (around way f) ≤ node_count (store_of counted.old)
        → reads (store_of counted.new) ≤ reads (store_of counted.old) + way_reads s way }
    ensures same_reference { lent counted.new ≡ lent counted.old }
{
    let levels = counted.node_count();
    let mut here = row;
    for _level in 0..levels {
        match here {
            Row::Top => return Ok(()),
            Row::Below(id) => here = enter_above(counted, schema, id, keys)?,
        }
    }
    Ok(())
}

/// Enters the keys that a node holds, and answers the row in which it stands.
fn enter_above(
    counted: &mut Counted<'_>,
    schema: &Schema,
    id: NodeId,
    keys: &mut Vec<(Key, NodeId)>,
) -> Result<Row, AllocError>
    ensures above { IfOk result (λ above. (n : Standing) → StandsThere (store_of counted.old) id n
        → above ≡ n.row) }
    ensures held { let s = schema_view.view schema.now in
        IfOk result (λ above. (n : Standing) → StandsThere (store_of counted.old) id n
        → holdings keys.new.items ≡ holdings keys.old.items ++ words.keys_held s n) }
    ensures kept { OnlyReads (store_of counted.old) (store_of counted.new) }
    ensures reads { let s = schema_view.view schema.now in (n : Standing) → StandsThere (store_of counted.old) id n
        → reads (store_of counted.new) ≤ reads (store_of counted.old) + (4 + (levels s + 4) * names_of s n.label.schema.0) }
    ensures same_reference { lent counted.new ≡ lent counted.old }
{
    let Some(above) = counted.parent(id) else {
        return Ok(Row::Top);
    };
    keys_of(counted, schema, above, id, keys)?;
    Ok(above)
}
