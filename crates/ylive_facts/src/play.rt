//! What is in play in a row of what isn't stored: faults that are told of it, and defaults in use.

ghost use Rattle.std.specs.Prelude.{◌≡◌, ◌+◌, ◌*◌, ◌≤◌, ◌∷◌, [], ℕ, Option, true, map, option_map, option_to_list, IfOk, OnOk};
ghost use Rattle.yspec.specs.Forest.{end, node};
ghost use Rattle.yspec.specs.schema.Schema as schemas;
ghost use Rattle.yspec.specs.document.Document.{instances_in};
ghost use Rattle.yschema_model.specs.Layout.{absence_view, amount_view, kind_view, number_of, numbers_of};
ghost use Rattle.yschema_model.specs.View as schema_view;
ghost use Rattle.yschema_model.specs.View.{row_view, label_of, below_of, child_view};
ghost use Rattle.yspec_reach.specs.Sizes.{levels, near_count};
ghost use Rattle.ystore.specs.Store.{reads};
ghost use Rattle.ystore.specs.Views.{store_of, lent};
ghost use Rattle.ystore_tree.specs.Hanging.{Branches, Hangs, tree_of};
ghost use Rattle.ystore_tree.specs.Parts.{OnlyReads};
ghost use Rattle.yspec_play.specs.Absences as spec;
ghost use Rattle.yspec_play.specs.Over as over;
ghost use Rattle.ylive_facts.specs.Given.{given_view, referred};
ghost use Rattle.ylive_facts.specs.InPlay as words;
ghost use Rattle.ylive_facts.specs.Reads.{play_reads};
ghost use Rattle.ylive_facts.specs.Rows.{count_in, listed_in};

use crate::cases::{is_among, or_default, stored_cases};
use crate::given::is_referred;
use crate::rows::count_of;
use std::alloc::{AllocError, Global};
use ycheck::FaultCode;
use yschema_model::{Absence, Amount, Child, Children, Kind, Schema, SchemaId};
use ystore::{Counted, Row};
use ytype::Val;

/// What is told of what isn't stored in a row, each with its schema node, and the defaults in use in it, of schema nodes to
/// which leafrefs refer.
#[derive(Debug, Drop)]
pub struct InPlay {
    pub absences: Vec<ystore::Absence>,
    pub defaults: Vec<(SchemaId, Val)>,
}

impl InPlay {
    ghost use Rattle.std.specs.Prelude.{◌≡◌, ◌∷◌, [], map, option_to_list, OnOk};
    ghost use Rattle.yschema_model.specs.View as schema_view;
    ghost use Rattle.yschema_model.specs.Layout.{absence_view};
    ghost use Rattle.yspec_play.specs.Absences as spec;
    ghost use Rattle.ylive_facts.specs.Given.{referred};
    ghost use Rattle.ylive_facts.specs.InPlay.{absence_views, Gains};

    fn new(alloc: Global) -> InPlay
        ensures absences { result.absences.items ≡ [] }
        ensures defaults { result.defaults.items ≡ [] }
    {
        InPlay {
            absences: Vec::new(alloc),
            defaults: Vec::new(alloc),
        }
    }

    fn tell(&mut self, told: Option<ystore::Absence>) -> Result<(), AllocError>
        ensures { OnOk result (Gains self.old self.new (absence_views (option_to_list told)) []) }
    {
        if let Some(absence) = told {
            self.absences.push(absence)?;
        }
        Ok(())
    }

    /// Adds a default in use, if any leafref refers to its schema node.
    fn give(&mut self, schema: &Schema, id: SchemaId, value: &Val) -> Result<(), AllocError>
        ensures { OnOk result (Gains self.old self.new []
            (referred (schema_view.view schema.now) ((id.0, value.now) ∷ []))) }
    {
        if is_referred(schema, id) {
            self.defaults.push((id, value.clone()?))?;
        }
        Ok(())
    }

    fn give_all(&mut self, schema: &Schema, id: SchemaId, values: &[Val]) -> Result<(), AllocError>
        ensures { OnOk result (Gains self.old self.new []
            (referred (schema_view.view schema.now) (map (λ v. (id.0, v)) values.now))) }
    {
        for value in values {
            self.give(schema, id, value)?;
        }
        Ok(())
    }

    /// Adds what a leaf means that isn't stored.
    fn add_leaf(
        &mut self,
        schema: &Schema,
        id: SchemaId,
        absence: &Absence,
    ) -> Result<(), AllocError>
        ensures { OnOk result (Gains self.old self.new (spec.absent_leaf_told id.0 (absence_view absence.now))
            (referred (schema_view.view schema.now) (spec.absent_leaf_default id.0 (absence_view absence.now)))) }
    {
        match absence {
            Absence::Allowed => Ok(()),
            Absence::DefaultUsed(value) => self.give(schema, id, value),
            Absence::Mandatory => self.tell(Some((FaultCode::V3, id))),
            Absence::Key => self.tell(Some((FaultCode::V2, id))),
        }
    }
}

/// V4 and V5 of a choice, given the cases that have a stored data node.
fn choice_told(
    id: SchemaId,
    is_mandatory: bool,
    with_stored: &[SchemaId],
) -> Option<ystore::Absence>
    ensures { words.absence_views (option_to_list result)
        ≡ spec.choice_told id.0 is_mandatory (numbers_of with_stored.now) }
{
    match with_stored {
        [] => {
            if is_mandatory {
                Some((FaultCode::V4, id))
            } else {
                None
            }
        }
        [_] => None,
        _ => Some((FaultCode::V5, id)),
    }
}

/// V6, else V7, of a list or leaf-list, given how many entries or items it has.
fn amount_told(id: SchemaId, amount: &Amount, count: usize) -> Option<ystore::Absence>
    ensures { words.absence_views (option_to_list result)
        ≡ spec.amount_told id.0 (amount_view amount.now) count }
{
    if count < (amount.min_elements as usize) {
        return Some((FaultCode::V6, id));
    }
    match amount.max_elements {
        Some(most) if (most as usize) < count => Some((FaultCode::V7, id)),
        _ => None,
    }
}

fn wrong_amount(id: SchemaId, kind: &Kind, count: usize) -> Option<ystore::Absence>
    ensures { words.absence_views (option_to_list result)
        ≡ words.wrong_amount id.0 (kind_view kind.now) count }
{
    match kind {
        Kind::LeafList { amount, .. } | Kind::List { amount, .. } => amount_told(id, amount, count),
        _ => None,
    }
}

/// What is in play of what isn't stored in a row, given the schema node above it; none above the top.
pub fn in_play(
    counted: &mut Counted<'_>,
    schema: &Schema,
    row: Row,
    above: Option<SchemaId>,
) -> Result<InPlay, AllocError>
    ensures absences { let s = schema_view.view schema.now in
        IfOk result (λ found. (f : Branches) → Hangs (store_of counted.old) row f
        → words.absence_views found.absences.items
        ≡ spec.absences_in (instances_in (tree_of f)) [] (schemas.row_at s (number_of above))) }
    ensures defaults { let s = schema_view.view schema.now in
        IfOk result (λ found. (f : Branches) → Hangs (store_of counted.old) row f
        → given_view found.defaults.items
        ≡ referred s (spec.defaults_in (instances_in (tree_of f)) [] (schemas.row_at s (number_of above)))) }
    ensures kept { OnlyReads (store_of counted.old) (store_of counted.new) }
    ensures reads { let s = schema_view.view schema.now in reads (store_of counted.new)
        ≤ reads (store_of counted.old) + levels s * near_count (schemas.row_at s (number_of above)) }
    ensures same_reference { lent counted.new ≡ lent counted.old }
{
    let mut found = InPlay::new(counted.alloc());
    let children = row_at(schema, above);
    add_row(counted, schema, Some(row), &[], children, &mut found)?;
    Ok(found)
}

/// What is in play of what isn't stored, of one child of a schema row, in a row; nothing of none.
pub fn in_play_over(
    counted: &mut Counted<'_>,
    schema: &Schema,
    row: Row,
    child: Option<Child<'_>>,
) -> Result<InPlay, AllocError>
    ensures absences { IfOk result (λ found. (f : Branches) → Hangs (store_of counted.old) row f
        → words.absence_views found.absences.items
        ≡ over.told_over (instances_in (tree_of f)) (option_map child_view child.entry)) }
    ensures defaults { let s = schema_view.view schema.now in
        IfOk result (λ found. (f : Branches) → Hangs (store_of counted.old) row f
        → given_view found.defaults.items
        ≡ referred s (over.used_over (instances_in (tree_of f)) (option_map child_view child.entry))) }
    ensures kept { OnlyReads (store_of counted.old) (store_of counted.new) }
    ensures reads { let s = schema_view.view schema.now in (above : Option ℕ) (number : ℕ)
        → option_map child_view child.entry ≡ over.child_over (schemas.row_at s above) number
        → reads (store_of counted.new) ≤ reads (store_of counted.old) + levels s * near_count (schemas.row_at s above) }
    ensures same_reference { lent counted.new ≡ lent counted.old }
{
    let mut found = InPlay::new(counted.alloc());
    if let Some(child) = child {
        add_node(counted, schema, Some(row), &[], child, &mut found)?;
    }
    Ok(found)
}

/// The children of a node, or the top nodes.
fn row_at(schema: &Schema, above: Option<SchemaId>) -> Children<'_>
    ensures { row_view result ≡ schemas.row_at (schema_view.view schema.entry.now) (number_of above) }
{
    match above {
        Some(id) => schema.children(id),
        None => schema.roots(),
    }
}

/// Adds what is in play of a row of schema nodes, of which these cases are chosen, in a row of the store.
#[cycle(plays)]
fn add_row(
    counted: &mut Counted<'_>,
    schema: &Schema,
    row: Option<Row>,
    chosen: &[SchemaId],
    children: Children<'_>,
    found: &mut InPlay,
) -> Result<(), AllocError>
    ensures finds { let stored = count_in (listed_in (store_of counted.old) row) in
        OnOk result (words.FindsRow (schema_view.view schema.now) stored (numbers_of chosen.now)
        (row_view children.entry) found.old found.new) }
    ensures kept { OnlyReads (store_of counted.old) (store_of counted.new) }
    ensures reads { reads (store_of counted.new) ≤ reads (store_of counted.old) + play_reads (row_view children.entry) }
    ensures same_reference { lent counted.new ≡ lent counted.old }
{
    for child in children {
        add_node(counted, schema, row, chosen, child, found)?;
    }
    Ok(())
}

/// Adds what is in play of a node of a row.
#[cycle(plays)]
fn add_node(
    counted: &mut Counted<'_>,
    schema: &Schema,
    row: Option<Row>,
    chosen: &[SchemaId],
    child: Child<'_>,
    found: &mut InPlay,
) -> Result<(), AllocError>
    ensures finds { let stored = count_in (listed_in (store_of counted.old) row) in
        OnOk result (words.FindsNode (schema_view.view schema.now) stored (numbers_of chosen.now)
        (label_of child.entry) (below_of child.entry) found.old found.new) }
    ensures kept { OnlyReads (store_of counted.old) (store_of counted.new) }
    ensures reads { reads (store_of counted.new) ≤ reads (store_of counted.old) + play_reads (node (label_of child.entry) (below_of child.entry) end) }
    ensures same_reference { lent counted.new ≡ lent counted.old }
{
    match &child.node().kind {
        Kind::Choice {
            default_case,
            mandatory,
        } => {
            let with_stored = stored_cases(counted, row, child.children())?;
            found.tell(choice_told(child.id(), *mandatory, &with_stored))?;
            let cases = or_default(with_stored, *default_case)?;
            add_row(counted, schema, row, &cases, child.children(), found)
        }
        Kind::Case => {
            if is_among(chosen, child.id()) {
                add_row(counted, schema, row, &[], child.children(), found)
            } else {
                Ok(())
            }
        }
        _ => add_data(counted, schema, row, child, found),
    }
}

/// Adds what is in play of a data node.
#[cycle(plays)]
fn add_data(
    counted: &mut Counted<'_>,
    schema: &Schema,
    row: Option<Row>,
    child: Child<'_>,
    found: &mut InPlay,
) -> Result<(), AllocError>
    ensures finds { let stored = count_in (listed_in (store_of counted.old) row) in
        let n = label_of child.entry in
        OnOk result (schemas.is_data n.kind ≡ true → (chosen : _)
        → words.FindsNode (schema_view.view schema.now) stored chosen n (below_of child.entry) found.old found.new) }
    ensures kept { OnlyReads (store_of counted.old) (store_of counted.new) }
    ensures reads { reads (store_of counted.new) ≤ reads (store_of counted.old) + play_reads (node (label_of child.entry) (below_of child.entry) end) }
    ensures same_reference { lent counted.new ≡ lent counted.old }
{
    let count = count_of(counted, row, child.id());
    found.tell(wrong_amount(child.id(), &child.node().kind, count))?;
    if count > 0 {
        return Ok(());
    }
    add_absent(counted, schema, child, found)
}

/// Adds what is in play of a data node that isn't stored.
#[cycle(plays)]
fn add_absent(
    counted: &mut Counted<'_>,
    schema: &Schema,
    child: Child<'_>,
    found: &mut InPlay,
) -> Result<(), AllocError>
    ensures finds { OnOk result (words.FindsAbsent (schema_view.view schema.now) (label_of child.entry)
        (below_of child.entry) found.old found.new) }
    ensures kept { OnlyReads (store_of counted.old) (store_of counted.new) }
    ensures reads { 1 + reads (store_of counted.new) ≤ reads (store_of counted.old) + play_reads (node (label_of child.entry) (below_of child.entry) end) }
    ensures same_reference { lent counted.new ≡ lent counted.old }
{
    match &child.node().kind {
        Kind::Container { presence } => {
            if *presence {
                return Ok(());
            }
            add_row(counted, schema, None, &[], child.children(), found)
        }
        Kind::Leaf { absence, .. } => found.add_leaf(schema, child.id(), absence),
        Kind::LeafList { defaults, .. } => found.give_all(schema, child.id(), defaults),
        _ => Ok(()),
    }
}
