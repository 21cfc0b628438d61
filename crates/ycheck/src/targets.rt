//! The values that the targets of leafrefs have (RFC 7950, 9.9).

ghost use Rattle.std.specs.Prelude.{◌≡◌, ◌||◌, ◌==◌, true, [], ◌∷◌, Some, OnOk, if◌then◌else◌};
ghost use Rattle.yspec.specs.Forest.{end, node};
ghost use Rattle.yspec.specs.schema.Schema as spec;
ghost use Rattle.yspec.specs.document.Document.{instances_in};
ghost use Rattle.yspec.specs.document.Sorting.{IsSorted};
ghost use Rattle.yschema_model.specs.Layout.{number_of, absence_view, leaf_type_view, targets_view};
ghost use Rattle.yschema_model.specs.View as schema_view;
ghost use Rattle.yinst_tree.specs.View as document_view;
ghost use Rattle.ycheck.specs.Cases.{Chooses};
ghost use Rattle.ycheck.specs.Targets as words;

use crate::cases::{Chosen, StoredCases, is_stored};
use crate::values::value_of;
use std::alloc::{AllocError, Global};
use std::collections::{BTreeMap, BTreeSet};
use yinst_tree::{Stored, Tree, instances_of};
use yschema_model::{Absence, Child, Children, Kind, LeafType, MemberTargets, Schema, SchemaId};
use ytype::Val;

/// For each schema node that a leafref requires an instance of, the values that its instances have, defaults in use
/// included.
#[derive(Drop)]
pub(crate) struct Targets {
    sets: BTreeMap<SchemaId, BTreeSet<Val>>,
}

impl Targets {
    ghost use Rattle.std.specs.Prelude.{◌≡◌, ◌||◌, ◌==◌, IfOk, OnOk};
    ghost use Rattle.yspec.specs.document.Sorting.{IsSorted};
    ghost use Rattle.yschema_model.specs.View as schema_view;
    ghost use Rattle.yinst_tree.specs.View as document_view;
    ghost use Rattle.ycheck.specs.Targets.{is_kept, holds, one_value, HasValues, HoldsSame, Gathers};

    /// The values that a document has. Nothing is walked where no leafref requires an instance.
    pub(crate) fn of(alloc: Global, schema: &Schema, tree: &Tree) -> Result<Targets, AllocError>
        ensures { let s = schema_view.view schema.now in let t = document_view.tree_view tree.now in
            IfOk result (λ targets. IsSorted t → HasValues targets s t) }
    {
        let mut targets = Targets {
            sets: BTreeMap::new(alloc),
        };
        keep_targets(alloc, schema.roots(), &mut targets)?;
        if !targets.sets.is_empty() {
            add_row(alloc, schema, schema.roots(), tree.roots(), &mut targets)?;
        }
        Ok(targets)
    }

    /// Whether an instance of a target has a value.
    pub(crate) fn has(&self, target: SchemaId, value: &Val) -> bool
        ensures { result ≡ holds self.now target.0 value.now }
    {
        match self.sets.get(&target) {
            Some(values) => values.contains(value),
            None => false,
        }
    }

    fn is_kept(&self, id: SchemaId) -> bool
        ensures { result ≡ is_kept self.now id.0 }
    {
        self.sets.contains_key(&id)
    }

    /// Keeps the values of a schema node from now on.
    fn keep(&mut self, alloc: Global, id: SchemaId) -> Result<(), AllocError>
        ensures kept { OnOk result ((number : _) → is_kept self.new number
            ≡ (is_kept self.old number || id.0 == number)) }
        ensures held { OnOk result (HoldsSame self.old self.new) }
    {
        if !self.is_kept(id) {
            self.sets.insert(id, BTreeSet::new(alloc))?;
        }
        Ok(())
    }

    /// Adds a value of an instance of a schema node, where its values are kept.
    fn add(&mut self, id: SchemaId, value: Val) -> Result<(), AllocError>
        ensures { OnOk result (Gathers self.old self.new (one_value id.0 value)) }
    {
        if let Some(values) = self.sets.get_mut(&id) {
            values.insert(value)?;
        }
        Ok(())
    }
}

/// Keeps the values of the schema nodes to which these or those below them refer.
fn keep_targets(
    alloc: Global,
    children: Children<'_>,
    targets: &mut Targets,
) -> Result<(), AllocError>
    ensures kept { OnOk result ((number : _) → words.is_kept targets.new number
        ≡ (words.is_kept targets.old number
        || words.is_target_in (schema_view.row_view children.entry) number)) }
    ensures held { OnOk result (words.HoldsSame targets.old targets.new) }
{
    for child in children {
        keep_target(alloc, child, targets)?;
        keep_targets(alloc, child.children(), targets)?;
    }
    Ok(())
}

/// Keeps the values of the schema nodes to which a node refers.
fn keep_target(alloc: Global, child: Child<'_>, targets: &mut Targets) -> Result<(), AllocError>
    ensures kept { OnOk result ((number : _) → words.is_kept targets.new number
        ≡ (words.is_kept targets.old number
        || words.refers_to number (schema_view.label_of child.entry))) }
    ensures held { OnOk result (words.HoldsSame targets.old targets.new) }
{
    keep_of_kind(alloc, &child.node().kind, targets)
}

fn keep_of_kind(alloc: Global, kind: &Kind, targets: &mut Targets) -> Result<(), AllocError>
    ensures kept { OnOk result (words.KeepsMore targets.old targets.new
        (words.required_targets (schema_view.kind_view kind.now))) }
    ensures held { OnOk result (words.HoldsSame targets.old targets.new) }
{
    match kind.leaf_type() {
        Some(leaf_type) => keep_of_type(alloc, leaf_type, targets),
        None => Ok(()),
    }
}

/// Keeps the values of the schema nodes to which values of a type refer, where instances are required.
fn keep_of_type(
    alloc: Global,
    leaf_type: &LeafType,
    targets: &mut Targets,
) -> Result<(), AllocError>
    ensures kept { OnOk result (words.KeepsMore targets.old targets.new
        (words.required_in (leaf_type_view leaf_type.now))) }
    ensures held { OnOk result (words.HoldsSame targets.old targets.new) }
{
    let is_required = leaf_type.value_type.requires_instance().unwrap_or(false);
    keep_where(alloc, is_required, leaf_type.target, targets)?;
    keep_members(alloc, &leaf_type.targets, targets)
}

/// Keeps the values of those to which members of a union refer.
fn keep_members(
    alloc: Global,
    all: &[MemberTargets],
    targets: &mut Targets,
) -> Result<(), AllocError>
    ensures kept { OnOk result (words.KeepsMore targets.old targets.new
        (words.required_by_members (targets_view all.now))) }
    ensures held { OnOk result (words.HoldsSame targets.old targets.new) }
{
    for members in all {
        keep_each(alloc, *members, targets)?;
    }
    Ok(())
}

fn keep_each(alloc: Global, members: MemberTargets, targets: &mut Targets) -> Result<(), AllocError>
    ensures kept { OnOk result (words.KeepsMore targets.old targets.new
        (words.required_by_members (targets_view (members ∷ [])))) }
    ensures held { OnOk result (words.HoldsSame targets.old targets.new) }
{
    match members {
        MemberTargets::Own(_) => Ok(()),
        MemberTargets::One {
            target,
            is_required,
        } => keep_where(alloc, is_required, Some(target), targets),
        MemberTargets::All {
            target,
            count,
            is_required,
        } => keep_all(alloc, target, count, is_required, targets),
    }
}

/// Keeps the values of a schema node to which so many members refer.
fn keep_all(
    alloc: Global,
    target: SchemaId,
    count: usize,
    is_required: bool,
    targets: &mut Targets,
) -> Result<(), AllocError>
    ensures kept { OnOk result (words.KeepsMore targets.old targets.new
        (if count == 0 then [] else words.required_where is_required (Some target.0))) }
    ensures held { OnOk result (words.HoldsSame targets.old targets.new) }
{
    if count == 0 {
        return Ok(());
    }
    keep_where(alloc, is_required, Some(target), targets)
}

/// Keeps the values of a schema node, if there is one and an instance of it is required.
fn keep_where(
    alloc: Global,
    is_required: bool,
    target: Option<SchemaId>,
    targets: &mut Targets,
) -> Result<(), AllocError>
    ensures kept { OnOk result (words.KeepsMore targets.old targets.new
        (words.required_where is_required (number_of target))) }
    ensures held { OnOk result (words.HoldsSame targets.old targets.new) }
{
    if !is_required {
        return Ok(());
    }
    match target {
        Some(id) => targets.keep(alloc, id),
        None => Ok(()),
    }
}

/// Adds what is in use in a row, and what is stored in it and below.
#[cycle(rows)]
fn add_row(
    alloc: Global,
    schema: &Schema,
    children: Children<'_>,
    row: &[Stored],
    targets: &mut Targets,
) -> Result<(), AllocError>
    ensures { let s = schema_view.view schema.now in let t = document_view.row_view row.now in
        OnOk result (IsSorted t
        → words.Gathers targets.old targets.new
        (words.times_of_row s (schema_view.row_view children.entry) t)) }
{
    add_in_use(alloc, children, Chosen::NoCase, row, targets)?;
    for stored in row {
        add_stored(alloc, schema, stored, targets)?;
    }
    Ok(())
}

/// Adds the value of a stored node, and what is stored and in use below it.
#[cycle(rows)]
fn add_stored(
    alloc: Global,
    schema: &Schema,
    stored: &Stored,
    targets: &mut Targets,
) -> Result<(), AllocError>
    ensures { let s = schema_view.view schema.now in let n = document_view.view stored.now in
        OnOk result (IsSorted n.1
        → words.Gathers targets.old targets.new (words.times_of_node s n.0 n.1)) }
{
    add_own(alloc, schema, stored, targets)?;
    let children = schema.children(stored.id());
    add_row(alloc, schema, children, stored.below(), targets)
}

/// Adds the valid value that a stored node has.
fn add_own(
    alloc: Global,
    schema: &Schema,
    stored: &Stored,
    targets: &mut Targets,
) -> Result<(), AllocError>
    ensures { let s = schema_view.view schema.now in
        OnOk result (words.Gathers targets.old targets.new
        (words.own_value s (document_view.view stored.now).0)) }
{
    let id = stored.id();
    if !targets.is_kept(id) {
        return Ok(());
    }
    match value_of(alloc, schema, stored)? {
        Some(value) => targets.add(id, value),
        None => Ok(()),
    }
}

/// Adds the defaults in use in a row, given what is left of it.
#[cycle(in_use)]
fn add_in_use(
    alloc: Global,
    children: Children<'_>,
    chosen: Chosen,
    rest: &[Stored],
    targets: &mut Targets,
) -> Result<(), AllocError>
    ensures { let t = document_view.row_view rest.entry.now in
        let f = schema_view.row_view children.entry in OnOk result ((numbers : _) → IsSorted t
        → Chooses chosen (instances_in t) numbers f
        → words.Gathers targets.old targets.new (words.times_used (instances_in t) numbers f)) }
{
    let mut rest = rest;
    for child in children {
        add_child(alloc, child, chosen, rest, targets)?;
        let (_, behind) = instances_of(rest, child.id());
        rest = behind;
    }
    Ok(())
}

/// Adds the defaults in use of a node of a row, and of those in it that aren't stored.
#[cycle(in_use)]
fn add_child(
    alloc: Global,
    child: Child<'_>,
    chosen: Chosen,
    rest: &[Stored],
    targets: &mut Targets,
) -> Result<(), AllocError>
    ensures { let t = document_view.row_view rest.now in
        let f = node (schema_view.label_of child.entry) (schema_view.below_of child.entry) end in
        OnOk result ((numbers : _) → IsSorted t
        → Chooses chosen (instances_in t) numbers f
        → words.Gathers targets.old targets.new (words.times_used (instances_in t) numbers f)) }
{
    match &child.node().kind {
        Kind::Choice { default_case, .. } => {
            let cases = child.children();
            let chosen = Chosen::of(*default_case, StoredCases::of(cases, rest));
            add_in_use(alloc, cases, chosen, rest, targets)
        }
        Kind::Case => {
            if chosen.has(child, rest) {
                add_in_use(alloc, child.children(), Chosen::NoCase, rest, targets)?;
            }
            Ok(())
        }
        _ => {
            if !is_stored(child.id(), rest) {
                add_absent(alloc, child, targets)?;
            }
            Ok(())
        }
    }
}

/// Adds the defaults in use of a data node that isn't stored, and of those in it where it is implied.
#[cycle(in_use)]
fn add_absent(alloc: Global, child: Child<'_>, targets: &mut Targets) -> Result<(), AllocError>
    ensures { let n = schema_view.label_of child.entry in OnOk result (spec.is_data n.kind ≡ true
        → words.Gathers targets.old targets.new
        (words.times_used (instances_in end) [] (node n (schema_view.below_of child.entry) end))) }
{
    match &child.node().kind {
        Kind::Container { presence } => {
            if *presence {
                return Ok(());
            }
            add_in_use(alloc, child.children(), Chosen::NoCase, &[], targets)
        }
        Kind::Leaf { absence, .. } => add_default(child.id(), absence, targets),
        Kind::LeafList { defaults, .. } => add_copies(child.id(), defaults, targets),
        _ => Ok(()),
    }
}

/// Adds the default of a leaf.
fn add_default(id: SchemaId, absence: &Absence, targets: &mut Targets) -> Result<(), AllocError>
    ensures { OnOk result (words.Gathers targets.old targets.new
        (words.default_value id.0 (absence_view absence.now))) }
{
    match absence {
        Absence::DefaultUsed(value) => add_copy(id, value, targets),
        _ => Ok(()),
    }
}

fn add_copies(id: SchemaId, values: &[Val], targets: &mut Targets) -> Result<(), AllocError>
    ensures { OnOk result (words.Gathers targets.old targets.new
        (words.some_values id.0 values.now)) }
{
    if !targets.is_kept(id) {
        return Ok(());
    }
    for value in values {
        add_copy(id, value, targets)?;
    }
    Ok(())
}

fn add_copy(id: SchemaId, value: &Val, targets: &mut Targets) -> Result<(), AllocError>
    ensures { OnOk result (words.Gathers targets.old targets.new (words.one_value id.0 value.now)) }
{
    if !targets.is_kept(id) {
        return Ok(());
    }
    targets.add(id, value.clone()?)
}
