//! What the steps of a path mean, and whether their predicates are in place.

ghost use Rattle.std.specs.Prelude.{◌≡◌, not, None, [], ◌∷◌};
ghost use Rattle.yspec.specs.schema.Schema as schemas;
ghost use Rattle.yspec.specs.edit.Editing as spec;
ghost use Rattle.yschema_model.specs.Layout.{kind_view, numbers_of};
ghost use Rattle.yschema_model.specs.View as schema_view;
ghost use Rattle.yspec.specs.Results.{Gives};
ghost use Rattle.yinst_path.specs.Applying.{told_by};
ghost use Rattle.yinst_path.specs.declared.edit.EditFault.TheVariants.{Refused};
ghost use Rattle.yinst_path.specs.Binding as binding;
ghost use Rattle.yinst_path.specs.Binding.{bound_view, node_of};
ghost use Rattle.yinst_path.specs.EditView.{predicate_view, keys_view, steps_view, path_view};

use crate::edit::{Edit, EditCode, EditFault, Key, NamedStep, Path, Predicate};
use std::alloc::Global;
use yschema_model::{Kind, Schema, SchemaId};

/// A step's schema node, and which of its instances is meant.
#[derive(Clone, Copy, Debug)]
pub struct BoundStep<'e> {
    pub id: SchemaId,
    pub predicate: &'e Predicate,
}

/// What a path means to an edit, from the top on.
#[derive(Debug, Drop)]
pub struct Bound<'e> {
    pub steps: Vec<BoundStep<'e>>,
}

impl Edit {
    ghost use Rattle.yspec.specs.edit.Editing as spec;
    ghost use Rattle.yschema_model.specs.View as schema_view;
    ghost use Rattle.yspec.specs.Results.{Gives};
    ghost use Rattle.yinst_path.specs.Applying.{told_by};
    ghost use Rattle.yinst_path.specs.Binding.{bound_view, bound_of};
    ghost use Rattle.yinst_path.specs.EditView.{edit_view};

    /// What its path means: E1 of a path or a position that no text spells, E2 of its names, E3 of its predicates, and of
    /// a node to be moved that is no entry and no item.
    pub fn bind(&self, alloc: Global, schema: &Schema) -> Result<Bound<'_>, EditFault>
        ensures { let s = schema_view.view schema.now in
            Gives (bound_view s) told_by result (bound_of s (edit_view self.now)) }
    {
        match self {
            Edit::Create { path, .. } => bind_path(alloc, schema, true, path),
            Edit::Replace { path, .. } => bind_path(alloc, schema, false, path),
            Edit::Remove { path } => bind_path(alloc, schema, false, path),
            Edit::Move { path, position } => bind_to_move(alloc, schema, path, *position),
        }
    }
}

/// What a path means to an edit.
pub fn bind_path<'e>(
    alloc: Global,
    schema: &Schema,
    is_create: bool,
    path: &'e Path,
) -> Result<Bound<'e>, EditFault>
    ensures { let s = schema_view.view schema.now in
        Gives (bound_view s) told_by result (spec.bound s is_create (path_view path.now)) }
{
    if !is_spelled(path.steps.as_slice()) {
        return Err(refused(EditCode::E1));
    }
    match named_steps(alloc, schema, path.steps.as_slice()) {
        Ok(bound) => in_place(schema, is_create, bound),
        Err(fault) => Err(fault),
    }
}

/// What the path of a node that is moved means: E1 of a position 0 too, and E3 also of a node that is no entry and no
/// item.
pub fn bind_to_move<'e>(
    alloc: Global,
    schema: &Schema,
    path: &'e Path,
    position: u32,
) -> Result<Bound<'e>, EditFault>
    ensures { let s = schema_view.view schema.now in
        Gives (bound_view s) told_by result (spec.bound_to_move s (path_view path.now) position) }
{
    if position == 0 {
        return Err(refused(EditCode::E1));
    }
    match bind_path(alloc, schema, false, path) {
        Ok(bound) => movable(schema, bound),
        Err(fault) => Err(fault),
    }
}

/// E3 of a last step that names no list and no leaf-list.
fn movable<'e>(schema: &Schema, bound: Bound<'e>) -> Result<Bound<'e>, EditFault>
    ensures { let s = schema_view.view schema.now in
        Gives (bound_view s) told_by result (spec.movable (bound_view s bound.entry)) }
{
    if ends_in_many(schema, bound.steps.as_slice()) {
        Ok(bound)
    } else {
        Err(refused(EditCode::E3))
    }
}

/// Whether the last step names a list or a leaf-list.
fn ends_in_many(schema: &Schema, steps: &[BoundStep<'_>]) -> bool
    ensures { let s = schema_view.view schema.now in
        result ≡ spec.ends_in_many (binding.steps_view s steps.now) }
{
    match steps.last() {
        Some(step) => is_many(schema, step.id),
        None => false,
    }
}

/// Whether a schema node is a list or a leaf-list.
fn is_many(schema: &Schema, id: SchemaId) -> bool
    ensures { result ≡ schemas.is_many (node_of (schema_view.view schema.now) id.0).kind }
{
    match schema.kind(id) {
        Some(node) => node.kind.is_many(),
        None => false,
    }
}

/// Whether a text can spell a path: it has a step, and no position 0.
fn is_spelled(steps: &[NamedStep]) -> bool
    ensures { result ≡ spec.is_spelled (steps_view steps.now) }
{
    !steps.is_empty() && !has_zero(steps)
}

/// The nodes that the names of some steps mean, from the top on: E2.
fn named_steps<'e>(
    alloc: Global,
    schema: &Schema,
    steps: &'e [NamedStep],
) -> Result<Bound<'e>, EditFault>
    ensures { let s = schema_view.view schema.now in
        Gives (bound_view s) told_by result
        (spec.bound_steps s None s.nodes (steps_view steps.now)) }
{
    steps_below(alloc, schema, steps)
}

/// Each name is that of a data node below the one before it.
fn steps_below<'e>(
    alloc: Global,
    schema: &Schema,
    steps: &'e [NamedStep],
) -> Result<Bound<'e>, EditFault>
    ensures { let s = schema_view.view schema.now in
        Gives (bound_view s) told_by result (binding.bound_on s [] None (steps_view steps.now)) }
{
    let mut bound = Vec::new(alloc);
    let mut parent = None;
    for step in steps {
        match schema.child_written(parent, step.name.as_str()) {
            Some(id) => {
                bound.push(BoundStep {
                    id,
                    predicate: &step.predicate,
                })?;
                parent = Some(id);
            }
            None => return Err(refused(EditCode::E2)),
        }
    }
    Ok(Bound { steps: bound })
}

/// E3 of a predicate out of place.
fn in_place<'e>(schema: &Schema, is_create: bool, bound: Bound<'e>) -> Result<Bound<'e>, EditFault>
    ensures { let s = schema_view.view schema.now in
        Gives (bound_view s) told_by result (spec.in_place s is_create (bound_view s bound.entry)) }
{
    if are_in_place(schema, is_create, bound.steps.as_slice()) {
        Ok(bound)
    } else {
        Err(refused(EditCode::E3))
    }
}

#[cycle(in_place)]
fn are_in_place(schema: &Schema, is_create: bool, steps: &[BoundStep<'_>]) -> bool
    ensures { let s = schema_view.view schema.now in
        result ≡ spec.are_in_place s is_create (binding.steps_view s steps.now) }
{
    match steps.split_first() {
        None => true,
        Some((step, [])) => is_last_in_place(schema, is_create, *step),
        Some((step, more)) => fits_node(schema, *step) && are_in_place(schema, is_create, more),
    }
}

/// The last step of what is created bears no predicate.
fn is_last_in_place(schema: &Schema, is_create: bool, step: BoundStep<'_>) -> bool
    ensures { let s = schema_view.view schema.now in
        result ≡ spec.are_in_place s is_create (binding.steps_view s (step.entry ∷ [])) }
{
    if is_create {
        !says(step.predicate)
    } else {
        fits_node(schema, step)
    }
}

/// Whether a step bears the predicate that its node wants: a list a position, or its keys where it has any; a leaf-list a
/// position; others none.
pub fn fits_node(schema: &Schema, step: BoundStep<'_>) -> bool
    ensures { let s = schema_view.view schema.now in
        result ≡ spec.fits_kind s (node_of s step.entry.id.0).kind
        (predicate_view step.entry.predicate.now) }
{
    match schema.kind(step.id) {
        Some(node) => fits_kind(schema, &node.kind, step.predicate),
        None => false,
    }
}

/// Whether a node of a kind bears a predicate.
fn fits_kind(schema: &Schema, kind: &Kind, predicate: &Predicate) -> bool
    ensures { result ≡ spec.fits_kind (schema_view.view schema.now) (kind_view kind.now)
        (predicate_view predicate.now) }
{
    match kind {
        Kind::List { tuples, .. } => fits_list(schema, tuples.keys.as_slice(), predicate),
        Kind::LeafList { .. } => matches!(predicate, Predicate::Position(_)),
        Kind::Container { .. } | Kind::Leaf { .. } => matches!(predicate, Predicate::Unsaid),
        Kind::Choice { .. } | Kind::Case => false,
    }
}

/// Whether a list with these keys bears a predicate: a position, or its keys, where it has any.
fn fits_list(schema: &Schema, ids: &[SchemaId], predicate: &Predicate) -> bool
    ensures { result ≡ binding.fits_list (schema_view.view schema.now) (numbers_of ids.now)
        (predicate_view predicate.now) }
{
    match predicate {
        Predicate::Unsaid => false,
        Predicate::Position(_) => true,
        Predicate::Keys(keys) => !ids.is_empty() && names_keys(schema, ids, keys.as_slice()),
    }
}

/// Whether each key of a list is named once, and nothing else.
fn names_keys(schema: &Schema, ids: &[SchemaId], keys: &[Key]) -> bool
    ensures { result ≡ spec.names_keys (schema_view.view schema.now) (numbers_of ids.now)
        (keys_view keys.now) }
{
    keys.len() == ids.len() && are_named(schema, ids, keys)
}

fn are_named(schema: &Schema, ids: &[SchemaId], keys: &[Key]) -> bool
    ensures { result ≡ binding.are_named (schema_view.view schema.now) (keys_view keys.now)
        (numbers_of ids.now) }
{
    for id in ids {
        if !is_named(schema, *id, keys) {
            return false;
        }
    }
    true
}

fn is_named(schema: &Schema, id: SchemaId, keys: &[Key]) -> bool
    ensures { result ≡ binding.is_named (schema_view.view schema.now) id.0 (keys_view keys.now) }
{
    for key in keys {
        if has_name(schema, key.name.as_str(), id) {
            return true;
        }
    }
    false
}

/// Whether a schema node has a name.
pub fn has_name(schema: &Schema, name: &str, id: SchemaId) -> bool
    ensures { result ≡ spec.has_name (schema_view.view schema.now) name.now id.0 }
{
    match schema.kind(id) {
        Some(node) => name == node.name.as_str(),
        None => false,
    }
}

/// A refusal that isn't a value's.
pub fn refused(code: EditCode) -> EditFault
    ensures { result ≡ Refused code None }
{
    EditFault::Refused { code, doc: None }
}

/// Whether a step bears the position 0; positions count from 1.
fn has_zero(steps: &[NamedStep]) -> bool
    ensures { result ≡ spec.has_zero (steps_view steps.now) }
{
    for step in steps {
        if matches!(step.predicate, Predicate::Position(0)) {
            return true;
        }
    }
    false
}

/// Whether a predicate says anything.
fn says(predicate: &Predicate) -> bool
    ensures { result ≡ not (spec.says_nothing (predicate_view predicate.now)) }
{
    match predicate {
        Predicate::Unsaid => false,
        Predicate::Position(_) | Predicate::Keys(_) => true,
    }
}
