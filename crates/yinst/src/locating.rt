//! Where an edit stands.

ghost use Rattle.std.specs.Prelude.{◌≡◌, IfOk, option_map, string_bytes};
ghost use Rattle.yspec.specs.types.Types.{taken};
ghost use Rattle.yspec.specs.types.Values.{canonical};
ghost use Rattle.ytype.specs.View.{raw_of};
ghost use Rattle.yspec.specs.schema.Schema.{keys_in};
ghost use Rattle.yspec.specs.document.Document as document;
ghost use Rattle.yspec.specs.document.Document.{instances_in};
ghost use Rattle.yspec.specs.edit.Edit.{instance_index};
ghost use Rattle.yspec.specs.edit.Editing as spec;
ghost use Rattle.yschema_model.specs.Layout.{numbers_of};
ghost use Rattle.yschema_model.specs.View as schema_view;
ghost use Rattle.yinst_tree.specs.View.{view, row_view};
ghost use Rattle.yspec.specs.Results.{Gives};
ghost use Rattle.yinst_path.specs.Applying.{edit_number, told_by};
ghost use Rattle.yinst_path.specs.Binding.{node_of};
ghost use Rattle.yinst_path.specs.Binding as binding;
ghost use Rattle.yinst_path.specs.EditView.{predicate_view, keys_view};
ghost use Rattle.yinst.specs.Locating as locating;
ghost use Rattle.yinst.specs.Locating.{spot_view, spots_view, located_view};

use std::alloc::{AllocError, Global};
use yinst_path::{BoundStep, EditCode, EditFault, Key, Predicate, has_name, refused};
use yinst_tree::Stored;
use yschema_model::{LeafType, Schema, SchemaId};
use ytype::{BadValue, Raw};

/// A step down, to the one instance of a schema node or to that at a position, from 1.
#[derive(Clone, Copy, Debug)]
pub struct Spot {
    pub id: SchemaId,
    pub position: Option<usize>,
}

/// The stored nodes above the last step's, the row in which that stands or would stand, and the last step.
#[derive(Debug, Drop)]
pub struct Located<'t, 'e> {
    pub above: Vec<Spot>,
    pub row: &'t [Stored],
    pub last: BoundStep<'e>,
}

/// The index of a spot among the instances of its schema node, from 0.
pub fn instance_index(spot: Spot) -> usize
    ensures { result ≡ instance_index (spot_view spot) }
{
    match spot.position {
        Some(position) => position.saturating_sub(1),
        None => 0,
    }
}

/// Where bound steps lead in a document: E4 to E6 of what stands above.
pub fn locate<'t, 'e>(
    alloc: Global,
    schema: &Schema,
    row: &'t [Stored],
    steps: &[BoundStep<'e>],
) -> Result<Located<'t, 'e>, EditFault>
    ensures { let s = schema_view.view schema.now in
        Gives (located_view s) told_by result
        (spec.target s (row_view row.entry.now) (binding.steps_view s steps.now)) }
{
    locate_on(alloc, schema, Vec::new(alloc), row, steps)
}

/// The same, below the spots so far.
#[cycle(walk)]
fn locate_on<'t, 'e>(
    alloc: Global,
    schema: &Schema,
    mut above: Vec<Spot>,
    row: &'t [Stored],
    steps: &[BoundStep<'e>],
) -> Result<Located<'t, 'e>, EditFault>
    ensures { let s = schema_view.view schema.now in Gives (located_view s) told_by result
        (locating.target_on s (spots_view above.items) (row_view row.entry.now)
        (binding.steps_view s steps.now)) }
{
    match steps.split_first() {
        None => Err(refused(EditCode::E1)),
        Some((step, [])) => Ok(Located {
            above,
            row,
            last: *step,
        }),
        Some((step, more)) => match instance_meant(alloc, schema, EditCode::E4, row, *step) {
            Ok(spot) => {
                above.push(spot)?;
                locate_on(
                    alloc,
                    schema,
                    above,
                    row_at(row, spot.id, instance_index(spot)),
                    more,
                )
            }
            Err(fault) => Err(fault),
        },
    }
}

/// The row below the instance of a schema node that has an index among those of that node, from 0.
pub fn row_at(row: &[Stored], id: SchemaId, place: usize) -> &[Stored]
    ensures { row_view result.now ≡ spec.row_at id.0 place (row_view row.entry.now) }
{
    let mut left = place;
    for stored in row {
        if stored.id() == id {
            if left == 0 {
                return stored.below();
            }
            left -= 1;
        }
    }
    &[]
}

/// The instance that a step means: E5, E6, or the given refusal where it isn't stored.
pub fn instance_meant(
    alloc: Global,
    schema: &Schema,
    missing: EditCode,
    row: &[Stored],
    step: BoundStep<'_>,
) -> Result<Spot, EditFault>
    ensures { let s = schema_view.view schema.now in Gives spot_view told_by result
        (spec.instance_meant s (edit_number missing) (row_view row.now) (node_of s step.entry.id.0)
        (predicate_view step.entry.predicate.now)) }
{
    meant_in(alloc, schema, missing, row, step)
}

fn meant_in(
    alloc: Global,
    schema: &Schema,
    missing: EditCode,
    row: &[Stored],
    step: BoundStep<'_>,
) -> Result<Spot, EditFault>
    ensures { let s = schema_view.view schema.now in Gives spot_view told_by result
        (locating.meant_in s (edit_number missing) (row_view row.now) step.entry.id.0
        (predicate_view step.entry.predicate.now)) }
{
    match step.predicate {
        Predicate::Unsaid => {
            if count_of(row, step.id) == 0 {
                Err(refused(missing))
            } else {
                Ok(Spot {
                    id: step.id,
                    position: None,
                })
            }
        }
        Predicate::Position(position) => {
            if count_of(row, step.id) < *position as usize {
                Err(refused(EditCode::E5))
            } else {
                Ok(Spot {
                    id: step.id,
                    position: Some(*position as usize),
                })
            }
        }
        Predicate::Keys(keys) => {
            entry_meant(alloc, schema, missing, row, step.id, keys.as_slice())
        }
    }
}

/// How many instances of a schema node a row has.
pub(crate) fn count_of(row: &[Stored], id: SchemaId) -> usize
    ensures { result ≡ instances_in (row_view row.now) id.0 }
{
    let mut count = 0;
    for stored in row {
        if stored.id() == id {
            count += 1;
        }
    }
    count
}

/// The entry that has these keys: E6 where several have them.
fn entry_meant(
    alloc: Global,
    schema: &Schema,
    missing: EditCode,
    row: &[Stored],
    id: SchemaId,
    keys: &[Key],
) -> Result<Spot, EditFault>
    ensures { let s = schema_view.view schema.now in
        Gives spot_view told_by result (spec.the_one (edit_number missing) id.0
        (spec.positions_where id.0 (spec.fits_keys s (keys_in (node_of s id.0).kind)
        (keys_view keys.now)) 1 (row_view row.now))) }
{
    let ids = keys_of(schema, id);
    let mut position = 1;
    let mut found = None;
    for entry in row {
        if entry.id() == id {
            if fits_keys(alloc, schema, ids, keys, entry.below())? {
                if found.is_some() {
                    return Err(refused(EditCode::E6));
                }
                found = Some(position);
            }
            position += 1;
        }
    }
    match found {
        Some(position) => Ok(Spot {
            id,
            position: Some(position),
        }),
        None => Err(refused(missing)),
    }
}

/// The keys of a list.
fn keys_of(schema: &Schema, id: SchemaId) -> &[SchemaId]
    ensures { numbers_of result.now
        ≡ keys_in (node_of (schema_view.view schema.entry.now) id.0).kind }
{
    match schema.kind(id) {
        Some(node) => node.kind.keys(),
        None => &[],
    }
}

/// Whether each key of a list is stored in an entry, valid and has the canonical text that is said.
fn fits_keys(
    alloc: Global,
    schema: &Schema,
    ids: &[SchemaId],
    keys: &[Key],
    entry: &[Stored],
) -> Result<bool, AllocError>
    ensures { IfOk result (λ fits. fits ≡ spec.fits_keys (schema_view.view schema.now)
        (numbers_of ids.now) (keys_view keys.now) (row_view entry.now)) }
{
    for id in ids {
        if !fits_key(alloc, schema, *id, keys, entry)? {
            return Ok(false);
        }
    }
    Ok(true)
}

fn fits_key(
    alloc: Global,
    schema: &Schema,
    id: SchemaId,
    keys: &[Key],
    entry: &[Stored],
) -> Result<bool, AllocError>
    ensures { IfOk result (λ fits. fits ≡ locating.fits_key (schema_view.view schema.now) id.0
        (keys_view keys.now) (row_view entry.now)) }
{
    match first_of(entry, id) {
        Some(stored) => has_text(alloc, schema, stored, key_text(schema, keys, id)),
        None => Ok(false),
    }
}

/// Whether a stored leaf's value is valid and has that canonical text.
fn has_text(alloc: Global, schema: &Schema, stored: &Stored, text: &str) -> Result<bool, AllocError>
    ensures { IfOk result (λ has. has ≡ spec.is_the_text text.now
        (spec.text_of (schema_view.view schema.now) (view stored.now).0)) }
{
    match text_of(alloc, schema, stored)? {
        Some(canonical) => Ok(text == canonical.as_str()),
        None => Ok(false),
    }
}

/// The text that the keys of a predicate say for a node.
fn key_text<'k>(schema: &Schema, keys: &'k [Key], id: SchemaId) -> &'k str
    ensures { result.now ≡ spec.key_text (keys_view keys.entry.now)
        (schema_view.view schema.now) id.0 }
{
    for key in keys {
        if has_name(schema, key.name.as_str(), id) {
            return key.text.as_str();
        }
    }
    ""
}

/// The first instance of a schema node in a row.
fn first_of(row: &[Stored], id: SchemaId) -> Option<&Stored>
    ensures { option_map (λ stored. (view stored.now).0) result
        ≡ document.stored_in id.0 (row_view row.entry.now) }
{
    for stored in row {
        if stored.id() == id {
            return Some(stored);
        }
    }
    None
}

/// The canonical text of the valid value of a stored leaf.
fn text_of(alloc: Global, schema: &Schema, stored: &Stored) -> Result<Option<String>, AllocError>
    ensures { IfOk result (λ text. option_map string_bytes text
        ≡ spec.text_of (schema_view.view schema.now) (view stored.now).0) }
{
    let Some(node) = schema.kind(stored.id()) else {
        return Ok(None);
    };
    let Some(leaf_type) = node.kind.leaf_type() else {
        return Ok(None);
    };
    match stored.value() {
        Some(raw) => canonical_of(alloc, leaf_type, raw),
        None => Ok(None),
    }
}

/// The canonical text of the value that a type takes, where it takes one.
fn canonical_of(
    alloc: Global,
    leaf_type: &LeafType,
    raw: &Raw,
) -> Result<Option<String>, AllocError>
    ensures { IfOk result (λ text. option_map string_bytes text
        ≡ option_map (canonical leaf_type.now.value_type)
        (taken leaf_type.now.value_type (raw_of raw.now))) }
{
    match leaf_type.value_type.check(alloc, raw) {
        Ok(value) => Ok(Some(value.canonical(alloc, &leaf_type.value_type)?)),
        Err(BadValue::Refused { .. }) => Ok(None),
        Err(BadValue::Memory) => Err(AllocError),
    }
}
