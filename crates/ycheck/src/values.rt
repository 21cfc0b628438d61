//! The valid values of stored nodes, and of leafs of an entry.

ghost use Rattle.std.specs.Prelude.{◌≡◌, IfOk, option_map, option_and_then};
ghost use Rattle.yspec.specs.types.Types.{taken};
ghost use Rattle.yspec.specs.schema.Schema.{node_at};
ghost use Rattle.yspec.specs.document.Document.{stored_in, row_in};
ghost use Rattle.yspec.specs.document.Instances as spec;
ghost use Rattle.ytype.specs.View.{raw_of};
ghost use Rattle.yschema_model.specs.Layout.{numbers_of};
ghost use Rattle.yschema_model.specs.View as schema_view;
ghost use Rattle.yinst_tree.specs.View as document_view;

use std::alloc::{AllocError, Global};
use yinst_tree::Stored;
use yschema_model::{Absence, Kind, Schema, SchemaId};
use ytype::{BadValue, Raw, Val, YType};

/// The value that a type takes, where it takes it.
pub fn valid_value(
    alloc: Global,
    value_type: &YType,
    raw: Option<&Raw>,
) -> Result<Option<Val>, AllocError>
    ensures { IfOk result (λ value. value
        ≡ option_and_then (taken value_type.now) (option_map (λ r. raw_of r.now) raw.entry)) }
{
    let Some(raw) = raw else {
        return Ok(None);
    };
    match value_type.check(alloc, raw) {
        Ok(value) => Ok(Some(value)),
        Err(BadValue::Refused { .. }) => Ok(None),
        Err(BadValue::Memory) => Err(AllocError),
    }
}

/// The valid value of a stored node.
pub fn value_of(alloc: Global, schema: &Schema, stored: &Stored) -> Result<Option<Val>, AllocError>
    ensures { IfOk result (λ value. value
        ≡ spec.value_of (schema_view.view schema.now) (document_view.view stored.now).0) }
{
    match schema.kind(stored.id()) {
        Some(node) => kind_value(alloc, &node.kind, stored.value()),
        None => Ok(None),
    }
}

fn kind_value(alloc: Global, kind: &Kind, raw: Option<&Raw>) -> Result<Option<Val>, AllocError>
    ensures { IfOk result (λ value. value
        ≡ option_and_then (spec.kind_value (schema_view.kind_view kind.now))
        (option_map (λ r. raw_of r.now) raw.entry)) }
{
    match kind {
        Kind::Leaf { leaf_type, .. } | Kind::LeafList { leaf_type, .. } => {
            valid_value(alloc, &leaf_type.value_type, raw)
        }
        _ => Ok(None),
    }
}

/// The first instance of a schema node in a row.
fn stored_in(id: SchemaId, row: &[Stored]) -> Option<&Stored>
    ensures node { option_map (λ s. (document_view.view s.now).0) result
        ≡ stored_in id.0 (document_view.row_view row.entry.now) }
    ensures below { option_map (λ s. (document_view.view s.now).1) result
        ≡ row_in id.0 (document_view.row_view row.entry.now) }
{
    for stored in row {
        if stored.id().0 == id.0 {
            return Some(stored);
        }
    }
    None
}

/// The value of a leaf in a row, stored or in use; nothing where it is missing or invalid.
pub(crate) fn leaf_value(
    alloc: Global,
    schema: &Schema,
    row: &[Stored],
    id: SchemaId,
) -> Result<Option<Val>, AllocError>
    ensures { let s = schema_view.view schema.now in let t = document_view.row_view row.now in
        IfOk result (λ value. value ≡ spec.leaf_value s id.0 (stored_in id.0 t)) }
{
    match stored_in(id, row) {
        Some(stored) => value_of(alloc, schema, stored),
        None => default_of(schema, id),
    }
}

/// The default of a leaf.
fn default_of(schema: &Schema, id: SchemaId) -> Result<Option<Val>, AllocError>
    ensures { IfOk result (λ value. value
        ≡ option_and_then (λ n. spec.absent_value n.kind)
        (node_at (schema_view.view schema.now) id.0)) }
{
    match schema.kind(id) {
        Some(node) => absent_value(&node.kind),
        None => Ok(None),
    }
}

fn absent_value(kind: &Kind) -> Result<Option<Val>, AllocError>
    ensures { IfOk result (λ value. value ≡ spec.absent_value (schema_view.kind_view kind.now)) }
{
    match kind {
        Kind::Leaf {
            absence: Absence::DefaultUsed(value),
            ..
        } => Ok(Some(value.clone()?)),
        _ => Ok(None),
    }
}

/// The row in a container in play, stored or implied.
fn container_row<'a>(schema: &Schema, row: &'a [Stored], id: SchemaId) -> Option<&'a [Stored]>
    ensures { let s = schema_view.view schema.now in let t = document_view.row_view row.entry.now in
        option_map (λ r. document_view.row_view r.now) result
        ≡ spec.container_row s id.0 (row_in id.0 t) }
{
    match stored_in(id, row) {
        Some(stored) => Some(stored.below()),
        None => implied_row(schema, id),
    }
}

fn implied_row<'a>(schema: &Schema, id: SchemaId) -> Option<&'a [Stored]>
    ensures { option_map (λ r. document_view.row_view r.now) result
        ≡ option_and_then (λ n. spec.implied_row n.kind)
        (node_at (schema_view.view schema.now) id.0) }
{
    match &schema.kind(id)?.kind {
        Kind::Container { presence: false } => Some(&[]),
        _ => None,
    }
}

/// The value of the leaf to which a path leads, through containers in play.
pub(crate) fn value_at(
    alloc: Global,
    schema: &Schema,
    row: &[Stored],
    path: &[SchemaId],
) -> Result<Option<Val>, AllocError>
    ensures { let s = schema_view.view schema.now in let t = document_view.row_view row.now in
        IfOk result (λ value. value ≡ spec.value_at s t (numbers_of path.now)) }
{
    let Some((first, others)) = path.split_first() else {
        return Ok(None);
    };
    if others.is_empty() {
        return leaf_value(alloc, schema, row, *first);
    }
    match container_row(schema, row, *first) {
        Some(inner) => value_at(alloc, schema, inner, others),
        None => Ok(None),
    }
}
