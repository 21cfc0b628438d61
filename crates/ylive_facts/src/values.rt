//! The valid values of nodes of a store, and of leafs of a row.

ghost use Rattle.std.specs.Prelude.{◌≡◌, ◌+◌, ◌≤◌, Some, None, IfOk, length, option_map, option_and_then, if◌then◌else◌};
ghost use Rattle.yspec.specs.Forest.{end, node};
ghost use Rattle.yspec.specs.types.Types.{taken};
ghost use Rattle.yspec.specs.schema.Schema.{node_at};
ghost use Rattle.yspec.specs.document.Document.{stored_in, row_in};
ghost use Rattle.yspec.specs.document.Instances as spec;
ghost use Rattle.ytype.specs.View.{raw_of};
ghost use Rattle.yschema_model.specs.Layout.{kind_view, numbers_of};
ghost use Rattle.yschema_model.specs.View as schema_view;
ghost use Rattle.ystore.specs.Store.{reads};
ghost use Rattle.ystore.specs.Views.{store_of, lent, IsRead};
ghost use Rattle.ystore_rows.specs.declared.row.Row as rows;
ghost use Rattle.ystore_tree.specs.Hanging.{Branches, Numbered, Stands, stored_of, tree_of};
ghost use Rattle.ystore_tree.specs.Parts.{OnlyReads};
ghost use Rattle.ylive_facts.specs.Rows.{HangsIn, RowIs, leaf_at, stored_as};

use crate::rows::first_of;
use std::alloc::{AllocError, Global};
use yschema_model::{Absence, Kind, Schema, SchemaId};
use ystore::{Counted, NodeId, Row};
use ytype::{BadValue, Raw, Val, YType};

/// The value that a type takes, where it takes it.
fn valid_value(
    alloc: Global,
    value_type: &YType,
    raw: Option<&Raw>,
) -> Result<Option<Val>, AllocError>
    ensures { IfOk result (λ value. value
        ≡ option_and_then (taken value_type.now) (option_map (λ r. raw_of r.now) raw.entry)) }
{
    let Some(raw) = raw else {
        return Ok(None);
    };
    match value_type.check(alloc, raw) {
        Ok(value) => Ok(Some(value)),
        Err(BadValue::Refused { .. }) => Ok(None),
        Err(BadValue::Memory) => Err(AllocError),
    }
}

fn kind_value(alloc: Global, kind: &Kind, raw: Option<&Raw>) -> Result<Option<Val>, AllocError>
    ensures { IfOk result (λ value. value
        ≡ option_and_then (spec.kind_value (kind_view kind.now))
        (option_map (λ r. raw_of r.now) raw.entry)) }
{
    match kind {
        Kind::Leaf { leaf_type, .. } | Kind::LeafList { leaf_type, .. } => {
            valid_value(alloc, &leaf_type.value_type, raw)
        }
        _ => Ok(None),
    }
}

/// The valid value of a node of a schema node that has this value.
fn raw_value(
    alloc: Global,
    schema: &Schema,
    id: SchemaId,
    raw: Option<&Raw>,
) -> Result<Option<Val>, AllocError>
    ensures { IfOk result (λ value. value ≡ spec.value_of (schema_view.view schema.now)
        (stored_as id (option_map (λ r. raw_of r.now) raw.entry))) }
{
    match schema.kind(id) {
        Some(node) => kind_value(alloc, &node.kind, raw),
        None => Ok(None),
    }
}

/// The valid value of a node, which has that schema node.
pub(crate) fn value_as(
    counted: &mut Counted<'_>,
    schema: &Schema,
    id: SchemaId,
    node: NodeId,
) -> Result<Option<Val>, AllocError>
    ensures value { IfOk result (λ value. value ≡ spec.value_of (schema_view.view schema.now)
        (leaf_at (store_of counted.old) id node)) }
    ensures counted { IsRead counted.old counted.new }
{
    raw_value(counted.alloc(), schema, id, counted.value(node))
}

/// The valid value of a node.
pub fn value_of(
    counted: &mut Counted<'_>,
    schema: &Schema,
    id: NodeId,
) -> Result<Option<Val>, AllocError>
    ensures value { IfOk result (λ value. (above : rows.Row) (n : Numbered) (below : Branches) → n.id ≡ id
        → Stands (store_of counted.old) above (node n below end)
        → value ≡ spec.value_of (schema_view.view schema.now) (stored_of n)) }
    ensures kept { OnlyReads (store_of counted.old) (store_of counted.new) }
    ensures reads { reads (store_of counted.new) ≤ reads (store_of counted.old) + 2 }
    ensures same_reference { lent counted.new ≡ lent counted.old }
{
    match counted.schema(id) {
        Some(of) => value_as(counted, schema, of, id),
        None => Ok(None),
    }
}

/// The default of a leaf.
fn default_of(schema: &Schema, id: SchemaId) -> Result<Option<Val>, AllocError>
    ensures { IfOk result (λ value. value
        ≡ option_and_then (λ n. spec.absent_value n.kind)
        (node_at (schema_view.view schema.now) id.0)) }
{
    match schema.kind(id) {
        Some(node) => absent_value(&node.kind),
        None => Ok(None),
    }
}

fn absent_value(kind: &Kind) -> Result<Option<Val>, AllocError>
    ensures { IfOk result (λ value. value ≡ spec.absent_value (kind_view kind.now)) }
{
    match kind {
        Kind::Leaf {
            absence: Absence::DefaultUsed(value),
            ..
        } => Ok(Some(value.clone()?)),
        _ => Ok(None),
    }
}

/// The value of a leaf in a row, stored or in use; nothing where it is missing or invalid. In a container that is implied
/// there is no row.
pub fn leaf_value(
    counted: &mut Counted<'_>,
    schema: &Schema,
    row: Option<Row>,
    id: SchemaId,
) -> Result<Option<Val>, AllocError>
    ensures value { let s = schema_view.view schema.now in
        IfOk result (λ value. (f : Branches) → HangsIn (store_of counted.old) row f
        → value ≡ spec.leaf_value s id.0 (stored_in id.0 (tree_of f))) }
    ensures kept { OnlyReads (store_of counted.old) (store_of counted.new) }
    ensures reads { reads (store_of counted.new) ≤ reads (store_of counted.old) + 2 }
    ensures same_reference { lent counted.new ≡ lent counted.old }
{
    match first_of(counted, row, id) {
        Some(leaf) => value_as(counted, schema, id, leaf),
        None => default_of(schema, id),
    }
}

/// The row in a container in play, stored or implied.
fn container_row(
    counted: &mut Counted<'_>,
    schema: &Schema,
    row: Option<Row>,
    id: SchemaId,
) -> Option<Option<Row>>
    ensures row { let s = schema_view.view schema.now in
        (f : Branches) → HangsIn (store_of counted.old) row f
        → RowIs (store_of counted.new) result (spec.container_row s id.0 (row_in id.0 (tree_of f))) }
    ensures kept { OnlyReads (store_of counted.old) (store_of counted.new) }
    ensures reads { reads (store_of counted.new) ≤ reads (store_of counted.old) + 1 }
    ensures same_reference { lent counted.new ≡ lent counted.old }
{
    match first_of(counted, row, id) {
        Some(container) => Some(Some(Row::Below(container))),
        None => {
            if is_implied(schema, id) {
                Some(None)
            } else {
                None
            }
        }
    }
}

/// Whether a container is in play though it isn't stored.
fn is_implied(schema: &Schema, id: SchemaId) -> bool
    ensures { (if result then Some end else None)
        ≡ option_and_then (λ n. spec.implied_row n.kind) (node_at (schema_view.view schema.now) id.0) }
{
    match schema.kind(id) {
        Some(node) => matches!(node.kind, Kind::Container { presence: false }),
        None => false,
    }
}

/// The value of the leaf to which a path leads from a row, through containers in play.
pub fn value_at(
    counted: &mut Counted<'_>,
    schema: &Schema,
    row: Option<Row>,
    path: &[SchemaId],
) -> Result<Option<Val>, AllocError>
    ensures value { let s = schema_view.view schema.now in
        IfOk result (λ value. (f : Branches) → HangsIn (store_of counted.old) row f
        → value ≡ spec.value_at s (tree_of f) (numbers_of path.now)) }
    ensures kept { OnlyReads (store_of counted.old) (store_of counted.new) }
    ensures reads { reads (store_of counted.new) ≤ reads (store_of counted.old) + (length path.now + 1) }
    ensures same_reference { lent counted.new ≡ lent counted.old }
{
    let Some((first, others)) = path.split_first() else {
        return Ok(None);
    };
    if others.is_empty() {
        return leaf_value(counted, schema, row, *first);
    }
    match container_row(counted, schema, row, *first) {
        Some(inner) => value_at(counted, schema, inner, others),
        None => Ok(None),
    }
}
