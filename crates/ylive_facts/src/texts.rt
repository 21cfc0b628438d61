//! The canonical texts of the leafs of a key, by which a path finds an entry.

ghost use Rattle.std.specs.Prelude.{◌≡◌, ◌+◌, ◌*◌, ◌≤◌, IfOk, length, map, option_and_then, option_map, string_bytes};
ghost use Rattle.yspec.specs.document.Document.{stored_in};
ghost use Rattle.yspec.specs.edit.Editing as spec;
ghost use Rattle.yschema_model.specs.Layout.{numbers_of};
ghost use Rattle.yschema_model.specs.View as schema_view;
ghost use Rattle.ystore.specs.Store.{reads};
ghost use Rattle.ystore.specs.Views.{store_of, lent};
ghost use Rattle.ystore_tree.specs.Hanging.{Branches, Hangs, tree_of};
ghost use Rattle.ystore_tree.specs.Parts.{OnlyReads};
ghost use Rattle.ylive_facts.specs.Rows.{leaf_at};
ghost use Rattle.ylive_facts.specs.Keys.{texts_in};

use crate::rows::first_of;
use crate::values::value_as;
use std::alloc::AllocError;
use yschema_model::{Schema, SchemaId};
use ystore::{Counted, NodeId, Row};

/// The canonical texts of leafs in a row, where each is stored and valid.
pub(crate) fn texts_of(
    counted: &mut Counted<'_>,
    schema: &Schema,
    leafs: &[SchemaId],
    row: Row,
) -> Result<Option<Vec<String>>, AllocError>
    ensures texts { let s = schema_view.view schema.now in
        IfOk result (λ texts. (f : Branches) → Hangs (store_of counted.old) row f
        → option_map (λ ts. map string_bytes ts.items) texts ≡ texts_in s (numbers_of leafs.now) (tree_of f)) }
    ensures kept { OnlyReads (store_of counted.old) (store_of counted.new) }
    ensures reads { reads (store_of counted.new) ≤ reads (store_of counted.old) + 2 * length leafs.now }
    ensures same_reference { lent counted.new ≡ lent counted.old }
{
    let mut texts = Vec::with_capacity(counted.alloc(), leafs.len())?;
    for leaf in leafs {
        match leaf_text(counted, schema, row, *leaf)? {
            Some(text) => texts.push(text)?,
            None => return Ok(None),
        }
    }
    Ok(Some(texts))
}

/// The canonical text of a leaf in a row, where it is stored and valid.
fn leaf_text(
    counted: &mut Counted<'_>,
    schema: &Schema,
    row: Row,
    id: SchemaId,
) -> Result<Option<String>, AllocError>
    ensures text { let s = schema_view.view schema.now in
        IfOk result (λ text. (f : Branches) → Hangs (store_of counted.old) row f
        → option_map string_bytes text ≡ option_and_then (spec.text_of s) (stored_in id.0 (tree_of f))) }
    ensures kept { OnlyReads (store_of counted.old) (store_of counted.new) }
    ensures reads { reads (store_of counted.new) ≤ reads (store_of counted.old) + 2 }
    ensures same_reference { lent counted.new ≡ lent counted.old }
{
    match first_of(counted, Some(row), id) {
        Some(leaf) => text_as(counted, schema, id, leaf),
        None => Ok(None),
    }
}

/// The canonical text of the valid value of a node, which has that schema node.
fn text_as(
    counted: &mut Counted<'_>,
    schema: &Schema,
    id: SchemaId,
    leaf: NodeId,
) -> Result<Option<String>, AllocError>
    ensures text { IfOk result (λ text. option_map string_bytes text
        ≡ spec.text_of (schema_view.view schema.now) (leaf_at (store_of counted.old) id leaf)) }
    ensures kept { OnlyReads (store_of counted.old) (store_of counted.new) }
    ensures reads { reads (store_of counted.new) ≤ reads (store_of counted.old) + 1 }
    ensures same_reference { lent counted.new ≡ lent counted.old }
{
    let Some(node) = schema.kind(id) else {
        return Ok(None);
    };
    let Some(leaf_type) = node.kind.leaf_type() else {
        return Ok(None);
    };
    match value_as(counted, schema, id, leaf)? {
        Some(value) => Ok(Some(value.canonical(counted.alloc(), &leaf_type.value_type)?)),
        None => Ok(None),
    }
}
