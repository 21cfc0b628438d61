//! The instance of a schema node that a step of a path means, in a row of a store.

ghost use Rattle.std.specs.Prelude.{◌≡◌, ◌+◌, ◌<◌, ◌≤◌, Bool, false, true, List, length, map, IfOk, string_bytes};
ghost use Rattle.yspec.specs.schema.Schema as schemas;
ghost use Rattle.yspec.specs.schema.Schema.{keys_in};
ghost use Rattle.yspec.specs.document.Document as document;
ghost use Rattle.yspec.specs.document.Document.{Step};
ghost use Rattle.yspec.specs.edit.EditText as edit;
ghost use Rattle.yspec.specs.edit.Editing as spec;
ghost use Rattle.yschema_model.specs.Layout.{numbers_of};
ghost use Rattle.yschema_model.specs.View as schema_view;
ghost use Rattle.yinst_path.specs.Applying.{edit_number};
ghost use Rattle.yinst_path.specs.Binding.{node_of};
ghost use Rattle.yinst_path.specs.EditView.{predicate_view, keys_view};
ghost use Rattle.ystore.specs.Store.{reads};
ghost use Rattle.ystore.specs.Views.{store_of, lent};
ghost use Rattle.ystore_tree.specs.Hanging.{Branches, Hangs, tree_of};
ghost use Rattle.ystore_tree.specs.Parts.{OnlyReads};
ghost use Rattle.ylive_facts.specs.Keys.{key_view, texts_key};
ghost use Rattle.ylive_edit.specs.Places.{IsAt};
ghost use Rattle.ylive_edit.specs.Instances.{Meets, instance_in};

use crate::keys::{key_text, keys_of};
use std::alloc::{AllocError, Global};
use yinst_path::{BoundStep, EditCode, EditFault, Key, Predicate, refused};
use yschema_model::{Schema, SchemaId};
use ystore::{Counted, NodeId, Row};

/// The node that a step means: E5, E6, or the given refusal where it isn't stored. A position counts from 1.
pub(crate) fn instance_meant(
    counted: &mut Counted<'_>,
    schema: &Schema,
    missing: EditCode,
    above: Row,
    step: BoundStep<'_>,
) -> Result<NodeId, EditFault>
    requires { spec.is_zero (predicate_view step.predicate.now) ≡ false }
    ensures meets { let s = schema_view.view schema.now in
        (tree : document.Tree) (steps : List Step) (f : Branches) → IsAt s (store_of counted.old) tree steps above f
        → Meets step.entry.id f (spec.instance_meant s (edit_number missing) (tree_of f)
        (node_of s step.entry.id.0) (predicate_view step.entry.predicate.now)) result }
    ensures reads { reads (store_of counted.new) ≤ reads (store_of counted.old) + 2 }
    ensures kept { OnlyReads (store_of counted.old) (store_of counted.new) }
    ensures same_reference { lent counted.new ≡ lent counted.old }
{
    match step.predicate {
        Predicate::Unsaid => instance_at(counted, missing, above, step.id, None),
        Predicate::Position(position) => instance_at(
            counted,
            EditCode::E5,
            above,
            step.id,
            Some(*position as usize),
        ),
        Predicate::Keys(keys) => entry_meant(
            counted,
            schema,
            missing,
            above,
            step.id,
            keys.as_slice(),
        ),
    }
}

/// The first instance of a schema node, or that at a position, from 1; the given refusal where it isn't stored.
fn instance_at(
    counted: &mut Counted<'_>,
    missing: EditCode,
    above: Row,
    id: SchemaId,
    position: Option<usize>,
) -> Result<NodeId, EditFault>
    ensures meets { (f : Branches) → Hangs (store_of counted.old) above f
        → Meets id f (instance_in (edit_number missing) (tree_of f) id.0 position) result }
    ensures reads { reads (store_of counted.new) ≤ reads (store_of counted.old) + 1 }
    ensures kept { OnlyReads (store_of counted.old) (store_of counted.new) }
    ensures same_reference { lent counted.new ≡ lent counted.old }
{
    let place = position.unwrap_or(1).saturating_sub(1);
    match counted.child_of(above, id, place) {
        Some(node) => Ok(node),
        None => Err(refused(missing)),
    }
}

/// The entry of a list that has these keys: E6 where several have them.
fn entry_meant(
    counted: &mut Counted<'_>,
    schema: &Schema,
    missing: EditCode,
    above: Row,
    id: SchemaId,
    keys: &[Key],
) -> Result<NodeId, EditFault>
    ensures meets { let s = schema_view.view schema.now in
        (tree : document.Tree) (steps : List Step) (f : Branches) → IsAt s (store_of counted.old) tree steps above f
        → Meets id f (spec.the_one (edit_number missing) id.0
        (spec.positions_where id.0 (spec.fits_keys s (keys_in (node_of s id.0).kind)
        (keys_view keys.now)) 1 (tree_of f))) result }
    ensures reads { reads (store_of counted.new) ≤ reads (store_of counted.old) + 2 }
    ensures kept { OnlyReads (store_of counted.old) (store_of counted.new) }
    ensures same_reference { lent counted.new ≡ lent counted.old }
{
    let ids = keys_of(schema, id);
    if ids.is_empty() {
        only_entry(counted, missing, above, id)
    } else {
        let texts = texts_said(counted.alloc(), schema, ids, keys)?;
        let key = ystore::Key::Texts(above, id, texts);
        entry_held(counted, missing, above, id, &key)
    }
}

/// The texts that the keys of a predicate say for schema nodes.
fn texts_said(
    alloc: Global,
    schema: &Schema,
    ids: &[SchemaId],
    keys: &[Key],
) -> Result<Vec<String>, AllocError>
    ensures { IfOk result (λ texts. map string_bytes texts.items
        ≡ map (spec.key_text (keys_view keys.now) (schema_view.view schema.now)) (numbers_of ids.now)) }
{
    let mut texts = Vec::new(alloc);
    for id in ids {
        let text = String::from_str(alloc, key_text(schema, keys, *id))?;
        texts.push(text)?;
    }
    Ok(texts)
}

/// The entry that holds a key of texts: E6 where several do.
fn entry_held(
    counted: &mut Counted<'_>,
    missing: EditCode,
    above: Row,
    id: SchemaId,
    key: &ystore::Key,
) -> Result<NodeId, EditFault>
    ensures meets { (s : schemas.Schema) (tree : document.Tree) (steps : List Step) (f : Branches) (keys : List edit.Key)
        → IsAt s (store_of counted.old) tree steps above f → 0 < length (keys_in (node_of s id.0).kind)
        → key_view key.now ≡ texts_key above id.0 (map (spec.key_text keys s) (keys_in (node_of s id.0).kind))
        → Meets id f (spec.the_one (edit_number missing) id.0
        (spec.positions_where id.0 (spec.fits_keys s (keys_in (node_of s id.0).kind) keys) 1 (tree_of f))) result }
    ensures reads { reads (store_of counted.new) ≤ reads (store_of counted.old) + 2 }
    ensures kept { OnlyReads (store_of counted.old) (store_of counted.new) }
    ensures same_reference { lent counted.new ≡ lent counted.old }
{
    if 1 < counted.holder_count(key) {
        return Err(refused(EditCode::E6));
    }
    match counted.holder(key, 0) {
        Some(node) => Ok(node),
        None => Err(refused(missing)),
    }
}

/// The entry of a list without keys, of which any fits: E6 where there are several.
fn only_entry(
    counted: &mut Counted<'_>,
    missing: EditCode,
    above: Row,
    id: SchemaId,
) -> Result<NodeId, EditFault>
    ensures meets { (test : document.Tree → Bool) (f : Branches) → Hangs (store_of counted.old) above f
        → ((below : document.Tree) → test below ≡ true)
        → Meets id f (spec.the_one (edit_number missing) id.0 (spec.positions_where id.0 test 1 (tree_of f))) result }
    ensures reads { reads (store_of counted.new) ≤ reads (store_of counted.old) + 2 }
    ensures kept { OnlyReads (store_of counted.old) (store_of counted.new) }
    ensures same_reference { lent counted.new ≡ lent counted.old }
{
    if 1 < counted.count_of(above, id) {
        return Err(refused(EditCode::E6));
    }
    instance_at(counted, missing, above, id, Some(1))
}
