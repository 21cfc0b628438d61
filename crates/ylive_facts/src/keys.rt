//! The keys of indexes that nodes hold.

ghost use Rattle.std.specs.Prelude.{◌≡◌, ◌+◌, ◌*◌, ◌≤◌, ◌^◌, ◌++◌, IfOk, OnOk, length, option_and_then, option_map, suc};
ghost use Rattle.std.specs.Option.{option_map_or};
ghost use Rattle.yspec.specs.Forest.{end, node};
ghost use Rattle.yspec.specs.schema.Schema.{node_at};
ghost use Rattle.yspec.specs.document.Instances as spec;
ghost use Rattle.yschema_model.specs.Layout.{kind_view, leaf_type_view, numbers_of, reference_view, tuples_view};
ghost use Rattle.yschema_model.specs.View as schema_view;
ghost use Rattle.yspec_reach.specs.Sizes.{levels};
ghost use Rattle.ystore.specs.Store.{reads};
ghost use Rattle.ystore.specs.Views.{store_of, lent};
ghost use Rattle.ystore_rows.specs.declared.row.Row.TheVariants.{Below};
ghost use Rattle.ystore_tree.specs.Hanging.{Branches, Hangs, Numbered, Stands, stored_of, tree_of};
ghost use Rattle.ystore_tree.specs.Parts.{OnlyReads};
ghost use Rattle.ylive_facts.specs.Rows.{leaf_at};
ghost use Rattle.ylive_facts.specs.Keys as words;
ghost use Rattle.ylive_facts.specs.Reads.{key_reads, names_at, path_reads, slot_reads};

use crate::texts::texts_of;
use crate::tuples::tuple_of;
use crate::values::value_as;
use std::alloc::AllocError;
use yschema_model::{Kind, LeafType, Reference, Schema, SchemaId, Tuples};
use ystore::{Counted, Key, NodeId, Row};
use ytype::Val;

/// How many flags a node of a schema node has: whether another has its value or its tuple of the key, from 0, or of a
/// `unique`, from 1.
pub fn flag_count(schema: &Schema, of: SchemaId) -> usize
    ensures count { result ≡ words.flags_of (schema_view.view schema.now) of.0 }
    ensures bound { result ≤ 2 ^ 63 }
{
    match schema.kind(of) {
        Some(node) => kind_flags(node.distinct_items, &node.kind),
        None => 0,
    }
}

fn kind_flags(distinct: bool, kind: &Kind) -> usize
    ensures count { result ≡ words.kind_flags distinct (kind_view kind.now) }
    ensures bound { result ≤ 2 ^ 63 }
{
    match kind {
        Kind::List { tuples, .. } => 1 + tuples.uniques.len(),
        Kind::LeafList { .. } => { if distinct { 1 } else { 0 } }
        _ => 0,
    }
}

/// The type of a leaf or of items, where a value of it may refer to something that must be there.
fn asking_type(kind: &Kind) -> Option<&LeafType>
    ensures { option_map (λ t. leaf_type_view t.now) result
        ≡ words.asking_type (kind_view kind.now) }
{
    let leaf_type = kind.leaf_type()?;
    if leaf_type.may_require() {
        Some(leaf_type)
    } else {
        None
    }
}

/// What a value refers to, where an instance of it is required.
fn required_key(leaf_type: &LeafType, value: Val) -> Option<Key>
    ensures { option_map words.key_view result
        ≡ words.leaf_key (leaf_type_view leaf_type.now) value }
{
    match leaf_type.reference(value) {
        Some(reference) => key_of(reference),
        None => None,
    }
}

/// The key of a reference, where an instance is required.
fn key_of(reference: Reference) -> Option<Key>
    ensures { option_map words.key_view result
        ≡ words.required_key (reference_view reference) }
{
    if reference.is_required {
        Some(Key::Value(reference.target, reference.value))
    } else {
        None
    }
}

/// What a node of a type refers to, where an instance of it is required.
fn leaf_key(
    counted: &mut Counted<'_>,
    schema: &Schema,
    leaf_type: &LeafType,
    of: SchemaId,
    id: NodeId,
) -> Result<Option<Key>, AllocError>
    ensures key { let s = schema_view.view schema.now in
        IfOk result (λ key. option_map words.key_view key
        ≡ option_and_then (words.leaf_key (leaf_type_view leaf_type.now)) (spec.value_of s (leaf_at (store_of counted.old) of id))) }
    ensures kept { OnlyReads (store_of counted.old) (store_of counted.new) }
    ensures reads { reads (store_of counted.new) ≤ reads (store_of counted.old) + 1 }
    ensures same_reference { lent counted.new ≡ lent counted.old }
{
    match value_as(counted, schema, of, id)? {
        Some(value) => Ok(required_key(leaf_type, value)),
        None => Ok(None),
    }
}

/// What a leaf or item refers to, where an instance of it is required.
fn reference_key(
    counted: &mut Counted<'_>,
    schema: &Schema,
    kind: &Kind,
    of: SchemaId,
    id: NodeId,
) -> Result<Option<Key>, AllocError>
    ensures key { let s = schema_view.view schema.now in
        IfOk result (λ key. option_map words.key_view key
        ≡ words.kind_reference s (kind_view kind.now) (leaf_at (store_of counted.old) of id)) }
    ensures kept { OnlyReads (store_of counted.old) (store_of counted.new) }
    ensures reads { reads (store_of counted.new) ≤ reads (store_of counted.old) + 1 }
    ensures same_reference { lent counted.new ≡ lent counted.old }
{
    match asking_type(kind) {
        Some(leaf_type) => leaf_key(counted, schema, leaf_type, of, id),
        None => Ok(None),
    }
}

/// By what a path finds an entry of a list with this key, if it has one.
fn entry_key(
    counted: &mut Counted<'_>,
    schema: &Schema,
    keys: &[SchemaId],
    above: Row,
    of: SchemaId,
    id: NodeId,
) -> Result<Option<Key>, AllocError>
    ensures key { let s = schema_view.view schema.now in
        IfOk result (λ key. (f : Branches) → Hangs (store_of counted.old) (Below id) f
        → option_map words.key_view key
        ≡ words.entry_key s (numbers_of keys.now) above (leaf_at (store_of counted.old) of id) (tree_of f)) }
    ensures kept { OnlyReads (store_of counted.old) (store_of counted.new) }
    ensures reads { reads (store_of counted.new) ≤ reads (store_of counted.old) + 2 * length keys.now }
    ensures same_reference { lent counted.new ≡ lent counted.old }
{
    if keys.is_empty() {
        return Ok(None);
    }
    match texts_of(counted, schema, keys, Row::Below(id))? {
        Some(texts) => Ok(Some(Key::Texts(above, of, texts))),
        None => Ok(None),
    }
}

/// By what a path finds an entry, and what another node refers to.
fn first_key(
    counted: &mut Counted<'_>,
    schema: &Schema,
    kind: &Kind,
    above: Row,
    of: SchemaId,
    id: NodeId,
) -> Result<Option<Key>, AllocError>
    ensures key { let s = schema_view.view schema.now in
        IfOk result (λ key. (f : Branches) → Hangs (store_of counted.old) (Below id) f
        → option_map words.key_view key
        ≡ words.first_key s (kind_view kind.now) above (leaf_at (store_of counted.old) of id) (tree_of f)) }
    ensures kept { OnlyReads (store_of counted.old) (store_of counted.new) }
    ensures reads { reads (store_of counted.new) ≤ reads (store_of counted.old) + slot_reads (kind_view kind.now) 0 }
    ensures same_reference { lent counted.new ≡ lent counted.old }
{
    match kind {
        Kind::List { tuples, .. } => entry_key(counted, schema, &tuples.keys, above, of, id),
        _ => reference_key(counted, schema, kind, of, id),
    }
}

/// The valid value of an item of a row.
fn item_key(
    counted: &mut Counted<'_>,
    schema: &Schema,
    above: Row,
    of: SchemaId,
    id: NodeId,
) -> Result<Option<Key>, AllocError>
    ensures key { let s = schema_view.view schema.now in
        IfOk result (λ key. option_map words.key_view key
        ≡ option_map (words.item_key above of.0) (spec.value_of s (leaf_at (store_of counted.old) of id))) }
    ensures kept { OnlyReads (store_of counted.old) (store_of counted.new) }
    ensures reads { reads (store_of counted.new) ≤ reads (store_of counted.old) + 1 }
    ensures same_reference { lent counted.new ≡ lent counted.old }
{
    match value_as(counted, schema, of, id)? {
        Some(value) => Ok(Some(Key::Item(above, of, value))),
        None => Ok(None),
    }
}

/// The tuple of that number of an entry of a row.
fn tuple_key(
    counted: &mut Counted<'_>,
    schema: &Schema,
    tuples: &Tuples,
    above: Row,
    of: SchemaId,
    id: NodeId,
    number: usize,
) -> Result<Option<Key>, AllocError>
    ensures key { let s = schema_view.view schema.now in
        IfOk result (λ key. (f : Branches) → Hangs (store_of counted.old) (Below id) f
        → option_map words.key_view key ≡ option_map (words.tuple_key above of.0 number)
        (spec.tuple_of_paths s (tree_of f) (spec.paths_of (tuples_view tuples.now) number))) }
    ensures kept { OnlyReads (store_of counted.old) (store_of counted.new) }
    ensures reads { reads (store_of counted.new) ≤ reads (store_of counted.old) + path_reads (spec.paths_of (tuples_view tuples.now) number) }
    ensures same_reference { lent counted.new ≡ lent counted.old }
{
    match tuple_of(counted, schema, tuples, Row::Below(id), number)? {
        Some(values) => Ok(Some(Key::Tuple(above, of, number, values))),
        None => Ok(None),
    }
}

/// What is flagged of a node of a row at a number: an item's value, or a tuple of an entry.
fn flagged_key(
    counted: &mut Counted<'_>,
    schema: &Schema,
    above: Row,
    of: SchemaId,
    id: NodeId,
    number: usize,
) -> Result<Option<Key>, AllocError>
    ensures key { let s = schema_view.view schema.now in
        IfOk result (λ key. (f : Branches) → Hangs (store_of counted.old) (Below id) f
        → option_map words.key_view key
        ≡ words.flagged_key s above (leaf_at (store_of counted.old) of id) (tree_of f) number) }
    ensures kept { OnlyReads (store_of counted.old) (store_of counted.new) }
    ensures reads { reads (store_of counted.new) ≤ reads (store_of counted.old) + key_reads (schema_view.view schema.now) of.0 (suc number) }
    ensures same_reference { lent counted.new ≡ lent counted.old }
{
    let Some(node) = schema.kind(of) else {
        return Ok(None);
    };
    match &node.kind {
        Kind::List { tuples, .. } => tuple_key(counted, schema, tuples, above, of, id, number),
        Kind::LeafList { .. } => {
            if number == 0 && node.distinct_items {
                item_key(counted, schema, above, of, id)
            } else {
                Ok(None)
            }
        }
        _ => Ok(None),
    }
}

/// The key that a node of a row holds at a slot: at 0 what it refers to or is found by, at 1 and above what is flagged at
/// 0 and above.
pub fn key_at(
    counted: &mut Counted<'_>,
    schema: &Schema,
    above: Row,
    of: SchemaId,
    id: NodeId,
    slot: usize,
) -> Result<Option<Key>, AllocError>
    ensures key { let s = schema_view.view schema.now in
        IfOk result (λ key. (n : Numbered) (below : Branches) → n.id ≡ id → n.schema ≡ of
        → Stands (store_of counted.old) above (node n below end)
        → option_map words.key_view key ≡ words.key_at s above (stored_of n) (tree_of below) slot) }
    ensures kept { OnlyReads (store_of counted.old) (store_of counted.new) }
    ensures reads { reads (store_of counted.new) ≤ reads (store_of counted.old) + key_reads (schema_view.view schema.now) of.0 slot }
    ensures same_reference { lent counted.new ≡ lent counted.old }
{
    if slot > 0 {
        return flagged_key(counted, schema, above, of, id, slot - 1);
    }
    match schema.kind(of) {
        Some(node) => first_key(counted, schema, &node.kind, above, of, id),
        None => Ok(None),
    }
}

/// Puts the keys that a node of a row holds behind others, each with the node.
pub fn keys_of(
    counted: &mut Counted<'_>,
    schema: &Schema,
    above: Row,
    id: NodeId,
    held: &mut Vec<(Key, NodeId)>,
) -> Result<(), AllocError>
    ensures held { let s = schema_view.view schema.now in
        OnOk result ((n : Numbered) (below : Branches) → n.id ≡ id
        → Stands (store_of counted.old) above (node n below end)
        → words.holdings held.new.items ≡ words.holdings held.old.items
        ++ words.held_with id (words.held_by s above (stored_of n) (tree_of below))) }
    ensures kept { OnlyReads (store_of counted.old) (store_of counted.new) }
    ensures reads { let s = schema_view.view schema.now in
        reads (store_of counted.new) ≤ reads (store_of counted.old) + (3 + (levels s + 4) * names_at s (store_of counted.old) id) }
    ensures same_reference { lent counted.new ≡ lent counted.old }
{
    let Some(of) = counted.schema(id) else {
        return Ok(());
    };
    let slots = 1 + flag_count(schema, of);
    for slot in 0..slots {
        if let Some(key) = key_at(counted, schema, above, of, id, slot)? {
            held.push((key, id))?;
        }
    }
    Ok(())
}
