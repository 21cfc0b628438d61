//! The tuples that tell the entries of a list apart (RFC 7950, 7.8.2 and 7.8.3).

ghost use Rattle.std.specs.Prelude.{◌≡◌, ◌+◌, ◌*◌, ◌≤◌, IfOk, length, map, option_map};
ghost use Rattle.yspec.specs.document.Instances.{own_path, paths_of, tuple_of_paths};
ghost use Rattle.yschema_model.specs.Layout.{numbers_of, tuples_view};
ghost use Rattle.yschema_model.specs.View as schema_view;
ghost use Rattle.ystore.specs.Store.{reads};
ghost use Rattle.ystore.specs.Views.{store_of, lent};
ghost use Rattle.ystore_tree.specs.Hanging.{Branches, Hangs, tree_of};
ghost use Rattle.ystore_tree.specs.Parts.{OnlyReads};
ghost use Rattle.ylive_facts.specs.Reads.{path_reads};

use crate::values::{leaf_value, value_at};
use std::alloc::AllocError;
use yschema_model::{Schema, SchemaId, Tuples};
use ystore::{Counted, Row};
use ytype::Val;

/// The tuple of that number of an entry, from 0 for the key, given the row below it.
pub fn tuple_of(
    counted: &mut Counted<'_>,
    schema: &Schema,
    tuples: &Tuples,
    row: Row,
    number: usize,
) -> Result<Option<Vec<Val>>, AllocError>
    ensures tuple { let s = schema_view.view schema.now in
        IfOk result (λ tuple. (f : Branches) → Hangs (store_of counted.old) row f
        → option_map (λ vs. vs.items) tuple
        ≡ tuple_of_paths s (tree_of f) (paths_of (tuples_view tuples.now) number)) }
    ensures kept { OnlyReads (store_of counted.old) (store_of counted.new) }
    ensures reads { reads (store_of counted.new) ≤ reads (store_of counted.old) + path_reads (paths_of (tuples_view tuples.now) number) }
    ensures same_reference { lent counted.new ≡ lent counted.old }
{
    if number == 0 {
        return key_of(counted, schema, &tuples.keys, row);
    }
    match tuples.uniques.get(number - 1) {
        Some(paths) => unique_of(counted, schema, paths, row),
        None => Ok(None),
    }
}

/// The values of the leafs of a key, where there are any and all have one.
fn key_of(
    counted: &mut Counted<'_>,
    schema: &Schema,
    keys: &[SchemaId],
    row: Row,
) -> Result<Option<Vec<Val>>, AllocError>
    ensures tuple { let s = schema_view.view schema.now in
        IfOk result (λ tuple. (f : Branches) → Hangs (store_of counted.old) row f
        → option_map (λ vs. vs.items) tuple
        ≡ tuple_of_paths s (tree_of f) (map own_path (numbers_of keys.now))) }
    ensures kept { OnlyReads (store_of counted.old) (store_of counted.new) }
    ensures reads { reads (store_of counted.new) ≤ reads (store_of counted.old) + 2 * length keys.now }
    ensures same_reference { lent counted.new ≡ lent counted.old }
{
    if keys.is_empty() {
        return Ok(None);
    }
    let mut values = Vec::with_capacity(counted.alloc(), keys.len())?;
    for key in keys {
        match leaf_value(counted, schema, Some(row), *key)? {
            Some(value) => values.push(value)?,
            None => return Ok(None),
        }
    }
    Ok(Some(values))
}

/// The values of the leafs of a `unique`, where there are any and all have one.
fn unique_of(
    counted: &mut Counted<'_>,
    schema: &Schema,
    paths: &[Vec<SchemaId>],
    row: Row,
) -> Result<Option<Vec<Val>>, AllocError>
    ensures tuple { let s = schema_view.view schema.now in
        IfOk result (λ tuple. (f : Branches) → Hangs (store_of counted.old) row f
        → option_map (λ vs. vs.items) tuple
        ≡ tuple_of_paths s (tree_of f) (map (λ path. numbers_of path.items) paths.now)) }
    ensures kept { OnlyReads (store_of counted.old) (store_of counted.new) }
    ensures reads { reads (store_of counted.new) ≤ reads (store_of counted.old) + path_reads (map (λ path. numbers_of path.items) paths.now) }
    ensures same_reference { lent counted.new ≡ lent counted.old }
{
    if paths.is_empty() {
        return Ok(None);
    }
    let mut values = Vec::with_capacity(counted.alloc(), paths.len())?;
    for path in paths {
        match value_at(counted, schema, Some(row), path)? {
            Some(value) => values.push(value)?,
            None => return Ok(None),
        }
    }
    Ok(Some(values))
}
