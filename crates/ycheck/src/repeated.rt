//! Entries with the same tuple, and items with the same value (RFC 7950, 7.7, 7.8.2 and 7.8.3).

ghost use Rattle.std.specs.Prelude.{◌≡◌, IfOk, IsSorted, count_by, map, nat_lt, option_map};
ghost use Rattle.std.specs.List.{list_any};
ghost use Rattle.std.specs.Ordering.{eq_by_cmp};
ghost use Rattle.yspec.specs.types.Order.{same_value};
ghost use Rattle.yspec.specs.document.Instances.{own_path, paths_of, tuple_of_paths, same_tuple};
ghost use Rattle.yschema_model.specs.Layout.{numbers_of, tuples_view};
ghost use Rattle.yschema_model.specs.View as schema_view;
ghost use Rattle.yinst_tree.specs.View as document_view;
ghost use Rattle.ycheck.specs.Repeated.{marks, times_among, values_of, tuples_of};

use crate::values::{leaf_value, valid_value, value_at};
use std::alloc::{AllocError, Global};
use yinst_tree::Stored;
use yschema_model::{Schema, SchemaId, Tuples};
use ytype::{Val, YType};

/// The keys that are there, in their order.
fn sorted_keys<'k, K: Ord>(alloc: Global, keys: &'k [Option<K>]) -> Result<Vec<&'k K>, AllocError>
    ensures sorted { IfOk result (λ sorted. IsSorted (λ a b. K.cmp a.now b.now) sorted.items) }
    ensures all { IfOk result (λ sorted. (q : K)
        → count_by (λ k. eq_by_cmp K.cmp q k.now) sorted.items ≡ times_among (eq_by_cmp K.cmp) keys.now q) }
{
    let mut sorted = Vec::with_capacity(alloc, keys.len())?;
    'collect: for key in keys {
        if let Some(key) = key {
            sorted.push(key)?;
        }
    }
    sorted.sort()?;
    Ok(sorted)
}

/// Of keys in their order, those that come more than once, in their order.
fn repeated_keys<'k, K: Ord>(alloc: Global, sorted: &[&'k K]) -> Result<Vec<&'k K>, AllocError>
    requires { IsSorted (λ a b. K.cmp a.now b.now) sorted.now }
    ensures sorted { IfOk result (λ twice. IsSorted (λ a b. K.cmp a.now b.now) twice.items) }
    ensures all { IfOk result (λ twice. (q : K)
        → list_any (λ k. eq_by_cmp K.cmp q k.now) twice.items
        ≡ nat_lt 1 (count_by (λ k. eq_by_cmp K.cmp q k.now) sorted.now)) }
{
    let mut twice = Vec::new(alloc);
    'compare: for place in 1..sorted.len() {
        let next = sorted[place];
        if sorted[place - 1].cmp(next).is_eq() {
            twice.push(next)?;
        }
    }
    Ok(twice)
}

/// Whether a key is among keys in their order.
fn is_among<K: Ord>(sorted: &[&K], key: &K) -> bool
    requires { IsSorted (λ a b. K.cmp a.now b.now) sorted.now }
    ensures { result ≡ list_any (λ k. eq_by_cmp K.cmp key.now k.now) sorted.now }
{
    sorted.binary_search(&key).is_ok()
}

/// Of each of these keys, whether it is there and comes more than once.
fn repeats<K: Ord>(alloc: Global, keys: &[Option<K>]) -> Result<Vec<bool>, AllocError>
    ensures { IfOk result (λ found. found.items ≡ marks (eq_by_cmp K.cmp) keys.now) }
{
    let sorted = sorted_keys(alloc, keys)?;
    let twice = repeated_keys(alloc, &sorted)?;
    let mut found = Vec::with_capacity(alloc, keys.len())?;
    'mark: for key in keys {
        let again = match key {
            Some(key) => is_among(&twice, key),
            None => false,
        };
        found.push(again)?;
    }
    Ok(found)
}

/// Of each of these items, whether it has a valid value that comes more than once.
pub(crate) fn repeated_items(
    alloc: Global,
    value_type: &YType,
    items: &[Stored],
) -> Result<Vec<bool>, AllocError>
    ensures { IfOk result (λ found. found.items
        ≡ marks same_value (values_of value_type.now items.now)) }
{
    let mut values = Vec::with_capacity(alloc, items.len())?;
    for item in items {
        values.push(valid_value(alloc, value_type, item.value())?)?;
    }
    repeats(alloc, &values)
}

/// Of each of these entries, whether it has its tuple of that number, from 0 for the key, and the tuple comes more than
/// once.
pub(crate) fn repeated_tuples(
    alloc: Global,
    schema: &Schema,
    tuples: &Tuples,
    entries: &[Stored],
    number: usize,
) -> Result<Vec<bool>, AllocError>
    ensures { let s = schema_view.view schema.now in
        IfOk result (λ found. found.items
        ≡ marks same_tuple (tuples_of s (tuples_view tuples.now) number entries.now)) }
{
    let mut found = Vec::with_capacity(alloc, entries.len())?;
    for entry in entries {
        found.push(tuple_of(alloc, schema, tuples, entry.below(), number)?)?;
    }
    repeats(alloc, &found)
}

/// The tuple of that number of an entry, given the row below it.
pub fn tuple_of(
    alloc: Global,
    schema: &Schema,
    tuples: &Tuples,
    row: &[Stored],
    number: usize,
) -> Result<Option<Vec<Val>>, AllocError>
    ensures { let s = schema_view.view schema.now in
        IfOk result (λ tuple. option_map (λ vs. vs.items) tuple
        ≡ tuple_of_paths s (document_view.row_view row.now)
        (paths_of (tuples_view tuples.now) number)) }
{
    if number == 0 {
        return key_of(alloc, schema, &tuples.keys, row);
    }
    match tuples.uniques.get(number - 1) {
        Some(paths) => unique_of(alloc, schema, paths, row),
        None => Ok(None),
    }
}

/// The values of the leafs of a key, where there are any and all have one.
fn key_of(
    alloc: Global,
    schema: &Schema,
    keys: &[SchemaId],
    row: &[Stored],
) -> Result<Option<Vec<Val>>, AllocError>
    ensures { let s = schema_view.view schema.now in
        IfOk result (λ tuple. option_map (λ vs. vs.items) tuple
        ≡ tuple_of_paths s (document_view.row_view row.now) (map own_path (numbers_of keys.now))) }
{
    if keys.is_empty() {
        return Ok(None);
    }
    let mut values = Vec::with_capacity(alloc, keys.len())?;
    for key in keys {
        match leaf_value(alloc, schema, row, *key)? {
            Some(value) => values.push(value)?,
            None => return Ok(None),
        }
    }
    Ok(Some(values))
}

/// The values of the leafs of a `unique`, where there are any and all have one.
fn unique_of(
    alloc: Global,
    schema: &Schema,
    paths: &[Vec<SchemaId>],
    row: &[Stored],
) -> Result<Option<Vec<Val>>, AllocError>
    ensures { let s = schema_view.view schema.now in
        IfOk result (λ tuple. option_map (λ vs. vs.items) tuple
        ≡ tuple_of_paths s (document_view.row_view row.now)
        (map (λ path. numbers_of path.items) paths.now)) }
{
    if paths.is_empty() {
        return Ok(None);
    }
    let mut values = Vec::with_capacity(alloc, paths.len())?;
    for path in paths {
        match value_at(alloc, schema, row, path)? {
            Some(value) => values.push(value)?,
            None => return Ok(None),
        }
    }
    Ok(Some(values))
}
