//! What is said of the values of a key or a `unique` (RFC 7950, 7.8.2 and 7.8.3).

ghost use Rattle.std.specs.Prelude.{◌≡◌, IfOk, map, option_map, string_bytes};
ghost use Rattle.yspec.specs.document.Document as document;
ghost use Rattle.ytype.specs.View as held;
ghost use Rattle.yschema_model.specs.Layout.{numbers_of, tuples_view};
ghost use Rattle.yschema_model.specs.View as schema_view;
ghost use Rattle.yinst_tree.specs.View as document_view;
ghost use Rattle.ysay_value.specs.TupleWords as spec;

use crate::joining::joined;
use crate::values::{bare_text, quoted, value_text};
use std::alloc::{AllocError, Global};
use yinst_tree::{Step, Stored};
use ysay_place::{leaf_in, name_of, row_to};
use yschema_model::{Kind, Schema, SchemaId, Tuples};
use ytype::Raw;

// ---- what the schema says of a list

fn tuples_in(kind: &Kind) -> Option<&Tuples>
    ensures { option_map (λ t. tuples_view t.now) result
        ≡ spec.tuples_in (schema_view.kind_view kind.now) }
{
    match kind {
        Kind::List { tuples, .. } => Some(tuples),
        _ => None,
    }
}

fn tuples_at(schema: &Schema, id: SchemaId) -> Option<&Tuples>
    ensures { option_map (λ t. tuples_view t.now) result
        ≡ spec.tuples_at (schema_view.view schema.now) id.0 }
{
    tuples_in(&schema.kind(id)?.kind)
}

/// The leafs of a list's key, in order.
pub fn keys_at(schema: &Schema, id: SchemaId) -> &[SchemaId]
    ensures { numbers_of result.now ≡ spec.keys_at (schema_view.view schema.now) id.0 }
{
    match tuples_at(schema, id) {
        Some(tuples) => &tuples.keys,
        None => &[],
    }
}

/// The leafs of a `unique` of these; the first is 1.
fn unique_of(tuples: &Tuples, number: usize) -> &[Vec<SchemaId>]
    ensures { map (λ path. numbers_of path.items) result.now
        ≡ spec.unique_of (tuples_view tuples.now) number }
{
    match tuples.uniques.get(number.saturating_sub(1)) {
        Some(paths) => paths,
        None => &[],
    }
}

/// The leafs of a `unique` of a list; the first is 1.
pub fn unique_at(schema: &Schema, id: SchemaId, number: usize) -> &[Vec<SchemaId>]
    ensures { map (λ path. numbers_of path.items) result.now
        ≡ spec.unique_at (schema_view.view schema.now) id.0 number }
{
    match tuples_at(schema, id) {
        Some(tuples) => unique_of(tuples, number),
        None => &[],
    }
}

// ---- the leafs below an entry

fn step_to(id: SchemaId) -> Step
    ensures { document_view.step_view result ≡ document.step_to id.0 }
{
    Step { id, position: None }
}

/// The value of a leaf in the containers that lead to it.
#[tactic(auto, using(crate::proofs::TupleLemmas::no_leaf, crate::proofs::TupleLemmas::next_leaf))]
fn leaf_at<'a>(row: &'a [Stored], path: &[SchemaId]) -> Option<&'a Raw>
    ensures { option_map (λ raw. held.raw_of raw.now) result
        ≡ spec.leaf_at (document_view.row_view row.entry.now) (numbers_of path.now) }
{
    let mut row = row;
    let mut leaf = None;
    for id in path {
        leaf = leaf_in(row, *id);
        row = row_to(row, &step_to(*id));
    }
    leaf
}

fn found_words(alloc: Global, raw: Option<&Raw>) -> Result<String, AllocError>
    ensures { IfOk result (λ text. string_bytes text
        ≡ spec.found_words (option_map (λ r. held.raw_of r.now) raw.entry)) }
{
    match raw {
        Some(raw) => value_text(alloc, Some(raw)),
        None => String::from_str(alloc, "by default"),
    }
}

/// The name of a leaf behind those of its containers.
fn path_name(alloc: Global, schema: &Schema, path: &[SchemaId]) -> Result<String, AllocError>
    ensures { IfOk result (λ text. string_bytes text
        ≡ spec.path_name (schema_view.view schema.now) (numbers_of path.now)) }
{
    let mut names = Vec::with_capacity(alloc, path.len())?;
    for id in path {
        names.push(String::from_str(alloc, name_of(schema, *id))?)?;
    }
    joined(alloc, "/", &names)
}

/// The name of a leaf and its value.
fn leaf_words(
    alloc: Global,
    schema: &Schema,
    row: &[Stored],
    path: &[SchemaId],
) -> Result<String, AllocError>
    ensures { IfOk result (λ text. string_bytes text
        ≡ spec.leaf_words (schema_view.view schema.now) (document_view.row_view row.now)
        (numbers_of path.now)) }
{
    let name = path_name(alloc, schema, path)?;
    let value = found_words(alloc, leaf_at(row, path))?;
    [name.as_str(), " ", value.as_str()].concat(alloc)
}

// ---- what is said of them

fn key_noun(count: usize) -> &'static str
    ensures { result.now ≡ spec.key_noun count }
{
    if count == 1 { "key " } else { "keys " }
}

fn that_of(count: usize) -> &'static str
    ensures { result.now ≡ spec.that_of count }
{
    if count == 1 {
        " is that of "
    } else {
        " are those of "
    }
}

/// The name of a key and its value.
fn key_words(
    alloc: Global,
    schema: &Schema,
    row: &[Stored],
    key: SchemaId,
) -> Result<String, AllocError>
    ensures { IfOk result (λ text. string_bytes text
        ≡ spec.key_words (schema_view.view schema.now) (document_view.row_view row.now) key.0) }
{
    let bare = bare_text(alloc, leaf_in(row, key))?;
    let value = quoted(alloc, bare.as_str())?;
    [name_of(schema, key), "=", value.as_str()].concat(alloc)
}

/// The keys of an entry, given the row below it; they are those of another.
pub fn keys_said(
    alloc: Global,
    schema: &Schema,
    row: &[Stored],
    keys: &[SchemaId],
) -> Result<String, AllocError>
    ensures { IfOk result (λ text. string_bytes text
        ≡ spec.keys_said (schema_view.view schema.now) (document_view.row_view row.now)
        (numbers_of keys.now)) }
{
    let mut words = Vec::with_capacity(alloc, keys.len())?;
    for key in keys {
        words.push(key_words(alloc, schema, row, *key)?)?;
    }
    let text = joined(alloc, " and ", &words)?;
    [
        "its ",
        key_noun(keys.len()),
        text.as_str(),
        that_of(keys.len()),
    ]
    .concat(alloc)
}

/// The leafs of a `unique` of an entry, given the row below it; they are those of another.
pub fn leafs_said(
    alloc: Global,
    schema: &Schema,
    row: &[Stored],
    paths: &[Vec<SchemaId>],
) -> Result<String, AllocError>
    ensures { IfOk result (λ text. string_bytes text
        ≡ spec.leafs_said (schema_view.view schema.now) (document_view.row_view row.now)
        (map (λ path. numbers_of path.items) paths.now)) }
{
    let mut words = Vec::with_capacity(alloc, paths.len())?;
    for path in paths {
        words.push(leaf_words(alloc, schema, row, path)?)?;
    }
    let text = joined(alloc, " and ", &words)?;
    ["its ", text.as_str(), that_of(paths.len())].concat(alloc)
}
