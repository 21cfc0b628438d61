//! The texts of paths.

ghost use Rattle.std.specs.Prelude.{◌≡◌, ◌++◌, Some, IfOk, OnOk, option_and_then, option_map, string_bytes, true, unwrap_or};
ghost use Rattle.yspec.specs.document.Document.{stored_in};
ghost use Rattle.yspec.specs.document.Path as path;
ghost use Rattle.yspec.specs.document.Sorting.{IsSorted};
ghost use Rattle.yspec.specs.edit.Editing.{text_of};
ghost use Rattle.ytype.specs.View as held;
ghost use Rattle.yschema_model.specs.Layout.{numbers_of};
ghost use Rattle.yschema_model.specs.View as schema_view;
ghost use Rattle.yinst_tree.specs.View as document_view;
ghost use Rattle.ysay_place.specs.KeyedPath as spec;
ghost use Rattle.ysay_place.specs.Places.{last_step};

use crate::place::{instance_found, nth_instance, row_found};
use itoa::Buffer;
use std::alloc::{AllocError, Global};
use ycheck::value_of;
use yinst_tree::{Step, Stored, Tree};
use ysay_text::has_control;
use yschema_model::{Kind, Schema, SchemaId};
use ytype::Raw;

/// The name of a node, or no text of a number that no node has.
pub fn name_of(schema: &Schema, id: SchemaId) -> &str
    ensures { result.now ≡ spec.name_of (schema_view.view schema.now) id.0 }
{
    match schema.kind(id) {
        Some(node) => node.name.as_str(),
        None => "",
    }
}

/// The first instance of a leaf in a row.
fn stored_leaf(row: &[Stored], id: SchemaId) -> Option<&Stored>
    ensures { option_map (λ s. (document_view.view s.now).0) result
        ≡ stored_in id.0 (document_view.row_view row.entry.now) }
{
    nth_instance(row, id, 0)
}

/// The value of a leaf in the row below an entry.
pub fn leaf_in(row: &[Stored], id: SchemaId) -> Option<&Raw>
    ensures { option_map (λ raw. held.raw_of raw.now) result
        ≡ spec.leaf_in (document_view.row_view row.entry.now) id.0 }
{
    stored_leaf(row, id)?.value()
}

// ---- predicates, as an edit's path has them

fn has_byte(text: &str, byte: u8) -> bool
    ensures { result ≡ spec.has_byte byte text.now }
{
    text.as_bytes().iter().any(|x| *x == byte)
}

/// The quotes around a text in a path, where it can stand there.
fn quotes_for(text: &str) -> Option<&'static str>
    ensures { option_map (λ quotes. quotes.now) result ≡ spec.quotes_for text.now }
{
    if has_control(text) {
        None
    } else if !has_byte(text, b'\'') {
        Some("'")
    } else if !has_byte(text, b'"') {
        Some("\"")
    } else {
        None
    }
}

fn in_quotes(alloc: Global, text: &str) -> Result<Option<String>, AllocError>
    ensures { IfOk result (λ quoted. option_map string_bytes quoted ≡ spec.in_quotes text.now) }
{
    let Some(quotes) = quotes_for(text) else {
        return Ok(None);
    };
    let mut quoted = String::from_str(alloc, quotes)?;
    quoted.push_str(text)?;
    quoted.push_str(quotes)?;
    Ok(Some(quoted))
}

/// The canonical text of the valid value of a stored leaf.
fn text_of(alloc: Global, schema: &Schema, stored: &Stored) -> Result<Option<String>, AllocError>
    ensures { IfOk result (λ text. option_map string_bytes text
        ≡ text_of (schema_view.view schema.now) (document_view.view stored.now).0) }
{
    let Some(node) = schema.kind(stored.id()) else {
        return Ok(None);
    };
    let Some(leaf_type) = node.kind.leaf_type() else {
        return Ok(None);
    };
    match value_of(alloc, schema, stored)? {
        Some(value) => Ok(Some(value.canonical(alloc, &leaf_type.value_type)?)),
        None => Ok(None),
    }
}

/// The canonical text of a key in the row below an entry.
fn key_text(
    alloc: Global,
    schema: &Schema,
    row: &[Stored],
    key: SchemaId,
) -> Result<Option<String>, AllocError>
    ensures { IfOk result (λ text. option_map string_bytes text
        ≡ spec.key_text (schema_view.view schema.now) (document_view.row_view row.now) key.0) }
{
    match stored_leaf(row, key) {
        Some(stored) => text_of(alloc, schema, stored),
        None => Ok(None),
    }
}

fn key_predicate(
    alloc: Global,
    schema: &Schema,
    row: &[Stored],
    key: SchemaId,
) -> Result<Option<String>, AllocError>
    ensures { IfOk result (λ text. option_map string_bytes text
        ≡ spec.key_predicate (schema_view.view schema.now) (document_view.row_view row.now)
        key.0) }
{
    let Some(text) = key_text(alloc, schema, row, key)? else {
        return Ok(None);
    };
    let Some(quoted) = in_quotes(alloc, text.as_str())? else {
        return Ok(None);
    };
    let predicate = ["[", name_of(schema, key), "=", quoted.as_str(), "]"].concat(alloc)?;
    Ok(Some(predicate))
}

/// The predicates of some keys, where each has one.
fn all_predicates(
    alloc: Global,
    schema: &Schema,
    row: &[Stored],
    keys: &[SchemaId],
) -> Result<Option<String>, AllocError>
    ensures { IfOk result (λ text. option_map string_bytes text
        ≡ spec.all_predicates (schema_view.view schema.now) (document_view.row_view row.now)
        (numbers_of keys.now)) }
{
    let mut text = String::new(alloc);
    for key in keys {
        match key_predicate(alloc, schema, row, *key)? {
            Some(predicate) => text.push_str(predicate.as_str())?,
            None => return Ok(None),
        }
    }
    Ok(Some(text))
}

/// Those of the keys of a list, where there are any.
fn key_predicates(
    alloc: Global,
    schema: &Schema,
    row: &[Stored],
    keys: &[SchemaId],
) -> Result<Option<String>, AllocError>
    ensures { IfOk result (λ text. option_map string_bytes text
        ≡ spec.key_predicates (schema_view.view schema.now) (document_view.row_view row.now)
        (numbers_of keys.now)) }
{
    match keys.split_first() {
        Some(_) => all_predicates(alloc, schema, row, keys),
        None => Ok(None),
    }
}

fn position_text(alloc: Global, position: Option<usize>) -> Result<String, AllocError>
    ensures { IfOk result (λ text. string_bytes text ≡ path.position_text position) }
{
    match position {
        Some(number) => {
            let mut digits = Buffer::new();
            ["[", digits.format(number), "]"].concat(alloc)
        }
        None => Ok(String::new(alloc)),
    }
}

/// The predicates of the keys of an entry, else its position.
fn entry_predicate(
    alloc: Global,
    schema: &Schema,
    row: &[Stored],
    keys: &[SchemaId],
    position: usize,
) -> Result<String, AllocError>
    ensures { IfOk result (λ text. string_bytes text
        ≡ unwrap_or (spec.key_predicates (schema_view.view schema.now)
        (document_view.row_view row.now) (numbers_of keys.now)) (path.position_text (Some position))) }
{
    match key_predicates(alloc, schema, row, keys)? {
        Some(text) => Ok(text),
        None => position_text(alloc, Some(position)),
    }
}

/// What stands behind the name of a list or leaf-list for one of its instances.
fn instance_predicate(
    alloc: Global,
    schema: &Schema,
    kind: &Kind,
    below: &[Stored],
    position: usize,
) -> Result<String, AllocError>
    ensures { IfOk result (λ text. string_bytes text
        ≡ spec.instance_predicate (schema_view.view schema.now) (schema_view.kind_view kind.now)
        (document_view.row_view below.now) position) }
{
    match kind {
        Kind::List { tuples, .. } => {
            entry_predicate(alloc, schema, below, &tuples.keys, position)
        }
        _ => position_text(alloc, Some(position)),
    }
}

/// What stands behind the name of the node to which a step leads from a row.
fn predicate(
    alloc: Global,
    schema: &Schema,
    row: &[Stored],
    in_order: bool,
    step: &Step,
) -> Result<String, AllocError>
    requires { in_order ≡ true → IsSorted (document_view.row_view row.now) }
    ensures { let s = document_view.step_view step.now in
        IfOk result (λ text. string_bytes text
        ≡ spec.predicate (schema_view.view schema.now) (document_view.row_view row.now)
        s s.position) }
{
    let Some(position) = step.position else {
        return Ok(String::new(alloc));
    };
    match schema.kind(step.id) {
        Some(node) => match instance_found(row, in_order, step) {
            Some(found) => instance_predicate(alloc, schema, &node.kind, found.below(), position),
            None => position_text(alloc, step.position),
        },
        None => position_text(alloc, step.position),
    }
}

/// The name of the node of a step, behind a slash.
fn named_step(
    alloc: Global,
    schema: &Schema,
    parent_module: Option<usize>,
    id: SchemaId,
) -> Result<String, AllocError>
    ensures { IfOk result (λ text. string_bytes text
        ≡ spec.named_step (schema_view.view schema.now) parent_module id.0) }
{
    match schema.kind(id) {
        Some(node) => {
            let name = schema.written_name(alloc, parent_module, node)?;
            ["/", name.as_str()].concat(alloc)
        }
        None => Ok(String::new(alloc)),
    }
}

/// Adds a step to the text of a path with keys.
fn add_keyed_step(
    alloc: Global,
    schema: &Schema,
    parent_module: Option<usize>,
    row: &[Stored],
    in_order: bool,
    step: &Step,
    text: &mut String,
) -> Result<(), AllocError>
    requires { in_order ≡ true → IsSorted (document_view.row_view row.now) }
    ensures { OnOk result (string_bytes text.new ≡ string_bytes text.old
        ++ spec.keyed_step (schema_view.view schema.now) parent_module
        (document_view.row_view row.now) (document_view.step_view step.now)) }
{
    let name = named_step(alloc, schema, parent_module, step.id)?;
    let behind = predicate(alloc, schema, row, in_order, step)?;
    text.push_str(name.as_str())?;
    text.push_str(behind.as_str())?;
    Ok(())
}

/// The module of the node that a step names.
fn module_after(schema: &Schema, step: &Step) -> Option<usize>
    ensures { result
        ≡ path.module_after (schema_view.view schema.now) (document_view.step_view step.now) }
{
    match schema.kind(step.id) {
        Some(node) => Some(node.module),
        None => None,
    }
}

/// The module of the node to which steps lead.
pub fn module_at(schema: &Schema, steps: &[Step]) -> Option<usize>
    ensures { let s = schema_view.view schema.now in
        result ≡ option_and_then (path.module_after s) (last_step (document_view.place_view steps.now)) }
{
    match steps.split_last() {
        Some((step, _)) => module_after(schema, step),
        None => None,
    }
}

/// The path of the place to which steps lead, with keys in place of positions where an edit finds an entry by them:
/// `/module:list[key='text']`, and `[n]` for items, and where keys are missing, invalid or can't stand in a path (RFC 7951,
/// 6.11).
pub fn keyed_path(
    alloc: Global,
    schema: &Schema,
    tree: &Tree,
    steps: &[Step],
) -> Result<String, AllocError>
    ensures { let s = schema_view.view schema.now in
        IfOk result (λ text. string_bytes text
        ≡ spec.keyed_path s (document_view.tree_view tree.now)
        (document_view.place_view steps.now)) }
{
    if steps.is_empty() {
        return String::from_str(alloc, "/");
    }
    let mut text = String::new(alloc);
    let mut parent_module = None;
    let in_order = tree.is_in_order();
    let mut row = tree.roots();
    for step in steps {
        add_keyed_step(alloc, schema, parent_module, row, in_order, step, &mut text)?;
        parent_module = module_after(schema, step);
        row = row_found(row, in_order, step);
    }
    Ok(text)
}

/// Adds a step to the text of a path with positions.
fn add_step(
    alloc: Global,
    schema: &Schema,
    parent_module: Option<usize>,
    step: &Step,
    text: &mut String,
) -> Result<(), AllocError>
    ensures { OnOk result (string_bytes text.new ≡ string_bytes text.old
        ++ path.step_text (schema_view.view schema.now) parent_module
        (document_view.step_view step.now)) }
{
    let name = named_step(alloc, schema, parent_module, step.id)?;
    let position = position_text(alloc, step.position)?;
    text.push_str(name.as_str())?;
    text.push_str(position.as_str())?;
    Ok(())
}

/// The path of some steps with positions, as the line of a fault has it.
pub fn position_path(alloc: Global, schema: &Schema, steps: &[Step]) -> Result<String, AllocError>
    ensures { let s = schema_view.view schema.now in
        IfOk result (λ text. string_bytes text
        ≡ path.path_text s (document_view.place_view steps.now)) }
{
    if steps.is_empty() {
        return String::from_str(alloc, "/");
    }
    let mut text = String::new(alloc);
    let mut parent_module = None;
    for step in steps {
        add_step(alloc, schema, parent_module, step, &mut text)?;
        parent_module = module_after(schema, step);
    }
    Ok(text)
}
