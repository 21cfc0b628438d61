//! What is said of each code.

ghost use Rattle.std.specs.Prelude.{◌≡◌, IfOk, option_and_then, option_map, string_bytes, true, unwrap_or};
ghost use Rattle.std.specs.Option.{option_map_or};
ghost use Rattle.yspec.specs.document.Sorting.{IsSorted};
ghost use Rattle.ytype.specs.View as held;
ghost use Rattle.yspec.specs.schema.References as references;
ghost use Rattle.yschema_model.specs.Layout.{amount_view, leaf_type_view, number_of};
ghost use Rattle.yschema_model.specs.View as schema_view;
ghost use Rattle.yinst_tree.specs.View as document_view;
ghost use Rattle.ysay_fault.specs.Fellows.{fellow_entry, fellow_item};
ghost use Rattle.ysay_value.specs.Messages.{message_words};
ghost use Rattle.ysay_value.specs.Values as values;
ghost use Rattle.ysay_fault.specs.Sentences as spec;

use crate::cases::stored_case_names;
use crate::fellows::fellow_text;
use itoa::Buffer;
use std::alloc::{AllocError, Global};
use ycheck::valid_value;
use yinst_tree::{Step, Stored, Tree};
use ysay_place::{count_of, instance_found, module_at, row_at, row_found, target_path};
use ysay_value::{
    hint_words, keys_at, keys_said, leafs_said, message_at, message_words, near_words, taken_words,
    type_at, unique_at, value_text,
};
use yschema_model::{Amount, Children, Kind, LeafType, Schema, SchemaId};
use ytype::{Raw, Val};

// ---- what the schema says

/// The name of the type of a leaf or leaf-list as its module writes it.
fn type_name(schema: &Schema, id: SchemaId) -> &str
    ensures { result.now ≡ spec.type_name (schema_view.view schema.now) id.0 }
{
    match type_at(schema, id) {
        Some(leaf_type) => leaf_type.name.text(),
        None => "",
    }
}

/// What that type takes.
fn taken_at(alloc: Global, schema: &Schema, id: SchemaId) -> Result<String, AllocError>
    ensures { IfOk result (λ text. string_bytes text
        ≡ spec.taken_at (schema_view.view schema.now) id.0) }
{
    match type_at(schema, id) {
        Some(leaf_type) => taken_words(alloc, &leaf_type.value_type),
        None => Ok(String::new(alloc)),
    }
}

/// What is said behind that of a value which it doesn't take.
fn hint_at(
    alloc: Global,
    schema: &Schema,
    id: SchemaId,
    raw: Option<&Raw>,
) -> Result<String, AllocError>
    ensures { IfOk result (λ text. string_bytes text
        ≡ spec.hint_at (schema_view.view schema.now) id.0
        (option_map (λ r. held.raw_of r.now) raw.entry)) }
{
    match type_at(schema, id) {
        Some(leaf_type) => hint_words(alloc, &leaf_type.value_type, raw),
        None => String::from_str(alloc, "."),
    }
}

/// The schema node to which that member of a union refers which took a value.
fn target_of(leaf_type: &LeafType, value: &Val) -> Option<SchemaId>
    ensures { number_of result ≡ option_map references.number_of
        (references.member_target (leaf_type_view leaf_type.now).targets value.now) }
{
    match leaf_type.member_target(value) {
        Some(member) => Some(member.target),
        None => None,
    }
}

/// The same of that member which takes a value.
fn member_target(
    alloc: Global,
    leaf_type: &LeafType,
    raw: Option<&Raw>,
) -> Result<Option<SchemaId>, AllocError>
    ensures { IfOk result (λ target. number_of target
        ≡ spec.member_target (leaf_type_view leaf_type.now)
        (option_map (λ r. held.raw_of r.now) raw.entry)) }
{
    match valid_value(alloc, &leaf_type.value_type, raw)? {
        Some(value) => Ok(target_of(leaf_type, &value)),
        None => Ok(None),
    }
}

fn target_by(
    alloc: Global,
    leaf_type: &LeafType,
    raw: Option<&Raw>,
) -> Result<Option<SchemaId>, AllocError>
    ensures { IfOk result (λ target. number_of target
        ≡ spec.target_by (leaf_type_view leaf_type.now)
        (option_map (λ r. held.raw_of r.now) raw.entry)) }
{
    match leaf_type.target {
        Some(target) => Ok(Some(target)),
        None => member_target(alloc, leaf_type, raw),
    }
}

/// The schema node to which a leaf or item refers that has a value.
fn target_at(
    alloc: Global,
    schema: &Schema,
    id: SchemaId,
    raw: Option<&Raw>,
) -> Result<Option<SchemaId>, AllocError>
    ensures { IfOk result (λ target. number_of target
        ≡ spec.target_at (schema_view.view schema.now) id.0
        (option_map (λ r. held.raw_of r.now) raw.entry)) }
{
    match type_at(schema, id) {
        Some(leaf_type) => target_by(alloc, leaf_type, raw),
        None => Ok(None),
    }
}

fn amount_in(kind: &Kind) -> Option<&Amount>
    ensures { option_map (λ a. amount_view a.now) result
        ≡ spec.amount_in (schema_view.kind_view kind.now) }
{
    match kind {
        Kind::List { amount, .. } | Kind::LeafList { amount, .. } => Some(amount),
        _ => None,
    }
}

fn amount_at(schema: &Schema, id: SchemaId) -> Option<&Amount>
    ensures { option_map (λ a. amount_view a.now) result
        ≡ spec.amount_at (schema_view.view schema.now) id.0 }
{
    amount_in(&schema.kind(id)?.kind)
}

fn min_elements_of(schema: &Schema, id: SchemaId) -> u32
    ensures { result ≡ option_map_or (λ a. a.min_elements)
        (spec.amount_at (schema_view.view schema.now) id.0) 0 }
{
    match amount_at(schema, id) {
        Some(amount) => amount.min_elements,
        None => 0,
    }
}

fn max_elements_of(schema: &Schema, id: SchemaId) -> u32
    ensures { result ≡ unwrap_or (option_and_then (λ a. a.max_elements)
        (spec.amount_at (schema_view.view schema.now) id.0)) 0 }
{
    match amount_at(schema, id) {
        Some(amount) => amount.max_elements.unwrap_or(0),
        None => 0,
    }
}

// ---- what is said of the last step to a place, from the row in which it leads to a node

/// The value of the leaf or item to which a step leads, as its document has it.
pub(crate) fn raw_to<'a>(row: &'a [Stored], in_order: bool, step: &Step) -> Option<&'a Raw>
    requires order { in_order ≡ true → IsSorted (document_view.row_view row.now) }
    ensures { option_map (λ r. held.raw_of r.now) result
        ≡ spec.value_to (document_view.row_view row.entry.now) (document_view.step_view step.now) }
{
    match instance_found(row, in_order, step) {
        Some(stored) => stored.value(),
        None => None,
    }
}

/// Its text.
fn value_to(
    alloc: Global,
    row: &[Stored],
    in_order: bool,
    step: &Step,
) -> Result<String, AllocError>
    requires order { in_order ≡ true → IsSorted (document_view.row_view row.now) }
    ensures { IfOk result (λ text. string_bytes text
        ≡ values.value_text (spec.value_to (document_view.row_view row.now)
        (document_view.step_view step.now))) }
{
    value_text(alloc, raw_to(row, in_order, step))
}

/// The schema node to which that refers.
fn target_to(
    alloc: Global,
    schema: &Schema,
    row: &[Stored],
    in_order: bool,
    step: &Step,
) -> Result<Option<SchemaId>, AllocError>
    requires order { in_order ≡ true → IsSorted (document_view.row_view row.now) }
    ensures { IfOk result (λ target. number_of target
        ≡ spec.target_to (schema_view.view schema.now) (document_view.row_view row.now)
        (document_view.step_view step.now)) }
{
    target_at(alloc, schema, step.id, raw_to(row, in_order, step))
}

/// The message of the module for that value.
pub(crate) fn message_to(
    alloc: Global,
    schema: &Schema,
    row: &[Stored],
    in_order: bool,
    step: &Step,
) -> Result<Option<String>, AllocError>
    requires order { in_order ≡ true → IsSorted (document_view.row_view row.now) }
    ensures { IfOk result (λ message. option_map string_bytes message
        ≡ spec.message_to (schema_view.view schema.now) (document_view.row_view row.now)
        (document_view.step_view step.now)) }
{
    message_at(alloc, schema, step.id, raw_to(row, in_order, step))
}

/// What is said of that message, behind what is said of the value.
fn said_by_module(
    alloc: Global,
    schema: &Schema,
    row: &[Stored],
    in_order: bool,
    step: &Step,
) -> Result<String, AllocError>
    requires order { in_order ≡ true → IsSorted (document_view.row_view row.now) }
    ensures { IfOk result (λ text. string_bytes text
        ≡ message_words (spec.message_to (schema_view.view schema.now)
        (document_view.row_view row.now) (document_view.step_view step.now))) }
{
    match message_to(alloc, schema, row, in_order, step)? {
        Some(message) => message_words(alloc, Some(message.as_str())),
        None => message_words(alloc, None),
    }
}

/// What the type of a value takes, which isn't that.
fn not_taken(
    alloc: Global,
    schema: &Schema,
    row: &[Stored],
    in_order: bool,
    step: &Step,
) -> Result<String, AllocError>
    requires order { in_order ≡ true → IsSorted (document_view.row_view row.now) }
    ensures { IfOk result (λ text. string_bytes text
        ≡ spec.not_taken (schema_view.view schema.now) (document_view.row_view row.now)
        (document_view.step_view step.now)) }
{
    let value = value_to(alloc, row, in_order, step)?;
    let taken = taken_at(alloc, schema, step.id)?;
    let hint = hint_at(alloc, schema, step.id, raw_to(row, in_order, step))?;
    [
        value.as_str(),
        " isn't a value of ",
        type_name(schema, step.id),
        ": it takes ",
        taken.as_str(),
        hint.as_str(),
    ]
    .concat(alloc)
}

pub(crate) fn wrong_value(
    alloc: Global,
    schema: &Schema,
    row: &[Stored],
    in_order: bool,
    step: &Step,
) -> Result<String, AllocError>
    requires order { in_order ≡ true → IsSorted (document_view.row_view row.now) }
    ensures { IfOk result (λ text. string_bytes text
        ≡ spec.wrong_value (schema_view.view schema.now) (document_view.row_view row.now)
        (document_view.step_view step.now)) }
{
    let said = not_taken(alloc, schema, row, in_order, step)?;
    let message = said_by_module(alloc, schema, row, in_order, step)?;
    [said.as_str(), message.as_str()].concat(alloc)
}

fn name_below(
    alloc: Global,
    schema: &Schema,
    above: &[Step],
    id: SchemaId,
) -> Result<String, AllocError>
    ensures { IfOk result (λ text. string_bytes text
        ≡ spec.name_below (schema_view.view schema.now) (document_view.place_view above.now)
        id.0) }
{
    match schema.kind(id) {
        Some(node) => schema.written_name(alloc, module_at(schema, above), node),
        None => Ok(String::new(alloc)),
    }
}

pub(crate) fn missing_key(
    alloc: Global,
    schema: &Schema,
    above: &[Step],
    id: SchemaId,
) -> Result<String, AllocError>
    ensures { IfOk result (λ text. string_bytes text
        ≡ spec.missing_key (schema_view.view schema.now) (document_view.place_view above.now)
        id.0) }
{
    let name = name_below(alloc, schema, above, id)?;
    ["its key ", name.as_str(), " is missing."].concat(alloc)
}

pub(crate) fn missing_leaf(
    alloc: Global,
    schema: &Schema,
    above: &[Step],
    id: SchemaId,
) -> Result<String, AllocError>
    ensures { IfOk result (λ text. string_bytes text
        ≡ spec.missing_leaf (schema_view.view schema.now) (document_view.place_view above.now)
        id.0) }
{
    let name = name_below(alloc, schema, above, id)?;
    [name.as_str(), " is missing."].concat(alloc)
}

pub(crate) fn too_few(
    alloc: Global,
    schema: &Schema,
    row: &[Stored],
    id: SchemaId,
) -> Result<String, AllocError>
    ensures { IfOk result (λ text. string_bytes text
        ≡ spec.too_few (schema_view.view schema.now) (document_view.row_view row.now) id.0) }
{
    let mut count = Buffer::new();
    let mut wanted = Buffer::new();
    [
        "it has ",
        count.format(count_of(row, id)),
        ", and must have at least ",
        wanted.format(min_elements_of(schema, id)),
        ".",
    ]
    .concat(alloc)
}

pub(crate) fn too_many(
    alloc: Global,
    schema: &Schema,
    row: &[Stored],
    id: SchemaId,
) -> Result<String, AllocError>
    ensures { IfOk result (λ text. string_bytes text
        ≡ spec.too_many (schema_view.view schema.now) (document_view.row_view row.now) id.0) }
{
    let mut count = Buffer::new();
    let mut allowed = Buffer::new();
    [
        "it has ",
        count.format(count_of(row, id)),
        ", and may have at most ",
        allowed.format(max_elements_of(schema, id)),
        ".",
    ]
    .concat(alloc)
}

pub(crate) fn same_key(
    alloc: Global,
    schema: &Schema,
    row: &[Stored],
    in_order: bool,
    above: &[Step],
    step: &Step,
    fellow: Option<usize>,
) -> Result<String, AllocError>
    requires order { in_order ≡ true → IsSorted (document_view.row_view row.now) }
    requires fellow { fellow ≡ fellow_entry (schema_view.view schema.now) 0
        (document_view.row_view row.now) (document_view.step_view step.now) }
    ensures { IfOk result (λ text. string_bytes text
        ≡ spec.same_key (schema_view.view schema.now) (document_view.row_view row.now)
        (document_view.place_view above.now) (document_view.step_view step.now)) }
{
    let said = keys_said(
        alloc,
        schema,
        row_found(row, in_order, step),
        keys_at(schema, step.id),
    )?;
    let path = fellow_text(alloc, schema, above, step.id, fellow)?;
    [said.as_str(), path.as_str(), "."].concat(alloc)
}

pub(crate) fn same_unique(
    alloc: Global,
    schema: &Schema,
    row: &[Stored],
    in_order: bool,
    above: &[Step],
    step: &Step,
    number: usize,
    fellow: Option<usize>,
) -> Result<String, AllocError>
    requires order { in_order ≡ true → IsSorted (document_view.row_view row.now) }
    requires fellow { fellow ≡ fellow_entry (schema_view.view schema.now) number
        (document_view.row_view row.now) (document_view.step_view step.now) }
    ensures { IfOk result (λ text. string_bytes text
        ≡ spec.same_unique (schema_view.view schema.now) (document_view.row_view row.now)
        (document_view.place_view above.now) (document_view.step_view step.now) number) }
{
    let paths = unique_at(schema, step.id, number);
    let said = leafs_said(alloc, schema, row_found(row, in_order, step), paths)?;
    let path = fellow_text(alloc, schema, above, step.id, fellow)?;
    [said.as_str(), path.as_str(), "."].concat(alloc)
}

pub(crate) fn same_item(
    alloc: Global,
    schema: &Schema,
    row: &[Stored],
    in_order: bool,
    above: &[Step],
    step: &Step,
    fellow: Option<usize>,
) -> Result<String, AllocError>
    requires order { in_order ≡ true → IsSorted (document_view.row_view row.now) }
    requires fellow { fellow ≡ fellow_item (schema_view.view schema.now)
        (document_view.row_view row.now) (document_view.step_view step.now) }
    ensures { IfOk result (λ text. string_bytes text
        ≡ spec.same_item (schema_view.view schema.now) (document_view.row_view row.now)
        (document_view.place_view above.now) (document_view.step_view step.now)) }
{
    let value = value_to(alloc, row, in_order, step)?;
    let path = fellow_text(alloc, schema, above, step.id, fellow)?;
    [
        "its value ",
        value.as_str(),
        " is that of ",
        path.as_str(),
        ".",
    ]
    .concat(alloc)
}

pub(crate) fn no_target(
    alloc: Global,
    schema: &Schema,
    tree: &Tree,
    row: &[Stored],
    in_order: bool,
    step: &Step,
) -> Result<String, AllocError>
    requires order { in_order ≡ true → IsSorted (document_view.row_view row.now) }
    ensures { IfOk result (λ text. string_bytes text
        ≡ spec.no_target (schema_view.view schema.now) (document_view.tree_view tree.now)
        (document_view.row_view row.now) (document_view.step_view step.now)) }
{
    let target = target_to(alloc, schema, row, in_order, step)?;
    let path = target_path(alloc, schema, target)?;
    let value = value_to(alloc, row, in_order, step)?;
    let near = near_words(alloc, schema, tree, target, raw_to(row, in_order, step))?;
    [
        "no instance of ",
        path.as_str(),
        " is ",
        value.as_str(),
        near.as_str(),
    ]
    .concat(alloc)
}

pub(crate) fn state_stored(
    alloc: Global,
    schema: &Schema,
    above: &[Step],
    id: SchemaId,
) -> Result<String, AllocError>
    ensures { IfOk result (λ text. string_bytes text
        ≡ spec.state_stored (schema_view.view schema.now) (document_view.place_view above.now)
        id.0) }
{
    let name = name_below(alloc, schema, above, id)?;
    [
        name.as_str(),
        " is config false, so no configuration holds it.",
    ]
    .concat(alloc)
}

// ---- what is said of a choice below a place

pub(crate) fn no_case(alloc: Global, name: &str) -> Result<String, AllocError>
    ensures { IfOk result (λ text. string_bytes text ≡ spec.no_case name.now) }
{
    ["no case of the choice ", name, " is there."].concat(alloc)
}

/// The nodes below the place to which steps lead.
fn children_at<'a>(schema: &'a Schema, steps: &[Step]) -> Children<'a>
    ensures { schema_view.row_view result
        ≡ spec.children_at (schema_view.view schema.entry.now) (document_view.place_view steps.now) }
{
    match steps.split_last() {
        Some((step, _)) => schema.children(step.id),
        None => schema.roots(),
    }
}

pub(crate) fn several_cases(
    alloc: Global,
    schema: &Schema,
    tree: &Tree,
    steps: &[Step],
    name: &str,
) -> Result<String, AllocError>
    ensures { let t = document_view.tree_view tree.now in
        IsSorted t → IfOk result (λ text. string_bytes text
        ≡ spec.several_cases (schema_view.view schema.now) t (document_view.place_view steps.now)
        name.now) }
{
    let names = stored_case_names(alloc, children_at(schema, steps), name, row_at(tree, steps))?;
    [
        "the choice ",
        name,
        " has nodes of more than one case: ",
        names.as_str(),
        ".",
    ]
    .concat(alloc)
}
