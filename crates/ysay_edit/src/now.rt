//! What is said of an edit that is refused by what is stored, or isn't (E4 to E8): what stands now where its path leads.

ghost use Rattle.std.specs.Prelude.{◌≡◌, ◌++◌, [], codes, decimal, IfOk, OnOk, Ok, None, Some, map, option_and_then, option_map, string_bytes};
ghost use Rattle.std.specs.Option.{option_map_or};
ghost use Rattle.yspec.specs.schema.Schema.{by_type, child_written};
ghost use Rattle.yspec.specs.text.Text.{single_quote};
ghost use Rattle.std.specs.List.{flat_map};
ghost use Rattle.serde_json.specs.Data as json;
ghost use Rattle.serde_json.specs.Written.{compact_text};
ghost use Rattle.ysay_text.specs.Near as near_spec;
ghost use Rattle.ysay_value.specs.NearWords.{texts_in};
ghost use Rattle.ysay_place.specs.KeyedPath as keyed;
ghost use Rattle.yschema_model.specs.Layout.{form_view, kind_view};
ghost use Rattle.yschema_model.specs.View.{view};
ghost use Rattle.yspec.specs.Results.{Gives};
ghost use Rattle.yinst_path.specs.Applying.{edit_number, told_by};
ghost use Rattle.yinst_path.specs.EditView.{edit_view, key_view, keys_view, path_view, predicate_view, step_view, steps_view};
ghost use Rattle.yinst_tree.specs.View.{row_view, tree_view};
ghost use Rattle.yinst.specs.Locating.{spot_view};
ghost use Rattle.yinst.specs.Rows.{branch_view};
ghost use Rattle.ysay_edit.specs.Now as spec;
ghost use Rattle.ysay_edit.specs.NowView.{reached_view};

use itoa::Buffer;
use serde_json::Value;
use std::alloc::{AllocError, Global};
use yinst::{Spot, instance_at, instance_index, instance_meant, part, row_at};
use yinst_path::{BoundStep, Edit, EditCode, EditFault, Key, NamedStep, Path, Predicate, refused};
use yinst_tree::{Stored, Tree};
use ysay_place::{count_of, leaf_in};
use ysay_text::{has_control, nearest, shown};
use ysay_value::value_text;
use yschema_model::{JsonForm, Kind, Schema, SchemaId};
use ytype::Raw;

pub(crate) fn path_in(edit: &Edit) -> &Path
    ensures { path_view result.now ≡ spec.path_in (edit_view edit.entry.now) }
{
    match edit {
        Edit::Create { path, .. } => path,
        Edit::Replace { path, .. } => path,
        Edit::Remove { path } => path,
        Edit::Move { path, .. } => path,
    }
}

// ---- steps, as a path has them

fn has_single_quote(text: &str) -> bool
    ensures { result ≡ keyed.has_byte single_quote text.now }
{
    text.as_bytes().iter().any(|byte| *byte == b'\'')
}

fn quote_for(text: &str) -> &'static str
    ensures { result.now ≡ spec.quote_for text.now }
{
    if has_single_quote(text) { "\"" } else { "'" }
}

/// `[name='text']`, with these quotes.
fn key_between(alloc: Global, name: &str, quote: &str, text: &str) -> Result<String, AllocError>
    ensures { IfOk result (λ written. string_bytes written ≡ codes "[" ++ (name.now ++ (codes "="
        ++ (quote.now ++ (text.now ++ (quote.now ++ codes "]")))))) }
{
    ["[", name, "=", quote, text, quote, "]"].concat(alloc)
}

fn key_written(alloc: Global, key: &Key) -> Result<String, AllocError>
    ensures { IfOk result (λ text. string_bytes text ≡ spec.key_written (key_view key.now)) }
{
    let text = key.text.as_str();
    key_between(alloc, key.name.as_str(), quote_for(text), text)
}

fn keys_written(alloc: Global, keys: &[Key]) -> Result<String, AllocError>
    ensures { IfOk result (λ text. string_bytes text
        ≡ flat_map spec.key_written (keys_view keys.now)) }
{
    let mut text = String::new(alloc);
    for key in keys {
        let written = key_written(alloc, key)?;
        text.push_str(written.as_str())?;
    }
    Ok(text)
}

fn position_written(alloc: Global, position: u32) -> Result<String, AllocError>
    ensures { IfOk result (λ text. string_bytes text ≡ spec.position_written position) }
{
    let mut digits = Buffer::new();
    ["[", digits.format(position), "]"].concat(alloc)
}

fn predicate_written(alloc: Global, predicate: &Predicate) -> Result<String, AllocError>
    ensures { IfOk result (λ text. string_bytes text
        ≡ spec.predicate_written (predicate_view predicate.now)) }
{
    match predicate {
        Predicate::Unsaid => Ok(String::new(alloc)),
        Predicate::Position(position) => position_written(alloc, *position),
        Predicate::Keys(keys) => keys_written(alloc, keys.as_slice()),
    }
}

fn step_written(alloc: Global, step: &NamedStep) -> Result<String, AllocError>
    ensures { IfOk result (λ text. string_bytes text ≡ spec.step_written (step_view step.now)) }
{
    let predicate = predicate_written(alloc, &step.predicate)?;
    [step.name.as_str(), predicate.as_str()].concat(alloc)
}

/// The path of what a name means below a path, which is empty at the top.
fn path_below(alloc: Global, above: &str, name: &str) -> Result<String, AllocError>
    ensures { IfOk result (λ text. string_bytes text ≡ spec.path_below above.now name.now) }
{
    [above, "/", name].concat(alloc)
}

/// The path of the nodes that a step means below a path.
fn path_behind(alloc: Global, above: &str, step: &NamedStep) -> Result<String, AllocError>
    ensures { IfOk result (λ text. string_bytes text
        ≡ spec.path_below above.now (spec.step_written (step_view step.now))) }
{
    let written = step_written(alloc, step)?;
    path_below(alloc, above, written.as_str())
}

// ---- where a path leads now

/// The first step that means no stored node, or else the last: the path above it, its node and the row in which that stands
/// or would stand.
#[derive(Debug, Drop)]
pub(crate) struct Reached<'t, 'e> {
    above: String,
    id: SchemaId,
    row: &'t [Stored],
    step: &'e NamedStep,
    is_last: bool,
}

/// The instance that a step means in a row.
fn meant(
    alloc: Global,
    schema: &Schema,
    row: &[Stored],
    id: SchemaId,
    predicate: &Predicate,
) -> Result<Spot, EditFault>
    ensures { Gives spot_view told_by result (spec.meant (view schema.now) (row_view row.now)
        id.0 (predicate_view predicate.now)) }
{
    match schema.kind(id) {
        Some(_) => instance_meant(
            alloc,
            schema,
            EditCode::E7,
            row,
            BoundStep { id, predicate },
        ),
        None => Err(refused(EditCode::E7)),
    }
}

/// The row below the node that a step means in a row.
fn row_meant<'t>(
    alloc: Global,
    schema: &Schema,
    row: &'t [Stored],
    id: SchemaId,
    predicate: &Predicate,
) -> Result<Option<&'t [Stored]>, AllocError>
    ensures { IfOk result (λ below. option_map (λ b. row_view b.now) below
        ≡ spec.row_meant (view schema.now) (row_view row.entry.now) id.0
        (predicate_view predicate.now)) }
{
    match meant(alloc, schema, row, id, predicate) {
        Ok(spot) => Ok(Some(row_at(row, spot.id, instance_index(spot)))),
        Err(EditFault::Refused { .. }) => Ok(None),
        Err(EditFault::Memory) => Err(AllocError),
    }
}

/// Whether a row has too many nodes to be looked through for each line that is refused: more than 256.
fn is_long(row: &[Stored]) -> bool
    ensures { result ≡ spec.is_long (row_view row.now) }
{
    row.len() > 256
}

/// Where steps lead from the top, unless a long row stands on the way.
fn node_reached<'t, 'e>(
    alloc: Global,
    schema: &Schema,
    top: &'t [Stored],
    steps: &'e [NamedStep],
) -> Result<Option<Reached<'t, 'e>>, AllocError>
    ensures { IfOk result (λ r. option_map reached_view r
        ≡ spec.reached (view schema.now) None [] (row_view top.entry.now)
        (steps_view steps.entry.now)) }
{
    let mut above = String::new(alloc);
    let mut parent = None;
    let mut row = top;
    let mut rest = steps;
    while let Some((step, more)) = rest.split_first() {
        if is_long(row) {
            return Ok(None);
        }
        let Some(id) = schema.child_written(parent, step.name.as_str()) else {
            return Ok(None);
        };
        let is_last = more.is_empty();
        if is_last {
            return Ok(Some(Reached {
                above,
                id,
                row,
                step,
                is_last,
            }));
        }
        let Some(below) = row_meant(alloc, schema, row, id, &step.predicate)? else {
            return Ok(Some(Reached {
                above,
                id,
                row,
                step,
                is_last,
            }));
        };
        above = path_behind(alloc, above.as_str(), step)?;
        parent = Some(id);
        row = below;
        rest = more;
    }
    Ok(None)
}

// ---- sentences

fn in_place(alloc: Global, above: &str) -> Result<String, AllocError>
    ensures { IfOk result (λ text. string_bytes text ≡ spec.in_place above.now) }
{
    if above.is_empty() {
        String::from_str(alloc, "at the top")
    } else {
        ["in ", above].concat(alloc)
    }
}

fn missing_there(alloc: Global, place: &str) -> Result<String, AllocError>
    ensures { IfOk result (λ text. string_bytes text ≡ codes " isn't stored " ++ place.now) }
{
    [" isn't stored ", place].concat(alloc)
}

fn not_stored(alloc: Global, step: &str, place: &str) -> Result<String, AllocError>
    ensures { IfOk result (λ text. string_bytes text ≡ spec.not_stored step.now place.now) }
{
    let rest = missing_there(alloc, place)?;
    [step, rest.as_str()].concat(alloc)
}

fn digits_of(alloc: Global, number: usize) -> Result<String, AllocError>
    ensures { IfOk result (λ text. string_bytes text ≡ decimal number) }
{
    let mut digits = Buffer::new();
    String::from_str(alloc, digits.format(number))
}

fn counted_as(alloc: Global, path: &str, count: &str, position: &str) -> Result<String, AllocError>
    ensures { IfOk result (λ text. string_bytes text
        ≡ spec.counted_as path.now count.now position.now) }
{
    [
        path,
        " has ",
        count,
        ", and position ",
        position,
        " is asked for.",
    ]
    .concat(alloc)
}

fn counted(alloc: Global, path: &str, count: usize, position: usize) -> Result<String, AllocError>
    ensures { IfOk result (λ text. string_bytes text
        ≡ spec.counted path.now count position) }
{
    let stored = digits_of(alloc, count)?;
    let asked = digits_of(alloc, position)?;
    counted_as(alloc, path, stored.as_str(), asked.as_str())
}

fn several_have(alloc: Global, path: &str, name: &str) -> Result<String, AllocError>
    ensures { IfOk result (λ text. string_bytes text ≡ spec.several_have path.now name.now) }
{
    [
        "more than one entry of ",
        path,
        " has these keys: write ",
        name,
        " with a position, as in [1].",
    ]
    .concat(alloc)
}

/// What refused the edit is gone.
fn changed_later(alloc: Global) -> Result<String, AllocError>
    ensures { IfOk result (λ text. string_bytes text ≡ spec.changed_later) }
{
    String::from_str(
        alloc,
        "a line further down changes that: write this one behind it.",
    )
}

// ---- a key that no entry has

/// Adds the text that a key has in the row below an entry, if it has one.
fn add_text<'t>(
    row: &'t [Stored],
    key: SchemaId,
    texts: &mut Vec<&'t str>,
) -> Result<(), AllocError>
    ensures { OnOk result (map (λ t. t.now) texts.new.items ≡ map (λ t. t.now) texts.old.items
        ++ texts_in (keyed.leaf_in (row_view row.entry.now) key.0)) }
{
    match leaf_in(row, key) {
        Some(Raw::Text(text)) => {
            texts.push(text.as_str())?;
            Ok(())
        }
        _ => Ok(()),
    }
}

/// The texts that a key has in the entries of a list.
fn key_texts<'t>(
    alloc: Global,
    id: SchemaId,
    key: SchemaId,
    row: &'t [Stored],
) -> Result<Vec<&'t str>, AllocError>
    ensures { IfOk result (λ texts. map (λ t. t.now) texts.items
        ≡ spec.key_texts id.0 key.0 (row_view row.entry.now)) }
{
    let mut texts = Vec::new(alloc);
    for stored in row {
        if stored.id().0 == id.0 {
            add_text(stored.below(), key, &mut texts)?;
        }
    }
    Ok(texts)
}

/// The nearest text to that of a key.
fn near_text<'t>(
    alloc: Global,
    schema: &Schema,
    id: SchemaId,
    row: &'t [Stored],
    key: &Key,
) -> Result<Option<&'t str>, AllocError>
    ensures { IfOk result (λ near. option_map (λ t. t.now) near ≡ option_and_then (λ k.
        near_spec.nearest (string_bytes key.now.text) (spec.key_texts id.0 k (row_view row.entry.now)))
        (child_written (view schema.now) (Some id.0) (string_bytes key.now.name))) }
{
    match schema.child_written(Some(id), key.name.as_str()) {
        Some(leaf) => {
            let texts = key_texts(alloc, id, leaf, row)?;
            Ok(nearest(key.text.as_str(), &texts))
        }
        None => Ok(None),
    }
}

/// The same of a predicate with one key.
fn near_key<'t>(
    alloc: Global,
    schema: &Schema,
    id: SchemaId,
    row: &'t [Stored],
    predicate: &Predicate,
) -> Result<Option<&'t str>, AllocError>
    ensures { IfOk result (λ near. option_map (λ t. t.now) near
        ≡ spec.near_key (view schema.now) id.0 (row_view row.entry.now)
        (predicate_view predicate.now)) }
{
    match predicate {
        Predicate::Keys(keys) => match keys.split_first() {
            Some((key, [])) => near_text(alloc, schema, id, row, key),
            _ => Ok(None),
        },
        Predicate::Unsaid | Predicate::Position(_) => Ok(None),
    }
}

/// A text as JSON has it.
fn json_text(alloc: Global, text: &str) -> Result<String, AllocError>
    ensures { IfOk result (λ quoted. string_bytes quoted ≡ compact_text (json.string text.now)) }
{
    Value::String(String::from_str(alloc, text)?).to_string(alloc)
}

fn near_said(alloc: Global, near: Option<&str>) -> Result<String, AllocError>
    ensures { IfOk result (λ text. string_bytes text
        ≡ spec.near_said (option_map (λ t. t.now) near.entry)) }
{
    match near {
        Some(text) => {
            let quoted = json_text(alloc, text)?;
            ["; near it: ", quoted.as_str()].concat(alloc)
        }
        None => Ok(String::new(alloc)),
    }
}

// ---- the line that makes what isn't stored

fn begins_number(text: &str) -> bool
    ensures { result ≡ spec.begins_number text.now }
{
    match text.as_bytes().first() {
        Some(byte) => (b'0' <= *byte && *byte <= b'9') || *byte == b'-',
        None => false,
    }
}

/// Whether a text may stand in JSON as it is.
fn is_bare(text: &str) -> bool
    ensures { result ≡ spec.is_bare text.now }
{
    begins_number(text) || (text == "true" || text == "false")
}

fn key_value(alloc: Global, in_quotes: bool, text: &str) -> Result<String, AllocError>
    ensures { IfOk result (λ value. string_bytes value ≡ spec.key_value in_quotes text.now) }
{
    if in_quotes {
        json_text(alloc, text)
    } else {
        String::from_str(alloc, text)
    }
}

/// What stands in front of a member.
fn front_of(is_first: bool) -> &'static str
    ensures { result.now ≡ spec.front_of is_first }
{
    if is_first { "{" } else { "," }
}

fn member_between(alloc: Global, front: &str, name: &str, value: &str) -> Result<String, AllocError>
    ensures { IfOk result (λ text. string_bytes text
        ≡ front.now ++ (codes "\"" ++ (name.now ++ (codes "\":" ++ value.now)))) }
{
    [front, "\"", name, "\":", value].concat(alloc)
}

/// A key and its value, behind what stands in front of it.
fn member_made(
    alloc: Global,
    all_quoted: bool,
    is_first: bool,
    key: &Key,
) -> Result<String, AllocError>
    ensures { IfOk result (λ text. string_bytes text
        ≡ spec.member_made all_quoted is_first (key_view key.now)) }
{
    let text = key.text.as_str();
    let value = key_value(alloc, all_quoted || !is_bare(text), text)?;
    member_between(alloc, front_of(is_first), key.name.as_str(), value.as_str())
}

/// An entry with these keys as JSON; all are in quotes, or those aren't that may stand there without.
fn entry_made(alloc: Global, all_quoted: bool, keys: &[Key]) -> Result<String, AllocError>
    ensures { IfOk result (λ text. string_bytes text
        ≡ spec.entry_made all_quoted (keys_view keys.now)) }
{
    let mut text = String::new(alloc);
    let mut is_first = true;
    for key in keys {
        let member = member_made(alloc, all_quoted, is_first, key)?;
        text.push_str(member.as_str())?;
        is_first = false;
    }
    text.push_str("}")?;
    Ok(text)
}

/// Whether a predicate means a stored node, alone in its row.
fn means_it(
    alloc: Global,
    schema: &Schema,
    id: SchemaId,
    predicate: &Predicate,
    stored: Stored,
) -> Result<bool, AllocError>
    ensures { IfOk result (λ it. it ≡ spec.means_it (view schema.now) id.0
        (predicate_view predicate.now) (Ok (branch_view stored))) }
{
    let mut row = Vec::new(alloc);
    row.push(stored)?;
    match row_meant(alloc, schema, row.as_slice(), id, predicate)? {
        Some(_) => Ok(true),
        None => Ok(false),
    }
}

/// Whether a predicate means the entry that a text of JSON makes.
fn is_found(
    alloc: Global,
    schema: &Schema,
    id: SchemaId,
    predicate: &Predicate,
    text: &str,
) -> Result<bool, AllocError>
    ensures { IfOk result (λ found. found ≡ spec.is_found (view schema.now) id.0
        (predicate_view predicate.now) text.now) }
{
    match part(alloc, schema, id, text) {
        Ok(stored) => means_it(alloc, schema, id, predicate, stored),
        Err(EditFault::Refused { .. }) => Ok(false),
        Err(EditFault::Memory) => Err(AllocError),
    }
}

/// The text of an entry with these keys that the predicate means, if one of both does.
fn found_entry(
    alloc: Global,
    schema: &Schema,
    id: SchemaId,
    predicate: &Predicate,
    keys: &[Key],
) -> Result<Option<String>, AllocError>
    ensures { IfOk result (λ text. option_map string_bytes text
        ≡ spec.found_entry (view schema.now) id.0 (predicate_view predicate.now)
        (keys_view keys.now)) }
{
    let quoted = entry_made(alloc, true, keys)?;
    if is_found(alloc, schema, id, predicate, quoted.as_str())? {
        return Ok(Some(quoted));
    }
    let bare = entry_made(alloc, false, keys)?;
    if is_found(alloc, schema, id, predicate, bare.as_str())? {
        return Ok(Some(bare));
    }
    Ok(None)
}

fn made_by(alloc: Global, path: &str, value: &str) -> Result<String, AllocError>
    ensures { IfOk result (λ text. string_bytes text ≡ spec.made_by path.now value.now) }
{
    ["; this makes it: create ", path, " ", value].concat(alloc)
}

/// How an entry with keys is made.
fn entry_due(
    alloc: Global,
    schema: &Schema,
    path: &str,
    id: SchemaId,
    predicate: &Predicate,
    keys: &[Key],
) -> Result<String, AllocError>
    ensures { IfOk result (λ text. string_bytes text ≡ spec.entry_due path.now
        (spec.found_entry (view schema.now) id.0 (predicate_view predicate.now)
        (keys_view keys.now))) }
{
    match found_entry(alloc, schema, id, predicate, keys)? {
        Some(text) => made_by(alloc, path, text.as_str()),
        None => String::from_str(alloc, "."),
    }
}

/// How what a step doesn't find is made.
fn made(
    alloc: Global,
    schema: &Schema,
    path: &str,
    id: SchemaId,
    predicate: &Predicate,
) -> Result<String, AllocError>
    ensures { IfOk result (λ text. string_bytes text
        ≡ spec.made (view schema.now) path.now id.0 (predicate_view predicate.now)) }
{
    match predicate {
        Predicate::Unsaid => made_by(alloc, path, "{}"),
        Predicate::Position(_) => String::from_str(alloc, "."),
        Predicate::Keys(keys) => { entry_due(alloc, schema, path, id, predicate, keys.as_slice()) }
    }
}

// ---- the step

fn path_of(alloc: Global, r: &Reached<'_, '_>) -> Result<String, AllocError>
    ensures { IfOk result (λ text. string_bytes text ≡ spec.path_of (reached_view r.now)) }
{
    path_below(alloc, r.above.as_str(), r.step.name.as_str())
}

/// Why a step means no node, if it means none.
fn refusal_now(
    alloc: Global,
    schema: &Schema,
    r: &Reached<'_, '_>,
) -> Result<Option<EditCode>, AllocError>
    ensures { IfOk result (λ code. option_map edit_number code
        ≡ spec.refusal_now (view schema.now) (reached_view r.now)) }
{
    match meant(alloc, schema, r.row, r.id, &r.step.predicate) {
        Ok(_) => Ok(None),
        Err(EditFault::Refused { code, .. }) => Ok(Some(code)),
        Err(EditFault::Memory) => Err(AllocError),
    }
}

fn position_in(predicate: &Predicate) -> usize
    ensures { result ≡ spec.position_in (predicate_view predicate.now) }
{
    match predicate {
        Predicate::Position(position) => *position as usize,
        Predicate::Unsaid | Predicate::Keys(_) => 0,
    }
}

fn of_count(alloc: Global, r: &Reached<'_, '_>, position: usize) -> Result<String, AllocError>
    ensures { IfOk result (λ text. string_bytes text
        ≡ spec.of_count (reached_view r.now) position) }
{
    let path = path_of(alloc, r)?;
    counted(alloc, path.as_str(), count_of(r.row, r.id), position)
}

/// What is to be done where a step means nothing, behind the nearest key.
fn near_and_due(
    alloc: Global,
    schema: &Schema,
    r: &Reached<'_, '_>,
    due: &str,
) -> Result<String, AllocError>
    ensures { let n = reached_view r.now in IfOk result (λ text. string_bytes text
        ≡ spec.near_said (spec.near_key (view schema.now) n.number n.row n.step.predicate) ++ due.now) }
{
    let near = near_key(alloc, schema, r.id, r.row, &r.step.predicate)?;
    let mut said = near_said(alloc, near)?;
    said.push_str(due)?;
    Ok(said)
}

/// Where it would stand, and the same behind it.
fn place_and_due(
    alloc: Global,
    schema: &Schema,
    r: &Reached<'_, '_>,
    due: &str,
) -> Result<String, AllocError>
    ensures { let n = reached_view r.now in IfOk result (λ text. string_bytes text
        ≡ spec.in_place n.above ++ (spec.near_said (spec.near_key (view schema.now) n.number n.row
        n.step.predicate) ++ due.now)) }
{
    let mut said = in_place(alloc, r.above.as_str())?;
    let more = near_and_due(alloc, schema, r, due)?;
    said.push_str(more.as_str())?;
    Ok(said)
}

/// Of a step that means nothing that is stored, with what is to be done.
fn of_missing(
    alloc: Global,
    schema: &Schema,
    r: &Reached<'_, '_>,
    due: &str,
) -> Result<String, AllocError>
    ensures { IfOk result (λ text. string_bytes text
        ≡ spec.of_missing (view schema.now) (reached_view r.now) due.now) }
{
    let step = step_written(alloc, r.step)?;
    let place = place_and_due(alloc, schema, r, due)?;
    not_stored(alloc, step.as_str(), place.as_str())
}

fn of_several(alloc: Global, r: &Reached<'_, '_>) -> Result<String, AllocError>
    ensures { let n = reached_view r.now in IfOk result (λ text. string_bytes text
        ≡ spec.several_have (spec.path_of n) n.step.name) }
{
    let path = path_of(alloc, r)?;
    several_have(alloc, path.as_str(), r.step.name.as_str())
}

fn of_refused(
    alloc: Global,
    schema: &Schema,
    r: &Reached<'_, '_>,
    due: &str,
    code: EditCode,
) -> Result<String, AllocError>
    ensures { IfOk result (λ text. string_bytes text
        ≡ spec.of_refused (view schema.now) (reached_view r.now) due.now (edit_number code)) }
{
    match code.number() {
        5 => of_count(alloc, r, position_in(&r.step.predicate)),
        6 => of_several(alloc, r),
        _ => of_missing(alloc, schema, r, due),
    }
}

/// Of a step that isn't the last.
fn of_above(alloc: Global, schema: &Schema, r: &Reached<'_, '_>) -> Result<String, AllocError>
    ensures { IfOk result (λ text. string_bytes text
        ≡ spec.of_above (view schema.now) (reached_view r.now)) }
{
    match refusal_now(alloc, schema, r)? {
        Some(code) => {
            let path = path_of(alloc, r)?;
            let due = made(alloc, schema, path.as_str(), r.id, &r.step.predicate)?;
            of_refused(alloc, schema, r, due.as_str(), code)
        }
        None => changed_later(alloc),
    }
}

// ---- the last step

fn value_is(alloc: Global, path: &str, value: &str) -> Result<String, AllocError>
    ensures { IfOk result (λ text. string_bytes text
        ≡ path.now ++ (codes " is " ++ (value.now ++ codes "."))) }
{
    [path, " is ", value, "."].concat(alloc)
}

fn of_value(alloc: Global, path: &str, stored: &Stored) -> Result<String, AllocError>
    ensures { IfOk result (λ text. string_bytes text
        ≡ spec.of_leaf path.now by_type (branch_view stored.now)) }
{
    let value = value_text(alloc, stored.value())?;
    let seen = shown(alloc, value.as_bytes())?;
    value_is(alloc, path, seen.as_str())
}

fn of_leaf(alloc: Global, path: &str, form: JsonForm, stored: &Stored) -> Result<String, AllocError>
    ensures { IfOk result (λ text. string_bytes text
        ≡ spec.of_leaf path.now (form_view form) (branch_view stored.now)) }
{
    match form {
        JsonForm::ByType => of_value(alloc, path, stored),
        JsonForm::AnyValue | JsonForm::AnyObject => Ok(String::new(alloc)),
    }
}

/// Of what stands where its path leads, by its kind.
fn of_kind(alloc: Global, path: &str, kind: &Kind, stored: &Stored) -> Result<String, AllocError>
    ensures { IfOk result (λ text. string_bytes text
        ≡ spec.of_kind path.now (kind_view kind.now) (branch_view stored.now)) }
{
    match kind {
        Kind::Leaf { leaf_type, .. } => of_leaf(alloc, path, leaf_type.form, stored),
        Kind::Container { .. } => [
            path,
            " is stored: create what is to stand in it, or replace it.",
        ]
        .concat(alloc),
        Kind::LeafList { .. } | Kind::List { .. } | Kind::Choice { .. } | Kind::Case => {
            changed_later(alloc)
        }
    }
}

fn of_stored(
    alloc: Global,
    schema: &Schema,
    r: &Reached<'_, '_>,
    stored: &Stored,
) -> Result<String, AllocError>
    ensures { IfOk result (λ text. string_bytes text
        ≡ spec.of_stored (view schema.now) (reached_view r.now) (branch_view stored.now)) }
{
    let path = path_of(alloc, r)?;
    match schema.kind(r.id) {
        Some(node) => of_kind(alloc, path.as_str(), &node.kind, stored),
        None => changed_later(alloc),
    }
}

/// Of what is to be created, by what stands there.
fn of_created(alloc: Global, schema: &Schema, r: &Reached<'_, '_>) -> Result<String, AllocError>
    ensures { IfOk result (λ text. string_bytes text
        ≡ spec.of_created (view schema.now) (reached_view r.now)) }
{
    let spot = Spot {
        id: r.id,
        position: None,
    };
    match instance_at(r.row, spot) {
        Some(stored) => of_stored(alloc, schema, r, stored),
        None => changed_later(alloc),
    }
}

/// What is to be done where what is to be replaced isn't stored.
fn created_instead(alloc: Global, step: &NamedStep) -> Result<String, AllocError>
    ensures { let s = step_view step.now in IfOk result (λ text. string_bytes text
        ≡ spec.created_instead s.name s.predicate) }
{
    match &step.predicate {
        Predicate::Unsaid => String::from_str(alloc, "; write create in place of replace."),
        Predicate::Position(_) => String::from_str(alloc, "."),
        Predicate::Keys(_) => [
            "; write create in place of replace, and ",
            step.name.as_str(),
            " without a predicate.",
        ]
        .concat(alloc),
    }
}

/// Of what is to be replaced.
fn of_replaced(alloc: Global, schema: &Schema, r: &Reached<'_, '_>) -> Result<String, AllocError>
    ensures { let n = reached_view r.now in IfOk result (λ text. string_bytes text
        ≡ spec.of_step (view schema.now) n (spec.created_instead n.step.name n.step.predicate)
        spec.changed_later) }
{
    match refusal_now(alloc, schema, r)? {
        Some(code) => {
            let due = created_instead(alloc, r.step)?;
            of_refused(alloc, schema, r, due.as_str(), code)
        }
        None => changed_later(alloc),
    }
}

/// Of what is to be removed.
fn of_removed(alloc: Global, schema: &Schema, r: &Reached<'_, '_>) -> Result<String, AllocError>
    ensures { IfOk result (λ text. string_bytes text
        ≡ spec.of_step (view schema.now) (reached_view r.now) (codes ".") spec.changed_later) }
{
    match refusal_now(alloc, schema, r)? {
        Some(code) => of_refused(alloc, schema, r, ".", code),
        None => changed_later(alloc),
    }
}

/// Of a position to which something is to be moved.
fn of_position(alloc: Global, r: &Reached<'_, '_>, position: usize) -> Result<String, AllocError>
    ensures { IfOk result (λ text. string_bytes text
        ≡ spec.of_position (reached_view r.now) position) }
{
    if count_of(r.row, r.id) < position {
        of_count(alloc, r, position)
    } else {
        changed_later(alloc)
    }
}

/// Of what is to be moved.
fn of_moved(
    alloc: Global,
    schema: &Schema,
    r: &Reached<'_, '_>,
    position: usize,
) -> Result<String, AllocError>
    ensures { let n = reached_view r.now in IfOk result (λ text. string_bytes text
        ≡ spec.of_step (view schema.now) n (codes ".") (spec.of_position n position)) }
{
    match refusal_now(alloc, schema, r)? {
        Some(code) => of_refused(alloc, schema, r, ".", code),
        None => of_position(alloc, r, position),
    }
}

fn of_last(
    alloc: Global,
    schema: &Schema,
    edit: &Edit,
    r: &Reached<'_, '_>,
) -> Result<String, AllocError>
    ensures { IfOk result (λ text. string_bytes text
        ≡ spec.of_last (view schema.now) (edit_view edit.now) (reached_view r.now)) }
{
    match edit {
        Edit::Create { .. } => of_created(alloc, schema, r),
        Edit::Replace { .. } => of_replaced(alloc, schema, r),
        Edit::Remove { .. } => of_removed(alloc, schema, r),
        Edit::Move { position, .. } => of_moved(alloc, schema, r, *position as usize),
    }
}

fn of_reached(
    alloc: Global,
    schema: &Schema,
    edit: &Edit,
    r: &Reached<'_, '_>,
) -> Result<String, AllocError>
    ensures { IfOk result (λ text. string_bytes text
        ≡ spec.of_reached (view schema.now) (edit_view edit.now) (reached_view r.now)) }
{
    if r.is_last {
        of_last(alloc, schema, edit, r)
    } else {
        of_above(alloc, schema, r)
    }
}

/// What is said by where the path of an edit leads.
fn of_edit(
    alloc: Global,
    schema: &Schema,
    top: &[Stored],
    edit: &Edit,
) -> Result<String, AllocError>
    ensures { let s = view schema.now in let e = edit_view edit.now in
        IfOk result (λ text. string_bytes text ≡ option_map_or (spec.of_reached s e)
        (spec.reached s None [] (row_view top.now) (spec.path_in e)) []) }
{
    match node_reached(alloc, schema, top, path_in(edit).steps.as_slice())? {
        Some(r) => of_reached(alloc, schema, edit, &r),
        None => Ok(String::new(alloc)),
    }
}

/// Nothing that a terminal would obey is written.
fn unless_control(alloc: Global, text: String) -> Result<String, AllocError>
    ensures { IfOk result (λ said. string_bytes said
        ≡ spec.unless_control (string_bytes text)) }
{
    if has_control(text.as_str()) {
        Ok(String::new(alloc))
    } else {
        Ok(text)
    }
}

/// What is said of an edit that is refused by what is stored, or isn't (E4 to E8), by what stands now.
pub(crate) fn said_now(
    alloc: Global,
    schema: &Schema,
    now: &Tree,
    edit: &Edit,
) -> Result<String, AllocError>
    ensures { IfOk result (λ said. string_bytes said
        ≡ spec.said_now (view schema.now) (tree_view now.now) (edit_view edit.now)) }
{
    let text = of_edit(alloc, schema, now.roots(), edit)?;
    unless_control(alloc, text)
}
