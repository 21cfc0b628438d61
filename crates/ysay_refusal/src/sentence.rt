//! What is said of a document that is refused.

ghost use Rattle.std.specs.Prelude.{◌≡◌, ◌++◌, IfOk, codes, option_map, string_bytes};
ghost use Rattle.serde_json.specs.View as json;
ghost use Rattle.yschema_model.specs.Layout.{number_of};
ghost use Rattle.yschema_model.specs.View.{kind_view, view};
ghost use Rattle.yinst_tree.specs.Told.{code_number};
ghost use Rattle.yinst_tree.specs.View.{place_view, step_view};
ghost use Rattle.ysay_refusal.specs.Sentence as spec;

use crate::member::{due_name, near_name, strange_member};
use crate::no_json::said_of_no_json;
use crate::number::of_number;
use crate::place::{last_step, node_after, value_from};
use serde_json::Value;
use std::alloc::{AllocError, Global};
use yinst_tree::{DocCode, Step};
use ysay_text::shown;
use yschema_model::{JsonForm, Kind, Schema, SchemaId};

// ---- J3 and J4

fn unknown_near(alloc: Global, name: &str, near: &str) -> Result<String, AllocError>
    ensures { IfOk result (λ text. string_bytes text ≡ codes "nothing called \""
        ++ (name.now ++ (codes "\" may stand here; near it: " ++ (near.now ++ codes ".")))) }
{
    [
        "nothing called \"",
        name,
        "\" may stand here; near it: ",
        near,
        ".",
    ]
    .concat(alloc)
}

/// That nothing is called so, with the name that is near if one is.
pub fn unknown_member(alloc: Global, name: &str, near: Option<String>) -> Result<String, AllocError>
    ensures { IfOk result (λ text. string_bytes text
        ≡ spec.unknown_member name.now (option_map string_bytes near)) }
{
    let text = shown(alloc, name.as_bytes())?;
    match near {
        Some(near) => unknown_near(alloc, text.as_str(), near.as_str()),
        None => ["nothing called \"", text.as_str(), "\" may stand here."].concat(alloc),
    }
}

fn written_otherwise(alloc: Global, name: &str, due: &str) -> Result<String, AllocError>
    ensures { IfOk result (λ text. string_bytes text
        ≡ codes "here \"" ++ (name.now ++ (codes "\" is written " ++ (due.now ++ codes ".")))) }
{
    ["here \"", name, "\" is written ", due, "."].concat(alloc)
}

/// How a member is written that stands in the other form; nothing where it isn't one that is due.
pub fn other_member(alloc: Global, name: &str, due: Option<String>) -> Result<String, AllocError>
    ensures { IfOk result (λ text. string_bytes text
        ≡ spec.other_member name.now (option_map string_bytes due)) }
{
    match due {
        Some(due) => {
            let text = shown(alloc, name.as_bytes())?;
            written_otherwise(alloc, text.as_str(), due.as_str())
        }
        None => Ok(String::new(alloc)),
    }
}

/// Of the members of a value below a node, or at the top, of which one isn't known.
fn of_unknown(
    alloc: Global,
    schema: &Schema,
    parent: Option<SchemaId>,
    value: &Value,
) -> Result<String, AllocError>
    ensures { IfOk result (λ text. string_bytes text
        ≡ spec.of_unknown (view schema.now) (number_of parent) (json.view value.now)) }
{
    match strange_member(schema, parent, value) {
        Some(name) => {
            let near = near_name(alloc, schema, parent, name)?;
            unknown_member(alloc, name, near)
        }
        None => Ok(String::new(alloc)),
    }
}

/// Of the members of a value below a node, or at the top, of which one is in the form that isn't due.
fn of_other(
    alloc: Global,
    schema: &Schema,
    parent: Option<SchemaId>,
    value: &Value,
) -> Result<String, AllocError>
    ensures { IfOk result (λ text. string_bytes text
        ≡ spec.of_other (view schema.now) (number_of parent) (json.view value.now)) }
{
    match strange_member(schema, parent, value) {
        Some(name) => {
            let due = due_name(alloc, schema, parent, name)?;
            other_member(alloc, name, due)
        }
        None => Ok(String::new(alloc)),
    }
}

// ---- J5

fn kind_of_value(value: &Value) -> &'static str
    ensures { result.now ≡ spec.kind_of_value (json.view value.now) }
{
    match value {
        Value::Null => "null",
        Value::Bool(true) => "true",
        Value::Bool(false) => "false",
        Value::Number(_) => "a number",
        Value::String(_) => "a text",
        Value::Array(_) => "an array",
        Value::Object(_) => "an object",
    }
}

/// What one instance of a node has.
fn wanted_of_one(kind: &Kind) -> &'static str
    ensures { result.now ≡ spec.wanted_of_one (kind_view kind.now) }
{
    if !kind.has_value() {
        "an object"
    } else if kind.is_many() {
        "an item's value"
    } else {
        match kind.form() {
            JsonForm::AnyObject => "an object",
            JsonForm::ByType | JsonForm::AnyValue => "a leaf's value",
        }
    }
}

/// What a node wants, at a position or as a whole.
fn wanted_kind(kind: &Kind, is_one: bool) -> &'static str
    ensures { result.now ≡ spec.wanted_kind (kind_view kind.now) is_one }
{
    if kind.is_many() && !is_one {
        "an array"
    } else {
        wanted_of_one(kind)
    }
}

fn wanted_at(schema: &Schema, step: &Step) -> &'static str
    ensures { result.now ≡ spec.wanted_at (view schema.now) (step_view step.now) }
{
    match schema.kind(step.id) {
        Some(node) => wanted_kind(&node.kind, step.position.is_some()),
        None => "",
    }
}

/// Of a value of another kind than the last step to it wants.
fn of_kind(
    alloc: Global,
    schema: &Schema,
    step: Option<&Step>,
    value: &Value,
) -> Result<String, AllocError>
    ensures { IfOk result (λ text. string_bytes text ≡ spec.of_kind (view schema.now)
        (option_map (λ step. step_view step.now) step.entry) (json.view value.now)) }
{
    match step {
        Some(step) => {
            [
                kind_of_value(value),
                " stands where ",
                wanted_at(schema, step),
                " is due.",
            ]
            .concat(alloc)
        }
        None => Ok(String::new(alloc)),
    }
}

// ---- all

/// Of the value at the place of a refusal, by the last step to it.
pub fn said_at(
    alloc: Global,
    schema: &Schema,
    code: DocCode,
    step: Option<&Step>,
    value: &Value,
) -> Result<String, AllocError>
    ensures { IfOk result (λ text. string_bytes text
        ≡ spec.said_at (view schema.now) (code_number code)
        (option_map (λ step. step_view step.now) step.entry) (json.view value.now)) }
{
    match code {
        DocCode::J3 => of_unknown(alloc, schema, node_after(step), value),
        DocCode::J4 => of_other(alloc, schema, node_after(step), value),
        DocCode::J5 => of_kind(alloc, schema, step, value),
        DocCode::J6 => of_number(alloc, schema, node_after(step)),
        DocCode::J1 | DocCode::J2 | DocCode::J7 => Ok(String::new(alloc)),
    }
}

/// Of the refusal of a value.
fn said_of_value(
    alloc: Global,
    schema: &Schema,
    code: DocCode,
    place: &[Step],
    value: &Value,
) -> Result<String, AllocError>
    ensures { IfOk result (λ text. string_bytes text ≡ spec.said_of_value (view schema.now)
        (code_number code) (place_view place.now) (json.view value.now)) }
{
    match value_from(alloc, schema, None, place, value)? {
        Some(found) => said_at(alloc, schema, code, last_step(place), found),
        None => Ok(String::new(alloc)),
    }
}

/// What is said of the refusal of a document's bytes at a place, by what stands there: of a member that isn't known (J3)
/// or is in the form that isn't due (J4), of a value of another kind than is due (J5), and of a number that is no whole one of 64
/// bits (J6); of bytes that are no JSON (J1) what is wrong there first, if it is often met; an empty text of all else.
pub fn said_of_refusal(
    alloc: Global,
    schema: &Schema,
    bytes: &[u8],
    code: DocCode,
    place: &[Step],
) -> Result<String, AllocError>
    ensures { IfOk result (λ text. string_bytes text ≡ spec.said_of_refusal (view schema.now)
        bytes.now (record { code = code_number code; place = place_view place.now })) }
{
    match Value::from_slice(alloc, bytes) {
        Ok(value) => said_of_value(alloc, schema, code, place, &value),
        Err(error) if error.is_memory() => Err(AllocError),
        Err(_) => said_of_no_json(alloc, bytes),
    }
}
