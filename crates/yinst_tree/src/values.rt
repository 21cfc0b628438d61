//! What a leaf has of a JSON value (RFC 7951, 5.5, 5.6 and 6).

ghost use Rattle.std.specs.Prelude.{◌≡◌, true, IfOk, is_some, nat_le, option_map, unwrap_or};
ghost use Rattle.serde_json.specs.Data.{depth, items_depth, members_depth, null};
ghost use Rattle.serde_json.specs.Written as spell;
ghost use Rattle.serde_json.specs.View.{view, items_view, members_view, number_view};
ghost use Rattle.yspec.specs.document.Reading as spec;
ghost use Rattle.yspec.specs.document.Writing as spelled;
ghost use Rattle.yspec.specs.types.Types.{int, text as spec_text};
ghost use Rattle.ytype.specs.View as held;
ghost use Rattle.yschema_model.specs.Layout.{form_view};
ghost use Rattle.yinst_tree.specs.Told.{code_number, leaf_refusal, refusal_by, whole_refusal};

use crate::fault::DocCode;
use serde_json::{Map, Number, Value};
use std::alloc::{AllocError, Global};
use yschema_model::JsonForm;
use ytype::Raw;

/// Why a leaf may not hold a value, where it may not: J6 for a number that is no whole one of 64 bits, else J5.
pub fn refusal_in(form: JsonForm, value: &Value) -> Option<DocCode>
    ensures { option_map code_number result ≡ refusal_by (form_view form) (view value.now) }
{
    match form {
        JsonForm::ByType => refusal_of(value),
        JsonForm::AnyValue => refusal_of_whole(value),
        JsonForm::AnyObject => {
            if is_object(value) {
                refusal_of_whole(value)
            } else {
                Some(DocCode::J5)
            }
        }
    }
}

pub(crate) fn is_object(value: &Value) -> bool
    ensures { result ≡ spec.is_object (view value.now) }
{
    matches!(value, Value::Object(_))
}

/// The same where any value may be held.
fn refusal_of_whole(value: &Value) -> Option<DocCode>
    ensures { option_map code_number result ≡ whole_refusal (view value.now) }
{
    if has_float(value) {
        Some(DocCode::J6)
    } else if nests_within(value, NESTING_LIMIT) {
        None
    } else {
        Some(DocCode::J5)
    }
}

/// How deep the values of `anydata` and `anyxml` nest at most.
const NESTING_LIMIT: usize = 64;

/// Whether a value is kept: its numbers are whole ones of 64 bits, and it isn't too deep.
fn is_kept(value: &Value) -> bool
    ensures { result ≡ spec.is_kept (view value.now) }
{
    !has_float(value) && nests_within(value, NESTING_LIMIT)
}

/// Whether a value nests no deeper than a number.
#[cycle(nesting)]
fn nests_within(value: &Value, most: usize) -> bool
    ensures { result ≡ nat_le (depth (view value.now)) most }
{
    match value {
        Value::Array(items) => most > 0 && items_nest_within(items, most - 1),
        Value::Object(members) => most > 0 && members_nest_within(members, most - 1),
        _ => true,
    }
}

#[cycle(nesting)]
fn items_nest_within(items: &[Value], most: usize) -> bool
    ensures { result ≡ nat_le (items_depth (items_view items.now)) most }
{
    for item in items {
        if !nests_within(item, most) {
            return false;
        }
    }
    true
}

#[cycle(nesting)]
fn members_nest_within(members: &Map<String, Value>, most: usize) -> bool
    ensures { result ≡ nat_le (members_depth (members_view members.now.entries)) most }
{
    for (_, value) in members.iter() {
        if !nests_within(value, most) {
            return false;
        }
    }
    true
}

/// Whether a value has a number that is no whole one of 64 bits.
#[cycle(floats)]
fn has_float(value: &Value) -> bool
    ensures { result ≡ spell.has_float (view value.now) }
{
    match value {
        Value::Number(number) => number.is_f64(),
        Value::Array(items) => items_have_float(items),
        Value::Object(members) => members_have_float(members),
        _ => false,
    }
}

#[cycle(floats)]
fn items_have_float(items: &[Value]) -> bool
    ensures { result ≡ spell.items_have_float (items_view items.now) }
{
    for item in items {
        if has_float(item) {
            return true;
        }
    }
    false
}

#[cycle(floats)]
fn members_have_float(members: &Map<String, Value>) -> bool
    ensures { result ≡ spell.members_have_float (members_view members.now.entries) }
{
    for (_, value) in members.iter() {
        if has_float(value) {
            return true;
        }
    }
    false
}

/// The same where it is as its type says.
fn refusal_of(value: &Value) -> Option<DocCode>
    ensures { option_map code_number result ≡ leaf_refusal (view value.now) }
{
    match value {
        Value::String(_) | Value::Bool(_) => None,
        Value::Number(number) if whole_of(number).is_none() => Some(DocCode::J6),
        Value::Number(_) => None,
        Value::Array(items) if is_empty_value(items) => None,
        _ => Some(DocCode::J5),
    }
}

/// The whole number of 64 bits that a number is.
fn whole_of(number: &Number) -> Option<i128>
    ensures { option_map (λ z. int z) result ≡ spec.raw_number (number_view number.now) }
{
    if let Some(whole) = number.as_u64() {
        return Some(whole as i128);
    }
    match number.as_i64() {
        Some(whole) => Some(whole as i128),
        None => None,
    }
}

fn is_empty_value(items: &[Value]) -> bool
    ensures { result ≡ is_some (spec.raw_array (items_view items.now)) }
{
    matches!(items, [Value::Null])
}

/// What a leaf holds of a value, where it may.
pub(crate) fn raw_in(alloc: Global, form: JsonForm, value: Value) -> Result<Option<Raw>, AllocError>
    ensures { IfOk result
        (λ raw. option_map held.raw_of raw ≡ spec.raw_by (form_view form) (view value)) }
{
    match form {
        JsonForm::ByType => Ok(raw_of(value)),
        JsonForm::AnyValue => raw_of_whole(alloc, &value),
        JsonForm::AnyObject => {
            if is_object(&value) {
                raw_of_whole(alloc, &value)
            } else {
                Ok(None)
            }
        }
    }
}

/// What a leaf holds of an object, where it may.
pub(crate) fn raw_of_object(
    alloc: Global,
    form: JsonForm,
    value: &Value,
) -> Result<Option<Raw>, AllocError>
    ensures { IfOk result (λ raw. spec.is_object (view value.now) ≡ true
        → option_map held.raw_of raw ≡ spec.raw_by (form_view form) (view value.now)) }
{
    match form {
        JsonForm::ByType => Ok(None),
        JsonForm::AnyValue => raw_of_whole(alloc, value),
        JsonForm::AnyObject => raw_of_whole(alloc, value),
    }
}

/// The compact text of a value that is kept.
fn raw_of_whole(alloc: Global, value: &Value) -> Result<Option<Raw>, AllocError>
    ensures { IfOk result (λ raw. option_map held.raw_of raw ≡ spec.whole_raw (view value.now)) }
{
    if is_kept(value) {
        Ok(Some(Raw::Text(value.to_string(alloc)?)))
    } else {
        Ok(None)
    }
}

/// The value that a text spells, where such a one is kept; else `null`.
pub(crate) fn whole_value(alloc: Global, text: &str) -> Result<Value, AllocError>
    ensures { IfOk result (λ value. view value ≡ spelled.whole_data (spec_text text.now)) }
{
    match Value::from_str(alloc, text) {
        Ok(value) => Ok(if_kept(value)),
        Err(error) if error.is_memory() => Err(AllocError),
        Err(_) => Ok(Value::Null),
    }
}

fn if_kept(value: Value) -> Value
    ensures { view result ≡ unwrap_or (spelled.if_kept (view value)) null }
{
    if is_kept(&value) { value } else { Value::Null }
}

/// The same where it is as its type says.
fn raw_of(value: Value) -> Option<Raw>
    ensures { option_map held.raw_of result ≡ spec.raw_of (view value) }
{
    match value {
        Value::String(text) => Some(Raw::Text(text)),
        Value::Bool(flag) => Some(Raw::Bool(flag)),
        Value::Number(number) => match whole_of(&number) {
            Some(whole) => Some(Raw::Int(whole)),
            None => None,
        },
        Value::Array(items) => {
            if is_empty_value(&items) {
                Some(Raw::Empty)
            } else {
                None
            }
        }
        Value::Object(_members) => None,
        Value::Null => None,
    }
}
