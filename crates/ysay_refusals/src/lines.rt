//! Lines of what is found.

ghost use Rattle.std.specs.Prelude.{◌≡◌, ◌++◌, ◌-◌, IfOk, OnOk, length, string_bytes, take};
ghost use Rattle.std.specs.List.{flat_map};
ghost use Rattle.serde_json.specs.View as json;
ghost use Rattle.yschema_model.specs.Layout.{number_of};
ghost use Rattle.yschema_model.specs.View.{view};
ghost use Rattle.yinst_tree.specs.Told.{code_number};
ghost use Rattle.yinst_tree.specs.View.{place_view};
ghost use Rattle.ysay_refusal.specs.Place as places;
ghost use Rattle.ysay_refusals.specs.Lines as spec;
ghost use Rattle.ysay_refusals.specs.Remarks as remarks_spec;
ghost use Rattle.ysay_refusals.specs.View.{remark_view, remarks_view};

use crate::walk::{Remark, remark_members};
use itoa::Buffer;
use serde_json::Value;
use std::alloc::{AllocError, Global};
use yinst_tree::{DocCode, Step};
use ysay_place::position_path;
use ysay_refusal::{due_name, last_step, near_name, other_member, said_at, unknown_member};
use yschema_model::{Schema, SchemaId};

/// So many have a line.
const MOST_LINES: usize = 100;

/// The node to which a place leads; none at the top.
fn parent_at(place: &[Step]) -> Option<SchemaId>
    ensures { number_of result ≡ places.number_after (places.last_step (place_view place.now)) }
{
    match last_step(place) {
        Some(step) => Some(step.id),
        None => None,
    }
}

/// Of a name that isn't known or isn't in the form that is due below a node, or at the top.
fn said_of_name(
    alloc: Global,
    schema: &Schema,
    code: DocCode,
    place: &[Step],
    name: &str,
) -> Result<String, AllocError>
    ensures { IfOk result (λ said. string_bytes said
        ≡ spec.said_of_name (view schema.now) (code_number code) (place_view place.now) name.now) }
{
    let parent = parent_at(place);
    if code == DocCode::J3 {
        let near = near_name(alloc, schema, parent, name)?;
        unknown_member(alloc, name, near)
    } else {
        let due = due_name(alloc, schema, parent, name)?;
        other_member(alloc, name, due)
    }
}

/// What is said, behind a colon; nothing of an empty text.
fn said_part(alloc: Global, said: &str) -> Result<String, AllocError>
    ensures { IfOk result (λ part. string_bytes part ≡ spec.said_part said.now) }
{
    if said.is_empty() {
        Ok(String::new(alloc))
    } else {
        [": ", said].concat(alloc)
    }
}

/// The line of a code at a place, of which this is said.
fn line_of(
    alloc: Global,
    schema: &Schema,
    code: DocCode,
    place: &[Step],
    said: &str,
) -> Result<String, AllocError>
    ensures { IfOk result (λ line. string_bytes line
        ≡ spec.line_of (view schema.now) (code_number code) (place_view place.now) said.now) }
{
    let mut digits = Buffer::new();
    let number = digits.format(code.number());
    let path = position_path(alloc, schema, place)?;
    let part = said_part(alloc, said)?;
    ["  J", number, " ", path.as_str(), part.as_str(), "\n"].concat(alloc)
}

fn remark_line(alloc: Global, schema: &Schema, remark: &Remark<'_>) -> Result<String, AllocError>
    ensures { IfOk result (λ line. string_bytes line ≡ spec.remark_line (view schema.now) (remark_view remark.now)) }
{
    match remark {
        Remark::OfName(code, place, name) => {
            let said = said_of_name(alloc, schema, *code, place, *name)?;
            line_of(alloc, schema, *code, place, said.as_str())
        }
        Remark::OfValue(code, place, value) => {
            let said = said_at(alloc, schema, *code, last_step(place), *value)?;
            line_of(alloc, schema, *code, place, said.as_str())
        }
    }
}

/// How many more there are, if any.
fn more_line(alloc: Global, count: usize) -> Result<String, AllocError>
    ensures { IfOk result (λ line. string_bytes line ≡ spec.more_line count) }
{
    if count == 0 {
        return Ok(String::new(alloc));
    }
    let mut digits = Buffer::new();
    ["  and ", digits.format(count), " more.\n"].concat(alloc)
}

/// The lines of some.
fn lines_of(alloc: Global, schema: &Schema, remarks: &[Remark<'_>]) -> Result<String, AllocError>
    ensures { IfOk result (λ lines. string_bytes lines ≡ flat_map (spec.remark_line (view schema.now)) (remarks_view remarks.now)) }
{
    let mut lines = String::new(alloc);
    for remark in remarks {
        let line = remark_line(alloc, schema, remark)?;
        lines.push_str(line.as_str())?;
    }
    Ok(lines)
}

/// Those of some that have a line.
fn told_of<'a, 'b>(others: &'b [Remark<'a>]) -> &'b [Remark<'a>]
    ensures { remarks_view result.now ≡ take spec.most_lines (remarks_view others.entry.now) }
{
    if others.len() > MOST_LINES {
        &others[..MOST_LINES]
    } else {
        others
    }
}

/// The lines of some behind the first, and how many more there are.
fn other_lines(alloc: Global, schema: &Schema, others: &[Remark<'_>]) -> Result<String, AllocError>
    ensures { IfOk result (λ lines. string_bytes lines ≡ spec.other_lines (view schema.now) (remarks_view others.now)) }
{
    let mut lines = lines_of(alloc, schema, told_of(others))?;
    let more = more_line(alloc, others.len().saturating_sub(MOST_LINES))?;
    lines.push_str(more.as_str())?;
    Ok(lines)
}

/// Of all in a value, but the first.
fn lines_behind(alloc: Global, schema: &Schema, value: &Value) -> Result<String, AllocError>
    ensures { IfOk result (λ lines. string_bytes lines
        ≡ spec.lines_behind (view schema.now) (remarks_spec.all_remarks (view schema.now) (json.view value.now))) }
{
    let mut remarks = Vec::new(alloc);
    if let Value::Object(members) = value {
        remark_members(
            alloc,
            schema,
            None,
            members,
            &mut Vec::new(alloc),
            &mut remarks,
        )?;
    }
    match remarks.as_slice() {
        [_, others @ ..] => other_lines(alloc, schema, others),
        [] => Ok(String::new(alloc)),
    }
}

fn has_others(code: DocCode) -> bool
    ensures { result ≡ spec.has_others (code_number code) }
{
    matches!(code, DocCode::J3 | DocCode::J4 | DocCode::J5 | DocCode::J6)
}

/// The same of bytes; nothing of such as are no JSON.
fn others_in(alloc: Global, schema: &Schema, bytes: &[u8]) -> Result<String, AllocError>
    ensures { IfOk result (λ lines. string_bytes lines ≡ spec.others_in (view schema.now) bytes.now) }
{
    match Value::from_slice(alloc, bytes) {
        Ok(value) => lines_behind(alloc, schema, &value),
        Err(error) if error.is_memory() => Err(AllocError),
        Err(_) => Ok(String::new(alloc)),
    }
}

/// Of a document's bytes that are refused first for a code: a line for each other value and name for which they are, of which
/// a hundred are told, and how many more there are. Nothing where a document as a whole is refused (J1, J2, J7).
#[tactic(auto, unfolding(crate::specs::Lines::said_of_others))]
pub fn said_of_others(
    alloc: Global,
    schema: &Schema,
    bytes: &[u8],
    code: DocCode,
    place: &[Step],
) -> Result<String, AllocError>
    ensures { IfOk result (λ lines. string_bytes lines ≡ spec.said_of_others (view schema.now)
        bytes.now (record { code = code_number code; place = place_view place.now })) }
{
    if has_others(code) {
        others_in(alloc, schema, bytes)
    } else {
        Ok(String::new(alloc))
    }
}
