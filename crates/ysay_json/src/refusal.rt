//! What is refused, as lines of JSON without their line feeds.

ghost use Rattle.std.specs.Prelude.{◌≡◌, IfOk, OnOk, option_map, string_bytes};
ghost use Rattle.serde_json.specs.View as json;
ghost use Rattle.ysay_json.specs.RefusalData as spec;
ghost use Rattle.ysay_json.specs.RefusalView.{refused_view};

use crate::members::{put_text, put_value};
use serde_json::{Map, Value};
use std::alloc::{AllocError, Global};

/// A refusal, as far as there is something to say of it: why, by codes, and where.
#[derive(Clone, Copy, Debug)]
pub struct Refused<'a> {
    pub code: Option<&'a str>,
    /// Where an edit is refused for its value, the code of that.
    pub value_code: Option<&'a str>,
    pub tag: &'a str,
    pub message: &'a str,
    pub file: Option<&'a str>,
    pub line: Option<usize>,
    pub path: Option<&'a str>,
}

/// Puts in a member whose value is a text, where there is one.
fn put_text_of(
    alloc: Global,
    name: &str,
    text: Option<&str>,
    members: &mut Map<String, Value>,
) -> Result<(), AllocError>
    ensures { OnOk result (json.members_view members.new.entries
        ≡ spec.with_text_of name.now (option_map (λ t. t.now) text.entry)
        (json.members_view members.old.entries)) }
{
    match text {
        Some(text) => put_text(alloc, name, text, members),
        None => Ok(()),
    }
}

/// Puts in the number of a line, where there is one.
fn put_line_of(
    alloc: Global,
    line: Option<usize>,
    members: &mut Map<String, Value>,
) -> Result<(), AllocError>
    ensures { OnOk result (json.members_view members.new.entries
        ≡ spec.with_line_of line (json.members_view members.old.entries)) }
{
    match line {
        Some(line) => put_value(alloc, "yanglive:line", Value::from(line), members),
        None => Ok(()),
    }
}

/// Puts in the error-type of a refusal, its tag and its message.
fn put_error(
    alloc: Global,
    refused: Refused<'_>,
    members: &mut Map<String, Value>,
) -> Result<(), AllocError>
    ensures { OnOk result (json.members_view members.new.entries
        ≡ spec.with_error (refused_view refused.entry) (json.members_view members.old.entries)) }
{
    put_text(alloc, "error-type", "application", members)?;
    put_text(alloc, "error-tag", refused.tag, members)?;
    put_text(alloc, "error-message", refused.message, members)
}

/// Puts in the codes of a refusal.
fn put_codes(
    alloc: Global,
    refused: Refused<'_>,
    members: &mut Map<String, Value>,
) -> Result<(), AllocError>
    ensures { OnOk result (json.members_view members.new.entries
        ≡ spec.with_codes (refused_view refused.entry) (json.members_view members.old.entries)) }
{
    put_text_of(alloc, "yanglive:code", refused.code, members)?;
    put_text_of(alloc, "yanglive:value-code", refused.value_code, members)
}

/// Puts in where a refusal is.
fn put_place(
    alloc: Global,
    refused: Refused<'_>,
    members: &mut Map<String, Value>,
) -> Result<(), AllocError>
    ensures { OnOk result (json.members_view members.new.entries
        ≡ spec.with_place (refused_view refused.entry) (json.members_view members.old.entries)) }
{
    put_text_of(alloc, "yanglive:file", refused.file, members)?;
    put_line_of(alloc, refused.line, members)?;
    put_text_of(alloc, "yanglive:path", refused.path, members)
}

/// A refusal as an object.
fn refused_value(alloc: Global, refused: Refused<'_>) -> Result<Value, AllocError>
    ensures { IfOk result (λ value. json.view value
        ≡ spec.refused_data (refused_view refused.entry)) }
{
    let mut members = Map::new(alloc);
    put_error(alloc, refused, &mut members)?;
    put_codes(alloc, refused, &mut members)?;
    put_place(alloc, refused, &mut members)?;
    Ok(Value::Object(members))
}

/// The line of a refusal: an object with the names of errors in RESTCONF (RFC 8040, 7.1), and what else there is to say of it
/// under names of this program.
pub fn refused_text(alloc: Global, refused: Refused<'_>) -> Result<String, AllocError>
    ensures { IfOk result (λ text. string_bytes text
        ≡ spec.refused_text (refused_view refused.entry)) }
{
    refused_value(alloc, refused)?.to_string(alloc)
}
