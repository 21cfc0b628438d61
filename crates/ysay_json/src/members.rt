//! What a fault says, as members of an object.

ghost use Rattle.std.specs.Prelude.{◌≡◌, IfOk, OnOk, string_bytes};
ghost use Rattle.serde_json.specs.Data.{put};
ghost use Rattle.serde_json.specs.View as json;
ghost use Rattle.yspec.specs.document.Sorting.{IsSorted};
ghost use Rattle.yschema_model.specs.View as schema_view;
ghost use Rattle.yinst_tree.specs.View as document_view;
ghost use Rattle.ycheck.specs.View as fault_view;
ghost use Rattle.ysay_fault.specs.FoundFellows.{fellow_of};
ghost use Rattle.ysay_json.specs.FaultData as spec;

use itoa::Buffer;
use serde_json::{Map, Value};
use std::alloc::{AllocError, Global};
use ycheck::{ErrorTag, Fault, FaultCode, Info};
use yinst_tree::Tree;
use ysay_fault::{fault_path, own_message, position_path, sentence_with_fellow};
use yschema_model::Schema;

// ---- names

fn code_text(alloc: Global, code: FaultCode) -> Result<String, AllocError>
    ensures { IfOk result (λ text. string_bytes text
        ≡ spec.code_text (fault_view.code_view code)) }
{
    let mut digits = Buffer::new();
    ["V", digits.format(code.number())].concat(alloc)
}

fn tag_text(tag: ErrorTag) -> &'static str
    ensures { result.now ≡ fault_view.tag_name tag }
{
    match tag {
        ErrorTag::InvalidValue => "invalid-value",
        ErrorTag::MissingElement => "missing-element",
        ErrorTag::DataMissing => "data-missing",
        ErrorTag::BadElement => "bad-element",
        ErrorTag::OperationFailed => "operation-failed",
        ErrorTag::UnknownElement => "unknown-element",
    }
}

// ---- members

fn put_member(
    members: &mut Map<String, Value>,
    name: String,
    value: Value,
) -> Result<(), AllocError>
    ensures { OnOk result (json.members_view members.new.entries
        ≡ put (string_bytes name) (json.view value) (json.members_view members.old.entries)) }
{
    members.insert(name, value)?;
    Ok(())
}

/// Puts in a member.
pub(crate) fn put_value(
    alloc: Global,
    name: &str,
    value: Value,
    members: &mut Map<String, Value>,
) -> Result<(), AllocError>
    ensures { OnOk result (json.members_view members.new.entries
        ≡ put name.now (json.view value) (json.members_view members.old.entries)) }
{
    put_member(members, String::from_str(alloc, name)?, value)
}

/// Puts in a member whose value is a text.
pub(crate) fn put_text(
    alloc: Global,
    name: &str,
    text: &str,
    members: &mut Map<String, Value>,
) -> Result<(), AllocError>
    ensures { OnOk result (json.members_view members.new.entries
        ≡ spec.with_text name.now text.now (json.members_view members.old.entries)) }
{
    let value = Value::String(String::from_str(alloc, text)?);
    put_value(alloc, name, value, members)
}

/// Puts in what a fault says besides its place.
fn put_info(alloc: Global, info: &Info, members: &mut Map<String, Value>) -> Result<(), AllocError>
    ensures { OnOk result (json.members_view members.new.entries
        ≡ spec.with_info (fault_view.info_view info.now) (json.members_view members.old.entries)) }
{
    match info {
        Info::None => Ok(()),
        Info::Choice(name) => put_text(alloc, "yanglive:info", name.as_str(), members),
        Info::Unique(number) => put_value(alloc, "yanglive:info", Value::from(*number), members),
    }
}

/// Puts in the error-type of a fault and its tags.
pub(crate) fn put_tags(
    alloc: Global,
    fault: &Fault,
    members: &mut Map<String, Value>,
) -> Result<(), AllocError>
    ensures { OnOk result (json.members_view members.new.entries
        ≡ spec.with_tags (fault_view.view fault.now) (json.members_view members.old.entries)) }
{
    put_text(alloc, "error-type", "application", members)?;
    put_text(alloc, "error-tag", tag_text(fault.tag), members)?;
    match &fault.app_tag {
        Some(tag) => put_text(alloc, "error-app-tag", tag.as_str(), members),
        None => Ok(()),
    }
}

/// The module's own message for a fault where it has one, else what is said of it.
fn message_of(
    alloc: Global,
    schema: &Schema,
    tree: &Tree,
    fault: &Fault,
    fellow: Option<usize>,
) -> Result<String, AllocError>
    requires { fellow ≡ fellow_of (schema_view.view schema.now)
        (document_view.tree_view tree.now) (fault_view.view fault.now) }
    ensures { let t = document_view.tree_view tree.now in
        IsSorted t → IfOk result (λ text. string_bytes text
        ≡ spec.message (schema_view.view schema.now) t (fault_view.view fault.now)) }
{
    match own_message(alloc, schema, tree, fault)? {
        Some(message) => Ok(message),
        None => sentence_with_fellow(alloc, schema, tree, fault, fellow),
    }
}

/// Puts in the path of a fault's place, and its message.
pub(crate) fn put_message(
    alloc: Global,
    schema: &Schema,
    tree: &Tree,
    fault: &Fault,
    fellow: Option<usize>,
    members: &mut Map<String, Value>,
) -> Result<(), AllocError>
    requires { fellow ≡ fellow_of (schema_view.view schema.now)
        (document_view.tree_view tree.now) (fault_view.view fault.now) }
    ensures { let t = document_view.tree_view tree.now in
        OnOk result (IsSorted t → json.members_view members.new.entries
        ≡ spec.with_message (schema_view.view schema.now) t (fault_view.view fault.now)
        (json.members_view members.old.entries)) }
{
    let path = fault_path(alloc, schema, tree, fault)?;
    let message = message_of(alloc, schema, tree, fault, fellow)?;
    put_text(alloc, "error-path", path.as_str(), members)?;
    put_text(alloc, "error-message", message.as_str(), members)
}

/// Puts in what the line of text of a fault has.
pub(crate) fn put_line(
    alloc: Global,
    schema: &Schema,
    fault: &Fault,
    members: &mut Map<String, Value>,
) -> Result<(), AllocError>
    ensures { OnOk result (json.members_view members.new.entries
        ≡ spec.with_line (schema_view.view schema.now) (fault_view.view fault.now)
        (json.members_view members.old.entries)) }
{
    let path = position_path(alloc, schema, &fault.steps)?;
    let code = code_text(alloc, fault.code)?;
    put_text(alloc, "yanglive:code", code.as_str(), members)?;
    put_text(alloc, "yanglive:path", path.as_str(), members)?;
    put_info(alloc, &fault.info, members)
}
