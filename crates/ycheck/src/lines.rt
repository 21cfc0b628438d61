//! The line that a fault prints, and the text of a path.

ghost use Rattle.std.specs.Prelude.{◌≡◌, ◌++◌, [], codes, decimal, option_map, string_bytes, unwrap_or, if◌then◌else◌, nat_le};
ghost use Rattle.std.specs.List.{flat_map};
ghost use Rattle.yspec.specs.document.FaultCode.{fault_number};
ghost use Rattle.yspec.specs.document.Faults.{info_text, line_of, or_dash, printed_tag};
ghost use Rattle.yspec.specs.document.Path as path;
ghost use Rattle.yspec.specs.document.Path.{path_text};
ghost use Rattle.yspec.specs.schema.Schema as spec;
ghost use Rattle.ybase_output.specs.Writing.{Writes, side};
ghost use Rattle.yschema_model.specs.View as schema_view;
ghost use Rattle.yschema_model.specs.View.{node_view};
ghost use Rattle.yinst_tree.specs.View.{place_view, step_view};
ghost use Rattle.ycheck.specs.View.{code_view, lent_info_view, parts_view, tag_name, view};

use crate::fault::{ErrorTag, Fault, FaultCode, FaultParts, LentInfo};
use itoa::Buffer;
use thiserror::Error;
use ybase_output::{Sink, SinkFault, write_all, write_texts};
use yinst_tree::Step;
use yschema_model::{Schema, SchemaNode};

/// Why a line wasn't written.
#[derive(Clone, Copy, Debug, PartialEq, Eq, Error)]
pub enum LineFault {
    /// A call of the sink failed.
    #[error("write failed")]
    Device,
}

impl From<SinkFault> for LineFault {
    fn from(_fault: SinkFault) -> LineFault {
        LineFault::Device
    }
}

/// Writes some texts, one after the other.
fn put<W: Sink>(sink: &mut W, texts: &[&str]) -> Result<(), LineFault>
    ensures { Writes (side W.taken W.failures sink.old) (side W.taken W.failures sink.new)
        (flat_map (λ t. t.now) texts.now) result }
{
    match write_texts(sink, texts) {
        Ok(()) => Ok(()),
        Err(fault) => Err(LineFault::from(fault)),
    }
}

/// Writes the path of some steps: `/module:name` at the top and where the module changes, else `/name`, with `[n]` at a
/// position; the root is `/`.
pub fn write_path<W: Sink>(schema: &Schema, steps: &[Step], sink: &mut W) -> Result<(), LineFault>
    ensures { Writes (side W.taken W.failures sink.old) (side W.taken W.failures sink.new)
        (path_text (schema_view.view schema.now) (place_view steps.now)) result }
{
    if steps.is_empty() {
        return put(sink, &["/"]);
    }
    let mut parent_module = None;
    for step in steps {
        write_step(schema, parent_module, step, sink)?;
        parent_module = module_after(schema, step);
    }
    Ok(())
}

/// The module of the node that a step names.
fn module_after(schema: &Schema, step: &Step) -> Option<usize>
    ensures { result ≡ path.module_after (schema_view.view schema.now) (step_view step.now) }
{
    match schema.kind(step.id) {
        Some(node) => Some(node.module),
        None => None,
    }
}

/// Writes one step below a node of a module, or at the top.
fn write_step<W: Sink>(
    schema: &Schema,
    parent_module: Option<usize>,
    step: &Step,
    sink: &mut W,
) -> Result<(), LineFault>
    ensures { Writes (side W.taken W.failures sink.old) (side W.taken W.failures sink.new)
        (path.step_text (schema_view.view schema.now) parent_module (step_view step.now)) result }
{
    match schema.kind(step.id) {
        Some(node) => {
            write_name(schema, parent_module, node, sink)?;
            write_position(step.position, sink)
        }
        None => write_position(step.position, sink),
    }
}

/// Writes the name of a node below a node of a module, or at the top.
fn write_name<W: Sink>(
    schema: &Schema,
    parent_module: Option<usize>,
    node: &SchemaNode,
    sink: &mut W,
) -> Result<(), LineFault>
    ensures { Writes (side W.taken W.failures sink.old) (side W.taken W.failures sink.new)
        (codes "/" ++ spec.written_name (schema_view.view schema.now) parent_module
        (node_view 0 node.now)) result }
{
    let name = node.name.as_str();
    if parent_module == Some(node.module) {
        put(sink, &["/", name])
    } else {
        let module = schema.module_name(node.module).unwrap_or("");
        put(sink, &["/", module, ":", name])
    }
}

fn write_position<W: Sink>(position: Option<usize>, sink: &mut W) -> Result<(), LineFault>
    ensures { Writes (side W.taken W.failures sink.old) (side W.taken W.failures sink.new)
        (path.position_text position) result }
{
    match position {
        Some(number) => {
            let mut digits = Buffer::new();
            put(sink, &["[", digits.format(number), "]"])
        }
        None => Ok(()),
    }
}

fn code_text(code: FaultCode) -> &'static str
    ensures { result.now ≡ codes "V" ++ (decimal (fault_number (code_view code)) ++ codes " ") }
{
    match code {
        FaultCode::V1 => "V1 ",
        FaultCode::V2 => "V2 ",
        FaultCode::V3 => "V3 ",
        FaultCode::V4 => "V4 ",
        FaultCode::V5 => "V5 ",
        FaultCode::V6 => "V6 ",
        FaultCode::V7 => "V7 ",
        FaultCode::V8 => "V8 ",
        FaultCode::V9 => "V9 ",
        FaultCode::V10 => "V10 ",
        FaultCode::V11 => "V11 ",
        FaultCode::V12 => "V12 ",
    }
}

fn tag_text(tag: ErrorTag) -> &'static str
    ensures { result.now ≡ tag_name tag ++ codes " " }
{
    match tag {
        ErrorTag::InvalidValue => "invalid-value ",
        ErrorTag::MissingElement => "missing-element ",
        ErrorTag::DataMissing => "data-missing ",
        ErrorTag::BadElement => "bad-element ",
        ErrorTag::OperationFailed => "operation-failed ",
        ErrorTag::UnknownElement => "unknown-element ",
    }
}

/// Writes an error-app-tag, `-` for none or for an empty one. White space and control characters in it print as `_`.
fn write_app_tag<W: Sink>(app_tag: Option<&str>, sink: &mut W) -> Result<(), LineFault>
    ensures { Writes (side W.taken W.failures sink.old) (side W.taken W.failures sink.new)
        (or_dash (printed_tag (unwrap_or (option_map (λ t. t.now) app_tag.entry) []))) result }
{
    match app_tag {
        Some(tag) if !tag.is_empty() => write_printed(tag.as_bytes(), sink),
        _ => put(sink, &["-"]),
    }
}

/// A byte of an error-app-tag as it prints.
fn printed_byte(byte: u8) -> u8
    ensures { result ≡ (if nat_le byte 32 then 95 else byte) }
{
    if byte <= b' ' { b'_' } else { byte }
}

/// Writes the bytes of an error-app-tag as they print.
fn write_printed<W: Sink>(bytes: &[u8], sink: &mut W) -> Result<(), LineFault>
    ensures { Writes (side W.taken W.failures sink.old) (side W.taken W.failures sink.new)
        (printed_tag bytes.now) result }
{
    for byte in bytes {
        match write_all(sink, &[printed_byte(*byte)]) {
            Ok(()) => {}
            Err(fault) => return Err(LineFault::from(fault)),
        }
    }
    Ok(())
}

/// Writes what a fault says besides its place, `-` for nothing.
fn write_info<W: Sink>(info: LentInfo<'_>, sink: &mut W) -> Result<(), LineFault>
    ensures { Writes (side W.taken W.failures sink.old) (side W.taken W.failures sink.new)
        (or_dash (info_text (lent_info_view info.entry))) result }
{
    match info {
        LentInfo::Choice(name) if !name.is_empty() => put(sink, &[name]),
        LentInfo::Unique(number) => write_number(number, sink),
        _ => put(sink, &["-"]),
    }
}

fn write_number<W: Sink>(number: usize, sink: &mut W) -> Result<(), LineFault>
    ensures { Writes (side W.taken W.failures sink.old) (side W.taken W.failures sink.new)
        (or_dash (decimal number)) result }
{
    let mut digits = Buffer::new();
    put(sink, &[digits.format(number)])
}

/// Writes the line of a fault, as `write_parts` does. It takes no memory.
pub fn write_line<W: Sink>(schema: &Schema, fault: &Fault, sink: &mut W) -> Result<(), LineFault>
    ensures { Writes (side W.taken W.failures sink.old) (side W.taken W.failures sink.new)
        (line_of (schema_view.view schema.now) (view fault.now)) result }
{
    write_parts(schema, fault.parts(), sink)
}

/// Writes the line of a fault: its code, error-tag, error-app-tag, path and info, parted by single spaces, with `-` for
/// none, and a line feed. It takes no memory.
pub fn write_parts<W: Sink>(
    schema: &Schema,
    parts: FaultParts<'_>,
    sink: &mut W,
) -> Result<(), LineFault>
    ensures { Writes (side W.taken W.failures sink.old) (side W.taken W.failures sink.new)
        (line_of (schema_view.view schema.now) (parts_view parts.entry)) result }
{
    put(sink, &[code_text(parts.code), tag_text(parts.tag)])?;
    write_app_tag(parts.app_tag, sink)?;
    put(sink, &[" "])?;
    write_path(schema, parts.steps, sink)?;
    put(sink, &[" "])?;
    write_info(parts.info, sink)?;
    put(sink, &["\n"])
}
