//! What is refused, and files that can't be read, as objects of JSON: each a line without its line feed.

ghost use Rattle.std.specs.Prelude.{◌≡◌, ◌++◌, IfOk, OnOk, Some, None, decimal, option_map, string_bytes};
ghost use Rattle.ysay_json.specs.RefusalData as format;
ghost use Rattle.yspec_run.specs.RefusalData as spec;
ghost use Rattle.yspec_run.specs.Part.{objects};
ghost use Rattle.yspec_run.specs.Script as script;
ghost use Rattle.yspec.specs.document.Path.{path_text};
ghost use Rattle.yschema_model.specs.View as schema_view;
ghost use Rattle.yinst_tree.specs.Told as document;
ghost use Rattle.yinst_tree.specs.View.{place_view};
ghost use Rattle.yinst_path.specs.Applying.{edit_number};
ghost use Rattle.ylink_grammar.specs.BreakView as grammar;
ghost use Rattle.yapp_script.specs.Asked.{refusal_of, refused_parts};
ghost use Rattle.yapp_report.specs.Failing.{outcome_of};

use crate::failure::Failure;
use itoa::Buffer;
use std::alloc::{AllocError, Global};
use yapp_script::{Refusal, RefusedLine};
use yinst::{DocCode, EditCode};
use yinst_tree::Step;
use ylink_grammar::CompileCode;
use ysay_codes::explain;
use ysay_fault::position_path;
use ysay_json::{Refused, refused_text};
use yschema_model::Schema;

// ---- codes

fn code_text(alloc: Global, letter: &str, number: u8) -> Result<String, AllocError>
    ensures { IfOk result (λ text. string_bytes text ≡ letter.now ++ decimal number) }
{
    let mut digits = Buffer::new();
    [letter, digits.format(number)].concat(alloc)
}

/// Why a code is told.
fn cause_of(code: &str) -> &'static str
    ensures { result.now ≡ spec.cause_of code.now }
{
    match explain(code) {
        Some(explanation) => explanation.cause,
        None => "",
    }
}

// ---- error-tags

fn module_tag(code: CompileCode) -> &'static str
    ensures { result.now ≡ spec.module_tag (grammar.code_number code) }
{
    if code.number() == 1 {
        "operation-not-supported"
    } else {
        "operation-failed"
    }
}

fn document_tag(code: DocCode) -> &'static str
    ensures { result.now ≡ spec.document_tag (document.code_number code) }
{
    match code {
        DocCode::J1 | DocCode::J2 => "malformed-message",
        DocCode::J3 => "unknown-element",
        DocCode::J4 => "unknown-namespace",
        DocCode::J5 | DocCode::J6 => "invalid-value",
        DocCode::J7 => "too-big",
    }
}

fn edit_tag(code: EditCode) -> &'static str
    ensures { result.now ≡ spec.edit_tag (edit_number code) }
{
    match code {
        EditCode::E1 | EditCode::E9 => "malformed-message",
        EditCode::E2 => "unknown-element",
        EditCode::E3 => "bad-element",
        EditCode::E4 | EditCode::E5 | EditCode::E7 => "data-missing",
        EditCode::E6 => "operation-failed",
        EditCode::E8 => "data-exists",
        EditCode::E10 => "invalid-value",
        EditCode::E11 => "too-big",
    }
}

// ---- failures

/// The object of a module that is refused in a line of its file, by its tag and its code.
fn module_object<'a>(
    alloc: Global,
    tag: &'a str,
    name: &'a str,
    line: u32,
    code: &'a str,
) -> Result<String, AllocError>
    ensures { IfOk result (λ text. string_bytes text ≡ format.refused_text
        (spec.module_object tag.entry.now name.entry.now line code.entry.now)) }
{
    let refused = Refused {
        code: Some(code),
        value_code: None,
        tag,
        message: cause_of(code),
        file: Some(name),
        line: Some(line as usize),
        path: None,
    };
    refused_text(alloc, refused)
}

/// The object of a document that is refused at the node of a path, by its tag and its code.
fn placed_object<'a>(
    alloc: Global,
    tag: &'a str,
    name: &'a str,
    code: &'a str,
    path: &'a str,
) -> Result<String, AllocError>
    ensures { IfOk result (λ text. string_bytes text ≡ format.refused_text (record {
      code = Some code.entry.now;
      value_code = None;
      tag = tag.entry.now;
      message = spec.cause_of code.entry.now;
      file = Some name.entry.now;
      line = None;
      path = Some path.entry.now;
    })) }
{
    let refused = Refused {
        code: Some(code),
        value_code: None,
        tag,
        message: cause_of(code),
        file: Some(name),
        line: None,
        path: Some(path),
    };
    refused_text(alloc, refused)
}

/// The object of a document that is refused at a place, by its tag and the number of its code.
fn document_object(
    alloc: Global,
    tag: &str,
    name: &str,
    schema: &Schema,
    place: &[Step],
    number: u8,
) -> Result<String, AllocError>
    ensures { IfOk result (λ text. tag.now ≡ spec.document_tag number → string_bytes text
        ≡ format.refused_text (spec.document_object name.now
        (path_text (schema_view.view schema.now) (place_view place.now)) number)) }
{
    let code = code_text(alloc, "J", number)?;
    let path = position_path(alloc, schema, place)?;
    placed_object(alloc, tag, name, code.as_str(), path.as_str())
}

/// The object of a file that can't be read.
fn unread_object(alloc: Global, name: &str) -> Result<String, AllocError>
    ensures { IfOk result (λ text. string_bytes text
        ≡ format.refused_text (spec.unread_object name.now)) }
{
    let refused = Refused {
        code: None,
        value_code: None,
        tag: "operation-failed",
        message: "The file can't be read.",
        file: Some(name),
        line: None,
        path: None,
    };
    refused_text(alloc, refused)
}

/// The object that tells a failure too, where it has one.
pub fn failure_object(alloc: Global, failure: &Failure<'_>) -> Result<Option<String>, AllocError>
    ensures { IfOk result (λ text. option_map string_bytes text
        ≡ option_map format.refused_text (outcome_of failure.now).told) }
{
    let text = match failure {
        Failure::Unread { name, .. } => unread_object(alloc, *name)?,
        Failure::Text {
            name,
            code,
            line,
            ..
        } => {
            let code = code_text(alloc, "L", code.number())?;
            module_object(alloc, "malformed-message", *name, *line, code.as_str())?
        }
        Failure::Compile {
            name,
            code,
            line,
            ..
        } => {
            let tag = module_tag(*code);
            let code = code_text(alloc, "C", code.number())?;
            module_object(alloc, tag, *name, *line, code.as_str())?
        }
        Failure::Document {
            name,
            schema,
            code,
            place,
            ..
        } => {
            document_object(
                alloc,
                document_tag(*code),
                *name,
                schema,
                place,
                code.number(),
            )?
        }
        Failure::Repeated {
            name,
            schema,
            place,
            ..
        } => document_object(alloc, "bad-element", *name, schema, place, 8)?,
        Failure::NoModule { .. } | Failure::NoCode { .. } | Failure::Memory => return Ok(None),
    };
    Ok(Some(text))
}

// ---- refused lines

/// The object of a refused line of a script, by its code, the value's if it has one, and the one that says most.
fn edit_object<'a>(
    alloc: Global,
    number: usize,
    tag: &'a str,
    code: &'a str,
    value_code: Option<&'a str>,
    telling: &str,
) -> Result<String, AllocError>
    ensures { IfOk result (λ text. string_bytes text ≡ format.refused_text (record {
      code = Some code.entry.now;
      value_code = option_map (λ t. t.now) value_code.entry;
      tag = tag.now;
      message = spec.cause_of telling.now;
      file = None;
      line = Some number;
      path = None;
    })) }
{
    let refused = Refused {
        code: Some(code),
        value_code,
        tag,
        message: cause_of(telling),
        file: None,
        line: Some(number),
        path: None,
    };
    refused_text(alloc, refused)
}

/// The object of a line of a script, by its number, that is refused.
fn line_object(alloc: Global, number: usize, refusal: Refusal) -> Result<String, AllocError>
    ensures { IfOk result (λ text. string_bytes text
        ≡ format.refused_text (script.line_object number (refusal_of refusal))) }
{
    let code = code_text(alloc, "E", refusal.code.number())?;
    let code = code.as_str();
    let tag = edit_tag(refusal.code);
    match refusal.value {
        Some(value) => {
            let value_code = code_text(alloc, "J", value.number())?;
            let value_code = value_code.as_str();
            edit_object(alloc, number, tag, code, Some(value_code), value_code)
        }
        None => edit_object(alloc, number, tag, code, None, code),
    }
}

/// Adds the object of a refused line, in a line.
fn add_object(alloc: Global, line: &RefusedLine, text: &mut String) -> Result<(), AllocError>
    ensures { OnOk result (string_bytes text.new ≡ string_bytes text.old
        ++ spec.object_line (script.line_object line.now.number (refusal_of line.now.refusal))) }
{
    let object = line_object(alloc, line.number, line.refusal)?;
    text.push_str(object.as_str())?;
    text.push_str("\n")?;
    Ok(())
}

/// The objects of refused lines, each in a line.
pub fn line_objects(alloc: Global, lines: &[RefusedLine]) -> Result<String, AllocError>
    ensures { IfOk result (λ text. string_bytes text ≡ objects (refused_parts lines.now)) }
{
    let mut text = String::new(alloc);
    for line in lines {
        add_object(alloc, line, &mut text)?;
    }
    Ok(text)
}
