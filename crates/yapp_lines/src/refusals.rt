//! Refusals of modules and documents, with the places to which an editor jumps.

ghost use Rattle.std.specs.Prelude.{◌≡◌, ◌++◌, ◌==◌, IfOk, codes, decimal, if◌then◌else◌, map, string_bytes};
ghost use Rattle.yspec.specs.document.Path.{path_text};
ghost use Rattle.ysay_jumps.specs.Beginning.{beginning};
ghost use Rattle.ysay_jumps.specs.Jumps as jumps;
ghost use Rattle.ysay_lines.specs.Lines.{at_line, place_in};
ghost use Rattle.yschema_model.specs.View as schema_view;
ghost use Rattle.yinst_tree.specs.View.{place_view};
ghost use Rattle.yapp_report.specs.Failing.{besides_in};
ghost use Rattle.yapp_lines.specs.Changed.{FailsByLines};

use crate::files::contents_named;
use itoa::Buffer;
use std::alloc::{AllocError, Global};
use yapp_report::{Failure, Stop};
use yinst_tree::Step;
use ysay_jumps::{Place, beginning, jump};
use ysay_lines::Lines;
use ysay_place::position_path;
use yschema_model::Schema;

/// The line of a module's refusal, by the letter of its code and its number.
fn module_line(
    alloc: Global,
    name: &str,
    line: u32,
    letter: &str,
    code: u8,
    bytes: &[u8],
) -> Result<String, AllocError>
    ensures { IfOk result (λ text. string_bytes text ≡ jumps.jump name.now (beginning line bytes.now)
        ++ ((letter.now ++ decimal code) ++ codes "\n")) }
{
    let mut digits = Buffer::new();
    let mut text = jump(alloc, name, beginning(line, bytes))?;
    text.push_str(letter)?;
    text.push_str(digits.format(code))?;
    text.push_str("\n")?;
    Ok(text)
}

/// Where a document is refused in its text: at the node, or where its reader stops if it isn't JSON.
fn refused_place(
    alloc: Global,
    schema: &Schema,
    bytes: &[u8],
    code: u8,
    steps: &[Step],
    stop: Stop,
) -> Result<Place, AllocError>
    ensures { IfOk result (λ place. place ≡ (if code == 1 then at_line stop.line stop.column
        else place_in (schema_view.view schema.now) bytes.now (place_view steps.now))) }
{
    if code == 1 {
        Ok(Place {
            line: stop.line,
            column: stop.column,
        })
    } else {
        let lines = Lines::read(alloc, schema, bytes)?;
        Ok(lines.get(steps))
    }
}

/// The line of a document's refusal at a place.
fn document_line(
    alloc: Global,
    name: &str,
    schema: &Schema,
    place: Place,
    code: u8,
    steps: &[Step],
) -> Result<String, AllocError>
    ensures { IfOk result (λ text. string_bytes text ≡ jumps.jump name.now place
        ++ (((codes "J" ++ decimal code) ++ (codes " " ++ path_text (schema_view.view schema.now) (place_view steps.now))) ++ codes "\n")) }
{
    let path = position_path(alloc, schema, steps)?;
    let mut digits = Buffer::new();
    let mut text = jump(alloc, name, place)?;
    text.push_str("J")?;
    text.push_str(digits.format(code))?;
    text.push_str(" ")?;
    text.push_str(path.as_str())?;
    text.push_str("\n")?;
    Ok(text)
}

/// The same by the text of the document.
fn refused_line(
    alloc: Global,
    name: &str,
    schema: &Schema,
    bytes: &[u8],
    code: u8,
    steps: &[Step],
    stop: Stop,
) -> Result<String, AllocError>
    ensures { IfOk result (λ text. string_bytes text ≡ jumps.jump name.now (if code == 1 then at_line stop.line stop.column
        else place_in (schema_view.view schema.now) bytes.now (place_view steps.now))
        ++ (((codes "J" ++ decimal code) ++ (codes " " ++ path_text (schema_view.view schema.now) (place_view steps.now))) ++ codes "\n")) }
{
    let place = refused_place(alloc, schema, bytes, code, steps, stop)?;
    document_line(alloc, name, schema, place, code, steps)
}

/// Why there is no report, with the place in its file to which an editor jumps, by the names of the files that were read and what
/// they contain.
pub fn failure_by_lines<'a>(
    alloc: Global,
    names: &[&str],
    contents: &[Vec<u8>],
    failure: Failure<'a>,
) -> Result<Failure<'a>, AllocError>
    ensures told { IfOk result (λ f. FailsByLines (map (λ n. n.now) names.now) (map (λ c. c.items) contents.now) failure.entry f) }
    ensures besides { IfOk result (λ f. besides_in f ≡ besides_in failure.entry) }
{
    match failure {
        Failure::Unread { name, cause } => Ok(Failure::Unread { name, cause }),
        Failure::Text {
            name,
            code,
            line,
            hint,
            ..
        } => {
            let bytes = contents_named(name, names, contents);
            let text = module_line(alloc, name, line, "L", code.number(), bytes)?;
            Ok(Failure::Text {
                name,
                code,
                line,
                hint,
                jump: Some(text),
            })
        }
        Failure::Compile {
            name,
            code,
            line,
            hint,
            ..
        } => {
            let bytes = contents_named(name, names, contents);
            let text = module_line(alloc, name, line, "C", code.number(), bytes)?;
            Ok(Failure::Compile {
                name,
                code,
                line,
                hint,
                jump: Some(text),
            })
        }
        Failure::Document {
            name,
            schema,
            code,
            place,
            hint,
            stop,
            ..
        } => {
            let bytes = contents_named(name, names, contents);
            let text = refused_line(alloc, name, &schema, bytes, code.number(), &place, stop)?;
            Ok(Failure::Document {
                name,
                schema,
                code,
                place,
                hint,
                stop,
                jump: Some(text),
            })
        }
        Failure::Repeated {
            name,
            schema,
            place,
            hint,
            ..
        } => {
            let bytes = contents_named(name, names, contents);
            let stop = Stop { line: 0, column: 0 };
            let text = refused_line(alloc, name, &schema, bytes, 8, &place, stop)?;
            Ok(Failure::Repeated {
                name,
                schema,
                place,
                hint,
                jump: Some(text),
            })
        }
        Failure::NoModule { name } => Ok(Failure::NoModule { name }),
        Failure::NoCode { word } => Ok(Failure::NoCode { word }),
        Failure::Memory => Ok(Failure::Memory),
    }
}
