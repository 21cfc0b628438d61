//! Faults, each with the place of its node in the text of its document.

ghost use Rattle.std.specs.Prelude.{◌≡◌, ◌++◌, IfOk, OnOk, codes, decimal, string_bytes};
ghost use Rattle.yspec.specs.document.Sorting.{IsSorted};
ghost use Rattle.yschema_model.specs.View as schema_view;
ghost use Rattle.yinst_tree.specs.View as document_view;
ghost use Rattle.ycheck.specs.View as fault_view;
ghost use Rattle.ysay_fault.specs.FoundFellows as found;
ghost use Rattle.ysay_lines.specs.Found.{found_in};
ghost use Rattle.ysay_lines.specs.Lines.{place_in};
ghost use Rattle.ysay_jumps.specs.Jumps as spec;

use itoa::Buffer;
use std::alloc::{AllocError, Global};
use ycheck::Fault;
use yinst_tree::Tree;
use ysay_fault::{fellows_of, sentence_with_fellow, subject};
use ysay_lines::{Lines, Place};
use yschema_model::Schema;

/// `FILE:LINE:COLUMN: error: `, which stands in front of a message.
pub fn jump(alloc: Global, file: &str, place: Place) -> Result<String, AllocError>
    ensures { IfOk result (λ text. string_bytes text ≡ spec.jump file.now place) }
{
    let mut line_digits = Buffer::new();
    let mut column_digits = Buffer::new();
    let line = line_digits.format(place.line);
    let column = column_digits.format(place.column);
    [file, ":", line, ":", column, ": error: "].concat(alloc)
}

/// Of a fault its code, its node by keys, and what is said of it, where the other entry or item of which it tells is found.
fn fault_message(
    alloc: Global,
    schema: &Schema,
    tree: &Tree,
    fault: &Fault,
    fellow: Option<usize>,
) -> Result<String, AllocError>
    requires { fellow ≡ found.fellow_of (schema_view.view schema.now)
        (document_view.tree_view tree.now) (fault_view.view fault.now) }
    ensures { let t = document_view.tree_view tree.now in
        IfOk result (λ text. IsSorted t → string_bytes text
        ≡ spec.fault_message (schema_view.view schema.now) t (fault_view.view fault.now)) }
{
    let path = subject(alloc, schema, tree, fault.code, &fault.steps)?;
    let said = sentence_with_fellow(alloc, schema, tree, fault, fellow)?;
    let mut digits = Buffer::new();
    let number = digits.format(fault.code.number());
    ["V", number, " ", path.as_str(), ": ", said.as_str(), "\n"].concat(alloc)
}

/// Adds the line of a fault.
fn add_jump(
    alloc: Global,
    file: &str,
    lines: &Lines,
    schema: &Schema,
    tree: &Tree,
    fault: &Fault,
    fellow: Option<usize>,
    text: &mut String,
) -> Result<(), AllocError>
    requires { fellow ≡ found.fellow_of (schema_view.view schema.now)
        (document_view.tree_view tree.now) (fault_view.view fault.now) }
    ensures { let t = document_view.tree_view tree.now in let f = fault_view.view fault.now in
        OnOk result (IsSorted t → string_bytes text.new ≡ string_bytes text.old
        ++ (spec.jump file.now (found_in lines.now f.steps) ++ spec.fault_message (schema_view.view schema.now) t f)) }
{
    let front = jump(alloc, file, lines.get(&fault.steps))?;
    let message = fault_message(alloc, schema, tree, fault, fellow)?;
    text.push_str(front.as_str())?;
    text.push_str(message.as_str())?;
    Ok(())
}

/// A line for each fault of a document whose rows stand in the order of its schema, by the text of the document.
fn fault_jumps(
    alloc: Global,
    file: &str,
    bytes: &[u8],
    schema: &Schema,
    tree: &Tree,
    faults: &[Fault],
) -> Result<String, AllocError>
    ensures { let t = document_view.tree_view tree.now in
        IfOk result (λ text. IsSorted t → string_bytes text
        ≡ spec.fault_jumps file.now bytes.now (schema_view.view schema.now) t (fault_view.views faults.now)) }
{
    let lines = Lines::read(alloc, schema, bytes)?;
    let fellows = fellows_of(alloc, schema, tree, faults)?;
    let mut text = String::new(alloc);
    for number in 0..faults.len() {
        let fault = &faults[number];
        add_jump(
            alloc,
            file,
            &lines,
            schema,
            tree,
            fault,
            fellows[number],
            &mut text,
        )?;
    }
    Ok(text)
}

/// Lines for the faults of a document whose rows stand in the order of its schema, each with the place of its node in the text of
/// the document, and one that says how many there are; the last has no line feed.
pub fn jumps_text(
    alloc: Global,
    file: &str,
    bytes: &[u8],
    schema: &Schema,
    tree: &Tree,
    faults: &[Fault],
) -> Result<String, AllocError>
    ensures { let t = document_view.tree_view tree.now in
        IfOk result (λ text. IsSorted t → string_bytes text
        ≡ spec.jumps_text file.now bytes.now (schema_view.view schema.now) t (fault_view.views faults.now)) }
{
    let lines = fault_jumps(alloc, file, bytes, schema, tree, faults)?;
    let mut digits = Buffer::new();
    let count = digits.format(faults.len());
    [lines.as_str(), count, " faults"].concat(alloc)
}
