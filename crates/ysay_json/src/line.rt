//! Lines of JSON, without their line feeds.

ghost use Rattle.std.specs.Prelude.{◌≡◌, ◌++◌, IfOk, OnOk, codes, string_bytes};
ghost use Rattle.serde_json.specs.View as json;
ghost use Rattle.yspec.specs.document.Sorting.{IsSorted};
ghost use Rattle.yschema_model.specs.View as schema_view;
ghost use Rattle.yinst_tree.specs.View as document_view;
ghost use Rattle.ycheck.specs.View as fault_view;
ghost use Rattle.ysay_fault.specs.FoundFellows as found;
ghost use Rattle.ysay_json.specs.FaultData as spec;

use crate::members::{put_line, put_message, put_tags, put_value};
use serde_json::{Map, Value};
use std::alloc::{AllocError, Global};
use ycheck::Fault;
use yinst_tree::Tree;
use ysay_fault::{fellow_of, fellows_of};
use yschema_model::Schema;

/// A fault as an object.
fn fault_value(
    alloc: Global,
    schema: &Schema,
    tree: &Tree,
    fault: &Fault,
    fellow: Option<usize>,
) -> Result<Value, AllocError>
    requires { fellow ≡ found.fellow_of (schema_view.view schema.now)
        (document_view.tree_view tree.now) (fault_view.view fault.now) }
    ensures { let t = document_view.tree_view tree.now in
        IfOk result (λ value. IsSorted t → json.view value
        ≡ spec.fault_data (schema_view.view schema.now) t (fault_view.view fault.now)) }
{
    let mut members = Map::new(alloc);
    put_tags(alloc, fault, &mut members)?;
    put_message(alloc, schema, tree, fault, fellow, &mut members)?;
    put_line(alloc, schema, fault, &mut members)?;
    Ok(Value::Object(members))
}

/// The line of a fault, where the other entry or item of which it tells is found.
fn line_with_fellow(
    alloc: Global,
    schema: &Schema,
    tree: &Tree,
    fault: &Fault,
    fellow: Option<usize>,
) -> Result<String, AllocError>
    requires { fellow ≡ found.fellow_of (schema_view.view schema.now)
        (document_view.tree_view tree.now) (fault_view.view fault.now) }
    ensures { let t = document_view.tree_view tree.now in
        IfOk result (λ text. IsSorted t → string_bytes text
        ≡ spec.json_line (schema_view.view schema.now) t (fault_view.view fault.now)) }
{
    fault_value(alloc, schema, tree, fault, fellow)?.to_string(alloc)
}

/// The line of a fault of a document whose rows stand in the order of its schema: an object with the names of errors in
/// RESTCONF (RFC 8040, 7.1), and what the line of text has under names of this program.
pub fn json_line(
    alloc: Global,
    schema: &Schema,
    tree: &Tree,
    fault: &Fault,
) -> Result<String, AllocError>
    ensures { let t = document_view.tree_view tree.now in
        IfOk result (λ text. IsSorted t → string_bytes text
        ≡ spec.json_line (schema_view.view schema.now) t (fault_view.view fault.now)) }
{
    let fellow = fellow_of(alloc, schema, tree, fault)?;
    line_with_fellow(alloc, schema, tree, fault, fellow)
}

fn count_value(alloc: Global, count: usize) -> Result<Value, AllocError>
    ensures { IfOk result (λ value. json.view value ≡ spec.count_data count) }
{
    let mut members = Map::new(alloc);
    put_value(alloc, "yanglive:faults", Value::from(count), &mut members)?;
    Ok(Value::Object(members))
}

/// The line that says how many faults there are.
pub fn json_count(alloc: Global, count: usize) -> Result<String, AllocError>
    ensures { IfOk result (λ text. string_bytes text ≡ spec.json_count count) }
{
    count_value(alloc, count)?.to_string(alloc)
}

/// Adds the line of a fault.
fn add_line(
    alloc: Global,
    schema: &Schema,
    tree: &Tree,
    fault: &Fault,
    fellow: Option<usize>,
    text: &mut String,
) -> Result<(), AllocError>
    requires { fellow ≡ found.fellow_of (schema_view.view schema.now)
        (document_view.tree_view tree.now) (fault_view.view fault.now) }
    ensures { let t = document_view.tree_view tree.now in
        OnOk result (IsSorted t → string_bytes text.new ≡ string_bytes text.old
        ++ (spec.json_line (schema_view.view schema.now) t (fault_view.view fault.now)
        ++ codes "\n")) }
{
    let line = line_with_fellow(alloc, schema, tree, fault, fellow)?;
    text.push_str(line.as_str())?;
    text.push_str("\n")?;
    Ok(())
}

/// A line for each fault of a document.
fn json_lines(
    alloc: Global,
    schema: &Schema,
    tree: &Tree,
    faults: &[Fault],
) -> Result<String, AllocError>
    ensures { let t = document_view.tree_view tree.now in
        IfOk result (λ text. IsSorted t → string_bytes text
        ≡ spec.json_lines (schema_view.view schema.now) t (fault_view.views faults.now)) }
{
    let fellows = fellows_of(alloc, schema, tree, faults)?;
    let mut text = String::new(alloc);
    for number in 0..faults.len() {
        let fault = &faults[number];
        add_line(alloc, schema, tree, fault, fellows[number], &mut text)?;
    }
    Ok(text)
}

/// Lines for the faults of a document whose rows stand in the order of its schema, and one that says how many there are;
/// the last has no line feed.
pub fn json_text(
    alloc: Global,
    schema: &Schema,
    tree: &Tree,
    faults: &[Fault],
) -> Result<String, AllocError>
    ensures { let t = document_view.tree_view tree.now in
        IfOk result (λ text. IsSorted t → string_bytes text
        ≡ spec.json_text (schema_view.view schema.now) t (fault_view.views faults.now)) }
{
    let lines = json_lines(alloc, schema, tree, faults)?;
    let count = json_count(alloc, faults.len())?;
    [lines.as_str(), count.as_str()].concat(alloc)
}
