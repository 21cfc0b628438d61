//! What is answered to requests that are granted.

ghost use Rattle.std.specs.Prelude.{◌≡◌, ◌++◌, IfOk, OnOk, codes, string_bytes};
ghost use Rattle.yspec.specs.document.Sorting.{IsSorted};
ghost use Rattle.yschema_model.specs.View as schema_view;
ghost use Rattle.yinst_tree.specs.View as document_view;
ghost use Rattle.ycheck.specs.View as fault_view;
ghost use Rattle.ysay_json.specs.FaultData as format;
ghost use Rattle.ysay_session.specs.AnswerText as spec;

use itoa::Buffer;
use std::alloc::{AllocError, Global};
use ycheck::Fault;
use yinst_tree::{Stored, Tree, write, write_node};
use ysay_json::json_line;
use yschema_model::Schema;

/// How many faults there were and are.
pub fn changed_text(alloc: Global, before: usize, after: usize) -> Result<String, AllocError>
    ensures { IfOk result (λ text. string_bytes text ≡ spec.changed_text before after) }
{
    let mut first = Buffer::new();
    let mut second = Buffer::new();
    [
        "{\"before\":",
        first.format(before),
        ",\"after\":",
        second.format(after),
        "}",
    ]
    .concat(alloc)
}

/// Adds the object of a fault behind a comma.
fn add_item(
    alloc: Global,
    schema: &Schema,
    tree: &Tree,
    fault: &Fault,
    text: &mut String,
) -> Result<(), AllocError>
    ensures { let t = document_view.tree_view tree.now in
        OnOk result (IsSorted t → string_bytes text.new ≡ string_bytes text.old
        ++ (codes "," ++ format.json_line (schema_view.view schema.now) t (fault_view.view fault.now))) }
{
    let line = json_line(alloc, schema, tree, fault)?;
    text.push_str(",")?;
    text.push_str(line.as_str())?;
    Ok(())
}

/// The objects of faults with commas between them.
fn items_text(
    alloc: Global,
    schema: &Schema,
    tree: &Tree,
    faults: &[Fault],
) -> Result<String, AllocError>
    ensures { let t = document_view.tree_view tree.now in
        IfOk result (λ text. IsSorted t → string_bytes text
        ≡ spec.items_text (schema_view.view schema.now) t (fault_view.views faults.now)) }
{
    match faults.split_first() {
        Some((first, rest)) => {
            let start = json_line(alloc, schema, tree, first)?;
            with_more(alloc, schema, tree, start, rest)
        }
        None => Ok(String::new(alloc)),
    }
}

/// A text and the objects of faults behind commas.
fn with_more(
    alloc: Global,
    schema: &Schema,
    tree: &Tree,
    start: String,
    faults: &[Fault],
) -> Result<String, AllocError>
    ensures { let t = document_view.tree_view tree.now in
        IfOk result (λ text. IsSorted t → string_bytes text ≡ string_bytes start
        ++ spec.more_text (schema_view.view schema.now) t (fault_view.views faults.now)) }
{
    let mut text = start;
    for fault in faults {
        add_item(alloc, schema, tree, fault, &mut text)?;
    }
    Ok(text)
}

/// Some faults of a document whose rows stand in the order of its schema, and how many it has.
pub fn listed_text(
    alloc: Global,
    schema: &Schema,
    tree: &Tree,
    faults: &[Fault],
    count: usize,
) -> Result<String, AllocError>
    ensures { let t = document_view.tree_view tree.now in
        IfOk result (λ text. IsSorted t → string_bytes text
        ≡ spec.listed_text (schema_view.view schema.now) t (fault_view.views faults.now) count) }
{
    let items = items_text(alloc, schema, tree, faults)?;
    let mut digits = Buffer::new();
    [
        "{\"faults\":[",
        items.as_str(),
        "],\"count\":",
        digits.format(count),
        "}",
    ]
    .concat(alloc)
}

/// How many faults there were and are, those that are new with the later document, and those that are gone with the earlier one,
/// where the rows of both stand in the order of their schema.
pub fn changes_text(
    alloc: Global,
    schema: &Schema,
    earlier: &Tree,
    later: &Tree,
    before: usize,
    after: usize,
    told: &[Fault],
    gone: &[Fault],
) -> Result<String, AllocError>
    ensures { let e = document_view.tree_view earlier.now in let l = document_view.tree_view later.now in
        IfOk result (λ text. IsSorted e → IsSorted l → string_bytes text
        ≡ spec.changes_text (schema_view.view schema.now) e l before after
        (record { told = fault_view.views told.now; gone = fault_view.views gone.now })) }
{
    let new = items_text(alloc, schema, later, told)?;
    let old = items_text(alloc, schema, earlier, gone)?;
    let mut first = Buffer::new();
    let mut second = Buffer::new();
    [
        "{\"before\":",
        first.format(before),
        ",\"after\":",
        second.format(after),
        ",\"told\":[",
        new.as_str(),
        "],\"gone\":[",
        old.as_str(),
        "]}",
    ]
    .concat(alloc)
}

/// A document whose rows stand in the order of its schema.
pub fn document_text(alloc: Global, schema: &Schema, tree: &Tree) -> Result<String, AllocError>
    ensures { let t = document_view.tree_view tree.now in
        IfOk result (λ text. IsSorted t → string_bytes text
        ≡ spec.document_text (schema_view.view schema.now) t) }
{
    let text = write(alloc, schema, tree)?;
    ["{\"document\":", text.as_str(), "}"].concat(alloc)
}

/// A stored node with all that stands below it, in rows in the order of its schema; of an entry or item, this one.
pub fn value_text(alloc: Global, schema: &Schema, stored: &Stored) -> Result<String, AllocError>
    ensures { let node = document_view.view stored.now in
        IfOk result (λ text. IsSorted node.1 → string_bytes text
        ≡ spec.value_text (schema_view.view schema.now) (record { label = node.0; below = node.1 })) }
{
    let text = write_node(alloc, schema, stored)?;
    ["{\"value\":", text.as_str(), "}"].concat(alloc)
}
