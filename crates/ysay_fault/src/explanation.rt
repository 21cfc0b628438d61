//! What is said of a fault.

ghost use Rattle.std.specs.Prelude.{◌≡◌, IfOk, option_map, string_bytes};
ghost use Rattle.yspec.specs.document.FaultCode.{V1};
ghost use Rattle.yspec.specs.document.Sorting.{IsSorted};
ghost use Rattle.ybase_output.specs.Writing.{side};
ghost use Rattle.yschema_model.specs.View as schema_view;
ghost use Rattle.yinst_tree.specs.View as document_view;
ghost use Rattle.ycheck.specs.View as fault_view;
ghost use Rattle.ysay_fault.specs.FoundFellows as found;
ghost use Rattle.ysay_place.specs.Places as places;
ghost use Rattle.ysay_fault.specs.Sentences as spec;
ghost use Rattle.ysay_fault.specs.Writing.{WritesOrRunsOut};

use crate::fault::ExplanationFault;
use crate::known::fellow_of;
use crate::sentences::{
    message_to, missing_key, missing_leaf, no_case, no_target, same_item, same_key, same_unique,
    several_cases, state_stored, too_few, too_many, wrong_value,
};
use std::alloc::{AllocError, Global};
use ybase_output::{Sink, write_all};
use ycheck::{Fault, FaultCode, Info};
use yinst_tree::{Step, Tree};
use ysay_place::{keyed_path, position_path, row_at};
use ysay_text::visible;
use yschema_model::Schema;

/// The steps above the last one.
fn steps_above(steps: &[Step]) -> &[Step]
    ensures { document_view.place_view result.now
        ≡ places.steps_above (document_view.place_view steps.entry.now) }
{
    match steps.split_last() {
        Some((_, above)) => above,
        None => &[],
    }
}

/// What stands before the colon: the path of what is told.
pub fn subject(
    alloc: Global,
    schema: &Schema,
    tree: &Tree,
    code: FaultCode,
    steps: &[Step],
) -> Result<String, AllocError>
    ensures { IfOk result (λ text. string_bytes text
        ≡ spec.subject (schema_view.view schema.now) (document_view.tree_view tree.now)
        (fault_view.code_view code) (document_view.place_view steps.now)) }
{
    match code {
        FaultCode::V2 | FaultCode::V3 => keyed_path(alloc, schema, tree, steps_above(steps)),
        FaultCode::V8 | FaultCode::V10 => position_path(alloc, schema, steps),
        _ => keyed_path(alloc, schema, tree, steps),
    }
}

/// The number of the `unique` of which a fault tells.
pub(crate) fn unique_in(info: &Info) -> usize
    ensures { result ≡ spec.unique_in (fault_view.info_view info.now) }
{
    match info {
        Info::Unique(number) => *number,
        _ => 0,
    }
}

fn choice_in(info: &Info) -> &str
    ensures { result.now ≡ spec.choice_in (fault_view.info_view info.now) }
{
    match info {
        Info::Choice(name) => name.as_str(),
        _ => "",
    }
}

/// What is said of the last step to a place; nothing of a choice.
fn sentence_at(
    alloc: Global,
    schema: &Schema,
    tree: &Tree,
    steps: &[Step],
    info: &Info,
    code: FaultCode,
    fellow: Option<usize>,
) -> Result<String, AllocError>
    requires { fellow ≡ found.fellow_at (schema_view.view schema.now)
        (document_view.tree_view tree.now) (document_view.place_view steps.now)
        (fault_view.info_view info.now) (fault_view.code_view code) }
    ensures { IfOk result (λ text. string_bytes text
        ≡ spec.sentence_to (schema_view.view schema.now) (document_view.tree_view tree.now)
        (document_view.place_view steps.now) (fault_view.info_view info.now)
        (fault_view.code_view code)) }
{
    let Some((step, above)) = steps.split_last() else {
        return Ok(String::new(alloc));
    };
    let in_order = tree.is_in_order();
    let row = row_at(tree, above);
    match code {
        FaultCode::V1 => wrong_value(alloc, schema, row, in_order, step),
        FaultCode::V2 => missing_key(alloc, schema, above, step.id),
        FaultCode::V3 => missing_leaf(alloc, schema, above, step.id),
        FaultCode::V6 => too_few(alloc, schema, row, step.id),
        FaultCode::V7 => too_many(alloc, schema, row, step.id),
        FaultCode::V8 => same_key(alloc, schema, row, in_order, above, step, fellow),
        FaultCode::V9 => {
            same_unique(
                alloc,
                schema,
                row,
                in_order,
                above,
                step,
                unique_in(info),
                fellow,
            )
        }
        FaultCode::V10 => same_item(alloc, schema, row, in_order, above, step, fellow),
        FaultCode::V11 => no_target(alloc, schema, tree, row, in_order, step),
        FaultCode::V12 => state_stored(alloc, schema, above, step.id),
        FaultCode::V4 | FaultCode::V5 => Ok(String::new(alloc)),
    }
}

fn plain_sentence(
    alloc: Global,
    schema: &Schema,
    tree: &Tree,
    fault: &Fault,
    fellow: Option<usize>,
) -> Result<String, AllocError>
    requires { fellow ≡ found.fellow_of (schema_view.view schema.now)
        (document_view.tree_view tree.now) (fault_view.view fault.now) }
    ensures { let t = document_view.tree_view tree.now in let f = fault_view.view fault.now in
        IsSorted t → IfOk result (λ text. string_bytes text
        ≡ spec.plain_sentence (schema_view.view schema.now) t f.steps f.info f.code) }
{
    match fault.code {
        FaultCode::V4 => no_case(alloc, choice_in(&fault.info)),
        FaultCode::V5 => {
            several_cases(alloc, schema, tree, &fault.steps, choice_in(&fault.info))
        }
        code => sentence_at(alloc, schema, tree, &fault.steps, &fault.info, code, fellow),
    }
}

/// What is said of a fault, where the other entry or item of which it tells is found.
pub fn sentence_with_fellow(
    alloc: Global,
    schema: &Schema,
    tree: &Tree,
    fault: &Fault,
    fellow: Option<usize>,
) -> Result<String, AllocError>
    requires { fellow ≡ found.fellow_of (schema_view.view schema.now)
        (document_view.tree_view tree.now) (fault_view.view fault.now) }
    ensures { let t = document_view.tree_view tree.now in let f = fault_view.view fault.now in
        IsSorted t → IfOk result (λ text. string_bytes text
        ≡ spec.sentence (schema_view.view schema.now) t f.steps f.info f.code) }
{
    let said = plain_sentence(alloc, schema, tree, fault, fellow)?;
    visible(alloc, said.as_str())
}

/// What is said of a fault of a document whose rows stand in the order of its schema: what stands there or is missing. A
/// terminal obeys nothing of it.
pub fn sentence(
    alloc: Global,
    schema: &Schema,
    tree: &Tree,
    fault: &Fault,
) -> Result<String, AllocError>
    ensures { let t = document_view.tree_view tree.now in let f = fault_view.view fault.now in
        IsSorted t → IfOk result (λ text. string_bytes text
        ≡ spec.sentence (schema_view.view schema.now) t f.steps f.info f.code) }
{
    let fellow = fellow_of(alloc, schema, tree, fault)?;
    sentence_with_fellow(alloc, schema, tree, fault, fellow)
}

/// The path of the place of a fault, as an edit names it.
pub fn fault_path(
    alloc: Global,
    schema: &Schema,
    tree: &Tree,
    fault: &Fault,
) -> Result<String, AllocError>
    ensures { let f = fault_view.view fault.now in IfOk result (λ text. string_bytes text
        ≡ spec.fault_path (schema_view.view schema.now) (document_view.tree_view tree.now) f.code
        f.steps) }
{
    match fault.code {
        FaultCode::V8 => position_path(alloc, schema, &fault.steps),
        _ => keyed_path(alloc, schema, tree, &fault.steps),
    }
}

/// The message of the module for the value to which steps lead.
fn message_for(
    alloc: Global,
    schema: &Schema,
    tree: &Tree,
    steps: &[Step],
) -> Result<Option<String>, AllocError>
    ensures { IfOk result (λ message. option_map string_bytes message
        ≡ spec.own_message (schema_view.view schema.now) (document_view.tree_view tree.now)
        (document_view.place_view steps.now) V1) }
{
    match steps.split_last() {
        Some((step, above)) => {
            let row = row_at(tree, above);
            message_to(alloc, schema, row, tree.is_in_order(), step)
        }
        None => Ok(None),
    }
}

/// The message that a fault carries of its module: that of the restriction which excludes a value (RFC 7950, 7.5.4.1).
pub fn own_message(
    alloc: Global,
    schema: &Schema,
    tree: &Tree,
    fault: &Fault,
) -> Result<Option<String>, AllocError>
    ensures { let f = fault_view.view fault.now in
        IfOk result (λ message. option_map string_bytes message
        ≡ spec.own_message (schema_view.view schema.now) (document_view.tree_view tree.now)
        f.steps f.code) }
{
    match fault.code {
        FaultCode::V1 => message_for(alloc, schema, tree, &fault.steps),
        _ => Ok(None),
    }
}

/// The line that is said of a fault, where the other entry or item of which it tells is found.
pub fn explanation_with_fellow(
    alloc: Global,
    schema: &Schema,
    tree: &Tree,
    fault: &Fault,
    fellow: Option<usize>,
) -> Result<String, AllocError>
    requires { fellow ≡ found.fellow_of (schema_view.view schema.now)
        (document_view.tree_view tree.now) (fault_view.view fault.now) }
    ensures { let t = document_view.tree_view tree.now in
        IsSorted t → IfOk result (λ text. string_bytes text
        ≡ spec.explained_fault (schema_view.view schema.now) t (fault_view.view fault.now)) }
{
    let path = subject(alloc, schema, tree, fault.code, &fault.steps)?;
    let said = sentence_with_fellow(alloc, schema, tree, fault, fellow)?;
    ["  ", path.as_str(), ": ", said.as_str(), "\n"].concat(alloc)
}

/// The line that is said of a fault of a document whose rows stand in the order of its schema: two spaces, the path of
/// what is told, a colon, a sentence and a line feed.
pub fn explanation_of(
    alloc: Global,
    schema: &Schema,
    tree: &Tree,
    fault: &Fault,
) -> Result<String, AllocError>
    ensures { let t = document_view.tree_view tree.now in
        IsSorted t → IfOk result (λ text. string_bytes text
        ≡ spec.explained_fault (schema_view.view schema.now) t (fault_view.view fault.now)) }
{
    let fellow = fellow_of(alloc, schema, tree, fault)?;
    explanation_with_fellow(alloc, schema, tree, fault, fellow)
}

/// Writes that line. Where memory runs out, nothing is written.
pub fn write_fault_explanation<W: Sink>(
    alloc: Global,
    schema: &Schema,
    tree: &Tree,
    fault: &Fault,
    sink: &mut W,
) -> Result<(), ExplanationFault>
    ensures { let t = document_view.tree_view tree.now in
        IsSorted t → WritesOrRunsOut (side W.taken W.failures sink.old)
        (side W.taken W.failures sink.new)
        (spec.explained_fault (schema_view.view schema.now) t (fault_view.view fault.now))
        result }
{
    let text = explanation_of(alloc, schema, tree, fault)?;
    match write_all(sink, text.as_bytes()) {
        Ok(()) => Ok(()),
        Err(fault) => Err(ExplanationFault::from(fault)),
    }
}
