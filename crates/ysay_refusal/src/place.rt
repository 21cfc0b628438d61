//! What stands in a JSON value where steps lead, and under which node of the schema.

ghost use Rattle.std.specs.Prelude.{◌≡◌, IfOk, option_map};
ghost use Rattle.serde_json.specs.View as json;
ghost use Rattle.yspec.specs.document.Path as path;
ghost use Rattle.yschema_model.specs.Layout.{number_of};
ghost use Rattle.yschema_model.specs.View.{view};
ghost use Rattle.yinst_tree.specs.View.{place_view, step_view};
ghost use Rattle.ysay_refusal.specs.Place as spec;

use serde_json::Value;
use std::alloc::{AllocError, Global};
use yinst_tree::Step;
use yschema_model::{Schema, SchemaId};

/// The value of a node, or of the entry or item at a position, from 1.
fn instance_at(value: &Value, position: Option<usize>) -> Option<&Value>
    ensures { option_map (λ v. json.view v.now) result
        ≡ spec.instance_at position (json.view value.now) }
{
    match position {
        Some(position) => value.get(position.saturating_sub(1)),
        None => Some(value),
    }
}

/// The value to which a step leads from that of a node of a module, or from the top.
fn value_below<'a>(
    alloc: Global,
    schema: &Schema,
    parent_module: Option<usize>,
    step: &Step,
    value: &'a Value,
) -> Result<Option<&'a Value>, AllocError>
    ensures { IfOk result (λ below. option_map (λ v. json.view v.now) below
        ≡ spec.value_below (view schema.now) parent_module (step_view step.now)
        (json.view value.entry.now)) }
{
    let Some(node) = schema.kind(step.id) else {
        return Ok(None);
    };
    let name = schema.written_name(alloc, parent_module, node)?;
    match value.get(name.as_str()) {
        Some(member) => Ok(instance_at(member, step.position)),
        None => Ok(None),
    }
}

/// The module of the node to which a step leads.
fn module_after(schema: &Schema, step: &Step) -> Option<usize>
    ensures { result ≡ path.module_after (view schema.now) (step_view step.now) }
{
    match schema.kind(step.id) {
        Some(node) => Some(node.module),
        None => None,
    }
}

/// The value to which steps lead from that of a node of a module, or from the top.
pub fn value_from<'a>(
    alloc: Global,
    schema: &Schema,
    parent_module: Option<usize>,
    steps: &[Step],
    value: &'a Value,
) -> Result<Option<&'a Value>, AllocError>
    ensures { IfOk result (λ found. option_map (λ v. json.view v.now) found
        ≡ spec.value_from (view schema.now) parent_module (place_view steps.now)
        (json.view value.entry.now)) }
{
    let mut found = value;
    let mut module = parent_module;
    for step in steps {
        match value_below(alloc, schema, module, step, found)? {
            Some(below) => found = below,
            None => return Ok(None),
        }
        module = module_after(schema, step);
    }
    Ok(Some(found))
}

/// The last step to a place.
pub fn last_step(steps: &[Step]) -> Option<&Step>
    ensures { option_map (λ step. step_view step.now) result
        ≡ spec.last_step (place_view steps.now) }
{
    match steps.split_last() {
        Some((step, _)) => Some(step),
        None => None,
    }
}

/// The node to which a step leads; none at the top.
pub(crate) fn node_after(step: Option<&Step>) -> Option<SchemaId>
    ensures { number_of result
        ≡ spec.number_after (option_map (λ s. step_view s.now) step.entry) }
{
    match step {
        Some(step) => Some(step.id),
        None => None,
    }
}
