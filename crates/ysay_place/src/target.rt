//! The path of the node to which a leafref refers (RFC 7950, 9.9.2).

ghost use Rattle.std.specs.Prelude.{◌≡◌, ◌++◌, IfOk, OnOk, filter, string_bytes};
ghost use Rattle.yspec.specs.schema.Schema.{data_way_to, is_data, node_at};
ghost use Rattle.yschema_model.specs.Layout.{number_of};
ghost use Rattle.yschema_model.specs.Lookup.{alone};
ghost use Rattle.yschema_model.specs.View as schema_view;
ghost use Rattle.yinst_tree.specs.View as document_view;
ghost use Rattle.ysay_place.specs.Targets as spec;

use crate::path::position_path;
use std::alloc::{AllocError, Global};
use yinst_tree::Step;
use yschema_model::{Schema, SchemaId};

/// Adds the step to a data node; none to a choice or case.
fn add_data_step(schema: &Schema, id: SchemaId, steps: &mut Vec<Step>) -> Result<(), AllocError>
    ensures { OnOk result (document_view.place_view steps.new.items
        ≡ document_view.place_view steps.old.items
        ++ spec.steps_of (filter (λ n. is_data n.kind)
        (alone (node_at (schema_view.view schema.now) id.0)))) }
{
    match schema.kind(id) {
        Some(node) => {
            if node.kind.is_data() {
                steps.push(Step { id, position: None })?;
            }
            Ok(())
        }
        None => Ok(()),
    }
}

/// Adds the steps to a node, through data nodes alone.
pub fn add_steps_to(schema: &Schema, id: SchemaId, steps: &mut Vec<Step>) -> Result<(), AllocError>
    ensures { OnOk result (document_view.place_view steps.new.items
        ≡ document_view.place_view steps.old.items
        ++ spec.steps_of (data_way_to (schema_view.view schema.now) id.0)) }
{
    match schema.parent(id) {
        Some(parent) => {
            add_steps_to(schema, parent, steps)?;
            add_data_step(schema, id, steps)
        }
        None => add_data_step(schema, id, steps),
    }
}

/// The path of the node to which a leafref refers.
pub fn target_path(
    alloc: Global,
    schema: &Schema,
    target: Option<SchemaId>,
) -> Result<String, AllocError>
    ensures { IfOk result (λ text. string_bytes text
        ≡ spec.target_path (schema_view.view schema.now) (number_of target)) }
{
    let Some(id) = target else {
        return String::from_str(alloc, "its target");
    };
    let mut steps = Vec::new(alloc);
    add_steps_to(schema, id, &mut steps)?;
    position_path(alloc, schema, &steps)
}
