//! The value of an edit.

ghost use Rattle.serde_json.specs.View as json;
ghost use Rattle.yspec.specs.edit.Editing as spec;
ghost use Rattle.yschema_model.specs.View as schema_view;
ghost use Rattle.yspec.specs.Results.{Gives};
ghost use Rattle.yinst_path.specs.Applying.{told_by};
ghost use Rattle.yinst.specs.Rows.{branch_view};

use serde_json::Value;
use std::alloc::Global;
use yinst_path::{EditCode, EditFault, refused};
use yinst_tree::{DocFault, Stored, read_node};
use yschema_model::{Schema, SchemaId};

/// The node that a JSON text denotes at a schema node, with what stands below it: E9 of a text that is no JSON, E10 with
/// the first refusal of a document. Of a list or leaf-list the text is that of one entry or item.
pub fn part(alloc: Global, schema: &Schema, id: SchemaId, text: &str) -> Result<Stored, EditFault>
    ensures { Gives branch_view told_by result
        (spec.branch_of (schema_view.view schema.now) id.0 text.now) }
{
    match Value::from_slice(alloc, text.as_bytes()) {
        Ok(value) => branch_at(alloc, schema, id, value),
        Err(error) if error.is_memory() => Err(EditFault::Memory),
        Err(_) => Err(refused(EditCode::E9)),
    }
}

/// The node that a value denotes at a schema node.
fn branch_at(
    alloc: Global,
    schema: &Schema,
    id: SchemaId,
    value: Value,
) -> Result<Stored, EditFault>
    ensures { Gives branch_view told_by result
        (spec.branch_at (schema_view.view schema.now) id.0 (json.view value)) }
{
    match read_node(alloc, schema, id, value) {
        Ok(Some(stored)) => Ok(stored),
        Ok(None) => Err(refused(EditCode::E2)),
        Err(DocFault::Refused { code, .. }) => Err(EditFault::Refused {
            code: EditCode::E10,
            doc: Some(code),
        }),
        Err(DocFault::Memory) => Err(EditFault::Memory),
    }
}
