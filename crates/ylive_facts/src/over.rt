//! The child of a row of schema nodes that is over a node.

ghost use Rattle.std.specs.Prelude.{◌≡◌, option_map};
ghost use Rattle.yspec.specs.schema.Schema.{row_at};
ghost use Rattle.yschema_model.specs.Layout.{number_of};
ghost use Rattle.yschema_model.specs.View as schema_view;
ghost use Rattle.yschema_model.specs.View.{child_view};
ghost use Rattle.yspec_play.specs.Over as spec;

use yschema_model::{Child, Schema, SchemaId};

/// The child of a node, or the top node, that a node is or below which it stands; nothing where it stands elsewhere.
pub fn child_over(schema: &Schema, above: Option<SchemaId>, id: SchemaId) -> Option<Child<'_>>
    ensures { let s = schema_view.view schema.entry.now in
        option_map child_view result ≡ spec.child_over (row_at s (number_of above)) id.0 }
{
    let mut here = Some(id);
    while let Some(number) = here {
        if let Some(child) = schema.child_at(above, number) {
            return Some(child);
        }
        here = schema.parent(number);
    }
    None
}
