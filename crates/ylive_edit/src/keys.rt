//! The keys of a list, and the texts that are said of them.

ghost use Rattle.std.specs.Prelude.{◌≡◌};
ghost use Rattle.yspec.specs.schema.Schema.{keys_in};
ghost use Rattle.yspec.specs.edit.Editing as spec;
ghost use Rattle.yschema_model.specs.Layout.{numbers_of};
ghost use Rattle.yschema_model.specs.View as schema_view;
ghost use Rattle.yinst_path.specs.Binding.{node_of};
ghost use Rattle.yinst_path.specs.EditView.{keys_view};

use yinst_path::{Key, has_name};
use yschema_model::{Schema, SchemaId};

/// The keys of a list.
pub(crate) fn keys_of(schema: &Schema, id: SchemaId) -> &[SchemaId]
    ensures { numbers_of result.now
        ≡ keys_in (node_of (schema_view.view schema.entry.now) id.0).kind }
{
    match schema.kind(id) {
        Some(node) => node.kind.keys(),
        None => &[],
    }
}

/// The text that the keys of a predicate say for a node.
pub(crate) fn key_text<'k>(schema: &Schema, keys: &'k [Key], id: SchemaId) -> &'k str
    ensures { result.now ≡ spec.key_text (keys_view keys.entry.now)
        (schema_view.view schema.now) id.0 }
{
    for key in keys {
        if has_name(schema, key.name.as_str(), id) {
            return key.text.as_str();
        }
    }
    ""
}
