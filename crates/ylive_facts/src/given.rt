//! The values that instances of schema nodes have, of those to which leafrefs refer.

ghost use Rattle.std.specs.Prelude.{◌≡◌, ◌+◌, ◌≤◌, ◌++◌, OnOk};
ghost use Rattle.yspec.specs.Forest.{end, node};
ghost use Rattle.yschema_model.specs.View as schema_view;
ghost use Rattle.ystore.specs.Store.{reads};
ghost use Rattle.ystore.specs.Views.{store_of, lent};
ghost use Rattle.ystore_rows.specs.declared.row.Row as rows;
ghost use Rattle.ystore_tree.specs.Hanging.{Branches, Numbered, Stands, stored_of};
ghost use Rattle.ystore_tree.specs.Parts.{OnlyReads};
ghost use Rattle.ylive_facts.specs.Given as words;

use crate::values::value_as;
use std::alloc::AllocError;
use yschema_model::{Schema, SchemaId};
use ystore::{Counted, NodeId};
use ytype::Val;

/// Whether any leafref refers to a schema node.
pub(crate) fn is_referred(schema: &Schema, of: SchemaId) -> bool
    ensures { result ≡ words.is_referred (schema_view.view schema.now) of.0 }
{
    !schema.targets(of).is_empty()
}

/// Puts the valid value of a node behind others, with its schema node, if any leafref refers to that.
pub fn own_value_of(
    counted: &mut Counted<'_>,
    schema: &Schema,
    id: NodeId,
    given: &mut Vec<(SchemaId, Val)>,
) -> Result<(), AllocError>
    ensures given { let s = schema_view.view schema.now in
        OnOk result ((above : rows.Row) (n : Numbered) (below : Branches) → n.id ≡ id
        → Stands (store_of counted.old) above (node n below end)
        → words.given_view given.new.items ≡ words.given_view given.old.items
        ++ words.referred s (words.own_values s (stored_of n))) }
    ensures kept { OnlyReads (store_of counted.old) (store_of counted.new) }
    ensures reads { reads (store_of counted.new) ≤ reads (store_of counted.old) + 2 }
    ensures same_reference { lent counted.new ≡ lent counted.old }
{
    let Some(of) = counted.schema(id) else {
        return Ok(());
    };
    if !is_referred(schema, of) {
        return Ok(());
    }
    if let Some(value) = value_as(counted, schema, of, id)? {
        given.push((of, value))?;
    }
    Ok(())
}
