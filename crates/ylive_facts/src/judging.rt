//! What is told of a node's value by its type alone.

ghost use Rattle.std.specs.Prelude.{◌≡◌, ◌+◌, ◌≤◌, IfOk, option_map};
ghost use Rattle.yspec.specs.Forest.{end, node};
ghost use Rattle.ytype.specs.View.{raw_of};
ghost use Rattle.yschema_model.specs.View as schema_view;
ghost use Rattle.ystore.specs.Store.{reads};
ghost use Rattle.ystore.specs.Views.{store_of, lent, IsRead};
ghost use Rattle.ystore_rows.specs.declared.row.Row as rows;
ghost use Rattle.ystore_tree.specs.Hanging.{Branches, Numbered, Stands, stored_of};
ghost use Rattle.ystore_tree.specs.Parts.{OnlyReads};
ghost use Rattle.ylive_facts.specs.Rows.{leaf_at, stored_as};
ghost use Rattle.ylive_facts.specs.Judging as words;

use std::alloc::{AllocError, Global};
use yschema_model::{Schema, SchemaId};
use ystore::{Counted, Judged, NodeId};
use ytype::{BadValue, Raw, YType};

/// What is told of the value of a node by its type: V1 where that doesn't take it, else nothing.
pub fn judged_of(
    counted: &mut Counted<'_>,
    schema: &Schema,
    id: NodeId,
) -> Result<Judged, AllocError>
    ensures judged { IfOk result (λ judged. (above : rows.Row) (n : Numbered) (below : Branches) → n.id ≡ id
        → Stands (store_of counted.old) above (node n below end)
        → words.judged_view judged ≡ words.value_judged (schema_view.view schema.now) (stored_of n)) }
    ensures kept { OnlyReads (store_of counted.old) (store_of counted.new) }
    ensures reads { reads (store_of counted.new) ≤ reads (store_of counted.old) + 2 }
    ensures same_reference { lent counted.new ≡ lent counted.old }
{
    match counted.schema(id) {
        Some(of) => judged_as(counted, schema, of, id),
        None => Ok(Judged::Right),
    }
}

/// The same of a node that has that schema node.
fn judged_as(
    counted: &mut Counted<'_>,
    schema: &Schema,
    of: SchemaId,
    id: NodeId,
) -> Result<Judged, AllocError>
    ensures judged { IfOk result (λ judged. words.judged_view judged
        ≡ words.value_judged (schema_view.view schema.now) (leaf_at (store_of counted.old) of id)) }
    ensures counted { IsRead counted.old counted.new }
{
    raw_judged(counted.alloc(), schema, of, counted.value(id))
}

fn raw_judged(
    alloc: Global,
    schema: &Schema,
    of: SchemaId,
    raw: Option<&Raw>,
) -> Result<Judged, AllocError>
    ensures { IfOk result (λ judged. words.judged_view judged
        ≡ words.value_judged (schema_view.view schema.now)
        (stored_as of (option_map (λ r. raw_of r.now) raw.entry))) }
{
    let Some(node) = schema.kind(of) else {
        return Ok(Judged::Right);
    };
    let Some(leaf_type) = node.kind.leaf_type() else {
        return Ok(Judged::Right);
    };
    match raw {
        Some(raw) => judged_by(alloc, &leaf_type.value_type, raw),
        None => Ok(Judged::Right),
    }
}

fn judged_by(alloc: Global, value_type: &YType, raw: &Raw) -> Result<Judged, AllocError>
    ensures { IfOk result (λ judged. words.judged_view judged
        ≡ words.judged_by value_type.now (raw_of raw.now)) }
{
    match value_type.check(alloc, raw) {
        Ok(_) => Ok(Judged::Right),
        Err(BadValue::Refused { app_tag }) => Ok(Judged::Wrong(app_tag)),
        Err(BadValue::Memory) => Err(AllocError),
    }
}
