//! Documents without their state data.

ghost use Rattle.std.specs.Prelude.{◌≡◌, IfOk, OnOk};
ghost use Rattle.yspec.specs.Forest.{join};
ghost use Rattle.yspec.specs.document.Document as document_spec;
ghost use Rattle.yspec.specs.document.StateData as spec;
ghost use Rattle.yschema_model.specs.View as schema_view;
ghost use Rattle.yinst_tree.specs.View.{row_view, tree_view, view};
ghost use Rattle.ycheck_config.specs.Kept.{kept_first};

use std::alloc::{AllocError, Global};
use yinst_tree::{Stored, Tree};
use yschema_model::{Schema, SchemaId};

/// Whether a schema node is state.
pub(crate) fn is_state(schema: &Schema, id: SchemaId) -> bool
    ensures { result ≡ spec.is_state (schema_view.view schema.now) id.0 }
{
    match schema.kind(id) {
        Some(node) => !node.config,
        None => false,
    }
}

/// A copy of a document without the stored nodes of state and all below them.
pub fn configuration_tree(alloc: Global, schema: &Schema, tree: &Tree) -> Result<Tree, AllocError>
    ensures { IfOk result (λ t. tree_view t
        ≡ spec.configuration_tree (schema_view.view schema.now) (tree_view tree.now)) }
{
    Ok(Tree::new(configuration_row(alloc, schema, tree.roots())?))
}

/// The same of a row.
#[cycle(configuration)]
fn configuration_row(
    alloc: Global,
    schema: &Schema,
    row: &[Stored],
) -> Result<Vec<Stored>, AllocError>
    ensures { IfOk result (λ nodes. row_view nodes.items
        ≡ spec.configuration_tree (schema_view.view schema.now) (row_view row.now)) }
{
    let mut nodes = Vec::new(alloc);
    for stored in row {
        add_configuration(alloc, schema, stored, &mut nodes)?;
    }
    Ok(nodes)
}

/// Puts a node behind those of a row, without what is state below it, unless it is state itself.
#[cycle(configuration)]
fn add_configuration(
    alloc: Global,
    schema: &Schema,
    stored: &Stored,
    nodes: &mut Vec<Stored>,
) -> Result<(), AllocError>
    ensures { OnOk result ((rest : document_spec.Tree) → join (row_view nodes.new.items) rest
        ≡ join (row_view nodes.old.items)
        (kept_first (schema_view.view schema.now) (view stored.now) rest)) }
{
    if is_state(schema, stored.id()) {
        return Ok(());
    }
    let below = configuration_row(alloc, schema, stored.below())?;
    nodes.push(stored.with_below(below)?)?;
    Ok(())
}
