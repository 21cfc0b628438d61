//! What is looked at of a document: all of it, or its configuration alone.

ghost use Rattle.std.specs.Prelude.{◌≡◌, ◌≤◌, IfOk, true};
ghost use Rattle.yspec.specs.Forest.{size};
ghost use Rattle.yspec.specs.document.Fitting.{Fits};
ghost use Rattle.yspec.specs.document.StateData.{inspected};
ghost use Rattle.yspec.specs.document.Writing.{IsDocument};
ghost use Rattle.yschema_model.specs.View as schema_view;
ghost use Rattle.yinst_tree.specs.View.{tree_view};
ghost use Rattle.ycheck_config.specs.Inspecting.{inspection_view};

use crate::state::state_faults;
use crate::without::configuration_tree;
use std::alloc::{AllocError, Global};
use ycheck::{Fault, faults};
use yinst_tree::Tree;
use yschema_model::Schema;

/// What is looked at of a document under its schema, and its faults, in order.
#[derive(Drop)]
pub struct Inspection {
    pub schema: Schema,
    pub tree: Tree,
    pub faults: Vec<Fault>,
}

/// A document that fits its schema, with its faults; of its configuration alone, where that is wanted, what its schema asks
/// of that, and the faults that tell of its state data before those of what is left.
pub fn inspect(
    alloc: Global,
    schema: Schema,
    tree: Tree,
    of_configuration: bool,
) -> Result<Inspection, AllocError>
    requires { Fits (schema_view.view schema) (tree_view tree) }
    ensures inspected { IfOk result (λ i. inspection_view i
        ≡ inspected of_configuration (schema_view.view schema) (tree_view tree)) }
    ensures fits { IfOk result (λ i. Fits (schema_view.view i.schema) (tree_view i.tree)) }
    ensures whole { IsDocument (schema_view.view schema) (tree_view tree)
        → IfOk result (λ i. IsDocument (schema_view.view i.schema) (tree_view i.tree)) }
    ensures within { IfOk result (λ i. size (tree_view i.tree) ≤ size (tree_view tree)) }
{
    if of_configuration {
        return inspect_configuration(alloc, schema, tree);
    }
    let faults = faults(alloc, &schema, &tree)?;
    Ok(Inspection {
        schema,
        tree,
        faults,
    })
}

/// The configuration of a document, with the faults that tell of its state data and those of what is left.
fn inspect_configuration(
    alloc: Global,
    schema: Schema,
    tree: Tree,
) -> Result<Inspection, AllocError>
    requires { Fits (schema_view.view schema) (tree_view tree) }
    ensures inspected { IfOk result (λ i. inspection_view i
        ≡ inspected true (schema_view.view schema) (tree_view tree)) }
    ensures fits { IfOk result (λ i. Fits (schema_view.view i.schema) (tree_view i.tree)) }
    ensures whole { IsDocument (schema_view.view schema) (tree_view tree)
        → IfOk result (λ i. IsDocument (schema_view.view i.schema) (tree_view i.tree)) }
    ensures within { IfOk result (λ i. size (tree_view i.tree) ≤ size (tree_view tree)) }
{
    let mut found = state_faults(alloc, &schema, &tree)?;
    let tree = configuration_tree(alloc, &schema, &tree)?;
    let schema = schema.configuration(alloc)?;
    let mut others = faults(alloc, &schema, &tree)?;
    found.append(&mut others)?;
    Ok(Inspection {
        schema,
        tree,
        faults: found,
    })
}
