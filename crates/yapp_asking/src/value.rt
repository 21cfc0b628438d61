//! What is stored at a node.

ghost use Rattle.std.specs.Prelude.{IfOk, IfSome};
ghost use Rattle.yspec.specs.Results.{Gives};
ghost use Rattle.yspec.specs.document.Sorting.{IsSorted};
ghost use Rattle.yspec_session.specs.Session as spec;
ghost use Rattle.yschema_model.specs.View as schema_view;
ghost use Rattle.yinst_tree.specs.View.{tree_view, view};
ghost use Rattle.yinst_path.specs.Applying.{told_by};
ghost use Rattle.yinst_path.specs.EditView.{path_view};
ghost use Rattle.yinst.specs.Locating.{located_view};
ghost use Rattle.yapp_asking.specs.Asking.{found_view, stored_meant};

use std::alloc::Global;
use yinst::{
    EditCode, EditFault, Located, Path, Stored, Tree, instance_at, instance_meant, locate,
};
use yinst_path::bind_path;
use yschema_model::Schema;

/// The stored node that a path means, with E1 to E7 as of an edit. In a document whose rows stand in order so do those below it.
pub fn value_at<'t>(
    alloc: Global,
    schema: &Schema,
    tree: &'t Tree,
    path: &Path,
) -> Result<Option<&'t Stored>, EditFault>
    ensures found { let s = schema_view.view schema.now in Gives found_view told_by result
        (stored_meant s (tree_view tree.entry.now) (path_view path.now)) }
    ensures sorted { IsSorted (tree_view tree.entry.now)
        → IfOk result (λ found. IfSome found (λ stored. IsSorted (view stored.now).1)) }
{
    found_at(alloc, schema, tree, path)
}

fn found_at<'t>(
    alloc: Global,
    schema: &Schema,
    tree: &'t Tree,
    path: &Path,
) -> Result<Option<&'t Stored>, EditFault>
    ensures { let s = schema_view.view schema.now in Gives found_view told_by result
        (stored_meant s (tree_view tree.entry.now) (path_view path.now)) }
{
    match bind_path(alloc, schema, false, path) {
        Ok(bound) => match locate(alloc, schema, tree.roots(), bound.steps.as_slice()) {
            Ok(target) => stored_at(alloc, schema, &target),
            Err(fault) => Err(fault),
        },
        Err(fault) => Err(fault),
    }
}

fn stored_at<'t>(
    alloc: Global,
    schema: &Schema,
    target: &Located<'t, '_>,
) -> Result<Option<&'t Stored>, EditFault>
    ensures { let s = schema_view.view schema.now in Gives found_view told_by result
        (spec.value_at s (located_view s target.now)) }
{
    match instance_meant(alloc, schema, EditCode::E7, target.row, target.last) {
        Ok(spot) => Ok(instance_at(target.row, spot)),
        Err(fault) => Err(fault),
    }
}
