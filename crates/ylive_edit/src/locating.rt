//! Where an edit stands in the document that a store holds.

ghost use Rattle.std.specs.Prelude.{◌≡◌, ◌+◌, ◌-◌, ◌*◌, ◌<◌, ◌≤◌, false, length, List, [], IfOk, OnOk};
ghost use Rattle.yspec.specs.document.Document as document;
ghost use Rattle.yspec.specs.document.Document.{Step};
ghost use Rattle.yspec.specs.document.Sorting.{IsSorted};
ghost use Rattle.yspec.specs.edit.Editing as spec;
ghost use Rattle.yschema_model.specs.View as schema_view;
ghost use Rattle.yinst_path.specs.Binding.{steps_view};
ghost use Rattle.yinst_path.specs.EditView.{predicate_view};
ghost use Rattle.ystore.specs.Store.{reads};
ghost use Rattle.ystore.specs.Views.{store_of, lent};
ghost use Rattle.ystore_tree.specs.Hanging.{Branches, tree_of};
ghost use Rattle.ystore_tree.specs.Parts.{OnlyReads};
ghost use Rattle.ylive_edit.specs.Places.{HoldsTold, IsAt};
ghost use Rattle.ylive_edit.specs.Locating.{CountFromOne, Locates};

use crate::instances::instance_meant;
use yinst_path::{BoundStep, EditCode, EditFault, refused};
use yschema_model::Schema;
use ystore::{Counted, Row};

/// The row in which the node of an edit stands or would stand, and the last step of its path.
#[derive(Clone, Copy, Debug)]
pub(crate) struct Place<'e> {
    pub above: Row,
    pub last: BoundStep<'e>,
}

/// Where the steps of a path lead: E4 to E6 of what stands above.
pub(crate) fn locate<'e>(
    counted: &mut Counted<'_>,
    schema: &Schema,
    steps: &[BoundStep<'e>],
) -> Result<Place<'e>, EditFault>
    requires { CountFromOne (steps_view (schema_view.view schema.now) steps.now) }
    ensures place { let s = schema_view.view schema.now in
        (tree : document.Tree) → HoldsTold s (store_of counted.old) tree → IsSorted tree
        → Locates s tree [] (spec.target s tree (steps_view s steps.now)) (store_of counted.new)
        result }
    ensures from_one { IfOk result (λ place. spec.is_zero (predicate_view place.last.predicate.now)
        ≡ false) }
    ensures reads { reads (store_of counted.new)
        ≤ reads (store_of counted.old) + 2 * (length steps.now - 1) }
    ensures some { OnOk result (0 < length steps.now) }
    ensures kept { OnlyReads (store_of counted.old) (store_of counted.new) }
    ensures same_reference { lent counted.new ≡ lent counted.old }
{
    locate_below(counted, schema, Row::Top, steps)
}

/// The same of steps that lead on from a row.
fn locate_below<'e>(
    counted: &mut Counted<'_>,
    schema: &Schema,
    above: Row,
    steps: &[BoundStep<'e>],
) -> Result<Place<'e>, EditFault>
    requires { CountFromOne (steps_view (schema_view.view schema.now) steps.now) }
    ensures place { let s = schema_view.view schema.now in
        (tree : document.Tree) (so_far : List Step) (f : Branches)
        → IsAt s (store_of counted.old) tree so_far above f
        → Locates s tree so_far (spec.target s (tree_of f) (steps_view s steps.now))
        (store_of counted.new) result }
    ensures from_one { IfOk result (λ place. spec.is_zero (predicate_view place.last.predicate.now)
        ≡ false) }
    ensures reads { reads (store_of counted.new)
        ≤ reads (store_of counted.old) + 2 * (length steps.now - 1) }
    ensures some { OnOk result (0 < length steps.now) }
    ensures kept { OnlyReads (store_of counted.old) (store_of counted.new) }
    ensures same_reference { lent counted.new ≡ lent counted.old }
{
    match steps.split_first() {
        None => Err(refused(EditCode::E1)),
        Some((step, [])) => Ok(Place { above, last: *step }),
        Some((step, more)) => match instance_meant(counted, schema, EditCode::E4, above, *step) {
            Ok(node) => locate_below(counted, schema, Row::Below(node), more),
            Err(fault) => Err(fault),
        },
    }
}
