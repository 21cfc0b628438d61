//! Where a node stands that needn't be stored.

ghost use Rattle.std.specs.Prelude.{◌≡◌};
ghost use Rattle.yspec.specs.Results.{Gives};
ghost use Rattle.yspec.specs.edit.Editing.{says_nothing};
ghost use Rattle.yspec_session.specs.Session as spec;
ghost use Rattle.yschema_model.specs.View as schema_view;
ghost use Rattle.yinst_tree.specs.View.{row_view, tree_view};
ghost use Rattle.yinst_path.specs.Applying.{told_by};
ghost use Rattle.yinst_path.specs.Binding as binding;
ghost use Rattle.yinst_path.specs.EditView.{path_view, predicate_view, steps_view};
ghost use Rattle.yinst.specs.Locating.{spot_view, spots_view};
ghost use Rattle.yapp_asking.specs.Asking.{place_view, steps_on};

use std::alloc::{AllocError, Global};
use yinst::{
    BoundStep, EditCode, EditFault, NamedStep, Path, Predicate, Spot, Stored, Tree, instance_index,
    instance_meant, row_at,
};
use yinst_path::bind_path;
use yschema_model::Schema;

/// The place of a node, by its path. A step without a predicate needn't be stored, and means every instance; the others mean
/// what they mean in edits, with E4 to E6.
pub fn place_of(
    alloc: Global,
    schema: &Schema,
    tree: &Tree,
    path: &Path,
) -> Result<Vec<Spot>, EditFault>
    ensures { Gives place_view told_by result
        (spec.place_of (schema_view.view schema.now) (tree_view tree.now) (path_view path.now)) }
{
    match bind_path(alloc, schema, ends_bare(path.steps.as_slice()), path) {
        Ok(bound) => steps_meant(alloc, schema, tree.roots(), bound.steps.as_slice()),
        Err(fault) => Err(fault),
    }
}

/// Whether the last step bears no predicate.
fn ends_bare(steps: &[NamedStep]) -> bool
    ensures { result ≡ spec.ends_bare (steps_view steps.now) }
{
    match steps.last() {
        Some(step) => is_bare(&step.predicate),
        None => false,
    }
}

fn is_bare(predicate: &Predicate) -> bool
    ensures { result ≡ says_nothing (predicate_view predicate.now) }
{
    match predicate {
        Predicate::Unsaid => true,
        Predicate::Position(_) => false,
        Predicate::Keys(_) => false,
    }
}

fn steps_meant(
    alloc: Global,
    schema: &Schema,
    row: &[Stored],
    steps: &[BoundStep<'_>],
) -> Result<Vec<Spot>, EditFault>
    ensures { let s = schema_view.view schema.now in Gives place_view told_by result
        (spec.steps_meant s (row_view row.now) (binding.steps_view s steps.now)) }
{
    steps_on(alloc, schema, Vec::new(alloc), row, steps)
}

/// The steps that are meant, behind those so far.
#[cycle(walk)]
fn steps_on(
    alloc: Global,
    schema: &Schema,
    mut so_far: Vec<Spot>,
    row: &[Stored],
    steps: &[BoundStep<'_>],
) -> Result<Vec<Spot>, EditFault>
    ensures { let s = schema_view.view schema.now in Gives place_view told_by result
        (steps_on s (spots_view so_far.items) (row_view row.now) (binding.steps_view s steps.now)) }
{
    match steps.split_first() {
        None => Ok(so_far),
        Some((step, more)) => match step_meant(alloc, schema, row, *step) {
            Ok(spot) => {
                so_far.push(spot)?;
                let below = row_at(row, spot.id, instance_index(spot));
                steps_on(alloc, schema, so_far, below, more)
            }
            Err(fault) => Err(fault),
        },
    }
}

/// The instance that a step means, or all instances.
fn step_meant(
    alloc: Global,
    schema: &Schema,
    row: &[Stored],
    step: BoundStep<'_>,
) -> Result<Spot, EditFault>
    ensures { let s = schema_view.view schema.now in Gives spot_view told_by result
        (spec.step_meant s (row_view row.now) (binding.step_view s step.entry)) }
{
    if is_bare(step.predicate) {
        return Ok(Spot {
            id: step.id,
            position: None,
        });
    }
    instance_meant(alloc, schema, EditCode::E4, row, step)
}
