//! What is said of the path of an edit, one of whose names isn't there or is in the form that isn't due (E2).

ghost use Rattle.std.specs.Prelude.{◌≡◌, IfOk, string_bytes};
ghost use Rattle.yschema_model.specs.Layout.{number_of};
ghost use Rattle.yschema_model.specs.View.{view};
ghost use Rattle.yinst_path.specs.EditView.{path_view, steps_view};
ghost use Rattle.ysay_refusal.specs.Member as member_spec;
ghost use Rattle.ysay_edit.specs.Choice as choice_spec;
ghost use Rattle.ysay_edit.specs.Step as spec;

use crate::choice::{passed_at, passed_through};
use std::alloc::{AllocError, Global};
use yinst_path::{NamedStep, Path};
use ysay_refusal::{due_name, near_name, other_member, unknown_member};
use yschema_model::{Schema, SchemaId};

/// Of a name that is no child's, and has no other form that is due.
fn of_no_node(
    alloc: Global,
    schema: &Schema,
    parent: Option<SchemaId>,
    name: &str,
) -> Result<String, AllocError>
    ensures { let p = number_of parent in IfOk result (λ text. string_bytes text
        ≡ spec.no_node name.now (choice_spec.passed_at (view schema.now) p name.now)
        (member_spec.near_name (view schema.now) p name.now)) }
{
    match passed_at(schema, parent, name) {
        Some(called) => passed_through(alloc, name, called),
        None => {
            let near = near_name(alloc, schema, parent, name)?;
            unknown_member(alloc, name, near)
        }
    }
}

/// Of a name that is no child's of a node, or of the top.
fn of_name(
    alloc: Global,
    schema: &Schema,
    parent: Option<SchemaId>,
    name: &str,
) -> Result<String, AllocError>
    ensures { IfOk result (λ text. string_bytes text
        ≡ spec.of_name (view schema.now) (number_of parent) name.now) }
{
    match due_name(alloc, schema, parent, name)? {
        Some(due) => other_member(alloc, name, Some(due)),
        None => of_no_node(alloc, schema, parent, name),
    }
}

/// Of the first of some steps, from the top on, that leads to no child.
fn of_steps(alloc: Global, schema: &Schema, steps: &[NamedStep]) -> Result<String, AllocError>
    ensures { IfOk result (λ text. string_bytes text
        ≡ spec.said_of_path (view schema.now) (steps_view steps.now)) }
{
    let mut parent = None;
    for step in steps {
        let name = step.name.as_str();
        match schema.child_written(parent, name) {
            Some(id) => parent = Some(id),
            None => return of_name(alloc, schema, parent, name),
        }
    }
    Ok(String::new(alloc))
}

/// What is said of a path: of its first name that isn't there, or is in the form that isn't due (E2); an empty text where all
/// are there.
pub(crate) fn said_of_path(
    alloc: Global,
    schema: &Schema,
    path: &Path,
) -> Result<String, AllocError>
    ensures { IfOk result (λ text. string_bytes text
        ≡ spec.said_of_path (view schema.now) (path_view path.now)) }
{
    of_steps(alloc, schema, path.steps.as_slice())
}
