//! What a module adds below nodes of other modules (RFC 7950, 7.17).

ghost use Rattle.std.specs.Prelude.{◌≡◌, true, codes};
ghost use Rattle.std.specs.List.{flat_map};
ghost use Rattle.yspec.specs.schema.Schema.{way_to};
ghost use Rattle.yspec.specs.schema.Diagram as spec;
ghost use Rattle.ybase_output.specs.Writing.{Writes, side};
ghost use Rattle.yspec_fit.specs.Fit.{all_ascend, ascends_from};
ghost use Rattle.yschema_model.specs.Layout.{numbers_of};
ghost use Rattle.yschema_model.specs.View.{augment_view, view};
ghost use Rattle.ydiagram.specs.View.{added_row, augments_seen, augments_written, row_written, starts_elsewhere, target_step};

use crate::fault::{DiagramFault, put};
use crate::indentation::Indentation;
use crate::label::label_width;
use crate::rows::write_held;
use ybase_output::Sink;
use yschema_model::{Augment, Schema, SchemaId};

/// Whether the way to a node begins with a node of another module than the one that is shown.
fn is_elsewhere(schema: &Schema, shown: usize, id: SchemaId) -> bool
    ensures { result ≡ starts_elsewhere (view schema.now) shown id.0 }
{
    match schema.parent(id) {
        Some(parent) => is_elsewhere(schema, shown, parent),
        None => match schema.kind(id) {
            Some(node) => node.module != shown,
            None => false,
        },
    }
}

/// Writes the step to a node, with the prefix of its module.
fn write_target_step<W: Sink>(
    schema: &Schema,
    id: SchemaId,
    sink: &mut W,
) -> Result<(), DiagramFault>
    ensures { Writes (side W.taken W.failures sink.old) (side W.taken W.failures sink.new)
        (target_step (view schema.now) id.0) result }
{
    match schema.kind(id) {
        Some(node) => {
            let prefix = schema.module_prefix(node.module).unwrap_or("");
            put(sink, &["/", prefix, ":", node.name.as_str()])
        }
        None => Ok(()),
    }
}

/// Writes the steps to a target, choices and cases included.
fn write_target<W: Sink>(schema: &Schema, id: SchemaId, sink: &mut W) -> Result<(), DiagramFault>
    ensures { let s = view schema.now in
        Writes (side W.taken W.failures sink.old) (side W.taken W.failures sink.new)
        (flat_map (spec.step_text s) (way_to s id.0)) result }
{
    match schema.parent(id) {
        Some(parent) => {
            write_target(schema, parent, sink)?;
            write_target_step(schema, id, sink)
        }
        None => write_target_step(schema, id, sink),
    }
}

/// The width of the widest label among the nodes that an augment adds.
fn added_width(schema: &Schema, shown: usize, augment: &Augment) -> u128
    ensures { let s = view schema.now in
        result ≡ spec.row_width s shown (added_row s (augment_view augment.now)) }
{
    let mut width = 0;
    for id in augment.nodes.iter() {
        let Some(child) = schema.child_at(Some(augment.target), *id) else {
            continue;
        };
        width = label_width(schema, shown, child.node()).max(width);
    }
    width
}

/// Writes the lines of the nodes that an augment adds, and of all below them.
fn write_added<W: Sink>(
    schema: &Schema,
    shown: usize,
    augment: &Augment,
    sink: &mut W,
) -> Result<(), DiagramFault>
    ensures { let s = view schema.now in
        Writes (side W.taken W.failures sink.old) (side W.taken W.failures sink.new)
        (row_written s shown (codes "    ") (added_row s (augment_view augment.now))) result }
{
    let width = added_width(schema, shown, augment);
    let indentation = Indentation::Added;
    let mut held = None;
    for id in augment.nodes.iter() {
        let Some(child) = schema.child_at(Some(augment.target), *id) else {
            continue;
        };
        write_held(schema, shown, &indentation, width, held, true, sink)?;
        held = Some(child);
    }
    write_held(schema, shown, &indentation, width, held, false, sink)
}

/// Writes an augment: the way to its target, and what it adds there.
fn write_augment<W: Sink>(
    schema: &Schema,
    shown: usize,
    augment: &Augment,
    sink: &mut W,
) -> Result<(), DiagramFault>
    requires { ascends_from 0 (numbers_of augment.now.nodes.items) ≡ true }
    ensures { let s = view schema.now in
        Writes (side W.taken W.failures sink.old) (side W.taken W.failures sink.new)
        (spec.part_text s shown (spec.augment_part s (augment_view augment.now))) result }
{
    put(sink, &["\n  augment "])?;
    write_target(schema, augment.target, sink)?;
    put(sink, &[":", "\n"])?;
    write_added(schema, shown, augment, sink)
}

/// Writes those augments of a module whose targets lead through nodes of other modules.
pub(crate) fn write_augments<W: Sink>(
    schema: &Schema,
    shown: usize,
    augments: &[Augment],
    sink: &mut W,
) -> Result<(), DiagramFault>
    requires { all_ascend (augments_seen augments.now) ≡ true }
    ensures { Writes (side W.taken W.failures sink.old) (side W.taken W.failures sink.new)
        (augments_written (view schema.now) shown (augments_seen augments.now)) result }
{
    for augment in augments {
        if !is_elsewhere(schema, shown, augment.target) {
            continue;
        }
        write_augment(schema, shown, augment, sink)?;
    }
    Ok(())
}
