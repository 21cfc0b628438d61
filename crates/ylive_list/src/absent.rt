//! What is told of nodes that aren't stored.

ghost use Rattle.std.specs.Prelude.{◌≡◌, ◌++◌, ◌∷◌, [], filter, map, IfOk, OnOk};
ghost use Rattle.yspec.specs.schema.Schema.{is_data, node_at};
ghost use Rattle.yschema_model.specs.Layout.{number_of};
ghost use Rattle.yschema_model.specs.Lookup.{alone};
ghost use Rattle.yschema_model.specs.View as schema_view;
ghost use Rattle.yinst_tree.specs.View.{place_view};
ghost use Rattle.ycheck.specs.View.{info_view};
ghost use Rattle.yspec_play.specs.Merging.{absence_fault, behind, info_at, steps_down, to_node, up_to};
ghost use Rattle.ylive_list.specs.Found.{Adds};
ghost use Rattle.ylive_list.specs.Listed.{absence_of, absences_of, data_way};

use crate::findings::{Findings, own_app_tag};
use std::alloc::{AllocError, Global};
use ycheck::Info;
use yinst_tree::Step;
use yschema_model::{Schema, SchemaId};
use ystore::Absence;

/// Adds the step to a data node; none to a choice or case.
fn add_data_step(schema: &Schema, id: SchemaId, steps: &mut Vec<Step>) -> Result<(), AllocError>
    ensures { OnOk result (place_view steps.new.items ≡ place_view steps.old.items
        ++ map to_node (filter (λ n. is_data n.kind) (alone (node_at (schema_view.view schema.now) id.0)))) }
{
    match schema.kind(id) {
        Some(node) => {
            if node.kind.is_data() {
                steps.push(Step { id, position: None })?;
            }
            Ok(())
        }
        None => Ok(()),
    }
}

/// The steps to a node, through data nodes alone; none to the top.
#[tactic(auto, using(crate::proofs::ListingLemmas::way_further))]
fn data_steps(alloc: Global, schema: &Schema, id: Option<SchemaId>) -> Result<Vec<Step>, AllocError>
    ensures { IfOk result (λ steps. place_view steps.items
        ≡ map to_node (data_way (schema_view.view schema.now) (number_of id))) }
{
    let Some(id) = id else {
        return Ok(Vec::new(alloc));
    };
    let mut steps = data_steps(alloc, schema, schema.parent(id))?;
    add_data_step(schema, id, &mut steps)?;
    Ok(steps)
}

/// The steps from the node above a row, or from the top, to a node of the row.
fn steps_down(
    alloc: Global,
    schema: &Schema,
    above: Option<SchemaId>,
    id: SchemaId,
) -> Result<Vec<Step>, AllocError>
    ensures { IfOk result (λ steps. place_view steps.items
        ≡ steps_down (schema_view.view schema.now) (number_of above) id.0) }
{
    let outer = data_steps(alloc, schema, above)?;
    let way = data_steps(alloc, schema, Some(id))?;
    let (_, inner) = way.split_at(outer.len().min(way.len()));
    Vec::from_slice(alloc, inner)
}

/// A fault of a choice has its name.
fn info_of(schema: &Schema, id: SchemaId) -> Result<Info, AllocError>
    ensures { IfOk result (λ info. info_view info ≡ info_at (schema_view.view schema.now) id.0) }
{
    match schema.kind(id) {
        Some(node) => {
            if node.kind.is_data() {
                Ok(Info::None)
            } else {
                Ok(Info::Choice(node.name.clone()?))
            }
        }
        None => Ok(Info::None),
    }
}

/// Lists what is told of a node that isn't stored.
fn list_absence(
    schema: &Schema,
    above: Option<SchemaId>,
    absence: Absence,
    findings: &mut Findings,
) -> Result<(), AllocError>
    ensures { OnOk result (Adds findings.old findings.new
        (absence_fault (schema_view.view schema.now) (number_of above) (absence_of absence) ∷ [])) }
{
    let (code, id) = absence;
    let info = info_of(schema, id)?;
    let app_tag = own_app_tag(findings.alloc, code)?;
    let steps = steps_down(findings.alloc, schema, above, id)?;
    findings.tell_below(code, app_tag, &steps, info)
}

/// Lists what is told of nodes that aren't stored.
pub(crate) fn list_absences(
    schema: &Schema,
    above: Option<SchemaId>,
    play: &[Absence],
    findings: &mut Findings,
) -> Result<(), AllocError>
    ensures { OnOk result (Adds findings.old findings.new
        (map (absence_fault (schema_view.view schema.now) (number_of above)) (absences_of play.now))) }
{
    for absence in play {
        list_absence(schema, above, *absence, findings)?;
    }
    Ok(())
}

/// Lists what is told of those up to a number, and answers the others.
pub(crate) fn list_up_to<'a>(
    schema: &Schema,
    above: Option<SchemaId>,
    id: SchemaId,
    play: &'a [Absence],
    findings: &mut Findings,
) -> Result<&'a [Absence], AllocError>
    ensures found { OnOk result (Adds findings.old findings.new
        (map (absence_fault (schema_view.view schema.now) (number_of above)) (up_to id.0 (absences_of play.entry.now)))) }
    ensures rest { IfOk result (λ rest. absences_of rest.now ≡ behind id.0 (absences_of play.entry.now)) }
{
    let mut rest = play;
    while let Some((first, others)) = rest.split_first() {
        if first.1.0 > id.0 {
            break;
        }
        list_absence(schema, above, *first, findings)?;
        rest = others;
    }
    Ok(rest)
}
