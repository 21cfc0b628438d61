//! The faults that a store holds, listed row by row.

ghost use Rattle.std.specs.Prelude.{◌≡◌, ◌+◌, ◌≤◌, ◌<◌, ◌^◌, ◌∷◌, [], map, option_map, string_bytes, IfOk, OnOk};
ghost use Rattle.std.specs.Option.{option_map_or};
ghost use Rattle.yspec.specs.Forest.{size};
ghost use Rattle.yspec.specs.document.Faults.{faults_of, under};
ghost use Rattle.yspec.specs.document.Fitting.{Fits};
ghost use Rattle.yschema_model.specs.Layout.{number_of};
ghost use Rattle.yschema_model.specs.View as schema_view;
ghost use Rattle.yinst_tree.specs.View.{step_view};
ghost use Rattle.ycheck.specs.View.{views};
ghost use Rattle.ycheck.specs.Walk.{marks_told, repetition};
ghost use Rattle.yspec_play.specs.Merging.{merged, position_behind, step_of};
ghost use Rattle.ystore.specs.Store.{children_at, node_count};
ghost use Rattle.ystore.specs.Viewed.{viewed};
ghost use Rattle.ystore_tree.specs.Hanging.{Branches, Hangs, tree_of};
ghost use Rattle.ylive_list.specs.Found.{Adds};
ghost use Rattle.ylive_list.specs.Listed as spec;
ghost use Rattle.ylive_list.specs.Listed.{absences_of, child_told, children_told, judged_told, list_told, own_told, row_told, told_below, told_from};
ghost use Rattle.ylive_list.specs.Telling.{Tells};
ghost use Rattle.ystore_rows.specs.declared.row.Row.TheVariants.{Below, Top};

use crate::absent::{list_absences, list_up_to};
use crate::findings::{Findings, tell};
use std::alloc::{AllocError, Global};
use ycheck::{Fault, FaultCode, Info};
use yinst_tree::Step;
use yschema_model::{Schema, SchemaId};
use ystore::{Absence, Judged, NodeId, Row, View};

/// The faults that a store holds, in order of definition. Its reads aren't counted.
pub fn list(alloc: Global, schema: &Schema, view: View<'_>) -> Result<Vec<Fault>, AllocError>
    ensures listed { IfOk result (λ found. views found.items
        ≡ list_told (schema_view.view schema.now) (viewed view.entry)) }
    // where it holds of each node what is told there
    ensures faults { (f : Branches) → Hangs (viewed view.entry) Top f
        → size f ≤ node_count (viewed view.entry)
        → Tells (schema_view.view schema.now) (viewed view.entry) f
        → Fits (schema_view.view schema.now) (tree_of f)
        → IfOk result (λ found. views found.items
        ≡ faults_of (schema_view.view schema.now) (tree_of f)) }
{
    list_all(alloc, schema, view)
}

fn list_all(alloc: Global, schema: &Schema, view: View<'_>) -> Result<Vec<Fault>, AllocError>
    ensures { IfOk result (λ found. views found.items
        ≡ list_told (schema_view.view schema.now) (viewed view.entry)) }
{
    let mut findings = Findings {
        alloc,
        steps: Vec::new(alloc),
        faults: Vec::new(alloc),
    };
    list_row(
        schema,
        view,
        None,
        Row::Top,
        view.node_count(),
        &mut findings,
    )?;
    let Findings { faults, .. } = findings;
    Ok(faults)
}

/// Lists what is told in a row and below it, down to so many levels.
#[cycle(listing)]
fn list_row(
    schema: &Schema,
    view: View<'_>,
    above: Option<SchemaId>,
    row: Row,
    levels: usize,
    findings: &mut Findings,
) -> Result<(), AllocError>
    ensures { OnOk result (Adds findings.old findings.new
        (row_told levels (schema_view.view schema.now) (viewed view.entry) (number_of above) row)) }
{
    let play = view.play(row);
    if levels == 0 {
        list_absences(schema, above, play, findings)
    } else {
        list_children(schema, view, above, play, row, levels - 1, findings)
    }
}

/// Lists what is told of nodes that aren't stored, each before the children of its number and above, and of the children.
#[cycle(listing)]
fn list_children(
    schema: &Schema,
    view: View<'_>,
    above: Option<SchemaId>,
    play: &[Absence],
    row: Row,
    levels: usize,
    findings: &mut Findings,
) -> Result<(), AllocError>
    ensures { let nodes = viewed view.entry in
        OnOk result (Adds findings.old findings.new
        (merged (schema_view.view schema.now) (number_of above) (absences_of play.now)
        (children_told levels (schema_view.view schema.now) nodes (children_at nodes row)))) }
{
    let mut rest = play;
    let mut last = SchemaId(0);
    let mut position = 0;
    for index in 0..view.child_count(row) {
        if let Some(child) = view.child_at(row, index) {
            rest = list_up_to(schema, above, child.0, rest, findings)?;
            position = position_behind(last, position, child.0);
            last = child.0;
            list_child(schema, view, child, position, levels, findings)?;
        }
    }
    list_absences(schema, above, rest, findings)
}

/// The position of a child among those of its schema node, behind one of a schema node and a position.
pub(crate) fn position_behind(last: SchemaId, position: usize, id: SchemaId) -> usize
    requires { position + 1 < 2 ^ 64 }
    ensures { result ≡ position_behind last.0 position id.0 }
{
    if id.0 == last.0 { position + 1 } else { 1 }
}

/// Lists what is told at a child and below it; one that has no fault in total is passed over.
#[cycle(listing)]
fn list_child(
    schema: &Schema,
    view: View<'_>,
    child: (SchemaId, NodeId),
    position: usize,
    levels: usize,
    findings: &mut Findings,
) -> Result<(), AllocError>
    ensures { let schema' = schema_view.view schema.now in let nodes = viewed view.entry in
        OnOk result (Adds findings.old findings.new
        (map (under (step_of schema' child.0.0 position))
        (child_told schema' nodes (told_below levels schema' nodes (Below child.1)) child).faults)) }
{
    if view.total(Row::Below(child.1)) == 0 {
        return Ok(());
    }
    list_branch(schema, view, child, position, levels, findings)
}

#[cycle(listing)]
fn list_branch(
    schema: &Schema,
    view: View<'_>,
    child: (SchemaId, NodeId),
    position: usize,
    levels: usize,
    findings: &mut Findings,
) -> Result<(), AllocError>
    ensures { let schema' = schema_view.view schema.now in let nodes = viewed view.entry in
        OnOk result (Adds findings.old findings.new
        (map (under (step_of schema' child.0.0 position))
        (told_from schema' nodes (told_below levels schema' nodes (Below child.1)) child))) }
{
    findings.enter(step_of(schema, child.0, position))?;
    list_own(schema, view, child, findings)?;
    list_row(
        schema,
        view,
        Some(child.0),
        Row::Below(child.1),
        levels,
        findings,
    )?;
    findings.leave();
    Ok(())
}

/// The step to a child, with its position where there may be more than one.
pub(crate) fn step_of(schema: &Schema, id: SchemaId, position: usize) -> Step
    ensures { step_view result ≡ step_of (schema_view.view schema.now) id.0 position }
{
    let many = match schema.kind(id) {
        Some(node) => node.kind.is_many(),
        None => false,
    };
    let position = if many { Some(position) } else { None };
    Step { id, position }
}

/// Lists what is told of the value of a node, and of others that have the same.
fn list_own(
    schema: &Schema,
    view: View<'_>,
    child: (SchemaId, NodeId),
    findings: &mut Findings,
) -> Result<(), AllocError>
    ensures { OnOk result (Adds findings.old findings.new
        (own_told (schema_view.view schema.now) (viewed view.entry) child)) }
{
    list_judged(view.judged(child.1), findings)?;
    list_same(is_item(schema, child.0), view.same(child.1), findings)
}

fn list_judged(judged: Option<&Judged>, findings: &mut Findings) -> Result<(), AllocError>
    ensures { OnOk result (Adds findings.old findings.new
        (option_map_or judged_told (option_map (λ j. j.now) judged.entry) [])) }
{
    match judged {
        Some(Judged::Wrong(app_tag)) => {
            let app_tag = copy_of_tag(app_tag)?;
            findings.tell(FaultCode::V1, app_tag, Info::None)
        }
        Some(Judged::Missing) => tell(FaultCode::V11, Info::None, findings),
        _ => Ok(()),
    }
}

fn copy_of_tag(app_tag: &Option<String>) -> Result<Option<String>, AllocError>
    ensures { IfOk result (λ tag. option_map string_bytes tag ≡ option_map string_bytes app_tag.now) }
{
    match app_tag {
        Some(text) => Ok(Some(text.clone()?)),
        None => Ok(None),
    }
}

pub(crate) fn is_item(schema: &Schema, id: SchemaId) -> bool
    ensures { result ≡ spec.is_item (schema_view.view schema.now) id.0 }
{
    match schema.kind(id) {
        Some(node) => node.kind.has_value(),
        None => false,
    }
}

/// Tells of an item or entry what another has too.
fn list_same(is_item: bool, same: &[bool], findings: &mut Findings) -> Result<(), AllocError>
    ensures { OnOk result (Adds findings.old findings.new (marks_told is_item 0 same.now)) }
{
    for (which, mark) in same.iter().enumerate() {
        if *mark {
            tell_repetition(is_item, which, findings)?;
        }
    }
    Ok(())
}

/// Tells V10 of an item; of an entry V8 for the key, else V9 for a `unique`.
fn tell_repetition(is_item: bool, which: usize, findings: &mut Findings) -> Result<(), AllocError>
    ensures { OnOk result (Adds findings.old findings.new (repetition is_item which ∷ [])) }
{
    if is_item {
        tell(FaultCode::V10, Info::None, findings)
    } else if which == 0 {
        tell(FaultCode::V8, Info::None, findings)
    } else {
        tell(FaultCode::V9, Info::Unique(which), findings)
    }
}
