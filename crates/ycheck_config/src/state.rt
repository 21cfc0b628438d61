//! The faults that tell of state data.

ghost use Rattle.std.specs.Prelude.{◌≡◌, ℕ, ◌+◌, ◌++◌, ◌≤◌, ◌<◌, ◌^◌, [], ◌∷◌, IfOk, IfSome, OnOk, None, option_map, if◌then◌else◌};
ghost use Rattle.yspec.specs.document.Document as document_spec;
ghost use Rattle.yspec.specs.document.FaultCode.{V12};
ghost use Rattle.yspec.specs.document.Fault.{plain_fault};
ghost use Rattle.yspec.specs.document.StateData as spec;
ghost use Rattle.yschema_model.specs.View as schema_view;
ghost use Rattle.yinst_tree.specs.View.{place_view, row_view, step_view, tree_view, view};
ghost use Rattle.ycheck.specs.View.{views};

use crate::without::is_state;
use std::alloc::{AllocError, Global};
use ycheck::{Fault, FaultCode, Info};
use yinst_tree::{Step, Stored, Tree};
use yschema_model::{Schema, SchemaId};

/// What is found so far, and the steps to the row at hand.
#[derive(Drop)]
struct Findings {
    alloc: Global,
    place: Vec<Step>,
    faults: Vec<Fault>,
}

/// The faults that tell of the state data of a document (V12), in its order: of each row that no state data holds, each
/// schema node of state once.
pub fn state_faults(alloc: Global, schema: &Schema, tree: &Tree) -> Result<Vec<Fault>, AllocError>
    ensures { IfOk result (λ found. views found.items
        ≡ spec.state_faults (schema_view.view schema.now) (tree_view tree.now)) }
{
    let mut findings = Findings {
        alloc,
        place: Vec::new(alloc),
        faults: Vec::new(alloc),
    };
    look_at_row(schema, tree.roots(), &mut findings)?;
    let Findings { faults, .. } = findings;
    Ok(faults)
}

/// Tells of the state data of a row.
#[cycle(state)]
fn look_at_row(schema: &Schema, row: &[Stored], findings: &mut Findings) -> Result<(), AllocError>
    ensures place { OnOk result (findings.new.place.items ≡ findings.old.place.items) }
    ensures found { OnOk result (views findings.new.faults.items ≡ views findings.old.faults.items
        ++ spec.state_faults_in (schema_view.view schema.now)
        (place_view findings.old.place.items) None (row_view row.now)) }
{
    let mut last = None;
    for stored in row {
        let step = step_behind(schema, last, stored.id());
        look_at_node(schema, stored, last, step, findings)?;
        last = Some(step);
    }
    Ok(())
}

/// Tells of a node of a row where it is state, unless it stands behind another instance of its schema node; else of the
/// state data below it.
#[cycle(state)]
fn look_at_node(
    schema: &Schema,
    stored: &Stored,
    last: Option<Step>,
    step: Step,
    findings: &mut Findings,
) -> Result<(), AllocError>
    ensures place { OnOk result (findings.new.place.items ≡ findings.old.place.items) }
    ensures found { let s = schema_view.view schema.now in
        let place = place_view findings.old.place.items in
        let number = (view stored.now).0.schema_number in
        OnOk result (views findings.new.faults.items ≡ views findings.old.faults.items
        ++ (if spec.is_state s number
        then spec.state_told place (option_map step_view last) number
        else spec.state_faults_in s (place ++ step_view step ∷ []) None (view stored.now).1)) }
{
    if is_state(schema, stored.id()) {
        return tell_once(stored.id(), last, findings);
    }
    findings.place.push(step)?;
    look_at_row(schema, stored.below(), findings)?;
    findings.place.pop();
    Ok(())
}

/// Tells of a schema node of state, unless the last step leads to one of its instances.
fn tell_once(id: SchemaId, last: Option<Step>, findings: &mut Findings) -> Result<(), AllocError>
    ensures place { OnOk result (findings.new.place.items ≡ findings.old.place.items) }
    ensures found { OnOk result (views findings.new.faults.items ≡ views findings.old.faults.items
        ++ spec.state_told (place_view findings.old.place.items) (option_map step_view last) id.0) }
{
    match last {
        Some(step) if step.id == id => Ok(()),
        _ => tell(id, findings),
    }
}

/// Tells of a schema node of state.
fn tell(id: SchemaId, findings: &mut Findings) -> Result<(), AllocError>
    ensures place { OnOk result (findings.new.place.items ≡ findings.old.place.items) }
    ensures found { OnOk result (views findings.new.faults.items ≡ views findings.old.faults.items
        ++ plain_fault V12 (place_view findings.old.place.items
        ++ document_spec.step_to id.0 ∷ []) ∷ []) }
{
    let mut steps = Vec::from_slice(findings.alloc, &findings.place)?;
    steps.push(Step { id, position: None })?;
    let code = FaultCode::V12;
    findings.faults.push(Fault {
        code,
        tag: code.tag(),
        app_tag: None,
        steps,
        info: Info::None,
    })?;
    Ok(())
}

/// The step to a node behind the last step to its row.
fn step_behind(schema: &Schema, last: Option<Step>, id: SchemaId) -> Step
    requires { IfSome last (λ s. IfSome s.position (λ p. p < 2 ^ 63)) }
    ensures step { step_view result ≡ spec.step_behind (schema_view.view schema.now)
        (option_map step_view last) id.0 }
    ensures few { (n : ℕ) → IfSome last (λ s. IfSome s.position (λ p. p ≤ n))
        → IfSome result.position (λ p. p ≤ n + 1) }
{
    if is_many(schema, id) {
        let position = Some(position_behind(last, id));
        Step { id, position }
    } else {
        Step { id, position: None }
    }
}

/// Whether a schema node may have more than one instance in a row.
fn is_many(schema: &Schema, id: SchemaId) -> bool
    ensures { result ≡ spec.is_many_at (schema_view.view schema.now) id.0 }
{
    match schema.kind(id) {
        Some(node) => node.kind.is_many(),
        None => false,
    }
}

/// The position of an instance behind the last step to its row.
fn position_behind(last: Option<Step>, id: SchemaId) -> usize
    requires { IfSome last (λ s. IfSome s.position (λ p. p < 2 ^ 63)) }
    ensures position { result ≡ spec.position_behind (option_map step_view last) id.0 }
    ensures few { (n : ℕ) → IfSome last (λ s. IfSome s.position (λ p. p ≤ n)) → result ≤ n + 1 }
{
    match last {
        Some(
            Step {
                id: before,
                position: Some(position),
            },
        ) if before == id => position + 1,
        _ => 1,
    }
}
