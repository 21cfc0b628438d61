//! Where a fault stands behind turns.

ghost use Rattle.std.specs.Prelude.{◌≡◌, IfOk, Some, None, option_map, if◌then◌else◌};
ghost use Rattle.yspec_session.specs.Carrying as spec;
ghost use Rattle.ycheck.specs.View as fault_view;
ghost use Rattle.yinst.specs.Locating.{spot_view, spots_view};
ghost use Rattle.yapp_difference.specs.Keys as keys;
ghost use Rattle.yapp_difference.specs.KeyView.{key_view, step_view, steps_view};
ghost use Rattle.yapp_difference.specs.Turning.{turn_view, turn_views};
ghost use Rattle.yapp_difference.specs.Carried.{leads_below};
ghost use Rattle.yspec.specs.document.Document.{step_at};

use crate::key::{Key, KeyStep, key_steps, key_with};
use crate::row_turns::Turn;
use std::alloc::{AllocError, Global};
use ycheck::Fault;
use yinst::Spot;
use yschema_model::SchemaId;

/// The key of a fault behind turns; nothing where its node is gone.
pub(crate) fn key_behind(
    alloc: Global,
    turns: &[Turn],
    fault: &Fault,
) -> Result<Option<Key>, AllocError>
    ensures { IfOk result (λ key. option_map key_view key
        ≡ option_map keys.key_of (spec.fault_behind (turn_views turns.now) (fault_view.view fault.now))) }
{
    let mut steps = key_steps(alloc, fault.steps.as_slice())?;
    if !place_behind(turns, &mut steps)? {
        return Ok(None);
    }
    Ok(Some(key_with(fault, steps)?))
}

/// Puts a place behind turns, one after another. Answers whether its node stays.
fn place_behind(turns: &[Turn], steps: &mut Vec<KeyStep>) -> Result<bool, AllocError>
    ensures { IfOk result (λ stays. spec.place_behind (turn_views turns.now) (steps_view steps.old.items)
        ≡ (if stays then Some (steps_view steps.new.items) else None)) }
{
    for turn in turns {
        if !steps_behind(turn, steps)? {
            return Ok(false);
        }
    }
    Ok(true)
}

/// Puts a place behind a turn. Answers whether its node stays.
fn steps_behind(turn: &Turn, steps: &mut Vec<KeyStep>) -> Result<bool, AllocError>
    ensures { let t = turn_view turn.now in
        IfOk result (λ stays. spec.steps_behind t t.above (steps_view steps.old.items)
        ≡ (if stays then Some (steps_view steps.new.items) else None)) }
{
    if !leads_below(turn.above.as_slice(), steps.as_slice()) {
        return Ok(true);
    }
    let place = turn.above.len();
    match step_behind(turn, steps[place])? {
        Some(step) => {
            steps[place] = step;
            Ok(true)
        }
        None => Ok(false),
    }
}

fn step_behind(turn: &Turn, step: KeyStep) -> Result<Option<KeyStep>, AllocError>
    ensures { IfOk result (λ behind. option_map step_view behind
        ≡ spec.step_behind (turn_view turn.now) (step_view step)) }
{
    if turn.id != step.id {
        return Ok(Some(step));
    }
    let Some(position) = step.position else {
        return Ok(Some(step));
    };
    Ok(step_to(step.id, turn.positions.behind(position)?))
}

/// The step to a position, if there is one.
fn step_to(id: SchemaId, position: Option<usize>) -> Option<KeyStep>
    ensures { option_map step_view result ≡ option_map (step_at id.0) position }
{
    let position = position?;
    Some(KeyStep {
        id,
        position: Some(position),
    })
}

/// Whether steps lead below a place.
#[cycle(walk)]
fn leads_below(above: &[Spot], steps: &[KeyStep]) -> bool
    ensures { result ≡ leads_below (spots_view above.now) (steps_view steps.now) }
{
    match steps.split_first() {
        None => false,
        Some((step, more)) => match above.split_first() {
            None => true,
            Some((spot, rest)) => is_same(*spot, *step) && leads_below(rest, more),
        },
    }
}

fn is_same(spot: Spot, step: KeyStep) -> bool
    ensures { result ≡ spec.same_step (spot_view spot) (step_view step) }
{
    spot.id == step.id && spot.position == step.position
}
