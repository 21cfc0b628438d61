//! The faults of a node and of all below it.

ghost use Rattle.std.specs.Prelude.{◌≡◌};
ghost use Rattle.yspec_session.specs.Session as spec;
ghost use Rattle.yspec_session.specs.Carrying as carrying;
ghost use Rattle.yinst_tree.specs.View as document_view;
ghost use Rattle.ycheck.specs.View.{views};
ghost use Rattle.yinst.specs.Locating.{spot_view, spots_view};

use ycheck::Fault;
use yinst::{Spot, Step};

/// Keeps those faults whose node stands at a place or below it.
pub fn keep_below(faults: &mut Vec<Fault>, place: &[Spot])
    ensures { views faults.new.items ≡ spec.faults_below (spots_view place.now) (views faults.old.items) }
{
    faults.retain(|fault| is_fault_below(place, fault));
}

fn is_fault_below(place: &[Spot], fault: &Fault) -> bool
    ensures { result ≡ spec.is_below (spots_view place.now) (document_view.place_view fault.now.steps.items) }
{
    is_below(place, fault.steps.as_slice())
}

/// Whether steps lead to a place or below it.
#[cycle(walk)]
fn is_below(place: &[Spot], steps: &[Step]) -> bool
    ensures { result ≡ spec.is_below (spots_view place.now) (document_view.place_view steps.now) }
{
    let Some((spot, more)) = place.split_first() else {
        return true;
    };
    match steps.split_first() {
        Some((step, rest)) => is_within(*spot, *step) && is_below(more, rest),
        None => false,
    }
}

/// Whether a step is the one of a place, or to one of the instances that are meant.
fn is_within(spot: Spot, step: Step) -> bool
    ensures { result ≡ spec.is_within (spot_view spot) (document_view.step_view step) }
{
    is_same(spot, step) || (spot.id == step.id && spot.position.is_none())
}

fn is_same(spot: Spot, step: Step) -> bool
    ensures { result ≡ carrying.same_step (spot_view spot) (document_view.step_view step) }
{
    spot.id == step.id && same_position(spot.position, step.position)
}

fn same_position(one: Option<usize>, other: Option<usize>) -> bool
    ensures { result ≡ carrying.same_position one other }
{
    match (one, other) {
        (None, None) => true,
        (Some(one), Some(other)) => one == other,
        (None, Some(_)) => false,
        (Some(_), None) => false,
    }
}
