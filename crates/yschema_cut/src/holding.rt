//! Which conditions of a set hold (RFC 7950, 7.20.2).

ghost use Rattle.std.specs.Prelude.{◌≡◌, ◌<◌, ◌^◌, IfOk, length};
ghost use Rattle.ybase_preorder.specs.View.{slots_in};
ghost use Rattle.ylink_standing.specs.ConditionView.{holds_at, is_in};
ghost use Rattle.yschema_cut.specs.Cutting.{told_from};

use std::alloc::{AllocError, Global};
use ybase_preorder::{Siblings, Slot};
use ylink_grammar::{Source, Sources};
use ylink_standing::FeaturesOn;

/// Whether what the statement of a number asks holds.
fn holds_at(features: &FeaturesOn, slots: &[Slot<Source<'_>>], number: usize) -> bool
    requires few { length slots.now < 2 ^ 32 }
    requires within { number < length slots.now }
    ensures { result ≡ holds_at features.now.conditions.items (is_in features.now.on.items) number }
{
    let (_, from) = slots.split_at(number);
    let (one, _) = from.split_at(1);
    features.stands(Siblings::new(one, number as u32))
}

/// Of each statement of a set, by its number, whether what it asks holds; one that is no condition asks nothing.
pub(crate) fn holding_of(
    alloc: Global,
    features: &FeaturesOn,
    sources: &Sources<'_>,
) -> Result<Vec<bool>, AllocError>
    ensures { IfOk result (λ holding. holding.items
        ≡ told_from (holds_at features.now.conditions.items (is_in features.now.on.items)) 0 (slots_in sources.now.table)) }
{
    let slots = sources.slots();
    let mut holding = Vec::with_capacity(alloc, slots.len())?;
    for number in 0..slots.len() {
        holding.push(holds_at(features, slots, number))?;
    }
    Ok(holding)
}
