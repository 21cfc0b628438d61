//! Applied augments by the nodes below which they add.

ghost use Rattle.std.specs.Prelude.{◌≡◌, ◌+◌, ◌<◌, ◌≤◌, IfOk, get_or, length, slice_get, slice_set, Some};
ghost use Rattle.yschema_augment.specs.Placing.{Finds, FindsFrom, Others};

use crate::applied::Applied;
use std::alloc::{AllocError, Global};

/// The places of applied augments in their order, each with the next one of the same target.
#[derive(Drop)]
pub(crate) struct Places {
    // By the number of a node, the first place with that target.
    first: Vec<usize>,
    // By the place, the next one with the same target.
    next: Vec<usize>,
}

/// A place that stands in a list, or another one where none does.
fn place_at(places: &[usize], number: usize, other: usize) -> usize
    ensures { result ≡ get_or places.now number other }
{
    match places.get(number) {
        Some(place) => *place,
        None => other,
    }
}

/// Puts a place into a list.
fn put(places: &mut Vec<usize>, number: usize, place: usize)
    ensures { places.new.items ≡ slice_set places.old.items number place }
{
    if let Some(known) = places.get_mut(number) {
        *known = place;
    }
}

/// Puts a place in front of those that follow it.
fn put_first(places: &mut Places, order: &[Applied], place: usize)
    requires within { place < length order.now }
    requires known { FindsFrom places.now.first.items places.now.next.items order.now (place + 1) }
    ensures { FindsFrom places.new.first.items places.new.next.items order.now place }
{
    let target = order[place].target as usize;
    let later = place_at(places.first.as_slice(), target, 0);
    put(&mut places.next, place, later);
    put(&mut places.first, target, place);
}

impl Places {
    /// The places of augments that are applied in an order below so many nodes.
    pub(crate) fn of(alloc: Global, order: &[Applied], nodes: usize) -> Result<Places, AllocError>
        ensures { IfOk result (λ made. Finds made order.now) }
    {
        let mut places = Places {
            first: vec![in alloc; order.len(); nodes]?,
            next: vec![in alloc; order.len(); order.len()]?,
        };
        let mut place = order.len();
        while place > 0 {
            place -= 1;
            put_first(&mut places, order, place);
        }
        Ok(places)
    }

    /// A place from one on before which no augment adds below the node of a number.
    pub(crate) fn first_from(&self, order: &[Applied], number: u32, from: usize) -> usize
        requires known { Finds self.now order.now }
        ensures others { Others order.now number from result }
        ensures behind { from ≤ result }
    {
        place_at(self.first.as_slice(), number as usize, 0).max(from)
    }

    /// A place behind another one between which and that no augment adds below the same node.
    pub(crate) fn behind(&self, order: &[Applied], place: usize) -> usize
        requires known { Finds self.now order.now }
        requires within { place < length order.now }
        ensures others { (a : Applied) → slice_get order.now place ≡ Some a
            → Others order.now a.target (place + 1) result }
        ensures behind { place + 1 ≤ result }
    {
        place_at(self.next.as_slice(), place, 0).max(place + 1)
    }
}
