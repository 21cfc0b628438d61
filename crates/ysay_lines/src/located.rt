//! Where the values of a text begin.

ghost use Rattle.std.specs.Prelude.{◌≡◌, ◌∷◌, None, Some, option_map};
ghost use Rattle.yinst_tree.specs.View.{place_view, step_view};
ghost use Rattle.ysay_lines.specs.Found.{answer, entry_at, place_of};

use crate::place::Place;
use std::collections::BTreeMap;
use yinst_tree::Step;
use yschema_model::SchemaId;

/// The place of a value, and of those in it: of an object's by the node to which a name leads.
#[derive(Drop)]
pub(crate) enum Located {
    Single(Place),
    Array(Place, Vec<Located>),
    Object(Place, BTreeMap<SchemaId, Located>),
}

/// The place of a value itself.
pub(crate) fn place_of(located: &Located) -> Place
    ensures { result ≡ place_of located.now }
{
    match located {
        Located::Single(here) => *here,
        Located::Array(here, _) => *here,
        Located::Object(here, _) => *here,
    }
}

/// The one at a position, from 1.
fn entry_at(items: &[Located], position: usize) -> Option<&Located>
    ensures { option_map (λ located. located.now) result ≡ entry_at position items.entry.now }
{
    if position == 0 {
        None
    } else {
        items.get(position - 1)
    }
}

/// Where steps lead from a value.
#[cycle(leading)]
pub(crate) fn from_value(located: &Located, steps: &[Step]) -> Place
    ensures { result ≡ answer located.now None (place_view steps.now) }
{
    match steps.split_first() {
        Some((step, rest)) => from_member(located, step, rest),
        None => place_of(located),
    }
}

/// Where a step and those behind it lead from a value.
#[cycle(leading)]
fn from_member(located: &Located, step: &Step, rest: &[Step]) -> Place
    ensures { result ≡ answer located.now None (step_view step.now ∷ place_view rest.now) }
{
    match located {
        Located::Single(here) => *here,
        Located::Array(here, _) => *here,
        Located::Object(here, by_node) => match by_node.get(&step.id) {
            Some(value) => from_entry(value, step.position, rest),
            None => *here,
        },
    }
}

/// Where steps lead from a value, or from its entry at a position.
#[cycle(leading)]
fn from_entry(located: &Located, position: Option<usize>, steps: &[Step]) -> Place
    ensures { result ≡ answer located.now position (place_view steps.now) }
{
    match position {
        Some(position) => at_position(located, position, steps),
        None => from_value(located, steps),
    }
}

/// Where steps lead from the entry of a value at a position; where there is none, the value itself.
#[cycle(leading)]
fn at_position(located: &Located, position: usize, steps: &[Step]) -> Place
    ensures { result ≡ answer located.now (Some position) (place_view steps.now) }
{
    match located {
        Located::Single(here) => *here,
        Located::Object(here, _) => *here,
        Located::Array(here, items) => match entry_at(items, position) {
            Some(item) => from_value(item, steps),
            None => *here,
        },
    }
}
