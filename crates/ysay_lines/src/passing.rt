//! What is left of the places of tokens behind a value.

ghost use Rattle.std.specs.Prelude.{◌≡◌, drop, length};
ghost use Rattle.json.specs.Tree.{items_tokens, members_tokens};
ghost use Rattle.json.specs.Value.{items_view, members_view, value_view};
ghost use Rattle.ysay_lines.specs.Lines as spec;

use crate::place::{Place, TOP};
use json::Value;

/// The first; where there is none, the beginning of the text.
pub(crate) fn first_of(places: &[Place]) -> Place
    ensures { result ≡ spec.first places.now }
{
    match places.first() {
        Some(place) => *place,
        None => TOP,
    }
}

/// Those behind the first.
pub(crate) fn behind_first(places: &[Place]) -> &[Place]
    ensures { result.now ≡ drop 1 places.entry.now }
{
    match places.split_first() {
        Some((_, rest)) => rest,
        None => places,
    }
}

/// Those behind a value.
#[cycle(passing)]
pub(crate) fn pass_value<'p>(value: &Value<'_>, places: &'p [Place]) -> &'p [Place]
    ensures { result.now ≡ spec.past (value_view value.now) places.entry.now }
{
    let inside = behind_first(places);
    match value {
        Value::Array(items) => pass_items(items, inside),
        Value::Object(members) => pass_members(members, inside),
        _ => inside,
    }
}

/// Those behind the entries of an array and its bracket.
#[cycle(passing)]
fn pass_items<'p>(items: &[Value<'_>], places: &'p [Place]) -> &'p [Place]
    ensures { result.now ≡ drop (length (items_tokens (items_view items.now))) places.entry.now }
{
    let mut left = places;
    for item in items {
        left = pass_value(item, left);
    }
    behind_first(left)
}

/// Those behind the members of an object and its brace.
#[cycle(passing)]
fn pass_members<'a, 'p>(members: &[(&'a str, Value<'a>)], places: &'p [Place]) -> &'p [Place]
    ensures { result.now
        ≡ drop (length (members_tokens (members_view members.now))) places.entry.now }
{
    let mut left = places;
    for member in members {
        let inside = behind_first(left);
        left = pass_value(&member.1, inside);
    }
    behind_first(left)
}
