//! Where the values of a text begin, gathered in one walk.

ghost use Rattle.std.specs.Prelude.{◌≡◌, IfOk, OnOk, drop, length};
ghost use Rattle.json.specs.Tree.{items_tokens, members_tokens};
ghost use Rattle.json.specs.Value.{items_view, members_view, value_view};
ghost use Rattle.yschema_model.specs.Layout.{number_of};
ghost use Rattle.yschema_model.specs.View.{view};
ghost use Rattle.ysay_lines.specs.Found.{Tells, TellsEach, TellsLast, TellsMore};
ghost use Rattle.ysay_lines.specs.Lines.{past};

use crate::located::Located;
use crate::passing::{behind_first, first_of, pass_value};
use crate::place::Place;
use json::Value;
use std::alloc::{AllocError, Global};
use std::collections::BTreeMap;
use yschema_model::{Schema, SchemaId};

/// A value of a node, or of the top, whose tokens begin at these places; and what is left of them.
#[cycle(locating)]
pub(crate) fn locate<'a, 'p>(
    alloc: Global,
    schema: &Schema,
    parent: Option<SchemaId>,
    value: &Value<'a>,
    places: &'p [Place],
) -> Result<(Located, &'p [Place]), AllocError>
    ensures { IfOk result (λ r. Tells (view schema.now) (number_of parent) r.0
        (value_view value.now) places.entry.now
        × (r.1.now ≡ past (value_view value.now) places.entry.now)) }
{
    let here = first_of(places);
    let inside = behind_first(places);
    match value {
        Value::Array(items) => {
            let (entries, left) = locate_items(alloc, schema, parent, items, inside)?;
            Ok((Located::Array(here, entries), left))
        }
        Value::Object(members) => {
            let (by_node, left) = locate_members(alloc, schema, parent, members, inside)?;
            Ok((Located::Object(here, by_node), left))
        }
        _ => Ok((Located::Single(here), inside)),
    }
}

/// The entries of an array, which stand behind its bracket.
#[cycle(locating)]
fn locate_items<'a, 'p>(
    alloc: Global,
    schema: &Schema,
    parent: Option<SchemaId>,
    items: &[Value<'a>],
    places: &'p [Place],
) -> Result<(Vec<Located>, &'p [Place]), AllocError>
    ensures { IfOk result (λ r. TellsEach (view schema.now) (number_of parent) r.0.items
        (items_view items.now) places.entry.now
        × (r.1.now ≡ drop (length (items_tokens (items_view items.now))) places.entry.now)) }
{
    let mut entries = Vec::new(alloc);
    let mut left = places;
    for item in items {
        let (located, rest) = locate(alloc, schema, parent, item, left)?;
        entries.push(located)?;
        left = rest;
    }
    Ok((entries, behind_first(left)))
}

/// The members of an object, which stand behind its brace.
#[cycle(locating)]
fn locate_members<'a, 'p>(
    alloc: Global,
    schema: &Schema,
    parent: Option<SchemaId>,
    members: &[(&'a str, Value<'a>)],
    places: &'p [Place],
) -> Result<(BTreeMap<SchemaId, Located>, &'p [Place]), AllocError>
    ensures { IfOk result (λ r. TellsLast (view schema.now) (number_of parent) r.0
        (members_view members.now) places.entry.now
        × (r.1.now ≡ drop (length (members_tokens (members_view members.now))) places.entry.now)) }
{
    let mut by_node = BTreeMap::new(alloc);
    let mut left = places;
    for member in members {
        let inside = behind_first(left);
        let rest = locate_member(alloc, schema, parent, member, inside, &mut by_node)?;
        left = rest;
    }
    Ok((by_node, behind_first(left)))
}

/// Adds a member, whose value stands behind its name, to those of its object; one whose name leads nowhere is passed.
#[cycle(locating)]
fn locate_member<'a, 'p>(
    alloc: Global,
    schema: &Schema,
    parent: Option<SchemaId>,
    member: &(&'a str, Value<'a>),
    places: &'p [Place],
    by_node: &mut BTreeMap<SchemaId, Located>,
) -> Result<&'p [Place], AllocError>
    ensures left { IfOk result (λ left. left.now ≡ past (value_view member.now.1) places.entry.now) }
    ensures more { OnOk result (TellsMore (view schema.now) (number_of parent)
        by_node.old by_node.new member.now.0.now (value_view member.now.1, places.entry.now)) }
{
    match schema.child_written(parent, member.0) {
        Some(id) => {
            let (located, left) = locate(alloc, schema, Some(id), &member.1, places)?;
            by_node.insert(id, located)?;
            Ok(left)
        }
        None => Ok(pass_value(&member.1, places)),
    }
}
