//! Choices whose default case doesn't stand (RFC 7950, 7.9.3 and 7.20.2).

ghost use Rattle.std.specs.Prelude.{◌≡◌, ◌+◌, ◌<◌, ◌^◌, ◌&&◌, IfOk, OnOk, drop, length, take, if◌then◌else◌};
ghost use Rattle.std.specs.List.{list_any};
ghost use Rattle.yspec.specs.Forest.{row};
ghost use Rattle.ybase_preorder.specs.Layout.{forest_of, laid, numbered_by, seen};
ghost use Rattle.ybase_preorder.specs.View.{row_by};
ghost use Rattle.yschema_cut.specs.Defaults as spec;
ghost use Rattle.yschema_cut.specs.Defaults.{is_named, off_in, stands_in, with_off, without_default_part};
ghost use Rattle.yschema_expand.specs.NodeView.{numbered_part, part_view};
ghost use Rattle.yschema_expand.specs.NumberedView.{with_number};
ghost use Rattle.yschema_expand.specs.TableView.{changed_place};

use crate::nodes::lose_default_at;
use std::alloc::{AllocError, Global};
use ybase_preorder::{Siblings, Slot};
use ybase_words::Keyword;
use yschema_expand::ExpandedNode;

/// Whether it is told of the node of a number.
fn is_told(told: &[bool], number: usize) -> bool
    ensures { result ≡ stands_in told.now number }
{
    told.get(number).copied().unwrap_or(false)
}

fn is_named(node: &ExpandedNode<'_, '_>, owner: usize, name: &str) -> bool
    ensures { result ≡ is_named owner name.now (part_view node.now) }
{
    node.owner() == owner && node.name() == name
}

/// Whether a row has a case of a name.
fn has_case(owner: usize, name: &str, cases: Siblings<'_, ExpandedNode<'_, '_>>) -> bool
    ensures { result ≡ list_any (λ c. is_named owner name.now c.label) (row (row_by with_number cases.entry)) }
{
    for case in cases {
        if is_named(case.label(), owner, name) {
            return true;
        }
    }
    false
}

/// Whether a row has one that stands.
fn has_standing_case(
    standing: &[bool],
    owner: usize,
    name: &str,
    cases: Siblings<'_, ExpandedNode<'_, '_>>,
) -> bool
    ensures { result ≡ list_any (λ c. is_named owner name.now c.label && stands_in standing.now c.number)
        (row (row_by with_number cases.entry)) }
{
    for case in cases {
        if is_named(case.label(), owner, name) && is_told(standing, case.number() as usize) {
            return true;
        }
    }
    false
}

/// Whether a row has a case of a name, and none that stands.
fn is_lost(
    standing: &[bool],
    owner: usize,
    name: &str,
    cases: Siblings<'_, ExpandedNode<'_, '_>>,
) -> bool
    ensures { result ≡ spec.is_lost standing.now (is_named owner name.now) (row_by with_number cases.entry) }
{
    has_case(owner, name, cases) && !has_standing_case(standing, owner, name, cases)
}

/// Whether the default of a choice is among its cases, and not among those that stand.
fn is_off(
    standing: &[bool],
    node: &ExpandedNode<'_, '_>,
    cases: Siblings<'_, ExpandedNode<'_, '_>>,
) -> bool
    ensures { result ≡ spec.is_off standing.now (part_view node.now) (row_by with_number cases.entry) }
{
    if !Keyword::Choice.is(node.keyword()) {
        return false;
    }
    match node.own_argument(Keyword::Default) {
        Some(name) => is_lost(standing, node.owner(), name, cases),
        None => false,
    }
}

/// The nodes right below that of a number, of which so many lie below it.
fn children_of<'b, 'a, 't>(
    slots: &'b [Slot<ExpandedNode<'a, 't>>],
    number: usize,
    below: usize,
) -> Siblings<'b, ExpandedNode<'a, 't>>
    requires few { length slots.now < 2 ^ 32 }
    requires within { number < length slots.now }
    ensures { row_by with_number result ≡ numbered_by with_number (number + 1)
        (forest_of (take below (drop (number + 1) slots.entry.now))) }
{
    let (_, later) = slots.split_at(number + 1);
    let (children, _) = later.split_at(below.min(later.len()));
    Siblings::new(children, number as u32 + 1)
}

/// Of each node, whether it is a choice whose default doesn't stand.
pub(crate) fn defaults_off(
    alloc: Global,
    slots: &[Slot<ExpandedNode<'_, '_>>],
    standing: &[bool],
) -> Result<Vec<bool>, AllocError>
    requires few { length slots.now < 2 ^ 32 }
    ensures { IfOk result (λ off. off.items ≡ off_in numbered_part standing.now 0 slots.now) }
{
    let mut off = Vec::with_capacity(alloc, slots.len())?;
    for number in 0..slots.len() {
        let cases = children_of(slots, number, slots[number].below);
        off.push(is_off(standing, &slots[number].label, cases))?;
    }
    Ok(off)
}

/// Takes its default from the node of a number, if that is off.
fn lose_default_if<'a, 't>(
    slots: &mut Vec<Slot<ExpandedNode<'a, 't>>>,
    number: usize,
    is_off: bool,
) -> Result<(), AllocError>
    ensures { OnOk result (seen numbered_part 0 (laid slots.new.items)
        ≡ if is_off then changed_place number without_default_part (seen numbered_part 0 (laid slots.old.items))
        else seen numbered_part 0 (laid slots.old.items)) }
{
    if is_off {
        lose_default_at(slots, number)
    } else {
        Ok(())
    }
}

/// Takes their defaults from nodes.
pub(crate) fn lose_defaults<'a, 't>(
    slots: &mut Vec<Slot<ExpandedNode<'a, 't>>>,
    off: &[bool],
) -> Result<(), AllocError>
    ensures { OnOk result (seen numbered_part 0 (laid slots.new.items)
        ≡ with_off off.now (seen numbered_part 0 (laid slots.old.items))) }
{
    for number in 0..off.len() {
        lose_default_if(slots, number, is_told(off, number))?;
    }
    Ok(())
}
