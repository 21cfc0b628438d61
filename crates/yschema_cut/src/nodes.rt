//! What is asked of nodes (RFC 7950, 7.9.2 and 7.20.2).

ghost use Rattle.std.specs.Prelude.{◌≡◌, ◌<◌, IfOk, OnOk, length, map};
ghost use Rattle.yspec.specs.Forest.{Forest};
ghost use Rattle.yspec.specs.linking.Source.{Source};
ghost use Rattle.yspec_wide.specs.Standing.{is_implied_case, without_default};
ghost use Rattle.yschema_given.specs.GivenView.{stated_with};
ghost use Rattle.ybase_preorder.specs.Layout.{laid, seen};
ghost use Rattle.ylink_grammar.specs.LanguageView.{language_view};
ghost use Rattle.yschema_cut.specs.Cutting.{stands_by};
ghost use Rattle.yschema_cut.specs.Defaults.{without_default_part};
ghost use Rattle.yschema_cut.specs.Totals.{fate_of};
ghost use Rattle.yschema_expand.specs.NodeView.{numbered_part, part_view, plain_part};
ghost use Rattle.yschema_expand.specs.TableView.{changed_place};
ghost use Rattle.yschema_given.specs.Holding as spec;

use crate::totals::Fate;
use std::alloc::{AllocError, Global};
use ybase_preorder::Slot;
use ybase_words::Keyword;
use ylink_grammar::Language;
use yschema_expand::ExpandedNode;
use yschema_given::{Given, kept_hold};

/// Whether all that a node's own statements ask holds, as conditions are kept.
fn plain_holds(node: &ExpandedNode<'_, '_>, holding: &[bool]) -> bool
    ensures { result ≡ spec.kept_hold (spec.holds_in holding.now) (plain_part node.now).own }
{
    match node.own() {
        Some(row) => kept_hold(holding, row),
        None => true,
    }
}

/// Whether all conditions of a node hold, as they are kept, where a table says by their numbers which hold.
fn holds(node: &ExpandedNode<'_, '_>, holding: &[bool]) -> bool
    ensures { result ≡ spec.kept_hold (spec.holds_in holding.now) (part_view node.now).own }
{
    let mut holds = plain_holds(node, holding);
    for given in &node.given {
        holds = given.stands(holds, holding);
    }
    holds
}

/// Whether a node stands, whatever stands above it: it is no operation, and all its conditions hold.
fn stands(language: &Language, node: &ExpandedNode<'_, '_>, holding: &[bool]) -> bool
    ensures { result ≡ stands_by (language_view language.now) holding.now (part_view node.now) }
{
    !node.is_operation(language) && holds(node, holding)
}

/// Whether a node is a case that isn't written.
fn is_implied(node: &ExpandedNode<'_, '_>) -> bool
    ensures { result ≡ is_implied_case (part_view node.now) }
{
    Keyword::Case.is(node.keyword()) && node.source.label().statement.keyword() != "case"
}

/// What is told of the nodes of a table.
pub(crate) fn fates_of(
    alloc: Global,
    language: &Language,
    slots: &[Slot<ExpandedNode<'_, '_>>],
    holding: &[bool],
) -> Result<Vec<Fate>, AllocError>
    ensures { IfOk result (λ fates. fates.items
        ≡ map (λ r. fate_of (stands_by (language_view language.now) holding.now) (part_view r.label)) slots.now) }
{
    let mut fates = Vec::with_capacity(alloc, slots.len())?;
    for slot in slots {
        fates.push(Fate {
            holds: stands(language, &slot.label, holding),
            is_implied: is_implied(&slot.label),
        })?;
    }
    Ok(fates)
}

/// Whether each node of a table stands, whatever stands above it.
pub(crate) fn own_standing_of(
    alloc: Global,
    language: &Language,
    slots: &[Slot<ExpandedNode<'_, '_>>],
    holding: &[bool],
) -> Result<Vec<bool>, AllocError>
    ensures { IfOk result (λ standing. standing.items
        ≡ map (λ r. stands_by (language_view language.now) holding.now (part_view r.label)) slots.now) }
{
    let mut standing = Vec::with_capacity(alloc, slots.len())?;
    for slot in slots {
        standing.push(stands(language, &slot.label, holding))?;
    }
    Ok(standing)
}

/// Whether all conditions of each node of a table itself hold.
pub(crate) fn own_holding_of(
    alloc: Global,
    slots: &[Slot<ExpandedNode<'_, '_>>],
    holding: &[bool],
) -> Result<Vec<bool>, AllocError>
    ensures { IfOk result (λ held. held.items
        ≡ map (λ r. spec.kept_hold (spec.holds_in holding.now) (part_view r.label).own) slots.now) }
{
    let mut held = Vec::with_capacity(alloc, slots.len())?;
    for slot in slots {
        held.push(holds(&slot.label, holding))?;
    }
    Ok(held)
}

/// That a node has no default.
fn no_default<'a, 't>(_node: &ExpandedNode<'a, 't>) -> Given<'a, 't>
    ensures { (own : Forest Source) → stated_with result own ≡ without_default own }
{
    Given::of_no_default()
}

/// Takes its default from a node.
fn lose_default<'a, 't>(node: &mut ExpandedNode<'a, 't>) -> Result<(), AllocError>
    ensures { OnOk result (part_view node.new ≡ without_default_part (part_view node.old)) }
{
    let given = no_default(node);
    node.given.push(given)?;
    Ok(())
}

/// Takes its default from the node of a number.
pub(crate) fn lose_default_at<'a, 't>(
    slots: &mut Vec<Slot<ExpandedNode<'a, 't>>>,
    number: usize,
) -> Result<(), AllocError>
    ensures { OnOk result (seen numbered_part 0 (laid slots.new.items)
        ≡ changed_place number without_default_part (seen numbered_part 0 (laid slots.old.items))) }
{
    match slots.get_mut(number) {
        Some(slot) => lose_default(&mut slot.label),
        None => Ok(()),
    }
}
