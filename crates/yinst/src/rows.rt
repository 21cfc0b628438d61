//! Changes of rows, on copies.

ghost use Rattle.std.specs.Prelude.{◌≡◌, ◌+◌, ◌<◌, ◌≤◌, MatchOption, length, take, drop, position, nat_lt, option_map, IfOk, IfSome, OnOk};
ghost use Rattle.yspec.specs.Forest.{node, join, size};
ghost use Rattle.yspec.specs.edit.Edit.{change_below, edit_at};
ghost use Rattle.yspec.specs.edit.Edit as edits;
ghost use Rattle.yspec.specs.edit.Editing as spec;
ghost use Rattle.yinst_tree.specs.View.{view, row_view};
ghost use Rattle.yinst.specs.Locating.{spot_view, spots_view};
ghost use Rattle.yinst_tree.specs.Walk.{before_first, from_first};
ghost use Rattle.yinst.specs.Rows.{is_behind, branch_view, change_view, behind_first};
ghost use Rattle.yinst.specs.Rows as rows;

use crate::locating::{Spot, instance_index};
use std::alloc::{AllocError, Global};
use yinst_tree::Stored;
use yschema_model::SchemaId;

/// What is done in a row.
#[derive(Debug, Drop)]
pub(crate) enum Change {
    /// A node is put behind all of its schema node and of earlier ones.
    Add(Stored),
    /// A node is put instead of another.
    Put(Spot, Stored),
    /// A node is taken away.
    TakeAway(Spot),
    /// A node is taken out, and put in where so many of its schema node stand before it then.
    Move(Spot, usize),
}

/// The nodes of a row before the one that a spot means, and those from it on.
fn split_at_spot(row: &[Stored], spot: Spot) -> (&[Stored], &[Stored])
    ensures before { result.0.now ≡ take (rows.nth_index spot.id.0
        (edits.instance_index (spot_view spot)) row.entry.now) row.entry.now }
    ensures from { result.1.now ≡ drop (rows.nth_index spot.id.0
        (edits.instance_index (spot_view spot)) row.entry.now) row.entry.now }
{
    row.split_at(nth_index(row, spot))
}

/// The index in a row of the node that a spot means, or the row's length.
fn nth_index(row: &[Stored], spot: Spot) -> usize
    ensures place { result
        ≡ rows.nth_index spot.id.0 (edits.instance_index (spot_view spot)) row.now }
    ensures within { result ≤ length row.now }
{
    let mut left = instance_index(spot);
    let mut at = 0;
    for stored in row {
        if stored.id() == spot.id {
            if left == 0 {
                return at;
            }
            left -= 1;
        }
        at += 1;
    }
    at
}

/// The nodes of a row up to the last that doesn't stand behind a schema node, and those from the first that does.
fn split_behind(row: &[Stored], id: SchemaId) -> (&[Stored], &[Stored])
    ensures before { result.0.now ≡ before_first (is_behind id.0) row.entry.now }
    ensures from { result.1.now ≡ from_first (is_behind id.0) row.entry.now }
{
    row.split_at(index_behind(row, id).unwrap_or(row.len()))
}

fn index_behind(row: &[Stored], id: SchemaId) -> Option<usize>
    ensures place { result ≡ position (is_behind id.0) row.now }
    ensures within { IfSome result (λ n. n < length row.now) }
{
    row.iter().position(|stored| id < stored.id())
}

/// A copy of a row with a change made in the row below these nodes, each of which is stored below the one before it.
#[cycle(changed_row)]
pub(crate) fn changed_row(
    alloc: Global,
    row: &[Stored],
    above: &[Spot],
    change: Change,
) -> Result<Vec<Stored>, AllocError>
    ensures { IfOk result (λ nodes. row_view nodes.items
        ≡ edit_at (spots_view above.now) (change_view change) (row_view row.now)) }
{
    match above.split_first() {
        Some((spot, rest)) => changed_below(alloc, row, *spot, rest, change),
        None => changed_here(alloc, row, change),
    }
}

/// A copy of a row with a change made below a node of it.
#[cycle(changed_row)]
fn changed_below(
    alloc: Global,
    row: &[Stored],
    spot: Spot,
    rest: &[Spot],
    change: Change,
) -> Result<Vec<Stored>, AllocError>
    ensures { IfOk result (λ nodes. row_view nodes.items
        ≡ change_below spot.id.0 (edits.instance_index (spot_view spot))
        (edit_at (spots_view rest.now) (change_view change)) (row_view row.now)) }
{
    let (before, from) = split_at_spot(row, spot);
    let nodes = copies_of(alloc, before)?;
    match from.split_first() {
        Some((stored, after)) => {
            let below = changed_row(alloc, stored.below(), rest, change)?;
            with_more(nodes, stored.with_below(below)?, after)
        }
        None => Ok(nodes),
    }
}

/// A row with a node behind it, and copies of others.
fn with_more(
    mut nodes: Vec<Stored>,
    next: Stored,
    others: &[Stored],
) -> Result<Vec<Stored>, AllocError>
    ensures { IfOk result (λ all. row_view all.items
        ≡ join (row_view nodes.items) (node (view next).0 (view next).1 (row_view others.now))) }
{
    nodes.push(next)?;
    push_copies(&mut nodes, others)?;
    Ok(nodes)
}

/// A copy of a row with a change made in it.
fn changed_here(alloc: Global, row: &[Stored], change: Change) -> Result<Vec<Stored>, AllocError>
    ensures { IfOk result (λ nodes. row_view nodes.items ≡ change_view change (row_view row.now)) }
{
    match change {
        Change::Add(branch) => with_branch(alloc, row, branch),
        Change::Put(spot, branch) => with_instead(alloc, row, spot, branch),
        Change::TakeAway(spot) => without(alloc, row, spot),
        Change::Move(spot, count) => with_moved(alloc, row, spot, count),
    }
}

fn with_branch(alloc: Global, row: &[Stored], branch: Stored) -> Result<Vec<Stored>, AllocError>
    ensures { IfOk result (λ nodes. row_view nodes.items
        ≡ spec.with_branch (branch_view branch) (row_view row.now)) }
{
    let (before, after) = split_behind(row, branch.id());
    let nodes = copies_of(alloc, before)?;
    with_more(nodes, branch, after)
}

fn with_instead(
    alloc: Global,
    row: &[Stored],
    spot: Spot,
    branch: Stored,
) -> Result<Vec<Stored>, AllocError>
    ensures { IfOk result (λ nodes. row_view nodes.items
        ≡ spec.with_instead (spot_view spot) (branch_view branch) (row_view row.now)) }
{
    let (before, from) = split_at_spot(row, spot);
    let nodes = copies_of(alloc, before)?;
    match from.split_first() {
        Some((_, after)) => with_more(nodes, branch, after),
        None => Ok(nodes),
    }
}

fn without(alloc: Global, row: &[Stored], spot: Spot) -> Result<Vec<Stored>, AllocError>
    ensures { IfOk result (λ nodes. row_view nodes.items
        ≡ spec.without (spot_view spot) (row_view row.now)) }
{
    let (before, from) = split_at_spot(row, spot);
    let mut nodes = copies_of(alloc, before)?;
    push_copies(&mut nodes, behind_first(from))?;
    Ok(nodes)
}

/// A node is taken out, and put in behind so many of its schema node.
fn with_moved(
    alloc: Global,
    row: &[Stored],
    spot: Spot,
    count: usize,
) -> Result<Vec<Stored>, AllocError>
    ensures { IfOk result (λ nodes. row_view nodes.items
        ≡ rows.with_moved (spot_view spot) count (row_view row.now)) }
{
    match instance_at(row, spot) {
        Some(stored) => with_branch_behind(without(alloc, row, spot)?, stored.clone()?, count),
        None => copies_of(alloc, row),
    }
}

/// The node of a row that a spot means.
pub fn instance_at(row: &[Stored], spot: Spot) -> Option<&Stored>
    ensures { option_map (λ stored. branch_view stored.now) result
        ≡ spec.instance_branch spot.id.0 (edits.instance_index (spot_view spot))
        (row_view row.entry.now) }
{
    let mut left = instance_index(spot);
    for stored in row {
        if stored.id() == spot.id {
            if left == 0 {
                return Some(stored);
            }
            left -= 1;
        }
    }
    None
}

/// A node among others: behind so many of its schema node, or all of them.
fn with_branch_behind(
    mut nodes: Vec<Stored>,
    branch: Stored,
    count: usize,
) -> Result<Vec<Stored>, AllocError>
    ensures { IfOk result (λ all. row_view all.items
        ≡ spec.with_branch_behind (branch_view branch) count (row_view nodes.items)) }
{
    let at = index_among(nodes.as_slice(), branch.id(), count);
    nodes.insert(at, branch)?;
    Ok(nodes)
}

/// The index in a row behind so many nodes of a schema node, or all of them.
fn index_among(row: &[Stored], id: SchemaId, count: usize) -> usize
    ensures place { result ≡ rows.index_among id.0 count row.now }
    ensures within { result ≤ length row.now }
{
    let mut left = count;
    let mut at = 0;
    for stored in row {
        if goes_before(id, left, stored) {
            return at;
        }
        if stored.id() == id {
            left = left.saturating_sub(1);
        }
        at += 1;
    }
    at
}

/// Whether a node of a schema node, with so many more of it to stand before, goes in front of a node.
fn goes_before(id: SchemaId, count: usize, stored: &Stored) -> bool
    ensures { result ≡ spec.goes_before id.0 count (view stored.now).0 }
{
    id < stored.id() || (stored.id() == id && count == 0)
}

/// The nodes of a row behind its first.
fn behind_first(row: &[Stored]) -> &[Stored]
    ensures { row_view result.now ≡ behind_first (row_view row.entry.now) }
{
    match row.split_first() {
        Some((_, after)) => after,
        None => row,
    }
}

/// Copies of the nodes of a row.
fn copies_of(alloc: Global, row: &[Stored]) -> Result<Vec<Stored>, AllocError>
    ensures { IfOk result (λ nodes. row_view nodes.items ≡ row_view row.now) }
{
    let mut nodes = Vec::with_capacity(alloc, row.len())?;
    push_copies(&mut nodes, row)?;
    Ok(nodes)
}

/// Puts copies of the nodes of a row behind those of another.
fn push_copies(nodes: &mut Vec<Stored>, row: &[Stored]) -> Result<(), AllocError>
    ensures { OnOk result (row_view nodes.new.items
        ≡ join (row_view nodes.old.items) (row_view row.now)) }
{
    for stored in row {
        nodes.push(stored.clone()?)?;
    }
    Ok(())
}

/// Whether a row has more nodes, with those below them, than this.
pub(crate) fn is_over(row: &[Stored], most: usize) -> bool
    ensures { result ≡ nat_lt most (size (row_view row.now)) }
{
    left_of(most, row).is_none()
}

/// What is left of a number when the nodes of a row and those below them are taken from it; nothing where they are more.
#[cycle(count)]
pub fn left_of(most: usize, row: &[Stored]) -> Option<usize>
    ensures { MatchOption result (most < size (row_view row.now)) (λ left. left
        + size (row_view row.now) ≡ most) }
{
    let mut left = most;
    for stored in row {
        left = left_of(left.checked_sub(1)?, stored.below())?;
    }
    Some(left)
}
