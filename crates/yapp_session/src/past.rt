//! The accepted edits since a document, in groups of which each can be taken back as one.

ghost use Rattle.std.specs.Prelude.{◌≡◌, ◌+◌, ◌++◌, [], ◌∷◌, OnOk, OnErr, drop, nat_le, option_map, take};
ghost use Rattle.yspec_session.specs.Remembering as spec;
ghost use Rattle.yapp_session.specs.View.{edits_view, groups_view, later_view, since_view};

use crate::copying::joined_edits;
use crate::parts::items_behind;
use std::alloc::{AllocError, Global};
use yinst::{Edit, Tree};

/// Where edits stand or fall together: how many groups there were when they began, and how many of them could be taken back.
#[derive(Clone, Copy, Debug, PartialEq, Eq)]
pub struct Since {
    pub groups: usize,
    pub kept: usize,
}

/// A later document, and how many groups lead to it.
#[derive(Drop)]
pub struct Later {
    pub groups: usize,
    pub tree: Tree,
}

/// A document, the accepted edits since in groups, how many groups can be taken back, the last first, and perhaps a later
/// document.
#[derive(Drop)]
pub struct Past {
    alloc: Global,
    base: Tree,
    groups: Vec<Vec<Edit>>,
    kept: usize,
    begun: Option<Since>,
    later: Option<Later>,
}

impl Past {
    ghost use Rattle.std.specs.Prelude.{◌≡◌, [], ◌∷◌, OnOk, OnErr, Some, None, option_map};
    ghost use Rattle.yspec_session.specs.Remembering.{back_to, begun_here, is_due, joined, kept_from, marked, settled, settled_by, stands_behind, until, with_group};
    ghost use Rattle.yinst_tree.specs.View.{tree_view};
    ghost use Rattle.yinst_path.specs.EditView.{edit_view};
    ghost use Rattle.yapp_session.specs.View.{groups_view, later_view, less_one, past_view, since_view};

    /// Nothing but a document.
    pub fn of(alloc: Global, base: Tree) -> Past
        ensures { past_view result ≡ kept_from (tree_view base) }
    {
        Past {
            alloc,
            base,
            groups: Vec::new(alloc),
            kept: 0,
            begun: None,
            later: None,
        }
    }

    /// The document from which it is counted.
    pub fn base(&self) -> &Tree
        ensures { tree_view result.now ≡ (past_view self.now).base }
    {
        &self.base
    }

    /// The groups of edits since.
    pub fn groups(&self) -> &[Vec<Edit>]
        ensures { groups_view result.now ≡ (past_view self.now).groups }
    {
        &self.groups
    }

    /// How many groups can be taken back.
    pub fn kept(&self) -> usize
        ensures { result ≡ (past_view self.now).kept }
    {
        self.kept
    }

    /// Where edits together began, if they have.
    pub fn begun(&self) -> Option<Since>
        ensures { option_map since_view result ≡ (past_view self.now).begun }
    {
        self.begun
    }

    /// The later document, where no more than so many groups lead to it.
    pub fn later_until(&self, groups: usize) -> Option<&Later>
        ensures { option_map (λ later. later_view later.now) result
            ≡ until groups (past_view self.now).later }
    {
        later_until(&self.later, groups)
    }

    /// Adds an edit as a group of its own; so many groups are remembered at most.
    pub fn add(&mut self, limit: usize, edit: Edit) -> Result<(), AllocError>
        ensures ok { OnOk result (past_view self.new
            ≡ with_group limit (edit_view edit ∷ []) (past_view self.old)) }
        ensures err { OnErr result (past_view self.new ≡ past_view self.old) }
    {
        let mut group = Vec::new(self.alloc);
        group.push(edit)?;
        self.groups.push(group)?;
        self.kept = one_more(limit, self.kept);
        Ok(())
    }

    /// Forgets the groups behind the first ones, of which the last was taken back.
    pub fn take_back(&mut self, groups: usize)
        ensures { past_view self.new ≡ less_one groups (past_view self.old) }
    {
        self.groups.truncate(groups);
        self.kept = self.kept.saturating_sub(1);
        forget_behind(&mut self.later, groups);
    }

    /// Begins edits that stand or fall together.
    pub fn begin(&mut self)
        ensures { past_view self.new ≡ begun_here (past_view self.old) }
    {
        self.begun = Some(Since {
            groups: self.groups.len(),
            kept: self.kept,
        });
        self.kept = 0;
    }

    /// Makes one group of the edits since.
    pub fn commit(&mut self, limit: usize, since: Since) -> Result<(), AllocError>
        ensures ok { OnOk result (past_view self.new
            ≡ joined limit (since_view since) (past_view self.old)) }
        ensures err { OnErr result (past_view self.new ≡ past_view self.old) }
    {
        let all = joined_edits(self.alloc, items_behind(&self.groups, since.groups))?;
        put_last(&mut self.groups, since.groups, all)?;
        self.kept = one_more(limit, since.kept);
        self.begun = None;
        forget_behind(&mut self.later, since.groups);
        Ok(())
    }

    /// Forgets the edits since.
    pub fn back(&mut self, since: Since)
        ensures { past_view self.new ≡ back_to (since_view since) (past_view self.old) }
    {
        self.groups.truncate(since.groups);
        self.kept = since.kept;
        self.begun = None;
        forget_behind(&mut self.later, since.groups);
    }

    /// Whether so many groups have come that a later document is wanted.
    pub fn is_due(&self, limit: usize) -> bool
        ensures { result ≡ is_due limit (past_view self.now) }
    {
        self.later.is_none() && self.groups.len() / 16 >= limit.max(1)
    }

    /// Keeps the document to which all groups lead.
    pub fn mark(&mut self, tree: Tree)
        ensures { past_view self.new ≡ marked (tree_view tree) (past_view self.old) }
    {
        self.later = Some(Later {
            groups: self.groups.len(),
            tree,
        });
    }

    /// Counts from the later document, where all that can be taken back stands behind it, and forgets what leads to it.
    pub fn settle(&mut self)
        ensures { past_view self.new ≡ settled (past_view self.old) }
    {
        match self.later.take() {
            Some(later) => self.settle_at(later),
            None => {}
        }
    }

    /// The same with the later document taken out.
    fn settle_at(&mut self, later: Later)
        requires { (past_view self.old).later ≡ None }
        ensures { past_view self.new ≡ settled_by (Some (later_view later))
            (record (past_view self.old) { later = Some (later_view later) }) }
    {
        if self.stands_behind(later.groups) {
            forget_first(&mut self.groups, later.groups);
            self.begun = less_groups(self.begun, later.groups);
            self.base = later.tree;
        } else {
            self.later = Some(later);
        }
    }

    /// Whether all that can be taken back, now and where edits together began, stands behind the first groups.
    fn stands_behind(&self, groups: usize) -> bool
        ensures { result ≡ stands_behind groups (past_view self.now) }
    {
        has_room(groups, self.kept, self.groups.len()) && began_behind(groups, self.begun)
    }
}

/// Whether so many behind the first of some are among them.
fn has_room(first: usize, more: usize, all: usize) -> bool
    ensures { result ≡ nat_le (first + more) all }
{
    first <= all && more <= all - first
}

fn began_behind(groups: usize, begun: Option<Since>) -> bool
    ensures { result ≡ spec.began_behind groups (option_map since_view begun) }
{
    match begun {
        Some(since) => has_room(groups, since.kept, since.groups),
        None => true,
    }
}

/// Where edits together began, without the first groups.
fn less_groups(begun: Option<Since>, groups: usize) -> Option<Since>
    ensures { option_map since_view result
        ≡ option_map (spec.less_groups groups) (option_map since_view begun) }
{
    match begun {
        Some(since) => Some(Since {
            groups: since.groups.saturating_sub(groups),
            kept: since.kept,
        }),
        None => None,
    }
}

/// Forgets the first groups.
fn forget_first(groups: &mut Vec<Vec<Edit>>, number: usize)
    ensures { groups.new.items ≡ drop number groups.old.items }
{
    let count = number.min(groups.len());
    groups.rotate_left(count);
    groups.truncate(groups.len() - count);
}

/// A later document, where no more than so many groups lead to it.
fn later_until(later: &Option<Later>, groups: usize) -> Option<&Later>
    ensures { option_map (λ found. later_view found.now) result
        ≡ spec.until groups (option_map later_view later.entry.now) }
{
    match later {
        Some(found) => {
            if found.groups <= groups {
                Some(found)
            } else {
                None
            }
        }
        None => None,
    }
}

/// Forgets a later document to which more groups lead.
fn forget_behind(later: &mut Option<Later>, groups: usize)
    ensures { option_map later_view later.new ≡ spec.until groups (option_map later_view later.old) }
{
    if later_until(later, groups).is_none() {
        *later = None;
    }
}

/// One more, up to a limit.
fn one_more(limit: usize, count: usize) -> usize
    ensures { result ≡ spec.one_more limit count }
{
    if count < limit { count + 1 } else { limit }
}

/// Puts a group in place of those from a number on, or behind all where there are no more.
fn put_last(groups: &mut Vec<Vec<Edit>>, number: usize, group: Vec<Edit>) -> Result<(), AllocError>
    ensures ok { OnOk result (groups_view groups.new.items
        ≡ take number (groups_view groups.old.items) ++ edits_view group.items ∷ []) }
    ensures err { OnErr result (groups_view groups.new.items ≡ groups_view groups.old.items) }
{
    if number < groups.len() {
        groups.insert(number, group)?;
        groups.truncate(number + 1);
    } else {
        groups.push(group)?;
    }
    Ok(())
}
