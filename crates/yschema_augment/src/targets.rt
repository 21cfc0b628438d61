//! Which augments are applied, in which order, and where (RFC 7950, 7.17).

ghost use Rattle.std.specs.Prelude.{◌≡◌, ◌<◌, ℕ, length, true, replicate, IfOk};
ghost use Rattle.ylink_features.specs.VersionView.{AreVersionsOf};
ghost use Rattle.yschema_augment.specs.Settling.{Among};
ghost use Rattle.yschema_expand.specs.NamedView.{language_of, modules_of};

use crate::applied::Applied;
use crate::arranging::body_of;
use crate::search::{Search, Step};
use crate::waiting::Waiter;
use std::alloc::{AllocError, Global};
use ybase_preorder::Node;
use ybase_words::Keyword;
use ylink_features::Versions;
use ylink_grammar::Source;
use yschema_expand::{Named, NodeTable, holds_by};

/// The augments of a set with the paths to their targets, and the nodes among which these are.
#[derive(Drop)]
pub(crate) struct Targets<'b, 'a, 't> {
    pub nodes: &'b NodeTable<'a, 't>,
    pub augments: &'b [Node<'a, Source<'t>>],
    pub paths: &'b [Vec<Step>],
    /// Where what each augment adds begins among the nodes.
    pub starts: &'b [u32],
    pub named: &'b Named<'a, 't>,
    /// The versions of modules.
    pub versions: &'b Versions,
    ghost paired: { length paths.now ≡ length augments.now },
    ghost dated: { AreVersionsOf versions.now (language_of named.now) (modules_of named.now) },
}

/// Which augments are applied, in order, and which wait still.
#[derive(Drop)]
pub(crate) struct Resolved {
    pub order: Vec<Applied>,
    pub waits: Vec<bool>,
}

/// So many augments, none of whose steps is found yet.
fn all_waiters(alloc: Global, count: usize) -> Result<Vec<Waiter>, AllocError>
    ensures all { IfOk result (λ waiters. (j : ℕ) → j < count → Among (record { augment = j; found = 0 }) waiters.items) }
    ensures none { IfOk result (λ waiters. (w : Waiter) → Among w waiters.items → (w.augment < count) × (w.found ≡ 0)) }
{
    let mut waiters = Vec::with_capacity(alloc, count)?;
    for augment in 0..count {
        waiters.push(Waiter { augment, found: 0 })?;
    }
    Ok(waiters)
}

/// So many times true.
fn all_true(alloc: Global, count: usize) -> Result<Vec<bool>, AllocError>
    ensures { IfOk result (λ waits. waits.items ≡ replicate count true) }
{
    let mut waits = Vec::with_capacity(alloc, count)?;
    for _ in 0..count {
        waits.push(true)?;
    }
    Ok(waits)
}

impl<'b, 'a, 't> Targets<'b, 'a, 't> {
    ghost use Rattle.std.specs.Prelude.{◌≡◌, ◌<◌, length, true, false, [], Some, MatchOption, IfOk, OnOk, replicate};
    ghost use Rattle.yschema_augment.specs.Searching.{target_in};
    ghost use Rattle.yschema_augment.specs.SearchView.{look_in, AreTexts};
    ghost use Rattle.yschema_augment.specs.Settling.{steps_of, Hangs, Ranged, Sound};
    ghost use Rattle.yschema_augment.specs.Arranging.{own_rows, rows_of, taken_for};
    ghost use Rattle.ybase_index.specs.Index.{texts_of};
    ghost use Rattle.yspec.specs.linking.Keyword.{choice_word};
    ghost use Rattle.yspec.specs.linking.Source.{is_source_of};
    ghost use Rattle.yschema_expand.specs.AugmentView.{augments_seen};
    ghost use Rattle.yschema_augment.specs.Picking.{askings_of, found_at, holds_at, is_waiting, left_of, source_at, AllSettled, Picks};
    ghost use Rattle.yschema_expand.specs.TableView.{slots_of};
    ghost use Rattle.yschema_expand.specs.NamedView.{language_of, modules_of};
    ghost use Rattle.yschema_augment.specs.Hanging.{plain};
    ghost use Rattle.yschema_augment.specs.Turning.{placed, Goes, Prepared};
    ghost use Rattle.yspec.specs.linking.Augments.{in_turn};
    ghost use Rattle.yspec_wide.specs.Expansion.{applied_in, is_ready_in};

    /// Whether the node of a number may take what an augment states.
    fn may_hold(&self, target: u32, augment: usize) -> bool
        requires { augment < length self.now.augments.now }
        ensures { result ≡ holds_at (askings_of self.now.named.now) (slots_of self.now.nodes.now) (augments_seen self.now.augments.now) target augment }
    {
        let augment = self.augments[augment];
        let old = self.versions.is_yang_1(augment.label().home);
        let Some(node) = self.nodes.node(target) else {
            return false;
        };
        holds_by(self.named.language(), old, node, augment.children())
    }

    /// The node below which an augment that waits may be applied now.
    fn fitting(&self, waits: &[bool], search: &Search<'t>, augment: usize) -> Option<u32>
        requires { length waits.now ≡ length self.now.paths.now }
        ensures { MatchOption result
            (is_waiting waits.now augment ≡ true
            → found_at (askings_of self.now.named.now) (slots_of self.now.nodes.now) (augments_seen self.now.augments.now) self.now.paths.now search.now augment ≡ false)
            (λ target. (is_waiting waits.now augment ≡ true)
            × (target_in (look_in search.now) (steps_of search.now self.now.paths.now augment) ≡ Some target)
            × (holds_at (askings_of self.now.named.now) (slots_of self.now.nodes.now) (augments_seen self.now.augments.now) target augment ≡ true)) }
    {
        if waits.get(augment) != Some(&true) {
            return None;
        }
        let target = search.target(self.paths[augment].as_slice())?;
        if self.may_hold(target, augment) {
            Some(target)
        } else {
            None
        }
    }

    /// The first augment that waits and may be applied now; those before it that have arrived are passed over.
    fn next(&self, waits: &[bool], search: &mut Search<'t>) -> Option<Applied>
        requires lengths { length waits.now ≡ length self.now.paths.now }
        requires settled { AllSettled (askings_of self.now.named.now) (slots_of self.now.nodes.now) (augments_seen self.now.augments.now)
            self.now.paths.now waits.now search.old }
        ensures { Picks (askings_of self.now.named.now) (slots_of self.now.nodes.now) (augments_seen self.now.augments.now)
            self.now.paths.now waits.now result search.old search.new }
    {
        while let Some(augment) = search.pop() {
            if let Some(target) = self.fitting(waits, search, augment) {
                return Some(Applied { target, augment });
            }
        }
        None
    }

    /// Whether the node of a number is a choice.
    fn is_choice(&self, number: u32) -> bool
        ensures { result ≡ is_source_of choice_word (source_at (slots_of self.now.nodes.now) number) }
    {
        match self.nodes.node(number) {
            Some(node) => node.keyword().is(Keyword::Choice),
            None => false,
        }
    }

    /// Puts what an augment adds below its target, and lets those go on that lacked some of it.
    fn apply(
        &self,
        alloc: Global,
        applied: Applied,
        search: &mut Search<'t>,
    ) -> Result<(), AllocError>
        requires sound { Sound self.now.paths.now search.old }
        requires ranged { Ranged self.now.paths.now search.old }
        requires texts { AreTexts (texts_of search.old.index)
            (rows_of self.now.starts.now (slots_of self.now.nodes.now) applied.augment) }
        ensures { OnOk result (Hangs self.now.paths.now applied.target
            (taken_for (source_at (slots_of self.now.nodes.now) applied.target)
            (rows_of self.now.starts.now (slots_of self.now.nodes.now) applied.augment)) search.old search.new) }
    {
        let is_choice = self.is_choice(applied.target);
        let body = body_of(self.nodes, self.starts, applied.augment);
        search.add_body(applied.target, is_choice, body)?;
        let woken = search.wake_body(alloc, applied.target, is_choice, body)?;
        search.settle(alloc, self.paths, &woken, Some(applied.target))
    }

    /// Lets all augments go on from the top.
    fn start(&self, alloc: Global, search: &mut Search<'t>) -> Result<(), AllocError>
        requires { Prepared (language_of self.now.named.now) (modules_of self.now.named.now) (augments_seen self.now.augments.now)
            (slots_of self.now.nodes.now) self.now.starts.now self.now.paths.now search.old }
        ensures { OnOk result (Goes (language_of self.now.named.now) (modules_of self.now.named.now) (augments_seen self.now.augments.now)
            (slots_of self.now.nodes.now) self.now.starts.now self.now.paths.now search.old
            (replicate (length self.now.augments.now) true) [] search.new) }
    {
        let all = all_waiters(alloc, self.paths.len())?;
        search.settle(alloc, self.paths, &all, None)
    }

    /// Applies always the first augment that may be applied by then, until none may.
    pub fn resolve(&self, alloc: Global, search: &mut Search<'t>) -> Result<Resolved, AllocError>
        requires { Prepared (language_of self.now.named.now) (modules_of self.now.named.now) (augments_seen self.now.augments.now)
            (slots_of self.now.nodes.now) self.now.starts.now self.now.paths.now search.old }
        ensures { IfOk result (λ r. let l = language_of self.now.named.now in let m = modules_of self.now.named.now in
            let augments = augments_seen self.now.augments.now in
            let slots = slots_of self.now.nodes.now in
            (plain (placed self.now.starts.now slots augments r.order.items), left_of r.waits.items augments)
            ≡ in_turn (is_ready_in l m) (applied_in l m) (length augments) (plain (own_rows self.now.starts.now slots)) augments) }
    {
        self.start(alloc, search)?;
        let mut waits = all_true(alloc, self.paths.len())?;
        let mut order = Vec::new(alloc);
        while let Some(applied) = self.next(&waits, search) {
            waits[applied.augment] = false;
            order.push(applied)?;
            self.apply(alloc, applied, search)?;
        }
        Ok(Resolved { order, waits })
    }
}
