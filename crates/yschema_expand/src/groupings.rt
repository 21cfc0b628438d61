//! What is known of groupings before they are used: how many nodes they have, and which refines and augments are told in those that
//! have none (RFC 7950, 7.12, 7.13 and 7.17).

ghost use Rattle.std.specs.Prelude.{◌≡◌, ◌==◌, ◌<◌, ℕ, IfOk, None, false, length, min, true, if◌then◌else◌};
ghost use Rattle.yspec.specs.linking.Expansion.{all_refine_breaks};
ghost use Rattle.yspec.specs.linking.Keyword.{grouping_word};
ghost use Rattle.yspec_wide.specs.NodeCounts.{counted_below};
ghost use Rattle.yspec.specs.schema.Breaks.{least_from};
ghost use Rattle.ybase_preorder.specs.View.{row_by};
ghost use Rattle.ylink_grammar.specs.BreakView.{seen};
ghost use Rattle.ylink_grammar.specs.SourceView.{source_view};
ghost use Rattle.yschema_expand.specs.Counting.{count_at, count_by, grouping_row, many, refine_at, refine_by, told_list, top_breaks};
ghost use Rattle.yschema_expand.specs.Knowing.{AreCounts, AreRefines};
ghost use Rattle.ylink_names.specs.Ordered.{AreInOrder};
ghost use Rattle.yschema_expand.specs.NamedView.{language_of, modules_of};

use crate::counting::{capped, count_at, count_nodes};
use crate::named::Named;
use std::alloc::{AllocError, Global};
use ybase_preorder::{Node, Siblings};
use ybase_words::Keyword;
use ylink_grammar::{BrokenRule, CompileCode, Source, broken, is_augment, least};

/// What is known of the groupings of a set, by the numbers of their statements.
#[derive(Drop)]
pub struct Groupings {
    // How many nodes each has, 65,536 standing for more.
    counts: Vec<u32>,
    // Of each that has none the least of the refines and augments in it, by module and line.
    refines: Vec<Option<BrokenRule>>,
}

/// The lesser of one so far and another, where there is one.
pub(crate) fn least_of(so_far: Option<BrokenRule>, found: Option<BrokenRule>) -> Option<BrokenRule>
    ensures { seen result ≡ least_from (seen so_far) (told_list (seen found)) }
{
    match found {
        Some(rule) => least(so_far, rule),
        None => so_far,
    }
}

/// What a table of refines holds of the grouping of a number.
fn refine_at(refines: &[Option<BrokenRule>], number: usize) -> Option<BrokenRule>
    ensures { seen result ≡ refine_at refines.now number }
{
    match refines.get(number) {
        Some(refine) => *refine,
        None => None,
    }
}

/// What a table of refines holds of the grouping that the statement of a number uses.
fn refine_used(
    named: &Named<'_, '_>,
    refines: &[Option<BrokenRule>],
    number: u32,
) -> Option<BrokenRule>
    ensures { seen result ≡ refine_by refines.now (modules_of named.now) number }
{
    match named.meaning(number) {
        Some(grouping) => refine_at(refines, grouping as usize),
        None => None,
    }
}

/// The least of one so far and all refines of a row.
fn least_refine(
    statements: Siblings<'_, Source<'_>>,
    so_far: Option<BrokenRule>,
) -> Option<BrokenRule>
    ensures { seen result ≡ least_from (seen so_far)
        (all_refine_breaks (row_by source_view statements.entry)) }
{
    let mut told = so_far;
    for statement in statements {
        let source = statement.label();
        if Keyword::Refine.is(source.keyword) {
            told = least(
                told,
                broken(CompileCode::C14, source.home, source.statement),
            );
        }
    }
    told
}

/// The least of one so far and what the `uses` of a row break: what is told in what they use, their augments with what is told in
/// those, and their refines.
#[cycle(emptied)]
fn least_used(
    named: &Named<'_, '_>,
    refines: &[Option<BrokenRule>],
    statements: Siblings<'_, Source<'_>>,
    so_far: Option<BrokenRule>,
) -> Option<BrokenRule>
    ensures { seen result ≡ least_from (seen so_far) (top_breaks (language_of named.now)
        (refine_by refines.now (modules_of named.now)) false (row_by source_view statements.entry)) }
{
    let mut told = so_far;
    for statement in statements {
        if Keyword::Uses.is(statement.label().keyword) {
            told = least_of(told, refine_used(named, refines, statement.number()));
            told = least_inner(named, refines, statement.children(), told);
            told = least_refine(statement.children(), told);
        }
    }
    told
}

/// The least of one so far and the augments among the statements of a `uses`, with what is told in them.
#[cycle(emptied)]
fn least_inner(
    named: &Named<'_, '_>,
    refines: &[Option<BrokenRule>],
    statements: Siblings<'_, Source<'_>>,
    so_far: Option<BrokenRule>,
) -> Option<BrokenRule>
    ensures { seen result ≡ least_from (seen so_far) (top_breaks (language_of named.now)
        (refine_by refines.now (modules_of named.now)) true (row_by source_view statements.entry)) }
{
    let mut told = so_far;
    for statement in statements {
        let source = statement.label();
        if is_augment(named.language(), source) {
            let rule = broken(CompileCode::C14, source.home, source.statement);
            told = least(least_used(named, refines, statement.children(), told), rule);
        }
    }
    told
}

/// So many times none.
fn zeros(alloc: Global, count: usize) -> Result<Vec<u32>, AllocError>
    ensures length { IfOk result (λ counts. length counts.items ≡ count) }
    ensures zero { IfOk result (λ counts. (e : ℕ) → count_at counts.items e ≡ 0) }
{
    let mut counts = Vec::with_capacity(alloc, count)?;
    for number in 0..count {
        counts.push(0)?;
    }
    Ok(counts)
}

/// How many nodes the grouping of a number has, given how many those have that it uses; other statements have none.
fn count_in(named: &Named<'_, '_>, counts: &[u32], number: usize) -> u32
    ensures { let m = modules_of named.now in result
        ≡ min (counted_below (language_of named.now) (count_by counts.now m) grouping_word (grouping_row m number)) many }
{
    match named.grouping(number) {
        Some(row) => count_nodes(named, counts, Keyword::Grouping, row),
        None => 0,
    }
}

/// Sets the count of a number.
fn set_count(counts: &mut Vec<u32>, number: usize, count: u32)
    ensures length { length counts.new.items ≡ length counts.old.items }
    ensures count { (e : ℕ) → number < length counts.old.items → count_at counts.new.items e
        ≡ (if e == number then count else count_at counts.old.items e) }
{
    if let Some(place) = counts.get_mut(number) {
        *place = count;
    }
}

/// How many nodes each grouping has, by their numbers, given an order in which each stands behind those that it uses.
fn counts_of(alloc: Global, named: &Named<'_, '_>, order: &[usize]) -> Result<Vec<u32>, AllocError>
    requires { AreInOrder order.now (modules_of named.now) }
    ensures { IfOk result (λ counts. AreCounts counts.items (language_of named.now) (modules_of named.now)) }
{
    let mut counts = zeros(alloc, named.sources().slots().len())?;
    for number in order {
        let count = count_in(named, &counts, *number);
        set_count(&mut counts, *number, count);
    }
    Ok(counts)
}

/// So many times nothing told.
fn none_told(alloc: Global, count: usize) -> Result<Vec<Option<BrokenRule>>, AllocError>
    ensures length { IfOk result (λ refines. length refines.items ≡ count) }
    ensures none { IfOk result (λ refines. (e : ℕ) → refine_at refines.items e ≡ None) }
{
    let mut refines = Vec::with_capacity(alloc, count)?;
    for number in 0..count {
        refines.push(None)?;
    }
    Ok(refines)
}

/// The refine or augment that is told in the grouping of a number, which has no nodes, given those told in what it uses.
fn refine_told(
    named: &Named<'_, '_>,
    refines: &[Option<BrokenRule>],
    number: usize,
) -> Option<BrokenRule>
    ensures { let l = language_of named.now in let m = modules_of named.now in seen result
        ≡ least_from None (top_breaks l (refine_by refines.now m) false (grouping_row m number)) }
{
    match named.grouping(number) {
        Some(row) => least_used(named, refines, row, None),
        None => None,
    }
}

/// Sets what is told of a number.
fn set_refine(refines: &mut Vec<Option<BrokenRule>>, number: usize, refine: Option<BrokenRule>)
    ensures length { length refines.new.items ≡ length refines.old.items }
    ensures refine { (e : ℕ) → number < length refines.old.items → refine_at refines.new.items e
        ≡ (if e == number then seen refine else refine_at refines.old.items e) }
{
    if let Some(place) = refines.get_mut(number) {
        *place = refine;
    }
}

/// Which refine or augment is told in each grouping without nodes, by their numbers, given how many nodes each has and an order in
/// which each stands behind those that it uses.
fn refines_of(
    alloc: Global,
    named: &Named<'_, '_>,
    order: &[usize],
    counts: &[u32],
) -> Result<Vec<Option<BrokenRule>>, AllocError>
    requires order { AreInOrder order.now (modules_of named.now) }
    requires counts { AreCounts counts.now (language_of named.now) (modules_of named.now) }
    ensures { IfOk result (λ refines. AreRefines refines.items (language_of named.now) (modules_of named.now)) }
{
    let mut refines = none_told(alloc, named.sources().slots().len())?;
    for number in order {
        if count_at(counts, *number) != 0 {
            continue;
        }
        let refine = refine_told(named, &refines, *number);
        set_refine(&mut refines, *number, refine);
    }
    Ok(refines)
}

impl Groupings {
    ghost use Rattle.std.specs.Prelude.{◌≡◌, ◌==◌, ◌<◌, ℕ, IfOk, None, min, length, if◌then◌else◌};
    ghost use Rattle.yspec.specs.schema.Breaks.{least_from};
    ghost use Rattle.yspec.specs.linking.Expansion.{groupings_of, row_in};
    ghost use Rattle.yspec.specs.linking.Augments.{augments_of};
    ghost use Rattle.yspec_wide.specs.NodeCounts.{all_counts_in, counted_by_augments, counted_in_from, node_count_in};
    ghost use Rattle.ylink_grammar.specs.BreakView.{seen};
    ghost use Rattle.yschema_expand.specs.NamedView.{language_of, modules_of};
    ghost use Rattle.yschema_expand.specs.Counting.{count_at, count_by, many, refine_at};
    ghost use Rattle.yschema_expand.specs.AugmentView.{augments_seen};
    ghost use Rattle.yschema_expand.specs.Knowing.{count_named, refine_named, AreCounts, Knows};
    ghost use Rattle.ylink_names.specs.Ordered.{AreInOrder};

    /// What is known of the groupings of a set, given an order in which each stands behind those that it uses.
    pub fn of(
        alloc: Global,
        named: &Named<'_, '_>,
        order: &[usize],
    ) -> Result<Groupings, AllocError>
        requires { AreInOrder order.now (modules_of named.now) }
        ensures knows { IfOk result (λ g. Knows g (language_of named.now) (modules_of named.now)) }
        ensures counts { IfOk result (λ g. AreCounts g.counts.items (language_of named.now) (modules_of named.now)) }
    {
        let counts = counts_of(alloc, named, order)?;
        let refines = refines_of(alloc, named, order, &counts)?;
        Ok(Groupings { counts, refines })
    }

    /// How many nodes the set defines, without expanding, given its augments; 65,536 stands for more.
    pub fn node_count(&self, named: &Named<'_, '_>, augments: &[Node<'_, Source<'_>>]) -> u32
        requires counts { AreCounts self.now.counts.items (language_of named.now) (modules_of named.now) }
        requires augments { augments_seen augments.now ≡ augments_of (modules_of named.now) }
        ensures { result ≡ min (node_count_in (language_of named.now) (modules_of named.now)) many }
    {
        capped(self.count_modules(named) + self.count_added(named, augments))
    }

    /// How many nodes the modules themselves define.
    fn count_modules(&self, named: &Named<'_, '_>) -> u32
        requires { AreCounts self.now.counts.items (language_of named.now) (modules_of named.now) }
        ensures { let l = language_of named.now in let m = modules_of named.now in
            result ≡ min (counted_in_from l m (all_counts_in l m) m) many }
    {
        let mut count = 0;
        for top in named.sources().modules() {
            let nodes = count_nodes(named, &self.counts, Keyword::Module, top.children());
            count = capped(count + nodes);
        }
        count
    }

    /// How many nodes augments add; a single node of a choice counts without the case for which it stands.
    fn count_added(&self, named: &Named<'_, '_>, augments: &[Node<'_, Source<'_>>]) -> u32
        requires { AreCounts self.now.counts.items (language_of named.now) (modules_of named.now) }
        ensures { let l = language_of named.now in let m = modules_of named.now in
            result ≡ min (counted_by_augments l m (all_counts_in l m) (augments_seen augments.now)) many }
    {
        let mut count = 0;
        for augment in augments {
            let added = count_nodes(named, &self.counts, Keyword::Augment, augment.children());
            count = capped(count + added);
        }
        count
    }

    /// Whether the grouping that the statement of a number uses has no nodes.
    pub(crate) fn is_without_nodes(&self, named: &Named<'_, '_>, number: u32) -> bool
        ensures { result ≡ (count_named self.now (modules_of named.now) number == 0) }
    {
        match named.meaning(number) {
            Some(grouping) => count_at(&self.counts, grouping as usize) == 0,
            None => true,
        }
    }

    /// The refine or augment that is told in the grouping that the statement of a number uses.
    pub(crate) fn refine_in(&self, named: &Named<'_, '_>, number: u32) -> Option<BrokenRule>
        ensures { seen result ≡ refine_named self.now (modules_of named.now) number }
    {
        refine_used(named, &self.refines, number)
    }
}
