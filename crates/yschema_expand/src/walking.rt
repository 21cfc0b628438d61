//! How nodes are made, step by step: what is still to be done stands in a list, since groupings may lead through as many
//! others as there are statements.

ghost use Rattle.std.specs.Prelude.{◌≡◌, ◌+◌, [], OnOk, true, false};
ghost use Rattle.yspec.specs.Forest.{Forest, end, node, size};
ghost use Rattle.yspec.specs.linking.Expansion.{groupings_of, is_uses, laid};
ghost use Rattle.yspec.specs.linking.Parts.{case_for, own_of, part_of, within, Part};
ghost use Rattle.yspec_wide.specs.Expansion.{conditioned, refined_in, refine_breaks_in};
ghost use Rattle.ybase_preorder.specs.View.{row_by, row_view, label_by};
ghost use Rattle.ylink_grammar.specs.SourceView.{source_view};
ghost use Rattle.yschema_expand.specs.NamedView.{language_of, modules_of, row_named};
ghost use Rattle.yschema_expand.specs.Walk.{chosen, ends_within_in, is_laid, AddsParts, AllEnd, Changes};
ghost use Rattle.yschema_expand.specs.Knowing.{Knows};
ghost use Rattle.yschema_expand.specs.Tasks.{toll, toll_of, Does, Leads, TaskEnds};
ghost use Rattle.yschema_expand.specs.Turns.{AllGood, Runs};
ghost use Rattle.yschema_given.specs.Keeping.{are_kept_right};

use crate::bringing::{Bringing, bring};
use crate::expanding::{Context, Made, Place};
use crate::extending::extend;
use crate::groupings::least_of;
use crate::hanging::Hanging;
use crate::laying::{has_keyword, is_laid, is_single};
use crate::nodes::ExpandedNode;
use crate::refining::refine;
use std::alloc::{AllocError, Global};
use ybase_preorder::{Node, Siblings};
use ybase_words::Keyword;
use ylink_grammar::Source;
use yschema_given::bears_guard;

/// What is still to be done.
#[derive(Clone, Copy)]
pub(crate) enum Task<'a, 't> {
    /// To add what some statements define or use; in a choice single ones stand for cases.
    Add(Place, bool, Siblings<'a, Source<'t>>),
    /// To close the node of a number: all behind it stand below it.
    Close(u32),
    /// To change, for a module, the nodes from that of a number on, as the refines of a `uses` say for which they stand.
    Change(usize, u32, Siblings<'a, Source<'t>>),
    /// To add to the nodes from that of a number on what the augments among some statements of their `uses` add, one after another.
    Extend(Place, u32, Siblings<'a, Source<'t>>),
    /// To add what some statements of an augment define or use, its guards asked of each.
    Bring(Bringing<'a, 't>, Siblings<'a, Source<'t>>),
    /// To put the last nodes where their augment adds them, or to let them go.
    Hang(Hanging),
    /// To ask the guards of a row of the top ones among the nodes from that of a number on.
    Guard(u32, Siblings<'a, Source<'t>>),
}

/// Adds the nodes that some statements define or use, with all below them; in a choice single ones stand for cases.
pub(crate) fn add_nodes<'a, 't>(
    alloc: Global,
    context: &Context<'a, 't>,
    place: Place,
    in_choice: bool,
    statements: Siblings<'a, Source<'t>>,
    made: &mut Made<'a, 't>,
) -> Result<(), AllocError>
    requires known { Knows context.now.groupings.now (language_of context.now.named.now) (modules_of context.now.named.now) }
    requires kept { are_kept_right (language_of context.now.named.now) (row_by source_view statements) ≡ true }
    requires ends { AllEnd (language_of context.now.named.now) (modules_of context.now.named.now) place.depth
        (chosen in_choice (laid (row_by source_view statements))) }
    ensures { OnOk result (AddsParts (language_of context.now.named.now) (modules_of context.now.named.now) place.parent place.owner place.depth
        (chosen in_choice (laid (row_by source_view statements.entry))) made.old made.new) }
{
    let mut tasks = Vec::new(alloc);
    tasks.push(Task::Add(place, in_choice, statements))?;
    finish(alloc, context, &mut tasks, made)
}

/// Adds the nodes that a statement defines or uses, with all below them, whether or not it stands for a case.
pub(crate) fn add_one<'a, 't>(
    alloc: Global,
    context: &Context<'a, 't>,
    place: Place,
    statement: Node<'a, Source<'t>>,
    made: &mut Made<'a, 't>,
) -> Result<(), AllocError>
    requires known { Knows context.now.groupings.now (language_of context.now.named.now) (modules_of context.now.named.now) }
    requires kept { are_kept_right (language_of context.now.named.now) (row_by source_view statement.children) ≡ true }
    requires laid { is_laid (label_by source_view statement) ≡ true }
    requires ends { AllEnd (language_of context.now.named.now) (modules_of context.now.named.now) place.depth
        (laid (node (label_by source_view statement) (row_by source_view statement.children) end)) }
    ensures { OnOk result (AddsParts (language_of context.now.named.now) (modules_of context.now.named.now) place.parent place.owner place.depth
        (laid (node (label_by source_view statement.entry) (row_by source_view statement.entry.children) end)) made.old made.new) }
{
    let mut tasks = Vec::new(alloc);
    add_alone(alloc, context, place, statement, &mut tasks, made)?;
    finish(alloc, context, &mut tasks, made)
}

/// Does all that is still to be done.
fn finish<'a, 't>(
    alloc: Global,
    context: &Context<'a, 't>,
    tasks: &mut Vec<Task<'a, 't>>,
    made: &mut Made<'a, 't>,
) -> Result<(), AllocError>
    requires known { Knows context.now.groupings.now (language_of context.now.named.now) (modules_of context.now.named.now) }
    requires ends { AllGood (TaskEnds (language_of context.now.named.now) (modules_of context.now.named.now)) tasks.old.items }
    ensures { OnOk result (Runs (Does (language_of context.now.named.now) (modules_of context.now.named.now)) tasks.old.items made.old made.new) }
{
    while let Some(task) = tasks.pop() {
        perform(alloc, context, task, tasks, made)?;
    }
    Ok(())
}

/// Does a task, or leaves the rest of it behind.
fn perform<'a, 't>(
    alloc: Global,
    context: &Context<'a, 't>,
    task: Task<'a, 't>,
    tasks: &mut Vec<Task<'a, 't>>,
    made: &mut Made<'a, 't>,
) -> Result<(), AllocError>
    requires known { Knows context.now.groupings.now (language_of context.now.named.now) (modules_of context.now.named.now) }
    requires ends { TaskEnds (language_of context.now.named.now) (modules_of context.now.named.now) task }
    ensures { let l = language_of context.now.named.now in
        let m = modules_of context.now.named.now in
        OnOk result (Leads l m (Does l m task.entry) (toll l m task.entry) tasks.old.items tasks.new.items made.old made.new) }
{
    match task {
        Task::Add(place, in_choice, statements) => {
            add_first(alloc, context, place, in_choice, statements, tasks, made)
        }
        Task::Close(number) => {
            made.table.close(number);
            Ok(())
        }
        Task::Change(owner, first, statements) => {
            change(alloc, context, owner, first, statements, made)
        }
        Task::Extend(place, first, statements) => {
            extend(alloc, context, place, first, statements, tasks, made)
        }
        Task::Bring(bringing, statements) => {
            bring(alloc, context, bringing, statements, tasks, made)
        }
        Task::Hang(hanging) => {
            made.table.hang(hanging);
            Ok(())
        }
        Task::Guard(first, given) => ask(context, first, given, made),
    }
}

/// Applies, for a module, the refines of a `uses` to the nodes from that of a number on.
fn change<'a, 't>(
    alloc: Global,
    context: &Context<'a, 't>,
    owner: usize,
    first: u32,
    statements: Siblings<'a, Source<'t>>,
    made: &mut Made<'a, 't>,
) -> Result<(), AllocError>
    requires { are_kept_right (language_of context.now.named.now) (row_by source_view statements) ≡ true }
    ensures { let l = language_of context.now.named.now in
        let m = modules_of context.now.named.now in
        let own = row_by source_view statements.entry in
        (nodes : Forest Part) → OnOk result (Changes first nodes (refined_in l m owner own nodes)
        (refine_breaks_in l m owner own nodes) made.old made.new) }
{
    let language = context.named.language();
    let prefixes = context.named.prefixes();
    refine(alloc, language, prefixes, owner, first, statements, made)
}

/// Asks the guards of a row of the top ones among the nodes from that of a number on.
fn ask<'a, 't>(
    context: &Context<'a, 't>,
    first: u32,
    given: Siblings<'a, Source<'t>>,
    made: &mut Made<'a, 't>,
) -> Result<(), AllocError>
    requires { are_kept_right (language_of context.now.named.now) (row_by source_view given) ≡ true }
    ensures { let l = language_of context.now.named.now in
        let own = row_by source_view given.entry in
        (nodes : Forest Part) → OnOk result (Changes first nodes (conditioned l (own_of own) nodes) [] made.old made.new) }
{
    let language = context.named.language();
    if !bears_guard(language, given) {
        return Ok(());
    }
    made.table.condition_from(language, first, given)
}

/// Adds what the first of some statements defines or uses, and leaves the others behind.
fn add_first<'a, 't>(
    alloc: Global,
    context: &Context<'a, 't>,
    place: Place,
    in_choice: bool,
    statements: Siblings<'a, Source<'t>>,
    tasks: &mut Vec<Task<'a, 't>>,
    made: &mut Made<'a, 't>,
) -> Result<(), AllocError>
    requires known { Knows context.now.groupings.now (language_of context.now.named.now) (modules_of context.now.named.now) }
    requires kept { are_kept_right (language_of context.now.named.now) (row_by source_view statements) ≡ true }
    requires ends { AllEnd (language_of context.now.named.now) (modules_of context.now.named.now) place.depth
        (chosen in_choice (laid (row_by source_view statements))) }
    ensures { let l = language_of context.now.named.now in
        let m = modules_of context.now.named.now in
        let parts = chosen in_choice (laid (row_by source_view statements.entry)) in
        OnOk result (Leads l m (AddsParts l m place.parent place.owner place.depth parts)
        (toll_of l m place.depth (size (row_view statements.entry)) parts)
        tasks.old.items tasks.new.items made.old made.new) }
{
    let mut others = statements;
    let Some(statement) = others.next() else {
        return Ok(());
    };
    tasks.push(Task::Add(place, in_choice, others))?;
    add_statement(alloc, context, place, in_choice, statement, tasks, made)
}

/// Adds what a statement defines or uses.
fn add_statement<'a, 't>(
    alloc: Global,
    context: &Context<'a, 't>,
    place: Place,
    in_choice: bool,
    statement: Node<'a, Source<'t>>,
    tasks: &mut Vec<Task<'a, 't>>,
    made: &mut Made<'a, 't>,
) -> Result<(), AllocError>
    requires known { Knows context.now.groupings.now (language_of context.now.named.now) (modules_of context.now.named.now) }
    requires kept { are_kept_right (language_of context.now.named.now) (row_by source_view statement.children) ≡ true }
    requires ends { AllEnd (language_of context.now.named.now) (modules_of context.now.named.now) place.depth (chosen in_choice
        (laid (node (label_by source_view statement) (row_by source_view statement.children) end))) }
    ensures { let l = language_of context.now.named.now in
        let m = modules_of context.now.named.now in
        let parts = chosen in_choice (laid (node (label_by source_view statement.entry)
        (row_by source_view statement.entry.children) end)) in
        OnOk result (Leads l m (AddsParts l m place.parent place.owner place.depth parts)
        (toll_of l m place.depth (size (row_view statement.entry.children)) parts)
        tasks.old.items tasks.new.items made.old made.new) }
{
    if !is_laid(statement) {
        return Ok(());
    }
    if is_single(in_choice, statement) {
        return add_case(alloc, context, place, statement, tasks, made);
    }
    add_alone(alloc, context, place, statement, tasks, made)
}

/// Adds the case for which a single statement of a choice stands, with what that defines or uses in it.
fn add_case<'a, 't>(
    alloc: Global,
    context: &Context<'a, 't>,
    place: Place,
    statement: Node<'a, Source<'t>>,
    tasks: &mut Vec<Task<'a, 't>>,
    made: &mut Made<'a, 't>,
) -> Result<(), AllocError>
    requires known { Knows context.now.groupings.now (language_of context.now.named.now) (modules_of context.now.named.now) }
    requires kept { are_kept_right (language_of context.now.named.now) (row_by source_view statement.children) ≡ true }
    requires laid { is_laid (label_by source_view statement) ≡ true }
    requires ends { AllEnd (language_of context.now.named.now) (modules_of context.now.named.now) place.depth
        (laid (node (label_by source_view statement) (row_by source_view statement.children) end)) }
    ensures { let l = language_of context.now.named.now in
        let m = modules_of context.now.named.now in
        let s = label_by source_view statement.entry in
        let below = row_by source_view statement.entry.children in
        let parts = node (case_for (part_of s below)) (laid (node s below end)) end in
        OnOk result (Leads l m (AddsParts l m place.parent place.owner place.depth parts)
        (toll_of l m place.depth (size (row_view statement.entry.children)) parts)
        tasks.old.items tasks.new.items made.old made.new) }
{
    let label = ExpandedNode::new(alloc, statement, true, place.owner);
    let number = made.table.open(place.parent, label)?;
    tasks.push(Task::Close(number))?;
    let inside = Place {
        parent: Some(number),
        ..place
    };
    add_alone(alloc, context, inside, statement, tasks, made)
}

/// Adds what a statement defines or uses, whether or not it stands for a case.
pub(crate) fn add_alone<'a, 't>(
    alloc: Global,
    context: &Context<'a, 't>,
    place: Place,
    statement: Node<'a, Source<'t>>,
    tasks: &mut Vec<Task<'a, 't>>,
    made: &mut Made<'a, 't>,
) -> Result<(), AllocError>
    requires known { Knows context.now.groupings.now (language_of context.now.named.now) (modules_of context.now.named.now) }
    requires kept { are_kept_right (language_of context.now.named.now) (row_by source_view statement.children) ≡ true }
    requires laid { is_laid (label_by source_view statement) ≡ true }
    requires ends { AllEnd (language_of context.now.named.now) (modules_of context.now.named.now) place.depth
        (laid (node (label_by source_view statement) (row_by source_view statement.children) end)) }
    ensures { let l = language_of context.now.named.now in
        let m = modules_of context.now.named.now in
        let parts = laid (node (label_by source_view statement.entry)
        (row_by source_view statement.entry.children) end) in
        OnOk result (Leads l m (AddsParts l m place.parent place.owner place.depth parts)
        (toll_of l m place.depth (size (row_view statement.entry.children)) parts)
        tasks.old.items tasks.new.items made.old made.new) }
{
    if has_keyword(statement, Keyword::Uses) {
        return add_uses(context, place, statement, tasks, made);
    }
    add_node(alloc, context, place, statement, tasks, made)
}

/// Adds the node that a statement defines, and leaves behind what stands below it.
fn add_node<'a, 't>(
    alloc: Global,
    context: &Context<'a, 't>,
    place: Place,
    statement: Node<'a, Source<'t>>,
    tasks: &mut Vec<Task<'a, 't>>,
    made: &mut Made<'a, 't>,
) -> Result<(), AllocError>
    requires kept { are_kept_right (language_of context.now.named.now) (row_by source_view statement.children) ≡ true }
    requires node { is_uses (part_of (label_by source_view statement)
        (row_by source_view statement.children)) ≡ false }
    requires ends { let s = label_by source_view statement in
        AllEnd (language_of context.now.named.now) (modules_of context.now.named.now) place.depth
        (within s (laid (row_by source_view statement.children))) }
    ensures { let l = language_of context.now.named.now in
        let m = modules_of context.now.named.now in
        let s = label_by source_view statement.entry in
        let below = row_by source_view statement.entry.children in
        let parts = node (part_of s below) (within s (laid below)) end in
        OnOk result (Leads l m (AddsParts l m place.parent place.owner place.depth parts)
        (toll_of l m place.depth (size (row_view statement.entry.children)) parts)
        tasks.old.items tasks.new.items made.old made.new) }
{
    let in_choice = has_keyword(statement, Keyword::Choice);
    let label = ExpandedNode::new(alloc, statement, false, place.owner);
    let number = made.table.open(place.parent, label)?;
    tasks.push(Task::Close(number))?;
    let inside = Place {
        parent: Some(number),
        ..place
    };
    tasks.push(Task::Add(inside, in_choice, statement.children()))?;
    Ok(())
}

/// Leaves behind what a `uses` stands for: the nodes of its grouping, then its refines, its augments, and its guards.
fn add_uses<'a, 't>(
    context: &Context<'a, 't>,
    place: Place,
    uses: Node<'a, Source<'t>>,
    tasks: &mut Vec<Task<'a, 't>>,
    made: &mut Made<'a, 't>,
) -> Result<(), AllocError>
    requires known { Knows context.now.groupings.now (language_of context.now.named.now) (modules_of context.now.named.now) }
    requires kept { are_kept_right (language_of context.now.named.now) (row_by source_view uses.children) ≡ true }
    requires uses { is_uses (part_of (label_by source_view uses)
        (row_by source_view uses.children)) ≡ true }
    requires ends { let m = modules_of context.now.named.now in
        ends_within_in (language_of context.now.named.now) m (groupings_of m) place.depth (part_of (label_by source_view uses)
        (row_by source_view uses.children)) ≡ true }
    ensures { let l = language_of context.now.named.now in
        let m = modules_of context.now.named.now in
        let parts = node (part_of (label_by source_view uses.entry)
        (row_by source_view uses.entry.children)) end end in
        OnOk result (Leads l m (AddsParts l m place.parent place.owner place.depth parts)
        (toll_of l m place.depth (size (row_view uses.entry.children)) parts)
        tasks.old.items tasks.new.items made.old made.new) }
{
    if place.depth == 0 {
        return Ok(());
    }
    let inside = Place {
        depth: place.depth - 1,
        ..place
    };
    let first = made.table.len();
    let own = uses.children();
    tasks.push(Task::Guard(first, own))?;
    tasks.push(Task::Extend(inside, first, own))?;
    tasks.push(Task::Change(place.owner, first, own))?;
    add_grouping(context, inside, uses.number(), tasks, made)
}

/// Leaves behind the nodes of the grouping that the statement of a number uses. One without nodes isn't gone through: its
/// refines are known.
fn add_grouping<'a, 't>(
    context: &Context<'a, 't>,
    place: Place,
    number: u32,
    tasks: &mut Vec<Task<'a, 't>>,
    made: &mut Made<'a, 't>,
) -> Result<(), AllocError>
    requires known { Knows context.now.groupings.now (language_of context.now.named.now) (modules_of context.now.named.now) }
    requires ends { AllEnd (language_of context.now.named.now) (modules_of context.now.named.now) place.depth
        (row_named (modules_of context.now.named.now) number) }
    ensures { let l = language_of context.now.named.now in
        let m = modules_of context.now.named.now in
        OnOk result (Leads l m (AddsParts l m place.parent place.owner place.depth (row_named m number))
        (toll_of l m place.depth (size m) (row_named m number) + 1)
        tasks.old.items tasks.new.items made.old made.new) }
{
    if context.groupings.is_without_nodes(context.named, number) {
        made.told = least_of(
            made.told,
            context.groupings.refine_in(context.named, number),
        );
        return Ok(());
    }
    if let Some(row) = context.named.grouping_used(number) {
        tasks.push(Task::Add(place, false, row))?;
    }
    Ok(())
}
