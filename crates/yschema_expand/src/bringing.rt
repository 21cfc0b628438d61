//! What augments below a `uses` add (RFC 7950, 7.9.2, 7.17 and 7.20.2).

ghost use Rattle.std.specs.Prelude.{◌≡◌, ◌+◌, OnOk, false, is_some, true};
ghost use Rattle.yspec.specs.Forest.{end, node, size};
ghost use Rattle.yspec.specs.linking.Expansion.{laid, owned_by};
ghost use Rattle.yspec.specs.linking.Keyword.{uses_word};
ghost use Rattle.yspec.specs.linking.Parts.{case_for, part_of};
ghost use Rattle.yspec.specs.linking.Source.{first_with, is_source_of};
ghost use Rattle.ybase_preorder.specs.View.{label_by, row_by, row_view};
ghost use Rattle.ylink_grammar.specs.SourceView.{source_view};
ghost use Rattle.yschema_expand.specs.Knowing.{Knows};
ghost use Rattle.yschema_expand.specs.NamedView.{language_of, modules_of};
ghost use Rattle.yschema_expand.specs.Tasks.{brought, toll, toll_of, Does, Leads};
ghost use Rattle.yschema_expand.specs.Walk.{breaks_for, is_laid, Adds, AllEnd};
ghost use Rattle.yschema_expand.specs.declared.walking.Task.TheVariants.{Bring};
ghost use Rattle.yschema_given.specs.Keeping.{are_kept_right};

use crate::expanding::{Context, Made, Place};
use crate::laying::{is_laid, is_single};
use crate::nodes::ExpandedNode;
use crate::walking::{Task, add_alone};
use std::alloc::{AllocError, Global};
use ybase_preorder::{Node, Siblings};
use ylink_grammar::Source;

/// Where an augment adds what it states, whether single nodes stand for cases there, and its own statements, the guards of which are
/// asked of each node that it adds.
#[derive(Clone, Copy)]
pub(crate) struct Bringing<'a, 't> {
    pub place: Place,
    pub in_choice: bool,
    pub given: Siblings<'a, Source<'t>>,
}

/// Adds what the first of some statements of an augment defines or uses, and leaves the others behind.
pub(crate) fn bring<'a, 't>(
    alloc: Global,
    context: &Context<'a, 't>,
    bringing: Bringing<'a, 't>,
    statements: Siblings<'a, Source<'t>>,
    tasks: &mut Vec<Task<'a, 't>>,
    made: &mut Made<'a, 't>,
) -> Result<(), AllocError>
    requires known { Knows context.now.groupings.now (language_of context.now.named.now) (modules_of context.now.named.now) }
    requires kept { are_kept_right (language_of context.now.named.now) (row_by source_view statements) ≡ true }
    requires given { are_kept_right (language_of context.now.named.now) (row_by source_view bringing.given) ≡ true }
    requires cases { bringing.in_choice ≡ true → is_some (first_with uses_word (row_by source_view statements)) ≡ false }
    requires ends { AllEnd (language_of context.now.named.now) (modules_of context.now.named.now) bringing.place.depth
        (laid (row_by source_view statements)) }
    ensures { let l = language_of context.now.named.now in let m = modules_of context.now.named.now in
        let task = Bring bringing.entry statements.entry in
        OnOk result (Leads l m (Does l m task) (toll l m task) tasks.old.items tasks.new.items made.old made.new) }
{
    let mut others = statements;
    let Some(statement) = others.next() else {
        return Ok(());
    };
    tasks.push(Task::Bring(bringing, others))?;
    if !is_laid(statement) {
        return Ok(());
    }
    bring_laid(alloc, context, bringing, statement, tasks, made)
}

/// Adds what a statement of an augment defines or uses.
fn bring_laid<'a, 't>(
    alloc: Global,
    context: &Context<'a, 't>,
    bringing: Bringing<'a, 't>,
    statement: Node<'a, Source<'t>>,
    tasks: &mut Vec<Task<'a, 't>>,
    made: &mut Made<'a, 't>,
) -> Result<(), AllocError>
    requires known { Knows context.now.groupings.now (language_of context.now.named.now) (modules_of context.now.named.now) }
    requires kept { are_kept_right (language_of context.now.named.now) (row_by source_view statement.children) ≡ true }
    requires given { are_kept_right (language_of context.now.named.now) (row_by source_view bringing.given) ≡ true }
    requires laid { is_laid (label_by source_view statement) ≡ true }
    requires cases { bringing.in_choice ≡ true → is_source_of uses_word (label_by source_view statement) ≡ false }
    requires ends { AllEnd (language_of context.now.named.now) (modules_of context.now.named.now) bringing.place.depth
        (laid (node (label_by source_view statement) (row_by source_view statement.children) end)) }
    ensures { let l = language_of context.now.named.now in let m = modules_of context.now.named.now in
        let place = bringing.entry.place in
        let parts = laid (node (label_by source_view statement.entry) (row_by source_view statement.entry.children) end) in
        OnOk result (Leads l m (Adds place.parent (brought l m place.owner place.depth bringing.entry.in_choice
        (row_by source_view bringing.entry.given) parts) (breaks_for l m place.owner place.depth parts))
        (toll_of l m place.depth (size (row_view statement.entry.children)) parts + 2)
        tasks.old.items tasks.new.items made.old made.new) }
{
    let (place, given) = (bringing.place, bringing.given);
    if is_single(bringing.in_choice, statement) {
        return bring_case(alloc, context, place, given, statement, tasks, made);
    }
    bring_alone(alloc, context, place, given, statement, tasks, made)
}

/// Adds the case for which a single statement of an augment stands, with what that defines in it.
fn bring_case<'a, 't>(
    alloc: Global,
    context: &Context<'a, 't>,
    place: Place,
    given: Siblings<'a, Source<'t>>,
    statement: Node<'a, Source<'t>>,
    tasks: &mut Vec<Task<'a, 't>>,
    made: &mut Made<'a, 't>,
) -> Result<(), AllocError>
    requires known { Knows context.now.groupings.now (language_of context.now.named.now) (modules_of context.now.named.now) }
    requires kept { are_kept_right (language_of context.now.named.now) (row_by source_view statement.children) ≡ true }
    requires given { are_kept_right (language_of context.now.named.now) (row_by source_view given) ≡ true }
    requires laid { is_laid (label_by source_view statement) ≡ true }
    requires ends { AllEnd (language_of context.now.named.now) (modules_of context.now.named.now) place.depth
        (laid (node (label_by source_view statement) (row_by source_view statement.children) end)) }
    ensures { let l = language_of context.now.named.now in let m = modules_of context.now.named.now in
        let s = label_by source_view statement.entry in
        let below = row_by source_view statement.entry.children in
        let parts = laid (node s below end) in
        OnOk result (Leads l m (Adds place.parent (node (owned_by place.owner (case_for (part_of s below)))
        (brought l m place.owner place.depth false (row_by source_view given.entry) parts) end)
        (breaks_for l m place.owner place.depth parts)) (toll_of l m place.depth (size (row_view statement.entry.children)) parts + 2)
        tasks.old.items tasks.new.items made.old made.new) }
{
    let label = ExpandedNode::new(alloc, statement, true, place.owner);
    let number = made.table.open(place.parent, label)?;
    tasks.push(Task::Close(number))?;
    let inside = Place {
        parent: Some(number),
        ..place
    };
    bring_alone(alloc, context, inside, given, statement, tasks, made)
}

/// Adds what a statement of an augment defines or uses, whether or not it stands for a case, and leaves it behind to ask the guards of
/// a row of it.
fn bring_alone<'a, 't>(
    alloc: Global,
    context: &Context<'a, 't>,
    place: Place,
    given: Siblings<'a, Source<'t>>,
    statement: Node<'a, Source<'t>>,
    tasks: &mut Vec<Task<'a, 't>>,
    made: &mut Made<'a, 't>,
) -> Result<(), AllocError>
    requires known { Knows context.now.groupings.now (language_of context.now.named.now) (modules_of context.now.named.now) }
    requires kept { are_kept_right (language_of context.now.named.now) (row_by source_view statement.children) ≡ true }
    requires given { are_kept_right (language_of context.now.named.now) (row_by source_view given) ≡ true }
    requires laid { is_laid (label_by source_view statement) ≡ true }
    requires ends { AllEnd (language_of context.now.named.now) (modules_of context.now.named.now) place.depth
        (laid (node (label_by source_view statement) (row_by source_view statement.children) end)) }
    ensures { let l = language_of context.now.named.now in let m = modules_of context.now.named.now in
        let parts = laid (node (label_by source_view statement.entry) (row_by source_view statement.entry.children) end) in
        OnOk result (Leads l m (Adds place.parent (brought l m place.owner place.depth false (row_by source_view given.entry) parts)
        (breaks_for l m place.owner place.depth parts)) (toll_of l m place.depth (size (row_view statement.entry.children)) parts + 1)
        tasks.old.items tasks.new.items made.old made.new) }
{
    tasks.push(Task::Guard(made.table.len(), given))?;
    add_alone(alloc, context, place, statement, tasks, made)
}
