//! What augments add, before it is known below which nodes (RFC 7950, 7.17).

ghost use Rattle.std.specs.Prelude.{◌≡◌, ◌+◌, suc, true, None, IfOk, OnOk, length};
ghost use Rattle.std.specs.List.{flat_map};
ghost use Rattle.yspec.specs.Forest.{end, node, size};
ghost use Rattle.yspec.specs.linking.Augments.{augments_of};
ghost use Rattle.yspec.specs.linking.Expansion.{laid};
ghost use Rattle.yspec_wide.specs.Expansion.{body_breaks_in};
ghost use Rattle.yspec_wide.specs.Sources.{bears_guard};
ghost use Rattle.ybase_preorder.specs.View.{row_by, label_by};
ghost use Rattle.ylink_grammar.specs.SourceView.{source_view};
ghost use Rattle.yschema_expand.specs.AugmentView.{augment_view, augments_seen};
ghost use Rattle.yschema_expand.specs.Bodies.{asked_nodes, bodies_of, body_nodes, body_of, starts_from};
ghost use Rattle.yschema_expand.specs.Knowing.{Knows};
ghost use Rattle.yschema_expand.specs.NamedView.{language_of, modules_of};
ghost use Rattle.yschema_expand.specs.TableView.{slots_of};
ghost use Rattle.yschema_expand.specs.Walk.{breaks_for, is_laid, Adds, AllEnd};
ghost use Rattle.yschema_given.specs.Keeping.{are_kept_right};

use crate::expanding::{Context, Made, Place};
use crate::laying::{has_keyword, is_laid};
use crate::nodes::ExpandedNode;
use crate::walking::add_one;
use std::alloc::{AllocError, Global};
use ybase_preorder::{Node, Siblings};
use ybase_words::Keyword;
use ylink_grammar::Source;
use yschema_given::bears_guard;

/// Adds what a statement of an augment defines or uses, and asks the conditions of a row of it, if that bears any.
fn add_asked<'a, 't>(
    alloc: Global,
    context: &Context<'a, 't>,
    place: Place,
    given: Siblings<'a, Source<'t>>,
    is_guarded: bool,
    statement: Node<'a, Source<'t>>,
    made: &mut Made<'a, 't>,
) -> Result<(), AllocError>
    requires guarded { is_guarded ≡ bears_guard (language_of context.now.named.now) (row_by source_view given) }
    requires known { Knows context.now.groupings.now (language_of context.now.named.now) (modules_of context.now.named.now) }
    requires given { are_kept_right (language_of context.now.named.now) (row_by source_view given) ≡ true }
    requires kept { are_kept_right (language_of context.now.named.now) (row_by source_view statement.children) ≡ true }
    requires laid { is_laid (label_by source_view statement) ≡ true }
    requires ends { AllEnd (language_of context.now.named.now) (modules_of context.now.named.now) place.depth
        (laid (node (label_by source_view statement) (row_by source_view statement.children) end)) }
    ensures { let l = language_of context.now.named.now in
        let m = modules_of context.now.named.now in
        let parts = laid (node (label_by source_view statement.entry)
        (row_by source_view statement.entry.children) end) in
        OnOk result (Adds place.parent (asked_nodes l m place.owner place.depth (row_by source_view given.entry) parts)
        (breaks_for l m place.owner place.depth parts) made.old made.new) }
{
    let first = made.table.len();
    add_one(alloc, context, place, statement, made)?;
    if !is_guarded {
        return Ok(());
    }
    made.table
        .condition_from(context.named.language(), first, given)
}

/// Adds what a statement of an augment defines or uses, a single node in the case for which it stands where a choice takes
/// it, and asks the conditions of a row of it, if that bears any, but not of that case.
fn add_cased<'a, 't>(
    alloc: Global,
    context: &Context<'a, 't>,
    place: Place,
    given: Siblings<'a, Source<'t>>,
    is_guarded: bool,
    statement: Node<'a, Source<'t>>,
    made: &mut Made<'a, 't>,
) -> Result<(), AllocError>
    requires guarded { is_guarded ≡ bears_guard (language_of context.now.named.now) (row_by source_view given) }
    requires known { Knows context.now.groupings.now (language_of context.now.named.now) (modules_of context.now.named.now) }
    requires given { are_kept_right (language_of context.now.named.now) (row_by source_view given) ≡ true }
    requires kept { are_kept_right (language_of context.now.named.now) (row_by source_view statement.children) ≡ true }
    requires ends { AllEnd (language_of context.now.named.now) (modules_of context.now.named.now) place.depth
        (laid (node (label_by source_view statement) (row_by source_view statement.children) end)) }
    ensures { let l = language_of context.now.named.now in
        let m = modules_of context.now.named.now in
        let parts = laid (node (label_by source_view statement.entry)
        (row_by source_view statement.entry.children) end) in
        OnOk result (Adds place.parent (body_nodes l m place.owner place.depth (row_by source_view given.entry) parts)
        (breaks_for l m place.owner place.depth parts) made.old made.new) }
{
    if !is_laid(statement) {
        return Ok(());
    }
    if has_keyword(statement, Keyword::Case) {
        return add_asked(alloc, context, place, given, is_guarded, statement, made);
    }
    let label = ExpandedNode::new(alloc, statement, true, place.owner);
    let number = made.table.open(place.parent, label)?;
    let inside = Place {
        parent: Some(number),
        ..place
    };
    add_asked(alloc, context, inside, given, is_guarded, statement, made)?;
    made.table.close(number);
    Ok(())
}

/// Adds what an augment adds behind all other nodes.
fn add_body<'a, 't>(
    alloc: Global,
    context: &Context<'a, 't>,
    augment: Node<'a, Source<'t>>,
    made: &mut Made<'a, 't>,
) -> Result<(), AllocError>
    requires known { Knows context.now.groupings.now (language_of context.now.named.now) (modules_of context.now.named.now) }
    requires kept { are_kept_right (language_of context.now.named.now) (row_by source_view augment.children) ≡ true }
    requires ends { let m = modules_of context.now.named.now in
        AllEnd (language_of context.now.named.now) m (suc (size m)) (laid (row_by source_view augment.children)) }
    ensures { let l = language_of context.now.named.now in
        let m = modules_of context.now.named.now in
        let a = augment_view augment.entry in
        OnOk result (Adds None (body_of l m a) (body_breaks_in l m a) made.old made.new) }
{
    let place = Place {
        parent: None,
        owner: augment.label().home,
        depth: context.named.sources().slots().len() + 1,
    };
    let given = augment.children();
    let is_guarded = bears_guard(context.named.language(), given);
    for statement in given {
        add_cased(alloc, context, place, given, is_guarded, statement, made)?;
    }
    Ok(())
}

/// Adds what augments add behind all other nodes, each single node in the case for which it stands where a choice takes
/// it, the conditions of each augment asked of the nodes themselves; and answers where it begins for each.
pub fn add_bodies<'a, 't>(
    alloc: Global,
    context: &Context<'a, 't>,
    augments: &[Node<'a, Source<'t>>],
    made: &mut Made<'a, 't>,
) -> Result<Vec<u32>, AllocError>
    requires known { Knows context.now.groupings.now (language_of context.now.named.now) (modules_of context.now.named.now) }
    requires augments { augments_seen augments.now ≡ augments_of (modules_of context.now.named.now) }
    ensures nodes { let l = language_of context.now.named.now in
        let m = modules_of context.now.named.now in
        let added = augments_seen augments.now in
        OnOk result (Adds None (bodies_of l m added) (flat_map (body_breaks_in l m) added) made.old made.new) }
    ensures starts { IfOk result (λ starts. starts.items ≡ starts_from (language_of context.now.named.now)
        (modules_of context.now.named.now) (length (slots_of made.old.table)) (augments_seen augments.now)) }
{
    let mut starts = Vec::new(alloc);
    for augment in augments {
        starts.push(made.table.len())?;
        add_body(alloc, context, *augment, made)?;
    }
    Ok(starts)
}
