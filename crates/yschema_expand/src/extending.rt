//! Augments below a `uses` (RFC 7950, 7.13 and 7.17).

ghost use Rattle.std.specs.Prelude.{◌≡◌, ◌≤◌, ◌<◌, ◌+◌, ◌++◌, ◌∷◌, [], ℕ, List, Option, Some, None, IfOk, IfSome, OnOk, false, length, option_and_then, true, if◌then◌else◌};
ghost use Rattle.std.specs.Option.{option_map_or};
ghost use Rattle.yspec.specs.Forest.{Forest};
ghost use Rattle.yspec.specs.linking.Expansion.{groupings_of, laid};
ghost use Rattle.yspec.specs.linking.Keyword.{choice_word};
ghost use Rattle.yspec.specs.linking.Parts.{Part};
ghost use Rattle.yspec.specs.linking.Source.{is_source_of};
ghost use Rattle.yspec_wide.specs.Expansion.{inner_augments, may_take_in};
ghost use Rattle.ybase_preorder.specs.Layout.{Place as Lying, places};
ghost use Rattle.ybase_preorder.specs.View.{row_by};
ghost use Rattle.ylink_grammar.specs.SourceView.{source_view};
ghost use Rattle.yschema_expand.specs.AugmentView.{augment_view};
ghost use Rattle.yschema_expand.specs.Indexing.{part_in};
ghost use Rattle.yschema_expand.specs.Knowing.{Knows};
ghost use Rattle.yschema_expand.specs.NamedView.{language_of, modules_of};
ghost use Rattle.yschema_expand.specs.NodeView.{part_view};
ghost use Rattle.yschema_expand.specs.TableView.{parts_in, slots_of};
ghost use Rattle.yschema_expand.specs.Targets.{inner_target};
ghost use Rattle.yschema_expand.specs.Tasks.{one_toll, toll, Does, Extends, Leads};
ghost use Rattle.yschema_expand.specs.Walk.{all_inner, ends_within_in, AllEnd};
ghost use Rattle.yschema_expand.specs.declared.walking.Task.TheVariants.{Extend};
ghost use Rattle.yschema_given.specs.Keeping.{are_kept_right};

use crate::bringing::Bringing;
use crate::expanding::{Context, Made, Place};
use crate::hanging::Hanging;
use crate::nodes::ExpandedNode;
use crate::table::NodeTable;
use crate::taking::holds_by;
use crate::target::{LastNodes, number_at};
use crate::walking::Task;
use std::alloc::{AllocError, Global};
use ybase_preorder::{Node, Siblings};
use ybase_words::Keyword;
use ylink_arguments::relative_path;
use ylink_grammar::{CompileCode, Source, argument_of, broken, is_augment, least_when};

/// Whether a node may take what an augment states.
fn takes<'a, 't>(
    context: &Context<'a, 't>,
    node: &ExpandedNode<'a, 't>,
    augment: Node<'a, Source<'t>>,
) -> bool
    ensures { result ≡ may_take_in (language_of context.now.named.now) (modules_of context.now.named.now)
        (augment_view augment.entry) (part_view node.now) }
{
    let old = context.named.versions().is_yang_1(augment.label().home);
    holds_by(context.named.language(), old, node, augment.children())
}

/// Whether the node of a number may take what an augment states.
fn takes_there<'a, 't>(
    context: &Context<'a, 't>,
    table: &NodeTable<'a, 't>,
    number: u32,
    augment: Node<'a, Source<'t>>,
) -> bool
    ensures { let l = language_of context.now.named.now in let m = modules_of context.now.named.now in
        result ≡ option_map_or (λ (p : Part). may_take_in l m (augment_view augment.entry) p) (part_in (slots_of table.now) number) false }
{
    match table.node(number) {
        Some(node) => takes(context, node, augment),
        None => false,
    }
}

/// The number of a node, where there is one and it may take what an augment states.
fn taking<'a, 't>(
    context: &Context<'a, 't>,
    table: &NodeTable<'a, 't>,
    number: Option<u32>,
    augment: Node<'a, Source<'t>>,
) -> Option<u32>
    ensures { let l = language_of context.now.named.now in let m = modules_of context.now.named.now in
        result ≡ option_and_then (λ n. if option_map_or (λ (p : Part). may_take_in l m (augment_view augment.entry) p)
        (part_in (slots_of table.now) n) false then Some n else None) number }
{
    let number = number?;
    if takes_there(context, table, number, augment) {
        Some(number)
    } else {
        None
    }
}

/// The number of the node to which the path of an augment leads among those of a table from the number `first` on, where that may take
/// what the augment states; a name without a prefix is of a module that is given.
fn target_of<'a, 't>(
    alloc: Global,
    context: &Context<'a, 't>,
    owner: usize,
    augment: Node<'a, Source<'t>>,
    table: &NodeTable<'a, 't>,
    first: u32,
) -> Result<Option<u32>, AllocError>
    ensures found { (earlier : List (Lying Part)) (parent : Option ℕ) (f : Forest Part) → length earlier ≡ first
        → parts_in table.now ≡ earlier ++ places parent first f
        → IfOk result (λ number. number ≡ inner_target (language_of context.now.named.now) (modules_of context.now.named.now) owner
        (augment_view augment.entry) first f) }
    ensures among { IfOk result (λ number. IfSome number (λ n. (first ≤ n) × (n < length (slots_of table.now)))) }
    ensures takes { let l = language_of context.now.named.now in let m = modules_of context.now.named.now in
        IfOk result (λ number. IfSome number (λ n. option_map_or (λ (p : Part). may_take_in l m (augment_view augment.entry) p)
        (part_in (slots_of table.now) n) false ≡ true)) }
{
    let Some(path) = relative_path(alloc, argument_of(augment))? else {
        return Ok(None);
    };
    let home = augment.label().home;
    let nodes = LastNodes {
        table,
        first,
        index: None,
    };
    let number = number_at(context.named.prefixes(), home, owner, &path, nodes);
    Ok(taking(context, table, number, augment))
}

/// Whether the node of a number, where there is one, is a choice.
fn is_choice(made: &Made<'_, '_>, number: Option<u32>) -> bool
    ensures { result ≡ option_map_or (λ (p : Part). is_source_of choice_word p.source)
        (option_and_then (part_in (slots_of made.now.table)) number) false }
{
    let Some(number) = number else {
        return false;
    };
    match made.table.node(number) {
        Some(node) => Keyword::Choice.is(node.keyword()),
        None => false,
    }
}

/// Leaves behind what the first of some statements of a `uses` adds to the nodes from that of a number on, if it is an augment, and the
/// others; one that isn't fit is told, and what it adds goes again.
pub(crate) fn extend<'a, 't>(
    alloc: Global,
    context: &Context<'a, 't>,
    place: Place,
    first: u32,
    statements: Siblings<'a, Source<'t>>,
    tasks: &mut Vec<Task<'a, 't>>,
    made: &mut Made<'a, 't>,
) -> Result<(), AllocError>
    requires known { Knows context.now.groupings.now (language_of context.now.named.now) (modules_of context.now.named.now) }
    requires kept { are_kept_right (language_of context.now.named.now) (row_by source_view statements) ≡ true }
    requires ends { let l = language_of context.now.named.now in let m = modules_of context.now.named.now in
        all_inner (ends_within_in l m (groupings_of m) place.depth) (inner_augments l (row_by source_view statements)) ≡ true }
    ensures { let l = language_of context.now.named.now in let m = modules_of context.now.named.now in
        let task = Extend place first statements.entry in
        OnOk result (Leads l m (Does l m task) (toll l m task) tasks.old.items tasks.new.items made.old made.new) }
{
    let mut others = statements;
    let Some(statement) = others.next() else {
        return Ok(());
    };
    tasks.push(Task::Extend(place, first, others))?;
    if !is_augment(context.named.language(), statement.label()) {
        return Ok(());
    }
    add_inner(alloc, context, place, first, statement, tasks, made)
}

/// Leaves behind what an augment adds to the nodes from that of a number on.
fn add_inner<'a, 't>(
    alloc: Global,
    context: &Context<'a, 't>,
    place: Place,
    first: u32,
    augment: Node<'a, Source<'t>>,
    tasks: &mut Vec<Task<'a, 't>>,
    made: &mut Made<'a, 't>,
) -> Result<(), AllocError>
    requires known { Knows context.now.groupings.now (language_of context.now.named.now) (modules_of context.now.named.now) }
    requires kept { are_kept_right (language_of context.now.named.now) (row_by source_view augment.children) ≡ true }
    requires ends { AllEnd (language_of context.now.named.now) (modules_of context.now.named.now) place.depth
        (laid (row_by source_view augment.children)) }
    ensures { let l = language_of context.now.named.now in let m = modules_of context.now.named.now in
        let a = augment_view augment.entry in
        OnOk result (Leads l m (Extends l m place.owner place.depth first (a ∷ [])) (one_toll l m place.depth a)
        tasks.old.items tasks.new.items made.old made.new) }
{
    let target = target_of(alloc, context, place.owner, augment, &made.table, first)?;
    let source = augment.label();
    let found = broken(CompileCode::C14, source.home, source.statement);
    made.told = least_when(target.is_none(), made.told, found);
    let hanging = Hanging {
        first,
        target,
        start: made.table.len(),
    };
    tasks.push(Task::Hang(hanging))?;
    let given = augment.children();
    let bringing = Bringing {
        place: Place {
            parent: target,
            ..place
        },
        in_choice: is_choice(made, target),
        given,
    };
    tasks.push(Task::Bring(bringing, given))?;
    Ok(())
}
