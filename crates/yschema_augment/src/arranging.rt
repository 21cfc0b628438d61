//! Nodes that augments add, in their places (RFC 7950, 7.17): what is still to be done stands in a list.

ghost use Rattle.std.specs.Prelude.{◌≡◌, ◌+◌, ◌<◌, IfOk, OnOk, None, get_or, length, map};
ghost use Rattle.yspec.specs.Forest.{end, node};
ghost use Rattle.yspec.specs.linking.Keyword.{choice_word};
ghost use Rattle.yspec.specs.linking.Source.{is_source_of};
ghost use Rattle.ybase_preorder.specs.Layout.{places};
ghost use Rattle.ybase_preorder.specs.View.{row_by, label_by};
ghost use Rattle.yschema_augment.specs.Hanging.{given_by, hung, inner, plain};
ghost use Rattle.yschema_augment.specs.Arranging.{hung_view, own_rows, rows_of};
ghost use Rattle.yschema_expand.specs.NumberedView.{with_number};
ghost use Rattle.yschema_expand.specs.TableView.{parts_in, slots_of};
ghost use Rattle.yschema_augment.specs.Placing.{given, steps, steps_from, toll, Adds, Copies, Does, Finds, Leads};

use crate::applied::Applied;
use crate::places::Places;
use std::alloc::{AllocError, Global};
use ybase_preorder::{Node, Siblings};
use ybase_words::Keyword;
use yschema_expand::{ExpandedNode, NodeTable};

/// The nodes of modules and those that augments add, with the order in which augments are applied.
#[derive(Drop)]
pub(crate) struct Arrangement<'b, 'a, 't> {
    pub nodes: &'b NodeTable<'a, 't>,
    /// Where those that each augment adds begin.
    pub starts: &'b [u32],
    /// The numbers of the augments' statements.
    pub numbers: &'b [u32],
    pub order: &'b [Applied],
    pub places: &'b Places,
}

/// Where a row comes to stand: below a node or at the top, by an augment or not. Augments from a place on add to it.
#[derive(Clone, Copy)]
pub(crate) struct Spot {
    pub parent: Option<u32>,
    pub added_by: Option<u32>,
    pub from: usize,
}

/// What is still to be done.
#[derive(Clone, Copy)]
pub(crate) enum Task<'b, 'a, 't> {
    /// To copy a row, with what augments add to it.
    Row(Spot, Siblings<'b, ExpandedNode<'a, 't>>),
    /// To copy what stands in the nodes of a row.
    Inner(Spot, Siblings<'b, ExpandedNode<'a, 't>>),
    /// To add to the copy of a node what augments from a place on add.
    Hang(Option<u32>, Node<'b, ExpandedNode<'a, 't>>, usize),
    /// To close the node of a number: all behind it stand below it.
    Close(u32),
}

/// Whether a node is a choice.
fn is_choice(original: Node<'_, ExpandedNode<'_, '_>>) -> bool
    ensures { let l = label_by with_number original.entry in
        result ≡ is_source_of choice_word l.label.source }
{
    original.label().keyword().is(Keyword::Choice)
}

impl<'b, 'a, 't> Arrangement<'b, 'a, 't> {
    /// The nodes that an augment adds.
    fn rows_of(&self, augment: usize) -> Siblings<'b, ExpandedNode<'a, 't>>
        ensures { row_by with_number result
            ≡ rows_of self.now.starts.now (slots_of self.now.nodes.now) augment }
    {
        body_of(self.nodes, self.starts, augment)
    }
}

/// The nodes that an augment adds, as they lie behind those of modules, given where those of each begin.
pub(crate) fn body_of<'b, 'a, 't>(
    nodes: &'b NodeTable<'a, 't>,
    starts: &[u32],
    augment: usize,
) -> Siblings<'b, ExpandedNode<'a, 't>>
    ensures { row_by with_number result ≡ rows_of starts.now (slots_of nodes.now) augment }
{
    let past = nodes.len();
    let first = number_at(starts, augment, past);
    let next = number_behind(starts, augment, past);
    nodes.between(first, next)
}

/// A number that stands in a list, or another one where none does.
pub(crate) fn number_at(numbers: &[u32], place: usize, other: u32) -> u32
    ensures { result ≡ get_or numbers.now place other }
{
    match numbers.get(place) {
        Some(number) => *number,
        None => other,
    }
}

/// The number behind one that stands in a list, or another one where none does.
fn number_behind(numbers: &[u32], place: usize, other: u32) -> u32
    ensures { result ≡ get_or numbers.now (place + 1) other }
{
    match numbers.split_first() {
        Some((_, behind)) => number_at(behind, place, other),
        None => other,
    }
}

/// Copies a node, and leaves behind what stands below it and what augments add there.
fn add_node<'b, 'a, 't>(
    alloc: Global,
    all: &Arrangement<'b, 'a, 't>,
    spot: Spot,
    original: Node<'b, ExpandedNode<'a, 't>>,
    tasks: &mut Vec<Task<'b, 'a, 't>>,
    made: &mut NodeTable<'a, 't>,
) -> Result<(), AllocError>
    requires known { Finds all.now.places.now all.now.order.now }
    ensures { let x = all.now in let below = row_by with_number original.entry.children in
        let f = node (label_by with_number original.entry) below end in
        OnOk result (Leads x (Copies x spot f) (3 + (steps_from x spot.from + steps (steps_from x spot.from) below))
        tasks.old.items tasks.new.items made.old made.new) }
{
    let label = original.label().copied(alloc, spot.added_by)?;
    let number = made.open(spot.parent, label)?;
    tasks.push(Task::Close(number))?;
    let place = all
        .places
        .first_from(all.order, original.number(), spot.from);
    tasks.push(Task::Hang(Some(number), original, place))?;
    let inside = Spot {
        parent: Some(number),
        added_by: None,
        from: spot.from,
    };
    tasks.push(Task::Row(inside, original.children()))?;
    Ok(())
}

/// Copies the first node of a row, and leaves the others behind.
fn add_first<'b, 'a, 't>(
    alloc: Global,
    all: &Arrangement<'b, 'a, 't>,
    spot: Spot,
    nodes: Siblings<'b, ExpandedNode<'a, 't>>,
    tasks: &mut Vec<Task<'b, 'a, 't>>,
    made: &mut NodeTable<'a, 't>,
) -> Result<(), AllocError>
    requires known { Finds all.now.places.now all.now.order.now }
    ensures { let x = all.now in let f = row_by with_number nodes.entry in
        OnOk result (Leads x (Copies x spot f) (steps (steps_from x spot.from) f)
        tasks.old.items tasks.new.items made.old made.new) }
{
    let mut others = nodes;
    let Some(original) = others.next() else {
        return Ok(());
    };
    tasks.push(Task::Row(spot, others))?;
    add_node(alloc, all, spot, original, tasks, made)
}

/// Leaves behind what stands below the first node of a row, and what stands in the others.
fn add_inner<'b, 'a, 't>(
    all: &Arrangement<'b, 'a, 't>,
    spot: Spot,
    nodes: Siblings<'b, ExpandedNode<'a, 't>>,
    tasks: &mut Vec<Task<'b, 'a, 't>>,
) -> Result<(), AllocError>
    ensures { let x = all.now in let f = row_by with_number nodes.entry in (made : NodeTable) →
        OnOk result (Leads x (Copies x spot (inner f)) (steps (steps_from x spot.from) f)
        tasks.old.items tasks.new.items made made) }
{
    let mut others = nodes;
    let Some(original) = others.next() else {
        return Ok(());
    };
    tasks.push(Task::Inner(spot, others))?;
    tasks.push(Task::Row(spot, original.children()))?;
    Ok(())
}

/// Leaves behind what an augment of a place adds below a node.
fn add_rows<'b, 'a, 't>(
    all: &Arrangement<'b, 'a, 't>,
    parent: Option<u32>,
    original: Node<'b, ExpandedNode<'a, 't>>,
    place: usize,
    applied: Applied,
    tasks: &mut Vec<Task<'b, 'a, 't>>,
) -> Result<(), AllocError>
    requires within { place < length all.now.order.now }
    ensures { let x = all.now in let l = label_by with_number original.entry in
        let h = hung_view x.starts.now (slots_of x.nodes.now) x.numbers.now applied in
        let rows = rows_of x.starts.now (slots_of x.nodes.now) applied.augment in (made : NodeTable) →
        OnOk result (Leads x (Adds parent (given_by (given x (place + 1)) (h.row l)))
        (1 + steps (steps_from x (place + 1)) rows) tasks.old.items tasks.new.items made made) }
{
    let spot = Spot {
        parent,
        added_by: Some(number_at(all.numbers, applied.augment, 0)),
        from: place + 1,
    };
    let rows = all.rows_of(applied.augment);
    if is_choice(original) {
        tasks.push(Task::Row(spot, rows))?;
    } else {
        tasks.push(Task::Inner(spot, rows))?;
    }
    Ok(())
}

/// Leaves behind what augments from a place on add below a node.
fn hang<'b, 'a, 't>(
    all: &Arrangement<'b, 'a, 't>,
    parent: Option<u32>,
    original: Node<'b, ExpandedNode<'a, 't>>,
    place: usize,
    tasks: &mut Vec<Task<'b, 'a, 't>>,
) -> Result<(), AllocError>
    requires known { Finds all.now.places.now all.now.order.now }
    ensures { let x = all.now in (made : NodeTable) →
        OnOk result (Leads x (Adds parent (given x place (label_by with_number original.entry)))
        (steps_from x place) tasks.old.items tasks.new.items made made) }
{
    let Some(applied) = all.order.get(place) else {
        return Ok(());
    };
    if applied.target != original.number() {
        tasks.push(Task::Hang(parent, original, place + 1))?;
        return Ok(());
    }
    let next = all.places.behind(all.order, place);
    tasks.push(Task::Hang(parent, original, next))?;
    add_rows(all, parent, original, place, *applied, tasks)
}

/// Does a task, or leaves the rest of it behind.
fn perform<'b, 'a, 't>(
    alloc: Global,
    all: &Arrangement<'b, 'a, 't>,
    task: Task<'b, 'a, 't>,
    tasks: &mut Vec<Task<'b, 'a, 't>>,
    made: &mut NodeTable<'a, 't>,
) -> Result<(), AllocError>
    requires known { Finds all.now.places.now all.now.order.now }
    ensures { let x = all.now in OnOk result (Leads x (Does x task.entry) (toll x task.entry)
        tasks.old.items tasks.new.items made.old made.new) }
{
    match task {
        Task::Row(spot, nodes) => add_first(alloc, all, spot, nodes, tasks, made),
        Task::Inner(spot, nodes) => add_inner(all, spot, nodes, tasks),
        Task::Hang(parent, original, place) => hang(all, parent, original, place, tasks),
        Task::Close(number) => {
            made.close(number);
            Ok(())
        }
    }
}

/// Copies a row, with what augments add to it.
fn add_row<'b, 'a, 't>(
    alloc: Global,
    all: &Arrangement<'b, 'a, 't>,
    spot: Spot,
    nodes: Siblings<'b, ExpandedNode<'a, 't>>,
    made: &mut NodeTable<'a, 't>,
) -> Result<(), AllocError>
    requires known { Finds all.now.places.now all.now.order.now }
    ensures { OnOk result (Copies all.now spot (row_by with_number nodes.entry) made.old made.new) }
{
    let mut tasks = Vec::new(alloc);
    tasks.push(Task::Row(spot, nodes))?;
    while let Some(task) = tasks.pop() {
        perform(alloc, all, task, &mut tasks, made)?;
    }
    Ok(())
}

/// The nodes of modules with those that augments add, each below its target, behind all that stand there.
pub(crate) fn arranged<'a, 't>(
    alloc: Global,
    nodes: &NodeTable<'a, 't>,
    starts: &[u32],
    numbers: &[u32],
    order: &[Applied],
) -> Result<NodeTable<'a, 't>, AllocError>
    ensures { let slots = slots_of nodes.now in
        IfOk result (λ made. parts_in made ≡ places None 0 (plain (hung
        (map (hung_view starts.now slots numbers.now) order.now) (own_rows starts.now slots)))) }
{
    let places = Places::of(alloc, order, nodes.len() as usize)?;
    let all = Arrangement {
        nodes,
        starts,
        numbers,
        order,
        places: &places,
    };
    let spot = Spot {
        parent: None,
        added_by: None,
        from: 0,
    };
    let own = nodes.between(0, number_at(starts, 0, nodes.len()));
    let mut made = NodeTable::new(alloc);
    add_row(alloc, &all, spot, own, &mut made)?;
    Ok(made)
}
