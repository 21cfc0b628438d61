//! Which nodes of a graph lead to one another, by one search along a path whose segments are joined.

ghost use Rattle.std.specs.Prelude.{◌≡◌, ◌≢◌, ℕ, ◌<◌, ◌≤◌, ◌-◌, length, IfOk, [], get_or, map};
ghost use Rattle.ybase_graph.specs.Search.{IsSound, IsMarked, IsCounted, KeepsSeen, TargetsWithin, IsRanking, state_at, ReachesFromPath, rank_of, work_left};
ghost use Rattle.ybase_graph.specs.declared.search.State.TheVariants.{Unseen};

use std::alloc::{AllocError, Global};

/// How far the search is with a node.
#[derive(Clone, Copy, Debug)]
pub(crate) enum State {
    Unseen,
    /// Its place on the path.
    OnPath(usize),
    /// The number of the set of nodes that reach one another to which it belongs.
    Done(usize),
}

/// Nodes of the path that reach one another: from a place on, up to the next segment.
#[derive(Clone, Copy, Debug)]
pub(crate) struct Segment {
    first: usize,
    /// Where the targets that wait for the segment begin.
    waiting: usize,
}

/// How far the search is.
#[derive(Debug, Drop)]
pub(crate) struct Search {
    states: Vec<State>,
    /// Nodes, each of which has an edge to the next segment.
    path: Vec<usize>,
    segments: Vec<Segment>,
    /// Targets of the path's nodes that were not looked at.
    waiting: Vec<usize>,
    /// How many sets are known.
    known: usize,
}

/// Puts a node at the end of the path, as a segment of its own.
fn enter(search: &mut Search, graph: &[Vec<usize>], node: usize) -> Result<(), AllocError>
    requires sound { IsSound graph.now search.old }
    requires within { TargetsWithin graph.now }
    requires node { node < length graph.now }
    requires unseen { state_at search.old.states.items node ≡ Unseen }
    requires reached { ReachesFromPath graph.now search.old node }
    requires counted { IsCounted graph.now search.old }
    ensures sound { IfOk result (λ _. IsSound graph.now search.new) }
    ensures seen { IfOk result (λ _. KeepsSeen search.old search.new) }
    ensures entered { IfOk result (λ _. state_at search.new.states.items node ≢ Unseen) }
    ensures counted { IfOk result (λ _. IsCounted graph.now search.new) }
    ensures less { IfOk result (λ _. work_left graph.now search.new < work_left graph.now search.old) }
{
    let place = search.path.len();
    let waiting = search.waiting.len();
    search.path.push(node)?;
    search.segments.push(Segment {
        first: place,
        waiting,
    })?;
    search.waiting.extend_from_slice(graph[node].as_slice())?;
    search.states[node] = State::OnPath(place);
    Ok(())
}

/// Ends the last segment, for which nothing waits.
fn leave(search: &mut Search, graph: &[Vec<usize>], top: Segment)
    requires sound { IsSound graph.now search.old }
    requires some { 0 < length search.old.segments.items }
    requires top { top ≡ get_or search.old.segments.items (length search.old.segments.items - 1) top }
    requires none { length search.old.waiting.items ≤ top.waiting }
    requires counted { IsCounted graph.now search.old }
    ensures sound { IsSound graph.now search.new }
    ensures seen { KeepsSeen search.old search.new }
    ensures counted { IsCounted graph.now search.new }
    ensures less { work_left graph.now search.new < work_left graph.now search.old }
{
    let rank = search.known;
    mark(&mut search.states, search.path.as_slice(), top.first, rank);
    search.path.truncate(top.first);
    let _ended = search.segments.pop();
    search.known = rank + 1;
}

/// Notes of the nodes from a place of the path on to which set they belong.
fn mark(states: &mut Vec<State>, path: &[usize], first: usize, rank: usize)
    requires within { (i : ℕ) → i < length path.now → get_or path.now i 0 < length states.old.items }
    requires first { first ≤ length path.now }
    ensures { IsMarked path.now first rank states.old.items states.new.items }
{
    for place in first..path.len() {
        states[path[place]] = State::Done(rank);
    }
}

/// Goes on until the path is empty.
fn run(search: &mut Search, graph: &[Vec<usize>]) -> Result<(), AllocError>
    requires sound { IsSound graph.now search.old }
    requires within { TargetsWithin graph.now }
    requires counted { IsCounted graph.now search.old }
    ensures sound { IfOk result (λ _. IsSound graph.now search.new) }
    ensures counted { IfOk result (λ _. IsCounted graph.now search.new) }
    ensures ended { IfOk result (λ _. search.new.segments.items ≡ []) }
    ensures seen { IfOk result (λ _. KeepsSeen search.old search.new) }
{
    while let Some(top) = search.segments.as_slice().last().copied() {
        step(search, graph, top)?;
    }
    Ok(())
}

/// Looks at the last target that waits for the last segment.
fn step(search: &mut Search, graph: &[Vec<usize>], top: Segment) -> Result<(), AllocError>
    requires sound { IsSound graph.now search.old }
    requires within { TargetsWithin graph.now }
    requires counted { IsCounted graph.now search.old }
    requires some { 0 < length search.old.segments.items }
    requires top { top ≡ get_or search.old.segments.items (length search.old.segments.items - 1) top }
    ensures sound { IfOk result (λ _. IsSound graph.now search.new) }
    ensures seen { IfOk result (λ _. KeepsSeen search.old search.new) }
    ensures counted { IfOk result (λ _. IsCounted graph.now search.new) }
    ensures less { IfOk result (λ _. work_left graph.now search.new < work_left graph.now search.old) }
{
    let count = search.waiting.len();
    if count <= top.waiting {
        leave(search, graph, top);
        return Ok(());
    }
    let target = search.waiting[count - 1];
    match search.states[target] {
        State::Unseen => enter(search, graph, target)?,
        State::OnPath(place) => {
            if place < top.first {
                let _joined = search.segments.pop();
            } else {
                let _met = search.waiting.pop();
            }
        }
        State::Done(_) => {
            let _known = search.waiting.pop();
        }
    }
    Ok(())
}

/// Numbers the nodes: equal numbers where nodes lead to one another, and no edge leads up.
pub(crate) fn ranks(alloc: Global, graph: &[Vec<usize>]) -> Result<Vec<usize>, AllocError>
    requires within { TargetsWithin graph.now }
    ensures { IfOk result (λ ranks. IsRanking graph.now ranks.items) }
{
    let mut search = Search {
        states: vec![in alloc; State::Unseen; graph.len()]?,
        path: Vec::new(alloc),
        segments: Vec::new(alloc),
        waiting: Vec::new(alloc),
        known: 0,
    };
    for node in 0..graph.len() {
        if let State::Unseen = search.states[node] {
            enter(&mut search, graph, node)?;
            run(&mut search, graph)?;
        }
    }
    numbers(alloc, search.states.as_slice())
}

/// The numbers of the sets.
fn numbers(alloc: Global, states: &[State]) -> Result<Vec<usize>, AllocError>
    ensures { IfOk result (λ ranks. ranks.items ≡ map rank_of states.now) }
{
    let mut ranks = Vec::new(alloc);
    for state in states {
        let rank = match *state {
            State::Done(rank) => rank,
            _ => 0,
        };
        ranks.push(rank)?;
    }
    Ok(ranks)
}
