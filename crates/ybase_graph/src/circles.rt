//! Which edges of a graph lie on circles.

ghost use Rattle.std.specs.Prelude.{◌≡◌, ◌≤◌, ◌==◌, length, IfOk, map, get_or};
ghost use Rattle.yspec.specs.linking.Graph.{is_on_circle};
ghost use Rattle.ybase_graph.specs.Edges.{edge_view, AreWithin, HaveTargets, HaveNoTargets, IsEdgeWithin};

use crate::search::ranks;
use std::alloc::{AllocError, Global};

/// An edge from a node to another, both by number.
#[derive(Clone, Copy, Debug)]
pub struct Edge {
    pub source: u32,
    pub target: u32,
}

/// Of each edge whether it lies on a circle: whether its target leads back to its source.
pub fn on_circles(alloc: Global, edges: &[Edge]) -> Result<Vec<bool>, AllocError>
    ensures { IfOk result (λ flags. flags.items
        ≡ map (λ e. is_on_circle (map edge_view edges.now) (edge_view e)) edges.now) }
{
    let rows = targets(alloc, node_count(edges), edges)?;
    let ranks = ranks(alloc, rows.as_slice())?;
    let mut flags = Vec::with_capacity(alloc, edges.len())?;
    for edge in edges {
        flags.push(has_one_rank(edge, ranks.as_slice()))?;
    }
    Ok(flags)
}

/// A number of nodes that covers both ends of an edge, and so many nodes at least.
fn covering(count: usize, edge: &Edge) -> usize
    ensures least { count ≤ result }
    ensures ends { IsEdgeWithin result edge.now }
{
    let last = edge.source.max(edge.target) as usize;
    count.max(last + 1)
}

/// One more than the greatest number of a node.
pub(crate) fn node_count(edges: &[Edge]) -> usize
    ensures { AreWithin result edges.now }
{
    let mut count = 0;
    for edge in edges {
        count = covering(count, edge);
    }
    count
}

/// Whether both ends have one number.
fn has_one_rank(edge: &Edge, ranks: &[usize]) -> bool
    requires { IsEdgeWithin (length ranks.now) edge.now }
    ensures { result ≡ (get_or ranks.now edge.now.source 0 == get_or ranks.now edge.now.target 0) }
{
    ranks[edge.source as usize] == ranks[edge.target as usize]
}

/// For each node, those to which its edges lead.
pub(crate) fn targets(
    alloc: Global,
    count: usize,
    edges: &[Edge],
) -> Result<Vec<Vec<usize>>, AllocError>
    requires { AreWithin count edges.now }
    ensures { IfOk result (λ rows. HaveTargets count edges.now rows.items) }
{
    let mut rows = no_targets(alloc, count)?;
    for edge in edges {
        rows[edge.source as usize].push(edge.target as usize)?;
    }
    Ok(rows)
}

/// Nodes without edges.
fn no_targets(alloc: Global, count: usize) -> Result<Vec<Vec<usize>>, AllocError>
    ensures { IfOk result (λ rows. HaveNoTargets count rows.items) }
{
    let mut rows = Vec::with_capacity(alloc, count)?;
    for _ in 0..count {
        rows.push(Vec::new(alloc))?;
    }
    Ok(rows)
}
