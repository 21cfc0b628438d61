//! An order of nodes in which each stands behind those to which it leads.

ghost use Rattle.std.specs.Prelude.{◌≡◌, ℕ, false, length, IfOk, get_or, map};
ghost use Rattle.std.specs.List.{range_with_len};
ghost use Rattle.std.specs.List.Sorted.{IsPermutation, IsNonDecreasingBy};
ghost use Rattle.yspec.specs.linking.Graph.{is_on_circle};
ghost use Rattle.ybase_graph.specs.Reaching.{HasEdge, StandsBefore};
ghost use Rattle.ybase_graph.specs.Edges.{edge_view, AreWithin};

use crate::circles::{Edge, targets};
use crate::search::ranks;
use std::alloc::{AllocError, Global};

/// So many nodes, each once: the target of each edge that lies on no circle stands before its source.
pub fn in_order(alloc: Global, count: usize, edges: &[Edge]) -> Result<Vec<usize>, AllocError>
    requires { AreWithin count edges.now }
    ensures all { IfOk result
        (λ nodes. IsPermutation (range_with_len 0 count) nodes.items) }
    ensures behind { IfOk result (λ nodes. (a b : ℕ) → HasEdge (map edge_view edges.now) a b
        → is_on_circle (map edge_view edges.now) (record { source = a; target = b }) ≡ false
        → StandsBefore nodes.items b a) }
{
    // Where nothing leads anywhere any order is one.
    if edges.is_empty() {
        return numbers(alloc, count);
    }
    let rows = targets(alloc, count, edges)?;
    let ranks = ranks(alloc, rows.as_slice())?;
    by_rank(alloc, ranks.as_slice())
}

/// All nodes, in the order of their ranks.
fn by_rank(alloc: Global, ranks: &[usize]) -> Result<Vec<usize>, AllocError>
    ensures all { IfOk result
        (λ nodes. IsPermutation (range_with_len 0 (length ranks.now)) nodes.items) }
    ensures rising { IfOk result
        (λ nodes. IsNonDecreasingBy (λ v. get_or ranks.now v 0) nodes.items) }
{
    let mut nodes = numbers(alloc, ranks.len())?;
    nodes.sort_by_key(|node: &usize| ranks.get(*node).copied().unwrap_or(0))?;
    Ok(nodes)
}

/// The numbers below one.
fn numbers(alloc: Global, count: usize) -> Result<Vec<usize>, AllocError>
    ensures { IfOk result (λ nodes. nodes.items ≡ range_with_len 0 count) }
{
    let mut nodes = Vec::with_capacity(alloc, count)?;
    for node in 0..count {
        nodes.push(node)?;
    }
    Ok(nodes)
}
