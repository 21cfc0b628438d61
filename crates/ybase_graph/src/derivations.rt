//! Which nodes derive from a base: by one edge or more.

ghost use Rattle.std.specs.Prelude.{◌≡◌, ◌==◌, ◌||◌, ◌<◌, false, length, get_or};
ghost use Rattle.std.specs.List.{All, list_any};

use crate::circles::{Edge, node_count, targets};
use crate::order::in_order;
use std::alloc::{AllocError, Global};

/// The nodes of a graph, by which is told which of them derive from others.
#[derive(Drop)]
pub struct Derivations {
    // Of each node, those to which its edges lead.
    rows: Vec<Vec<usize>>,
    // All nodes, each behind those to which it leads.
    order: Vec<usize>,
    ghost within: { All (λ n. n < length rows.items) order.items },
}

/// Whether a node is the base, or is marked.
fn is_at(base: usize, marks: &[bool], node: usize) -> bool
    ensures { result ≡ (node == base || get_or marks.now node false) }
{
    node == base || marks.get(node).copied().unwrap_or(false)
}

/// Whether an edge of a node leads to the base, or to a node that is marked, given where its edges lead.
fn leads_on(targets: &[usize], base: usize, marks: &[bool]) -> bool
    ensures { result ≡ list_any (λ n. n == base || get_or marks.now n false) targets.now }
{
    for target in targets {
        if is_at(base, marks, *target) {
            return true;
        }
    }
    false
}

impl Derivations {
    ghost use Rattle.std.specs.Prelude.{◌≡◌, ℕ, List, IfOk, false, map, get_or};
    ghost use Rattle.yspec.specs.linking.Graph as spec;
    ghost use Rattle.ybase_graph.specs.Edges.{edge_view};
    ghost use Rattle.ybase_graph.specs.Derivation.{derives};
    ghost use Rattle.ybase_graph.specs.Derivations.{AreStraight, IsOf};

    /// The nodes of a graph by its edges.
    pub fn of(alloc: Global, edges: &[Edge]) -> Result<Derivations, AllocError>
        ensures { IfOk result (λ d. IsOf d (map edge_view edges.now)) }
    {
        let count = node_count(edges);
        let rows = targets(alloc, count, edges)?;
        let order = in_order(alloc, count, edges)?;
        Ok(Derivations { rows, order })
    }

    /// Of each node whether it derives from a base. No edge lies on a circle.
    pub fn from(&self, alloc: Global, base: usize) -> Result<Vec<bool>, AllocError>
        ensures { (edges : List spec.Edge) → IsOf self.now edges → AreStraight edges
            → IfOk result (λ marks. (n : ℕ) → get_or marks.items n false ≡ derives edges n base) }
    {
        let mut marks = vec![in alloc; false; self.rows.len()]?;
        for node in &self.order {
            marks[*node] = leads_on(&self.rows[*node], base, &marks);
        }
        Ok(marks)
    }
}
