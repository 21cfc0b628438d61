//! Which typedefs, groupings and identities refer to which (RFC 7950, 7.3, 7.12 and 7.18.2).

ghost use Rattle.std.specs.Prelude.{◌≡◌, IfOk, map, option_map};
ghost use Rattle.std.specs.List.{filter_map};
ghost use Rattle.yspec.specs.Forest.{Forest};
ghost use Rattle.yspec.specs.linking.Circles.{definition_edges};
ghost use Rattle.yspec.specs.linking.Source as sources;
ghost use Rattle.ybase_graph.specs.Edges.{edge_view};
ghost use Rattle.ylink_names.specs.EdgeView.{edge_by, edges_from};
ghost use Rattle.ylink_names.specs.MeaningView.{AreMeanings};
ghost use Rattle.ylink_names.specs.ReferringView.{AreReferring};

use crate::lost::meaning_at;
use std::alloc::{AllocError, Global};
use ybase_graph::Edge;

/// The edge from the definition that holds a statement to the one that it means.
fn edge_of(holder: Option<u32>, meaning: Option<u32>) -> Option<Edge>
    ensures { option_map edge_view result ≡ edge_by holder meaning }
{
    match meaning {
        Some(target) => match holder {
            Some(source) => Some(Edge { source, target }),
            None => None,
        },
        None => None,
    }
}

/// The edge of each statement, by its number, given what holds each and what each means.
pub(crate) fn edges_by_number(
    alloc: Global,
    holders: &[Option<u32>],
    meanings: &[Option<u32>],
) -> Result<Vec<Option<Edge>>, AllocError>
    ensures { IfOk result (λ made. map (option_map edge_view) made.items
        ≡ edges_from holders.now 0 meanings.now) }
{
    let mut made = Vec::new(alloc);
    for number in 0..meanings.len() {
        let holder = meaning_at(holders, number);
        made.push(edge_of(holder, meaning_at(meanings, number)))?;
    }
    Ok(made)
}

/// The edges that there are.
pub(crate) fn present(alloc: Global, edges: &[Option<Edge>]) -> Result<Vec<Edge>, AllocError>
    ensures { IfOk result (λ made. made.items ≡ filter_map (λ e. e) edges.now) }
{
    let mut made = Vec::new(alloc);
    for edge in edges {
        if let Some(edge) = edge {
            made.push(*edge)?;
        }
    }
    Ok(made)
}

/// Which definitions refer to which, given the innermost definition around each statement and what each means.
pub fn definition_edges_of(
    alloc: Global,
    holders: &[Option<u32>],
    meanings: &[Option<u32>],
) -> Result<Vec<Edge>, AllocError>
    ensures { (modules : Forest sources.Source) → AreReferring holders.now modules
        → AreMeanings meanings.now modules
        → IfOk result (λ made. map edge_view made.items ≡ definition_edges modules) }
{
    let edges = edges_by_number(alloc, holders, meanings)?;
    present(alloc, &edges)
}
