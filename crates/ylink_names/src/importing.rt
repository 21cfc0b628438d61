//! Modules that import themselves by way of others (RFC 7950, 5.1).

ghost use Rattle.std.specs.Prelude.{◌≡◌, ℕ, IfOk, map, option_map};
ghost use Rattle.yspec.specs.Forest.{Forest, preorder};
ghost use Rattle.yspec.specs.schema.Breaks.{least_from};
ghost use Rattle.yspec.specs.linking.Circles as spec;
ghost use Rattle.yspec.specs.linking.Source as sources;
ghost use Rattle.ybase_graph.specs.Edges.{edge_view};
ghost use Rattle.ylink_grammar.specs.BreakView.{seen};
ghost use Rattle.ylink_grammar.specs.LinkView.{view};
ghost use Rattle.ylink_grammar.specs.SourceView.{source_view};
ghost use Rattle.ylink_names.specs.PrefixView.{AreModulesOf};

use crate::circular::{flags_by_number, least_circle};
use crate::first_named::FirstNamed;
use crate::references::present;
use std::alloc::{AllocError, Global};
use ybase_graph::{Edge, on_circles};
use ybase_words::Keyword;
use ylink_grammar::{BrokenRule, Source, Sources};

/// The number of a module in a set as that of a node. A set has fewer modules than there are numbers.
fn node_at(place: usize) -> Result<u32, AllocError>
    ensures { IfOk result (λ node. node ≡ place) }
{
    match u32::try_from(place) {
        Ok(node) => Ok(node),
        Err(_) => Err(AllocError),
    }
}

/// The edge of an import from its module to the one that it imports, by their numbers.
fn import_edge(
    places: &FirstNamed<'_, usize>,
    statement: &Source<'_>,
) -> Result<Option<Edge>, AllocError>
    ensures { (modules : Forest sources.Source) → AreModulesOf places.now modules → (number : ℕ)
        → IfOk result (λ edge. option_map edge_view edge
        ≡ spec.import_edge modules (source_view number statement.now)) }
{
    if !Keyword::Import.is(statement.keyword) {
        return Ok(None);
    }
    match places.get(statement.argument()) {
        Some(place) => Ok(Some(Edge {
            source: node_at(statement.home)?,
            target: node_at(place)?,
        })),
        None => Ok(None),
    }
}

/// The edge of each statement, by its number.
fn import_edges(
    alloc: Global,
    sources: &Sources<'_>,
    places: &FirstNamed<'_, usize>,
) -> Result<Vec<Option<Edge>>, AllocError>
    ensures { IfOk result (λ edges. AreModulesOf places.now (view sources.now)
        → map (option_map edge_view) edges.items
        ≡ map (spec.import_edge (view sources.now)) (preorder (view sources.now))) }
{
    let mut edges = Vec::new(alloc);
    for (number, row) in sources.slots().iter().enumerate() {
        edges.push(import_edge(places, &row.label)?)?;
    }
    Ok(edges)
}

/// The lesser of one so far and of the imports by which a module imports itself, by module and line.
pub fn circular_import(
    alloc: Global,
    sources: &Sources<'_>,
    places: &FirstNamed<'_, usize>,
    so_far: Option<BrokenRule>,
) -> Result<Option<BrokenRule>, AllocError>
    ensures { IfOk result (λ told. AreModulesOf places.now (view sources.now)
        → seen told ≡ least_from (seen so_far) (spec.import_circles (view sources.now))) }
{
    let edges = import_edges(alloc, sources, places)?;
    let found = present(alloc, &edges)?;
    if found.is_empty() {
        return Ok(so_far);
    }
    let flags = on_circles(alloc, &found)?;
    let circular = flags_by_number(alloc, &edges, &flags)?;
    Ok(least_circle(sources, &circular, so_far))
}
