//! References one behind another, and what is said of the first that lead back to where they begin.

ghost use Rattle.std.specs.Prelude.{◌≡◌, ◌++◌, IfOk, OnOk, map, option_map, string_bytes};
ghost use Rattle.std.specs.List.{flat_map};
ghost use Rattle.ysay_circles.specs.Circles as spec;
ghost use Rattle.ysay_circles.specs.KindView.{kind_view};
ghost use Rattle.ysay_circles.specs.WayView.{edge_view, edges_view, way_view, ways_view};

use itoa::Buffer;
use std::alloc::{AllocError, Global};
use ysay_text::shown;

/// What refers to what.
#[derive(Clone, Copy, Debug)]
pub(crate) enum Kind {
    Modules,
    Typedefs,
    Groupings,
    Identities,
    Features,
}

/// What refers, in which line, and to what, by their names.
#[derive(Clone, Copy, Debug)]
pub(crate) struct Edge<'a> {
    pub(crate) source: &'a str,
    pub(crate) line: u32,
    pub(crate) target: &'a str,
}

/// References one behind another, with where they begin and where they end.
#[derive(Debug, Drop)]
struct Way<'a> {
    start: &'a str,
    steps: Vec<Edge<'a>>,
    tip: &'a str,
}

/// So many ways are looked at, and so many references of each thing.
pub(crate) const WIDTH: usize = 64;

/// The keyword that defines one.
pub(crate) fn defining(kind: Kind) -> &'static str
    ensures { result.now ≡ spec.defining (kind_view kind) }
{
    match kind {
        Kind::Modules => "module",
        Kind::Typedefs => "typedef",
        Kind::Groupings => "grouping",
        Kind::Identities => "identity",
        Kind::Features => "feature",
    }
}

fn begun<'a>(alloc: Global, edge: Edge<'a>) -> Result<Way<'a>, AllocError>
    ensures { IfOk result (λ way. way_view way ≡ spec.begun (edge_view edge.entry)) }
{
    let mut steps = Vec::new(alloc);
    steps.push(edge)?;
    Ok(Way {
        start: edge.source,
        steps,
        tip: edge.target,
    })
}

fn followed<'a>(alloc: Global, way: &Way<'a>, edge: Edge<'a>) -> Result<Way<'a>, AllocError>
    ensures { IfOk result (λ longer. way_view longer ≡ spec.followed (way_view way.now) (edge_view edge.entry)) }
{
    let mut steps = Vec::from_slice(alloc, &way.steps)?;
    steps.push(edge)?;
    Ok(Way {
        start: way.start,
        steps,
        tip: edge.target,
    })
}

/// Adds a reference, where it is one of a name.
fn add_if_from<'a>(name: &str, edge: Edge<'a>, found: &mut Vec<Edge<'a>>) -> Result<(), AllocError>
    ensures { OnOk result (edges_view found.new.items
        ≡ edges_view found.old.items ++ spec.if_from name.now (edge_view edge.entry)) }
{
    if edge.source == name {
        found.push(edge)?;
    }
    Ok(())
}

/// The references of a name.
fn edges_from<'a>(
    alloc: Global,
    name: &str,
    edges: &[Edge<'a>],
) -> Result<Vec<Edge<'a>>, AllocError>
    ensures { IfOk result (λ found. edges_view found.items ≡ spec.edges_from name.now (edges_view edges.now)) }
{
    let mut found = Vec::new(alloc);
    for edge in edges {
        add_if_from(name, *edge, &mut found)?;
    }
    Ok(found)
}

fn add_followed<'a>(
    alloc: Global,
    way: &Way<'a>,
    edges: &[Edge<'a>],
    found: &mut Vec<Way<'a>>,
) -> Result<(), AllocError>
    ensures { OnOk result (ways_view found.new.items
        ≡ ways_view found.old.items ++ map (spec.followed (way_view way.now)) (edges_view edges.now)) }
{
    for edge in edges {
        found.push(followed(alloc, way, *edge)?)?;
    }
    Ok(())
}

/// Adds the ways that are a reference longer than one.
fn add_onward<'a>(
    alloc: Global,
    edges: &[Edge<'a>],
    way: &Way<'a>,
    found: &mut Vec<Way<'a>>,
) -> Result<(), AllocError>
    ensures { OnOk result (ways_view found.new.items
        ≡ ways_view found.old.items ++ spec.onward (edges_view edges.now) (way_view way.now)) }
{
    let mut next = edges_from(alloc, way.tip, edges)?;
    next.truncate(WIDTH);
    add_followed(alloc, way, &next, found)
}

fn all_onward<'a>(
    alloc: Global,
    edges: &[Edge<'a>],
    ways: &[Way<'a>],
) -> Result<Vec<Way<'a>>, AllocError>
    ensures { IfOk result (λ found. ways_view found.items
        ≡ flat_map (spec.onward (edges_view edges.now)) (ways_view ways.now)) }
{
    let mut found = Vec::new(alloc);
    for way in ways {
        add_onward(alloc, edges, way, &mut found)?;
    }
    Ok(found)
}

/// The ways that are a reference longer than some.
fn longer<'a>(
    alloc: Global,
    edges: &[Edge<'a>],
    ways: &[Way<'a>],
) -> Result<Vec<Way<'a>>, AllocError>
    ensures { IfOk result (λ found. ways_view found.items
        ≡ spec.longer (edges_view edges.now) (ways_view ways.now)) }
{
    let mut found = all_onward(alloc, edges, ways)?;
    found.truncate(WIDTH);
    Ok(found)
}

fn add_if_in<'a>(line: u32, edge: Edge<'a>, found: &mut Vec<Edge<'a>>) -> Result<(), AllocError>
    ensures { OnOk result (edges_view found.new.items
        ≡ edges_view found.old.items ++ spec.if_in line (edge_view edge.entry)) }
{
    if edge.line == line {
        found.push(edge)?;
    }
    Ok(())
}

fn edges_in<'a>(alloc: Global, line: u32, edges: &[Edge<'a>]) -> Result<Vec<Edge<'a>>, AllocError>
    ensures { IfOk result (λ found. edges_view found.items
        ≡ flat_map (spec.if_in line) (edges_view edges.now)) }
{
    let mut found = Vec::new(alloc);
    for edge in edges {
        add_if_in(line, *edge, &mut found)?;
    }
    Ok(found)
}

fn all_begun<'a>(alloc: Global, edges: &[Edge<'a>]) -> Result<Vec<Way<'a>>, AllocError>
    ensures { IfOk result (λ found. ways_view found.items ≡ map spec.begun (edges_view edges.now)) }
{
    let mut found = Vec::new(alloc);
    for edge in edges {
        found.push(begun(alloc, *edge)?)?;
    }
    Ok(found)
}

/// The ways that begin in a line.
fn begun_in<'a>(alloc: Global, line: u32, edges: &[Edge<'a>]) -> Result<Vec<Way<'a>>, AllocError>
    ensures { IfOk result (λ found. ways_view found.items ≡ spec.begun_in line (edges_view edges.now)) }
{
    let mut first = edges_in(alloc, line, edges)?;
    first.truncate(WIDTH);
    all_begun(alloc, &first)
}

fn refers(kind: Kind) -> &'static str
    ensures { result.now ≡ spec.refers (kind_view kind) }
{
    match kind {
        Kind::Modules => " imports ",
        Kind::Typedefs => " names ",
        Kind::Groupings => " uses ",
        Kind::Identities => " is based on ",
        Kind::Features => " asks for ",
    }
}

fn step_text(alloc: Global, kind: Kind, edge: Edge<'_>) -> Result<String, AllocError>
    ensures { IfOk result (λ text. string_bytes text ≡ spec.step_text (kind_view kind) (edge_view edge.entry)) }
{
    let seen = shown(alloc, edge.target.as_bytes())?;
    let mut digits = Buffer::new();
    [
        refers(kind),
        seen.as_str(),
        " (line ",
        digits.format(edge.line),
        ")",
    ]
    .concat(alloc)
}

fn add_step(alloc: Global, kind: Kind, edge: Edge<'_>, said: &mut String) -> Result<(), AllocError>
    ensures { OnOk result (string_bytes said.new
        ≡ string_bytes said.old ++ spec.further_text (kind_view kind) (edge_view edge.entry)) }
{
    let step = step_text(alloc, kind, edge)?;
    said.push_str(", which")?;
    said.push_str(step.as_str())?;
    Ok(())
}

fn more_text(alloc: Global, kind: Kind, edges: &[Edge<'_>]) -> Result<String, AllocError>
    ensures { IfOk result (λ text. string_bytes text ≡ spec.more_text (kind_view kind) (edges_view edges.now)) }
{
    let mut said = String::new(alloc);
    for edge in edges {
        add_step(alloc, kind, *edge, &mut said)?;
    }
    Ok(said)
}

fn steps_text(alloc: Global, kind: Kind, edges: &[Edge<'_>]) -> Result<String, AllocError>
    ensures { IfOk result (λ text. string_bytes text ≡ spec.steps_text (kind_view kind) (edges_view edges.now)) }
{
    let Some((first, others)) = edges.split_first() else {
        return Ok(String::new(alloc));
    };
    let step = step_text(alloc, kind, *first)?;
    let more = more_text(alloc, kind, others)?;
    [step.as_str(), more.as_str()].concat(alloc)
}

fn way_text(alloc: Global, kind: Kind, way: &Way<'_>) -> Result<String, AllocError>
    ensures { IfOk result (λ text. string_bytes text ≡ spec.way_text (kind_view kind) (way_view way.now)) }
{
    let seen = shown(alloc, way.start.as_bytes())?;
    let steps = steps_text(alloc, kind, &way.steps)?;
    [defining(kind), " ", seen.as_str(), steps.as_str(), "."].concat(alloc)
}

/// What is said of the first of some ways that leads back to where it begins.
fn of_ways(alloc: Global, kind: Kind, ways: &[Way<'_>]) -> Result<Option<String>, AllocError>
    ensures { IfOk result (λ text. option_map string_bytes text ≡ spec.of_ways (kind_view kind) (ways_view ways.now)) }
{
    for way in ways {
        if way.tip == way.start {
            return Ok(Some(way_text(alloc, kind, way)?));
        }
    }
    Ok(None)
}

fn of_two(
    alloc: Global,
    kind: Kind,
    edges: &[Edge<'_>],
    ways: &[Way<'_>],
) -> Result<Option<String>, AllocError>
    ensures { IfOk result (λ text. option_map string_bytes text
        ≡ spec.of_two (kind_view kind) (edges_view edges.now) (ways_view ways.now)) }
{
    match of_ways(alloc, kind, ways)? {
        Some(said) => Ok(Some(said)),
        None => of_ways(alloc, kind, &longer(alloc, edges, ways)?),
    }
}

fn of_three(
    alloc: Global,
    kind: Kind,
    edges: &[Edge<'_>],
    ways: &[Way<'_>],
) -> Result<Option<String>, AllocError>
    ensures { IfOk result (λ text. option_map string_bytes text
        ≡ spec.of_three (kind_view kind) (edges_view edges.now) (ways_view ways.now)) }
{
    match of_ways(alloc, kind, ways)? {
        Some(said) => Ok(Some(said)),
        None => of_two(alloc, kind, edges, &longer(alloc, edges, ways)?),
    }
}

/// The same of those that lead on from them, up to four references.
fn of_four(
    alloc: Global,
    kind: Kind,
    edges: &[Edge<'_>],
    ways: &[Way<'_>],
) -> Result<Option<String>, AllocError>
    ensures { IfOk result (λ text. option_map string_bytes text
        ≡ spec.of_four (kind_view kind) (edges_view edges.now) (ways_view ways.now)) }
{
    match of_ways(alloc, kind, ways)? {
        Some(said) => Ok(Some(said)),
        None => of_three(alloc, kind, edges, &longer(alloc, edges, ways)?),
    }
}

/// What is said of the references of a line, among others.
pub(crate) fn of_edges(
    alloc: Global,
    kind: Kind,
    line: u32,
    own: &[Edge<'_>],
    edges: &[Edge<'_>],
) -> Result<Option<String>, AllocError>
    ensures { IfOk result (λ text. option_map string_bytes text
        ≡ spec.of_edges (kind_view kind) line (edges_view own.now) (edges_view edges.now)) }
{
    let ways = begun_in(alloc, line, own)?;
    of_four(alloc, kind, edges, &ways)
}
