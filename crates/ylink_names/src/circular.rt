//! Where typedefs, groupings or identities refer to themselves (RFC 7950, 7.3, 7.12 and 7.18.2).

ghost use Rattle.std.specs.Prelude.{◌≡◌, ℕ, Bool, false, IfOk, map};
ghost use Rattle.std.specs.List.{filter_map};
ghost use Rattle.std.specs.Option.{option_map_or};
ghost use Rattle.yspec.specs.schema.Breaks.{least_from};
ghost use Rattle.yspec.specs.linking.Circles.{definition_circles};
ghost use Rattle.yspec.specs.linking.Scopes.{Placed, statements_of};
ghost use Rattle.ybase_graph.specs.declared.circles.Edge.{Edge};
ghost use Rattle.ylink_grammar.specs.BreakView.{seen};
ghost use Rattle.ylink_grammar.specs.LinkView.{view};
ghost use Rattle.ylink_grammar.specs.SourceView.{source_view};
ghost use Rattle.ylink_names.specs.EdgeView.{flag_at, circle_by, circles_by};
ghost use Rattle.ylink_names.specs.MeaningView.{AreMeanings};
ghost use Rattle.ylink_names.specs.ReferringView.{AreReferring};

use crate::definitions::has_any_definition;
use crate::references::{edges_by_number, present};
use std::alloc::{AllocError, Global};
use ybase_graph::{Edge, on_circles};
use ylink_grammar::{BrokenRule, CompileCode, Source, Sources, broken, least};

/// What some flags say of the statement of a number.
fn flag_at(circular: &[bool], number: usize) -> bool
    ensures { result ≡ flag_at circular.now number }
{
    match circular.get(number) {
        Some(flag) => *flag,
        None => false,
    }
}

/// Of each statement, by its number, what is said of its edge, given that of the edges that there are.
pub(crate) fn flags_by_number(
    alloc: Global,
    edges: &[Option<Edge>],
    flags: &[bool],
) -> Result<Vec<bool>, AllocError>
    ensures { (test : Edge → Bool) → flags.now ≡ map test (filter_map (λ e. e) edges.now)
        → IfOk result (λ made. made.items ≡ map (λ e. option_map_or test e false) edges.now) }
{
    let mut made = Vec::new(alloc);
    let mut left = flags;
    for edge in edges {
        if edge.is_none() {
            made.push(false)?;
            continue;
        }
        // There is a flag for each edge.
        let Some((flag, others)) = left.split_first() else {
            break;
        };
        made.push(*flag)?;
        left = others;
    }
    Ok(made)
}

/// The lesser of one so far and of the rule that a statement breaks which lies on a circle.
fn judge_circle(
    statement: &Source<'_>,
    is_circular: bool,
    so_far: Option<BrokenRule>,
) -> Option<BrokenRule>
    ensures { (number : ℕ) → seen result ≡ least_from (seen so_far)
        (circle_by (source_view number statement.now) is_circular) }
{
    if is_circular {
        least(
            so_far,
            broken(CompileCode::C9, statement.home, statement.statement),
        )
    } else {
        so_far
    }
}

/// The lesser of one so far and of the statements that lie on circles, by module and line.
pub(crate) fn least_circle(
    sources: &Sources<'_>,
    circular: &[bool],
    so_far: Option<BrokenRule>,
) -> Option<BrokenRule>
    ensures { (flag : Placed → Bool) → circular.now ≡ map flag (statements_of (view sources.now))
        → seen result ≡ least_from (seen so_far) (circles_by flag (view sources.now)) }
{
    let mut told = so_far;
    for (number, row) in sources.slots().iter().enumerate() {
        told = judge_circle(&row.label, flag_at(circular, number), told);
    }
    told
}

/// The lesser of one so far and of the references by which a typedef, a grouping or an identity refers to itself, given the
/// innermost definition around each statement and what each means.
pub fn broken_circle_rule(
    alloc: Global,
    sources: &Sources<'_>,
    holders: &[Option<u32>],
    meanings: &[Option<u32>],
    so_far: Option<BrokenRule>,
) -> Result<Option<BrokenRule>, AllocError>
    ensures { AreReferring holders.now (view sources.now)
        → AreMeanings meanings.now (view sources.now) → IfOk result (λ told. seen told
        ≡ least_from (seen so_far) (definition_circles (view sources.now))) }
{
    if !has_any_definition(sources) {
        return Ok(so_far);
    }
    let edges = edges_by_number(alloc, holders, meanings)?;
    let found = present(alloc, &edges)?;
    let flags = on_circles(alloc, &found)?;
    let circular = flags_by_number(alloc, &edges, &flags)?;
    Ok(least_circle(sources, &circular, so_far))
}
