//! Conditions that name no feature, or that lead from a feature back to it (RFC 7950, 7.20.1 and 7.20.2).

ghost use Rattle.std.specs.Prelude.{◌≡◌, Bool, IfOk, drop, length, map, take};
ghost use Rattle.std.specs.List.{flat_map, list_any};
ghost use Rattle.yspec.specs.linking.Graph as graph;
ghost use Rattle.yspec.specs.schema.Breaks.{least_from};
ghost use Rattle.yspec_wide.specs.Features as spec;
ghost use Rattle.ybase_graph.specs.Edges.{AreWithin, edge_view};
ghost use Rattle.ybase_preorder.specs.View.{slots_in};
ghost use Rattle.ylink_grammar.specs.BreakView.{seen};
ghost use Rattle.ylink_grammar.specs.LanguageView.{language_view};
ghost use Rattle.ylink_grammar.specs.LinkView.{view};
ghost use Rattle.ylink_names.specs.PrefixView.{IsOf};
ghost use Rattle.ylink_features.specs.AskedView.{asked_view, edges_in, lost_break};
ghost use Rattle.ylink_features.specs.FeatureView.{AreFeaturesOf};
ghost use Rattle.ylink_features.specs.VersionView.{AreVersionsOf};

use crate::asked::{Asked, Meaning, conditions_of};
use crate::features::Features;
use crate::versions::Versions;
use std::alloc::{AllocError, Global};
use ybase_graph::{Edge, on_circles};
use ylink_grammar::{BrokenRule, CompileCode, Language, Sources, least_when};
use ylink_names::Prefixes;

/// The lesser of one so far and a condition, where it is lost or an edge of it lies on a circle.
fn least_lost(
    condition: &Asked,
    is_circular: bool,
    so_far: Option<BrokenRule>,
) -> Option<BrokenRule>
    ensures { (circular : graph.Edge → Bool)
        → is_circular ≡ list_any circular (asked_view condition.now).edges
        → seen result ≡ least_from (seen so_far)
        (lost_break circular (asked_view condition.now)) }
{
    let rule = BrokenRule {
        module: condition.module,
        line: condition.line,
        code: CompileCode::C22,
    };
    least_when(condition.is_lost || is_circular, so_far, rule)
}

/// The edges of all of some conditions.
fn all_edges(alloc: Global, conditions: &[Asked]) -> Result<Vec<Edge>, AllocError>
    ensures { IfOk result (λ made. made.items ≡ flat_map (λ c. c.edges.items) conditions.now) }
{
    let mut made = Vec::new(alloc);
    for condition in conditions {
        made.extend_from_slice(&condition.edges)?;
    }
    Ok(made)
}

/// Whether one of some flags is up.
fn has_flag(flags: &[bool]) -> bool
    ensures { result ≡ list_any (λ flag. flag) flags.now }
{
    flags.iter().any(|flag| *flag)
}

/// Whether one of the first of some flags is up, and the flags behind those.
fn first_flags(flags: &[bool], count: usize) -> (bool, &[bool])
    ensures first { result.0 ≡ list_any (λ flag. flag) (take count flags.entry.now) }
    ensures others { result.1.now ≡ drop count flags.entry.now }
{
    let (own, others) = flags.split_at(count.min(flags.len()));
    (has_flag(own), others)
}

/// The lesser of one so far and of some conditions, given what is said of all their edges.
fn least_of(conditions: &[Asked], flags: &[bool], so_far: Option<BrokenRule>) -> Option<BrokenRule>
    ensures { (circular : graph.Edge → Bool)
        → flags.now ≡ map circular (edges_in conditions.now)
        → seen result ≡ least_from (seen so_far)
        (flat_map (lost_break circular) (map asked_view conditions.now)) }
{
    let mut told = so_far;
    let mut left = flags;
    for condition in conditions {
        let (is_circular, others) = first_flags(left, condition.edges.len());
        told = least_lost(condition, is_circular, told);
        left = others;
    }
    told
}

/// Of each edge of some conditions whether it lies on a circle of them.
fn circular_flags(alloc: Global, conditions: &[Asked]) -> Result<Vec<bool>, AllocError>
    ensures { IfOk result (λ flags. flags.items
        ≡ map (graph.is_on_circle (edges_in conditions.now)) (edges_in conditions.now)) }
{
    let edges = all_edges(alloc, conditions)?;
    on_circles(alloc, &edges)
}

/// The edges from each feature of a set to those that its conditions name, in the order of its conditions, given what prefixes
/// stand for, the versions of the modules and their features.
pub fn feature_edges<'a, 't>(
    alloc: Global,
    language: &'a Language,
    sources: &Sources<'_>,
    prefixes: &'a Prefixes<'t>,
    versions: &'a Versions,
    features: &'a Features<'t>,
) -> Result<Vec<Edge>, AllocError>
    requires prefixes { IsOf prefixes.now (view sources.now) }
    requires versions { AreVersionsOf versions.now (language_view language.now) (view sources.now) }
    requires features { AreFeaturesOf features.now (language_view language.now) (view sources.now) }
    ensures edges { IfOk result (λ edges. map edge_view edges.items
        ≡ spec.feature_edges (language_view language.now) (view sources.now)) }
    ensures within { IfOk result (λ edges.
        AreWithin (length (slots_in sources.now.table)) edges.items) }
{
    let meaning = Meaning {
        language,
        prefixes,
        versions,
        features,
    };
    let conditions = conditions_of(alloc, &meaning, sources)?;
    all_edges(alloc, &conditions)
}

/// The lesser of one so far and of the conditions that name no feature or lead from a feature back to it, by module and line,
/// given what prefixes stand for, the versions of the modules and their features.
pub fn broken_condition_rule<'a, 't>(
    alloc: Global,
    language: &'a Language,
    sources: &Sources<'_>,
    prefixes: &'a Prefixes<'t>,
    versions: &'a Versions,
    features: &'a Features<'t>,
    so_far: Option<BrokenRule>,
) -> Result<Option<BrokenRule>, AllocError>
    requires prefixes { IsOf prefixes.now (view sources.now) }
    requires versions { AreVersionsOf versions.now (language_view language.now) (view sources.now) }
    requires features { AreFeaturesOf features.now (language_view language.now) (view sources.now) }
    ensures { IfOk result (λ told. seen told ≡ least_from (seen so_far)
        (spec.condition_breaks (language_view language.now) (view sources.now))) }
{
    let meaning = Meaning {
        language,
        prefixes,
        versions,
        features,
    };
    let conditions = conditions_of(alloc, &meaning, sources)?;
    let flags = circular_flags(alloc, &conditions)?;
    Ok(least_of(&conditions, &flags, so_far))
}
