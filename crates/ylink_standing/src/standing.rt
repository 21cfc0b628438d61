//! Which features are on, told in an order in which each stands behind those that its conditions name (RFC 7950, 7.20.1 and
//! 7.20.2).

ghost use Rattle.std.specs.Prelude.{◌≡◌, ◌&&◌, false, IfOk, option_map, slice_set};
ghost use Rattle.std.specs.Option.{option_map_or};
ghost use Rattle.yspec.specs.linking.Scopes.{statement_at};
ghost use Rattle.yspec_wide.specs.Language as languages;
ghost use Rattle.ybase_preorder.specs.View.{row_by};
ghost use Rattle.ylink_grammar.specs.LinkView.{view};
ghost use Rattle.ylink_grammar.specs.SourceView.{source_view};
ghost use Rattle.ylink_standing.specs.ConditionView.{all_asked, holds_at, is_in};
ghost use Rattle.ylink_standing.specs.StandingView.{AreKnown, TellsOn};

use crate::asking::conditions_of;
use crate::choosing::chosen_of;
use crate::condition::{Condition, is_on};
use std::alloc::{AllocError, Global};
use ybase_graph::{Edge, in_order};
use ybase_preorder::Siblings;
use ylink_features::{Features, Versions, feature_edges};
use ylink_grammar::{Language, Source, Sources};
use ylink_names::Prefixes;

/// Which features of a set are on (RFC 7950, 7.20.1).
#[derive(Drop)]
pub struct FeaturesOn {
    // Of each statement, by its number, whether it is a feature that is on.
    on: Vec<bool>,
    // What each `if-feature` asks, by its number.
    conditions: Vec<Option<Condition>>,
}

/// Whether what the statement of a number asks holds; one that is no condition asks nothing.
fn holds_at(conditions: &[Option<Condition>], on: &[bool], number: usize) -> bool
    ensures { result ≡ holds_at conditions.now (is_in on.now) number }
{
    match conditions.get(number) {
        Some(Some(condition)) => condition.holds(on),
        _ => true,
    }
}

/// Whether all does that the statements of a row ask.
fn all_hold(
    conditions: &[Option<Condition>],
    on: &[bool],
    statements: Siblings<'_, Source<'_>>,
) -> bool
    ensures { result ≡ all_asked conditions.now (is_in on.now) (row_by source_view statements.entry) }
{
    for statement in statements {
        if !holds_at(conditions, on, statement.number() as usize) {
            return false;
        }
    }
    true
}

/// The row below the statement of a number, where there is one.
fn row_of<'a, 't>(sources: &'a Sources<'t>, number: usize) -> Option<Siblings<'a, Source<'t>>>
    ensures { option_map (row_by source_view) result
        ≡ option_map (λ p. p.below) (statement_at (view sources.entry.now) number) }
{
    let slot = sources.slots().get(number)?;
    Some(sources.below(number as u32))
}

/// Whether a statement is a feature that is chosen, and all holds that the row below it asks.
fn is_on_with(
    conditions: &[Option<Condition>],
    chosen: &[bool],
    on: &[bool],
    number: usize,
    below: Siblings<'_, Source<'_>>,
) -> bool
    ensures { result ≡ (is_in chosen.now number
        && all_asked conditions.now (is_in on.now) (row_by source_view below.entry)) }
{
    is_on(chosen, number) && all_hold(conditions, on, below)
}

/// Whether the feature of a number is on, by what is told of those that its conditions name.
fn is_on_by(
    sources: &Sources<'_>,
    conditions: &[Option<Condition>],
    chosen: &[bool],
    on: &[bool],
    number: usize,
) -> bool
    ensures { result ≡ option_map_or (λ p. is_in chosen.now number
        && all_asked conditions.now (is_in on.now) p.below) (statement_at (view sources.now) number) false }
{
    match row_of(sources, number) {
        Some(below) => is_on_with(conditions, chosen, on, number, below),
        None => false,
    }
}

/// Puts what is told of a feature in its place.
fn put(on: &mut Vec<bool>, number: usize, told: bool)
    ensures { on.new.items ≡ slice_set on.old.items number told }
{
    if let Some(place) = on.get_mut(number) {
        *place = told;
    }
}

/// Which features are on, told in an order.
fn told_in_order(
    alloc: Global,
    sources: &Sources<'_>,
    conditions: &[Option<Condition>],
    chosen: &[bool],
    order: &[usize],
) -> Result<Vec<bool>, AllocError>
    ensures { (language : languages.Language)
        → AreKnown conditions.now chosen.now order.now language (view sources.now)
        → IfOk result (λ on. TellsOn language (view sources.now) (is_in on.items)) }
{
    let mut on = vec![in alloc; false; sources.slots().len()]?;
    for number in order {
        let told = is_on_by(sources, conditions, chosen, on.as_slice(), *number);
        put(&mut on, *number, told);
    }
    Ok(on)
}

impl FeaturesOn {
    ghost use Rattle.std.specs.Prelude.{◌≡◌, [], true, IfOk, length, map};
    ghost use Rattle.std.specs.List.{All, Contains, list_all};
    ghost use Rattle.yspec.specs.Forest.{Forest};
    ghost use Rattle.yspec.specs.linking.Scopes.{Placed, statements_of};
    ghost use Rattle.yspec.specs.linking.Source as spec_source;
    ghost use Rattle.yspec_wide.specs.Features as spec;
    ghost use Rattle.yspec_wide.specs.Language as languages;
    ghost use Rattle.ybase_graph.specs.Edges.{AreWithin, edge_view};
    ghost use Rattle.ybase_preorder.specs.View.{row_by, slots_in};
    ghost use Rattle.ylink_grammar.specs.LanguageView.{language_view};
    ghost use Rattle.ylink_grammar.specs.LinkView.{view};
    ghost use Rattle.ylink_grammar.specs.SourceView.{source_view};
    ghost use Rattle.ylink_names.specs.PrefixView.{IsOf as AreFor};
    ghost use Rattle.ylink_features.specs.FeatureView.{AreFeaturesOf};
    ghost use Rattle.ylink_features.specs.VersionView.{AreVersionsOf};
    ghost use Rattle.yspec_wide.specs.Sources.{is_feature};
    ghost use Rattle.ylink_standing.specs.StandingView.{AreAsked, AreChosen, IsOf, IsRowOf, feature_at, row_stands};

    /// The features of a set that are on in a language, given what prefixes stand for (RFC 7950, 7.20.1). Under the core there
    /// are none.
    pub fn of_set<'t>(
        alloc: Global,
        language: &Language,
        sources: &Sources<'t>,
        prefixes: &Prefixes<'t>,
    ) -> Result<FeaturesOn, AllocError>
        requires prefixes { AreFor prefixes.now (view sources.now) }
        ensures { spec.condition_breaks (language_view language.now) (view sources.now) ≡ []
            → IfOk result (λ features.
            IsOf features (language_view language.now) (view sources.now)) }
    {
        match language {
            Language::Core => Ok(FeaturesOn {
                on: Vec::new(alloc),
                conditions: Vec::new(alloc),
            }),
            Language::Rfc(_) => {
                let versions = Versions::of(alloc, language, sources)?;
                let features = Features::of(alloc, language, sources)?;
                FeaturesOn::of_features(alloc, language, sources, prefixes, &versions, &features)
            }
        }
    }

    /// The same, given the versions of the modules and their features too.
    fn of_features<'a, 't>(
        alloc: Global,
        language: &'a Language,
        sources: &Sources<'_>,
        prefixes: &'a Prefixes<'t>,
        versions: &'a Versions,
        features: &'a Features<'t>,
    ) -> Result<FeaturesOn, AllocError>
        requires prefixes { AreFor prefixes.now (view sources.now) }
        requires versions { AreVersionsOf versions.now (language_view language.now) (view sources.now) }
        requires features { AreFeaturesOf features.now (language_view language.now) (view sources.now) }
        ensures { spec.condition_breaks (language_view language.now) (view sources.now) ≡ []
            → IfOk result (λ features.
            IsOf features (language_view language.now) (view sources.now)) }
    {
        let conditions = conditions_of(alloc, language, sources, prefixes, features, versions)?;
        let chosen = chosen_of(alloc, language, sources)?;
        let edges = feature_edges(alloc, language, sources, prefixes, versions, features)?;
        FeaturesOn::of(
            alloc,
            sources,
            conditions,
            chosen.as_slice(),
            edges.as_slice(),
        )
    }

    /// The features of a set that are on, given what its conditions ask, which of its features are chosen, and the edges from
    /// each feature to those that its conditions name (RFC 7950, 7.20.1).
    pub(crate) fn of(
        alloc: Global,
        sources: &Sources<'_>,
        conditions: Vec<Option<Condition>>,
        chosen: &[bool],
        edges: &[Edge],
    ) -> Result<FeaturesOn, AllocError>
        requires { AreWithin (length (slots_in sources.now.table)) edges.now }
        ensures { (language : languages.Language)
            → AreAsked conditions.items language (view sources.now)
            → AreChosen chosen.now language (view sources.now)
            → map edge_view edges.now ≡ spec.feature_edges language (view sources.now)
            → spec.condition_breaks language (view sources.now) ≡ []
            → IfOk result (λ features. IsOf features language (view sources.now)) }
    {
        let order = in_order(alloc, sources.slots().len(), edges)?;
        let on = told_in_order(
            alloc,
            sources,
            conditions.as_slice(),
            chosen,
            order.as_slice(),
        )?;
        Ok(FeaturesOn { on, conditions })
    }

    /// Whether the `feature` statement of a number is on (RFC 7950, 7.20.1).
    pub fn is_on(&self, number: u32) -> bool
        ensures { (language : languages.Language) (modules : Forest spec_source.Source)
            → IsOf self.now language modules → (p : Placed) → Contains (statements_of modules) p
            → is_feature language p.source ≡ true → p.source.number ≡ number
            → result ≡ spec.is_on language modules (feature_at p) }
    {
        is_on(self.on.as_slice(), number as usize)
    }

    /// Whether a statement stands, by the row below it (RFC 7950, 7.20.2).
    pub fn stands(&self, below: Siblings<'_, Source<'_>>) -> bool
        ensures asked { result ≡ row_stands self.now (row_by source_view below.entry) }
        ensures stands { (language : languages.Language) (modules : Forest spec_source.Source)
            → IsOf self.now language modules → IsRowOf modules (row_by source_view below.entry)
            → result ≡ spec.stands language modules (row_by source_view below.entry) }
    {
        all_hold(self.conditions.as_slice(), self.on.as_slice(), below)
    }

    /// Whether a statement stands by several rows: the one below it, and those that others add to it (RFC 7950, 7.13, 7.17 and
    /// 7.20.2).
    pub fn stands_by(&self, rows: &[Siblings<'_, Source<'_>>]) -> bool
        ensures { (language : languages.Language) (modules : Forest spec_source.Source)
            → IsOf self.now language modules
            → All (λ r. IsRowOf modules (row_by source_view r)) rows.now
            → result ≡ list_all (λ r. spec.stands language modules (row_by source_view r)) rows.now }
    {
        for row in rows {
            if !self.stands(*row) {
                return false;
            }
        }
        true
    }
}
