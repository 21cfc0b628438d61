//! Which features conditions name, and from which they lead (RFC 7950, 7.20.1 and 7.20.2).

ghost use Rattle.std.specs.Prelude.{◌≡◌, ◌++◌, ℕ, List, IfOk, OnOk, Some, None, map, option_map, if◌then◌else◌};
ghost use Rattle.std.specs.List.{flat_map};
ghost use Rattle.yspec.specs.Forest.{Forest};
ghost use Rattle.yspec.specs.linking.Scopes.{placed, statements_of};
ghost use Rattle.yspec.specs.linking.Source as sources;
ghost use Rattle.yspec_wide.specs.Language as languages;
ghost use Rattle.yspec_wide.specs.Sources as spec;
ghost use Rattle.ybase_graph.specs.Edges.{edge_view};
ghost use Rattle.ybase_preorder.specs.View.{row_by, label_by};
ghost use Rattle.ylink_arguments.specs.NameView.{names_view};
ghost use Rattle.ylink_grammar.specs.LanguageView.{language_view};
ghost use Rattle.ylink_grammar.specs.LinkView.{view as modules_view};
ghost use Rattle.ylink_grammar.specs.SourceView.{source_view};
ghost use Rattle.ylink_names.specs.PrefixView.{IsOf};
ghost use Rattle.ylink_features.specs.FeatureView.{AreFeaturesOf};
ghost use Rattle.ylink_features.specs.AskedView as view;

use crate::condition::names_asked;
use crate::features::Features;
use crate::versions::Versions;
use std::alloc::{AllocError, Global};
use ybase_graph::Edge;
use ybase_preorder::{Node, Siblings};
use ylink_arguments::Name;
use ylink_grammar::{Language, Source, Sources, is_condition, is_feature};
use ylink_names::Prefixes;

/// By what names in conditions are understood.
#[derive(Drop)]
pub struct Meaning<'a, 't> {
    pub language: &'a Language,
    pub prefixes: &'a Prefixes<'t>,
    pub versions: &'a Versions,
    pub features: &'a Features<'t>,
}

/// A condition of a set of modules.
#[derive(Drop)]
pub struct Asked {
    /// The number of its module in the set.
    pub module: usize,
    pub line: u32,
    /// Whether a name in it means no feature.
    pub is_lost: bool,
    /// From the feature that bears it to those that it names.
    pub edges: Vec<Edge>,
}

/// The numbers of the features that some names mean in a module; none where one of them means none.
fn all_named(
    alloc: Global,
    features: &Features<'_>,
    prefixes: &Prefixes<'_>,
    home: usize,
    names: &[Name<'_>],
) -> Result<Option<Vec<u32>>, AllocError>
    ensures { IfOk result (λ found. (language : languages.Language) (modules : Forest sources.Source)
        → IsOf prefixes.now modules → AreFeaturesOf features.now language modules
        → option_map (λ numbers. numbers.items) found
        ≡ view.all_named language modules home (names_view names.now)) }
{
    let mut numbers = Vec::new(alloc);
    for name in names {
        match features.named(prefixes, home, name) {
            Some(number) => numbers.push(number)?,
            None => return Ok(None),
        }
    }
    Ok(Some(numbers))
}

/// The edges from a feature to others.
fn edges_from(alloc: Global, source: u32, targets: &[u32]) -> Result<Vec<Edge>, AllocError>
    ensures { IfOk result (λ made. map edge_view made.items
        ≡ view.edges_to (Some source) targets.now) }
{
    let mut made = Vec::new(alloc);
    for target in targets {
        made.push(Edge {
            source,
            target: *target,
        })?;
    }
    Ok(made)
}

/// The same from the feature right above a condition, where there is one.
fn edges_to(alloc: Global, above: Option<u32>, targets: &[u32]) -> Result<Vec<Edge>, AllocError>
    ensures { IfOk result (λ made. map edge_view made.items ≡ view.edges_to above targets.now) }
{
    match above {
        Some(source) => edges_from(alloc, source, targets),
        None => Ok(Vec::new(alloc)),
    }
}

/// A condition by the feature right above it and those that it names; none where a name in it means none.
fn asked_as(
    alloc: Global,
    statement: &Source<'_>,
    above: Option<u32>,
    named: Option<Vec<u32>>,
) -> Result<Asked, AllocError>
    ensures { IfOk result (λ made. (number : ℕ) → view.asked_view made
        ≡ view.asked_as (source_view number statement.now) above
        (option_map (λ numbers. numbers.items) named)) }
{
    let module = statement.home;
    let line = statement.statement.line();
    match named {
        Some(targets) => {
            let edges = edges_to(alloc, above, &targets)?;
            Ok(Asked {
                module,
                line,
                is_lost: false,
                edges,
            })
        }
        None => Ok(Asked {
            module,
            line,
            is_lost: true,
            edges: Vec::new(alloc),
        }),
    }
}

/// What a condition asks, given the feature right above it.
fn asked_by(
    alloc: Global,
    meaning: &Meaning<'_, '_>,
    above: Option<u32>,
    statement: &Source<'_>,
) -> Result<Asked, AllocError>
    ensures { IfOk result (λ made. (modules : Forest sources.Source) (number : ℕ)
        → view.IsMeaning meaning.now modules → view.asked_view made
        ≡ view.asked (language_view meaning.now.language.now) modules above
        (source_view number statement.now)) }
{
    let home = statement.home;
    let names = names_asked(alloc, meaning.versions.version_of(home), statement)?;
    let named = all_named(alloc, meaning.features, meaning.prefixes, home, &names)?;
    asked_as(alloc, statement, above, named)
}

/// Adds what a statement asks, where it is a condition, behind those so far.
fn add_one(
    alloc: Global,
    meaning: &Meaning<'_, '_>,
    above: Option<u32>,
    statement: &Source<'_>,
    made: &mut Vec<Asked>,
) -> Result<(), AllocError>
    ensures { OnOk result ((modules : Forest sources.Source) (number : ℕ)
        → view.IsMeaning meaning.now modules → map view.asked_view made.new.items
        ≡ map view.asked_view made.old.items
        ++ view.asked_by (language_view meaning.now.language.now) modules above
        (source_view number statement.now)) }
{
    if !is_condition(meaning.language, statement) {
        return Ok(());
    }
    let asked = asked_by(alloc, meaning, above, statement)?;
    made.push(asked)?;
    Ok(())
}

/// The number of a statement, where it is a feature.
fn feature_number(language: &Language, statement: Node<'_, Source<'_>>) -> Option<u32>
    ensures { result ≡ if spec.is_feature (language_view language.now)
        (label_by source_view statement.entry) then Some statement.entry.number else None }
{
    if is_feature(language, statement.label()) {
        Some(statement.number())
    } else {
        None
    }
}

/// Adds what the conditions of a row ask, and those below it, given the feature right above the row.
fn add_asked(
    alloc: Global,
    meaning: &Meaning<'_, '_>,
    above: Option<u32>,
    statements: Siblings<'_, Source<'_>>,
    made: &mut Vec<Asked>,
) -> Result<(), AllocError>
    ensures { (modules : Forest sources.Source) (ancestors : List _)
        → view.IsMeaning meaning.now modules
        → above ≡ view.above_in (language_view meaning.now.language.now) ancestors
        → OnOk result (map view.asked_view made.new.items ≡ map view.asked_view made.old.items
        ++ flat_map (view.asked_of (language_view meaning.now.language.now) modules)
        (placed ancestors (row_by source_view statements.entry))) }
{
    for statement in statements {
        add_one(alloc, meaning, above, statement.label(), made)?;
        let inner = feature_number(meaning.language, statement);
        add_asked(alloc, meaning, inner, statement.children(), made)?;
    }
    Ok(())
}

/// What the conditions of a set ask, in their order.
pub(crate) fn conditions_of(
    alloc: Global,
    meaning: &Meaning<'_, '_>,
    sources: &Sources<'_>,
) -> Result<Vec<Asked>, AllocError>
    requires { view.IsMeaning meaning.now (modules_view sources.now) }
    ensures { IfOk result (λ made. map view.asked_view made.items
        ≡ flat_map (view.asked_of (language_view meaning.now.language.now) (modules_view sources.now))
        (statements_of (modules_view sources.now))) }
{
    let mut made = Vec::new(alloc);
    add_asked(alloc, meaning, None, sources.modules(), &mut made)?;
    Ok(made)
}
