//! What the conditions of a set ask, with the features that they name by their numbers (RFC 7950, 7.20.2).

ghost use Rattle.std.specs.Prelude.{◌≡◌, ℕ, None, IfOk};
ghost use Rattle.yspec.specs.Forest.{Forest};
ghost use Rattle.yspec.specs.linking.Source as spec_source;
ghost use Rattle.yspec_wide.specs.Expressions as spec;
ghost use Rattle.yspec_wide.specs.Language as languages;
ghost use Rattle.ytext.specs.View as text;
ghost use Rattle.ylink_conditions.specs.View.{expression_view, version_view};
ghost use Rattle.ylink_grammar.specs.LanguageView.{language_view};
ghost use Rattle.ylink_grammar.specs.LinkView.{view};
ghost use Rattle.ylink_grammar.specs.NamedType.{argument_text};
ghost use Rattle.ylink_grammar.specs.SourceView.{source_view};
ghost use Rattle.ylink_names.specs.PrefixView.{IsOf};
ghost use Rattle.ylink_features.specs.FeatureView.{AreFeaturesOf};
ghost use Rattle.ylink_features.specs.VersionView.{AreVersionsOf};
ghost use Rattle.ylink_standing.specs.AskingView.{both_asked, condition_view, not_asked, number_meant, one_asked, resolved, resolved_or, AreMeant, IsAsked};
ghost use Rattle.ylink_standing.specs.StandingView.{AreAsked};

use crate::condition::Condition;
use std::alloc::{AllocError, Global};
use ylink_conditions::{Expression, YangVersion, expression_of};
use ylink_features::{Features, Versions};
use ylink_grammar::{Language, Source, Sources, is_condition};
use ylink_names::Prefixes;

fn negated(alloc: Global, condition: Condition) -> Result<Condition, AllocError>
    ensures { IfOk result (λ c. condition_view c ≡ not_asked (condition_view condition)) }
{
    Ok(Condition::Not(Box::new(alloc, condition)?))
}

fn both(alloc: Global, first: Condition, second: Condition) -> Result<Condition, AllocError>
    ensures { IfOk result
        (λ c. condition_view c ≡ both_asked (condition_view first) (condition_view second)) }
{
    let first = Box::new(alloc, first)?;
    let second = Box::new(alloc, second)?;
    Ok(Condition::Both(first, second))
}

fn either(alloc: Global, first: Condition, second: Condition) -> Result<Condition, AllocError>
    ensures { IfOk result
        (λ c. condition_view c ≡ one_asked (condition_view first) (condition_view second)) }
{
    let first = Box::new(alloc, first)?;
    let second = Box::new(alloc, second)?;
    Ok(Condition::OneOf(first, second))
}

/// What an expression asks in a module.
fn resolved(
    alloc: Global,
    prefixes: &Prefixes<'_>,
    features: &Features<'_>,
    home: usize,
    expression: &Expression<'_>,
) -> Result<Condition, AllocError>
    ensures { (language : languages.Language) (modules : Forest spec_source.Source)
        → AreMeant prefixes.now features.now language modules
        → IfOk result (λ c. condition_view c
        ≡ resolved (number_meant language modules home) (expression_view expression.now)) }
{
    match expression {
        Expression::Feature(name) => Ok(Condition::On(features.named(prefixes, home, name))),
        Expression::Not(inner) => {
            let condition = resolved(alloc, prefixes, features, home, &**inner)?;
            negated(alloc, condition)
        }
        Expression::Both(first, second) => {
            let left = resolved(alloc, prefixes, features, home, &**first)?;
            let right = resolved(alloc, prefixes, features, home, &**second)?;
            both(alloc, left, right)
        }
        Expression::OneOf(first, second) => {
            let one = resolved(alloc, prefixes, features, home, &**first)?;
            let other = resolved(alloc, prefixes, features, home, &**second)?;
            either(alloc, one, other)
        }
    }
}

/// What an `if-feature` of a module of a version asks; nothing that holds where it spells no expression.
fn asked_in(
    alloc: Global,
    prefixes: &Prefixes<'_>,
    features: &Features<'_>,
    version: YangVersion,
    condition: &Source<'_>,
) -> Result<Condition, AllocError>
    ensures { (language : languages.Language) (modules : Forest spec_source.Source)
        → AreMeant prefixes.now features.now language modules
        → IfOk result (λ c. condition_view c
        ≡ resolved_or (number_meant language modules condition.now.home)
        (spec.expression_of (version_view version) (argument_text (text.view condition.now.statement.now).0))) }
{
    let spelled = expression_of(alloc, version, condition.argument())?;
    match spelled {
        Some(expression) => resolved(alloc, prefixes, features, condition.home, &expression),
        None => Ok(Condition::On(None)),
    }
}

/// What a statement asks, where it is an `if-feature`.
fn asked_by(
    alloc: Global,
    language: &Language,
    prefixes: &Prefixes<'_>,
    features: &Features<'_>,
    versions: &Versions,
    statement: &Source<'_>,
) -> Result<Option<Condition>, AllocError>
    ensures { (modules : Forest spec_source.Source)
        → AreMeant prefixes.now features.now (language_view language.now) modules
        → AreVersionsOf versions.now (language_view language.now) modules
        → IfOk result (λ asked. (number : ℕ)
        → IsAsked asked (language_view language.now) modules (source_view number statement.now)) }
{
    if !is_condition(language, statement) {
        return Ok(None);
    }
    let version = versions.version_of(statement.home);
    let asked = asked_in(alloc, prefixes, features, version, statement)?;
    Ok(Some(asked))
}

/// What each `if-feature` of a set asks, by the number of its statement, given what names and prefixes mean and the versions of
/// the modules (RFC 7950, 7.20.2).
pub(crate) fn conditions_of(
    alloc: Global,
    language: &Language,
    sources: &Sources<'_>,
    prefixes: &Prefixes<'_>,
    features: &Features<'_>,
    versions: &Versions,
) -> Result<Vec<Option<Condition>>, AllocError>
    requires prefixes { IsOf prefixes.now (view sources.now) }
    requires features { AreFeaturesOf features.now (language_view language.now) (view sources.now) }
    requires versions { AreVersionsOf versions.now (language_view language.now) (view sources.now) }
    ensures { IfOk result (λ conditions.
        AreAsked conditions.items (language_view language.now) (view sources.now)) }
{
    let mut conditions = Vec::new(alloc);
    for row in sources.slots() {
        let asked = asked_by(alloc, language, prefixes, features, versions, &row.label)?;
        conditions.push(asked)?;
    }
    Ok(conditions)
}
