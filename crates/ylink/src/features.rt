//! What features and their conditions break, in a language that has them (RFC 7950, 7.20.1 and 7.20.2).

ghost use Rattle.std.specs.Prelude.{◌≡◌, ◌++◌, IfOk};
ghost use Rattle.yspec.specs.schema.Breaks.{least_from};
ghost use Rattle.yspec_wide.specs.Features as spec;
ghost use Rattle.ylink_grammar.specs.BreakView.{seen};
ghost use Rattle.ylink_grammar.specs.LanguageView.{language_view};
ghost use Rattle.ylink_grammar.specs.LinkView.{view};
ghost use Rattle.ylink_names.specs.PrefixView.{IsOf};
ghost use Rattle.ylink_features.specs.VersionView.{AreVersionsOf};

use std::alloc::{AllocError, Global};
use ylink_features::{
    Features, Versions, broken_condition_prefix_rule, broken_condition_rule,
    broken_taken_feature_rule,
};
use ylink_grammar::{BrokenRule, Language, Sources};
use ylink_names::Prefixes;

/// The lesser of one so far and of prefixes in conditions that their modules don't declare, and of features whose names are
/// taken.
pub(crate) fn broken_feature_name(
    alloc: Global,
    language: &Language,
    sources: &Sources<'_>,
    prefixes: &Prefixes<'_>,
    versions: &Versions,
    so_far: Option<BrokenRule>,
) -> Result<Option<BrokenRule>, AllocError>
    requires prefixes { IsOf prefixes.now (view sources.now) }
    requires versions { AreVersionsOf versions.now (language_view language.now) (view sources.now) }
    ensures { let l = language_view language.now in let s = view sources.now in
        IfOk result (λ told. seen told ≡ least_from (seen so_far)
        (spec.condition_prefix_breaks l s ++ spec.taken_feature_breaks l s)) }
{
    match language {
        Language::Core => Ok(so_far),
        Language::Rfc(_) => {
            let unknown = broken_condition_prefix_rule(
                alloc, language, sources, prefixes, versions, so_far,
            )?;
            broken_taken_feature_rule(alloc, language, sources, unknown)
        }
    }
}

/// The lesser of one so far and of conditions that name no feature or lead from a feature back to it.
pub(crate) fn broken_condition<'t>(
    alloc: Global,
    language: &Language,
    sources: &Sources<'t>,
    prefixes: &Prefixes<'t>,
    versions: &Versions,
    so_far: Option<BrokenRule>,
) -> Result<Option<BrokenRule>, AllocError>
    requires prefixes { IsOf prefixes.now (view sources.now) }
    requires versions { AreVersionsOf versions.now (language_view language.now) (view sources.now) }
    ensures { IfOk result (λ told. seen told ≡ least_from (seen so_far)
        (spec.condition_breaks (language_view language.now) (view sources.now))) }
{
    match language {
        Language::Core => Ok(so_far),
        Language::Rfc(_) => {
            let features = Features::of(alloc, language, sources)?;
            broken_condition_rule(
                alloc, language, sources, prefixes, versions, &features, so_far,
            )
        }
    }
}
