//! Prefixes in conditions, and in the paths of augments below a `uses`, that their modules don't declare (RFC 7950, 6.4, 7.17 and
//! 7.20.2).

ghost use Rattle.std.specs.Prelude.{◌≡◌, ℕ, IfOk};
ghost use Rattle.std.specs.List.{list_any};
ghost use Rattle.yspec.specs.Forest.{Forest};
ghost use Rattle.yspec.specs.linking.Prefixes.{is_unknown_prefix};
ghost use Rattle.yspec.specs.linking.Source as sources;
ghost use Rattle.yspec.specs.schema.Breaks.{least_from};
ghost use Rattle.yspec_wide.specs.Features as spec;
ghost use Rattle.ylink_arguments.specs.NameView.{names_view};
ghost use Rattle.ylink_grammar.specs.BreakView.{seen};
ghost use Rattle.ylink_grammar.specs.LanguageView.{language_view};
ghost use Rattle.ylink_grammar.specs.LinkView.{view};
ghost use Rattle.ylink_grammar.specs.SourceView.{source_view};
ghost use Rattle.ylink_names.specs.PrefixView.{IsOf};
ghost use Rattle.ylink_features.specs.ConditionView.{asks_unknown, leads_unknown};
ghost use Rattle.ylink_features.specs.VersionView.{AreVersionsOf};

use crate::condition::names_asked;
use crate::versions::Versions;
use std::alloc::{AllocError, Global};
use ylink_arguments::{Name, relative_path};
use ylink_grammar::{
    BrokenRule, CompileCode, Language, Source, Sources, broken, is_augment, is_condition,
    least_when,
};
use ylink_names::Prefixes;

/// Whether one of some names has a prefix that the module of a number doesn't declare.
fn has_unknown(prefixes: &Prefixes<'_>, home: usize, names: &[Name<'_>]) -> bool
    ensures { (modules : Forest sources.Source) → IsOf prefixes.now modules
        → result ≡ list_any (is_unknown_prefix modules home) (names_view names.now) }
{
    for name in names {
        if prefixes.is_unknown(home, name) {
            return true;
        }
    }
    false
}

/// Whether an augment below a `uses` leads to a name whose prefix its module doesn't declare.
fn leads_unknown(
    alloc: Global,
    language: &Language,
    prefixes: &Prefixes<'_>,
    statement: &Source<'_>,
) -> Result<bool, AllocError>
    ensures { IfOk result (λ b. (modules : Forest sources.Source) (number : ℕ)
        → IsOf prefixes.now modules
        → b ≡ leads_unknown (language_view language.now) modules (source_view number statement.now)) }
{
    if !is_augment(language, statement) {
        return Ok(false);
    }
    match relative_path(alloc, statement.argument())? {
        Some(names) => Ok(has_unknown(prefixes, statement.home, &names)),
        None => Ok(false),
    }
}

/// Whether a condition asks for a name, or an augment below a `uses` leads to one, whose prefix its module doesn't declare.
fn asks_unknown(
    alloc: Global,
    language: &Language,
    prefixes: &Prefixes<'_>,
    versions: &Versions,
    statement: &Source<'_>,
) -> Result<bool, AllocError>
    ensures { IfOk result (λ b. (modules : Forest sources.Source) (number : ℕ)
        → IsOf prefixes.now modules
        → AreVersionsOf versions.now (language_view language.now) modules
        → b ≡ asks_unknown (language_view language.now) modules (source_view number statement.now)) }
{
    if !is_condition(language, statement) {
        return leads_unknown(alloc, language, prefixes, statement);
    }
    let home = statement.home;
    let names = names_asked(alloc, versions.version_of(home), statement)?;
    Ok(has_unknown(prefixes, home, &names))
}

/// The lesser of one so far and of the conditions and augments below a `uses` with names whose prefixes their modules don't
/// declare, by module and line, given what prefixes stand for and the versions of the modules.
pub fn broken_condition_prefix_rule(
    alloc: Global,
    language: &Language,
    sources: &Sources<'_>,
    prefixes: &Prefixes<'_>,
    versions: &Versions,
    so_far: Option<BrokenRule>,
) -> Result<Option<BrokenRule>, AllocError>
    requires prefixes { IsOf prefixes.now (view sources.now) }
    requires versions { AreVersionsOf versions.now (language_view language.now) (view sources.now) }
    ensures { IfOk result (λ told. seen told ≡ least_from (seen so_far)
        (spec.condition_prefix_breaks (language_view language.now) (view sources.now))) }
{
    let mut told = so_far;
    for row in sources.slots() {
        let source = &row.label;
        let unknown = asks_unknown(alloc, language, prefixes, versions, source)?;
        let rule = broken(CompileCode::C6, source.home, source.statement);
        told = least_when(unknown, told, rule);
    }
    Ok(told)
}
