//! Imports by revision of modules of a later version (RFC 7950, 12).

ghost use Rattle.std.specs.Prelude.{◌≡◌, ◌&&◌, List, IfOk, false, is_some, not, option_map};
ghost use Rattle.std.specs.List.{flat_map};
ghost use Rattle.std.specs.Option.{option_map_or};
ghost use Rattle.yspec.specs.Forest.{Forest};
ghost use Rattle.yspec.specs.linking.Imports.{module_called};
ghost use Rattle.yspec.specs.linking.Keyword.{revision_date_word};
ghost use Rattle.yspec.specs.linking.Scopes.{placed};
ghost use Rattle.yspec.specs.linking.Source as sources;
ghost use Rattle.yspec.specs.schema.Breaks.{least_from};
ghost use Rattle.yspec_wide.specs.Language as languages;
ghost use Rattle.yspec_wide.specs.VersionBreaks as spec;
ghost use Rattle.ybase_preorder.specs.View.{row_by, label_by};
ghost use Rattle.ylink_conditions.specs.View.{version_view};
ghost use Rattle.ylink_grammar.specs.BreakView.{seen};
ghost use Rattle.ylink_grammar.specs.LinkView.{view};
ghost use Rattle.ylink_grammar.specs.SourceView.{source_view};
ghost use Rattle.ylink_features.specs.VersionView.{AreVersionsNamed, AreVersionsOf};

use crate::versions::Versions;
use std::alloc::{AllocError, Global};
use ybase_preorder::{Node, Siblings};
use ybase_words::Keyword;
use ylink_conditions::YangVersion;
use ylink_grammar::{
    BrokenRule, CompileCode, Source, Sources, argument_of, argument_with, broken, least_when,
};
use ylink_names::FirstNamed;

/// The version of the first module of each name in a set.
fn versions_by_name<'t>(
    alloc: Global,
    sources: &Sources<'t>,
    versions: &Versions,
) -> Result<FirstNamed<'t, YangVersion>, AllocError>
    ensures { IfOk result (λ by_name. (language : languages.Language)
        → AreVersionsOf versions.now language (view sources.now)
        → AreVersionsNamed by_name language (view sources.now)) }
{
    let mut by_name = FirstNamed::new(alloc);
    for top in sources.modules() {
        by_name.add(argument_of(top), versions.version_of(top.label().home))?;
    }
    Ok(by_name)
}

/// Whether a version, where there is one, is later than YANG 1.
fn is_later(version: Option<YangVersion>) -> bool
    ensures { result
        ≡ option_map_or (λ v. not (languages.is_yang_1 v)) (option_map version_view version) false }
{
    matches!(version, Some(YangVersion::Yang1_1))
}

/// Whether an import states a revision, and names a module that is later than YANG 1.
fn states_revision_of_later(
    by_name: &FirstNamed<'_, YangVersion>,
    import: Node<'_, Source<'_>>,
) -> bool
    ensures { (language : languages.Language) (modules : Forest sources.Source)
        → AreVersionsNamed by_name.now language modules
        → result ≡ (is_some (sources.argument_with revision_date_word
        (row_by source_view import.entry.children))
        && option_map_or (λ m. not (languages.is_yang_1 (languages.version_of language modules m)))
        (module_called modules (sources.argument_in (label_by source_view import.entry))) false) }
{
    match argument_with(Keyword::RevisionDate, import.children()) {
        Some(_) => is_later(by_name.get(argument_of(import))),
        None => false,
    }
}

/// Whether a statement is an import by revision, from a module of YANG 1, of one that is later.
fn is_import_of_later(
    versions: &Versions,
    by_name: &FirstNamed<'_, YangVersion>,
    statement: Node<'_, Source<'_>>,
) -> bool
    ensures { (language : languages.Language) (modules : Forest sources.Source)
        → AreVersionsOf versions.now language modules
        → AreVersionsNamed by_name.now language modules
        → result ≡ spec.is_import_of_later language modules
        (label_by source_view statement.entry) (row_by source_view statement.entry.children) }
{
    if !Keyword::Import.is(statement.label().keyword) {
        return false;
    }
    if !versions.is_yang_1(statement.label().home) {
        return false;
    }
    states_revision_of_later(by_name, statement)
}

/// The lesser of one so far and of such imports among the statements of a row, and below it.
fn judge_imports(
    versions: &Versions,
    by_name: &FirstNamed<'_, YangVersion>,
    statements: Siblings<'_, Source<'_>>,
    so_far: Option<BrokenRule>,
) -> Option<BrokenRule>
    ensures { (language : languages.Language) (modules : Forest sources.Source)
        (ancestors : List _) → AreVersionsOf versions.now language modules
        → AreVersionsNamed by_name.now language modules
        → seen result ≡ least_from (seen so_far)
        (flat_map (spec.version_import_break language modules)
        (placed ancestors (row_by source_view statements.entry))) }
{
    let mut told = so_far;
    for statement in statements {
        let source = statement.label();
        let is_later = is_import_of_later(versions, by_name, statement);
        let rule = broken(CompileCode::C5, source.home, source.statement);
        let own = least_when(is_later, told, rule);
        told = judge_imports(versions, by_name, statement.children(), own);
    }
    told
}

/// The lesser of one so far and of the imports by revision, from modules of YANG 1, of modules that are later, by module and
/// line, given the versions of the modules (RFC 7950, 12).
pub fn broken_version_import_rule(
    alloc: Global,
    sources: &Sources<'_>,
    versions: &Versions,
    so_far: Option<BrokenRule>,
) -> Result<Option<BrokenRule>, AllocError>
    ensures { (language : languages.Language) → AreVersionsOf versions.now language (view sources.now)
        → IfOk result (λ told. seen told ≡ least_from (seen so_far)
        (spec.version_import_breaks language (view sources.now))) }
{
    match versions {
        Versions::Core => Ok(so_far),
        Versions::Stated(_) => {
            let by_name = versions_by_name(alloc, sources, versions)?;
            Ok(judge_imports(versions, &by_name, sources.modules(), so_far))
        }
    }
}
