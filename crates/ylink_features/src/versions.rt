//! The version of YANG of each module of a set (RFC 7950, 7.1.2).

ghost use Rattle.std.specs.Prelude.{◌≡◌, IfOk, map, option_map};
ghost use Rattle.yspec_wide.specs.Language as spec;
ghost use Rattle.ybase_preorder.specs.View.{row_by};
ghost use Rattle.ylink_conditions.specs.View.{version_view};
ghost use Rattle.ylink_grammar.specs.LinkView.{view};
ghost use Rattle.ylink_grammar.specs.SourceView.{source_view};
ghost use Rattle.ylink_names.specs.PlaceView.{by_place};
ghost use Rattle.ylink_features.specs.VersionView.{stated_at, stated_in};

use std::alloc::{AllocError, Global};
use ybase_preorder::Siblings;
use ybase_words::Keyword;
use ylink_conditions::YangVersion;
use ylink_grammar::{Language, Source, Sources, argument_with};

/// The version of each module of a set, by its number.
#[derive(Debug, Drop)]
pub enum Versions {
    /// Every module is one of YANG 1.1.
    Core,
    /// What each states; YANG 1 where it states none.
    Stated(Vec<Option<YangVersion>>),
}

/// The version that an argument of `yang-version` names.
fn version_named(text: &str) -> YangVersion
    ensures { version_view result ≡ spec.version_named text.now }
{
    if text == "1.1" {
        YangVersion::Yang1_1
    } else {
        YangVersion::Yang1
    }
}

/// The version that a module states, by what stands below its statement.
fn stated_in(body: Siblings<'_, Source<'_>>) -> Option<YangVersion>
    ensures { option_map version_view result ≡ stated_in 0 (row_by source_view body.entry) }
{
    match argument_with(Keyword::YangVersion, body) {
        Some(text) => Some(version_named(text)),
        None => None,
    }
}

/// Whether a version is YANG 1.
fn is_first(version: YangVersion) -> bool
    ensures { result ≡ spec.is_yang_1 (version_view version) }
{
    matches!(version, YangVersion::Yang1)
}

/// The version that each module of a set states.
fn stated_versions(
    alloc: Global,
    sources: &Sources<'_>,
) -> Result<Vec<Option<YangVersion>>, AllocError>
    ensures { IfOk result (λ made. map (option_map version_view) made.items
        ≡ by_place stated_in 0 (view sources.now)) }
{
    let mut made = Vec::new(alloc);
    for top in sources.modules() {
        made.push(stated_in(top.children()))?;
    }
    Ok(made)
}

/// What a module of a number states, where it does.
fn stated_at(stated: &[Option<YangVersion>], home: usize) -> YangVersion
    ensures { version_view result ≡ stated_at stated.now home }
{
    match stated.get(home) {
        Some(Some(version)) => *version,
        _ => YangVersion::Yang1,
    }
}

impl Versions {
    ghost use Rattle.std.specs.Prelude.{◌≡◌, IfOk};
    ghost use Rattle.yspec.specs.Forest.{Forest};
    ghost use Rattle.yspec.specs.linking.Source as sources;
    ghost use Rattle.yspec_wide.specs.Language as spec;
    ghost use Rattle.ylink_conditions.specs.View.{version_view};
    ghost use Rattle.ylink_grammar.specs.LanguageView.{language_view};
    ghost use Rattle.ylink_grammar.specs.LinkView.{view};
    ghost use Rattle.ylink_features.specs.VersionView.{AreVersionsOf};

    /// The versions of a set's modules in a language.
    pub fn of(
        alloc: Global,
        language: &Language,
        sources: &Sources<'_>,
    ) -> Result<Versions, AllocError>
        ensures { IfOk result (λ versions.
            AreVersionsOf versions (language_view language.now) (view sources.now)) }
    {
        match language {
            Language::Core => Ok(Versions::Core),
            Language::Rfc(_) => Ok(Versions::Stated(stated_versions(alloc, sources)?)),
        }
    }

    /// The version of the module of a number.
    pub fn version_of(&self, home: usize) -> YangVersion
        ensures { (language : spec.Language) (modules : Forest sources.Source)
            → AreVersionsOf self.now language modules
            → version_view result ≡ spec.version_of language modules home }
    {
        match self {
            Versions::Core => YangVersion::Yang1_1,
            Versions::Stated(stated) => stated_at(stated, home),
        }
    }

    /// Whether the module of a number is one of YANG 1.
    pub fn is_yang_1(&self, home: usize) -> bool
        ensures { (language : spec.Language) (modules : Forest sources.Source)
            → AreVersionsOf self.now language modules
            → result ≡ spec.is_yang_1 (spec.version_of language modules home) }
    {
        is_first(self.version_of(home))
    }
}
