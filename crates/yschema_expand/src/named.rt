//! Statements with what the names in them mean.

ghost use Rattle.std.specs.Prelude.{◌≡◌, true};
ghost use Rattle.ylink_features.specs.VersionView.{AreVersionsOf};
ghost use Rattle.ylink_grammar.specs.LanguageView.{language_view};
ghost use Rattle.ylink_grammar.specs.LinkView.{view};
ghost use Rattle.ylink_names.specs.MeaningView.{AreMeanings};
ghost use Rattle.ylink_names.specs.PrefixView.{IsOf};
ghost use Rattle.yschema_given.specs.Keeping.{are_kept_right};

use ybase_preorder::Siblings;
use ybase_words::Keyword;
use ylink_features::Versions;
use ylink_grammar::{Language, Source, Sources};
use ylink_names::{Prefixes, meaning_at};

/// The statements of a set of modules in a language, with what prefixes stand for, the versions of the modules, and which
/// definition each statement names.
#[derive(Drop)]
pub struct Named<'a, 't> {
    language: &'a Language,
    sources: &'a Sources<'t>,
    prefixes: &'a Prefixes<'t>,
    versions: &'a Versions,
    meanings: &'a [Option<u32>],
    ghost prefixed: { IsOf prefixes.now (view sources.now) },
    ghost dated: { AreVersionsOf versions.now (language_view language.now) (view sources.now) },
    ghost meant: { AreMeanings meanings.now (view sources.now) },
    ghost kept: { are_kept_right (language_view language.now) (view sources.now) ≡ true },
}

impl<'a, 't> Named<'a, 't> {
    ghost use Rattle.std.specs.Prelude.{◌≡◌, ◌≤◌, IfSome, true};
    ghost use Rattle.yspec.specs.Forest.{size};
    ghost use Rattle.yspec.specs.linking.DerivedTypes.{number_named};
    ghost use Rattle.yspec.specs.linking.Expansion.{groupings_of, laid, row_in};
    ghost use Rattle.ybase_preorder.specs.View.{row_by, row_view};
    ghost use Rattle.ylink_features.specs.VersionView.{AreVersionsOf};
    ghost use Rattle.ylink_grammar.specs.LanguageView.{language_view};
    ghost use Rattle.ylink_grammar.specs.LinkView.{view};
    ghost use Rattle.ylink_grammar.specs.SourceView.{source_view};
    ghost use Rattle.ylink_names.specs.MeaningView.{AreMeanings};
    ghost use Rattle.ylink_names.specs.PrefixView.{IsOf};
    ghost use Rattle.yschema_expand.specs.Counting.{grouping_row};
    ghost use Rattle.yschema_expand.specs.NamedView.{language_of, modules_of, row_named, row_or_none};
    ghost use Rattle.yschema_given.specs.Keeping.{are_kept_right};

    /// Those of a set, given the language and what names in it mean.
    pub fn new(
        language: &'a Language,
        sources: &'a Sources<'t>,
        prefixes: &'a Prefixes<'t>,
        versions: &'a Versions,
        meanings: &'a [Option<u32>],
    ) -> Named<'a, 't>
        requires prefixed { IsOf prefixes.now (view sources.now) }
        requires dated { AreVersionsOf versions.now (language_view language.now) (view sources.now) }
        requires meant { AreMeanings meanings.now (view sources.now) }
        requires kept { are_kept_right (language_view language.now) (view sources.now) ≡ true }
        ensures language { language_of result ≡ language_view language.entry.now }
        ensures modules { modules_of result ≡ view sources.entry.now }
    {
        Named {
            language,
            sources,
            prefixes,
            versions,
            meanings,
        }
    }

    /// The language in which they are read.
    pub fn language(&self) -> &'a Language
        ensures { language_view result.now ≡ language_of self.now }
    {
        self.language
    }

    /// The statements.
    pub fn sources(&self) -> &'a Sources<'t>
        ensures { view result.now ≡ modules_of self.now }
    {
        self.sources
    }

    /// What prefixes stand for.
    pub fn prefixes(&self) -> &'a Prefixes<'t>
        ensures { IsOf result.now (modules_of self.now) }
    {
        self.prefixes
    }

    /// The versions of the modules.
    pub fn versions(&self) -> &'a Versions
        ensures { AreVersionsOf result.now (language_of self.now) (modules_of self.now) }
    {
        self.versions
    }

    /// The number of the definition that the statement of a number names.
    pub(crate) fn meaning(&self, number: u32) -> Option<u32>
        ensures { result ≡ number_named (modules_of self.now) number }
    {
        meaning_at(self.meanings, number as usize)
    }

    /// The row of the grouping of a number; none of any other statement.
    pub(crate) fn grouping(&self, number: usize) -> Option<Siblings<'a, Source<'t>>>
        ensures stated { row_or_none result ≡ grouping_row (modules_of self.now) number }
        ensures row { laid (row_or_none result) ≡ row_in (groupings_of (modules_of self.now)) number }
        ensures within { IfSome result
            (λ row. size (row_view row) ≤ size (modules_of self.now)) }
        ensures kept { IfSome result
            (λ row. are_kept_right (language_of self.now) (row_by source_view row) ≡ true) }
    {
        let slot = self.sources.slots().get(number)?;
        if Keyword::Grouping.is(slot.label.keyword) {
            Some(self.sources.below(number as u32))
        } else {
            None
        }
    }

    /// The row of the grouping that the statement of a number uses.
    pub(crate) fn grouping_used(&self, number: u32) -> Option<Siblings<'a, Source<'t>>>
        ensures row { laid (row_or_none result) ≡ row_named (modules_of self.now) number }
        ensures within { IfSome result
            (λ row. size (row_view row) ≤ size (modules_of self.now)) }
        ensures kept { IfSome result
            (λ row. are_kept_right (language_of self.now) (row_by source_view row) ≡ true) }
    {
        self.grouping(self.meaning(number)? as usize)
    }
}
