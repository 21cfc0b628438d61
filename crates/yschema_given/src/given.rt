//! What nodes are given besides their own statements (RFC 7950, 7.9.3, 7.13, 7.13.2 and 7.20.2).

ghost use Rattle.yspec_wide.specs.Standing.{without_default};
ghost use Rattle.ybase_words.specs.KeywordView.{keyword_view};
ghost use Rattle.yschema_given.specs.GivenView.{row_or_none};
ghost use Rattle.yschema_given.specs.Stating.{SameFor};

use crate::given_row::GivenRow;
use ybase_preorder::Siblings;
use ybase_words::Keyword;
use ylink_grammar::{Language, Source};

/// What a node is given.
#[derive(Clone, Copy)]
pub enum Given<'a, 't> {
    /// A row: that of a refine, or that of which it is asked the conditions.
    Row(GivenRow<'a, 't>),
    /// That it has no default.
    NoDefault,
}

impl<'a, 't> Given<'a, 't> {
    ghost use Rattle.std.specs.Prelude.{◌≡◌, false, true};
    ghost use Rattle.yspec.specs.Forest.{Forest, join};
    ghost use Rattle.yspec.specs.linking.Expansion.{others};
    ghost use Rattle.yspec.specs.linking.Keyword.{extension_word, same_keyword};
    ghost use Rattle.yspec.specs.linking.Parts.{own_of};
    ghost use Rattle.yspec.specs.linking.Source as sources;
    ghost use Rattle.yspec_wide.specs.Sources.{guard_row, without_guards};
    ghost use Rattle.yspec_wide.specs.Standing.{without_default};
    ghost use Rattle.ybase_preorder.specs.View.{row_by};
    ghost use Rattle.ybase_words.specs.KeywordView.{keyword_view};
    ghost use Rattle.ylink_grammar.specs.LanguageView.{language_view};
    ghost use Rattle.ylink_grammar.specs.SourceView.{source_view};
    ghost use Rattle.yschema_given.specs.GivenView.{row_or_none, stated_with};
    ghost use Rattle.yschema_given.specs.Holding.{holds_in, kept_hold};
    ghost use Rattle.yschema_given.specs.Keeping.{are_kept_right};
    ghost use Rattle.yschema_given.specs.Stating.{SameFor};

    /// What a refine gives that states a row.
    pub fn of_refine(language: &'a Language, row: Siblings<'a, Source<'t>>) -> Given<'a, 't>
        requires { are_kept_right (language_view language.now) (row_by source_view row) ≡ true }
        ensures { let l = language_view language.entry.now in let given = row_by source_view row.entry in
            (own : Forest sources.Source) → stated_with result own ≡ join (others (without_guards l given) own) given }
    {
        Given::Row(GivenRow::of_refine(language, row))
    }

    /// The conditions of a row, those of its statements that define nodes left out.
    pub fn of_conditions(language: &'a Language, row: Siblings<'a, Source<'t>>) -> Given<'a, 't>
        requires { are_kept_right (language_view language.now) (row_by source_view row) ≡ true }
        ensures { let l = language_view language.entry.now in let given = row_by source_view row.entry in
            (own : Forest sources.Source) → stated_with result own ≡ join own (guard_row l (own_of given)) }
    {
        Given::Row(GivenRow::of_conditions(language, row))
    }

    /// That it has no default.
    pub fn of_no_default() -> Given<'a, 't>
        ensures { (own : Forest sources.Source) → stated_with result own ≡ without_default own }
    {
        Given::NoDefault
    }

    /// The row in which what a node states with a keyword stands that isn't that of conditions, given the row before.
    pub fn row_stating(
        self,
        keyword: Keyword,
        before: Option<Siblings<'a, Source<'t>>>,
    ) -> Option<Siblings<'a, Source<'t>>>
        requires { same_keyword extension_word (keyword_view keyword) ≡ false }
        ensures { SameFor (keyword_view keyword) (row_or_none result)
            (stated_with self.entry (row_or_none before.entry)) }
    {
        match self {
            Given::Row(row) => row.row_stating(keyword, before),
            Given::NoDefault => unless_default(keyword, before),
        }
    }

    /// Whether all conditions hold of a node that is given it, whether those did that it had before.
    pub fn stands(self, before: bool, holding: &[bool]) -> bool
        ensures { (own : Forest sources.Source) → before ≡ kept_hold (holds_in holding.now) own
            → result ≡ kept_hold (holds_in holding.now) (stated_with self.entry own) }
    {
        match self {
            Given::Row(row) => row.stands(before, holding),
            Given::NoDefault => before,
        }
    }
}

/// A row, unless it is asked for a default.
fn unless_default<'a, 't>(
    keyword: Keyword,
    before: Option<Siblings<'a, Source<'t>>>,
) -> Option<Siblings<'a, Source<'t>>>
    ensures { SameFor (keyword_view keyword) (row_or_none result)
        (without_default (row_or_none before.entry)) }
{
    if Keyword::Default.is(keyword) {
        None
    } else {
        before
    }
}
