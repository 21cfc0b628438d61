//! Rows that nodes are given besides their own statements (RFC 7950, 7.13, 7.13.2 and 7.20.2).

ghost use Rattle.std.specs.Prelude.{◌≡◌, ◌&&◌, true};
ghost use Rattle.std.specs.List.{list_any};
ghost use Rattle.yspec.specs.Forest.{row as tops, Forest, join};
ghost use Rattle.yspec.specs.linking.Expansion.{others};
ghost use Rattle.yspec.specs.linking.Source as sources;
ghost use Rattle.yspec_wide.specs.Sources.{without_guards};
ghost use Rattle.yschema_given.specs.Holding.{holds_in, kept_hold};
ghost use Rattle.yspec.specs.linking.Source.{is_source_of};
ghost use Rattle.ybase_preorder.specs.View.{row_by};
ghost use Rattle.ybase_words.specs.KeywordView.{keyword_view};
ghost use Rattle.ylink_grammar.specs.LanguageView.{language_view};
ghost use Rattle.ylink_grammar.specs.SourceView.{source_view};
ghost use Rattle.yschema_given.specs.Keeping.{are_kept_right};

use crate::holding::{asked_hold, has_other, kept_hold};
use ybase_preorder::Siblings;
use ybase_words::Keyword;
use ylink_grammar::{Language, Source};

/// A row that a node is given: that of a refine, or that of which it is asked the conditions.
#[derive(Clone, Copy)]
pub struct GivenRow<'a, 't> {
    is_refine: bool,
    language: &'a Language,
    row: Siblings<'a, Source<'t>>,
    ghost kept: { are_kept_right (language_view language.now) (row_by source_view row) ≡ true },
}

impl<'a, 't> GivenRow<'a, 't> {
    ghost use Rattle.std.specs.Prelude.{◌≡◌, false, true};
    ghost use Rattle.yspec.specs.Forest.{Forest, join};
    ghost use Rattle.yspec.specs.linking.Expansion.{others};
    ghost use Rattle.yspec.specs.linking.Keyword.{extension_word, same_keyword};
    ghost use Rattle.yspec.specs.linking.Parts.{own_of};
    ghost use Rattle.yspec.specs.linking.Source as sources;
    ghost use Rattle.yspec_wide.specs.Sources.{guard_row, without_guards};
    ghost use Rattle.ybase_preorder.specs.View.{row_by};
    ghost use Rattle.ybase_words.specs.KeywordView.{keyword_view};
    ghost use Rattle.ylink_grammar.specs.LanguageView.{language_view};
    ghost use Rattle.ylink_grammar.specs.SourceView.{source_view};
    ghost use Rattle.yschema_given.specs.GivenView.{row_or_none, stated_with_row};
    ghost use Rattle.yschema_given.specs.Keeping.{are_kept_right};
    ghost use Rattle.yschema_given.specs.Stating.{SameFor};
    ghost use Rattle.yschema_given.specs.Holding.{holds_in, kept_hold};

    /// What a refine gives that states a row.
    pub fn of_refine(language: &'a Language, row: Siblings<'a, Source<'t>>) -> GivenRow<'a, 't>
        requires { are_kept_right (language_view language.now) (row_by source_view row) ≡ true }
        ensures { let l = language_view language.entry.now in let given = row_by source_view row.entry in
            (own : Forest sources.Source) → stated_with_row result own ≡ join (others (without_guards l given) own) given }
    {
        GivenRow {
            is_refine: true,
            language,
            row,
        }
    }

    /// The conditions of a row, those of its statements that define nodes left out.
    pub fn of_conditions(language: &'a Language, row: Siblings<'a, Source<'t>>) -> GivenRow<'a, 't>
        requires { are_kept_right (language_view language.now) (row_by source_view row) ≡ true }
        ensures { let l = language_view language.entry.now in let given = row_by source_view row.entry in
            (own : Forest sources.Source) → stated_with_row result own ≡ join own (guard_row l (own_of given)) }
    {
        GivenRow {
            is_refine: false,
            language,
            row,
        }
    }

    /// The row in which what a node states with a keyword stands that isn't that of conditions, given the row before.
    pub fn row_stating(
        self,
        keyword: Keyword,
        before: Option<Siblings<'a, Source<'t>>>,
    ) -> Option<Siblings<'a, Source<'t>>>
        requires { same_keyword extension_word (keyword_view keyword) ≡ false }
        ensures { SameFor (keyword_view keyword) (row_or_none result)
            (stated_with_row self.entry (row_or_none before.entry)) }
    {
        if self.is_refine && has_any(keyword, self.row) {
            Some(self.row)
        } else {
            before
        }
    }

    /// Whether all conditions hold of a node that is given it, whether those did that it had before.
    pub(crate) fn stands(self, before: bool, holding: &[bool]) -> bool
        ensures { (own : Forest sources.Source) → before ≡ kept_hold (holds_in holding.now) own
            → result ≡ kept_hold (holds_in holding.now) (stated_with_row self.entry own) }
    {
        if self.is_refine {
            refined_stands(self.language, before, holding, self.row)
        } else {
            both(before, asked_hold(self.language, holding, self.row))
        }
    }
}

/// Whether a row has a statement of a keyword.
fn has_any(keyword: Keyword, statements: Siblings<'_, Source<'_>>) -> bool
    ensures { result ≡ list_any (is_source_of (keyword_view keyword))
        (tops (row_by source_view statements.entry)) }
{
    for statement in statements {
        if keyword.is(statement.label().keyword) {
            return true;
        }
    }
    false
}

fn both(first: bool, second: bool) -> bool
    ensures { result ≡ (first && second) }
{
    first && second
}

/// Whether all conditions hold of a node that is refined by a row, whether those did that it had before.
fn refined_stands(
    language: &Language,
    before: bool,
    holding: &[bool],
    row: Siblings<'_, Source<'_>>,
) -> bool
    ensures { let l = language_view language.now in let given = row_by source_view row.entry in
        (own : Forest sources.Source) → before ≡ kept_hold (holds_in holding.now) own
        → result ≡ kept_hold (holds_in holding.now) (join (others (without_guards l given) own) given) }
{
    let holds = kept_hold(holding, row);
    if has_other(language, row) {
        holds
    } else {
        both(before, holds)
    }
}
