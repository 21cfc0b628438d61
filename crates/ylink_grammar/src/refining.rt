//! What a refine may give to nodes (RFC 7950, 7.13.2).

ghost use Rattle.std.specs.Prelude.{◌≡◌, ◌&&◌, not, count_by};
ghost use Rattle.std.specs.List.{list_any, list_all};
ghost use Rattle.yspec.specs.Forest.{row};
ghost use Rattle.yspec.specs.linking.Expansion as spec;
ghost use Rattle.yspec.specs.linking.Keyword.{same_keyword};
ghost use Rattle.yspec.specs.linking.Source.{is_source_of};
ghost use Rattle.yspec.specs.linking.Table as table;
ghost use Rattle.yspec.specs.schema.Breaks.{is_wrong_count};
ghost use Rattle.ybase_preorder.specs.View.{row_by};
ghost use Rattle.ybase_words.specs.KeywordView.{keyword_view};
ghost use Rattle.ylink_grammar.specs.SourceView.{source_view};
ghost use Rattle.ylink_grammar.specs.TableView.{count_view, allowed_views};

use crate::source::Source;
use crate::table::{Allowed, Count, rule_of};
use ybase_preorder::Siblings;
use ybase_words::Keyword;

/// How many statements of a row have a keyword.
fn count_with(keyword: Keyword, statements: Siblings<'_, Source<'_>>) -> usize
    ensures { result ≡ count_by (is_source_of (keyword_view keyword))
        (row (row_by source_view statements.entry)) }
{
    let mut count = 0;
    for statement in statements {
        if keyword.is(statement.label().keyword) {
            count += 1;
        }
    }
    count
}

/// Whether a row has as many statements of a keyword as there may be.
fn fits_count(count: Count, keyword: Keyword, given: Siblings<'_, Source<'_>>) -> bool
    ensures { result ≡ not (is_wrong_count (count_view count)
        (count_by (is_source_of (keyword_view keyword)) (row (row_by source_view given.entry)))) }
{
    match count {
        Count::One => count_with(keyword, given) == 1,
        Count::AtMostOne => count_with(keyword, given) <= 1,
        Count::Any => true,
    }
}

/// Whether a keyword is one of those that are allowed, and a row has as many of it as there may be.
fn is_borne(allowed: &[Allowed], keyword: Keyword, given: Siblings<'_, Source<'_>>) -> bool
    ensures { let k = keyword_view keyword in
        let count = count_by (is_source_of k) (row (row_by source_view given.entry)) in
        result ≡ list_any (λ (a : table.Allowed). same_keyword a.keyword k
        && not (is_wrong_count a.count count)) (allowed_views allowed.now) }
{
    for one in allowed {
        if one.0.is(keyword) && fits_count(one.1, keyword, given) {
            return true;
        }
    }
    false
}

/// Whether a statement of a keyword may have all that a refine gives, and as many of each kind.
pub fn may_bear(keyword: Keyword, given: Siblings<'_, Source<'_>>) -> bool
    ensures { let statements = row_by source_view given.entry in
        result ≡ list_all (spec.is_borne (keyword_view keyword) statements) (row statements) }
{
    let rule = rule_of(keyword);
    for statement in given {
        if !is_borne(rule.substatements, statement.label().keyword, given) {
            return false;
        }
    }
    true
}
