//! Conditions among the statements that nodes are given (RFC 7950, 7.20.2 and 7.21.5).

ghost use Rattle.std.specs.Prelude.{◌≡◌, ◌≤◌, ℕ, IfOk, length, true};
ghost use Rattle.std.specs.List.{list_all};
ghost use Rattle.yspec.specs.Forest.{row, size};
ghost use Rattle.yspec_wide.specs.Expansion.{is_borne_in, is_remark};
ghost use Rattle.yspec_wide.specs.Sources as spec;
ghost use Rattle.ybase_preorder.specs.View.{row_by, row_view};
ghost use Rattle.ybase_words.specs.KeywordView.{keyword_view};
ghost use Rattle.ylink_grammar.specs.LanguageView.{language_view};
ghost use Rattle.ylink_grammar.specs.SourceView.{source_view};
ghost use Rattle.yschema_given.specs.Keeping.{are_kept_right, are_leaves, leaf_keywords, other_keywords};

use std::alloc::{AllocError, Global};
use ybase_preorder::{Siblings, Slot};
use ybase_words::Keyword;
use ylink_grammar::{Language, Source, is_guard, is_when, may_bear};

/// Whether a row bears a condition or a `when`.
pub fn bears_guard(language: &Language, statements: Siblings<'_, Source<'_>>) -> bool
    ensures { result ≡ spec.bears_guard (language_view language.now)
        (row_by source_view statements.entry) }
{
    for statement in statements {
        if is_guard(language, statement.label()) {
            return true;
        }
    }
    false
}

/// Whether a row bears a `when`.
pub fn bears_when(language: &Language, statements: Siblings<'_, Source<'_>>) -> bool
    ensures { result ≡ spec.bears_when (language_view language.now)
        (row_by source_view statements.entry) }
{
    for statement in statements {
        if is_when(language, statement.label()) {
            return true;
        }
    }
    false
}

/// The statements of a row that are no conditions, without what stands below them.
fn others_of<'t>(
    alloc: Global,
    language: &Language,
    statements: Siblings<'_, Source<'t>>,
) -> Result<Vec<Slot<Source<'t>>>, AllocError>
    ensures keywords { IfOk result (λ others. leaf_keywords others.items
        ≡ other_keywords (language_view language.now) (row_by source_view statements.entry)) }
    ensures leaves { IfOk result (λ others. are_leaves others.items ≡ true) }
    ensures few { IfOk result (λ others. length others.items ≤ size (row_view statements.entry)) }
{
    let mut others = Vec::new(alloc);
    for statement in statements {
        let source = statement.label();
        if is_guard(language, source) {
            continue;
        }
        others.push(Slot {
            parent: None,
            label: *source,
            below: 0,
        })?;
    }
    Ok(others)
}

/// Whether a node of a keyword may have all that a refine gives, where that bears conditions: any of these, and of the others
/// what the table has below the keyword.
fn may_bear_conditions(
    alloc: Global,
    language: &Language,
    keyword: Keyword,
    given: Siblings<'_, Source<'_>>,
) -> Result<bool, AllocError>
    requires { are_kept_right (language_view language.now) (row_by source_view given) ≡ true }
    ensures { let statements = row_by source_view given.entry in
        IfOk result (λ may. may ≡ list_all (is_borne_in (language_view language.now)
        (keyword_view keyword) statements) (row statements)) }
{
    let others = others_of(alloc, language, given)?;
    Ok(may_bear(keyword, Siblings::new(&others, 0)))
}

/// Whether a statement says something to people alone.
fn is_remark(statement: &Source<'_>) -> bool
    ensures { (number : ℕ) → result ≡ is_remark (source_view number statement.now) }
{
    Keyword::Description.is(statement.keyword) || Keyword::Reference.is(statement.keyword)
}

/// Whether all statements of a row do.
pub fn are_remarks(statements: Siblings<'_, Source<'_>>) -> bool
    ensures { result ≡ list_all is_remark (row (row_by source_view statements.entry)) }
{
    for statement in statements {
        if !is_remark(statement.label()) {
            return false;
        }
    }
    true
}

/// Whether a node of a keyword may have all that a refine gives (RFC 7950, 7.13.2).
pub fn may_bear_in(
    alloc: Global,
    language: &Language,
    keyword: Keyword,
    given: Siblings<'_, Source<'_>>,
) -> Result<bool, AllocError>
    requires { are_kept_right (language_view language.now) (row_by source_view given) ≡ true }
    ensures { let statements = row_by source_view given.entry in
        IfOk result (λ may. may ≡ list_all (is_borne_in (language_view language.now)
        (keyword_view keyword) statements) (row statements)) }
{
    if bears_guard(language, given) {
        may_bear_conditions(alloc, language, keyword, given)
    } else {
        Ok(may_bear(keyword, given))
    }
}
