//! Conditions that hold, by the numbers of their statements (RFC 7950, 7.20.2).

ghost use Rattle.std.specs.Prelude.{◌≡◌};
ghost use Rattle.ybase_preorder.specs.View.{row_by};
ghost use Rattle.ylink_grammar.specs.LanguageView.{language_view};
ghost use Rattle.ylink_grammar.specs.SourceView.{source_view};
ghost use Rattle.yschema_given.specs.Holding as spec;

use ybase_preorder::Siblings;
use ybase_words::Keyword;
use ylink_grammar::{Language, Source, is_guard};

/// Whether the statement of a number holds; that it does where nothing is told of it.
fn holds_in(holding: &[bool], number: usize) -> bool
    ensures { result ≡ spec.holds_in holding.now number }
{
    holding.get(number).copied().unwrap_or(true)
}

/// Whether all of a row hold that are kept as conditions are.
pub fn kept_hold(holding: &[bool], statements: Siblings<'_, Source<'_>>) -> bool
    ensures { result ≡ spec.kept_hold (spec.holds_in holding.now) (row_by source_view statements.entry) }
{
    for statement in statements {
        if Keyword::Extension.is(statement.label().keyword)
            && !holds_in(holding, statement.number() as usize)
        {
            return false;
        }
    }
    true
}

/// Whether all conditions of a row hold.
pub(crate) fn asked_hold(
    language: &Language,
    holding: &[bool],
    statements: Siblings<'_, Source<'_>>,
) -> bool
    ensures { result ≡ spec.asked_hold (language_view language.now) (spec.holds_in holding.now)
        (row_by source_view statements.entry) }
{
    for statement in statements {
        if is_guard(language, statement.label())
            && !holds_in(holding, statement.number() as usize)
        {
            return false;
        }
    }
    true
}

/// Whether a row has a statement that is kept as conditions are, and is none.
pub(crate) fn has_other(language: &Language, statements: Siblings<'_, Source<'_>>) -> bool
    ensures { result ≡ spec.has_other (language_view language.now) (row_by source_view statements.entry) }
{
    for statement in statements {
        if Keyword::Extension.is(statement.label().keyword)
            && !is_guard(language, statement.label())
        {
            return true;
        }
    }
    false
}
