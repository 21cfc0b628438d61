//! Statements by their keywords and arguments.

ghost use Rattle.std.specs.Prelude.{◌≡◌, option_map};
ghost use Rattle.yspec_search.specs.Search as spec;
ghost use Rattle.ytext.specs.View.{row_view, view};

use ytext::Stmt;

/// Whether a statement has a keyword.
pub(crate) fn is_word(word: &str, statement: &Stmt) -> bool
    ensures { result ≡ spec.is_word word.now (view statement.now).0 }
{
    statement.keyword() == word
}

/// The argument of a statement; nothing where it has none.
pub(crate) fn argument_of(statement: &Stmt) -> &str
    ensures { result.now ≡ spec.argument_of (view statement.now).0 }
{
    statement.argument().unwrap_or("")
}

/// The argument of the first of a row with a keyword.
pub(crate) fn argument_below<'a>(word: &str, row: &'a [Stmt]) -> Option<&'a str>
    ensures { option_map (λ t. t.now) result ≡ spec.argument_below word.now (row_view row.entry.now) }
{
    for statement in row {
        if is_word(word, statement) {
            return Some(argument_of(statement));
        }
    }
    None
}

/// Whether one of a row has a keyword.
pub(crate) fn has_word(word: &str, row: &[Stmt]) -> bool
    ensures { result ≡ spec.has_word word.now (row_view row.now) }
{
    for statement in row {
        if is_word(word, statement) {
            return true;
        }
    }
    false
}
