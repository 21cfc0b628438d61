//! What is said of substatements of which there are too many or too few.

ghost use Rattle.std.specs.Prelude.{◌≡◌, IfOk, option_map, string_bytes};
ghost use Rattle.ytext.specs.View.{row_view, view};
ghost use Rattle.yspec_wide.specs.Table as table;
ghost use Rattle.ylink_conditions.specs.View.{version_view};
ghost use Rattle.ylink_grammar.specs.LanguageView.{language_view};
ghost use Rattle.ylink_grammar.specs.WordView.{word_view};
ghost use Rattle.ysay_forms.specs.Counts as spec;

use crate::words::word_text;
use std::alloc::{AllocError, Global};
use ylink_conditions::YangVersion;
use ylink_grammar::{Language, Word, miscounted_in};
use ytext::Stmt;

fn has_any(other: &str, statements: &[Stmt]) -> bool
    ensures { result ≡ spec.has_any other.now (row_view statements.now) }
{
    for statement in statements {
        if statement.keyword() == other {
            return true;
        }
    }
    false
}

/// What is said of a keyword of which too many or too few stand below another.
fn of_substatement(
    alloc: Global,
    word: &str,
    statements: &[Stmt],
    other: &str,
) -> Result<String, AllocError>
    ensures { IfOk result (λ text. string_bytes text
        ≡ spec.of_substatement word.now (row_view statements.now) other.now) }
{
    if has_any(other, statements) {
        [word, " has more than one ", other, "."].concat(alloc)
    } else {
        [word, " lacks a ", other, "."].concat(alloc)
    }
}

/// The same of a keyword, if there is such a one.
fn of_first(
    alloc: Global,
    word: &str,
    statements: &[Stmt],
    other: Option<Word>,
) -> Result<Option<String>, AllocError>
    ensures { IfOk result (λ text. option_map string_bytes text
        ≡ spec.of_first word.now (row_view statements.now) (option_map word_view other)) }
{
    match other {
        Some(other) => {
            let said = of_substatement(alloc, word, statements, word_text(other))?;
            Ok(Some(said))
        }
        None => Ok(None),
    }
}

/// What is said of a statement of a keyword, by what stands right below it.
pub(crate) fn of_amounts(
    alloc: Global,
    language: &Language,
    version: YangVersion,
    word: Word,
    statement: &Stmt,
) -> Result<Option<String>, AllocError>
    ensures { let s = view statement.now in IfOk result (λ text. option_map string_bytes text
        ≡ spec.of_row (language_view language.now)
        (table.rule_in (language_view language.now) (version_view version) (word_view word)).substatements s.0.keyword s.1) }
{
    let statements = statement.substatements();
    let other = miscounted_in(language, version, word, statements);
    of_first(alloc, statement.keyword(), statements, other)
}
