//! Which substatement a statement has too many or too few of (RFC 7950, 7 and 14).

ghost use Rattle.std.specs.Prelude.{◌≡◌, ◌||◌, map, not, option_map};
ghost use Rattle.std.specs.List.{list_any};
ghost use Rattle.yspec.specs.Forest.{row};
ghost use Rattle.yspec.specs.linking.Keyword.{yang_version_word};
ghost use Rattle.yspec.specs.schema.Breaks.{exactly_one};
ghost use Rattle.yspec_wide.specs.StatementBreaks.{has_word, is_miscounted};
ghost use Rattle.yspec_wide.specs.Table as table;
ghost use Rattle.yspec_wide.specs.Words.{known, same_word};
ghost use Rattle.ytext.specs.View.{row_view};
ghost use Rattle.ylink_conditions.specs.View.{version_view};
ghost use Rattle.ylink_grammar.specs.LanguageView.{language_view};
ghost use Rattle.ylink_grammar.specs.Miscounted.{first_miscounted};
ghost use Rattle.ylink_grammar.specs.TableView.{allowed_views, count_view, once, rows_view};
ghost use Rattle.ylink_grammar.specs.WordView.{word_view};

use crate::grammar::{has_keyword_in, is_repeated};
use crate::language::Language;
use crate::rules::{WideRule, rule_in};
use crate::table::{Allowed, Count};
use crate::word::Word;
use ybase_words::Keyword;
use ylink_conditions::YangVersion;
use ytext::Stmt;

/// Whether one of some statements has a keyword of a language.
fn has_any(language: &Language, word: Word, statements: &[Stmt]) -> bool
    ensures { result
        ≡ list_any (has_word (language_view language.now) (word_view word)) (row (row_view statements.now)) }
{
    for statement in statements {
        if has_keyword_in(language, statement, word) {
            return true;
        }
    }
    false
}

/// Whether a keyword is missing; a missing `yang-version` is told by its own code.
fn is_missing(language: &Language, word: Word, statements: &[Stmt]) -> bool
    ensures { result ≡ not (same_word (word_view word) (known yang_version_word)
        || list_any (has_word (language_view language.now) (word_view word)) (row (row_view statements.now))) }
{
    let may_be = word.is(Word::Known(Keyword::YangVersion));
    let found = has_any(language, word, statements);
    !(may_be || found)
}

/// Whether there isn't exactly one of a keyword.
fn is_not_one(language: &Language, word: Word, statements: &[Stmt]) -> bool
    ensures { result ≡ is_miscounted (language_view language.now) (row_view statements.now)
        (record { word = word_view word; count = exactly_one }) }
{
    let repeated = is_repeated(language, word, statements);
    let missing = is_missing(language, word, statements);
    repeated || missing
}

/// Whether there is more than one of a keyword.
#[tactic(auto, using(crate::proofs::WordLemmas::once_alike))]
fn is_more_than_one(language: &Language, word: Word, statements: &[Stmt]) -> bool
    ensures { result ≡ is_miscounted (language_view language.now) (row_view statements.now) (once (word_view word)) }
{
    is_repeated(language, word, statements)
}

/// Whether there are too many or too few of a keyword.
fn is_miscounted_by(language: &Language, word: Word, count: Count, statements: &[Stmt]) -> bool
    ensures { result ≡ is_miscounted (language_view language.now) (row_view statements.now)
        (record { word = word_view word; count = count_view count }) }
{
    match count {
        Count::One => is_not_one(language, word, statements),
        Count::AtMostOne => is_more_than_one(language, word, statements),
        Count::Any => false,
    }
}

/// The first of some keywords that there is more than one of.
fn first_repeated(language: &Language, words: &[Word], statements: &[Stmt]) -> Option<Word>
    ensures { option_map word_view result ≡ first_miscounted (language_view language.now)
        (row_view statements.now) (map once (map word_view words.now)) }
{
    for word in words {
        if is_more_than_one(language, *word, statements) {
            return Some(*word);
        }
    }
    None
}

/// The first of the core's rows that there are too many or too few of.
fn first_of_core(language: &Language, allowed: &[Allowed], statements: &[Stmt]) -> Option<Word>
    ensures { option_map word_view result ≡ first_miscounted (language_view language.now)
        (row_view statements.now) (table.row_before (allowed_views allowed.now)) }
{
    for a in allowed {
        let word = Word::Known(a.0);
        if is_miscounted_by(language, word, a.1, statements) {
            return Some(word);
        }
    }
    None
}

#[tactic(auto, using(crate::proofs::CountedLemmas::first_of_rows))]
fn miscounted_by(language: &Language, rule: &WideRule, statements: &[Stmt]) -> Option<Word>
    ensures { option_map word_view result
        ≡ first_miscounted (language_view language.now) (row_view statements.now) (rows_view rule.now) }
{
    match first_repeated(language, rule.once, statements) {
        Some(word) => Some(word),
        None => first_of_core(language, rule.substatements, statements),
    }
}

/// The first substatement that there are too many or too few of below a keyword, in the order of the table.
pub fn miscounted_in(
    language: &Language,
    version: YangVersion,
    word: Word,
    statements: &[Stmt],
) -> Option<Word>
    ensures { option_map word_view result ≡ first_miscounted (language_view language.now) (row_view statements.now)
        (table.rule_in (language_view language.now) (version_view version) (word_view word)).substatements }
{
    let rule = rule_in(language, version, word);
    miscounted_by(language, &rule, statements)
}
