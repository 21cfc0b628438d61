//! Where the name of a type, a grouping or an identity means nothing (RFC 7950, 5.5, 6.4.1, 7.13 and 7.18.2).

ghost use Rattle.std.specs.Prelude.{◌≡◌, ℕ};
ghost use Rattle.yspec.specs.schema.Breaks.{least_from};
ghost use Rattle.yspec.specs.linking.Scopes.{lost_breaks};
ghost use Rattle.ylink_grammar.specs.BreakView.{seen};
ghost use Rattle.ylink_grammar.specs.LinkView.{view};
ghost use Rattle.ylink_grammar.specs.SourceView.{source_view};
ghost use Rattle.ylink_names.specs.MeaningView.{meaning_at, is_lost_by, lost_by, AreMeanings};

use crate::taken::is_built_in;
use ybase_words::Keyword;
use ylink_grammar::{BrokenRule, CompileCode, Source, Sources, broken, least};

/// What a table of meanings holds of the statement of a number.
pub fn meaning_at(meanings: &[Option<u32>], number: usize) -> Option<u32>
    ensures { result ≡ meaning_at meanings.now number }
{
    match meanings.get(number) {
        Some(meaning) => *meaning,
        None => None,
    }
}

/// Whether the name in a statement is one that means nothing.
fn is_lost(statement: &Source<'_>, meaning: Option<u32>) -> bool
    ensures { (number : ℕ) → result ≡ is_lost_by (source_view number statement.now) meaning }
{
    match statement.keyword {
        Keyword::Type => !is_built_in(statement) && meaning.is_none(),
        Keyword::Uses | Keyword::Base => meaning.is_none(),
        _ => false,
    }
}

/// The lesser of one so far and of the rule that a statement breaks whose name means nothing.
fn judge_lost(
    statement: &Source<'_>,
    meaning: Option<u32>,
    so_far: Option<BrokenRule>,
) -> Option<BrokenRule>
    ensures { (number : ℕ) → seen result ≡ least_from (seen so_far)
        (lost_by (source_view number statement.now) meaning) }
{
    if is_lost(statement, meaning) {
        least(
            so_far,
            broken(CompileCode::C8, statement.home, statement.statement),
        )
    } else {
        so_far
    }
}

/// The lesser of one so far and of the names of types, groupings and identities that mean nothing, by module and line.
pub fn broken_lost_rule(
    sources: &Sources<'_>,
    meanings: &[Option<u32>],
    so_far: Option<BrokenRule>,
) -> Option<BrokenRule>
    ensures { AreMeanings meanings.now (view sources.now)
        → seen result ≡ least_from (seen so_far) (lost_breaks (view sources.now)) }
{
    let mut told = so_far;
    for (number, row) in sources.slots().iter().enumerate() {
        told = judge_lost(&row.label, meaning_at(meanings, number), told);
    }
    told
}
