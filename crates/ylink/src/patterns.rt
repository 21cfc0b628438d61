//! Patterns that spell no regular expression (RFC 7950, 9.4.5).

ghost use Rattle.std.specs.Prelude.{◌≡◌, ℕ, IfOk};
ghost use Rattle.yspec.specs.schema.Breaks.{least_from};
ghost use Rattle.yspec.specs.types.Types.{is_pattern};
ghost use Rattle.yspec_wide.specs.Patterns as spec;
ghost use Rattle.ylink_grammar.specs.BreakView.{seen};
ghost use Rattle.ylink_grammar.specs.LanguageView.{language_view};
ghost use Rattle.ylink_grammar.specs.LinkView.{view};
ghost use Rattle.ylink_grammar.specs.SourceView.{source_view};
ghost use Rattle.ylink.specs.PatternView.{spells_none};

use std::alloc::{AllocError, Global};
use ylink_grammar::{
    BrokenRule, CompileCode, Language, Source, Sources, broken, is_pattern, least_when,
};
use ylink_types::Expressions;

/// Whether a text spells a regular expression. One that is too large for the engine is answered as want of memory.
fn is_spelled(alloc: Global, expressions: &Expressions, text: &str) -> Result<bool, AllocError>
    ensures { IfOk result (λ b. b ≡ is_pattern text.now) }
{
    let expression = expressions.with_text(alloc, text)?;
    Ok(expression.is_pattern())
}

/// Whether a statement is a `pattern` of a language that spells none.
fn spells_none(
    alloc: Global,
    language: &Language,
    expressions: &Expressions,
    statement: &Source<'_>,
) -> Result<bool, AllocError>
    ensures { IfOk result (λ b. (number : ℕ) → b
        ≡ spells_none (language_view language.now) (source_view number statement.now)) }
{
    if !is_pattern(language, statement) {
        return Ok(false);
    }
    let spelled = is_spelled(alloc, expressions, statement.argument())?;
    Ok(!spelled)
}

/// The lesser of one so far and of the patterns of statements that spell none.
fn judge_patterns(
    alloc: Global,
    language: &Language,
    expressions: &Expressions,
    sources: &Sources<'_>,
    so_far: Option<BrokenRule>,
) -> Result<Option<BrokenRule>, AllocError>
    ensures { IfOk result (λ told. seen told ≡ least_from (seen so_far)
        (spec.pattern_breaks (language_view language.now) (view sources.now))) }
{
    let mut told = so_far;
    for row in sources.slots() {
        let source = &row.label;
        let wrong = spells_none(alloc, language, expressions, source)?;
        let rule = broken(CompileCode::C20, source.home, source.statement);
        told = least_when(wrong, told, rule);
    }
    Ok(told)
}

/// The lesser of one so far and of patterns that spell no regular expression, by module and line, in a language that has patterns.
pub(crate) fn broken_pattern_rule(
    alloc: Global,
    language: &Language,
    expressions: &Expressions,
    sources: &Sources<'_>,
    so_far: Option<BrokenRule>,
) -> Result<Option<BrokenRule>, AllocError>
    ensures { IfOk result (λ told. seen told ≡ least_from (seen so_far)
        (spec.pattern_breaks (language_view language.now) (view sources.now))) }
{
    match language {
        Language::Core => Ok(so_far),
        Language::Rfc(_) => judge_patterns(alloc, language, expressions, sources, so_far),
    }
}
