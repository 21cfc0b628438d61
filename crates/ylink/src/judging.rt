//! Where a `type` statement breaks a rule of its own (RFC 7950, 7.3, 7.4 and 9).

ghost use Rattle.std.specs.Prelude.{◌≡◌, ℕ, None, option_map};
ghost use Rattle.yspec.specs.schema.Breaks.{least_from};
ghost use Rattle.yspec.specs.linking.DerivedTypes.{type_breaks};
ghost use Rattle.ylink_grammar.specs.BreakView.{seen};
ghost use Rattle.ylink_grammar.specs.LinkView.{view};
ghost use Rattle.ylink_grammar.specs.SourceView.{source_view};
ghost use Rattle.ylink_types.specs.TypeView.{verdict_view};
ghost use Rattle.ylink.specs.VerdictView.{told_by, AreVerdicts};

use crate::verdicts::verdict_held;
use ylink_grammar::{BrokenRule, CompileCode, Source, Sources, broken, least};
use ylink_types::Verdict;

/// The lesser of one so far and of the rule that a statement breaks, by the verdict on it.
fn judge_verdict(
    statement: &Source<'_>,
    verdict: Option<&Verdict<'_>>,
    so_far: Option<BrokenRule>,
) -> Option<BrokenRule>
    ensures { (number : ℕ) → seen result ≡ least_from (seen so_far)
        (told_by (source_view number statement.now)
        (option_map (λ v. verdict_view v.now) verdict.entry)) }
{
    let code = match verdict {
        Some(Verdict::Wrong) => CompileCode::C10,
        Some(Verdict::TooLarge) => CompileCode::C18,
        _ => return so_far,
    };
    least(so_far, broken(code, statement.home, statement.statement))
}

/// The least of the `type` statements that break a rule of their own, by module and line, given the verdict on each.
pub(crate) fn broken_type_rule(
    sources: &Sources<'_>,
    verdicts: &[Option<Box<Verdict<'_>>>],
) -> Option<BrokenRule>
    ensures { AreVerdicts verdicts.now (view sources.now)
        → seen result ≡ least_from None (type_breaks (view sources.now)) }
{
    let mut told = None;
    for (number, row) in sources.slots().iter().enumerate() {
        told = judge_verdict(&row.label, verdict_held(verdicts, number), told);
    }
    told
}
