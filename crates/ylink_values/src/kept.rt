//! Which names of values a type has (RFC 7950, 7.20.2).

ghost use Rattle.std.specs.Prelude.{◌≡◌};
ghost use Rattle.yspec_wide.specs.Sources as spec;
ghost use Rattle.ybase_preorder.specs.View.{row_by};
ghost use Rattle.ylink_grammar.specs.LanguageView.{language_view};
ghost use Rattle.ylink_grammar.specs.SourceView.{source_view};

use ybase_preorder::Siblings;
use ylink_grammar::{Language, Source, is_condition};
use ylink_standing::FeaturesOn;

/// The names of values that are kept: an enum, a bit or an identity that isn't kept is no value of its type (RFC 7950, 7.18.2,
/// 9.6.4.2 and 9.7.4.2).
#[derive(Clone, Copy)]
pub enum Kept<'k> {
    /// All of them.
    All,
    /// Those whose conditions hold.
    Standing(&'k FeaturesOn),
    /// Those that bear no condition.
    Unconditioned(&'k Language),
}

/// Whether an `if-feature` stands in a row.
fn bears_condition(language: &Language, below: Siblings<'_, Source<'_>>) -> bool
    ensures { result ≡ spec.bears_condition
        (language_view language.now) (row_by source_view below.entry) }
{
    for statement in below {
        if is_condition(language, statement.label()) {
            return true;
        }
    }
    false
}

impl<'k> Kept<'k> {
    ghost use Rattle.std.specs.Prelude.{◌≡◌};
    ghost use Rattle.ybase_preorder.specs.View.{row_by};
    ghost use Rattle.ylink_grammar.specs.SourceView.{source_view};
    ghost use Rattle.yspec_wide.specs.Types.{keeps};
    ghost use Rattle.ylink_values.specs.KeptView.{kept_view};

    /// Whether a name is kept, by the row below the statement that gives it.
    pub fn keeps(self, below: Siblings<'_, Source<'_>>) -> bool
        ensures { result ≡ keeps (kept_view self.entry) (row_by source_view below.entry) }
    {
        match self {
            Kept::All => true,
            Kept::Standing(features) => features.stands(below),
            Kept::Unconditioned(language) => !bears_condition(language, below),
        }
    }
}
