//! The statements that a language has besides the core's (RFC 7950, 7.10, 7.11, 7.14 to 7.17, 7.20.1, 7.20.2, 7.21.5 and 9.4.5).

ghost use Rattle.std.specs.Prelude.{◌≡◌, ℕ};
ghost use Rattle.yspec_wide.specs.Sources as spec;
ghost use Rattle.yspec_wide.specs.Words.{action_word, anydata_word, anyxml_word, pattern_word};
ghost use Rattle.ylink_grammar.specs.LanguageView.{language_view};
ghost use Rattle.ylink_grammar.specs.SourceView.{source_view};

use crate::language::Language;
use crate::source::Source;
use ybase_words::Keyword;

/// Whether a statement is a `feature` of a language (RFC 7950, 7.20.1).
pub fn is_feature(language: &Language, statement: &Source<'_>) -> bool
    ensures { (number : ℕ) → result
        ≡ spec.is_feature (language_view language.now) (source_view number statement.now) }
{
    match language {
        Language::Core => false,
        Language::Rfc(_) => statement.statement.keyword() == "feature",
    }
}

/// Whether a statement is an `if-feature` of a language (RFC 7950, 7.20.2).
pub fn is_condition(language: &Language, statement: &Source<'_>) -> bool
    ensures { (number : ℕ) → result
        ≡ spec.is_condition (language_view language.now) (source_view number statement.now) }
{
    match language {
        Language::Core => false,
        Language::Rfc(_) => statement.statement.keyword() == "if-feature",
    }
}

/// Whether a statement is a `when` of a language (RFC 7950, 7.21.5).
pub fn is_when(language: &Language, statement: &Source<'_>) -> bool
    ensures { (number : ℕ) → result
        ≡ spec.is_when (language_view language.now) (source_view number statement.now) }
{
    match language {
        Language::Core => false,
        Language::Rfc(_) => statement.statement.keyword() == "when",
    }
}

/// Whether it hangs on a statement whether a node is there: an `if-feature` or a `when` of a language.
pub fn is_guard(language: &Language, statement: &Source<'_>) -> bool
    ensures { (number : ℕ) → result
        ≡ spec.is_guard (language_view language.now) (source_view number statement.now) }
{
    is_condition(language, statement) || is_when(language, statement)
}

/// Whether a statement is a `notification` of a language (RFC 7950, 7.16).
pub fn is_notification(language: &Language, statement: &Source<'_>) -> bool
    ensures { (number : ℕ) → result
        ≡ spec.is_notification (language_view language.now) (source_view number statement.now) }
{
    match language {
        Language::Core => false,
        Language::Rfc(_) => statement.statement.keyword() == "notification",
    }
}

/// Whether a statement is an `rpc` or an `action` of a language (RFC 7950, 7.14 and 7.15).
pub fn is_call(language: &Language, statement: &Source<'_>) -> bool
    ensures { (number : ℕ) → result
        ≡ spec.is_call (language_view language.now) (source_view number statement.now) }
{
    match language {
        Language::Core => false,
        Language::Rfc(_) => matches!(statement.statement.keyword(), "rpc" | "action"),
    }
}

/// Whether a statement is an operation of a language: an `rpc`, an `action` or a `notification`.
pub fn is_operation(language: &Language, statement: &Source<'_>) -> bool
    ensures { (number : ℕ) → result
        ≡ spec.is_operation (language_view language.now) (source_view number statement.now) }
{
    is_call(language, statement) || is_notification(language, statement)
}

/// Whether a statement is an `input` or an `output` of a language (RFC 7950, 7.14.2 and 7.14.3).
fn is_side(language: &Language, statement: &Source<'_>) -> bool
    ensures { (number : ℕ) → result ≡ spec.is_side (language_view language.now) (source_view number statement.now) }
{
    match language {
        Language::Core => false,
        Language::Rfc(_) => matches!(statement.statement.keyword(), "input" | "output"),
    }
}

/// Whether a statement is an operation of a language, or the `input` or the `output` of one.
pub fn is_operation_part(language: &Language, statement: &Source<'_>) -> bool
    ensures { (number : ℕ) → result
        ≡ spec.is_operation_part (language_view language.now) (source_view number statement.now) }
{
    is_operation(language, statement) || is_side(language, statement)
}

/// Whether a statement is an `action` of a language (RFC 7950, 7.15).
pub fn is_action(language: &Language, statement: &Source<'_>) -> bool
    ensures { (number : ℕ) → result ≡ spec.is_added (language_view language.now) action_word
        (source_view number statement.now) }
{
    match language {
        Language::Core => false,
        Language::Rfc(_) => statement.statement.keyword() == "action",
    }
}

/// Whether a statement is an `anydata` of a language (RFC 7950, 7.10).
pub fn is_anydata(language: &Language, statement: &Source<'_>) -> bool
    ensures { (number : ℕ) → result ≡ spec.is_added (language_view language.now) anydata_word
        (source_view number statement.now) }
{
    match language {
        Language::Core => false,
        Language::Rfc(_) => statement.statement.keyword() == "anydata",
    }
}

/// Whether a statement is an `anyxml` of a language (RFC 7950, 7.11).
pub fn is_anyxml(language: &Language, statement: &Source<'_>) -> bool
    ensures { (number : ℕ) → result ≡ spec.is_added (language_view language.now) anyxml_word
        (source_view number statement.now) }
{
    match language {
        Language::Core => false,
        Language::Rfc(_) => statement.statement.keyword() == "anyxml",
    }
}

/// Whether a statement is a `pattern` of a language (RFC 7950, 9.4.5).
pub fn is_pattern(language: &Language, statement: &Source<'_>) -> bool
    ensures { (number : ℕ) → result ≡ spec.is_added (language_view language.now) pattern_word
        (source_view number statement.now) }
{
    match language {
        Language::Core => false,
        Language::Rfc(_) => statement.statement.keyword() == "pattern",
    }
}

/// Whether a statement is an `augment` in a language that has it below a `uses` too (RFC 7950, 7.17).
pub fn is_augment(language: &Language, statement: &Source<'_>) -> bool
    ensures { (number : ℕ) → result
        ≡ spec.is_augment_in (language_view language.now) (source_view number statement.now) }
{
    match language {
        Language::Core => false,
        Language::Rfc(_) => Keyword::Augment.is(statement.keyword),
    }
}
