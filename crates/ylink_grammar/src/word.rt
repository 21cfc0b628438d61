//! The keywords of a language (RFC 7950, 7.5.3, 7.10, 7.11, 7.14 to 7.16, 7.20.1, 7.20.2, 7.21.5, 9.4.5 and 9.4.6).

ghost use Rattle.std.specs.Prelude.{◌≡◌, None, option_map};
ghost use Rattle.yspec_wide.specs.Words as spec;
ghost use Rattle.ylink_grammar.specs.LanguageView.{language_view, unjudged_view};
ghost use Rattle.ylink_grammar.specs.WordView.{word_view};

use crate::language::{Language, Unjudged};
use ybase_words::Keyword;

/// A keyword of a language: one of the core, of features, patterns, operations or nodes without a type, or a condition that isn't judged.
#[derive(Clone, Copy, Debug)]
pub enum Word {
    Known(Keyword),
    Feature,
    IfFeature,
    Pattern,
    Modifier,
    Must,
    When,
    Rpc,
    Action,
    Notification,
    Input,
    Output,
    Anydata,
    Anyxml,
}

impl Word {
    ghost use Rattle.std.specs.Prelude.{◌≡◌};
    ghost use Rattle.yspec_wide.specs.Words as spec;
    ghost use Rattle.ylink_grammar.specs.WordView.{word_view};

    /// Its number, from 0.
    pub fn number(self) -> u8
        ensures { result ≡ spec.word_number (word_view self) }
    {
        match self {
            Word::Known(keyword) => keyword.number(),
            Word::Feature => 48,
            Word::IfFeature => 49,
            Word::Pattern => 50,
            Word::Modifier => 51,
            Word::Must => 52,
            Word::When => 53,
            Word::Rpc => 54,
            Word::Action => 55,
            Word::Notification => 56,
            Word::Input => 57,
            Word::Output => 58,
            Word::Anydata => 59,
            Word::Anyxml => 60,
        }
    }

    /// Whether two are the same.
    pub fn is(self, other: Word) -> bool
        ensures { result ≡ spec.same_word (word_view self) (word_view other) }
    {
        self.number() == other.number()
    }
}

/// The keyword of nodes without a type that a text is, if it is one.
fn anything_word(text: &str) -> Option<Word>
    ensures { option_map word_view result ≡ spec.anything_named text.now }
{
    match text {
        "anydata" => Some(Word::Anydata),
        "anyxml" => Some(Word::Anyxml),
        _ => None,
    }
}

/// The keyword of operations or of nodes without a type that a text is, if it is one.
fn operation_word(text: &str) -> Option<Word>
    ensures { option_map word_view result ≡ spec.operation_named text.now }
{
    match text {
        "rpc" => Some(Word::Rpc),
        "action" => Some(Word::Action),
        "notification" => Some(Word::Notification),
        "input" => Some(Word::Input),
        "output" => Some(Word::Output),
        _ => anything_word(text),
    }
}

/// The keyword that a text is besides those of the core, if it is one.
fn added_word(text: &str) -> Option<Word>
    ensures { option_map word_view result ≡ spec.or_added None text.now }
{
    match text {
        "feature" => Some(Word::Feature),
        "if-feature" => Some(Word::IfFeature),
        "pattern" => Some(Word::Pattern),
        "modifier" => Some(Word::Modifier),
        _ => operation_word(text),
    }
}

/// The condition that a text is, where it isn't to be judged.
fn unjudged_word(unjudged: Unjudged, text: &str) -> Option<Word>
    ensures { option_map word_view result ≡ spec.or_unjudged (unjudged_view unjudged) None text.now }
{
    if text == "must" && unjudged.musts {
        Some(Word::Must)
    } else if text == "when" && unjudged.whens {
        Some(Word::When)
    } else {
        None
    }
}

/// The keyword of the wide language that a text is besides those of the core, if it is one.
fn wide_word(unjudged: Unjudged, text: &str) -> Option<Word>
    ensures { option_map word_view result
        ≡ spec.or_unjudged (unjudged_view unjudged) (spec.or_added None text.now) text.now }
{
    match added_word(text) {
        Some(word) => Some(word),
        None => unjudged_word(unjudged, text),
    }
}

/// The keyword of a language that a text is, if it is one.
pub fn word_named(language: &Language, text: &str) -> Option<Word>
    ensures { option_map word_view result
        ≡ spec.word_named (language_view language.now) text.now }
{
    match language {
        Language::Core => match Keyword::named(text) {
            Some(keyword) => Some(Word::Known(keyword)),
            None => None,
        },
        Language::Rfc(wide) => match Keyword::named(text) {
            Some(keyword) => Some(Word::Known(keyword)),
            None => wide_word(wide.unjudged, text),
        },
    }
}
