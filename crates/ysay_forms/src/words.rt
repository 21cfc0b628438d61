//! Keywords as they are written.

ghost use Rattle.std.specs.Prelude.{◌≡◌};
ghost use Rattle.yspec.specs.linking.Keyword.{keyword_text};
ghost use Rattle.yspec_wide.specs.Words as spec;
ghost use Rattle.ybase_words.specs.KeywordView.{keyword_view};
ghost use Rattle.ylink_grammar.specs.WordView.{word_view};

use ybase_words::Keyword;
use ylink_grammar::Word;

fn keyword_text(keyword: Keyword) -> &'static str
    ensures { result.now ≡ keyword_text (keyword_view keyword) }
{
    match keyword {
        Keyword::Module => "module",
        Keyword::YangVersion => "yang-version",
        Keyword::Namespace => "namespace",
        Keyword::Prefix => "prefix",
        Keyword::Import => "import",
        Keyword::RevisionDate => "revision-date",
        Keyword::Organization => "organization",
        Keyword::Contact => "contact",
        Keyword::Description => "description",
        Keyword::Reference => "reference",
        Keyword::Revision => "revision",
        Keyword::Extension => "extension",
        Keyword::Typedef => "typedef",
        Keyword::Grouping => "grouping",
        Keyword::Augment => "augment",
        Keyword::Container => "container",
        Keyword::Leaf => "leaf",
        Keyword::LeafList => "leaf-list",
        Keyword::List => "list",
        Keyword::Choice => "choice",
        Keyword::Case => "case",
        Keyword::Uses => "uses",
        Keyword::Refine => "refine",
        Keyword::Type => "type",
        Keyword::FractionDigits => "fraction-digits",
        Keyword::Range => "range",
        Keyword::Length => "length",
        Keyword::Enum => "enum",
        Keyword::Bit => "bit",
        Keyword::Path => "path",
        Keyword::RequireInstance => "require-instance",
        Keyword::ErrorMessage => "error-message",
        Keyword::ErrorAppTag => "error-app-tag",
        Keyword::Value => "value",
        Keyword::Position => "position",
        Keyword::Units => "units",
        Keyword::Default => "default",
        Keyword::Config => "config",
        Keyword::Mandatory => "mandatory",
        Keyword::Presence => "presence",
        Keyword::MinElements => "min-elements",
        Keyword::MaxElements => "max-elements",
        Keyword::OrderedBy => "ordered-by",
        Keyword::Status => "status",
        Keyword::Key => "key",
        Keyword::Unique => "unique",
        Keyword::Identity => "identity",
        Keyword::Base => "base",
    }
}

/// A keyword as it is written.
pub(crate) fn word_text(word: Word) -> &'static str
    ensures { result.now ≡ spec.word_text (word_view word) }
{
    match word {
        Word::Known(keyword) => keyword_text(keyword),
        Word::Feature => "feature",
        Word::IfFeature => "if-feature",
        Word::Pattern => "pattern",
        Word::Modifier => "modifier",
        Word::Must => "must",
        Word::When => "when",
        Word::Rpc => "rpc",
        Word::Action => "action",
        Word::Notification => "notification",
        Word::Input => "input",
        Word::Output => "output",
        Word::Anydata => "anydata",
        Word::Anyxml => "anyxml",
    }
}
