//! The keywords of YANG's statements (RFC 7950, 7 and 14).

ghost use Rattle.std.specs.Prelude.{◌≡◌, option_map};
ghost use Rattle.yspec.specs.linking.Keyword as spec;
ghost use Rattle.yspec.specs.linking.Parts.{defines_node};
ghost use Rattle.ybase_words.specs.KeywordView.{keyword_view};
ghost use Rattle.ybase_words.specs.Lengths.{named_among, is_four, is_six, is_nine, is_short, is_middle, is_long};

/// A keyword of the table of statements.
#[derive(Clone, Copy, Debug, PartialEq, Eq, PartialOrd, Ord)]
pub enum Keyword {
    Module,
    YangVersion,
    Namespace,
    Prefix,
    Import,
    RevisionDate,
    Organization,
    Contact,
    Description,
    Reference,
    Revision,
    Extension,
    Typedef,
    Grouping,
    Augment,
    Container,
    Leaf,
    LeafList,
    List,
    Choice,
    Case,
    Uses,
    Refine,
    Type,
    FractionDigits,
    Range,
    Length,
    Enum,
    Bit,
    Path,
    RequireInstance,
    ErrorMessage,
    ErrorAppTag,
    Value,
    Position,
    Units,
    Default,
    Config,
    Mandatory,
    Presence,
    MinElements,
    MaxElements,
    OrderedBy,
    Status,
    Key,
    Unique,
    Identity,
    Base,
}

/// How many keywords there are.
pub const KEYWORDS: usize = 48;

impl Keyword {
    /// Its number, from 0.
    pub fn number(self) -> u8
        ensures { result ≡ spec.keyword_number (keyword_view self) }
    {
        self as u8
    }

    /// Whether two are the same.
    pub fn is(self, other: Keyword) -> bool
        ensures { result ≡ spec.same_keyword (keyword_view self) (keyword_view other) }
    {
        self.number() == other.number()
    }

    /// Whether its statements define schema nodes (RFC 7950, 7.5 to 7.9).
    pub fn defines_node(self) -> bool
        ensures { result ≡ defines_node (keyword_view self) }
    {
        matches!(
            self,
            Keyword::Container
                | Keyword::Leaf
                | Keyword::LeafList
                | Keyword::List
                | Keyword::Choice
                | Keyword::Case
        )
    }

    /// The keyword that a text is, if it is one. It is looked for among those of about its length, frequent ones first.
    pub fn named(text: &str) -> Option<Keyword>
        ensures { option_map keyword_view result ≡ spec.keyword_named text.now }
    {
        let length = text.len();
        if length == 4 {
            of_four(text)
        } else if length == 6 {
            of_six(text)
        } else if length == 9 {
            of_nine(text)
        } else if length < 6 {
            of_short(text)
        } else if length < 9 {
            of_middle(text)
        } else {
            of_long(text)
        }
    }
}

fn of_four(text: &str) -> Option<Keyword>
    ensures { option_map keyword_view result ≡ named_among is_four text.now }
{
    Some(match text {
        "leaf" => Keyword::Leaf,
        "type" => Keyword::Type,
        "list" => Keyword::List,
        "case" => Keyword::Case,
        "uses" => Keyword::Uses,
        "enum" => Keyword::Enum,
        "path" => Keyword::Path,
        "base" => Keyword::Base,
        _ => return None,
    })
}

fn of_six(text: &str) -> Option<Keyword>
    ensures { option_map keyword_view result ≡ named_among is_six text.now }
{
    Some(match text {
        "module" => Keyword::Module,
        "prefix" => Keyword::Prefix,
        "import" => Keyword::Import,
        "choice" => Keyword::Choice,
        "refine" => Keyword::Refine,
        "length" => Keyword::Length,
        "config" => Keyword::Config,
        "status" => Keyword::Status,
        "unique" => Keyword::Unique,
        _ => return None,
    })
}

fn of_nine(text: &str) -> Option<Keyword>
    ensures { option_map keyword_view result ≡ named_among is_nine text.now }
{
    Some(match text {
        "container" => Keyword::Container,
        "leaf-list" => Keyword::LeafList,
        "mandatory" => Keyword::Mandatory,
        "namespace" => Keyword::Namespace,
        "reference" => Keyword::Reference,
        "extension" => Keyword::Extension,
        _ => return None,
    })
}

fn of_short(text: &str) -> Option<Keyword>
    ensures { option_map keyword_view result ≡ named_among is_short text.now }
{
    Some(match text {
        "range" => Keyword::Range,
        "bit" => Keyword::Bit,
        "value" => Keyword::Value,
        "units" => Keyword::Units,
        "key" => Keyword::Key,
        _ => return None,
    })
}

fn of_middle(text: &str) -> Option<Keyword>
    ensures { option_map keyword_view result ≡ named_among is_middle text.now }
{
    Some(match text {
        "default" => Keyword::Default,
        "contact" => Keyword::Contact,
        "revision" => Keyword::Revision,
        "typedef" => Keyword::Typedef,
        "grouping" => Keyword::Grouping,
        "augment" => Keyword::Augment,
        "position" => Keyword::Position,
        "presence" => Keyword::Presence,
        "identity" => Keyword::Identity,
        _ => return None,
    })
}

fn of_long(text: &str) -> Option<Keyword>
    ensures { option_map keyword_view result ≡ named_among is_long text.now }
{
    Some(match text {
        "description" => Keyword::Description,
        "yang-version" => Keyword::YangVersion,
        "revision-date" => Keyword::RevisionDate,
        "organization" => Keyword::Organization,
        "fraction-digits" => Keyword::FractionDigits,
        "require-instance" => Keyword::RequireInstance,
        "error-message" => Keyword::ErrorMessage,
        "error-app-tag" => Keyword::ErrorAppTag,
        "min-elements" => Keyword::MinElements,
        "max-elements" => Keyword::MaxElements,
        "ordered-by" => Keyword::OrderedBy,
        _ => return None,
    })
}
