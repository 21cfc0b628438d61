//! The table of statements (RFC 7950, 7 and 14).

ghost use Rattle.std.specs.Prelude.{◌≡◌, map};
ghost use Rattle.yspec.specs.linking.Table as spec;
ghost use Rattle.ylink_grammar.specs.Counts.{needs};
ghost use Rattle.ybase_words.specs.KeywordView.{keyword_view};
ghost use Rattle.ylink_grammar.specs.TableView.{rule_view};

use crate::form::Form;
use ybase_words::Keyword;

/// How many there may be of a substatement.
#[derive(Clone, Copy)]
pub(crate) enum Count {
    One,
    AtMostOne,
    Any,
}

/// A substatement that there may be, and how many of it.
#[derive(Clone, Copy)]
pub(crate) struct Allowed(pub Keyword, pub Count);

/// What a statement may have.
#[derive(Clone, Copy)]
pub(crate) struct Rule {
    pub form: Form,
    pub substatements: &'static [Allowed],
}

const IN_MODULE: &[Allowed] = &[
    Allowed(Keyword::YangVersion, Count::One),
    Allowed(Keyword::Namespace, Count::One),
    Allowed(Keyword::Prefix, Count::One),
    Allowed(Keyword::Import, Count::Any),
    Allowed(Keyword::Organization, Count::AtMostOne),
    Allowed(Keyword::Contact, Count::AtMostOne),
    Allowed(Keyword::Revision, Count::Any),
    Allowed(Keyword::Extension, Count::Any),
    Allowed(Keyword::Augment, Count::Any),
    Allowed(Keyword::Identity, Count::Any),
    Allowed(Keyword::Description, Count::AtMostOne),
    Allowed(Keyword::Reference, Count::AtMostOne),
    Allowed(Keyword::Typedef, Count::Any),
    Allowed(Keyword::Grouping, Count::Any),
    Allowed(Keyword::Uses, Count::Any),
    Allowed(Keyword::Container, Count::Any),
    Allowed(Keyword::Leaf, Count::Any),
    Allowed(Keyword::LeafList, Count::Any),
    Allowed(Keyword::List, Count::Any),
    Allowed(Keyword::Choice, Count::Any),
];

const IN_IMPORT: &[Allowed] = &[
    Allowed(Keyword::Prefix, Count::One),
    Allowed(Keyword::RevisionDate, Count::AtMostOne),
    Allowed(Keyword::Description, Count::AtMostOne),
    Allowed(Keyword::Reference, Count::AtMostOne),
];

pub(crate) const IN_REVISION: &[Allowed] = &[
    Allowed(Keyword::Description, Count::AtMostOne),
    Allowed(Keyword::Reference, Count::AtMostOne),
];

const IN_TYPEDEF: &[Allowed] = &[
    Allowed(Keyword::Type, Count::One),
    Allowed(Keyword::Units, Count::AtMostOne),
    Allowed(Keyword::Default, Count::AtMostOne),
    Allowed(Keyword::Status, Count::AtMostOne),
    Allowed(Keyword::Description, Count::AtMostOne),
    Allowed(Keyword::Reference, Count::AtMostOne),
];

pub(crate) const IN_GROUPING: &[Allowed] = &[
    Allowed(Keyword::Typedef, Count::Any),
    Allowed(Keyword::Grouping, Count::Any),
    Allowed(Keyword::Uses, Count::Any),
    Allowed(Keyword::Container, Count::Any),
    Allowed(Keyword::Leaf, Count::Any),
    Allowed(Keyword::LeafList, Count::Any),
    Allowed(Keyword::List, Count::Any),
    Allowed(Keyword::Choice, Count::Any),
    Allowed(Keyword::Status, Count::AtMostOne),
    Allowed(Keyword::Description, Count::AtMostOne),
    Allowed(Keyword::Reference, Count::AtMostOne),
];

pub(crate) const IN_CASE: &[Allowed] = &[
    Allowed(Keyword::Uses, Count::Any),
    Allowed(Keyword::Container, Count::Any),
    Allowed(Keyword::Leaf, Count::Any),
    Allowed(Keyword::LeafList, Count::Any),
    Allowed(Keyword::List, Count::Any),
    Allowed(Keyword::Choice, Count::Any),
    Allowed(Keyword::Status, Count::AtMostOne),
    Allowed(Keyword::Description, Count::AtMostOne),
    Allowed(Keyword::Reference, Count::AtMostOne),
];

pub(crate) const IN_AUGMENT: &[Allowed] = &[
    Allowed(Keyword::Case, Count::Any),
    Allowed(Keyword::Uses, Count::Any),
    Allowed(Keyword::Container, Count::Any),
    Allowed(Keyword::Leaf, Count::Any),
    Allowed(Keyword::LeafList, Count::Any),
    Allowed(Keyword::List, Count::Any),
    Allowed(Keyword::Choice, Count::Any),
    Allowed(Keyword::Status, Count::AtMostOne),
    Allowed(Keyword::Description, Count::AtMostOne),
    Allowed(Keyword::Reference, Count::AtMostOne),
];

pub(crate) const IN_CONTAINER: &[Allowed] = &[
    Allowed(Keyword::Presence, Count::AtMostOne),
    Allowed(Keyword::Config, Count::AtMostOne),
    Allowed(Keyword::Typedef, Count::Any),
    Allowed(Keyword::Grouping, Count::Any),
    Allowed(Keyword::Uses, Count::Any),
    Allowed(Keyword::Container, Count::Any),
    Allowed(Keyword::Leaf, Count::Any),
    Allowed(Keyword::LeafList, Count::Any),
    Allowed(Keyword::List, Count::Any),
    Allowed(Keyword::Choice, Count::Any),
    Allowed(Keyword::Status, Count::AtMostOne),
    Allowed(Keyword::Description, Count::AtMostOne),
    Allowed(Keyword::Reference, Count::AtMostOne),
];

pub(crate) const IN_LEAF: &[Allowed] = &[
    Allowed(Keyword::Type, Count::One),
    Allowed(Keyword::Units, Count::AtMostOne),
    Allowed(Keyword::Default, Count::AtMostOne),
    Allowed(Keyword::Config, Count::AtMostOne),
    Allowed(Keyword::Mandatory, Count::AtMostOne),
    Allowed(Keyword::Status, Count::AtMostOne),
    Allowed(Keyword::Description, Count::AtMostOne),
    Allowed(Keyword::Reference, Count::AtMostOne),
];

pub(crate) const IN_LEAF_LIST: &[Allowed] = &[
    Allowed(Keyword::Type, Count::One),
    Allowed(Keyword::Units, Count::AtMostOne),
    Allowed(Keyword::Default, Count::Any),
    Allowed(Keyword::Config, Count::AtMostOne),
    Allowed(Keyword::OrderedBy, Count::AtMostOne),
    Allowed(Keyword::MinElements, Count::AtMostOne),
    Allowed(Keyword::MaxElements, Count::AtMostOne),
    Allowed(Keyword::Status, Count::AtMostOne),
    Allowed(Keyword::Description, Count::AtMostOne),
    Allowed(Keyword::Reference, Count::AtMostOne),
];

pub(crate) const IN_LIST: &[Allowed] = &[
    Allowed(Keyword::Key, Count::AtMostOne),
    Allowed(Keyword::Unique, Count::Any),
    Allowed(Keyword::Config, Count::AtMostOne),
    Allowed(Keyword::OrderedBy, Count::AtMostOne),
    Allowed(Keyword::MinElements, Count::AtMostOne),
    Allowed(Keyword::MaxElements, Count::AtMostOne),
    Allowed(Keyword::Typedef, Count::Any),
    Allowed(Keyword::Grouping, Count::Any),
    Allowed(Keyword::Uses, Count::Any),
    Allowed(Keyword::Container, Count::Any),
    Allowed(Keyword::Leaf, Count::Any),
    Allowed(Keyword::LeafList, Count::Any),
    Allowed(Keyword::List, Count::Any),
    Allowed(Keyword::Choice, Count::Any),
    Allowed(Keyword::Status, Count::AtMostOne),
    Allowed(Keyword::Description, Count::AtMostOne),
    Allowed(Keyword::Reference, Count::AtMostOne),
];

pub(crate) const IN_CHOICE: &[Allowed] = &[
    Allowed(Keyword::Default, Count::AtMostOne),
    Allowed(Keyword::Config, Count::AtMostOne),
    Allowed(Keyword::Mandatory, Count::AtMostOne),
    Allowed(Keyword::Case, Count::Any),
    Allowed(Keyword::Container, Count::Any),
    Allowed(Keyword::Leaf, Count::Any),
    Allowed(Keyword::LeafList, Count::Any),
    Allowed(Keyword::List, Count::Any),
    Allowed(Keyword::Choice, Count::Any),
    Allowed(Keyword::Status, Count::AtMostOne),
    Allowed(Keyword::Description, Count::AtMostOne),
    Allowed(Keyword::Reference, Count::AtMostOne),
];

pub(crate) const IN_USES: &[Allowed] = &[
    Allowed(Keyword::Refine, Count::Any),
    Allowed(Keyword::Status, Count::AtMostOne),
    Allowed(Keyword::Description, Count::AtMostOne),
    Allowed(Keyword::Reference, Count::AtMostOne),
];

pub(crate) const IN_REFINE: &[Allowed] = &[
    Allowed(Keyword::Default, Count::Any),
    Allowed(Keyword::Mandatory, Count::AtMostOne),
    Allowed(Keyword::Presence, Count::AtMostOne),
    Allowed(Keyword::Config, Count::AtMostOne),
    Allowed(Keyword::MinElements, Count::AtMostOne),
    Allowed(Keyword::MaxElements, Count::AtMostOne),
    Allowed(Keyword::Description, Count::AtMostOne),
    Allowed(Keyword::Reference, Count::AtMostOne),
];

pub(crate) const IN_TYPE: &[Allowed] = &[
    Allowed(Keyword::FractionDigits, Count::AtMostOne),
    Allowed(Keyword::Range, Count::AtMostOne),
    Allowed(Keyword::Length, Count::AtMostOne),
    Allowed(Keyword::Enum, Count::Any),
    Allowed(Keyword::Bit, Count::Any),
    Allowed(Keyword::Path, Count::AtMostOne),
    Allowed(Keyword::RequireInstance, Count::AtMostOne),
    Allowed(Keyword::Type, Count::Any),
    Allowed(Keyword::Base, Count::Any),
];

pub(crate) const IN_RANGE: &[Allowed] = &[
    Allowed(Keyword::ErrorMessage, Count::AtMostOne),
    Allowed(Keyword::ErrorAppTag, Count::AtMostOne),
    Allowed(Keyword::Description, Count::AtMostOne),
    Allowed(Keyword::Reference, Count::AtMostOne),
];

pub(crate) const IN_ENUM: &[Allowed] = &[
    Allowed(Keyword::Value, Count::AtMostOne),
    Allowed(Keyword::Status, Count::AtMostOne),
    Allowed(Keyword::Description, Count::AtMostOne),
    Allowed(Keyword::Reference, Count::AtMostOne),
];

pub(crate) const IN_BIT: &[Allowed] = &[
    Allowed(Keyword::Position, Count::AtMostOne),
    Allowed(Keyword::Status, Count::AtMostOne),
    Allowed(Keyword::Description, Count::AtMostOne),
    Allowed(Keyword::Reference, Count::AtMostOne),
];

pub(crate) const IN_IDENTITY: &[Allowed] = &[
    Allowed(Keyword::Base, Count::Any),
    Allowed(Keyword::Status, Count::AtMostOne),
    Allowed(Keyword::Description, Count::AtMostOne),
    Allowed(Keyword::Reference, Count::AtMostOne),
];

/// The row of the table of a keyword.
pub(crate) fn rule_of(keyword: Keyword) -> Rule
    ensures { rule_view result ≡ spec.rule_of (keyword_view keyword) }
{
    let (form, substatements): (Form, &'static [Allowed]) = match keyword {
        Keyword::Module => (Form::Identifier, IN_MODULE),
        Keyword::YangVersion => (Form::Any, &[]),
        Keyword::Namespace => (Form::Any, &[]),
        Keyword::Prefix => (Form::Identifier, &[]),
        Keyword::Import => (Form::Identifier, IN_IMPORT),
        Keyword::RevisionDate => (Form::Date, &[]),
        Keyword::Organization => (Form::Any, &[]),
        Keyword::Contact => (Form::Any, &[]),
        Keyword::Description => (Form::Any, &[]),
        Keyword::Reference => (Form::Any, &[]),
        Keyword::Revision => (Form::Date, IN_REVISION),
        Keyword::Extension => (Form::Any, &[]),
        Keyword::Typedef => (Form::Identifier, IN_TYPEDEF),
        Keyword::Grouping => (Form::Identifier, IN_GROUPING),
        Keyword::Augment => (Form::AbsolutePath, IN_AUGMENT),
        Keyword::Container => (Form::Identifier, IN_CONTAINER),
        Keyword::Leaf => (Form::Identifier, IN_LEAF),
        Keyword::LeafList => (Form::Identifier, IN_LEAF_LIST),
        Keyword::List => (Form::Identifier, IN_LIST),
        Keyword::Choice => (Form::Identifier, IN_CHOICE),
        Keyword::Case => (Form::Identifier, IN_CASE),
        Keyword::Uses => (Form::Name, IN_USES),
        Keyword::Refine => (Form::RelativePath, IN_REFINE),
        Keyword::Type => (Form::Name, IN_TYPE),
        Keyword::FractionDigits => (Form::FractionDigits, &[]),
        Keyword::Range => (Form::Spans, IN_RANGE),
        Keyword::Length => (Form::Spans, IN_RANGE),
        Keyword::Enum => (Form::Any, IN_ENUM),
        Keyword::Bit => (Form::Identifier, IN_BIT),
        Keyword::Path => (Form::LeafrefPath, &[]),
        Keyword::RequireInstance => (Form::Flag, &[]),
        Keyword::ErrorMessage => (Form::Any, &[]),
        Keyword::ErrorAppTag => (Form::Any, &[]),
        Keyword::Value => (Form::Value, &[]),
        Keyword::Position => (Form::Count, &[]),
        Keyword::Units => (Form::Any, &[]),
        Keyword::Default => (Form::Any, &[]),
        Keyword::Config => (Form::Flag, &[]),
        Keyword::Mandatory => (Form::Flag, &[]),
        Keyword::Presence => (Form::Any, &[]),
        Keyword::MinElements => (Form::Count, &[]),
        Keyword::MaxElements => (Form::MaxElements, &[]),
        Keyword::OrderedBy => (Form::OrderedBy, &[]),
        Keyword::Status => (Form::Status, &[]),
        Keyword::Key => (Form::Key, &[]),
        Keyword::Unique => (Form::Unique, &[]),
        Keyword::Identity => (Form::Identifier, IN_IDENTITY),
        Keyword::Base => (Form::Name, &[]),
    };
    Rule {
        form,
        substatements,
    }
}

/// The keywords that a statement must have below it, once each; not `yang-version`, whose want is told by its own code.
pub(crate) fn needs_of(keyword: Keyword) -> &'static [Keyword]
    ensures { map keyword_view result.now
        ≡ needs (spec.rule_of (keyword_view keyword)).substatements }
{
    match keyword {
        Keyword::Module => &[Keyword::Namespace, Keyword::Prefix],
        Keyword::Import => &[Keyword::Prefix],
        Keyword::Typedef | Keyword::Leaf | Keyword::LeafList => &[Keyword::Type],
        _ => &[],
    }
}
