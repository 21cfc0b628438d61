//! The table of statements by language and version (RFC 7950, 1.1, 7.5.3, 7.10, 7.11, 7.14 to 7.16, 7.20, 7.21.5 and 9.4.5; RFC 6020, 7 and 12).

ghost use Rattle.std.specs.Prelude.{◌≡◌, [], IfNone, IfSome, map};
ghost use Rattle.yspec.specs.linking.Table as spec;
ghost use Rattle.yspec_wide.specs.Language as languages;
ghost use Rattle.yspec_wide.specs.Language.{yang_1, yang_1_1};
ghost use Rattle.yspec_wide.specs.Words.{known, must_word, notification_word, pattern_word, when_word};
ghost use Rattle.yspec_wide.specs.Table as wide;
ghost use Rattle.yspec_wide.specs.Table.{rule_before};
ghost use Rattle.ybase_words.specs.KeywordView.{keyword_view};
ghost use Rattle.ylink_conditions.specs.View.{version_view};
ghost use Rattle.ylink_grammar.specs.Counts.{needs, needs_of_word};
ghost use Rattle.ylink_grammar.specs.LanguageView.{language_view};
ghost use Rattle.ylink_grammar.specs.TableView.{allowed_views, rule_view, wide_rule_view};
ghost use Rattle.ylink_grammar.specs.WordView.{word_view};

use crate::form::WideForm::AsBefore;
use crate::form::{Form, WideForm};
use crate::language::Language;
use crate::table::{
    Allowed, Count, IN_AUGMENT, IN_BIT, IN_CASE, IN_CHOICE, IN_CONTAINER, IN_ENUM, IN_GROUPING,
    IN_IDENTITY, IN_LEAF, IN_LEAF_LIST, IN_LIST, IN_RANGE, IN_REFINE, IN_REVISION, IN_TYPE,
    IN_USES, Rule, needs_of, rule_of,
};
use crate::word::Word;
use ybase_words::Keyword;
use ylink_conditions::YangVersion;

/// What a statement may have in a language: an argument of a form, and substatements; ahead of the core's some that stand once at
/// most, and some any number of times, as those behind them.
#[derive(Clone, Copy)]
pub(crate) struct WideRule {
    pub form: WideForm,
    pub once: &'static [Word],
    pub ahead: &'static [Word],
    pub substatements: &'static [Allowed],
    pub behind: &'static [Word],
}

// `yang-version` may be missing.
const IN_MODULE_OF_ANY_VERSION: &[Allowed] = &[
    Allowed(Keyword::YangVersion, Count::AtMostOne),
    Allowed(Keyword::Namespace, Count::One),
    Allowed(Keyword::Prefix, Count::One),
    Allowed(Keyword::Import, Count::Any),
    Allowed(Keyword::Organization, Count::AtMostOne),
    Allowed(Keyword::Contact, Count::AtMostOne),
    Allowed(Keyword::Revision, Count::Any),
    Allowed(Keyword::Extension, Count::Any),
    Allowed(Keyword::Augment, Count::Any),
    Allowed(Keyword::Identity, Count::Any),
    Allowed(Keyword::Description, Count::AtMostOne),
    Allowed(Keyword::Reference, Count::AtMostOne),
    Allowed(Keyword::Typedef, Count::Any),
    Allowed(Keyword::Grouping, Count::Any),
    Allowed(Keyword::Uses, Count::Any),
    Allowed(Keyword::Container, Count::Any),
    Allowed(Keyword::Leaf, Count::Any),
    Allowed(Keyword::LeafList, Count::Any),
    Allowed(Keyword::List, Count::Any),
    Allowed(Keyword::Choice, Count::Any),
];

const BEHIND_MODULE: &[Word] = &[
    Word::Anydata,
    Word::Anyxml,
    Word::Feature,
    Word::Rpc,
    Word::Notification,
];

const BEHIND_MODULE_OF_YANG_1: &[Word] = &[
    Word::Anyxml,
    Word::Feature,
    Word::Rpc,
    Word::Notification,
];

const CONDITIONS: &[Word] = &[Word::IfFeature];

const BEHIND_USES: &[Word] = &[Word::IfFeature, Word::Known(Keyword::Augment)];

const CONSTRAINTS: &[Word] = &[Word::IfFeature, Word::Must];

const MUSTS: &[Word] = &[Word::Must];

// Of nodes without a type YANG 1 has `anyxml` alone.
const ANYXML: &[Word] = &[Word::Anyxml];

// Nodes without a type, and operations.
const BEHIND_GROUPING: &[Word] = &[
    Word::Anydata,
    Word::Anyxml,
    Word::Action,
    Word::Notification,
];

// Nodes without a type, and conditions.
const BEHIND_CASE: &[Word] = &[Word::Anydata, Word::Anyxml, Word::IfFeature];

const BEHIND_CASE_OF_YANG_1: &[Word] = &[Word::Anyxml, Word::IfFeature];

// The same, and operations.
const BEHIND_AUGMENT: &[Word] = &[
    Word::Anydata,
    Word::Anyxml,
    Word::IfFeature,
    Word::Action,
    Word::Notification,
];

// Nodes without a type, constraints, and operations.
const BEHIND_CONTAINER: &[Word] = &[
    Word::Anydata,
    Word::Anyxml,
    Word::IfFeature,
    Word::Must,
    Word::Action,
    Word::Notification,
];

const BEHIND_CONTAINER_OF_YANG_1: &[Word] = &[Word::Anyxml, Word::IfFeature, Word::Must];

const AHEAD_OF_SIDE: &[Word] = &[Word::Must, Word::Anydata, Word::Anyxml];

const AHEAD_OF_NOTIFICATION: &[Word] = &[Word::IfFeature, Word::Must, Word::Anydata, Word::Anyxml];

const AHEAD_OF_NOTIFICATION_OF_YANG_1: &[Word] = &[Word::IfFeature, Word::Anyxml];

const SIDES: &[Word] = &[Word::Input, Word::Output];

const WHENS: &[Word] = &[Word::When];

const PATTERNS: &[Word] = &[Word::Pattern];

const MODIFIERS: &[Word] = &[Word::Modifier];

const IN_FEATURE: &[Allowed] = &[
    Allowed(Keyword::Status, Count::AtMostOne),
    Allowed(Keyword::Description, Count::AtMostOne),
    Allowed(Keyword::Reference, Count::AtMostOne),
];

const IN_CALL: &[Allowed] = &[
    Allowed(Keyword::Typedef, Count::Any),
    Allowed(Keyword::Grouping, Count::Any),
    Allowed(Keyword::Status, Count::AtMostOne),
    Allowed(Keyword::Description, Count::AtMostOne),
    Allowed(Keyword::Reference, Count::AtMostOne),
];

const IN_SIDE: &[Allowed] = &[
    Allowed(Keyword::Typedef, Count::Any),
    Allowed(Keyword::Grouping, Count::Any),
    Allowed(Keyword::Uses, Count::Any),
    Allowed(Keyword::Container, Count::Any),
    Allowed(Keyword::Leaf, Count::Any),
    Allowed(Keyword::LeafList, Count::Any),
    Allowed(Keyword::List, Count::Any),
    Allowed(Keyword::Choice, Count::Any),
];

const IN_ANYTHING: &[Allowed] = &[
    Allowed(Keyword::Config, Count::AtMostOne),
    Allowed(Keyword::Mandatory, Count::AtMostOne),
    Allowed(Keyword::Status, Count::AtMostOne),
    Allowed(Keyword::Description, Count::AtMostOne),
    Allowed(Keyword::Reference, Count::AtMostOne),
];

const IN_IMPORT_OF_YANG_1: &[Allowed] = &[
    Allowed(Keyword::Prefix, Count::One),
    Allowed(Keyword::RevisionDate, Count::AtMostOne),
];

const IN_LEAF_LIST_OF_YANG_1: &[Allowed] = &[
    Allowed(Keyword::Type, Count::One),
    Allowed(Keyword::Units, Count::AtMostOne),
    Allowed(Keyword::Config, Count::AtMostOne),
    Allowed(Keyword::OrderedBy, Count::AtMostOne),
    Allowed(Keyword::MinElements, Count::AtMostOne),
    Allowed(Keyword::MaxElements, Count::AtMostOne),
    Allowed(Keyword::Status, Count::AtMostOne),
    Allowed(Keyword::Description, Count::AtMostOne),
    Allowed(Keyword::Reference, Count::AtMostOne),
];

const IN_CHOICE_OF_YANG_1: &[Allowed] = &[
    Allowed(Keyword::Default, Count::AtMostOne),
    Allowed(Keyword::Config, Count::AtMostOne),
    Allowed(Keyword::Mandatory, Count::AtMostOne),
    Allowed(Keyword::Case, Count::Any),
    Allowed(Keyword::Container, Count::Any),
    Allowed(Keyword::Leaf, Count::Any),
    Allowed(Keyword::LeafList, Count::Any),
    Allowed(Keyword::List, Count::Any),
    Allowed(Keyword::Status, Count::AtMostOne),
    Allowed(Keyword::Description, Count::AtMostOne),
    Allowed(Keyword::Reference, Count::AtMostOne),
];

const IN_REFINE_OF_YANG_1: &[Allowed] = &[
    Allowed(Keyword::Default, Count::AtMostOne),
    Allowed(Keyword::Mandatory, Count::AtMostOne),
    Allowed(Keyword::Presence, Count::AtMostOne),
    Allowed(Keyword::Config, Count::AtMostOne),
    Allowed(Keyword::MinElements, Count::AtMostOne),
    Allowed(Keyword::MaxElements, Count::AtMostOne),
    Allowed(Keyword::Description, Count::AtMostOne),
    Allowed(Keyword::Reference, Count::AtMostOne),
];

const IN_TYPE_OF_YANG_1: &[Allowed] = &[
    Allowed(Keyword::FractionDigits, Count::AtMostOne),
    Allowed(Keyword::Range, Count::AtMostOne),
    Allowed(Keyword::Length, Count::AtMostOne),
    Allowed(Keyword::Enum, Count::Any),
    Allowed(Keyword::Bit, Count::Any),
    Allowed(Keyword::Path, Count::AtMostOne),
    Allowed(Keyword::RequireInstance, Count::AtMostOne),
    Allowed(Keyword::Type, Count::Any),
    Allowed(Keyword::Base, Count::AtMostOne),
];

const IN_IDENTITY_OF_YANG_1: &[Allowed] = &[
    Allowed(Keyword::Base, Count::AtMostOne),
    Allowed(Keyword::Status, Count::AtMostOne),
    Allowed(Keyword::Description, Count::AtMostOne),
    Allowed(Keyword::Reference, Count::AtMostOne),
];

/// A row of the core's table as one of a language.
fn rule_as_before(rule: Rule) -> WideRule
    ensures rule { wide_rule_view result ≡ rule_before (rule_view rule) }
    ensures needs { needs (allowed_views result.substatements.now)
        ≡ needs (rule_view rule).substatements }
{
    WideRule {
        form: AsBefore(rule.form),
        once: &[],
        ahead: &[],
        substatements: rule.substatements,
        behind: &[],
    }
}

/// The row of a keyword of the core in YANG 1.1 with features, where it is another than the core's.
fn row_of_yang_1_1(keyword: Keyword) -> Option<WideRule>
    ensures some { IfSome result
        (λ rule. wide_rule_view rule ≡ wide.wide_rule yang_1_1 (known (keyword_view keyword))) }
    ensures needs { IfSome result (λ rule. needs (allowed_views rule.substatements.now)
        ≡ needs (spec.rule_of (keyword_view keyword)).substatements) }
    ensures none { IfNone result (wide.wide_rule yang_1_1 (known (keyword_view keyword))
        ≡ rule_before (spec.rule_of (keyword_view keyword))) }
{
    let (form, once, substatements, behind): (
        WideForm,
        &'static [Word],
        &'static [Allowed],
        &'static [Word],
    ) = match keyword {
        Keyword::Module => (
            AsBefore(Form::Identifier),
            &[],
            IN_MODULE_OF_ANY_VERSION,
            BEHIND_MODULE,
        ),
        Keyword::Prefix => (WideForm::Prefix, &[], &[], &[]),
        Keyword::Grouping => (
            AsBefore(Form::Identifier),
            &[],
            IN_GROUPING,
            BEHIND_GROUPING,
        ),
        Keyword::Container => (
            AsBefore(Form::Identifier),
            WHENS,
            IN_CONTAINER,
            BEHIND_CONTAINER,
        ),
        Keyword::Leaf => (AsBefore(Form::Identifier), WHENS, IN_LEAF, CONSTRAINTS),
        Keyword::LeafList => (AsBefore(Form::Identifier), WHENS, IN_LEAF_LIST, CONSTRAINTS),
        Keyword::List => (AsBefore(Form::Identifier), WHENS, IN_LIST, BEHIND_CONTAINER),
        Keyword::Choice => (AsBefore(Form::Identifier), WHENS, IN_CHOICE, BEHIND_CASE),
        Keyword::Case => (AsBefore(Form::Identifier), WHENS, IN_CASE, BEHIND_CASE),
        Keyword::Uses => (AsBefore(Form::Name), WHENS, IN_USES, BEHIND_USES),
        Keyword::Refine => (AsBefore(Form::RelativePath), &[], IN_REFINE, CONSTRAINTS),
        Keyword::Augment => (
            AsBefore(Form::AbsolutePath),
            WHENS,
            IN_AUGMENT,
            BEHIND_AUGMENT,
        ),
        Keyword::Type => (AsBefore(Form::Name), &[], IN_TYPE, PATTERNS),
        Keyword::Identity => (AsBefore(Form::Identifier), &[], IN_IDENTITY, CONDITIONS),
        Keyword::Enum => (AsBefore(Form::Any), &[], IN_ENUM, CONDITIONS),
        Keyword::Bit => (AsBefore(Form::Identifier), &[], IN_BIT, CONDITIONS),
        _ => return None,
    };
    Some(WideRule {
        form,
        once,
        ahead: &[],
        substatements,
        behind,
    })
}

fn rule_of_yang_1_1(keyword: Keyword) -> WideRule
    ensures rule { wide_rule_view result ≡ wide.wide_rule yang_1_1 (known (keyword_view keyword)) }
    ensures needs { needs (allowed_views result.substatements.now)
        ≡ needs (spec.rule_of (keyword_view keyword)).substatements }
{
    match row_of_yang_1_1(keyword) {
        Some(rule) => rule,
        None => rule_as_before(rule_of(keyword)),
    }
}

/// The row of a keyword of the core in YANG 1 with features, where that lacks something of YANG 1.1 (RFC 7950, 1.1).
fn row_of_yang_1(keyword: Keyword) -> Option<WideRule>
    ensures some { IfSome result
        (λ rule. wide_rule_view rule ≡ wide.wide_rule yang_1 (known (keyword_view keyword))) }
    ensures needs { IfSome result (λ rule. needs (allowed_views rule.substatements.now)
        ≡ needs (spec.rule_of (keyword_view keyword)).substatements) }
    ensures none { IfNone result (wide.wide_rule yang_1 (known (keyword_view keyword))
        ≡ wide.wide_rule yang_1_1 (known (keyword_view keyword))) }
{
    let (form, once, substatements, behind): (
        Form,
        &'static [Word],
        &'static [Allowed],
        &'static [Word],
    ) = match keyword {
        Keyword::Module => (
            Form::Identifier,
            &[],
            IN_MODULE_OF_ANY_VERSION,
            BEHIND_MODULE_OF_YANG_1,
        ),
        Keyword::Import => (Form::Identifier, &[], IN_IMPORT_OF_YANG_1, &[]),
        Keyword::Grouping => (Form::Identifier, &[], IN_GROUPING, ANYXML),
        Keyword::Augment => (Form::AbsolutePath, WHENS, IN_AUGMENT, BEHIND_CASE_OF_YANG_1),
        Keyword::Container => (
            Form::Identifier,
            WHENS,
            IN_CONTAINER,
            BEHIND_CONTAINER_OF_YANG_1,
        ),
        Keyword::List => (Form::Identifier, WHENS, IN_LIST, BEHIND_CONTAINER_OF_YANG_1),
        Keyword::Case => (Form::Identifier, WHENS, IN_CASE, BEHIND_CASE_OF_YANG_1),
        Keyword::LeafList => (Form::Identifier, WHENS, IN_LEAF_LIST_OF_YANG_1, CONSTRAINTS),
        Keyword::Choice => (
            Form::Identifier,
            WHENS,
            IN_CHOICE_OF_YANG_1,
            BEHIND_CASE_OF_YANG_1,
        ),
        Keyword::Refine => (Form::RelativePath, &[], IN_REFINE_OF_YANG_1, MUSTS),
        Keyword::Type => (Form::Name, &[], IN_TYPE_OF_YANG_1, PATTERNS),
        Keyword::Identity => (Form::Identifier, &[], IN_IDENTITY_OF_YANG_1, &[]),
        Keyword::Enum => (Form::Any, &[], IN_ENUM, &[]),
        Keyword::Bit => (Form::Identifier, &[], IN_BIT, &[]),
        _ => return None,
    };
    Some(WideRule {
        form: AsBefore(form),
        once,
        ahead: &[],
        substatements,
        behind,
    })
}

fn rule_of_yang_1(keyword: Keyword) -> WideRule
    ensures rule { wide_rule_view result ≡ wide.wide_rule yang_1 (known (keyword_view keyword)) }
    ensures needs { needs (allowed_views result.substatements.now)
        ≡ needs (spec.rule_of (keyword_view keyword)).substatements }
{
    match row_of_yang_1(keyword) {
        Some(rule) => rule,
        None => rule_of_yang_1_1(keyword),
    }
}

fn core_rule(word: Word) -> WideRule
    ensures rule { wide_rule_view result ≡ wide.core_rule (word_view word) }
    ensures needs { needs (allowed_views result.substatements.now) ≡ needs_of_word (word_view word) }
{
    match word {
        Word::Known(keyword) => rule_as_before(rule_of(keyword)),
        Word::Feature
        | Word::IfFeature
        | Word::Pattern
        | Word::Modifier
        | Word::Must
        | Word::When
        | Word::Rpc
        | Word::Action
        | Word::Notification
        | Word::Input
        | Word::Output
        | Word::Anydata
        | Word::Anyxml => WideRule {
            form: AsBefore(Form::Any),
            once: &[],
            ahead: &[],
            substatements: &[],
            behind: &[],
        },
    }
}

/// The row of `pattern`: YANG 1 has no `modifier` (RFC 7950, 1.1).
fn rule_of_pattern(version: YangVersion) -> WideRule
    ensures rule { wide_rule_view result ≡ wide.wide_rule (version_view version) pattern_word }
    ensures needs { needs (allowed_views result.substatements.now) ≡ [] }
{
    let once: &'static [Word] = match version {
        YangVersion::Yang1 => &[],
        YangVersion::Yang1_1 => MODIFIERS,
    };
    WideRule {
        form: AsBefore(Form::Any),
        once,
        ahead: &[],
        substatements: IN_RANGE,
        behind: &[],
    }
}

/// The row of `must`, whose argument isn't read.
fn rule_of_must() -> WideRule
    ensures rule { (version : languages.YangVersion) → wide_rule_view result ≡ wide.wide_rule version must_word }
    ensures needs { needs (allowed_views result.substatements.now) ≡ [] }
{
    WideRule {
        form: AsBefore(Form::Any),
        once: &[],
        ahead: &[],
        substatements: IN_RANGE,
        behind: &[],
    }
}

/// The row of `when`, whose argument isn't read.
fn rule_of_when() -> WideRule
    ensures rule { (version : languages.YangVersion) → wide_rule_view result ≡ wide.wide_rule version when_word }
    ensures needs { needs (allowed_views result.substatements.now) ≡ [] }
{
    WideRule {
        form: AsBefore(Form::Any),
        once: &[],
        ahead: &[],
        substatements: IN_REVISION,
        behind: &[],
    }
}

/// The row of `input` and of `output`, in which YANG 1 has no `must`.
fn rule_of_side(version: YangVersion) -> WideRule
    ensures rule { wide_rule_view result
        ≡ record { form = wide.no_argument; substatements = wide.in_side (version_view version) } }
    ensures needs { needs (allowed_views result.substatements.now) ≡ [] }
{
    let ahead: &'static [Word] = match version {
        YangVersion::Yang1 => ANYXML,
        YangVersion::Yang1_1 => AHEAD_OF_SIDE,
    };
    WideRule {
        form: WideForm::NoArgument,
        once: &[],
        ahead,
        substatements: IN_SIDE,
        behind: &[],
    }
}

/// The row of `notification`, in which YANG 1 has no `must`.
fn rule_of_notification(version: YangVersion) -> WideRule
    ensures rule { wide_rule_view result ≡ wide.wide_rule (version_view version) notification_word }
    ensures needs { needs (allowed_views result.substatements.now) ≡ [] }
{
    let ahead = match version {
        YangVersion::Yang1 => AHEAD_OF_NOTIFICATION_OF_YANG_1,
        YangVersion::Yang1_1 => AHEAD_OF_NOTIFICATION,
    };
    WideRule {
        form: AsBefore(Form::Identifier),
        once: &[],
        ahead,
        substatements: IN_GROUPING,
        behind: &[],
    }
}

fn wide_rule(version: YangVersion, word: Word) -> WideRule
    ensures rule { wide_rule_view result ≡ wide.wide_rule (version_view version) (word_view word) }
    ensures needs { needs (allowed_views result.substatements.now) ≡ needs_of_word (word_view word) }
{
    match word {
        Word::Known(keyword) => match version {
            YangVersion::Yang1 => rule_of_yang_1(keyword),
            YangVersion::Yang1_1 => rule_of_yang_1_1(keyword),
        },
        Word::Feature => WideRule {
            form: AsBefore(Form::Identifier),
            once: &[],
            ahead: CONDITIONS,
            substatements: IN_FEATURE,
            behind: &[],
        },
        Word::IfFeature => WideRule {
            form: WideForm::IfFeature,
            once: &[],
            ahead: &[],
            substatements: &[],
            behind: &[],
        },
        Word::Pattern => rule_of_pattern(version),
        Word::Modifier => WideRule {
            form: WideForm::Modifier,
            once: &[],
            ahead: &[],
            substatements: &[],
            behind: &[],
        },
        Word::Must => rule_of_must(),
        Word::When => rule_of_when(),
        Word::Rpc | Word::Action => WideRule {
            form: AsBefore(Form::Identifier),
            once: SIDES,
            ahead: CONDITIONS,
            substatements: IN_CALL,
            behind: &[],
        },
        Word::Notification => rule_of_notification(version),
        Word::Input | Word::Output => rule_of_side(version),
        Word::Anydata | Word::Anyxml => WideRule {
            form: AsBefore(Form::Identifier),
            once: WHENS,
            ahead: CONSTRAINTS,
            substatements: IN_ANYTHING,
            behind: &[],
        },
    }
}

/// The row of the table of a keyword, by language and version.
pub(crate) fn rule_in(language: &Language, version: YangVersion, word: Word) -> WideRule
    ensures rule { wide_rule_view result
        ≡ wide.rule_in (language_view language.now) (version_view version) (word_view word) }
    ensures needs { needs (allowed_views result.substatements.now) ≡ needs_of_word (word_view word) }
{
    match language {
        Language::Core => core_rule(word),
        Language::Rfc(_) => wide_rule(version, word),
    }
}

/// The keywords that a statement must have below it, once each, whatever the language.
pub(crate) fn needs_in(word: Word) -> &'static [Keyword]
    ensures { map keyword_view result.now ≡ needs_of_word (word_view word) }
{
    match word {
        Word::Known(keyword) => needs_of(keyword),
        Word::Feature
        | Word::IfFeature
        | Word::Pattern
        | Word::Modifier
        | Word::Must
        | Word::When
        | Word::Rpc
        | Word::Action
        | Word::Notification
        | Word::Input
        | Word::Output
        | Word::Anydata
        | Word::Anyxml => &[],
    }
}
