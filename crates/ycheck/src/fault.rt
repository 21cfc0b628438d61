//! What is wrong with a document.

ghost use Rattle.std.specs.Prelude.{◌≡◌, option_map, string_bytes};

use std::fmt;
use yinst_tree::Step;

/// Which rule a document breaks.
#[derive(Clone, Copy, Debug, PartialEq, Eq)]
pub enum FaultCode {
    /// A type doesn't take a value (RFC 7950, 8.3.1).
    V1 = 1,
    /// A key of an entry is missing (RFC 7950, 7.8.2).
    V2 = 2,
    /// A mandatory leaf is missing (RFC 7950, 7.6.5).
    V3 = 3,
    /// No case of a mandatory choice has a node (RFC 7950, 7.9.4).
    V4 = 4,
    /// More than one case of a choice has a node (RFC 7950, 7.9).
    V5 = 5,
    /// Too few entries or items (RFC 7950, 7.7.5).
    V6 = 6,
    /// Too many entries or items (RFC 7950, 7.7.6).
    V7 = 7,
    /// Another entry has the same key (RFC 7950, 7.8.2).
    V8 = 8,
    /// Another entry has the same values of a `unique` (RFC 7950, 7.8.3).
    V9 = 9,
    /// Another item has the same value, where items differ: in configuration, and in state of YANG 1 (RFC 7950, 7.7; RFC
    /// 6020, 7.7).
    V10 = 10,
    /// What a leafref refers to isn't there (RFC 7950, 9.9).
    V11 = 11,
    /// State data where configuration alone is looked at (RFC 7950, 7.21.1).
    V12 = 12,
}

impl FaultCode {
    ghost use Rattle.std.specs.Prelude.{◌≡◌, option_map};
    ghost use Rattle.yspec.specs.document.FaultCode.{fault_number, tag_of, own_app_tag};
    ghost use Rattle.ycheck.specs.View.{code_view, tag_name};

    /// The number behind the `V`.
    pub fn number(self) -> u8
        ensures { result ≡ fault_number (code_view self) }
    {
        self as u8
    }

    /// Its error-tag.
    pub fn tag(self) -> ErrorTag
        ensures { tag_name result ≡ tag_of (code_view self) }
    {
        match self {
            FaultCode::V1 => ErrorTag::InvalidValue,
            FaultCode::V2 => ErrorTag::MissingElement,
            FaultCode::V3 | FaultCode::V4 | FaultCode::V11 => ErrorTag::DataMissing,
            FaultCode::V5 => ErrorTag::BadElement,
            FaultCode::V6 | FaultCode::V7 | FaultCode::V8 | FaultCode::V9 | FaultCode::V10 => {
                ErrorTag::OperationFailed
            }
            FaultCode::V12 => ErrorTag::UnknownElement,
        }
    }

    /// The error-app-tag that it has of itself; that of a restriction is given with the fault.
    pub fn app_tag(self) -> Option<&'static str>
        ensures { option_map (λ t. t.now) result ≡ own_app_tag (code_view self) }
    {
        match self {
            FaultCode::V4 => Some("missing-choice"),
            FaultCode::V6 => Some("too-few-elements"),
            FaultCode::V7 => Some("too-many-elements"),
            FaultCode::V9 => Some("data-not-unique"),
            FaultCode::V11 => Some("instance-required"),
            FaultCode::V1
            | FaultCode::V2
            | FaultCode::V3
            | FaultCode::V5
            | FaultCode::V8
            | FaultCode::V10
            | FaultCode::V12 => None,
        }
    }
}

impl fmt::Display for FaultCode {
    fn fmt<W: fmt::Write>(&self, f: &mut fmt::Formatter<W>) -> fmt::Result {
        write!(f, "V{}", self.number())
    }
}

/// The error-tag of a fault (RFC 7950, 15).
#[derive(Clone, Copy, Debug, PartialEq, Eq)]
pub enum ErrorTag {
    InvalidValue,
    MissingElement,
    DataMissing,
    BadElement,
    OperationFailed,
    UnknownElement,
}

/// What a fault says besides its place.
#[derive(Debug, Drop)]
pub enum Info {
    None,
    /// The name of a choice.
    Choice(String),
    /// The number of a `unique` of its list, from 1.
    Unique(usize),
}

/// A broken rule, with the steps to the node at which it is told.
#[derive(Debug, Drop)]
pub struct Fault {
    pub code: FaultCode,
    pub tag: ErrorTag,
    /// The error-app-tag of the restriction that is broken (RFC 7950, 7.5.4.2), or that of the code (RFC 7950, 15).
    pub app_tag: Option<String>,
    pub steps: Vec<Step>,
    pub info: Info,
}

/// What a fault says besides its place, lent.
#[derive(Clone, Copy)]
pub enum LentInfo<'a> {
    None,
    /// The name of a choice.
    Choice(&'a str),
    /// The number of a `unique` of its list, from 1.
    Unique(usize),
}

/// The five parts of a fault, lent.
#[derive(Clone, Copy)]
pub struct FaultParts<'a> {
    pub code: FaultCode,
    pub tag: ErrorTag,
    pub app_tag: Option<&'a str>,
    pub steps: &'a [Step],
    pub info: LentInfo<'a>,
}

impl Info {
    ghost use Rattle.std.specs.Prelude.{◌≡◌};
    ghost use Rattle.ycheck.specs.View.{info_view, lent_info_view};

    fn lent(&self) -> LentInfo<'_>
        ensures { lent_info_view result ≡ info_view self.now }
    {
        match self {
            Info::None => LentInfo::None,
            Info::Choice(name) => LentInfo::Choice(name.as_str()),
            Info::Unique(number) => LentInfo::Unique(*number),
        }
    }
}

fn lent_tag(app_tag: &Option<String>) -> Option<&str>
    ensures { option_map (λ t. t.now) result ≡ option_map string_bytes app_tag.now }
{
    match app_tag {
        Some(text) => Some(text.as_str()),
        None => None,
    }
}

impl Fault {
    ghost use Rattle.std.specs.Prelude.{◌≡◌};
    ghost use Rattle.ycheck.specs.View.{parts_view, view};

    /// Its parts.
    pub fn parts(&self) -> FaultParts<'_>
        ensures { parts_view result ≡ view self.now }
    {
        FaultParts {
            code: self.code,
            tag: self.tag,
            app_tag: lent_tag(&self.app_tag),
            steps: &self.steps,
            info: self.info.lent(),
        }
    }
}
