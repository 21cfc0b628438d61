//! Faults as a walk gives them.

ghost use Rattle.std.specs.Prelude.{◌≡◌, [], map, option_map, string_bytes};
ghost use Rattle.std.specs.Option.{option_map_or, option_to_list};
ghost use Rattle.ycheck.specs.Walk.{repetition};
ghost use Rattle.ylive_list.specs.Listed.{judged_told};
ghost use Rattle.ylive_list.specs.Seen.{words_view};

use crate::place::Place;
use ycheck::{ErrorTag, FaultCode, FaultParts, LentInfo};
use ystore::Judged;

/// What a fault says but for its place.
#[derive(Clone, Copy)]
pub(crate) struct Words<'a> {
    pub(crate) code: FaultCode,
    pub(crate) app_tag: Option<&'a str>,
    pub(crate) info: LentInfo<'a>,
}

/// A broken rule, with the steps to the node at which it is told. It lends what is text and holds its steps, so it takes no
/// memory, and stands while the walk that gave it goes on.
#[derive(Clone, Copy)]
pub struct Seen<'a> {
    pub code: FaultCode,
    pub tag: ErrorTag,
    /// The error-app-tag of the restriction that is broken (RFC 7950, 7.5.4.2), or that of the code (RFC 7950, 15).
    pub app_tag: Option<&'a str>,
    pub place: Place,
    pub info: LentInfo<'a>,
}

impl<'a> Words<'a> {
    ghost use Rattle.std.specs.Prelude.{◌≡◌, []};
    ghost use Rattle.yspec.specs.document.Fault.{fault_with};
    ghost use Rattle.yspec.specs.document.RowFaults.{prefixed};
    ghost use Rattle.yinst_tree.specs.View.{place_view};
    ghost use Rattle.ycheck.specs.View.{code_view, lent_info_view};
    ghost use Rattle.ylive_list.specs.Seen.{seen_view, steps_in, words_view};

    /// With the error-app-tag of the code.
    pub(crate) fn of(code: FaultCode, info: LentInfo<'a>) -> Words<'a>
        ensures { words_view result ≡ fault_with (lent_info_view info.entry) (code_view code) [] }
    {
        Words {
            code,
            app_tag: code.app_tag(),
            info,
        }
    }

    /// Told of the node at a place.
    pub(crate) fn at(self, place: Place) -> Seen<'a>
        ensures { seen_view result ≡ prefixed (place_view (steps_in place)) (words_view self.entry) }
    {
        Seen {
            code: self.code,
            tag: self.code.tag(),
            app_tag: self.app_tag,
            place,
            info: self.info,
        }
    }
}

impl<'a> Seen<'a> {
    ghost use Rattle.std.specs.Prelude.{◌≡◌};
    ghost use Rattle.ycheck.specs.View.{parts_view};
    ghost use Rattle.ylive_list.specs.Seen.{seen_view};

    /// Its parts, of which the steps are lent by it.
    pub fn parts(&self) -> FaultParts<'_>
        ensures { parts_view result ≡ seen_view self.now }
    {
        FaultParts {
            code: self.code,
            tag: self.tag,
            app_tag: self.app_tag,
            steps: self.place.steps(),
            info: self.info,
        }
    }
}

fn lent_tag(app_tag: &Option<String>) -> Option<&str>
    ensures { option_map (λ t. t.now) result ≡ option_map string_bytes app_tag.now }
{
    match app_tag {
        Some(text) => Some(text.as_str()),
        None => None,
    }
}

/// What is told of a value.
pub(crate) fn judged_words<'a>(judged: Option<&'a Judged>) -> Option<Words<'a>>
    ensures { map words_view (option_to_list result)
        ≡ option_map_or judged_told (option_map (λ j. j.now) judged.entry) [] }
{
    match judged {
        Some(Judged::Wrong(app_tag)) => Some(Words {
            code: FaultCode::V1,
            app_tag: lent_tag(app_tag),
            info: LentInfo::None,
        }),
        Some(Judged::Missing) => Some(Words::of(FaultCode::V11, LentInfo::None)),
        _ => None,
    }
}

/// V10 of an item; of an entry V8 for the key, else V9 for a `unique`.
pub(crate) fn repetition<'a>(is_item: bool, which: usize) -> Words<'a>
    ensures { words_view result ≡ repetition is_item which }
{
    if is_item {
        Words::of(FaultCode::V10, LentInfo::None)
    } else if which == 0 {
        Words::of(FaultCode::V8, LentInfo::None)
    } else {
        Words::of(FaultCode::V9, LentInfo::Unique(which))
    }
}
