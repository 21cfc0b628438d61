//! What is wrong with a text's characters, quotes and comments, and where.
ghost use Rattle.std.specs.Prelude.{◌≡◌, ◌+◌, ◌<◌, ◌≤◌, ◌^◌, length, option_map, IfSome, Err, false};
ghost use Rattle.std.specs.Option.{ForSome};
ghost use Rattle.yspec.specs.text.Scanning.{first_cause, cause_within, told_of, wrong_escape, cause};
ghost use Rattle.ytext.specs.Versions.{raw_in};
ghost use Rattle.ytext.specs.View.{extent, lexeme_of, Reaches};
ghost use Rattle.ytext.specs.Shown.{cause_of, shown};

use crate::cursor::Found;
use crate::fault::{TextCode, TextFault};
use crate::lexeme::Lexeme;
use crate::quoted::wrong_escape;
use crate::text::line_behind;

/// What is wrong, and where.
#[derive(Clone, Copy)]
pub(crate) struct Cause {
    pub(crate) code: TextCode,
    pub(crate) place: usize,
}

#[tactic(auto, using(crate::proofs::VersionLemmas::mended_none, crate::proofs::VersionLemmas::raw_plain))]
/// What is wrong between the double quotes the first of which stands at this place.
fn escape_cause(start: usize, raw: &str, is_yang_1: bool) -> Option<Cause>
    requires { start + length raw.now < 2 ^ 63 }
    ensures cause { option_map cause_of result
        ≡ option_map (λ place. cause 4 place) (wrong_escape false (start + 1) (raw_in is_yang_1 raw.now)) }
    ensures within { IfSome result (λ c. c.place ≤ start + length raw.now) }
{
    if is_yang_1 {
        return None;
    }
    match wrong_escape(raw.as_bytes(), start + 1) {
        Some(place) => Some(Cause {
            code: TextCode::L4,
            place,
        }),
        None => None,
    }
}

/// What is wrong in a token, or with what ends the text.
fn cause_within(start: usize, lexeme: Lexeme<'_>) -> Option<Cause>
    requires { start + extent lexeme < 2 ^ 63 }
    ensures cause { option_map cause_of result ≡ cause_within start (lexeme_of lexeme.entry) }
    ensures within { IfSome result (λ c. c.place ≤ start + extent lexeme.entry) }
{
    match lexeme {
        Lexeme::Double { raw, is_yang_1, .. } => escape_cause(start, raw, is_yang_1),
        Lexeme::UnclosedQuote | Lexeme::UnclosedComment => Some(Cause {
            code: TextCode::L3,
            place: start,
        }),
        Lexeme::StrayEnd => Some(Cause {
            code: TextCode::L5,
            place: start,
        }),
        _ => None,
    }
}

/// The first of what is wrong up to the end of a token: a character that isn't allowed, or something else.
fn first_cause(forbidden: Option<usize>, end: usize, other: Option<Cause>) -> Option<Cause>
    ensures { option_map cause_of result ≡ first_cause forbidden end (option_map cause_of other) }
{
    let Some(place) = forbidden else {
        return other;
    };
    let is_first = match other {
        Some(cause) => place < end && place < cause.place,
        None => place < end,
    };
    if is_first {
        Some(Cause {
            code: TextCode::L2,
            place,
        })
    } else {
        other
    }
}

/// The fault in the line of a cause. A line past the largest number is told as that one.
pub(crate) fn fault_of(text: &str, cause: Cause) -> TextFault
    requires { cause.place ≤ length text.now }
    ensures { shown (Err result) ≡ told_of text.now (cause_of cause) }
{
    let (before, _) = text.as_bytes().split_at(cause.place);
    TextFault::refused(cause.code, line_behind(before).min(4_294_967_295))
}

impl<'a> Found<'a> {
    /// The first of what is wrong up to the end of this piece.
    pub(crate) fn cause(self, forbidden: Option<usize>) -> Option<Cause>
        requires reaches { Reaches self.cursor.text.now self.cursor.at self.lexeme self.end }
        requires within { ForSome forbidden (λ place. place ≤ length self.cursor.text.now) }
        ensures cause { option_map cause_of result
            ≡ first_cause forbidden self.entry.end
            (cause_within self.entry.cursor.at (lexeme_of self.entry.lexeme)) }
        ensures within { IfSome result (λ c. c.place ≤ length self.entry.cursor.text.now) }
    {
        first_cause(
            forbidden,
            self.end,
            cause_within(self.cursor.at, self.lexeme),
        )
    }
}
