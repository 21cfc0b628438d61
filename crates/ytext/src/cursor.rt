//! The tokens of a text, one after another (RFC 7950, 6.1).
ghost use Rattle.std.specs.Prelude.{ℕ, ◌≡◌, suc, ◌+◌, ◌-◌, ◌<◌, ◌≤◌, ◌∷◌, false, length, take, drop, slice_index, slice_range};
ghost use Rattle.std.specs.Str.{IsCharBoundary};

use crate::lexeme::{Front, Lexeme, Standing};
use crate::scan::{
    behind_ascii, comment_end, double_end, is_white, line_end, single_end, stands_at, word_end,
};

/// A lexeme with its line.
#[derive(Clone, Copy)]
pub(crate) struct Lexed<'a> {
    pub(crate) line: u64,
    pub(crate) lexeme: Lexeme<'a>,
}

/// A place in a text, with its line, where that line begins, and where in a statement it is.
#[derive(Clone, Copy)]
pub(crate) struct Cursor<'a> {
    pub(crate) text: &'a str,
    pub(crate) at: usize,
    pub(crate) line: u64,
    pub(crate) line_start: usize,
    pub(crate) standing: Standing,
    pub ghost place: { IsCharBoundary text.now at },
    pub ghost line_begun: { line_start ≤ at },
    pub ghost few_lines: { line ≤ at + 1 },
}

/// What stands at a place, and where it ends. What ends the text ends where it begins.
#[derive(Clone, Copy)]
pub(crate) struct Found<'a> {
    pub(crate) cursor: Cursor<'a>,
    pub(crate) lexeme: Lexeme<'a>,
    pub(crate) end: usize,
}

impl<'a> Cursor<'a> {
    ghost use Rattle.yspec.specs.text.Token.{word, token, slash_front, single_front, double_front, other_front};
    ghost use Rattle.yspec.specs.text.Scanning.{pieces_of};
    ghost use Rattle.yspec_wide.specs.Texts.{longer_word};
    ghost use Rattle.ytext.specs.View.{ends_text, extent, indent, front_of, lexeme_of, GoesOn, Reaches};
    ghost use Rattle.ytext.specs.Versions.{tokens_in, run_length};
    ghost use Rattle.ytext.specs.Left.{left, pieces_left, pieces_behind, pieces_after, column_of, stands, stands_plainly, with_piece, with_token, behind_found};

    /// The beginning of a text, of YANG 1 or of YANG 1.1.
    pub(crate) fn new(text: &'a str, is_yang_1: bool) -> Cursor<'a>
        ensures start { left result ≡ tokens_in is_yang_1 text.now }
        ensures pieces { is_yang_1 ≡ false → pieces_left result ≡ pieces_of text.now }
        ensures text { result.text.now ≡ text.now }
    {
        Cursor {
            text,
            at: 0,
            line: 1,
            line_start: 0,
            standing: Standing::first(is_yang_1),
        }
    }

    /// The same place, behind a token that ends there.
    fn standing_at(self, standing: Standing) -> Cursor<'a>
        ensures text { result.text.now ≡ self.entry.text.now }
        ensures at { result.at ≡ self.entry.at }
        ensures pieces { (skip : ℕ) → pieces_behind skip result ≡ pieces_after standing skip self.entry }
    {
        Cursor {
            text: self.text,
            at: self.at,
            line: self.line,
            line_start: self.line_start,
            standing,
        }
    }

    /// A later place.
    pub(crate) fn moved_to(self, end: usize) -> Cursor<'a>
        requires forward { self.at ≤ end }
        requires place { IsCharBoundary self.text.now end }
        ensures text { result.text.now ≡ self.entry.text.now }
        ensures at { result.at ≡ end }
        ensures pieces { pieces_left result ≡ pieces_behind (end - self.entry.at) self.entry }
    {
        let bytes = self.text.as_bytes();
        let mut line = self.line;
        let mut line_start = self.line_start;
        for i in self.at..end {
            if bytes[i] == b'\n' {
                line += 1;
                line_start = i + 1;
            }
        }
        Cursor {
            text: self.text,
            at: end,
            line,
            line_start,
            standing: self.standing,
        }
    }

    /// The text between two places.
    pub(crate) fn between(self, start: usize, end: usize) -> &'a str
        requires order { start ≤ end }
        requires start { IsCharBoundary self.text.now start }
        requires end { IsCharBoundary self.text.now end }
        ensures text { result.now ≡ slice_range self.entry.text.now start end }
        ensures length { length result.now ≡ end - start }
    {
        &self.text[start..end]
    }

    fn word(self, keeps_quotes: bool) -> Front<'a>
        requires { self.at < length self.text.now }
        ensures later { GoesOn self.entry.text.now self.entry.at result }
        ensures front { let xs = drop (self.entry.at + 1) self.entry.text.now in
            let n = run_length keeps_quotes xs in
            front_of self.entry.at result
            ≡ token (word (slice_index self.entry.text.now self.entry.at ∷ take n xs)) (suc n) }
    {
        let end = word_end(self.text.as_bytes(), self.at + 1, keeps_quotes);
        Front::Token(Lexeme::Word(self.between(self.at, end)), end)
    }

    fn slash(self) -> Front<'a>
        requires slash { slice_index self.text.now self.at ≡ 47 }
        requires within { self.at < length self.text.now }
        ensures later { GoesOn self.entry.text.now self.entry.at result }
        ensures front { front_of self.entry.at result
            ≡ slash_front (drop (self.entry.at + 1) self.entry.text.now) }
    {
        let bytes = self.text.as_bytes();
        if stands_at(bytes, self.at + 1, b'/') {
            Front::Gap(line_end(bytes, self.at + 1))
        } else if stands_at(bytes, self.at + 1, b'*') {
            match comment_end(bytes, self.at + 2) {
                Some(end) => Front::Gap(end),
                None => Front::Last(Lexeme::UnclosedComment),
            }
        } else {
            self.word(false)
        }
    }

    fn single(self) -> Front<'a>
        requires quote { slice_index self.text.now self.at ≡ 39 }
        requires within { self.at < length self.text.now }
        ensures later { GoesOn self.entry.text.now self.entry.at result }
        ensures front { front_of self.entry.at result
            ≡ single_front (drop (self.entry.at + 1) self.entry.text.now) }
    {
        match single_end(self.text.as_bytes(), self.at + 1) {
            Some(end) => {
                let raw = self.between(behind_ascii(self.text, self.at), end);
                Front::Token(Lexeme::Single(raw), behind_ascii(self.text, end))
            }
            None => Front::Last(Lexeme::UnclosedQuote),
        }
    }

    fn double(self) -> Front<'a>
        requires quote { slice_index self.text.now self.at ≡ 34 }
        requires within { self.at < length self.text.now }
        ensures later { GoesOn self.entry.text.now self.entry.at result }
        ensures front { front_of self.entry.at result
            ≡ double_front (column_of self.entry) (drop (self.entry.at + 1) self.entry.text.now) }
    {
        let bytes = self.text.as_bytes();
        match double_end(bytes, self.at + 1) {
            Some(end) => {
                let before = &bytes[self.line_start..self.at];
                let raw = self.between(behind_ascii(self.text, self.at), end);
                let string = Lexeme::Double {
                    before,
                    raw,
                    is_yang_1: false,
                };
                Front::Token(string, behind_ascii(self.text, end))
            }
            None => Front::Last(Lexeme::UnclosedQuote),
        }
    }

    #[tactic(auto, using(crate::proofs::VersionLemmas::longer_is, crate::proofs::VersionLemmas::longer_not))]
    /// What stands here, where that is the argument of a statement of YANG 1.
    fn longer(self, front: Front<'a>) -> Front<'a>
        requires within { self.at < length self.text.now }
        requires later { GoesOn self.text.now self.at front }
        ensures later { GoesOn self.entry.text.now self.entry.at result }
        ensures front { front_of self.entry.at result
            ≡ longer_word (slice_index self.entry.text.now self.entry.at)
            (drop (self.entry.at + 1) self.entry.text.now) (front_of self.entry.at front.entry) }
    {
        if front.is_word() {
            self.word(true)
        } else {
            front
        }
    }

    /// What stands here, in the version of the text.
    fn front(self, byte: u8) -> Front<'a>
        requires byte { slice_index self.text.now self.at ≡ byte }
        requires within { self.at < length self.text.now }
        ensures later { GoesOn self.entry.text.now self.entry.at result }
        ensures front { front_of self.entry.at result ≡ stands self.entry }
    {
        let front = self.plain_front(byte);
        match self.standing {
            Standing::Anywhere => front,
            Standing::BeforeKeyword => front.in_yang_1(),
            Standing::BeforeArgument => self.longer(front).in_yang_1(),
            Standing::BehindArgument => front.in_yang_1(),
        }
    }

    /// What stands here in a text of YANG 1.1.
    fn plain_front(self, byte: u8) -> Front<'a>
        requires byte { slice_index self.text.now self.at ≡ byte }
        requires within { self.at < length self.text.now }
        ensures later { GoesOn self.entry.text.now self.entry.at result }
        ensures front { front_of self.entry.at result ≡ stands_plainly self.entry }
    {
        if is_white(byte) {
            Front::Gap(behind_ascii(self.text, self.at))
        } else if byte == b'/' {
            self.slash()
        } else if byte == b'\'' {
            self.single()
        } else if byte == b'"' {
            self.double()
        } else if byte == b';' {
            Front::Token(Lexeme::Semi, behind_ascii(self.text, self.at))
        } else if byte == b'{' {
            Front::Token(Lexeme::Open, behind_ascii(self.text, self.at))
        } else if byte == b'}' {
            Front::Token(Lexeme::Close, behind_ascii(self.text, self.at))
        } else if byte == b'*' {
            self.star()
        } else {
            self.word(false)
        }
    }

    fn star(self) -> Front<'a>
        requires within { self.at < length self.text.now }
        requires star { slice_index self.text.now self.at ≡ 42 }
        ensures later { GoesOn self.entry.text.now self.entry.at result }
        ensures front { front_of self.entry.at result
            ≡ other_front (slice_index self.entry.text.now self.entry.at)
            (drop (self.entry.at + 1) self.entry.text.now) }
    {
        if stands_at(self.text.as_bytes(), self.at + 1, b'/') {
            Front::Last(Lexeme::StrayEnd)
        } else {
            self.word(false)
        }
    }

    fn with_lexeme(self, lexeme: Lexeme<'a>) -> Lexed<'a>
        ensures lexeme { result.lexeme ≡ lexeme.entry }
        ensures line { result.line ≡ self.entry.line }
    {
        Lexed {
            line: self.line,
            lexeme,
        }
    }

    /// The place behind the white space that stands here.
    fn past_white(self) -> Cursor<'a>
        ensures text { result.text.now ≡ self.entry.text.now }
        ensures at { self.entry.at ≤ result.at }
        ensures pieces { pieces_left self.entry ≡ pieces_left result }
    {
        let bytes = self.text.as_bytes();
        let mut at = self.at;
        let mut line = self.line;
        let mut line_start = self.line_start;
        while at < bytes.len() && is_white(bytes[at]) {
            if bytes[at] == b'\n' {
                line += 1;
                line_start = at + 1;
            }
            at = behind_ascii(self.text, at);
        }
        Cursor {
            text: self.text,
            at,
            line,
            line_start,
            standing: self.standing,
        }
    }

    /// What stands behind the gaps that stand here.
    pub(crate) fn found(self) -> Found<'a>
        ensures text { result.cursor.text.now ≡ self.entry.text.now }
        ensures at { self.entry.at ≤ result.cursor.at }
        ensures reaches { Reaches result.cursor.text.now result.cursor.at result.lexeme result.end }
        ensures pieces { pieces_left self.entry ≡ with_piece result }
    {
        let bytes = self.text.as_bytes();
        let mut cursor = self.past_white();
        while cursor.at < bytes.len() {
            match cursor.front(bytes[cursor.at]) {
                Front::Gap(end) => cursor = cursor.moved_to(end).past_white(),
                Front::Token(lexeme, end) => return Found {
                    cursor,
                    lexeme,
                    end,
                },
                Front::Last(lexeme) => return cursor.end_found(lexeme),
            }
        }
        cursor.end_found(Lexeme::End)
    }

    /// What ends the text at this place.
    fn end_found(self, lexeme: Lexeme<'a>) -> Found<'a>
        ensures cursor { result.cursor ≡ self.entry }
        ensures lexeme { result.lexeme ≡ lexeme.entry }
        ensures end { result.end ≡ self.entry.at }
    {
        Found {
            cursor: self,
            lexeme,
            end: self.at,
        }
    }

    /// The next token, and the place behind it. What ends the text is met again and again.
    pub(crate) fn next(self) -> (Lexed<'a>, Cursor<'a>)
        ensures text { result.1.text.now ≡ self.entry.text.now }
        ensures at { self.entry.at ≤ result.1.at }
        ensures later { ends_text result.0.lexeme ≡ false → self.entry.at < result.1.at }
        ensures tokens { left self.entry ≡ with_token result.0 result.1 }
        ensures near { result.0.line + extent result.0.lexeme ≤ result.1.at + 1 }
        ensures indent { indent result.0.lexeme ≤ result.1.at }
    {
        let found = self.found();
        (found.cursor.with_lexeme(found.lexeme), found.behind())
    }
}

impl<'a> Found<'a> {
    ghost use Rattle.ytext.specs.View.{Reaches};
    ghost use Rattle.ytext.specs.Left.{pieces_left, behind_found};

    /// The place behind what is found.
    pub(crate) fn behind(self) -> Cursor<'a>
        requires { Reaches self.cursor.text.now self.cursor.at self.lexeme self.end }
        ensures text { result.text.now ≡ self.entry.cursor.text.now }
        ensures at { result.at ≡ self.entry.end }
        ensures pieces { pieces_left result ≡ behind_found self.entry }
    {
        let standing = self.cursor.standing.behind(self.lexeme);
        self.cursor.standing_at(standing).moved_to(self.end)
    }
}
