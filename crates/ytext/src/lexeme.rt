//! What stands at a place of a text, in a version of YANG (RFC 7950, 6.1; RFC 6020, 6.1.3).
ghost use Rattle.std.specs.Prelude.{◌≡◌, ℕ, List, if◌then◌else◌};
ghost use Rattle.yspec_wide.specs.Texts.{read_front};
ghost use Rattle.ytext.specs.View.{lexeme_of, front_of, GoesOn, is_word};
ghost use Rattle.ytext.specs.Versions.{standing_behind, later_standing, first_standing, front_is_word};

/// What stands at a place: a word, a quoted string without its quotes, `;`, `{`, `}`, or what ends the text.
#[derive(Clone, Copy)]
pub(crate) enum Lexeme<'a> {
    Word(&'a str),
    Single(&'a str),
    /// With the part of its line that stands before the opening quote, and whether it stands in a text of YANG 1.
    Double {
        before: &'a [u8],
        raw: &'a str,
        is_yang_1: bool,
    },
    Semi,
    Open,
    Close,
    End,
    UnclosedQuote,
    UnclosedComment,
    /// `*/` with no comment before it.
    StrayEnd,
}

/// What stands at the front: a gap or a token with the place behind it, or what ends the text.
#[derive(Clone, Copy)]
pub(crate) enum Front<'a> {
    Gap(usize),
    Token(Lexeme<'a>, usize),
    Last(Lexeme<'a>),
}

/// Where in its statement the next token stands, in a text of YANG 1. In one of YANG 1.1 tokens are the same anywhere.
#[derive(Clone, Copy)]
pub(crate) enum Standing {
    Anywhere,
    BeforeKeyword,
    BeforeArgument,
    BehindArgument,
}

impl Standing {
    /// At the beginning of a text.
    pub(crate) fn first(is_yang_1: bool) -> Standing
        ensures { result ≡ first_standing is_yang_1 }
    {
        if is_yang_1 {
            Standing::BeforeKeyword
        } else {
            Standing::Anywhere
        }
    }

    /// Behind a token in a text of YANG 1.
    fn later(lexeme: Lexeme<'_>, behind_word: Standing) -> Standing
        ensures { result ≡ later_standing behind_word (lexeme_of lexeme.entry) }
    {
        match lexeme {
            Lexeme::Semi | Lexeme::Open | Lexeme::Close => Standing::BeforeKeyword,
            Lexeme::Word(_) => behind_word,
            _ => Standing::BehindArgument,
        }
    }

    /// Behind a token.
    pub(crate) fn behind(self, lexeme: Lexeme<'_>) -> Standing
        ensures { result ≡ standing_behind self (lexeme_of lexeme.entry) }
    {
        match self {
            Standing::Anywhere => Standing::Anywhere,
            Standing::BeforeKeyword => Standing::later(lexeme, Standing::BeforeArgument),
            Standing::BeforeArgument => Standing::later(lexeme, Standing::BehindArgument),
            Standing::BehindArgument => Standing::later(lexeme, Standing::BehindArgument),
        }
    }
}

impl<'a> Lexeme<'a> {
    ghost use Rattle.std.specs.Prelude.{◌≡◌};
    ghost use Rattle.yspec_wide.specs.Texts.{read_in_1};
    ghost use Rattle.ytext.specs.View.{lexeme_of, ends_text, extent, indent};

    /// The same in a text of YANG 1, where a backslash between double quotes may stand before any character (RFC 6020, 6.1.3).
    fn in_yang_1(self) -> Lexeme<'a>
        ensures lexeme { lexeme_of result ≡ read_in_1 (lexeme_of self.entry) }
        ensures ends { ends_text result ≡ ends_text self.entry }
        ensures extent { extent result ≡ extent self.entry }
        ensures indent { indent result ≡ indent self.entry }
    {
        match self {
            Lexeme::Double { before, raw, .. } => Lexeme::Double {
                before,
                raw,
                is_yang_1: true,
            },
            _ => self,
        }
    }

    fn is_word(self) -> bool
        ensures { result ≡ is_word (lexeme_of self.entry) }
    {
        match self {
            Lexeme::Word(_) => true,
            _ => false,
        }
    }
}

impl<'a> Front<'a> {
    pub(crate) fn is_word(self) -> bool
        ensures { (at : ℕ) → result ≡ front_is_word (front_of at self.entry) }
    {
        match self {
            Front::Token(lexeme, _) => lexeme.is_word(),
            _ => false,
        }
    }

    /// The same in a text of YANG 1.
    pub(crate) fn in_yang_1(self) -> Front<'a>
        ensures later { (text : List ℕ) (at : ℕ) → GoesOn text at self.entry → GoesOn text at result }
        ensures front { (at : ℕ) → front_of at result ≡ read_front (front_of at self.entry) }
    {
        match self {
            Front::Token(lexeme, end) => Front::Token(lexeme.in_yang_1(), end),
            Front::Gap(end) => Front::Gap(end),
            Front::Last(lexeme) => Front::Last(lexeme),
        }
    }
}
