//! Tokens with their places.
ghost use Rattle.std.specs.Prelude.{◌≡◌, false, option_map, IfSome};
ghost use Rattle.yspec.specs.text.Scanning.{kind_of, scanned};
ghost use Rattle.ytext.specs.View.{ends_text, lexeme_of, Reaches};
ghost use Rattle.ytext.specs.Left.{piece_of};
ghost use Rattle.ytext.specs.Shown.{kind_shown, scanned_of};

use crate::cursor::Found;
use crate::lexeme::Lexeme;

/// What a token is.
#[derive(Clone, Copy, Debug, PartialEq, Eq)]
pub enum TokenKind {
    /// An unquoted string, `+` too.
    Word,
    /// A string in single quotes.
    Single,
    /// A string in double quotes.
    Double,
    /// `;`
    Semi,
    /// `{`
    Open,
    /// `}`
    Close,
}

/// A token: the text between two places of the source, with its quotes.
#[derive(Clone, Copy, Debug)]
pub struct Token<'a> {
    pub kind: TokenKind,
    pub start: usize,
    pub end: usize,
    pub text: &'a str,
}

/// Of what kind a token is. None for what ends the text.
pub(crate) fn kind_of(lexeme: Lexeme<'_>) -> Option<TokenKind>
    ensures kind { option_map kind_shown result ≡ kind_of (lexeme_of lexeme.entry) }
    ensures token { IfSome result (λ _. ends_text lexeme.entry ≡ false) }
{
    match lexeme {
        Lexeme::Word(_) => Some(TokenKind::Word),
        Lexeme::Single(_) => Some(TokenKind::Single),
        Lexeme::Double { .. } => Some(TokenKind::Double),
        Lexeme::Semi => Some(TokenKind::Semi),
        Lexeme::Open => Some(TokenKind::Open),
        Lexeme::Close => Some(TokenKind::Close),
        _ => None,
    }
}

impl<'a> Found<'a> {
    /// This piece as a token.
    pub(crate) fn token(self, kind: TokenKind) -> Token<'a>
        requires { Reaches self.cursor.text.now self.cursor.at self.lexeme self.end }
        ensures { scanned_of result
            ≡ scanned self.entry.cursor.text.now (piece_of self.entry) (kind_shown kind) }
    {
        Token {
            kind,
            start: self.cursor.at,
            end: self.end,
            text: self.cursor.between(self.cursor.at, self.end),
        }
    }
}
