//! The tokens of a text, for callers that want them alone.
ghost use Rattle.std.specs.Prelude.{◌≤◌, length};
ghost use Rattle.std.specs.Option.{ForSome};

use crate::cause::fault_of;
use crate::cursor::Cursor;
use crate::fault::TextFault;
use crate::text::forbidden_offset;
use crate::token::{Token, kind_of};

/// The tokens of a text, up to the first thing that is wrong with its characters, quotes or comments.
#[derive(Drop)]
pub struct Tokens<'a> {
    cursor: Cursor<'a>,
    forbidden: Option<usize>,
    ended: bool,
    ghost within: { ForSome forbidden (λ place. place ≤ length cursor.text.now) },
}

impl<'a> Tokens<'a> {
    ghost use Rattle.std.specs.Prelude.{◌≡◌};
    ghost use Rattle.yspec.specs.text.Scanning.{scan_of};
    ghost use Rattle.ytext.specs.Scanned.{tokens_left};

    pub(crate) fn new(text: &'a str) -> Tokens<'a>
        ensures { tokens_left result ≡ scan_of text.now }
    {
        Tokens {
            cursor: Cursor::new(text, false),
            forbidden: forbidden_offset(text),
            ended: false,
        }
    }
}

impl<'a> Iterator for Tokens<'a> {
    type Item = Result<Token<'a>, TextFault>;

    ghost use Rattle.std.specs.Iterator.{YieldsFirstBy, item_count};
    ghost use Rattle.ytext.specs.Shown.{shown};
    ghost use Rattle.ytext.specs.Scanned.{tokens_left};

    // Nothing comes after an error, nor after the end.
    ghost next_gives = { YieldsFirstBy shown tokens_left };

    ghost remaining = { item_count tokens_left };

    fn next(&mut self) -> Option<Result<Token<'a>, TextFault>> {
        if self.ended {
            return None;
        }
        let found = self.cursor.found();
        if let Some(cause) = found.cause(self.forbidden) {
            self.ended = true;
            return Some(Err(fault_of(found.cursor.text, cause)));
        }
        match kind_of(found.lexeme) {
            Some(kind) => {
                self.cursor = found.behind();
                Some(Ok(found.token(kind)))
            }
            None => {
                self.ended = true;
                None
            }
        }
    }
}
