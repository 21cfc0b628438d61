//! Statements, read from a text's tokens (RFC 7950, 6.3 and 14).
ghost use Rattle.std.specs.Prelude.{◌≡◌, ℕ, ◌+◌, ◌<◌, ◌≤◌, ◌^◌, [], ◌∷◌, true, false, length, Some, Ok, option_map, string_bytes, IsTrue, OnOk};
ghost use Rattle.ytext.specs.View.{extent, indent};

use crate::cursor::{Cursor, Lexed};
use crate::fault::{TextCode, TextFault};
use crate::lexeme::Lexeme;
use crate::quoted::{push_double, push_single};
use crate::statement::{KeywordText, Module, Stmt};
use std::alloc::Global;
use ybase_names::is_name;

/// Blocks may nest so deep.
const BLOCK_LIMIT: u32 = 64;

/// A token and what follows it.
#[derive(Drop)]
pub(crate) struct Reader<'a> {
    alloc: Global,
    pub(crate) token: Lexed<'a>,
    pub(crate) cursor: Cursor<'a>,
    ghost small: { length cursor.text.now ≤ 4194304 },
    ghost near: { token.line + extent token.lexeme ≤ cursor.at + 1 },
    ghost indented: { indent token.lexeme ≤ cursor.at },
}

impl<'a> Lexed<'a> {
    ghost use Rattle.yspec.specs.text.Statement.{misplaced_code, is_quoted, is_plus};
    ghost use Rattle.ytext.specs.Told.{told_by};
    ghost use Rattle.ytext.specs.View.{ends_text, lexeme_of};

    /// What is wrong where this token may not stand.
    fn misplaced_fault(self) -> TextFault
        requires { self.line < 2 ^ 32 }
        ensures { told_by result ≡ Some (record {
          code = misplaced_code
              (lexeme_of self.entry.lexeme);
          line = self.entry.line;
        }) }
    {
        let code = match self.lexeme {
            Lexeme::End => TextCode::L6,
            Lexeme::UnclosedQuote | Lexeme::UnclosedComment => TextCode::L3,
            _ => TextCode::L5,
        };
        TextFault::refused(code, self.line)
    }

    fn is_quoted(self) -> bool
        ensures { result ≡ is_quoted (lexeme_of self.entry.lexeme) }
    {
        match self.lexeme {
            Lexeme::Single(_) | Lexeme::Double { .. } | Lexeme::UnclosedQuote => true,
            _ => false,
        }
    }

    fn is_plus(self) -> bool
        ensures cases { result ≡ is_plus (lexeme_of self.entry.lexeme) }
        ensures goes_on { IsTrue result → ends_text self.entry.lexeme ≡ false }
    {
        match self.lexeme {
            Lexeme::Word(word) => word == "+",
            _ => false,
        }
    }
}

impl<'a> Reader<'a> {
    ghost use Rattle.yspec.specs.text.Statement.{Statement, piece, pieces, argument, is_quoted, body, closed, statement, ending, statements_at, top_statement};
    ghost use Rattle.yspec.specs.Forest.{Forest, end};
    ghost use Rattle.ytext.specs.View.{a_word, is_word};
    ghost use Rattle.ytext.specs.View.{row_view, modules_view};
    ghost use Rattle.ytext.specs.Versions.{tokens_in};
    ghost use Rattle.yspec.specs.Results.{Gives};
    ghost use Rattle.ytext.specs.Told.{told_by};
    ghost use Rattle.ytext.specs.View.{ends_text, lexeme_of};
    ghost use Rattle.ytext.specs.Left.{left, token_of};
    ghost use Rattle.ytext.specs.Reading.{ahead, tokens_ahead, added, piece_behind, rows, block_of, first_of, rest_of};

    /// At the beginning of a text, of YANG 1 or of YANG 1.1.
    pub(crate) fn new(alloc: Global, text: &'a str, is_yang_1: bool) -> Reader<'a>
        requires { length text.now ≤ 4194304 }
        ensures { tokens_ahead result ≡ tokens_in is_yang_1 text.now }
    {
        let (token, cursor) = Cursor::new(text, is_yang_1).next();
        Reader {
            alloc,
            token,
            cursor,
        }
    }

    /// Goes on to the next token.
    pub(crate) fn step(&mut self)
        requires { ends_text self.old.token.lexeme ≡ false }
        ensures ahead { ahead self.new < ahead self.old }
        ensures tokens { tokens_ahead self.old ≡ token_of self.old.token ∷ tokens_ahead self.new }
        ensures behind { left self.old.cursor ≡ tokens_ahead self.new }
    {
        (self.token, self.cursor) = self.cursor.next();
    }

    /// Adds what the quoted string at hand says.
    fn push_piece(&self, text: &mut String) -> Result<(), TextFault>
        requires { is_quoted (lexeme_of self.now.token.lexeme) ≡ true }
        ensures goes_on { OnOk result (ends_text self.now.token.lexeme ≡ false) }
        ensures piece { Gives (λ _. string_bytes text.new) told_by result
            (added (string_bytes text.old)
            (piece self.now.token.line (lexeme_of self.now.token.lexeme))) }
    {
        match self.token.lexeme {
            Lexeme::Single(raw) => push_single(text, raw),
            Lexeme::Double {
                before,
                raw,
                is_yang_1,
            } => push_double(text, before, raw, self.token.line, is_yang_1),
            _ => Err(TextFault::refused(TextCode::L3, self.token.line)),
        }
    }

    /// Adds what the quoted string at hand says, and goes on behind it.
    fn take_piece(&mut self, text: &mut String) -> Result<(), TextFault>
        requires { is_quoted (lexeme_of self.old.token.lexeme) ≡ true }
        ensures ahead { OnOk result (ahead self.new < ahead self.old) }
        ensures piece { Gives (λ _. (string_bytes text.new, tokens_ahead self.new)) told_by result
            (piece_behind (string_bytes text.old) (tokens_ahead self.old)) }
    {
        self.push_piece(text)?;
        self.step();
        Ok(())
    }

    /// Quoted strings with `+` between them.
    fn pieces(&mut self) -> Result<String, TextFault>
        requires { is_quoted (lexeme_of self.old.token.lexeme) ≡ true }
        ensures ahead { OnOk result (ahead self.new < ahead self.old) }
        ensures pieces { Gives (λ text. (string_bytes text, tokens_ahead self.new)) told_by result
            (pieces (tokens_ahead self.old)) }
    {
        let mut text = String::new(self.alloc);
        if let Err(fault) = self.take_piece(&mut text) {
            return Err(fault);
        }
        while self.token.is_plus() {
            let line = self.token.line;
            self.step();
            if !self.token.is_quoted() {
                return Err(TextFault::refused(TextCode::L5, line));
            }
            if let Err(fault) = self.take_piece(&mut text) {
                return Err(fault);
            }
        }
        Ok(text)
    }

    pub(crate) fn argument(&mut self) -> Result<Option<String>, TextFault>
        ensures ahead { OnOk result (ahead self.new ≤ ahead self.old) }
        ensures argument { Gives (λ arg. (option_map string_bytes arg, tokens_ahead self.new))
            told_by result (argument (tokens_ahead self.old)) }
    {
        if let Lexeme::Word(word) = self.token.lexeme {
            let text = String::from_str(self.alloc, word)?;
            self.step();
            Ok(Some(text))
        } else if self.token.is_quoted() {
            Ok(Some(self.pieces()?))
        } else {
            Ok(None)
        }
    }

    /// `;`, or a block.
    #[cycle(reading)]
    fn body(&mut self, level: u32) -> Result<Vec<Stmt>, TextFault>
        ensures ahead { OnOk result (ahead self.new < ahead self.old) }
        ensures body { Gives (λ subs. (row_view subs.items, tokens_ahead self.new)) told_by result
            (body (rows (level + 1)) level (tokens_ahead self.old)) }
    {
        match self.token.lexeme {
            Lexeme::Semi => {
                self.step();
                Ok(Vec::new(self.alloc))
            }
            Lexeme::Open => {
                if level >= BLOCK_LIMIT {
                    return Err(TextFault::refused(TextCode::L7, self.token.line));
                }
                self.step();
                self.block(level + 1)
            }
            _ => Err(self.token.misplaced_fault()),
        }
    }

    /// The statements of a block, and its `}`.
    #[cycle(reading)]
    fn block(&mut self, level: u32) -> Result<Vec<Stmt>, TextFault>
        ensures ahead { OnOk result (ahead self.new < ahead self.old) }
        ensures block { Gives (λ subs. (row_view subs.items, tokens_ahead self.new)) told_by result
            (block_of level (tokens_ahead self.old)) }
    {
        let subs = self.statements(level)?;
        match self.close() {
            Ok(()) => Ok(subs),
            Err(fault) => Err(fault),
        }
    }

    fn close(&mut self) -> Result<(), TextFault>
        ensures ahead { OnOk result (ahead self.new < ahead self.old) }
        ensures closed { (below : Forest Statement)
            → Gives (λ _. (below, tokens_ahead self.new)) told_by result
            (closed (below, tokens_ahead self.old)) }
    {
        match self.token.lexeme {
            Lexeme::Close => {
                self.step();
                Ok(())
            }
            _ => Err(self.token.misplaced_fault()),
        }
    }

    /// The statement whose keyword is at hand.
    #[cycle(reading)]
    pub(crate) fn statement(&mut self, word: &str, level: u32) -> Result<Stmt, TextFault>
        requires { lexeme_of self.old.token.lexeme ≡ a_word word.now }
        ensures ahead { OnOk result (ahead self.new < ahead self.old) }
        ensures statement { Gives
            (λ stmt. (row_view (stmt ∷ []), tokens_ahead self.new)) told_by result
            (statement (rows (level + 1)) level word.now self.old.token.line
            (left self.old.cursor)) }
    {
        let line = self.token.line;
        if !is_name(word) {
            return Err(TextFault::refused(TextCode::L8, line));
        }
        let keyword = KeywordText::of(self.alloc, word)?;
        self.step();
        let arg = self.argument()?;
        let subs = self.body(level)?;
        Ok(Stmt {
            keyword,
            arg,
            line: line as u32,
            subs,
        })
    }

    /// Statements up to a `}` or the end of the text, so many blocks being open.
    #[cycle(reading)]
    fn statements(&mut self, level: u32) -> Result<Vec<Stmt>, TextFault>
        ensures ahead { OnOk result (ahead self.new ≤ ahead self.old) }
        ensures rows { Gives (λ subs. (row_view subs.items, tokens_ahead self.new)) told_by result
            (rows level (tokens_ahead self.old)) }
    {
        // Most rows are of one statement.
        let mut subs = Vec::with_capacity(self.alloc, 1)?;
        while let Lexeme::Word(word) = self.token.lexeme {
            match self.statement(word, level) {
                Ok(sub) => subs.push(sub)?,
                Err(fault) => return Err(fault),
            }
        }
        match self.row_end() {
            Ok(()) => {
                subs.shrink_to_fit();
                Ok(subs)
            }
            Err(fault) => Err(fault),
        }
    }

    /// A row ends before a `}` and at the end of the text.
    fn row_end(&self) -> Result<(), TextFault>
        requires { is_word (lexeme_of self.now.token.lexeme) ≡ false }
        ensures { (level : ℕ) → Gives (λ _. (end, tokens_ahead self.now)) told_by result
            (statements_at (lexeme_of self.now.token.lexeme) (rows (level + 1)) (rows level) level
            (first_of self.now) (rest_of self.now)) }
    {
        match self.token.lexeme {
            Lexeme::Close => Ok(()),
            Lexeme::End => Ok(()),
            _ => Err(self.token.misplaced_fault()),
        }
    }

    /// Nothing may follow the top statement.
    fn end(&self) -> Result<(), TextFault>
        ensures { (top : Forest Statement)
            → Gives (λ _. top) told_by result (ending (top, tokens_ahead self.now)) }
    {
        match self.token.lexeme {
            Lexeme::End => Ok(()),
            Lexeme::Word(_) | Lexeme::Close => Err(TextFault::refused(
                TextCode::L6,
                self.token.line,
            )),
            _ => Err(self.token.misplaced_fault()),
        }
    }

    /// The one statement of a module's text.
    pub(crate) fn module(&mut self) -> Result<Module, TextFault>
        ensures { Gives (λ read. modules_view (read ∷ [])) told_by result
            (top_statement (tokens_ahead self.old)) }
    {
        match self.token.lexeme {
            Lexeme::Word(word) => {
                let top = match self.statement(word, 0) {
                    Ok(top) => top,
                    Err(fault) => return Err(fault),
                };
                match self.end() {
                    Ok(()) => Ok(Module { top }),
                    Err(fault) => Err(fault),
                }
            }
            Lexeme::Close => Err(TextFault::refused(TextCode::L6, self.token.line)),
            _ => Err(self.token.misplaced_fault()),
        }
    }
}
