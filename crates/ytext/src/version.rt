//! The version of YANG that a text states (RFC 7950, 7.1.2; RFC 6020, 7.1.2).
ghost use Rattle.std.specs.Prelude.{◌≡◌, List, ℕ, Option, Ok, false, codes, option_map, string_bytes};
ghost use Rattle.yspec_wide.specs.Language.{is_yang_1, version_stated};
ghost use Rattle.yspec_wide.specs.Texts.{version_by, version_below, version_of_tokens};
ghost use Rattle.yspec.specs.text.Text.{is_text};
ghost use Rattle.yspec.specs.text.Statement.{argument};
ghost use Rattle.yspec.specs.Results.{Gives};
ghost use Rattle.ytext.specs.Told.{told_by};
ghost use Rattle.ytext.specs.Stated.{unread, version_row};

use crate::fault::TextFault;
use crate::lexeme::Lexeme;
use crate::reader::Reader;
use ybase_names::is_name;

/// A text that is wrong before it states its version is one of YANG 1.
fn unread(fault: TextFault) -> Result<bool, TextFault>
    ensures { result ≡ unread fault }
{
    match fault {
        TextFault::Memory => Err(TextFault::Memory),
        TextFault::Refused { .. } => Ok(true),
    }
}

fn is_version_keyword(word: &str) -> bool
    ensures { result ≡ is_text word.now (codes "yang-version") }
{
    word == "yang-version"
}

#[tactic(auto, using(crate::proofs::StatedLemmas::is_named))]
/// Whether an argument of `yang-version`, or none, names YANG 1.
fn is_named_yang_1(stated: Option<String>) -> bool
    ensures { result ≡ is_yang_1 (version_stated (option_map string_bytes stated)) }
{
    match stated {
        Some(text) => text.as_str() != "1.1",
        None => true,
    }
}

impl<'a> Reader<'a> {
    ghost use Rattle.ytext.specs.View.{ends_text};
    ghost use Rattle.ytext.specs.Left.{left};
    ghost use Rattle.ytext.specs.Reading.{tokens_ahead};

    /// Whether a text that is read by the rules of YANG 1 is one: the first `yang-version` right below its top statement
    /// says, up to the first thing that is wrong.
    pub(crate) fn is_yang_1(&mut self) -> Result<bool, TextFault>
        ensures { Gives (λ is. is) told_by result
            (Ok (is_yang_1 (version_of_tokens (tokens_ahead self.old)))) }
    {
        match self.token.lexeme {
            Lexeme::Word(word) => {
                if !is_name(word) {
                    return Ok(true);
                }
                self.step();
                match self.argument() {
                    Ok(_) => self.is_body_of_yang_1(),
                    Err(fault) => unread(fault),
                }
            }
            _ => Ok(true),
        }
    }

    /// The same behind the argument of the top statement.
    fn is_body_of_yang_1(&mut self) -> Result<bool, TextFault>
        ensures { (text : Option (List ℕ)) → Gives (λ is. is) told_by result
            (Ok (is_yang_1 (version_below (Ok (text, tokens_ahead self.old))))) }
    {
        match self.token.lexeme {
            Lexeme::Open => {
                self.step();
                self.is_row_of_yang_1()
            }
            _ => Ok(true),
        }
    }

    /// The same from a statement right below the top one on.
    fn is_row_of_yang_1(&mut self) -> Result<bool, TextFault>
        ensures { Gives (λ is. is) told_by result
            (Ok (is_yang_1 (version_row (tokens_ahead self.old)))) }
    {
        while let Lexeme::Word(word) = self.token.lexeme {
            if is_version_keyword(word) {
                return self.states_yang_1();
            }
            match self.statement(word, 1) {
                Ok(_) => (),
                Err(fault) => return unread(fault),
            }
        }
        Ok(true)
    }

    /// The same at the keyword of `yang-version`.
    fn states_yang_1(&mut self) -> Result<bool, TextFault>
        requires { ends_text self.old.token.lexeme ≡ false }
        ensures { Gives (λ is. is) told_by result
            (Ok (is_yang_1 (version_by (argument (left self.old.cursor))))) }
    {
        self.step();
        match self.argument() {
            Ok(stated) => Ok(self.names_yang_1(stated)),
            Err(fault) => unread(fault),
        }
    }

    /// Whether an argument of `yang-version`, or none, names YANG 1; where no statement ends behind it, it states none.
    fn names_yang_1(&self, stated: Option<String>) -> bool
        ensures { result
            ≡ is_yang_1 (version_by (Ok (option_map string_bytes stated, tokens_ahead self.now))) }
    {
        match self.token.lexeme {
            Lexeme::Semi | Lexeme::Open => is_named_yang_1(stated),
            _ => true,
        }
    }
}
