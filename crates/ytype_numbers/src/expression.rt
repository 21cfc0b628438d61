//! Regular expressions as modules write them (RFC 7950, 9.4.5).

ghost use Rattle.std.specs.Prelude.{◌≡◌, IfOk};
ghost use Rattle.yspec.specs.types.Types.{is_pattern, is_match};

use std::alloc::{AllocError, Global};
use std::fmt;
use std::marker::Model;
use ytype_patterns::{Pattern, PatternFault};

/// A text of a `pattern` statement, with the pattern where it spells one. It never changes.
#[derive(Drop)]
pub struct Expression {
    text: String,
    pattern: Option<Pattern>,
}

impl Model for Expression {
    ghost use Rattle.std.specs.Str.{chars};
    ghost use Rattle.std.specs.String.{string_bytes};
    ghost use Rattle.yspec.specs.text.Text.{Text};
    ghost use Rattle.yspec_patterns.specs.Reading.{pattern_of};
    ghost use Rattle.ytype_patterns.specs.View.{Reads};

    ghost Value = { Text };

    ghost view = { λ e. string_bytes e.text };

    ghost invariant = { λ e. Reads e.pattern (pattern_of (chars (string_bytes e.text))) };
}

impl fmt::Debug for Expression {
    fn fmt<W: fmt::Write>(&self, f: &mut fmt::Formatter<W>) -> fmt::Result {
        f.write_str(self.text.as_str())
    }
}

impl Expression {
    /// The expression with this text.
    pub fn read(alloc: Global, text: &str) -> Result<Expression, PatternFault>
        ensures { IfOk result (λ expression. expression ≡ text.now) }
    {
        let pattern = Pattern::parse(alloc, text)?;
        let text = String::from_str(alloc, text)?;
        Ok(Expression { text, pattern })
    }

    /// The text as it is written.
    pub fn text(&self) -> &str
        ensures { result.now ≡ self.now }
    {
        self.text.as_str()
    }

    /// Whether it spells a pattern.
    pub fn is_pattern(&self) -> bool
        ensures { result ≡ is_pattern self.now }
    {
        self.pattern.is_some()
    }

    /// Whether the whole of a text is one of its pattern; none is where it spells none.
    pub fn matches(&self, alloc: Global, text: &str) -> Result<bool, AllocError>
        ensures { IfOk result (λ b. b ≡ is_match self.now text.now) }
    {
        match &self.pattern {
            None => Ok(false),
            Some(pattern) => pattern.fits(alloc, text),
        }
    }
}
