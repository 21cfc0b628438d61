//! Which rules a set of modules breaks.

ghost use Rattle.std.specs.Prelude.{◌≡◌, [], ◌∷◌};
ghost use Rattle.yspec.specs.schema.Breaks.{least_from, when};
ghost use Rattle.ylink_grammar.specs.BreakView.{break_view, seen};

use std::fmt::{self, Display, Formatter, Write};

/// Which rule a set of modules breaks.
#[derive(Clone, Copy, Debug, PartialEq, Eq, PartialOrd, Ord)]
pub enum CompileCode {
    /// A statement or a type that isn't known, or that may not stand there.
    C1 = 1,
    /// Too many or too few of a substatement.
    C2 = 2,
    /// An argument is missing or not of its form.
    C3 = 3,
    /// `yang-version` is missing or not `1.1`.
    C4 = 4,
    /// An import names no module of the set, or another revision than its newest.
    C5 = 5,
    /// A prefix is given twice, or names nothing.
    C6 = 6,
    /// Two modules or two definitions of one name.
    C7 = 7,
    /// A type, a grouping or an identity isn't found.
    C8 = 8,
    /// Imports, typedefs, groupings or identities lead in a circle.
    C9 = 9,
    /// A type breaks a rule of its own.
    C10 = 10,
    /// A default isn't taken, or may not stand there.
    C11 = 11,
    /// A key or a `unique` names no fitting leaf.
    C12 = 12,
    /// Two children of one name.
    C13 = 13,
    /// A refine or an augment without a fitting target.
    C14 = 14,
    /// A mandatory node is added to another module's node.
    C15 = 15,
    /// Configuration below state, or a configuration list without a key.
    C16 = 16,
    /// A leafref leads nowhere, in a circle, or from configuration to state.
    C17 = 17,
    /// A limit is passed.
    C18 = 18,
    /// A pattern that spells no regular expression.
    C20 = 20,
    /// A condition names no feature, or leads from a feature back to it.
    C22 = 22,
    /// An action or a notification where none may stand.
    C24 = 24,
}

impl CompileCode {
    ghost use Rattle.std.specs.Prelude.{◌≡◌};
    ghost use Rattle.ylink_grammar.specs.BreakView.{code_number};

    /// The number behind the `C`.
    pub fn number(self) -> u8
        ensures { result ≡ code_number self }
    {
        self as u8
    }
}

impl Display for CompileCode {
    fn fmt<W: Write>(&self, f: &mut Formatter<W>) -> fmt::Result {
        write!(f, "C{}", self.number())
    }
}

/// A broken rule. The order is that in which one is told before another: by module, line and number.
#[derive(Clone, Copy, Debug, PartialEq, Eq, PartialOrd, Ord)]
pub struct BrokenRule {
    pub module: usize,
    pub line: u32,
    pub code: CompileCode,
}

impl BrokenRule {
    ghost use Rattle.std.specs.Prelude.{◌≡◌};
    ghost use Rattle.yspec.specs.schema.Breaks as spec;
    ghost use Rattle.ylink_grammar.specs.BreakView.{break_view};

    /// Whether this one is told before another.
    pub fn is_before(&self, other: &BrokenRule) -> bool
        ensures { result ≡ spec.is_before (break_view self.now) (break_view other.now) }
    {
        (self.module, self.line, self.code.number())
            < (other.module, other.line, other.code.number())
    }
}

/// The lesser of one so far and another.
pub fn least(so_far: Option<BrokenRule>, found: BrokenRule) -> Option<BrokenRule>
    ensures { seen result ≡ least_from (seen so_far) (break_view found ∷ []) }
{
    match so_far {
        Some(first) if !found.is_before(&first) => Some(first),
        _ => Some(found),
    }
}

/// The least so far, and another where a condition holds.
pub fn least_when(
    condition: bool,
    so_far: Option<BrokenRule>,
    found: BrokenRule,
) -> Option<BrokenRule>
    ensures { seen result ≡ least_from (seen so_far) (when condition (break_view found ∷ [])) }
{
    if condition {
        least(so_far, found)
    } else {
        so_far
    }
}
