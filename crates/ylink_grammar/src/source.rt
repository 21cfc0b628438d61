//! Statements with their keywords.

ghost use Rattle.std.specs.Prelude.{◌≡◌, option_map};
ghost use Rattle.ytext.specs.View.{view};
ghost use Rattle.ybase_words.specs.KeywordView.{keyword_view};
ghost use Rattle.ylink_grammar.specs.NamedType.{type_named};
ghost use Rattle.ybase_words.specs.BuiltInView.{built_in_view};

use ybase_words::{BuiltIn, Keyword};
use ytext::Stmt;

/// A statement of the table of statements, and the number of its module in the set.
#[derive(Clone, Copy)]
pub struct Source<'a> {
    pub keyword: Keyword,
    // The built-in type that it names, where it is a `type` statement.
    type_name: Option<BuiltIn>,
    pub statement: &'a Stmt,
    pub home: usize,
    /// Whether a member of a union may be a leafref in its module.
    pub may_refer: bool,
    ghost named: { option_map built_in_view type_name ≡ type_named (keyword_view keyword) (view statement.now).0 },
}

/// The argument of a statement, and the number of the module in which that stands: what it names is what it names there.
#[derive(Clone, Copy, Debug)]
pub struct Stated<'a> {
    pub home: usize,
    pub text: &'a str,
}

/// The built-in type that a statement of a keyword names, where it is a `type` statement.
fn type_named(keyword: Keyword, statement: &Stmt) -> Option<BuiltIn>
    ensures { option_map built_in_view result
        ≡ type_named (keyword_view keyword) (view statement.now).0 }
{
    if Keyword::Type.is(keyword) {
        BuiltIn::named(statement.argument().unwrap_or(statement.keyword()))
    } else {
        None
    }
}

impl<'a> Source<'a> {
    ghost use Rattle.std.specs.Prelude.{◌≡◌, ℕ, option_map};
    ghost use Rattle.ytext.specs.View.{view};
    ghost use Rattle.yspec.specs.linking.TypeStatements.{built_in_named};
    ghost use Rattle.yspec_wide.specs.Sources.{is_derived_type};
    ghost use Rattle.ybase_words.specs.KeywordView.{keyword_view};
    ghost use Rattle.ylink_grammar.specs.NamedType.{argument_text};
    ghost use Rattle.ylink_grammar.specs.SourceView.{source_view, stated_view};
    ghost use Rattle.ybase_words.specs.BuiltInView.{built_in_view};

    /// A statement of a keyword, in the module of a number in the set, where members of unions may be leafrefs or not.
    pub(crate) fn new(
        keyword: Keyword,
        statement: &'a Stmt,
        home: usize,
        may_refer: bool,
    ) -> Source<'a>
        ensures label { (number : ℕ) → source_view number result
            ≡ record {
              keyword = keyword_view keyword;
              statement = (view statement.entry.now).0;
              number = number;
              home = home;
              may_refer = may_refer;
            } }
        ensures whole { result.statement.now ≡ statement.entry.now }
        ensures keyword { result.keyword ≡ keyword }
    {
        Source {
            keyword,
            type_name: type_named(keyword, statement),
            statement,
            home,
            may_refer,
        }
    }

    /// Whether it is a `type` statement that names no built-in type.
    pub(crate) fn is_derived_type(&self) -> bool
        ensures { result ≡ is_derived_type (keyword_view self.now.keyword) (view self.now.statement.now).0 }
    {
        Keyword::Type.is(self.keyword) && self.type_name.is_none()
    }

    /// The argument; the keyword where there is none.
    pub fn argument(&self) -> &'a str
        ensures { result.now ≡ argument_text (view self.now.statement.now).0 }
    {
        let statement = self.statement;
        statement.argument().unwrap_or(statement.keyword())
    }

    /// The argument, with the number of the module.
    pub fn stated(&self) -> Stated<'a>
        ensures { stated_view result ≡ record {
          home = self.now.home;
          text = argument_text (view self.now.statement.now).0;
        } }
    {
        Stated {
            home: self.home,
            text: self.argument(),
        }
    }

    /// The built-in type that the argument names. That of a `type` statement is known without a look at its text.
    pub fn built_in(&self) -> Option<BuiltIn>
        ensures { option_map built_in_view result
            ≡ built_in_named (argument_text (view self.now.statement.now).0) }
    {
        if Keyword::Type.is(self.keyword) {
            self.type_name
        } else {
            BuiltIn::named(self.argument())
        }
    }
}
