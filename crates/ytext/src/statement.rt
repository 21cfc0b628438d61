//! Statements (RFC 7950, 6.3).

ghost use Rattle.std.specs.Prelude.{◌≡◌, Some};
ghost use Rattle.ytext.specs.View.{frequent_text};

use std::alloc::{AllocError, Global};

/// The text of one module: its one top statement.
#[derive(Debug, Drop)]
pub struct Module {
    pub top: Stmt,
}

/// The keywords that most statements have.
#[derive(Clone, Copy, Debug)]
pub enum FrequentKeyword {
    Leaf,
    Type,
    Enum,
    List,
    Uses,
    Path,
    Case,
    Key,
    Value,
    Range,
    Config,
    Length,
    Default,
    Container,
    LeafList,
    Mandatory,
    Description,
    FractionDigits,
}

/// The keyword of a statement; one of the frequent ones takes no memory.
#[derive(Debug, Drop)]
pub enum KeywordText {
    Frequent(FrequentKeyword),
    Other(String),
}

fn text_of(keyword: FrequentKeyword) -> &'static str
    ensures { result.now ≡ frequent_text keyword }
{
    match keyword {
        FrequentKeyword::Leaf => "leaf",
        FrequentKeyword::Type => "type",
        FrequentKeyword::Enum => "enum",
        FrequentKeyword::List => "list",
        FrequentKeyword::Uses => "uses",
        FrequentKeyword::Path => "path",
        FrequentKeyword::Case => "case",
        FrequentKeyword::Key => "key",
        FrequentKeyword::Value => "value",
        FrequentKeyword::Range => "range",
        FrequentKeyword::Config => "config",
        FrequentKeyword::Length => "length",
        FrequentKeyword::Default => "default",
        FrequentKeyword::Container => "container",
        FrequentKeyword::LeafList => "leaf-list",
        FrequentKeyword::Mandatory => "mandatory",
        FrequentKeyword::Description => "description",
        FrequentKeyword::FractionDigits => "fraction-digits",
    }
}

/// A keyword, where a text is it.
fn known(text: &str, keyword: FrequentKeyword) -> Option<FrequentKeyword>
    ensures { (found : _) → result ≡ Some found → frequent_text found ≡ text.now }
{
    if text == text_of(keyword) {
        Some(keyword)
    } else {
        None
    }
}

/// The first of two keywords that a text is.
fn either(text: &str, first: FrequentKeyword, second: FrequentKeyword) -> Option<FrequentKeyword>
    ensures { (found : _) → result ≡ Some found → frequent_text found ≡ text.now }
{
    match known(text, first) {
        Some(keyword) => Some(keyword),
        None => known(text, second),
    }
}

fn frequent_of_four(text: &str) -> Option<FrequentKeyword>
    ensures { (found : _) → result ≡ Some found → frequent_text found ≡ text.now }
{
    match either(text, FrequentKeyword::Leaf, FrequentKeyword::Type) {
        Some(keyword) => Some(keyword),
        None => match either(text, FrequentKeyword::Enum, FrequentKeyword::List) {
            Some(keyword) => Some(keyword),
            None => match either(text, FrequentKeyword::Uses, FrequentKeyword::Path) {
                Some(keyword) => Some(keyword),
                None => known(text, FrequentKeyword::Case),
            },
        },
    }
}

fn frequent_of_nine(text: &str) -> Option<FrequentKeyword>
    ensures { (found : _) → result ≡ Some found → frequent_text found ≡ text.now }
{
    match known(text, FrequentKeyword::Container) {
        Some(keyword) => Some(keyword),
        None => either(text, FrequentKeyword::LeafList, FrequentKeyword::Mandatory),
    }
}

/// The frequent keyword that a text is.
fn frequent(text: &str) -> Option<FrequentKeyword>
    ensures { (found : _) → result ≡ Some found → frequent_text found ≡ text.now }
{
    match text.len() {
        3 => known(text, FrequentKeyword::Key),
        4 => frequent_of_four(text),
        5 => either(text, FrequentKeyword::Value, FrequentKeyword::Range),
        6 => either(text, FrequentKeyword::Config, FrequentKeyword::Length),
        7 => known(text, FrequentKeyword::Default),
        9 => frequent_of_nine(text),
        11 => known(text, FrequentKeyword::Description),
        15 => known(text, FrequentKeyword::FractionDigits),
        _ => None,
    }
}

impl KeywordText {
    ghost use Rattle.std.specs.Prelude.{◌≡◌, IfOk};
    ghost use Rattle.ytext.specs.View.{keyword_bytes};

    /// That of a text.
    pub(crate) fn of(alloc: Global, text: &str) -> Result<KeywordText, AllocError>
        ensures { IfOk result (λ keyword. keyword_bytes keyword ≡ text.now) }
    {
        match frequent(text) {
            Some(keyword) => Ok(KeywordText::Frequent(keyword)),
            None => Ok(KeywordText::Other(String::from_str(alloc, text)?)),
        }
    }

    /// Its text.
    pub fn as_str(&self) -> &str
        ensures { result.now ≡ keyword_bytes self.now }
    {
        match self {
            KeywordText::Frequent(keyword) => text_of(*keyword),
            KeywordText::Other(text) => text.as_str(),
        }
    }
}

/// A statement, with the line of its keyword, counted from 1.
#[derive(Debug, Drop)]
pub struct Stmt {
    pub keyword: KeywordText,
    pub arg: Option<String>,
    pub line: u32,
    pub subs: Vec<Stmt>,
}

impl Stmt {
    ghost use Rattle.std.specs.Prelude.{◌≡◌, ◌<◌, option_map};
    ghost use Rattle.ytext.specs.View.{view, row_view};
    ghost use Rattle.ytext.specs.declared.statement.Stmt.{size-Stmt};
    ghost use denote.Param.Weighed.{most};

    /// The keyword.
    pub fn keyword(&self) -> &str
        ensures { result.now ≡ (view self.now).0.keyword }
    {
        self.keyword.as_str()
    }

    /// The argument, where there is one.
    pub fn argument(&self) -> Option<&str>
        ensures { option_map (λ t. t.now) result ≡ (view self.now).0.argument }
    {
        match &self.arg {
            Some(text) => Some(text.as_str()),
            None => None,
        }
    }

    /// The line of the keyword, counted from 1.
    pub fn line(&self) -> u32
        ensures { result ≡ (view self.now).0.line }
    {
        self.line
    }

    /// The substatements, in order. Each is smaller than the statement, so a recursion over them ends.
    pub fn substatements(&self) -> &[Stmt]
        ensures below { row_view result.now ≡ (view self.now).1 }
        ensures smaller { most (λ s. size-Stmt s) result.now < size-Stmt self.now }
    {
        self.subs.as_slice()
    }
}
