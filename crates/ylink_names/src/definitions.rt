//! The definitions that stand in rows of statements, found by kind and name (RFC 7950, 5.5 and 6.2.1).

ghost use Rattle.std.specs.Prelude.{◌≡◌, ℕ, None, Some, if◌then◌else◌, IfOk, OnOk, map};
ghost use Rattle.std.specs.List.{list_any};
ghost use Rattle.yspec.specs.Forest.{first_of, preorder, row};
ghost use Rattle.yspec.specs.linking.Scopes.{is_definition, statements_of};
ghost use Rattle.yspec.specs.text.Text.{is_text};
ghost use Rattle.ybase_preorder.specs.View.{row_by};
ghost use Rattle.ybase_words.specs.KeywordView.{keyword_view};
ghost use Rattle.ylink_grammar.specs.LinkView.{view};
ghost use Rattle.ylink_grammar.specs.SourceView.{source_view};
ghost use Rattle.ylink_names.specs.DefinitionView.{AreFirst, AreOf};

use crate::first_named::FirstNamed;
use std::alloc::{AllocError, Global};
use ybase_preorder::Siblings;
use ybase_words::Keyword;
use ylink_grammar::{Source, Sources};

/// What statements define for others to name.
#[derive(Clone, Copy, Debug)]
pub(crate) enum DefinitionKind {
    Typedef,
    Grouping,
    Identity,
}

/// The definitions of a row, by their names.
#[derive(Drop)]
pub(crate) struct Definitions<'t> {
    // The numbers of the first statements of each name.
    typedefs: FirstNamed<'t, u32>,
    groupings: FirstNamed<'t, u32>,
    identities: FirstNamed<'t, u32>,
}

/// Where names are looked for: the rows around a statement, innermost first.
#[derive(Clone, Copy)]
pub(crate) enum Scope<'a, 't> {
    /// Nothing is around it.
    Top,
    /// The row of its siblings, and what is around that.
    Below {
        row: &'a Definitions<'t>,
        above: &'a Scope<'a, 't>,
    },
}

/// Whether a statement is a definition.
fn is_definition(statement: &Source<'_>) -> bool
    ensures { (number : ℕ) → result ≡ is_definition (source_view number statement.now) }
{
    matches!(
        statement.keyword,
        Keyword::Typedef | Keyword::Grouping | Keyword::Identity
    )
}

/// Whether a row has definitions.
fn has_definitions(statements: Siblings<'_, Source<'_>>) -> bool
    ensures { result ≡ list_any is_definition (row (row_by source_view statements.entry)) }
{
    for statement in statements {
        if is_definition(statement.label()) {
            return true;
        }
    }
    false
}

/// Whether a set has definitions.
pub(crate) fn has_any_definition(sources: &Sources<'_>) -> bool
    ensures { result ≡ list_any is_definition (preorder (view sources.now)) }
{
    for row in sources.slots() {
        if is_definition(&row.label) {
            return true;
        }
    }
    false
}

/// A table that holds nothing of each statement of a set.
pub(crate) fn nothing_of(
    alloc: Global,
    sources: &Sources<'_>,
) -> Result<Vec<Option<u32>>, AllocError>
    ensures { IfOk result (λ made. made.items
        ≡ map (λ _. None) (statements_of (view sources.now))) }
{
    let count = sources.slots().len();
    let mut made = Vec::with_capacity(alloc, count)?;
    made.resize(count, None)?;
    Ok(made)
}

/// The numbers of the statements of a keyword in a row, by their arguments: of several with one argument the first.
fn first_named<'t>(
    alloc: Global,
    keyword: Keyword,
    statements: Siblings<'_, Source<'t>>,
) -> Result<FirstNamed<'t, u32>, AllocError>
    ensures { IfOk result (λ names. AreFirst names (keyword_view keyword)
        (row (row_by source_view statements.entry))) }
{
    let mut names = FirstNamed::new(alloc);
    for statement in statements {
        let source = statement.label();
        if keyword.is(source.keyword) {
            names.add(source.argument(), statement.number())?;
        }
    }
    Ok(names)
}

impl<'t> Definitions<'t> {
    ghost use Rattle.std.specs.Prelude.{◌≡◌, IfOk};
    ghost use Rattle.ybase_preorder.specs.View.{row_by};
    ghost use Rattle.ylink_grammar.specs.SourceView.{source_view};
    ghost use Rattle.ylink_names.specs.DefinitionView.{first_in, AreOf, AreIn};

    /// The definitions of a row.
    pub(crate) fn of(
        alloc: Global,
        statements: Siblings<'_, Source<'t>>,
    ) -> Result<Definitions<'t>, AllocError>
        ensures { IfOk result (λ d. AreOf d (row_by source_view statements.entry)) }
    {
        let typedefs = first_named(alloc, Keyword::Typedef, statements)?;
        let groupings = first_named(alloc, Keyword::Grouping, statements)?;
        let identities = first_named(alloc, Keyword::Identity, statements)?;
        Ok(Definitions {
            typedefs,
            groupings,
            identities,
        })
    }

    /// The definitions of a row, where it has any.
    pub(crate) fn within(
        alloc: Global,
        statements: Siblings<'_, Source<'t>>,
    ) -> Result<Option<Definitions<'t>>, AllocError>
        ensures { IfOk result (λ d. AreIn d (row_by source_view statements.entry)) }
    {
        if !has_definitions(statements) {
            return Ok(None);
        }
        Ok(Some(Definitions::of(alloc, statements)?))
    }

    /// The number of the first definition of a kind and name.
    pub(crate) fn first(&self, kind: DefinitionKind, name: &str) -> Option<u32>
        ensures { result ≡ first_in kind self.now name.now }
    {
        match kind {
            DefinitionKind::Typedef => self.typedefs.get(name),
            DefinitionKind::Grouping => self.groupings.get(name),
            DefinitionKind::Identity => self.identities.get(name),
        }
    }
}

impl<'a, 't> Scope<'a, 't> {
    ghost use Rattle.std.specs.Prelude.{◌≡◌, ◌∷◌, List};
    ghost use Rattle.yspec.specs.Forest.{Forest};
    ghost use Rattle.yspec.specs.linking.Source as sources;
    ghost use Rattle.ylink_names.specs.DefinitionView.{innermost_in, outermost_in, AreIn, IsAround};

    /// The scope of a row in this one, given its definitions; a row without any adds nothing.
    pub(crate) fn inside<'b>(&'b self, row: &'b Option<Definitions<'t>>) -> Scope<'b, 't>
        ensures { (s : sources.Source) (f : Forest sources.Source) (ancestors : List _)
            → AreIn row.entry.now f → IsAround self.entry.now ancestors → IsAround result ((s, f) ∷ ancestors) }
    {
        match row {
            Some(row) => Scope::Below { row, above: self },
            None => *self,
        }
    }

    /// The number of the innermost definition of a kind and name.
    pub(crate) fn innermost(&self, kind: DefinitionKind, name: &str) -> Option<u32>
        ensures { result ≡ innermost_in kind self.now name.now }
    {
        match self {
            Scope::Top => None,
            Scope::Below { row, above } => match row.first(kind, name) {
                Some(number) => Some(number),
                None => above.innermost(kind, name),
            },
        }
    }

    /// The number of the outermost definition of a kind and name.
    pub(crate) fn outermost(&self, kind: DefinitionKind, name: &str) -> Option<u32>
        ensures { result ≡ outermost_in kind self.now name.now }
    {
        match self {
            Scope::Top => None,
            Scope::Below { row, above } => match above.outermost(kind, name) {
                Some(number) => Some(number),
                None => row.first(kind, name),
            },
        }
    }
}
