//! Which typedef, grouping or identity holds each `type`, `uses` and `base` statement (RFC 7950, 7.3, 7.12 and 7.18.2).

ghost use Rattle.std.specs.Prelude.{◌≡◌, ◌++◌, List, Some, IfOk, OnOk, map, option_and_then, if◌then◌else◌};
ghost use Rattle.yspec.specs.linking.Circles.{referring};
ghost use Rattle.yspec.specs.linking.Keyword.{typedef_word, grouping_word, identity_word};
ghost use Rattle.yspec.specs.linking.Scopes.{placed, kind_named};
ghost use Rattle.yspec.specs.linking.Source.{is_source_of};
ghost use Rattle.ybase_preorder.specs.View.{row_by, label_by};
ghost use Rattle.ybase_words.specs.KeywordView.{keyword_view};
ghost use Rattle.ylink_grammar.specs.LinkView.{view};
ghost use Rattle.ylink_grammar.specs.SourceView.{source_view};
ghost use Rattle.ylink_names.specs.ReferringView.{innermost_of, AreReferring};

use crate::definitions::{has_any_definition, nothing_of};
use std::alloc::{AllocError, Global};
use ybase_preorder::{Node, Siblings};
use ybase_words::Keyword;
use ylink_grammar::{Source, Sources};

/// The innermost statement with a keyword around what stands below a statement, given that around it.
fn innermost_below(
    keyword: Keyword,
    above: Option<u32>,
    statement: Node<'_, Source<'_>>,
) -> Option<u32>
    ensures { result ≡ if is_source_of (keyword_view keyword) (label_by source_view statement.entry)
        then Some statement.entry.number else above }
{
    if keyword.is(statement.label().keyword) {
        Some(statement.number())
    } else {
        above
    }
}

/// The innermost definition of the kind that a statement with a keyword names, given those of each kind.
fn holder_of(
    keyword: Keyword,
    typedef: Option<u32>,
    grouping: Option<u32>,
    identity: Option<u32>,
) -> Option<u32>
    ensures { (ancestors : List _) → typedef ≡ innermost_of typedef_word ancestors
        → grouping ≡ innermost_of grouping_word ancestors
        → identity ≡ innermost_of identity_word ancestors
        → result ≡ option_and_then (λ kind. innermost_of kind ancestors)
        (kind_named (keyword_view keyword)) }
{
    match keyword {
        Keyword::Type => typedef,
        Keyword::Uses => grouping,
        Keyword::Base => identity,
        _ => None,
    }
}

/// Adds what holds the statements of a row, and those below it, given the innermost definitions around the row.
fn add_holders(
    typedef: Option<u32>,
    grouping: Option<u32>,
    identity: Option<u32>,
    statements: Siblings<'_, Source<'_>>,
    made: &mut Vec<Option<u32>>,
) -> Result<(), AllocError>
    ensures { (ancestors : List _) → typedef ≡ innermost_of typedef_word ancestors
        → grouping ≡ innermost_of grouping_word ancestors
        → identity ≡ innermost_of identity_word ancestors
        → OnOk result (made.new.items ≡ made.old.items
        ++ map referring (placed ancestors (row_by source_view statements.entry))) }
{
    for statement in statements {
        made.push(holder_of(statement.label().keyword, typedef, grouping, identity))?;
        let inner_typedef = innermost_below(Keyword::Typedef, typedef, statement);
        let inner_grouping = innermost_below(Keyword::Grouping, grouping, statement);
        let inner_identity = innermost_below(Keyword::Identity, identity, statement);
        add_holders(
            inner_typedef,
            inner_grouping,
            inner_identity,
            statement.children(),
            made,
        )?;
    }
    Ok(())
}

/// Of each statement of a set, by its number, that of the innermost definition that holds it and is of the kind that it
/// names.
pub fn holders_of(alloc: Global, sources: &Sources<'_>) -> Result<Vec<Option<u32>>, AllocError>
    ensures { IfOk result (λ made. AreReferring made.items (view sources.now)) }
{
    if !has_any_definition(sources) {
        return nothing_of(alloc, sources);
    }
    let mut made = Vec::new(alloc);
    add_holders(None, None, None, sources.modules(), &mut made)?;
    Ok(made)
}
