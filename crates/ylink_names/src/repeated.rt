//! Prefixes that a module gives twice (RFC 7950, 5.1.1, 6.4 and 7.1.4).

ghost use Rattle.std.specs.Prelude.{◌≡◌, ◌++◌, [], map, IfOk, OnOk};
ghost use Rattle.yspec.specs.schema.Breaks.{least_from};
ghost use Rattle.yspec.specs.linking.Imports as spec;
ghost use Rattle.yspec.specs.linking.Source.{all_with};
ghost use Rattle.ybase_preorder.specs.View.{row_by, label_by};
ghost use Rattle.ybase_words.specs.KeywordView.{keyword_view};
ghost use Rattle.ylink_grammar.specs.BreakView.{seen};
ghost use Rattle.ylink_grammar.specs.LinkView.{view};
ghost use Rattle.ylink_grammar.specs.SourceView.{source_view};

use crate::first_named::FirstNamed;
use std::alloc::{AllocError, Global};
use ybase_preorder::{Node, Siblings};
use ybase_words::Keyword;
use ylink_grammar::{BrokenRule, CompileCode, Source, Sources, argument_of, broken, least_when};

/// Adds the statements of a row with a keyword behind those so far.
fn add_with<'a, 't>(
    found: &mut Vec<Node<'a, Source<'t>>>,
    keyword: Keyword,
    statements: Siblings<'a, Source<'t>>,
) -> Result<(), AllocError>
    ensures { OnOk result (map (label_by source_view) found.new.items
        ≡ map (label_by source_view) found.old.items
        ++ all_with (keyword_view keyword) (row_by source_view statements.entry)) }
{
    for statement in statements {
        if keyword.is(statement.label().keyword) {
            found.push(statement)?;
        }
    }
    Ok(())
}

/// The `prefix` statements of the row of a module: its own, and those of its imports.
fn prefix_statements<'a, 't>(
    alloc: Global,
    body: Siblings<'a, Source<'t>>,
) -> Result<Vec<Node<'a, Source<'t>>>, AllocError>
    ensures { IfOk result (λ found. map (label_by source_view) found.items
        ≡ spec.prefix_statements (row_by source_view body.entry)) }
{
    let mut found = Vec::new(alloc);
    for statement in body {
        match statement.label().keyword {
            Keyword::Prefix => found.push(statement)?,
            Keyword::Import => add_with(&mut found, Keyword::Prefix, statement.children())?,
            _ => {}
        }
    }
    Ok(found)
}

/// The lesser of one so far and of the statements whose argument an earlier one has.
fn judge_repeated(
    alloc: Global,
    statements: &[Node<'_, Source<'_>>],
    so_far: Option<BrokenRule>,
) -> Result<Option<BrokenRule>, AllocError>
    ensures { IfOk result (λ told. seen told ≡ least_from (seen so_far)
        (spec.repeated [] (map (label_by source_view) statements.now))) }
{
    let mut names = FirstNamed::new(alloc);
    let mut told = so_far;
    for statement in statements {
        let source = statement.label();
        let name = argument_of(*statement);
        let is_repeated = names.get(name).is_some();
        names.add(name, ())?;
        let repeated = broken(CompileCode::C6, source.home, source.statement);
        told = least_when(is_repeated, told, repeated);
    }
    Ok(told)
}

/// The lesser of one so far and of the prefixes that modules give twice, by module and line.
pub(crate) fn repeated_prefix(
    alloc: Global,
    sources: &Sources<'_>,
    so_far: Option<BrokenRule>,
) -> Result<Option<BrokenRule>, AllocError>
    ensures { IfOk result (λ told. seen told ≡ least_from (seen so_far)
        (spec.repeated_prefixes (view sources.now))) }
{
    let mut told = so_far;
    for top in sources.modules() {
        let statements = prefix_statements(alloc, top.children())?;
        told = judge_repeated(alloc, &statements, told)?;
    }
    Ok(told)
}
