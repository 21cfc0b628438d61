//! Where a definition has a name that is taken (RFC 7950, 5.5, 6.2.1, 7.3, 7.12 and 7.18).

ghost use Rattle.std.specs.Prelude.{◌≡◌, ◌==◌, List, IfOk, false, not};
ghost use Rattle.std.specs.List.{flat_map};
ghost use Rattle.std.specs.Option.{option_map_or};
ghost use Rattle.yspec.specs.Forest.{Forest};
ghost use Rattle.yspec.specs.schema.Breaks as told_spec;
ghost use Rattle.yspec.specs.schema.Breaks.{least_from};
ghost use Rattle.yspec.specs.linking.Source as sources;
ghost use Rattle.yspec.specs.linking.StatementBreaks as breaks;
ghost use Rattle.yspec.specs.linking.Scopes as spec;
ghost use Rattle.ybase_preorder.specs.View.{row_by, label_by};
ghost use Rattle.ytext.specs.View as text;
ghost use Rattle.ybase_words.specs.KeywordView.{keyword_view};
ghost use Rattle.ylink_grammar.specs.BreakView.{seen};
ghost use Rattle.ylink_grammar.specs.LinkView.{view};
ghost use Rattle.ylink_grammar.specs.NamedType.{argument_text};
ghost use Rattle.ylink_grammar.specs.SourceView.{source_view};
ghost use Rattle.ylink_names.specs.DefinitionView.{IsAround, kind_word};
ghost use Rattle.ylink_names.specs.ScopeView.{placed_at};

use crate::definitions::{DefinitionKind, Definitions, Scope, has_any_definition};
use std::alloc::{AllocError, Global};
use ybase_preorder::{Node, Siblings};
use ybase_words::Keyword;
use ylink_grammar::{BrokenRule, CompileCode, Source, Sources, broken, least};

/// Whether it is the name of a built-in type that isn't compiled.
fn is_type_outside(name: &str) -> bool
    ensures { result ≡ breaks.is_type_outside name.now }
{
    matches!(name, "binary" | "instance-identifier")
}

/// Whether the argument of a statement is the name of a built-in type.
pub(crate) fn is_built_in(statement: &Source<'_>) -> bool
    ensures { result ≡ spec.is_built_in (argument_text (text.view statement.now.statement.now).0) }
{
    statement.built_in().is_some() || is_type_outside(statement.argument())
}

/// Whether another definition of its kind has the name of one, of a number, that stands in a scope.
fn is_held(scope: &Scope<'_, '_>, kind: DefinitionKind, number: u32, statement: &Source<'_>) -> bool
    ensures { (ancestors : List _) (below : _) → IsAround scope.now ancestors
        → kind_word kind ≡ keyword_view statement.now.keyword
        → result ≡ option_map_or (λ d. not (d.number == number))
        (spec.holder (placed_at (source_view number statement.now) below ancestors)) false }
{
    match scope.outermost(kind, statement.argument()) {
        Some(holder) => holder != number,
        None => false,
    }
}

/// Whether the name of a definition that stands in a scope is taken.
fn is_taken(scope: &Scope<'_, '_>, number: u32, statement: &Source<'_>) -> bool
    ensures { (ancestors : List _) (below : _) → IsAround scope.now ancestors
        → result ≡ spec.is_taken (placed_at (source_view number statement.now) below ancestors) }
{
    match statement.keyword {
        Keyword::Typedef => {
            is_held(scope, DefinitionKind::Typedef, number, statement) || is_built_in(statement)
        }
        Keyword::Grouping => is_held(scope, DefinitionKind::Grouping, number, statement),
        Keyword::Identity => is_held(scope, DefinitionKind::Identity, number, statement),
        _ => false,
    }
}

/// The lesser of one so far and of the rule that a definition breaks whose name is taken.
fn judge_taken(
    statement: &Source<'_>,
    is_taken: bool,
    so_far: Option<BrokenRule>,
) -> Option<BrokenRule>
    ensures { seen result ≡ least_from (seen so_far) (told_spec.when is_taken
        (told_spec.broken 7 statement.now.home (text.view statement.now.statement.now).0.line)) }
{
    if is_taken {
        least(
            so_far,
            broken(CompileCode::C7, statement.home, statement.statement),
        )
    } else {
        so_far
    }
}

/// The least of one so far and of the definitions of a row, and below it, whose names are taken.
fn broken_taken_rule_in<'t>(
    alloc: Global,
    scope: &Scope<'_, 't>,
    statements: Siblings<'_, Source<'t>>,
    so_far: Option<BrokenRule>,
) -> Result<Option<BrokenRule>, AllocError>
    ensures { (ancestors : List _) → IsAround scope.now ancestors
        → IfOk result (λ told. seen told ≡ least_from (seen so_far) (flat_map spec.taken_break
        (spec.placed ancestors (row_by source_view statements.entry)))) }
{
    let mut told = so_far;
    for statement in statements {
        let source = statement.label();
        let taken = is_taken(scope, statement.number(), source);
        told = judge_taken(source, taken, told);
        let row = Definitions::within(alloc, statement.children())?;
        let inner = (&*scope).inside(&row);
        told = broken_taken_rule_in(alloc, &inner, statement.children(), told)?;
    }
    Ok(told)
}

/// The lesser of one so far and of the typedefs, groupings and identities whose names are taken, by module and line.
pub fn broken_taken_rule(
    alloc: Global,
    sources: &Sources<'_>,
    so_far: Option<BrokenRule>,
) -> Result<Option<BrokenRule>, AllocError>
    ensures { IfOk result (λ told. seen told
        ≡ least_from (seen so_far) (spec.taken_breaks (view sources.now))) }
{
    if !has_any_definition(sources) {
        return Ok(so_far);
    }
    broken_taken_rule_in(alloc, &Scope::Top, sources.modules(), so_far)
}
