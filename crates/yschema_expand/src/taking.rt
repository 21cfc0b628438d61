//! Which nodes may take what an augment states (RFC 7950, 7.17; RFC 6020, 7.9.2).

ghost use Rattle.std.specs.Prelude.{◌≡◌, ◌&&◌, not, is_some};
ghost use Rattle.std.specs.List.{list_any};
ghost use Rattle.yspec.specs.Forest.{row};
ghost use Rattle.yspec.specs.linking.Keyword.{case_word, choice_word, uses_word};
ghost use Rattle.yspec.specs.linking.Source.{first_with};
ghost use Rattle.yspec_wide.specs.Expansion as spec;
ghost use Rattle.yspec_wide.specs.Sources as sources;
ghost use Rattle.ybase_preorder.specs.View.{row_by};
ghost use Rattle.ybase_words.specs.KeywordView.{keyword_view};
ghost use Rattle.ylink_grammar.specs.LanguageView.{language_view};
ghost use Rattle.ylink_grammar.specs.SourceView.{source_view};
ghost use Rattle.yschema_expand.specs.NodeView.{part_view};
ghost use Rattle.yschema_expand.specs.Taking.{may_hold, may_take};

use crate::nodes::ExpandedNode;
use ybase_preorder::Siblings;
use ybase_words::Keyword;
use ylink_grammar::{Language, Source, first_with, is_operation};

/// Whether a choice takes the statements of an augment: no `uses`, and no choice in a module of YANG 1 (RFC 6020, 7.9.2).
fn choice_takes(old: bool, statements: Siblings<'_, Source<'_>>) -> bool
    ensures { let given = row_by source_view statements.entry in
        result ≡ (not (is_some (first_with uses_word given)) && not (old && is_some (first_with choice_word given))) }
{
    if first_with(Keyword::Uses, statements).is_some() {
        return false;
    }
    if !old {
        return true;
    }
    first_with(Keyword::Choice, statements).is_none()
}

/// Whether a node that is no choice takes the statements of an augment: no case.
fn node_takes(statements: Siblings<'_, Source<'_>>) -> bool
    ensures { result ≡ not (is_some (first_with case_word (row_by source_view statements.entry))) }
{
    first_with(Keyword::Case, statements).is_none()
}

/// Whether one of some statements is an operation of a language.
fn bears_operations(language: &Language, statements: Siblings<'_, Source<'_>>) -> bool
    ensures { result ≡ list_any (sources.is_operation (language_view language.now)) (row (row_by source_view statements.entry)) }
{
    for statement in statements {
        if is_operation(language, statement.label()) {
            return true;
        }
    }
    false
}

/// Whether a node takes operations: containers and lists do, and not those that are parts of operations themselves.
fn takes_operations(language: &Language, node: &ExpandedNode<'_, '_>) -> bool
    ensures { result ≡ spec.takes_operations (language_view language.now) (part_view node.now).source }
{
    let keyword = node.keyword();
    !node.is_operation_part(language)
        && (Keyword::Container.is(keyword) || Keyword::List.is(keyword))
}

/// Whether a node is closed to the statements of an augment: an `rpc` or an `action`, or one that takes no operations where some
/// are among them.
fn is_closed(
    language: &Language,
    node: &ExpandedNode<'_, '_>,
    statements: Siblings<'_, Source<'_>>,
) -> bool
    ensures { result ≡ spec.is_closed (language_view language.now) (row_by source_view statements.entry) (part_view node.now).source }
{
    let bears = bears_operations(language, statements);
    node.is_call(language) || (bears && !takes_operations(language, node))
}

/// Whether a node may take the statements of an augment, given whether they stand in a module of YANG 1.
pub fn holds_by(
    language: &Language,
    old: bool,
    node: &ExpandedNode<'_, '_>,
    statements: Siblings<'_, Source<'_>>,
) -> bool
    ensures { result ≡ may_hold (record { language = language_view language.now; is_old = old })
        (part_view node.now).source (row_by source_view statements.entry) }
{
    let takes = may_take(old, node.keyword(), statements);
    takes && !is_closed(language, node, statements)
}

/// Whether a node of a keyword may take the statements of an augment, given whether they stand in a module of YANG 1.
fn may_take(old: bool, keyword: Keyword, statements: Siblings<'_, Source<'_>>) -> bool
    ensures { result ≡ may_take old (keyword_view keyword) (row_by source_view statements.entry) }
{
    match keyword {
        Keyword::Choice => choice_takes(old, statements),
        Keyword::Container => node_takes(statements),
        Keyword::List => node_takes(statements),
        Keyword::Case => node_takes(statements),
        _ => false,
    }
}
