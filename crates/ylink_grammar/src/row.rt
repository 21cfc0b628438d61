//! Questions to a row of statements.

ghost use Rattle.std.specs.Prelude.{◌≡◌, option_map};
ghost use Rattle.yspec.specs.linking.Source as spec;
ghost use Rattle.ybase_preorder.specs.View.{row_by, label_by};
ghost use Rattle.ybase_words.specs.KeywordView.{keyword_view};
ghost use Rattle.ylink_grammar.specs.SourceView.{source_view, node_view};

use crate::source::Source;
use ybase_preorder::{Node, Siblings};
use ybase_words::Keyword;

/// The first statement of a row with a keyword.
pub fn first_with<'a, 't>(
    keyword: Keyword,
    statements: Siblings<'a, Source<'t>>,
) -> Option<Node<'a, Source<'t>>>
    ensures { option_map (label_by source_view) result
        ≡ spec.first_with (keyword_view keyword) (row_by source_view statements.entry) }
{
    found_with(keyword, statements)
}

/// The argument of a statement; its keyword where there is none.
pub fn argument_of<'a, 't>(statement: Node<'a, Source<'t>>) -> &'t str
    ensures { result.now ≡ spec.argument_in (label_by source_view statement.entry) }
{
    statement.label().argument()
}

/// The argument of the first statement of a row with a keyword.
pub fn argument_with<'a, 't>(
    keyword: Keyword,
    statements: Siblings<'a, Source<'t>>,
) -> Option<&'t str>
    ensures { option_map (λ text. text.now) result
        ≡ spec.argument_with (keyword_view keyword) (row_by source_view statements.entry) }
{
    match first_with(keyword, statements) {
        Some(statement) => Some(argument_of(statement)),
        None => None,
    }
}

/// The first statement of a row with a keyword, with what stands below it.
pub fn found_with<'a, 't>(
    keyword: Keyword,
    statements: Siblings<'a, Source<'t>>,
) -> Option<Node<'a, Source<'t>>>
    ensures { option_map node_view result
        ≡ spec.found_with (keyword_view keyword) (row_by source_view statements.entry) }
{
    for statement in statements {
        if keyword.is(statement.label().keyword) {
            return Some(statement);
        }
    }
    None
}
