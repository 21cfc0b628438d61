//! Which statements come to stand among nodes (RFC 7950, 7.9.2 and 7.13).

ghost use Rattle.std.specs.Prelude.{◌≡◌, ◌&&◌, not};
ghost use Rattle.yspec.specs.linking.Keyword.{case_word};
ghost use Rattle.yspec.specs.linking.Source.{is_source_of};
ghost use Rattle.ybase_preorder.specs.View.{label_by};
ghost use Rattle.ybase_words.specs.KeywordView.{keyword_view};
ghost use Rattle.ylink_grammar.specs.SourceView.{source_view};
ghost use Rattle.yschema_expand.specs.Walk.{is_laid};

use ybase_preorder::Node;
use ybase_words::Keyword;
use ylink_grammar::Source;

/// Whether a statement has a keyword.
pub(crate) fn has_keyword(statement: Node<'_, Source<'_>>, keyword: Keyword) -> bool
    ensures { result ≡ is_source_of (keyword_view keyword) (label_by source_view statement.entry) }
{
    keyword.is(statement.label().keyword)
}

/// Whether a statement defines nodes or uses some.
pub(crate) fn is_laid(statement: Node<'_, Source<'_>>) -> bool
    ensures { result ≡ is_laid (label_by source_view statement.entry) }
{
    statement.label().keyword.defines_node() || has_keyword(statement, Keyword::Uses)
}

/// Whether a statement stands for a case, given whether it stands in a choice.
pub(crate) fn is_single(in_choice: bool, statement: Node<'_, Source<'_>>) -> bool
    ensures { result ≡ (in_choice
        && not (is_source_of case_word (label_by source_view statement.entry))) }
{
    in_choice && !has_keyword(statement, Keyword::Case)
}
