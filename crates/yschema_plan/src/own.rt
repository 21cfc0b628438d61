//! The own statements of planned nodes, one after another.

use ybase_preorder::{Node, Siblings};
use ybase_words::Keyword;
use ylink_grammar::Source;

/// The statements of a row, where there is one, that have a keyword, in order.
#[derive(Clone, Copy)]
pub struct OwnStatements<'a, 't> {
    keyword: Keyword,
    // Those that are left, others among them.
    statements: Option<Siblings<'a, Source<'t>>>,
}

impl<'a, 't> OwnStatements<'a, 't> {
    ghost use Rattle.std.specs.Prelude.{◌≡◌};
    ghost use Rattle.yspec.specs.linking.Source.{all_with};
    ghost use Rattle.ybase_words.specs.KeywordView.{keyword_view};
    ghost use Rattle.yschema_expand.specs.NamedView.{row_or_none};
    ghost use Rattle.yschema_plan.specs.OwnView.{left};

    /// Those of a row.
    pub(crate) fn new(
        keyword: Keyword,
        statements: Option<Siblings<'a, Source<'t>>>,
    ) -> OwnStatements<'a, 't>
        ensures { left result ≡ all_with (keyword_view keyword) (row_or_none statements.entry) }
    {
        OwnStatements {
            keyword,
            statements,
        }
    }
}

impl<'a, 't> Iterator for OwnStatements<'a, 't> {
    type Item = Node<'a, Source<'t>>;

    ghost use Rattle.std.specs.Iterator.{YieldsFirstBy, item_count};
    ghost use Rattle.ybase_preorder.specs.View.{label_by};
    ghost use Rattle.ylink_grammar.specs.SourceView.{source_view};
    ghost use Rattle.yschema_plan.specs.OwnView.{left};

    ghost next_gives = { YieldsFirstBy (label_by source_view) left };

    ghost remaining = { item_count left };

    fn next(&mut self) -> Option<Node<'a, Source<'t>>> {
        let mut rest = self.statements?;
        while let Some(statement) = rest.next() {
            if self.keyword.is(statement.label().keyword) {
                self.statements = Some(rest);
                return Some(statement);
            }
        }
        self.statements = None;
        None
    }
}
