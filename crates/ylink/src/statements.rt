//! The statements of a row, one after another.

use crate::linked::StmtId;
use ybase_preorder::Siblings;
use ylink_grammar::Source;

/// The statements of a row, in order.
#[derive(Clone, Copy)]
pub struct Statements<'a, 't> {
    nodes: Siblings<'a, Source<'t>>,
}

impl<'a, 't> Statements<'a, 't> {
    ghost use Rattle.std.specs.Prelude.{◌≡◌};
    ghost use Rattle.ybase_preorder.specs.View.{row_by};
    ghost use Rattle.ylink_grammar.specs.SourceView.{source_view};
    ghost use Rattle.ylink.specs.StatementsView.{left, numbers_of};

    /// Those of a row.
    pub(crate) fn new(nodes: Siblings<'a, Source<'t>>) -> Statements<'a, 't>
        ensures { left result ≡ numbers_of (row_by source_view nodes.entry) }
    {
        Statements { nodes }
    }
}

impl<'a, 't> Iterator for Statements<'a, 't> {
    type Item = StmtId;

    ghost use Rattle.std.specs.Iterator.{YieldsFirstBy, item_count};
    ghost use Rattle.ylink.specs.StatementsView.{left, number_of};

    ghost next_gives = { YieldsFirstBy number_of left };

    ghost remaining = { item_count left };

    fn next(&mut self) -> Option<StmtId> {
        Some(StmtId(self.nodes.next()?.number()))
    }
}
