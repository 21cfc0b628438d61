//! What nodes state with all that they are given (RFC 7950, 7.13.2).

use crate::nodes::ExpandedNode;
use ybase_preorder::{Node, Siblings};
use ybase_words::Keyword;
use ylink_grammar::{Source, argument_with, found_with};

impl<'a, 't> ExpandedNode<'a, 't> {
    ghost use Rattle.std.specs.Prelude.{◌≡◌, false, option_map};
    ghost use Rattle.yspec.specs.linking.Keyword.{extension_word, same_keyword};
    ghost use Rattle.yspec.specs.linking.Parts.{defines_node};
    ghost use Rattle.yspec.specs.linking.Source as sources;
    ghost use Rattle.ybase_words.specs.KeywordView.{keyword_view};
    ghost use Rattle.ylink_grammar.specs.SourceView.{node_view};
    ghost use Rattle.yschema_expand.specs.NodeView.{part_view};
    ghost use Rattle.yschema_given.specs.GivenView.{row_or_none};
    ghost use Rattle.yschema_given.specs.Stating.{SameFor};

    /// The row in which what it states with a keyword stands, which is none of those that define nodes, nor that of conditions:
    /// that of the last refine that gives such statements, else its own.
    pub fn row_stating(&self, keyword: Keyword) -> Option<Siblings<'a, Source<'t>>>
        requires node { defines_node (keyword_view keyword) ≡ false }
        requires condition { same_keyword extension_word (keyword_view keyword) ≡ false }
        ensures { SameFor (keyword_view keyword) (row_or_none result) (part_view self.now).own }
    {
        let mut stating = self.own();
        for given in &self.given {
            stating = given.row_stating(keyword, stating);
        }
        stating
    }

    /// The first statement that it has with a keyword, which is none of those that define nodes, nor that of conditions.
    pub fn first_own(&self, keyword: Keyword) -> Option<Node<'a, Source<'t>>>
        requires node { defines_node (keyword_view keyword) ≡ false }
        requires condition { same_keyword extension_word (keyword_view keyword) ≡ false }
        ensures { option_map node_view result
            ≡ sources.found_with (keyword_view keyword) (part_view self.now).own }
    {
        found_with(keyword, self.row_stating(keyword)?)
    }

    /// The argument of the first statement that it has with a keyword, which is none of those that define nodes, nor that of
    /// conditions.
    pub fn own_argument(&self, keyword: Keyword) -> Option<&'t str>
        requires node { defines_node (keyword_view keyword) ≡ false }
        requires condition { same_keyword extension_word (keyword_view keyword) ≡ false }
        ensures { option_map (λ text. text.now) result
            ≡ sources.argument_with (keyword_view keyword) (part_view self.now).own }
    {
        argument_with(keyword, self.row_stating(keyword)?)
    }
}
