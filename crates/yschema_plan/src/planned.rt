//! Planned nodes.

use crate::own::OwnStatements;
use ybase_preorder::Node;
use ybase_words::Keyword;
use ylink_grammar::{BrokenRule, CompileCode, Language, Source};
use yschema_expand::ExpandedNode;

/// A schema node, with what stands around it.
#[derive(Clone, Copy)]
pub struct Planned<'a, 't> {
    // What it is, and what it states.
    node: &'a ExpandedNode<'a, 't>,
    /// The number of the node above it.
    pub parent: Option<u32>,
    /// The number of the node whose children share its name: the data node above it, choices and cases passed through; of
    /// a case its choice.
    pub scope: Option<u32>,
    /// Whether it is configuration (RFC 7950, 7.21.1).
    pub config: bool,
}

impl<'a, 't> Planned<'a, 't> {
    ghost use Rattle.std.specs.Prelude.{◌≡◌, [], ◌∷◌, false, option_map};
    ghost use Rattle.yspec.specs.linking.NodeBreaks.{broken_at};
    ghost use Rattle.ylink_grammar.specs.BreakView.{break_view, code_number};
    ghost use Rattle.yspec.specs.linking.Keyword.{extension_word, same_keyword};
    ghost use Rattle.yspec.specs.linking.Parts.{defines_node};
    ghost use Rattle.yspec.specs.linking.Planned as spec;
    ghost use Rattle.yspec.specs.linking.Source as sources;
    ghost use Rattle.yspec_wide.specs.Sources as words;
    ghost use Rattle.yspec_wide.specs.Words.{action_word, anydata_word, anyxml_word};
    ghost use Rattle.ylink_grammar.specs.LanguageView.{language_view};
    ghost use Rattle.ybase_words.specs.KeywordView.{keyword_view};
    ghost use Rattle.ylink_grammar.specs.SourceView.{node_view};
    ghost use Rattle.yschema_expand.specs.NodeView.{part_view};
    ghost use Rattle.yschema_plan.specs.PlannedView.{around_view, part_at, planned_view};
    ghost use Rattle.yschema_plan.specs.OwnView.{left};

    /// A node with what stands around it.
    pub(crate) fn new(node: &'a ExpandedNode<'a, 't>, around: Around) -> Planned<'a, 't>
        ensures { (number : _) → planned_view number result
            ≡ spec.planned_node number (around_view around) (part_view node.entry.now) }
    {
        let mut planned = Planned {
            node,
            parent: around.parent,
            scope: around.scope,
            config: around.config,
        };
        if let Some(text) = planned.own_argument(Keyword::Config) {
            planned.config = text == "true";
        }
        planned
    }

    /// The first of its own statements with a keyword, which is none of those that define nodes, nor that
    /// of conditions.
    pub fn first_own(&self, keyword: Keyword) -> Option<Node<'a, Source<'t>>>
        requires node { defines_node (keyword_view keyword) ≡ false }
        requires condition { same_keyword extension_word (keyword_view keyword) ≡ false }
        ensures { option_map node_view result
            ≡ sources.found_with (keyword_view keyword) (part_at self.now).own }
    {
        self.node.first_own(keyword)
    }

    /// Its own statements with a keyword, which is none of those that define nodes, nor that of conditions, in order.
    pub fn own_with(&self, keyword: Keyword) -> OwnStatements<'a, 't>
        requires node { defines_node (keyword_view keyword) ≡ false }
        requires condition { same_keyword extension_word (keyword_view keyword) ≡ false }
        ensures { left result ≡ sources.all_with (keyword_view keyword) (part_at self.now).own }
    {
        OwnStatements::new(keyword, self.node.row_stating(keyword))
    }

    /// The keyword of its statement; that of a case, where one is implied.
    pub fn keyword(&self) -> Keyword
        ensures { keyword_view result ≡ (part_at self.now).source.keyword }
    {
        self.node.keyword()
    }

    /// The number of its statement; where a case is implied, that of the node in it.
    pub fn statement_number(&self) -> u32
        ensures { result ≡ (part_at self.now).source.number }
    {
        self.node.source.number()
    }

    /// The module in which its statement stands, by its number in the set.
    pub fn home(&self) -> usize
        ensures { result ≡ (part_at self.now).source.home }
    {
        self.node.source.label().home
    }

    /// The module to which it belongs, by its number in the set.
    pub fn owner(&self) -> usize
        ensures { result ≡ (part_at self.now).owner }
    {
        self.node.owner()
    }

    /// The number of the `augment` that put it below its target, where one did.
    pub fn added_by(&self) -> Option<u32>
        ensures { result ≡ (part_at self.now).added_by }
    {
        self.node.added_by()
    }

    /// Its name.
    pub fn name(&self) -> &'t str
        ensures { result.now ≡ sources.argument_in (part_at self.now).source }
    {
        self.node.name()
    }

    /// The argument of the first of its own statements with a keyword, which is none of those that define nodes, nor that
    /// of conditions.
    pub fn own_argument(&self, keyword: Keyword) -> Option<&'t str>
        requires node { defines_node (keyword_view keyword) ≡ false }
        requires condition { same_keyword extension_word (keyword_view keyword) ≡ false }
        ensures { (number : _) → option_map (λ text. text.now) result
            ≡ spec.stated_in (keyword_view keyword) (planned_view number self.now) }
    {
        self.node.own_argument(keyword)
    }

    /// A rule that it breaks, which is told at its statement.
    pub fn broken(&self, code: CompileCode) -> BrokenRule
        ensures { (number : _) → break_view result ∷ []
            ≡ broken_at (code_number code) (planned_view number self.now) }
    {
        self.node.broken(code)
    }

    /// Whether it is an operation of a language: an `rpc`, an `action` or a `notification`.
    pub fn is_operation(&self, language: &Language) -> bool
        ensures { result
            ≡ words.is_operation (language_view language.now) (part_at self.now).source }
    {
        self.node.is_operation(language)
    }

    /// Whether it is an `action` of a language.
    pub fn is_action(&self, language: &Language) -> bool
        ensures { result
            ≡ words.is_added (language_view language.now) action_word (part_at self.now).source }
    {
        self.node.is_action(language)
    }

    /// Whether it is an operation of a language, or the `input` or the `output` of one.
    pub fn is_operation_part(&self, language: &Language) -> bool
        ensures { result
            ≡ words.is_operation_part (language_view language.now) (part_at self.now).source }
    {
        self.node.is_operation_part(language)
    }

    /// Whether it holds values.
    pub fn is_leaf_or_leaf_list(&self) -> bool
        ensures { (number : _) → result ≡ spec.is_leaf_or_leaf_list (planned_view number self.now) }
    {
        matches!(self.keyword(), Keyword::Leaf | Keyword::LeafList)
    }

    /// Whether it is an `anydata` of a language.
    pub fn is_anydata(&self, language: &Language) -> bool
        ensures { result
            ≡ words.is_added (language_view language.now) anydata_word (part_at self.now).source }
    {
        self.node.is_anydata(language)
    }

    /// Whether it is an `anyxml` of a language.
    pub fn is_anyxml(&self, language: &Language) -> bool
        ensures { result
            ≡ words.is_added (language_view language.now) anyxml_word (part_at self.now).source }
    {
        self.node.is_anyxml(language)
    }

    /// Whether it has a type, as a leaf and a leaf-list have, and an `anydata` and an `anyxml` don't.
    pub fn is_typed(&self) -> bool
        ensures { (number : _) → result ≡ spec.is_typed (planned_view number self.now) }
    {
        self.own_argument(Keyword::Type).is_some()
    }

    /// Whether it is a leaf, and no `anydata` or `anyxml`.
    pub fn is_leaf(&self) -> bool
        ensures { (number : _) → result ≡ spec.is_leaf (planned_view number self.now) }
    {
        Keyword::Leaf.is(self.keyword()) && self.is_typed()
    }

    /// Whether it stands in documents: all but choices and cases.
    pub fn is_data(&self) -> bool
        ensures { (number : _) → result ≡ spec.is_data (planned_view number self.now) }
    {
        !matches!(self.keyword(), Keyword::Choice | Keyword::Case)
    }
}

/// What stands around the nodes of a row.
#[derive(Clone, Copy)]
pub(crate) struct Around {
    /// The node above them.
    pub parent: Option<u32>,
    /// The data node above them.
    pub data_parent: Option<u32>,
    /// The node whose children share their names.
    pub scope: Option<u32>,
    /// Whether the node above them is configuration.
    pub config: bool,
}
