//! Nodes that stand for statements.

use std::alloc::{AllocError, Global};
use ybase_preorder::{Node, Siblings};
use ybase_words::Keyword;
use ylink_grammar::{
    BrokenRule, CompileCode, Language, Source, argument_of, broken, is_action, is_anydata,
    is_anyxml, is_call, is_operation, is_operation_part,
};
use yschema_given::Given;

/// A node that a statement defines, or the case that a single node of a choice stands for (RFC 7950, 7.9.2), where a module
/// uses it.
#[derive(Drop)]
pub struct ExpandedNode<'a, 't> {
    // Its statement, wherever it stands. What it states of the node is changed by what the node is given.
    pub source: Node<'a, Source<'t>>,
    // Whether it is the case that its statement stands for, and not the node itself.
    pub is_implied: bool,
    // The number of the module to which it belongs.
    owner: usize,
    // The number of the augment that put it below its target.
    added_by: Option<u32>,
    // What it is given, one after another.
    pub given: Vec<Given<'a, 't>>,
}

impl<'a, 't> ExpandedNode<'a, 't> {
    ghost use Rattle.std.specs.Prelude.{◌≡◌, ◌++◌, ◌∷◌, [], IfOk, OnOk, true};
    ghost use Rattle.yspec.specs.linking.Source as sources;
    ghost use Rattle.yspec_wide.specs.Sources as spec;
    ghost use Rattle.yspec_wide.specs.Words.{action_word, anydata_word, anyxml_word};
    ghost use Rattle.yspec.specs.schema.Breaks as breaks;
    ghost use Rattle.ylink_grammar.specs.BreakView.{break_view, code_number};
    ghost use Rattle.ybase_preorder.specs.View.{row_by, label_by};
    ghost use Rattle.ybase_words.specs.KeywordView.{keyword_view};
    ghost use Rattle.ylink_grammar.specs.LanguageView.{language_view};
    ghost use Rattle.ylink_grammar.specs.SourceView.{source_view};
    ghost use Rattle.yspec.specs.linking.Parts.{own_of};
    ghost use Rattle.yschema_expand.specs.NamedView.{row_or_none};
    ghost use Rattle.yschema_expand.specs.NodeView.{marked_with, part_for, part_view, plain_part};
    ghost use Rattle.yschema_expand.specs.TableView.{conditioned_part, refined_part};
    ghost use Rattle.yschema_given.specs.Keeping.{are_kept_right};

    /// The node that a statement defines, or the case that it stands for, in a module, before refines.
    pub(crate) fn new(
        alloc: Global,
        source: Node<'a, Source<'t>>,
        is_implied: bool,
        owner: usize,
    ) -> ExpandedNode<'a, 't>
        ensures { part_view result ≡ part_for owner is_implied (label_by source_view source.entry)
            (row_by source_view source.entry.children) }
    {
        ExpandedNode {
            source,
            is_implied,
            owner,
            added_by: None,
            given: Vec::new(alloc),
        }
    }

    /// A copy of it, with the number of the augment that adds the copy, where one does.
    pub fn copied(
        &self,
        alloc: Global,
        added_by: Option<u32>,
    ) -> Result<ExpandedNode<'a, 't>, AllocError>
        ensures { IfOk result (λ made. part_view made ≡ marked_with added_by (part_view self.now)) }
    {
        let mut given = Vec::new(alloc);
        for one in &self.given {
            given.push(*one)?;
        }
        Ok(ExpandedNode {
            source: self.source,
            is_implied: self.is_implied,
            owner: self.owner,
            added_by: added_by.or(self.added_by),
            given,
        })
    }

    /// Gives it the statements of a refine, which take the place of its own of the same kinds; conditions come to its own.
    pub(crate) fn refine(
        &mut self,
        language: &'a Language,
        row: Siblings<'a, Source<'t>>,
    ) -> Result<(), AllocError>
        requires { are_kept_right (language_view language.now) (row_by source_view row) ≡ true }
        ensures { OnOk result (part_view self.new
            ≡ refined_part (language_view language.now) (row_by source_view row.entry) (part_view self.old)) }
    {
        self.given.push(Given::of_refine(language, row))?;
        Ok(())
    }

    /// Asks the conditions of a row of it besides its own.
    pub(crate) fn condition(
        &mut self,
        language: &'a Language,
        row: Siblings<'a, Source<'t>>,
    ) -> Result<(), AllocError>
        requires { are_kept_right (language_view language.now) (row_by source_view row) ≡ true }
        ensures { OnOk result (part_view self.new
            ≡ conditioned_part (language_view language.now) (own_of (row_by source_view row.entry))
            (part_view self.old)) }
    {
        self.given.push(Given::of_conditions(language, row))?;
        Ok(())
    }

    /// The row in which its own statements stand, besides those that define nodes; a case that is implied has none.
    pub fn own(&self) -> Option<Siblings<'a, Source<'t>>>
        ensures { own_of (row_or_none result) ≡ (plain_part self.now).own }
    {
        if self.is_implied {
            None
        } else {
            Some(self.source.children())
        }
    }

    /// The keyword of its statement; that of a case, where one is implied.
    pub fn keyword(&self) -> Keyword
        ensures { keyword_view result ≡ (part_view self.now).source.keyword }
    {
        if self.is_implied {
            Keyword::Case
        } else {
            self.source.label().keyword
        }
    }

    /// The number of the module to which it belongs.
    pub fn owner(&self) -> usize
        ensures { result ≡ (part_view self.now).owner }
    {
        self.owner
    }

    /// The number of the `augment` that put it below its target, where one did.
    pub fn added_by(&self) -> Option<u32>
        ensures { result ≡ (part_view self.now).added_by }
    {
        self.added_by
    }

    /// Its name.
    pub fn name(&self) -> &'t str
        ensures { result.now ≡ sources.argument_in (part_view self.now).source }
    {
        argument_of(self.source)
    }

    /// Whether it is an `rpc` or an `action` of a language.
    pub fn is_call(&self, language: &Language) -> bool
        ensures { result ≡ spec.is_call (language_view language.now) (part_view self.now).source }
    {
        is_call(language, self.source.label())
    }

    /// Whether it is an operation of a language: an `rpc`, an `action` or a `notification`.
    pub fn is_operation(&self, language: &Language) -> bool
        ensures { result
            ≡ spec.is_operation (language_view language.now) (part_view self.now).source }
    {
        is_operation(language, self.source.label())
    }

    /// Whether it is an `action` of a language.
    pub fn is_action(&self, language: &Language) -> bool
        ensures { result
            ≡ spec.is_added (language_view language.now) action_word (part_view self.now).source }
    {
        is_action(language, self.source.label())
    }

    /// Whether it is an operation of a language, or the `input` or the `output` of one.
    pub fn is_operation_part(&self, language: &Language) -> bool
        ensures { result
            ≡ spec.is_operation_part (language_view language.now) (part_view self.now).source }
    {
        is_operation_part(language, self.source.label())
    }

    /// Whether it is an `anydata` of a language.
    pub fn is_anydata(&self, language: &Language) -> bool
        ensures { result
            ≡ spec.is_added (language_view language.now) anydata_word (part_view self.now).source }
    {
        is_anydata(language, self.source.label())
    }

    /// Whether it is an `anyxml` of a language.
    pub fn is_anyxml(&self, language: &Language) -> bool
        ensures { result
            ≡ spec.is_added (language_view language.now) anyxml_word (part_view self.now).source }
    {
        is_anyxml(language, self.source.label())
    }

    /// A rule that it breaks, which is told at its statement, wherever that stands.
    pub fn broken(&self, code: CompileCode) -> BrokenRule
        ensures { let s = (part_view self.now).source in
            break_view result ∷ [] ≡ breaks.broken (code_number code) s.home s.statement.line }
    {
        let label = self.source.label();
        broken(code, label.home, label.statement)
    }
}
