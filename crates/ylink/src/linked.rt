//! The statements of a set of modules that links, and what can be asked of them.

ghost use Rattle.std.specs.Prelude.{◌≡◌, []};
ghost use Rattle.yspec.specs.linking.Circles.{definition_circles};
ghost use Rattle.ylink_grammar.specs.LinkView as statements;
ghost use Rattle.ylink_names.specs.MeaningView.{AreMeanings};
ghost use Rattle.ylink_names.specs.Ordered.{AreInOrder};
ghost use Rattle.ylink_names.specs.PrefixView as prefix;
ghost use Rattle.ylink_types.specs.TypedefView as typedef;
ghost use Rattle.ylink.specs.VerdictView.{AreVerdicts};

use crate::kept::KeptMeanings;
use crate::modules::{module_at, prefixed_in};
use crate::statements::Statements;
use crate::verdicts::{verdict_held, verdicts_of};
use std::alloc::{AllocError, Global};
use ylink_grammar::{Source, Sources, Stated, argument_of};
use ylink_names::{Prefixes, holders_of};
use ylink_types::{Identities, Kept, Meant, Typedefs, Verdict};
use ytext::Stmt;
use ytype::YType;

/// A statement of a set of modules, named by its number in preorder over all those that linking looks at, modules as given.
#[derive(Clone, Copy, Debug, PartialEq, Eq, PartialOrd, Ord, Hash)]
pub struct StmtId(pub u32);

/// The statements of a set of modules, with what their names and types mean (RFC 7950, 5.1, 5.5 and 7.4).
#[derive(Drop)]
pub struct Linked<'t> {
    sources: Sources<'t>,
    prefixes: Prefixes<'t>,
    // The numbers of the definitions that statements name, each behind those that it uses.
    order: Vec<usize>,
    typedefs: Typedefs<'t>,
    // The verdict on each `type` statement, by its number.
    verdicts: Vec<Option<Box<Verdict<'t>>>>,
    ghost prefixed: { prefix.IsOf prefixes (statements.view sources) },
    ghost ordered: { AreInOrder order.items (statements.view sources) },
    // No definition refers to itself.
    ghost straight: { definition_circles (statements.view sources) ≡ [] },
    ghost named: { typedef.IsOf typedefs (statements.view sources) },
    ghost meant: { AreMeanings (typedef.meanings_in typedefs) (statements.view sources) },
    ghost judged: { AreVerdicts verdicts.items (statements.view sources) },
}

impl<'t> Linked<'t> {
    ghost use Rattle.std.specs.Prelude.{◌≡◌, [], IfOk, map, option_map, slice_get};
    ghost use Rattle.std.specs.Option.{option_map_or};
    ghost use Rattle.yspec.specs.Forest.{end};
    ghost use Rattle.yspec.specs.linking.Circles.{definition_circles};
    ghost use Rattle.yspec.specs.linking.DerivedTypes as types;
    ghost use Rattle.yspec.specs.linking.Identities as identities;
    ghost use Rattle.yspec.specs.linking.Imports as imports;
    ghost use Rattle.yspec.specs.linking.Scopes.{statement_at};
    ghost use Rattle.ytext.specs.View as text;
    ghost use Rattle.ylink_grammar.specs.LinkView as statements;
    ghost use Rattle.ylink_grammar.specs.SourceView.{source_view, stated_view};
    ghost use Rattle.ylink_names.specs.MeaningView.{AreMeanings};
    ghost use Rattle.ylink_names.specs.Ordered.{AreInOrder};
    ghost use Rattle.ylink_names.specs.PrefixView as prefix;
    ghost use Rattle.ytype.specs.Identities.{pair_view};
    ghost use Rattle.ylink_values.specs.KeptView.{kept_view};
    ghost use Rattle.ylink_types.specs.TypedefView as typedef;
    ghost use Rattle.ylink_types.specs.TypeView.{meant_view};
    ghost use Rattle.ylink.specs.KeptMeaningsView.{AreMeantOf};
    ghost use Rattle.ylink.specs.VerdictView.{AreVerdicts};
    ghost use Rattle.ylink.specs.LinkedView.{view, wholes};
    ghost use Rattle.ylink.specs.StatementsView.{left, numbers_of};

    /// What a set of statements is linked to, once it is known that they break no rule.
    pub(crate) fn new(
        sources: Sources<'t>,
        prefixes: Prefixes<'t>,
        order: Vec<usize>,
        typedefs: Typedefs<'t>,
        verdicts: Vec<Option<Box<Verdict<'t>>>>,
    ) -> Linked<'t>
        requires prefixed { prefix.IsOf prefixes (statements.view sources) }
        requires ordered { AreInOrder order.items (statements.view sources) }
        requires straight { definition_circles (statements.view sources) ≡ [] }
        requires named { typedef.IsOf typedefs (statements.view sources) }
        requires meant { AreMeanings (typedef.meanings_in typedefs) (statements.view sources) }
        requires judged { AreVerdicts verdicts.items (statements.view sources) }
        ensures of { view result ≡ statements.view sources.entry }
        ensures whole { wholes result ≡ statements.wholes sources.entry }
    {
        Linked {
            sources,
            prefixes,
            order,
            typedefs,
            verdicts,
        }
    }

    /// The statements, in a table.
    pub fn sources(&self) -> &Sources<'t>
        ensures { statements.view result.now ≡ view self.now }
    {
        &self.sources
    }

    /// What prefixes stand for.
    pub fn prefixes(&self) -> &Prefixes<'t>
        ensures { prefix.IsOf result.now (view self.now) }
    {
        &self.prefixes
    }

    /// The numbers of all typedefs and groupings that statements name, each behind those that it uses.
    pub fn order(&self) -> &[usize]
        ensures { AreInOrder result.now (view self.now) }
    {
        &self.order
    }

    /// The number of the typedef, grouping or identity that each statement names, by its own.
    pub fn meanings(&self) -> &[Option<u32>]
        ensures { AreMeanings result.now (view self.now) }
    {
        self.typedefs.meanings()
    }

    fn source(&self, id: StmtId) -> Option<&Source<'t>>
        ensures label { option_map (λ s. source_view id.0 s.now) result
            ≡ option_map (λ p. p.source) (statement_at (view self.now) id.0) }
        ensures whole { option_map (λ s. text.view s.now.statement.now) result
            ≡ slice_get (wholes self.now) id.0 }
    {
        match self.sources.slots().get(id.0 as usize) {
            Some(row) => Some(&row.label),
            None => None,
        }
    }

    /// A statement, with all that stands below it in its module's text; nothing of a number that none has.
    pub fn statement(&self, id: StmtId) -> Option<&'t Stmt>
        ensures whole { option_map (λ s. text.view s.now) result
            ≡ slice_get (wholes self.now) id.0 }
        ensures numbered { option_map (λ s. (text.view s.now).0) result
            ≡ option_map (λ p. p.source.statement) (statement_at (view self.now) id.0) }
    {
        match self.source(id) {
            Some(source) => Some(source.statement),
            None => None,
        }
    }

    /// The number of its module in the set.
    pub fn module(&self, id: StmtId) -> Option<usize>
        ensures { result ≡ option_map (λ p. p.source.home) (statement_at (view self.now) id.0) }
    {
        match self.source(id) {
            Some(source) => Some(source.home),
            None => None,
        }
    }

    /// The `module` statements, in order.
    pub fn modules(&self) -> Statements<'_, 't>
        ensures { left result ≡ numbers_of (view self.now) }
    {
        Statements::new(self.sources.modules())
    }

    /// The statements right below one, in order; none of a number that none has.
    pub fn substatements(&self, id: StmtId) -> Statements<'_, 't>
        ensures { left result ≡ numbers_of
            (option_map_or (λ p. p.below) (statement_at (view self.now) id.0) end) }
    {
        Statements::new(self.sources.below(id.0))
    }

    /// The typedef, grouping or identity that a `type`, `uses` or `base` statement names; none for a built-in type.
    pub fn meaning(&self, id: StmtId) -> Option<StmtId>
        ensures { option_map (λ d. d.0) result ≡ types.number_named (view self.now) id.0 }
    {
        match self.typedefs.meaning(id.0) {
            Some(number) => Some(StmtId(number)),
            None => None,
        }
    }

    /// The number of the module that a prefix names in the module of a number.
    pub fn prefix(&self, module: usize, name: &str) -> Option<usize>
        ensures { result ≡ imports.module_meant (view self.now) «module» name.now }
    {
        self.prefixes.module_meant(module, name)
    }

    /// The name of the module of a number; no text where there is no such module.
    pub fn module_name(&self, module: usize) -> &'t str
        ensures { result.now ≡ identities.module_name (view self.now) «module» }
    {
        match module_at(&self.sources, module) {
            Some(statement) => argument_of(statement),
            None => "",
        }
    }

    /// The prefixes that the module of a number declares, each with the name of the module for which it stands.
    pub fn prefixed(
        &self,
        alloc: Global,
        module: usize,
    ) -> Result<Vec<(&'t str, &'t str)>, AllocError>
        ensures { IfOk result (λ entries. map pair_view entries.items
            ≡ (identities.names_of (view self.now) «module»).prefixed) }
    {
        match module_at(&self.sources, module) {
            Some(statement) => prefixed_in(alloc, argument_of(statement), statement.children()),
            None => Ok(Vec::new(alloc)),
        }
    }

    /// What the `type` statement of a number means.
    pub fn meant(&self, number: u32) -> Option<&Meant<'t>>
        ensures { option_map (λ m. meant_view m.now) result
            ≡ types.type_meant (view self.now) number }
    {
        match verdict_held(&self.verdicts, number as usize) {
            Some(verdict) => verdict.meaning(),
            None => None,
        }
    }

    /// What the `type` statements mean over the names of values that are kept.
    pub fn meanings_kept(
        &self,
        alloc: Global,
        kept: Kept<'_>,
    ) -> Result<KeptMeanings<'t>, AllocError>
        ensures { IfOk result (λ meanings.
            AreMeantOf (kept_view kept.entry) meanings (view self.now)) }
    {
        let meanings = Vec::from_slice(alloc, self.meanings())?;
        let holders = holders_of(alloc, &self.sources)?;
        let identities = Identities::of(alloc, &self.sources, kept, &holders, &meanings)?;
        let typedefs = Typedefs::of(
            alloc,
            &self.sources,
            kept,
            meanings,
            identities,
            self.typedefs.shared_expressions()?,
            &self.order,
        )?;
        let verdicts = verdicts_of(alloc, &self.sources, &typedefs, kept)?;
        Ok(KeptMeanings::new(verdicts))
    }

    /// The type of a `type` statement; none of a leafref, nor of a type derived from one.
    pub fn typed(&self, id: StmtId) -> Option<&YType>
        ensures { option_map (λ t. t.now) result ≡ types.type_stated (view self.now) id.0 }
    {
        self.meant(id.0)?.own()
    }

    /// The default of the typedef that the statement of a number names, or else of its type.
    pub fn default_named(&self, number: u32) -> Option<Stated<'t>>
        ensures { option_map stated_view result
            ≡ (types.known_named (view self.now) number).default }
    {
        self.typedefs.default_named(number)
    }
}
