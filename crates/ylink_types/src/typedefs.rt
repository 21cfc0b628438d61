//! What typedefs mean, each made once (RFC 7950, 7.3).

ghost use Rattle.std.specs.Prelude.{◌≡◌, IfOk, length, option_map};
ghost use Rattle.yspec.specs.linking.DerivedTypes as spec;
ghost use Rattle.ybase_preorder.specs.View.{row_by};
ghost use Rattle.ylink_grammar.specs.LinkView.{view};
ghost use Rattle.ylink_grammar.specs.SourceView.{source_view};

use crate::identities::Identities;
use crate::types::{Verdict, verdict_on};
use std::alloc::{AllocError, Global};
use std::rc::Rc;
use ybase_preorder::{Node, Siblings};
use ybase_words::Keyword;
use ylink_grammar::{Source, Sources, Stated, first_with, found_with};
use ylink_names::meaning_at;
use ylink_values::{Expressions, Kept};

/// What is known of a typedef.
#[derive(Drop)]
pub(crate) struct Known<'t> {
    /// What its `type` statement means.
    pub verdict: Verdict<'t>,
    /// The default that it has, or else its type.
    pub default: Option<Stated<'t>>,
}

/// What the typedefs of a set of modules mean, found by the statements that name them.
#[derive(Drop)]
pub struct Typedefs<'t> {
    // The number of the definition that each statement names.
    meanings: Vec<Option<u32>>,
    // What is known of each statement that is a typedef, by its number.
    known: Vec<Option<Box<Known<'t>>>>,
    // The identities of the set, over which types stand.
    identities: Identities,
    // The regular expressions of the set.
    expressions: Rc<Expressions>,
}

/// The row below the typedef of a number, where there is one.
fn typedef_row<'a, 't>(sources: &'a Sources<'t>, number: usize) -> Option<Siblings<'a, Source<'t>>>
    ensures { option_map (row_by source_view) result
        ≡ spec.typedef_row (view sources.entry.now) number }
{
    let slot = sources.slots().get(number)?;
    if !Keyword::Typedef.is(slot.label.keyword) {
        return None;
    }
    Some(sources.below(number as u32))
}

/// So many typedefs of which nothing is known.
fn none_known<'t>(alloc: Global, count: usize) -> Result<Vec<Option<Box<Known<'t>>>>, AllocError>
    ensures { IfOk result (λ table. length table.items ≡ count) }
{
    let mut table = Vec::with_capacity(alloc, count)?;
    for number in 0..count {
        table.push(None)?;
    }
    Ok(table)
}

impl<'t> Typedefs<'t> {
    ghost use Rattle.std.specs.Prelude.{◌≡◌, ◌==◌, ◌<◌, ℕ, IfOk, OnOk, length, option_map, if◌then◌else◌};
    ghost use Rattle.std.specs.Option.{option_map_or};
    ghost use Rattle.yspec.specs.linking.DerivedTypes as spec;
    ghost use Rattle.yspec_wide.specs.Types as wide;
    ghost use Rattle.ybase_preorder.specs.View.{row_by};
    ghost use Rattle.ylink_grammar.specs.LinkView.{view};
    ghost use Rattle.ylink_grammar.specs.SourceView.{node_view, source_view, stated_view};
    ghost use Rattle.ylink_names.specs.MeaningView.{meaning_at, AreMeanings};
    ghost use Rattle.ylink_names.specs.Ordered.{AreInOrder};
    ghost use Rattle.ylink_types.specs.IdentityView as identity;
    ghost use Rattle.ylink_values.specs.KeptView.{kept_view};
    ghost use Rattle.ylink_types.specs.TypedefView.{known_at, known_held, known_view, meanings_in, names_in, AreOf, RestsOn};

    /// The number of the definition that each statement names.
    pub fn meanings(&self) -> &[Option<u32>]
        ensures { result.now ≡ meanings_in self.now }
    {
        &self.meanings
    }

    /// The number of the definition that the statement of a number names.
    pub fn meaning(&self, number: u32) -> Option<u32>
        ensures { result ≡ meaning_at (meanings_in self.now) number }
    {
        meaning_at(&self.meanings, number as usize)
    }

    /// The identities of the set.
    pub(crate) fn identities(&self) -> &Identities
        ensures { result.now ≡ self.now.identities }
    {
        &self.identities
    }

    /// The regular expressions of the set.
    pub fn expressions(&self) -> &Expressions
        ensures { result.now ≡ self.now.expressions.value }
    {
        &*self.expressions
    }

    /// The same, to be shared.
    pub fn shared_expressions(&self) -> Result<Rc<Expressions>, AllocError>
        ensures { IfOk result (λ expressions. expressions.value ≡ self.now.expressions.value) }
    {
        Ok(self.expressions.clone()?)
    }

    /// What is known of the typedef that the statement of a number names.
    pub(crate) fn named(&self, number: u32) -> Option<&Known<'t>>
        ensures { option_map_or (λ k. known_view k.now) result spec.unknown
            ≡ names_in self.now number }
    {
        match self.meanings.get(number as usize)? {
            Some(definition) => match self.known.get(*definition as usize) {
                Some(Some(known)) => Some(&**known),
                _ => None,
            },
            None => None,
        }
    }

    /// The default of the typedef that the statement of a number names, or of its type.
    pub fn default_named(&self, number: u32) -> Option<Stated<'t>>
        ensures { option_map stated_view result ≡ (names_in self.now number).default }
    {
        self.named(number)?.default
    }

    /// What is known of a typedef, whose row is given and its `type` statement.
    fn known_by(
        &self,
        alloc: Global,
        sources: &Sources<'t>,
        kept: Kept<'_>,
        row: Siblings<'_, Source<'t>>,
        type_statement: Node<'_, Source<'t>>,
    ) -> Result<Known<'t>, AllocError>
        requires { RestsOn (kept_view kept) self.now (view sources.now) }
        ensures { IfOk result (λ known. known_view known
            ≡ wide.known_of (kept_view kept.entry) (view sources.now) (names_in self.now)
            (row_by source_view row.entry) (node_view type_statement.entry)) }
    {
        let verdict = verdict_on(alloc, sources, self, kept, false, type_statement)?;
        let default = match first_with(Keyword::Default, row) {
            Some(statement) => Some(statement.label().stated()),
            None => self.default_named(type_statement.number()),
        };
        Ok(Known { verdict, default })
    }

    /// What is known of a typedef by its row, where it is one.
    fn known_in(
        &self,
        alloc: Global,
        sources: &Sources<'t>,
        kept: Kept<'_>,
        row: Option<Siblings<'_, Source<'t>>>,
    ) -> Result<Option<Box<Known<'t>>>, AllocError>
        requires { RestsOn (kept_view kept) self.now (view sources.now) }
        ensures { IfOk result (λ known. known_held known
            ≡ option_map_or
            (wide.known_in_row_of (kept_view kept.entry) (view sources.now) (names_in self.now))
            (option_map (row_by source_view) row.entry) spec.unknown) }
    {
        let Some(row) = row else {
            return Ok(None);
        };
        match found_with(Keyword::Type, row) {
            Some(found) => {
                let known = self.known_by(alloc, sources, kept, row, found)?;
                Ok(Some(Box::new(alloc, known)?))
            }
            None => Ok(None),
        }
    }

    /// Sets what is known of the typedef of a number, by its row.
    fn learn(
        &mut self,
        alloc: Global,
        sources: &Sources<'t>,
        kept: Kept<'_>,
        number: usize,
        row: Option<Siblings<'_, Source<'t>>>,
    ) -> Result<(), AllocError>
        requires { RestsOn (kept_view kept) self.now (view sources.now) }
        ensures meanings { self.new.meanings ≡ self.old.meanings }
        ensures identities { self.new.identities ≡ self.old.identities }
        ensures count { OnOk result (length self.new.known.items ≡ length self.old.known.items) }
        ensures known { (e : ℕ) → OnOk result (number < length self.old.known.items
            → known_at self.new.known.items e ≡ (if e == number then option_map_or
            (wide.known_in_row_of (kept_view kept.entry) (view sources.now) (names_in self.old))
            (option_map (row_by source_view) row.entry) spec.unknown
            else known_at self.old.known.items e)) }
    {
        let known = self.known_in(alloc, sources, kept, row)?;
        if let Some(place) = self.known.get_mut(number) {
            *place = known;
        }
        Ok(())
    }

    /// The typedefs of a set, given which names of values are kept, what each statement means, the identities, the expressions, and an order in
    /// which each typedef stands behind those that it names.
    pub fn of(
        alloc: Global,
        sources: &Sources<'t>,
        kept: Kept<'_>,
        meanings: Vec<Option<u32>>,
        identities: Identities,
        expressions: Rc<Expressions>,
        order: &[usize],
    ) -> Result<Typedefs<'t>, AllocError>
        requires meant { AreMeanings meanings.items (view sources.now) }
        requires identities { identity.IsOf (kept_view kept) identities (view sources.now) }
        requires ordered { AreInOrder order.now (view sources.now) }
        ensures known { IfOk result (λ typedefs.
            AreOf (kept_view kept.entry) typedefs (view sources.now)) }
        ensures meanings { IfOk result
            (λ typedefs. AreMeanings (meanings_in typedefs) (view sources.now)) }
        ensures rests { IfOk result (λ typedefs.
            RestsOn (kept_view kept.entry) typedefs (view sources.now)) }
    {
        if order.is_empty() {
            let known = Vec::new(alloc);
            return Ok(Typedefs {
                meanings,
                known,
                identities,
                expressions,
            });
        }
        Typedefs::learned(
            alloc,
            sources,
            kept,
            meanings,
            identities,
            expressions,
            order,
        )
    }

    /// The same, each learned in its turn.
    fn learned(
        alloc: Global,
        sources: &Sources<'t>,
        kept: Kept<'_>,
        meanings: Vec<Option<u32>>,
        identities: Identities,
        expressions: Rc<Expressions>,
        order: &[usize],
    ) -> Result<Typedefs<'t>, AllocError>
        requires meant { AreMeanings meanings.items (view sources.now) }
        requires identities { identity.IsOf (kept_view kept) identities (view sources.now) }
        requires ordered { AreInOrder order.now (view sources.now) }
        ensures known { IfOk result (λ typedefs.
            AreOf (kept_view kept.entry) typedefs (view sources.now)) }
        ensures meanings { IfOk result
            (λ typedefs. AreMeanings (meanings_in typedefs) (view sources.now)) }
        ensures rests { IfOk result (λ typedefs.
            RestsOn (kept_view kept.entry) typedefs (view sources.now)) }
    {
        let known = none_known(alloc, sources.slots().len())?;
        let mut typedefs = Typedefs {
            meanings,
            known,
            identities,
            expressions,
        };
        for number in order {
            let row = typedef_row(sources, *number);
            typedefs.learn(alloc, sources, kept, *number, row)?;
        }
        Ok(typedefs)
    }
}
