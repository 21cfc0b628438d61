//! The identities of a set of modules, and which derive from which (RFC 7950, 7.18 and 9.10).

ghost use Rattle.std.specs.Prelude.{◌≡◌, ◌++◌, ◌∷◌, [], pos, int_lt, true, IfOk, OnOk, filter, map, option_map, slice_get};
ghost use Rattle.std.specs.List.{list_all};
ghost use Rattle.yspec.specs.Forest.{row};
ghost use Rattle.yspec.specs.linking.Source.{argument_in};
ghost use Rattle.ybase_preorder.specs.View.{row_by, label_by};
ghost use Rattle.ylink_grammar.specs.LinkView.{view};
ghost use Rattle.ylink_grammar.specs.SourceView.{source_view};
ghost use Rattle.ylink_types.specs.DerivedView.{Ascend};
ghost use Rattle.ylink_types.specs.IdentityView.{assigned_by, home_view, identity_view, is_kept, listed, listed_in, name_among, number_of};
ghost use Rattle.ylink_values.specs.KeptView.{kept_view};

use crate::derived::{Derived, derived_among, held_in, push_number, set_held, set_of, sets_of};
use std::alloc::{AllocError, Global};
use std::rc::Rc;
use ybase_graph::{Derivations, Edge};
use ybase_preorder::{Node, Siblings};
use ybase_words::Keyword;
use ylink_grammar::{Source, Sources, argument_of};
use ylink_names::definition_edges_of;
use ylink_values::{Kept, accepted_type};
use ytype::{Names, YType, identity_name};

/// An identity: the numbers of its statement and of its module, its name, and whether it is kept.
#[derive(Clone, Copy)]
struct Identity<'t> {
    number: u32,
    home: usize,
    name: &'t str,
    is_kept: bool,
}

/// The identities of a set of modules, as the types over them have them.
#[derive(Drop)]
pub struct Identities {
    // By name, with that of the module before it.
    names: Rc<Names>,
    // The numbers of the statements of those that are kept, ascending.
    numbers: Vec<u32>,
    // The name of each module.
    homes: Vec<Rc<String>>,
    // Which definitions refer to which.
    edges: Vec<Edge>,
    // Those of them that derive from an identity, by its number, where a type names it as a base.
    derived: Vec<Option<Derived>>,
}

/// The names of a set's modules.
fn homes_of(alloc: Global, sources: &Sources<'_>) -> Result<Vec<Rc<String>>, AllocError>
    ensures { IfOk result (λ homes. map home_view homes.items
        ≡ map argument_in (row (view sources.now))) }
{
    let mut homes = Vec::new(alloc);
    for top in sources.modules() {
        homes.push(Rc::new(alloc, String::from_str(alloc, argument_of(top))?)?)?;
    }
    Ok(homes)
}

/// Adds a statement to the identities so far, where it is one.
fn add_identity<'t>(
    kept: Kept<'_>,
    statement: Node<'_, Source<'t>>,
    made: &mut Vec<Identity<'t>>,
) -> Result<(), AllocError>
    ensures { OnOk result (map identity_view made.new.items
        ≡ map identity_view made.old.items ++ listed (kept_view kept.entry)
        (label_by source_view statement.entry) (row_by source_view statement.entry.children)) }
{
    if Keyword::Identity.is(statement.label().keyword) {
        made.push(Identity {
            number: statement.number(),
            home: statement.label().home,
            name: argument_of(statement),
            is_kept: kept.keeps(statement.children()),
        })?;
    }
    Ok(())
}

/// Adds the identities among the statements of a row, and below it.
fn add_identities<'t>(
    kept: Kept<'_>,
    statements: Siblings<'_, Source<'t>>,
    made: &mut Vec<Identity<'t>>,
) -> Result<(), AllocError>
    ensures { OnOk result (map identity_view made.new.items ≡ map identity_view made.old.items
        ++ listed_in (kept_view kept.entry) (row_by source_view statements.entry)) }
{
    for statement in statements {
        add_identity(kept, statement, made)?;
        add_identities(kept, statement.children(), made)?;
    }
    Ok(())
}

/// The identities of a set, in order.
fn identities_of<'t>(
    alloc: Global,
    sources: &Sources<'t>,
    kept: Kept<'_>,
) -> Result<Vec<Identity<'t>>, AllocError>
    ensures listed { IfOk result (λ made. map identity_view made.items
        ≡ listed_in (kept_view kept.entry) (view sources.now)) }
    ensures ascend { IfOk result (λ made. Ascend 0 (map number_of made.items)) }
{
    let mut made = Vec::new(alloc);
    add_identities(kept, sources.modules(), &mut made)?;
    Ok(made)
}

/// The numbers of those that are kept.
fn numbers_of(alloc: Global, identities: &[Identity<'_>]) -> Result<Vec<u32>, AllocError>
    ensures { IfOk result (λ numbers. numbers.items ≡ map number_of (filter is_kept identities.now)) }
{
    let mut numbers = Vec::with_capacity(alloc, identities.len())?;
    for identity in identities {
        push_number(&mut numbers, identity.number, identity.is_kept)?;
    }
    Ok(numbers)
}

/// The name that is held of the module of a number.
fn home_held(homes: &[Rc<String>], home: usize) -> Option<&Rc<String>>
    ensures { option_map (λ h. h.now) result ≡ slice_get homes.now home }
{
    homes.get(home)
}

/// The name of the module of a number; no text where there is no such module.
fn home_name(homes: &[Rc<String>], home: usize) -> &str
    ensures { result.now ≡ name_among (map home_view homes.now) home }
{
    match homes.get(home) {
        Some(name) => name.as_str(),
        None => "",
    }
}

/// The names of identities with one more, whose number is above all others.
fn with_identity(alloc: Global, names: Names, name: &str, number: u32) -> Result<Names, AllocError>
    requires { list_all (λ a. int_lt a.number (pos number)) names ≡ true }
    ensures { IfOk result (λ more. more
        ≡ names ++ record { name = name.now; number = pos number } ∷ []) }
{
    names.with_later(alloc, name, i64::from(number))
}

/// Identities by name, with that of the module before it, and their numbers.
fn names_of(
    alloc: Global,
    homes: &[Rc<String>],
    identities: &[Identity<'_>],
) -> Result<Names, AllocError>
    requires { Ascend 0 (map number_of identities.now) }
    ensures { IfOk result (λ names. names
        ≡ map (assigned_by (map home_view homes.now)) identities.now) }
{
    let mut names = Names::new(alloc, identities.len());
    for identity in identities {
        let name = identity_name(alloc, home_name(homes, identity.home), identity.name)?;
        names = with_identity(alloc, names, &name, identity.number)?;
    }
    Ok(names)
}

impl Identities {
    ghost use Rattle.std.specs.Prelude.{◌≡◌, ◌∷◌, [], Bool, IfOk};
    ghost use Rattle.std.specs.Option.{option_map_or};
    ghost use Rattle.yspec.specs.Forest.{Forest};
    ghost use Rattle.yspec.specs.linking.Circles.{definition_circles};
    ghost use Rattle.yspec.specs.linking.Identities as spec;
    ghost use Rattle.yspec.specs.linking.Source as sources;
    ghost use Rattle.yspec.specs.linking.TypeStatements as types;
    ghost use Rattle.yspec_wide.specs.Types as wide;
    ghost use Rattle.ylink_grammar.specs.LinkView.{view};
    ghost use Rattle.ylink_names.specs.MeaningView.{AreMeanings};
    ghost use Rattle.ylink_names.specs.ReferringView.{AreReferring};
    ghost use Rattle.ylink_types.specs.IdentityView.{IsOf, home_view};
    ghost use Rattle.ylink_values.specs.KeptView.{kept_view};

    /// The identities of a set, given which are kept, the innermost definition around each statement and what each means. No definition of
    /// the set refers to itself.
    pub fn of(
        alloc: Global,
        sources: &Sources<'_>,
        kept: Kept<'_>,
        holders: &[Option<u32>],
        meanings: &[Option<u32>],
    ) -> Result<Identities, AllocError>
        requires held { AreReferring holders.now (view sources.now) }
        requires meant { AreMeanings meanings.now (view sources.now) }
        requires straight { definition_circles (view sources.now) ≡ [] }
        ensures { IfOk result (λ identities.
            IsOf (kept_view kept.entry) identities (view sources.now)) }
    {
        let homes = homes_of(alloc, sources)?;
        let identities = identities_of(alloc, sources, kept)?;
        let names = names_of(alloc, &homes, &identities)?;
        let numbers = numbers_of(alloc, &identities)?;
        let edges = definition_edges_of(alloc, holders, meanings)?;
        let derived = sets_of(alloc, sources, meanings, &edges, &numbers)?;
        Ok(Identities {
            names: Rc::new(alloc, names)?,
            numbers,
            homes,
            edges,
            derived,
        })
    }

    /// The name of the module of a number.
    fn home(&self, alloc: Global, home: usize) -> Result<Rc<String>, AllocError>
        ensures { (kept : wide.Keeping)
            (modules : Forest sources.Source) → IsOf kept self.now modules
            → IfOk result (λ name. home_view name ≡ spec.module_name modules home) }
    {
        match home_held(&self.homes, home) {
            Some(name) => Ok(name.clone()?),
            None => Ok(Rc::new(alloc, String::new(alloc))?),
        }
    }

    /// Those that are kept and derive from an identity, by their numbers.
    fn derived_from(&self, alloc: Global, base: u32) -> Result<Derived, AllocError>
        ensures { (kept : wide.Keeping)
            (modules : Forest sources.Source) → IsOf kept self.now modules
            → IfOk result (λ set. set.value.keys ≡ wide.numbers_kept kept modules (base ∷ [])) }
    {
        if let Some(derived) = set_held(&self.derived, base) {
            return Ok(derived.clone()?);
        }
        let derivations = Derivations::of(alloc, &self.edges)?;
        derived_among(alloc, &derivations, &self.numbers, base)
    }

    /// Those that are kept and derive from all of some, where there are any, by their numbers.
    fn derived_from_all(
        &self,
        alloc: Global,
        first: u32,
        others: &[u32],
    ) -> Result<Derived, AllocError>
        ensures { (kept : wide.Keeping)
            (modules : Forest sources.Source) → IsOf kept self.now modules
            → IfOk result (λ set. set.value.keys
            ≡ wide.numbers_kept kept modules (first ∷ others.now)) }
    {
        let derived = self.derived_from(alloc, first)?;
        if others.is_empty() {
            return Ok(derived);
        }
        let mut numbers = held_in(alloc, &self.numbers, &derived)?;
        for base in others {
            let other = self.derived_from(alloc, *base)?;
            numbers = held_in(alloc, &numbers, &other)?;
        }
        Ok(Rc::new(alloc, set_of(alloc, &numbers)?)?)
    }

    /// The type of an identityref that has these bases and stands in the module of a number; none without a base.
    pub(crate) fn type_of(
        &self,
        alloc: Global,
        home: usize,
        bases: &[u32],
    ) -> Result<Option<YType>, AllocError>
        ensures { (kept : wide.Keeping)
            (modules : Forest sources.Source) → IsOf kept self.now modules
            → IfOk result (λ made. option_map_or (λ t. types.means (types.own t)) made types.wrong
            ≡ wide.identity_verdict_of kept modules home bases.now) }
    {
        let Some((first, others)) = bases.split_first() else {
            return Ok(None);
        };
        let derived = self.derived_from_all(alloc, *first, others)?;
        let identities = ytype::Identities::new(
            self.home(alloc, home)?,
            self.names.clone()?,
            derived,
        );
        accepted_type(YType::identityref(alloc, &identities))
    }
}
