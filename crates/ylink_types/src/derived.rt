//! Those of a set's identities that derive from others, by number (RFC 7950, 7.18.2 and 9.10).

ghost use Rattle.std.specs.Prelude.{◌≡◌, ◌++◌, ◌∷◌, [], ℕ, pos, List, None, false, IfOk, OnOk, map, filter, get_or, option_map, if◌then◌else◌};
ghost use Rattle.std.specs.BTreeSet.{contains, insert_key};
ghost use Rattle.std.specs.Ordering.{int_cmp};
ghost use Rattle.yspec.specs.linking.Graph as graph;
ghost use Rattle.ybase_graph.specs.Derivations as graphs;
ghost use Rattle.ybase_graph.specs.Edges.{edge_view};
ghost use Rattle.ybase_preorder.specs.View.{row_by, label_by};
ghost use Rattle.ylink_grammar.specs.SourceView.{source_view};
ghost use Rattle.ylink_names.specs.MeaningView.{meaning_at};
ghost use Rattle.ylink_types.specs.DerivedView.{Ascend, AreSets, base_by, bases_by, derived_among, set_at, type_bases};

use std::alloc::{AllocError, Global};
use std::collections::BTreeSet;
use std::rc::Rc;
use ybase_graph::{Derivations, Edge};
use ybase_preorder::{Node, Siblings};
use ybase_words::Keyword;
use ylink_grammar::{Source, Sources};
use ylink_names::meaning_at;

/// The numbers of the identities that derive from a base, shared by the types over it.
pub(crate) type Derived = Rc<BTreeSet<i64>>;

/// Whether the node of a number is marked.
fn is_marked(marks: &[bool], number: u32) -> bool
    ensures { result ≡ get_or marks.now number false }
{
    marks.get(number as usize).copied().unwrap_or(false)
}

/// Adds a number to a set.
fn insert_number(set: &mut BTreeSet<i64>, number: u32) -> Result<(), AllocError>
    ensures { OnOk result (set.new.keys ≡ insert_key int_cmp set.old.keys (pos number)) }
{
    set.insert(i64::from(number))?;
    Ok(())
}

/// Adds a number to a set where it is to be there.
fn add_number(set: &mut BTreeSet<i64>, number: u32, is_there: bool) -> Result<(), AllocError>
    ensures { OnOk result (set.new.keys ≡ if is_there
        then insert_key int_cmp set.old.keys (pos number) else set.old.keys) }
{
    if is_there {
        insert_number(set, number)?;
    }
    Ok(())
}

/// Those of some numbers that are marked.
fn marked(alloc: Global, numbers: &[u32], marks: &[bool]) -> Result<BTreeSet<i64>, AllocError>
    ensures { Ascend 0 numbers.now → IfOk result (λ set. set.keys
        ≡ map pos (filter (λ n. get_or marks.now n false) numbers.now)) }
{
    let mut set = BTreeSet::new(alloc);
    for number in numbers {
        add_number(&mut set, *number, is_marked(marks, *number))?;
    }
    Ok(set)
}

/// Those of some identities that derive from one, by their numbers.
pub(crate) fn derived_among(
    alloc: Global,
    derivations: &Derivations,
    numbers: &[u32],
    base: u32,
) -> Result<Derived, AllocError>
    ensures { (edges : List graph.Edge) → graphs.IsOf derivations.now edges
        → graphs.AreStraight edges → Ascend 0 numbers.now
        → IfOk result (λ set. set.value.keys ≡ derived_among edges numbers.now (base ∷ [])) }
{
    let marks = derivations.from(alloc, base as usize)?;
    Ok(Rc::new(alloc, marked(alloc, numbers, &marks)?)?)
}

/// Adds the identity that a statement of a type names as a base, where it does.
fn add_base(
    meanings: &[Option<u32>],
    in_type: bool,
    statement: Node<'_, Source<'_>>,
    made: &mut Vec<u32>,
) -> Result<(), AllocError>
    ensures { OnOk result (made.new.items ≡ made.old.items
        ++ base_by (meaning_at meanings.now) in_type (label_by source_view statement.entry)) }
{
    if in_type && Keyword::Base.is(statement.label().keyword) {
        if let Some(base) = meaning_at(meanings, statement.number() as usize) {
            made.push(base)?;
        }
    }
    Ok(())
}

/// Adds the identities that types name as their bases, of a row that stands right below a type or not, and below it.
fn add_type_bases(
    meanings: &[Option<u32>],
    in_type: bool,
    statements: Siblings<'_, Source<'_>>,
    made: &mut Vec<u32>,
) -> Result<(), AllocError>
    ensures { OnOk result (made.new.items ≡ made.old.items ++ type_bases
        (meaning_at meanings.now) in_type (row_by source_view statements.entry)) }
{
    for statement in statements {
        add_base(meanings, in_type, statement, made)?;
        let is_type = Keyword::Type.is(statement.label().keyword);
        add_type_bases(meanings, is_type, statement.children(), made)?;
    }
    Ok(())
}

/// So many definitions from which nothing is known to derive.
fn no_sets(alloc: Global, count: usize) -> Result<Vec<Option<Derived>>, AllocError>
    ensures { IfOk result (λ sets. (n : ℕ) → set_at sets.items n ≡ None) }
{
    let mut sets = Vec::with_capacity(alloc, count)?;
    for number in 0..count {
        sets.push(None)?;
    }
    Ok(sets)
}

/// What is held of the identity of a number.
pub(crate) fn set_held(sets: &[Option<Derived>], number: u32) -> Option<&Derived>
    ensures { option_map (λ s. s.now) result ≡ set_at sets.now number }
{
    match sets.get(number as usize) {
        Some(Some(derived)) => Some(derived),
        _ => None,
    }
}

/// Adds those of some identities that derive from one, unless they are there.
fn add_derived(
    alloc: Global,
    derivations: &Derivations,
    numbers: &[u32],
    base: u32,
    sets: &mut Vec<Option<Derived>>,
) -> Result<(), AllocError>
    ensures { (edges : List graph.Edge) → graphs.IsOf derivations.now edges
        → graphs.AreStraight edges → Ascend 0 numbers.now
        → AreSets sets.old.items edges numbers.now
        → OnOk result (AreSets sets.new.items edges numbers.now) }
{
    if set_held(sets, base).is_some() {
        return Ok(());
    }
    let derived = derived_among(alloc, derivations, numbers, base)?;
    if let Some(place) = sets.get_mut(base as usize) {
        *place = Some(derived);
    }
    Ok(())
}

/// Those of some identities that derive from each that types of a set name as a base, by that one's number.
pub(crate) fn sets_of(
    alloc: Global,
    sources: &Sources<'_>,
    meanings: &[Option<u32>],
    edges: &[Edge],
    numbers: &[u32],
) -> Result<Vec<Option<Derived>>, AllocError>
    ensures { graphs.AreStraight (map edge_view edges.now) → Ascend 0 numbers.now
        → IfOk result (λ sets. AreSets sets.items (map edge_view edges.now) numbers.now) }
{
    let mut bases = Vec::new(alloc);
    add_type_bases(meanings, false, sources.modules(), &mut bases)?;
    if bases.is_empty() {
        return Ok(Vec::new(alloc));
    }
    let derivations = Derivations::of(alloc, edges)?;
    let mut sets = no_sets(alloc, meanings.len())?;
    for base in &bases {
        add_derived(alloc, &derivations, numbers, *base, &mut sets)?;
    }
    Ok(sets)
}

fn has_key(set: &BTreeSet<i64>, key: &i64) -> bool
    ensures { result ≡ contains int_cmp set.now key.now }
{
    set.contains(key)
}

/// Whether a number is in a set.
fn holds(set: &BTreeSet<i64>, number: u32) -> bool
    ensures { result ≡ contains int_cmp set.now (pos number) }
{
    has_key(set, &i64::from(number))
}

/// Adds a number to some where it is to be there.
pub(crate) fn push_number(
    numbers: &mut Vec<u32>,
    number: u32,
    is_there: bool,
) -> Result<(), AllocError>
    ensures { OnOk result (numbers.new.items
        ≡ numbers.old.items ++ (if is_there then number ∷ [] else [])) }
{
    if is_there {
        numbers.push(number)?;
    }
    Ok(())
}

/// Those of some numbers that are in a set.
pub(crate) fn held_in(
    alloc: Global,
    numbers: &[u32],
    set: &BTreeSet<i64>,
) -> Result<Vec<u32>, AllocError>
    ensures { IfOk result (λ held. held.items
        ≡ filter (λ n. contains int_cmp set.now (pos n)) numbers.now) }
{
    let mut held = Vec::new(alloc);
    for number in numbers {
        push_number(&mut held, *number, holds(set, *number))?;
    }
    Ok(held)
}

/// The set of some numbers.
pub(crate) fn set_of(alloc: Global, numbers: &[u32]) -> Result<BTreeSet<i64>, AllocError>
    ensures { Ascend 0 numbers.now → IfOk result (λ set. set.keys ≡ map pos numbers.now) }
{
    let mut set = BTreeSet::new(alloc);
    for number in numbers {
        insert_number(&mut set, *number)?;
    }
    Ok(set)
}

/// The identities that the `base` statements of a row name, given what each statement means.
pub(crate) fn bases_in(
    alloc: Global,
    meanings: &[Option<u32>],
    below: Siblings<'_, Source<'_>>,
) -> Result<Vec<u32>, AllocError>
    ensures { IfOk result (λ bases. bases.items
        ≡ bases_by (meaning_at meanings.now) (row_by source_view below.entry)) }
{
    let mut bases = Vec::new(alloc);
    for statement in below {
        if Keyword::Base.is(statement.label().keyword) {
            if let Some(base) = meaning_at(meanings, statement.number() as usize) {
                bases.push(base)?;
            }
        }
    }
    Ok(bases)
}
