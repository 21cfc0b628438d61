//! The names that a restriction leaves of an enumeration or of bits (RFC 7950, 9.6.4 and 9.7.4).

ghost use Rattle.std.specs.Prelude.{◌≡◌, ◌++◌, ◌∷◌, [], if◌then◌else◌, int_lt, true, filter, ok_or, IfOk};
ghost use Rattle.std.specs.List.{list_all};
ghost use Rattle.yspec.specs.types.Names.{is_naming_of, texts_of, names_left};
ghost use Rattle.yspec.specs.Results.{Gives};
ghost use Rattle.ytype_numbers.specs.Sets.{holds_word};
ghost use Rattle.ytype_numbers.specs.Words.{named, narrow_refusal, same, words_in};

use crate::bits::{holds_word, set_of};
use crate::fault::NarrowFault;
use crate::name::Naming;
use crate::names::Names;
use std::alloc::{AllocError, Global};
use std::collections::BTreeSet;

/// Whether it names one of some names, with no other number.
fn is_naming_of(names: &Names, naming: &Naming) -> bool
    ensures { result ≡ is_naming_of names.now naming.now }
{
    match names.number_of(naming.name()) {
        None => false,
        Some(number) => match naming.number() {
            None => true,
            Some(said) => number == said,
        },
    }
}

fn are_namings_of(names: &Names, namings: &[Naming]) -> bool
    ensures { result ≡ list_all (is_naming_of names.now) namings.now }
{
    'namings: for naming in namings {
        if !is_naming_of(names, naming) {
            return false;
        }
    }
    true
}

fn texts_of(alloc: Global, namings: &[Naming]) -> Result<Vec<&str>, AllocError>
    ensures { IfOk result (λ texts. words_in texts.items ≡ texts_of namings.now) }
{
    let mut texts = Vec::with_capacity(alloc, namings.len())?;
    'namings: for naming in namings {
        texts.push(naming.name())?;
    }
    Ok(texts)
}

/// Some names with one more, where it is among texts.
fn with_one(
    alloc: Global,
    left: Names,
    texts: &BTreeSet<&str>,
    name: &str,
    number: i64,
) -> Result<Names, AllocError>
    requires { list_all (λ a. int_lt a.number number) left ≡ true }
    ensures { IfOk result (λ names. names
        ≡ left ++ (if holds_word texts.now name.now then named name.now number ∷ [] else [])) }
{
    if holds_word(texts, name) {
        left.with_later(alloc, name, number)
    } else {
        Ok(left)
    }
}

/// Those of some names that are among texts.
fn names_among(alloc: Global, names: &Names, texts: &BTreeSet<&str>) -> Result<Names, AllocError>
    ensures { IfOk result (λ left. left ≡ filter (λ a. holds_word texts.now a.name) names.now) }
{
    let mut left = Names::new(alloc, texts.len());
    for (number, name) in names.by_number() {
        left = with_one(alloc, left, texts, name.as_str(), *number)?;
    }
    Ok(left)
}

/// The names that a restriction leaves, with their numbers. Refused where it gives a name that is none of them or another number, or
/// names one twice.
pub fn names_left(alloc: Global, names: &Names, namings: &[Naming]) -> Result<Names, NarrowFault>
    ensures { Gives same narrow_refusal result (ok_or (names_left names.now namings.now) tt) }
{
    if !are_namings_of(names, namings) {
        return Err(NarrowFault::Refused);
    }
    let texts = texts_of(alloc, namings)?;
    match set_of(alloc, &texts)? {
        None => Err(NarrowFault::Refused),
        Some(set) => Ok(names_among(alloc, names, &set)?),
    }
}
