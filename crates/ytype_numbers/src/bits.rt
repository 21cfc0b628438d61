//! Texts of bits (RFC 7950, 9.7.2).

ghost use Rattle.std.specs.Prelude.{◌≡◌, option_map, map, filter, IfOk};
ghost use Rattle.std.specs.List.{list_all, slice_split};
ghost use Rattle.yspec.specs.types.Types.{bits_value, bits_taken};
ghost use Rattle.yspec.specs.types.Names.{words_of, is_word, is_space, is_among, positions_of};
ghost use Rattle.ytype_numbers.specs.Words.{words_in};
ghost use Rattle.ytype_numbers.specs.Sets.{holds_word, IsSetOf};

use crate::names::Names;
use std::alloc::{AllocError, Global};
use std::collections::BTreeSet;

fn is_word(piece: &str) -> bool
    ensures { result ≡ is_word piece.now }
{
    !piece.is_empty()
}

fn pieces_of(alloc: Global, text: &str) -> Result<Vec<&str>, AllocError>
    ensures { IfOk result (λ pieces. words_in pieces.items ≡ slice_split is_space text.now) }
{
    text.split(' ').collect(alloc)
}

fn words_of(alloc: Global, text: &str) -> Result<Vec<&str>, AllocError>
    ensures { IfOk result (λ words. words_in words.items ≡ words_of text.now) }
{
    let pieces = pieces_of(alloc, text)?;
    let mut words = Vec::new(alloc);
    'pieces: for piece in &pieces {
        if is_word(piece) {
            words.push(*piece)?;
        }
    }
    Ok(words)
}

/// The words as a set, if none comes twice.
pub(crate) fn set_of<'a>(
    alloc: Global,
    words: &[&'a str],
) -> Result<Option<BTreeSet<&'a str>>, AllocError>
    ensures { IfOk result (λ set. IsSetOf set (words_in words.now)) }
{
    let mut set = BTreeSet::new(alloc);
    'words: for word in words {
        if !set.insert(*word)? {
            return Ok(None);
        }
    }
    Ok(Some(set))
}

fn are_names(names: &Names, words: &[&str]) -> bool
    ensures { result ≡ list_all (is_among (map (λ a. a.name) names.now)) (words_in words.now) }
{
    'words: for word in words {
        if !names.has_name(word) {
            return false;
        }
    }
    true
}

pub(crate) fn holds_word(words: &BTreeSet<&str>, name: &str) -> bool
    ensures { result ≡ holds_word words.now name.now }
{
    words.contains(name)
}

fn positions_among(
    alloc: Global,
    names: &Names,
    words: &BTreeSet<&str>,
) -> Result<Vec<i64>, AllocError>
    ensures { IfOk result (λ positions. positions.items
        ≡ positions_of (filter (λ a. holds_word words.now a.name) names.now)) }
{
    let mut positions = Vec::new(alloc);
    for (number, name) in names.by_number() {
        if holds_word(words, name.as_str()) {
            positions.push(*number)?;
        }
    }
    Ok(positions)
}

/// The positions of the bits that a text names, ascending, where it is a text of bits.
pub fn positions_in(
    alloc: Global,
    names: &Names,
    text: &str,
) -> Result<Option<Vec<i64>>, AllocError>
    ensures { IfOk result (λ positions. option_map (λ v. bits_value v.items) positions
        ≡ bits_taken names.now (words_of text.now)) }
{
    let words = words_of(alloc, text)?;
    if !are_names(names, &words) {
        return Ok(None);
    }
    match set_of(alloc, &words)? {
        None => Ok(None),
        Some(set) => Ok(Some(positions_among(alloc, names, &set)?)),
    }
}
