//! Patterns read from their texts, one character after another.

ghost use Rattle.std.specs.Prelude.{◌≡◌, IfOk, Some, chars, option_map};
ghost use Rattle.regex_hir.specs.Meaning.{meaning};
ghost use Rattle.yspec_patterns.specs.Sizes as sizes;
ghost use Rattle.ytype_patterns.specs.BuildingView.{pair_of};
ghost use Rattle.ytype_patterns.specs.ClassView.{item_view};
ghost use Rattle.ytype_patterns.specs.PartView.{before_view, once_view};
ghost use Rattle.ytype_patterns.specs.SymbolView.{symbol_view};
ghost use Rattle.ytype_patterns.specs.ReadingView as spec;
ghost use Rattle.ytype_patterns.specs.ReadingView.{classes_view, counts_view, grouped_view, measured_view, reader_view, spelled_view, tree_view};

use crate::building::{Groups, built, built_step};
use crate::classes::{ClassState, Item, class_step};
use crate::copies::{Copies, copies_ended, copies_step};
use crate::limits::{bounded, product};
use crate::quantities::{Counting, Part, Token, once, part_step};
use crate::symbols::{Escape, Symbol, escape_step};
use regex_hir::Hir;
use std::alloc::{AllocError, Global};

/// The groups that were built, and how often their parts are repeated.
#[derive(Drop)]
struct Grouped {
    groups: Groups,
    copies: Copies,
}

/// What was read of quantities and above.
#[derive(Drop)]
struct Counted {
    counting: Counting,
    grouped: Grouped,
}

/// What was read of classes and above.
#[derive(Drop)]
struct Classed {
    class: ClassState,
    counted: Counted,
}

/// What was read of symbols, and how large they are.
#[derive(Drop)]
struct Measured {
    classed: Classed,
    size: u32,
}

/// What was read of a pattern's text.
#[derive(Drop)]
struct Reader {
    escape: Escape,
    measured: Measured,
}

/// A tree, how often its parts are repeated at most, and the size of its text.
#[derive(Drop)]
struct Spelled {
    tree: Hir,
    copies: u32,
    size: u32,
}

fn with_part(
    alloc: Global,
    grouped: Grouped,
    part: Option<Part>,
) -> Result<Option<Grouped>, AllocError>
    ensures { IfOk result (λ with_it. option_map grouped_view with_it
        ≡ spec.with_part (grouped_view grouped) (once_view part)) }
{
    let Some(part) = part else {
        return Ok(Some(grouped));
    };
    let Grouped { groups, copies } = grouped;
    let Some(copies) = copies_step(copies, &part.token, part.times)? else {
        return Ok(None);
    };
    match built_step(alloc, groups, part)? {
        None => Ok(None),
        Some(groups) => Ok(Some(Grouped { groups, copies })),
    }
}

fn with_item(
    alloc: Global,
    counted: Counted,
    item: Option<Item>,
) -> Result<Option<Counted>, AllocError>
    ensures { IfOk result (λ with_it. option_map counts_view with_it
        ≡ spec.with_item (counts_view counted) (option_map item_view item)) }
{
    let Some(item) = item else {
        return Ok(Some(counted));
    };
    let Counted { counting, grouped } = counted;
    let Some((part, counting)) = part_step(alloc, counting, item)? else {
        return Ok(None);
    };
    match with_part(alloc, grouped, part)? {
        None => Ok(None),
        Some(grouped) => Ok(Some(Counted { counting, grouped })),
    }
}

fn with_symbol(
    alloc: Global,
    classed: Classed,
    symbol: Option<Symbol>,
) -> Result<Option<Classed>, AllocError>
    ensures { IfOk result (λ with_it. option_map classes_view with_it
        ≡ spec.with_symbol (classes_view classed) (option_map symbol_view symbol)) }
{
    let Some(symbol) = symbol else {
        return Ok(Some(classed));
    };
    let Classed { class, counted } = classed;
    let Some((item, class)) = class_step(alloc, class, symbol)? else {
        return Ok(None);
    };
    match with_item(alloc, counted, item)? {
        None => Ok(None),
        Some(counted) => Ok(Some(Classed { class, counted })),
    }
}

/// A `.` and a set that has a name stand for many ranges of characters.
fn symbol_size(symbol: Symbol) -> u64
    ensures { result ≡ sizes.symbol_size (symbol_view symbol) }
{
    match symbol {
        Symbol::Set { .. } => 200,
        Symbol::Sign('.') => 4,
        Symbol::Sign(_) | Symbol::Escaped(_) => 1,
    }
}

fn size_step(size: u32, symbol: Symbol) -> Option<u32>
    ensures { result ≡ sizes.size_step size (symbol_view symbol) }
{
    bounded(u64::from(size) + symbol_size(symbol))
}

fn with_measured(
    alloc: Global,
    measured: Measured,
    symbol: Option<Symbol>,
) -> Result<Option<Measured>, AllocError>
    ensures { IfOk result (λ with_it. option_map measured_view with_it
        ≡ spec.with_measured (measured_view measured) (option_map symbol_view symbol)) }
{
    let Some(symbol) = symbol else {
        return Ok(Some(measured));
    };
    let Measured { classed, size } = measured;
    let Some(size) = size_step(size, symbol) else {
        return Ok(None);
    };
    match with_symbol(alloc, classed, Some(symbol))? {
        None => Ok(None),
        Some(classed) => Ok(Some(Measured { classed, size })),
    }
}

fn with_character(alloc: Global, reader: Reader, c: char) -> Result<Option<Reader>, AllocError>
    ensures { IfOk result (λ with_it. option_map reader_view with_it ≡ spec.with_character (reader_view reader) (Some c)) }
{
    let Reader { escape, measured } = reader;
    let Some((symbol, escape)) = escape_step(escape, c) else {
        return Ok(None);
    };
    match with_measured(alloc, measured, symbol)? {
        None => Ok(None),
        Some(measured) => Ok(Some(Reader { escape, measured })),
    }
}

fn nothing_read(alloc: Global) -> Reader
    ensures { reader_view result ≡ spec.nothing_read }
{
    let grouped = Grouped {
        groups: Groups::new(alloc),
        copies: Copies::one(alloc),
    };
    let counted = Counted {
        counting: Counting::Behind(None),
        grouped,
    };
    let classed = Classed {
        class: ClassState::NoClass,
        counted,
    };
    Reader {
        escape: Escape::Nothing,
        measured: Measured { classed, size: 0 },
    }
}

/// The tree of groups, and how often its parts are repeated at most.
fn ended_groups(grouped: Grouped) -> Result<Option<(Hir, u32)>, AllocError>
    ensures { IfOk result (λ made. option_map tree_view made ≡ spec.ended_groups (grouped_view grouped)) }
{
    let Grouped { groups, copies } = grouped;
    let Some(copies) = copies_ended(copies) else {
        return Ok(None);
    };
    match built(groups)? {
        None => Ok(None),
        Some(tree) => Ok(Some((tree, copies))),
    }
}

/// The same with a last piece, if there is one.
fn built_with(
    alloc: Global,
    grouped: Grouped,
    before: Option<Token>,
) -> Result<Option<(Hir, u32)>, AllocError>
    ensures { IfOk result (λ made. option_map tree_view made
        ≡ spec.ended_counts (spec.behind_token (before_view before), grouped_view grouped)) }
{
    match with_part(alloc, grouped, once(before))? {
        None => Ok(None),
        Some(grouped) => ended_groups(grouped),
    }
}

fn ended_counts(alloc: Global, counted: Counted) -> Result<Option<(Hir, u32)>, AllocError>
    ensures { IfOk result (λ made. option_map tree_view made ≡ spec.ended_counts (counts_view counted)) }
{
    let Counted { counting, grouped } = counted;
    match counting {
        Counting::Behind(before) => built_with(alloc, grouped, before),
        Counting::LeastDue(_)
        | Counting::Least { .. }
        | Counting::MostDue { .. }
        | Counting::Most { .. } => Ok(None),
    }
}

fn ended_classes(alloc: Global, classed: Classed) -> Result<Option<(Hir, u32)>, AllocError>
    ensures { IfOk result (λ made. option_map tree_view made ≡ spec.ended_classes (classes_view classed)) }
{
    let Classed { class, counted } = classed;
    match class {
        ClassState::NoClass => ended_counts(alloc, counted),
        ClassState::Opened(_) | ClassState::Inside(..) | ClassState::Ended { .. } => Ok(None),
    }
}

fn ended_measured(alloc: Global, measured: Measured) -> Result<Option<Spelled>, AllocError>
    ensures { IfOk result (λ made. option_map spelled_view made ≡ spec.ended_measured (measured_view measured)) }
{
    let Measured { classed, size } = measured;
    match ended_classes(alloc, classed)? {
        None => Ok(None),
        Some((tree, copies)) => Ok(Some(Spelled { tree, copies, size })),
    }
}

/// What was read, where no character follows.
fn ended(alloc: Global, reader: Reader) -> Result<Option<Spelled>, AllocError>
    ensures { IfOk result (λ made. option_map spelled_view made ≡ spec.ended (reader_view reader)) }
{
    let Reader { escape, measured } = reader;
    match escape {
        Escape::Nothing => ended_measured(alloc, measured),
        Escape::Backslash
        | Escape::Property { .. }
        | Escape::Brace { .. }
        | Escape::OneLetter { .. }
        | Escape::TwoLetters { .. } => Ok(None),
    }
}

/// What a text spells, however large it is; none where it spells nothing.
fn spelled_by(alloc: Global, text: &str) -> Result<Option<Spelled>, AllocError>
    ensures { IfOk result (λ made. option_map spelled_view made ≡ spec.left_behind spec.nothing_read (chars text.now)) }
{
    let mut reader = nothing_read(alloc);
    for c in text.chars() {
        match with_character(alloc, reader, c)? {
            None => return Ok(None),
            Some(read) => reader = read,
        }
    }
    ended(alloc, reader)
}

/// The tree of what isn't too large.
fn light(spelled: Spelled) -> Option<Hir>
    ensures { option_map meaning result ≡ sizes.light (spelled_view spelled) }
{
    let Spelled { tree, copies, size } = spelled;
    match product(size, copies) {
        None => None,
        Some(_) => Some(tree),
    }
}

/// The tree that a text spells; none where it spells none, or one that is too large.
pub(crate) fn tree_of(alloc: Global, text: &str) -> Result<Option<Hir>, AllocError>
    ensures { IfOk result (λ made. option_map meaning made ≡ spec.tree_spelled (chars text.now)) }
{
    match spelled_by(alloc, text)? {
        None => Ok(None),
        Some(spelled) => Ok(light(spelled)),
    }
}
