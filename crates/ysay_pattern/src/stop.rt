//! Where a pattern stops being one, read one character after another (XML Schema, part 2, appendix F).

ghost use Rattle.std.specs.Prelude.{◌≡◌, [], IfOk, Some, option_map};
ghost use Rattle.yspec_patterns.specs.Quantities.{part_step};
ghost use Rattle.ytype_patterns.specs.ClassView.{item_view};
ghost use Rattle.ytype_patterns.specs.PartView.{counting_view};
ghost use Rattle.ytype_patterns.specs.ReadingView.{taken_by};
ghost use Rattle.ytype_patterns.specs.SymbolView.{symbol_view};
ghost use Rattle.yspec_patterns.specs.Classes.{class_step};
ghost use Rattle.ysay_pattern.specs.Stop as spec;
ghost use Rattle.ysay_pattern.specs.ReaderView.{classed_view, grouped_view, reader_view, stop_view};

use std::alloc::{AllocError, Global};
use ytype_patterns::{
    ClassState, Counting, Escape, Item, Symbol, Token, class_step, escape_step, part_step,
};

/// Where a pattern stops being one.
#[derive(Clone, Copy, Debug, PartialEq, Eq)]
pub enum Stop {
    /// At a character that can't stand where it does, by its number counted from 1.
    At(usize),
    /// At its end, where something is left open.
    TooSoon,
}

/// How many groups may be open.
const DEEPEST: u32 = 200;

/// What was read last of quantities, and how many groups are open.
#[derive(Drop)]
struct Grouped {
    counting: Counting,
    depth: u32,
}

/// What was read of classes and above.
#[derive(Drop)]
struct Classed {
    class: ClassState,
    grouped: Grouped,
}

/// What was read of a pattern's text.
#[derive(Drop)]
struct Reader {
    escape: Escape,
    classed: Classed,
}

fn deeper(depth: u32) -> Option<u32>
    ensures { result ≡ spec.deeper depth }
{
    if depth < DEEPEST {
        Some(depth + 1)
    } else {
        None
    }
}

fn higher(depth: u32) -> Option<u32>
    ensures { result ≡ spec.higher depth }
{
    if depth == 0 { None } else { Some(depth - 1) }
}

/// How many groups are open behind what was read last.
fn open_behind(counting: &Counting, depth: u32) -> Option<u32>
    ensures { result ≡ spec.open_behind (counting_view counting.now) depth }
{
    match counting {
        Counting::Behind(Some(Token::OpenGroup)) => deeper(depth),
        Counting::Behind(Some(Token::CloseGroup)) => higher(depth),
        Counting::Behind(Some(Token::Bar))
        | Counting::Behind(Some(Token::Atom(_)))
        | Counting::Behind(None)
        | Counting::LeastDue(_)
        | Counting::Least { .. }
        | Counting::MostDue { .. }
        | Counting::Most { .. } => Some(depth),
    }
}

fn with_item(
    alloc: Global,
    grouped: Grouped,
    item: Option<Item>,
) -> Result<Option<Grouped>, AllocError>
    ensures { IfOk result (λ with_it. option_map grouped_view with_it
        ≡ spec.with_item (grouped_view grouped) (option_map item_view item)) }
{
    let Some(item) = item else {
        return Ok(Some(grouped));
    };
    let Grouped { counting, depth } = grouped;
    let Some((_, counting)) = part_step(alloc, counting, item)? else {
        return Ok(None);
    };
    match open_behind(&counting, depth) {
        None => Ok(None),
        Some(depth) => Ok(Some(Grouped { counting, depth })),
    }
}

fn with_symbol(
    alloc: Global,
    classed: Classed,
    symbol: Option<Symbol>,
) -> Result<Option<Classed>, AllocError>
    ensures { IfOk result (λ with_it. option_map classed_view with_it
        ≡ taken_by class_step spec.with_item (classed_view classed) (option_map symbol_view symbol)) }
{
    let Some(symbol) = symbol else {
        return Ok(Some(classed));
    };
    let Classed { class, grouped } = classed;
    let Some((item, class)) = class_step(alloc, class, symbol)? else {
        return Ok(None);
    };
    match with_item(alloc, grouped, item)? {
        None => Ok(None),
        Some(grouped) => Ok(Some(Classed { class, grouped })),
    }
}

fn with_character(alloc: Global, reader: Reader, c: char) -> Result<Option<Reader>, AllocError>
    ensures { IfOk result (λ with_it. option_map reader_view with_it
        ≡ spec.with_character (reader_view reader) c) }
{
    let Reader { escape, classed } = reader;
    let Some((symbol, escape)) = escape_step(escape, c) else {
        return Ok(None);
    };
    match with_symbol(alloc, classed, symbol)? {
        None => Ok(None),
        Some(classed) => Ok(Some(Reader { escape, classed })),
    }
}

fn nothing_read() -> Reader
    ensures { reader_view result ≡ spec.nothing_read }
{
    let grouped = Grouped {
        counting: Counting::Behind(None),
        depth: 0,
    };
    Reader {
        escape: Escape::Nothing,
        classed: Classed {
            class: ClassState::NoClass,
            grouped,
        },
    }
}

fn is_whole_grouped(grouped: &Grouped) -> bool
    ensures { result ≡ spec.is_whole_grouped (grouped_view grouped.now) }
{
    match &grouped.counting {
        Counting::Behind(_) => grouped.depth == 0,
        Counting::LeastDue(_)
        | Counting::Least { .. }
        | Counting::MostDue { .. }
        | Counting::Most { .. } => false,
    }
}

fn is_whole_classed(classed: &Classed) -> bool
    ensures { result ≡ spec.is_whole_classed (classed_view classed.now) }
{
    match &classed.class {
        ClassState::NoClass => is_whole_grouped(&classed.grouped),
        ClassState::Opened(_) | ClassState::Inside(..) | ClassState::Ended { .. } => false,
    }
}

/// Whether nothing is left open.
fn is_whole(reader: &Reader) -> bool
    ensures { result ≡ spec.is_whole (reader_view reader.now) }
{
    match reader.escape {
        Escape::Nothing => is_whole_classed(&reader.classed),
        Escape::Backslash
        | Escape::Property { .. }
        | Escape::Brace { .. }
        | Escape::OneLetter { .. }
        | Escape::TwoLetters { .. } => false,
    }
}

/// Where it stops that no character follows.
#[tactic(auto, unfolding(crate::specs::Stop::stop_from))]
fn ended(reader: Reader) -> Option<Stop>
    ensures { option_map stop_view result ≡ spec.stop_from [] (reader_view reader) }
{
    if is_whole(&reader) {
        None
    } else {
        Some(Stop::TooSoon)
    }
}

/// Where a pattern stops; none of what can be read to its end.
pub fn stop_of(alloc: Global, characters: &[char]) -> Result<Option<Stop>, AllocError>
    ensures { IfOk result (λ stop. option_map stop_view stop ≡ spec.stop_of characters.now) }
{
    let mut reader = nothing_read();
    for place in 0..characters.len() {
        match with_character(alloc, reader, characters[place])? {
            None => return Ok(Some(Stop::At(place + 1))),
            Some(read) => reader = read,
        }
    }
    Ok(ended(reader))
}
