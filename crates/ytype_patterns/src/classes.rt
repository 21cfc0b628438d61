//! Classes in brackets (XML Schema, part 2, appendix F.1).

ghost use Rattle.std.specs.Prelude.{◌≡◌, IfOk, option_map};
ghost use Rattle.regex_class.specs.Ranges.{in_ranges};
ghost use Rattle.yspec_patterns.specs.Classes as spec;
ghost use Rattle.yspec_patterns.specs.Sets as sets;
ghost use Rattle.ytype_patterns.specs.SymbolView.{symbol_view};
ghost use Rattle.ytype_patterns.specs.ClassView.{around_view, collected, held_ranges, holding, item_view, made_item, member_view, open_view, pending_view, state_view};

use crate::sets::{class_of, turned, within, without};
use crate::symbols::{NamedSet, Symbol};
use regex_class::Class;
use std::alloc::{AllocError, Global};

/// What a pattern is made of where each class is a set.
#[derive(Debug, Drop)]
pub enum Item {
    Sign(char),
    Set(Class),
}

/// What was read of a class and isn't in it yet.
#[derive(Clone, Copy, Debug)]
pub enum Pending {
    Nothing,
    LoneDash,
    First(char),
    Range(char),
}

/// A class that is read: those that are without it, the innermost last, whether it has a `^`, and its ranges as they stand,
/// if a part of it was read.
#[derive(Debug, Drop)]
pub struct OpenClass {
    around: Vec<Class>,
    inverted: bool,
    held: Option<Vec<(u32, u32)>>,
}

/// What was read of classes.
#[derive(Debug, Drop)]
pub enum ClassState {
    NoClass,
    Opened(Vec<Class>),
    Inside(OpenClass, Pending),
    Ended {
        inner: Class,
        outer: Class,
        around: Vec<Class>,
    },
}

/// What may stand in a class.
#[derive(Clone, Copy, Debug)]
enum Member {
    OpenBracket,
    CloseBracket,
    Dash,
    One(char),
    Set { named: NamedSet, outside: bool },
}

fn member_of_sign(sign: char) -> Member
    ensures { member_view result ≡ spec.member_of_sign sign }
{
    match sign {
        '[' => Member::OpenBracket,
        ']' => Member::CloseBracket,
        '-' => Member::Dash,
        _ => Member::One(sign),
    }
}

fn member_of(symbol: Symbol) -> Member
    ensures { member_view result ≡ spec.member_of (symbol_view symbol) }
{
    match symbol {
        Symbol::Sign(sign) => member_of_sign(sign),
        Symbol::Escaped(c) => Member::One(c),
        Symbol::Set { named, outside } => Member::Set { named, outside },
    }
}

/// The ranges that are held, to which others are added.
fn ranges_held(alloc: Global, held: Option<Vec<(u32, u32)>>) -> Vec<(u32, u32)>
    ensures { result.items ≡ held_ranges held }
{
    match held {
        None => Vec::new(alloc),
        Some(ranges) => ranges,
    }
}

fn with_range(
    alloc: Global,
    class: OpenClass,
    low: char,
    high: char,
) -> Result<OpenClass, AllocError>
    ensures { IfOk result (λ with_it. open_view with_it
        ≡ holding (open_view class) (spec.with_set (open_view class).held (sets.within low high))) }
{
    let OpenClass {
        around,
        inverted,
        held,
    } = class;
    let mut ranges = ranges_held(alloc, held);
    ranges.push((low as u32, high as u32))?;
    Ok(OpenClass {
        around,
        inverted,
        held: Some(ranges),
    })
}

fn with_class(alloc: Global, class: OpenClass, set: &Class) -> Result<OpenClass, AllocError>
    ensures { IfOk result (λ with_it. open_view with_it
        ≡ holding (open_view class) (spec.with_set (open_view class).held (in_ranges set.now.ranges.items))) }
{
    let OpenClass {
        around,
        inverted,
        held,
    } = class;
    let mut ranges = ranges_held(alloc, held);
    ranges.extend_from_slice(&set.ranges)?;
    Ok(OpenClass {
        around,
        inverted,
        held: Some(ranges),
    })
}

fn with_pending(alloc: Global, class: OpenClass, pending: Pending) -> Result<OpenClass, AllocError>
    ensures { IfOk result (λ with_it. open_view with_it
        ≡ holding (open_view class) (spec.with_pending (pending_view pending) (open_view class).held)) }
{
    match pending {
        Pending::Nothing => Ok(class),
        Pending::LoneDash => with_range(alloc, class, '-', '-'),
        Pending::First(c) => with_range(alloc, class, c, c),
        Pending::Range(c) => {
            let with_first = with_range(alloc, class, c, c)?;
            with_range(alloc, with_first, '-', '-')
        }
    }
}

fn of_ranges(ranges: Vec<(u32, u32)>) -> Result<Class, AllocError>
    ensures { IfOk result (λ class. in_ranges class.ranges.items ≡ collected ranges.items) }
{
    Class::new(ranges)
}

/// Out of a class with this in it: an item, or a class that is without it.
fn leave(around: Vec<Class>, set: Class) -> Option<(Option<Item>, ClassState)>
    ensures { option_map made_item result ≡ spec.leave (around_view around.items) (in_ranges set.ranges.items) }
{
    let mut around = around;
    match around.pop() {
        None => Some((Some(Item::Set(set)), ClassState::NoClass)),
        Some(outer) => Some((
            None,
            ClassState::Ended {
                inner: set,
                outer,
                around,
            },
        )),
    }
}

fn closed(class: OpenClass) -> Result<Option<(Option<Item>, ClassState)>, AllocError>
    ensures { IfOk result (λ step. option_map made_item step ≡ spec.closed (open_view class) (open_view class).held) }
{
    let OpenClass {
        around,
        inverted,
        held,
    } = class;
    match held {
        None => Ok(None),
        Some(ranges) => Ok(leave(around, turned(inverted, of_ranges(ranges)?)?)),
    }
}

fn subtracting(class: OpenClass) -> Result<Option<(Option<Item>, ClassState)>, AllocError>
    ensures { IfOk result (λ step. option_map made_item step ≡ spec.subtracting (open_view class) (open_view class).held) }
{
    let OpenClass {
        around,
        inverted,
        held,
    } = class;
    match held {
        None => Ok(None),
        Some(ranges) => {
            let mut around = around;
            around.push(turned(inverted, of_ranges(ranges)?)?)?;
            Ok(Some((None, ClassState::Opened(around))))
        }
    }
}

fn ranged(
    alloc: Global,
    class: OpenClass,
    low: char,
    high: char,
) -> Result<Option<(Option<Item>, ClassState)>, AllocError>
    ensures { IfOk result (λ step. option_map made_item step ≡ spec.ranged (open_view class) low high) }
{
    if low <= high {
        let class = with_range(alloc, class, low, high)?;
        Ok(Some((None, ClassState::Inside(class, Pending::Nothing))))
    } else {
        Ok(None)
    }
}

fn open_bracket(
    alloc: Global,
    class: OpenClass,
    pending: Pending,
) -> Result<Option<(Option<Item>, ClassState)>, AllocError>
    ensures { IfOk result (λ step. option_map made_item step
        ≡ spec.member_step (open_view class) (pending_view pending) spec.open_bracket) }
{
    match pending {
        Pending::LoneDash => subtracting(class),
        Pending::Range(c) => subtracting(with_range(alloc, class, c, c)?),
        Pending::Nothing => Ok(None),
        Pending::First(_) => Ok(None),
    }
}

fn dash(
    alloc: Global,
    class: OpenClass,
    pending: Pending,
) -> Result<Option<(Option<Item>, ClassState)>, AllocError>
    ensures { IfOk result (λ step. option_map made_item step
        ≡ spec.member_step (open_view class) (pending_view pending) spec.dash) }
{
    match pending {
        Pending::Nothing => Ok(Some((None, ClassState::Inside(class, Pending::LoneDash)))),
        Pending::LoneDash => Ok(Some((None, ClassState::Inside(class, Pending::Range('-'))))),
        Pending::First(c) => Ok(Some((None, ClassState::Inside(class, Pending::Range(c))))),
        Pending::Range(c) => ranged(alloc, class, c, '-'),
    }
}

fn one_member(
    alloc: Global,
    class: OpenClass,
    pending: Pending,
    c: char,
) -> Result<Option<(Option<Item>, ClassState)>, AllocError>
    ensures { IfOk result (λ step. option_map made_item step
        ≡ spec.member_step (open_view class) (pending_view pending) (spec.one_member c)) }
{
    match pending {
        Pending::Range(low) => ranged(alloc, class, low, c),
        Pending::Nothing | Pending::LoneDash | Pending::First(_) => {
            let class = with_pending(alloc, class, pending)?;
            Ok(Some((None, ClassState::Inside(class, Pending::First(c)))))
        }
    }
}

fn set_member(
    alloc: Global,
    class: OpenClass,
    pending: Pending,
    set: Class,
) -> Result<Option<(Option<Item>, ClassState)>, AllocError>
    ensures { IfOk result (λ step. option_map made_item step
        ≡ spec.member_step (open_view class) (pending_view pending) (spec.set_member (in_ranges set.ranges.items))) }
{
    match pending {
        Pending::Range(_) => Ok(None),
        Pending::Nothing | Pending::LoneDash | Pending::First(_) => {
            let with_it = with_class(alloc, with_pending(alloc, class, pending)?, &set)?;
            Ok(Some((None, ClassState::Inside(with_it, Pending::Nothing))))
        }
    }
}

fn member_step(
    alloc: Global,
    class: OpenClass,
    pending: Pending,
    member: Member,
) -> Result<Option<(Option<Item>, ClassState)>, AllocError>
    ensures { IfOk result (λ step. option_map made_item step
        ≡ spec.member_step (open_view class) (pending_view pending) (member_view member)) }
{
    match member {
        Member::CloseBracket => closed(with_pending(alloc, class, pending)?),
        Member::OpenBracket => open_bracket(alloc, class, pending),
        Member::Dash => dash(alloc, class, pending),
        Member::One(c) => one_member(alloc, class, pending, c),
        Member::Set { named, outside } => {
            let set = class_of(alloc, named, outside)?;
            set_member(alloc, class, pending, set)
        }
    }
}

fn item_of(alloc: Global, symbol: Symbol) -> Result<Item, AllocError>
    ensures { IfOk result (λ item. item_view item ≡ spec.set_of (symbol_view symbol)) }
{
    match symbol {
        Symbol::Sign(c) => Ok(Item::Sign(c)),
        Symbol::Escaped(c) => Ok(Item::Set(within(alloc, c, c)?)),
        Symbol::Set { named, outside } => Ok(Item::Set(class_of(alloc, named, outside)?)),
    }
}

fn is_sign(symbol: Symbol, sign: char) -> bool
    ensures { result ≡ spec.is_sign sign (symbol_view symbol) }
{
    match symbol {
        Symbol::Sign(c) => c == sign,
        Symbol::Escaped(_) => false,
        Symbol::Set { .. } => false,
    }
}

fn outside_step(alloc: Global, symbol: Symbol) -> Result<(Option<Item>, ClassState), AllocError>
    ensures { IfOk result (λ step. Some (made_item step) ≡ spec.class_step spec.no_class (symbol_view symbol)) }
{
    if is_sign(symbol, '[') {
        Ok((None, ClassState::Opened(Vec::new(alloc))))
    } else {
        Ok((Some(item_of(alloc, symbol)?), ClassState::NoClass))
    }
}

fn first_step(
    alloc: Global,
    around: Vec<Class>,
    symbol: Symbol,
) -> Result<Option<(Option<Item>, ClassState)>, AllocError>
    ensures { IfOk result (λ step. option_map made_item step
        ≡ spec.class_step (spec.opened (around_view around.items)) (symbol_view symbol)) }
{
    let inverted = is_sign(symbol, '^');
    let class = OpenClass {
        around,
        inverted,
        held: None,
    };
    if inverted {
        Ok(Some((None, ClassState::Inside(class, Pending::Nothing))))
    } else {
        member_step(alloc, class, Pending::Nothing, member_of(symbol))
    }
}

/// What a symbol adds, by what was read of classes; none where it can't stand there.
pub fn class_step(
    alloc: Global,
    state: ClassState,
    symbol: Symbol,
) -> Result<Option<(Option<Item>, ClassState)>, AllocError>
    ensures { IfOk result (λ step. option_map made_item step ≡ spec.class_step (state_view state) (symbol_view symbol)) }
{
    match state {
        ClassState::NoClass => Ok(Some(outside_step(alloc, symbol)?)),
        ClassState::Opened(around) => first_step(alloc, around, symbol),
        ClassState::Inside(class, pending) => member_step(alloc, class, pending, member_of(symbol)),
        ClassState::Ended {
            inner,
            outer,
            around,
        } => {
            if is_sign(symbol, ']') {
                Ok(leave(around, without(&outer, &inner)?))
            } else {
                Ok(None)
            }
        }
    }
}
