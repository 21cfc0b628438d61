//! Types as the rows of tables describe them: step by step, as `uint8 > range:1..10:tag`. The steps work on a row of
//! types: a built-in type is put behind it, a restriction, `leafref` and `module` take its last, and `union` its last two, as
//! in `uint8 > string > union`. Each function answers none where a row is malformed or memory ran out.

use std::alloc::Global;
use std::collections::BTreeSet;
use std::rc::Rc;
use ytype::{
    Bound, ErrorText, Expression, FractionDigits, Identities, Naming, NarrowFault, Restriction,
    Span, YType,
};
use ytype_numbers::enum_names;

/// A type, or why there is none.
pub(crate) type Narrowed = Result<YType, NarrowFault>;

fn naming(alloc: Global, name: &str, number: Option<i64>) -> Option<Naming> {
    Some(Naming::new(String::from_str(alloc, name).ok()?, number))
}

// A name, perhaps with its number, as `a=5`.
fn naming_of(alloc: Global, text: &str) -> Option<Naming> {
    match text.split_once('=') {
        None => naming(alloc, text, None),
        Some((name, number)) => naming(alloc, name, Some(number.parse::<i64>().ok()?)),
    }
}

// The names of `a=5,b`.
fn namings(alloc: Global, text: &str) -> Option<Vec<Naming>> {
    let mut namings = Vec::new(alloc);
    for name in text.split(',') {
        namings.push(naming_of(alloc, name)?).ok()?;
    }
    Some(namings)
}

// `min`, `max`, `5`, or `10e-1` for 1.0.
fn bound(text: &str) -> Option<Bound> {
    if text == "min" {
        return Some(Bound::Min);
    }
    if text == "max" {
        return Some(Bound::Max);
    }
    let (digits, places) = match text.strip_suffix("e-1") {
        None => (text, 0),
        Some(digits) => (digits, 1),
    };
    Some(Bound::Number {
        units: digits.parse::<i128>().ok()?,
        places,
    })
}

fn span_between(first: &str, last: &str) -> Option<Span> {
    Some(Span::new(bound(first)?, bound(last)?))
}

// `1..5`, or `7` for a part of one number.
fn span(text: &str) -> Option<Span> {
    match text.split_once("..") {
        None => span_between(text, text),
        Some((first, last)) => span_between(first, last),
    }
}

// The parts of `min..5|7|9..max`.
fn spans(alloc: Global, text: &str) -> Option<Vec<Span>> {
    let mut spans = Vec::new(alloc);
    for part in text.split('|') {
        spans.push(span(part)?).ok()?;
    }
    Some(spans)
}

// A text with what stands behind a sign, where it has that.
fn cut_at<'a>(text: &'a str, sign: char) -> (&'a str, Option<&'a str>) {
    match text.split_once(sign) {
        None => (text, None),
        Some((before, behind)) => (before, Some(behind)),
    }
}

fn owned(alloc: Global, text: Option<&str>) -> Option<Option<String>> {
    match text {
        None => Some(None),
        Some(text) => Some(Some(String::from_str(alloc, text).ok()?)),
    }
}

// Parts with an app-tag and a message, as `1..5:tag~message`, or without.
fn limit(alloc: Global, text: &str) -> Option<(Vec<Span>, ErrorText)> {
    let (text, message) = cut_at(text, '~');
    let (parts, app_tag) = cut_at(text, ':');
    let error = ErrorText {
        message: owned(alloc, message)?,
        app_tag: owned(alloc, app_tag)?,
    };
    Some((spans(alloc, parts)?, error))
}

fn decimal(alloc: Global, digits: &str) -> Option<Narrowed> {
    match FractionDigits::new(digits.parse::<u32>().ok()?) {
        None => Some(Err(NarrowFault::Refused)),
        Some(digits) => Some(YType::decimal64(alloc, digits)),
    }
}

fn integer(alloc: Global, name: &str) -> Option<Narrowed> {
    match name {
        "int8" => Some(YType::int8(alloc)),
        "int16" => Some(YType::int16(alloc)),
        "int32" => Some(YType::int32(alloc)),
        "int64" => Some(YType::int64(alloc)),
        "uint8" => Some(YType::uint8(alloc)),
        "uint16" => Some(YType::uint16(alloc)),
        "uint32" => Some(YType::uint32(alloc)),
        "uint64" => Some(YType::uint64(alloc)),
        _ => None,
    }
}

fn numbers(alloc: Global, text: &str) -> Option<BTreeSet<i64>> {
    let mut numbers = BTreeSet::new(alloc);
    for number in text.split(',') {
        numbers.insert(number.parse::<i64>().ok()?).ok()?;
    }
    Some(numbers)
}

fn module_name(alloc: Global, text: &str) -> Option<Rc<String>> {
    Rc::new(alloc, String::from_str(alloc, text).ok()?).ok()
}

// The module whose identities are named plainly, all identities, and the numbers of those that are taken, as
// `a|a:x=3,b:y=7|3`.
fn identityref(alloc: Global, text: &str) -> Option<Narrowed> {
    let (home, rest) = text.split_once('|')?;
    let (names, taken) = rest.split_once('|')?;
    let names = enum_names(alloc, &namings(alloc, names)?).ok()?;
    let identities = Identities::new(
        module_name(alloc, home)?,
        Rc::new(alloc, names).ok()?,
        Rc::new(alloc, numbers(alloc, taken)?).ok()?,
    );
    Some(YType::identityref(alloc, &identities))
}

// A built-in type.
fn built_in(alloc: Global, kind: &str, rest: &str) -> Option<Narrowed> {
    match kind {
        "boolean" => Some(YType::boolean(alloc)),
        "string" => Some(YType::string(alloc)),
        "empty" => Some(YType::empty(alloc)),
        "decimal64" => decimal(alloc, rest),
        "enumeration" => Some(YType::enumeration(alloc, &namings(alloc, rest)?)),
        "bits" => Some(YType::bits(alloc, &namings(alloc, rest)?)),
        "identityref" => identityref(alloc, rest),
        "binary" => Some(YType::binary(alloc)),
        _ => integer(alloc, kind),
    }
}

// An expression behind an app-tag and a message, as `tag~message:[a-z]+`, or `:[a-z]+` without.
fn pattern(alloc: Global, rest: &str, inverted: bool) -> Option<Restriction> {
    let (error, expression) = rest.split_once(':')?;
    let (app_tag, message) = cut_at(error, '~');
    let app_tag = if app_tag.is_empty() {
        None
    } else {
        Some(app_tag)
    };
    let error = ErrorText {
        message: owned(alloc, message)?,
        app_tag: owned(alloc, app_tag)?,
    };
    let expression = Expression::read(alloc, expression).ok()?;
    Some(Restriction::Pattern {
        expression: Rc::new(alloc, expression).ok()?,
        inverted,
        error,
    })
}

fn restriction(alloc: Global, kind: &str, rest: &str) -> Option<Restriction> {
    match kind {
        "enums" => Some(Restriction::Enums(namings(alloc, rest)?)),
        "bits-left" => Some(Restriction::Bits(namings(alloc, rest)?)),
        "pattern" => pattern(alloc, rest, false),
        "unless" => pattern(alloc, rest, true),
        "range" => {
            let (spans, error) = limit(alloc, rest)?;
            Some(Restriction::Range { spans, error })
        }
        "length" => {
            let (spans, error) = limit(alloc, rest)?;
            Some(Restriction::Length { spans, error })
        }
        _ => Some(Restriction::RequireInstance(rest.parse::<bool>().ok()?)),
    }
}

// The last type, restricted.
fn restricted(alloc: Global, types: &mut Vec<YType>, by: &Restriction) -> Option<Narrowed> {
    Some(types.pop()?.narrow(alloc, by))
}

// The last type, at leafs of a module of this name.
fn of_module(alloc: Global, types: &mut Vec<YType>, home: &str) -> Option<Narrowed> {
    let home = module_name(alloc, home)?;
    Some(Ok(types.pop()?.of_module(alloc, &home).ok()?))
}

fn leafref(alloc: Global, types: &mut Vec<YType>) -> Option<Narrowed> {
    Some(YType::leafref(alloc, &types.pop()?))
}

// The union of the last two types.
fn union_of(alloc: Global, types: &mut Vec<YType>) -> Option<Narrowed> {
    let last = types.pop()?;
    let mut members = Vec::new(alloc);
    members.push(types.pop()?).ok()?;
    members.push(last).ok()?;
    Some(YType::union(alloc, &members))
}

// What a step makes of the types before it.
fn next(alloc: Global, types: &mut Vec<YType>, step: &str) -> Option<Narrowed> {
    let (kind, rest) = step.split_once(':').unwrap_or((step, ""));
    match kind {
        "range" | "length" | "pattern" | "unless" | "enums" | "bits-left" | "instance" => {
            restricted(alloc, types, &restriction(alloc, kind, rest)?)
        }
        "module" => of_module(alloc, types, rest),
        "leafref" => leafref(alloc, types),
        "union" => union_of(alloc, types),
        _ => built_in(alloc, kind, rest),
    }
}

/// What the last of these steps makes. None also where an earlier one is refused, or types are left over.
pub(crate) fn narrowed(alloc: Global, steps: &str) -> Option<Narrowed> {
    let mut types = Vec::new(alloc);
    let mut latest: Option<Narrowed> = None;
    for step in steps.split(" > ") {
        if let Some(made) = latest {
            types.push(made.ok()?).ok()?;
        }
        latest = Some(next(alloc, &mut types, step)?);
    }
    if types.is_empty() { latest } else { None }
}

/// The type that these steps make. None also where it is refused.
pub(crate) fn described(alloc: Global, steps: &str) -> Option<YType> {
    narrowed(alloc, steps)?.ok()
}
