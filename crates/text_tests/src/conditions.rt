//! What arguments of `if-feature` spell.

use crate::rows::all_hold;
use std::alloc::{AllocError, Global};
use ylink_arguments::Name;
use ylink_conditions::{Expression, YangVersion, expression_of};

fn push_name(text: &mut String, name: &Name<'_>) -> Result<(), AllocError> {
    if let Some(prefix) = name.prefix {
        text.push_str(prefix)?;
        text.push(':')?;
    }
    text.push_str(name.identifier)?;
    Ok(())
}

// Names as they are, `!E`, `(E&E)` and `(E|E)`.
fn push_expression(text: &mut String, expression: &Expression<'_>) -> Result<(), AllocError> {
    let (first, sign, second) = match expression {
        Expression::Feature(name) => return push_name(text, name),
        Expression::Not(inner) => {
            text.push('!')?;
            return push_expression(text, inner);
        }
        Expression::Both(first, second) => (first, '&', second),
        Expression::OneOf(first, second) => (first, '|', second),
    };
    text.push('(')?;
    push_expression(text, first)?;
    text.push(sign)?;
    push_expression(text, second)?;
    text.push(')')?;
    Ok(())
}

// What a text spells, `-` where it is no expression.
fn spelled(alloc: Global, version: YangVersion, text: &str) -> Result<String, AllocError> {
    let mut shown = String::new(alloc);
    match expression_of(alloc, version, text)? {
        Some(expression) => push_expression(&mut shown, &expression)?,
        None => shown.push('-')?,
    }
    Ok(shown)
}

// `TEXT => SPELLED`, with `^` for a line feed and `~` for a tab.
fn holds(alloc: Global, version: YangVersion, row: &str) -> Option<bool> {
    let (text, wanted) = row.split_once(" => ")?;
    let mut whole = String::new(alloc);
    for letter in text.chars() {
        let letter = match letter {
            '^' => '\n',
            '~' => '\t',
            other => other,
        };
        whole.push(letter).ok()?;
    }
    let found = spelled(alloc, version, whole.as_str()).ok()?;
    Some(found.as_str() == wanted)
}

#[test]
fn of_yang_1_1(rt: HostRuntime) {
    let rows = "a => a
p:a => p:a
not a or b => (!a|b)
not (a or b) => !(a|b)
not not a => !!a
a or b and c => (a|(b&c))
a and b or c => ((a&b)|c)
(a or b) and c => ((a|b)&c)
a or b or c => (a|(b|c))
a and b and not c => (a&(b&!c))
not(b)and(p:a) => (!b&p:a)
a^~or^ b => (a|b)
 ( ( a ) )  => a
nota => nota
 => -
a or => -
and a => -
not => -
a b => -
a or or a => -
(a => -
a) => -
() => -
(a) a => -
p: => -
p:a:b => -
a or not => -";
    all_hold(&rt, rt.alloc(), rows, |alloc, row| {
        holds(alloc, YangVersion::Yang1_1, row)
    });
}

// The name of a feature alone.
#[test]
fn of_yang_1(rt: HostRuntime) {
    let rows = "a => a
p:a => p:a
not => not
not b => -
(a) => -
 a => -
 => -";
    all_hold(&rt, rt.alloc(), rows, |alloc, row| {
        holds(alloc, YangVersion::Yang1, row)
    });
}

// So many `not` in front of a name.
fn negated(alloc: Global, times: u32) -> Result<bool, AllocError> {
    let mut text = String::new(alloc);
    for _ in 0..times {
        text.push_str("not ")?;
    }
    text.push('a')?;
    let found = expression_of(alloc, YangVersion::Yang1_1, text.as_str())?;
    Ok(found.is_some())
}

#[test]
fn longest(rt: HostRuntime) {
    assert!(rt; negated(rt.alloc(), 126) == Ok(true));
    assert!(rt; negated(rt.alloc(), 127) == Ok(false));
}

fn names(alloc: Global, text: &str) -> Result<String, AllocError> {
    let mut shown = String::new(alloc);
    let Some(expression) = expression_of(alloc, YangVersion::Yang1_1, text)? else {
        return Ok(shown);
    };
    let mut names = Vec::new(alloc);
    expression.add_names(&mut names)?;
    for name in &names {
        push_name(&mut shown, name)?;
        shown.push(' ')?;
    }
    Ok(shown)
}

#[test]
fn named(rt: HostRuntime) {
    let found = names(rt.alloc(), "not (a or p:b) and (c or a)");
    assert!(rt; found.map(|names| names.as_str() == "a p:b c a ") == Ok(true));
}
