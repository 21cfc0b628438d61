//! What is said of the patterns of a line in which one spells no regular expression.

ghost use Rattle.std.specs.Prelude.{◌≡◌, ◌++◌, ◌∷◌, ◌-◌, [], IfOk, OnOk, chars, codes, drop, map, option_map, string_bytes};
ghost use Rattle.std.specs.Str.{bytes_eq, encode_utf8_all};
ghost use Rattle.ytext.specs.View.{modules_view, row_view};
ghost use Rattle.ysay_text.specs.Labels.{label};
ghost use Rattle.ysay_pattern.specs.ReaderView.{stop_view};
ghost use Rattle.ysay_pattern.specs.Said as spec;

use crate::stop::{Stop, stop_of};
use itoa::Buffer;
use std::alloc::{AllocError, Global};
use ysay_text::shown;
use ytext::{Module, Stmt};

fn characters_of(alloc: Global, text: &str) -> Result<Vec<char>, AllocError>
    ensures { IfOk result (λ characters. characters.items ≡ chars text.now) }
{
    text.chars().collect(alloc)
}

/// A text without so many of its first characters.
fn rest_behind(alloc: Global, count: usize, text: &str) -> Result<String, AllocError>
    ensures { IfOk result (λ rest. string_bytes rest ≡ encode_utf8_all (drop count (chars text.now))) }
{
    text.chars().skip(count).collect(alloc)
}

fn stopped_at(alloc: Global, pattern: &str, number: usize) -> Result<String, AllocError>
    ensures { IfOk result (λ said. string_bytes said ≡ spec.stopped pattern.now (stop_view (Stop.At number))) }
{
    let rest = rest_behind(alloc, number.saturating_sub(1), pattern)?;
    let seen = shown(alloc, rest.as_bytes())?;
    let mut digits = Buffer::new();
    [
        "character ",
        digits.format(number),
        " of the pattern can't stand there: ",
        seen.as_str(),
    ]
    .concat(alloc)
}

fn stopped(alloc: Global, pattern: &str, stop: Stop) -> Result<String, AllocError>
    ensures { IfOk result (λ said. string_bytes said ≡ spec.stopped pattern.now (stop_view stop)) }
{
    match stop {
        Stop::At(number) => stopped_at(alloc, pattern, number),
        Stop::TooSoon => String::from_str(alloc, "the pattern ends too soon."),
    }
}

/// What is said of a pattern that stops being one.
fn of_pattern(alloc: Global, pattern: &str) -> Result<Option<String>, AllocError>
    ensures { IfOk result (λ said. option_map string_bytes said ≡ spec.of_pattern pattern.now) }
{
    let characters = characters_of(alloc, pattern)?;
    match stop_of(alloc, &characters)? {
        Some(stop) => Ok(Some(stopped(alloc, pattern, stop)?)),
        None => Ok(None),
    }
}

/// What is said of the first of several patterns that stops being one; where all can be read, one is too large.
fn of_patterns(alloc: Global, patterns: &[&str]) -> Result<String, AllocError>
    ensures { IfOk result (λ said. string_bytes said ≡ spec.of_patterns (map (λ t. t.now) patterns.now)) }
{
    for pattern in patterns {
        if let Some(said) = of_pattern(alloc, *pattern)? {
            return Ok(said);
        }
    }
    String::from_str(alloc, "the pattern is too large.")
}

/// The same; nothing of none.
fn of_all(alloc: Global, patterns: &[&str]) -> Result<String, AllocError>
    ensures { IfOk result (λ said. string_bytes said ≡ spec.of_all (map (λ t. t.now) patterns.now)) }
{
    if patterns.is_empty() {
        Ok(String::new(alloc))
    } else {
        of_patterns(alloc, patterns)
    }
}

fn is_pattern(statement: &Stmt) -> bool
    ensures { result ≡ bytes_eq (label statement.now).keyword (codes "pattern") }
{
    statement.keyword() == "pattern"
}

fn add_argument<'a>(statement: &'a Stmt, patterns: &mut Vec<&'a str>) -> Result<(), AllocError>
    ensures { OnOk result (map (λ t. t.now) patterns.new.items
        ≡ map (λ t. t.now) patterns.old.items ++ spec.argument_of (label statement.now)) }
{
    if let Some(pattern) = statement.argument() {
        patterns.push(pattern)?;
    }
    Ok(())
}

/// Adds the pattern that a statement gives in a line, if it gives one.
fn add_pattern<'a>(
    line: u32,
    statement: &'a Stmt,
    patterns: &mut Vec<&'a str>,
) -> Result<(), AllocError>
    ensures { OnOk result (map (λ t. t.now) patterns.new.items
        ≡ map (λ t. t.now) patterns.old.items ++ spec.pattern_at line (label statement.now)) }
{
    if statement.line() == line && is_pattern(statement) {
        add_argument(statement, patterns)
    } else {
        Ok(())
    }
}

/// Adds the patterns that a statement and those below it give in a line.
#[cycle(lines)]
fn add_patterns<'a>(
    line: u32,
    statement: &'a Stmt,
    patterns: &mut Vec<&'a str>,
) -> Result<(), AllocError>
    ensures { OnOk result (map (λ t. t.now) patterns.new.items
        ≡ map (λ t. t.now) patterns.old.items ++ spec.patterns_in line (row_view (statement.now ∷ []))) }
{
    add_pattern(line, statement, patterns)?;
    add_all_patterns(line, statement.substatements(), patterns)
}

#[cycle(lines)]
fn add_all_patterns<'a>(
    line: u32,
    statements: &'a [Stmt],
    patterns: &mut Vec<&'a str>,
) -> Result<(), AllocError>
    ensures { OnOk result (map (λ t. t.now) patterns.new.items
        ≡ map (λ t. t.now) patterns.old.items ++ spec.patterns_in line (row_view statements.now)) }
{
    for statement in statements {
        add_patterns(line, statement, patterns)?;
    }
    Ok(())
}

/// What is said of a line of a module in which a pattern spells no regular expression: the character at which it stops, that it ends
/// too soon, or that it is too large.
#[tactic(auto, unfolding(crate::specs::Said::of_line))]
pub fn pattern_sentence(alloc: Global, line: u32, of: &Module) -> Result<String, AllocError>
    ensures { IfOk result (λ text. string_bytes text ≡ spec.of_line line (modules_view (of.now ∷ []))) }
{
    let mut patterns = Vec::new(alloc);
    add_patterns(line, &of.top, &mut patterns)?;
    of_all(alloc, &patterns)
}
