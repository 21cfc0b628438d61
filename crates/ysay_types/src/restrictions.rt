//! What is said of the first type of a line that restricts its type wrongly, or that says too little or something twice.

ghost use Rattle.std.specs.Prelude.{◌≡◌, ◌∷◌, [], IfOk, map, option_and_then, option_map, string_bytes};
ghost use Rattle.yspec.specs.Forest.{row};
ghost use Rattle.ytext.specs.View.{modules_view, row_view, view};
ghost use Rattle.ysay_text.specs.Labels.{label};
ghost use Rattle.ysay_types.specs.BuiltIns.{needed, whole_numbers};
ghost use Rattle.ysay_types.specs.Restrictions as spec;

use crate::built_ins::{needed, numbers_restricted, takers, whole_numbers};
use crate::chain::{base_of, first_argument, range_of, rows_of, typedef_meant};
use crate::quoting::quoted;
use crate::sets::{goes_beyond, left_of, restricts};
use std::alloc::{AllocError, Global};
use ylink_arguments::spans;
use ysay_names::{all_statements, arguments_called, built_in_names, has_word, is_among, is_word};
use ysay_text::shown;
use ytext::{Module, Stmt};
use ytype_numbers::{Part, Span, integer_text};

fn lacks(alloc: Global, name: &str, word: &str) -> Result<String, AllocError>
    ensures { IfOk result (λ said. string_bytes said ≡ spec.lacks name.now word.now) }
{
    [name, " lacks ", word, "."].concat(alloc)
}

/// What is said of a built-in type, where what it needs is missing.
fn of_need(alloc: Global, row: &[Stmt], name: &str) -> Result<Option<String>, AllocError>
    ensures { IfOk result (λ said. option_map string_bytes said
        ≡ option_and_then (spec.of_need (row_view row.now) name.now) (needed name.now)) }
{
    let Some(word) = needed(name) else {
        return Ok(None);
    };
    if has_word(word, row) {
        return Ok(None);
    }
    Ok(Some(lacks(alloc, name, word)?))
}

fn takes_none(alloc: Global, name: &str, word: &str) -> Result<String, AllocError>
    ensures { IfOk result (λ said. string_bytes said ≡ spec.takes_none name.now word.now) }
{
    [name, " takes no ", word, "."].concat(alloc)
}

/// Which numbers a type takes.
pub(crate) fn takes_text(alloc: Global, numbers: &Part) -> Result<String, AllocError>
    ensures { IfOk result (λ said. string_bytes said ≡ spec.takes_text numbers.now) }
{
    let low = integer_text(alloc, numbers.low())?;
    let high = integer_text(alloc, numbers.high())?;
    [", which takes ", low.as_str(), " to ", high.as_str(), "."].concat(alloc)
}

fn beyond_type(alloc: Global, name: &str, numbers: &Part) -> Result<String, AllocError>
    ensures { IfOk result (λ said. string_bytes said ≡ spec.beyond_type name.now numbers.now) }
{
    let seen = shown(alloc, name.as_bytes())?;
    let taken = takes_text(alloc, numbers)?;
    [" goes beyond ", seen.as_str(), taken.as_str()].concat(alloc)
}

fn beyond(
    alloc: Global,
    word: &str,
    text: &str,
    name: &str,
    numbers: &Part,
) -> Result<String, AllocError>
    ensures { IfOk result (λ said. string_bytes said ≡ spec.goes_beyond word.now text.now name.now numbers.now) }
{
    let given = quoted(alloc, word, text)?;
    let of_type = beyond_type(alloc, name, numbers)?;
    [given.as_str(), of_type.as_str()].concat(alloc)
}

fn unordered(alloc: Global, word: &str, text: &str) -> Result<String, AllocError>
    ensures { IfOk result (λ said. string_bytes said ≡ spec.is_unordered word.now text.now) }
{
    let given = quoted(alloc, word, text)?;
    [given.as_str(), " isn't made of whole numbers that ascend."].concat(alloc)
}

/// What is said of a range or a length that isn't one of a type's numbers.
fn of_spans(
    alloc: Global,
    word: &str,
    text: &str,
    name: &str,
    numbers: &Part,
    spans: &[Span],
) -> Result<Option<String>, AllocError>
    ensures { IfOk result (λ said. option_map string_bytes said
        ≡ spec.of_spans word.now text.now name.now numbers.now spans.now) }
{
    if restricts(alloc, std::slice::from_ref(numbers), spans)? {
        Ok(None)
    } else if goes_beyond(alloc, std::slice::from_ref(numbers), spans)? {
        Ok(Some(beyond(alloc, word, text, name, numbers)?))
    } else {
        Ok(Some(unordered(alloc, word, text)?))
    }
}

fn of_numbers(
    alloc: Global,
    word: &str,
    text: &str,
    name: &str,
    numbers: &Part,
) -> Result<Option<String>, AllocError>
    ensures { IfOk result (λ said. option_map string_bytes said
        ≡ spec.of_numbers word.now text.now name.now numbers.now) }
{
    match spans(alloc, text)? {
        Some(spans) => of_spans(alloc, word, text, name, numbers, &spans),
        None => Ok(None),
    }
}

fn of_bounds(
    alloc: Global,
    word: &str,
    name: &str,
    text: &str,
) -> Result<Option<String>, AllocError>
    ensures { IfOk result (λ said. option_map string_bytes said ≡ spec.of_bounds word.now name.now text.now) }
{
    match numbers_restricted(word, name) {
        Some(numbers) => of_numbers(alloc, word, text, name, &numbers),
        None => Ok(None),
    }
}

/// What is said of a substatement that says something of a type, by the types that take it.
fn of_restriction(
    alloc: Global,
    name: &str,
    statement: &Stmt,
    names: &[&str],
) -> Result<Option<String>, AllocError>
    ensures { IfOk result (λ said. option_map string_bytes said
        ≡ spec.of_restriction name.now (label statement.now) (map (λ n. n.now) names.now)) }
{
    if !is_among(names, name) {
        return Ok(Some(takes_none(alloc, name, statement.keyword())?));
    }
    match statement.argument() {
        Some(text) => of_bounds(alloc, statement.keyword(), name, text),
        None => Ok(None),
    }
}

fn of_part(alloc: Global, name: &str, statement: &Stmt) -> Result<Option<String>, AllocError>
    ensures { IfOk result (λ said. option_map string_bytes said ≡ spec.of_part name.now (label statement.now)) }
{
    match takers(statement.keyword()) {
        Some(names) => of_restriction(alloc, name, statement, names),
        None => Ok(None),
    }
}

/// What is said of the first substatement that a built-in type doesn't take.
fn of_parts(alloc: Global, name: &str, statements: &[Stmt]) -> Result<Option<String>, AllocError>
    ensures { IfOk result (λ said. option_map string_bytes said ≡ spec.of_parts name.now (row (row_view statements.now))) }
{
    for statement in statements {
        if let Some(said) = of_part(alloc, name, statement)? {
            return Ok(Some(said));
        }
    }
    Ok(None)
}

fn of_built_in(alloc: Global, name: &str, row: &[Stmt]) -> Result<Option<String>, AllocError>
    ensures { IfOk result (λ said. option_map string_bytes said ≡ spec.of_built_in name.now (row_view row.now)) }
{
    match of_need(alloc, row, name)? {
        Some(said) => Ok(Some(said)),
        None => of_parts(alloc, name, row),
    }
}

fn range_of_type(alloc: Global, name: &str, outer: &str) -> Result<String, AllocError>
    ensures { IfOk result (λ said. string_bytes said ≡ spec.range_of_type name.now outer.now) }
{
    let given = quoted(alloc, "range", outer)?;
    let seen = shown(alloc, name.as_bytes())?;
    [given.as_str(), " of ", seen.as_str(), "."].concat(alloc)
}

fn isnt_within(alloc: Global, name: &str, text: &str, outer: &str) -> Result<String, AllocError>
    ensures { IfOk result (λ said. string_bytes said ≡ spec.isnt_within name.now text.now outer.now) }
{
    let given = quoted(alloc, "range", text)?;
    let range = range_of_type(alloc, name, outer)?;
    [given.as_str(), " isn't within the ", range.as_str()].concat(alloc)
}

fn of_outer(
    alloc: Global,
    name: &str,
    text: &str,
    outer: &str,
    spans: &[Span],
    parts: &[Part],
) -> Result<Option<String>, AllocError>
    ensures { IfOk result (λ said. option_map string_bytes said
        ≡ spec.of_outer name.now text.now outer.now spans.now parts.now) }
{
    if goes_beyond(alloc, parts, spans)? {
        Ok(Some(isnt_within(alloc, name, text, outer)?))
    } else {
        Ok(None)
    }
}

/// What is said of a range of a type that has a range.
fn within_range(
    alloc: Global,
    name: &str,
    text: &str,
    numbers: &Part,
    outer: &str,
) -> Result<Option<String>, AllocError>
    ensures { IfOk result (λ said. option_map string_bytes said
        ≡ spec.within_range name.now text.now numbers.now outer.now) }
{
    let Some(spans) = spans(alloc, text)? else {
        return Ok(None);
    };
    match left_of(alloc, numbers, outer)? {
        Some(left) => of_outer(alloc, name, text, outer, &spans, left.parts()),
        None => Ok(None),
    }
}

fn of_range(
    alloc: Global,
    name: &str,
    numbers: &Part,
    outer: Option<&str>,
    text: &str,
) -> Result<Option<String>, AllocError>
    ensures { IfOk result (λ said. option_map string_bytes said
        ≡ spec.of_range name.now numbers.now (option_map (λ r. r.now) outer.entry) text.now) }
{
    match outer {
        Some(outer) => within_range(alloc, name, text, numbers, outer),
        None => of_numbers(alloc, "range", text, name, numbers),
    }
}

/// What is said of the range of a type that is derived from an integer.
fn of_integer(
    alloc: Global,
    row: &[Stmt],
    name: &str,
    outer: Option<&str>,
    numbers: &Part,
) -> Result<Option<String>, AllocError>
    ensures { IfOk result (λ said. option_map string_bytes said
        ≡ spec.of_integer (row_view row.now) name.now (option_map (λ r. r.now) outer.entry) numbers.now) }
{
    match first_argument("range", row) {
        Some(text) => of_range(alloc, name, numbers, outer, text),
        None => Ok(None),
    }
}

fn of_base(
    alloc: Global,
    row: &[Stmt],
    name: &str,
    outer: Option<&str>,
    base: &str,
) -> Result<Option<String>, AllocError>
    ensures { IfOk result (λ said. option_map string_bytes said ≡ option_and_then
        (spec.of_integer (row_view row.now) name.now (option_map (λ r. r.now) outer.entry)) (whole_numbers base.now)) }
{
    match whole_numbers(base) {
        Some(numbers) => of_integer(alloc, row, name, outer, &numbers),
        None => Ok(None),
    }
}

fn of_rows(
    alloc: Global,
    row: &[Stmt],
    name: &str,
    rows: &[&[Stmt]],
) -> Result<Option<String>, AllocError>
    ensures { IfOk result (λ said. option_map string_bytes said
        ≡ spec.of_rows (row_view row.now) name.now (map (λ r. row_view r.now) rows.now)) }
{
    match base_of(rows) {
        Some(base) => of_base(alloc, row, name, range_of(rows), base),
        None => Ok(None),
    }
}

/// What is said of a type that a typedef defines.
fn of_derived(
    alloc: Global,
    modules: &[Module],
    around: &[Stmt],
    row: &[Stmt],
    name: &str,
) -> Result<Option<String>, AllocError>
    ensures { IfOk result (λ said. option_map string_bytes said ≡ spec.of_derived
        (modules_view modules.now) (row_view around.now) (row_view row.now) name.now) }
{
    let Some(found) = typedef_meant(alloc, modules, around, name)? else {
        return Ok(None);
    };
    let rows = rows_of(alloc, modules, found.0, found.1)?;
    of_rows(alloc, row, name, &rows)
}

fn stands_twice(alloc: Global, word: &str, name: &str) -> Result<String, AllocError>
    ensures { IfOk result (λ said. string_bytes said ≡ spec.stands_twice word.now name.now) }
{
    let given = quoted(alloc, word, name)?;
    ["the ", given.as_str(), " stands twice."].concat(alloc)
}

/// The first of some texts that comes again.
fn first_twice<'a>(texts: &[&'a str]) -> Option<&'a str>
    ensures { option_map (λ t. t.now) result ≡ spec.first_twice (map (λ t. t.now) texts.now) }
{
    for place in 0..texts.len() {
        if is_among(&texts[place + 1..], texts[place]) {
            return Some(texts[place]);
        }
    }
    None
}

/// What is said of a row that gives a name twice by a keyword.
fn of_names(alloc: Global, word: &str, row: &[Stmt]) -> Result<Option<String>, AllocError>
    ensures { IfOk result (λ said. option_map string_bytes said ≡ spec.of_names word.now (row_view row.now)) }
{
    let names = arguments_called(alloc, word, row)?;
    match first_twice(&names) {
        Some(name) => Ok(Some(stands_twice(alloc, word, name)?)),
        None => Ok(None),
    }
}

fn of_doubles(alloc: Global, row: &[Stmt]) -> Result<Option<String>, AllocError>
    ensures { IfOk result (λ said. option_map string_bytes said ≡ spec.of_doubles (row_view row.now)) }
{
    match of_names(alloc, "enum", row)? {
        Some(said) => Ok(Some(said)),
        None => of_names(alloc, "bit", row),
    }
}

#[tactic(auto, unfolding(crate::specs::Restrictions::of_name))]
fn of_name(
    alloc: Global,
    modules: &[Module],
    around: &[Stmt],
    row: &[Stmt],
    name: Option<&str>,
) -> Result<Option<String>, AllocError>
    ensures { IfOk result (λ said. option_map string_bytes said ≡ option_and_then (spec.of_name
        (modules_view modules.now) (row_view around.now) (row_view row.now)) (option_map (λ n. n.now) name.entry)) }
{
    let Some(name) = name else {
        return Ok(None);
    };
    if is_among(built_in_names(), name) {
        of_built_in(alloc, name, row)
    } else {
        of_derived(alloc, modules, around, row, name)
    }
}

fn of_type(
    alloc: Global,
    modules: &[Module],
    around: &[Stmt],
    statement: &Stmt,
) -> Result<Option<String>, AllocError>
    ensures { IfOk result (λ said. option_map string_bytes said ≡ spec.of_type (modules_view modules.now)
        (row_view around.now) (view statement.now).0 (view statement.now).1) }
{
    match of_name(
        alloc,
        modules,
        around,
        statement.substatements(),
        statement.argument(),
    )? {
        Some(said) => Ok(Some(said)),
        None => of_doubles(alloc, statement.substatements()),
    }
}

#[tactic(auto, unfolding(crate::specs::Restrictions::of_entry))]
fn of_statement(
    alloc: Global,
    line: u32,
    modules: &[Module],
    around: &[Stmt],
    statement: &Stmt,
) -> Result<Option<String>, AllocError>
    ensures { IfOk result (λ said. option_map string_bytes said ≡ spec.of_entry line
        (modules_view modules.now) (row_view around.now) (view statement.now)) }
{
    if statement.line() == line && is_word("type", statement) {
        of_type(alloc, modules, around, statement)
    } else {
        Ok(None)
    }
}

fn of_statements(
    alloc: Global,
    line: u32,
    modules: &[Module],
    around: &[Stmt],
    statements: &[&Stmt],
) -> Result<String, AllocError>
    ensures { IfOk result (λ said. string_bytes said ≡ spec.of_entries line
        (modules_view modules.now) (row_view around.now) (map (λ s. view s.now) statements.now)) }
{
    for statement in statements {
        if let Some(said) = of_statement(alloc, line, modules, around, *statement)? {
            return Ok(said);
        }
    }
    Ok(String::new(alloc))
}

/// What is said of a line of a module of a set in which a type is restricted wrongly.
#[tactic(auto, unfolding(crate::specs::Restrictions::of_line))]
pub fn restriction_sentence(
    alloc: Global,
    line: u32,
    modules: &[Module],
    of: &Module,
) -> Result<String, AllocError>
    ensures { IfOk result (λ said. string_bytes said
        ≡ spec.of_line line (modules_view modules.now) (modules_view (of.now ∷ []))) }
{
    let statements = all_statements(alloc, of.top.substatements())?;
    of_statements(alloc, line, modules, of.top.substatements(), &statements)
}
