//! What is said of the first leaf, leaf-list or choice of a line whose default isn't taken.

ghost use Rattle.std.specs.Prelude.{◌≡◌, ◌∷◌, [], IfOk, map, option_and_then, option_map, string_bytes};
ghost use Rattle.ytext.specs.View.{modules_view, row_view, view};
ghost use Rattle.ytype_numbers.specs.Words.{IsNarrow};
ghost use Rattle.ysay_text.specs.Labels.{label};
ghost use Rattle.ysay_types.specs.BuiltIns.{whole_numbers};
ghost use Rattle.ysay_types.specs.Chain as chain;
ghost use Rattle.ysay_types.specs.Defaults as spec;

use crate::built_ins::whole_numbers;
use crate::chain::{base_of, defaults_of, enums_of, first_argument, range_of, rows_of, type_name};
use crate::quoting::quoted;
use crate::restrictions::takes_text;
use crate::sets::is_taken;
use std::alloc::{AllocError, Global};
use ysay_names::{all_statements, children, is_among, is_word};
use ysay_text::{nearest, shown};
use ytext::{Module, Stmt};
use ytype_numbers::Part;

fn default_text(alloc: Global, text: &str) -> Result<String, AllocError>
    ensures { IfOk result (λ said. string_bytes said ≡ spec.default_text text.now) }
{
    quoted(alloc, "default", text)
}

fn near_text(alloc: Global, near: Option<&str>) -> Result<String, AllocError>
    ensures { IfOk result (λ said. string_bytes said ≡ spec.near_text (option_map (λ n. n.now) near.entry)) }
{
    match near {
        Some(near) => ["; near it: ", near, "."].concat(alloc),
        None => String::from_str(alloc, "."),
    }
}

/// What is said of a default that is none of the enums of a type.
fn of_enums(
    alloc: Global,
    name: &str,
    text: &str,
    enums: &[&str],
) -> Result<Option<String>, AllocError>
    ensures { IfOk result (λ said. option_map string_bytes said
        ≡ spec.of_enums name.now text.now (map (λ e. e.now) enums.now)) }
{
    if is_among(enums, text) {
        return Ok(None);
    }
    let front = default_text(alloc, text)?;
    let seen = shown(alloc, name.as_bytes())?;
    let near = near_text(alloc, nearest(text, enums))?;
    Ok(Some([
        front.as_str(),
        " isn't among the enums of ",
        seen.as_str(),
        near.as_str(),
    ]
    .concat(alloc)?))
}

fn is_flag(text: &str) -> bool
    ensures { result ≡ spec.is_flag text.now }
{
    text == "true" || text == "false"
}

fn of_flag(alloc: Global, text: &str) -> Result<Option<String>, AllocError>
    ensures { IfOk result (λ said. option_map string_bytes said ≡ spec.of_flag text.now) }
{
    if is_flag(text) {
        return Ok(None);
    }
    let front = default_text(alloc, text)?;
    Ok(Some([front.as_str(), " is neither true nor false."].concat(alloc)?))
}

fn base_text(alloc: Global, name: &str, base: &str) -> Result<String, AllocError>
    ensures { IfOk result (λ said. string_bytes said ≡ spec.base_text name.now base.now) }
{
    if name == base {
        Ok(String::new(alloc))
    } else {
        [", derived from ", base].concat(alloc)
    }
}

fn range_text(alloc: Global, numbers: &Part, range: Option<&str>) -> Result<String, AllocError>
    ensures { IfOk result (λ said. string_bytes said
        ≡ spec.range_text numbers.now (option_map (λ r. r.now) range.entry)) }
{
    match range {
        Some(range) => {
            let given = quoted(alloc, "range", range)?;
            [" with ", given.as_str(), "."].concat(alloc)
        }
        None => takes_text(alloc, numbers),
    }
}

fn type_text(
    alloc: Global,
    name: &str,
    base: &str,
    range: Option<&str>,
    numbers: &Part,
) -> Result<String, AllocError>
    ensures { IfOk result (λ said. string_bytes said ≡ spec.type_text
        name.now base.now (option_map (λ r. r.now) range.entry) numbers.now) }
{
    let seen = shown(alloc, name.as_bytes())?;
    let derived = base_text(alloc, name, base)?;
    let bounds = range_text(alloc, numbers, range)?;
    [
        ": its type is ",
        seen.as_str(),
        derived.as_str(),
        bounds.as_str(),
    ]
    .concat(alloc)
}

fn not_taken(
    alloc: Global,
    name: &str,
    text: &str,
    base: &str,
    range: Option<&str>,
    numbers: &Part,
) -> Result<String, AllocError>
    ensures { IfOk result (λ said. string_bytes said ≡ spec.not_taken
        name.now text.now base.now (option_map (λ r. r.now) range.entry) numbers.now) }
{
    let front = default_text(alloc, text)?;
    let described = type_text(alloc, name, base, range, numbers)?;
    [front.as_str(), described.as_str()].concat(alloc)
}

/// What is said of a default that isn't one of some numbers.
fn of_numbers(
    alloc: Global,
    name: &str,
    text: &str,
    base: &str,
    range: Option<&str>,
    numbers: &Part,
) -> Result<Option<String>, AllocError>
    requires { IsNarrow numbers.now }
    ensures { IfOk result (λ said. option_map string_bytes said ≡ spec.of_integer
        name.now text.now base.now (option_map (λ r. r.now) range.entry) numbers.now) }
{
    if is_taken(alloc, numbers, range, text)? {
        Ok(None)
    } else {
        Ok(Some(not_taken(alloc, name, text, base, range, numbers)?))
    }
}

fn of_integer(
    alloc: Global,
    name: &str,
    text: &str,
    base: &str,
    range: Option<&str>,
) -> Result<Option<String>, AllocError>
    ensures { IfOk result (λ said. option_map string_bytes said ≡ option_and_then
        (spec.of_integer name.now text.now base.now (option_map (λ r. r.now) range.entry)) (whole_numbers base.now)) }
{
    match whole_numbers(base) {
        Some(numbers) => of_numbers(alloc, name, text, base, range, &numbers),
        None => Ok(None),
    }
}

fn of_base(
    alloc: Global,
    rows: &[&[Stmt]],
    name: &str,
    text: &str,
    base: &str,
) -> Result<Option<String>, AllocError>
    ensures { IfOk result (λ said. option_map string_bytes said
        ≡ spec.of_base (map (λ r. row_view r.now) rows.now) name.now text.now base.now) }
{
    match base {
        "enumeration" => {
            let enums = enums_of(alloc, rows)?;
            of_enums(alloc, name, text, &enums)
        }
        "boolean" => of_flag(alloc, text),
        _ => of_integer(alloc, name, text, base, range_of(rows)),
    }
}

/// What is said of the first default that a type doesn't take.
fn of_values(
    alloc: Global,
    rows: &[&[Stmt]],
    name: &str,
    base: &str,
    texts: &[&str],
) -> Result<Option<String>, AllocError>
    ensures { IfOk result (λ said. option_map string_bytes said ≡ spec.of_values
        (map (λ r. row_view r.now) rows.now) name.now base.now (map (λ t. t.now) texts.now)) }
{
    for text in texts {
        if let Some(said) = of_base(alloc, rows, name, *text, base)? {
            return Ok(Some(said));
        }
    }
    Ok(None)
}

fn of_rows(alloc: Global, row: &[Stmt], rows: &[&[Stmt]]) -> Result<Option<String>, AllocError>
    ensures { IfOk result (λ said. option_map string_bytes said
        ≡ spec.of_rows (row_view row.now) (map (λ r. row_view r.now) rows.now)) }
{
    let Some(base) = base_of(rows) else {
        return Ok(None);
    };
    let Some(name) = type_name(row) else {
        return Ok(None);
    };
    let texts = defaults_of(alloc, rows)?;
    of_values(alloc, rows, name, base, &texts)
}

/// What is said of the defaults of a leaf or leaf-list, by its type.
fn of_type(
    alloc: Global,
    modules: &[Module],
    around: &[Stmt],
    row: &[Stmt],
) -> Result<Option<String>, AllocError>
    ensures { IfOk result (λ said. option_map string_bytes said ≡ spec.of_rows (row_view row.now)
        (chain.rows_from chain.levels (modules_view modules.now) (row_view row.now, row_view around.now))) }
{
    let rows = rows_of(alloc, modules, row, around)?;
    of_rows(alloc, row, &rows)
}

fn is_mandatory(row: &[Stmt]) -> bool
    ensures { result ≡ spec.is_mandatory (row_view row.now) }
{
    match first_argument("mandatory", row) {
        Some(text) => text == "true",
        None => false,
    }
}

/// What is said of a default, where `mandatory` stands beside it.
fn beside(alloc: Global, row: &[Stmt]) -> Result<Option<String>, AllocError>
    ensures { IfOk result (λ said. option_map string_bytes said ≡ spec.beside (row_view row.now)) }
{
    let Some(text) = first_argument("default", row) else {
        return Ok(None);
    };
    if !is_mandatory(row) {
        return Ok(None);
    }
    let front = default_text(alloc, text)?;
    Ok(Some([front.as_str(), " stands beside mandatory true."].concat(alloc)?))
}

fn no_case(alloc: Global, text: &str, names: &[&str]) -> Result<Option<String>, AllocError>
    ensures { IfOk result (λ said. option_map string_bytes said
        ≡ spec.no_case text.now (map (λ n. n.now) names.now)) }
{
    if is_among(names, text) {
        return Ok(None);
    }
    let front = default_text(alloc, text)?;
    let near = near_text(alloc, nearest(text, names))?;
    Ok(Some([
        front.as_str(),
        " names no case that stands here",
        near.as_str(),
    ]
    .concat(alloc)?))
}

/// What is said of the default of a choice.
fn of_choice(alloc: Global, row: &[Stmt]) -> Result<Option<String>, AllocError>
    ensures { IfOk result (λ said. option_map string_bytes said ≡ spec.of_choice (row_view row.now)) }
{
    let Some(text) = first_argument("default", row) else {
        return Ok(None);
    };
    let names = children(alloc, row)?;
    no_case(alloc, text, &names)
}

fn has_type(statement: &Stmt) -> bool
    ensures { result ≡ spec.has_type (label statement.now) }
{
    is_word("leaf", statement) || is_word("leaf-list", statement)
}

fn of_typed(
    alloc: Global,
    modules: &[Module],
    around: &[Stmt],
    row: &[Stmt],
) -> Result<Option<String>, AllocError>
    ensures { IfOk result (λ said. option_map string_bytes said ≡ spec.of_typed (modules_view modules.now)
        (row_view around.now) (row_view row.now)) }
{
    match beside(alloc, row)? {
        Some(said) => Ok(Some(said)),
        None => of_type(alloc, modules, around, row),
    }
}

fn of_chosen(alloc: Global, row: &[Stmt]) -> Result<Option<String>, AllocError>
    ensures { IfOk result (λ said. option_map string_bytes said ≡ spec.of_chosen (row_view row.now)) }
{
    match beside(alloc, row)? {
        Some(said) => Ok(Some(said)),
        None => of_choice(alloc, row),
    }
}

fn of_node(
    alloc: Global,
    modules: &[Module],
    around: &[Stmt],
    statement: &Stmt,
) -> Result<Option<String>, AllocError>
    ensures { IfOk result (λ said. option_map string_bytes said ≡ spec.of_node (modules_view modules.now)
        (row_view around.now) (view statement.now)) }
{
    if has_type(statement) {
        of_typed(alloc, modules, around, statement.substatements())
    } else if is_word("choice", statement) {
        of_chosen(alloc, statement.substatements())
    } else {
        Ok(None)
    }
}

fn of_statement(
    alloc: Global,
    line: u32,
    modules: &[Module],
    around: &[Stmt],
    statement: &Stmt,
) -> Result<Option<String>, AllocError>
    ensures { IfOk result (λ said. option_map string_bytes said ≡ spec.of_entry line (modules_view modules.now)
        (row_view around.now) (view statement.now)) }
{
    if statement.line() == line {
        of_node(alloc, modules, around, statement)
    } else {
        Ok(None)
    }
}

fn of_statements(
    alloc: Global,
    line: u32,
    modules: &[Module],
    around: &[Stmt],
    statements: &[&Stmt],
) -> Result<String, AllocError>
    ensures { IfOk result (λ said. string_bytes said ≡ spec.of_entries line (modules_view modules.now)
        (row_view around.now) (map (λ s. view s.now) statements.now)) }
{
    for statement in statements {
        if let Some(said) = of_statement(alloc, line, modules, around, *statement)? {
            return Ok(said);
        }
    }
    Ok(String::new(alloc))
}

/// What is said of a line of a module of a set in which a default isn't taken.
#[tactic(auto, unfolding(crate::specs::Defaults::of_line))]
pub fn default_sentence(
    alloc: Global,
    line: u32,
    modules: &[Module],
    of: &Module,
) -> Result<String, AllocError>
    ensures { IfOk result (λ said. string_bytes said
        ≡ spec.of_line line (modules_view modules.now) (modules_view (of.now ∷ []))) }
{
    let statements = all_statements(alloc, of.top.substatements())?;
    of_statements(alloc, line, modules, of.top.substatements(), &statements)
}
