//! The types from which the type of a node is derived, by the texts of modules.

ghost use Rattle.std.specs.Prelude.{◌≡◌, IfOk, map, option_and_then, option_map};
ghost use Rattle.ytext.specs.View.{modules_view, row_view, view};
ghost use Rattle.ysay_types.specs.Chain as spec;

use std::alloc::{AllocError, Global};
use ysay_names::{
    all_statements, arguments_called, built_in_names, is_among, is_word, module_meant, name_given,
    only_called, prefix_given,
};
use ytext::{Module, Stmt};

/// The first statement of a row with a keyword.
fn first_called<'a>(word: &str, row: &'a [Stmt]) -> Option<&'a Stmt>
    ensures { option_map (λ s. view s.now) result ≡ spec.first_called word.now (row_view row.entry.now) }
{
    for statement in row {
        if is_word(word, statement) {
            return Some(statement);
        }
    }
    None
}

pub(crate) fn first_argument<'a>(word: &str, row: &'a [Stmt]) -> Option<&'a str>
    ensures { option_map (λ t. t.now) result ≡ spec.first_argument word.now (row_view row.entry.now) }
{
    match first_called(word, row) {
        Some(statement) => statement.argument(),
        None => None,
    }
}

/// What the `type` of a row names.
pub(crate) fn type_name<'a>(row: &'a [Stmt]) -> Option<&'a str>
    ensures { option_map (λ t. t.now) result ≡ spec.type_name (row_view row.entry.now) }
{
    first_argument("type", row)
}

/// What stands below the `type` of a row.
fn below_type<'a>(row: &'a [Stmt]) -> &'a [Stmt]
    ensures { row_view result.now ≡ spec.below_type (row_view row.entry.now) }
{
    match first_called("type", row) {
        Some(statement) => statement.substatements(),
        None => &[],
    }
}

/// What stands below a typedef, and around it in its module, where it is the only one of its name there.
fn typedef_in<'a>(
    alloc: Global,
    name: &str,
    around: &'a [Stmt],
) -> Result<Option<(&'a [Stmt], &'a [Stmt])>, AllocError>
    ensures { IfOk result (λ found. option_map (λ d. (row_view d.0.now, row_view d.1.now)) found
        ≡ spec.typedef_in name.now (row_view around.entry.now)) }
{
    let statements = all_statements(alloc, around)?;
    match only_called("typedef", name, &statements) {
        Some(statement) => Ok(Some((statement.substatements(), around))),
        None => Ok(None),
    }
}

pub(crate) fn typedef_meant<'a>(
    alloc: Global,
    modules: &'a [Module],
    around: &'a [Stmt],
    name: &str,
) -> Result<Option<(&'a [Stmt], &'a [Stmt])>, AllocError>
    ensures { IfOk result (λ found. option_map (λ d. (row_view d.0.now, row_view d.1.now)) found
        ≡ spec.typedef_meant (modules_view modules.entry.now) (row_view around.entry.now) name.now) }
{
    if is_among(built_in_names(), name) {
        return Ok(None);
    }
    match module_meant(alloc, modules, around, prefix_given(name))? {
        Some(meant) => typedef_in(alloc, name_given(name), meant),
        None => Ok(None),
    }
}

/// The typedef that the `type` of a row names.
fn next<'a>(
    alloc: Global,
    modules: &'a [Module],
    row: &'a [Stmt],
    around: &'a [Stmt],
) -> Result<Option<(&'a [Stmt], &'a [Stmt])>, AllocError>
    ensures { IfOk result (λ found. option_map (λ d. (row_view d.0.now, row_view d.1.now)) found ≡ option_and_then
        (spec.typedef_meant (modules_view modules.entry.now) (row_view around.entry.now)) (spec.type_name (row_view row.entry.now))) }
{
    match type_name(row) {
        Some(name) => typedef_meant(alloc, modules, around, name),
        None => Ok(None),
    }
}

/// So many types are followed.
const LEVELS: &[u8] = &[1, 2, 3, 4, 5, 6, 7, 8];

fn levels() -> &'static [u8]
    ensures { result.now ≡ spec.levels }
{
    LEVELS
}

/// What stands below a node, the typedef that its type names, the one that this one's type names, and so on.
fn rows_from<'a>(
    alloc: Global,
    levels: &[u8],
    modules: &'a [Module],
    row: &'a [Stmt],
    around: &'a [Stmt],
) -> Result<Vec<&'a [Stmt]>, AllocError>
    ensures { IfOk result (λ rows. map (λ r. row_view r.now) rows.items ≡ spec.rows_from levels.now
        (modules_view modules.entry.now) (row_view row.entry.now, row_view around.entry.now)) }
{
    let mut rows = Vec::new(alloc);
    let mut below = row;
    let mut outside = around;
    for _level in levels {
        rows.push(below)?;
        match next(alloc, modules, below, outside)? {
            Some(found) => {
                below = found.0;
                outside = found.1;
            }
            None => return Ok(rows),
        }
    }
    Ok(rows)
}

pub(crate) fn rows_of<'a>(
    alloc: Global,
    modules: &'a [Module],
    row: &'a [Stmt],
    around: &'a [Stmt],
) -> Result<Vec<&'a [Stmt]>, AllocError>
    ensures { IfOk result (λ rows. map (λ r. row_view r.now) rows.items ≡ spec.rows_from spec.levels
        (modules_view modules.entry.now) (row_view row.entry.now, row_view around.entry.now)) }
{
    rows_from(alloc, levels(), modules, row, around)
}

fn built_in_of<'a>(row: &'a [Stmt]) -> Option<&'a str>
    ensures { option_map (λ t. t.now) result ≡ spec.built_in_of (row_view row.entry.now) }
{
    let name = type_name(row)?;
    if is_among(built_in_names(), name) {
        Some(name)
    } else {
        None
    }
}

/// The built-in type with which the way ends.
pub(crate) fn base_of<'a>(rows: &[&'a [Stmt]]) -> Option<&'a str>
    ensures { option_map (λ t. t.now) result ≡ spec.base_of (map (λ r. row_view r.now) rows.now) }
{
    for row in rows {
        if let Some(name) = built_in_of(*row) {
            return Some(name);
        }
    }
    None
}

fn own_defaults<'a>(alloc: Global, row: &'a [Stmt]) -> Result<Vec<&'a str>, AllocError>
    ensures { IfOk result (λ texts. map (λ t. t.now) texts.items ≡ spec.own_defaults (row_view row.entry.now)) }
{
    arguments_called(alloc, "default", row)
}

/// The defaults that are stated first.
pub(crate) fn defaults_of<'a>(
    alloc: Global,
    rows: &[&'a [Stmt]],
) -> Result<Vec<&'a str>, AllocError>
    ensures { IfOk result (λ texts. map (λ t. t.now) texts.items ≡ spec.defaults_of (map (λ r. row_view r.now) rows.now)) }
{
    for row in rows {
        let texts = own_defaults(alloc, *row)?;
        if !texts.is_empty() {
            return Ok(texts);
        }
    }
    Ok(Vec::new(alloc))
}

/// The enums that are stated first.
pub(crate) fn enums_of<'a>(alloc: Global, rows: &[&'a [Stmt]]) -> Result<Vec<&'a str>, AllocError>
    ensures { IfOk result (λ texts. map (λ t. t.now) texts.items ≡ spec.enums_of (map (λ r. row_view r.now) rows.now)) }
{
    for row in rows {
        let texts = arguments_called(alloc, "enum", below_type(*row))?;
        if !texts.is_empty() {
            return Ok(texts);
        }
    }
    Ok(Vec::new(alloc))
}

/// The range that is stated first.
pub(crate) fn range_of<'a>(rows: &[&'a [Stmt]]) -> Option<&'a str>
    ensures { option_map (λ t. t.now) result ≡ spec.range_of (map (λ r. row_view r.now) rows.now) }
{
    for row in rows {
        if let Some(range) = first_argument("range", below_type(*row)) {
            return Some(range);
        }
    }
    None
}
