//! What is said of the first import of a line that no module of the set meets.

ghost use Rattle.std.specs.Prelude.{◌≡◌, ◌++◌, ◌∷◌, [], codes, IfOk, OnOk, map, None, option_and_then, option_map, string_bytes};
ghost use Rattle.yspec.specs.linking.Imports as dates;
ghost use Rattle.ytext.specs.View.{modules_view, row_view, view};
ghost use Rattle.ysay_text.specs.Labels.{label};
ghost use Rattle.ysay_names.specs.Rows.{argument_of};
ghost use Rattle.ysay_sets.specs.Imports as spec;

use std::alloc::{AllocError, Global};
use std::cmp::Ordering;
use ysay_names::{all_statements, arguments_called, is_among, is_word, module_named};
use ysay_text::{nearest, shown};
use ytext::{Module, Stmt};

fn add_name<'a>(statement: &'a Stmt, names: &mut Vec<&'a str>) -> Result<(), AllocError>
    ensures { OnOk result (map (λ t. t.now) names.new.items
        ≡ map (λ t. t.now) names.old.items ++ argument_of (label statement.now)) }
{
    if let Some(name) = statement.argument() {
        names.push(name)?;
    }
    Ok(())
}

fn names_of<'a>(alloc: Global, modules: &'a [Module]) -> Result<Vec<&'a str>, AllocError>
    ensures { IfOk result (λ names. map (λ t. t.now) names.items ≡ spec.names_of (modules_view modules.entry.now)) }
{
    let mut names = Vec::new(alloc);
    for module in modules {
        add_name(&module.top, &mut names)?;
    }
    Ok(names)
}

fn absent(alloc: Global, name: &str, near: Option<&str>) -> Result<String, AllocError>
    ensures { IfOk result (λ text. string_bytes text ≡ spec.absent name.now (option_map (λ n. n.now) near.entry)) }
{
    let seen = shown(alloc, name.as_bytes())?;
    match near {
        Some(near) => [
            "no module called ",
            seen.as_str(),
            " is given; near it: ",
            near,
            ".",
        ]
        .concat(alloc),
        None => ["no module called ", seen.as_str(), " is given."].concat(alloc),
    }
}

/// The later of a date so far and another.
fn later<'t>(so_far: Option<&'t str>, date: &'t str) -> &'t str
    ensures { result.now ≡ dates.later (option_map (λ d. d.now) so_far.entry) date.entry.now }
{
    match so_far {
        Some(other) => match other.cmp(date) {
            Ordering::Less => date,
            _ => other,
        },
        None => date,
    }
}

fn newest_among<'t>(texts: &[&'t str]) -> Option<&'t str>
    ensures { option_map (λ d. d.now) result ≡ dates.newest_from None (map (λ d. d.now) texts.now) }
{
    let mut newest = None;
    for text in texts {
        newest = Some(later(newest, *text));
    }
    newest
}

/// The date of the newest revision of a module's row.
fn newest<'a>(alloc: Global, body: &'a [Stmt]) -> Result<Option<&'a str>, AllocError>
    ensures { IfOk result (λ date. option_map (λ d. d.now) date ≡ spec.newest (row_view body.entry.now)) }
{
    let texts = arguments_called(alloc, "revision", body)?;
    Ok(newest_among(&texts))
}

fn newest_text(alloc: Global, name: &str, date: &str) -> Result<String, AllocError>
    ensures { IfOk result (λ text. string_bytes text ≡ spec.newest_text name.now date.now) }
{
    let seen = shown(alloc, name.as_bytes())?;
    let shown_date = shown(alloc, date.as_bytes())?;
    [
        "the newest revision of ",
        seen.as_str(),
        " is ",
        shown_date.as_str(),
        ".",
    ]
    .concat(alloc)
}

fn of_date(
    alloc: Global,
    name: &str,
    wanted: &str,
    found: Option<&str>,
) -> Result<Option<String>, AllocError>
    ensures { IfOk result (λ text. option_map string_bytes text
        ≡ spec.of_date name.now wanted.now (option_map (λ d. d.now) found.entry)) }
{
    match found {
        Some(date) => {
            if date == wanted {
                Ok(None)
            } else {
                Ok(Some(newest_text(alloc, name, date)?))
            }
        }
        None => {
            let seen = shown(alloc, name.as_bytes())?;
            Ok(Some([seen.as_str(), " has no revision."].concat(alloc)?))
        }
    }
}

fn of_dates(
    alloc: Global,
    name: &str,
    body: &[Stmt],
    wanted: &[&str],
) -> Result<Option<String>, AllocError>
    ensures { IfOk result (λ text. option_map string_bytes text
        ≡ spec.of_dates name.now (row_view body.now) (map (λ d. d.now) wanted.now)) }
{
    match wanted.split_first() {
        Some((wanted, _)) => of_date(alloc, name, *wanted, newest(alloc, body)?),
        None => Ok(None),
    }
}

fn of_import(
    alloc: Global,
    modules: &[Module],
    row: &[Stmt],
    name: &str,
) -> Result<Option<String>, AllocError>
    ensures { IfOk result (λ text. option_map string_bytes text
        ≡ spec.of_import (modules_view modules.now) (row_view row.now) name.now) }
{
    let names = names_of(alloc, modules)?;
    if is_among(&names, name) {
        let wanted = arguments_called(alloc, "revision-date", row)?;
        of_dates(alloc, name, module_named(name, modules), &wanted)
    } else {
        Ok(Some(absent(alloc, name, nearest(name, &names))?))
    }
}

fn of_argument(
    alloc: Global,
    modules: &[Module],
    row: &[Stmt],
    name: Option<&str>,
) -> Result<Option<String>, AllocError>
    ensures { IfOk result (λ text. option_map string_bytes text ≡ option_and_then
        (spec.of_import (modules_view modules.now) (row_view row.now)) (option_map (λ n. n.now) name.entry)) }
{
    match name {
        Some(name) => of_import(alloc, modules, row, name),
        None => Ok(None),
    }
}

fn of_statement(
    alloc: Global,
    line: u32,
    modules: &[Module],
    statement: &Stmt,
) -> Result<Option<String>, AllocError>
    ensures { IfOk result (λ text. option_map string_bytes text
        ≡ spec.of_entry line (modules_view modules.now) (view statement.now)) }
{
    if statement.line() == line && is_word("import", statement) {
        of_argument(
            alloc,
            modules,
            statement.substatements(),
            statement.argument(),
        )
    } else {
        Ok(None)
    }
}

fn of_statements(
    alloc: Global,
    line: u32,
    modules: &[Module],
    statements: &[&Stmt],
) -> Result<String, AllocError>
    ensures { IfOk result (λ text. string_bytes text ≡ spec.of_entries line
        (modules_view modules.now) (map (λ s. view s.now) statements.now)) }
{
    for statement in statements {
        if let Some(said) = of_statement(alloc, line, modules, *statement)? {
            return Ok(said);
        }
    }
    Ok(String::new(alloc))
}

/// What is said of a line of a module of a set in which an import isn't met.
#[tactic(auto, unfolding(crate::specs::Imports::of_line))]
pub fn import_sentence(
    alloc: Global,
    line: u32,
    modules: &[Module],
    of: &Module,
) -> Result<String, AllocError>
    ensures { IfOk result (λ text. string_bytes text
        ≡ spec.of_line line (modules_view modules.now) (modules_view (of.now ∷ []))) }
{
    let statements = all_statements(alloc, of.top.substatements())?;
    of_statements(alloc, line, modules, &statements)
}
