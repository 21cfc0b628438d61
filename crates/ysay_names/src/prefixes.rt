//! What is said of the statements of a line in which a prefix isn't declared, or is given twice.

ghost use Rattle.std.specs.Prelude.{◌≡◌, ◌++◌, ◌∷◌, [], find, map, not, option_map, string_bytes, IfOk, OnOk, Some, None};
ghost use Rattle.std.specs.List.{slice_split};
ghost use Rattle.std.specs.Option.{option_map_or};
ghost use Rattle.ytext.specs.View.{modules_view, row_view, view};
ghost use Rattle.ysay_text.specs.Labels.{label, labels};
ghost use Rattle.ysay_text.specs.Near.{nearest};
ghost use Rattle.ysay_names.specs.Prefixes as spec;

use crate::rows::{add_called, add_in_line, add_row_called, is_word};
use std::alloc::{AllocError, Global};
use ysay_text::{nearest, shown};
use ytext::{Module, Stmt, offset_of, parts_around};

/// The statements whose arguments name something.
const NAMING_WORDS: &[&str] = &[
    "type",
    "uses",
    "base",
    "path",
    "augment",
    "refine",
    "key",
    "unique",
    "if-feature",
];

/// Adds the prefix that a statement gives, or those that an import does.
fn add_prefixes_at<'a>(statement: &'a Stmt, prefixes: &mut Vec<&'a str>) -> Result<(), AllocError>
    ensures { OnOk result (map (λ t. t.now) prefixes.new.items
        ≡ map (λ t. t.now) prefixes.old.items ++ spec.prefixes_at (view statement.now).0 (view statement.now).1) }
{
    add_called("prefix", statement, prefixes)?;
    if is_word("import", statement) {
        add_row_called("prefix", statement.substatements(), prefixes)
    } else {
        Ok(())
    }
}

/// The prefixes that a module declares, by what stands right below it.
fn prefixes_of<'a>(alloc: Global, row: &'a [Stmt]) -> Result<Vec<&'a str>, AllocError>
    ensures { IfOk result (λ prefixes. map (λ t. t.now) prefixes.items ≡ spec.prefixes_of (row_view row.entry.now)) }
{
    let mut prefixes = Vec::new(alloc);
    for statement in row {
        add_prefixes_at(statement, &mut prefixes)?;
    }
    Ok(prefixes)
}

/// Whether a text is among others.
pub fn is_among(names: &[&str], text: &str) -> bool
    ensures { result ≡ spec.is_among (map (λ n. n.now) names.now) text.now }
{
    for name in names {
        if *name == text {
            return true;
        }
    }
    false
}

/// The prefix of a name, where it has one that isn't among others.
fn unknown_prefix<'a>(declared: &[&str], name: &'a str) -> Option<&'a str>
    ensures { option_map (λ p. p.now) result
        ≡ find (λ p. not (spec.is_among (map (λ n. n.now) declared.now) p)) (spec.prefix_of name.entry.now) }
{
    let colon = offset_of(name.as_bytes(), b':')?;
    let prefix = parts_around(name, colon).0;
    if is_among(declared, prefix) {
        None
    } else {
        Some(prefix)
    }
}

fn names_of<'a>(alloc: Global, path: &'a str) -> Result<Vec<&'a str>, AllocError>
    ensures { IfOk result (λ names. map (λ t. t.now) names.items ≡ slice_split spec.is_slash path.entry.now) }
{
    path.split('/').collect(alloc)
}

/// The first prefix of some names that isn't among others.
fn unknown_among<'a>(declared: &[&str], names: &[&'a str]) -> Option<&'a str>
    ensures { option_map (λ p. p.now) result
        ≡ spec.unknown_among (map (λ n. n.now) declared.now) (spec.prefixes_among (map (λ n. n.now) names.now)) }
{
    for name in names {
        if let Some(prefix) = unknown_prefix(declared, *name) {
            return Some(prefix);
        }
    }
    None
}

fn naming_words() -> &'static [&'static str]
    ensures { map (λ w. w.now) result.now ≡ spec.naming_words }
{
    NAMING_WORDS
}

/// Whether the argument of a statement names something.
fn names_something(statement: &Stmt) -> bool
    ensures { result ≡ spec.names_something (label statement.now) }
{
    is_among(naming_words(), statement.keyword())
}

fn unknown_used<'a>(
    alloc: Global,
    declared: &[&str],
    argument: Option<&'a str>,
) -> Result<Option<&'a str>, AllocError>
    ensures { IfOk result (λ found. option_map (λ p. p.now) found ≡ option_map_or
        (λ t. spec.unknown_among (map (λ n. n.now) declared.now) (spec.prefixes_used t)) (option_map (λ t. t.now) argument.entry) None) }
{
    match argument {
        Some(path) => {
            let names = names_of(alloc, path)?;
            Ok(unknown_among(declared, &names))
        }
        None => Ok(None),
    }
}

/// The first prefix in the argument of a statement that isn't declared.
fn unknown_in<'a>(
    alloc: Global,
    declared: &[&str],
    statement: &'a Stmt,
) -> Result<Option<&'a str>, AllocError>
    ensures { IfOk result (λ found. option_map (λ p. p.now) found
        ≡ spec.unknown_in (map (λ n. n.now) declared.now) (label statement.entry.now)) }
{
    if names_something(statement) {
        unknown_used(alloc, declared, statement.argument())
    } else {
        Ok(None)
    }
}

fn first_unknown<'a>(
    alloc: Global,
    declared: &[&str],
    statements: &[&'a Stmt],
) -> Result<Option<&'a str>, AllocError>
    ensures { IfOk result (λ found. option_map (λ p. p.now) found
        ≡ spec.first_unknown (map (λ n. n.now) declared.now) (labels statements.now)) }
{
    for statement in statements {
        if let Some(prefix) = unknown_in(alloc, declared, *statement)? {
            return Ok(Some(prefix));
        }
    }
    Ok(None)
}

fn undeclared(alloc: Global, prefix: &str, near: Option<&str>) -> Result<String, AllocError>
    ensures { IfOk result (λ text. string_bytes text
        ≡ spec.undeclared prefix.now (option_map (λ n. n.now) near.entry)) }
{
    let seen = shown(alloc, prefix.as_bytes())?;
    match near {
        Some(near) => [
            "no import declares the prefix ",
            seen.as_str(),
            "; near it: ",
            near,
            ".",
        ]
        .concat(alloc),
        None => ["no import declares the prefix ", seen.as_str(), "."].concat(alloc),
    }
}

fn twice(alloc: Global, prefixes: &[&str]) -> Result<String, AllocError>
    ensures { IfOk result (λ text. string_bytes text ≡ spec.twice (map (λ p. p.now) prefixes.now)) }
{
    match prefixes.split_first() {
        Some((prefix, others)) => {
            let seen = shown(alloc, prefix.as_bytes())?;
            ["the prefix ", seen.as_str(), " is given twice."].concat(alloc)
        }
        None => Ok(String::new(alloc)),
    }
}

/// The prefixes that some statements give.
fn prefixes_given<'a>(alloc: Global, statements: &[&'a Stmt]) -> Result<Vec<&'a str>, AllocError>
    ensures { IfOk result (λ prefixes. map (λ t. t.now) prefixes.items ≡ spec.prefixes_given (labels statements.now)) }
{
    let mut prefixes = Vec::new(alloc);
    for statement in statements {
        add_called("prefix", *statement, &mut prefixes)?;
    }
    Ok(prefixes)
}

fn of_statements(
    alloc: Global,
    declared: &[&str],
    statements: &[&Stmt],
) -> Result<String, AllocError>
    ensures { IfOk result (λ text. string_bytes text
        ≡ spec.of_statements (map (λ n. n.now) declared.now) (labels statements.now)) }
{
    match first_unknown(alloc, declared, statements)? {
        Some(prefix) => undeclared(alloc, prefix, nearest(prefix, declared)),
        None => {
            let given = prefixes_given(alloc, statements)?;
            twice(alloc, &given)
        }
    }
}

/// What is said of a line of a module in which a prefix isn't declared, or is given twice.
#[tactic(auto, unfolding(crate::specs::Prefixes::of_line))]
pub fn prefix_sentence(alloc: Global, line: u32, of: &Module) -> Result<String, AllocError>
    ensures { IfOk result (λ text. string_bytes text ≡ spec.of_line line (modules_view (of.now ∷ []))) }
{
    let declared = prefixes_of(alloc, of.top.substatements())?;
    let mut found = Vec::new(alloc);
    add_in_line(line, &of.top, &mut found)?;
    of_statements(alloc, &declared, &found)
}
