//! What is said of the statements of a line in which a type, a grouping or an identity isn't found.

ghost use Rattle.std.specs.Prelude.{◌≡◌, ◌∷◌, [], IfOk, map, option_and_then, option_map, string_bytes};
ghost use Rattle.ytext.specs.View.{modules_view, row_view, view};
ghost use Rattle.ysay_text.specs.Labels.{label, labels};
ghost use Rattle.ysay_text.specs.Near as near;
ghost use Rattle.ysay_names.specs.KindView.{kind_view};
ghost use Rattle.ysay_names.specs.Names as spec;
ghost use Rattle.ysay_names.specs.Rows as rows;

use crate::prefixes::is_among;
use crate::rows::{add_all_called, add_in_line, add_row_called, is_named, is_word};
use std::alloc::{AllocError, Global};
use ysay_text::{nearest, shown};
use ytext::{Module, Stmt, offset_of, parts_around};

/// What a statement refers to.
#[derive(Clone, Copy, Debug)]
enum Kind {
    Datatype,
    Grouping,
    Identity,
}

/// The built-in types (RFC 7950, 4.2.4).
const BUILT_IN_NAMES: &[&str] = &[
    "binary",
    "bits",
    "boolean",
    "decimal64",
    "empty",
    "enumeration",
    "identityref",
    "instance-identifier",
    "int8",
    "int16",
    "int32",
    "int64",
    "leafref",
    "string",
    "uint8",
    "uint16",
    "uint32",
    "uint64",
    "union",
];

const NO_NAMES: &[&str] = &[];

/// The names of the built-in types.
pub fn built_in_names() -> &'static [&'static str]
    ensures { map (λ n. n.now) result.now ≡ spec.built_in_names }
{
    BUILT_IN_NAMES
}

fn built_in(kind: Kind) -> &'static [&'static str]
    ensures { map (λ n. n.now) result.now ≡ spec.built_in (kind_view kind) }
{
    match kind {
        Kind::Datatype => built_in_names(),
        Kind::Grouping | Kind::Identity => NO_NAMES,
    }
}

fn kind_of(statement: &Stmt) -> Option<Kind>
    ensures { option_map kind_view result ≡ spec.kind_of (label statement.now) }
{
    if is_word("type", statement) {
        Some(Kind::Datatype)
    } else if is_word("uses", statement) {
        Some(Kind::Grouping)
    } else if is_word("base", statement) {
        Some(Kind::Identity)
    } else {
        None
    }
}

/// The keyword that defines one.
fn defining(kind: Kind) -> &'static str
    ensures { result.now ≡ spec.defining (kind_view kind) }
{
    match kind {
        Kind::Datatype => "typedef",
        Kind::Grouping => "grouping",
        Kind::Identity => "identity",
    }
}

/// What people call it.
fn called(kind: Kind) -> &'static str
    ensures { result.now ≡ spec.called (kind_view kind) }
{
    match kind {
        Kind::Datatype => "type",
        Kind::Grouping => "grouping",
        Kind::Identity => "identity",
    }
}

/// The arguments of the statements of a row that have a keyword.
pub fn arguments_called<'a>(
    alloc: Global,
    word: &str,
    row: &'a [Stmt],
) -> Result<Vec<&'a str>, AllocError>
    ensures { IfOk result (λ texts. map (λ t. t.now) texts.items ≡ rows.arguments_called word.now (row_view row.entry.now)) }
{
    let mut texts = Vec::new(alloc);
    add_row_called(word, row, &mut texts)?;
    Ok(texts)
}

/// Whether a row gives a prefix.
fn gives_prefix(alloc: Global, prefix: &str, row: &[Stmt]) -> Result<bool, AllocError>
    ensures { IfOk result (λ b. b ≡ spec.gives_prefix prefix.now (row_view row.now)) }
{
    let prefixes = arguments_called(alloc, "prefix", row)?;
    Ok(is_among(&prefixes, prefix))
}

/// Whether a statement imports a module under a prefix.
fn imports_as(alloc: Global, prefix: &str, statement: &Stmt) -> Result<bool, AllocError>
    ensures { IfOk result (λ b. b ≡ spec.imports_as prefix.now (view statement.now).0 (view statement.now).1) }
{
    if is_word("import", statement) {
        gives_prefix(alloc, prefix, statement.substatements())
    } else {
        Ok(false)
    }
}

/// The module that an import brings under a prefix.
fn imported_as<'a>(
    alloc: Global,
    prefix: &str,
    row: &'a [Stmt],
) -> Result<Option<&'a str>, AllocError>
    ensures { IfOk result (λ name. option_map (λ n. n.now) name ≡ spec.imported_as prefix.now (row_view row.entry.now)) }
{
    for statement in row {
        if imports_as(alloc, prefix, statement)? {
            return Ok(statement.argument());
        }
    }
    Ok(None)
}

/// What stands below the module of a name.
pub fn module_named<'a>(name: &str, modules: &'a [Module]) -> &'a [Stmt]
    ensures { row_view result.now ≡ spec.module_named name.now (modules_view modules.entry.now) }
{
    for module in modules {
        if is_named(name, &module.top) {
            return module.top.substatements();
        }
    }
    &[]
}

fn module_under<'a>(
    alloc: Global,
    modules: &'a [Module],
    row: &'a [Stmt],
    prefix: &str,
) -> Result<Option<&'a [Stmt]>, AllocError>
    ensures { IfOk result (λ found. option_map (λ r. row_view r.now) found
        ≡ spec.module_under (modules_view modules.entry.now) (row_view row.entry.now) prefix.now) }
{
    if gives_prefix(alloc, prefix, row)? {
        return Ok(Some(row));
    }
    match imported_as(alloc, prefix, row)? {
        Some(name) => Ok(Some(module_named(name, modules))),
        None => Ok(None),
    }
}

/// What stands below the module that a prefix means; the module itself without one.
pub fn module_meant<'a>(
    alloc: Global,
    modules: &'a [Module],
    row: &'a [Stmt],
    prefix: Option<&str>,
) -> Result<Option<&'a [Stmt]>, AllocError>
    ensures { IfOk result (λ found. option_map (λ r. row_view r.now) found ≡ spec.module_meant
        (modules_view modules.entry.now) (row_view row.entry.now) (option_map (λ p. p.now) prefix.entry)) }
{
    match prefix {
        Some(prefix) => module_under(alloc, modules, row, prefix),
        None => Ok(Some(row)),
    }
}

/// The definitions of a kind in a module that is imported, if one is.
fn imported_names<'a>(
    alloc: Global,
    modules: &'a [Module],
    kind: Kind,
    name: Option<&str>,
) -> Result<Vec<&'a str>, AllocError>
    ensures { IfOk result (λ names. map (λ n. n.now) names.items
        ≡ spec.names_imported (modules_view modules.entry.now) (kind_view kind) (option_map (λ n. n.now) name.entry)) }
{
    match name {
        Some(name) => arguments_called(alloc, defining(kind), module_named(name, modules)),
        None => Ok(Vec::new(alloc)),
    }
}

/// The definitions of a kind in a module, at whatever place.
fn own_names<'a>(alloc: Global, kind: Kind, row: &'a [Stmt]) -> Result<Vec<&'a str>, AllocError>
    ensures { IfOk result (λ names. map (λ n. n.now) names.items
        ≡ rows.all_arguments_called (spec.defining (kind_view kind)) (row_view row.entry.now)) }
{
    let mut names = Vec::new(alloc);
    add_all_called(defining(kind), row, &mut names)?;
    Ok(names)
}

/// Those of the module that a prefix means.
fn names_under<'a>(
    alloc: Global,
    modules: &'a [Module],
    row: &'a [Stmt],
    kind: Kind,
    prefix: &str,
) -> Result<Vec<&'a str>, AllocError>
    ensures { IfOk result (λ names. map (λ n. n.now) names.items
        ≡ spec.names_under (modules_view modules.entry.now) (row_view row.entry.now) (kind_view kind) prefix.now) }
{
    if gives_prefix(alloc, prefix, row)? {
        return own_names(alloc, kind, row);
    }
    let name = imported_as(alloc, prefix, row)?;
    imported_names(alloc, modules, kind, name)
}

/// Those of the module itself, and built-in ones.
fn names_here<'a>(alloc: Global, kind: Kind, row: &'a [Stmt]) -> Result<Vec<&'a str>, AllocError>
    ensures { IfOk result (λ names. map (λ n. n.now) names.items
        ≡ spec.names_here (row_view row.entry.now) (kind_view kind)) }
{
    let mut names = Vec::from_slice(alloc, built_in(kind))?;
    add_all_called(defining(kind), row, &mut names)?;
    Ok(names)
}

fn names_for<'a>(
    alloc: Global,
    modules: &'a [Module],
    row: &'a [Stmt],
    kind: Kind,
    prefix: Option<&str>,
) -> Result<Vec<&'a str>, AllocError>
    ensures { IfOk result (λ names. map (λ n. n.now) names.items ≡ spec.names_for (modules_view modules.entry.now)
        (row_view row.entry.now) (kind_view kind) (option_map (λ p. p.now) prefix.entry)) }
{
    match prefix {
        Some(prefix) => names_under(alloc, modules, row, kind, prefix),
        None => names_here(alloc, kind, row),
    }
}

/// The prefix of a name, where it has one.
pub fn prefix_given(name: &str) -> Option<&str>
    ensures { option_map (λ p. p.now) result ≡ spec.prefix_given name.entry.now }
{
    let colon = offset_of(name.as_bytes(), b':')?;
    Some(parts_around(name, colon).0)
}

/// A name without its prefix.
pub fn name_given(name: &str) -> &str
    ensures { result.now ≡ spec.name_given name.entry.now }
{
    match offset_of(name.as_bytes(), b':') {
        Some(colon) => parts_around(name, colon).1,
        None => name,
    }
}

/// A name behind its prefix, where it has one.
pub fn with_prefix(alloc: Global, prefix: Option<&str>, name: &str) -> Result<String, AllocError>
    ensures { IfOk result (λ text. string_bytes text
        ≡ spec.with_prefix (option_map (λ p. p.now) prefix.entry) name.now) }
{
    match prefix {
        Some(prefix) => [prefix, ":", name].concat(alloc),
        None => String::from_str(alloc, name),
    }
}

fn missing_near(alloc: Global, kind: Kind, name: &str, near: &str) -> Result<String, AllocError>
    ensures { IfOk result (λ text. string_bytes text
        ≡ spec.missing_near (kind_view kind) name.now (spec.with_prefix (spec.prefix_given name.now) near.now)) }
{
    let seen = shown(alloc, name.as_bytes())?;
    let near = with_prefix(alloc, prefix_given(name), near)?;
    [
        "no ",
        called(kind),
        " is called ",
        seen.as_str(),
        "; near it: ",
        near.as_str(),
        ".",
    ]
    .concat(alloc)
}

fn missing_far(alloc: Global, kind: Kind, name: &str) -> Result<String, AllocError>
    ensures { IfOk result (λ text. string_bytes text ≡ spec.missing_far (kind_view kind) name.now) }
{
    let seen = shown(alloc, name.as_bytes())?;
    ["no ", called(kind), " is called ", seen.as_str(), "."].concat(alloc)
}

/// What is said of a name that isn't among some.
fn missing(alloc: Global, names: &[&str], kind: Kind, name: &str) -> Result<String, AllocError>
    ensures { IfOk result (λ text. string_bytes text
        ≡ spec.missing (map (λ n. n.now) names.now) (kind_view kind) name.now) }
{
    match nearest(name_given(name), names) {
        Some(near) => missing_near(alloc, kind, name, near),
        None => missing_far(alloc, kind, name),
    }
}

/// What is said of a name, where there is none such.
fn of_name(
    alloc: Global,
    names: &[&str],
    kind: Kind,
    name: &str,
) -> Result<Option<String>, AllocError>
    ensures { IfOk result (λ text. option_map string_bytes text
        ≡ spec.of_name (map (λ n. n.now) names.now) (kind_view kind) name.now) }
{
    if is_among(names, name_given(name)) {
        Ok(None)
    } else {
        Ok(Some(missing(alloc, names, kind, name)?))
    }
}

fn of_argument(
    alloc: Global,
    modules: &[Module],
    row: &[Stmt],
    kind: Kind,
    name: &str,
) -> Result<Option<String>, AllocError>
    ensures { IfOk result (λ text. option_map string_bytes text
        ≡ spec.of_argument (modules_view modules.now) (row_view row.now) (kind_view kind) name.now) }
{
    let names = names_for(alloc, modules, row, kind, prefix_given(name))?;
    of_name(alloc, &names, kind, name)
}

fn of_reference(
    alloc: Global,
    modules: &[Module],
    row: &[Stmt],
    kind: Kind,
    name: Option<&str>,
) -> Result<Option<String>, AllocError>
    ensures { IfOk result (λ text. option_map string_bytes text ≡ option_and_then
        (spec.of_argument (modules_view modules.now) (row_view row.now) (kind_view kind)) (option_map (λ n. n.now) name.entry)) }
{
    match name {
        Some(name) => of_argument(alloc, modules, row, kind, name),
        None => Ok(None),
    }
}

/// What is said of a statement that refers to nothing.
fn of_statement(
    alloc: Global,
    modules: &[Module],
    row: &[Stmt],
    statement: &Stmt,
) -> Result<Option<String>, AllocError>
    ensures { IfOk result (λ text. option_map string_bytes text
        ≡ spec.of_statement (modules_view modules.now) (row_view row.now) (label statement.now)) }
{
    match kind_of(statement) {
        Some(kind) => of_reference(alloc, modules, row, kind, statement.argument()),
        None => Ok(None),
    }
}

/// What is said of the first of several that refers to nothing.
fn of_statements(
    alloc: Global,
    modules: &[Module],
    row: &[Stmt],
    statements: &[&Stmt],
) -> Result<String, AllocError>
    ensures { IfOk result (λ text. string_bytes text
        ≡ spec.of_statements (modules_view modules.now) (row_view row.now) (labels statements.now)) }
{
    for statement in statements {
        if let Some(said) = of_statement(alloc, modules, row, *statement)? {
            return Ok(said);
        }
    }
    Ok(String::new(alloc))
}

/// What is said of a line of a module of a set in which a type, a grouping or an identity isn't found.
#[tactic(auto, unfolding(crate::specs::Names::of_line))]
pub fn name_sentence(
    alloc: Global,
    line: u32,
    modules: &[Module],
    of: &Module,
) -> Result<String, AllocError>
    ensures { IfOk result (λ text. string_bytes text
        ≡ spec.of_line line (modules_view modules.now) (modules_view (of.now ∷ []))) }
{
    let mut found = Vec::new(alloc);
    add_in_line(line, &of.top, &mut found)?;
    of_statements(alloc, modules, of.top.substatements(), &found)
}
