//! What is said of the first condition of a line that names no feature, or that leads back to the feature in which it stands.

ghost use Rattle.std.specs.Prelude.{◌≡◌, ◌++◌, ◌∷◌, [], IfOk, OnOk, map, option_map, string_bytes, take};
ghost use Rattle.std.specs.List.{flat_map};
ghost use Rattle.std.specs.Option.{option_map_or};
ghost use Rattle.ytext.specs.View.{modules_view, row_view, view};
ghost use Rattle.ylink_arguments.specs.NameView.{name_view, names_view};
ghost use Rattle.ysay_text.specs.Labels.{label};
ghost use Rattle.ysay_circles.specs.Circles.{width};
ghost use Rattle.ysay_circles.specs.WayView.{edges_view};
ghost use Rattle.ysay_circles.specs.Conditions as spec;

use crate::circles::{Edge, Kind, WIDTH, of_edges};
use std::alloc::{AllocError, Global};
use ylink_arguments::Name;
use ylink_conditions::{YangVersion, expression_of};
use ysay_names::{all_statements, arguments_called, is_among, is_word, module_meant, with_prefix};
use ysay_text::{nearest, shown};
use ytext::{Module, Stmt};

/// Adds the names in a condition.
fn add_asked<'a>(alloc: Global, text: &'a str, names: &mut Vec<Name<'a>>) -> Result<(), AllocError>
    ensures { OnOk result (names_view names.new.items
        ≡ names_view names.old.items ++ spec.names_asked text.now) }
{
    match expression_of(alloc, YangVersion::Yang1_1, text)? {
        Some(expression) => expression.add_names(names),
        None => Ok(()),
    }
}

fn add_argument_asked<'a>(
    alloc: Global,
    argument: Option<&'a str>,
    names: &mut Vec<Name<'a>>,
) -> Result<(), AllocError>
    ensures { OnOk result (names_view names.new.items ≡ names_view names.old.items
        ++ option_map_or spec.names_asked (option_map (λ t. t.now) argument.entry) []) }
{
    match argument {
        Some(text) => add_asked(alloc, text, names),
        None => Ok(()),
    }
}

/// Adds the names in a statement, where it is a condition.
fn add_names_at<'a>(
    alloc: Global,
    statement: &'a Stmt,
    names: &mut Vec<Name<'a>>,
) -> Result<(), AllocError>
    ensures { OnOk result (names_view names.new.items
        ≡ names_view names.old.items ++ spec.names_at (label statement.now)) }
{
    if is_word("if-feature", statement) {
        add_argument_asked(alloc, statement.argument(), names)
    } else {
        Ok(())
    }
}

fn missing_text(alloc: Global, name: &str, near: Option<&str>) -> Result<String, AllocError>
    ensures { IfOk result (λ text. string_bytes text
        ≡ spec.missing_text name.now (option_map (λ t. t.now) near.entry)) }
{
    let seen = shown(alloc, name.as_bytes())?;
    match near {
        Some(near) => [
            "no feature is called ",
            seen.as_str(),
            "; near it: ",
            near,
            ".",
        ]
        .concat(alloc),
        None => ["no feature is called ", seen.as_str(), "."].concat(alloc),
    }
}

/// What is said of a name that isn't among some, with the nearest of them.
fn missing(alloc: Global, name: Name<'_>, features: &[&str]) -> Result<String, AllocError>
    ensures { IfOk result (λ text. string_bytes text
        ≡ spec.missing (name_view name.entry) (map (λ t. t.now) features.now)) }
{
    let whole = with_prefix(alloc, name.prefix, name.identifier)?;
    match nearest(name.identifier, features) {
        Some(near) => {
            let other = with_prefix(alloc, name.prefix, near)?;
            missing_text(alloc, whole.as_str(), Some(other.as_str()))
        }
        None => missing_text(alloc, whole.as_str(), None),
    }
}

/// What is said of a name of a module, by what stands right below it.
fn unless_defined(alloc: Global, name: Name<'_>, row: &[Stmt]) -> Result<Option<String>, AllocError>
    ensures { IfOk result (λ text. option_map string_bytes text
        ≡ spec.unless_defined (name_view name.entry) (row_view row.now)) }
{
    let features = arguments_called(alloc, "feature", row)?;
    if is_among(&features, name.identifier) {
        Ok(None)
    } else {
        Ok(Some(missing(alloc, name, &features)?))
    }
}

fn of_name(
    alloc: Global,
    modules: &[Module],
    row: &[Stmt],
    name: Name<'_>,
) -> Result<Option<String>, AllocError>
    ensures { IfOk result (λ text. option_map string_bytes text
        ≡ spec.of_name (modules_view modules.now) (row_view row.now) (name_view name.entry)) }
{
    match module_meant(alloc, modules, row, name.prefix)? {
        Some(meant) => unless_defined(alloc, name, meant),
        None => Ok(None),
    }
}

fn of_names(
    alloc: Global,
    modules: &[Module],
    row: &[Stmt],
    names: &[Name<'_>],
) -> Result<Option<String>, AllocError>
    ensures { IfOk result (λ text. option_map string_bytes text
        ≡ spec.of_names (modules_view modules.now) (row_view row.now) (names_view names.now)) }
{
    for name in names {
        if let Some(said) = of_name(alloc, modules, row, *name)? {
            return Ok(Some(said));
        }
    }
    Ok(None)
}

/// Whether a name is of the module itself: without a prefix, or with one of these.
fn is_own(own: &[&str], name: Name<'_>) -> bool
    ensures { result ≡ spec.is_own (map (λ t. t.now) own.now) (name_view name.entry) }
{
    match name.prefix {
        Some(prefix) => is_among(own, prefix),
        None => true,
    }
}

fn add_edge<'a>(
    own: &[&str],
    feature: &'a str,
    statement: &'a Stmt,
    name: Name<'a>,
    found: &mut Vec<Edge<'a>>,
) -> Result<(), AllocError>
    ensures { OnOk result (edges_view found.new.items ≡ edges_view found.old.items
        ++ spec.edge_to (map (λ t. t.now) own.now) feature.now (label statement.now) (name_view name.entry)) }
{
    if is_own(own, name) {
        found.push(Edge {
            source: feature,
            line: statement.line(),
            target: name.identifier,
        })?;
    }
    Ok(())
}

fn add_edges_to<'a>(
    own: &[&str],
    feature: &'a str,
    statement: &'a Stmt,
    names: &[Name<'a>],
    found: &mut Vec<Edge<'a>>,
) -> Result<(), AllocError>
    ensures { OnOk result (edges_view found.new.items ≡ edges_view found.old.items
        ++ flat_map (spec.edge_to (map (λ t. t.now) own.now) feature.now (label statement.now)) (names_view names.now)) }
{
    for name in names {
        add_edge(own, feature, statement, *name, found)?;
    }
    Ok(())
}

/// Adds what a statement of a feature refers to.
fn add_edges_at<'a>(
    alloc: Global,
    own: &[&str],
    feature: &'a str,
    statement: &'a Stmt,
    found: &mut Vec<Edge<'a>>,
) -> Result<(), AllocError>
    ensures { OnOk result (edges_view found.new.items ≡ edges_view found.old.items
        ++ spec.edges_at (map (λ t. t.now) own.now) feature.now (label statement.now)) }
{
    let mut names = Vec::new(alloc);
    add_names_at(alloc, statement, &mut names)?;
    add_edges_to(own, feature, statement, &names, found)
}

fn add_edges_below<'a>(
    alloc: Global,
    own: &[&str],
    feature: &'a str,
    row: &'a [Stmt],
    found: &mut Vec<Edge<'a>>,
) -> Result<(), AllocError>
    ensures { OnOk result (edges_view found.new.items ≡ edges_view found.old.items
        ++ spec.edges_below (map (λ t. t.now) own.now) feature.now (row_view row.now)) }
{
    for statement in row {
        add_edges_at(alloc, own, feature, statement, found)?;
    }
    Ok(())
}

/// Adds what a statement refers to, where it is a feature.
fn add_edges_of<'a>(
    alloc: Global,
    own: &[&str],
    statement: &'a Stmt,
    found: &mut Vec<Edge<'a>>,
) -> Result<(), AllocError>
    ensures { OnOk result (edges_view found.new.items ≡ edges_view found.old.items
        ++ spec.edges_of (map (λ t. t.now) own.now) (view statement.now).0 (view statement.now).1) }
{
    if !is_word("feature", statement) {
        return Ok(());
    }
    match statement.argument() {
        Some(name) => add_edges_below(alloc, own, name, statement.substatements(), found),
        None => Ok(()),
    }
}

/// What the features of a row refer to.
fn edges_in<'a>(alloc: Global, own: &[&str], row: &'a [Stmt]) -> Result<Vec<Edge<'a>>, AllocError>
    ensures { IfOk result (λ found. edges_view found.items
        ≡ spec.edges_in (map (λ t. t.now) own.now) (row_view row.entry.now)) }
{
    let mut found = Vec::new(alloc);
    for statement in row {
        add_edges_of(alloc, own, statement, &mut found)?;
    }
    Ok(found)
}

/// What is said of the features of a module that lead back to themselves by way of a line.
fn of_circle(alloc: Global, line: u32, row: &[Stmt]) -> Result<Option<String>, AllocError>
    ensures { IfOk result (λ text. option_map string_bytes text ≡ spec.of_circle line (row_view row.now)) }
{
    let own = arguments_called(alloc, "prefix", row)?;
    let edges = edges_in(alloc, &own, row)?;
    of_edges(alloc, Kind::Features, line, &edges, &edges)
}

fn add_names_in_line<'a>(
    alloc: Global,
    line: u32,
    statement: &'a Stmt,
    names: &mut Vec<Name<'a>>,
) -> Result<(), AllocError>
    ensures { OnOk result (names_view names.new.items
        ≡ names_view names.old.items ++ spec.names_in_line line (view statement.now)) }
{
    if statement.line() == line {
        add_names_at(alloc, statement, names)
    } else {
        Ok(())
    }
}

fn names_in<'a>(
    alloc: Global,
    line: u32,
    statements: &[&'a Stmt],
) -> Result<Vec<Name<'a>>, AllocError>
    ensures { IfOk result (λ names. names_view names.items
        ≡ flat_map (spec.names_in_line line) (map (λ s. view s.now) statements.now)) }
{
    let mut names = Vec::new(alloc);
    for statement in statements {
        add_names_in_line(alloc, line, *statement, &mut names)?;
    }
    Ok(names)
}

/// The names in the conditions of a line.
fn asked_in<'a>(alloc: Global, line: u32, row: &'a [Stmt]) -> Result<Vec<Name<'a>>, AllocError>
    ensures { IfOk result (λ names. names_view names.items ≡ spec.asked_in line (row_view row.entry.now)) }
{
    let statements = all_statements(alloc, row)?;
    names_in(alloc, line, &statements)
}

/// The first of them.
fn first_asked<'a>(alloc: Global, line: u32, row: &'a [Stmt]) -> Result<Vec<Name<'a>>, AllocError>
    ensures { IfOk result (λ names. names_view names.items ≡ take width (spec.asked_in line (row_view row.entry.now))) }
{
    let mut names = asked_in(alloc, line, row)?;
    names.truncate(WIDTH);
    Ok(names)
}

/// What is said of the first name in a condition of a line that is none of a feature.
fn of_asked(
    alloc: Global,
    line: u32,
    modules: &[Module],
    row: &[Stmt],
) -> Result<Option<String>, AllocError>
    ensures { IfOk result (λ text. option_map string_bytes text
        ≡ spec.of_asked line (modules_view modules.now) (row_view row.now)) }
{
    let names = first_asked(alloc, line, row)?;
    of_names(alloc, modules, row, &names)
}

/// What is said of a line of a module of a set in which a condition names no feature, or leads back to its own.
#[tactic(auto, unfolding(crate::specs::Conditions::of_line))]
pub fn condition_sentence(
    alloc: Global,
    line: u32,
    modules: &[Module],
    of: &Module,
) -> Result<String, AllocError>
    ensures { IfOk result (λ text. string_bytes text
        ≡ spec.of_line line (modules_view modules.now) (modules_view (of.now ∷ []))) }
{
    if let Some(said) = of_asked(alloc, line, modules, of.top.substatements())? {
        return Ok(said);
    }
    match of_circle(alloc, line, of.top.substatements())? {
        Some(said) => Ok(said),
        None => Ok(String::new(alloc)),
    }
}
