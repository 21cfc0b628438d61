//! What is said of the first import, type, uses or base of a line that leads back to what it stands in.

ghost use Rattle.std.specs.Prelude.{◌≡◌, ◌++◌, ◌∷◌, [], IfOk, OnOk, map, option_and_then, option_map, string_bytes};
ghost use Rattle.std.specs.Option.{option_map_or};
ghost use Rattle.ytext.specs.View.{modules_view, row_view, view};
ghost use Rattle.ysay_text.specs.Labels.{label};
ghost use Rattle.ysay_circles.specs.Circles as kind;
ghost use Rattle.ysay_circles.specs.KindView.{kind_view};
ghost use Rattle.ysay_circles.specs.WayView.{edges_view};
ghost use Rattle.ysay_circles.specs.References as spec;

use crate::circles::{Edge, Kind, defining, of_edges};
use std::alloc::{AllocError, Global};
use ysay_names::{arguments_called, is_among, is_word, name_given, prefix_given};
use ytext::{Module, Stmt};

/// The keyword by which one refers to another.
fn referring(kind: Kind) -> &'static str
    ensures { result.now ≡ spec.referring (kind_view kind) }
{
    match kind {
        Kind::Modules => "import",
        Kind::Typedefs => "type",
        Kind::Groupings => "uses",
        Kind::Identities => "base",
        Kind::Features => "if-feature",
    }
}

/// A name that means something of the module itself: without a prefix, or with one of these.
fn own_name<'a>(own: &[&str], name: &'a str) -> Option<&'a str>
    ensures { option_map (λ t. t.now) result ≡ spec.own_name (map (λ t. t.now) own.now) name.entry.now }
{
    match prefix_given(name) {
        Some(prefix) => {
            if is_among(own, prefix) {
                Some(name_given(name))
            } else {
                None
            }
        }
        None => Some(name),
    }
}

/// What a statement refers to in the module itself.
fn target_of<'a>(own: &[&str], statement: &'a Stmt) -> Option<&'a str>
    ensures { option_map (λ t. t.now) result
        ≡ option_and_then (spec.own_name (map (λ t. t.now) own.now)) (label statement.entry.now).argument }
{
    match statement.argument() {
        Some(argument) => own_name(own, argument),
        None => None,
    }
}

fn add_edge_to<'a>(
    name: &'a str,
    statement: &'a Stmt,
    target: Option<&'a str>,
    found: &mut Vec<Edge<'a>>,
) -> Result<(), AllocError>
    ensures { OnOk result (edges_view found.new.items ≡ edges_view found.old.items
        ++ option_map_or (spec.edge_to name.now (label statement.now)) (option_map (λ t. t.now) target.entry) []) }
{
    if let Some(target) = target {
        found.push(Edge {
            source: name,
            line: statement.line(),
            target,
        })?;
    }
    Ok(())
}

/// Adds what a statement of a definition refers to, if it does.
fn add_edge<'a>(
    kind: Kind,
    own: &[&str],
    name: &'a str,
    statement: &'a Stmt,
    found: &mut Vec<Edge<'a>>,
) -> Result<(), AllocError>
    ensures { OnOk result (edges_view found.new.items ≡ edges_view found.old.items
        ++ spec.edges_at (kind_view kind) (map (λ t. t.now) own.now) name.now (label statement.now)) }
{
    if is_word(referring(kind), statement) {
        add_edge_to(name, statement, target_of(own, statement), found)
    } else {
        Ok(())
    }
}

/// Adds what a statement of a definition and those below it refer to; nothing of another definition of its kind.
#[cycle(references)]
fn add_edges<'a>(
    kind: Kind,
    own: &[&str],
    name: &'a str,
    statement: &'a Stmt,
    found: &mut Vec<Edge<'a>>,
) -> Result<(), AllocError>
    ensures { OnOk result (edges_view found.new.items ≡ edges_view found.old.items
        ++ spec.edges_below (kind_view kind) (map (λ t. t.now) own.now) name.now (row_view (statement.now ∷ []))) }
{
    if is_word(defining(kind), statement) {
        Ok(())
    } else {
        add_edge(kind, own, name, statement, found)?;
        add_edges_below(kind, own, name, statement.substatements(), found)
    }
}

#[cycle(references)]
fn add_edges_below<'a>(
    kind: Kind,
    own: &[&str],
    name: &'a str,
    statements: &'a [Stmt],
    found: &mut Vec<Edge<'a>>,
) -> Result<(), AllocError>
    ensures { OnOk result (edges_view found.new.items ≡ edges_view found.old.items
        ++ spec.edges_below (kind_view kind) (map (λ t. t.now) own.now) name.now (row_view statements.now)) }
{
    for statement in statements {
        add_edges(kind, own, name, statement, found)?;
    }
    Ok(())
}

/// Adds what a statement refers to, where it is a definition.
fn add_edges_of<'a>(
    kind: Kind,
    own: &[&str],
    statement: &'a Stmt,
    found: &mut Vec<Edge<'a>>,
) -> Result<(), AllocError>
    ensures { OnOk result (edges_view found.new.items ≡ edges_view found.old.items
        ++ spec.edges_of (kind_view kind) (map (λ t. t.now) own.now) (view statement.now).0 (view statement.now).1) }
{
    if !is_word(defining(kind), statement) {
        return Ok(());
    }
    match statement.argument() {
        Some(name) => add_edges_below(kind, own, name, statement.substatements(), found),
        None => Ok(()),
    }
}

/// The references of the definitions of a row.
fn edges_in<'a>(
    alloc: Global,
    kind: Kind,
    own: &[&str],
    row: &'a [Stmt],
) -> Result<Vec<Edge<'a>>, AllocError>
    ensures { IfOk result (λ found. edges_view found.items
        ≡ spec.edges_in (kind_view kind) (map (λ t. t.now) own.now) (row_view row.entry.now)) }
{
    let mut found = Vec::new(alloc);
    for statement in row {
        add_edges_of(kind, own, statement, &mut found)?;
    }
    Ok(found)
}

/// The imports of some modules.
fn imports_in<'a>(alloc: Global, modules: &'a [Module]) -> Result<Vec<Edge<'a>>, AllocError>
    ensures { IfOk result (λ found. edges_view found.items
        ≡ spec.edges_in kind.modules [] (modules_view modules.entry.now)) }
{
    let mut found = Vec::new(alloc);
    for module in modules {
        add_edges_of(Kind::Modules, &[], &module.top, &mut found)?;
    }
    Ok(found)
}

/// What is said of the imports of a line.
fn of_imports(
    alloc: Global,
    line: u32,
    modules: &[Module],
    top: &Stmt,
) -> Result<Option<String>, AllocError>
    ensures { IfOk result (λ text. option_map string_bytes text
        ≡ spec.of_rows kind.modules line [] (row_view (top.now ∷ [])) (modules_view modules.now)) }
{
    let mut own = Vec::new(alloc);
    add_edges_of(Kind::Modules, &[], top, &mut own)?;
    let edges = imports_in(alloc, modules)?;
    of_edges(alloc, Kind::Modules, line, &own, &edges)
}

fn of_definitions(
    alloc: Global,
    kind: Kind,
    line: u32,
    row: &[Stmt],
) -> Result<Option<String>, AllocError>
    ensures { IfOk result (λ text. option_map string_bytes text
        ≡ spec.of_definitions (kind_view kind) line (row_view row.now)) }
{
    let own = arguments_called(alloc, "prefix", row)?;
    let edges = edges_in(alloc, kind, &own, row)?;
    of_edges(alloc, kind, line, &edges, &edges)
}

/// What is said of the definitions of a module.
fn of_module(alloc: Global, line: u32, row: &[Stmt]) -> Result<Option<String>, AllocError>
    ensures { IfOk result (λ text. option_map string_bytes text ≡ spec.of_module line (row_view row.now)) }
{
    if let Some(said) = of_definitions(alloc, Kind::Typedefs, line, row)? {
        return Ok(Some(said));
    }
    if let Some(said) = of_definitions(alloc, Kind::Groupings, line, row)? {
        return Ok(Some(said));
    }
    of_definitions(alloc, Kind::Identities, line, row)
}

/// What is said of a line of a module of a set in which something leads back to itself.
#[tactic(auto, unfolding(crate::specs::References::of_line))]
pub fn circle_sentence(
    alloc: Global,
    line: u32,
    modules: &[Module],
    of: &Module,
) -> Result<String, AllocError>
    ensures { IfOk result (λ text. string_bytes text
        ≡ spec.of_line line (modules_view modules.now) (modules_view (of.now ∷ []))) }
{
    if let Some(said) = of_imports(alloc, line, modules, &of.top)? {
        return Ok(said);
    }
    match of_module(alloc, line, of.top.substatements())? {
        Some(said) => Ok(said),
        None => Ok(String::new(alloc)),
    }
}
