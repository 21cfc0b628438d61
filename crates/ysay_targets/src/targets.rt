//! What is said of the augments and refines of a line whose paths lead nowhere.

ghost use Rattle.std.specs.Prelude.{◌≡◌, ◌∷◌, [], IfOk, map, option_and_then, option_map, string_bytes};
ghost use Rattle.yspec.specs.Forest.{row};
ghost use Rattle.ytext.specs.View.{modules_view, row_view, view};
ghost use Rattle.ylink_arguments.specs.NameView.{names_view};
ghost use Rattle.ysay_text.specs.Labels.{label};
ghost use Rattle.ysay_targets.specs.Targets as spec;

use crate::steps::of_steps;
use std::alloc::{AllocError, Global};
use ylink_arguments::{Name, absolute_path, relative_path};
use ysay_names::{
    all_statements, has_word, is_word, module_meant, name_given, only_called, prefix_given,
};
use ytext::{Module, Stmt};

/// Whether what stands at the top of a module is its text alone: it has no submodules and doesn't augment.
pub(crate) fn is_whole(row: &[Stmt]) -> bool
    ensures { result ≡ spec.is_whole (row_view row.now) }
{
    has_word("namespace", row) && !(has_word("include", row) || has_word("augment", row))
}

fn of_whole(
    alloc: Global,
    prefix: Option<&str>,
    names: &[Name<'_>],
    row: &[Stmt],
) -> Result<Option<String>, AllocError>
    ensures { IfOk result (λ text. option_map string_bytes text ≡ spec.of_whole
        (option_map (λ p. p.now) prefix.entry) (names_view names.now) (row_view row.now)) }
{
    if is_whole(row) {
        of_steps(alloc, "the module", prefix, names, row)
    } else {
        Ok(None)
    }
}

/// What is said of an absolute path.
fn of_path(
    alloc: Global,
    modules: &[Module],
    row: &[Stmt],
    names: &[Name<'_>],
) -> Result<Option<String>, AllocError>
    ensures { IfOk result (λ text. option_map string_bytes text ≡ spec.of_path
        (modules_view modules.now) (row_view row.now) (names_view names.now)) }
{
    let Some((first, _)) = names.split_first() else {
        return Ok(None);
    };
    match module_meant(alloc, modules, row, first.prefix)? {
        Some(meant) => of_whole(alloc, first.prefix, names, meant),
        None => Ok(None),
    }
}

fn of_augment(
    alloc: Global,
    modules: &[Module],
    row: &[Stmt],
    argument: Option<&str>,
) -> Result<Option<String>, AllocError>
    ensures { IfOk result (λ text. option_map string_bytes text ≡ option_and_then
        (spec.of_augment (modules_view modules.now) (row_view row.now)) (option_map (λ t. t.now) argument.entry)) }
{
    let Some(path) = argument else {
        return Ok(None);
    };
    match absolute_path(alloc, path)? {
        Some(names) => of_path(alloc, modules, row, &names),
        None => Ok(None),
    }
}

/// Whether a statement of a line changes what a `uses` brings.
fn changes(line: u32, statement: &Stmt) -> bool
    ensures { result ≡ spec.changes line (label statement.now) }
{
    statement.line() == line && (is_word("refine", statement) || is_word("augment", statement))
}

fn of_descendant(
    alloc: Global,
    grouping: &[Stmt],
    argument: Option<&str>,
) -> Result<Option<String>, AllocError>
    ensures { IfOk result (λ text. option_map string_bytes text ≡ option_and_then
        (spec.of_descendant (row_view grouping.now)) (option_map (λ t. t.now) argument.entry)) }
{
    let Some(path) = argument else {
        return Ok(None);
    };
    match relative_path(alloc, path)? {
        Some(names) => of_steps(alloc, "the grouping", None, &names, grouping),
        None => Ok(None),
    }
}

fn of_change(
    alloc: Global,
    line: u32,
    grouping: &[Stmt],
    statement: &Stmt,
) -> Result<Option<String>, AllocError>
    ensures { IfOk result (λ text. option_map string_bytes text
        ≡ spec.of_change line (row_view grouping.now) (label statement.now)) }
{
    if changes(line, statement) {
        of_descendant(alloc, grouping, statement.argument())
    } else {
        Ok(None)
    }
}

fn of_changes(
    alloc: Global,
    line: u32,
    grouping: &[Stmt],
    statements: &[Stmt],
) -> Result<Option<String>, AllocError>
    ensures { IfOk result (λ text. option_map string_bytes text
        ≡ spec.of_changes line (row_view grouping.now) (row (row_view statements.now))) }
{
    for statement in statements {
        if let Some(said) = of_change(alloc, line, grouping, statement)? {
            return Ok(Some(said));
        }
    }
    Ok(None)
}

/// The grouping of a name in a module, where it is the only one.
fn grouping_in<'a>(
    alloc: Global,
    name: &str,
    row: &'a [Stmt],
) -> Result<Option<&'a Stmt>, AllocError>
    ensures { IfOk result (λ found. option_map (λ s. view s.now) found ≡ spec.grouping_in name.now (row_view row.entry.now)) }
{
    let statements = all_statements(alloc, row)?;
    Ok(only_called("grouping", name, &statements))
}

fn grouping_meant<'a>(
    alloc: Global,
    modules: &'a [Module],
    row: &'a [Stmt],
    name: &str,
) -> Result<Option<&'a Stmt>, AllocError>
    ensures { IfOk result (λ found. option_map (λ s. view s.now) found
        ≡ spec.grouping_meant (modules_view modules.entry.now) (row_view row.entry.now) name.now) }
{
    match module_meant(alloc, modules, row, prefix_given(name))? {
        Some(meant) => grouping_in(alloc, name_given(name), meant),
        None => Ok(None),
    }
}

/// What is said of the changes of a `uses` that stand in a line.
fn of_uses(
    alloc: Global,
    line: u32,
    modules: &[Module],
    row: &[Stmt],
    statement: &Stmt,
) -> Result<Option<String>, AllocError>
    ensures { IfOk result (λ text. option_map string_bytes text ≡ option_and_then
        (spec.of_uses line (modules_view modules.now) (row_view row.now) (view statement.now).1)
        (view statement.now).0.argument) }
{
    let Some(name) = statement.argument() else {
        return Ok(None);
    };
    match grouping_meant(alloc, modules, row, name)? {
        Some(grouping) => of_changes(
            alloc,
            line,
            grouping.substatements(),
            statement.substatements(),
        ),
        None => Ok(None),
    }
}

fn of_statement(
    alloc: Global,
    line: u32,
    modules: &[Module],
    row: &[Stmt],
    statement: &Stmt,
) -> Result<Option<String>, AllocError>
    ensures { IfOk result (λ text. option_map string_bytes text
        ≡ spec.of_entry line (modules_view modules.now) (row_view row.now) (view statement.now)) }
{
    if is_word("uses", statement) {
        of_uses(alloc, line, modules, row, statement)
    } else if statement.line() == line && is_word("augment", statement) {
        of_augment(alloc, modules, row, statement.argument())
    } else {
        Ok(None)
    }
}

fn of_statements(
    alloc: Global,
    line: u32,
    modules: &[Module],
    row: &[Stmt],
    statements: &[&Stmt],
) -> Result<String, AllocError>
    ensures { IfOk result (λ text. string_bytes text ≡ spec.of_entries line
        (modules_view modules.now) (row_view row.now) (map (λ s. view s.now) statements.now)) }
{
    for statement in statements {
        if let Some(said) = of_statement(alloc, line, modules, row, *statement)? {
            return Ok(said);
        }
    }
    Ok(String::new(alloc))
}

/// What is said of a line of a module of a set in which an augment or a refine leads nowhere.
#[tactic(auto, unfolding(crate::specs::Targets::of_line))]
pub fn target_sentence(
    alloc: Global,
    line: u32,
    modules: &[Module],
    of: &Module,
) -> Result<String, AllocError>
    ensures { IfOk result (λ text. string_bytes text
        ≡ spec.of_line line (modules_view modules.now) (modules_view (of.now ∷ []))) }
{
    let statements = all_statements(alloc, of.top.substatements())?;
    of_statements(alloc, line, modules, of.top.substatements(), &statements)
}
