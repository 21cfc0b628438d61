//! What is said of the first action or notification of a line that stands where none may.

ghost use Rattle.std.specs.Prelude.{◌≡◌, ◌∷◌, [], IfOk, option_map, string_bytes, unwrap_or};
ghost use Rattle.ytext.specs.View.{modules_view, row_view, view};
ghost use Rattle.ysay_text.specs.Labels.{label};
ghost use Rattle.ysay_circles.specs.BarredView.{barred_view};
ghost use Rattle.ysay_circles.specs.Places as spec;

use itoa::Buffer;
use std::alloc::{AllocError, Global};
use ysay_names::{has_word, is_word};
use ysay_text::shown;
use ytext::{Module, Stmt};

fn is_bare_list(statement: &Stmt) -> bool
    ensures { result ≡ spec.is_bare_list (view statement.now).0 (view statement.now).1 }
{
    is_word("list", statement) && !has_word("key", statement.substatements())
}

fn is_brought(statement: &Stmt) -> bool
    ensures { result ≡ spec.is_brought (label statement.now) }
{
    is_word("action", statement) || is_word("notification", statement)
}

/// Whether none may stand below a statement, however deep.
fn bars(statement: &Stmt) -> bool
    ensures { result ≡ spec.bars (view statement.now).0 (view statement.now).1 }
{
    is_word("rpc", statement) || (is_brought(statement) || is_bare_list(statement))
}

/// The innermost such statement, for what stands below one.
fn bar_below<'a>(bar: Option<&'a Stmt>, statement: &'a Stmt) -> Option<&'a Stmt>
    ensures { option_map (λ s. label s.now) result ≡ spec.bar_below
        (option_map (λ s. label s.now) bar.entry) (view statement.entry.now).0 (view statement.entry.now).1 }
{
    if is_word("grouping", statement) {
        None
    } else if bars(statement) {
        Some(statement)
    } else {
        bar
    }
}

fn name_of(statement: &Stmt) -> &str
    ensures { result.now ≡ unwrap_or (label statement.entry.now).argument [] }
{
    match statement.argument() {
        Some(name) => name,
        None => "",
    }
}

/// A statement and its line.
fn placed(alloc: Global, statement: &Stmt) -> Result<String, AllocError>
    ensures { IfOk result (λ text. string_bytes text ≡ spec.placed (label statement.now)) }
{
    let seen = shown(alloc, name_of(statement).as_bytes())?;
    let mut digits = Buffer::new();
    [
        statement.keyword(),
        " ",
        seen.as_str(),
        " (line ",
        digits.format(statement.line()),
        ")",
    ]
    .concat(alloc)
}

fn reason(bar: &Stmt) -> &'static str
    ensures { result.now ≡ spec.reason (label bar.now) }
{
    if is_word("list", bar) {
        ", which has no key."
    } else {
        "."
    }
}

fn misplaced(alloc: Global, statement: &Stmt, bar: &Stmt) -> Result<String, AllocError>
    ensures { IfOk result (λ text. string_bytes text ≡ spec.misplaced (label statement.now) (label bar.now)) }
{
    let own = placed(alloc, statement)?;
    let other = placed(alloc, bar)?;
    [own.as_str(), " stands below ", other.as_str(), reason(bar)].concat(alloc)
}

/// A statement, and what around it bars it.
#[derive(Clone, Copy, Debug)]
struct Barred<'a> {
    statement: &'a Stmt,
    bar: &'a Stmt,
}

fn barred_at<'a>(line: u32, bar: Option<&'a Stmt>, statement: &'a Stmt) -> Option<Barred<'a>>
    ensures { option_map barred_view result ≡ spec.barred_at line
        (option_map (λ s. label s.now) bar.entry) (label statement.entry.now) }
{
    if statement.line() != line || !is_brought(statement) {
        return None;
    }
    match bar {
        Some(bar) => Some(Barred { statement, bar }),
        None => None,
    }
}

/// The first action or notification of a line that is barred, a statement or one below it.
#[cycle(places)]
fn barred_from<'a>(line: u32, bar: Option<&'a Stmt>, statement: &'a Stmt) -> Option<Barred<'a>>
    ensures { option_map barred_view result ≡ spec.barred_in line
        (option_map (λ s. label s.now) bar.entry) (row_view (statement.entry.now ∷ [])) }
{
    match barred_at(line, bar, statement) {
        Some(found) => Some(found),
        None => barred_in(line, bar_below(bar, statement), statement.substatements()),
    }
}

#[cycle(places)]
fn barred_in<'a>(line: u32, bar: Option<&'a Stmt>, statements: &'a [Stmt]) -> Option<Barred<'a>>
    ensures { option_map barred_view result ≡ spec.barred_in line
        (option_map (λ s. label s.now) bar.entry) (row_view statements.entry.now) }
{
    for statement in statements {
        if let Some(found) = barred_from(line, bar, statement) {
            return Some(found);
        }
    }
    None
}

/// What is said of a line of a module in which an action or a notification stands where none may.
#[tactic(auto, unfolding(crate::specs::Places::of_line))]
pub fn place_sentence(alloc: Global, line: u32, of: &Module) -> Result<String, AllocError>
    ensures { IfOk result (λ text. string_bytes text ≡ spec.of_line line (modules_view (of.now ∷ []))) }
{
    match barred_in(line, None, of.top.substatements()) {
        Some(found) => misplaced(alloc, found.statement, found.bar),
        None => Ok(String::new(alloc)),
    }
}
