//! What is said of conditions that aren't judged (RFC 7950, 7.5.3 and 7.21.5).

ghost use Rattle.std.specs.Prelude.{◌≡◌, ◌+◌, [], IfOk, OnOk, if◌then◌else◌, length, map, string_bytes};
ghost use Rattle.yspec_run.specs.Unjudged as spec;
ghost use Rattle.yspec.specs.text.Text.{Text};
ghost use Rattle.yspec_run.specs.Output.{Outcome, with_modules};
ghost use Rattle.yspec_opening.specs.Opening.{with_conditions};
ghost use Rattle.ytext.specs.View as text;
ghost use Rattle.ytext.specs.View.{modules_view, row_view};
ghost use Rattle.ylink_grammar.specs.LanguageView.{language_view, unjudged_view};
ghost use Rattle.yapp.specs.Files.{found_as};
ghost use Rattle.yapp_report.specs.Failing.{LeadsTo, reported};

use crate::modules::parse_modules;
use std::alloc::{AllocError, Global};
use yapp_report::{Failure, Report};
use ylink_grammar::{Language, Unjudged};
use ytext::{Module, Stmt};

/// What a command found, and what is said of conditions that weren't judged.
#[derive(Drop)]
pub struct Found {
    pub report: Report,
    pub note: String,
}

/// Adds the statements with a keyword among some and below them.
#[cycle(called)]
fn add_called<'a>(
    found: &mut Vec<&'a Stmt>,
    keyword: &str,
    statements: &'a [Stmt],
) -> Result<(), AllocError>
    ensures { OnOk result (length found.new.items ≡ length found.old.items
        + spec.statements_called keyword.now (row_view statements.entry.now)) }
{
    for statement in statements {
        add_called_at(found, keyword, statement)?;
    }
    Ok(())
}

/// Adds a statement, if it has a keyword.
fn add_if_called<'a>(
    found: &mut Vec<&'a Stmt>,
    keyword: &str,
    statement: &'a Stmt,
) -> Result<(), AllocError>
    ensures { OnOk result (length found.new.items ≡ length found.old.items
        + spec.called_at keyword.now (text.view statement.entry.now).0) }
{
    if statement.keyword() == keyword {
        found.push(statement)?;
        Ok(())
    } else {
        Ok(())
    }
}

/// Adds a statement, if it has a keyword, and those below it that do.
#[cycle(called)]
fn add_called_at<'a>(
    found: &mut Vec<&'a Stmt>,
    keyword: &str,
    statement: &'a Stmt,
) -> Result<(), AllocError>
    ensures { let s = text.view statement.entry.now in OnOk result (length found.new.items ≡ length found.old.items
        + (spec.called_at keyword.now s.0 + spec.statements_called keyword.now s.1)) }
{
    add_if_called(found, keyword, statement)?;
    add_called(found, keyword, statement.substatements())
}

/// How many statements of a set have a keyword, wherever they stand.
fn statements_called(alloc: Global, keyword: &str, modules: &[Module]) -> Result<usize, AllocError>
    ensures { IfOk result (λ count. count ≡ spec.statements_called keyword.now (modules_view modules.now)) }
{
    let mut found = Vec::new(alloc);
    for parsed in modules {
        add_called_at(&mut found, keyword, &parsed.top)?;
    }
    Ok(found.len())
}

/// The same of those that aren't judged.
fn unjudged_called(
    alloc: Global,
    unjudged: bool,
    keyword: &str,
    modules: &[Module],
) -> Result<usize, AllocError>
    ensures { IfOk result (λ count. count ≡ spec.unjudged_called unjudged keyword.now (modules_view modules.now)) }
{
    if unjudged {
        statements_called(alloc, keyword, modules)
    } else {
        Ok(0)
    }
}

/// What is said of so many `must` and `when`.
fn note_by(alloc: Global, musts: usize, whens: usize) -> Result<String, AllocError>
    ensures { IfOk result (λ note. string_bytes note ≡ spec.note_by musts whens) }
{
    if musts == 0 {
        if whens == 0 {
            return Ok(String::new(alloc));
        }
        return format!(in alloc; "not judged: {whens} when\n");
    }
    if whens == 0 {
        return format!(in alloc; "not judged: {musts} must\n");
    }
    format!(in alloc; "not judged: {musts} must, {whens} when\n")
}

/// What is said of the conditions of a set that aren't judged.
fn note_of(alloc: Global, unjudged: Unjudged, modules: &[Module]) -> Result<String, AllocError>
    ensures { IfOk result (λ note. string_bytes note ≡ spec.note_of (unjudged_view unjudged) (modules_view modules.now)) }
{
    let musts = unjudged_called(alloc, unjudged.musts, "must", modules)?;
    let whens = unjudged_called(alloc, unjudged.whens, "when", modules)?;
    note_by(alloc, musts, whens)
}

/// A report with what is said of the conditions of a set that aren't judged.
fn with_note(
    alloc: Global,
    unjudged: Unjudged,
    modules: &[Module],
    report: Report,
) -> Result<Found, AllocError>
    ensures says { IfOk result (λ found. found_as found
        ≡ spec.with_note (spec.note_of (unjudged_view unjudged) (modules_view modules.now)) (reported report)) }
    ensures keeps { IfOk result (λ found. found.report ≡ report) }
{
    let note = note_of(alloc, unjudged, modules)?;
    Ok(Found { report, note })
}

/// The same by the contents of the files of modules.
fn noted<'a>(
    alloc: Global,
    language: &Language,
    unjudged: Unjudged,
    names: &[&'a str],
    contents: &[Vec<u8>],
    report: Report,
) -> Result<Found, Failure<'a>>
    ensures leads { LeadsTo (spec.noted_by (language_view language.now) (unjudged_view unjudged) (map (λ n. n.now) names.now)
        (map (λ c. c.items) contents.now) (reported report)) found_as result }
    ensures keeps { IfOk result (λ found. found.report ≡ report) }
{
    match parse_modules(alloc, language, names, contents) {
        Ok(parsed) => Ok(with_note(alloc, unjudged, &parsed.value, report)?),
        Err(failure) => Err(failure),
    }
}

/// The same, where any conditions aren't judged.
fn noted_where<'a>(
    alloc: Global,
    language: &Language,
    unjudged: Unjudged,
    names: &[&'a str],
    contents: &[Vec<u8>],
    report: Report,
) -> Result<Found, Failure<'a>>
    ensures leads { let u = unjudged_view unjudged in let o = reported report in
        LeadsTo (if spec.is_any u then spec.noted_by (language_view language.now) u (map (λ n. n.now) names.now)
        (map (λ c. c.items) contents.now) o else o) found_as result }
    ensures keeps { IfOk result (λ found. found.report ≡ report) }
{
    if unjudged.is_any() {
        noted(alloc, language, unjudged, names, contents, report)
    } else {
        Ok(unnoted(alloc, report))
    }
}

/// A report under modules that are read in a language, with what is said of conditions that it doesn't judge.
pub(crate) fn noted_in<'a>(
    alloc: Global,
    language: &Language,
    names: &[&'a str],
    contents: &[Vec<u8>],
    report: Report,
) -> Result<Found, Failure<'a>>
    ensures leads { LeadsTo (spec.noted_of (language_view language.now) (map (λ n. n.now) names.now)
        (map (λ c. c.items) contents.now) (reported report)) found_as result }
    ensures keeps { IfOk result (λ found. found.report ≡ report) }
{
    match language {
        Language::Core => Ok(unnoted(alloc, report)),
        Language::Rfc(wide) => {
            noted_where(alloc, language, wide.unjudged, names, contents, report)
        }
    }
}

/// A report of which nothing more is said.
pub(crate) fn unnoted(alloc: Global, report: Report) -> Found
    ensures says { found_as result ≡ reported report }
    ensures keeps { result.report ≡ report }
{
    Found {
        report,
        note: String::new(alloc),
    }
}

/// What is said of the conditions of the modules of some files, which aren't judged.
fn note_of_files<'a>(
    alloc: Global,
    language: &Language,
    unjudged: Unjudged,
    names: &[&'a str],
    contents: &[Vec<u8>],
) -> Result<String, Failure<'a>>
    ensures { (next : Text → Outcome) → LeadsTo (with_modules (language_view language.now) (map (λ n. n.now) names.now)
        (map (λ c. c.items) contents.now) (λ modules files. next (spec.note_of (unjudged_view unjudged) modules)))
        (λ note. next (string_bytes note)) result }
{
    match parse_modules(alloc, language, names, contents) {
        Ok(parsed) => Ok(note_of(alloc, unjudged, &parsed.value)?),
        Err(failure) => Err(failure),
    }
}

/// The same, where any conditions aren't judged.
fn note_where<'a>(
    alloc: Global,
    language: &Language,
    unjudged: Unjudged,
    names: &[&'a str],
    contents: &[Vec<u8>],
) -> Result<String, Failure<'a>>
    ensures { let u = unjudged_view unjudged in (next : Text → Outcome)
        → LeadsTo (if spec.is_any u then with_modules (language_view language.now) (map (λ n. n.now) names.now)
        (map (λ c. c.items) contents.now) (λ modules files. next (spec.note_of u modules)) else next [])
        (λ note. next (string_bytes note)) result }
{
    if unjudged.is_any() {
        note_of_files(alloc, language, unjudged, names, contents)
    } else {
        Ok(String::new(alloc))
    }
}

/// What is said of the conditions of modules that a language doesn't judge, by the contents of their files.
pub(crate) fn note_in<'a>(
    alloc: Global,
    language: &Language,
    names: &[&'a str],
    contents: &[Vec<u8>],
) -> Result<String, Failure<'a>>
    ensures { (next : Text → Outcome) → LeadsTo (with_conditions (language_view language.now) (map (λ n. n.now) names.now)
        (map (λ c. c.items) contents.now) next) (λ note. next (string_bytes note)) result }
{
    match language {
        Language::Core => Ok(String::new(alloc)),
        Language::Rfc(wide) => note_where(alloc, language, wide.unjudged, names, contents),
    }
}
