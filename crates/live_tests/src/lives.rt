//! Live documents: edits one after the other, lists of edits, and what is refused before any edit.

use crate::building::{live_of, live_under, modules_of};
use crate::telling::{assert_right, have_lines, is_refusal, is_text, number_of};
use std::alloc::Global;
use test_modules::MODULE;
use ycheck::Fault;
use yinst::{DocFault, Edit, EditFault, NamedStep, Path, Predicate, write};
use ylive::{Applied, ListFault, Live, Outcome, Refused};
use ylive_whole::{CheckFault, check_edits};
use yschema::CompileFault;

/// A document with one fault.
pub(crate) const FAULTY: &str = r#"{"p:c":{"id":256,"note":"x"}}"#;

/// The line of its fault.
pub(crate) const INVALID: &str = "V1 invalid-value - /p:c/id -|";

/// Edits of it, and what comes of each.
pub(crate) const EDITS: &str = "replace /p:c/id 7 => accepted
replace /p:c/zz 1 => E2
replace /p:c/note {} => E10 J5
remove /p:c/note => accepted";

/// Whether a document has this text.
pub(crate) fn is_stored(alloc: Global, live: &Live, text: &str) -> Option<bool> {
    match live.tree() {
        Ok(tree) => is_text(write(alloc, live.schema(), &tree), text),
        Err(_) => None,
    }
}

// Whether a walk gives these faults, one by one, and then ends; another one is left after its first.
fn is_walked(live: &Live, faults: &[Fault]) -> bool {
    let (Some(mut begun), Some(mut walk)) = (live.walk(), live.walk()) else {
        return false;
    };
    for fault in faults {
        match walk.next() {
            Some(seen) => {
                if seen.code != fault.code || seen.place.steps().len() != fault.steps.len() {
                    return false;
                }
            }
            None => return false,
        }
    }
    walk.next().is_none() && begun.next().is_none() == faults.is_empty()
}

fn are_told(alloc: Global, live: &Live, faults: &[Fault], lines: &str) -> Option<bool> {
    let is_counted = live.fault_count() == Some(faults.len());
    Some(is_counted && is_walked(live, faults) && have_lines(alloc, live.schema(), faults, lines)?)
}

fn is_listed(alloc: Global, live: &Live, lines: &str) -> Option<bool> {
    match live.list() {
        Ok(faults) => are_told(alloc, live, &faults, lines),
        Err(ListFault::Memory) => None,
        Err(ListFault::Stale) => Some(false),
    }
}

/// Whether a document has this text and these lines of faults.
pub(crate) fn stands(alloc: Global, live: &Live, text: &str, lines: &str) -> Option<bool> {
    Some(is_listed(alloc, live, lines)? && is_stored(alloc, live, text)?)
}

// Whether the counts of faults before and after are those of `1 to 0`.
fn are_counts(applied: Applied, told: &str) -> Option<bool> {
    let (before, after) = told.split_once(" to ")?;
    let is_before = number_of(before)? as usize == applied.before;
    Some(is_before && number_of(after)? as usize == applied.after)
}

/// Whether an edit is answered so: with its counts, or the codes of its refusal. Nothing for want of memory.
pub(crate) fn is_answer(
    alloc: Global,
    answer: Result<Applied, Refused>,
    told: &str,
) -> Option<bool> {
    match answer {
        Ok(applied) => are_counts(applied, told),
        Err(Refused::Edit(fault)) => is_refusal(alloc, fault, told),
        Err(Refused::Memory) => None,
        Err(Refused::Stale) => Some(false),
    }
}

// Whether this comes of an edit.
fn comes_of(alloc: Global, live: &mut Live, edit: &Edit, told: &str) -> Option<bool> {
    is_answer(alloc, live.edit(edit), told)
}

fn comes_of_line(alloc: Global, live: &mut Live, line: &str, told: &str) -> Option<bool> {
    match Edit::parse(alloc, line) {
        Ok(Some(edit)) => comes_of(alloc, live, &edit, told),
        Ok(None) => Some(told == "passed over"),
        Err(fault) => is_refusal(alloc, fault, told),
    }
}

// `line => what comes of it => the document's text => the lines of its faults`
fn goes(alloc: Global, live: &mut Live, row: &str) -> Option<bool> {
    let (line, row) = row.split_once(" => ")?;
    let (told, row) = row.split_once(" => ")?;
    let (text, lines) = row.split_once(" => ")?;
    Some(comes_of_line(alloc, live, line, told)? && stands(alloc, live, text, lines)?)
}

/// The first row that doesn't go as it says, each after the ones before it; the document where it isn't opened.
pub(crate) fn first_wrong<'a>(
    alloc: Global,
    module: &str,
    document: &'a str,
    rows: &'a str,
) -> Option<&'a str> {
    match live_under(alloc, module, document) {
        None => Some(document),
        Some(mut live) => {
            for row in rows.lines() {
                if goes(alloc, &mut live, row) != Some(true) {
                    return Some(row);
                }
            }
            None
        }
    }
}

/// Edits of it one after the other, most of them replacements.
pub(crate) const REPLACEMENTS: &str =
    r#"# opened => passed over => {"p:c":{"id":256,"note":"x"}} => V1 invalid-value - /p:c/id -|
replace /p:c/id 7 => 1 to 0 => {"p:c":{"id":7,"note":"x"}} => none
replace /p:c/id 300 => 0 to 1 => {"p:c":{"id":300,"note":"x"}} => V1 invalid-value - /p:c/id -|
replace /p:c/note {} => E10 J5 => {"p:c":{"id":300,"note":"x"}} => V1 invalid-value - /p:c/id -|
replace /p:c/id 1.5 => E10 J6 => {"p:c":{"id":300,"note":"x"}} => V1 invalid-value - /p:c/id -|
replace /p:c/id x => E9 => {"p:c":{"id":300,"note":"x"}} => V1 invalid-value - /p:c/id -|
replace /p:c/id => E1 => {"p:c":{"id":300,"note":"x"}} => V1 invalid-value - /p:c/id -|
replace /p:c/zz 1 => E2 => {"p:c":{"id":300,"note":"x"}} => V1 invalid-value - /p:c/id -|
replace /c/id 1 => E2 => {"p:c":{"id":300,"note":"x"}} => V1 invalid-value - /p:c/id -|
replace /p:c[1]/id 1 => E3 => {"p:c":{"id":300,"note":"x"}} => V1 invalid-value - /p:c/id -|
replace /p:c {"note":"y"} => 1 to 1 => {"p:c":{"note":"y"}} => V3 data-missing - /p:c/id -|
replace /p:c/id 1 => E7 => {"p:c":{"note":"y"}} => V3 data-missing - /p:c/id -|
remove /p:c/id => E7 => {"p:c":{"note":"y"}} => V3 data-missing - /p:c/id -|"#;

/// Edits of an empty document one after the other.
pub(crate) const CREATIONS: &str = r#"# opened => passed over => {} => V3 data-missing - /p:c/id -|
replace /p:c/id 1 => E4 => {} => V3 data-missing - /p:c/id -|
create /p:c/id 1 => E4 => {} => V3 data-missing - /p:c/id -|
remove /p:c/id => E4 => {} => V3 data-missing - /p:c/id -|
remove /p:c => E7 => {} => V3 data-missing - /p:c/id -|
create /p:c {"id":1} => 1 to 0 => {"p:c":{"id":1}} => none
create /p:c {} => E8 => {"p:c":{"id":1}} => none
remove /p:c/id 1 => E1 => {"p:c":{"id":1}} => none
remove /p:c/id => 0 to 1 => {"p:c":{}} => V3 data-missing - /p:c/id -|
remove /p:c => 1 to 1 => {} => V3 data-missing - /p:c/id -|"#;

fn goes_on(alloc: Global, live: &mut Live, rows: &str) -> Option<bool> {
    for row in rows.lines() {
        if !goes(alloc, live, row)? {
            return Some(false);
        }
    }
    Some(true)
}

/// Whether rows go as they say, each after the ones before it.
pub(crate) fn go(alloc: Global, document: &str, rows: &str) -> Option<bool> {
    let mut live = live_of(alloc, document)?;
    goes_on(alloc, &mut live, rows)
}

#[test]
fn replacements(rt: HostRuntime) {
    assert_right(&rt, first_wrong(rt.alloc(), MODULE, FAULTY, REPLACEMENTS));
}

#[test]
fn creations(rt: HostRuntime) {
    assert_right(&rt, first_wrong(rt.alloc(), MODULE, "{}", CREATIONS));
}

// An edit that removes what a path of one step leads to, which bears a position.
fn removal(alloc: Global, position: u32) -> Option<Edit> {
    let mut steps = Vec::new(alloc);
    let name = String::from_str(alloc, "p:c").ok()?;
    let predicate = Predicate::Position(position);
    steps.push(NamedStep { name, predicate }).ok()?;
    let path = Path { steps };
    Some(Edit::Remove { path })
}

// Whether the removal of a container at a position is refused so.
fn is_removal_refused(alloc: Global, position: u32, told: &str) -> Option<bool> {
    let edit = removal(alloc, position)?;
    let mut live = live_of(alloc, FAULTY)?;
    comes_of(alloc, &mut live, &edit, told)
}

#[test]
fn paths_that_no_text_spells(rt: HostRuntime) {
    assert!(rt; is_removal_refused(rt.alloc(), 0, "E1") == Some(true));
    assert!(rt; is_removal_refused(rt.alloc(), 1, "E3") == Some(true));
}

/// The edits of rows `line => what comes of it`.
pub(crate) fn edits_of(alloc: Global, rows: &str) -> Option<Vec<Edit>> {
    let mut edits = Vec::new(alloc);
    for row in rows.lines() {
        let (line, _) = row.split_once(" => ")?;
        let edit = Edit::parse(alloc, line).ok()??;
        edits.push(edit).ok()?;
    }
    Some(edits)
}

fn is_outcome(alloc: Global, outcome: &Outcome, row: &str) -> Option<bool> {
    let (_, told) = row.split_once(" => ")?;
    match outcome {
        Outcome::Accepted => Some(told == "accepted"),
        Outcome::Refused { code, doc } => {
            let (code, doc) = (*code, *doc);
            is_refusal(alloc, EditFault::Refused { code, doc }, told)
        }
    }
}

/// Whether there are so many outcomes as rows, and each is its row's.
pub(crate) fn are_outcomes(alloc: Global, outcomes: &[Outcome], rows: &str) -> Option<bool> {
    let mut rest = rows.lines();
    for outcome in outcomes {
        if !is_outcome(alloc, outcome, rest.next()?)? {
            return Some(false);
        }
    }
    Some(rest.next().is_none())
}

// Whether the edits of rows have their outcomes.
fn has_outcomes(alloc: Global, live: &mut Live, rows: &str) -> Option<bool> {
    let edits = edits_of(alloc, rows)?;
    match live.run(&edits) {
        Ok(outcomes) => are_outcomes(alloc, &outcomes, rows),
        Err(_) => None,
    }
}

fn runs_in(alloc: Global, live: &mut Live, rows: &str, text: &str) -> Option<bool> {
    Some(has_outcomes(alloc, live, rows)? && stands(alloc, live, text, "none")?)
}

/// Whether a list of edits of a document has its outcomes, and leaves a document of this text without faults.
pub(crate) fn runs_under(
    alloc: Global,
    module: &str,
    document: &str,
    rows: &str,
    text: &str,
) -> Option<bool> {
    let mut live = live_under(alloc, module, document)?;
    runs_in(alloc, &mut live, rows, text)
}

/// Whether a list of edits has its outcomes, and the document is as the later ones leave it.
pub(crate) fn runs(alloc: Global) -> Option<bool> {
    runs_under(alloc, MODULE, FAULTY, EDITS, r#"{"p:c":{"id":7}}"#)
}

fn rebuilds(alloc: Global, live: &mut Live) -> Option<bool> {
    live.rebuild().ok()?;
    Some(!live.is_stale() && stands(alloc, live, FAULTY, INVALID)?)
}

/// Whether a document that isn't stale is rebuilt as it was.
pub(crate) fn is_rebuilt(alloc: Global) -> Option<bool> {
    let mut live = live_of(alloc, FAULTY)?;
    rebuilds(alloc, &mut live)
}

/// Whether a list of edits is checked from a module and a document on, has its outcomes, and leaves no faults.
pub(crate) fn are_checked_under(
    alloc: Global,
    module: &str,
    document: &str,
    rows: &str,
) -> Option<bool> {
    let modules = modules_of(alloc, &[module])?;
    let edits = edits_of(alloc, rows)?;
    match check_edits(alloc, &modules, document.as_bytes(), &edits) {
        Ok(checked) => {
            Some(checked.faults.is_empty() && are_outcomes(alloc, &checked.outcomes, rows)?)
        }
        Err(CheckFault::Memory) => None,
        Err(_) => Some(false),
    }
}

/// Whether edits are checked so.
pub(crate) fn are_checked(alloc: Global) -> Option<bool> {
    are_checked_under(alloc, MODULE, FAULTY, EDITS)
}

// The line of the first module where it is refused, and none for a document that is refused at its root.
fn line_of(fault: &CheckFault) -> Option<u32> {
    match fault {
        CheckFault::Modules(
            CompileFault::Refused {
                module: 0,
                line,
                ..
            },
        ) => Some(*line),
        CheckFault::Document(DocFault::Refused { place, .. }) if place.is_empty() => Some(0),
        _ => None,
    }
}

// Whether edits of this document under a module are refused before the first, with a code and a line as in `C16:4`.
fn is_refused(alloc: Global, module: &str, told: &str) -> Option<bool> {
    let modules = modules_of(alloc, &[module])?;
    match check_edits(alloc, &modules, b"[]", &[]) {
        Err(fault) => {
            let line = line_of(&fault)?;
            is_text(format!(in alloc; "{fault}:{line}"), told)
        }
        Ok(_) => Some(false),
    }
}

/// Whether a document is refused before its edits.
pub(crate) fn is_document_refused(alloc: Global) -> Option<bool> {
    is_refused(alloc, MODULE, "J2:0")
}

/// Whether modules are refused before their document.
pub(crate) fn are_modules_refused(alloc: Global) -> Option<bool> {
    let module = "module m {\n namespace 'u';\n prefix p; yang-version 1.1;\n list l;}";
    is_refused(alloc, module, "C16:4")
}

#[test]
fn lists_of_edits(rt: HostRuntime) {
    assert!(rt; runs(rt.alloc()) == Some(true));
    assert!(rt; is_rebuilt(rt.alloc()) == Some(true));
    assert!(rt; are_checked(rt.alloc()) == Some(true));
    assert!(rt; is_document_refused(rt.alloc()) == Some(true));
    assert!(rt; are_modules_refused(rt.alloc()) == Some(true));
}
