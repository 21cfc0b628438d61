//! Which rules of the table of statements modules break, by language.

use crate::rows::all_hold;
use crate::spelled::unmarked;
use std::alloc::Global;
use ylink_grammar::{BrokenRule, Language, Sources, Unjudged, Wide, broken_statement_rule_in};
use ytext::{Module, parse};

// A module of a body, behind its version where it states one.
fn module_of(alloc: Global, head: &str, body: &str) -> Option<Module> {
    let text = format!(in alloc; "module m {{ {head} namespace urn:m; prefix m; {body} }}").ok()?;
    parse(alloc, text.as_bytes()).ok()
}

// Whether a rule is the one that is wanted, as `C4 2`: its code and its line; `-` for none.
fn is_told(alloc: Global, told: Option<BrokenRule>, wanted: &str) -> Option<bool> {
    let Some(rule) = told else {
        return Some(wanted == "-");
    };
    let shown = format!(in alloc; "{} {}", rule.code, rule.line).ok()?;
    Some(shown.as_str() == wanted)
}

// Whether a row holds: the body of a module, and what is told of it. None where memory ran out.
fn holds(alloc: Global, language: &Language, head: &str, row: &str) -> Option<bool> {
    let row = unmarked(alloc, row).ok()?;
    let (body, wanted) = row.as_str().split_once(" => ")?;
    let mut modules = Vec::new(alloc);
    modules.push(module_of(alloc, head, body)?).ok()?;
    let told = broken_statement_rule_in(alloc, language, &modules).ok()?;
    is_told(alloc, told, wanted)
}

// Of modules of YANG 1.1, in the core.
fn holds_of_the_core(alloc: Global, row: &str) -> Option<bool> {
    holds(alloc, &Language::Core, "yang-version 1.1;", row)
}

// Of modules of YANG 1.1, in the wide language without a choice of features.
fn holds_of_yang_1_1(alloc: Global, row: &str) -> Option<bool> {
    let language = Language::rfc_with(Vec::new(alloc));
    holds(alloc, &language, "yang-version 1.1;", row)
}

// Of modules of YANG 1, which state their version or don't.
fn holds_of_yang_1(alloc: Global, row: &str) -> Option<bool> {
    let language = Language::rfc_with(Vec::new(alloc));
    let is_silent = holds(alloc, &language, "", row)?;
    Some(is_silent && holds(alloc, &language, "yang-version 1;", row)?)
}

// YANG 1.1, and no features.
#[test]
fn of_the_core(rt: HostRuntime) {
    let rows = "leaf l { type string; } => -
leaf xml-l { type string; } => -
leaf-list l { type string; default x; } => -
¶feature a; => C1 2
leaf l { type string; ¶if-feature a; } => C1 2
¶leaf l { } => C2 2
¶leaf a/b { type string; } => C3 2";
    all_hold(&rt, rt.alloc(), rows, holds_of_the_core);
    let heads = "
yang-version 1;
yang-version 1.2;";
    all_hold(&rt, rt.alloc(), heads, |alloc, head| {
        holds(alloc, &Language::Core, head, "¶ => C4 1")
    });
}

// What features bring, of modules of YANG 1.1 (RFC 7950, 7.20.1, 7.20.2 and 14).
#[test]
fn of_yang_1_1(rt: HostRuntime) {
    let rows = "feature a; feature b { if-feature a; status current; } => -
feature b { if-feature \"not a\"; if-feature c; description d; } => -
leaf l { if-feature \"a or b\"; type string; } => -
leaf-list l { type string; default x; } => -
leaf xml-l { type string; } => -
identity i { if-feature a; base b; base c; } => -
leaf l { type enumeration { enum p { if-feature a; } } } => -
choice c { choice d { if-feature a; } } => -
uses g { if-feature a; refine l { if-feature b; default x; default y; } } => -
augment /m:c { if-feature a; leaf l { type string; } } => -
import n { prefix n; description d; reference r; } => -
¶feature; => C3 2
¶feature a:b; => C3 2
leaf l { type string; ¶if-feature \"a or\"; } => C3 2
leaf l { type string; ¶if-feature; } => C3 2
¶feature a { status current; status current; } => C2 2
feature a { ¶type string; } => C1 2
typedef t { type string; ¶if-feature a; } => C1 2
container c { ¶feature a; } => C1 2
leaf l { type string { ¶if-feature a; } } => C1 2
leaf l { type string; if-feature a { ¶if-feature a; } } => C1 2
¶must a; => C1 2";
    all_hold(&rt, rt.alloc(), rows, holds_of_yang_1_1);
}

// What YANG 1 lacks of it (RFC 7950, 1.1; RFC 6020, 7.18.2 and 12).
#[test]
fn of_yang_1(rt: HostRuntime) {
    let rows = "feature a; leaf l { if-feature a; type string; } => -
import n { prefix xml; } => -
leaf l { type string; ¶if-feature \"a or b\"; } => C3 2
¶leaf XMl-a { type string; } => C3 2
import n { prefix n; ¶description d; } => C1 2
identity i { base a; ¶if-feature a; } => C1 2
¶identity i { base a; base b; } => C2 2
leaf l { type enumeration { enum p { ¶if-feature a; } } } => C1 2
leaf l { type bits { bit p { ¶if-feature a; } } } => C1 2
uses g { refine l { ¶if-feature a; } } => C1 2
uses g { ¶refine l { default x; default y; } } => C2 2
leaf-list l { type string; ¶default x; } => C1 2
choice c { ¶choice d; } => C1 2
leaf l { ¶type identityref { base a; base b; } } => C2 2";
    all_hold(&rt, rt.alloc(), rows, holds_of_yang_1);
}

// Of modules that have their version in the row.
fn holds_as_it_stands(alloc: Global, row: &str) -> Option<bool> {
    holds(alloc, &Language::rfc_with(Vec::new(alloc)), "", row)
}

// A `yang-version` that names none, and two of it (RFC 7950, 7.1.2).
#[test]
fn versions(rt: HostRuntime) {
    let rows = "¶yang-version 1.2; => C4 2
¶yang-version 1.0; => C4 2
¶yang-version 1; yang-version 1; => C2 1";
    all_hold(&rt, rt.alloc(), rows, holds_as_it_stands);
}

// The wide language, in which some conditions aren't judged.
fn unjudging(alloc: Global, musts: bool, whens: bool) -> Language {
    Language::Rfc(Wide {
        choosings: Vec::new(alloc),
        unjudged: Unjudged { musts, whens },
    })
}

// Of modules of either version, where no condition is judged.
fn holds_unjudged(alloc: Global, row: &str) -> Option<bool> {
    let language = unjudging(alloc, true, true);
    let is_of_yang_1 = holds(alloc, &language, "", row)?;
    Some(is_of_yang_1 && holds(alloc, &language, "yang-version 1.1;", row)?)
}

// Where conditions that aren't judged stand, how often, and what stands below them (RFC 7950, 7.5.3 and 7.21.5).
#[test]
fn unjudged_conditions(rt: HostRuntime) {
    let rows = "container c { must a; must b; when c; } => -
leaf l { must a { error-message b; error-app-tag c; description d; reference e; } type string; } => -
leaf-list l { when a { description b; reference c; } type string; } => -
choice c { when a; case d { when b; } } => -
uses g { when a; refine l { must b; must c; } } => -
augment /m:c { when a; leaf l { type string; } } => -
¶must a; => C1 2
¶when a; => C1 2
choice c { ¶must a; } => C1 2
uses g { refine l { ¶when a; } } => C1 2
¶list l { when a; when b; config false; } => C2 2
leaf l { type string; ¶must; } => C3 2
leaf l { type string; ¶when; } => C3 2
leaf l { type string; ¶must a { description b; description c; } } => C2 2
leaf l { type string; when a { ¶error-message b; } } => C1 2";
    all_hold(&rt, rt.alloc(), rows, holds_unjudged);
}

// Each is no keyword where it is to be judged.
#[test]
fn either_unjudged(rt: HostRuntime) {
    let musts = unjudging(rt.alloc(), true, false);
    let whens = unjudging(rt.alloc(), false, true);
    let row = "leaf l { must a; type string; ¶when b; } => C1 2";
    assert!(rt; holds(rt.alloc(), &musts, "yang-version 1.1;", row) == Some(true));
    let row = "leaf l { when a; type string; ¶must b; } => C1 2";
    assert!(rt; holds(rt.alloc(), &whens, "yang-version 1.1;", row) == Some(true));
}

// How many statements of a module are kept.
fn kept(alloc: Global, language: &Language, body: &str) -> Option<usize> {
    let mut modules = Vec::new(alloc);
    modules
        .push(module_of(alloc, "yang-version 1.1;", body)?)
        .ok()?;
    let sources = Sources::of_in(alloc, language, &modules).ok()?;
    Some(sources.slots().len())
}

// `module`, three below it, and the leaf with its type; under the core without what features bring.
#[test]
fn kept_statements(rt: HostRuntime) {
    let body = "feature a { if-feature b; } leaf l { if-feature a; type string; }";
    let language = Language::rfc_with(Vec::new(rt.alloc()));
    assert!(rt; kept(rt.alloc(), &Language::Core, body) == Some(6));
    assert!(rt; kept(rt.alloc(), &language, body) == Some(9));
}

// The `when` of the leaf besides, with what stands below it, and no `must`.
#[test]
fn kept_conditions(rt: HostRuntime) {
    let language = unjudging(rt.alloc(), true, true);
    let body = "leaf l { must a; when b { description c; } type string; }";
    assert!(rt; kept(rt.alloc(), &language, body) == Some(8));
}
