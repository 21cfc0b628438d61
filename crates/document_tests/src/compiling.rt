//! Which sets of modules are compiled, and how the others are refused.

use crate::building::{module_text, modules_of, push_times, push_with_line_feeds, with_line_feeds};
use crate::rows::all_hold;
use crate::telling::{is_refusal_of_modules, number_of};
use std::alloc::{AllocError, Global};
use test_modules::{DEFAULT_CASE, ENTRIES, FIRST, NETWORK, SECOND};
use yschema::compile;

/// Whether modules are compiled to so many nodes, or refused at the one at a place. Nothing for want of memory.
pub(crate) fn comes_of(alloc: Global, texts: &[&str], place: usize, told: &str) -> Option<bool> {
    let modules = modules_of(alloc, texts)?;
    match compile(alloc, &modules) {
        Ok(schema) => match told.split_once(' ') {
            Some((nodes, "nodes")) => Some(number_of(nodes)? as usize == schema.nodes()),
            _ => Some(false),
        },
        Err(fault) => is_refusal_of_modules(alloc, fault, place, told),
    }
}

/// Whether this comes of a module of these statements.
pub(crate) fn is_compiled(alloc: Global, statements: &str, told: &str) -> Option<bool> {
    let text = module_text(alloc, statements).ok()?;
    comes_of(alloc, &[text.as_str()], 0, told)
}

// `N nodes/statements` or `CODE:LINE/statements`
fn is_told(alloc: Global, row: &str) -> Option<bool> {
    let (told, statements) = row.split_once('/')?;
    let statements = with_line_feeds(alloc, statements).ok()?;
    is_compiled(alloc, statements.as_str(), told)
}

// Statements behind a version.
fn behind_version(alloc: Global, statements: &str) -> Result<String, AllocError> {
    let mut text = String::from_str(alloc, " yang-version 1.1;\n")?;
    push_with_line_feeds(&mut text, statements)?;
    Ok(text)
}

/// The same of statements behind a version, from the fourth line on.
pub(crate) fn is_told_of(alloc: Global, row: &str) -> Option<bool> {
    let (told, statements) = row.split_once('/')?;
    let text = behind_version(alloc, statements).ok()?;
    is_compiled(alloc, text.as_str(), told)
}

#[test]
fn versions(rt: HostRuntime) {
    let rows = "C2:1/ yang-version 1.1; prefix q;
C4:1/
C4:1/ yang-version 1;
0 nodes/ yang-version 1.1;";
    all_hold(&rt, rt.alloc(), rows, is_told);
}

#[test]
fn compiled(rt: HostRuntime) {
    let rows = "1 nodes/container c;
1 nodes/leaf a { type uint8; default 0x1F; }
2 nodes/list l { config false; leaf a { type string; } }
3 nodes/choice c { leaf a { type string; } }
2 nodes/list l { key k; leaf k { type uint8; mandatory true; default 256; } }
3 nodes/list l { key k; unique d; leaf k { type int64; } leaf d { type boolean; default true; } }
4 nodes/container c { config false; container d { leaf a { type string; } } leaf b { type empty; } }
1 nodes/leaf-list a { config false; type uint8; default 1; default 1; }
1 nodes/leaf-list a { type uint8; default 1; default 2; max-elements 1; ordered-by user; }
2 nodes/leaf a { type leafref { path /p:b; } } leaf b { type bits { bit x { position 3; } bit y; } default 'y x'; }
2 nodes/leaf a { type leafref { path /b; require-instance false; } } leaf b { config false; type string; }
6 nodes/choice c { default a; case a { leaf a { type string; } container b { presence x; } } case d { leaf e { type int8; } } }
2 nodes/list l { key p:k; leaf k { type enumeration { enum a; enum b { value 5; } } } }
1 nodes/leaf a { type union { type uint8; type string { length 1..3; } } default 256; }
1 nodes/leaf a { type decimal64 { fraction-digits 2; range 'min..1.5'; } default +1.50; }";
    all_hold(&rt, rt.alloc(), rows, is_told_of);
}

#[test]
fn refused_statements(rt: HostRuntime) {
    let rows = "C1:5/leaf l { type string;| must 'x'; }
C1:4/rpc r;
C1:5/container c {| augment /p:c { leaf a { type string; } } }
C1:5/container c;|augment /p:c { key k; }
C1:5/container c {| key k; }
C1:4/leaf l { type instance-identifier; }
C1:4/leaf l { type binary; }
C2:4/leaf l;
C2:4/list l { key k; key k;| leaf k { type string; } }
C2:4/leaf a { type uint8; default 1;| default 2; }
C3:4/container 1;
C3:4/container;
C3:5/leaf-list l { type string;| min-elements 01; }
C3:5/list l { config false;| max-elements 0; }
C6:5/leaf l {| type q:t; }
C6:5/leaf l { type leafref {| path /q:l; } }
C6:5/list l {| key q:k; leaf k { type string; } }
C6:6/list l {| key k; leaf k { type string; }| unique q:k; }
C8:5/leaf l {| type word; }
C8:4/leaf l { type p:word; }";
    all_hold(&rt, rt.alloc(), rows, is_told_of);
}

#[test]
fn refused_types(rt: HostRuntime) {
    let rows = "C10:5/leaf l {| type uint8 { range 5..1; } }
C10:4/leaf l { type uint8 { range 0..256; } }
C10:4/leaf l { type uint8 { range 1.5; } }
C10:4/leaf l { type uint8 { length 1; } }
C10:4/leaf l { type string { range 1; } }
C10:4/leaf l { type decimal64; }
C10:4/leaf l { type enumeration; }
C10:4/leaf l { type enumeration { enum a; enum a; } }
C10:4/leaf l { type enumeration { enum ' a'; } }
C10:4/leaf l { type enumeration { enum a { value 2147483647; } enum b; } }
C10:4/leaf l { type bits; }
C10:4/leaf l { type leafref; }
C10:4/leaf l { type union; }
C10:5/leaf l { type union {| type leafref { path /l; } } }
C10:4/leaf l { type boolean { require-instance true; } }";
    all_hold(&rt, rt.alloc(), rows, is_told_of);
}

#[test]
fn typedefs(rt: HostRuntime) {
    let rows = "0 nodes/typedef t { type uint8; default 300; }
1 nodes/typedef t { type uint8; } leaf a { type t; }
1 nodes/leaf a { type p:t; } typedef t { type string; }
1 nodes/typedef t { type uint8; } grouping t { leaf a { type t; } } leaf b { type t; }
2 nodes/container c { typedef t { type string; } leaf a { type t; } }
2 nodes/container c { typedef t { type string; } } container d { typedef t { type uint8; } }
1 nodes/grouping g { list l { key k; typedef t { type uint8; } leaf k { type t; } } } leaf a { type string; }
1 nodes/typedef t { type u { range 2..3; } } typedef u { type int8 { range 1..9; } } leaf a { type t; default 2; }
2 nodes/typedef r { type leafref { path /b; } } leaf a { type r; } leaf b { type string; }
1 nodes/typedef t { type union { type s; type uint8; } } typedef s { type string { length 1; } } leaf a { type t; default 25; }
1 nodes/typedef t { type uint8; default 7; } leaf a { type t { range 1..7; } }
1 nodes/typedef t { type uint8; default 300; } leaf a { type t; mandatory true; }
1 nodes/typedef t { type uint8; default 300; } leaf-list a { type t; min-elements 1; }
1 nodes/typedef t { type uint8; default 300; } leaf a { type t; default 3; }
2 nodes/typedef t { type uint8; default 300; } list l { key k; leaf k { type t; } }";
    all_hold(&rt, rt.alloc(), rows, is_told_of);
}

#[test]
fn refused_typedefs(rt: HostRuntime) {
    let rows = "C1:4/typedef t { type string; config true; }
C2:4/typedef t;
C7:5/typedef t { type string; }|typedef t { type uint8; }
C7:5/typedef t { type string; }|container c { typedef t { type uint8; } }
C7:4/container c { typedef t { type uint8; } }|typedef t { type string; }
C7:5/grouping g;|grouping g;
C7:4/typedef string { type uint8; }
C7:4/typedef binary { type uint8; }
C8:5/container c { typedef t { type string; } }|leaf a { type t; }
C8:5/grouping g {| leaf a { type t; } }
C9:4/typedef a { type b; }|typedef b { type a; }
C9:4/typedef t { type union { type string; type t; } }
C10:5/typedef a { type int32 { range 1..10; } }|typedef b { type a { range 0..10; } }
C10:5/typedef a { type int32 { range 1..10; } }|leaf b { type a { range 1..11; } }
C10:5/typedef a { type string; }|leaf b { type a { range 1; } }
C10:5/typedef a { type enumeration { enum x; } }|leaf b { type a { enum x; } }
C10:5/typedef r { type leafref { path /a; } }|leaf a { type union { type r; type string; } }
C10:5/typedef t { type uint8; }|leaf a { type t { fraction-digits 1; } }
C10:4/typedef t { type uint8 { range 5..1; } }|leaf a { type t { range 7..6; } }
C10:6/grouping g { list l { key k;| typedef t { type uint8 { range 1..5; } }| leaf k { type t { range 2..6; } } } }
C11:5/typedef t { type uint8; default 7; }|leaf a { type t { range 1..6; } }
C11:5/typedef t { type uint8; default x; }|leaf-list a { type t; }
C17:5/typedef r { type leafref { path /b; } }|leaf a { type r; }";
    all_hold(&rt, rt.alloc(), rows, is_told_of);
}

// A typedef of the one before.
fn push_typedef(alloc: Global, text: &mut String, before: u32) -> Result<(), AllocError> {
    let number = before.saturating_add(1);
    let typedef = format!(in alloc; "typedef t{number} {{ type t{before}; }}")?;
    text.push_str(typedef.as_str())
}

// A typedef of numbers up to 100, as many more as are asked for, each of the one before, and a leaf of the last.
fn chained(alloc: Global, typedefs: u32, default: &str) -> Result<String, AllocError> {
    let start = " yang-version 1.1;\ntypedef t0 { type uint8 { range 0..100; } }";
    let mut text = String::from_str(alloc, start)?;
    for before in 0..typedefs {
        push_typedef(alloc, &mut text, before)?;
    }
    let leaf = format!(in alloc; "\nleaf a {{ type t{typedefs}; default {default}; }}")?;
    text.push_str(leaf.as_str())?;
    Ok(text)
}

// `N nodes/typedefs/default` or `CODE:LINE/typedefs/default`
fn may_chain(alloc: Global, row: &str) -> Option<bool> {
    let (told, row) = row.split_once('/')?;
    let (typedefs, default) = row.split_once('/')?;
    let statements = chained(alloc, number_of(typedefs)?, default).ok()?;
    is_compiled(alloc, statements.as_str(), told)
}

#[test]
fn chains_of_typedefs(rt: HostRuntime) {
    let rows = "1 nodes/100/100
C11:5/100/101";
    all_hold(&rt, rt.alloc(), rows, may_chain);
}

#[test]
fn refused_values(rt: HostRuntime) {
    let rows = "C11:4/leaf a { type uint8; default 256; }
C11:4/leaf a { type uint8; default 08; }
C11:4/leaf a { type uint8;| mandatory true; default 1; }
C11:4/leaf a { type empty; default ''; }
C11:5/container c {| leaf-list a { type uint8; default 1; default 0x1; } }
C11:4/leaf-list a { type uint8; min-elements 1; default 1; }
C11:4/choice c { default b; case a { leaf b { type string; } } }
C11:4/choice c { default a; mandatory true; leaf a { type string; } }
C11:4/choice c { default a; case a { leaf b { type string; mandatory true; } } }
C11:4/choice c { default a; case a { container b { list l { min-elements 1; config false; } } } }
C16:4/list l { leaf a { type string; } }
C16:5/container c;| list l;
C16:5/container c { config false;| leaf a { config true; type string; } }";
    all_hold(&rt, rt.alloc(), rows, is_told_of);
}

#[test]
fn refused_names(rt: HostRuntime) {
    let rows = "C12:4/list l {| key k; leaf a { type string; } }
C12:4/list l {| key k; container k { } }
C12:4/list l { key 'k k'; leaf k { type string; } }
C12:4/list l { key k; leaf k { config false; type string; } }
C12:4/list l { key k; choice c { leaf k { type string; } } }
C12:4/list l { key k; unique b; leaf k { type string; } }
C12:4/list l { key k; unique c; leaf k { type string; } container c; }
C12:4/list l { key k; unique 'k s'; leaf k { type string; } leaf s { config false; type string; } }
C12:4/list l { key k; unique m/n; leaf k { type string; } list m { key n; leaf n { type string; } } }
C13:5/container c;| container c;
C13:5/leaf a { type string; }| choice c { leaf a { type string; } }
C13:5/choice c { case a { leaf b { type string; } }| case a { leaf d { type string; } } }
C13:6/choice c {| case a { leaf b { type string; } }| case c { leaf b { type string; } } }
C17:4/leaf a {| type leafref { path /b; } }
C17:5/container c;| leaf a { type leafref { path /p:c; } }
C17:4/leaf a { type leafref { path /p:a; } }
C17:4/leaf a { type leafref { path /b; } }| leaf b { config false; type string; }
C17:4/leaf a { type leafref { path /c/b; } }| choice c { leaf b { type string; } }";
    all_hold(&rt, rt.alloc(), rows, is_told_of);
}

// A code is told only where no earlier phase has one, and within a phase the first line's.
#[test]
fn first_phase(rt: HostRuntime) {
    let rows = "C1:6/leaf a { type word; }| leaf a { type q:t; }| rpc r;
C6:5/leaf a { type word; }| leaf a { type q:t; }
C8:5/leaf a { type uint8 { range 5..1; } }| leaf a { type word; }
C10:4/leaf a { type uint8 { range 5..1; } }| leaf b { type string; }| leaf b { type string; }
C13:6/leaf a { type uint8; default 256; }| leaf b { type string; }| leaf b { type string; }
C16:4/list l;| leaf a { type uint8; default 256; }
C11:4/leaf a { type uint8; default 256; }| list l;";
    all_hold(&rt, rt.alloc(), rows, is_told_of);
}

// `CODE:LINE/module`, of a second module, which begins in its second line.
fn is_second_told(alloc: Global, row: &str) -> Option<bool> {
    let (told, module) = row.split_once('/')?;
    let text = with_line_feeds(alloc, module).ok()?;
    comes_of(alloc, &[FIRST, text.as_str()], 1, told)
}

#[test]
fn second_modules(rt: HostRuntime) {
    let rows = "C1:2/|submodule s { }
C4:2/|module a { namespace 'urn:b'; prefix pb; }
C6:3/|module b { yang-version 1.1; namespace 'urn:b'; prefix pb;| leaf l { type pa:t; } }
C7:2/|module a { yang-version 1.1; namespace 'urn:b'; prefix pb; }
C12:3/|module b { yang-version 1.1; namespace 'urn:b'; prefix pb;| list l { key x; } }
C17:3/|module b { yang-version 1.1; namespace 'urn:b'; prefix pb;| leaf l { type leafref { path /c/x; } } }
7 nodes/|module b { yang-version 1.1; namespace 'urn:b'; prefix pb; container c { leaf x { type string; } } }
5 nodes/|module A { yang-version 1.1; namespace 'urn:a'; prefix pa; }";
    all_hold(&rt, rt.alloc(), rows, is_second_told);
    let is_told = comes_of(rt.alloc(), &[FIRST, SECOND, FIRST], 2, "C7:1");
    assert!(rt; is_told == Some(true), "a module given twice");
}

/// Whether modules with lists and choices, and two at once, are compiled to so many nodes.
pub(crate) fn are_compiled(alloc: Global) -> Option<bool> {
    let are_lists = comes_of(alloc, &[NETWORK], 0, "12 nodes")?
        && comes_of(alloc, &[ENTRIES], 0, "5 nodes")?;
    let is_choice = comes_of(alloc, &[DEFAULT_CASE], 0, "6 nodes")?;
    Some(are_lists && is_choice && comes_of(alloc, &[FIRST, SECOND], 0, "7 nodes")?)
}

#[test]
fn numbers_of_kinds(rt: HostRuntime) {
    assert!(rt; are_compiled(rt.alloc()) == Some(true));
}

// A module of statements behind a version, from the fourth line on.
fn versioned(alloc: Global, statements: &str) -> Result<String, AllocError> {
    let statements = behind_version(alloc, statements)?;
    module_text(alloc, statements.as_str())
}

// What comes of it before and behind the first module.
fn is_told_beside(alloc: Global, row: &str) -> Option<bool> {
    let (told, statements) = row.split_once('/')?;
    let text = versioned(alloc, statements).ok()?;
    let is_before = comes_of(alloc, &[text.as_str(), FIRST], 0, told)?;
    Some(is_before && comes_of(alloc, &[FIRST, text.as_str()], 1, told)?)
}

#[test]
fn imports(rt: HostRuntime) {
    let rows = "5 nodes/import a { prefix pa; }
6 nodes/import a { prefix q; }|leaf b { type leafref { path '/q:y'; } }
6 nodes/import a { prefix q; }|import a { prefix r; }|leaf b { type leafref { path '/r:c/q:x'; } }
C5:4/import zz { prefix q; }
C5:5/|import a { prefix q; revision-date 2020-01-01; }
C6:5/import a { prefix q; }|leaf b { type leafref { path '/pa:y'; } }
C6:4/import a { prefix p; }
C6:5/import a { prefix q; }|import a { prefix q; }
C6:5/import zz { prefix q; }|leaf b { type zz:t; }
C8:5/import a { prefix q; }|leaf b { type q:t; }
C9:4/import m { prefix q; }";
    all_hold(&rt, rt.alloc(), rows, is_told_beside);
}

// Of three modules that import one another in a circle, and one that leads to them.
fn importing(letter: char) -> &'static str {
    match letter {
        'a' => "module a {\n yang-version 1.1; namespace u; prefix a;\n import b { prefix b; } }",
        'b' => "module b {\n yang-version 1.1; namespace u; prefix b;\n\n import c { prefix c; } }",
        'c' => {
            "module c {\n yang-version 1.1; namespace u; prefix c;\n\n\n import a { prefix a; } }"
        }
        _ => "module d {\n yang-version 1.1; namespace u; prefix d; import a { prefix a; } }",
    }
}

// `CODE:LINE/place/modules`: what comes of them in this order, and at which.
fn is_told_in_order(alloc: Global, row: &str) -> Option<bool> {
    let (told, row) = row.split_once('/')?;
    let (place, letters) = row.split_once('/')?;
    let mut texts = Vec::new(alloc);
    for letter in letters.chars() {
        texts.push(importing(letter)).ok()?;
    }
    comes_of(alloc, &texts, number_of(place)? as usize, told)
}

// Each import of a circle is told where its module is given first, and none that leads to it.
#[test]
fn circles_of_imports(rt: HostRuntime) {
    let rows = "C9:3/0/abcd
C9:4/0/bcad
C9:5/0/cabd
C9:5/1/dcba
C9:3/1/dabc
C5:2/0/dcb";
    all_hold(&rt, rt.alloc(), rows, is_told_in_order);
}

const TYPES: &str = "module t {
  yang-version 1.1; namespace \"urn:t\"; prefix t;
  typedef t { type uint8 { range 1..9; } default 4; }
  container c { typedef inner { type string; } }
}
";

// Whether this comes of a module beside another that defines types.
fn is_told_of_types(alloc: Global, row: &str) -> Option<bool> {
    let (told, statements) = row.split_once('/')?;
    let text = versioned(alloc, statements).ok()?;
    comes_of(alloc, &[TYPES, text.as_str()], 1, told)
}

#[test]
fn types_of_another_module(rt: HostRuntime) {
    let rows =
        "2 nodes/import t { prefix q; }|typedef t { type string; }|leaf b { type q:t; default 9; }
C8:5/import t { prefix q; }|leaf b { type q:inner; }
C8:5/import t { prefix q; }|leaf b { type t; }
C10:5/import t { prefix q; }|leaf b { type q:t { range 0..9; } }
C11:5/import t { prefix q; }|leaf b { type q:t; default 10; }
C11:5/import t { prefix q; }|leaf b { type q:t { range 5..9; } }";
    all_hold(&rt, rt.alloc(), rows, is_told_of_types);
}

const EARLIER: &str = "module b {
  yang-version 1.1; namespace \"urn:b\"; prefix b;
  import a { prefix a; }
  revision 2020-01-02; revision 2020-01-03; revision 2020-01-01;
}
";

// Whether this comes of a module that imports one of several revisions, which imports the first module.
fn is_told_of_revisions(alloc: Global, row: &str) -> Option<bool> {
    let (told, date) = row.split_once('/')?;
    let import = format!(in alloc; "import b {{ prefix b; revision-date {date}; }}").ok()?;
    let text = versioned(alloc, import.as_str()).ok()?;
    comes_of(alloc, &[EARLIER, text.as_str(), FIRST], 1, told)
}

#[test]
fn revisions(rt: HostRuntime) {
    let rows = "5 nodes/2020-01-03
C5:4/2020-01-02
C5:4/2020-01-01
C5:4/2020-01-04";
    all_hold(&rt, rt.alloc(), rows, is_told_of_revisions);
}

#[test]
fn no_modules(rt: HostRuntime) {
    assert!(rt; comes_of(rt.alloc(), &[], 0, "0 nodes") == Some(true));
}

// So many containers, each in the one before, around a statement.
fn nested(alloc: Global, levels: u32, inside: &str) -> Result<String, AllocError> {
    let mut text = String::from_str(alloc, " yang-version 1.1;\n")?;
    push_times(&mut text, "container c {", levels)?;
    text.push_str(inside)?;
    push_times(&mut text, "}", levels)?;
    Ok(text)
}

// `N nodes/levels/statement` or `CODE:LINE/levels/statement`
fn may_nest(alloc: Global, row: &str) -> Option<bool> {
    let (told, row) = row.split_once('/')?;
    let (levels, inside) = row.split_once('/')?;
    let statements = nested(alloc, number_of(levels)?, inside).ok()?;
    is_compiled(alloc, statements.as_str(), told)
}

// Choices and cases are levels too.
#[test]
fn levels(rt: HostRuntime) {
    let rows = "60 nodes/60/
C18:1/61/
60 nodes/57/choice d { leaf a { type string; } }
C18:1/58/choice d { leaf a { type string; } }";
    all_hold(&rt, rt.alloc(), rows, may_nest);
}

// Whether the limit of levels is told at the last module, in its line.
fn is_told_at_last(alloc: Global, levels: u32) -> Option<bool> {
    let statements = nested(alloc, levels, "").ok()?;
    let text = module_text(alloc, statements.as_str()).ok()?;
    comes_of(alloc, &[text.as_str(), SECOND], 1, "C18:1")
}

#[test]
fn limits_of_sets(rt: HostRuntime) {
    assert!(rt; is_told_at_last(rt.alloc(), 61) == Some(true));
}

// Pushes `type tN;` of so many typedefs.
fn push_types(alloc: Global, text: &mut String, count: u32) -> Result<(), AllocError> {
    for number in 0..count {
        text.push_str(format!(in alloc; "type t{number}; ")?.as_str())?;
    }
    Ok(())
}

// A typedef that doubles the one below.
fn push_twice(alloc: Global, text: &mut String, number: u32, below: u32) -> Result<(), AllocError> {
    let typedef = format!(in alloc;
        "typedef t{number} {{ type union {{ type t{below}; type t{below}; }} }}\n"
    )?;
    text.push_str(typedef.as_str())
}

// Sixteen typedefs that double, the last of 32,768 members, in lines 4 to 19, and a leaf whose type stands in line 21: a
// union of all of them and of these members.
fn doubling(alloc: Global, more: &str) -> Result<String, AllocError> {
    let mut text = String::from_str(alloc, " yang-version 1.1;\ntypedef t0 { type int8; }\n")?;
    for number in 1..16u32 {
        push_twice(alloc, &mut text, number, number - 1)?;
    }
    text.push_str("leaf a {\ntype union { ")?;
    push_types(alloc, &mut text, 16)?;
    text.push_str(more)?;
    text.push_str(" } }")?;
    Ok(text)
}

// `N nodes/members` or `CODE:LINE/members`
fn may_join(alloc: Global, row: &str) -> Option<bool> {
    let (told, more) = row.split_once('/')?;
    let more = with_line_feeds(alloc, more).ok()?;
    let statements = doubling(alloc, more.as_str()).ok()?;
    is_compiled(alloc, statements.as_str(), told)
}

// A union has at most 65,535 members; what rests on a larger one isn't judged.
#[test]
fn members_of_unions(rt: HostRuntime) {
    let rows = "1 nodes/
C18:21/type int8;
C18:21/type t15;
C18:21/type union { type union { type t15; type t15; } }
C10:22/|type int8 { length 1; }";
    all_hold(&rt, rt.alloc(), rows, may_join);
}

// Whether this comes of so many containers beside each other, all of one name.
fn may_stand(alloc: Global, nodes: u32, told: &str) -> Option<bool> {
    let mut text = String::from_str(alloc, " yang-version 1.1;\n").ok()?;
    push_times(&mut text, "container c;", nodes).ok()?;
    is_compiled(alloc, text.as_str(), told)
}

// So many leafs beside each other, no two of one name.
fn leafs(alloc: Global, nodes: u32) -> Result<String, AllocError> {
    let mut text = String::from_str(alloc, " yang-version 1.1;\n")?;
    for number in 0..nodes {
        let leaf = format!(in alloc; "leaf l{number} {{ type empty; }}\n")?;
        text.push_str(leaf.as_str())?;
    }
    Ok(text)
}

// Whether this comes of so many leafs.
fn may_differ(alloc: Global, nodes: u32, told: &str) -> Option<bool> {
    let text = leafs(alloc, nodes).ok()?;
    is_compiled(alloc, text.as_str(), told)
}

// The number of nodes is judged before their names.
#[test]
fn more_nodes_than_there_may_be(rt: HostRuntime) {
    assert!(rt; may_stand(rt.alloc(), 65536, "C18:1") == Some(true));
}

// At the limit they compile.
#[test]
fn as_many_nodes_as_there_may_be(rt: HostRuntime) {
    assert!(rt; may_differ(rt.alloc(), 65535, "65535 nodes") == Some(true));
}
