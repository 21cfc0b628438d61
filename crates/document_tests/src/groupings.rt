//! Groupings in use: what modules with them are compiled to, and how they are refused.

use crate::building::{module_text, with_line_feeds};
use crate::compiling::{comes_of, is_compiled, is_told_of};
use crate::kinds::has_nodes;
use crate::rows::{all_hold, all_parts_hold};
use crate::telling::number_of;
use std::alloc::{AllocError, Global};

// Each `uses` is replaced where it stands, whichever of both comes first; a grouping that nobody uses makes no node.
#[test]
fn used(rt: HostRuntime) {
    let rows = "0 nodes/grouping g { leaf a { type string; } }
0 nodes/grouping g;|uses g;
1 nodes/grouping g { leaf a { type string; } }|uses g;
1 nodes/uses p:g;|grouping g { leaf a { type string; } }
3 nodes/leaf a { type string; }|uses g;|leaf c { type string; }|grouping g { leaf b { type string; } }
2 nodes/container c { grouping g { leaf a { type string; } } uses g; }
4 nodes/grouping g { grouping h { leaf a { type string; } } container c { uses h; } uses h; }|container d { uses g; }
4 nodes/grouping g { leaf a { type string; } }|container c { uses g; }|container d { uses g; }
1 nodes/grouping g { grouping h { uses g; } leaf a { type string; } }|uses g;
1 nodes/grouping g { leaf a { type t; } typedef t { type uint8; } }|uses g { status deprecated; }
5 nodes/grouping g { choice c { leaf a { type string; } case b { uses h; } } }|grouping h { leaf b { type string; } }|uses g;
2 nodes/grouping g { leaf k { type string; } }|list l { key k; uses g; }
3 nodes/grouping g { list l { leaf a { type string; } } }|container c { config false; uses g; }
2 nodes/grouping g { list l { leaf a { type string; } } }|uses g { refine l { config false; } }
2 nodes/grouping g { leaf r { type leafref { path /p:a; } } }|uses g;|leaf a { type string; }
2 nodes/grouping g { leaf r { type leafref { path /a; } } }|uses g { refine r { config false; } }|leaf a { config false; type string; }
1 nodes/grouping g { leaf a { type uint8; default 256; }| leaf a { type string; } }|leaf b { type string; }
1 nodes/grouping g { leaf a { type uint8; } }|grouping h { uses g { refine b; } }|leaf c { type string; }";
    all_hold(&rt, rt.alloc(), rows, is_told_of);
}

// Up to their types all groupings are judged, used or not.
#[test]
fn refused_groupings(rt: HostRuntime) {
    let rows = "C1:5/grouping g { container c; }|uses g { augment c { leaf a { type string; } } }
C1:4/choice c { uses g; }|grouping g;
C1:6/grouping g { leaf a { type string; } }|uses g {| refine a { status current; } }
C1:5/grouping g {| leaf a { type string; refine b; } }
C2:6/grouping g { container a; }|uses g {| refine a { presence x; presence y; } }
C3:4/uses;|grouping g;
C3:6/grouping g { leaf a { type string; } }|uses g {| refine /a; }
C6:4/uses q:g;|grouping g;
C6:5/grouping g {| uses q:h; }
C6:6/grouping g { leaf a { type string; } }|uses g {| refine q:a; }
C7:5/grouping g;|container c { grouping g; }
C8:4/uses g;
C8:5/container c { grouping g; }|uses g;
C8:5/typedef g { type string; }|uses g;
C9:4/grouping g { uses g; }
C9:5/grouping g {| uses h; }|grouping h { container c { uses g; } }
C9:6/container c;|grouping g {| uses g; }|uses g;
C9:4/grouping g { grouping h { uses g; } uses h; }
C10:5/grouping g {| leaf a { type uint8 { range 5..1; } } }
C10:6/grouping g { leaf a { type uint8; } }|uses g { refine b; }|leaf b { type uint8 { range 5..1; } }";
    all_hold(&rt, rt.alloc(), rows, is_told_of);
}

// Behind that the nodes are judged that stand there, refined, and what they break is told at their statements.
#[test]
fn refused_nodes(rt: HostRuntime) {
    let rows = "C11:5/grouping g {| leaf a { type uint8; default 256; } }|uses g;
1 nodes/grouping g {| leaf a { type uint8; default 256; } }|uses g { refine a { default 7; } }
C11:5/grouping g {| leaf a { type uint8; } }|uses g { refine a { default 256; } }
C11:5/grouping g {| leaf a { type uint8; default 7; } }|uses g { refine a { mandatory true; } }
1 nodes/grouping g {| leaf a { type uint8; default 7; mandatory true; } }|uses g { refine a { mandatory false; } }
C11:5/grouping g {| leaf-list a { type uint8; default 7; } }|uses g { refine a { min-elements 1; } }
C11:5/grouping g {| leaf-list a { type uint8; } }|uses g { refine a { default 7; default 0x7; } }
1 nodes/grouping g {| leaf-list a { type uint8; } }|uses g { refine a { default 7; default 7; config false; } }
C11:5/grouping g {| choice c { leaf a { type string; } } }|uses g { refine c { default b; } }
C11:5/grouping g {| choice c { default a; leaf a { type string; } } }|uses g { refine c { mandatory true; } }
C11:5/grouping g {| choice c { default a; leaf a { type string; } } }|uses g { refine c/a/a { mandatory true; } }
C12:4/list l { key k; uses g; }|grouping g { container k; }
C12:5/grouping g {| list l { key k; leaf k { type string; } } }|uses g { refine l/k { config false; } }
C13:6/grouping g { leaf a { type string; } }|uses g;|leaf a { type string; }
C13:5/grouping g {| leaf a { type string; } }|leaf a { type string; }|uses g;
C13:5/grouping g {| leaf a { type string; } }|uses g;|uses g;
C13:5/grouping g {| leaf a { type string; } }|choice c { case a { uses g; } case b { uses g; } }
C16:5/grouping g {| leaf a { type string; config true; } }|container c { config false; uses g; }
C16:5/grouping g {| leaf a { type string; } }|container c { config false; uses g { refine a { config true; } } }
C16:5/grouping g {| list l { leaf a { type string; } } }|uses g;
C17:5/grouping g {| leaf r { type leafref { path /a; } } }|container c { leaf a { type string; } uses g; }
C17:5/grouping g {| leaf r { type leafref { path /a; } } }|uses g;|leaf a { config false; type string; }";
    all_hold(&rt, rt.alloc(), rows, is_told_of);
}

// A refine needs a node of its grouping at its path that may bear all that it gives. It is told before names are judged,
// and once its `uses` is replaced alone.
#[test]
fn unfit_refines(rt: HostRuntime) {
    let rows = "C14:5/grouping g { leaf a { type uint8; } }|uses g { refine b { default 7; } }
1 nodes/grouping g { leaf a { type uint8; } }|uses g { refine a { default 7; } }
C14:5/grouping g { leaf a { type uint8; } }|uses g { refine a/b { default 7; } }
C14:7/grouping g { leaf a { type uint8; } }|leaf b { type uint8; }|uses g {| refine b { default 7; } }
C14:7/grouping g { leaf a { type uint8; } }|uses g {| refine a { default 7; }| refine a { presence x; } }
C14:5/grouping g { leaf a { type uint8; } }|uses g { refine a { min-elements 0; } }
C14:5/grouping g { leaf a { type uint8; } }|uses g { refine a { default 7; default 8; } }
C14:5/grouping g { container a; }|uses g { refine a { default 7; } }
C14:5/grouping g { leaf-list a { type uint8; } }|uses g { refine a { mandatory true; } }
C14:5/grouping g { list a { config false; } }|uses g { refine a { mandatory true; } }
C14:5/grouping g { choice c { container a; } }|uses g { refine c { default a; default a; } }
C14:5/grouping g { choice c { case a { leaf b { type uint8; } } } }|uses g { refine c/a { config false; } }
C14:5/grouping g { choice c { leaf a { type uint8; } } }|uses g { refine c/a { default 7; } }
C14:5/grouping g { choice c { leaf a { type uint8; } } }|uses g { refine a { default 7; } }
C14:6/grouping g { leaf a { type uint8; } }|grouping h {| container c { uses g { refine b; } } }|uses h;
C14:5/grouping g { leaf a { type uint8; } }|grouping h { uses g { refine b; } }|container c { uses g { refine d; } }|uses h;
C14:6/grouping g { leaf a { type uint8; }| leaf a { type uint8; } }|uses g { refine b { default 7; } }
C13:5/grouping g { leaf a { type uint8; }| leaf a { type string; } }|uses g { refine a { default 300; } }";
    all_hold(&rt, rt.alloc(), rows, is_told_of);
}

// Statements of a module from the fourth line on, a line `--`, and a line for each node that they make.
fn is_made(alloc: Global, row: &str) -> Option<bool> {
    let (statements, nodes) = row.split_once("--\n")?;
    let mut text = String::from_str(alloc, " yang-version 1.1;\n").ok()?;
    text.push_str(statements).ok()?;
    let text = module_text(alloc, text.as_str()).ok()?;
    has_nodes(alloc, text.as_str(), nodes)
}

// What a refine gives takes the place of what its target states of that kind, and of nothing else.
#[test]
fn refined_nodes(rt: HostRuntime) {
    let rows = "grouping g { leaf a { type uint8; default 8; } }
uses g { refine a { default 7; } }
--
leaf else 7 a
==
grouping g { leaf-list a { type uint8; default 1; default 2; default 3; } }
uses g { refine a { default 7; default 8; } }
--
items 2 0 on a
==
grouping g { leaf-list a { type uint8; min-elements 1; } list l { key k; leaf k { type string; } } }
uses g { refine a { min-elements 2; max-elements 3; } refine l { max-elements 5; } }
--
items 0 2 to 3 a
list /2 0 to 5 l
key k
==
grouping g { container a; leaf b { type string; mandatory true; } }
uses g { refine a { presence x; } refine b { mandatory false; } }
--
presence a
leaf b
==
grouping g { container a { leaf b { type string; } } leaf c { type string; } }
uses g { refine a { config false; } refine c { mandatory true; description x; } }
--
state container a
state leaf b
mandatory leaf c
==
grouping g { choice c { default a; leaf a { type uint8; } case b { container b; } } }
uses g { refine c { default b; } refine c/a/a { default 7; } refine c/b { description x; } }
--
choice else 3 c
case a
leaf else 7 a
case b
container b
==
grouping g { choice c { leaf a { type uint8; } case b { leaf d { type string; } } } }
uses g { refine c { mandatory true; } refine c/a; refine c/b/d { default x; } }
--
mandatory choice c
case a
leaf a
case b
leaf else x d
==
grouping g { leaf k { type string; mandatory true; } leaf v { type uint8; } }
list l { key k; unique v; uses g { refine v { default 7; } } }
--
list /1 unique /2 0 on l
key k
leaf else 7 v
";
    all_parts_hold(&rt, rt.alloc(), rows, is_made);
}

// Of one `uses` the later refine holds, and of several the outer one's.
#[test]
fn nested_refines(rt: HostRuntime) {
    let rows = "grouping g { leaf a { type uint8; } }
uses g { refine a { default 6; } refine a { default 7; } refine a { config false; } }
--
state leaf else 7 a
==
grouping g { leaf a { type uint8; } }
grouping h { uses g { refine a { default 6; } } }
uses h { refine a { default 7; } }
--
leaf else 7 a
==
grouping g { leaf a { type uint8; } }
grouping h { uses g { refine a { default 6; } } }
uses h { refine a { config false; } }
--
state leaf else 6 a
==
grouping g { leaf a { type uint8; } }
grouping h { container x { uses g; } container y { uses p:g; } }
uses h { refine p:y/a { default 7; } }
--
container x
leaf a
container y
leaf else 7 a
==
grouping g { leaf a { type uint8; default 1; } }
container c { uses g { refine a { default 7; } } }
container d { uses g; }
--
container c
leaf else 7 a
container d
leaf else 1 a
==
grouping g { container c { grouping i { leaf a { type uint8; } } uses i { refine a { default 2; } } } }
container d { uses g { refine c/a { mandatory false; } } }
--
container d
container c
leaf else 2 a
";
    all_parts_hold(&rt, rt.alloc(), rows, is_made);
}

// A module of a name, which is its prefix too, with what it imports, and these lines from the third on.
fn named_module(
    alloc: Global,
    name: &str,
    imports: &str,
    lines: &str,
) -> Result<String, AllocError> {
    let mut text = String::from_str(alloc, "module ")?;
    text.push_str(name)?;
    text.push_str(" { yang-version 1.1; namespace u; prefix ")?;
    text.push_str(name)?;
    text.push_str(";\n")?;
    text.push_str(imports)?;
    text.push_str("\n")?;
    text.push_str(lines)?;
    text.push_str("}")?;
    Ok(text)
}

// What comes of a module of groupings and of one that imports it: `N nodes/place` or `CODE:LINE/place`, the lines of both
// modules from the third on, and a line `--` between them.
fn is_told_of_both(alloc: Global, row: &str) -> Option<bool> {
    let (told, lines) = row.split_once('\n')?;
    let (told, place) = told.split_once('/')?;
    let (groupings, users) = lines.split_once("--\n")?;
    let first = named_module(alloc, "s", "", groupings).ok()?;
    let second = named_module(alloc, "u", "import s { prefix s; }", users).ok()?;
    let place = number_of(place)? as usize;
    comes_of(alloc, &[first.as_str(), second.as_str()], place, told)
}

// Names of types and groupings, and prefixes, mean what they mean where the grouping stands; its nodes belong to the
// module that uses it, and so do those that names without a prefix lead to.
#[test]
fn groupings_of_another_module(rt: HostRuntime) {
    let rows = "1 nodes/0
typedef t { type uint8 { range 0..9; } }
grouping g { leaf v { type t; default 9; } }
--
typedef t { type string; }
uses s:g;
==
C11:4/0
typedef t { type uint8 { range 0..9; } }
grouping g { leaf v { type t; } }
--
typedef t { type string; }
uses s:g { refine v { default x; } }
==
C8:3/0
grouping g { leaf v { type t; } }
--
typedef t { type uint8; }
uses s:g;
==
C8:3/1
container c { grouping g; }
--
uses s:g;
==
C8:4/1
grouping g;
--
leaf a { type string; }
uses g;
==
C6:3/0
grouping g { uses u:h; }
--
grouping h;
==
C13:3/0
grouping g { leaf v { type uint8; } }
--
leaf v { type string; }
uses s:g;
==
2 nodes/0
grouping g { leaf v { type uint8; } }
leaf v { type string; }
--
uses s:g { refine v { default 7; } refine u:v { config false; } }
==
C14:4/1
grouping g { leaf v { type uint8; } }
--
uses s:g {
refine s:v { default 7; } }
==
2 nodes/0
grouping g { leaf v { type uint8; } }
grouping h { uses g { refine v { default 7; } } }
uses h;
--
uses s:h;
==
1 nodes/0
grouping g { leaf v { type uint8; } }
grouping h { uses g { refine s:v { default 7; } } }
uses h;
--
==
C14:4/0
grouping g { leaf v { type uint8; } }
grouping h { uses g { refine s:v { default 7; } } }
uses h;
--
uses s:h;
==
2 nodes/0
grouping g { leaf a { type uint8; } leaf r { type leafref { path /a; } } }
--
uses s:g;
==
C17:4/0
grouping g { leaf a { type uint8; }
leaf r { type leafref { path /s:a; } } }
--
uses s:g;
==
4 nodes/0
grouping g { leaf a { type uint8; } leaf r { type leafref { path /s:a; } } }
uses g;
--
uses s:g;
==
2 nodes/0
grouping g { list l { key k; leaf k { type string; } } }
--
uses s:g;
==
C12:3/0
grouping g { list l { key s:k; leaf k { type string; } } }
--
uses s:g;
==
3 nodes/0
grouping g { list l { key k; unique v; leaf k { type string; } leaf v { type string; } } }
--
uses s:g;
==
C12:3/0
grouping g { list l { key k; unique s:v; leaf k { type string; } leaf v { type string; } } }
--
uses s:g;
==
C12:3/1
grouping g { leaf k { type string; } }
--
list l { key s:k; uses s:g; }
==
2 nodes/0
grouping g { leaf k { type string; } }
--
list l { key u:k; uses s:g; }
";
    all_parts_hold(&rt, rt.alloc(), rows, is_told_of_both);
}

// A text in which `#` stands for the name of the grouping of a number.
fn push_naming(
    alloc: Global,
    text: &mut String,
    body: &str,
    number: u32,
) -> Result<(), AllocError> {
    let name = format!(in alloc; "g{number}")?;
    for letter in body.chars() {
        if letter == '#' {
            text.push_str(name.as_str())?;
        } else {
            text.push(letter)?;
        }
    }
    Ok(())
}

// A grouping in line 4, so many more behind it, a line each, in whose body `#` is the one before, and statements in which
// it is the last.
fn chained(
    alloc: Global,
    first: &str,
    number: u32,
    body: &str,
    last: &str,
) -> Result<String, AllocError> {
    let mut text = String::from_str(alloc, " yang-version 1.1;\ngrouping g0 { ")?;
    text.push_str(first)?;
    text.push_str(" }\n")?;
    for before in 0..number {
        push_naming(alloc, &mut text, "grouping # { ", before + 1)?;
        push_naming(alloc, &mut text, body, before)?;
        text.push_str(" }\n")?;
    }
    push_naming(alloc, &mut text, last, number)?;
    Ok(text)
}

// `what is told/statements of the first grouping/how many more/the body of each/statements behind them`
fn may_chain(alloc: Global, row: &str) -> Option<bool> {
    let (told, row) = row.split_once('/')?;
    let (first, row) = row.split_once('/')?;
    let (number, row) = row.split_once('/')?;
    let (body, last) = row.split_once('/')?;
    let last = with_line_feeds(alloc, last).ok()?;
    let statements = chained(alloc, first, number_of(number)?, body, last.as_str()).ok()?;
    is_compiled(alloc, statements.as_str(), told)
}

// Nodes are counted, and groupings without nodes are passed over, though each uses the one before it twice. Refines there
// are told as others are, but behind the number of nodes.
#[test]
fn chains_of_groupings(rt: HostRuntime) {
    let rows =
        "22 nodes/leaf a { type string; }/3/container x { uses #; } container y { uses #; }/uses #;
12286 nodes/leaf a { type string; }/12/container x { uses #; } container y { uses #; }/uses #;
C18:1/leaf a { type string; }/15/container x { uses #; } container y { uses #; }/uses #;
C18:1/leaf a { type string; }/40/container x { uses #; } container y { uses #; }/uses #;
C18:1/leaf a { type string; }/40/container x { uses #; } container y { uses #; }/uses # { refine b; }
0 nodes//40/uses #; uses #;/uses #;
C14:5//40/uses # { refine x; } uses #;/uses #;
C14:45//40/uses #; uses #;/uses # { refine x; }
C14:46//40/uses #; uses #;/grouping h {| uses #; uses # { refine x; } }|uses h;
0 nodes//40/uses #; uses #;/grouping h { uses # { refine x; } }
60 nodes//60/container c { uses #; }/uses #;
C18:1//61/container c { uses #; }/uses #;
60 nodes/container c;/59/container c { uses # { refine c { presence x; } } }/uses #;
2 nodes/container c;/40/uses #; container d { uses #; }/container e { leaf f { type string; } }";
    all_hold(&rt, rt.alloc(), rows, may_chain);
}

/// Whether groupings, refined one within the other, are compiled to so many nodes, and a refine that isn't fit is told.
pub(crate) fn are_replaced(alloc: Global) -> Option<bool> {
    let used =
        "8 nodes/grouping g { leaf a { type t; } typedef t { type uint8; } }|grouping h { choice c { case x { container d { uses g { refine a { default 6; } } } } leaf b { type string; } } }|list l { key a; uses h { refine c { mandatory true; } refine c/b/b { default y; } } uses g; }";
    let unfit = "C14:6/grouping g;|grouping h {| uses g { refine a { default 6; } } }|uses h;";
    Some(is_told_of(alloc, used)? && is_told_of(alloc, unfit)?)
}

#[test]
fn groupings_in_groupings(rt: HostRuntime) {
    assert!(rt; are_replaced(rt.alloc()) == Some(true));
}
