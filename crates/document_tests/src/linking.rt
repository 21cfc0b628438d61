//! What the names and types of linked statements mean.

use crate::building::{module_text, modules_of};
use crate::rows::all_hold;
use crate::telling::{is_refusal_of_modules, is_text, number_of};
use std::alloc::Global;
use ylink::{Linked, Statements, StmtId, link};
use ytype::{BadValue, Raw, YType};

// Statements 0 to 21.
const USING: &str = "module a {
  yang-version 1.1; namespace 'urn:a'; prefix a;
  import b { prefix x; }
  typedef t { type x:u; }
  typedef r { type leafref { path /a:l; } }
  leaf l { type a:t; }
  leaf m { type r; }
  leaf n { type uint8 { range 1..5; } }
  leaf o { type union { type t; type boolean; } }
}";

// Statements 22 to 34: neither the extension nor what uses it has a number.
const USED: &str = "module b {
  yang-version 1.1; namespace 'urn:b'; prefix b;
  extension note;
  typedef u { type int8 { range 0..7; } }
  grouping g { typedef v { type u { range 2..3; } } leaf k { b:note { type w; } type v; } }
}";

// Whether that is the number, or nothing for `-`.
fn is_number(found: Option<usize>, wanted: &str) -> Option<bool> {
    match found {
        Some(number) => Some(wanted != "-" && number_of(wanted)? as usize == number),
        None => Some(wanted == "-"),
    }
}

// `NUMBER KEYWORD ARGUMENT`, or `NUMBER -` where there is no such statement.
fn is_statement(alloc: Global, linked: &Linked<'_>, row: &str) -> Option<bool> {
    let (number, wanted) = row.split_once(' ')?;
    match linked.statement(StmtId(number_of(number)?)) {
        Some(statement) => {
            let argument = statement.argument().unwrap_or("");
            is_text(
                format!(in alloc; "{} {argument}", statement.keyword()),
                wanted,
            )
        }
        None => Some(wanted == "-"),
    }
}

// `STATEMENT MODULE`
fn is_module(linked: &Linked<'_>, row: &str) -> Option<bool> {
    let (number, module) = row.split_once(' ')?;
    is_number(linked.module(StmtId(number_of(number)?)), module)
}

// `STATEMENT DEFINITION`
fn is_meaning(linked: &Linked<'_>, row: &str) -> Option<bool> {
    let (number, definition) = row.split_once(' ')?;
    match linked.meaning(StmtId(number_of(number)?)) {
        Some(found) => is_number(Some(found.0 as usize), definition),
        None => is_number(None, definition),
    }
}

// Each number and a comma.
fn numbers_of(alloc: Global, statements: Statements<'_, '_>) -> Option<String> {
    let mut numbers = String::new(alloc);
    for statement in statements {
        let number = format!(in alloc; "{},", statement.0).ok()?;
        numbers.push_str(number.as_str()).ok()?;
    }
    Some(numbers)
}

// `STATEMENT:BELOW,BELOW,..`
fn is_row(alloc: Global, linked: &Linked<'_>, row: &str) -> Option<bool> {
    let (number, below) = row.split_once(':')?;
    let statements = linked.substatements(StmtId(number_of(number)?));
    Some(numbers_of(alloc, statements)?.as_str() == below)
}

// `MODULE PREFIX MODULE`
fn is_prefix(linked: &Linked<'_>, row: &str) -> Option<bool> {
    let (module, rest) = row.split_once(' ')?;
    let (prefix, named) = rest.split_once(' ')?;
    is_number(linked.prefix(number_of(module)? as usize, prefix), named)
}

// Whether a type takes a number, or nothing for want of memory.
fn takes(alloc: Global, value_type: &YType, number: u32) -> Option<bool> {
    match value_type.check(alloc, &Raw::Int(i128::from(number))) {
        Ok(_) => Some(true),
        Err(BadValue::Refused { .. }) => Some(false),
        Err(BadValue::Memory) => None,
    }
}

// `STATEMENT VALUE yes` or `no`: whether its type takes a number; `-` where it has none of its own.
fn is_typed(alloc: Global, linked: &Linked<'_>, row: &str) -> Option<bool> {
    let (number, rest) = row.split_once(' ')?;
    let (value, wanted) = rest.split_once(' ')?;
    match linked.typed(StmtId(number_of(number)?)) {
        Some(value_type) => {
            let is_taken = takes(alloc, value_type, number_of(value)?)?;
            Some(wanted == if is_taken { "yes" } else { "no" })
        }
        None => Some(wanted == "-"),
    }
}

fn holds_statement(alloc: Global, row: &str) -> Option<bool> {
    let modules = modules_of(alloc, &[USING, USED])?;
    let linked = link(alloc, &modules).ok()?;
    is_statement(alloc, &linked, row)
}

fn holds_module(alloc: Global, row: &str) -> Option<bool> {
    let modules = modules_of(alloc, &[USING, USED])?;
    let linked = link(alloc, &modules).ok()?;
    is_module(&linked, row)
}

fn holds_meaning(alloc: Global, row: &str) -> Option<bool> {
    let modules = modules_of(alloc, &[USING, USED])?;
    let linked = link(alloc, &modules).ok()?;
    is_meaning(&linked, row)
}

fn holds_row(alloc: Global, row: &str) -> Option<bool> {
    let modules = modules_of(alloc, &[USING, USED])?;
    let linked = link(alloc, &modules).ok()?;
    is_row(alloc, &linked, row)
}

fn holds_prefix(alloc: Global, row: &str) -> Option<bool> {
    let modules = modules_of(alloc, &[USING, USED])?;
    let linked = link(alloc, &modules).ok()?;
    is_prefix(&linked, row)
}

fn holds_typed(alloc: Global, row: &str) -> Option<bool> {
    let modules = modules_of(alloc, &[USING, USED])?;
    let linked = link(alloc, &modules).ok()?;
    is_typed(alloc, &linked, row)
}

#[test]
fn statements_by_number(rt: HostRuntime) {
    let rows = "0 module a
5 prefix x
17 range 1..5
21 type boolean
22 module b
26 typedef u
33 leaf k
34 type v
35 -";
    all_hold(&rt, rt.alloc(), rows, holds_statement);
}

#[test]
fn modules_of_statements(rt: HostRuntime) {
    let rows = "0 0
21 0
22 1
34 1
35 -";
    all_hold(&rt, rt.alloc(), rows, holds_module);
}

#[test]
fn meanings(rt: HostRuntime) {
    let rows = "7 26
9 -
12 6
14 8
16 -
19 -
20 6
26 -
31 26
34 30
35 -";
    all_hold(&rt, rt.alloc(), rows, holds_meaning);
}

#[test]
fn rows_of_statements(rt: HostRuntime) {
    let rows = "0:1,2,3,4,6,8,11,13,15,18,
4:5,
9:10,
19:20,21,
21:
22:23,24,25,26,29,
29:30,33,
33:34,
35:";
    all_hold(&rt, rt.alloc(), rows, holds_row);
}

// Whether the modules of these texts have these statements.
fn are_modules(alloc: Global, texts: &[&str], numbers: &str) -> Option<bool> {
    let modules = modules_of(alloc, texts)?;
    let linked = link(alloc, &modules).ok()?;
    Some(numbers_of(alloc, linked.modules())?.as_str() == numbers)
}

#[test]
fn linked_modules(rt: HostRuntime) {
    assert!(rt;
        are_modules(rt.alloc(), &[USING, USED], "0,22,") == Some(true),
        "two"
    );
    assert!(rt;
        are_modules(rt.alloc(), &[USED, USING], "0,13,") == Some(true),
        "turned round"
    );
    assert!(rt; are_modules(rt.alloc(), &[], "") == Some(true), "none");
}

#[test]
fn prefixes(rt: HostRuntime) {
    let rows = "0 a 0
0 x 1
0 b -
1 b 1
1 x -
2 b -";
    all_hold(&rt, rt.alloc(), rows, holds_prefix);
}

#[test]
fn types_of_statements(rt: HostRuntime) {
    let rows = "7 7 yes
7 8 no
9 7 -
12 7 yes
12 8 no
14 7 -
16 5 yes
16 6 no
17 5 -
19 7 yes
19 8 no
20 7 yes
21 7 no
27 7 yes
34 3 yes
34 4 no
35 3 -";
    all_hold(&rt, rt.alloc(), rows, holds_typed);
}

fn is_refused(alloc: Global, text: &str, told: &str) -> Option<bool> {
    let modules = modules_of(alloc, &[text])?;
    match link(alloc, &modules) {
        Ok(_) => Some(told == "-"),
        Err(fault) => is_refusal_of_modules(alloc, fault, 0, told),
    }
}

// `CODE:LINE/statements`, or `-` where they link.
fn is_linked(alloc: Global, row: &str) -> Option<bool> {
    let (told, statements) = row.split_once('/')?;
    let text = module_text(alloc, statements).ok()?;
    is_refused(alloc, text.as_str(), told)
}

// What only the nodes of a schema break is let through.
#[test]
fn refused_links(rt: HostRuntime) {
    let rows = "C4:1/
C1:3/ yang-version 1.1; must x;
C2:3/ yang-version 1.1; leaf l;
C3:3/ yang-version 1.1; container;
C5:3/ yang-version 1.1; import q { prefix q; }
C6:3/ yang-version 1.1; leaf l { type q:t; }
C7:3/ yang-version 1.1; typedef t { type string; } typedef t { type string; }
C8:3/ yang-version 1.1; leaf l { type t; }
C9:3/ yang-version 1.1; typedef t { type t; }
C10:3/ yang-version 1.1; leaf l { type union; }
-/ yang-version 1.1; leaf l { type string; } leaf l { type string; }
-/ yang-version 1.1; leaf l { type leafref { path /p:x; } }
-/ yang-version 1.1; list l { leaf k { type string; default 'x'; mandatory true; } }";
    all_hold(&rt, rt.alloc(), rows, is_linked);
}
