//! Augments: which sets of modules with them are compiled, and what a schema says of them.

use crate::building::{schema_of, with_line_feeds};
use crate::compiling::comes_of;
use crate::rows::all_hold;
use crate::telling::number_of;
use std::alloc::{AllocError, Global};
use yschema_model::Schema;

// A module of these statements, the first of which stands in line 3, after an import of another one where that is named.
fn module_of(
    alloc: Global,
    name: &str,
    imports: &str,
    statements: &str,
) -> Result<String, AllocError> {
    let mut text = format!(in alloc; "module {name} {{ namespace u; prefix {name}; ")?;
    text.push_str(imports)?;
    text.push_str("\n yang-version 1.1;\n")?;
    text.push_str(with_line_feeds(alloc, statements)?.as_str())?;
    text.push_str("}")?;
    Ok(text)
}

// `N nodes/statements of m/statements of a`, or `CODE:LINE/..` for a rule that a breaks, whichever module is given first.
fn is_told(alloc: Global, row: &str) -> Option<bool> {
    let (told, rest) = row.split_once('!')?;
    let (of_m, of_a) = rest.split_once('!')?;
    let target = module_of(alloc, "m", "", of_m).ok()?;
    let other = module_of(alloc, "a", "import m { prefix m; }", of_a).ok()?;
    let is_behind = comes_of(alloc, &[target.as_str(), other.as_str()], 1, told)?;
    let is_before = comes_of(alloc, &[other.as_str(), target.as_str()], 0, told)?;
    Some(is_behind && is_before)
}

#[test]
fn compiled(rt: HostRuntime) {
    let rows = "2 nodes!container c;!augment /m:c { container x; }
1 nodes!container c;!augment /m:c { description none; }
4 nodes!container c;!augment /m:c/x { container y; }|augment /m:c { container x; }|augment /m:c/a:x { container z; }
4 nodes!list l { key k; leaf k { type string; } }!augment /m:l { leaf y { type string; } leaf z { type string; } }
7 nodes!choice h { container k; }!augment /m:h { leaf y { type string; } case z { leaf w { type string; } } }
4 nodes!choice h { container k; }!augment /m:h/m:k { leaf y { type string; } }
4 nodes!choice h { container k; }!augment /m:h/m:k/m:k { leaf y { type string; } }
3 nodes!container c { leaf y { type string; } }!augment /m:c { leaf y { type string; } }
4 nodes!grouping g { leaf v { type string; } container o; } container c;!augment /m:c { uses m:g; leaf w { type string; } }
2 nodes!container c;!augment /m:c { leaf x { type string; mandatory true; config false; } }
2 nodes!container c { config false; }!augment /m:c { leaf x { type string; mandatory true; } }
3 nodes!container c { presence on; }!augment /m:c { container x { presence on; leaf y { type string; mandatory true; } } }
2 nodes!!container c;|augment /c { leaf y { type string; mandatory true; } }
5 nodes!choice h { container k; }!augment /m:h { leaf y { type string; mandatory true; } }
2 nodes!container c;!grouping g { leaf v { type uint8; } }|augment /m:c { uses g { refine v { default 7; } } }";
    all_hold(&rt, rt.alloc(), rows, is_told);
}

#[test]
fn refused(rt: HostRuntime) {
    let rows = "C1:3!container c;!container d { augment /m:c { leaf y { type string; } } }
C1:4!container c;!augment /m:c {| key k; }
C3:3!container c;!augment c { leaf y { type string; } }
C6:3!container c;!augment /m:c/x:x { leaf y { type string; } }
C13:4!container c;!augment /m:c { leaf y { type string; } }|augment /m:c { leaf y { type string; } }
C14:3!container c;!augment /m:d { leaf y { type string; } }
C14:3!container c;!augment /c { leaf y { type string; } }
C14:4!container c;!augment /m:c { leaf y { type string; } }|augment /m:c/a:y { leaf z { type string; } }
C14:3!leaf c { type string; }!augment /m:c { leaf y { type string; } }
C14:3!leaf-list c { type string; }!augment /m:c { leaf y { type string; } }
C14:3!choice h { container k; }!augment /m:k { leaf y { type string; } }
C14:3!container c;!augment /m:c { case y { leaf y { type string; } } }
C14:4!choice h { container k; }!grouping g;|augment /m:h { uses g; }
C14:4!container c;!grouping g { leaf v { type uint8; } }|augment /m:c { uses g { refine w { default 7; } } }
C15:3!container c;!augment /m:c { leaf x { type string; mandatory true; } }
C15:3!container c;!augment /m:c { container x; }|augment /m:c/a:x { leaf y { type string; mandatory true; } }
C15:3!container c;!augment /m:c { leaf-list x { type string; min-elements 1; } }
C16:3!container c;!augment /m:c { list x { leaf y { type string; } } }";
    all_hold(&rt, rt.alloc(), rows, is_told);
}

// Whether the augment at a place of a module adds so many nodes below the node of a number, and which is the first.
fn adds(schema: &Schema, row: &str) -> Option<bool> {
    let (module, rest) = row.split_once(' ')?;
    let (place, rest) = rest.split_once(' ')?;
    let augments = schema.augments(number_of(module)? as usize);
    match augments.get(number_of(place)? as usize) {
        None => Some(rest == "-"),
        Some(augment) => {
            let (target, rest) = rest.split_once(' ')?;
            let (count, first) = rest.split_once(' ')?;
            let is_target = augment.target.0 == number_of(target)?;
            let is_counted = augment.nodes.len() == number_of(count)? as usize;
            let is_first = match augment.nodes.first() {
                Some(node) => node.0 == number_of(first)?,
                None => first == "-",
            };
            Some(is_target && is_counted && is_first)
        }
    }
}

fn holds(alloc: Global, row: &str) -> Option<bool> {
    let target = module_of(alloc, "m", "", "container c; container d;").ok()?;
    let other = module_of(
        alloc,
        "a",
        "import m { prefix m; }",
        "augment /m:c/a:x { leaf y { type string; } }
augment /m:c { container x; leaf z { type string; } }
augment /m:d;",
    )
    .ok()?;
    let schema = schema_of(alloc, &[target.as_str(), other.as_str()])?;
    adds(&schema, row)
}

// `module place -` where it has no such augment, else `module place target count first`
#[test]
fn augments_of_modules(rt: HostRuntime) {
    let rows = "0 0 -
1 0 1 1 2
1 1 0 2 1
1 2 4 0 -
1 3 -
2 0 -";
    all_hold(&rt, rt.alloc(), rows, holds);
}
