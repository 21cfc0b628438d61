//! The cases of a choice that have stored nodes (RFC 7950, 7.9).

ghost use Rattle.std.specs.Prelude.{◌≡◌, IfOk, map, option_map, string_bytes};
ghost use Rattle.yspec.specs.Forest.{end, node};
ghost use Rattle.yspec.specs.document.Document.{instances_in};
ghost use Rattle.yspec.specs.document.Sorting.{IsSorted};
ghost use Rattle.yschema_model.specs.View as schema_view;
ghost use Rattle.yinst_tree.specs.View as document_view;
ghost use Rattle.ysay_fault.specs.Cases as spec;

use std::alloc::{AllocError, Global};
use ycheck::has_stored;
use yinst_tree::Stored;
use yschema_model::{Child, Children, Kind, SchemaNode};

/// Whether a node is a choice of a name.
fn is_choice_of(name: &str, node: &SchemaNode) -> bool
    ensures { result ≡ spec.is_choice_of name.now (schema_view.node_view 0 node.now) }
{
    matches!(node.kind, Kind::Choice { .. }) && name == node.name.as_str()
}

/// Whether more than one of these cases has a node stored in a row.
fn has_several(cases: Children<'_>, row: &[Stored]) -> bool
    ensures { let t = document_view.row_view row.now in
        IsSorted t → result ≡ spec.has_several (instances_in t) (schema_view.row_view cases.entry) }
{
    let mut has_one = false;
    for case in cases {
        if has_stored(case.children(), row) {
            if has_one {
                return true;
            }
            has_one = true;
        }
    }
    false
}

/// The cases of the first choice of a name in a row of which more than one has a node stored; choices and cases are passed
/// through.
#[cycle(naming)]
fn conflicting_cases<'a>(children: Children<'a>, name: &str, row: &[Stored]) -> Option<Children<'a>>
    ensures { let t = document_view.row_view row.now in
        IsSorted t → option_map schema_view.row_view result
        ≡ spec.conflicting_cases (instances_in t) name.now (schema_view.row_view children.entry) }
{
    for child in children {
        if let Some(found) = conflicting_at(child, name, row) {
            return Some(found);
        }
    }
    None
}

/// The cases of a node, if it is that choice, or of the first such in a choice or case.
#[cycle(naming)]
fn conflicting_at<'a>(child: Child<'a>, name: &str, row: &[Stored]) -> Option<Children<'a>>
    ensures { let t = document_view.row_view row.now in
        IsSorted t → option_map schema_view.row_view result
        ≡ spec.conflicting_cases (instances_in t) name.now
        (node (schema_view.label_of child.entry) (schema_view.below_of child.entry) end) }
{
    if child.node().kind.is_data() {
        None
    } else if is_choice_of(name, child.node()) && has_several(child.children(), row) {
        Some(child.children())
    } else {
        conflicting_cases(child.children(), name, row)
    }
}

/// The names of the cases that have a node stored in a row.
fn case_names<'a>(
    alloc: Global,
    cases: Children<'a>,
    row: &[Stored],
) -> Result<Vec<&'a str>, AllocError>
    ensures { let t = document_view.row_view row.now in
        IsSorted t → IfOk result (λ names. map (λ name. name.now) names.items
        ≡ spec.case_names (instances_in t) (schema_view.row_view cases.entry)) }
{
    let mut names = Vec::new(alloc);
    for case in cases {
        if has_stored(case.children(), row) {
            names.push(case.node().name.as_str())?;
        }
    }
    Ok(names)
}

/// The names of the cases of a choice that have a node stored in a row.
pub(crate) fn stored_case_names(
    alloc: Global,
    children: Children<'_>,
    name: &str,
    row: &[Stored],
) -> Result<String, AllocError>
    ensures { let t = document_view.row_view row.now in
        IsSorted t → IfOk result (λ text. string_bytes text
        ≡ spec.stored_case_names (instances_in t) name.now
        (schema_view.row_view children.entry)) }
{
    match conflicting_cases(children, name, row) {
        Some(cases) => case_names(alloc, cases, row)?.join(alloc, ", "),
        None => Ok(String::new(alloc)),
    }
}
