//! What is said of a name in the path of an edit that is a choice's or a case's: no path leads through them (RFC 7950, 7.9).

ghost use Rattle.std.specs.Prelude.{◌≡◌, IfOk, option_map, string_bytes};
ghost use Rattle.yspec.specs.text.Text.{is_text};
ghost use Rattle.yspec.specs.schema.Schema as schema_spec;
ghost use Rattle.yschema_model.specs.Layout.{number_of};
ghost use Rattle.yschema_model.specs.View.{below_of, kind_view, label_of, row_view, view};
ghost use Rattle.ysay_edit.specs.Choice as spec;

use std::alloc::{AllocError, Global};
use ysay_refusal::{children_of, own_part};
use yschema_model::{Child, Children, Kind, Schema, SchemaId};

fn passed_called(kind: &Kind) -> &'static str
    ensures { result.now ≡ spec.passed_called (kind_view kind.now) }
{
    match kind {
        Kind::Choice { .. } => "a choice",
        _ => "a case",
    }
}

/// Whether a node stands in documents: all but choices and cases.
fn stands_in_data(child: Child<'_>) -> bool
    ensures { result ≡ schema_spec.is_data (label_of child.entry).kind }
{
    child.node().kind.is_data()
}

/// What a choice or case is called.
fn called(child: Child<'_>) -> &'static str
    ensures { result.now ≡ spec.passed_called (label_of child.entry).kind }
{
    passed_called(&child.node().kind)
}

fn is_named(child: Child<'_>, name: &str) -> bool
    ensures { result ≡ is_text name.now (label_of child.entry).name }
{
    name == child.node().name.as_str()
}

/// What the first choice or case of a name is called in a row, those in one another included.
#[cycle(choice)]
fn passed_in(children: Children<'_>, name: &str) -> Option<&'static str>
    ensures { option_map (λ t. t.now) result
        ≡ spec.passed_in name.now (row_view children.entry) }
{
    for child in children {
        match passed_node(child, name) {
            Some(called) => return Some(called),
            None => {}
        }
    }
    None
}

/// The same of a node and what stands below it.
#[cycle(choice)]
fn passed_node(child: Child<'_>, name: &str) -> Option<&'static str>
    ensures { option_map (λ t. t.now) result ≡ spec.passed_node name.now (label_of child.entry)
        (spec.passed_in name.now (below_of child.entry)) }
{
    if stands_in_data(child) {
        None
    } else if is_named(child, name) {
        Some(called(child))
    } else {
        passed_in(child.children(), name)
    }
}

/// The same below a node or at the top, of what stands behind the colon of a name.
pub(crate) fn passed_at(
    schema: &Schema,
    parent: Option<SchemaId>,
    name: &str,
) -> Option<&'static str>
    ensures { option_map (λ t. t.now) result
        ≡ spec.passed_at (view schema.now) (number_of parent) name.now }
{
    passed_in(children_of(schema, parent), own_part(name))
}

/// That no path leads through a choice or a case.
pub(crate) fn passed_through(alloc: Global, name: &str, called: &str) -> Result<String, AllocError>
    ensures { IfOk result (λ text. string_bytes text
        ≡ spec.passed_through name.now called.now) }
{
    [name, " is ", called, ": leave it out of the path."].concat(alloc)
}
