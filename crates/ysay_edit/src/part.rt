//! What is said of the value of an edit that is no JSON (E9), or doesn't fit the node that it is for (E10), as of a document
//! that is refused.

ghost use Rattle.std.specs.Prelude.{◌≡◌, ◌++◌, IfOk, None, string_bytes};
ghost use Rattle.ysay_text.specs.Line as line_spec;
ghost use Rattle.serde_json.specs.View as json;
ghost use Rattle.yschema_model.specs.Layout.{kind_view, number_of};
ghost use Rattle.yschema_model.specs.View.{view};
ghost use Rattle.yinst_path.specs.Applying.{edit_number};
ghost use Rattle.yinst_path.specs.EditView.{edit_view, path_view, steps_view};
ghost use Rattle.yinst_tree.specs.Told.{code_number};
ghost use Rattle.yinst_tree.specs.View.{place_view, step_view, tree_view};
ghost use Rattle.ysay_edit.specs.Part as spec;

use crate::now::{path_in, said_now};
use crate::predicate::said_of_predicates;
use crate::spelling::begins;
use crate::step::said_of_path;
use serde_json::Value;
use std::alloc::{AllocError, Global};
use yinst_path::{Edit, EditCode, NamedStep, Path};
use yinst_tree::{DocCode, DocFault, Step, Tree, check_node};
use ysay_refusal::{last_step, module_of, said_at, value_from};
use ysay_text::shown;
use yschema_model::{Kind, Schema, SchemaId};

// ---- values

/// The last step to a place below an instance of a node.
fn step_below(id: SchemaId, place: &[Step]) -> Step
    ensures { step_view result ≡ spec.step_below id.0 (place_view place.now) }
{
    match last_step(place) {
        Some(step) => *step,
        None => Step {
            id,
            position: Some(1),
        },
    }
}

/// Of one instance of a node, by the place at which what it is to hold is refused.
fn of_place(
    alloc: Global,
    schema: &Schema,
    id: SchemaId,
    value: &Value,
    code: DocCode,
    place: &[Step],
) -> Result<String, AllocError>
    ensures { IfOk result (λ text. string_bytes text
        ≡ spec.of_place (view schema.now) id.0 (json.view value.now)
        (record { code = code_number code; place = place_view place.now })) }
{
    match value_from(alloc, schema, module_of(schema, Some(id)), place, value)? {
        Some(found) => {
            let step = step_below(id, place);
            said_at(alloc, schema, code, Some(&step), found)
        }
        None => Ok(String::new(alloc)),
    }
}

/// Of an array in place of one entry or item.
fn alone_due(kind: &Kind) -> &'static str
    ensures { result.now ≡ spec.alone_due (kind_view kind.now) }
{
    if kind.has_value() {
        "an array stands where an item's value is due: write the value alone."
    } else {
        "an array stands where an entry is due: write the object alone."
    }
}

fn is_many_at(schema: &Schema, id: SchemaId) -> bool
    ensures { result ≡ spec.is_many_at (view schema.now) id.0 }
{
    match schema.kind(id) {
        Some(node) => node.kind.is_many(),
        None => false,
    }
}

fn alone_at(schema: &Schema, id: SchemaId) -> &'static str
    ensures { result.now ≡ spec.alone_at (view schema.now) id.0 }
{
    match schema.kind(id) {
        Some(node) => alone_due(&node.kind),
        None => "",
    }
}

fn is_array(value: &Value) -> bool
    ensures { result ≡ spec.is_array (json.view value.now) }
{
    matches!(value, Value::Array(_))
}

/// Of one instance of a node, by the refusal of what it is to hold.
fn of_refusal(
    alloc: Global,
    schema: &Schema,
    id: SchemaId,
    value: &Value,
    code: DocCode,
    place: &[Step],
) -> Result<String, AllocError>
    ensures { IfOk result (λ text. string_bytes text
        ≡ spec.of_refusal (view schema.now) id.0 (json.view value.now)
        (record { code = code_number code; place = place_view place.now })) }
{
    if is_array(value) && is_many_at(schema, id) {
        String::from_str(alloc, alone_at(schema, id))
    } else {
        of_place(alloc, schema, id, value, code, place)
    }
}

/// Of one instance of a node that is to hold a value.
fn of_value(
    alloc: Global,
    schema: &Schema,
    id: SchemaId,
    value: &Value,
) -> Result<String, AllocError>
    ensures { IfOk result (λ text. string_bytes text
        ≡ spec.of_value (view schema.now) id.0 (json.view value.now)) }
{
    match check_node(alloc, schema, id, value) {
        Ok(_) => Ok(String::new(alloc)),
        Err(DocFault::Refused { code, place }) => {
            of_refusal(alloc, schema, id, value, code, place.as_slice())
        }
        Err(DocFault::Memory) => Err(AllocError),
    }
}

/// Whether a text may be meant as an object, an array, or a text of JSON.
fn begins_json(text: &str) -> bool
    ensures { result ≡ spec.begins_json text.now }
{
    begins(b'{', text) || begins(b'[', text) || begins(b'"', text)
}

/// What is to be changed in a text that is no JSON.
fn json_due(text: &str) -> &'static str
    ensures { result.now ≡ spec.json_due text.now }
{
    if begins_json(text) {
        " isn't JSON."
    } else {
        " isn't JSON; a text stands in double quotes."
    }
}

fn shown_before(alloc: Global, text: &str, due: &str) -> Result<String, AllocError>
    ensures { IfOk result (λ said. string_bytes said ≡ line_spec.shown text.now ++ due.now) }
{
    let shown = shown(alloc, text.as_bytes())?;
    [shown.as_str(), due].concat(alloc)
}

/// Of a text that is no JSON.
fn of_no_json(alloc: Global, text: &str) -> Result<String, AllocError>
    ensures { IfOk result (λ said. string_bytes said ≡ spec.of_no_json text.now) }
{
    shown_before(alloc, text, json_due(text))
}

/// The same, by the text of the value.
fn of_text(alloc: Global, schema: &Schema, id: SchemaId, text: &str) -> Result<String, AllocError>
    ensures { IfOk result (λ said. string_bytes said
        ≡ spec.of_text (view schema.now) id.0 text.now) }
{
    match Value::from_slice(alloc, text.as_bytes()) {
        Ok(value) => of_value(alloc, schema, id, &value),
        Err(error) if error.is_memory() => Err(AllocError),
        Err(_) => Ok(String::new(alloc)),
    }
}

// ---- edits

/// The node to which steps lead from the top; none where one leads to no child.
fn node_below(schema: &Schema, steps: &[NamedStep]) -> Option<SchemaId>
    ensures { number_of result ≡ spec.number_below (view schema.now) None (steps_view steps.now) }
{
    let mut parent = None;
    for step in steps {
        match schema.child_written(parent, step.name.as_str()) {
            Some(id) => parent = Some(id),
            None => return None,
        }
    }
    parent
}

/// Of the value of an edit at a path.
fn of_part(alloc: Global, schema: &Schema, path: &Path, text: &str) -> Result<String, AllocError>
    ensures { IfOk result (λ said. string_bytes said
        ≡ spec.of_part (view schema.now) (path_view path.now) text.now) }
{
    match node_below(schema, path.steps.as_slice()) {
        Some(id) => of_text(alloc, schema, id, text),
        None => Ok(String::new(alloc)),
    }
}

fn said_of_part(alloc: Global, schema: &Schema, edit: &Edit) -> Result<String, AllocError>
    ensures { IfOk result (λ said. string_bytes said
        ≡ spec.said_of_part (view schema.now) (edit_view edit.now)) }
{
    match edit {
        Edit::Create { path, value } => of_part(alloc, schema, path, value.as_str()),
        Edit::Replace { path, value } => of_part(alloc, schema, path, value.as_str()),
        Edit::Remove { .. } | Edit::Move { .. } => Ok(String::new(alloc)),
    }
}

fn said_of_no_json(alloc: Global, edit: &Edit) -> Result<String, AllocError>
    ensures { IfOk result (λ said. string_bytes said ≡ spec.said_of_no_json (edit_view edit.now)) }
{
    match edit {
        Edit::Create { value, .. } => of_no_json(alloc, value.as_str()),
        Edit::Replace { value, .. } => of_no_json(alloc, value.as_str()),
        Edit::Remove { .. } | Edit::Move { .. } => Ok(String::new(alloc)),
    }
}

/// Whether the last step names a list or a leaf-list.
fn ends_in_many(schema: &Schema, path: &Path) -> bool
    ensures { result ≡ spec.ends_in_many (view schema.now) (path_view path.now) }
{
    match node_below(schema, path.steps.as_slice()) {
        Some(id) => is_many_at(schema, id),
        None => false,
    }
}

/// Whether an edit moves what is no entry and no item.
fn moves_other(schema: &Schema, edit: &Edit) -> bool
    ensures { result ≡ spec.moves_other (view schema.now) (edit_view edit.now) }
{
    match edit {
        Edit::Create { .. } | Edit::Replace { .. } | Edit::Remove { .. } => false,
        Edit::Move { path, .. } => !ends_in_many(schema, path),
    }
}

/// Of a predicate that isn't in place, or of what can't be moved.
fn said_of_misplaced(alloc: Global, schema: &Schema, edit: &Edit) -> Result<String, AllocError>
    ensures { IfOk result (λ said. string_bytes said
        ≡ spec.said_of_misplaced (view schema.now) (edit_view edit.now)) }
{
    if moves_other(schema, edit) {
        String::from_str(alloc, "only an entry of a list or leaf-list is moved.")
    } else {
        said_of_predicates(alloc, schema, edit)
    }
}

/// What is said of an edit that is refused: of the first name of its path that isn't there, or is in the form that isn't due
/// (E2), or behind which another predicate is due, or that what it moves is no entry and no item (E3); of what stands in a
/// document, that which it is now, where its path leads (E4 to E8); and of its value where that is no JSON (E9), or doesn't fit
/// (E10), as of a document; an empty text of all else.
pub fn said_of_edit(
    alloc: Global,
    schema: &Schema,
    now: &Tree,
    edit: &Edit,
    code: EditCode,
) -> Result<String, AllocError>
    ensures { IfOk result (λ said. string_bytes said ≡ spec.said_of_edit (view schema.now)
        (tree_view now.now) (edit_view edit.now) (edit_number code)) }
{
    match code {
        EditCode::E2 => said_of_path(alloc, schema, path_in(edit)),
        EditCode::E3 => said_of_misplaced(alloc, schema, edit),
        EditCode::E9 => said_of_no_json(alloc, edit),
        EditCode::E10 => said_of_part(alloc, schema, edit),
        EditCode::E4 | EditCode::E5 | EditCode::E6 | EditCode::E7 | EditCode::E8 => {
            said_now(alloc, schema, now, edit)
        }
        EditCode::E1 | EditCode::E11 => Ok(String::new(alloc)),
    }
}
