//! What is said of the path of an edit, one of whose predicates is missing, out of place, or of another kind than is due
//! (E3).

ghost use Rattle.std.specs.Prelude.{◌≡◌, ◌++◌, [], codes, IfOk, None, string_bytes};
ghost use Rattle.std.specs.List.{flat_map};
ghost use Rattle.std.specs.Option.{option_map_or};
ghost use Rattle.yspec.specs.schema.Schema.{node_at};
ghost use Rattle.yschema_model.specs.Layout.{form_view, kind_view, numbers_of};
ghost use Rattle.yschema_model.specs.View.{view};
ghost use Rattle.yinst_path.specs.EditView.{edit_view, predicate_view, steps_view};
ghost use Rattle.ysay_edit.specs.Predicate as spec;

use std::alloc::{AllocError, Global};
use yinst_path::{BoundStep, Edit, NamedStep, Predicate, fits_node};
use yschema_model::{JsonForm, Kind, Schema, SchemaId};

// ---- what is due behind a name

/// The name of a node.
fn name_of(schema: &Schema, id: SchemaId) -> &str
    ensures { result.now ≡ option_map_or (λ n. n.name) (node_at (view schema.entry.now) id.0) [] }
{
    match schema.kind(id) {
        Some(node) => node.name.as_str(),
        None => "",
    }
}

/// `[name='..']`, of a key.
fn key_due(alloc: Global, schema: &Schema, id: SchemaId) -> Result<String, AllocError>
    ensures { IfOk result (λ text. string_bytes text ≡ spec.key_due (view schema.now) id.0) }
{
    ["[", name_of(schema, id), "='..']"].concat(alloc)
}

/// The same of several keys.
fn key_predicates(alloc: Global, schema: &Schema, keys: &[SchemaId]) -> Result<String, AllocError>
    ensures { IfOk result (λ text. string_bytes text
        ≡ flat_map (spec.key_due (view schema.now)) (numbers_of keys.now)) }
{
    let mut text = String::new(alloc);
    for key in keys {
        let due = key_due(alloc, schema, *key)?;
        text.push_str(due.as_str())?;
    }
    Ok(text)
}

/// Behind the name of a list, by what its keys are written as.
fn keyed(alloc: Global, name: &str, keys: &str) -> Result<String, AllocError>
    ensures { IfOk result (λ text. string_bytes text ≡ spec.keyed name.now keys.now) }
{
    [name, " is a list: write ", name, keys, " or ", name, "[1]."].concat(alloc)
}

/// Behind the name of a list with keys.
fn keys_due(
    alloc: Global,
    schema: &Schema,
    name: &str,
    keys: &[SchemaId],
) -> Result<String, AllocError>
    ensures { IfOk result (λ text. string_bytes text
        ≡ spec.keys_due (view schema.now) name.now (numbers_of keys.now)) }
{
    let due = key_predicates(alloc, schema, keys)?;
    keyed(alloc, name, due.as_str())
}

/// Behind the name of a list.
fn list_due(
    alloc: Global,
    schema: &Schema,
    name: &str,
    keys: &[SchemaId],
) -> Result<String, AllocError>
    ensures { IfOk result (λ text. string_bytes text
        ≡ spec.list_due (view schema.now) name.now (numbers_of keys.now)) }
{
    match keys.first() {
        Some(_) => keys_due(alloc, schema, name, keys),
        None => [name, " is a list without keys: write ", name, "[1]."].concat(alloc),
    }
}

/// That a node is what holds a value so.
fn leaf_called(form: JsonForm) -> &'static str
    ensures { result.now ≡ spec.leaf_called (form_view form) }
{
    match form {
        JsonForm::ByType => " is a leaf",
        JsonForm::AnyValue => " is an anyxml",
        JsonForm::AnyObject => " is an anydata",
    }
}

/// Behind the name of what is called so.
fn leaf_due(alloc: Global, name: &str, called: &str) -> Result<String, AllocError>
    ensures { IfOk result (λ text. string_bytes text
        ≡ name.now ++ (called.now ++ codes ": no predicate stands behind it.")) }
{
    [name, called, ": no predicate stands behind it."].concat(alloc)
}

/// Behind the name of a node of a kind.
fn kind_due(alloc: Global, schema: &Schema, name: &str, kind: &Kind) -> Result<String, AllocError>
    ensures { IfOk result (λ text. string_bytes text
        ≡ spec.kind_due (view schema.now) name.now (kind_view kind.now)) }
{
    match kind {
        Kind::List { tuples, .. } => list_due(alloc, schema, name, tuples.keys.as_slice()),
        Kind::LeafList { .. } => [name, " is a leaf-list: write ", name, "[1]."].concat(alloc),
        Kind::Container { .. } => {
            [name, " is a container: no predicate stands behind it."].concat(alloc)
        }
        Kind::Leaf { leaf_type, .. } => leaf_due(alloc, name, leaf_called(leaf_type.form)),
        Kind::Choice { .. } | Kind::Case => Ok(String::new(alloc)),
    }
}

/// What one instance of a node is called that may have several.
fn one_called(kind: &Kind) -> &'static str
    ensures { result.now ≡ spec.one_called (kind_view kind.now) }
{
    if kind.has_value() { "item" } else { "entry" }
}

fn added_last(alloc: Global, called: &str, name: &str) -> Result<String, AllocError>
    ensures { IfOk result (λ text. string_bytes text ≡ codes "create adds the "
        ++ (called.now ++ (codes " last: write " ++ (name.now ++ codes " without a predicate.")))) }
{
    [
        "create adds the ",
        called,
        " last: write ",
        name,
        " without a predicate.",
    ]
    .concat(alloc)
}

/// Behind the last name of `create`.
fn nothing_due(alloc: Global, name: &str, kind: &Kind) -> Result<String, AllocError>
    ensures { IfOk result (λ text. string_bytes text
        ≡ spec.nothing_due name.now (kind_view kind.now)) }
{
    added_last(alloc, one_called(kind), name)
}

// ---- steps; it is told whether it is the last step of `create`, which bears no predicate

fn due_of(
    alloc: Global,
    schema: &Schema,
    is_added: bool,
    name: &str,
    kind: &Kind,
) -> Result<String, AllocError>
    ensures { IfOk result (λ text. string_bytes text
        ≡ spec.due_of (view schema.now) is_added name.now (kind_view kind.now)) }
{
    if is_added && kind.is_many() {
        nothing_due(alloc, name, kind)
    } else {
        kind_due(alloc, schema, name, kind)
    }
}

fn due_at(
    alloc: Global,
    schema: &Schema,
    is_added: bool,
    id: SchemaId,
    name: &str,
) -> Result<String, AllocError>
    ensures { IfOk result (λ text. string_bytes text
        ≡ spec.due_at (view schema.now) is_added id.0 name.now) }
{
    match schema.kind(id) {
        Some(node) => due_of(alloc, schema, is_added, name, &node.kind),
        None => Ok(String::new(alloc)),
    }
}

/// Whether a predicate is in place behind the name of a node.
fn is_in_place(schema: &Schema, is_added: bool, id: SchemaId, predicate: &Predicate) -> bool
    ensures { result
        ≡ spec.is_in_place (view schema.now) is_added id.0 (predicate_view predicate.now) }
{
    if is_added {
        matches!(predicate, Predicate::Unsaid)
    } else {
        fits_node(schema, BoundStep { id, predicate })
    }
}

/// Of the first of some steps, from the top on, whose predicate isn't in place.
fn of_predicates(
    alloc: Global,
    schema: &Schema,
    is_create: bool,
    steps: &[NamedStep],
) -> Result<String, AllocError>
    ensures { IfOk result (λ text. string_bytes text
        ≡ spec.of_predicates (view schema.now) is_create None (steps_view steps.now)) }
{
    let mut parent = None;
    let mut rest = steps;
    while let Some((step, more)) = rest.split_first() {
        let is_added = is_create && more.is_empty();
        let name = step.name.as_str();
        let Some(id) = schema.child_written(parent, name) else {
            return Ok(String::new(alloc));
        };
        if !is_in_place(schema, is_added, id, &step.predicate) {
            return due_at(alloc, schema, is_added, id, name);
        }
        parent = Some(id);
        rest = more;
    }
    Ok(String::new(alloc))
}

/// What is said of the path of an edit: of its first predicate that is missing, out of place, or of another kind than is due
/// (E3); an empty text where all are in place.
pub(crate) fn said_of_predicates(
    alloc: Global,
    schema: &Schema,
    edit: &Edit,
) -> Result<String, AllocError>
    ensures { IfOk result (λ text. string_bytes text
        ≡ spec.said_of_predicates (view schema.now) (edit_view edit.now)) }
{
    match edit {
        Edit::Create { path, .. } => of_predicates(alloc, schema, true, path.steps.as_slice()),
        Edit::Replace { path, .. } => of_predicates(alloc, schema, false, path.steps.as_slice()),
        Edit::Remove { path } => of_predicates(alloc, schema, false, path.steps.as_slice()),
        Edit::Move { path, .. } => of_predicates(alloc, schema, false, path.steps.as_slice()),
    }
}
