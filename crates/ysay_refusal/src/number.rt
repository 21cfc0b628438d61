//! What is said of a number that is no whole one of 64 bits, where a value of a leaf or of items is due (J6).

ghost use Rattle.std.specs.Prelude.{◌≡◌, IfOk, option_and_then, option_map, string_bytes};
ghost use Rattle.yschema_model.specs.Layout.{leaf_type_view, number_of};
ghost use Rattle.yschema_model.specs.View.{view};
ghost use Rattle.ysay_value.specs.Messages as messages;
ghost use Rattle.ysay_refusal.specs.Number as spec;

use std::alloc::{AllocError, Global};
use ysay_value::{taken_words, type_at};
use yschema_model::{JsonForm, LeafType, Schema, SchemaId};

/// Of one where a type takes what it takes.
fn number_for_type(alloc: Global, leaf_type: &LeafType) -> Result<String, AllocError>
    ensures { IfOk result (λ text. string_bytes text
        ≡ spec.number_for_type (leaf_type_view leaf_type.now)) }
{
    let taken = taken_words(alloc, &leaf_type.value_type)?;
    [
        "a number with a point or an exponent, or beyond 64 bits, isn't a value of ",
        leaf_type.name.text(),
        ": it takes ",
        taken.as_str(),
        ".",
    ]
    .concat(alloc)
}

/// The same; of an `anydata` or `anyxml` the number stands somewhere in the value.
fn number_by(alloc: Global, leaf_type: &LeafType) -> Result<String, AllocError>
    ensures { let t = leaf_type_view leaf_type.now in IfOk result (λ text. string_bytes text
        ≡ spec.number_by t.form t) }
{
    match leaf_type.form {
        JsonForm::ByType => number_for_type(alloc, leaf_type),
        JsonForm::AnyValue | JsonForm::AnyObject => {
            String::from_str(
                alloc,
                "a number in it has a point or an exponent, or is beyond 64 bits.",
            )
        }
    }
}

/// The type of a leaf or leaf-list; none at the top.
fn type_of(schema: &Schema, id: Option<SchemaId>) -> Option<&LeafType>
    ensures { option_map (λ t. leaf_type_view t.now) result
        ≡ option_and_then (messages.type_at (view schema.now)) (number_of id) }
{
    type_at(schema, id?)
}

/// By the node.
pub(crate) fn of_number(
    alloc: Global,
    schema: &Schema,
    id: Option<SchemaId>,
) -> Result<String, AllocError>
    ensures { IfOk result (λ text. string_bytes text
        ≡ spec.of_number (view schema.now) (number_of id)) }
{
    match type_of(schema, id) {
        Some(leaf_type) => number_by(alloc, leaf_type),
        None => Ok(String::new(alloc)),
    }
}
