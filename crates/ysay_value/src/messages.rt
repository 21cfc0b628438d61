//! What a module says itself of a value that one of its restrictions excludes (RFC 7950, 7.5.4.1).

ghost use Rattle.std.specs.Prelude.{◌≡◌, IfOk, option_map, string_bytes};
ghost use Rattle.ytype.specs.View as held;
ghost use Rattle.yschema_model.specs.Layout.{leaf_type_view};
ghost use Rattle.yschema_model.specs.View as schema_view;
ghost use Rattle.ysay_value.specs.Messages as spec;

use std::alloc::{AllocError, Global};
use ysay_text::is_control;
use yschema_model::{LeafType, Schema, SchemaId};
use ytype::Raw;

/// The type of a leaf or leaf-list.
pub fn type_at(schema: &Schema, id: SchemaId) -> Option<&LeafType>
    ensures { option_map (λ t. leaf_type_view t.now) result
        ≡ spec.type_at (schema_view.view schema.now) id.0 }
{
    schema.kind(id)?.kind.leaf_type()
}

fn message_by(
    alloc: Global,
    leaf_type: &LeafType,
    raw: Option<&Raw>,
) -> Result<Option<String>, AllocError>
    ensures { IfOk result (λ message. option_map string_bytes message
        ≡ spec.message_by (leaf_type_view leaf_type.now)
        (option_map (λ r. held.raw_of r.now) raw.entry)) }
{
    match raw {
        Some(raw) => leaf_type.value_type.message(alloc, raw),
        None => Ok(None),
    }
}

/// The message of the innermost restriction of a node's type that excludes a value.
pub fn message_at(
    alloc: Global,
    schema: &Schema,
    id: SchemaId,
    raw: Option<&Raw>,
) -> Result<Option<String>, AllocError>
    ensures { IfOk result (λ message. option_map string_bytes message
        ≡ spec.message_at (schema_view.view schema.now) id.0
        (option_map (λ r. held.raw_of r.now) raw.entry)) }
{
    match type_at(schema, id) {
        Some(leaf_type) => message_by(alloc, leaf_type, raw),
        None => Ok(None),
    }
}

fn printed_character(character: char) -> char
    ensures { result ≡ spec.printed_character character }
{
    if is_control(character) {
        ' '
    } else {
        character
    }
}

fn on_one_line(alloc: Global, text: &str) -> Result<String, AllocError>
    ensures { IfOk result (λ line. string_bytes line ≡ spec.on_one_line text.now) }
{
    text.chars().map(|c| printed_character(c)).collect(alloc)
}

/// What is said of that message, behind a sentence.
pub fn message_words(alloc: Global, message: Option<&str>) -> Result<String, AllocError>
    ensures { IfOk result (λ text. string_bytes text
        ≡ spec.message_words (option_map (λ t. t.now) message.entry)) }
{
    match message {
        Some(text) => {
            let line = on_one_line(alloc, text)?;
            [" Its module says: ", line.as_str()].concat(alloc)
        }
        None => Ok(String::new(alloc)),
    }
}
