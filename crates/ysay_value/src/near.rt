//! What is near to a value that no instance of the target of a leafref has.

ghost use Rattle.std.specs.Prelude.{◌≡◌, ◌++◌, ◌∷◌, IfOk, OnOk, map, option_map, string_bytes};
ghost use Rattle.yspec.specs.schema.Schema.{data_way_to};
ghost use Rattle.ysay_text.specs.Near as near;
ghost use Rattle.ytype.specs.View as held;
ghost use Rattle.yschema_model.specs.Layout.{number_of};
ghost use Rattle.yschema_model.specs.View as schema_view;
ghost use Rattle.yinst_tree.specs.View as document_view;
ghost use Rattle.ysay_value.specs.NearWords as spec;
ghost use Rattle.ysay_place.specs.Targets.{steps_of};

use crate::values::json_text;
use std::alloc::{AllocError, Global};
use yinst_tree::{Step, Stored, Tree};
use ysay_place::add_steps_to;
use ysay_text::nearest;
use yschema_model::{Schema, SchemaId};
use ytype::Raw;

/// Adds the text that a node has, if it has one.
fn add_text<'a>(stored: &'a Stored, texts: &mut Vec<&'a str>) -> Result<(), AllocError>
    ensures { OnOk result (map (λ t. t.now) texts.new.items ≡ map (λ t. t.now) texts.old.items
        ++ spec.texts_in (document_view.view stored.entry.now).0.value) }
{
    match stored.value() {
        Some(Raw::Text(text)) => {
            texts.push(text.as_str())?;
            Ok(())
        }
        _ => Ok(()),
    }
}

/// Adds the texts that the instances at the end of a way down from a row have.
#[cycle(texts)]
fn add_texts<'a>(
    row: &'a [Stored],
    way: &[Step],
    texts: &mut Vec<&'a str>,
) -> Result<(), AllocError>
    ensures { OnOk result (map (λ t. t.now) texts.new.items ≡ map (λ t. t.now) texts.old.items
        ++ spec.texts_on (document_view.place_view way.now) (document_view.row_view row.entry.now)) }
{
    match way.split_first() {
        Some((step, rest)) => add_texts_behind(row, step, rest, texts),
        None => Ok(()),
    }
}

/// The same of a way that begins with a step.
#[cycle(texts)]
fn add_texts_behind<'a>(
    row: &'a [Stored],
    step: &Step,
    rest: &[Step],
    texts: &mut Vec<&'a str>,
) -> Result<(), AllocError>
    ensures { OnOk result (map (λ t. t.now) texts.new.items ≡ map (λ t. t.now) texts.old.items
        ++ spec.texts_on (document_view.step_view step.now ∷ document_view.place_view rest.now)
        (document_view.row_view row.entry.now)) }
{
    for stored in row {
        if stored.id().0 == step.id.0 {
            add_text(stored, texts)?;
            add_texts(stored.below(), rest, texts)?;
        }
    }
    Ok(())
}

/// The text of an instance of a node that is nearest to a text.
fn nearest_instance<'a>(
    alloc: Global,
    schema: &Schema,
    tree: &'a Tree,
    id: SchemaId,
    text: &str,
) -> Result<Option<&'a str>, AllocError>
    ensures { let s = schema_view.view schema.now in
        IfOk result (λ found. option_map (λ t. t.now) found
        ≡ near.nearest text.now (spec.texts_on (steps_of (data_way_to s id.0))
        (document_view.tree_view tree.entry.now))) }
{
    let mut way = Vec::new(alloc);
    add_steps_to(schema, id, &mut way)?;
    let mut texts = Vec::new(alloc);
    add_texts(tree.roots(), &way, &mut texts)?;
    Ok(nearest(text, &texts))
}

/// What is said of a text that is near to another one, if any is, at the end of a sentence.
pub(crate) fn said_of(alloc: Global, near: Option<&str>) -> Result<String, AllocError>
    ensures { IfOk result (λ text. string_bytes text
        ≡ spec.near_words (option_map (λ t. t.now) near.entry)) }
{
    match near {
        Some(text) => {
            let shown = json_text(alloc, text)?;
            ["; near it: ", shown.as_str(), "."].concat(alloc)
        }
        None => String::from_str(alloc, "."),
    }
}

/// What is said of the text of an instance of a target that is nearest to a value, if any is near.
pub fn near_words(
    alloc: Global,
    schema: &Schema,
    tree: &Tree,
    target: Option<SchemaId>,
    raw: Option<&Raw>,
) -> Result<String, AllocError>
    ensures { let s = schema_view.view schema.now in
        IfOk result (λ text. string_bytes text ≡ spec.near_words (spec.nearest_target s
        (document_view.tree_view tree.now) (number_of target)
        (option_map (λ r. held.raw_of r.now) raw.entry))) }
{
    match (target, raw) {
        (Some(id), Some(Raw::Text(text))) => {
            let near = nearest_instance(alloc, schema, tree, id, text.as_str())?;
            said_of(alloc, near)
        }
        _ => said_of(alloc, None),
    }
}
