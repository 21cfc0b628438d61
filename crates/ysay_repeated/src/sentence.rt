//! What is said of a member that is given twice.

ghost use Rattle.std.specs.Prelude.{◌≡◌, IfOk, string_bytes};
ghost use Rattle.yschema_model.specs.View.{view};
ghost use Rattle.yinst_tree.specs.View.{place_view};
ghost use Rattle.ysay_repeated.specs.Said as spec;

use std::alloc::{AllocError, Global};
use yinst_tree::Step;
use yschema_model::Schema;

/// The name of the node to which the last step to a place leads.
fn name_at<'a>(schema: &'a Schema, place: &[Step]) -> &'a str
    ensures { result.now ≡ spec.name_at (view schema.entry.now) (place_view place.now) }
{
    match place.split_last() {
        Some((step, _)) => match schema.kind(step.id) {
            Some(node) => node.name.as_str(),
            None => "",
        },
        None => "",
    }
}

/// What is said of a member that is given twice, by the place of its node.
pub fn said_of_repeated(
    alloc: Global,
    schema: &Schema,
    place: &[Step],
) -> Result<String, AllocError>
    ensures { IfOk result (λ text. string_bytes text
        ≡ spec.said_of_repeated (view schema.now) (place_view place.now)) }
{
    [name_at(schema, place), " is given twice."].concat(alloc)
}
