//! Steps to nodes that aren't stored, without memory.

ghost use Rattle.std.specs.Prelude.{◌≡◌, ◌≤◌, ◌+◌, ◌++◌, [], ◌∷◌, drop, filter, map, if◌then◌else◌};
ghost use Rattle.yspec.specs.schema.Schema.{is_data, node_at};
ghost use Rattle.yspec.specs.document.Document.{step_to};
ghost use Rattle.yspec.specs.document.RowFaults.{prefixed};
ghost use Rattle.yschema_model.specs.Layout.{number_of};
ghost use Rattle.yschema_model.specs.Lookup.{alone};
ghost use Rattle.yschema_model.specs.View as schema_view;
ghost use Rattle.yinst_tree.specs.View.{place_view};
ghost use Rattle.yspec_play.specs.Merging.{absence_fault, data_depth, info_at, to_node};
ghost use Rattle.ylive_list.specs.Listed.{absence_of, data_way};
ghost use Rattle.ycheck.specs.View.{lent_info_view};
ghost use Rattle.ylive_list.specs.Seen.{seen_view, steps_in};

use crate::place::Place;
use crate::seen::Seen;
use ycheck::LentInfo;
use yinst_tree::Step;
use yschema_model::{Schema, SchemaId};
use ystore::Absence;

/// Whether a node is a data node, so that a step leads to it.
fn is_data(schema: &Schema, id: SchemaId) -> bool
    ensures { map to_node (filter (λ n. is_data n.kind) (alone (node_at (schema_view.view schema.now) id.0)))
        ≡ (if result then step_to id.0 ∷ [] else []) }
{
    match schema.kind(id) {
        Some(node) => node.kind.is_data(),
        None => false,
    }
}

/// How many data nodes lead down to a node and are it; none to the top.
fn data_depth(schema: &Schema, id: Option<SchemaId>) -> usize
    ensures { result ≡ data_depth (schema_view.view schema.now) (number_of id) }
{
    let Some(id) = id else {
        return 0;
    };
    let depth = data_depth(schema, schema.parent(id));
    if is_data(schema, id) {
        depth + 1
    } else {
        depth
    }
}

/// Adds the steps to a node, through data nodes alone, but for some first ones; answers how many data nodes lead there.
fn enter_way(schema: &Schema, skipped: usize, id: Option<SchemaId>, place: &mut Place) -> usize
    requires { place.old.count + data_depth (schema_view.view schema.now) (number_of id) ≤ 120 }
    ensures depth { result ≡ data_depth (schema_view.view schema.now) (number_of id) }
    ensures count { place.new.count ≤ place.old.count + data_depth (schema_view.view schema.now) (number_of id) }
    ensures steps { place_view (steps_in place.new) ≡ place_view (steps_in place.old)
        ++ drop skipped (map to_node (data_way (schema_view.view schema.now) (number_of id))) }
{
    let Some(id) = id else {
        return 0;
    };
    let depth = enter_way(schema, skipped, schema.parent(id), place);
    if !is_data(schema, id) {
        return depth;
    }
    if depth < skipped {
        return depth + 1;
    }
    place.enter(Step { id, position: None });
    depth + 1
}

/// A fault of a choice has its name.
fn info_of<'a>(schema: &'a Schema, id: SchemaId) -> LentInfo<'a>
    ensures { lent_info_view result ≡ info_at (schema_view.view schema.entry.now) id.0 }
{
    match schema.kind(id) {
        Some(node) => {
            if node.kind.is_data() {
                LentInfo::None
            } else {
                LentInfo::Choice(node.name.as_str())
            }
        }
        None => LentInfo::None,
    }
}

/// What is told of a node that isn't stored, in a row whose node is at a place.
pub(crate) fn absence_seen<'a>(
    schema: &'a Schema,
    above: Option<SchemaId>,
    absence: Absence,
    place: Place,
) -> Seen<'a>
    requires { place.count ≤ 60 }
    ensures { seen_view result ≡ prefixed (place_view (steps_in place))
        (absence_fault (schema_view.view schema.entry.now) (number_of above) (absence_of absence)) }
{
    let (code, id) = absence;
    let mut place = place;
    enter_way(schema, data_depth(schema, above), Some(id), &mut place);
    Seen {
        code,
        tag: code.tag(),
        app_tag: code.app_tag(),
        place,
        info: info_of(schema, id),
    }
}
