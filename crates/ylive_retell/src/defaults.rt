//! How many defaults a schema has.

ghost use Rattle.std.specs.Prelude.{◌≡◌, ◌+◌, ◌≤◌, ◌^◌, IfSome, OnOk};
ghost use Rattle.yspec.specs.Forest.{weigh};
ghost use Rattle.yschema_model.specs.Layout.{kind_view};
ghost use Rattle.yschema_model.specs.View as schema_view;
ghost use Rattle.yschema_model.specs.View.{row_view};
ghost use Rattle.yspec_reach.specs.Sizes as sizes;
ghost use Rattle.ylive_retell.specs.Few.{HasFewDefaults, own_defaults};

use std::alloc::AllocError;
use yschema_model::{Absence, Children, Kind, Schema};

/// There is no room for more defaults than 2^32 in one schema.
pub fn ask_few_defaults(schema: &Schema) -> Result<(), AllocError>
    ensures { OnOk result (HasFewDefaults (schema_view.view schema.now)) }
{
    match count_defaults(schema.roots(), 0) {
        Some(count) if count <= u32::MAX as usize => Ok(()),
        _ => Err(AllocError),
    }
}

/// How many defaults the nodes of a row and those below it have, and so many more; none where that is too many to be counted.
fn count_defaults(children: Children<'_>, more: usize) -> Option<usize>
    ensures { IfSome result (λ count. count ≡ more + weigh own_defaults (row_view children.entry)) }
{
    let mut count = more;
    for child in children {
        count = count.checked_add(default_count(&child.node().kind))?;
        count = count_defaults(child.children(), count)?;
    }
    Some(count)
}

/// How many defaults a node has itself.
fn default_count(kind: &Kind) -> usize
    ensures { result ≡ sizes.default_count (kind_view kind.now) }
{
    match kind {
        Kind::Leaf {
            absence: Absence::DefaultUsed(_),
            ..
        } => 1,
        Kind::LeafList { defaults, .. } => defaults.len(),
        _ => 0,
    }
}
