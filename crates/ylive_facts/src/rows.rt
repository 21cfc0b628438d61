//! Rows of a store, also those in containers that are implied.

ghost use Rattle.std.specs.Prelude.{◌≡◌, ◌+◌, ◌≤◌};
ghost use Rattle.ystore.specs.Store.{reads};
ghost use Rattle.ystore.specs.Views.{store_of, lent};
ghost use Rattle.ystore_tree.specs.Parts.{OnlyReads};
ghost use Rattle.ylive_facts.specs.Rows.{listed_in, count_in, first_in};

use yschema_model::SchemaId;
use ystore::{Counted, NodeId, Row};

/// The first node of a schema node in a row.
pub(crate) fn first_of(
    counted: &mut Counted<'_>,
    row: Option<Row>,
    schema: SchemaId,
) -> Option<NodeId>
    ensures first { result ≡ first_in schema (listed_in (store_of counted.old) row) }
    ensures kept { OnlyReads (store_of counted.old) (store_of counted.new) }
    ensures reads { reads (store_of counted.new) ≤ reads (store_of counted.old) + 1 }
    ensures same_reference { lent counted.new ≡ lent counted.old }
{
    match row {
        Some(above) => counted.child_of(above, schema, 0),
        None => None,
    }
}

/// How many nodes of a schema node a row has.
pub(crate) fn count_of(counted: &mut Counted<'_>, row: Option<Row>, schema: SchemaId) -> usize
    ensures count { result ≡ count_in (listed_in (store_of counted.old) row) schema.0 }
    ensures kept { OnlyReads (store_of counted.old) (store_of counted.new) }
    ensures reads { reads (store_of counted.new) ≤ reads (store_of counted.old) + 1 }
    ensures same_reference { lent counted.new ≡ lent counted.old }
{
    match row {
        Some(above) => counted.count_of(above, schema),
        None => 0,
    }
}
