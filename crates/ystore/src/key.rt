//! What nodes are found by.

use yschema_model::SchemaId;
use ystore_rows::Row;
use ytype::Val;

/// A key of an index. Keys are compared by what they hold.
#[derive(Debug, PartialEq, Eq, PartialOrd, Ord, Drop)]
pub enum Key {
    /// A value of a node to which leafrefs refer.
    Value(SchemaId, Val),
    /// A value of an item of a leaf-list in a row.
    Item(Row, SchemaId, Val),
    /// The values of the leafs of a key, or of a `unique` by its number, of an entry of a list in a row.
    Tuple(Row, SchemaId, usize, Vec<Val>),
    /// The canonical texts of the leafs of a key, of an entry of a list in a row.
    Texts(Row, SchemaId, Vec<String>),
}
