//! Where nodes stand, and what is told of what doesn't.

use ycheck::FaultCode;
use yschema_model::SchemaId;

/// A stored node, named by its number in a store. Of a node that was removed the number may name a later one.
#[derive(Clone, Copy, Debug, PartialEq, Eq, PartialOrd, Ord)]
pub struct NodeId(pub u32);

/// Where a row of nodes stands: at the top, or right below a node.
#[derive(Clone, Copy, Debug, PartialEq, Eq, PartialOrd, Ord)]
pub enum Row {
    Top,
    Below(NodeId),
}

/// What is told of nodes that aren't stored in a row: a fault, and the schema node of which it is told.
pub type Absence = (FaultCode, SchemaId);
