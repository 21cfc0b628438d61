//! One slot of a table.

/// A node as it lies in a table: the number of the node above it, where there is one, and how many nodes stand below it;
/// these follow it.
#[derive(Debug, Drop)]
pub struct Slot<L> {
    pub parent: Option<u32>,
    pub label: L,
    pub below: usize,
}
