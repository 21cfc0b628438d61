//! Augments that are applied (RFC 7950, 7.17).

/// An augment that is applied, by its place among all, and the number of the node below which it adds.
#[derive(Clone, Copy, Debug)]
pub(crate) struct Applied {
    pub target: u32,
    pub augment: usize,
}
