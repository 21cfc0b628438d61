//! Copies of documents.

ghost use Rattle.std.specs.Prelude.{◌≡◌, IfOk, option_map};
ghost use Rattle.ytype.specs.View.{raw_of};
ghost use Rattle.yinst_tree.specs.View.{view, row_view, tree_view};

use crate::document::Tree;
use crate::tree::Stored;
use std::alloc::{AllocError, Global};
use ytype::Raw;

impl Clone for Stored {
    ghost is_clone = { λ s copy. view copy ≡ view s };

    fn clone(&self) -> Result<Stored, AllocError> {
        copy_of(self)
    }
}

impl Stored {
    ghost use Rattle.std.specs.Prelude.{◌≡◌, IfOk};
    ghost use Rattle.yinst_tree.specs.View.{view, row_view};

    /// A copy of the node with other nodes below it.
    pub fn with_below(&self, below: Vec<Stored>) -> Result<Stored, AllocError>
        ensures { IfOk result (λ s. view s ≡ ((view self.now).0, row_view below.items)) }
    {
        Ok(Stored::new(self.id(), copy_of_value(self.value())?, below))
    }
}

impl Clone for Tree {
    ghost is_clone = { λ tree copy. tree_view copy ≡ tree_view tree };

    fn clone(&self) -> Result<Tree, AllocError> {
        Ok(Tree::new(copies_of(self.alloc(), self.roots())?))
    }
}

#[cycle(copies)]
fn copy_of(stored: &Stored) -> Result<Stored, AllocError>
    ensures { IfOk result (λ s. view s ≡ view stored.now) }
{
    let value = copy_of_value(stored.value())?;
    let below = copies_of(stored.alloc(), stored.below())?;
    Ok(Stored::new(stored.id(), value, below))
}

fn copy_of_value(value: Option<&Raw>) -> Result<Option<Raw>, AllocError>
    ensures { IfOk result (λ raw. option_map raw_of raw
        ≡ option_map (λ r. raw_of r.now) value.entry) }
{
    match value {
        Some(raw) => Ok(Some(raw.clone()?)),
        None => Ok(None),
    }
}

/// Copies of the nodes of a row.
#[cycle(copies)]
fn copies_of(alloc: Global, row: &[Stored]) -> Result<Vec<Stored>, AllocError>
    ensures { IfOk result (λ nodes. row_view nodes.items ≡ row_view row.now) }
{
    let mut nodes = Vec::with_capacity(alloc, row.len())?;
    for stored in row {
        nodes.push(copy_of(stored)?)?;
    }
    Ok(nodes)
}
