//! The document that hangs in a store, copied.

ghost use Rattle.std.specs.Prelude.{◌≡◌, ◌≤◌, IfOk, option_map};
ghost use Rattle.yspec.specs.Forest.{size};
ghost use Rattle.yspec.specs.document.Document as document;
ghost use Rattle.ytype.specs.View.{raw_of};
ghost use Rattle.yinst_tree.specs.View.{row_view, tree_view};
ghost use Rattle.ystore.specs.Store.{children_at, node_count};
ghost use Rattle.ystore.specs.Viewed.{viewed};
ghost use Rattle.ystore_rows.specs.declared.row.Row.TheVariants.{Top};
ghost use Rattle.ystore_tree.specs.Hanging.{Branches, Hangs, Holds, tree_of};
ghost use Rattle.ystore_tree.specs.Copies.{listed_below, row_of_children};

use std::alloc::{AllocError, Global};
use yinst_tree::{Stored, Tree};
use ystore::{Row, View};
use ytype::Raw;

/// A copy of the document that hangs in a store. Its reads aren't counted.
pub fn copy_tree(alloc: Global, view: View<'_>) -> Result<Tree, AllocError>
    ensures listed { IfOk result (λ tree. tree_view tree
        ≡ listed_below (node_count (viewed view.entry)) (viewed view.entry) Top) }
    // also where a store has nodes beside it
    ensures hanging { (f : Branches) → Hangs (viewed view.entry) Top f
        → size f ≤ node_count (viewed view.entry)
        → IfOk result (λ tree. tree_view tree ≡ tree_of f) }
    ensures held { (t : document.Tree) → Holds (viewed view.entry) t
        → IfOk result (λ tree. tree_view tree ≡ t) }
{
    copy_all(alloc, view)
}

fn copy_all(alloc: Global, view: View<'_>) -> Result<Tree, AllocError>
    ensures { IfOk result (λ tree. tree_view tree
        ≡ listed_below (node_count (viewed view.entry)) (viewed view.entry) Top) }
{
    Ok(Tree::new(copy_row(alloc, view, Row::Top, view.node_count())?))
}

/// Copies of the nodes of a row, and of those below them, down to so many levels.
#[cycle(copies)]
fn copy_row(
    alloc: Global,
    view: View<'_>,
    above: Row,
    levels: usize,
) -> Result<Vec<Stored>, AllocError>
    ensures { IfOk result (λ nodes. row_view nodes.items
        ≡ listed_below levels (viewed view.entry) above) }
{
    if levels == 0 {
        return Ok(Vec::new(alloc));
    }
    copy_children(alloc, view, above, levels - 1)
}

#[cycle(copies)]
fn copy_children(
    alloc: Global,
    view: View<'_>,
    above: Row,
    levels: usize,
) -> Result<Vec<Stored>, AllocError>
    ensures { IfOk result (λ nodes. row_view nodes.items
        ≡ row_of_children levels (viewed view.entry) (children_at (viewed view.entry) above)) }
{
    let mut nodes = Vec::with_capacity(alloc, view.child_count(above))?;
    while let Some(child) = view.child_at(above, nodes.len()) {
        let value = copy_of_value(view.value(child.1))?;
        let below = copy_row(alloc, view, Row::Below(child.1), levels)?;
        nodes.push(Stored::new(child.0, value, below))?;
    }
    Ok(nodes)
}

pub(crate) fn copy_of_value(value: Option<&Raw>) -> Result<Option<Raw>, AllocError>
    ensures { IfOk result (λ raw. option_map raw_of raw
        ≡ option_map (λ r. raw_of r.now) value.entry) }
{
    match value {
        Some(raw) => Ok(Some(raw.clone()?)),
        None => Ok(None),
    }
}
