//! How deep nodes stand.

ghost use Rattle.std.specs.Prelude.{◌≡◌, nat_lt};
ghost use Rattle.yspec.specs.Forest.{levels};
ghost use Rattle.ybase_preorder.specs.View.{row_view};

use crate::planned::Planned;
use ybase_preorder::Siblings;

/// Whether a row has more than so many levels of nodes, its own among them. No deeper ones are looked at.
pub(crate) fn are_deeper(nodes: Siblings<'_, Planned<'_, '_>>, limit: usize) -> bool
    ensures { result ≡ nat_lt limit (levels (row_view nodes.entry)) }
{
    for node in nodes {
        if limit == 0 {
            return true;
        }
        if are_deeper(node.children(), limit - 1) {
            return true;
        }
    }
    false
}
