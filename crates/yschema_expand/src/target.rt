//! The nodes to which the paths of refines lead (RFC 7950, 6.5 and 7.13.2).

ghost use Rattle.std.specs.Prelude.{◌≡◌, ◌≤◌, ◌<◌, ◌+◌, ◌++◌, ℕ, List, Option, IfSome, false, is_some, length, map, option_map};
ghost use Rattle.yspec.specs.Forest.{Forest};
ghost use Rattle.yspec.specs.linking.Parts.{Part};
ghost use Rattle.yspec.specs.linking.Source as sources;
ghost use Rattle.yspec.specs.linking.Prefixes as spec;
ghost use Rattle.yspec.specs.linking.Expansion.{is_step};
ghost use Rattle.ybase_preorder.specs.Layout.{Place, places};
ghost use Rattle.ybase_preorder.specs.View.{row_by};
ghost use Rattle.ylink_arguments.specs.NameView.{names_view};
ghost use Rattle.ylink_names.specs.PrefixView.{IsOf, node_name_view};
ghost use Rattle.yschema_expand.specs.Indexing.{Indexes};
ghost use Rattle.yschema_expand.specs.NodeView.{numbered_part, part_view};
ghost use Rattle.yschema_expand.specs.TableView.{parts_in, slots_of};
ghost use Rattle.yschema_expand.specs.Targets.{node_seen, found_in, found_at};

use crate::indexing::TargetIndex;
use crate::nodes::ExpandedNode;
use crate::table::NodeTable;
use ybase_preorder::{Node, Siblings};
use ylink_arguments::Name;
use ylink_names::{NodeName, Prefixes};

/// Whether a node has a name.
fn is_called(node: &ExpandedNode<'_, '_>, step: &NodeName<'_>) -> bool
    ensures { result ≡ is_step (node_name_view step.now) (part_view node.now) }
{
    match step.module {
        Some(module) => module == node.owner() && node.name() == step.name,
        None => false,
    }
}

/// The first of some siblings that has a name.
fn child_called<'p, 'a, 't>(
    step: &NodeName<'_>,
    nodes: Siblings<'p, ExpandedNode<'a, 't>>,
) -> Option<Node<'p, ExpandedNode<'a, 't>>>
    ensures found { option_map node_seen result ≡ found_in (is_step (node_name_view step.now))
        nodes.entry.number (row_by numbered_part nodes.entry) }
    ensures below { IfSome result (λ node. node.children.number ≡ node.number + 1) }
{
    for node in nodes {
        if is_called(node.label(), step) {
            return Some(node);
        }
    }
    None
}

/// The node at a path that begins among some siblings, the names of which stand in a module; those without a prefix are of
/// a module that is given.
fn node_at<'p, 'a, 't>(
    prefixes: &Prefixes<'_>,
    home: usize,
    owner: usize,
    path: &[Name<'_>],
    nodes: Siblings<'p, ExpandedNode<'a, 't>>,
) -> Option<Node<'p, ExpandedNode<'a, 't>>>
    ensures { (modules : Forest sources.Source) → IsOf prefixes.now modules
        → option_map node_seen result
        ≡ found_at (map (spec.node_name modules home owner) (names_view path.now))
        nodes.entry.number (row_by numbered_part nodes.entry) }
{
    let (first, mut left) = path.split_first()?;
    let mut found = child_called(&prefixes.node_name(home, owner, *first), nodes)?;
    while let Some((name, steps)) = left.split_first() {
        found = child_called(&prefixes.node_name(home, owner, *name), found.children())?;
        left = steps;
    }
    Some(found)
}

/// The nodes of a table from that of a number on, with an index of them where there is one.
#[derive(Clone, Copy)]
pub(crate) struct LastNodes<'b, 'a, 't> {
    pub table: &'b NodeTable<'a, 't>,
    pub first: u32,
    pub index: Option<&'b TargetIndex<'t>>,
}

/// The number of the node at a path that begins among the last nodes of a table, the names of which stand in a module; those
/// without a prefix are of a module that is given.
pub(crate) fn number_at(
    prefixes: &Prefixes<'_>,
    home: usize,
    owner: usize,
    path: &[Name<'_>],
    nodes: LastNodes<'_, '_, '_>,
) -> Option<u32>
    requires { IfSome nodes.index (λ x. Indexes nodes.first x.now (parts_in nodes.table.now)) }
    ensures found { let first = nodes.entry.first in
        (modules : Forest sources.Source) (earlier : List (Place Part)) (parent : Option ℕ) (f : Forest Part)
        → IsOf prefixes.now modules → length earlier ≡ first
        → parts_in nodes.entry.table.now ≡ earlier ++ places parent first f
        → result ≡ option_map (λ x. x.number)
        (found_at (map (spec.node_name modules home owner) (names_view path.now)) first f) }
    ensures among { (modules : Forest sources.Source) → IsOf prefixes.now modules → is_some nodes.entry.index ≡ false
        → IfSome result (λ n. (nodes.entry.first ≤ n) × (n < length (slots_of nodes.entry.table.now))) }
{
    match nodes.index {
        Some(index) => index.number_at(prefixes, home, owner, path),
        None => {
            let row = nodes.table.from(nodes.first);
            let found = node_at(prefixes, home, owner, path, row)?;
            Some(found.number())
        }
    }
}
