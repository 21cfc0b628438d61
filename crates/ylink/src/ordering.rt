//! An order of the definitions that statements name.

ghost use Rattle.std.specs.Prelude.{◌≡◌, [], IfOk, is_some};
ghost use Rattle.std.specs.List.{list_any};
ghost use Rattle.yspec.specs.linking.Circles.{definition_circles};
ghost use Rattle.ylink_grammar.specs.LinkView.{view};
ghost use Rattle.ylink_names.specs.MeaningView.{AreMeanings};
ghost use Rattle.ylink_names.specs.Ordered.{AreInOrder};
ghost use Rattle.ylink_names.specs.ReferringView.{AreReferring};

use std::alloc::{AllocError, Global};
use ybase_graph::in_order;
use ylink_grammar::Sources;
use ylink_names::definition_edges_of;

/// Whether a statement names a definition.
fn names_any(meanings: &[Option<u32>]) -> bool
    ensures { result ≡ list_any is_some meanings.now }
{
    for meaning in meanings {
        if meaning.is_some() {
            return true;
        }
    }
    false
}

/// The numbers of all definitions that statements of a set name, each behind those that it uses, given the innermost
/// definition around each statement and what each means. No definition of the set refers to itself.
pub(crate) fn order_of(
    alloc: Global,
    sources: &Sources<'_>,
    holders: &[Option<u32>],
    meanings: &[Option<u32>],
) -> Result<Vec<usize>, AllocError>
    requires held { AreReferring holders.now (view sources.now) }
    requires meant { AreMeanings meanings.now (view sources.now) }
    requires straight { definition_circles (view sources.now) ≡ [] }
    ensures { IfOk result (λ order. AreInOrder order.items (view sources.now)) }
{
    if !names_any(meanings) {
        return Ok(Vec::new(alloc));
    }
    let edges = definition_edges_of(alloc, holders, meanings)?;
    in_order(alloc, sources.slots().len(), &edges)
}
