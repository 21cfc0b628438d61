//! All nodes of a set of modules: each `uses` is replaced, and each augment applied that finds its target (RFC 7950, 7.13 and
//! 7.17).

ghost use Rattle.std.specs.Prelude.{◌≡◌, ◌++◌, IfOk, None, length};
ghost use Rattle.yspec.specs.Forest.{join, size};
ghost use Rattle.yspec.specs.linking.Augments.{augments_of, in_turn};
ghost use Rattle.yspec.specs.schema.Breaks as breaks;
ghost use Rattle.yspec_wide.specs.Expansion as spec;
ghost use Rattle.ybase_preorder.specs.Layout.{places};
ghost use Rattle.ylink_grammar.specs.BreakView.{seen};
ghost use Rattle.yschema_expand.specs.AugmentView.{augments_seen};
ghost use Rattle.yschema_expand.specs.Bodies.{bodies_of, starts_from};
ghost use Rattle.yschema_augment.specs.Augmenting.{breaks_of};
ghost use Rattle.yschema_augment.specs.Hanging.{plain};
ghost use Rattle.yschema_expand.specs.Knowing.{Knows};
ghost use Rattle.yschema_expand.specs.NamedView.{language_of, modules_of};
ghost use Rattle.yschema_augment.specs.Picking.{left_of};
ghost use Rattle.yschema_expand.specs.TableView.{parts_in, slots_of};
ghost use Rattle.yschema_augment.specs.Turning.{numbers_of, placed};

use crate::arranging::{arranged, number_at};
use crate::paths::{Asked, asked_names};
use crate::search::Search;
use crate::starting::index_of;
use crate::targets::{Resolved, Targets};
use std::alloc::{AllocError, Global};
use ybase_preorder::Node;
use ylink_grammar::{BrokenRule, CompileCode, Source, broken, least};
use yschema_expand::{Context, Groupings, Made, Named, NodeTable, add_bodies, expanded};

/// Which augments are applied, in which order and below which nodes, given all nodes and those that each augment adds.
fn resolved<'a, 't>(
    alloc: Global,
    named: &Named<'a, 't>,
    augments: &[Node<'a, Source<'t>>],
    nodes: &NodeTable<'a, 't>,
    starts: &[u32],
) -> Result<Resolved, AllocError>
    requires laid { let l = language_of named.now in let m = modules_of named.now in parts_in nodes.now
        ≡ places None 0 (join (spec.expanded_parts_in l m) (bodies_of l m (augments_seen augments.now))) }
    requires starts { let l = language_of named.now in let m = modules_of named.now in
        starts.now ≡ starts_from l m (size (spec.expanded_parts_in l m)) (augments_seen augments.now) }
    ensures { IfOk result (λ r. let l = language_of named.now in let m = modules_of named.now in
        let augments = augments_seen augments.now in
        (plain (placed starts.now (slots_of nodes.now) augments r.order.items), left_of r.waits.items augments)
        ≡ in_turn (spec.is_ready_in l m) (spec.applied_in l m) (length augments) (spec.expanded_parts_in l m) augments) }
{
    let Asked { texts, paths } = asked_names(alloc, named, augments, nodes)?;
    let first = number_at(starts, 0, nodes.len());
    let index = index_of(alloc, texts, nodes, first)?;
    let mut search = Search::new(alloc, index)?;
    let targets = Targets {
        nodes,
        augments,
        paths: paths.as_slice(),
        starts,
        named,
        versions: named.versions(),
    };
    targets.resolve(alloc, &mut search)
}

/// The least of what is told so far and the augments that wait still.
fn least_left(
    augments: &[Node<'_, Source<'_>>],
    waits: &[bool],
    so_far: Option<BrokenRule>,
) -> Option<BrokenRule>
    ensures { seen result ≡ breaks.least_from (seen so_far)
        (breaks_of (left_of waits.now (augments_seen augments.now))) }
{
    let mut told = so_far;
    for (place, augment) in augments.iter().enumerate() {
        if waits.get(place) == Some(&true) {
            let label = augment.label();
            told = least(told, broken(CompileCode::C14, label.home, label.statement));
        }
    }
    told
}

/// The numbers of augments' statements.
fn numbers_of(alloc: Global, augments: &[Node<'_, Source<'_>>]) -> Result<Vec<u32>, AllocError>
    ensures { IfOk result (λ numbers. numbers.items ≡ numbers_of (augments_seen augments.now)) }
{
    let mut numbers = Vec::with_capacity(alloc, augments.len())?;
    for augment in augments {
        numbers.push(augment.number())?;
    }
    Ok(numbers)
}

/// The nodes that all modules define, each `uses` replaced and each augment applied that finds its target, always the first
/// that does by then; and the least of the refines that aren't fit and the augments that are left (C14).
pub fn augmented<'a, 't>(
    alloc: Global,
    named: &'a Named<'a, 't>,
    groupings: &'a Groupings,
    augments: &[Node<'a, Source<'t>>],
) -> Result<Made<'a, 't>, AllocError>
    requires known { Knows groupings.now (language_of named.now) (modules_of named.now) }
    requires augments { augments_seen augments.now ≡ augments_of (modules_of named.now) }
    ensures nodes { IfOk result (λ made. parts_in made.table
        ≡ places None 0 (spec.augmented_in (language_of named.entry.now) (modules_of named.entry.now)).0) }
    ensures told { let l = language_of named.entry.now in let m = modules_of named.entry.now in
        IfOk result (λ made. seen made.told
        ≡ breaks.least_from None (spec.unfit_breaks_in l m ++ spec.augment_breaks_in l m)) }
{
    let mut made = expanded(alloc, named, groupings)?;
    if augments.is_empty() {
        return Ok(made);
    }
    let context = Context { named, groupings };
    let starts = add_bodies(alloc, &context, augments, &mut made)?;
    let resolved = resolved(alloc, named, augments, &made.table, &starts)?;
    let numbers = numbers_of(alloc, augments)?;
    let table = arranged(alloc, &made.table, &starts, &numbers, &resolved.order)?;
    Ok(Made {
        table,
        told: least_left(augments, &resolved.waits, made.told),
    })
}
