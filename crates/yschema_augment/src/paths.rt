//! The names that are asked for where the targets of augments are found (RFC 7950, 6.5 and 7.17).

ghost use Rattle.std.specs.Prelude.{◌≡◌, ◌<◌, ◌^◌, ◌++◌, ℕ, IfOk, OnOk, Some, map, length, slice_get};
ghost use Rattle.yspec.specs.Forest.{Forest};
ghost use Rattle.yspec.specs.linking.Augments.{target_steps};
ghost use Rattle.yspec.specs.linking.Source as sources;
ghost use Rattle.ylink_arguments.specs.NameView.{names_view};
ghost use Rattle.ylink_names.specs.PrefixView.{IsOf};
ghost use Rattle.yschema_augment.specs.Asking.{AreNames, identifiers, path_of, row_name, steps_from, texts_of_path, texts_seen};
ghost use Rattle.yschema_expand.specs.AugmentView.{augment_view, augments_seen};
ghost use Rattle.yschema_expand.specs.NamedView.{modules_of};
ghost use Rattle.yschema_augment.specs.SearchView.{names_by, path_at};
ghost use Rattle.yschema_expand.specs.TableView.{slots_of};

use crate::search::Step;
use std::alloc::{AllocError, Global};
use ybase_preorder::Node;
use ylink_arguments::{Name, absolute_path};
use ylink_grammar::{Source, argument_of};
use ylink_names::Prefixes;
use yschema_expand::{Named, NodeTable};

/// The names of nodes and of the steps of augments' paths, and these paths.
#[derive(Drop)]
pub(crate) struct Asked<'t> {
    pub texts: Vec<&'t str>,
    pub paths: Vec<Vec<Step>>,
}

/// The names of nodes, in the order of their numbers.
fn names_of<'t>(alloc: Global, nodes: &NodeTable<'_, 't>) -> Result<Vec<&'t str>, AllocError>
    ensures { IfOk result (λ names. texts_seen names.items ≡ map row_name (slots_of nodes.now)) }
{
    let slots = nodes.slots();
    let mut names = Vec::with_capacity(alloc, slots.len())?;
    for slot in slots {
        names.push(slot.label.name())?;
    }
    Ok(names)
}

/// The steps of a path that stands in a module. Their names come behind other texts.
fn steps_of<'t>(
    alloc: Global,
    prefixes: &Prefixes<'_>,
    home: usize,
    path: &[Name<'t>],
    texts: &mut Vec<&'t str>,
) -> Result<Vec<Step>, AllocError>
    requires { length texts.old.items < 2 ^ 32 }
    ensures few { OnOk result (length texts.new.items < 2 ^ 32) }
    ensures texts { OnOk result (texts_seen texts.new.items
        ≡ texts_seen texts.old.items ++ identifiers (names_view path.now)) }
    ensures steps { IfOk result (λ steps. (modules : Forest sources.Source)
        → IsOf prefixes.now modules → steps.items
        ≡ steps_from modules home (length texts.old.items) (names_view path.now)) }
{
    let mut steps = Vec::with_capacity(alloc, path.len())?;
    for name in path {
        let number = texts.len();
        if number >= u32::MAX as usize {
            return Err(AllocError);
        }
        let module = prefixes.node_name(home, home, *name).module;
        steps.push(Step {
            module,
            text: number as u32,
        })?;
        texts.push(name.identifier)?;
    }
    Ok(steps)
}

/// The steps of the path of an augment; none where its argument is no path.
fn augment_steps<'t>(
    alloc: Global,
    prefixes: &Prefixes<'_>,
    augment: Node<'_, Source<'t>>,
    texts: &mut Vec<&'t str>,
) -> Result<Vec<Step>, AllocError>
    requires { length texts.old.items < 2 ^ 32 }
    ensures few { OnOk result (length texts.new.items < 2 ^ 32) }
    ensures texts { OnOk result (texts_seen texts.new.items
        ≡ texts_seen texts.old.items ++ texts_of_path (augment_view augment.entry)) }
    ensures steps { let a = augment_view augment.entry in
        IfOk result (λ steps. (modules : Forest sources.Source) → IsOf prefixes.now modules
        → steps.items ≡ steps_from modules a.source.home (length texts.old.items) (path_of a)) }
{
    match absolute_path(alloc, argument_of(augment))? {
        Some(path) => steps_of(alloc, prefixes, augment.label().home, &path, texts),
        None => Ok(Vec::new(alloc)),
    }
}

/// The names of nodes in the order of their numbers, then those in the paths of augments; and these paths.
pub(crate) fn asked_names<'a, 't>(
    alloc: Global,
    named: &Named<'a, 't>,
    augments: &[Node<'a, Source<'t>>],
    nodes: &NodeTable<'a, 't>,
) -> Result<Asked<'t>, AllocError>
    ensures few { IfOk result (λ made. length made.texts.items < 2 ^ 32) }
    ensures nodes { IfOk result (λ made. AreNames (texts_seen made.texts.items) (slots_of nodes.now)) }
    ensures paths { IfOk result (λ made.
        map (λ p. names_by (texts_seen made.texts.items) p.items) made.paths.items
        ≡ map (target_steps (modules_of named.now)) (augments_seen augments.now)) }
    ensures within { IfOk result (λ made. (augment : ℕ) (n : ℕ) (step : Step)
        → slice_get (path_at made.paths.items augment) n ≡ Some step
        → step.text < length (texts_seen made.texts.items)) }
{
    let prefixes = named.prefixes();
    let mut texts = names_of(alloc, nodes)?;
    let mut paths = Vec::with_capacity(alloc, augments.len())?;
    for augment in augments {
        paths.push(augment_steps(alloc, prefixes, *augment, &mut texts)?)?;
    }
    Ok(Asked { texts, paths })
}
