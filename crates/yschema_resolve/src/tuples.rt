//! The leafs whose values tell the entries of a list apart (RFC 7950, 7.8.2 and 7.8.3).

ghost use Rattle.std.specs.Prelude.{◌≡◌, ◌&&◌, ◌||◌, IfOk, Some, [], false, map, true, option_map, slice_set, unwrap_or};
ghost use Rattle.std.specs.List.{filter_map, list_all, list_any};
ghost use Rattle.std.specs.Option.{option_map_or};
ghost use Rattle.yspec.specs.linking.Arguments.{key_of, unique_of};
ghost use Rattle.yspec.specs.linking.Keyword.{container_word, list_word};
ghost use Rattle.yspec.specs.linking.NodeBreaks as breaks;
ghost use Rattle.yspec.specs.linking.Planned as planned;
ghost use Rattle.yspec.specs.linking.Planned.{child_called, nodes_of};
ghost use Rattle.yspec.specs.linking.Prefixes.{node_name};
ghost use Rattle.yspec.specs.linking.SchemaNodes as spec;
ghost use Rattle.yspec.specs.linking.SchemaNodes.{number_in};
ghost use Rattle.yspec.specs.linking.Source.{argument_in};
ghost use Rattle.ybase_preorder.specs.View.{label_by};
ghost use Rattle.ylink_arguments.specs.NameView.{names_view};
ghost use Rattle.ylink_grammar.specs.SourceView.{source_view};
ghost use Rattle.yschema_plan.specs.NodesView.{node_view};
ghost use Rattle.yschema_plan.specs.PlanView.{view};
ghost use Rattle.yschema_model.specs.Layout.{numbers_of, tuples_view};
ghost use Rattle.yschema_types.specs.Marks.{marked};
ghost use Rattle.yschema_resolve.specs.TuplesView.{children_named, ways_named, way_view, ways_view};

use std::alloc::{AllocError, Global};
use std::collections::BTreeSet;
use ybase_preorder::Node;
use ybase_words::Keyword;
use ylink_arguments::{Name, key_names, unique_paths};
use ylink_grammar::{Source, argument_of};
use yschema_model::{SchemaId, Tuples};
use yschema_plan::{Plan, PlanNode};
use yschema_types::mark;

/// The nodes along a way down, where all are there.
type WayDown<'a, 't> = Option<Vec<PlanNode<'a, 't>>>;

/// The names that a `key` gives.
fn names_of_key<'a, 't>(
    alloc: Global,
    statement: Node<'a, Source<'t>>,
) -> Result<Vec<Name<'t>>, AllocError>
    ensures { IfOk result (λ names. names_view names.items
        ≡ unwrap_or (key_of (argument_in (label_by source_view statement.entry))) []) }
{
    match key_names(alloc, argument_of(statement))? {
        Some(names) => Ok(names),
        None => Ok(Vec::new(alloc)),
    }
}

/// The names along each way that a `unique` gives.
fn names_of_unique<'a, 't>(
    alloc: Global,
    statement: Node<'a, Source<'t>>,
) -> Result<Vec<Vec<Name<'t>>>, AllocError>
    ensures { IfOk result (λ paths. map (λ p. names_view p.items) paths.items
        ≡ unwrap_or (unique_of (argument_in (label_by source_view statement.entry))) []) }
{
    match unique_paths(alloc, argument_of(statement))? {
        Some(paths) => Ok(paths),
        None => Ok(Vec::new(alloc)),
    }
}

/// Of each name that stands in a module the node that it names right below another, where there is one.
fn children_called<'a, 't>(
    alloc: Global,
    plan: &Plan<'a, 't>,
    parent: u32,
    home: usize,
    owner: usize,
    names: &[Name<'t>],
) -> Result<Vec<Option<PlanNode<'a, 't>>>, AllocError>
    ensures { IfOk result (λ children. map (option_map node_view) children.items
        ≡ map (child_called (view plan.now) (Some parent))
        (map (node_name (view plan.now).modules home owner) (names_view names.now))) }
{
    let mut children = Vec::with_capacity(alloc, names.len())?;
    for name in names {
        let name = plan.node_name(home, owner, *name);
        children.push(plan.child_called(Some(parent), name))?;
    }
    Ok(children)
}

/// Of each name that a `key` of a list gives the child that it names.
fn children_of_key<'a, 't>(
    alloc: Global,
    plan: &Plan<'a, 't>,
    list: PlanNode<'a, 't>,
    statement: Node<'a, Source<'t>>,
) -> Result<Vec<Option<PlanNode<'a, 't>>>, AllocError>
    ensures { IfOk result (λ children. map (option_map node_view) children.items
        ≡ children_named (view plan.now) (node_view list.entry)
        (label_by source_view statement.entry)) }
{
    let names = names_of_key(alloc, statement)?;
    let home = statement.label().home;
    children_called(alloc, plan, list.number, home, list.planned.owner(), &names)
}

/// Of each name that the key of a list gives the child that it names.
fn key_children<'a, 't>(
    alloc: Global,
    plan: &Plan<'a, 't>,
    list: PlanNode<'a, 't>,
) -> Result<Vec<Option<PlanNode<'a, 't>>>, AllocError>
    ensures { let p = node_view list.entry in IfOk result
        (λ children. map (option_map node_view) children.items
        ≡ map (child_called (view plan.now) (Some p.number)) (spec.key_names (view plan.now) p)) }
{
    let mut children = Vec::new(alloc);
    for statement in list.planned.own_with(Keyword::Key) {
        children.append(&mut children_of_key(alloc, plan, list, statement)?)?;
    }
    Ok(children)
}

/// The numbers of those that are there.
fn numbers_found<'a, 't>(
    alloc: Global,
    nodes: &[Option<PlanNode<'a, 't>>],
) -> Result<Vec<u32>, AllocError>
    ensures { IfOk result (λ numbers. numbers.items
        ≡ map number_in (filter_map (option_map node_view) nodes.now)) }
{
    let mut numbers = Vec::with_capacity(alloc, nodes.len())?;
    for node in nodes {
        if let Some(node) = node {
            numbers.push(node.number)?;
        }
    }
    Ok(numbers)
}

/// The children that the key of a list names, by number.
fn key_numbers<'a, 't>(
    alloc: Global,
    plan: &Plan<'a, 't>,
    list: PlanNode<'a, 't>,
) -> Result<Vec<u32>, AllocError>
    ensures { IfOk result (λ numbers. numbers.items
        ≡ spec.key_numbers (view plan.now) (node_view list.entry)) }
{
    let children = key_children(alloc, plan, list)?;
    numbers_found(alloc, &children)
}

/// The nodes along a way down that names give, where all are there.
fn way<'a, 't>(
    alloc: Global,
    plan: &Plan<'a, 't>,
    top: u32,
    home: usize,
    owner: usize,
    names: &[Name<'t>],
) -> Result<WayDown<'a, 't>, AllocError>
    ensures { IfOk result (λ way. way_view way
        ≡ planned.way (view plan.now) (Some top)
        (map (node_name (view plan.now).modules home owner) (names_view names.now))) }
{
    let mut nodes = Vec::with_capacity(alloc, names.len())?;
    let mut parent = top;
    for name in names {
        let name = plan.node_name(home, owner, *name);
        match plan.child_called(Some(parent), name) {
            Some(node) => {
                nodes.push(node)?;
                parent = node.number;
            }
            None => return Ok(None),
        }
    }
    Ok(Some(nodes))
}

/// The ways that a `unique` of a list gives.
fn ways_of_unique<'a, 't>(
    alloc: Global,
    plan: &Plan<'a, 't>,
    list: PlanNode<'a, 't>,
    statement: Node<'a, Source<'t>>,
) -> Result<Vec<WayDown<'a, 't>>, AllocError>
    ensures { IfOk result (λ ways. map way_view ways.items
        ≡ ways_named (view plan.now) (node_view list.entry)
        (label_by source_view statement.entry)) }
{
    let paths = names_of_unique(alloc, statement)?;
    let home = statement.label().home;
    let owner = list.planned.owner();
    let mut ways = Vec::with_capacity(alloc, paths.len())?;
    for path in &paths {
        ways.push(way(alloc, plan, list.number, home, owner, path)?)?;
    }
    Ok(ways)
}

/// The ways that each `unique` of a list gives.
fn unique_ways<'a, 't>(
    alloc: Global,
    plan: &Plan<'a, 't>,
    list: PlanNode<'a, 't>,
) -> Result<Vec<Vec<WayDown<'a, 't>>>, AllocError>
    ensures { IfOk result (λ uniques. map ways_view uniques.items
        ≡ spec.unique_ways (view plan.now) (node_view list.entry)) }
{
    let mut uniques = Vec::new(alloc);
    for statement in list.planned.own_with(Keyword::Unique) {
        uniques.push(ways_of_unique(alloc, plan, list, statement)?)?;
    }
    Ok(uniques)
}

/// The nodes along a way; none where it isn't found.
fn leaf_path<'a, 't>(alloc: Global, way: &WayDown<'a, 't>) -> Result<Vec<SchemaId>, AllocError>
    ensures { IfOk result (λ path. numbers_of path.items ≡ spec.leaf_path (way_view way.now)) }
{
    let mut path = Vec::new(alloc);
    if let Some(nodes) = way {
        for node in nodes {
            path.push(SchemaId::new(node.number))?;
        }
    }
    Ok(path)
}

/// The same of each way.
fn leaf_paths<'a, 't>(
    alloc: Global,
    ways: &[WayDown<'a, 't>],
) -> Result<Vec<Vec<SchemaId>>, AllocError>
    ensures { IfOk result (λ paths. map (λ path. numbers_of path.items) paths.items
        ≡ map spec.leaf_path (map way_view ways.now)) }
{
    let mut paths = Vec::with_capacity(alloc, ways.len())?;
    for way in ways {
        paths.push(leaf_path(alloc, way)?)?;
    }
    Ok(paths)
}

/// The nodes of some numbers.
fn ids_of(alloc: Global, numbers: &[u32]) -> Result<Vec<SchemaId>, AllocError>
    ensures { IfOk result (λ ids. numbers_of ids.items ≡ numbers.now) }
{
    let mut ids = Vec::with_capacity(alloc, numbers.len())?;
    for number in numbers {
        ids.push(SchemaId::new(*number))?;
    }
    Ok(ids)
}

/// The leafs whose values tell the entries of a list apart (RFC 7950, 7.8.2 and 7.8.3).
pub fn tuples_of<'a, 't>(
    alloc: Global,
    plan: &Plan<'a, 't>,
    list: PlanNode<'a, 't>,
) -> Result<Tuples, AllocError>
    ensures { IfOk result (λ tuples. tuples_view tuples
        ≡ spec.tuples_of (view plan.now) (node_view list.entry)) }
{
    let numbers = key_numbers(alloc, plan, list)?;
    let keys = ids_of(alloc, &numbers)?;
    let mut uniques = Vec::new(alloc);
    for ways in &unique_ways(alloc, plan, list)? {
        uniques.push(leaf_paths(alloc, ways)?)?;
    }
    Ok(Tuples { keys, uniques })
}

/// Marks the children that the key of a list names.
fn mark_keys<'a, 't>(
    alloc: Global,
    plan: &Plan<'a, 't>,
    list: PlanNode<'a, 't>,
    marks: &mut Vec<bool>,
) -> Result<(), AllocError>
    ensures { IfOk result (λ _. marks.new.items
        ≡ marked marks.old.items (spec.key_numbers (view plan.now) (node_view list.entry))) }
{
    let numbers = key_numbers(alloc, plan, list)?;
    for number in &numbers {
        mark(marks, *number as usize);
    }
    Ok(())
}

/// Of each node, by number, whether it is a key of the list right above it.
pub(crate) fn keys<'a, 't>(alloc: Global, plan: &Plan<'a, 't>) -> Result<Vec<bool>, AllocError>
    ensures { IfOk result (λ marks. marks.items
        ≡ map (spec.is_key (view plan.now)) (nodes_of (view plan.now))) }
{
    let mut marks = vec![in alloc; false; plan.nodes()]?;
    for node in plan.iter() {
        if Keyword::List.is(node.planned.keyword()) {
            mark_keys(alloc, plan, node, &mut marks)?;
        }
    }
    Ok(marks)
}

fn has_twice(alloc: Global, numbers: &[u32]) -> Result<bool, AllocError>
    ensures { IfOk result (λ twice. twice ≡ breaks.has_twice numbers.now) }
{
    let mut met = BTreeSet::new(alloc);
    for number in numbers {
        if !met.insert(*number)? {
            return Ok(true);
        }
    }
    Ok(false)
}

/// Whether a node is a leaf, and no `anydata` or `anyxml`.
fn is_leaf<'a, 't>(node: &PlanNode<'a, 't>) -> bool
    ensures { result ≡ planned.is_leaf (node_view node.now) }
{
    node.planned.is_leaf()
}

/// Whether a child may be named by the key of a list: a leaf of its module, configuration where the list is.
fn is_key_leaf<'a, 't>(list: &PlanNode<'a, 't>, child: &PlanNode<'a, 't>) -> bool
    ensures { result ≡ breaks.is_key_leaf (node_view list.now) (node_view child.now) }
{
    is_leaf(child)
        && child.planned.owner() == list.planned.owner()
        && list.planned.config == child.planned.config
}

fn are_key_leafs<'a, 't>(list: &PlanNode<'a, 't>, children: &[Option<PlanNode<'a, 't>>]) -> bool
    ensures { result ≡ list_all (λ child. option_map_or
        (breaks.is_key_leaf (node_view list.now)) child false)
        (map (option_map node_view) children.now) }
{
    for child in children {
        let is_right = match child {
            Some(child) => is_key_leaf(list, child),
            None => false,
        };
        if !is_right {
            return false;
        }
    }
    true
}

/// Whether the key of a list names something other than leafs right below it, or one of them twice.
fn is_wrong_key<'a, 't>(
    alloc: Global,
    plan: &Plan<'a, 't>,
    list: PlanNode<'a, 't>,
) -> Result<bool, AllocError>
    ensures { IfOk result (λ wrong. wrong
        ≡ breaks.is_wrong_key (view plan.now) (node_view list.entry)) }
{
    let children = key_children(alloc, plan, list)?;
    if !are_key_leafs(&list, &children) {
        return Ok(true);
    }
    let numbers = numbers_found(alloc, &children)?;
    has_twice(alloc, &numbers)
}

fn are_containers<'a, 't>(nodes: &[PlanNode<'a, 't>]) -> bool
    ensures { result ≡ list_all (planned.is_a container_word) (map node_view nodes.now) }
{
    for node in nodes {
        if !Keyword::Container.is(node.planned.keyword()) {
            return false;
        }
    }
    true
}

/// Whether the leaf to which a way through containers leads is configuration, where there is one.
fn leaf_config<'a, 't>(way: &[PlanNode<'a, 't>]) -> Option<bool>
    ensures { result ≡ option_map (λ p. p.config) (breaks.leaf_behind (map node_view way.now)) }
{
    let (last, above) = way.split_last()?;
    if are_containers(above) && last.planned.is_leaf() {
        Some(last.planned.config)
    } else {
        None
    }
}

/// Whether each of these ways leads to a leaf that is configuration, or is none, as is asked.
fn are_all<'a, 't>(config: bool, ways: &[WayDown<'a, 't>]) -> bool
    ensures { result ≡ list_all (breaks.is_config config)
        (map breaks.leaf_named (map way_view ways.now)) }
{
    for way in ways {
        let found = match way {
            Some(nodes) => leaf_config(nodes),
            None => None,
        };
        if found != Some(config) {
            return false;
        }
    }
    true
}

/// Whether the leafs of a `unique` aren't all configuration, or all state.
fn is_wrong_unique<'a, 't>(ways: &[WayDown<'a, 't>]) -> bool
    ensures { result ≡ breaks.is_wrong_unique (map way_view ways.now) }
{
    !(are_all(true, ways) || are_all(false, ways))
}

fn has_wrong_unique<'a, 't>(
    alloc: Global,
    plan: &Plan<'a, 't>,
    list: PlanNode<'a, 't>,
) -> Result<bool, AllocError>
    ensures { IfOk result (λ wrong. wrong ≡ list_any breaks.is_wrong_unique
        (spec.unique_ways (view plan.now) (node_view list.entry))) }
{
    for ways in &unique_ways(alloc, plan, list)? {
        if is_wrong_unique(ways) {
            return Ok(true);
        }
    }
    Ok(false)
}

/// Whether a node is a list with a key or a `unique` that no list may have.
pub(crate) fn has_wrong_tuples<'a, 't>(
    alloc: Global,
    plan: &Plan<'a, 't>,
    node: PlanNode<'a, 't>,
) -> Result<bool, AllocError>
    ensures { let p = node_view node.entry in IfOk result (λ wrong. wrong
        ≡ (planned.is_a list_word p && (breaks.is_wrong_key (view plan.now) p
        || list_any breaks.is_wrong_unique (spec.unique_ways (view plan.now) p)))) }
{
    if !Keyword::List.is(node.planned.keyword()) {
        return Ok(false);
    }
    Ok(is_wrong_key(alloc, plan, node)? || has_wrong_unique(alloc, plan, node)?)
}
