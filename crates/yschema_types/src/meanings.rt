//! What the `type` statements of nodes mean, and to which nodes leafrefs refer (RFC 7950, 9.9 and 9.12).

ghost use Rattle.std.specs.Prelude.{◌≡◌, ◌++◌, ℕ, map, option_map, option_and_then, option_to_list, None, IfOk, OnOk};
ghost use Rattle.std.specs.List.{filter_map};
ghost use Rattle.yspec.specs.Forest.{size};
ghost use Rattle.yspec.specs.linking.Planned as spec;
ghost use Rattle.yspec.specs.linking.Planned.{nodes_of};
ghost use Rattle.yspec.specs.linking.Prefixes.{node_name};
ghost use Rattle.yspec.specs.linking.SchemaNodes.{number_in};
ghost use Rattle.ylink_arguments.specs.NameView.{names_view};
ghost use Rattle.ybase_graph.specs.Edges.{edge_view, AreWithin};
ghost use Rattle.ylink.specs.TypeView.{meant_view, member_view};
ghost use Rattle.yschema_plan.specs.NodesView.{node_view};
ghost use Rattle.yschema_plan.specs.PlannedView.{planned_view};
ghost use Rattle.yschema_plan.specs.PlanView.{view};
ghost use Rattle.yschema_types.specs.MeaningsView.{means};
ghost use Rattle.yschema_types.specs.MeantNodes.{meant_as, target_number};
ghost use Rattle.yschema_types.specs.ReferenceEdges.{all_targets, edge_from, edges_of, nodes_meant};
ghost use Rattle.yschema_types.specs.TypesView.{meants_view};

use std::alloc::{AllocError, Global};
use ybase_graph::Edge;
use ybase_words::Keyword;
use ylink::{KeptMeanings, Linked, Meant, Member};
use ylink_arguments::Name;
use yschema_plan::{Plan, PlanNode, Planned};

/// What the `type` statements of a set mean.
#[derive(Clone, Copy)]
pub(crate) enum TypeMeanings<'l, 't> {
    /// Over all names of values.
    All(&'l Linked<'t>),
    /// Over those that are kept.
    Kept(&'l KeptMeanings<'t>),
}

impl<'l, 't> TypeMeanings<'l, 't> {
    ghost use Rattle.std.specs.Prelude.{◌≡◌, option_map};
    ghost use Rattle.ylink.specs.TypeView.{meant_view};
    ghost use Rattle.yschema_types.specs.MeaningsView.{means};

    /// What the statement of a number means.
    fn meant(self, number: u32) -> Option<&'l Meant<'t>>
        ensures { option_map (λ m. meant_view m.now) result ≡ means self.entry number }
    {
        match self {
            TypeMeanings::All(linked) => linked.meant(number),
            TypeMeanings::Kept(meanings) => meanings.meant(number),
        }
    }
}

/// What the type of each node means, and the node to which it refers, by number.
#[derive(Drop)]
pub(crate) struct Meanings<'l, 't> {
    pub meant: Vec<Option<&'l Meant<'t>>>,
    pub targets: Vec<Option<u32>>,
    /// The references of all nodes, those by the members of unions as well.
    pub edges: Vec<Edge>,
}

/// What the `type` statement of a node means; nothing where it has none that is right.
fn meaning_of<'l, 't>(
    types: TypeMeanings<'l, 't>,
    planned: &Planned<'_, 't>,
) -> Option<&'l Meant<'t>>
    ensures { (number : _) → option_map (λ m. meant_view m.now) result
        ≡ meant_as (means types.entry) (planned_view number planned.now) }
{
    match planned.first_own(Keyword::Type) {
        Some(statement) => types.meant(statement.number()),
        None => None,
    }
}

/// The number of a node, where there is one.
fn number_of(node: Option<PlanNode<'_, '_>>) -> Option<u32>
    ensures { result ≡ option_map number_in (option_map node_view node.entry) }
{
    match node {
        Some(node) => Some(node.number),
        None => None,
    }
}

/// The data node to which the steps of a path lead that stands in a module; a name without a prefix is of the owner.
fn data_node_at<'a, 't>(
    plan: &Plan<'a, 't>,
    home: usize,
    owner: usize,
    steps: &[Name<'_>],
) -> Option<PlanNode<'a, 't>>
    ensures { let p = view plan.now in option_map node_view result
        ≡ spec.data_node_at p None (map (node_name p.modules home owner) (names_view steps.now)) }
{
    let mut found: Option<PlanNode<'a, 't>> = None;
    for step in steps {
        let name = plan.node_name(home, owner, *step);
        found = Some(plan.data_child_called(number_of(found), name)?);
    }
    found
}

/// The node that is found, where it is a leaf or a leaf-list.
fn leaf_found<'a, 't>(found: Option<PlanNode<'a, 't>>) -> Option<PlanNode<'a, 't>>
    ensures { option_map node_view result ≡ spec.leaf_found (option_map node_view found.entry) }
{
    match found {
        Some(node) => {
            if node.planned.is_typed() {
                Some(node)
            } else {
                None
            }
        }
        None => None,
    }
}

/// The leaf or leaf-list to which a path leads that stands in a module, for a node of another.
pub fn path_target<'a, 't>(
    plan: &Plan<'a, 't>,
    owner: usize,
    home: usize,
    steps: &[Name<'_>],
) -> Option<PlanNode<'a, 't>>
    ensures { (p : spec.Planned) → owner ≡ p.part.owner → option_map node_view result
        ≡ spec.path_target (view plan.now) p home (names_view steps.now) }
{
    leaf_found(data_node_at(plan, home, owner, steps))
}

/// The leaf or leaf-list to which a type of a node of a module refers as a leafref.
pub fn target_meant<'a, 't>(
    plan: &Plan<'a, 't>,
    owner: usize,
    meant: &Meant<'_>,
) -> Option<PlanNode<'a, 't>>
    ensures { (p : spec.Planned) → owner ≡ p.part.owner → option_map node_view result
        ≡ spec.target_meant (view plan.now) p (meant_view meant.now) }
{
    match meant {
        Meant::Own(_) | Meant::OfUnion(_) => None,
        Meant::OfTarget { home, steps, .. } => path_target(plan, owner, *home, steps.as_slice()),
    }
}

/// That to which a member of a union refers.
fn member_target<'a, 't>(
    plan: &Plan<'a, 't>,
    owner: usize,
    member: &Member<'_>,
) -> Option<PlanNode<'a, 't>>
    ensures { (p : spec.Planned) → owner ≡ p.part.owner → option_map node_view result
        ≡ spec.member_target (view plan.now) p (member_view member.now) }
{
    match member {
        Member::Own(_) => None,
        Member::Leafref { home, steps, .. } => path_target(plan, owner, *home, steps.as_slice()),
    }
}

/// Adds the edge from the node of a number to another node, if there is one.
fn add_edge(
    edges: &mut Vec<Edge>,
    source: u32,
    target: Option<PlanNode<'_, '_>>,
) -> Result<(), AllocError>
    ensures { OnOk result (map edge_view edges.new.items ≡ map edge_view edges.old.items
        ++ map (edge_from source) (option_to_list (option_map node_view target.entry))) }
{
    match target {
        Some(node) => {
            edges.push(Edge {
                source,
                target: node.number,
            })?;
            Ok(())
        }
        None => Ok(()),
    }
}

/// Adds those from it to the nodes to which the members of a union refer.
fn add_member_edges(
    plan: &Plan<'_, '_>,
    edges: &mut Vec<Edge>,
    source: u32,
    owner: usize,
    members: &[Member<'_>],
) -> Result<(), AllocError>
    ensures { (p : spec.Planned) → owner ≡ p.part.owner
        → OnOk result (map edge_view edges.new.items ≡ map edge_view edges.old.items
        ++ map (edge_from source) (filter_map (spec.member_target (view plan.now) p) (map member_view members.now))) }
{
    for member in members {
        let target = member_target(plan, owner, member);
        add_edge(edges, source, target)?;
    }
    Ok(())
}

/// Adds those from it to the nodes to which a meaning of its type refers.
fn add_edges_meant(
    plan: &Plan<'_, '_>,
    edges: &mut Vec<Edge>,
    source: u32,
    owner: usize,
    meant: &Meant<'_>,
) -> Result<(), AllocError>
    ensures { (p : spec.Planned) → owner ≡ p.part.owner
        → OnOk result (map edge_view edges.new.items ≡ map edge_view edges.old.items
        ++ map (edge_from source) (all_targets (view plan.now) p (meant_view meant.now))) }
{
    match meant {
        Meant::Own(_) => Ok(()),
        Meant::OfTarget { home, steps, .. } => {
            let target = path_target(plan, owner, *home, steps.as_slice());
            add_edge(edges, source, target)?;
            Ok(())
        }
        Meant::OfUnion(members) => {
            add_member_edges(plan, edges, source, owner, members.as_slice())?;
            Ok(())
        }
    }
}

/// Adds those from it to the nodes to which its type refers, if that means anything.
fn add_edges(
    plan: &Plan<'_, '_>,
    edges: &mut Vec<Edge>,
    source: u32,
    owner: usize,
    meant: Option<&Meant<'_>>,
) -> Result<(), AllocError>
    ensures { (p : spec.Planned) → owner ≡ p.part.owner
        → OnOk result (map edge_view edges.new.items ≡ map edge_view edges.old.items
        ++ map (edge_from source) (nodes_meant (view plan.now) p (option_map (λ m. meant_view m.now) meant.entry))) }
{
    match meant {
        Some(meant) => {
            add_edges_meant(plan, edges, source, owner, meant)?;
            Ok(())
        }
        None => Ok(()),
    }
}

/// The number of the leaf or leaf-list to which the type of a node refers.
fn target_of<'a, 't>(
    plan: &Plan<'a, 't>,
    planned: &Planned<'a, 't>,
    meant: Option<&Meant<'t>>,
) -> Option<u32>
    ensures { (number : _) → result ≡ option_map number_in
        (option_and_then (spec.target_meant (view plan.now) (planned_view number planned.now))
        (option_map (λ m. meant_view m.now) meant.entry)) }
{
    match meant {
        Some(meant) => number_of(target_meant(plan, planned.owner(), meant)),
        None => None,
    }
}

/// What the types of all nodes mean, and their references, given what the `type` statements of the set mean.
pub(crate) fn meanings_of<'l, 't>(
    alloc: Global,
    plan: &Plan<'_, 't>,
    types: TypeMeanings<'l, 't>,
) -> Result<Meanings<'l, 't>, AllocError>
    ensures meant { IfOk result (λ m. meants_view m.meant.items
        ≡ map (meant_as (means types.entry)) (nodes_of (view plan.now))) }
    ensures targets { let p = view plan.now in IfOk result (λ m. m.targets.items
        ≡ map (target_number p (meant_as (means types.entry))) (nodes_of p)) }
    ensures edges { let p = view plan.now in IfOk result (λ m. map edge_view m.edges.items
        ≡ edges_of p (meant_as (means types.entry))) }
    ensures within { IfOk result (λ m. AreWithin (size (view plan.now).nodes) m.edges.items) }
{
    let mut meant = Vec::with_capacity(alloc, plan.nodes())?;
    let mut targets = Vec::with_capacity(alloc, plan.nodes())?;
    let mut edges = Vec::new(alloc);
    for node in plan.iter() {
        let meaning = meaning_of(types, &node.planned);
        targets.push(target_of(plan, &node.planned, meaning))?;
        let owner = node.planned.owner();
        add_edges(plan, &mut edges, node.number, owner, meaning)?;
        meant.push(meaning)?;
    }
    Ok(Meanings {
        meant,
        targets,
        edges,
    })
}
