//! The types of leafs and leaf-lists, leafrefs and the members of unions followed to where they lead (RFC 7950, 9.9 and 9.12).

ghost use Rattle.std.specs.Prelude.{◌≡◌, ◌++◌, ℕ, IfOk, OnOk, None, [], map, option_map, option_and_then, replicate, slice_set};
ghost use Rattle.std.specs.List.{flat_map, range_with_len};
ghost use Rattle.std.specs.Option.{option_map_or};
ghost use Rattle.yspec.specs.Forest.{size};
ghost use Rattle.yspec.specs.types.Restriction.{union_type};
ghost use Rattle.yspec.specs.linking.TypeStatements.{of_union};
ghost use Rattle.yspec.specs.linking.Planned as spec;
ghost use Rattle.yspec.specs.linking.Planned.{nodes_of, referring};
ghost use Rattle.ybase_graph.specs.Edges.{edge_view, AreWithin};
ghost use Rattle.ylink_arguments.specs.NameView.{names_view};
ghost use Rattle.ylink.specs.TypeView as meanings;
ghost use Rattle.ylink.specs.TypeView.{member_view};
ghost use Rattle.yschema_model.specs.Layout.{targets_view};
ghost use Rattle.yschema_plan.specs.NodesView.{node_view};
ghost use Rattle.yschema_plan.specs.PlanView.{view};
ghost use Rattle.yschema_plan.specs.PlannedView.{planned_view};
ghost use Rattle.yschema_types.specs.MadeTypes as made_types;
ghost use Rattle.yschema_types.specs.MadeTypes.{nothing, made_as, made_at, made_by, made_node, targets_made, is_wide_made, joined, type_made, typed_in, types_held, AreTypes, IsOrder};
ghost use Rattle.yschema_types.specs.MadeView.{made_view, rows_view};
ghost use Rattle.yschema_types.specs.MeantNodes.{meant_at};
ghost use Rattle.yschema_types.specs.ModulesView.{AreNamesOf};
ghost use Rattle.yschema_types.specs.ReferenceEdges.{edges_of};
ghost use Rattle.yschema_types.specs.TypesView.{homes_in, meants_view};

use crate::meanings::{Meanings, path_target};
use crate::modules::ModuleTable;
use std::alloc::{AllocError, Global};
use ybase_graph::in_order;
use ylink::{Meant, Member};
use ylink_arguments::Name;
use yschema_model::{MemberTargets, SchemaId};
use yschema_plan::{Plan, PlanNode, Planned};
use ytype::YType;
use ytype_numbers::Restriction;

/// What is made of the type of a node.
#[derive(Drop)]
pub enum Made {
    /// Nothing: it has none, or one that leads nowhere or in a circle.
    Nothing,
    /// Nothing, since a union has too many members with those of what its leafrefs lead to.
    TooWide,
    /// Its type in its module, and of a union with leafrefs what each member refers to.
    Typed {
        value_type: YType,
        targets: Vec<MemberTargets>,
    },
}

impl Made {
    ghost use Rattle.std.specs.Prelude.{◌≡◌, option_map};
    ghost use Rattle.yschema_model.specs.Layout.{targets_view};
    ghost use Rattle.yschema_types.specs.MadeTypes.{is_wide_made, targets_made, type_made};
    ghost use Rattle.yschema_types.specs.MadeView.{made_view};

    fn value_type(&self) -> Option<&YType>
        ensures { option_map (λ t. t.now) result ≡ type_made (made_view self.now) }
    {
        match self {
            Made::Typed { value_type, .. } => Some(value_type),
            Made::Nothing | Made::TooWide => None,
        }
    }

    fn targets(&self) -> &[MemberTargets]
        ensures { targets_view result.now ≡ targets_made (made_view self.now) }
    {
        match self {
            Made::Typed { targets, .. } => targets.as_slice(),
            Made::Nothing | Made::TooWide => &[],
        }
    }

    fn is_wide(&self) -> bool
        ensures { result ≡ is_wide_made (made_view self.now) }
    {
        matches!(self, Made::TooWide)
    }
}

/// The type that is held of the node of a number.
pub(crate) fn type_held(made: &[Made], number: usize) -> Option<&YType>
    ensures { option_map (λ t. t.now) result
        ≡ type_made (made_at (rows_view made.entry.now) number) }
{
    match made.get(number) {
        Some(one) => one.value_type(),
        None => None,
    }
}

/// What the members of its type refer to that are those of leafrefs.
pub(crate) fn targets_held(made: &[Made], number: usize) -> &[MemberTargets]
    ensures { targets_view result.now
        ≡ targets_made (made_at (rows_view made.entry.now) number) }
{
    match made.get(number) {
        Some(one) => one.targets(),
        None => &[],
    }
}

/// Whether it has too many members with those of what its leafrefs lead to.
pub(crate) fn is_wide_held(made: &[Made], number: usize) -> bool
    ensures { result ≡ is_wide_made (made_at (rows_view made.entry.now) number) }
{
    match made.get(number) {
        Some(one) => one.is_wide(),
        None => false,
    }
}

/// The type of a leafref that refers to a node of a type.
fn referring(alloc: Global, value_type: &YType, required: bool) -> Result<YType, AllocError>
    ensures { IfOk result (λ t. t ≡ referring required value_type.now) }
{
    let Ok(requiring) = YType::leafref(alloc, value_type) else {
        return Err(AllocError);
    };
    if required {
        return Ok(requiring);
    }
    match requiring.narrow(alloc, &Restriction::RequireInstance(false)) {
        Ok(narrowed) => Ok(narrowed),
        Err(_) => Err(AllocError),
    }
}

/// A type in the module of its node, with what its members refer to.
fn made_in_module(
    alloc: Global,
    modules: &ModuleTable<'_>,
    owner: usize,
    value_type: &YType,
    targets: Vec<MemberTargets>,
) -> Result<Made, AllocError>
    ensures { IfOk result (λ made. made_view made
        ≡ typed_in (homes_in modules.now owner) (targets_view targets.items) value_type.now) }
{
    let value_type = modules.type_in(alloc, owner, value_type)?;
    Ok(Made::Typed {
        value_type,
        targets,
    })
}

/// What is made of a leafref that leads to a node of a type, if that has one.
fn made_referring(
    alloc: Global,
    modules: &ModuleTable<'_>,
    owner: usize,
    required: bool,
    target: Option<&YType>,
) -> Result<Made, AllocError>
    ensures { IfOk result (λ made. made_view made
        ≡ option_map_or (λ type. typed_in (homes_in modules.now owner) [] (referring required type))
        (option_map (λ t. t.now) target.entry) nothing) }
{
    match target {
        Some(value_type) => {
            let leafref = referring(alloc, value_type, required)?;
            made_in_module(alloc, modules, owner, &leafref, Vec::new(alloc))
        }
        None => Ok(Made::Nothing),
    }
}

/// The type that is held of the node to which a path leads.
fn target_type<'m>(
    plan: &Plan<'_, '_>,
    owner: usize,
    home: usize,
    steps: &[Name<'_>],
    made: &'m [Made],
) -> Option<&'m YType>
    ensures { (p : spec.Planned) → owner ≡ p.part.owner → option_map (λ t. t.now) result
        ≡ option_and_then (types_held (rows_view made.entry.now))
        (spec.path_target (view plan.now) p home (names_view steps.now)) }
{
    match path_target(plan, owner, home, steps) {
        Some(target) => type_held(made, target.number as usize),
        None => None,
    }
}

/// A copy of a type, if there is one.
fn copied(value_type: Option<&YType>) -> Result<Option<YType>, AllocError>
    ensures { IfOk result (λ copy. copy ≡ option_map (λ t. t.now) value_type.entry) }
{
    match value_type {
        Some(value_type) => Ok(Some(value_type.clone()?)),
        None => Ok(None),
    }
}

/// The type of a member of a union, if it has one.
fn member_type(
    plan: &Plan<'_, '_>,
    owner: usize,
    member: &Member<'_>,
    made: &[Made],
) -> Result<Option<YType>, AllocError>
    ensures { (p : spec.Planned) → owner ≡ p.part.owner → IfOk result (λ type. type
        ≡ spec.member_type (view plan.now) (types_held (rows_view made.now)) p (member_view member.now)) }
{
    match member {
        Member::Own(value_type) => copied(Some(value_type)),
        Member::Leafref { home, steps, .. } => {
            copied(target_type(plan, owner, *home, steps.as_slice(), made))
        }
    }
}

/// The types of members, where each has one.
fn member_types(
    alloc: Global,
    plan: &Plan<'_, '_>,
    owner: usize,
    members: &[Member<'_>],
    made: &[Made],
) -> Result<Option<Vec<YType>>, AllocError>
    ensures { (p : spec.Planned) → owner ≡ p.part.owner
        → IfOk result (λ types. option_map (λ t. t.items) types
        ≡ spec.member_types (view plan.now) (types_held (rows_view made.now)) p (map member_view members.now)) }
{
    let mut types = Vec::with_capacity(alloc, members.len())?;
    for member in members {
        match member_type(plan, owner, member, made)? {
            Some(value_type) => types.push(value_type)?,
            None => return Ok(None),
        }
    }
    Ok(Some(types))
}

/// The most members that a union may have, with those of the unions and leafrefs among them.
const MOST_MEMBERS: usize = 65535;

/// Whether a union of types has too many members.
fn are_too_many(types: &[YType]) -> bool
    ensures { result ≡ spec.is_too_wide types.now }
{
    let mut left = MOST_MEMBERS;
    for value_type in types {
        let more = value_type.member_count();
        if more > left {
            return true;
        }
        left -= more;
    }
    false
}

/// Adds so many members that refer to nothing.
fn add_own(targets: &mut Vec<MemberTargets>, count: usize) -> Result<(), AllocError>
    ensures { OnOk result (targets_view targets.new.items ≡ targets_view targets.old.items
        ++ map (λ i. made_types.no_target) (range_with_len 0 count)) }
{
    targets.push(MemberTargets::Own(count))?;
    Ok(())
}

/// Adds all members of a union of so many, by way of a leafref that refers to a node of it.
fn add_each(
    targets: &mut Vec<MemberTargets>,
    target: SchemaId,
    required: bool,
    count: usize,
) -> Result<(), AllocError>
    ensures { OnOk result (targets_view targets.new.items ≡ targets_view targets.old.items
        ++ map (made_types.each_target target.0 required) (range_with_len 0 count)) }
{
    targets.push(MemberTargets::All {
        target,
        count,
        is_required: required,
    })?;
    Ok(())
}

/// Adds those of a leafref that leads to the node of a number, which has a type.
fn add_targets(
    targets: &mut Vec<MemberTargets>,
    number: u32,
    required: bool,
    value_type: &YType,
) -> Result<(), AllocError>
    ensures { OnOk result (targets_view targets.new.items ≡ targets_view targets.old.items
        ++ spec.targets_by number required value_type.now.shape) }
{
    let target = SchemaId::new(number);
    if value_type.is_union() {
        add_each(targets, target, required, value_type.member_count())?;
        return Ok(());
    }
    targets.push(MemberTargets::One {
        target,
        is_required: required,
    })?;
    Ok(())
}

/// Adds those of a leafref that leads to the node of a number, if that has a type.
fn add_targets_if(
    targets: &mut Vec<MemberTargets>,
    number: u32,
    required: bool,
    value_type: Option<&YType>,
) -> Result<(), AllocError>
    ensures { OnOk result (targets_view targets.new.items ≡ targets_view targets.old.items
        ++ option_map_or (λ type. spec.targets_by number required type.shape) (option_map (λ t. t.now) value_type.entry) []) }
{
    match value_type {
        Some(value_type) => {
            add_targets(targets, number, required, value_type)?;
            Ok(())
        }
        None => Ok(()),
    }
}

/// Adds those of a leafref, by what is made of nodes.
fn add_leafref(
    targets: &mut Vec<MemberTargets>,
    target: Option<PlanNode<'_, '_>>,
    required: bool,
    made: &[Made],
) -> Result<(), AllocError>
    ensures { OnOk result (targets_view targets.new.items ≡ targets_view targets.old.items
        ++ option_map_or (made_types.targets_to (types_held (rows_view made.now)) required)
        (option_map node_view target.entry) []) }
{
    match target {
        Some(node) => {
            let value_type = type_held(made, node.number as usize);
            add_targets_if(targets, node.number, required, value_type)?;
            Ok(())
        }
        None => Ok(()),
    }
}

/// Adds those of a member of a union.
fn add_member(
    targets: &mut Vec<MemberTargets>,
    plan: &Plan<'_, '_>,
    owner: usize,
    member: &Member<'_>,
    made: &[Made],
) -> Result<(), AllocError>
    ensures { (p : spec.Planned) → owner ≡ p.part.owner
        → OnOk result (targets_view targets.new.items ≡ targets_view targets.old.items
        ++ spec.targets_in (view plan.now) (types_held (rows_view made.now)) p (member_view member.now)) }
{
    match member {
        Member::Own(value_type) => {
            add_own(targets, value_type.member_count())?;
            Ok(())
        }
        Member::Leafref {
            home,
            steps,
            required,
        } => {
            let target = path_target(plan, owner, *home, steps.as_slice());
            add_leafref(targets, target, *required, made)?;
            Ok(())
        }
    }
}

/// What the members of a union refer to that are those of leafrefs.
fn member_targets(
    alloc: Global,
    plan: &Plan<'_, '_>,
    owner: usize,
    members: &[Member<'_>],
    made: &[Made],
) -> Result<Vec<MemberTargets>, AllocError>
    ensures { (p : spec.Planned) → owner ≡ p.part.owner → IfOk result (λ targets. targets_view targets.items
        ≡ flat_map (spec.targets_in (view plan.now) (types_held (rows_view made.now)) p) (map member_view members.now)) }
{
    let mut targets = Vec::new(alloc);
    for member in members {
        add_member(&mut targets, plan, owner, member, made)?;
    }
    Ok(targets)
}

/// A union of types, with what its members refer to.
fn made_joined(
    alloc: Global,
    modules: &ModuleTable<'_>,
    owner: usize,
    types: &[YType],
    targets: Vec<MemberTargets>,
) -> Result<Made, AllocError>
    ensures { IfOk result (λ made. made_view made
        ≡ typed_in (homes_in modules.now owner) (targets_view targets.items) (union_type types.now)) }
{
    let Ok(whole) = YType::union(alloc, types) else {
        return Err(AllocError);
    };
    made_in_module(alloc, modules, owner, &whole, targets)
}

/// What is made of a union whose members have types.
fn made_of_types(
    alloc: Global,
    plan: &Plan<'_, '_>,
    modules: &ModuleTable<'_>,
    owner: usize,
    members: &[Member<'_>],
    types: &[YType],
    made: &[Made],
) -> Result<Made, AllocError>
    ensures { (p : spec.Planned) → owner ≡ p.part.owner → IfOk result (λ one. made_view one
        ≡ joined (homes_in modules.now owner)
        (flat_map (spec.targets_in (view plan.now) (types_held (rows_view made.now)) p) (map member_view members.now)) types.now) }
{
    if are_too_many(types) {
        return Ok(Made::TooWide);
    }
    let targets = member_targets(alloc, plan, owner, members, made)?;
    made_joined(alloc, modules, owner, types, targets)
}

/// What is made of a union with leafrefs among its members.
fn made_union(
    alloc: Global,
    plan: &Plan<'_, '_>,
    modules: &ModuleTable<'_>,
    owner: usize,
    members: &[Member<'_>],
    made: &[Made],
) -> Result<Made, AllocError>
    ensures { (p : spec.Planned) → owner ≡ p.part.owner → IfOk result (λ one. made_view one
        ≡ made_by (homes_in modules.now owner) (view plan.now) (types_held (rows_view made.now)) p
        (of_union (map member_view members.now))) }
{
    match member_types(alloc, plan, owner, members, made)? {
        Some(types) => made_of_types(alloc, plan, modules, owner, members, types.as_slice(), made),
        None => Ok(Made::Nothing),
    }
}

/// What is made of a meaning of the type of a node of a module.
fn made_meant(
    alloc: Global,
    plan: &Plan<'_, '_>,
    modules: &ModuleTable<'_>,
    owner: usize,
    meant: &Meant<'_>,
    made: &[Made],
) -> Result<Made, AllocError>
    ensures { (p : spec.Planned) → owner ≡ p.part.owner → IfOk result (λ one. made_view one
        ≡ made_by (homes_in modules.now owner) (view plan.now) (types_held (rows_view made.now)) p
        (meanings.meant_view meant.now)) }
{
    match meant {
        Meant::Own(value_type) => {
            made_in_module(alloc, modules, owner, value_type, Vec::new(alloc))
        }
        Meant::OfTarget {
            home,
            steps,
            required,
        } => {
            let target = target_type(plan, owner, *home, steps.as_slice(), made);
            made_referring(alloc, modules, owner, *required, target)
        }
        Meant::OfUnion(members) => {
            made_union(alloc, plan, modules, owner, members.as_slice(), made)
        }
    }
}

/// What is made of what the type of a node means, if it means anything.
fn made_of(
    alloc: Global,
    plan: &Plan<'_, '_>,
    modules: &ModuleTable<'_>,
    planned: &Planned<'_, '_>,
    meant: Option<&Meant<'_>>,
    made: &[Made],
) -> Result<Made, AllocError>
    ensures { (number : _) → IfOk result (λ one. made_view one
        ≡ made_as (homes_in modules.now) (view plan.now) (types_held (rows_view made.now))
        (planned_view number planned.now) (option_map (λ m. meanings.meant_view m.now) meant.entry)) }
{
    match meant {
        Some(meant) => made_meant(alloc, plan, modules, planned.owner(), meant, made),
        None => Ok(Made::Nothing),
    }
}

/// What the type of the node of a number means.
pub fn meant_at<'l, 't>(meant: &[Option<&'l Meant<'t>>], number: usize) -> Option<&'l Meant<'t>>
    ensures { option_map (λ m. meanings.meant_view m.now) result
        ≡ meant_at (meants_view meant.entry.now) number }
{
    match meant.get(number) {
        Some(meant) => *meant,
        None => None,
    }
}

/// What is made of the type of the node of a number, by what is made of others.
fn made_here(
    alloc: Global,
    plan: &Plan<'_, '_>,
    modules: &ModuleTable<'_>,
    meant: &[Option<&Meant<'_>>],
    number: usize,
    made: &[Made],
) -> Result<Made, AllocError>
    ensures { IfOk result (λ one. made_view one
        ≡ made_node (homes_in modules.now) (view plan.now) (meants_view meant.now) (rows_view made.now) number) }
{
    match plan.slots().get(number) {
        Some(row) => made_of(
            alloc,
            plan,
            modules,
            &row.label,
            meant_at(meant, number),
            made,
        ),
        None => Ok(Made::Nothing),
    }
}

/// Holds what is made of the type of the node of a number.
fn hold(made: &mut Vec<Made>, number: usize, one: Made)
    ensures { rows_view made.new.items
        ≡ slice_set (rows_view made.old.items) number (made_view one) }
{
    if let Some(place) = made.get_mut(number) {
        *place = one;
    }
}

/// Makes the type of the node of a number, by what is made of others.
fn make(
    alloc: Global,
    plan: &Plan<'_, '_>,
    modules: &ModuleTable<'_>,
    meant: &[Option<&Meant<'_>>],
    number: usize,
    made: &mut Vec<Made>,
) -> Result<(), AllocError>
    ensures { OnOk result (rows_view made.new.items ≡ slice_set (rows_view made.old.items) number
        (made_node (homes_in modules.now) (view plan.now) (meants_view meant.now) (rows_view made.old.items) number)) }
{
    let one = made_here(alloc, plan, modules, meant, number, made.as_slice())?;
    hold(made, number, one);
    Ok(())
}

/// So many nodes of whose types nothing is made.
fn none_made(alloc: Global, count: usize) -> Result<Vec<Made>, AllocError>
    ensures { IfOk result (λ made. rows_view made.items ≡ replicate count nothing) }
{
    let mut made = Vec::with_capacity(alloc, count)?;
    for _number in 0..count {
        made.push(Made::Nothing)?;
    }
    Ok(made)
}

/// What is made of the types of all nodes, in an order in which what references lead to stands before where they begin.
fn made_in_order(
    alloc: Global,
    plan: &Plan<'_, '_>,
    modules: &ModuleTable<'_>,
    meant: &[Option<&Meant<'_>>],
    order: &[usize],
) -> Result<Vec<Made>, AllocError>
    requires modules { AreNamesOf modules.now (view plan.now).modules }
    ensures { let p = view plan.now in (means : _) → meants_view meant.now ≡ map means (nodes_of p)
        → IsOrder order.now p means → IfOk result (λ made. AreTypes (rows_view made.items) p means) }
{
    let mut made = none_made(alloc, plan.nodes())?;
    for number in order {
        make(alloc, plan, modules, meant, *number, &mut made)?;
    }
    Ok(made)
}

/// What is made of the types of all nodes, given what they mean and to which nodes they refer.
pub(crate) fn all_made(
    alloc: Global,
    plan: &Plan<'_, '_>,
    modules: &ModuleTable<'_>,
    meanings: &Meanings<'_, '_>,
) -> Result<Vec<Made>, AllocError>
    requires modules { AreNamesOf modules.now (view plan.now).modules }
    requires within { AreWithin (size (view plan.now).nodes) meanings.now.edges.items }
    ensures { let p = view plan.now in (means : _) → meants_view meanings.now.meant.items ≡ map means (nodes_of p)
        → map edge_view meanings.now.edges.items ≡ edges_of p means
        → IfOk result (λ made. AreTypes (rows_view made.items) p means) }
{
    let order = in_order(alloc, plan.nodes(), meanings.edges.as_slice())?;
    made_in_order(
        alloc,
        plan,
        modules,
        meanings.meant.as_slice(),
        order.as_slice(),
    )
}
