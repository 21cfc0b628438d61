//! What the types of nodes mean, and what they are in a language.

ghost use Rattle.std.specs.Prelude.{◌≡◌, None, IfOk, map, option_map, option_to_list, slice_get, slice_set, unwrap_or, false, if◌then◌else◌};
ghost use Rattle.ylink.specs.LinkedView.{IsOf};
ghost use Rattle.yschema_plan.specs.PlanView.{view};
ghost use Rattle.yschema_types.specs.ModulesView.{AreNamesOf};
ghost use Rattle.yspec_wide.specs.Types.{meant_in_of};
ghost use Rattle.ybase_graph.specs.Edges.{edge_view};
ghost use Rattle.ylink_grammar.specs.LanguageView.{language_view};
ghost use Rattle.ylink_standing.specs.StandingView.{IsOf as AreOn};
ghost use Rattle.ylink_values.specs.KeptView.{kept_view};
ghost use Rattle.yschema_types.specs.MadeTypes.{AreTypes};
ghost use Rattle.yschema_types.specs.MadeView.{rows_view};
ghost use Rattle.yschema_types.specs.ReferenceEdges.{circled};
ghost use Rattle.yschema_types.specs.Marks.{marked};
ghost use Rattle.yschema_types.specs.TypesView.{AreOf, AreTyped};

use crate::making::{Made, all_made, is_wide_held, targets_held, type_held};
use crate::marks::mark;
use crate::meanings::{TypeMeanings, meanings_of};
use crate::modules::ModuleTable;
use std::alloc::{AllocError, Global};
use ybase_graph::{Edge, on_circles};
use ylink::{Kept, Language, Linked, Meant};
use ylink_standing::FeaturesOn;
use yschema_model::MemberTargets;
use yschema_plan::Plan;
use ytype::YType;

/// What the types of nodes mean and to what they refer, each by the number of its node.
#[derive(Drop)]
pub struct Types<'l, 't> {
    /// What `type` statements mean.
    pub meant: Vec<Option<&'l Meant<'t>>>,
    /// The leafs and leaf-lists to which leafrefs refer.
    pub targets: Vec<Option<u32>>,
    /// Whether references lead back to the node.
    pub circles: Vec<bool>,
    /// What is made of the types, of the names that stand.
    pub standing: Vec<Made>,
    /// The same of the names that bear no condition, where conditions are borne.
    unmarked: Option<Vec<Made>>,
}

/// The type of a node over the names that bear no condition.
#[derive(Clone, Copy)]
pub enum Unmarked<'r> {
    /// That over the names that stand.
    Same,
    /// Its own, if it has one.
    Other(Option<&'r YType>),
}

/// The edge of a number.
fn edge_at(edges: &[Edge], number: usize) -> Option<Edge>
    ensures { result ≡ slice_get edges.now number }
{
    edges.get(number).copied()
}

/// Whether it is told of the edge of a number that it lies on a circle.
fn is_told(flags: &[bool], number: usize) -> bool
    ensures { result ≡ unwrap_or (slice_get flags.now number) false }
{
    flags.get(number).copied().unwrap_or(false)
}

/// Where an edge begins of which that is told.
fn source_told(edge: Option<Edge>, is_told: bool) -> Option<u32>
    ensures { result ≡ (if is_told then option_map (λ e. e.source) edge else None) }
{
    if !is_told {
        return None;
    }
    match edge {
        Some(edge) => Some(edge.source),
        None => None,
    }
}

/// Marks a place, if one is given.
fn mark_any(marks: &mut Vec<bool>, place: Option<u32>)
    ensures { marks.new.items ≡ marked marks.old.items (option_to_list place) }
{
    match place {
        Some(place) => mark(marks, place as usize),
        None => {}
    }
}

/// Of each of so many nodes whether references lead back to it, given all of these.
fn all_circles(alloc: Global, count: usize, edges: &[Edge]) -> Result<Vec<bool>, AllocError>
    ensures { IfOk result (λ circles. circles.items ≡ circled count (map edge_view edges.now)) }
{
    let flags = on_circles(alloc, edges)?;
    let mut circles = vec![in alloc; false; count]?;
    for number in 0..edges.len() {
        let is_on_circle = is_told(flags.as_slice(), number);
        let source = source_told(edge_at(edges, number), is_on_circle);
        mark_any(&mut circles, source);
    }
    Ok(circles)
}

/// What is made of the types of a plan's nodes over the names of values that are kept, given its statements, linked, and its modules.
fn kept_types<'t>(
    alloc: Global,
    plan: &Plan<'_, 't>,
    linked: &Linked<'t>,
    kept: Kept<'_>,
    modules: &ModuleTable<'_>,
) -> Result<Vec<Made>, AllocError>
    requires named { IsOf linked.now (view plan.now).modules }
    requires modules { AreNamesOf modules.now (view plan.now).modules }
    ensures { let p = view plan.now in IfOk result (λ made.
        AreTypes (rows_view made.items) p (meant_in_of (kept_view kept.entry) p)) }
{
    let held = linked.meanings_kept(alloc, kept)?;
    let meanings = meanings_of(alloc, plan, TypeMeanings::Kept(&held))?;
    all_made(alloc, plan, modules, &meanings)
}

/// What the types of a plan's nodes mean and to what they refer, and the types in a language, given which features are on, the
/// statements, linked, and what the modules are called.
pub fn types_of<'l, 't>(
    alloc: Global,
    language: &Language,
    features: &FeaturesOn,
    plan: &Plan<'_, 't>,
    linked: &'l Linked<'t>,
    modules: &ModuleTable<'t>,
) -> Result<Types<'l, 't>, AllocError>
    requires named { IsOf linked.now (view plan.now).modules }
    requires on { AreOn features.now (language_view language.now) (view plan.now).modules }
    requires modules { AreNamesOf modules.now (view plan.now).modules }
    ensures meant { IfOk result (λ types. AreOf types (view plan.now)) }
    ensures typed { IfOk result (λ types.
        AreTyped types (language_view language.now) (view plan.now)) }
{
    let meanings = meanings_of(alloc, plan, TypeMeanings::All(linked))?;
    let circles = all_circles(alloc, plan.nodes(), meanings.edges.as_slice())?;
    match language {
        Language::Core => {
            let standing = all_made(alloc, plan, modules, &meanings)?;
            Ok(Types {
                meant: meanings.meant,
                targets: meanings.targets,
                circles,
                standing,
                unmarked: None,
            })
        }
        Language::Rfc(_) => {
            let kept = Kept::Standing(features);
            let standing = kept_types(alloc, plan, linked, kept, modules)?;
            let kept = Kept::Unconditioned(language);
            let unmarked = kept_types(alloc, plan, linked, kept, modules)?;
            Ok(Types {
                meant: meanings.meant,
                targets: meanings.targets,
                circles,
                standing,
                unmarked: Some(unmarked),
            })
        }
    }
}

impl Types<'_, '_> {
    ghost use Rattle.std.specs.Prelude.{◌≡◌, Some, false, option_map, slice_get, unwrap_or};
    ghost use Rattle.yspec.specs.types.Types.{YangType};
    ghost use Rattle.yspec.specs.linking.Planned as spec;
    ghost use Rattle.yspec_wide.specs.Language as languages;
    ghost use Rattle.yspec_wide.specs.Types as wide;
    ghost use Rattle.yschema_model.specs.Layout.{targets_view};
    ghost use Rattle.yschema_types.specs.TypesView.{AreTyped, unmarked_view};

    /// Whether references lead back to the node of a number.
    pub fn is_on_circle(&self, number: u32) -> bool
        ensures { result ≡ unwrap_or (slice_get self.now.circles.items number) false }
    {
        self.circles.get(number as usize).copied().unwrap_or(false)
    }

    /// The type of the node of a number over the names that stand.
    pub fn standing_type(&self, number: u32) -> Option<&YType>
        ensures { (language : languages.Language) (plan : spec.Plan) (p : spec.Planned)
            → AreTyped self.now language plan
            → slice_get (spec.nodes_of plan) number ≡ Some p
            → option_map (λ t. t.now) result ≡ wide.standing_type language plan p }
    {
        type_held(self.standing.as_slice(), number as usize)
    }

    /// What the members of that type refer to that are those of leafrefs.
    pub fn member_targets(&self, number: u32) -> &[MemberTargets]
        ensures { (language : languages.Language) (plan : spec.Plan) (p : spec.Planned)
            → AreTyped self.now language plan
            → slice_get (spec.nodes_of plan) number ≡ Some p
            → targets_view result.now ≡ spec.targets_of plan (wide.standing_type language plan) p
            (wide.meant_in_of (wide.standing_names language plan.modules) plan p) }
    {
        targets_held(self.standing.as_slice(), number as usize)
    }

    /// Whether there is none since a union has too many members with those of what its leafrefs lead to.
    pub fn is_wide(&self, number: u32) -> bool
        ensures { (language : languages.Language) (plan : spec.Plan) (p : spec.Planned)
            → AreTyped self.now language plan
            → slice_get (spec.nodes_of plan) number ≡ Some p
            → result ≡ wide.is_wide_over (wide.standing_names language plan.modules) plan p }
    {
        is_wide_held(self.standing.as_slice(), number as usize)
    }

    /// The type of the node of a number over the names that bear no condition, where it has one over those that stand.
    pub fn unmarked_type(&self, number: u32) -> Unmarked<'_>
        ensures { (language : languages.Language) (plan : spec.Plan) (p : spec.Planned)
            (standing : YangType) → AreTyped self.now language plan
            → slice_get (spec.nodes_of plan) number ≡ Some p
            → wide.standing_type language plan p ≡ Some standing
            → unmarked_view standing result
            ≡ wide.type_of_kept (wide.unmarked language) plan p }
    {
        match &self.unmarked {
            None => Unmarked::Same,
            Some(made) => Unmarked::Other(type_held(made.as_slice(), number as usize)),
        }
    }
}
