//! What the nodes of a plan refer to, all in one.

ghost use Rattle.std.specs.Prelude.{◌≡◌};
ghost use Rattle.yspec.specs.linking.Planned as spec;
ghost use Rattle.yspec_wide.specs.Language as languages;
ghost use Rattle.yspec_wide.specs.VersionBreaks.{has_distinct_items};
ghost use Rattle.ylink_features.specs.VersionView.{AreVersionsOf};
ghost use Rattle.yschema_plan.specs.PlannedView.{planned_view};

use crate::guarding::guarded_of;
use crate::tuples::keys;
use std::alloc::{AllocError, Global};
use ylink::{Language, Linked};
use ylink_features::Versions;
use ylink_standing::FeaturesOn;
use yschema_model::MemberTargets;
use yschema_plan::{Plan, Planned};
use yschema_types::{ModuleTable, Types, types_of};
use ytype::YType;

/// The types of a plan's nodes in a language, to what leafrefs refer, which leafs are keys and which nodes hang on a `when`, what
/// modules are called and which version of YANG they have, and the statements, linked.
#[derive(Drop)]
pub struct Resolved<'l, 't> {
    pub(crate) types: Types<'l, 't>,
    keys: Vec<bool>,
    guarded: Vec<bool>,
    pub(crate) modules: ModuleTable<'t>,
    pub(crate) versions: Versions,
    pub(crate) linked: &'l Linked<'t>,
}

/// Whether none of a node's items may stand twice, by the versions of modules.
fn do_items_differ(versions: &Versions, planned: &Planned<'_, '_>) -> bool
    ensures { (language : languages.Language) (plan : spec.Plan) (number : _)
        → AreVersionsOf versions.now language plan.modules
        → result ≡ has_distinct_items language plan (planned_view number planned.now) }
{
    versions.is_yang_1(planned.home()) || planned.config
}

impl<'l, 't> Resolved<'l, 't> {
    ghost use Rattle.std.specs.Prelude.{ℕ, ◌≡◌, Some, IfOk, slice_get, option_map};
    ghost use Rattle.yspec.specs.linking.Planned as spec;
    ghost use Rattle.yspec.specs.linking.SchemaNodes as nodes;
    ghost use Rattle.yspec_wide.specs.Language as languages;
    ghost use Rattle.yspec_wide.specs.Guards.{is_guarded};
    ghost use Rattle.yspec_wide.specs.Types.{meant_in_of, standing_names, standing_type};
    ghost use Rattle.yspec_wide.specs.VersionBreaks.{has_distinct_items};
    ghost use Rattle.ylink_grammar.specs.LanguageView.{language_view};
    ghost use Rattle.ylink_standing.specs.StandingView.{IsOf as AreOn};
    ghost use Rattle.ylink.specs.LinkedView as linked_as;
    ghost use Rattle.yschema_model.specs.Layout.{targets_view};
    ghost use Rattle.yschema_plan.specs.PlannedView.{planned_view};
    ghost use Rattle.yschema_plan.specs.PlanView.{view};
    ghost use Rattle.yschema_resolve.specs.Guarding.{TellsUnguarded};
    ghost use Rattle.yschema_resolve.specs.ResolvedView.{IsOf};

    /// Those of a plan in a language, given its statements, linked, which features are on, and by number which nodes bear no
    /// `when` themselves; those of which nothing is told don't.
    pub fn of(
        alloc: Global,
        language: &Language,
        features: &FeaturesOn,
        unguarded: &[bool],
        plan: &Plan<'_, 't>,
        linked: &'l Linked<'t>,
    ) -> Result<Resolved<'l, 't>, AllocError>
        requires named { linked_as.IsOf linked.now (view plan.now).modules }
        requires on { AreOn features.now (language_view language.now) (view plan.now).modules }
        requires told { TellsUnguarded unguarded.now (language_view language.now) (view plan.now) }
        ensures { IfOk result (λ resolved.
            IsOf resolved (language_view language.now) (view plan.now)) }
    {
        let modules = ModuleTable::of(alloc, linked)?;
        let types = types_of(alloc, language, features, plan, linked, &modules)?;
        let keys = keys(alloc, plan)?;
        let guarded = guarded_of(alloc, plan, unguarded)?;
        let versions = Versions::of(alloc, language, linked.sources())?;
        Ok(Resolved {
            types,
            keys,
            guarded,
            modules,
            versions,
            linked,
        })
    }

    /// The type of the node of a number over the names that stand, in its module; a leafref has its target's, and a member that is one
    /// the members of that. There is none where one leads nowhere or in a circle, or to too many members.
    pub fn value_type(&self, number: u32) -> Option<&YType>
        ensures { (language : languages.Language) (plan : spec.Plan) (p : spec.Planned)
            → IsOf self.now language plan
            → slice_get (spec.nodes_of plan) number ≡ Some p
            → option_map (λ t. t.now) result ≡ standing_type language plan p }
    {
        self.types.standing_type(number)
    }

    /// The number of the leaf or leaf-list to which the type of a node refers.
    pub fn target(&self, number: u32) -> Option<u32>
        ensures { (language : languages.Language) (plan : spec.Plan) (p : spec.Planned)
            → IsOf self.now language plan
            → slice_get (spec.nodes_of plan) number ≡ Some p
            → result ≡ option_map nodes.number_in (spec.target_of plan p) }
    {
        match self.types.targets.get(number as usize) {
            Some(target) => *target,
            None => None,
        }
    }

    /// What the members of the type of the node of a number refer to that are those of leafrefs, in order; nothing of a type without
    /// such members.
    pub fn member_targets(&self, number: u32) -> &[MemberTargets]
        ensures { (language : languages.Language) (plan : spec.Plan) (p : spec.Planned)
            → IsOf self.now language plan
            → slice_get (spec.nodes_of plan) number ≡ Some p
            → targets_view result.now ≡ spec.targets_of plan (standing_type language plan) p
            (meant_in_of (standing_names language plan.modules) plan p) }
    {
        self.types.member_targets(number)
    }

    /// Whether the node of a number is a key of the list right above it.
    pub fn is_key(&self, number: u32) -> bool
        ensures { (language : languages.Language) (plan : spec.Plan) (p : spec.Planned)
            → IsOf self.now language plan
            → slice_get (spec.nodes_of plan) number ≡ Some p
            → result ≡ nodes.is_key plan p }
    {
        match self.keys.get(number as usize) {
            Some(is_key) => *is_key,
            None => false,
        }
    }

    /// Whether the node of a number hangs on a `when`, its own or that of a node above it.
    pub fn is_guarded(&self, number: u32) -> bool
        ensures { (language : languages.Language) (plan : spec.Plan) (p : spec.Planned)
            → IsOf self.now language plan
            → slice_get (spec.nodes_of plan) number ≡ Some p
            → result ≡ is_guarded language plan p }
    {
        match self.guarded.get(number as usize) {
            Some(is_guarded) => *is_guarded,
            None => false,
        }
    }

    /// Whether none of a node's items may stand twice, where it is a leaf-list: in configuration, and in YANG 1 in state too
    /// (RFC 7950, 7.7; RFC 6020, 7.7).
    pub fn has_distinct_items(&self, planned: &Planned<'_, '_>) -> bool
        ensures { (language : languages.Language) (plan : spec.Plan) (number : ℕ)
            → IsOf self.now language plan
            → result ≡ has_distinct_items language plan (planned_view number planned.now) }
    {
        do_items_differ(&self.versions, planned)
    }
}
