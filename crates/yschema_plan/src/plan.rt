//! The plan of a set of modules.

ghost use Rattle.std.specs.Prelude.{◌≡◌, ℕ, find, map, option_map};
ghost use Rattle.yspec.specs.linking.SchemaNodes.{number_in};
ghost use Rattle.ybase_index.specs.Index.{found, texts_of};
ghost use Rattle.ybase_preorder.specs.Layout.{IsLaidOut, numbered_by};
ghost use Rattle.ybase_preorder.specs.View.{forest_in, slots_in};
ghost use Rattle.yschema_plan.specs.Finding.{is_found, list_of, name_of};
ghost use Rattle.yschema_plan.specs.Needs.{all_stand, needs_below};
ghost use Rattle.yschema_plan.specs.PlannedView.{planned_view};
ghost use Rattle.ylink_grammar.specs.LinkView as link;
ghost use Rattle.ylink_names.specs.PrefixView.{IsOf};

use crate::finding::index_of;
use crate::levels::are_deeper;
use crate::needs::{is_told, must_stand, needs_below};
use crate::nodes::{PlanNode, PlanNodes};
use crate::planned::Planned;
use crate::planning::planned;
use std::alloc::{AllocError, Global};
use ybase_index::{Among, Names, NodeIndex};
use ybase_preorder::{Slot, Table};
use ybase_words::Keyword;
use ylink_arguments::Name;
use ylink_grammar::Sources;
use ylink_names::{NodeName, Prefixes};
use yschema_expand::NodeTable;

/// The schema nodes that a set of modules defines, in order of definition, and how they are found by name.
#[derive(Drop)]
pub struct Plan<'a, 't> {
    sources: &'a Sources<'t>,
    prefixes: &'a Prefixes<'t>,
    table: Table<Planned<'a, 't>>,
    // Its nodes by their names, below those right above them and below those where they share them.
    index: NodeIndex<'t>,
    // Of each, by number, whether one right below it must be stored where it is itself.
    needs: Vec<bool>,
    ghost prefixed: { IsOf prefixes.now (link.view sources.now) },
    ghost laid_out: { IsLaidOut (slots_in table) },
    ghost named: { texts_of index ≡ map name_of (list_of table) },
    ghost indexed: { (among : _) → (above : _) → (m : ℕ) → (name : _)
        → found index among above m name ≡ option_map number_in
        (find (is_found among above m name) (list_of table)) },
    ghost told: { needs.items ≡ needs_below all_stand (numbered_by planned_view 0 (forest_in table)) },
}

impl<'a, 't> Plan<'a, 't> {
    ghost use Rattle.std.specs.Prelude.{◌≡◌, IfOk, None, Some, option_map, slice_get, find, false, map, nat_lt};
    ghost use Rattle.ybase_index.specs.declared.keys.Among.TheVariants as among;
    ghost use Rattle.ybase_index.specs.Names.{AreNamesOf};
    ghost use Rattle.yschema_plan.specs.Finding.{is_before, is_found, name_of};
    ghost use Rattle.yspec.specs.Forest.{Forest};
    ghost use Rattle.yspec.specs.linking.Parts.{Part};
    ghost use Rattle.yschema_expand.specs.TableView.{parts_in};
    ghost use Rattle.yspec.specs.linking.Planned as spec;
    ghost use Rattle.ylink_grammar.specs.LinkView as link;
    ghost use Rattle.yspec.specs.Forest.{size, levels};
    ghost use Rattle.yspec.specs.linking.NodeBreaks.{has_mandatory, is_config_above, row_below};
    ghost use Rattle.yspec.specs.linking.SchemaNodes.{number_in, default_case};
    ghost use Rattle.ybase_preorder.specs.Layout.{labels_by, places};
    ghost use Rattle.yschema_plan.specs.PlannedView.{planned_view};
    ghost use Rattle.yschema_plan.specs.Needs.{is_needed_by, needs_below, stands_in};
    ghost use Rattle.yschema_plan.specs.PlanView.{plan_with, view};
    ghost use Rattle.yschema_plan.specs.NodesView.{left, node_view};
    ghost use Rattle.yspec.specs.linking.Prefixes as names;
    ghost use Rattle.ylink_arguments.specs.NameView.{name_view};
    ghost use Rattle.ylink_names.specs.PrefixView.{node_name_view};

    /// The plan of a set of modules, given what their prefixes stand for and nodes: all that they define, or those of them that
    /// stand.
    pub fn of(
        alloc: Global,
        sources: &'a Sources<'t>,
        prefixes: &'a Prefixes<'t>,
        nodes: &'a NodeTable<'a, 't>,
    ) -> Result<Plan<'a, 't>, AllocError>
        requires prefixed { IsOf prefixes.now (link.view sources.now) }
        requires made { (parts : Forest Part) × (parts_in nodes.now ≡ places None 0 parts) }
        ensures { (parts : Forest Part) → parts_in nodes.entry.now ≡ places None 0 parts
            → IfOk result (λ plan. view plan ≡ plan_with (link.view sources.entry.now) parts) }
    {
        let table = planned(alloc, nodes.roots())?;
        let index = index_of(alloc, &table)?;
        let needs = needs_below(alloc, &[], &table)?;
        Ok(Plan {
            sources,
            prefixes,
            table,
            index,
            needs,
        })
    }

    /// Its nodes, by number.
    pub fn slots(&self) -> &[Slot<Planned<'a, 't>>]
        ensures rows { result.now ≡ slots_in self.now.table }
        ensures nodes { labels_by planned_view 0 result.now ≡ spec.nodes_of (view self.now) }
    {
        self.table.slots()
    }

    /// The statements of which it is the plan.
    pub fn sources(&self) -> &'a Sources<'t>
        ensures { link.view result.now ≡ (view self.now).modules }
    {
        self.sources
    }

    /// Its nodes, in order of definition.
    pub fn iter(&self) -> PlanNodes<'_, 'a, 't>
        ensures { left result ≡ spec.nodes_of (view self.now) }
    {
        PlanNodes::new(self)
    }

    /// What a name names that stands in a module; one without a prefix is of a module that is given (RFC 7950, 6.4.1).
    pub fn node_name<'n>(&self, home: usize, plain: usize, name: Name<'n>) -> NodeName<'n>
        ensures { node_name_view result
            ≡ names.node_name (view self.now).modules home plain (name_view name.entry) }
    {
        self.prefixes.node_name(home, plain, name)
    }

    /// The first node of a name below another, or at the top.
    pub fn child_called(&self, parent: Option<u32>, name: NodeName<'_>) -> Option<PlanNode<'a, 't>>
        ensures { option_map node_view result
            ≡ spec.child_called (view self.now) parent (node_name_view name.entry) }
    {
        self.at(self.child(parent, name.module, name.name)?)
    }

    /// The first data node of a name below a data node, or at the top, choices and cases passed through.
    pub fn data_child_called(
        &self,
        scope: Option<u32>,
        name: NodeName<'_>,
    ) -> Option<PlanNode<'a, 't>>
        ensures { option_map node_view result
            ≡ spec.data_child_called (view self.now) scope (node_name_view name.entry) }
    {
        self.at(self.data_child(scope, name.module, name.name)?)
    }

    /// The node of a number, with its number.
    pub fn at(&self, number: u32) -> Option<PlanNode<'a, 't>>
        ensures { option_map node_view result ≡ spec.node_of (view self.now) number }
    {
        match self.node(number) {
            Some(planned) => Some(PlanNode {
                number,
                planned: *planned,
            }),
            None => None,
        }
    }

    /// The first node of a module and a name below another, or at the top, by its number.
    pub fn child(&self, parent: Option<u32>, module: Option<usize>, name: &str) -> Option<u32>
        ensures { result ≡ option_map number_in (spec.child_called (view self.now) parent
            (record { module_number = «module»; name = name.now })) }
    {
        self.first(Among::Children, parent, module?, name)
    }

    /// The first data node of a module and a name below a data node, or at the top, choices and cases passed through.
    pub fn data_child(&self, scope: Option<u32>, module: Option<usize>, name: &str) -> Option<u32>
        ensures { result ≡ option_map number_in (spec.data_child_called (view self.now) scope
            (record { module_number = «module»; name = name.now })) }
    {
        self.first(Among::DataNodes, scope, module?, name)
    }

    /// The first of some nodes below one, or at the top, that has this module and name, by its number.
    pub(crate) fn first(
        &self,
        among: Among,
        above: Option<u32>,
        module: usize,
        name: &str,
    ) -> Option<u32>
        ensures { result ≡ option_map number_in
            (find (is_found among above «module» name.now) (spec.nodes_of (view self.now))) }
    {
        self.index.first(among, above, module, name)
    }

    /// Whether a node before that of a number, among those that share their names with it, has its module and name.
    pub(crate) fn is_repeated(&self, number: u32, planned: &Planned<'_, '_>) -> bool
        requires { slice_get (spec.nodes_of (view self.now)) number
            ≡ Some (planned_view number planned.now) }
        ensures { let p = planned_view number planned.now in
            result ≡ is_before (option_map number_in
            (find (is_found among.Scope p.scope p.part.owner (name_of p))
            (spec.nodes_of (view self.now)))) number }
    {
        let (scope, module) = (planned.scope, planned.owner());
        match self.index.first_like(Among::Scope, scope, module, number) {
            Some(first) => first < number,
            None => false,
        }
    }

    /// A copy of the names of its nodes.
    pub fn names(&self, alloc: Global) -> Result<Names, AllocError>
        ensures { IfOk result (λ names. AreNamesOf names
            (map name_of (spec.nodes_of (view self.now)))) }
    {
        self.index.names(alloc)
    }

    /// The node of a number.
    pub fn node(&self, number: u32) -> Option<&Planned<'a, 't>>
        ensures { option_map (λ p. planned_view number p.now) result
            ≡ spec.node_of (view self.now) number }
    {
        match self.table.slots().get(number as usize) {
            Some(row) => Some(&row.label),
            None => None,
        }
    }

    /// How many nodes there are.
    pub fn nodes(&self) -> usize
        ensures { result ≡ size (view self.now).nodes }
    {
        self.table.len()
    }

    /// Whether there are more than so many levels of them.
    pub fn is_deeper(&self, limit: usize) -> bool
        ensures { result ≡ nat_lt limit (levels (view self.now).nodes) }
    {
        are_deeper(self.table.roots(), limit)
    }

    /// The case of a choice that is its default, by its number (RFC 7950, 7.9.3).
    pub fn default_case(&self, number: u32, planned: &Planned<'a, 't>) -> Option<u32>
        ensures { result ≡ option_map number_in
            (default_case (view self.now) (planned_view number planned.now)) }
    {
        match planned.own_argument(Keyword::Default) {
            Some(name) => self.child(Some(number), Some(planned.owner()), name),
            None => None,
        }
    }

    /// Whether a node right below that of a number must be stored where the latter is.
    pub(crate) fn has_mandatory_below(&self, number: u32) -> bool
        ensures { result ≡ has_mandatory (row_below (view self.now) number) }
    {
        is_told(&self.needs, number as usize)
    }

    /// Of each node, by number, whether one right below it must be stored where it is itself, where it is told by number which
    /// stand themselves; those of which nothing is told do.
    pub fn needs_standing(&self, alloc: Global, standing: &[bool]) -> Result<Vec<bool>, AllocError>
        ensures { IfOk result (λ needs. needs.items
            ≡ needs_below (stands_in standing.now) (view self.now).nodes) }
    {
        needs_below(alloc, standing, &self.table)
    }

    /// Whether a node stands itself and must be stored where the one above it is (RFC 7950, 3), by what is told so of each.
    pub fn is_needed_standing(
        &self,
        node: PlanNode<'a, 't>,
        standing: &[bool],
        needs: &[bool],
    ) -> bool
        requires { needs.now ≡ needs_below (stands_in standing.now) (view self.now).nodes }
        ensures { result
            ≡ is_needed_by (stands_in standing.now) (view self.now) (node_view node.entry) }
    {
        must_stand(standing, needs, node.number as usize, &node.planned)
    }

    /// Whether the node above one is configuration; so is what stands above the top nodes.
    pub fn is_config_above(&self, planned: &Planned<'a, 't>) -> bool
        ensures { (number : _) → result
            ≡ is_config_above (view self.now) (planned_view number planned.now) }
    {
        match planned.parent {
            Some(parent) => match self.node(parent) {
                Some(above) => above.config,
                None => true,
            },
            None => true,
        }
    }
}
