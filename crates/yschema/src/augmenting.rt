//! What the modules of a schema augment (RFC 7950, 7.17).

ghost use Rattle.std.specs.Prelude.{◌≡◌, ◌++◌, ◌∷◌, ◌==◌, [], if◌then◌else◌, map, option_map, option_and_then, None, IfOk, OnOk};
ghost use Rattle.std.specs.List.{filter_map};
ghost use Rattle.yspec.specs.linking.Augments as augments;
ghost use Rattle.yspec.specs.linking.Compiling as spec;
ghost use Rattle.yspec.specs.linking.Planned.{nodes_of};
ghost use Rattle.yspec.specs.linking.Prefixes.{node_name};
ghost use Rattle.yspec.specs.linking.SchemaNodes.{number_in};
ghost use Rattle.ybase_preorder.specs.View.{row_by};
ghost use Rattle.ylink_arguments.specs.NameView.{names_view};
ghost use Rattle.ylink_grammar.specs.SourceView.{source_view};
ghost use Rattle.yschema_expand.specs.AugmentView as statements;
ghost use Rattle.yschema_plan.specs.PlanView as plans;
ghost use Rattle.yschema_model.specs.View.{augment_view};
ghost use Rattle.yschema.specs.Added.{HoldsThose, leads};

use std::alloc::{AllocError, Global};
use std::collections::BTreeMap;
use ybase_preorder::{Node, Siblings};
use ybase_words::Keyword;
use ylink_arguments::{Name, absolute_path};
use ylink_grammar::{Source, argument_of};
use yschema_model::{Augment, SchemaId};
use yschema_plan::Plan;

/// The nodes that each `augment` adds below its target, in order of definition, by the number of its statement.
#[derive(Drop)]
pub(crate) struct Added {
    by_augment: BTreeMap<u32, Vec<SchemaId>>,
}

impl Added {
    ghost use Rattle.std.specs.Prelude.{◌≡◌, ◌++◌, ◌∷◌, ◌==◌, [], if◌then◌else◌, IfOk, OnOk};
    ghost use Rattle.yspec.specs.linking.Planned.{nodes_of};
    ghost use Rattle.yschema_model.specs.Layout.{numbers_of};
    ghost use Rattle.yschema_plan.specs.PlanView as plans;
    ghost use Rattle.yschema.specs.Added.{held, HoldsThose};

    /// Those of a plan.
    pub(crate) fn of(alloc: Global, plan: &Plan<'_, '_>) -> Result<Added, AllocError>
        ensures { IfOk result (λ added. HoldsThose added (nodes_of (plans.view plan.now))) }
    {
        let mut added = Added {
            by_augment: BTreeMap::new(alloc),
        };
        for node in plan.iter() {
            if let Some(augment) = node.planned.added_by() {
                added.add(alloc, augment, SchemaId::new(node.number))?;
            }
        }
        Ok(added)
    }

    /// Those of one `augment`.
    fn get(&self, augment: u32) -> &[SchemaId]
        ensures { numbers_of result.now ≡ held self.now augment }
    {
        match self.by_augment.get(&augment) {
            Some(ids) => ids.as_slice(),
            None => &[],
        }
    }

    /// Holds one more node that an `augment` adds.
    fn add(&mut self, alloc: Global, augment: u32, id: SchemaId) -> Result<(), AllocError>
        ensures { OnOk result ((number : _) → held self.new number ≡ held self.old number
            ++ (if augment == number then id.0 ∷ [] else [])) }
    {
        if let Some(ids) = self.by_augment.get_mut(&augment) {
            ids.push(id)?;
            return Ok(());
        }
        self.by_augment.insert(augment, vec![in alloc; id]?)?;
        Ok(())
    }
}

/// The node to which the steps of a path lead from the top, choices and cases being nodes as others.
fn target_along(plan: &Plan<'_, '_>, home: usize, steps: &[Name<'_>]) -> Option<u32>
    ensures { let p = plans.view plan.now in
        result ≡ leads p None (map (node_name p.modules home home) (names_view steps.now)) }
{
    let mut found: Option<u32> = None;
    for step in steps {
        let name = plan.node_name(home, home, *step);
        found = Some(plan.child(found, name.module, name.name)?);
    }
    found
}

/// The target of an `augment` statement, where there is one.
fn target_of(
    alloc: Global,
    plan: &Plan<'_, '_>,
    statement: Node<'_, Source<'_>>,
) -> Result<Option<u32>, AllocError>
    ensures { let a = statements.augment_view statement.entry in
        IfOk result (λ target. target ≡ option_map number_in
        (spec.target_found (plans.view plan.now) a)) }
{
    let home = statement.label().home;
    match absolute_path(alloc, argument_of(statement))? {
        Some(steps) => Ok(target_along(plan, home, steps.as_slice())),
        None => Ok(None),
    }
}

/// What an `augment` statement adds to the schema; nothing where it has no target.
fn augment_of(
    alloc: Global,
    plan: &Plan<'_, '_>,
    added: &Added,
    statement: Node<'_, Source<'_>>,
) -> Result<Option<Augment>, AllocError>
    requires { HoldsThose added.now (nodes_of (plans.view plan.now)) }
    ensures { let a = statements.augment_view statement.entry in
        IfOk result (λ made. option_map augment_view made
        ≡ spec.schema_augment (plans.view plan.now) a) }
{
    let Some(target) = target_of(alloc, plan, statement)? else {
        return Ok(None);
    };
    let mut nodes = Vec::new(alloc);
    nodes.extend_from_slice(added.get(statement.number()))?;
    Ok(Some(Augment {
        target: SchemaId::new(target),
        nodes,
    }))
}

/// What the `augment` statements of a row add to the schema, in order.
pub(crate) fn augments_in(
    alloc: Global,
    plan: &Plan<'_, '_>,
    added: &Added,
    statements: Siblings<'_, Source<'_>>,
) -> Result<Vec<Augment>, AllocError>
    requires { HoldsThose added.now (nodes_of (plans.view plan.now)) }
    ensures { let p = plans.view plan.now in
        IfOk result (λ made. map augment_view made.items ≡ filter_map (spec.schema_augment p)
        (augments.augments_in (row_by source_view statements.entry))) }
{
    let mut augments = Vec::new(alloc);
    for statement in statements {
        if Keyword::Augment.is(statement.label().keyword) {
            if let Some(augment) = augment_of(alloc, plan, added, statement)? {
                augments.push(augment)?;
            }
        }
    }
    Ok(augments)
}
