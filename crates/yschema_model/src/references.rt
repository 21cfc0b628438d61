//! The nodes that refer to a node by a leafref (RFC 7950, 9.9), which may be a member of a union (9.12).

use crate::children::Slot;
use crate::node::{LeafType, MemberTargets, SchemaId};
use std::alloc::{AllocError, Global};
use std::collections::BTreeMap;

/// The leafs and leaf-lists that refer to each node, in order.
#[derive(Drop)]
pub(crate) struct References {
    by_target: BTreeMap<SchemaId, Vec<SchemaId>>,
}

impl References {
    ghost use Rattle.std.specs.Prelude.{◌≡◌, ◌<◌, ◌^◌, ◌++◌, ◌∷◌, ◌==◌, [], if◌then◌else◌, IfOk, OnOk, length, option_to_list};
    ghost use Rattle.yschema_model.specs.Layout.{leaf_type_view, number_of, numbers_of, laid, place_of};
    ghost use Rattle.yspec.specs.schema.References as words;
    ghost use Rattle.yschema_model.specs.References.{ends_with, held, targets_of, FindsReferences, HoldsMore, StandBefore};

    /// Those of the nodes that lie in slots.
    pub(crate) fn of(alloc: Global, slots: &[Slot]) -> Result<References, AllocError>
        requires { length slots.now < 2 ^ 32 }
        ensures { IfOk result (λ references. FindsReferences references (laid 0 slots.now)) }
    {
        let mut references = References {
            by_target: BTreeMap::new(alloc),
        };
        for (number, slot) in slots.iter().enumerate() {
            let id = SchemaId::new(number as u32);
            references.add_slot(alloc, slot, id)?;
        }
        Ok(references)
    }

    /// Those of a node; none where no node refers to it.
    pub(crate) fn get(&self, target: SchemaId) -> &[SchemaId]
        ensures { numbers_of result.now ≡ held self.now target.0 }
    {
        match self.by_target.get(&target) {
            Some(ids) => ids.as_slice(),
            None => &[],
        }
    }

    /// Whether a node is the last of those that are held of one.
    fn is_last(&self, target: SchemaId, id: SchemaId) -> bool
        ensures { result ≡ ends_with id.0 (held self.now target.0) }
    {
        match self.get(target).last() {
            Some(last) => last.0 == id.0,
            None => false,
        }
    }

    /// Holds a node behind the others, once of each that it refers to.
    fn add_slot(&mut self, alloc: Global, slot: &Slot, id: SchemaId) -> Result<(), AllocError>
        ensures { OnOk result ((ps : _) → StandBefore ps id.0 → FindsReferences self.old ps
            → FindsReferences self.new (ps ++ place_of id.0 slot.now ∷ [])) }
    {
        match slot.node.kind.leaf_type() {
            Some(leaf_type) => self.add_type(alloc, leaf_type, id),
            None => Ok(()),
        }
    }

    /// Holds a node once of each that the values of its type refer to.
    fn add_type(
        &mut self,
        alloc: Global,
        leaf_type: &LeafType,
        id: SchemaId,
    ) -> Result<(), AllocError>
        ensures { OnOk result (HoldsMore self.old self.new id.0
            (words.numbers_in (leaf_type_view leaf_type.now))) }
    {
        self.add_whole(alloc, leaf_type.target, id)?;
        self.add_members(alloc, &leaf_type.targets, id)
    }

    /// Holds a node of what it refers to as a leafref, if it is one.
    fn add_whole(
        &mut self,
        alloc: Global,
        target: Option<SchemaId>,
        id: SchemaId,
    ) -> Result<(), AllocError>
        ensures { OnOk result (HoldsMore self.old self.new id.0
            (option_to_list (number_of target))) }
    {
        match target {
            Some(target) => self.add_once(alloc, target, id),
            None => Ok(()),
        }
    }

    /// Holds a node once of each that members of a union refer to.
    fn add_members(
        &mut self,
        alloc: Global,
        targets: &[MemberTargets],
        id: SchemaId,
    ) -> Result<(), AllocError>
        ensures { OnOk result (HoldsMore self.old self.new id.0 (targets_of targets.now)) }
    {
        for members in targets {
            self.add_each(alloc, *members, id)?;
        }
        Ok(())
    }

    fn add_each(
        &mut self,
        alloc: Global,
        members: MemberTargets,
        id: SchemaId,
    ) -> Result<(), AllocError>
        ensures { OnOk result (HoldsMore self.old self.new id.0 (targets_of (members ∷ []))) }
    {
        match members {
            MemberTargets::Own(_) => Ok(()),
            MemberTargets::One { target, .. } => self.add_once(alloc, target, id),
            MemberTargets::All { target, count, .. } => self.add_where(alloc, target, count, id),
        }
    }

    /// Holds a node that refers to a node by so many members.
    fn add_where(
        &mut self,
        alloc: Global,
        target: SchemaId,
        count: usize,
        id: SchemaId,
    ) -> Result<(), AllocError>
        ensures { OnOk result (HoldsMore self.old self.new id.0
            (if count == 0 then [] else target.0 ∷ [])) }
    {
        if count == 0 {
            return Ok(());
        }
        self.add_once(alloc, target, id)
    }

    /// Holds a node that refers to a node, unless it is the last that is held of that.
    fn add_once(&mut self, alloc: Global, target: SchemaId, id: SchemaId) -> Result<(), AllocError>
        ensures { OnOk result (HoldsMore self.old self.new id.0 (target.0 ∷ [])) }
    {
        if self.is_last(target, id) {
            return Ok(());
        }
        self.add(alloc, target, id)
    }

    /// Holds one more node that refers to a node.
    fn add(&mut self, alloc: Global, target: SchemaId, id: SchemaId) -> Result<(), AllocError>
        ensures { OnOk result ((number : _) → held self.new number ≡ held self.old number
            ++ (if target.0 == number then id.0 ∷ [] else [])) }
    {
        if let Some(ids) = self.by_target.get_mut(&target) {
            ids.push(id)?;
            return Ok(());
        }
        self.by_target.insert(target, vec![in alloc; id]?)?;
        Ok(())
    }
}
