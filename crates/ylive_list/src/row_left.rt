//! What is left to tell in a row of nodes.

ghost use Rattle.std.specs.Prelude.{◌≡◌, false, nat_lt};
ghost use Rattle.std.specs.Option.{option_map_or};
ghost use Rattle.std.specs.Prelude.{◌≤◌};

use crate::listing::{position_behind, step_of};
use yinst_tree::Step;
use yschema_model::{Schema, SchemaId};
use ystore::{Absence, NodeId, Row, View};

/// What a row gives next: what is told of a node that isn't stored, or a child.
pub(crate) enum Piece {
    Absence(Absence),
    Child((SchemaId, NodeId)),
}

/// A row below a node, or at the top, of which some is told and some children are passed. The child that was passed last has
/// a position among those of its schema node.
#[derive(Clone, Copy)]
pub(crate) struct RowLeft {
    above: Option<(SchemaId, NodeId)>,
    told: usize,
    passed: usize,
    last: SchemaId,
    position: usize,
    ghost counted: { position ≤ passed },
}

impl Default for RowLeft {
    fn default() -> RowLeft {
        RowLeft::of(None)
    }
}

impl RowLeft {
    ghost use Rattle.std.specs.Prelude.{◌≡◌, ◌<◌, ◌+◌, ◌^◌, IfSome, IfNone};
    ghost use Rattle.yspec.specs.schema.Schema as spec;
    ghost use Rattle.yschema_model.specs.Layout.{number_of};
    ghost use Rattle.yschema_model.specs.View as schema_view;
    ghost use Rattle.yinst_tree.specs.View.{step_view};
    ghost use Rattle.ystore.specs.Viewed.{viewed};
    ghost use Rattle.ylive_list.specs.Walked.{AwaitsChild, Gives, IsNext, IsWhole, NoneComes, number_above, row_of, step_in};

    /// All of a row.
    pub(crate) fn of(above: Option<(SchemaId, NodeId)>) -> RowLeft
        ensures { IsWhole above result }
    {
        RowLeft {
            above,
            told: 0,
            passed: 0,
            last: SchemaId(0),
            position: 0,
        }
    }

    fn row(self) -> Row
        ensures { result ≡ row_of self.above }
    {
        match self.above {
            Some(child) => Row::Below(child.1),
            None => Row::Top,
        }
    }

    /// The schema node of the node above it.
    pub(crate) fn schema_above(self) -> Option<SchemaId>
        ensures { number_of result ≡ number_above self.above }
    {
        match self.above {
            Some(child) => Some(child.0),
            None => None,
        }
    }

    /// The step to the child that was passed last.
    pub(crate) fn step(self, schema: &Schema) -> Step
        ensures { step_view result ≡ step_in (schema_view.view schema.now) self }
    {
        step_of(schema, self.last, self.position)
    }

    /// What it gives next, if children stand below it down to so many levels.
    pub(crate) fn next_piece(&mut self, view: View<'_>, levels: usize) -> Option<Piece>
        ensures above { self.new.above ≡ self.old.above }
        ensures gives { (schema : spec.Schema) → Gives levels schema (viewed view.entry) self.old result self.new }
    {
        let child = self.child(view, levels);
        if let Some(absence) = self.absence(view, child) {
            self.told += 1;
            return Some(Piece::Absence(absence));
        }
        let child = child?;
        self.position = position_behind(self.last, self.position, child.0);
        self.last = child.0;
        self.passed += 1;
        Some(Piece::Child(child))
    }

    /// The next child.
    fn child(self, view: View<'_>, levels: usize) -> Option<(SchemaId, NodeId)>
        ensures within { IfSome result (λ _. self.passed + 1 < 2 ^ 64) }
        ensures next { AwaitsChild levels (viewed view.entry) self result }
    {
        if levels == 0 {
            return None;
        }
        let row = self.row();
        if view.child_count(row) <= self.passed {
            return None;
        }
        view.child_at(row, self.passed)
    }

    /// The next node of which it is told that it isn't stored, if it doesn't stand behind the next child.
    fn absence(self, view: View<'_>, child: Option<(SchemaId, NodeId)>) -> Option<Absence>
        ensures within { IfSome result (λ _. self.told + 1 < 2 ^ 64) }
        ensures next { IfSome result (λ a. IsNext (viewed view.entry) child a self) }
        ensures none { IfNone result (NoneComes (viewed view.entry) child self) }
    {
        let play = view.play(self.row());
        if play.len() <= self.told {
            return None;
        }
        let absence = play[self.told];
        if is_behind(absence, child) {
            return None;
        }
        Some(absence)
    }
}

/// Whether what is told stands behind a child.
fn is_behind(absence: Absence, child: Option<(SchemaId, NodeId)>) -> bool
    ensures { result ≡ option_map_or (λ c. nat_lt c.0.0 absence.1.0) child false }
{
    match child {
        Some(child) => child.0.0 < absence.1.0,
        None => false,
    }
}
