//! A walk over the faults that a store holds, which takes no memory.

ghost use Rattle.std.specs.Prelude.{◌≡◌, ◌≤◌, None, length, map};
ghost use Rattle.yspec.specs.schema.Breaks.{level_limit};
ghost use Rattle.yspec.specs.document.Faults.{faults_of};
ghost use Rattle.yspec.specs.document.Fitting.{Fits};
ghost use Rattle.yschema_model.specs.View as schema_view;
ghost use Rattle.yinst_tree.specs.View.{place_view};
ghost use Rattle.ystore.specs.Viewed.{viewed};
ghost use Rattle.ystore_rows.specs.declared.row.Row.TheVariants.{Top};
ghost use Rattle.ystore_tree.specs.Hanging.{Branches, Hangs, tree_of};
ghost use Rattle.ylive_list.specs.Listed.{row_told};
ghost use Rattle.ylive_list.specs.Seen.{steps_in};
ghost use Rattle.ylive_list.specs.Telling.{Tells};
ghost use Rattle.ylive_list.specs.Walked.{ComesToChild, left, step_in};

use crate::down::absence_seen;
use crate::node_left::NodeLeft;
use crate::place::Place;
use crate::row_left::{Piece, RowLeft};
use crate::seen::Seen;
use arrayvec::ArrayVec;
use yschema_model::{Schema, SchemaId};
use ystore::{NodeId, Row, View};

/// The faults that a store holds, one by one, in order of definition. Nodes below which there is no fault in total are passed
/// over. Neither the walk nor what it gives takes memory.
#[derive(Drop)]
pub struct Walk<'a> {
    schema: &'a Schema,
    view: View<'a>,
    // The node at hand, of which something may be left to tell.
    node: Option<NodeLeft>,
    // The rows on the way to it, from the top down: one more than a schema has levels.
    rows: ArrayVec<RowLeft, 61>,
}

/// What one turn comes to.
enum Turn<'a> {
    Gives(Seen<'a>),
    Further,
    Ends,
}

impl<'a> Walk<'a> {
    ghost use Rattle.std.specs.Prelude.{◌≡◌, ◌<◌, None, Some};
    ghost use Rattle.arrayvec.specs.ArrayVec.{array_vec_len};
    ghost use Rattle.ylive_list.specs.Walked.{ComesTo, left_at, visits_at};

    /// A walk over the faults that a store holds. Its reads aren't counted.
    pub fn of(schema: &'a Schema, view: View<'a>) -> Walk<'a>
        ensures listed { left result
            ≡ row_told level_limit (schema_view.view schema.now) (viewed view.entry) None Top }
        // where it holds of each node what is told there
        ensures faults { (f : Branches) → Hangs (viewed view.entry) Top f
            → Tells (schema_view.view schema.now) (viewed view.entry) f
            → Fits (schema_view.view schema.now) (tree_of f)
            → left result ≡ faults_of (schema_view.view schema.now) (tree_of f) }
    {
        let mut rows = ArrayVec::new();
        rows.push(RowLeft::of(None));
        Walk {
            schema,
            view,
            node: None,
            rows,
        }
    }

    fn turn(&mut self) -> Turn<'a>
        ensures { ComesTo (left_at self.old self.old.node) (visits_at self.old self.old.node) result self.new }
    {
        match self.node.take() {
            Some(node) => {
                if self.rows.is_full() {
                    self.turn_in_row()
                } else {
                    self.turn_at_node(node)
                }
            }
            None => self.turn_in_row(),
        }
    }

    /// Tells of the node at hand, and then goes into the row below it.
    fn turn_at_node(&mut self, node: NodeLeft) -> Turn<'a>
        requires free { self.old.node ≡ None }
        requires room { array_vec_len self.old.rows < 61 }
        ensures { ComesTo (left_at self.old (Some node)) (visits_at self.old (Some node)) result self.new }
    {
        let mut node = node;
        match node.next_words(self.schema, self.view) {
            Some(words) => {
                self.node = Some(node);
                Turn::Gives(words.at(place_of(self.schema, self.rows.as_slice())))
            }
            None => {
                self.rows.push(RowLeft::of(Some(node.child)));
                Turn::Further
            }
        }
    }

    /// Goes on in the innermost row, and leaves it at its end. Below the last row there is no room for one more.
    fn turn_in_row(&mut self) -> Turn<'a>
        requires { self.old.node ≡ None }
        ensures { ComesTo (left_at self.old None) (visits_at self.old None) result self.new }
    {
        let levels = self.rows.remaining_capacity();
        let Some(mut row) = self.rows.pop() else {
            return Turn::Ends;
        };
        match row.next_piece(self.view, levels) {
            Some(Piece::Absence(absence)) => {
                let place = place_of(self.schema, self.rows.as_slice());
                self.rows.push(row);
                Turn::Gives(absence_seen(self.schema, row.schema_above(), absence, place))
            }
            Some(Piece::Child(child)) => {
                self.rows.push(row);
                self.node = node_at(self.view, child);
                Turn::Further
            }
            None => Turn::Further,
        }
    }
}

/// A child that is come to; one that has no fault in total is passed over.
fn node_at(view: View<'_>, child: (SchemaId, NodeId)) -> Option<NodeLeft>
    ensures { ComesToChild (viewed view.entry) child result }
{
    if view.total(Row::Below(child.1)) == 0 {
        None
    } else {
        Some(NodeLeft::of(child))
    }
}

/// The steps to the children of some rows that were passed last.
fn place_of(schema: &Schema, rows: &[RowLeft]) -> Place
    requires { length rows.now ≤ 60 }
    ensures steps { place_view (steps_in result) ≡ map (step_in (schema_view.view schema.now)) rows.now }
    ensures count { result.count ≡ length rows.now }
{
    let mut place = Place::top();
    for row in rows {
        place.enter(row.step(schema));
    }
    place
}

impl<'a> Iterator for Walk<'a> {
    type Item = Seen<'a>;

    ghost use Rattle.std.specs.Iterator.{YieldsFirstBy, item_count};
    ghost use Rattle.ylive_list.specs.Seen.{seen_view};
    ghost use Rattle.ylive_list.specs.Walked.{left};

    ghost next_gives = { YieldsFirstBy seen_view left };

    ghost remaining = { item_count left };

    fn next(&mut self) -> Option<Seen<'a>> {
        loop {
            match self.turn() {
                Turn::Gives(seen) => return Some(seen),
                Turn::Further => {}
                Turn::Ends => return None,
            }
        }
    }
}
