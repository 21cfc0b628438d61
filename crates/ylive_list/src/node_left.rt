//! What is left to tell at a stored node.

ghost use Rattle.std.specs.Prelude.{◌≡◌, ◌<◌, ◌+◌, ◌^◌, ◌∷◌, [], Bool, drop, IfSome, IfNone};
ghost use Rattle.ycheck.specs.Walk.{marks_told, repetition};

use crate::listing::is_item;
use crate::seen::{Words, judged_words, repetition};
use yschema_model::{Schema, SchemaId};
use ystore::{NodeId, View};

/// A node at hand: it is told of its value, then of others that have the same, from one question on.
#[derive(Clone, Copy)]
pub(crate) struct NodeLeft {
    pub(crate) child: (SchemaId, NodeId),
    is_judged: bool,
    which: usize,
}

impl NodeLeft {
    ghost use Rattle.std.specs.Prelude.{◌≡◌, ◌∷◌, [], IfSome, IfNone};
    ghost use Rattle.yschema_model.specs.View as schema_view;
    ghost use Rattle.ystore.specs.Viewed.{viewed};
    ghost use Rattle.ylive_list.specs.Seen.{words_view};
    ghost use Rattle.ylive_list.specs.Walked.{IsNew, marks_left, own_left};

    /// A node of which nothing is told.
    pub(crate) fn of(child: (SchemaId, NodeId)) -> NodeLeft
        ensures { IsNew child result }
    {
        NodeLeft {
            child,
            is_judged: false,
            which: 0,
        }
    }

    /// The next fault at the node, if one is left.
    pub(crate) fn next_words<'a>(&mut self, schema: &Schema, view: View<'a>) -> Option<Words<'a>>
        ensures child { self.new.child ≡ self.old.child }
        ensures told { IfSome result (λ w. own_left (schema_view.view schema.now) (viewed view.entry) self.old
            ≡ words_view w ∷ own_left (schema_view.view schema.now) (viewed view.entry) self.new) }
        ensures none { IfNone result (own_left (schema_view.view schema.now) (viewed view.entry) self.old ≡ []) }
    {
        if self.is_judged {
            return self.next_repetition(schema, view);
        }
        self.is_judged = true;
        match judged_words(view.judged(self.child.1)) {
            Some(words) => Some(words),
            None => self.next_repetition(schema, view),
        }
    }

    /// The next fault of what others have too.
    fn next_repetition<'a>(&mut self, schema: &Schema, view: View<'a>) -> Option<Words<'a>>
        ensures child { self.new.child ≡ self.old.child }
        ensures judged { self.new.is_judged ≡ self.old.is_judged }
        ensures told { IfSome result (λ w. marks_left (schema_view.view schema.now) (viewed view.entry) self.old.child self.old.which
            ≡ words_view w ∷ marks_left (schema_view.view schema.now) (viewed view.entry) self.new.child self.new.which) }
        ensures none { IfNone result (marks_left (schema_view.view schema.now) (viewed view.entry) self.old.child self.old.which ≡ []) }
    {
        let which = next_mark(view.same(self.child.1), self.which)?;
        self.which = which + 1;
        Some(repetition(is_item(schema, self.child.0), which))
    }
}

/// The next question, from one on, that is answered by `true`.
fn next_mark(same: &[bool], from: usize) -> Option<usize>
    ensures within { IfSome result (λ w. w + 1 < 2 ^ 64) }
    ensures told { (is_item : Bool) → IfSome result (λ w. marks_told is_item from (drop from same.now)
        ≡ repetition is_item w ∷ marks_told is_item (w + 1) (drop (w + 1) same.now)) }
    ensures none { (is_item : Bool) → IfNone result (marks_told is_item from (drop from same.now) ≡ []) }
{
    let mut which = from;
    while which < same.len() {
        if same[which] {
            return Some(which);
        }
        which += 1;
    }
    None
}
