//! What a document stores.

use std::alloc::Global;
use yschema_model::SchemaId;
use ytype::Raw;

/// A step down: a schema node, and at a list entry or a leaf-list item its position among those of that node, from 1.
#[derive(Clone, Copy, Debug, PartialEq, Eq)]
pub struct Step {
    pub id: SchemaId,
    pub position: Option<usize>,
}

/// A stored node: its schema node, at a leaf its value, and what is stored below it.
#[derive(Debug, Drop)]
pub struct Stored {
    id: SchemaId,
    value: Option<Raw>,
    below: Vec<Stored>,
}

impl Stored {
    ghost use Rattle.std.specs.Prelude.{◌≡◌, ◌<◌, option_map};
    ghost use Rattle.ytype.specs.View.{raw_of};
    ghost use Rattle.yinst_tree.specs.View.{view, row_view};
    ghost use Rattle.yinst_tree.specs.declared.tree.Stored.{size-Stored};
    ghost use denote.Param.Weighed.{most};

    /// A node of a row, in which siblings stand in the order of their schema nodes.
    pub fn new(id: SchemaId, value: Option<Raw>, below: Vec<Stored>) -> Stored
        ensures node { (view result).0
            ≡ record { schema_number = id.0; value = option_map raw_of value } }
        ensures below { (view result).1 ≡ row_view below.items }
    {
        Stored { id, value, below }
    }

    /// Its schema node.
    pub fn id(&self) -> SchemaId
        ensures { result.0 ≡ (view self.now).0.schema_number }
    {
        self.id
    }

    /// Its value, at a leaf.
    pub fn value(&self) -> Option<&Raw>
        ensures { option_map (λ raw. raw_of raw.now) result ≡ (view self.now).0.value }
    {
        match &self.value {
            Some(raw) => Some(raw),
            None => None,
        }
    }

    /// The nodes below it, in the order of their schema nodes. Each is smaller, so a recursion over them ends.
    pub fn below(&self) -> &[Stored]
        ensures below { row_view result.now ≡ (view self.now).1 }
        ensures smaller { most (λ s. size-Stored s) result.now < size-Stored self.now }
    {
        self.below.as_slice()
    }

    /// Its schema node, its value and the nodes below it, as they are. Each is smaller, so a recursion over them ends.
    pub fn into_parts(self) -> (SchemaId, Option<Raw>, Vec<Stored>)
        ensures label { (view self).0
            ≡ record { schema_number = result.0.0; value = option_map raw_of result.1 } }
        ensures below { row_view result.2.items ≡ (view self).1 }
        ensures smaller { most (λ s. size-Stored s) result.2.items < size-Stored self }
    {
        let Stored { id, value, below } = self;
        (id, value, below)
    }

    /// Where its nodes lie.
    pub(crate) fn alloc(&self) -> Global {
        *self.below.allocator()
    }
}
