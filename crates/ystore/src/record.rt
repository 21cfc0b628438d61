//! What a store holds of each row: the node above it, and the row itself.

use std::alloc::{AllocError, Global};
use yschema_model::SchemaId;
use ystore_rows::{Absence, Extent, Row};
use ytype::Raw;

/// What is told of the value of a leaf or item.
#[derive(Debug, Drop)]
pub enum Judged {
    /// Nothing.
    Right,
    /// Its type doesn't take it (V1), with the app-tag of the restriction, if there is one.
    Wrong(Option<String>),
    /// What it refers to isn't there (V11).
    Missing,
}

/// A stored node but for the row below it: its schema node, its value at a leaf or item, and the row in which it stands.
#[derive(Debug, Drop)]
pub struct Label {
    pub schema: SchemaId,
    pub value: Option<Raw>,
    pub parent: Row,
}

/// The faults that are told at a node.
#[derive(Debug, Drop)]
pub struct Told {
    /// What is told of its value.
    pub judged: Judged,
    /// Whether another node has the same value, or the same values of a key or `unique`, by its number.
    pub same: Vec<bool>,
    /// What is told of nodes that aren't stored right below it, or at the top.
    pub play: Vec<Absence>,
}

/// A label as a record keeps it; the top has none.
#[derive(Drop)]
pub(crate) enum KeptLabel {
    Absent,
    Bare(SchemaId, Row),
    Valued(SchemaId, Row, Raw),
}

impl KeptLabel {
    ghost use Rattle.std.specs.Prelude.{◌≡◌, Some};
    ghost use Rattle.ystore.specs.Held.{kept_label, label_of};

    fn of(label: Label) -> KeptLabel
        ensures { kept_label result ≡ Some (label_of label) }
    {
        let Label {
            schema,
            value,
            parent,
        } = label;
        match value {
            Some(raw) => KeptLabel::Valued(schema, parent, raw),
            None => KeptLabel::Bare(schema, parent),
        }
    }
}

/// What is held of a row: the node above it, of which the top has none, what stands in it, and what is told at that.
#[derive(Drop)]
pub(crate) struct Record {
    label: KeptLabel,
    pub(crate) extent: Extent,
    pub(crate) judged: Judged,
    /// How many faults are told of the node and of all below it.
    pub(crate) total: usize,
}

impl Record {
    ghost use Rattle.std.specs.Prelude.{◌≡◌, option_map, option_and_then, IfOk};
    ghost use Rattle.ytype.specs.View.{raw_of};
    ghost use Rattle.ystore.specs.Held.{held_of, label_of, new_held, nothing_held, told_of};

    /// That of the top of an empty document.
    pub(crate) fn top(alloc: Global) -> Record
        ensures { held_of result ≡ nothing_held }
    {
        Record {
            label: KeptLabel::Absent,
            extent: Extent::empty(alloc),
            judged: Judged::Right,
            total: 0,
        }
    }

    /// That of a node without children, with room for so many.
    pub(crate) fn new(
        alloc: Global,
        label: Label,
        told: Told,
        total: usize,
        room: usize,
    ) -> Result<Record, AllocError>
        ensures { IfOk result (λ made. held_of made ≡ new_held (label_of label) (told_of told) total room) }
    {
        let Told { judged, same, play } = told;
        Ok(Record {
            label: KeptLabel::of(label),
            extent: Extent::new(alloc, same, play, room)?,
            judged,
            total,
        })
    }

    pub(crate) fn schema(&self) -> Option<SchemaId>
        ensures { result ≡ option_map (λ l. l.schema) (held_of self.now).shape.label }
    {
        match &self.label {
            KeptLabel::Absent => None,
            KeptLabel::Bare(schema, _) => Some(*schema),
            KeptLabel::Valued(schema, _, _) => Some(*schema),
        }
    }

    pub(crate) fn parent(&self) -> Option<Row>
        ensures { result ≡ option_map (λ l. l.parent) (held_of self.now).shape.label }
    {
        match &self.label {
            KeptLabel::Absent => None,
            KeptLabel::Bare(_, parent) => Some(*parent),
            KeptLabel::Valued(_, parent, _) => Some(*parent),
        }
    }

    pub(crate) fn value(&self) -> Option<&Raw>
        ensures { option_map (λ raw. raw_of raw.now) result
            ≡ option_and_then (λ l. l.value) (held_of self.now).shape.label }
    {
        match &self.label {
            KeptLabel::Valued(_, _, raw) => Some(raw),
            _ => None,
        }
    }
}
