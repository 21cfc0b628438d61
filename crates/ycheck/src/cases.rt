//! The cases of a choice that are in play (RFC 7950, 7.9).

ghost use Rattle.std.specs.Prelude.{◌≡◌, nat_lt};
ghost use Rattle.yspec.specs.Forest.{Forest, end, node};
ghost use Rattle.yspec.specs.schema.Schema as spec;
ghost use Rattle.yspec.specs.document.Document.{instances_in};
ghost use Rattle.yspec.specs.document.Fitting.{IsNumbered};
ghost use Rattle.yspec.specs.document.Play.{stored_among, stored_cases, or_default};
ghost use Rattle.yspec.specs.document.Sorting.{IsSorted};
ghost use Rattle.yschema_model.specs.Layout.{number_of};
ghost use Rattle.yschema_model.specs.View as schema_view;
ghost use Rattle.yinst_tree.specs.View as document_view;
ghost use Rattle.ycheck.specs.Cases.{one_more, chosen_from, how_many, is_chosen, Chooses};

use yinst_tree::{Stored, instances_of};
use yschema_model::{Child, Children, SchemaId};

/// How many cases of a choice have a stored data node.
#[derive(Clone, Copy, Debug, PartialEq, Eq)]
pub(crate) enum StoredCases {
    Zero,
    One,
    Several,
}

impl StoredCases {
    fn one_more(self) -> StoredCases
        ensures { result ≡ one_more self }
    {
        match self {
            StoredCases::Zero => StoredCases::One,
            _ => StoredCases::Several,
        }
    }

    /// How many of these cases have a data node stored in what is left of a row.
    pub(crate) fn of(cases: Children<'_>, rest: &[Stored]) -> StoredCases
        ensures { let t = document_view.row_view rest.now in
            IsSorted t → result ≡ how_many
            (stored_cases (instances_in t) (schema_view.row_view cases.entry)) }
    {
        let mut count = StoredCases::Zero;
        let mut left = rest;
        for case in cases {
            let (_, behind) = instances_of(left, case.id());
            if has_stored(case.children(), behind) {
                count = count.one_more();
            }
            left = behind;
        }
        count
    }
}

/// Which cases of a row are in play.
#[derive(Clone, Copy, Debug, PartialEq, Eq)]
pub(crate) enum Chosen {
    /// None: the row stands in no choice, or nothing is chosen.
    NoCase,
    /// Those that have a stored data node.
    EachStored,
    /// The default case, where none has a stored data node.
    Only(SchemaId),
}

impl Chosen {
    /// The chosen cases of a choice of which so many have a stored data node.
    pub(crate) fn of(default_case: Option<SchemaId>, with_stored: StoredCases) -> Chosen
        ensures same { result ≡ chosen_from (number_of default_case) with_stored }
        ensures chooses { (stored : _) (k : _) (cases : Forest spec.SchemaNode) → IsNumbered k cases
            → with_stored ≡ how_many (stored_cases stored cases)
            → Chooses result stored (or_default (number_of default_case)
            (stored_cases stored cases)) cases }
    {
        match (with_stored, default_case) {
            (StoredCases::Zero, Some(id)) => Chosen::Only(id),
            (StoredCases::Zero, None) => Chosen::NoCase,
            _ => Chosen::EachStored,
        }
    }

    /// Whether a case is in play, given what is left of the row of the choice.
    pub(crate) fn has(self, case: Child<'_>, rest: &[Stored]) -> bool
        ensures { let t = document_view.row_view rest.now in
            IsSorted t → result ≡ is_chosen self (instances_in t)
            (schema_view.label_of case.entry).number (schema_view.below_of case.entry) }
    {
        match self {
            Chosen::NoCase => false,
            Chosen::EachStored => has_stored(case.children(), rest),
            Chosen::Only(id) => id == case.id(),
        }
    }
}

/// Whether a data node of these children is stored in what is left of a row, which is in order. Choices and cases are
/// passed through.
#[cycle(stored)]
pub fn has_stored(children: Children<'_>, rest: &[Stored]) -> bool
    ensures { let t = document_view.row_view rest.now in
        IsSorted t → result ≡ nat_lt 0
        (stored_among (instances_in t) (schema_view.row_view children.entry)) }
{
    for child in children {
        if is_met(child, rest) {
            return true;
        }
    }
    false
}

/// Whether a data node is stored, or one in a choice or case.
#[cycle(stored)]
fn is_met(child: Child<'_>, rest: &[Stored]) -> bool
    ensures { let t = document_view.row_view rest.now in IsSorted t
        → result ≡ nat_lt 0 (stored_among (instances_in t)
        (node (schema_view.label_of child.entry) (schema_view.below_of child.entry) end)) }
{
    if child.node().kind.is_data() {
        is_stored(child.id(), rest)
    } else {
        has_stored(child.children(), rest)
    }
}

/// Whether a node is stored in a row in order: the first that doesn't stand before it is one.
pub(crate) fn is_stored(id: SchemaId, rest: &[Stored]) -> bool
    ensures { let t = document_view.row_view rest.now in
        IsSorted t → result ≡ nat_lt 0 (instances_in t id.0) }
{
    for stored in rest {
        if id.0 <= stored.id().0 {
            return stored.id().0 == id.0;
        }
    }
    false
}
