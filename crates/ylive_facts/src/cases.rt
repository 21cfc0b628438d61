//! The cases of a choice that are in play in a row of a store (RFC 7950, 7.9).

ghost use Rattle.std.specs.Prelude.{◌≡◌, ◌+◌, ◌≤◌, IfOk, nat_lt};
ghost use Rattle.yspec.specs.Forest.{end, node};
ghost use Rattle.yspec.specs.document.Play as spec;
ghost use Rattle.yschema_model.specs.Layout.{number_of, numbers_of};
ghost use Rattle.yschema_model.specs.View.{row_view, label_of, below_of};
ghost use Rattle.yspec_reach.specs.Sizes.{near_count};
ghost use Rattle.ystore.specs.Store.{reads};
ghost use Rattle.ystore.specs.Views.{store_of, lent};
ghost use Rattle.ystore_tree.specs.Parts.{OnlyReads};
ghost use Rattle.ylive_facts.specs.Reads.{cases_reads};
ghost use Rattle.ylive_facts.specs.Rows.{count_in, listed_in};

use crate::rows::count_of;
use std::alloc::AllocError;
use yschema_model::{Child, Children, SchemaId};
use ystore::{Counted, Row};

/// Whether a data node of these children is stored in a row. Choices and cases are passed through.
#[cycle(stored)]
fn has_stored(counted: &mut Counted<'_>, row: Option<Row>, children: Children<'_>) -> bool
    ensures stored { let stored = count_in (listed_in (store_of counted.old) row) in
        result ≡ nat_lt 0 (spec.stored_among stored (row_view children.entry)) }
    ensures kept { OnlyReads (store_of counted.old) (store_of counted.new) }
    ensures reads { reads (store_of counted.new) ≤ reads (store_of counted.old) + near_count (row_view children.entry) }
    ensures same_reference { lent counted.new ≡ lent counted.old }
{
    for child in children {
        if is_met(counted, row, child) {
            return true;
        }
    }
    false
}

/// Whether a data node is stored, or one in a choice or case.
#[cycle(stored)]
fn is_met(counted: &mut Counted<'_>, row: Option<Row>, child: Child<'_>) -> bool
    ensures stored { let stored = count_in (listed_in (store_of counted.old) row) in
        result ≡ nat_lt 0 (spec.stored_among stored (node (label_of child.entry) (below_of child.entry) end)) }
    ensures kept { OnlyReads (store_of counted.old) (store_of counted.new) }
    ensures reads { reads (store_of counted.new) ≤ reads (store_of counted.old) + near_count (node (label_of child.entry) (below_of child.entry) end) }
    ensures same_reference { lent counted.new ≡ lent counted.old }
{
    if child.node().kind.is_data() {
        count_of(counted, row, child.id()) > 0
    } else {
        has_stored(counted, row, child.children())
    }
}

/// The cases that have a data node stored in a row.
pub(crate) fn stored_cases(
    counted: &mut Counted<'_>,
    row: Option<Row>,
    cases: Children<'_>,
) -> Result<Vec<SchemaId>, AllocError>
    ensures cases { let stored = count_in (listed_in (store_of counted.old) row) in
        IfOk result (λ ids. numbers_of ids.items ≡ spec.stored_cases stored (row_view cases.entry)) }
    ensures kept { OnlyReads (store_of counted.old) (store_of counted.new) }
    ensures reads { reads (store_of counted.new) ≤ reads (store_of counted.old) + cases_reads (row_view cases.entry) }
    ensures same_reference { lent counted.new ≡ lent counted.old }
{
    let mut found = Vec::new(counted.alloc());
    for case in cases {
        if has_stored(counted, row, case.children()) {
            found.push(case.id())?;
        }
    }
    Ok(found)
}

/// The chosen cases: those that have a stored data node, and with none the default case, if there is one.
pub(crate) fn or_default(
    mut with_stored: Vec<SchemaId>,
    default_case: Option<SchemaId>,
) -> Result<Vec<SchemaId>, AllocError>
    ensures { IfOk result (λ ids. numbers_of ids.items
        ≡ spec.or_default (number_of default_case) (numbers_of with_stored.items)) }
{
    if with_stored.is_empty() {
        if let Some(id) = default_case {
            with_stored.push(id)?;
        }
    }
    Ok(with_stored)
}

/// Whether a case is among the chosen ones.
pub(crate) fn is_among(chosen: &[SchemaId], case: SchemaId) -> bool
    ensures { result ≡ spec.is_among (numbers_of chosen.now) case.0 }
{
    for id in chosen {
        if id.0 == case.0 {
            return true;
        }
    }
    false
}
