//! What questions are answered.

ghost use Rattle.std.specs.Prelude.{◌≡◌, ℕ, Bool, IfOk, IfSome, Option, Some, false, length, option_map, string_bytes};
ghost use Rattle.yspec.specs.document.Sorting.{IsSorted};
ghost use Rattle.yspec.specs.schema.Schema as schemas;
ghost use Rattle.yspec_session.specs.Session as spec;
ghost use Rattle.yspec_session.specs.Remembering.{Kept};
ghost use Rattle.ysay_session.specs.AnswerText.{document_text, edit_refused_text, listed_text};
ghost use Rattle.ycheck.specs.View.{views};
ghost use Rattle.yschema_model.specs.View as schema_view;
ghost use Rattle.yinst_tree.specs.View as document_view;
ghost use Rattle.yinst_path.specs.Applying.{told_by};
ghost use Rattle.yinst_path.specs.EditView.{path_view};
ghost use Rattle.yinst.specs.Locating.{spots_view};
ghost use Rattle.ylive.specs.View.{view};
ghost use Rattle.yapp_asking.specs.Asking.{found_view};
ghost use Rattle.yapp_session.specs.Answered.{Replies, below_text, configured_view, found_text, page_text, value_text};

use crate::parts::{first_items, items_behind};
use crate::telling::told_of;
use std::alloc::{AllocError, Global};
use yapp_asking::{keep_below, place_of, value_at};
use ycheck::Fault;
use yinst::{EditFault, Path, Spot, Stored, Tree};
use ylive::Live;
use ysay_session::{document_text, done_text, edit_refused_text, listed_text, value_text};
use yschema_model::Schema;

/// The faults behind so many, at most so many where that is said, and how many there are.
pub(crate) fn page(
    alloc: Global,
    live: &Live,
    configured: &Option<Schema>,
    behind: usize,
    count: Option<usize>,
) -> Result<String, AllocError>
    ensures { IfOk result (λ text. (view live.now).is_stale ≡ false
        → string_bytes text ≡ page_text (configured_view configured.now) (view live.now) behind count) }
{
    let faults = told_of(alloc, live, configured)?;
    let tree = live.tree()?;
    listed_text(
        alloc,
        live.schema(),
        &tree,
        page_of(&faults, behind, count),
        faults.len(),
    )
}

/// Those behind so many, at most so many where that is said.
fn page_of(faults: &[Fault], behind: usize, count: Option<usize>) -> &[Fault]
    ensures { views result.now ≡ spec.page behind count (views faults.now) }
{
    let rest = items_behind(faults, behind);
    match count {
        Some(count) => first_items(rest, count),
        None => rest,
    }
}

/// The document.
pub(crate) fn document(alloc: Global, live: &Live) -> Result<String, AllocError>
    ensures { IfOk result (λ text. string_bytes text
        ≡ document_text (view live.now).schema (view live.now).tree) }
{
    let tree = live.tree()?;
    document_text(alloc, live.schema(), &tree)
}

/// The faults of a node and of all below it, and how many there are of all.
pub(crate) fn below(
    alloc: Global,
    live: &Live,
    configured: &Option<Schema>,
    path: &Path,
) -> Result<String, AllocError>
    ensures { IfOk result (λ text. (tells_changes : Bool) (limit : ℕ) (k : Kept) → Replies tells_changes (configured_view configured.now) limit
        (view live.now) k (spec.below (path_view path.now)) (string_bytes text) (view live.now) k) }
{
    node_faults(alloc, live, configured, path)
}

fn node_faults(
    alloc: Global,
    live: &Live,
    configured: &Option<Schema>,
    path: &Path,
) -> Result<String, AllocError>
    ensures { IfOk result (λ text. (view live.now).is_stale ≡ false
        → string_bytes text ≡ below_text (configured_view configured.now) (view live.now) (path_view path.now)) }
{
    let faults = told_of(alloc, live, configured)?;
    let tree = live.tree()?;
    match place_of(alloc, live.schema(), &tree, path) {
        Ok(place) => listed_below(alloc, live.schema(), &tree, faults, place.as_slice()),
        Err(fault) => fault_text(alloc, fault),
    }
}

/// Those of some faults that stand at a place or below it, and how many there are of all.
fn listed_below(
    alloc: Global,
    schema: &Schema,
    tree: &Tree,
    mut faults: Vec<Fault>,
    place: &[Spot],
) -> Result<String, AllocError>
    ensures { let t = document_view.tree_view tree.now in
        IfOk result (λ text. IsSorted t → string_bytes text ≡ listed_text (schema_view.view schema.now) t
        (spec.faults_below (spots_view place.now) (views faults.items)) (length (views faults.items))) }
{
    let count = faults.len();
    keep_below(&mut faults, place);
    listed_text(alloc, schema, tree, &faults, count)
}

/// Why a path is refused; of want of memory nothing can be told.
fn fault_text(alloc: Global, fault: EditFault) -> Result<String, AllocError>
    ensures { IfOk result (λ text. option_map edit_refused_text (told_by fault) ≡ Some (string_bytes text)) }
{
    match fault {
        EditFault::Refused { code, doc } => edit_refused_text(alloc, code, doc),
        EditFault::Memory => Err(AllocError),
    }
}

/// What is stored at a node.
pub(crate) fn value(alloc: Global, live: &Live, path: &Path) -> Result<String, AllocError>
    ensures { IfOk result (λ text. (tells_changes : Bool) (configured : Option schemas.Schema) (limit : ℕ)
        (k : Kept) → Replies tells_changes configured limit (view live.now) k (spec.value (path_view path.now))
        (string_bytes text) (view live.now) k) }
{
    node_value(alloc, live, path)
}

fn node_value(alloc: Global, live: &Live, path: &Path) -> Result<String, AllocError>
    ensures { IfOk result (λ text. string_bytes text
        ≡ value_text (view live.now) (path_view path.now)) }
{
    let tree = live.tree()?;
    match value_at(alloc, live.schema(), &tree, path) {
        Ok(found) => found_text(alloc, live.schema(), found),
        Err(fault) => fault_text(alloc, fault),
    }
}

/// A stored node, if there is one.
fn found_text(alloc: Global, schema: &Schema, found: Option<&Stored>) -> Result<String, AllocError>
    ensures { IfOk result (λ text. IfSome found.entry (λ stored. IsSorted (document_view.view stored.now).1)
        → string_bytes text ≡ found_text (schema_view.view schema.now) (found_view found.entry)) }
{
    match found {
        Some(stored) => value_text(alloc, schema, stored),
        None => done_text(alloc),
    }
}
