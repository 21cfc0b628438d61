//! What came of the faults of a document.

ghost use Rattle.std.specs.Prelude.{◌≡◌, IfOk, IfSome, None, OnErr, Some, false, is_some, option_map, string_bytes, true};
ghost use Rattle.yspec.specs.document.Sorting.{IsSorted};
ghost use Rattle.yspec_session.specs.Carrying as carrying;
ghost use Rattle.yschema_model.specs.View as schema_view;
ghost use Rattle.yinst_tree.specs.View.{tree_view};
ghost use Rattle.ylive.specs.View.{view};
ghost use Rattle.yapp_difference.specs.Turning.{turn_views};
ghost use Rattle.ysay_session.specs.AnswerText.{changes_text};
ghost use Rattle.ycheck.specs.View.{views};
ghost use Rattle.yapp_session.specs.Answered.{configured_view, told_count, told_in};
ghost use Rattle.yapp_session.specs.Came as came;
ghost use Rattle.yapp_session.specs.Came.{earlier_view};

use std::alloc::{AllocError, Global};
use yapp_difference::{Turn, difference_of};
use ycheck::{Fault, faults};
use ycheck_config::{configuration_tree, state_faults};
use yinst::Tree;
use ylive::Live;
use ysay_session::{changed_text, changes_text};
use yschema_model::Schema;

/// A document and its faults, kept until what came of these is told.
#[derive(Drop)]
pub struct Earlier {
    pub tree: Tree,
    pub faults: Vec<Fault>,
}

/// The faults of a live document that are told: all of them, or those of its configuration alone where the schema of that is
/// given.
pub(crate) fn told_of(
    alloc: Global,
    live: &Live,
    configured: &Option<Schema>,
) -> Result<Vec<Fault>, AllocError>
    ensures { IfOk result (λ found. views found.items ≡ told_in (configured_view configured.now) (view live.now)) }
{
    match configured {
        Some(schema) => told_of_configuration(alloc, live, schema),
        None => told_of_all(live),
    }
}

fn told_of_all(live: &Live) -> Result<Vec<Fault>, AllocError>
    ensures { IfOk result (λ found. views found.items ≡ told_in None (view live.now)) }
{
    match live.list() {
        Ok(faults) => Ok(faults),
        Err(_) => Err(AllocError),
    }
}

fn told_of_configuration(
    alloc: Global,
    live: &Live,
    configured: &Schema,
) -> Result<Vec<Fault>, AllocError>
    ensures { IfOk result (λ found. views found.items
        ≡ told_in (Some (schema_view.view configured.now)) (view live.now)) }
{
    let tree = live.tree()?;
    let whole = live.schema();
    let mut found = state_faults(alloc, whole, &tree)?;
    let left = configuration_tree(alloc, whole, &tree)?;
    let mut others = faults(alloc, configured, &left)?;
    found.append(&mut others)?;
    Ok(found)
}

/// How many faults of a live document are told; none of a stale one that is looked at as a whole.
pub(crate) fn count_of(
    alloc: Global,
    live: &Live,
    configured: &Option<Schema>,
) -> Result<usize, AllocError>
    ensures counted { IfOk result (λ count. (view live.now).is_stale ≡ false
        → count ≡ told_count (configured_view configured.now) (view live.now)) }
    ensures err { OnErr result (is_some configured.now ≡ true) }
{
    match configured {
        Some(schema) => {
            let faults = told_of_configuration(alloc, live, schema)?;
            Ok(faults.len())
        }
        None => Ok(live.fault_count().unwrap_or(0)),
    }
}

/// A document and its faults, where what comes of these is told.
pub(crate) fn seen(
    alloc: Global,
    live: &Live,
    tells_changes: bool,
    configured: &Option<Schema>,
) -> Result<Option<Earlier>, AllocError>
    ensures seen { IfOk result (λ found. option_map earlier_view found
        ≡ came.seen tells_changes (configured_view configured.now) (view live.now)) }
    ensures sorted { IfOk result (λ found. IfSome found (λ earlier. IsSorted (tree_view earlier.tree))) }
{
    if tells_changes {
        let earlier = earlier_of(alloc, live, configured)?;
        Ok(Some(earlier))
    } else {
        Ok(None)
    }
}

fn earlier_of(
    alloc: Global,
    live: &Live,
    configured: &Option<Schema>,
) -> Result<Earlier, AllocError>
    ensures seen { IfOk result (λ earlier. earlier_view earlier
        ≡ ((view live.now).tree, told_in (configured_view configured.now) (view live.now))) }
    ensures sorted { IfOk result (λ earlier. IsSorted (tree_view earlier.tree)) }
{
    let faults = told_of(alloc, live, configured)?;
    let tree = live.tree()?;
    Ok(Earlier { tree, faults })
}

/// How many faults there were and are, and what came of them where those before are kept.
pub(crate) fn seen_text(
    alloc: Global,
    live: &Live,
    configured: &Option<Schema>,
    earlier: Option<Earlier>,
    turns: &[Turn],
    before: usize,
    after: usize,
) -> Result<String, AllocError>
    ensures { IfOk result (λ text. IfSome earlier (λ e. IsSorted (tree_view e.tree)) → string_bytes text
        ≡ came.seen_text (configured_view configured.now) (option_map earlier_view earlier) (turn_views turns.now) (view live.now) before after) }
{
    match earlier {
        Some(earlier) => came_text(alloc, live, configured, earlier, turns, before, after),
        None => changed_text(alloc, before, after),
    }
}

fn came_text(
    alloc: Global,
    live: &Live,
    configured: &Option<Schema>,
    earlier: Earlier,
    turns: &[Turn],
    before: usize,
    after: usize,
) -> Result<String, AllocError>
    ensures { let e = earlier_view earlier in let now = view live.now in
        IfOk result (λ text. IsSorted e.0 → string_bytes text ≡ changes_text now.schema e.0 now.tree before after
        (carrying.difference (turn_views turns.now) e.1 (told_in (configured_view configured.now) now))) }
{
    let later = told_of(alloc, live, configured)?;
    let tree = live.tree()?;
    let Earlier { tree: old, faults } = earlier;
    let came = difference_of(alloc, turns, faults, later)?;
    let told = came.told.as_slice();
    let gone = came.gone.as_slice();
    changes_text(alloc, live.schema(), &old, &tree, before, after, told, gone)
}
