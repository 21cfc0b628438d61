//! The instances of a schema node in a row.

ghost use Rattle.std.specs.Prelude.{◌≡◌, ◌<◌, length, position, IfSome};
ghost use Rattle.yspec.specs.document.Sorting.{from_number};
ghost use Rattle.yinst_tree.specs.View.{row_view};
ghost use Rattle.yinst_tree.specs.Walk.{is_not_before, is_other, before_first, from_first, mine, others};

use crate::tree::Stored;
use yschema_model::SchemaId;

/// The instances of a schema node in what is left of a row, and what is left behind them. Siblings stand in the order of
/// their schema nodes, so each node of a schema row finds its own at the front.
pub fn instances_of<'a>(rest: &'a [Stored], id: SchemaId) -> (&'a [Stored], &'a [Stored])
    ensures found { row_view result.0.now ≡ mine id.0 (row_view rest.entry.now) }
    ensures behind { row_view result.1.now ≡ others id.0 (row_view rest.entry.now) }
{
    instances_and_rest(left_from(rest, id), id)
}

/// What is left of a row from a schema node on.
fn left_from(row: &[Stored], id: SchemaId) -> &[Stored]
    ensures { row_view result.now ≡ from_number id.0 (row_view row.entry.now) }
{
    row.split_at(due_index(row, id).unwrap_or(row.len())).1
}

fn due_index(row: &[Stored], id: SchemaId) -> Option<usize>
    ensures place { result ≡ position (is_not_before id.0) row.now }
    ensures within { IfSome result (λ n. n < length row.now) }
{
    row.iter().position(|stored| id.0 <= stored.id().0)
}

/// The instances with which a row begins, and the nodes behind them.
fn instances_and_rest(row: &[Stored], id: SchemaId) -> (&[Stored], &[Stored])
    ensures found { result.0.now ≡ before_first (is_other id.0) row.entry.now }
    ensures behind { result.1.now ≡ from_first (is_other id.0) row.entry.now }
{
    row.split_at(other_index(row, id).unwrap_or(row.len()))
}

fn other_index(row: &[Stored], id: SchemaId) -> Option<usize>
    ensures place { result ≡ position (is_other id.0) row.now }
    ensures within { IfSome result (λ n. n < length row.now) }
{
    row.iter().position(|stored| stored.id().0 != id.0)
}
