//! How nodes are planned, step by step: what is still to be done stands in a list, since groupings may nest nodes as deep as
//! there are any.

ghost use Rattle.std.specs.Prelude.{◌≡◌, IfOk, OnOk};
ghost use Rattle.yspec.specs.linking.Parts.{Part};
ghost use Rattle.yspec.specs.linking.Planned as spec;
ghost use Rattle.ybase_preorder.specs.View.{row_by};
ghost use Rattle.yschema_expand.specs.NodeView.{numbered_part};
ghost use Rattle.yschema_plan.specs.Planning.{row_toll, toll, AddsRow, Does, Leads};
ghost use Rattle.yschema_plan.specs.PlannedView.{seen_rows, listed, around_view, planned_view};

use crate::planned::{Around, Planned};
use std::alloc::{AllocError, Global};
use ybase_preorder::{Siblings, Table};
use ybase_words::Keyword;
use yschema_expand::ExpandedNode;

/// What is still to be done.
#[derive(Clone, Copy)]
enum Task<'a, 't> {
    /// To add the nodes of a row, with all below them.
    Add(Around, Siblings<'a, ExpandedNode<'a, 't>>),
    /// To close the node of a number: all behind it stand below it.
    Close(u32),
}

/// The nodes of all modules, in order of definition, given the top ones.
pub(crate) fn planned<'a, 't>(
    alloc: Global,
    roots: Siblings<'a, ExpandedNode<'a, 't>>,
) -> Result<Table<Planned<'a, 't>>, AllocError>
    ensures { IfOk result (λ table. seen_rows table
        ≡ listed 0 spec.at_top (row_by numbered_part roots.entry)) }
{
    let around = Around {
        parent: None,
        data_parent: None,
        scope: None,
        config: true,
    };
    let mut table = Table::new(alloc);
    let mut tasks = Vec::new(alloc);
    tasks.push(Task::Add(around, roots))?;
    while let Some(task) = tasks.pop() {
        perform(task, &mut tasks, &mut table)?;
    }
    Ok(table)
}

/// What stands around the nodes below one of a number.
fn around_below(number: u32, around: Around, planned: Planned<'_, '_>) -> Around
    ensures { (p : Part) → planned_view number planned.entry
        ≡ spec.planned_node number (around_view around) p
        → around_view result ≡ spec.around_below number (around_view around) p }
{
    let keyword = planned.keyword();
    let is_choice = Keyword::Choice.is(keyword);
    let data_parent = if is_choice || Keyword::Case.is(keyword) {
        around.data_parent
    } else {
        Some(number)
    };
    Around {
        parent: Some(number),
        data_parent,
        scope: if is_choice { Some(number) } else { data_parent },
        config: planned.config,
    }
}

/// Does a task, or leaves the rest of it behind.
fn perform<'a, 't>(
    task: Task<'a, 't>,
    tasks: &mut Vec<Task<'a, 't>>,
    table: &mut Table<Planned<'a, 't>>,
) -> Result<(), AllocError>
    ensures { OnOk result (Leads (Does task.entry) (toll task.entry) tasks.old.items tasks.new.items table.old table.new) }
{
    match task {
        Task::Add(around, row) => add_first(around, row, tasks, table),
        Task::Close(number) => {
            table.close(number);
            Ok(())
        }
    }
}

/// Adds the first node of a row, and leaves behind what stands below it and the others.
fn add_first<'a, 't>(
    around: Around,
    row: Siblings<'a, ExpandedNode<'a, 't>>,
    tasks: &mut Vec<Task<'a, 't>>,
    table: &mut Table<Planned<'a, 't>>,
) -> Result<(), AllocError>
    ensures { OnOk result (Leads (AddsRow around row.entry) (row_toll row.entry) tasks.old.items tasks.new.items table.old table.new) }
{
    let mut others = row;
    let Some(expanded) = others.next() else {
        return Ok(());
    };
    tasks.push(Task::Add(around, others))?;
    let planned = Planned::new(expanded.label(), around);
    let number = table.open(around.parent, planned)?;
    tasks.push(Task::Close(number))?;
    let inside = around_below(number, around, planned);
    tasks.push(Task::Add(inside, expanded.children()))?;
    Ok(())
}
