//! What is told of an empty document.

ghost use Rattle.std.specs.Prelude.{◌≡◌, OnOk};
ghost use Rattle.yspec.specs.Forest.{end};
ghost use Rattle.yschema_model.specs.View as schema_view;
ghost use Rattle.ystore.specs.Views.{store_of, lent};
ghost use Rattle.ystore_rows.specs.declared.row.Row.TheVariants.{Top};
ghost use Rattle.ystore_tree.specs.Hanging.{Keeps};
ghost use Rattle.ylive_retell.specs.Empty.{IsEmpty};
ghost use Rattle.ylive_retell.specs.IsTold.{IsTold};

use crate::account::{Account, enter_row};
use crate::defaults::ask_few_defaults;
use crate::growing::await_values;
use crate::values::add_all;
use std::alloc::AllocError;
use ylive_marks::tell_play;
use yschema_model::Schema;
use ystore::{Counted, Row};

/// Tells of an empty document what isn't stored at its top, and counts the defaults that are in use there. There is no room for
/// documents of a schema with more than 2^32 defaults.
pub fn begin(counted: &mut Counted<'_>, schema: &Schema) -> Result<(), AllocError>
    ensures told { let s = schema_view.view schema.now in IsEmpty (store_of counted.old)
        → OnOk result (IsTold s (store_of counted.new) end) }
    ensures keeps { IsEmpty (store_of counted.old) → OnOk result (Keeps (store_of counted.new) end Top end) }
    ensures same_reference { lent counted.new ≡ lent counted.old }
{
    ask_few_defaults(schema)?;
    let mut account = Account::new(counted.alloc());
    let absences = enter_row(counted, schema, Row::Top, None, &mut account)?;
    await_values(counted, &account.values)?;
    add_all(counted, account.values);
    tell_play(counted, Row::Top, absences);
    Ok(())
}
