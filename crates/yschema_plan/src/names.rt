//! Children of one name (RFC 7950, 6.2.1).

ghost use Rattle.std.specs.Prelude.{◌≡◌, None};
ghost use Rattle.yspec.specs.schema.Breaks.{least_from};
ghost use Rattle.yspec.specs.linking.NodeBreaks.{name_breaks};
ghost use Rattle.ylink_grammar.specs.BreakView.{seen};
ghost use Rattle.yschema_plan.specs.PlanView.{view};

use crate::plan::Plan;
use ylink_grammar::{BrokenRule, CompileCode, least_when};

/// The least of the nodes that have the name of an earlier one which shares its names.
pub fn broken_name_rule(plan: &Plan<'_, '_>) -> Option<BrokenRule>
    ensures { seen result ≡ least_from None (name_breaks (view plan.now)) }
{
    let mut told = None;
    for (number, row) in plan.slots().iter().enumerate() {
        let planned = &row.label;
        let is_repeated = plan.is_repeated(number as u32, planned);
        told = least_when(is_repeated, told, planned.broken(CompileCode::C13));
    }
    told
}
