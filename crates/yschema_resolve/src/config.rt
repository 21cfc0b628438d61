//! Configuration below state, and configuration lists without a key (RFC 7950, 7.8.2 and 7.21.1).

ghost use Rattle.std.specs.Prelude.{◌≡◌, ◌&&◌, ◌||◌, not, is_some};
ghost use Rattle.yspec.specs.linking.Keyword.{list_word, key_word};
ghost use Rattle.yspec.specs.linking.Planned.{is_a, stated_in};
ghost use Rattle.yspec.specs.linking.NodeBreaks as breaks;
ghost use Rattle.yschema_plan.specs.PlannedView.{planned_view};
ghost use Rattle.yschema_plan.specs.PlanView.{view};

use ybase_words::Keyword;
use yschema_plan::{Plan, Planned};

/// Whether it is a list that states no key.
pub(crate) fn lacks_key(planned: &Planned<'_, '_>) -> bool
    ensures { (number : _) → let p = planned_view number planned.now in
        result ≡ (is_a list_word p && not (is_some (stated_in key_word p))) }
{
    match planned.keyword() {
        Keyword::List => planned.own_argument(Keyword::Key).is_none(),
        _ => false,
    }
}

/// Whether it is configuration below state, or a list of configuration without a key.
pub(crate) fn is_wrong_config<'a, 't>(plan: &Plan<'a, 't>, planned: &Planned<'a, 't>) -> bool
    ensures { (number : _) → let p = planned_view number planned.now in
        result ≡ (p.config && (not (breaks.is_config_above (view plan.now) p)
        || (is_a list_word p && not (is_some (stated_in key_word p))))) }
{
    planned.config && (!plan.is_config_above(planned) || lacks_key(planned))
}
