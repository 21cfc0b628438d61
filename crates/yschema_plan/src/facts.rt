//! What planned nodes state.

ghost use Rattle.std.specs.Prelude.{◌≡◌, map, IfOk};
ghost use Rattle.yspec.specs.linking.SchemaNodes as spec;
ghost use Rattle.yspec.specs.linking.NodeBreaks as breaks;
ghost use Rattle.ylink_grammar.specs.SourceView.{stated_view};
ghost use Rattle.yschema_plan.specs.PlanView.{view};
ghost use Rattle.yschema_plan.specs.PlannedView.{planned_view};

use crate::plan::Plan;
use crate::planned::Planned;
use std::alloc::{AllocError, Global};
use ybase_words::{Keyword, Status, status_of};
use ylink_arguments::{count, max_elements};
use ylink_grammar::Stated;
use yschema_model::Amount;

impl<'a, 't> Planned<'a, 't> {
    ghost use Rattle.std.specs.Prelude.{◌≡◌, is_some};
    ghost use Rattle.yspec.specs.linking.Keyword.{presence_word};
    ghost use Rattle.yspec.specs.linking.Planned.{stated_in};
    ghost use Rattle.yspec.specs.linking.NodeBreaks.{must_be};
    ghost use Rattle.ybase_words.specs.WordView.{status_view};
    ghost use Rattle.yschema_model.specs.Layout.{amount_view};
    ghost use Rattle.yschema_plan.specs.PlannedView.{planned_view};

    /// Whether it says that it is mandatory (RFC 7950, 7.6.5 and 7.9.4).
    pub fn is_mandatory(&self) -> bool
        ensures { (number : _) → result ≡ spec.is_mandatory (planned_view number self.now) }
    {
        match self.own_argument(Keyword::Mandatory) {
            Some(text) => text == "true",
            None => false,
        }
    }

    /// How many instances there are at least.
    pub fn min_elements(&self) -> u32
        ensures { (number : _) → result ≡ spec.min_elements_of (planned_view number self.now) }
    {
        match self.own_argument(Keyword::MinElements) {
            Some(text) => count(text).unwrap_or(0),
            None => 0,
        }
    }

    /// How many instances there are at most.
    fn max_elements(&self) -> Option<u32>
        ensures { (number : _) → result
            ≡ (spec.amount_of (planned_view number self.now)).max_elements }
    {
        match self.own_argument(Keyword::MaxElements) {
            Some(text) => max_elements(text).unwrap_or(None),
            None => None,
        }
    }

    /// How many instances there are.
    pub fn amount(&self) -> Amount
        ensures { (number : _) → amount_view result
            ≡ spec.amount_of (planned_view number self.now) }
    {
        Amount {
            min_elements: self.min_elements(),
            max_elements: self.max_elements(),
        }
    }

    /// How well it stands (RFC 7950, 7.21.2).
    pub fn status(&self) -> Status
        ensures { (number : _) → status_view result
            ≡ spec.status_in (planned_view number self.now) }
    {
        match self.own_argument(Keyword::Status) {
            Some(text) => status_of(text).unwrap_or(Status::Current),
            None => Status::Current,
        }
    }

    /// Whether a container says that its presence means something (RFC 7950, 7.5.5).
    pub fn has_presence(&self) -> bool
        ensures { (number : _) → result
            ≡ is_some (stated_in presence_word (planned_view number self.now)) }
    {
        self.own_argument(Keyword::Presence).is_some()
    }

    /// Whether it must be stored where the one above it is, given whether one right below it must; a case needn't (RFC 7950,
    /// 3).
    pub(crate) fn must_be(&self, inside: bool) -> bool
        ensures { (number : _) → result ≡ must_be (planned_view number self.now) inside }
    {
        match self.keyword() {
            Keyword::Leaf => self.is_mandatory(),
            Keyword::LeafList => self.min_elements() > 0,
            Keyword::List => self.min_elements() > 0,
            Keyword::Choice => self.is_mandatory(),
            Keyword::Container => inside && !self.has_presence(),
            _ => false,
        }
    }

    /// The name of its type as its `type` statement has it, with its prefix; that of texts where it has none.
    pub fn type_name(&self) -> &'t str
        ensures { (number : _) → result.now ≡ spec.type_name (planned_view number self.now) }
    {
        match self.own_argument(Keyword::Type) {
            Some(text) => text,
            None => "string",
        }
    }
}

/// All its own defaults, in order, each with the module in which it stands (RFC 7950, 7.6.4 and 7.7.4).
pub fn own_defaults<'t>(
    alloc: Global,
    planned: &Planned<'_, 't>,
) -> Result<Vec<Stated<'t>>, AllocError>
    ensures { (number : _) → IfOk result (λ defaults. map stated_view defaults.items
        ≡ spec.own_defaults (planned_view number planned.now)) }
{
    let mut defaults = Vec::new(alloc);
    for statement in planned.own_with(Keyword::Default) {
        defaults.push(statement.label().stated())?;
    }
    Ok(defaults)
}

/// Whether the default case of a choice isn't there, or is needless, or holds what must be stored (RFC 7950, 7.9.3).
pub fn is_wrong_case<'a, 't>(plan: &Plan<'a, 't>, number: u32, planned: &Planned<'a, 't>) -> bool
    ensures { let p = planned_view number planned.now in
        result ≡ breaks.is_wrong_case (view plan.now) p (spec.default_case (view plan.now) p) }
{
    match plan.default_case(number, planned) {
        Some(case) => planned.is_mandatory() || plan.has_mandatory_below(case),
        None => true,
    }
}
