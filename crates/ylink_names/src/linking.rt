//! What names of modules, types, groupings and identities mean nothing, and what refers to itself.

ghost use Rattle.std.specs.Prelude.{◌≡◌, None, IfOk};
ghost use Rattle.yspec.specs.schema.Breaks.{least_from};
ghost use Rattle.yspec.specs.linking.Compiling.{meanings_phase};
ghost use Rattle.ylink_grammar.specs.BreakView.{seen};
ghost use Rattle.ylink_grammar.specs.LinkView.{view};
ghost use Rattle.ylink_names.specs.MeaningView.{AreMeanings};
ghost use Rattle.ylink_names.specs.ReferringView.{AreReferring};

use crate::circular::broken_circle_rule;
use crate::importing::circular_import;
use crate::imports::unmet_import;
use crate::lost::broken_lost_rule;
use crate::prefix::modules_by_name;
use std::alloc::{AllocError, Global};
use ylink_grammar::{BrokenRule, Sources};

/// The least of the imports that the set doesn't meet, of the types, groupings and identities that aren't found, and of the
/// imports, typedefs, groupings and identities that refer to themselves, by module and line, given the innermost definition
/// around each statement and what each means.
pub fn broken_meaning_rule(
    alloc: Global,
    sources: &Sources<'_>,
    holders: &[Option<u32>],
    meanings: &[Option<u32>],
) -> Result<Option<BrokenRule>, AllocError>
    ensures { AreReferring holders.now (view sources.now)
        → AreMeanings meanings.now (view sources.now)
        → IfOk result (λ told. seen told ≡ least_from None (meanings_phase (view sources.now))) }
{
    let places = modules_by_name(alloc, sources)?;
    let unmet = unmet_import(alloc, sources, &places, None)?;
    let lost = broken_lost_rule(sources, meanings, unmet);
    let circular = circular_import(alloc, sources, &places, lost)?;
    broken_circle_rule(alloc, sources, holders, meanings, circular)
}
