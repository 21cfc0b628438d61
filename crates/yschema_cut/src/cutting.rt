//! The nodes of a set of modules that stand: one of whose conditions one doesn't hold is as if it weren't there, with all below it
//! (RFC 7950, 7.9.2, 7.9.3 and 7.20.2), and so is an operation (7.14 to 7.16).

ghost use Rattle.std.specs.Prelude.{◌≡◌, Ok, IfOk, None, true};
ghost use Rattle.yspec.specs.Forest.{Forest};
ghost use Rattle.yspec.specs.linking.Parts.{Part};
ghost use Rattle.yspec_wide.specs.Expansion.{augmented_in};
ghost use Rattle.yspec_wide.specs.Language.{core};
ghost use Rattle.yspec_wide.specs.Standing.{standing, standing_by};
ghost use Rattle.yschema_cut.specs.Cutting.{TellsStanding, stands_by};
ghost use Rattle.ybase_preorder.specs.Layout.{places};
ghost use Rattle.ylink_grammar.specs.LanguageView.{language_view};
ghost use Rattle.ylink_grammar.specs.LinkView.{view};
ghost use Rattle.ylink_standing.specs.StandingView.{IsOf};
ghost use Rattle.yschema_expand.specs.TableView.{parts_in};
ghost use Rattle.yschema_given.specs.Keeping.{are_kept_right};

use crate::defaults::{defaults_off, lose_defaults};
use crate::holding::holding_of;
use crate::keeping::kept;
use crate::nodes::{fates_of, own_standing_of};
use crate::totals::{standing_of, totals_of};
use std::alloc::{AllocError, Global};
use ylink_grammar::{Language, Sources};
use ylink_standing::FeaturesOn;
use yschema_expand::NodeTable;

/// The nodes of a table that stand, where another one says by their numbers which conditions hold.
pub fn cut_by<'a, 't>(
    alloc: Global,
    language: &Language,
    holding: &[bool],
    table: NodeTable<'a, 't>,
) -> Result<NodeTable<'a, 't>, AllocError>
    ensures { (f : Forest Part) → parts_in table.entry ≡ places None 0 f → IfOk result
        (λ made. parts_in made ≡ places None 0 (standing_by (stands_by (language_view language.now) holding.now) f)) }
{
    let NodeTable { slots } = table;
    let mut slots = slots;
    let fates = fates_of(alloc, language, slots.as_slice(), holding)?;
    let totals = totals_of(alloc, slots.as_slice(), fates.as_slice())?;
    let standing = standing_of(alloc, slots.as_slice(), totals.as_slice())?;
    let off = defaults_off(alloc, slots.as_slice(), standing.as_slice())?;
    lose_defaults(&mut slots, off.as_slice())?;
    let made = kept(alloc, slots, totals.as_slice())?;
    if made.len() > u32::MAX as usize {
        return Err(AllocError);
    }
    Ok(NodeTable { slots: made })
}

/// Those of a table of a set of modules, where it is told which of its features are on.
fn cut_by_features<'a, 't>(
    alloc: Global,
    language: &Language,
    sources: &Sources<'_>,
    features: &FeaturesOn,
    table: NodeTable<'a, 't>,
) -> Result<NodeTable<'a, 't>, AllocError>
    ensures { let l = language_view language.now in let m = view sources.now in
        IsOf features.now l m → are_kept_right l m ≡ true → parts_in table.entry ≡ places None 0 (augmented_in l m).0
        → IfOk result (λ made. parts_in made ≡ places None 0 (standing l m (augmented_in l m).0)) }
{
    let holding = holding_of(alloc, features, sources)?;
    cut_by(alloc, language, holding.as_slice(), table)
}

/// Of each node that a set of modules defines in a language, by its number, whether it is no operation and all conditions of it
/// itself hold, where it is told which of the set's features are on. Of nodes above it nothing is asked.
pub fn standing_in(
    alloc: Global,
    language: &Language,
    sources: &Sources<'_>,
    features: &FeaturesOn,
    table: &NodeTable<'_, '_>,
) -> Result<Vec<bool>, AllocError>
    ensures { let l = language_view language.now in let m = view sources.now in
        IsOf features.now l m → are_kept_right l m ≡ true → parts_in table.now ≡ places None 0 (augmented_in l m).0
        → IfOk result (λ standing. TellsStanding standing.items l m (augmented_in l m).0) }
{
    let holding = holding_of(alloc, features, sources)?;
    own_standing_of(alloc, language, table.slots(), holding.as_slice())
}

/// The nodes that stand of those that a set of modules defines in a language, each `uses` replaced and each augment applied,
/// where it is told which of its features are on. Under the core all do.
pub fn cut<'a, 't>(
    alloc: Global,
    language: &Language,
    sources: &Sources<'_>,
    features: &FeaturesOn,
    table: NodeTable<'a, 't>,
) -> Result<NodeTable<'a, 't>, AllocError>
    ensures core { language_view language.now ≡ core → result ≡ Ok table.entry }
    ensures standing { let l = language_view language.now in let m = view sources.now in
        IsOf features.now l m → are_kept_right l m ≡ true → parts_in table.entry ≡ places None 0 (augmented_in l m).0
        → IfOk result (λ made. parts_in made ≡ places None 0 (standing l m (augmented_in l m).0)) }
{
    match language {
        Language::Core => Ok(table),
        Language::Rfc(_) => cut_by_features(alloc, language, sources, features, table),
    }
}
