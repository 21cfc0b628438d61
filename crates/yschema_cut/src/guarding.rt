//! Which nodes bear no `when` (RFC 7950, 7.21.5).

ghost use Rattle.std.specs.Prelude.{◌≡◌, IfOk, None, map, not, true};
ghost use Rattle.yspec_wide.specs.Expansion.{augmented_in};
ghost use Rattle.yspec_wide.specs.Sources as spec;
ghost use Rattle.yspec_wide.specs.Standing.{standing};
ghost use Rattle.ybase_preorder.specs.Layout.{places};
ghost use Rattle.ybase_preorder.specs.View.{slots_in};
ghost use Rattle.ylink_grammar.specs.LanguageView.{language_view};
ghost use Rattle.ylink_grammar.specs.LinkView.{view};
ghost use Rattle.ylink_grammar.specs.SourceView.{source_view};
ghost use Rattle.yschema_cut.specs.Cutting.{TellsUnguarded};
ghost use Rattle.yschema_expand.specs.TableView.{parts_in};
ghost use Rattle.yschema_given.specs.Keeping.{are_kept_right};

use crate::nodes::own_holding_of;
use std::alloc::{AllocError, Global};
use ylink_grammar::{Language, Sources, is_when};
use yschema_expand::NodeTable;

/// Of each statement of a set, by its number, whether it is no `when`.
fn others_in(
    alloc: Global,
    language: &Language,
    sources: &Sources<'_>,
) -> Result<Vec<bool>, AllocError>
    ensures { IfOk result (λ others. others.items
        ≡ map (λ r. not (spec.is_when (language_view language.now) (source_view 0 r.label))) (slots_in sources.now.table)) }
{
    let slots = sources.slots();
    let mut others = Vec::with_capacity(alloc, slots.len())?;
    for slot in slots {
        others.push(!is_when(language, &slot.label))?;
    }
    Ok(others)
}

/// Of each node of a set of modules that stands, by its number, whether it bears no `when`, its own or that of a `uses` or an
/// `augment` that brings it.
pub fn unguarded_in(
    alloc: Global,
    language: &Language,
    sources: &Sources<'_>,
    table: &NodeTable<'_, '_>,
) -> Result<Vec<bool>, AllocError>
    ensures { let l = language_view language.now in let m = view sources.now in
        are_kept_right l m ≡ true → parts_in table.now ≡ places None 0 (standing l m (augmented_in l m).0)
        → IfOk result (λ unguarded. TellsUnguarded unguarded.items l (standing l m (augmented_in l m).0)) }
{
    let others = others_in(alloc, language, sources)?;
    own_holding_of(alloc, table.slots(), others.as_slice())
}
