//! What is wanted and known, by modules that were read.

ghost use Rattle.std.specs.Prelude.{◌≡◌, ◌∷◌, ◌++◌, [], IfOk, OnOk, map, string_bytes};
ghost use Rattle.yspec_search.specs.Search as spec;
ghost use Rattle.ytext.specs.View.{modules_view};
ghost use Rattle.ylink_grammar.specs.LanguageView.{language_view};
ghost use Rattle.ylink_search.specs.WantedView.{wanted_views};
ghost use Rattle.yapp_search.specs.Looking.{AddsModule, IsStart};

use crate::looking::parsed;
use std::alloc::{AllocError, Global};
use std::collections::VecDeque;
use ylink_grammar::Language;
use ylink_search::{Wanted, module_name, wanted_by_module};
use ytext::Module;

/// What is still wanted, in order, the names of the modules that are known, and the files that were found.
#[derive(Drop)]
pub(crate) struct Sought {
    pub wanted: VecDeque<Wanted>,
    pub known: Vec<String>,
    pub found: Vec<String>,
}

/// Adds what a module imports.
pub(crate) fn add_wanted(
    alloc: Global,
    module: &Module,
    wanted: &mut VecDeque<Wanted>,
) -> Result<(), AllocError>
    ensures { OnOk result (wanted_views wanted.new.items ≡ wanted_views wanted.old.items
        ++ spec.wanted_below (modules_view (module.now ∷ []))) }
{
    for import in wanted_by_module(alloc, module)? {
        wanted.push_back(import)?;
    }
    Ok(())
}

/// Adds what a module imports, and its name.
fn add_module(alloc: Global, module: &Module, sought: &mut Sought) -> Result<(), AllocError>
    ensures { OnOk result (AddsModule (modules_view (module.now ∷ [])) sought.old sought.new) }
{
    add_wanted(alloc, module, &mut sought.wanted)?;
    sought
        .known
        .push(String::from_str(alloc, module_name(module))?)?;
    Ok(())
}

/// What texts import and their names, where none is refused.
pub(crate) fn start(
    alloc: Global,
    language: &Language,
    texts: &[Vec<u8>],
) -> Result<Option<Sought>, AllocError>
    ensures { IfOk result (λ s. IsStart (language_view language.now) (map (λ t. t.items) texts.now) s) }
{
    let mut sought = Sought {
        wanted: VecDeque::new(alloc),
        known: Vec::new(alloc),
        found: Vec::new(alloc),
    };
    let mut rest = texts;
    while let Some((text, others)) = rest.split_first() {
        match parsed(alloc, language, text)? {
            Some(module) => add_module(alloc, &module, &mut sought)?,
            None => return Ok(None),
        }
        rest = others;
    }
    Ok(Some(sought))
}
