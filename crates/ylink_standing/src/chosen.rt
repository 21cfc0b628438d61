//! Which features of each module are chosen, by their names (RFC 7950, 7.20.1).

ghost use Rattle.std.specs.Prelude.{◌≡◌, IfOk, is_some, map, string_bytes};
ghost use Rattle.std.specs.List.{list_any};
ghost use Rattle.yspec.specs.text.Text.{Text, is_text};
ghost use Rattle.ylink_names.specs.FirstNamedView.{named};

use std::alloc::{AllocError, Global};
use std::collections::BTreeMap;
use ylink_grammar::Choosing;
use ylink_names::FirstNamed;

/// The names of the features that are chosen of each module that is named.
#[derive(Drop)]
pub struct Chosen<'a> {
    by_module: BTreeMap<&'a str, FirstNamed<'a, ()>>,
}

/// The names of some features.
fn names_of<'a>(alloc: Global, features: &'a [String]) -> Result<FirstNamed<'a, ()>, AllocError>
    ensures { IfOk result (λ names. (name : Text) → is_some (named names name)
        ≡ list_any (is_text name) (map string_bytes features.entry.now)) }
{
    let mut names = FirstNamed::new(alloc);
    for feature in features {
        names.add(feature.as_str(), ())?;
    }
    Ok(names)
}

impl<'a> Chosen<'a> {
    ghost use Rattle.std.specs.Prelude.{◌≡◌, IfOk, OnOk, None, map};
    ghost use Rattle.yspec.specs.Forest.{first_of};
    ghost use Rattle.yspec.specs.text.Text.{Text};
    ghost use Rattle.yspec_wide.specs.Language as spec;
    ghost use Rattle.ylink_grammar.specs.LanguageView.{choosing_view};
    ghost use Rattle.ylink_standing.specs.ChosenView.{held_of, is_chosen_in, told_by};

    /// Those of some choosings, of which the first of a module counts.
    pub(crate) fn of(alloc: Global, choosings: &'a [Choosing]) -> Result<Chosen<'a>, AllocError>
        ensures { IfOk result (λ chosen. (module_name feature : Text)
            → is_chosen_in chosen module_name feature
            ≡ spec.is_chosen_of (map choosing_view choosings.entry.now) module_name feature) }
    {
        let mut chosen = Chosen::new(alloc);
        for choosing in choosings {
            chosen.add(alloc, choosing)?;
        }
        Ok(chosen)
    }

    /// Those of no module.
    fn new(alloc: Global) -> Chosen<'a>
        ensures { (module_name feature : Text) → held_of result module_name feature ≡ None }
    {
        Chosen {
            by_module: BTreeMap::new(alloc),
        }
    }

    /// Adds those of a module, unless it is named already.
    fn add(&mut self, alloc: Global, choosing: &'a Choosing) -> Result<(), AllocError>
        ensures { OnOk result ((module_name feature : Text) → held_of self.new module_name feature
            ≡ first_of (held_of self.old module_name feature)
            (told_by (choosing_view choosing.entry.now) module_name feature)) }
    {
        let module = choosing.module_name.as_str();
        if self.by_module.contains_key(module) {
            return Ok(());
        }
        let names = names_of(alloc, &choosing.features)?;
        self.by_module.insert(module, names)?;
        Ok(())
    }

    /// Whether a feature of a module is chosen; of a module that isn't named all are (RFC 7950, 7.20.1).
    pub(crate) fn is_chosen(&self, module_name: &str, feature: &str) -> bool
        ensures { result ≡ is_chosen_in self.now module_name.now feature.now }
    {
        match self.by_module.get(module_name) {
            Some(names) => names.get(feature).is_some(),
            None => true,
        }
    }
}
