//! Which feature a name means (RFC 7950, 7.20.1 and 7.20.2).

ghost use Rattle.std.specs.Prelude.{◌≡◌, IfOk, OnOk};
ghost use Rattle.yspec.specs.Forest.{first_of};
ghost use Rattle.yspec.specs.text.Text.{Text};
ghost use Rattle.ybase_preorder.specs.View.{row_by, label_by};
ghost use Rattle.ylink_grammar.specs.LanguageView.{language_view};
ghost use Rattle.ylink_grammar.specs.SourceView.{source_view};
ghost use Rattle.ylink_names.specs.FirstNamedView.{named};
ghost use Rattle.ylink_features.specs.FeatureView.{feature_by, number_named};

use std::alloc::{AllocError, Global};
use ybase_preorder::{Node, Siblings};
use ylink_arguments::Name;
use ylink_grammar::{Language, Source, Sources, argument_of, is_feature};
use ylink_names::{FirstNamed, Prefixes};

/// The features of each module of a set, by the number of the module and their names.
#[derive(Drop)]
pub struct Features<'t> {
    by_module: Vec<FirstNamed<'t, u32>>,
}

/// Adds a statement, where it is a feature, behind those so far.
fn add_feature<'t>(
    numbers: &mut FirstNamed<'t, u32>,
    language: &Language,
    statement: Node<'_, Source<'t>>,
) -> Result<(), AllocError>
    ensures { OnOk result ((name : Text) → named numbers.new name
        ≡ first_of (named numbers.old name)
        (feature_by (language_view language.now) name (label_by source_view statement.entry))) }
{
    if !is_feature(language, statement.label()) {
        return Ok(());
    }
    numbers.add(argument_of(statement), statement.number())
}

/// The features of a module, by their names.
fn features_in<'t>(
    alloc: Global,
    language: &Language,
    body: Siblings<'_, Source<'t>>,
) -> Result<FirstNamed<'t, u32>, AllocError>
    ensures { IfOk result (λ numbers. (name : Text) → named numbers name
        ≡ number_named (language_view language.now) name (row_by source_view body.entry)) }
{
    let mut numbers = FirstNamed::new(alloc);
    for statement in body {
        add_feature(&mut numbers, language, statement)?;
    }
    Ok(numbers)
}

impl<'t> Features<'t> {
    ghost use Rattle.std.specs.Prelude.{◌≡◌, IfOk, option_map};
    ghost use Rattle.yspec.specs.Forest.{Forest};
    ghost use Rattle.yspec.specs.linking.Source as sources;
    ghost use Rattle.yspec_wide.specs.Features as spec;
    ghost use Rattle.yspec_wide.specs.Language as languages;
    ghost use Rattle.ylink_arguments.specs.NameView.{name_view};
    ghost use Rattle.ylink_grammar.specs.LanguageView.{language_view};
    ghost use Rattle.ylink_grammar.specs.LinkView.{view};
    ghost use Rattle.ylink_names.specs.PrefixView.{IsOf};
    ghost use Rattle.ylink_features.specs.FeatureView.{AreFeaturesOf, number_in};

    /// The features of a set's modules in a language.
    pub fn of(
        alloc: Global,
        language: &Language,
        sources: &Sources<'t>,
    ) -> Result<Features<'t>, AllocError>
        ensures { IfOk result (λ features.
            AreFeaturesOf features (language_view language.now) (view sources.now)) }
    {
        let mut by_module = Vec::new(alloc);
        for top in sources.modules() {
            by_module.push(features_in(alloc, language, top.children())?)?;
        }
        Ok(Features { by_module })
    }

    /// The number of the feature of a name in the module of a number.
    fn feature_in(&self, module: usize, name: &str) -> Option<u32>
        ensures { result ≡ number_in self.now «module» name.now }
    {
        self.by_module.get(module)?.get(name)
    }

    /// The number of the `feature` statement that a name means in a module, given what prefixes stand for (RFC 7950, 7.20.2).
    pub fn named(&self, prefixes: &Prefixes<'_>, home: usize, name: &Name<'_>) -> Option<u32>
        ensures { (language : languages.Language) (modules : Forest sources.Source)
            → IsOf prefixes.now modules → AreFeaturesOf self.now language modules
            → result ≡ option_map (λ f. f.source.number)
            (spec.feature_named language modules home (name_view name.now)) }
    {
        let module = match name.prefix {
            Some(prefix) => prefixes.module_meant(home, prefix)?,
            None => home,
        };
        self.feature_in(module, name.identifier)
    }
}
