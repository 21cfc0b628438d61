//! Which features of a set are chosen, by their numbers (RFC 7950, 7.20.1).

ghost use Rattle.std.specs.Prelude.{◌≡◌, IfOk, map};
ghost use Rattle.yspec.specs.Forest.{row};
ghost use Rattle.yspec.specs.linking.Source.{argument_in};
ghost use Rattle.ylink_grammar.specs.LanguageView.{language_view};
ghost use Rattle.ylink_grammar.specs.LinkView.{view};
ghost use Rattle.ylink_grammar.specs.SourceView.{source_view};
ghost use Rattle.ylink_standing.specs.ChosenView.{is_chosen_by, is_chosen_in, name_among};
ghost use Rattle.ylink_standing.specs.StandingView.{AreChosen};

use crate::chosen::Chosen;
use std::alloc::{AllocError, Global};
use ybase_preorder::Slot;
use ylink_grammar::{Language, Source, Sources, argument_of, is_feature};

/// The names of a set's modules.
fn module_names<'t>(alloc: Global, sources: &Sources<'t>) -> Result<Vec<&'t str>, AllocError>
    ensures { IfOk result (λ names. map (λ t. t.now) names.items
        ≡ map argument_in (row (view sources.now))) }
{
    let mut names = Vec::new(alloc);
    for top in sources.modules() {
        names.push(argument_of(top))?;
    }
    Ok(names)
}

/// The name of the module of a number; no text where there is no such module.
fn module_name<'t>(names: &[&'t str], home: usize) -> &'t str
    ensures { result.now ≡ name_among (map (λ t. t.now) names.now) home }
{
    match names.get(home) {
        Some(name) => *name,
        None => "",
    }
}

/// Whether a statement is a feature that is chosen, by the names of the modules.
fn is_chosen(
    language: &Language,
    chosen: &Chosen<'_>,
    names: &[&str],
    statement: &Source<'_>,
) -> bool
    ensures { result ≡ is_chosen_by (language_view language.now) (is_chosen_in chosen.now)
        (map (λ t. t.now) names.now) (source_view 0 statement.now) }
{
    is_feature(language, statement)
        && chosen.is_chosen(module_name(names, statement.home), statement.argument())
}

/// Which statements of a table are features that are chosen.
fn chosen_among(
    alloc: Global,
    language: &Language,
    chosen: &Chosen<'_>,
    names: &[&str],
    rows: &[Slot<Source<'_>>],
) -> Result<Vec<bool>, AllocError>
    ensures { IfOk result (λ made. made.items
        ≡ map (λ r. is_chosen_by (language_view language.now) (is_chosen_in chosen.now)
        (map (λ t. t.now) names.now) (source_view 0 r.label)) rows.now) }
{
    let mut made = Vec::new(alloc);
    for row in rows {
        made.push(is_chosen(language, chosen, names, &row.label))?;
    }
    Ok(made)
}

/// Of each statement of a set, by its number, whether it is a feature that is chosen (RFC 7950, 7.20.1). Under the core none is.
pub(crate) fn chosen_of(
    alloc: Global,
    language: &Language,
    sources: &Sources<'_>,
) -> Result<Vec<bool>, AllocError>
    ensures { IfOk result (λ chosen.
        AreChosen chosen.items (language_view language.now) (view sources.now)) }
{
    match language {
        Language::Core => Ok(Vec::new(alloc)),
        Language::Rfc(wide) => {
            let chosen = Chosen::of(alloc, wide.choosings.as_slice())?;
            let names = module_names(alloc, sources)?;
            chosen_among(alloc, language, &chosen, names.as_slice(), sources.slots())
        }
    }
}
