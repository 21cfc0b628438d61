//! The language that the words of a command line name.

ghost use Rattle.std.specs.Prelude.{◌≡◌, ◌++◌, IfOk, is_some, map, option_map, string_bytes};
ghost use Rattle.clap.specs.Words.{found_of, rows_of};
ghost use Rattle.ylink_grammar.specs.LanguageView.{choosing_view, language_view, unjudged_view};
ghost use Rattle.yapp_profile.specs.Languages as spec;
ghost use Rattle.yapp_profile.specs.Languages.{choosing_of, choosings_of, features_named, language_of, names_module, profile_of, unfit_choosing, unfit_unjudged, unjudged_by, unjudged_word};

use clap::ArgMatches;
use std::alloc::{AllocError, Global};
use ylink_grammar::{Choosing, Language, Unjudged, Wide};

/// The name of the profile.
pub fn profile_in<'a>(found: &ArgMatches<'a>) -> &'a str
    ensures { result.now ≡ profile_of (rows_of (found_of found.now)) }
{
    found.get_str("profile").unwrap_or("core")
}

/// Whether a profile has this name.
pub fn is_profile(name: &str) -> bool
    ensures { result ≡ spec.is_profile name.now }
{
    name == "core" || name == "rfc"
}

/// The words of all `--features`.
fn choosings_in<'a>(alloc: Global, found: &ArgMatches<'a>) -> Result<Vec<&'a str>, AllocError>
    ensures { IfOk result (λ words. map (λ word. word.now) words.items
        ≡ choosings_of (rows_of (found_of found.now))) }
{
    Vec::from_slice(alloc, found.get_strs("features").unwrap_or(&[]))
}

/// The feature that a text names behind others, if it names one.
fn push_named(alloc: Global, names: &mut Vec<String>, text: &str) -> Result<(), AllocError>
    ensures { IfOk result (λ done. map string_bytes names.new.items
        ≡ map string_bytes names.old.items ++ spec.named_by text.now) }
{
    if text.is_empty() {
        return Ok(());
    }
    names.push(String::from_str(alloc, text)?)?;
    Ok(())
}

/// The features that texts name.
fn named_among(alloc: Global, texts: &[&str]) -> Result<Vec<String>, AllocError>
    ensures { IfOk result (λ names. map string_bytes names.items
        ≡ spec.named_among (map (λ text. text.now) texts.now)) }
{
    let mut names = Vec::new(alloc);
    for text in texts {
        push_named(alloc, &mut names, *text)?;
    }
    Ok(names)
}

/// The texts between the commas of one.
fn between_commas<'t>(alloc: Global, text: &'t str) -> Result<Vec<&'t str>, AllocError>
    ensures { IfOk result (λ texts. map (λ t. t.now) texts.items ≡ spec.between_commas text.entry.now) }
{
    text.split(',').collect(alloc)
}

/// The features that stand between the commas of a text.
fn features_in(alloc: Global, text: &str) -> Result<Vec<String>, AllocError>
    ensures { IfOk result (λ names. map string_bytes names.items ≡ features_named text.now) }
{
    let texts = between_commas(alloc, text)?;
    named_among(alloc, &texts)
}

/// The features of a module that a word chooses.
fn choosing_in(alloc: Global, word: &str) -> Result<Choosing, AllocError>
    ensures { IfOk result (λ c. choosing_view c ≡ choosing_of word.now) }
{
    match word.split_once(':') {
        Some((module_name, features)) => Ok(Choosing {
            module_name: String::from_str(alloc, module_name)?,
            features: features_in(alloc, features)?,
        }),
        None => Ok(Choosing {
            module_name: String::from_str(alloc, word)?,
            features: Vec::new(alloc),
        }),
    }
}

/// What words choose, in their order.
fn all_chosen(alloc: Global, words: &[&str]) -> Result<Vec<Choosing>, AllocError>
    ensures { IfOk result (λ cs. map choosing_view cs.items
        ≡ map choosing_of (map (λ word. word.now) words.now)) }
{
    let mut choosings = Vec::new(alloc);
    for word in words {
        choosings.push(choosing_in(alloc, *word)?)?;
    }
    Ok(choosings)
}

/// The word for the conditions that aren't judged.
fn unjudged_in<'a>(found: &ArgMatches<'a>) -> Option<&'a str>
    ensures { option_map (λ word. word.now) result ≡ unjudged_word (rows_of (found_of found.now)) }
{
    found.get_str("unjudged")
}

/// Whether a word names both conditions.
fn names_both(word: &str) -> bool
    ensures { result ≡ spec.names_both word.now }
{
    word == "must,when" || word == "when,must"
}

fn names_musts(word: &str) -> bool
    ensures { result ≡ spec.names_musts word.now }
{
    word == "must" || names_both(word)
}

fn names_whens(word: &str) -> bool
    ensures { result ≡ spec.names_whens word.now }
{
    word == "when" || names_both(word)
}

/// The conditions that a word names, if there is one.
fn unjudged_of(word: Option<&str>) -> Unjudged
    ensures { unjudged_view result ≡ unjudged_by (option_map (λ word. word.now) word.entry) }
{
    match word {
        Some(word) => Unjudged {
            musts: names_musts(word),
            whens: names_whens(word),
        },
        None => Unjudged {
            musts: false,
            whens: false,
        },
    }
}

/// A word, where it names other than the conditions that there are.
fn unfit_among(word: Option<&str>) -> Option<&str>
    ensures { option_map (λ word. word.now) result ≡ unfit_unjudged (option_map (λ word. word.now) word.entry) }
{
    match word {
        Some(word) => {
            if names_musts(word) || names_whens(word) {
                None
            } else {
                Some(word)
            }
        }
        None => None,
    }
}

/// A word of `--unjudged` that names other than the conditions that there are.
pub fn unfit_unjudged_in<'a>(found: &ArgMatches<'a>) -> Option<&'a str>
    ensures { option_map (λ word. word.now) result ≡ unfit_unjudged (unjudged_word (rows_of (found_of found.now))) }
{
    unfit_among(unjudged_in(found))
}

/// The language in which modules are to be read.
pub fn language_in(alloc: Global, found: &ArgMatches<'_>) -> Result<Language, AllocError>
    ensures { IfOk result (λ l. language_view l ≡ language_of (rows_of (found_of found.now))) }
{
    if profile_in(found) == "rfc" {
        let words = choosings_in(alloc, found)?;
        Ok(Language::Rfc(Wide {
            choosings: all_chosen(alloc, &words)?,
            unjudged: unjudged_of(unjudged_in(found)),
        }))
    } else {
        Ok(Language::Core)
    }
}

/// Whether a word has a colon behind a module's name.
fn names_a_module(word: &str) -> bool
    ensures { result ≡ names_module word.now }
{
    word.as_bytes().contains(&b':')
}

/// The first of some words that names no module.
fn first_unfit<'a>(words: &[&'a str]) -> Option<&'a str>
    ensures { option_map (λ word. word.now) result ≡ unfit_choosing (map (λ word. word.now) words.now) }
{
    for word in words {
        if !names_a_module(*word) {
            return Some(*word);
        }
    }
    None
}

/// A word of `--features` that names no module.
pub fn unfit_choosing_in<'a>(found: &ArgMatches<'a>) -> Option<&'a str>
    ensures { option_map (λ word. word.now) result ≡ unfit_choosing (choosings_of (rows_of (found_of found.now))) }
{
    first_unfit(found.get_strs("features").unwrap_or(&[]))
}

/// Whether there is a word.
fn has_words(words: &[&str]) -> bool
    ensures { result ≡ spec.is_some_word (map (λ word. word.now) words.now) }
{
    !words.is_empty()
}

/// Whether features of a module are chosen.
fn chooses_features(found: &ArgMatches<'_>) -> bool
    ensures { result ≡ spec.is_some_word (choosings_of (rows_of (found_of found.now))) }
{
    has_words(found.get_strs("features").unwrap_or(&[]))
}

/// Whether features are chosen under a profile without any.
pub fn chooses_in_core(found: &ArgMatches<'_>) -> bool
    ensures { result ≡ spec.chooses_in_core (rows_of (found_of found.now)) }
{
    profile_in(found) != "rfc" && chooses_features(found)
}

/// Whether conditions are named that aren't judged.
fn passes_over(found: &ArgMatches<'_>) -> bool
    ensures { result ≡ is_some (unjudged_word (rows_of (found_of found.now))) }
{
    unjudged_in(found).is_some()
}

/// Whether conditions aren't judged under a profile without any.
pub fn passes_in_core(found: &ArgMatches<'_>) -> bool
    ensures { result ≡ spec.passes_in_core (rows_of (found_of found.now)) }
{
    profile_in(found) != "rfc" && passes_over(found)
}
