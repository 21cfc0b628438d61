//! The modules of a row, and the language that it says.

use std::alloc::{AllocError, Global};
use ylink_grammar::{Choosing, Language, Unjudged, Wide};
use ytext::{Module, TextFault, parse};

fn features_of(alloc: Global, names: &str) -> Result<Vec<String>, AllocError> {
    let mut features = Vec::new(alloc);
    for name in names.split(',') {
        if !name.is_empty() {
            features.push(String::from_str(alloc, name)?)?;
        }
    }
    Ok(features)
}

// Whether one of some words is this one.
fn has_word(words: &str, word: &str) -> bool {
    for other in words.split(' ') {
        if other == word {
            return true;
        }
    }
    false
}

// Puts a word `m:f,g` behind others; any other word is passed over.
fn push_choosing(
    alloc: Global,
    choosings: &mut Vec<Choosing>,
    word: &str,
) -> Result<(), AllocError> {
    match word.split_once(':') {
        Some((name, names)) => {
            let module_name = String::from_str(alloc, name)?;
            let features = features_of(alloc, names)?;
            choosings.push(Choosing {
                module_name,
                features,
            })?;
            Ok(())
        }
        None => Ok(()),
    }
}

/// The language in which features are chosen of some modules, as `m:f,g n:` says; in `all` of none. In `must` and `when` these
/// aren't judged.
pub(crate) fn language_of(alloc: Global, words: &str) -> Result<Language, AllocError> {
    let mut choosings = Vec::new(alloc);
    for word in words.split(' ') {
        push_choosing(alloc, &mut choosings, word)?;
    }
    Ok(Language::Rfc(Wide {
        choosings,
        unjudged: Unjudged {
            musts: has_word(words, "must"),
            whens: has_word(words, "when"),
        },
    }))
}

/// The language in which all features are chosen.
pub(crate) fn with_all_features(alloc: Global) -> Language {
    Language::rfc_with(Vec::new(alloc))
}

// Statements of a row, in which `|` stands for a line feed.
fn push_statements(text: &mut String, statements: &str) -> Result<(), AllocError> {
    for letter in statements.chars() {
        text.push(if letter == '|' { '\n' } else { letter })?;
    }
    Ok(())
}

fn push_head(text: &mut String, name: &str, version: &str) -> Result<(), AllocError> {
    for part in ["module ", name, " {\n namespace urn;\n prefix ", name, ";"] {
        text.push_str(part)?;
    }
    if !version.is_empty() {
        for part in [" yang-version ", version, ";"] {
            text.push_str(part)?;
        }
    }
    text.push('\n')
}

/// A module of these statements, the first of which stands in line 4; one without a version has no `yang-version`.
pub(crate) fn module_text(
    alloc: Global,
    name: &str,
    version: &str,
    statements: &str,
) -> Result<String, AllocError> {
    let mut text = String::new(alloc);
    push_head(&mut text, name, version)?;
    push_statements(&mut text, statements)?;
    text.push('}')?;
    Ok(text)
}

/// Puts a module behind others, unless its text is refused. Nothing for want of memory.
pub(crate) fn push_module(alloc: Global, modules: &mut Vec<Module>, text: &str) -> Option<()> {
    match parse(alloc, text.as_bytes()) {
        Ok(module) => modules.push(module).ok(),
        Err(TextFault::Memory) => None,
        Err(_) => Some(()),
    }
}

/// The module named m of a version and statements.
pub(crate) fn module_of(alloc: Global, version: &str, statements: &str) -> Option<Vec<Module>> {
    let text = module_text(alloc, "m", version, statements).ok()?;
    let mut modules = Vec::new(alloc);
    push_module(alloc, &mut modules, text.as_str())?;
    Some(modules)
}

// Puts a module behind others, which a row has as `NAME:VERSION STATEMENTS`.
fn push_named(alloc: Global, modules: &mut Vec<Module>, part: &str) -> Option<()> {
    let (head, statements) = part.split_once(' ')?;
    let (name, version) = head.split_once(':')?;
    let text = module_text(alloc, name, version, statements).ok()?;
    push_module(alloc, modules, text.as_str())
}

/// The modules of a row, with ` ~ ` between them, each as `NAME:VERSION STATEMENTS`.
pub(crate) fn modules_of(alloc: Global, row: &str) -> Option<Vec<Module>> {
    let mut modules = Vec::new(alloc);
    for part in row.split(" ~ ") {
        push_named(alloc, &mut modules, part)?;
    }
    Some(modules)
}
