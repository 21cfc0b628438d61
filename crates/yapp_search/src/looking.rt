//! Whether a file has the module that an import asks for, and the first that has.

ghost use Rattle.std.specs.Prelude.{◌≡◌, IfOk, map, string_bytes};
ghost use Rattle.std.specs.List.{list_any};
ghost use Rattle.yspec.specs.text.Text.{is_text};
ghost use Rattle.yspec_wide.specs.Texts.{module_in};
ghost use Rattle.yspec_search.specs.Search as spec;
ghost use Rattle.ylink_grammar.specs.LanguageView.{language_view};
ghost use Rattle.ylink_search.specs.WantedView.{wanted_view};
ghost use Rattle.yapp_search.specs.Reading.{store};
ghost use Rattle.yapp_search.specs.Looking.{Asks, IsMet, IsParsed, Looks, MeetsParsed};

use crate::asking::ask;
use std::alloc::{AllocError, Global};
use yapp_report::Files;
use ylink_grammar::Language;
use ylink_search::{Wanted, files_for, is_wanted};
use ytext::{Module, TextFault, parse_in};

/// A file that was found, with its module; none where its text is refused.
#[derive(Drop)]
pub(crate) struct FoundFile {
    pub file: String,
    pub text: Option<Module>,
}

/// The module of a text, where it isn't refused.
pub(crate) fn parsed(
    alloc: Global,
    language: &Language,
    text: &[u8],
) -> Result<Option<Module>, AllocError>
    ensures { IfOk result (λ m. IsParsed (module_in (language_view language.now) text.now) m) }
{
    match parse_in(alloc, text, language.reads_versions()) {
        Ok(module) => Ok(Some(module)),
        Err(TextFault::Refused { .. }) => Ok(None),
        Err(TextFault::Memory) => Err(AllocError),
    }
}

/// Whether a text has what is wanted; one that is refused is taken too, so that it is told.
fn meets(wanted: &Wanted, module: &Option<Module>) -> bool
    ensures { MeetsParsed (wanted_view wanted.now) module.now result }
{
    match module {
        Some(module) => is_wanted(wanted, module),
        None => true,
    }
}

/// The file of a name, if it has what is wanted by what it contains.
fn met(
    alloc: Global,
    language: &Language,
    wanted: &Wanted,
    file: &str,
    bytes: &[u8],
) -> Result<Option<FoundFile>, AllocError>
    ensures { IfOk result (λ f. IsMet (language_view language.now) (wanted_view wanted.now) file.now bytes.now f) }
{
    let text = parsed(alloc, language, bytes)?;
    if !meets(wanted, &text) {
        return Ok(None);
    }
    let file = String::from_str(alloc, file)?;
    Ok(Some(FoundFile { file, text }))
}

/// The file of a name, if it can be read and has what is wanted.
fn look_in<F: Files>(
    alloc: Global,
    language: &Language,
    wanted: &Wanted,
    file: &str,
    files: &mut F,
) -> Result<Option<FoundFile>, AllocError>
    ensures { Asks (language_view language.now) (wanted_view wanted.now) file.now
        (store F.contents F.reads F.failures files.old)
        (store F.contents F.reads F.failures files.new) result }
{
    match ask(file, files)? {
        Some(bytes) => met(alloc, language, wanted, file, &bytes),
        None => Ok(None),
    }
}

/// The first of some files that can be read and has what is wanted.
fn first_that_meets<F: Files>(
    alloc: Global,
    language: &Language,
    wanted: &Wanted,
    names: &[String],
    files: &mut F,
) -> Result<Option<FoundFile>, AllocError>
    ensures { Looks (language_view language.now)
        (spec.first_that_meets (language_view language.now) (wanted_view wanted.now) (map string_bytes names.now))
        (store F.contents F.reads F.failures files.old)
        (store F.contents F.reads F.failures files.new) result }
{
    let mut rest = names;
    while let Some((file, others)) = rest.split_first() {
        match look_in(alloc, language, wanted, file.as_str(), files)? {
            Some(found) => return Ok(Some(found)),
            None => rest = others,
        }
    }
    Ok(None)
}

/// Whether a module of a name is known.
fn is_known(known: &[String], name: &str) -> bool
    ensures { result ≡ list_any (is_text name.now) (map string_bytes known.now) }
{
    let mut rest = known;
    while let Some((other, others)) = rest.split_first() {
        if name == other.as_str() {
            return true;
        }
        rest = others;
    }
    false
}

/// The file of what is wanted, if its name isn't known and one is found.
pub(crate) fn look_for<F: Files>(
    alloc: Global,
    language: &Language,
    folders: &[&str],
    wanted: &Wanted,
    known: &[String],
    files: &mut F,
) -> Result<Option<FoundFile>, AllocError>
    ensures { let w = wanted_view wanted.now in Looks (language_view language.now)
        (spec.sought (list_any (is_text w.name) (map string_bytes known.now)) (language_view language.now)
        (map (λ f. f.now) folders.now) w)
        (store F.contents F.reads F.failures files.old)
        (store F.contents F.reads F.failures files.new) result }
{
    if is_known(known, wanted.name.as_str()) {
        return Ok(None);
    }
    let names = files_for(alloc, folders, wanted)?;
    first_that_meets(alloc, language, wanted, &names, files)
}
