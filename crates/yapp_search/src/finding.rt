//! The search.

ghost use Rattle.std.specs.Prelude.{◌≡◌, [], OnOk, map, string_bytes};
ghost use Rattle.yspec_search.specs.Search as spec;
ghost use Rattle.ylink_grammar.specs.LanguageView.{language_view};
ghost use Rattle.ylink_search.specs.WantedView.{wanted_view, wanted_views};
ghost use Rattle.yapp_search.specs.Reading.{store};
ghost use Rattle.yapp_search.specs.Looking.{GoesOn, IsSearch, IsSearchIn, Takes};

use crate::asking::read_all;
use crate::looking::{FoundFile, look_for};
use crate::starting::{Sought, add_wanted, start};
use std::alloc::{AllocError, Global};
use yapp_report::Files;
use ylink_grammar::Language;
use ylink_search::Wanted;

/// So many imports are looked at.
const IMPORT_LIMIT: usize = 1048576;

/// What is known and wanted once a file was found for a name; one whose text is refused ends the search.
fn take_found(
    alloc: Global,
    name: String,
    found: FoundFile,
    sought: &mut Sought,
) -> Result<(), AllocError>
    ensures { OnOk result (Takes (string_bytes name) found sought.old sought.new) }
{
    match &found.text {
        Some(module) => add_wanted(alloc, module, &mut sought.wanted)?,
        None => sought.wanted.clear(),
    }
    sought.known.push(name)?;
    sought.found.push(found.file)?;
    Ok(())
}

/// Looks for what an import asks for.
fn look_at<F: Files>(
    alloc: Global,
    language: &Language,
    folders: &[&str],
    wanted: Wanted,
    sought: &mut Sought,
    files: &mut F,
) -> Result<(), AllocError>
    ensures { GoesOn (language_view language.now) (map (λ f. f.now) folders.now) (wanted_view wanted) sought.old sought.new
        (store F.contents F.reads F.failures files.old)
        (store F.contents F.reads F.failures files.new) result }
{
    match look_for(alloc, language, folders, &wanted, &sought.known, files)? {
        Some(found) => take_found(alloc, wanted.name, found, sought),
        None => Ok(()),
    }
}

/// The files that are found of what is wanted, import by import.
fn search_on<F: Files>(
    alloc: Global,
    language: &Language,
    folders: &[&str],
    mut sought: Sought,
    files: &mut F,
) -> Result<Vec<String>, AllocError>
    requires { sought.found.items ≡ [] }
    ensures { IsSearchIn (λ found. map string_bytes found.items)
        (spec.search_on (language_view language.now) (map (λ f. f.now) folders.now) spec.import_limit
        (wanted_views sought.wanted.items) (map string_bytes sought.known.items))
        (store F.contents F.reads F.failures files.old)
        (store F.contents F.reads F.failures files.new) result }
{
    let mut count = 0;
    while count < IMPORT_LIMIT {
        match sought.wanted.pop_front() {
            Some(wanted) => look_at(alloc, language, folders, wanted, &mut sought, files)?,
            None => return Ok(sought.found),
        }
        count += 1;
    }
    Ok(sought.found)
}

/// The files that are found of what texts import; none where one is refused.
fn search_texts<F: Files>(
    alloc: Global,
    language: &Language,
    folders: &[&str],
    texts: &[Vec<u8>],
    files: &mut F,
) -> Result<Vec<String>, AllocError>
    ensures { IsSearchIn (λ found. map string_bytes found.items)
        (spec.search_for (language_view language.now) (map (λ f. f.now) folders.now) (map (λ t. t.items) texts.now))
        (store F.contents F.reads F.failures files.old)
        (store F.contents F.reads F.failures files.new) result }
{
    match start(alloc, language, texts)? {
        Some(sought) => search_on(alloc, language, folders, sought, files),
        None => Ok(Vec::new(alloc)),
    }
}

/// The files, in the order in which they are found, of the modules that named ones import and that aren't named, in some folders.
/// The named modules' files are read first; where one can't be, or its text is refused, nothing is looked for. Then file by file is
/// read as the search goes, one of which the text is refused ending it.
pub fn search<F: Files>(
    alloc: Global,
    language: &Language,
    folders: &[&str],
    names: &[&str],
    files: &mut F,
) -> Result<Vec<String>, AllocError>
    ensures { IsSearch (λ found. map string_bytes found.items)
        (language_view language.now) (map (λ f. f.now) folders.now) (map (λ n. n.now) names.now)
        (store F.contents F.reads F.failures files.old)
        (store F.contents F.reads F.failures files.new) result }
{
    match read_all(alloc, names, files)? {
        Some(texts) => search_texts(alloc, language, folders, &texts, files),
        None => Ok(Vec::new(alloc)),
    }
}
