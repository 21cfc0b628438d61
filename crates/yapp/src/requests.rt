//! What words ask for, with the files that are found behind their modules.

ghost use Rattle.std.specs.Prelude.{◌≡◌, ◌++◌, IfOk, map, string_bytes};
ghost use Rattle.yapp_words.specs.Command.{asked_view, opening_view, view};
ghost use Rattle.yapp_search.specs.Reading.{store};
ghost use Rattle.yapp_search.specs.Looking.{IsSearch};
ghost use Rattle.yapp.specs.Requests as spec;

use std::alloc::{AllocError, Global};
use yapp_report::Files;
use yapp_search::search;
use yapp_words::{Asked, Opening, Request};
use ylink_grammar::Language;

/// Names with others behind them.
fn names_then<'a>(names: Vec<&'a str>, more: &'a [String]) -> Result<Vec<&'a str>, AllocError>
    ensures { IfOk result (λ all. map (λ n. n.now) all.items
        ≡ map (λ n. n.now) names.entry.items ++ map string_bytes more.entry.now) }
{
    let mut all = names;
    let mut rest = more;
    while let Some((name, others)) = rest.split_first() {
        all.push(name.as_str())?;
        rest = others;
    }
    Ok(all)
}

/// A request with more files behind its modules.
fn request_with<'a>(request: Request<'a>, more: &'a [String]) -> Result<Request<'a>, AllocError>
    ensures { IfOk result (λ r. view r ≡ spec.request_with (view request.entry) (map string_bytes more.entry.now)) }
{
    match request {
        Request::Explain { codes } => Ok(Request::Explain { codes }),
        Request::Compile { language, modules } => Ok(Request::Compile {
            language,
            modules: names_then(modules, more)?,
        }),
        Request::Tree {
            language,
            name,
            modules,
        } => Ok(Request::Tree {
            language,
            name,
            modules: names_then(modules, more)?,
        }),
        Request::Trees { language, modules } => Ok(Request::Trees {
            language,
            modules: names_then(modules, more)?,
        }),
        Request::Validate {
            language,
            options,
            document,
            modules,
        } => Ok(Request::Validate {
            language,
            options,
            document,
            modules: names_then(modules, more)?,
        }),
        Request::Edit {
            language,
            options,
            document,
            script,
            modules,
        } => Ok(Request::Edit {
            language,
            options,
            document,
            script,
            modules: names_then(modules, more)?,
        }),
    }
}

/// A session with more files behind its modules.
fn opening_with<'a>(opening: Opening<'a>, more: &'a [String]) -> Result<Opening<'a>, AllocError>
    ensures { IfOk result (λ o. opening_view o ≡ spec.opening_with (opening_view opening.entry) (map string_bytes more.entry.now)) }
{
    Ok(Opening {
        language: opening.language,
        is_strict: opening.is_strict,
        remembers: opening.remembers,
        tells_changes: opening.tells_changes,
        of_configuration: opening.of_configuration,
        document: opening.document,
        modules: names_then(opening.modules, more)?,
    })
}

/// What words ask for, with more files behind their modules.
pub fn asked_with<'a>(asked: Asked<'a>, more: &'a [String]) -> Result<Asked<'a>, AllocError>
    ensures { IfOk result (λ a. asked_view a ≡ spec.asked_with (asked_view asked.entry) (map string_bytes more.entry.now)) }
{
    match asked {
        Asked::Report(request, by_lines) => {
            Ok(Asked::Report(request_with(request, more)?, by_lines))
        }
        Asked::Session(opening) => Ok(Asked::Session(opening_with(opening, more)?)),
    }
}

/// The files, in the order in which they are found, of the modules that a request's import and that it doesn't name.
fn search_request<F: Files>(
    alloc: Global,
    request: &Request<'_>,
    folders: &[&str],
    files: &mut F,
) -> Result<Vec<String>, AllocError>
    ensures { IsSearch (λ found. map string_bytes found.items)
        (spec.language_in (view request.now)) (map (λ f. f.now) folders.now) (spec.modules_in (view request.now))
        (store F.contents F.reads F.failures files.old)
        (store F.contents F.reads F.failures files.new) result }
{
    match request {
        Request::Explain { .. } => search(alloc, &Language::Core, folders, &[], files),
        Request::Compile { language, modules }
        | Request::Tree {
            language,
            modules,
            ..
        }
        | Request::Trees { language, modules }
        | Request::Validate {
            language,
            modules,
            ..
        }
        | Request::Edit {
            language,
            modules,
            ..
        } => search(alloc, language, folders, modules, files),
    }
}

/// The files, in the order in which they are found, of the modules that those of words import and that they don't name.
pub fn search_asked<F: Files>(
    alloc: Global,
    asked: &Asked<'_>,
    folders: &[&str],
    files: &mut F,
) -> Result<Vec<String>, AllocError>
    ensures { IsSearch (λ found. map string_bytes found.items)
        (spec.language_asked (asked_view asked.now)) (map (λ f. f.now) folders.now) (spec.modules_asked (asked_view asked.now))
        (store F.contents F.reads F.failures files.old)
        (store F.contents F.reads F.failures files.new) result }
{
    match asked {
        Asked::Report(request, _) => search_request(alloc, request, folders, files),
        Asked::Session(opening) => search(
            alloc,
            &opening.language,
            folders,
            &opening.modules,
            files,
        ),
    }
}
