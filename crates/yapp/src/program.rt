//! A run of the program.

ghost use Rattle.std.specs.Prelude.{◌≡◌, ◌⊎◌, [], map, string_bytes};
ghost use Rattle.yspec_run.specs.Output.{Printed, as_json_of};
ghost use Rattle.ybase_output.specs.Writing.{Side, side};
ghost use Rattle.ybase_talk.specs.Talk.{party};
ghost use Rattle.yapp_words.specs.Command.{asked_in, asked_view, asks_reasons, folders_in, refusals, view};
ghost use Rattle.yapp_words.specs.Running.{AnswersWords, Brings, memory_told};
ghost use Rattle.yapp_report.specs.Saving.{end_of};
ghost use Rattle.yapp.specs.Files.{store};
ghost use Rattle.yapp.specs.Requests as requests;
ghost use Rattle.yapp.specs.Searching.{DoesIn};
ghost use Rattle.yapp.specs.Sessions.{Does};

use crate::answering::answer;
use crate::opening::hold_session;
use crate::requests::{asked_with, search_asked};
use crate::saying::{refuse, show, tell, tell_memory};
use std::alloc::Global;
use yapp_report::{Ended, Files};
use yapp_words::{Asked, NoRequest, Request, read_words};
use ybase_output::Sink;
use ybase_talk::Caller;

/// Whether what is told is to be told as JSON.
fn is_json(request: &Request<'_>) -> bool
    ensures { result ≡ as_json_of (view request.now) }
{
    match request {
        Request::Explain { .. }
        | Request::Compile { .. }
        | Request::Tree { .. }
        | Request::Trees { .. } => false,
        Request::Validate { options, .. } | Request::Edit { options, .. } => options.as_json,
    }
}

/// Does what a command line asks for, and answers how that ends.
fn do_asked<F: Files, C: Caller, O: Sink, E: Sink>(
    alloc: Global,
    asked: &Asked<'_>,
    with_reasons: bool,
    files: &mut F,
    caller: &mut C,
    output: &mut O,
    errors: &mut E,
) -> Ended
    ensures reasons { result.with_reasons ≡ with_reasons }
    ensures does { Does (store F.contents F.reads F.failures files.old)
        (store F.contents F.reads F.failures files.new) (asked_view asked.now) with_reasons
        (party C.events C.failures caller.old) (party C.events C.failures caller.new)
        (side O.taken O.failures output.old) (side O.taken O.failures output.new)
        (side E.taken E.failures errors.old) (side E.taken E.failures errors.new) (end_of result) }
{
    match asked {
        Asked::Report(request, by_lines) => tell(
            alloc,
            answer(alloc, request, *by_lines, with_reasons, files),
            with_reasons,
            is_json(request),
            output,
            errors,
        ),
        Asked::Session(opening) => {
            hold_session(alloc, opening, with_reasons, files, caller, output, errors)
        }
    }
}

/// How a run ends for want of memory.
fn without_memory<E: Sink>(with_reasons: bool, errors: &mut E) -> Ended
    ensures reasons { result.with_reasons ≡ with_reasons }
    ensures tells { (output : Side) → Brings output output (side E.taken E.failures errors.old) (side E.taken E.failures errors.new)
        memory_told (end_of result) }
{
    Ended {
        status: tell_memory(errors),
        saved: None,
        with_reasons,
    }
}

/// Does what a command line asks for, with files that were found behind its modules.
fn do_with<F: Files, C: Caller, O: Sink, E: Sink>(
    alloc: Global,
    asked: Asked<'_>,
    found: &[String],
    with_reasons: bool,
    files: &mut F,
    caller: &mut C,
    output: &mut O,
    errors: &mut E,
) -> Ended
    ensures reasons { result.with_reasons ≡ with_reasons }
    ensures does { Does (store F.contents F.reads F.failures files.old)
        (store F.contents F.reads F.failures files.new) (requests.asked_with (asked_view asked.entry) (map string_bytes found.now)) with_reasons
        (party C.events C.failures caller.old) (party C.events C.failures caller.new)
        (side O.taken O.failures output.old) (side O.taken O.failures output.new)
        (side E.taken E.failures errors.old) (side E.taken E.failures errors.new) (end_of result) }
{
    match asked_with(asked, found) {
        Ok(asked) => do_asked(alloc, &asked, with_reasons, files, caller, output, errors),
        Err(_) => without_memory(with_reasons, errors),
    }
}

/// Does what a command line asks for. Where it names folders, its modules' files are read first, and then those in the folders, in
/// which modules are looked for that are imported and not named: what is found stands behind the named ones as if it were named.
fn do_line<F: Files, C: Caller, O: Sink, E: Sink>(
    alloc: Global,
    asked: Asked<'_>,
    folders: &[&str],
    with_reasons: bool,
    files: &mut F,
    caller: &mut C,
    output: &mut O,
    errors: &mut E,
) -> Ended
    ensures reasons { result.with_reasons ≡ with_reasons }
    ensures does { DoesIn (map (λ folder. folder.now) folders.now) (store F.contents F.reads F.failures files.old)
        (store F.contents F.reads F.failures files.new) (asked_view asked.entry) with_reasons
        (party C.events C.failures caller.old) (party C.events C.failures caller.new)
        (side O.taken O.failures output.old) (side O.taken O.failures output.new)
        (side E.taken E.failures errors.old) (side E.taken E.failures errors.new) (end_of result) }
{
    if folders.is_empty() {
        return do_asked(alloc, &asked, with_reasons, files, caller, output, errors);
    }
    match search_asked(alloc, &asked, folders, files) {
        Ok(found) => do_with(
            alloc,
            asked,
            &found,
            with_reasons,
            files,
            caller,
            output,
            errors,
        ),
        Err(_) => without_memory(with_reasons, errors),
    }
}

/// Runs the program on the words of a command line, the first of which is its name, and answers the exit status, with the
/// file that is to be written once the output is out. A session asks the caller for its requests, and answers them there. After a
/// failed write nothing more is written on either side, and no file. Where a document that isn't JSON stops being it, and why a
/// file can't be read, is what the kit and the system say, of which nothing else is said.
pub fn run<F: Files, C: Caller, O: Sink, E: Sink>(
    alloc: Global,
    words: &[String],
    files: &mut F,
    caller: &mut C,
    output: &mut O,
    errors: &mut E,
) -> Ended
    ensures taken { (refusals (map string_bytes words.now) ≡ [])
        → DoesIn (folders_in (map string_bytes words.now)) (store F.contents F.reads F.failures files.old)
        (store F.contents F.reads F.failures files.new) (asked_in (map string_bytes words.now))
        (asks_reasons (map string_bytes words.now)) (party C.events C.failures caller.old) (party C.events C.failures caller.new)
        (side O.taken O.failures output.old) (side O.taken O.failures output.new)
        (side E.taken E.failures errors.old) (side E.taken E.failures errors.new) (end_of result) }
    ensures words { ¬ (refusals (map string_bytes words.now) ≡ []) → (o : Printed)
        × AnswersWords (refusals (map string_bytes words.now)) o
        × Brings (side O.taken O.failures output.old) (side O.taken O.failures output.new)
        (side E.taken E.failures errors.old) (side E.taken E.failures errors.new) o (end_of result) }
    ensures reasons { (refusals (map string_bytes words.now) ≡ [])
        → (result.with_reasons ≡ asks_reasons (map string_bytes words.now)) ⊎ (result.status ≡ 4) }
    ensures untouched { ¬ (refusals (map string_bytes words.now) ≡ []) → files.new ≡ files.old }
    ensures unasked { ¬ (refusals (map string_bytes words.now) ≡ []) → caller.new ≡ caller.old }
{
    match read_words(alloc, words) {
        Ok(line) => do_line(
            alloc,
            line.asked,
            &line.folders,
            line.with_reasons,
            files,
            caller,
            output,
            errors,
        ),
        Err(NoRequest::Help(text)) => Ended::with_status(show(text.as_str(), output)),
        Err(NoRequest::Refused(text)) => Ended::with_status(refuse(text.as_str(), errors)),
        Err(NoRequest::Memory) => Ended::with_status(tell_memory(errors)),
    }
}
