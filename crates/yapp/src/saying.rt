//! What is told where a run ends.

ghost use Rattle.std.specs.Prelude.{◌≡◌, IfOk, OnErr, None, if◌then◌else◌, is_ok, option_map, string_bytes, true};
ghost use Rattle.yapp_report.specs.Failing.{besides_in, outcome_of};
ghost use Rattle.yapp_report.specs.Saving.{end_of};
ghost use Rattle.yapp.specs.Telling.{Tells, object_bytes, printed_so};
ghost use Rattle.ysay_json.specs.RefusalData.{refused_text};
ghost use Rattle.yspec_run.specs.Output.{printed};
ghost use Rattle.yapp_report.specs.Explained.{IsExplained};
ghost use Rattle.yapp.specs.Files.{came_to, found_as, said_besides};
ghost use Rattle.yapp_words.specs.Running.{Ends, WritesBoth, memory_told, refused};
ghost use Rattle.ybase_output.specs.Writing.{Writes, side};

use crate::unjudged::Found;
use std::alloc::{AllocError, Global};
use yapp_report::{Ended, FAILED, Failure, GOOD, MISUSED, ended_after, failure_object};
use ybase_output::{Sink, SinkFault, write_texts};

/// The exit status after something was to be written: another one where a write failed.
fn status_after(written: Result<(), SinkFault>, status: u8) -> u8
    ensures { result ≡ (if is_ok written then status else 4) }
{
    match written {
        Ok(()) => status,
        Err(SinkFault) => FAILED,
    }
}

/// Says that there is no memory.
pub fn tell_memory<E: Sink>(errors: &mut E) -> u8
    ensures { Ends (side E.taken E.failures errors.old) (side E.taken E.failures errors.new)
        memory_told.errors memory_told.status result }
{
    status_after(write_texts(errors, &["memory\n"]), FAILED)
}

/// Refuses a command line with a text.
pub fn refuse<E: Sink>(text: &str, errors: &mut E) -> u8
    ensures { Ends (side E.taken E.failures errors.old) (side E.taken E.failures errors.new)
        text.now (refused text.now).status result }
{
    status_after(write_texts(errors, &[text]), MISUSED)
}

/// Shows a text that was asked for.
pub(crate) fn show<O: Sink>(text: &str, output: &mut O) -> u8
    ensures { Ends (side O.taken O.failures output.old) (side O.taken O.failures output.new)
        text.now 0 result }
{
    status_after(write_texts(output, &[text]), GOOD)
}

/// The object that tells a failure too, where that is wanted.
fn object_where(
    alloc: Global,
    failure: &Failure<'_>,
    is_wanted: bool,
) -> Result<Option<String>, AllocError>
    ensures ok { IfOk result (λ text. option_map string_bytes text ≡ (if is_wanted then option_map
        refused_text (outcome_of failure.now).told else None)) }
    ensures err { OnErr result (is_wanted ≡ true) }
{
    if is_wanted {
        failure_object(alloc, failure)
    } else {
        Ok(None)
    }
}

/// Writes an object in a line, if there is one.
fn write_object<S: Sink>(object: &Option<String>, sink: &mut S) -> Result<(), SinkFault>
    ensures { Writes (side S.taken S.failures sink.old) (side S.taken S.failures sink.new)
        (object_bytes (option_map string_bytes object.now)) result }
{
    match object {
        Some(text) => write_texts(sink, &[text.as_str(), "\n"]),
        None => Ok(()),
    }
}

/// Writes a failure on the error side, and then the object that tells it too, if there is one.
fn write_failure<O: Sink, E: Sink>(
    failure: &Failure<'_>,
    object: &Option<String>,
    with_reasons: bool,
    output: &mut O,
    errors: &mut E,
) -> Result<(), SinkFault>
    ensures { WritesBoth (side O.taken O.failures output.old) (side O.taken O.failures output.new)
        (side E.taken E.failures errors.old) (side E.taken E.failures errors.new)
        (printed_so with_reasons failure.now (option_map string_bytes object.now)) result }
{
    failure.write(with_reasons, errors)?;
    write_object(object, output)
}

/// Tells why nothing was found; where that is wanted, with the reasons, and by an object too, which is made before anything is
/// written. Answers how the run ends.
pub(crate) fn tell_failure<O: Sink, E: Sink>(
    alloc: Global,
    failure: &Failure<'_>,
    with_reasons: bool,
    as_json: bool,
    output: &mut O,
    errors: &mut E,
) -> Ended
    ensures reasons { result.with_reasons ≡ with_reasons }
    ensures tells { Tells (side O.taken O.failures output.old) (side O.taken O.failures output.new)
        (side E.taken E.failures errors.old) (side E.taken E.failures errors.new)
        with_reasons as_json (besides_in failure.now) (outcome_of failure.now) (end_of result) }
{
    match object_where(alloc, failure, as_json) {
        Ok(object) => {
            let written = write_failure(failure, &object, with_reasons, output, errors);
            ended_after(written, failure.status(), None, with_reasons)
        }
        Err(_) => Ended {
            status: tell_memory(errors),
            saved: None,
            with_reasons,
        },
    }
}

/// Writes what is said of conditions that weren't judged, and then what was found.
fn write_found<O: Sink, E: Sink>(
    found: &Found,
    with_reasons: bool,
    output: &mut O,
    errors: &mut E,
) -> Result<(), SinkFault>
    requires { IsExplained with_reasons found.now.report }
    ensures { WritesBoth (side O.taken O.failures output.old) (side O.taken O.failures output.new)
        (side E.taken E.failures errors.old) (side E.taken E.failures errors.new)
        (printed with_reasons (found_as found.now)) result }
{
    write_texts(errors, &[found.note.as_str()])?;
    found.report.write(with_reasons, output, errors)
}

/// Tells what was found, or why nothing was; where that is wanted, with the reasons, and by an object too. Answers how the run
/// ends.
pub(crate) fn tell<O: Sink, E: Sink>(
    alloc: Global,
    found: Result<Found, Failure<'_>>,
    with_reasons: bool,
    as_json: bool,
    output: &mut O,
    errors: &mut E,
) -> Ended
    requires { IfOk found (λ f. IsExplained with_reasons f.report) }
    ensures reasons { result.with_reasons ≡ with_reasons }
    ensures tells { Tells (side O.taken O.failures output.old) (side O.taken O.failures output.new)
        (side E.taken E.failures errors.old) (side E.taken E.failures errors.new)
        with_reasons as_json (said_besides found.entry) (came_to found.entry) (end_of result) }
{
    match found {
        Ok(found) => {
            let written = write_found(&found, with_reasons, output, errors);
            let status = found.report.status();
            ended_after(written, status, found.report.into_saved(), with_reasons)
        }
        Err(failure) => tell_failure(alloc, &failure, with_reasons, as_json, output, errors),
    }
}
