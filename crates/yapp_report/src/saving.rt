//! The file to which a document is written at the end of a run.

ghost use Rattle.std.specs.Prelude.{◌≡◌, ℕ, ◌+◌, List, Option, IfOk, OnErr, None, false, true, is_ok, option_map, if◌then◌else◌};
ghost use Rattle.yspec_run.specs.Output as spec;
ghost use Rattle.ybase_output.specs.Writing.{Writes, side};
ghost use Rattle.yapp_words.specs.Running.{Ends, broken, ended};
ghost use Rattle.yapp_report.specs.Saving as view;
ghost use Rattle.yapp_report.specs.Saving.{Saves, cause_line, end_of, saved_view, unsaved_text, unwritten_line, unwritten_text};

use crate::status::FAILED;
use thiserror::Error;
use ybase_output::{Sink, SinkFault, write_texts};

/// A file with what it is to contain.
#[derive(Debug, Drop)]
pub struct SavedFile {
    pub name: String,
    pub text: String,
}

/// How a run ends: with an exit status, with a file that is to be written once the output is out, and whether it is to be
/// said where that can't be written out.
#[derive(Debug, Drop)]
pub struct Ended {
    pub status: u8,
    pub saved: Option<SavedFile>,
    pub with_reasons: bool,
}

/// Why a file wasn't written.
#[derive(Clone, Copy, Debug, PartialEq, Eq, Error)]
pub enum Unsaved {
    /// What is written first, beside it, is there already.
    #[error("a part is there already")]
    PartThere,
    /// The same beside the file to which its name leads.
    #[error("a part of its target is there already")]
    TargetPartThere,
    /// Its folder isn't there.
    #[error("no such folder")]
    NoFolder,
    /// The program may not write it.
    #[error("permission is denied")]
    NoPermission,
    /// What has its name is no regular file.
    #[error("it is no regular file")]
    NoRegularFile,
    /// The system says another cause.
    #[error("the system can't write it")]
    Other,
    /// Memory ran out.
    #[error("memory ran out")]
    Memory,
}

impl Unsaved {
    ghost use Rattle.std.specs.Prelude.{◌≡◌};
    ghost use Rattle.yapp_report.specs.Saving.{is_memory, subject_of, words_of};

    /// The cause in words, behind what they are said of.
    pub fn words<'a>(self) -> &'a str
        ensures { result.now ≡ words_of self }
    {
        match self {
            Unsaved::PartThere => {
                ".part is there already: another run may be writing it; remove it if none is"
            }
            Unsaved::TargetPartThere => {
                "a .part is there already beside the file to which it leads: another run may be writing it; remove it if none is"
            }
            Unsaved::NoFolder => "no such folder",
            Unsaved::NoPermission => "permission is denied",
            Unsaved::NoRegularFile => "it is no regular file",
            Unsaved::Other => "the system can't write it",
            Unsaved::Memory => "memory ran out",
        }
    }

    /// Whether memory ran out.
    fn is_memory(self) -> bool
        ensures { result ≡ is_memory self }
    {
        match self {
            Unsaved::Memory => true,
            Unsaved::PartThere
            | Unsaved::TargetPartThere
            | Unsaved::NoFolder
            | Unsaved::NoPermission
            | Unsaved::NoRegularFile
            | Unsaved::Other => false,
        }
    }

    /// What they are said of, where it is named: a file that wasn't written has the name.
    fn subject<'a>(self, name: &'a str) -> &'a str
        ensures { result.now ≡ subject_of self name.entry.now }
    {
        match self {
            Unsaved::PartThere => name,
            Unsaved::TargetPartThere
            | Unsaved::NoFolder
            | Unsaved::NoPermission
            | Unsaved::NoRegularFile
            | Unsaved::Other
            | Unsaved::Memory => "",
        }
    }
}

/// Keeps files.
pub trait Shelf {
    ghost use Rattle.yapp_report.specs.Saving.{cause_in, followed_by, saved_view};
    ghost use Rattle.yapp_report.specs.declared.saving.Unsaved as declared;

    /// The files that were written so far, where it tells them.
    ghost written: { Self → Option (List spec.SavedFile) };

    /// How many of its calls failed.
    ghost failures: { Self → ℕ };

    /// Why its last call failed, if it did.
    ghost cause: { Self → Option declared.Unsaved };

    /// Writes a file whole, in place of the one of its name; or not at all.
    fn save(&mut self, file: &SavedFile) -> Result<(), Unsaved>
        ensures ok { IfOk result (λ _. written self.new ≡ followed_by (written self.old) (saved_view file.now)) }
        ensures err { OnErr result (written self.new ≡ written self.old) }
        ensures counted { failures self.new ≡ failures self.old + (if is_ok result then 0 else 1) }
        ensures cause { cause self.new ≡ cause_in result };
}

impl Ended {
    ghost use Rattle.std.specs.Prelude.{◌≡◌, false};
    ghost use Rattle.yapp_words.specs.Running.{broken, with_status};
    ghost use Rattle.yapp_report.specs.Saving.{end_of};

    /// An end with a status alone.
    pub fn with_status(status: u8) -> Ended
        ensures end { end_of result ≡ with_status status }
        ensures reasons { result.with_reasons ≡ false }
    {
        Ended {
            status,
            saved: None,
            with_reasons: false,
        }
    }

    /// The end of a run in which something failed.
    fn failed(with_reasons: bool) -> Ended
        ensures end { end_of result ≡ broken }
        ensures reasons { result.with_reasons ≡ with_reasons }
    {
        Ended {
            status: FAILED,
            saved: None,
            with_reasons,
        }
    }
}

/// The end of a run once something was to be written: where a write failed, another one without a file.
pub fn ended_after(
    written: Result<(), SinkFault>,
    status: u8,
    saved: Option<SavedFile>,
    with_reasons: bool,
) -> Ended
    ensures reasons { result.with_reasons ≡ with_reasons }
    ensures end { end_of result ≡ (if is_ok written then ended status (option_map saved_view saved) else
        broken) }
{
    match written {
        Ok(()) => Ended {
            status,
            saved,
            with_reasons,
        },
        Err(SinkFault) => Ended::failed(with_reasons),
    }
}

/// Says, where reasons are wanted, that the output couldn't be written out, and answers the exit status.
pub fn tell_unwritten<E: Sink>(ended: &Ended, errors: &mut E) -> u8
    ensures { Ends (side E.taken E.failures errors.old) (side E.taken E.failures errors.new)
        (unwritten_line ended.now.with_reasons) 4 result }
{
    if ended.with_reasons {
        tell_failure(errors)
    } else {
        FAILED
    }
}

fn tell_failure<E: Sink>(errors: &mut E) -> u8
    ensures { Ends (side E.taken E.failures errors.old) (side E.taken E.failures errors.new)
        (unwritten_line true) 4 result }
{
    match write_texts(errors, &["write failed\n"]) {
        Ok(()) | Err(SinkFault) => FAILED,
    }
}

/// Writes the file that is due at the end of a run, once its output is out, and answers the exit status. Where it can't be
/// written a line says so, and, where reasons are wanted, one below it why; where memory ran out the line of that.
pub fn save<S: Shelf, E: Sink>(ended: &Ended, shelf: &mut S, errors: &mut E) -> u8
    ensures { Saves ended.now.with_reasons (end_of ended.now).saved ended.now.status
        (view.shelf S.written S.failures S.cause shelf.old) (view.shelf S.written S.failures S.cause shelf.new)
        (side E.taken E.failures errors.old) (side E.taken E.failures errors.new) result }
{
    match &ended.saved {
        None => ended.status,
        Some(file) => match shelf.save(file) {
            Ok(()) => ended.status,
            Err(cause) => tell_unsaved(file.name.as_str(), cause, ended.with_reasons, errors),
        },
    }
}

/// Says that the file of a name wasn't written, and answers the exit status.
fn tell_unsaved<E: Sink>(name: &str, cause: Unsaved, with_reasons: bool, errors: &mut E) -> u8
    ensures { Ends (side E.taken E.failures errors.old) (side E.taken E.failures errors.new)
        (unsaved_text with_reasons cause name.now) 4 result }
{
    // The status is the same where the lines can't be written either.
    match write_unsaved(name, cause, with_reasons, errors) {
        Ok(()) | Err(SinkFault) => FAILED,
    }
}

/// Writes the line of a file that wasn't written, and, where reasons are wanted, the one below it; of want of memory the line
/// of that.
fn write_unsaved<S: Sink>(
    name: &str,
    cause: Unsaved,
    with_reasons: bool,
    sink: &mut S,
) -> Result<(), SinkFault>
    ensures { Writes (side S.taken S.failures sink.old) (side S.taken S.failures sink.new)
        (unsaved_text with_reasons cause name.now) result }
{
    if cause.is_memory() {
        write_texts(sink, &["memory\n"])
    } else {
        write_unwritten(name, cause, with_reasons, sink)
    }
}

/// Writes the line of a file that wasn't written, and, where reasons are wanted, the one below it.
fn write_unwritten<S: Sink>(
    name: &str,
    cause: Unsaved,
    with_reasons: bool,
    sink: &mut S,
) -> Result<(), SinkFault>
    ensures { Writes (side S.taken S.failures sink.old) (side S.taken S.failures sink.new)
        (unwritten_text with_reasons cause name.now) result }
{
    write_texts(sink, &["cannot write ", name, "\n"])?;
    if with_reasons {
        write_cause(name, cause, sink)
    } else {
        Ok(())
    }
}

/// Writes why the file of a name wasn't written.
fn write_cause<S: Sink>(name: &str, cause: Unsaved, sink: &mut S) -> Result<(), SinkFault>
    ensures { Writes (side S.taken S.failures sink.old) (side S.taken S.failures sink.new)
        (cause_line cause name.now) result }
{
    write_texts(sink, &["  ", cause.subject(name), cause.words(), ".\n"])
}
