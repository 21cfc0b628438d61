//! Why there is no report, and the line that says so.

ghost use Rattle.std.specs.Prelude.{◌≡◌, ◌++◌, codes, decimal, option_map, string_bytes};
ghost use Rattle.yspec_run.specs.Output.{aside_of, aside_text, document_part, printed, printed_with, refusal_part, stop_line};
ghost use Rattle.yspec_run.specs.Hint.{hinted};
ghost use Rattle.yspec_run.specs.Part.{reworded, spelled_part};
ghost use Rattle.ybase_output.specs.Writing.{Writes, side};
ghost use Rattle.yschema_model.specs.View as schema_view;
ghost use Rattle.yinst_tree.specs.View.{place_view};
ghost use Rattle.yapp_report.specs.Failing.{FromFile, besides_in, outcome_of, stop_view};
ghost use Rattle.yapp_report.specs.declared.failure.Failure.TheVariants.{Memory};

use crate::files::{FileFault, Unreadable};
use crate::reason::write_hinted_where;
use crate::status::{FAILED, REFUSED};
use itoa::Buffer;
use std::alloc::{AllocError, AllocFailed};
use std::fmt;
use thiserror::Error;
use ybase_output::{Sink, SinkFault, write_texts};
use ycheck::write_path;
use yinst_tree::{DocCode, Step};
use yschema::CompileCode;
use yschema_model::Schema;
use ytext::TextCode;

/// Where the kit's reader of JSON stops in a text, by line and column.
#[derive(Clone, Copy, Debug)]
pub struct Stop {
    pub line: usize,
    pub column: usize,
}

/// Why a command gives no report, and the line to which an editor jumps where that stands in place of its own. Files are named by
/// the words that were given.
#[derive(Drop, Error)]
pub enum Failure<'a> {
    /// A file couldn't be read.
    #[error("cannot read {name}")]
    Unread {
        name: &'a str,
        cause: Unreadable,
    },
    /// A module's text is refused in a line, with what is said of it.
    #[error("{name}:{line}: {code}")]
    Text {
        name: &'a str,
        code: TextCode,
        line: u32,
        hint: String,
        jump: Option<String>,
    },
    /// A module is refused in a line, with what is said of it.
    #[error("{name}:{line}: {code}")]
    Compile {
        name: &'a str,
        code: CompileCode,
        line: u32,
        hint: String,
        jump: Option<String>,
    },
    /// A document is refused at a node of a schema, with what is said of it, and where its reader stops if it isn't JSON.
    #[error("{name}: {code}")]
    Document {
        name: &'a str,
        schema: Schema,
        code: DocCode,
        place: Vec<Step>,
        hint: String,
        stop: Stop,
        jump: Option<String>,
    },
    /// A document gives a member twice, whose node is at a place, with what is said of it.
    #[error("{name}: J8")]
    Repeated {
        name: &'a str,
        schema: Schema,
        place: Vec<Step>,
        hint: String,
        jump: Option<String>,
    },
    /// No module has the name of the one that is to be drawn.
    #[error("{name}: no such module")]
    NoModule {
        name: &'a str,
    },
    /// A word is no code.
    #[error("{word}: no such code")]
    NoCode {
        word: &'a str,
    },
    #[error("memory")]
    Memory,
}

impl fmt::Debug for Failure<'_> {
    fn fmt<W: fmt::Write>(&self, f: &mut fmt::Formatter<W>) -> fmt::Result {
        write!(f, "{self}")
    }
}

impl<'a> From<AllocError> for Failure<'a> {
    ghost from_gives = { λ _ e. e ≡ Memory };

    fn from(_e: AllocError) -> Failure<'a> {
        Failure::Memory
    }
}

impl<'a, T: Drop> From<AllocFailed<T>> for Failure<'a> {
    ghost from_gives = { λ _ e. e ≡ Memory };

    fn from(_e: AllocFailed<T>) -> Failure<'a> {
        Failure::Memory
    }
}

impl<'a> Failure<'a> {
    /// A fault of the file of a name.
    pub fn of_file(name: &'a str, fault: FileFault) -> Failure<'a>
        ensures { FromFile name.entry.now fault result }
    {
        match fault {
            FileFault::Unread(cause) => Failure::Unread { name, cause },
            FileFault::Memory => Failure::Memory,
        }
    }

    /// The exit status that it brings.
    pub fn status(&self) -> u8
        ensures { result ≡ (outcome_of self.now).status }
    {
        match self {
            Failure::Unread { .. } | Failure::Memory => FAILED,
            Failure::Text { .. }
            | Failure::Compile { .. }
            | Failure::Document { .. }
            | Failure::Repeated { .. }
            | Failure::NoModule { .. }
            | Failure::NoCode { .. } => REFUSED,
        }
    }

    /// Writes its line; where that is wanted, below it why a code in it is told, and what the kit or the system says besides.
    pub fn write<S: Sink>(&self, with_reasons: bool, sink: &mut S) -> Result<(), SinkFault>
        ensures { Writes (side S.taken S.failures sink.old) (side S.taken S.failures sink.new)
            (printed_with (besides_in self.now) with_reasons (outcome_of self.now)).errors result }
    {
        self.write_part(with_reasons, sink)?;
        if with_reasons {
            self.write_aside(sink)
        } else {
            Ok(())
        }
    }

    /// Writes where the document stops being JSON, if it is refused for that, or why a file can't be read.
    fn write_aside<S: Sink>(&self, sink: &mut S) -> Result<(), SinkFault>
        ensures { Writes (side S.taken S.failures sink.old) (side S.taken S.failures sink.new)
            (aside_text (besides_in self.now) (outcome_of self.now).aside) result }
    {
        match self {
            Failure::Document {
                name,
                code,
                stop,
                ..
            } => write_stop_where(*name, code.number(), *stop, sink),
            Failure::Unread { cause, .. } => write_texts(sink, &["  ", cause.words(), ".\n"]),
            Failure::Text { .. }
            | Failure::Compile { .. }
            | Failure::Repeated { .. }
            | Failure::NoModule { .. }
            | Failure::NoCode { .. }
            | Failure::Memory => Ok(()),
        }
    }

    /// Writes its line, and below it why a code in it is told, where that is wanted.
    fn write_part<S: Sink>(&self, with_reasons: bool, sink: &mut S) -> Result<(), SinkFault>
        ensures { Writes (side S.taken S.failures sink.old) (side S.taken S.failures sink.new)
            (printed with_reasons (outcome_of self.now)).errors result }
    {
        match self {
            Failure::Unread { name, .. } => write_texts(sink, &["cannot read ", *name, "\n"]),
            Failure::Text {
                name,
                code,
                line,
                hint,
                jump,
            } => {
                write_refusal(
                    *name,
                    *line,
                    "L",
                    code.number(),
                    hint.as_str(),
                    jump,
                    with_reasons,
                    sink,
                )
            }
            Failure::Compile {
                name,
                code,
                line,
                hint,
                jump,
            } => {
                write_refusal(
                    *name,
                    *line,
                    "C",
                    code.number(),
                    hint.as_str(),
                    jump,
                    with_reasons,
                    sink,
                )
            }
            Failure::Document {
                name,
                schema,
                code,
                place,
                hint,
                jump,
                ..
            } => {
                write_document_refusal(
                    *name,
                    schema,
                    code.number(),
                    place,
                    hint.as_str(),
                    jump,
                    with_reasons,
                    sink,
                )
            }
            Failure::Repeated {
                name,
                schema,
                place,
                hint,
                jump,
            } => {
                write_document_refusal(
                    *name,
                    schema,
                    8,
                    place,
                    hint.as_str(),
                    jump,
                    with_reasons,
                    sink,
                )
            }
            Failure::NoModule { name } => write_texts(sink, &[*name, ": no such module", "\n"]),
            Failure::NoCode { word } => write_texts(sink, &[*word, ": no such code", "\n"]),
            Failure::Memory => write_texts(sink, &["memory\n"]),
        }
    }
}

/// Writes the line of a module's refusal, by the letter of the code and its number, or the one to which an editor jumps, what is
/// said of it, and why it is told.
fn write_refusal<S: Sink>(
    name: &str,
    line: u32,
    letter: &str,
    code: u8,
    hint: &str,
    jump: &Option<String>,
    with_reasons: bool,
    sink: &mut S,
) -> Result<(), SinkFault>
    ensures { Writes (side S.taken S.failures sink.old) (side S.taken S.failures sink.new)
        (spelled_part with_reasons (reworded (option_map string_bytes jump.now)
        (hinted hint.now (refusal_part name.now line letter.now code)))) result }
{
    write_told_line(name, line, letter, code, jump, sink)?;
    write_hinted_where(with_reasons, hint, letter, code, sink)
}

/// Writes the line of a module's refusal, or the one to which an editor jumps.
fn write_told_line<S: Sink>(
    name: &str,
    line: u32,
    letter: &str,
    code: u8,
    jump: &Option<String>,
    sink: &mut S,
) -> Result<(), SinkFault>
    ensures { Writes (side S.taken S.failures sink.old) (side S.taken S.failures sink.new)
        (reworded (option_map string_bytes jump.now) (refusal_part name.now line letter.now code)).text result }
{
    match jump {
        Some(text) => write_texts(sink, &[text.as_str()]),
        None => write_refusal_line(name, line, letter, code, sink),
    }
}

/// Writes the line of a module's refusal: `FILE:LINE: CODE`.
fn write_refusal_line<S: Sink>(
    name: &str,
    line: u32,
    letter: &str,
    code: u8,
    sink: &mut S,
) -> Result<(), SinkFault>
    ensures { Writes (side S.taken S.failures sink.old) (side S.taken S.failures sink.new)
        (refusal_part name.now line letter.now code).text result }
{
    let mut line_digits = Buffer::new();
    let mut code_digits = Buffer::new();
    let line_text = line_digits.format(line);
    let number = code_digits.format(code);
    write_texts(sink, &[name, ":", line_text, ": ", letter, number, "\n"])
}

/// Writes the line of a document's refusal, or the one to which an editor jumps, what is said of it, and why it is told.
fn write_document_refusal<S: Sink>(
    name: &str,
    schema: &Schema,
    code: u8,
    place: &[Step],
    hint: &str,
    jump: &Option<String>,
    with_reasons: bool,
    sink: &mut S,
) -> Result<(), SinkFault>
    ensures { Writes (side S.taken S.failures sink.old) (side S.taken S.failures sink.new)
        (spelled_part with_reasons (reworded (option_map string_bytes jump.now)
        (hinted hint.now (document_part (schema_view.view schema.now) name.now
        (record { code = code; place = place_view place.now }))))) result }
{
    write_told_document(name, schema, code, place, jump, sink)?;
    write_hinted_where(with_reasons, hint, "J", code, sink)
}

/// Writes the line of a document's refusal, or the one to which an editor jumps.
fn write_told_document<S: Sink>(
    name: &str,
    schema: &Schema,
    code: u8,
    place: &[Step],
    jump: &Option<String>,
    sink: &mut S,
) -> Result<(), SinkFault>
    ensures { Writes (side S.taken S.failures sink.old) (side S.taken S.failures sink.new)
        (reworded (option_map string_bytes jump.now) (document_part (schema_view.view schema.now) name.now
        (record { code = code; place = place_view place.now }))).text result }
{
    match jump {
        Some(text) => write_texts(sink, &[text.as_str()]),
        None => write_document_line(name, schema, code, place, sink),
    }
}

/// Writes where a document stops being JSON, if its refusal has that number.
fn write_stop_where<S: Sink>(
    name: &str,
    code: u8,
    stop: Stop,
    sink: &mut S,
) -> Result<(), SinkFault>
    ensures { Writes (side S.taken S.failures sink.old) (side S.taken S.failures sink.new)
        (aside_text (stop_view stop) (aside_of name.now code)) result }
{
    if code == 1 {
        write_stop_line(name, stop, sink)
    } else {
        Ok(())
    }
}

/// Writes where a document stops being JSON: `FILE:LINE:COLUMN: ..`.
fn write_stop_line<S: Sink>(name: &str, stop: Stop, sink: &mut S) -> Result<(), SinkFault>
    ensures { Writes (side S.taken S.failures sink.old) (side S.taken S.failures sink.new)
        (stop_line (stop_view stop) name.now) result }
{
    let mut line_digits = Buffer::new();
    let mut column_digits = Buffer::new();
    let line = line_digits.format(stop.line);
    let column = column_digits.format(stop.column);
    write_texts(
        sink,
        &[name, ":", line, ":", column, ": reading stops here\n"],
    )
}

/// Writes the line of a document's refusal: `FILE: CODE PLACE`.
fn write_document_line<S: Sink>(
    name: &str,
    schema: &Schema,
    code: u8,
    place: &[Step],
    sink: &mut S,
) -> Result<(), SinkFault>
    ensures { Writes (side S.taken S.failures sink.old) (side S.taken S.failures sink.new)
        (document_part (schema_view.view schema.now) name.now
        (record { code = code; place = place_view place.now })).text result }
{
    write_document_code(name, code, sink)?;
    match write_path(schema, place, sink) {
        Ok(()) => write_texts(sink, &["\n"]),
        Err(_) => Err(SinkFault),
    }
}

/// Writes the beginning of the line of a document's refusal: `FILE: CODE` and a space.
fn write_document_code<S: Sink>(name: &str, code: u8, sink: &mut S) -> Result<(), SinkFault>
    ensures { Writes (side S.taken S.failures sink.old) (side S.taken S.failures sink.new)
        (name.now ++ (codes ": J" ++ (decimal code ++ codes " "))) result }
{
    let mut digits = Buffer::new();
    write_texts(sink, &[name, ": J", digits.format(code), " "])
}
