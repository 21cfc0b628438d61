//! What a command found, and how it is printed.

ghost use Rattle.std.specs.Prelude.{◌≡◌, ◌++◌, codes, decimal, is_some, length, map, option_map, string_bytes, if◌then◌else◌};
ghost use Rattle.std.specs.List.{flat_map};
ghost use Rattle.yspec.specs.schema.Diagram.{diagram};
ghost use Rattle.yspec.specs.document.Faults.{line_of};
ghost use Rattle.yspec_run.specs.Output.{all_diagrams, before_diagram, placed_diagram, printed};
ghost use Rattle.yspec_run.specs.Part.{count_part, spelled, spelled_part};
ghost use Rattle.ysay_codes.specs.Codes.{explained};
ghost use Rattle.ysay_codes.specs.View.{explanation_view};
ghost use Rattle.ybase_output.specs.Writing.{Writes, side};
ghost use Rattle.yschema_model.specs.View as schema_view;
ghost use Rattle.ycheck.specs.View.{view, views};
ghost use Rattle.yspec_run.specs.Lines.{jumping, script_spot};
ghost use Rattle.yspec_run.specs.Script.{code_text};
ghost use Rattle.yapp_script.specs.Asked.{refusal_of, refused_part};
ghost use Rattle.yapp_report.specs.EditedView.{line_front, scripted_parts};
ghost use Rattle.yapp_report.specs.Explained.{IsExplained, explained_line, explained_lines, explanations_in, fault_lines};
ghost use Rattle.yapp_report.specs.Failing.{reported};
ghost use Rattle.yapp_report.specs.Saving.{saved_view};
ghost use Rattle.yapp_words.specs.Running.{WritesBoth};
ghost use Rattle.yapp_report.specs.declared.report.Report.TheVariants.{Document, Edited};
ghost use Rattle.ylive_list.specs.Seen.{seen_view};
ghost use Rattle.ylive_list.specs.Walked.{left};

use crate::edited::EditedDocument;
use crate::reason::write_hinted_where;
use crate::saving::SavedFile;
use crate::status::{FAULTY, GOOD};
use itoa::Buffer;
use yapp_script::{Refusal, RefusedLine};
use ybase_output::{Sink, SinkFault, write_texts};
use ycheck::{Fault, write_line, write_parts};
use yinst_tree::Tree;
use ylive::{Seen, Walk};
use ysay_codes::{Explanation, write_explanation, write_reason};
use yschema_model::Schema;

/// What a command found.
#[derive(Drop)]
pub enum Report {
    /// What is said of codes.
    Explanations(Vec<&'static Explanation>),
    /// How many nodes modules define.
    Nodes(usize),
    /// The diagram of a module, which is given by its number in the set.
    Diagram { schema: Schema, module: usize },
    /// The diagrams of all modules.
    Diagrams(Schema),
    Document(DocumentReport),
    /// A document after the lines of a script, of whose faults nothing is said.
    Edited(EditedDocument),
}

/// The faults of a document under its schema, in order, and the lines of its script that are refused. Where it is to be
/// dumped its text stands in place of the faults.
#[derive(Drop)]
pub struct DocumentReport {
    pub schema: Schema,
    pub tree: Tree,
    pub faults: Vec<Fault>,
    /// What is said of each fault, where that is to be printed.
    pub explanations: Option<Vec<String>>,
    pub refused: Vec<RefusedLine>,
    /// The name of the script, where its lines are told as an editor jumps to them.
    pub script: Option<String>,
    pub text: Option<String>,
    /// The file to which it is to be written at the end.
    pub saved: Option<SavedFile>,
}

impl Report {
    /// The exit status that it brings.
    pub fn status(&self) -> u8
        ensures { result ≡ (reported self.now).status }
    {
        match self {
            Report::Explanations(_)
            | Report::Nodes(_)
            | Report::Diagram { .. }
            | Report::Diagrams(_) => GOOD,
            Report::Document(report) => report.status(),
            Report::Edited(document) => document.status(),
        }
    }

    /// The file that is to be written at the end.
    pub fn into_saved(self) -> Option<SavedFile>
        ensures { option_map saved_view result ≡ (reported self).saved }
    {
        match self {
            Report::Document(report) => report.into_saved(),
            Report::Explanations(_)
            | Report::Nodes(_)
            | Report::Diagram { .. }
            | Report::Diagrams(_)
            | Report::Edited(_) => None,
        }
    }

    /// Writes the refused lines on the error side, and then what was found; where that is wanted, with the reasons.
    pub fn write<O: Sink, E: Sink>(
        &self,
        with_reasons: bool,
        output: &mut O,
        errors: &mut E,
    ) -> Result<(), SinkFault>
        requires { IsExplained with_reasons self.now }
        ensures { WritesBoth (side O.taken O.failures output.old)
            (side O.taken O.failures output.new)
            (side E.taken E.failures errors.old) (side E.taken E.failures errors.new)
            (printed with_reasons (reported self.now)) result }
    {
        match self {
            Report::Explanations(explanations) => write_explanations(explanations, output),
            Report::Nodes(count) => write_count(*count, " nodes\n", output),
            Report::Diagram { schema, module } => write_diagram(schema, *module, output),
            Report::Diagrams(schema) => write_diagrams(schema, output),
            Report::Document(report) => {
                write_refused(&report.refused, &report.script, with_reasons, errors)?;
                report.write_document(with_reasons, output)
            }
            Report::Edited(document) => {
                write_refused(&document.refused, &document.script, with_reasons, errors)?;
                document.write_faults(with_reasons, output)
            }
        }
    }
}

impl DocumentReport {
    /// The file that is to be written at the end.
    fn into_saved(self) -> Option<SavedFile>
        ensures { result ≡ self.saved }
    {
        let DocumentReport { saved, .. } = self;
        saved
    }

    /// The exit status that it brings.
    fn status(&self) -> u8
        ensures { result ≡ (reported (Document self.now)).status }
    {
        if self.faults.is_empty() && self.refused.is_empty() {
            GOOD
        } else {
            FAULTY
        }
    }

    /// Writes the faults and how many there are, or the text.
    fn write_document<S: Sink>(&self, with_reasons: bool, sink: &mut S) -> Result<(), SinkFault>
        requires { IsExplained with_reasons (Document self.now) }
        ensures { Writes (side S.taken S.failures sink.old) (side S.taken S.failures sink.new)
            (printed with_reasons (reported (Document self.now))).output result }
    {
        match &self.text {
            Some(text) => write_texts(sink, &[text.as_str(), "\n"]),
            None => self.write_faults(sink),
        }
    }

    /// Writes a line for each fault, with what is said of it where that is to be printed, and then how many there are.
    fn write_faults<S: Sink>(&self, sink: &mut S) -> Result<(), SinkFault>
        ensures { let faults = views self.now.faults.items in
            Writes (side S.taken S.failures sink.old) (side S.taken S.failures sink.new)
            (fault_lines (schema_view.view self.now.schema) faults (explanations_in self.now)
            ++ spelled_part (is_some (explanations_in self.now)) (count_part (length faults))) result }
    {
        self.write_fault_lines(sink)?;
        let count = self.faults.as_slice().len();
        write_count(count, counted_faults(count, self.has_explanations()), sink)
    }

    /// Whether something is said of each fault.
    fn has_explanations(&self) -> bool
        ensures { result ≡ is_some (explanations_in self.now) }
    {
        self.explanations.is_some()
    }

    /// Writes a line for each fault, with what is said of it where that is to be printed.
    fn write_fault_lines<S: Sink>(&self, sink: &mut S) -> Result<(), SinkFault>
        ensures { Writes (side S.taken S.failures sink.old) (side S.taken S.failures sink.new)
            (fault_lines (schema_view.view self.now.schema) (views self.now.faults.items)
            (explanations_in self.now)) result }
    {
        match &self.explanations {
            Some(texts) => write_explained_lines(&self.schema, &self.faults, texts, sink),
            None => write_lines(&self.schema, &self.faults, sink),
        }
    }
}

impl EditedDocument {
    /// The exit status that it brings.
    fn status(&self) -> u8
        ensures { result ≡ (reported (Edited self.now)).status }
    {
        if self.fault_count() == 0 && self.refused.is_empty() {
            GOOD
        } else {
            FAULTY
        }
    }

    /// Writes a line for each fault, as a walk gives them, and then how many there are.
    fn write_faults<S: Sink>(&self, with_reasons: bool, sink: &mut S) -> Result<(), SinkFault>
        requires { IsExplained with_reasons (Edited self.now) }
        ensures { Writes (side S.taken S.failures sink.old) (side S.taken S.failures sink.new)
            (printed with_reasons (reported (Edited self.now))).output result }
    {
        write_seen_lines(self.live.schema(), self.walk(), sink)?;
        write_count(self.fault_count(), " faults\n", sink)
    }
}

/// Writes the diagram of a module.
fn write_diagram<S: Sink>(schema: &Schema, module: usize, sink: &mut S) -> Result<(), SinkFault>
    ensures { Writes (side S.taken S.failures sink.old) (side S.taken S.failures sink.new)
        (diagram (schema_view.view schema.now) «module») result }
{
    match ydiagram::write(schema, module, sink) {
        Ok(()) => Ok(()),
        Err(_) => Err(SinkFault),
    }
}

/// Writes the diagrams of all modules.
fn write_diagrams<S: Sink>(schema: &Schema, sink: &mut S) -> Result<(), SinkFault>
    ensures { Writes (side S.taken S.failures sink.old) (side S.taken S.failures sink.new)
        (all_diagrams (schema_view.view schema.now)) result }
{
    for module in 0..schema.modules() {
        write_placed_diagram(schema, module, sink)?;
    }
    Ok(())
}

/// Writes the diagram of a module behind those of the modules before it.
fn write_placed_diagram<S: Sink>(
    schema: &Schema,
    module: usize,
    sink: &mut S,
) -> Result<(), SinkFault>
    ensures { Writes (side S.taken S.failures sink.old) (side S.taken S.failures sink.new)
        (placed_diagram (schema_view.view schema.now) «module») result }
{
    write_gap(module, sink)?;
    write_diagram(schema, module, sink)
}

/// Writes the empty line before the diagram of a module, but for the first.
fn write_gap<S: Sink>(module: usize, sink: &mut S) -> Result<(), SinkFault>
    ensures { Writes (side S.taken S.failures sink.old) (side S.taken S.failures sink.new)
        (before_diagram «module») result }
{
    if 0 < module {
        write_texts(sink, &["\n"])
    } else {
        Ok(())
    }
}

/// Writes what is said of codes.
fn write_explanations<S: Sink>(
    explanations: &[&'static Explanation],
    sink: &mut S,
) -> Result<(), SinkFault>
    ensures { Writes (side S.taken S.failures sink.old) (side S.taken S.failures sink.new)
        (flat_map explained (map (λ e. explanation_view e.now) explanations.now)) result }
{
    for explanation in explanations {
        write_explanation(sink, *explanation)?;
    }
    Ok(())
}

/// Writes a line for each fault.
fn write_lines<S: Sink>(schema: &Schema, faults: &[Fault], sink: &mut S) -> Result<(), SinkFault>
    ensures { Writes (side S.taken S.failures sink.old) (side S.taken S.failures sink.new)
        (flat_map (line_of (schema_view.view schema.now)) (views faults.now)) result }
{
    for fault in faults {
        write_fault(schema, fault, sink)?;
    }
    Ok(())
}

/// Writes a line for each fault that a walk gives.
fn write_seen_lines<S: Sink>(schema: &Schema, walk: Walk<'_>, sink: &mut S) -> Result<(), SinkFault>
    ensures { Writes (side S.taken S.failures sink.old) (side S.taken S.failures sink.new)
        (flat_map (line_of (schema_view.view schema.now)) (left walk.entry)) result }
{
    for seen in walk {
        write_seen(schema, &seen, sink)?;
    }
    Ok(())
}

/// Writes a line for each fault, with what is said of it.
fn write_explained_lines<S: Sink>(
    schema: &Schema,
    faults: &[Fault],
    explanations: &[String],
    sink: &mut S,
) -> Result<(), SinkFault>
    ensures { Writes (side S.taken S.failures sink.old) (side S.taken S.failures sink.new)
        (explained_lines (schema_view.view schema.now) (views faults.now)
        (map string_bytes explanations.now)) result }
{
    let mut rest = explanations;
    for fault in faults {
        match rest.split_first() {
            Some((explanation, others)) => {
                write_explained(schema, fault, explanation.as_str(), sink)?;
                rest = others;
            }
            None => return Ok(()),
        }
    }
    Ok(())
}

/// Writes the line of a fault, what is said of it, and why its code is told.
fn write_explained<S: Sink>(
    schema: &Schema,
    fault: &Fault,
    explanation: &str,
    sink: &mut S,
) -> Result<(), SinkFault>
    ensures { Writes (side S.taken S.failures sink.old) (side S.taken S.failures sink.new)
        (explained_line (schema_view.view schema.now) (view fault.now) explanation.now) result }
{
    write_fault(schema, fault, sink)?;
    write_texts(sink, &[explanation])?;
    let mut digits = Buffer::new();
    write_reason(sink, "V", digits.format(fault.code.number()))
}

/// Writes the line of a fault.
fn write_fault<S: Sink>(schema: &Schema, fault: &Fault, sink: &mut S) -> Result<(), SinkFault>
    ensures { Writes (side S.taken S.failures sink.old) (side S.taken S.failures sink.new)
        (line_of (schema_view.view schema.now) (view fault.now)) result }
{
    match write_line(schema, fault, sink) {
        Ok(()) => Ok(()),
        Err(_) => Err(SinkFault),
    }
}

/// Writes the line of a fault that a walk gave.
fn write_seen<S: Sink>(schema: &Schema, seen: &Seen<'_>, sink: &mut S) -> Result<(), SinkFault>
    ensures { Writes (side S.taken S.failures sink.old) (side S.taken S.failures sink.new)
        (line_of (schema_view.view schema.now) (seen_view seen.now)) result }
{
    match write_parts(schema, seen.parts(), sink) {
        Ok(()) => Ok(()),
        Err(_) => Err(SinkFault),
    }
}

/// What stands behind a number of faults.
fn counted_faults(count: usize, with_reasons: bool) -> &'static str
    ensures { result.now ≡ (if with_reasons then (count_part count).reason else (count_part count).bare) }
{
    if with_reasons {
        if count == 1 { " fault\n" } else { " faults\n" }
    } else {
        " faults\n"
    }
}

/// Writes a number and what is counted.
fn write_count<S: Sink>(count: usize, counted: &str, sink: &mut S) -> Result<(), SinkFault>
    ensures { Writes (side S.taken S.failures sink.old) (side S.taken S.failures sink.new)
        (decimal count ++ counted.now) result }
{
    let mut digits = Buffer::new();
    write_texts(sink, &[digits.format(count), counted])
}

/// Writes refused lines.
fn write_refused<S: Sink>(
    lines: &[RefusedLine],
    script: &Option<String>,
    with_reasons: bool,
    sink: &mut S,
) -> Result<(), SinkFault>
    ensures { Writes (side S.taken S.failures sink.old) (side S.taken S.failures sink.new)
        (spelled with_reasons (scripted_parts (option_map string_bytes script.now) lines.now)) result }
{
    for line in lines {
        write_refused_line(line, script, with_reasons, sink)?;
    }
    Ok(())
}

/// Writes the line of a refused line, what is said of it, and why its code is told; the document's, where the value doesn't
/// fit.
fn write_refused_line<S: Sink>(
    line: &RefusedLine,
    script: &Option<String>,
    with_reasons: bool,
    sink: &mut S,
) -> Result<(), SinkFault>
    ensures { Writes (side S.taken S.failures sink.old) (side S.taken S.failures sink.new)
        (spelled_part with_reasons (jumping (script_spot (option_map string_bytes script.now)) (refused_part line.now))) result }
{
    write_refused_code(line, script, sink)?;
    let hint = line.hint.as_str();
    match line.refusal.value {
        Some(value) => write_hinted_where(with_reasons, hint, "J", value.number(), sink),
        None => write_hinted_where(with_reasons, hint, "E", line.refusal.code.number(), sink),
    }
}

/// Writes the line of a refused line: `line K: CODE`, or with the name of the script the one to which an editor jumps.
fn write_refused_code<S: Sink>(
    line: &RefusedLine,
    script: &Option<String>,
    sink: &mut S,
) -> Result<(), SinkFault>
    ensures { Writes (side S.taken S.failures sink.old) (side S.taken S.failures sink.new)
        (jumping (script_spot (option_map string_bytes script.now)) (refused_part line.now)).text result }
{
    write_line_front(line.number, script, sink)?;
    write_code(line.refusal, sink)
}

/// Writes what stands in front of the code of a refused line.
fn write_line_front<S: Sink>(
    number: usize,
    script: &Option<String>,
    sink: &mut S,
) -> Result<(), SinkFault>
    ensures { Writes (side S.taken S.failures sink.old) (side S.taken S.failures sink.new)
        (line_front (option_map string_bytes script.now) number) result }
{
    let mut digits = Buffer::new();
    let mut column_digits = Buffer::new();
    let number = digits.format(number);
    let column = column_digits.format(1usize);
    match script {
        Some(name) => write_texts(
            sink,
            &[name.as_str(), ":", number, ":", column, ": error: "],
        ),
        None => write_texts(sink, &["line ", number, ": "]),
    }
}

/// Writes the code of a refused line, and ends it: `E9`, or with that of the value `E10 J3`.
fn write_code<S: Sink>(refusal: Refusal, sink: &mut S) -> Result<(), SinkFault>
    ensures { Writes (side S.taken S.failures sink.old) (side S.taken S.failures sink.new)
        (code_text (refusal_of refusal) ++ codes "\n") result }
{
    let mut digits = Buffer::new();
    let code = digits.format(refusal.code.number());
    match refusal.value {
        Some(value) => {
            let mut value_digits = Buffer::new();
            let value = value_digits.format(value.number());
            write_texts(sink, &["E", code, " J", value, "\n"])
        }
        None => write_texts(sink, &["E", code, "\n"]),
    }
}
