//! From a request to what was found.

ghost use Rattle.std.specs.Prelude.{◌≡◌, Bool, true, IfOk, List, map, position};
ghost use Rattle.yspec.specs.text.Text.{is_text};
ghost use Rattle.yspec.specs.text.Text.{Text};
ghost use Rattle.yspec.specs.document.Sorting.{IsSorted};
ghost use Rattle.yspec_run.specs.Output as requests;
ghost use Rattle.yspec_wide.specs.Language as languages;
ghost use Rattle.yspec_run.specs.Output.{Outcome, compilation, drawing, drawing_all, drawn, explanation, files_of, performed};
ghost use Rattle.yspec_run.specs.Lines as spec;
ghost use Rattle.yspec_run.specs.Lines.{performed_by, said_with, told_by};
ghost use Rattle.yinst_tree.specs.View.{tree_view};
ghost use Rattle.yschema_model.specs.View as schema_view;
ghost use Rattle.ylink_grammar.specs.LanguageView.{language_view};
ghost use Rattle.yapp_words.specs.Command.{options_view, view};
ghost use Rattle.yapp_report.specs.Explained.{HasNoDocument, IsExplained};
ghost use Rattle.yapp_report.specs.EditedView.{live_of, refused_in};
ghost use Rattle.yapp_report.specs.Failing.{FailsWith, LeadsTo, besides_in, reported, unsaid};
ghost use Rattle.yapp_report.specs.declared.report.Report.TheVariants as reports;
ghost use Rattle.yapp.specs.Files.{IsFound, LeadsBy, came_to, found_as, store};
ghost use Rattle.yapp.specs.Edited.{LeadsIn, by_script};
ghost use Rattle.yspec_run.specs.Unjudged.{noted_for};

use crate::contents::{names_of, read_files};
use crate::document::{edit_document, read_document, report_on, report_on_edited};
use crate::modules::compile_contents;
use crate::unjudged::{Found, noted_in, unnoted};
use std::alloc::{AllocError, Global};
use yapp_lines::{failure_by_lines, faults_by_lines};
use yapp_report::{DocumentReport, EditedDocument, Failure, Files, Report};
use yapp_words::{Options, Request};
use ylink_grammar::Language;
use ysay_codes::{all_explanations, explanations, first_unknown};
use yschema_model::Schema;

/// What is said of codes; of all where none is named.
fn explain<'a>(alloc: Global, codes: &[&'a str]) -> Result<Report, Failure<'a>>
    ensures leads { LeadsTo (explanation (map (λ c. c.now) codes.now)) reported result }
    ensures faultless { IfOk result HasNoDocument }
{
    if let Some(word) = first_unknown(alloc, codes)? {
        return Err(Failure::NoCode { word });
    }
    let explanations = if codes.is_empty() {
        all_explanations(alloc)?
    } else {
        explanations(alloc, codes)?
    };
    Ok(Report::Explanations(explanations))
}

/// How many nodes modules define, by the contents of their files.
fn count_nodes<'a>(
    alloc: Global,
    language: &Language,
    modules: &[&'a str],
    contents: &[Vec<u8>],
) -> Result<Report, Failure<'a>>
    ensures leads { LeadsTo (compilation (language_view language.now) (map (λ n. n.now) modules.now)
        (map (λ c. c.items) contents.now)) reported result }
    ensures faultless { IfOk result HasNoDocument }
{
    match compile_contents(alloc, language, modules, contents) {
        Ok(compiled) => Ok(Report::Nodes(compiled.value.nodes())),
        Err(failure) => Err(failure),
    }
}

/// The diagram of the module of a name.
fn diagram_of<'a>(schema: Schema, name: &'a str) -> Result<Report, Failure<'a>>
    ensures leads { let s = schema_view.view schema in
        LeadsTo (drawn s name.entry.now (position (λ m. is_text m.name name.entry.now) s.modules))
        reported result }
    ensures faultless { IfOk result HasNoDocument }
{
    match schema.module(name) {
        Some(module) => Ok(Report::Diagram { schema, module }),
        None => Err(Failure::NoModule { name }),
    }
}

/// The diagram of the module of a name, by the contents of the files of modules.
fn draw<'a>(
    alloc: Global,
    language: &Language,
    name: &'a str,
    modules: &[&'a str],
    contents: &[Vec<u8>],
) -> Result<Report, Failure<'a>>
    ensures leads { LeadsTo (drawing (language_view language.now) name.entry.now (map (λ n. n.now) modules.now)
        (map (λ c. c.items) contents.now)) reported result }
    ensures faultless { IfOk result HasNoDocument }
{
    match compile_contents(alloc, language, modules, contents) {
        Ok(compiled) => diagram_of(compiled.value, name),
        Err(failure) => Err(failure),
    }
}

/// The diagrams of all modules, by the contents of their files.
fn draw_all<'a>(
    alloc: Global,
    language: &Language,
    modules: &[&'a str],
    contents: &[Vec<u8>],
) -> Result<Report, Failure<'a>>
    ensures leads { LeadsTo (drawing_all (language_view language.now) (map (λ n. n.now) modules.now)
        (map (λ c. c.items) contents.now)) reported result }
    ensures faultless { IfOk result HasNoDocument }
{
    match compile_contents(alloc, language, modules, contents) {
        Ok(compiled) => Ok(Report::Diagrams(compiled.value)),
        Err(failure) => Err(failure),
    }
}

/// A report on a document, by lines where that is wanted.
fn told_by(
    alloc: Global,
    by_lines: bool,
    document: &str,
    names: &[&str],
    contents: &[Vec<u8>],
    report: DocumentReport,
) -> Result<DocumentReport, AllocError>
    requires { IsSorted (tree_view report.tree) }
    ensures told { (language : languages.Language) (options : requests.Options) (modules : List Text)
        → let request = requests.validate language options document.now modules in files_of request ≡ map (λ n. n.now) names.now
        → IfOk result (λ r. reported (reports.Document r)
        ≡ spec.told_by by_lines unsaid request (map (λ c. c.items) contents.now) (reported (reports.Document report))) }
    ensures explained { (with_reasons : Bool) → IsExplained with_reasons (reports.Document report)
        → IfOk result (λ r. IsExplained with_reasons (reports.Document r)) }
{
    if by_lines {
        faults_by_lines(alloc, document, names, contents, report)
    } else {
        Ok(report)
    }
}

/// A document after the lines of a script, whose name is told with the refused ones.
fn named(alloc: Global, script: &str, edited: EditedDocument) -> Result<EditedDocument, AllocError>
    ensures live { IfOk result (λ e. live_of e ≡ live_of edited) }
    ensures refused { IfOk result (λ e. refused_in e ≡ by_script true script.now (refused_in edited)) }
{
    let name = String::from_str(alloc, script)?;
    let mut named = edited;
    named.script = Some(name);
    Ok(named)
}

/// The same where refused lines are told by lines.
fn scripted(
    alloc: Global,
    by_lines: bool,
    script: &str,
    edited: EditedDocument,
) -> Result<EditedDocument, AllocError>
    ensures live { IfOk result (λ e. live_of e ≡ live_of edited) }
    ensures refused { IfOk result (λ e. refused_in e ≡ by_script by_lines script.now (refused_in edited)) }
{
    if by_lines {
        named(alloc, script, edited)
    } else {
        Ok(edited)
    }
}

/// The faults of a document under modules, by the contents of the files.
fn validate<'a>(
    alloc: Global,
    language: &Language,
    options: Options<'a>,
    document: &'a str,
    modules: &[&'a str],
    names: &[&'a str],
    contents: &[Vec<u8>],
    by_lines: bool,
    with_reasons: bool,
) -> Result<Report, Failure<'a>>
    ensures leads { let request = requests.validate (language_view language.now) (options_view options.entry) document.entry.now (map (λ n. n.now) modules.now) in
        files_of request ≡ map (λ n. n.now) names.now → LeadsIn (told_by by_lines unsaid request (map (λ c. c.items) contents.now))
        (performed request (map (λ c. c.items) contents.now)) result }
    ensures explained { IfOk result (IsExplained with_reasons) }
{
    match read_document(
        alloc,
        language,
        options.is_strict,
        document,
        modules,
        contents,
    ) {
        Ok(read) => {
            let report = report_on(alloc, read.value, with_reasons, options)?;
            let report = told_by(alloc, by_lines, document, names, contents, report)?;
            Ok(Report::Document(report))
        }
        Err(failure) => Err(failure),
    }
}

/// The same after the edits of a script.
fn edit<'a>(
    alloc: Global,
    language: &Language,
    options: Options<'a>,
    document: &'a str,
    script: &'a str,
    modules: &[&'a str],
    contents: &[Vec<u8>],
    by_lines: bool,
    with_reasons: bool,
) -> Result<Report, Failure<'a>>
    ensures leads { let request = requests.edit (language_view language.now) (options_view options.entry) document.entry.now script.entry.now (map (λ n. n.now) modules.now) in
        LeadsIn (told_by by_lines unsaid request (map (λ c. c.items) contents.now))
        (performed request (map (λ c. c.items) contents.now)) result }
    ensures explained { IfOk result (IsExplained with_reasons) }
{
    match edit_document(
        alloc,
        language,
        options.is_strict,
        document,
        modules,
        contents,
    ) {
        Ok(edited) => {
            let edited = scripted(alloc, by_lines, script, edited)?;
            Ok(report_on_edited(alloc, edited, with_reasons, options)?)
        }
        Err(failure) => Err(failure),
    }
}

/// What a request comes to, by the names of its files and what they contain; where that is wanted, by lines, and with what is said
/// of faults.
fn perform<'a>(
    alloc: Global,
    request: &Request<'a>,
    names: &[&'a str],
    contents: &[Vec<u8>],
    by_lines: bool,
    with_reasons: bool,
) -> Result<Report, Failure<'a>>
    ensures leads { files_of (view request.now) ≡ map (λ n. n.now) names.now
        → LeadsIn (told_by by_lines unsaid (view request.now) (map (λ c. c.items) contents.now))
        (performed (view request.now) (map (λ c. c.items) contents.now)) result }
    ensures explained { IfOk result (IsExplained with_reasons) }
{
    match request {
        Request::Explain { codes } => explain(alloc, codes),
        Request::Compile { language, modules } => count_nodes(alloc, language, modules, contents),
        Request::Tree {
            language,
            name,
            modules,
        } => draw(alloc, language, *name, modules, contents),
        Request::Trees { language, modules } => draw_all(alloc, language, modules, contents),
        Request::Validate {
            language,
            options,
            document,
            modules,
        } => validate(
            alloc,
            language,
            *options,
            *document,
            modules,
            names,
            contents,
            by_lines,
            with_reasons,
        ),
        Request::Edit {
            language,
            options,
            document,
            script,
            modules,
        } => edit(
            alloc,
            language,
            *options,
            *document,
            *script,
            modules,
            contents,
            by_lines,
            with_reasons,
        ),
    }
}

/// Why there is no report, by lines where that is wanted.
fn failed_by<'a>(
    alloc: Global,
    by_lines: bool,
    names: &[&'a str],
    contents: &[Vec<u8>],
    failure: Failure<'a>,
) -> Failure<'a>
    ensures { (request : requests.Request) (o : Outcome) → files_of request ≡ map (λ n. n.now) names.now → FailsWith failure.entry o
        → FailsWith result (spec.told_by by_lines (besides_in failure.entry) request (map (λ c. c.items) contents.now) o) }
{
    if by_lines {
        match failure_by_lines(alloc, names, contents, failure) {
            Ok(failure) => failure,
            Err(_) => Failure::Memory,
        }
    } else {
        failure
    }
}

/// What a request comes to, or why there is nothing, by lines where that is wanted.
fn perform_by<'a>(
    alloc: Global,
    request: &Request<'a>,
    names: &[&'a str],
    contents: &[Vec<u8>],
    by_lines: bool,
    with_reasons: bool,
) -> Result<Report, Failure<'a>>
    ensures leads { files_of (view request.now) ≡ map (λ n. n.now) names.now
        → LeadsBy (λ stop. performed_by by_lines stop (view request.now) (map (λ c. c.items) contents.now)) reported result }
    ensures explained { IfOk result (IsExplained with_reasons) }
{
    match perform(alloc, request, names, contents, by_lines, with_reasons) {
        Ok(report) => Ok(report),
        Err(failure) => Err(failed_by(alloc, by_lines, names, contents, failure)),
    }
}

/// What is found of a request, with what is said of conditions that aren't judged.
fn noted_by<'a>(
    alloc: Global,
    request: &Request<'a>,
    contents: &[Vec<u8>],
    report: Report,
) -> Result<Found, Failure<'a>>
    ensures leads { LeadsTo (noted_for (view request.now) (map (λ c. c.items) contents.now) (reported report)) found_as result }
    ensures keeps { IfOk result (λ found. found.report ≡ report) }
{
    match request {
        Request::Explain { .. } => Ok(unnoted(alloc, report)),
        Request::Compile { language, modules } => {
            noted_in(alloc, language, modules, contents, report)
        }
        Request::Tree {
            language,
            modules,
            ..
        } => noted_in(alloc, language, modules, contents, report),
        Request::Trees { language, modules } => {
            noted_in(alloc, language, modules, contents, report)
        }
        Request::Validate {
            language,
            modules,
            ..
        } => noted_in(alloc, language, modules, contents, report),
        Request::Edit {
            language,
            modules,
            ..
        } => noted_in(alloc, language, modules, contents, report),
    }
}

/// The same of what a request comes to by the names of its files and what they contain.
fn find<'a>(
    alloc: Global,
    request: &Request<'a>,
    names: &[&'a str],
    contents: &[Vec<u8>],
    by_lines: bool,
    with_reasons: bool,
) -> Result<Found, Failure<'a>>
    ensures leads { files_of (view request.now) ≡ map (λ n. n.now) names.now
        → LeadsBy (λ stop. said_with by_lines stop (view request.now) (map (λ c. c.items) contents.now)) found_as result }
    ensures explained { IfOk result (λ found. IsExplained with_reasons found.report) }
{
    match perform_by(alloc, request, names, contents, by_lines, with_reasons) {
        Ok(report) => noted_by(alloc, request, contents, report),
        Err(failure) => Err(failure),
    }
}

/// What a request comes to. All files are read first: the modules in order, then the document, then the script. The first
/// file that can't be read, and then the first text, module or document that is refused, ends it. Where that is wanted, all is told
/// by lines to which an editor jumps, and the report has what is said of its faults.
pub fn answer<'a, F: Files>(
    alloc: Global,
    request: &Request<'a>,
    by_lines: bool,
    with_reasons: bool,
    files: &mut F,
) -> Result<Found, Failure<'a>>
    ensures found { IsFound by_lines (store F.contents F.reads F.failures files.old)
        (store F.contents F.reads F.failures files.new)
        (view request.now) (came_to result) }
    ensures explained { IfOk result (λ found. IsExplained with_reasons found.report) }
{
    match names_of(alloc, request) {
        Ok(names) => match read_files(alloc, &names, files) {
            Ok(contents) => find(alloc, request, &names, &contents, by_lines, with_reasons),
            Err(failure) => Err(failure),
        },
        Err(_) => Err(Failure::Memory),
    }
}
