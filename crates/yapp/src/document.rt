//! Documents: read, edited, and reported on.

ghost use Rattle.std.specs.Prelude.{◌≡◌, ◌++◌, [], ℕ, List, IfOk, map, option_map, string_bytes, Option, Some, None, false, true, if◌then◌else◌};
ghost use Rattle.yspec.specs.document.Document as document_spec;
ghost use Rattle.yspec.specs.document.Reading.{document_of};
ghost use Rattle.yspec.specs.document.Writing.{written_text};
ghost use Rattle.yspec_run.specs.Output.{Outcome, dump, first_file, left, not_read, plainly, repeated_document, saved_by, text_instead, unless_repeated, with_document, with_tree};
ghost use Rattle.yspec_run.specs.Part.{Part, objects};
ghost use Rattle.yspec_run.specs.Script.{after_lines, lines_of, refused_lines};
ghost use Rattle.yspec.specs.schema.Schema as schema_spec;
ghost use Rattle.ysay_fault.specs.FoundFellows.{fellow_of};
ghost use Rattle.ysay_fault.specs.Sentences.{explained_fault};
ghost use Rattle.ysay_json.specs.FaultData as format;
ghost use Rattle.ycheck.specs.View.{view};
ghost use Rattle.yschema_model.specs.View as schema_view;
ghost use Rattle.ylink_grammar.specs.LanguageView.{language_view};
ghost use Rattle.yinst_tree.specs.Told.{code_number};
ghost use Rattle.yinst_tree.specs.View.{place_view};
ghost use Rattle.ylive.specs.View as live_view;
ghost use Rattle.yapp_script.specs.Asked.{edits_in, kinds_in, refused_parts};
ghost use Rattle.ycheck_config.specs.Inspecting.{inspection_view};
ghost use Rattle.yapp.specs.Edited.{IsEdited, IsOf, IsRun, IsSound, IsWhole, refused_of, schema_of, tree_of};
ghost use Rattle.yapp_report.specs.EditedView.{live_of, refused_in};
ghost use Rattle.yapp_report.specs.declared.report.Report.TheVariants as reports;
ghost use Rattle.yspec.specs.document.Sorting.{IsSorted};
ghost use Rattle.yinst_tree.specs.View as document_view;
ghost use Rattle.yapp_report.specs.Explained.{IsExplained};
ghost use Rattle.yapp_report.specs.Failing.{FailsWith, LeadsTo, reported};
ghost use Rattle.yapp_report.specs.Saving.{saved_view};
ghost use Rattle.yapp_words.specs.Command.{options_view};

use crate::contents::{Taken, behind_first, first_of};
use crate::modules::compile_contents;
use serde_json::Value;
use std::alloc::{AllocError, Global};
use yapp_report::{DocumentReport, EditedDocument, Failure, Report, SavedFile, Stop, line_objects};
use yapp_script::{RefusedLine, Script, refusal_hint, repeated_hint};
use yapp_words::Options;
use ycheck::Fault;
use ycheck_config::{Inspection, inspect};
use yinst_tree::{DocCode, DocFault, Step, Tree, read, write};
use ylink_grammar::Language;
use ylive::Live;
use ysay_fault::{explanation_with_fellow, fellows_of};
use ysay_json::json_text;
use ysay_repeated::first_repeated;
use yschema_model::Schema;

/// A document under its schema, with the lines of a script that were refused on the way to it.
#[derive(Drop)]
pub struct Document {
    pub schema: Schema,
    pub tree: Tree,
    pub refused: Vec<RefusedLine>,
    /// The name of the script, where its lines are told as an editor jumps to them.
    pub script: Option<String>,
}

/// The document that bytes denote under a schema.
fn read_under<'a>(
    alloc: Global,
    name: &'a str,
    schema: Schema,
    bytes: &[u8],
) -> Result<Document, Failure<'a>>
    ensures leads { let s = schema_view.view schema in
        (next : schema_spec.Schema → document_spec.Tree → Outcome)
        → LeadsTo (with_tree s name.entry.now bytes.now (document_of s bytes.now) (next s))
        (λ d. next (schema_of d) (tree_of d)) result }
    ensures under { IfOk result (λ d. schema_of d ≡ schema_view.view schema) }
    ensures sound { IfOk result (λ d. IsSound (schema_of d) (tree_of d)) }
    ensures unrefused { IfOk result (λ d. refused_of d ≡ []) }
{
    match read(alloc, &schema, bytes) {
        Ok(tree) => Ok(Document {
            schema,
            tree,
            refused: Vec::new(alloc),
            script: None,
        }),
        Err(DocFault::Refused { code, place }) => {
            Err(document_failure(alloc, name, schema, bytes, code, place))
        }
        Err(DocFault::Memory) => Err(Failure::Memory),
    }
}

/// The same, where one that gives a member twice may be refused.
pub(crate) fn read_by<'a>(
    alloc: Global,
    is_strict: bool,
    name: &'a str,
    schema: Schema,
    bytes: &[u8],
) -> Result<Document, Failure<'a>>
    ensures leads { let s = schema_view.view schema in
        (next : schema_spec.Schema → document_spec.Tree → Outcome)
        → LeadsTo (with_tree s name.entry.now bytes.now (document_of s bytes.now)
        (unless_repeated is_strict s name.entry.now bytes.now (next s)))
        (λ d. next (schema_of d) (tree_of d)) result }
    ensures under { IfOk result (λ d. schema_of d ≡ schema_view.view schema) }
    ensures sound { IfOk result (λ d. IsSound (schema_of d) (tree_of d)) }
    ensures unrefused { IfOk result (λ d. refused_of d ≡ []) }
{
    match read_under(alloc, name, schema, bytes) {
        Ok(document) => {
            if is_strict {
                strictly(alloc, name, document, bytes)
            } else {
                Ok(document)
            }
        }
        Err(failure) => Err(failure),
    }
}

/// A document that was read, where one that gives a member twice in its bytes is refused.
fn strictly<'a>(
    alloc: Global,
    name: &'a str,
    document: Document,
    bytes: &[u8],
) -> Result<Document, Failure<'a>>
    ensures leads { let s = schema_of document in
        (next : schema_spec.Schema → document_spec.Tree → Outcome)
        → LeadsTo (unless_repeated true s name.entry.now bytes.now (next s) (tree_of document))
        (λ d. next (schema_of d) (tree_of d)) result }
    ensures same { IfOk result (λ d. d ≡ document) }
{
    match first_repeated(alloc, &document.schema, bytes) {
        Ok(None) => Ok(document),
        Ok(Some(place)) => Err(repeated_failure(alloc, name, document.schema, place)),
        Err(_) => Err(Failure::Memory),
    }
}

/// The failure of a document that gives a member twice, whose node is at a place.
fn repeated_failure<'a>(
    alloc: Global,
    name: &'a str,
    schema: Schema,
    place: Vec<Step>,
) -> Failure<'a>
    ensures { FailsWith result (repeated_document (schema_view.view schema) name.entry.now
        (place_view place.items)) }
{
    match repeated_hint(alloc, &schema, &place) {
        Ok(hint) => Failure::Repeated {
            name,
            schema,
            place,
            hint,
            jump: None,
        },
        Err(_) => Failure::Memory,
    }
}

/// The failure of a document that is refused at a place.
fn document_failure<'a>(
    alloc: Global,
    name: &'a str,
    schema: Schema,
    bytes: &[u8],
    code: DocCode,
    place: Vec<Step>,
) -> Failure<'a>
    ensures { FailsWith result (not_read (schema_view.view schema) name.entry.now bytes.now
        (record { code = code_number code; place = place_view place.items })) }
{
    let Ok(stop) = stop_of(alloc, bytes, code) else {
        return Failure::Memory;
    };
    match refusal_hint(alloc, &schema, bytes, code, &place) {
        Ok(hint) => Failure::Document {
            name,
            schema,
            code,
            place,
            hint,
            stop,
            jump: None,
        },
        Err(_) => Failure::Memory,
    }
}

/// Where the reader stops in bytes that aren't JSON (J1); at the beginning of all others.
fn stop_of(alloc: Global, bytes: &[u8], code: DocCode) -> Result<Stop, AllocError> {
    match code {
        DocCode::J1 => match Value::from_slice(alloc, bytes) {
            Ok(_) => Ok(Stop { line: 1, column: 1 }),
            Err(error) if error.is_memory() => Err(AllocError),
            Err(error) => Ok(Stop {
                line: error.line(),
                column: error.column(),
            }),
        },
        _ => Ok(Stop { line: 1, column: 1 }),
    }
}

/// A document under modules that are read in a language, by the contents of their files and its own; where that is wanted, one
/// that gives a member twice is refused.
pub(crate) fn read_document<'a, 'b>(
    alloc: Global,
    language: &Language,
    is_strict: bool,
    document: &'a str,
    modules: &[&'a str],
    contents: &'b [Vec<u8>],
) -> Result<Taken<'b, Document>, Failure<'a>>
    ensures leads { (next : schema_spec.Schema → document_spec.Tree → List (List ℕ) → Outcome)
        → LeadsTo (with_document (language_view language.now) is_strict document.entry.now (map (λ n. n.now) modules.now)
        (map (λ c. c.items) contents.entry.now) next)
        (λ read. next (schema_of read.value) (tree_of read.value)
        (map (λ c. c.items) read.rest.now)) result }
    ensures sound { IfOk result (λ read. IsSound (schema_of read.value) (tree_of read.value)) }
    ensures unrefused { IfOk result (λ read. refused_of read.value ≡ []) }
{
    match compile_contents(alloc, language, modules, contents) {
        Ok(compiled) => {
            match read_by(
                alloc,
                is_strict,
                document,
                compiled.value,
                first_of(compiled.rest),
            ) {
                Ok(document) => Ok(Taken {
                    value: document,
                    rest: behind_first(compiled.rest),
                }),
                Err(failure) => Err(failure),
            }
        }
        Err(failure) => Err(failure),
    }
}

/// A document after the lines of a script; where that is wanted, values that give a member twice don't fit.
fn edit(
    alloc: Global,
    is_strict: bool,
    document: Document,
    script: &[u8],
) -> Result<EditedDocument, AllocError>
    requires { IsSound (schema_of document) (tree_of document) }
    ensures { IfOk result (λ e. IsEdited is_strict (schema_of document) (tree_of document)
        (lines_of script.now) e) }
{
    let script = Script::read(alloc, is_strict, script)?;
    match Live::from_parts(alloc, document.schema, document.tree) {
        Ok(live) => run_script(live, &script),
        Err(_) => Err(AllocError),
    }
}

/// A live document after the lines of a script.
fn run_script(mut live: Live, script: &Script<'_>) -> Result<EditedDocument, AllocError>
    ensures { let l = live_view.view live in
        IfOk result (λ e. IsRun l.schema l.tree (kinds_in script.now) (edits_in script.now) e) }
{
    match live.run(script.edits()) {
        Ok(outcomes) => {
            let refused = script.refused(&live, &outcomes)?;
            Ok(EditedDocument {
                live,
                refused,
                script: None,
            })
        }
        Err(_) => Err(AllocError),
    }
}

/// A document under modules that are read in a language, after the lines of a script, by the contents of the files: those of the
/// modules, the document's, and the script's. Where that is wanted, a member that is given twice is refused.
pub fn edit_document<'a>(
    alloc: Global,
    language: &Language,
    is_strict: bool,
    document: &'a str,
    modules: &[&'a str],
    contents: &[Vec<u8>],
) -> Result<EditedDocument, Failure<'a>>
    ensures leads { (next : schema_spec.Schema → document_spec.Tree → List Part → Outcome)
        → LeadsTo (with_document (language_view language.now) is_strict document.entry.now (map (λ n. n.now) modules.now)
        (map (λ c. c.items) contents.now) (λ schema tree files.
        next schema (after_lines is_strict schema tree (lines_of (first_file files)))
        (refused_lines is_strict schema 1 tree (lines_of (first_file files)))))
        (λ e. next (live_of e).schema (live_of e).tree (refused_in e)) result }
    ensures whole { IfOk result (λ e. IsWhole (live_of e).schema (live_of e).tree) }
{
    match read_document(alloc, language, is_strict, document, modules, contents) {
        Ok(read) => Ok(edit(alloc, is_strict, read.value, first_of(read.rest))?),
        Err(failure) => Err(failure),
    }
}

/// The document that a live one is.
fn taken_apart(edited: EditedDocument) -> Result<Document, AllocError>
    requires { IsWhole (live_of edited).schema (live_of edited).tree }
    ensures { IfOk result (λ d. IsOf edited d) }
{
    let EditedDocument {
        live,
        refused,
        script,
        ..
    } = edited;
    match live.into_parts() {
        Ok(parts) => {
            let (schema, tree) = parts;
            Ok(Document {
                schema,
                tree,
                refused,
                script,
            })
        }
        Err(_) => Err(AllocError),
    }
}

/// What is to be told of a document after the lines of a script. Where the lines of its faults are wanted alone, these are
/// told by the live document itself.
pub(crate) fn report_on_edited(
    alloc: Global,
    edited: EditedDocument,
    with_reasons: bool,
    options: Options<'_>,
) -> Result<Report, AllocError>
    requires { IsWhole (live_of edited).schema (live_of edited).tree }
    ensures reported { IfOk result (λ r. reported r
        ≡ left (options_view options.entry) (live_of edited).schema (live_of edited).tree (refused_in edited)) }
    ensures explained { IfOk result (IsExplained with_reasons) }
{
    if with_reasons || wants_more(options) {
        let document = taken_apart(edited)?;
        let report = report_on(alloc, document, with_reasons, options)?;
        Ok(Report::Document(report))
    } else {
        Ok(Report::Edited(edited))
    }
}

/// Whether a document is to be dumped or written to a file, its configuration alone is looked at, or its faults are to be told
/// as JSON.
fn wants_more(options: Options<'_>) -> bool
    ensures { result ≡ false → (s : schema_spec.Schema) (t : document_spec.Tree)
        (refused : List Part) → left (options_view options.entry) s t refused ≡ left plainly s t refused }
{
    options.of_configuration || options.is_dump || options.as_json || options.saved_as.is_some()
}

/// What is to be told of a document: its faults, where that is wanted with what is said of each or as JSON, or its text
/// where it is to be dumped.
pub(crate) fn report_on(
    alloc: Global,
    document: Document,
    with_reasons: bool,
    options: Options<'_>,
) -> Result<DocumentReport, AllocError>
    requires { IsSound (schema_of document) (tree_of document) }
    ensures reported { IfOk result (λ r. reported (reports.Document r)
        ≡ left (options_view options.entry) (schema_of document) (tree_of document) (refused_of document)) }
    ensures explained { IfOk result (λ r. IsExplained with_reasons (reports.Document r)) }
    ensures sorted { IfOk result (λ r. IsSorted (document_view.tree_view r.tree)) }
{
    let whole = whole_text(alloc, &document, options.is_dump)?;
    let saved = saved_file(alloc, &document, options)?;
    let Document {
        schema,
        tree,
        refused,
        script,
    } = document;
    let inspection = inspect(alloc, schema, tree, options.of_configuration)?;
    let text = text_instead(alloc, whole, &refused, &inspection, options)?;
    let explanations = explanations_of(alloc, &inspection, with_reasons & text.is_none())?;
    Ok(DocumentReport {
        schema: inspection.schema,
        tree: inspection.tree,
        faults: inspection.faults,
        explanations,
        refused,
        script,
        text,
        saved,
    })
}

/// What is said of each fault of what is looked at, where that is wanted.
fn explanations_of(
    alloc: Global,
    inspection: &Inspection,
    are_wanted: bool,
) -> Result<Option<Vec<String>>, AllocError>
    requires { let i = inspection_view inspection.now in IsSound i.schema i.tree }
    ensures { let i = inspection_view inspection.now in
        IfOk result (λ texts. option_map (λ ts. map string_bytes ts.items) texts
        ≡ (if are_wanted then Some (map (explained_fault i.schema i.tree) i.faults) else None)) }
{
    if are_wanted {
        Ok(Some(all_explained(alloc, inspection)?))
    } else {
        Ok(None)
    }
}

/// What is said of each fault of what is looked at.
fn all_explained(alloc: Global, inspection: &Inspection) -> Result<Vec<String>, AllocError>
    requires { let i = inspection_view inspection.now in IsSound i.schema i.tree }
    ensures { let i = inspection_view inspection.now in IfOk result (λ texts. map string_bytes texts.items
        ≡ map (explained_fault i.schema i.tree) i.faults) }
{
    let faults = inspection.faults.as_slice();
    let fellows = fellows_of(alloc, &inspection.schema, &inspection.tree, faults)?;
    let mut texts = Vec::new(alloc);
    for number in 0..faults.len() {
        texts.push(explained(alloc, inspection, &faults[number], fellows[number])?)?;
    }
    Ok(texts)
}

/// What is said of a fault of what is looked at, where the other entry or item of which it tells is found.
fn explained(
    alloc: Global,
    inspection: &Inspection,
    fault: &Fault,
    fellow: Option<usize>,
) -> Result<String, AllocError>
    requires sound { let i = inspection_view inspection.now in IsSound i.schema i.tree }
    requires found { let i = inspection_view inspection.now in
        fellow ≡ fellow_of i.schema i.tree (view fault.now) }
    ensures { let i = inspection_view inspection.now in IfOk result (λ text. string_bytes text
        ≡ explained_fault i.schema i.tree (view fault.now)) }
{
    explanation_with_fellow(alloc, &inspection.schema, &inspection.tree, fault, fellow)
}

/// The file to which a document is to be written.
fn saved_file(
    alloc: Global,
    document: &Document,
    options: Options<'_>,
) -> Result<Option<SavedFile>, AllocError>
    requires { IsSound (schema_of document.now) (tree_of document.now) }
    ensures { IfOk result (λ file. option_map saved_view file
        ≡ saved_by (options_view options.entry) (schema_of document.now) (tree_of document.now)) }
{
    match options.saved_as {
        Some(name) => Ok(Some(SavedFile {
            name: String::from_str(alloc, name)?,
            text: dumped(alloc, document)?,
        })),
        None => Ok(None),
    }
}

/// The text of a document, with a line feed at its end.
fn dumped(alloc: Global, document: &Document) -> Result<String, AllocError>
    requires { IsSound (schema_of document.now) (tree_of document.now) }
    ensures { IfOk result (λ text. string_bytes text
        ≡ dump (schema_of document.now) (tree_of document.now)) }
{
    let mut text = write(alloc, &document.schema, &document.tree)?;
    text.push_str("\n")?;
    Ok(text)
}

/// The text of a document, where it is wanted.
fn whole_text(
    alloc: Global,
    document: &Document,
    is_wanted: bool,
) -> Result<Option<String>, AllocError>
    requires { IsSound (schema_of document.now) (tree_of document.now) }
    ensures { IfOk result (λ text. option_map string_bytes text
        ≡ (if is_wanted then Some (written_text (schema_of document.now) (tree_of document.now))
        else None)) }
{
    if is_wanted {
        Ok(Some(write(alloc, &document.schema, &document.tree)?))
    } else {
        Ok(None)
    }
}

/// What stands in place of the lines of the faults of what is looked at: the text of the whole document where it is to be
/// dumped, or these as JSON behind the lines of a script that were refused.
fn text_instead(
    alloc: Global,
    whole: Option<String>,
    refused: &[RefusedLine],
    inspection: &Inspection,
    options: Options<'_>,
) -> Result<Option<String>, AllocError>
    requires { let i = inspection_view inspection.now in IsSound i.schema i.tree }
    ensures { (s : schema_spec.Schema) (t : document_spec.Tree) → option_map string_bytes whole
        ≡ (if options.entry.is_dump then Some (written_text s t) else None)
        → IfOk result (λ text. option_map string_bytes text ≡ text_instead (options_view options.entry) s t
        (refused_parts refused.now) (inspection_view inspection.now)) }
{
    if options.is_dump {
        return Ok(whole);
    }
    if options.as_json {
        return Ok(Some(json_of(alloc, refused, inspection)?));
    }
    Ok(None)
}

/// The lines of a script that were refused, and the faults of what is looked at, as lines of JSON.
fn json_of(
    alloc: Global,
    refused: &[RefusedLine],
    inspection: &Inspection,
) -> Result<String, AllocError>
    requires { let i = inspection_view inspection.now in IsSound i.schema i.tree }
    ensures { let i = inspection_view inspection.now in IfOk result (λ text. string_bytes text
        ≡ objects (refused_parts refused.now) ++ format.json_text i.schema i.tree i.faults) }
{
    let Inspection {
        schema,
        tree,
        faults,
    } = inspection;
    let mut text = line_objects(alloc, refused)?;
    let told = json_text(alloc, schema, tree, faults)?;
    text.push_str(told.as_str())?;
    Ok(text)
}
