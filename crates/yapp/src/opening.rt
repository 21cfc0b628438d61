//! Sessions: from the files of one to a talk over its document.

ghost use Rattle.std.specs.Prelude.{◌≡◌, IfOk, false, map, option_map, string_bytes};
ghost use Rattle.yspec.specs.text.Text.{Text};
ghost use Rattle.yspec.specs.schema.Schema as schema_spec;
ghost use Rattle.yspec.specs.document.Document as document_spec;
ghost use Rattle.yspec.specs.edit.Live.{opened};
ghost use Rattle.yspec_run.specs.Output.{Outcome, with_document};
ghost use Rattle.yspec_opening.specs.Opening.{files_opened, opened_with, with_conditions};
ghost use Rattle.ylink_grammar.specs.LanguageView.{language_view};
ghost use Rattle.yspec_session.specs.Session.{configured_by};
ghost use Rattle.yschema_model.specs.View as schema_view;
ghost use Rattle.ylive.specs.View.{view};
ghost use Rattle.ybase_output.specs.Writing.{side};
ghost use Rattle.ybase_talk.specs.Talk.{party};
ghost use Rattle.yapp_words.specs.Command.{opening_view};
ghost use Rattle.yapp_report.specs.Failing.{LeadsTo};
ghost use Rattle.yapp_report.specs.Saving.{end_of};
ghost use Rattle.yapp.specs.Edited.{IsSound, schema_of, tree_of};
ghost use Rattle.yapp.specs.Files.{store};
ghost use Rattle.yapp.specs.Sessions.{ComesToOpen, IsSession};

use crate::contents::{first_of, names_with, read_files};
use crate::document::{Document, read_by};
use crate::modules::{Compiled, compile_opened};
use crate::saying::tell_failure;
use crate::unjudged::note_in;
use std::alloc::{AllocError, Global};
use yapp_report::{Ended, Failure, Files};
use yapp_talk::talk;
use yapp_words::Opening;
use ybase_output::Sink;
use ybase_talk::Caller;
use ylink_grammar::Language;
use ylive::Live;
use yschema_model::Schema;

/// A live document, the schema of its configuration where that alone is looked at, and what is said of the conditions of its
/// modules.
#[derive(Drop)]
pub struct Opened {
    pub live: Live,
    pub configured: Option<Schema>,
    pub note: String,
}

/// A document that was read, and the schema of its configuration where that alone is looked at.
#[derive(Drop)]
struct Subject {
    document: Document,
    configured: Option<Schema>,
}

/// The live document that a document is.
fn live_of(alloc: Global, document: Document) -> Result<Live, AllocError>
    requires { IsSound (schema_of document) (tree_of document) }
    ensures { IfOk result (λ live. view live ≡ opened (schema_of document) (tree_of document)) }
{
    match Live::from_parts(alloc, document.schema, document.tree) {
        Ok(live) => Ok(live),
        Err(_) => Err(AllocError),
    }
}

/// A document that was read, as a live one, with what is said of the conditions of its modules.
fn opened_over<'a>(
    alloc: Global,
    opening: &Opening<'a>,
    contents: &[Vec<u8>],
    subject: Subject,
) -> Result<Opened, Failure<'a>>
    requires { IsSound (schema_of subject.document) (tree_of subject.document) }
    ensures leads { (next : Text → Outcome) → LeadsTo (with_conditions (language_view opening.now.language)
        (map (λ n. n.now) opening.now.modules.items) (map (λ c. c.items) contents.now) next)
        (λ o. next (string_bytes o.note)) result }
    ensures opened { IfOk result (λ o. view o.live ≡ opened (schema_of subject.document) (tree_of subject.document)) }
    ensures configured { IfOk result (λ o. o.configured ≡ subject.configured) }
{
    match note_in(alloc, &opening.language, &opening.modules, contents) {
        Ok(note) => Ok(Opened {
            live: live_of(alloc, subject.document)?,
            configured: subject.configured,
            note,
        }),
        Err(failure) => Err(failure),
    }
}

/// The document of a session, by the contents of its files.
fn read_subject<'a>(
    alloc: Global,
    language: &Language,
    is_strict: bool,
    of_configuration: bool,
    document: &'a str,
    modules: &[&'a str],
    contents: &[Vec<u8>],
) -> Result<Subject, Failure<'a>>
    ensures leads { (next : schema_spec.Schema → document_spec.Tree → Outcome)
        → LeadsTo (with_document (language_view language.now) is_strict document.entry.now (map (λ n. n.now) modules.now)
        (map (λ c. c.items) contents.now) (λ schema tree files. next schema tree))
        (λ subject. next (schema_of subject.document) (tree_of subject.document)) result }
    ensures sound { IfOk result (λ subject. IsSound (schema_of subject.document) (tree_of subject.document)) }
    ensures configured { IfOk result (λ subject. option_map schema_view.view subject.configured
        ≡ configured_by of_configuration (schema_of subject.document)) }
{
    match compile_opened(alloc, language, modules, contents, of_configuration) {
        Ok(compiled) => {
            let rest = compiled.rest;
            let Compiled { schema, configured } = compiled.value;
            match read_by(alloc, is_strict, document, schema, first_of(rest)) {
                Ok(document) => Ok(Subject {
                    document,
                    configured,
                }),
                Err(failure) => Err(failure),
            }
        }
        Err(failure) => Err(failure),
    }
}

/// What a session is over, by the contents of its files.
fn open_contents<'a>(
    alloc: Global,
    opening: &Opening<'a>,
    contents: &[Vec<u8>],
) -> Result<Opened, Failure<'a>>
    ensures leads { (next : schema_spec.Schema → document_spec.Tree → Text → Outcome)
        → LeadsTo (opened_with (opening_view opening.now) (map (λ c. c.items) contents.now) next)
        (λ o. next (view o.live).schema (view o.live).tree (string_bytes o.note)) result }
    ensures fresh { IfOk result (λ o. (view o.live).is_stale ≡ false) }
    ensures configured { IfOk result (λ o. option_map schema_view.view o.configured
        ≡ configured_by opening.now.of_configuration (view o.live).schema) }
{
    match read_subject(
        alloc,
        &opening.language,
        opening.is_strict,
        opening.of_configuration,
        opening.document,
        &opening.modules,
        contents,
    ) {
        Ok(subject) => opened_over(alloc, opening, contents, subject),
        Err(failure) => Err(failure),
    }
}

/// The names of a session's files in the order in which they are read.
fn names_opened<'a>(alloc: Global, opening: &Opening<'a>) -> Result<Vec<&'a str>, AllocError>
    ensures { IfOk result (λ names. map (λ n. n.now) names.items ≡ files_opened (opening_view opening.now)) }
{
    names_with(alloc, &opening.modules, &[opening.document])
}

/// What a session is over. All files are read first: the modules in order, then the document. The first file that can't be read,
/// and then the first text, module or document that is refused, ends it.
pub fn open<'a, F: Files>(
    alloc: Global,
    opening: &Opening<'a>,
    files: &mut F,
) -> Result<Opened, Failure<'a>>
    ensures opens { ComesToOpen (store F.contents F.reads F.failures files.old)
        (store F.contents F.reads F.failures files.new) (opening_view opening.now) result }
    ensures fresh { IfOk result (λ o. (view o.live).is_stale ≡ false) }
    ensures configured { IfOk result (λ o. option_map schema_view.view o.configured
        ≡ configured_by opening.now.of_configuration (view o.live).schema) }
{
    match names_opened(alloc, opening) {
        Ok(names) => match read_files(alloc, &names, files) {
            Ok(contents) => open_contents(alloc, opening, &contents),
            Err(failure) => Err(failure),
        },
        Err(_) => Err(Failure::Memory),
    }
}

/// Opens a session and answers requests until there are no more, or tells why none is opened. Answers how the run ends.
pub(crate) fn hold_session<F: Files, C: Caller, O: Sink, E: Sink>(
    alloc: Global,
    opening: &Opening<'_>,
    with_reasons: bool,
    files: &mut F,
    caller: &mut C,
    output: &mut O,
    errors: &mut E,
) -> Ended
    ensures reasons { result.with_reasons ≡ with_reasons }
    ensures session { IsSession (store F.contents F.reads F.failures files.old)
        (store F.contents F.reads F.failures files.new) (opening_view opening.now) with_reasons
        (party C.events C.failures caller.old) (party C.events C.failures caller.new)
        (side O.taken O.failures output.old) (side O.taken O.failures output.new)
        (side E.taken E.failures errors.old) (side E.taken E.failures errors.new) (end_of result) }
{
    match open(alloc, opening, files) {
        Ok(opened) => Ended {
            status: talk(
                alloc,
                opening,
                opened.live,
                opened.configured,
                opened.note.as_str(),
                with_reasons,
                caller,
                errors,
            ),
            saved: None,
            with_reasons,
        },
        Err(failure) => tell_failure(alloc, &failure, with_reasons, false, output, errors),
    }
}
