//! From modules and a document to what comes of edits, and the faults that are left.

ghost use Rattle.std.specs.Prelude.{◌≡◌, IfErr, IfOk, Ok};
ghost use Rattle.yspec.specs.edit.Live.{checked, checked_from};
ghost use Rattle.yspec.specs.document.Reading.{document_of};
ghost use Rattle.yspec.specs.Results.{Gives};
ghost use Rattle.ytext.specs.View.{modules_view};
ghost use Rattle.yschema_model.specs.View as schema_view;
ghost use Rattle.ylive.specs.View.{edits_view};
ghost use Rattle.ylive.specs.View as live_view;
ghost use Rattle.ylink_grammar.specs.LanguageView.{language_view};
ghost use Rattle.ylive_whole.specs.Checking.{TellsOrMemory, checked_in, checked_view, told_by};

use std::alloc::{AllocError, Global};
use thiserror::Error;
use ycheck::Fault;
use yinst::{DocFault, Edit, read};
use ylink_grammar::Language;
use ylive::{Live, Outcome};
use yschema::{CompileFault, compile_in};
use yschema_model::Schema;
use ytext::Module;

/// What comes of each edit, in order, and all faults of the document after the last.
#[derive(Debug, Drop)]
pub struct Checked {
    pub outcomes: Vec<Outcome>,
    pub faults: Vec<Fault>,
}

/// Why no edit is looked at.
#[derive(Debug, Drop, Error)]
pub enum CheckFault {
    /// The modules are refused. It is never `CompileFault::Memory`.
    #[error(transparent)]
    Modules(CompileFault),
    /// The document is refused. It is never `DocFault::Memory`.
    #[error(transparent)]
    Document(DocFault),
    #[error("memory")]
    Memory,
}

/// Applies edits in order to the document that JSON bytes denote under a set of modules of the core, and then lists its faults. A
/// refused edit changes nothing; refused modules or a refused document end it.
pub fn check_edits(
    alloc: Global,
    modules: &[Module],
    document: &[u8],
    edits: &[Edit],
) -> Result<Checked, CheckFault>
    ensures answer { Gives checked_view told_by result
        (checked (modules_view modules.now) document.now (edits_view edits.now)) }
    ensures memory { IfErr result TellsOrMemory }
{
    check_edits_in(alloc, modules, &Language::Core, document, edits)
}

/// The same under modules that are read in a language.
pub fn check_edits_in(
    alloc: Global,
    modules: &[Module],
    language: &Language,
    document: &[u8],
    edits: &[Edit],
) -> Result<Checked, CheckFault>
    ensures answer { Gives checked_view told_by result (checked_in (language_view language.now)
        (modules_view modules.now) document.now (edits_view edits.now)) }
    ensures memory { IfErr result TellsOrMemory }
{
    match compile_in(alloc, modules, language) {
        Ok(schema) => check_under(alloc, schema, document, edits),
        Err(CompileFault::Memory) => Err(CheckFault::Memory),
        Err(fault) => Err(CheckFault::Modules(fault)),
    }
}

/// The same under a schema.
fn check_under(
    alloc: Global,
    schema: Schema,
    document: &[u8],
    edits: &[Edit],
) -> Result<Checked, CheckFault>
    ensures answer { let s = schema_view.view schema in
        Gives checked_view told_by result
        (checked_from s (edits_view edits.now) (document_of s document.now)) }
    ensures memory { IfErr result TellsOrMemory }
{
    match read(alloc, &schema, document) {
        Ok(tree) => match Live::from_parts(alloc, schema, tree) {
            Ok(live) => match check_live(live, edits) {
                Ok(checked) => Ok(checked),
                Err(_) => Err(CheckFault::Memory),
            },
            Err(_) => Err(CheckFault::Memory),
        },
        Err(DocFault::Memory) => Err(CheckFault::Memory),
        Err(fault) => Err(CheckFault::Document(fault)),
    }
}

/// The same of a live document.
fn check_live(mut live: Live, edits: &[Edit]) -> Result<Checked, AllocError>
    ensures { let l = live_view.view live in
        IfOk result (λ checked. Ok (checked_view checked)
        ≡ checked_from l.schema (edits_view edits.now) (Ok l.tree)) }
{
    match live.run(edits) {
        Ok(outcomes) => match live.list() {
            Ok(faults) => Ok(Checked { outcomes, faults }),
            Err(_) => Err(AllocError),
        },
        Err(_) => Err(AllocError),
    }
}
