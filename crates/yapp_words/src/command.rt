//! What the words of a command line ask for.

ghost use Rattle.std.specs.Prelude.{◌≡◌, [], ◌∷◌, codes, map, string_bytes, true, IfOk, option_map};
ghost use Rattle.std.specs.Str.{bytes_eq};
ghost use Rattle.clap.specs.Words.{fault_of, first_of, found_of, kind_of, rows_of, subcommand_rows_of};
ghost use Rattle.yapp_words.specs.Application.{yanglive};
ghost use Rattle.yapp_words.specs.Command as spec;
ghost use Rattle.ylink_grammar.specs.LanguageView.{language_view};
ghost use Rattle.yapp_words.specs.Command.{Declines, Explains, IsRefusal, Refuses, Takes, TakesFit, Understands, asks_help, asked_by, asked_of, asked_view, compilation_of, condition_fault, drawing_of, edition_of, explained_by, explanation_of, feature_fault, file_fault, folders_by, folders_of, format_of, language_fault, is_given, modules_of, opening_of, opening_view, options_of, options_view, remembers_of, reported_of, validation_of, value_of, view};
ghost use Rattle.yapp_words.specs.declared.command.NoRequest.TheVariants.{Memory};

use crate::arguments::application;
use clap::ArgMatches;
use clap::error::ErrorKind;
use std::alloc::{AllocError, Global};
use thiserror::Error;
use yapp_profile::{
    chooses_in_core, is_profile, language_in, passes_in_core, profile_in, unfit_choosing_in,
    unfit_unjudged_in,
};
use ylink_arguments::count;
use ylink_grammar::Language;

/// How many edits of a session can be taken back where it isn't said.
const MOST_REMEMBERED: usize = 1000;

/// What a command line asks for, whether the reasons of what is told are wanted too, and the folders where modules are looked for
/// that are imported and not named.
#[derive(Debug, Drop)]
pub struct CommandLine<'a> {
    pub asked: Asked<'a>,
    pub with_reasons: bool,
    pub folders: Vec<&'a str>,
}

/// What a command asks for.
#[derive(Debug, Drop)]
pub enum Asked<'a> {
    /// Something that is told once, by lines to which an editor jumps or not.
    Report(Request<'a>, bool),
    /// A session.
    Session(Opening<'a>),
}

/// What a session is over: a document under modules that are read in a language. Files are named by the words that were given.
#[derive(Debug, Drop)]
pub struct Opening<'a> {
    pub language: Language,
    /// A document with a member that comes twice is refused.
    pub is_strict: bool,
    /// So many edits can be taken back.
    pub remembers: usize,
    /// Of each change it is told which faults come and go.
    pub tells_changes: bool,
    /// The faults of its configuration alone are told.
    pub of_configuration: bool,
    pub document: &'a str,
    pub modules: Vec<&'a str>,
}

/// How a document is taken, and what is made of it.
#[derive(Clone, Copy, Debug)]
pub struct Options<'a> {
    /// A document with a member that comes twice is refused.
    pub is_strict: bool,
    /// Its configuration alone is looked at.
    pub of_configuration: bool,
    /// Faults and refusals are told as JSON.
    pub as_json: bool,
    /// The document is printed in place of its faults.
    pub is_dump: bool,
    /// The file to which the document is written at the end.
    pub saved_as: Option<&'a str>,
}

/// What is told once. Files are named by the words that were given, and modules are read in a language.
#[derive(Debug, Drop)]
pub enum Request<'a> {
    /// What is said of codes; of all where none is named.
    Explain {
        codes: Vec<&'a str>,
    },
    /// How many nodes modules define.
    Compile {
        language: Language,
        modules: Vec<&'a str>,
    },
    /// The tree diagram of the module of a name.
    Tree {
        language: Language,
        name: &'a str,
        modules: Vec<&'a str>,
    },
    /// Those of all modules.
    Trees {
        language: Language,
        modules: Vec<&'a str>,
    },
    /// The faults of a document under modules.
    Validate {
        language: Language,
        options: Options<'a>,
        document: &'a str,
        modules: Vec<&'a str>,
    },
    /// The same after the edits of a script.
    Edit {
        language: Language,
        options: Options<'a>,
        document: &'a str,
        script: &'a str,
        modules: Vec<&'a str>,
    },
}

/// Why a command line asks for nothing, with the text that says so.
#[derive(Debug, Drop, Error)]
pub enum NoRequest {
    /// It asks for help, or for the version.
    #[error("{0}")]
    Help(String),
    /// It isn't one that the program takes.
    #[error("{0}")]
    Refused(String),
    #[error("memory")]
    Memory,
}

impl From<AllocError> for NoRequest {
    ghost from_gives = { λ _ e. e ≡ Memory };

    fn from(_e: AllocError) -> NoRequest {
        NoRequest::Memory
    }
}

/// The modules that were given.
fn modules_in<'a>(alloc: Global, found: &ArgMatches<'a>) -> Result<Vec<&'a str>, AllocError>
    ensures { IfOk result (λ names. map (λ n. n.now) names.items
        ≡ modules_of (rows_of (found_of found.now))) }
{
    Vec::from_slice(alloc, found.get_strs("MODULE").unwrap_or(&[]))
}

/// The folders that were given.
fn folders_in<'a>(alloc: Global, found: &ArgMatches<'a>) -> Result<Vec<&'a str>, AllocError>
    ensures { IfOk result (λ names. map (λ n. n.now) names.items
        ≡ folders_of (rows_of (found_of found.now))) }
{
    Vec::from_slice(alloc, found.get_strs("folders").unwrap_or(&[]))
}

/// Whether the flag of a name was given.
fn has_flag(found: &ArgMatches<'_>, name: &str) -> bool
    ensures { result ≡ is_given name.now (rows_of (found_of found.now)) }
{
    found.get_str(name).unwrap_or("") == "true"
}

/// Whether lines are wanted to which an editor jumps.
fn is_by_lines(found: &ArgMatches<'_>) -> bool
    ensures { result ≡ spec.is_by_lines (rows_of (found_of found.now)) }
{
    format_in(found) == "lines"
}

/// How what is told is to be told.
fn format_in<'a>(found: &ArgMatches<'a>) -> &'a str
    ensures { result.now ≡ format_of (rows_of (found_of found.now)) }
{
    found.get_str("format").unwrap_or("text")
}

/// The file of the name that an option gives.
fn output_in<'a>(found: &ArgMatches<'a>) -> Option<&'a str>
    ensures { option_map (λ name. name.now) result ≡ first_of (codes "output") (rows_of (found_of found.now)) }
{
    found.get_str("output")
}

/// How a document is taken, and what is made of it.
fn options_in<'a>(found: &ArgMatches<'a>) -> Options<'a>
    ensures { options_view result ≡ options_of (rows_of (found_of found.now)) }
{
    Options {
        is_strict: has_flag(found, "strict"),
        of_configuration: has_flag(found, "config"),
        as_json: format_in(found) == "json",
        is_dump: has_flag(found, "dump"),
        saved_as: output_in(found),
    }
}

/// What the arguments of `explain` ask for.
fn explanation_in<'a>(alloc: Global, found: &ArgMatches<'a>) -> Result<Request<'a>, AllocError>
    ensures { IfOk result (λ r. view r ≡ explanation_of (rows_of (found_of found.now))) }
{
    let codes = Vec::from_slice(alloc, found.get_strs("CODE").unwrap_or(&[]))?;
    Ok(Request::Explain { codes })
}

/// What the arguments of `compile` ask for.
fn compilation_in<'a>(alloc: Global, found: &ArgMatches<'a>) -> Result<Request<'a>, AllocError>
    ensures { IfOk result (λ r. view r ≡ compilation_of (rows_of (found_of found.now))) }
{
    let language = language_in(alloc, found)?;
    let modules = modules_in(alloc, found)?;
    Ok(Request::Compile { language, modules })
}

/// What is drawn: all modules where that is asked for, or where a word stands alone, which is a module's file then.
fn drawing_by<'a>(
    of_all: bool,
    language: Language,
    name: &'a str,
    mut modules: Vec<&'a str>,
) -> Result<Request<'a>, AllocError>
    ensures { IfOk result (λ r. view r ≡ spec.drawing_by of_all (language_view language) name.entry.now (map (λ n. n.now) modules.entry.items)) }
{
    if of_all || modules.is_empty() {
        modules.insert(0, name)?;
        return Ok(Request::Trees { language, modules });
    }
    Ok(Request::Tree {
        language,
        name,
        modules,
    })
}

/// What the arguments of `tree` ask for.
fn drawing_in<'a>(alloc: Global, found: &ArgMatches<'a>) -> Result<Request<'a>, AllocError>
    ensures { IfOk result (λ r. view r ≡ drawing_of (rows_of (found_of found.now))) }
{
    let name = found.get_str("NAME").unwrap_or("");
    let language = language_in(alloc, found)?;
    let modules = modules_in(alloc, found)?;
    drawing_by(has_flag(found, "all"), language, name, modules)
}

/// What the arguments of `validate` ask for.
fn validation_in<'a>(alloc: Global, found: &ArgMatches<'a>) -> Result<Request<'a>, AllocError>
    ensures { IfOk result (λ r. view r ≡ validation_of (rows_of (found_of found.now))) }
{
    let options = options_in(found);
    let document = found.get_str("DATA").unwrap_or("");
    let language = language_in(alloc, found)?;
    let modules = modules_in(alloc, found)?;
    Ok(Request::Validate {
        language,
        options,
        document,
        modules,
    })
}

/// What the arguments of `edit` ask for.
fn edition_in<'a>(alloc: Global, found: &ArgMatches<'a>) -> Result<Request<'a>, AllocError>
    ensures { IfOk result (λ r. view r ≡ edition_of (rows_of (found_of found.now))) }
{
    let options = options_in(found);
    let document = found.get_str("DATA").unwrap_or("");
    let script = found.get_str("SCRIPT").unwrap_or("");
    let language = language_in(alloc, found)?;
    let modules = modules_in(alloc, found)?;
    Ok(Request::Edit {
        language,
        options,
        document,
        script,
        modules,
    })
}

/// The word that says how many edits of a session can be taken back.
fn undo_in<'a>(found: &ArgMatches<'a>) -> Option<&'a str>
    ensures { option_map (λ word. word.now) result ≡ first_of (codes "undo") (rows_of (found_of found.now)) }
{
    found.get_str("undo")
}

/// The number that a word says, or as many as without one.
fn remembered_by(word: Option<&str>) -> usize
    ensures { result ≡ spec.remembered_by (option_map (λ word. word.now) word.entry) }
{
    match word {
        Some(word) => match count(word) {
            Some(number) => number as usize,
            None => MOST_REMEMBERED,
        },
        None => MOST_REMEMBERED,
    }
}

/// How many edits of a session can be taken back.
fn remembered_in(found: &ArgMatches<'_>) -> usize
    ensures { result ≡ remembers_of (rows_of (found_of found.now)) }
{
    remembered_by(undo_in(found))
}

/// What the arguments of `session` ask for.
fn opening_in<'a>(alloc: Global, found: &ArgMatches<'a>) -> Result<Opening<'a>, AllocError>
    ensures { IfOk result (λ o. opening_view o ≡ opening_of (rows_of (found_of found.now))) }
{
    let is_strict = has_flag(found, "strict");
    let remembers = remembered_in(found);
    let tells_changes = has_flag(found, "changes");
    let of_configuration = has_flag(found, "config");
    let document = found.get_str("DATA").unwrap_or("");
    let language = language_in(alloc, found)?;
    let modules = modules_in(alloc, found)?;
    Ok(Opening {
        language,
        is_strict,
        remembers,
        tells_changes,
        of_configuration,
        document,
        modules,
    })
}

/// What a command's arguments ask for.
fn asked_in<'a>(alloc: Global, name: &str, found: &ArgMatches<'a>) -> Result<Asked<'a>, AllocError>
    ensures { IfOk result (λ a. asked_view a ≡ asked_of name.now (rows_of (found_of found.now))) }
{
    if name == "session" {
        Ok(Asked::Session(opening_in(alloc, found)?))
    } else {
        let request = request_in(alloc, name, found)?;
        Ok(Asked::Report(request, is_by_lines(found)))
    }
}

/// What the arguments of a command ask for that tells something once.
fn request_in<'a>(
    alloc: Global,
    name: &str,
    found: &ArgMatches<'a>,
) -> Result<Request<'a>, AllocError>
    ensures { IfOk result (λ r. view r ≡ reported_of name.now (rows_of (found_of found.now))) }
{
    match name {
        "explain" => explanation_in(alloc, found),
        "compile" => compilation_in(alloc, found),
        "tree" => drawing_in(alloc, found),
        "validate" => validation_in(alloc, found),
        _ => edition_in(alloc, found),
    }
}

/// What taken words ask for.
fn line_in<'a>(alloc: Global, matches: &ArgMatches<'a>) -> Result<CommandLine<'a>, AllocError>
    ensures asked { IfOk result (λ l. asked_view l.asked
        ≡ asked_by (subcommand_rows_of matches.now)) }
    ensures reasons { IfOk result (λ l. l.with_reasons
        ≡ explained_by (subcommand_rows_of matches.now)) }
    ensures folders { IfOk result (λ l. map (λ folder. folder.now) l.folders.items
        ≡ folders_by (subcommand_rows_of matches.now)) }
{
    match matches.subcommand() {
        Some((name, found)) => Ok(CommandLine {
            asked: asked_in(alloc, name, found)?,
            with_reasons: has_flag(found, "explain"),
            folders: folders_in(alloc, found)?,
        }),
        None => Ok(CommandLine {
            asked: Asked::Report(
                Request::Compile {
                    language: Language::Core,
                    modules: Vec::new(alloc),
                },
                false,
            ),
            with_reasons: false,
            folders: Vec::new(alloc),
        }),
    }
}

/// A format that isn't known.
fn unknown_format<'a>(matches: &ArgMatches<'a>) -> Option<&'a str>
    ensures { option_map (λ name. name.now) result ≡ spec.unknown_format (subcommand_rows_of matches.now) }
{
    match matches.subcommand() {
        Some((name, found)) => {
            let format = format_in(found);
            if is_format(name, format) {
                None
            } else {
                Some(format)
            }
        }
        None => None,
    }
}

/// Whether a command tells of a document.
fn is_over_document(command: &str) -> bool
    ensures { result ≡ spec.is_over_document command.now }
{
    command == "validate" || command == "edit"
}

/// Whether a command can tell so.
fn is_format(command: &str, name: &str) -> bool
    ensures { result ≡ spec.is_format command.now name.now }
{
    name == "text" || (name == "lines" || (is_over_document(command) && name == "json"))
}

/// A profile that isn't known.
fn unknown_profile<'a>(matches: &ArgMatches<'a>) -> Option<&'a str>
    ensures { option_map (λ name. name.now) result ≡ spec.unknown_profile (subcommand_rows_of matches.now) }
{
    match matches.subcommand() {
        Some((_, found)) => {
            let profile = profile_in(found);
            if is_profile(profile) {
                None
            } else {
                Some(profile)
            }
        }
        None => None,
    }
}

/// A word that chooses features of no module.
fn unfit_features<'a>(matches: &ArgMatches<'a>) -> Option<&'a str>
    ensures { option_map (λ word. word.now) result ≡ spec.unfit_features (subcommand_rows_of matches.now) }
{
    match matches.subcommand() {
        Some((_, found)) => unfit_choosing_in(found),
        None => None,
    }
}

/// Whether features are chosen under a profile without any.
fn features_in_core(matches: &ArgMatches<'_>) -> bool
    ensures { result ≡ spec.features_in_core (subcommand_rows_of matches.now) }
{
    match matches.subcommand() {
        Some((_, found)) => chooses_in_core(found),
        None => false,
    }
}

/// A word that names other than the conditions that there are.
fn unfit_conditions<'a>(matches: &ArgMatches<'a>) -> Option<&'a str>
    ensures { option_map (λ word. word.now) result ≡ spec.unfit_conditions (subcommand_rows_of matches.now) }
{
    match matches.subcommand() {
        Some((_, found)) => unfit_unjudged_in(found),
        None => None,
    }
}

/// Whether conditions aren't judged under a profile without any.
fn conditions_in_core(matches: &ArgMatches<'_>) -> bool
    ensures { result ≡ spec.conditions_in_core (subcommand_rows_of matches.now) }
{
    match matches.subcommand() {
        Some((_, found)) => passes_in_core(found),
        None => false,
    }
}

/// A word that is no number up to the largest, for how many edits can be taken back.
fn unfit_count<'a>(matches: &ArgMatches<'a>) -> Option<&'a str>
    ensures { option_map (λ word. word.now) result ≡ spec.unfit_count (subcommand_rows_of matches.now) }
{
    match matches.subcommand() {
        Some((_, found)) => no_count(undo_in(found)),
        None => None,
    }
}

/// The word, where it is no number up to the largest.
fn no_count(word: Option<&str>) -> Option<&str>
    ensures { option_map (λ word. word.now) result ≡ spec.no_count (option_map (λ word. word.now) word.entry) }
{
    match word {
        Some(word) if count(word).is_none() => Some(word),
        _ => None,
    }
}

/// A stream that is named for the edited document.
fn named_stream<'a>(matches: &ArgMatches<'a>) -> Option<&'a str>
    ensures { option_map (λ name. name.now) result ≡ spec.named_stream (subcommand_rows_of matches.now) }
{
    match matches.subcommand() {
        Some((_, found)) => stream_in(output_in(found)),
        None => None,
    }
}

/// The name of a stream, where a name is one.
fn stream_in(name: Option<&str>) -> Option<&str>
    ensures { option_map (λ name. name.now) result ≡ spec.stream_in (option_map (λ name. name.now) name.entry) }
{
    match name {
        Some(name) if matches!(name, "-" | "/dev/stdout" | "/dev/stderr") => Some(name),
        _ => None,
    }
}

/// Whether standard input is named for the document and for the script.
fn reads_input_twice(matches: &ArgMatches<'_>) -> bool
    ensures { result ≡ spec.reads_input_twice (subcommand_rows_of matches.now) }
{
    match matches.subcommand() {
        Some((_, found)) => is_input(found, "DATA") && is_input(found, "SCRIPT"),
        None => false,
    }
}

/// Whether standard input, which has the requests of a session, is named for its document.
fn reads_requests_twice(matches: &ArgMatches<'_>) -> bool
    ensures { result ≡ spec.reads_requests_twice (subcommand_rows_of matches.now) }
{
    match matches.subcommand() {
        Some((name, found)) => name == "session" && is_input(found, "DATA"),
        None => false,
    }
}

/// Whether an argument names standard input.
fn is_input(found: &ArgMatches<'_>, argument: &str) -> bool
    ensures { result ≡ spec.is_input (value_of argument.now (rows_of (found_of found.now))) }
{
    found.get_str(argument).unwrap_or("") == "-"
}

/// A refusal with a sentence, if there is memory for it.
fn refusal(text: Result<String, AllocError>) -> NoRequest
    ensures { IsRefusal result }
{
    match text {
        Ok(text) => NoRequest::Refused(text),
        Err(_) => NoRequest::Memory,
    }
}

/// The refusal of a format that isn't known.
fn format_refusal(alloc: Global, format: &str) -> NoRequest
    ensures { IsRefusal result }
{
    refusal(format!(in alloc;
        "error: invalid value '{format}' for '--format <FORMAT>'\n  [possible values: text, lines, and of a document json]\n\nFor more information, try '--help'.\n"
    ))
}

/// The refusal of a word that is no number up to the largest.
fn count_refusal(alloc: Global, word: &str) -> NoRequest
    ensures { IsRefusal result }
{
    refusal(format!(in alloc;
        "error: invalid value '{word}' for '--undo <N>': it isn't a whole number in 0..=4294967295\n\nFor more information, try '--help'.\n"
    ))
}

/// The refusal of a profile that isn't known.
fn profile_refusal(alloc: Global, profile: &str) -> NoRequest
    ensures { IsRefusal result }
{
    refusal(format!(in alloc;
        "error: invalid value '{profile}' for '--profile <PROFILE>'\n  [possible values: core, rfc]\n\nFor more information, try '--help'.\n"
    ))
}

/// The refusal of a word that chooses features of no module.
fn features_refusal(alloc: Global, word: &str) -> NoRequest
    ensures { IsRefusal result }
{
    refusal(format!(in alloc;
        "error: '--features {word}' names no module: write MODULE:FEATURES, as net:ssh,ntp\n\nFor more information, try '--help'.\n"
    ))
}

/// The refusal of features under a profile without any.
fn core_refusal(alloc: Global) -> NoRequest
    ensures { IsRefusal result }
{
    refusal(format!(in alloc;
        "error: the profile core has no features: '--features' stands with '--profile rfc'\n\nFor more information, try '--help'.\n"
    ))
}

/// The refusal of a word that names other than the conditions that there are.
fn conditions_refusal(alloc: Global, word: &str) -> NoRequest
    ensures { IsRefusal result }
{
    refusal(format!(in alloc;
        "error: invalid value '{word}' for '--unjudged <CONDITIONS>'\n  [possible values: must, when, must,when]\n\nFor more information, try '--help'.\n"
    ))
}

/// The refusal of conditions under a profile without any.
fn core_conditions_refusal(alloc: Global) -> NoRequest
    ensures { IsRefusal result }
{
    refusal(format!(in alloc;
        "error: the profile core has no conditions: '--unjudged' stands with '--profile rfc'\n\nFor more information, try '--help'.\n"
    ))
}

/// The refusal of a stream for the edited document.
fn stream_refusal(alloc: Global, name: &str) -> NoRequest
    ensures { IsRefusal result }
{
    refusal(format!(in alloc;
        "error: '--output {name}' names no file: --dump prints the edited document\n\nFor more information, try '--help'.\n"
    ))
}

/// The refusal of standard input for two files.
fn input_refusal(alloc: Global) -> NoRequest
    ensures { IsRefusal result }
{
    refusal(format!(in alloc;
        "error: DATA and SCRIPT can't both be -: standard input is read once\n\nFor more information, try '--help'.\n"
    ))
}

/// The refusal of standard input for the document of a session.
fn requests_refusal(alloc: Global) -> NoRequest
    ensures { IsRefusal result }
{
    refusal(format!(in alloc;
        "error: DATA of a session can't be -: standard input has the requests\n\nFor more information, try '--help'.\n"
    ))
}

/// The refusal of help for a word that is no command's.
fn command_refusal(alloc: Global, name: &str) -> NoRequest
    ensures { IsRefusal result }
{
    refusal(format!(in alloc;
        "error: no command is called '{name}'; the commands are compile, tree, validate, edit, session and explain\n\nFor more information, try '--help'.\n"
    ))
}

/// The refusal of conditions that can't be named so, where some are.
fn condition_refusal(alloc: Global, matches: &ArgMatches<'_>) -> Option<NoRequest>
    ensures { Refuses (condition_fault (subcommand_rows_of matches.now)) result }
{
    if let Some(word) = unfit_conditions(matches) {
        return Some(conditions_refusal(alloc, word));
    }
    if conditions_in_core(matches) {
        return Some(core_conditions_refusal(alloc));
    }
    None
}

/// The refusal of a profile or of features that can't be named so, where some are.
fn feature_refusal(alloc: Global, matches: &ArgMatches<'_>) -> Option<NoRequest>
    ensures { Refuses (feature_fault (subcommand_rows_of matches.now)) result }
{
    if let Some(profile) = unknown_profile(matches) {
        return Some(profile_refusal(alloc, profile));
    }
    if let Some(word) = unfit_features(matches) {
        return Some(features_refusal(alloc, word));
    }
    if features_in_core(matches) {
        return Some(core_refusal(alloc));
    }
    None
}

/// The refusal of a language that can't be named so, where one is.
fn language_refusal(alloc: Global, matches: &ArgMatches<'_>) -> Option<NoRequest>
    ensures { Refuses (language_fault (subcommand_rows_of matches.now)) result }
{
    match feature_refusal(alloc, matches) {
        Some(refusal) => Some(refusal),
        None => condition_refusal(alloc, matches),
    }
}

/// The refusal of files that can't be named so, where some are.
fn file_refusal(alloc: Global, matches: &ArgMatches<'_>) -> Option<NoRequest>
    ensures { Refuses (file_fault (subcommand_rows_of matches.now)) result }
{
    if let Some(name) = named_stream(matches) {
        return Some(stream_refusal(alloc, name));
    }
    if reads_input_twice(matches) {
        return Some(input_refusal(alloc));
    }
    if reads_requests_twice(matches) {
        return Some(requests_refusal(alloc));
    }
    None
}

/// What words ask for that clap takes.
fn line_or_refusal<'a>(
    alloc: Global,
    matches: &ArgMatches<'a>,
) -> Result<CommandLine<'a>, NoRequest>
    ensures { TakesFit (subcommand_rows_of matches.now) result }
{
    if let Some(format) = unknown_format(matches) {
        return Err(format_refusal(alloc, format));
    }
    if let Some(word) = unfit_count(matches) {
        return Err(count_refusal(alloc, word));
    }
    if let Some(refusal) = language_refusal(alloc, matches) {
        return Err(refusal);
    }
    if let Some(refusal) = file_refusal(alloc, matches) {
        return Err(refusal);
    }
    Ok(line_in(alloc, matches)?)
}

/// What clap's error comes to.
fn without_request(alloc: Global, error: &clap::Error) -> NoRequest
    ensures { Explains (kind_of error.now) result }
{
    let text = match format!(in alloc; "{error}") {
        Ok(text) => text,
        Err(_) => return NoRequest::Memory,
    };
    match error.kind() {
        ErrorKind::OutOfMemory => NoRequest::Memory,
        ErrorKind::DisplayHelp | ErrorKind::DisplayVersion => NoRequest::Help(text),
        _ => NoRequest::Refused(text),
    }
}

/// What words ask for as they stand.
fn taken_words<'a>(alloc: Global, words: &'a [String]) -> Result<CommandLine<'a>, NoRequest>
    ensures { Takes (map string_bytes words.entry.now) result }
{
    match application(alloc)?.try_get_matches_from(words) {
        Ok(matches) => line_or_refusal(alloc, &matches),
        Err(error) => Err(without_request(alloc, &error)),
    }
}

/// The help for which words ask.
fn help_for(alloc: Global, words: &[&str]) -> NoRequest
    requires { asks_help (fault_of yanglive (map (λ word. word.now) words.now)) ≡ true }
    ensures { Declines (spec.faults_of (map (λ word. word.now) words.now)) result }
{
    match application(alloc) {
        Ok(application) => match application.try_get_matches_from(words) {
            Ok(_) => unreachable!(),
            Err(error) => without_request(alloc, &error),
        },
        Err(_) => NoRequest::Memory,
    }
}

/// Whether a command has this name.
fn is_command(name: &str) -> bool
    ensures { result ≡ spec.is_command name.now }
{
    matches!(
        name,
        "explain" | "compile" | "tree" | "validate" | "edit" | "session"
    )
}

/// The help for a word behind `help`: that of a command, or a refusal where no command has that name.
fn help_about(alloc: Global, program: &str, help: &str, name: &str) -> NoRequest
    requires { bytes_eq help.now (codes "help") ≡ true }
    ensures { Declines (spec.refusals (program.now ∷ help.now ∷ name.now ∷ [])) result }
{
    if is_command(name) {
        help_for(alloc, &[program, name, "--help"])
    } else {
        command_refusal(alloc, name)
    }
}

/// What a command line asks for. Its first word is the program's name; `help` stands for `--help`.
pub fn read_words<'a>(alloc: Global, words: &'a [String]) -> Result<CommandLine<'a>, NoRequest>
    ensures { Understands (map string_bytes words.entry.now) result }
{
    match words {
        [program, word] => {
            if word.as_str() == "help" {
                Err(help_for(alloc, &[program.as_str(), "--help"]))
            } else {
                taken_words(alloc, words)
            }
        }
        [program, word, name] => {
            if word.as_str() == "help" {
                Err(help_about(alloc, program.as_str(), word.as_str(), name.as_str()))
            } else {
                taken_words(alloc, words)
            }
        }
        _ => taken_words(alloc, words),
    }
}
