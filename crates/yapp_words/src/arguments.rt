//! The program's commands and their arguments, as `clap` is told of them.

ghost use Rattle.std.specs.Prelude.{◌≡◌, codes, IfOk};
ghost use Rattle.clap.specs.Words.{app_of};
ghost use Rattle.yapp_words.specs.Application.{IsArgument, IsCommand, any_number, compile_app, edit_app, explain_app, flag, letter_p, option, over_document, over_files, repeated, repeated_letter, session_app, told_once, tree_app, validate_app, wanted, wanted_all, yanglive};

use crate::help::{
    COMPILE_HELP, DOCUMENT_HELP, EDIT_HELP, EXPLAIN_HELP, SESSION_HELP, TREE_HELP, VALIDATE_HELP,
    VERSION,
};
use clap::{Arg, ArgAction, Command};
use std::alloc::{AllocError, Global};

/// `--profile PROFILE`
fn profile_argument<'a>(alloc: Global) -> Arg<'a>
    ensures { IsArgument (option (codes "profile")) result }
{
    Arg::new(alloc, "profile")
        .long("profile")
        .action(ArgAction::Set)
        .value_name("PROFILE")
        .help(
            "How modules are read: core, as YANG 1.1 without features, or rfc, as YANG 1 and 1.1 with features",
        )
}

/// `--features MODULE:FEATURES`
fn features_argument<'a>(alloc: Global) -> Arg<'a>
    ensures { IsArgument (repeated (codes "features")) result }
{
    Arg::new(alloc, "features")
        .long("features")
        .action(ArgAction::Append)
        .value_name("MODULE:FEATURES")
        .help(
            "Under --profile rfc the features of a module that are on, with commas between; all are of a module that isn't named",
        )
}

/// `--unjudged CONDITIONS`
fn unjudged_argument<'a>(alloc: Global) -> Arg<'a>
    ensures { IsArgument (option (codes "unjudged")) result }
{
    Arg::new(alloc, "unjudged")
        .long("unjudged")
        .action(ArgAction::Set)
        .value_name("CONDITIONS")
        .help(
            "Under --profile rfc the conditions that are read and not judged, must, when or must,when; how many there are is said on the error side",
        )
}

/// `-p DIR`
fn folders_argument<'a>(alloc: Global) -> Arg<'a>
    ensures { IsArgument (repeated_letter (codes "folders") letter_p) result }
{
    Arg::new(alloc, "folders")
        .short('p')
        .action(ArgAction::Append)
        .value_name("DIR")
        .help(
            "A folder where modules are looked for that are imported and not named, as NAME.yang or, of a date, NAME@DATE.yang; may be given again",
        )
}

/// `--explain`
fn explain_argument<'a>(alloc: Global) -> Arg<'a>
    ensures { IsArgument (flag (codes "explain")) result }
{
    Arg::new(alloc, "explain")
        .long("explain")
        .action(ArgAction::SetTrue)
        .help("Prints below each line with a code why it is told, and what to do")
}

/// A command over files, with its texts for help.
fn command_over_files<'a>(
    alloc: Global,
    name: &'a str,
    about: &'a str,
    help: &'a str,
) -> Result<Command<'a>, AllocError>
    ensures { IfOk result (IsCommand (over_files name.entry.now)) }
{
    Command::new(alloc, name)
        .about(about)
        .after_help(help)
        .arg(explain_argument(alloc))?
        .arg(profile_argument(alloc))?
        .arg(features_argument(alloc))?
        .arg(unjudged_argument(alloc))?
        .arg(folders_argument(alloc))
}

/// The modules, which are the last words of each command over files.
fn modules_argument<'a>(alloc: Global) -> Arg<'a>
    ensures { IsArgument (wanted_all (codes "MODULE")) result }
{
    Arg::new(alloc, "MODULE")
        .help("The files of the modules")
        .required(true)
        .num_args(1..)
}

/// `--strict`
fn strict_argument<'a>(alloc: Global) -> Arg<'a>
    ensures { IsArgument (flag (codes "strict")) result }
{
    Arg::new(alloc, "strict")
        .long("strict")
        .action(ArgAction::SetTrue)
        .help("Refuses a member that comes twice in one object")
}

/// `--config`
fn config_argument<'a>(alloc: Global) -> Arg<'a>
    ensures { IsArgument (flag (codes "config")) result }
{
    Arg::new(alloc, "config")
        .long("config")
        .action(ArgAction::SetTrue)
        .help("Looks at configuration alone: no state data is wanted, and each is a fault (V12)")
}

/// `--format FORMAT`
fn format_argument<'a>(alloc: Global) -> Arg<'a>
    ensures { IsArgument (option (codes "format")) result }
{
    Arg::new(alloc, "format")
        .long("format")
        .action(ArgAction::Set)
        .value_name("FORMAT")
        .help(
            "How faults and refusals are printed: text, lines for FILE:LINE:COLUMN: error: .., to which editors jump, or of a document json for an object a line",
        )
}

/// A command that tells something once, with its texts for help.
fn command_told_once<'a>(
    alloc: Global,
    name: &'a str,
    about: &'a str,
    help: &'a str,
) -> Result<Command<'a>, AllocError>
    ensures { IfOk result (IsCommand (told_once name.entry.now)) }
{
    command_over_files(alloc, name, about, help)?.arg(format_argument(alloc))
}

/// A command over a document, with its texts for help.
fn command_over_document<'a>(
    alloc: Global,
    name: &'a str,
    about: &'a str,
    help: &'a str,
) -> Result<Command<'a>, AllocError>
    ensures { IfOk result (IsCommand (over_document name.entry.now)) }
{
    command_told_once(alloc, name, about, help)?
        .arg(strict_argument(alloc))?
        .arg(config_argument(alloc))
}

/// The document, with what help says of it.
fn document_argument<'a>(alloc: Global, help: &'a str) -> Arg<'a>
    ensures { IsArgument (wanted (codes "DATA")) result }
{
    Arg::new(alloc, "DATA").help(help).required(true)
}

/// `compile [--explain] [--profile PROFILE] [--features MODULE:FEATURES].. [--unjudged CONDITIONS] [-p DIR].. [--format FORMAT] MODULE..`
fn compile_command<'a>(alloc: Global) -> Result<Command<'a>, AllocError>
    ensures { IfOk result (IsCommand compile_app) }
{
    command_told_once(
        alloc,
        "compile",
        "Counts the schema nodes of modules",
        COMPILE_HELP,
    )?
    .arg(modules_argument(alloc))
}

/// `--all`
fn all_argument<'a>(alloc: Global) -> Arg<'a>
    ensures { IsArgument (flag (codes "all")) result }
{
    Arg::new(alloc, "all")
        .long("all")
        .action(ArgAction::SetTrue)
        .help("Draws all modules: each word is the file of one")
}

/// The name of a module.
fn name_argument<'a>(alloc: Global) -> Arg<'a>
    ensures { IsArgument (wanted (codes "NAME")) result }
{
    Arg::new(alloc, "NAME")
        .help("The name of the module to draw; a word alone is its file")
        .required(true)
}

/// The modules behind a name, if there are any.
fn other_modules_argument<'a>(alloc: Global) -> Arg<'a>
    ensures { IsArgument (any_number (codes "MODULE")) result }
{
    Arg::new(alloc, "MODULE")
        .help("The files of the modules")
        .num_args(0..)
}

/// `tree ..` with these, `[--all] NAME [MODULE..]`
fn tree_command<'a>(alloc: Global) -> Result<Command<'a>, AllocError>
    ensures { IfOk result (IsCommand tree_app) }
{
    command_told_once(
        alloc,
        "tree",
        "Prints the tree diagram of a module",
        TREE_HELP,
    )?
    .arg(all_argument(alloc))?
    .arg(name_argument(alloc))?
    .arg(other_modules_argument(alloc))
}

/// `validate ..` with these, `[--strict] [--config] DATA MODULE..`
fn validate_command<'a>(alloc: Global) -> Result<Command<'a>, AllocError>
    ensures { IfOk result (IsCommand validate_app) }
{
    command_over_document(
        alloc,
        "validate",
        "Prints the faults of a document under modules",
        VALIDATE_HELP,
    )?
    .arg(document_argument(alloc, DOCUMENT_HELP))?
    .arg(modules_argument(alloc))
}

/// The script.
fn script_argument<'a>(alloc: Global) -> Arg<'a>
    ensures { IsArgument (wanted (codes "SCRIPT")) result }
{
    Arg::new(alloc, "SCRIPT")
        .help("The file of the edits, one a line; - for standard input")
        .required(true)
}

/// `--dump`
fn dump_argument<'a>(alloc: Global) -> Arg<'a>
    ensures { IsArgument (flag (codes "dump")) result }
{
    Arg::new(alloc, "dump")
        .long("dump")
        .action(ArgAction::SetTrue)
        .help("Prints the edited document in place of its faults")
}

/// `--output FILE`
fn output_argument<'a>(alloc: Global) -> Arg<'a>
    ensures { IsArgument (option (codes "output")) result }
{
    Arg::new(alloc, "output")
        .long("output")
        .action(ArgAction::Set)
        .value_name("FILE")
        .help("Writes the edited document to FILE, once all else is printed")
}

/// `edit ..` with these, `[--strict] [--config] [--dump] [--output FILE] DATA SCRIPT MODULE..`
fn edit_command<'a>(alloc: Global) -> Result<Command<'a>, AllocError>
    ensures { IfOk result (IsCommand edit_app) }
{
    command_over_document(
        alloc,
        "edit",
        "Edits a document, and prints its faults then",
        EDIT_HELP,
    )?
    .arg(dump_argument(alloc))?
    .arg(output_argument(alloc))?
    .arg(document_argument(alloc, DOCUMENT_HELP))?
    .arg(script_argument(alloc))?
    .arg(modules_argument(alloc))
}

/// `--undo N`
fn undo_argument<'a>(alloc: Global) -> Arg<'a>
    ensures { IsArgument (option (codes "undo")) result }
{
    Arg::new(alloc, "undo")
        .long("undo")
        .action(ArgAction::Set)
        .value_name("N")
        .help("How many edits can be taken back, the last first; 1000 where it isn't said")
}

/// `--changes`
fn changes_argument<'a>(alloc: Global) -> Arg<'a>
    ensures { IsArgument (flag (codes "changes")) result }
{
    Arg::new(alloc, "changes")
        .long("changes")
        .action(ArgAction::SetTrue)
        .help("Tells of each change which faults come and go")
}

/// `session ..` with these, `[--strict] [--config] [--undo N] [--changes] DATA MODULE..`
fn session_command<'a>(alloc: Global) -> Result<Command<'a>, AllocError>
    ensures { IfOk result (IsCommand session_app) }
{
    command_over_files(
        alloc,
        "session",
        "Opens a document, and answers requests line by line",
        SESSION_HELP,
    )?
    .arg(strict_argument(alloc))?
    .arg(config_argument(alloc))?
    .arg(undo_argument(alloc))?
    .arg(changes_argument(alloc))?
    .arg(document_argument(alloc, "The file of the document, in JSON"))?
    .arg(modules_argument(alloc))
}

/// The codes that are to be explained.
fn codes_argument<'a>(alloc: Global) -> Arg<'a>
    ensures { IsArgument (any_number (codes "CODE")) result }
{
    Arg::new(alloc, "CODE")
        .help("A code as it is printed, such as C5")
        .num_args(0..)
}

/// `explain [CODE..]`
fn explain_command<'a>(alloc: Global) -> Result<Command<'a>, AllocError>
    ensures { IfOk result (IsCommand explain_app) }
{
    Command::new(alloc, "explain")
        .about("Tells what codes mean and what to do")
        .after_help(EXPLAIN_HELP)
        .arg(codes_argument(alloc))
}

/// The program's commands.
pub(crate) fn application<'a>(alloc: Global) -> Result<Command<'a>, AllocError>
    ensures { IfOk result (λ c. app_of c ≡ yanglive) }
{
    Command::new(alloc, "yanglive")
        .about("Compiles and draws YANG modules, and checks and edits JSON documents under them")
        .version(VERSION)
        .disable_help_subcommand(true)
        .subcommand_required(true)
        .subcommand(compile_command(alloc)?)?
        .subcommand(tree_command(alloc)?)?
        .subcommand(validate_command(alloc)?)?
        .subcommand(edit_command(alloc)?)?
        .subcommand(session_command(alloc)?)?
        .subcommand(explain_command(alloc)?)
}
