//! The commands of the program, over files and sinks that the caller gives.
#![tactic(auto)]

mod answering;
mod contents;
mod document;
mod modules;
mod opening;
mod program;
mod requests;
mod saying;
mod unjudged;

pub use answering::answer;
pub use document::{Document, edit_document};
pub use opening::{Opened, open};
pub use program::run;
pub use saying::{refuse, tell_memory};
pub use unjudged::Found;
pub use yapp_report::{
    DocumentReport, EditedDocument, Ended, FAILED, FAULTY, Failure, FileFault, Files, GOOD,
    MISUSED, REFUSED, Report, SavedFile, Shelf, Stop, Unreadable, Unsaved, save, tell_unwritten,
};
pub use yapp_script::{Refusal, RefusedLine, ValueCode};
pub use yapp_words::{Asked, CommandLine, NoRequest, Opening, Options, Request, read_words};
