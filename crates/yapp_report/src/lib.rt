//! What a run prints and saves: what a command found or why it found nothing, as lines or objects, and files that are read and
//! written.
#![tactic(auto)]

mod edited;
mod failure;
mod files;
mod object;
mod reason;
mod report;
mod saving;
mod status;

pub use edited::EditedDocument;
pub use failure::{Failure, Stop};
pub use files::{FileFault, Files, Unreadable};
pub use object::{failure_object, line_objects};
pub use report::{DocumentReport, Report};
pub use saving::{Ended, SavedFile, Shelf, Unsaved, ended_after, save, tell_unwritten};
pub use status::{FAILED, FAULTY, GOOD, MISUSED, REFUSED};
