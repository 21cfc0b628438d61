//! What a line asks for.

ghost use Rattle.std.specs.Prelude.{◌≡◌, IfOk, option_map};
ghost use Rattle.yspec.specs.edit.EditText.{operands};
ghost use Rattle.yspec.specs.edit.Editing.{edit_asked};
ghost use Rattle.yspec_session.specs.Session.{below, change, value};
ghost use Rattle.yspec_session.specs.Requests as spec;
ghost use Rattle.yinst_path.specs.EditView.{path_view};
ghost use Rattle.yapp_session.specs.Asked.{Asks, page_from};

use std::alloc::{AllocError, Global};
use yinst::{Edit, EditFault, Path};
use yinst_path::{cut, operands, position_alone};

/// What a line asks for.
#[derive(Debug, Drop)]
pub enum Request {
    Change(Edit),
    /// Faults behind so many, at most so many where that is said.
    Faults { behind: usize, count: Option<usize> },
    /// The faults of a node and of all below it.
    Below(Path),
    /// What is stored at a node.
    Value(Path),
    Undo,
    Document,
    Begin,
    Commit,
    Back,
    /// To save.
    Unserved,
}

/// The request that a line spells; bytes that are no text ask for nothing.
pub fn request_of(alloc: Global, line: &[u8]) -> Result<Option<Request>, AllocError>
    ensures { IfOk result (λ asked. Asks asked (spec.request_of line.now)) }
{
    match str::from_utf8(line) {
        Ok(text) => request_in(alloc, text),
        Err(_) => Ok(None),
    }
}

/// The request that a text spells.
fn request_in(alloc: Global, text: &str) -> Result<Option<Request>, AllocError>
    ensures { IfOk result (λ asked. Asks asked (spec.request_in text.now)) }
{
    if let Some(request) = bare_request(text) {
        return Ok(Some(request));
    }
    match cut(text, b' ') {
        Some((verb, rest)) => request_with(alloc, text, verb, rest),
        None => Ok(None),
    }
}

/// That of one word.
fn bare_request(text: &str) -> Option<Request>
    ensures { Asks result (spec.bare_request text.now) }
{
    match text {
        "undo" => Some(Request::Undo),
        "document" => Some(Request::Document),
        "begin" => Some(Request::Begin),
        "commit" => Some(Request::Commit),
        "back" => Some(Request::Back),
        "faults" => Some(Request::Faults {
            behind: 0,
            count: None,
        }),
        _ => None,
    }
}

/// That of several words; edits are spelled as in scripts.
fn request_with(
    alloc: Global,
    text: &str,
    verb: &str,
    rest: &str,
) -> Result<Option<Request>, AllocError>
    ensures { IfOk result (λ asked. Asks asked
        (spec.request_with text.now (verb.now, rest.now))) }
{
    match verb {
        "faults" => Ok(page_asked(rest)),
        "below" => below_asked(alloc, rest),
        "value" => value_asked(alloc, rest),
        "save" => Ok(file_asked(rest)),
        _ => change_asked(alloc, text),
    }
}

/// A page of faults, from the one of a number on.
fn page_asked(text: &str) -> Option<Request>
    ensures { Asks result (spec.page_asked (operands text.now)) }
{
    let (first, more) = operands(text);
    page_from(position_alone(first)?, more)
}

/// A page of faults from the one of a number on, and perhaps how many.
fn page_from(first: u32, count: &str) -> Option<Request>
    ensures { Asks result (page_from first count.now) }
{
    let behind = (first as usize).saturating_sub(1);
    if count.is_empty() {
        return Some(Request::Faults {
            behind,
            count: None,
        });
    }
    let count = position_alone(count)?;
    Some(Request::Faults {
        behind,
        count: Some(count as usize),
    })
}

/// The faults of a node.
fn below_asked(alloc: Global, text: &str) -> Result<Option<Request>, AllocError>
    ensures { IfOk result (λ asked. Asks asked (option_map below (spec.path_alone (operands text.now)))) }
{
    match path_alone(alloc, text)? {
        Some(path) => Ok(Some(Request::Below(path))),
        None => Ok(None),
    }
}

/// What is stored at a node.
fn value_asked(alloc: Global, text: &str) -> Result<Option<Request>, AllocError>
    ensures { IfOk result (λ asked. Asks asked (option_map value (spec.path_alone (operands text.now)))) }
{
    match path_alone(alloc, text)? {
        Some(path) => Ok(Some(Request::Value(path))),
        None => Ok(None),
    }
}

/// The path that a text spells, and nothing else.
fn path_alone(alloc: Global, text: &str) -> Result<Option<Path>, AllocError>
    ensures { IfOk result (λ path. option_map path_view path ≡ spec.path_alone (operands text.now)) }
{
    let (path, more) = operands(text);
    if !more.is_empty() {
        return Ok(None);
    }
    match Path::parse(alloc, path) {
        Ok(path) => Ok(Some(path)),
        Err(EditFault::Refused { .. }) => Ok(None),
        Err(EditFault::Memory) => Err(AllocError),
    }
}

/// To save to a file, whose name may have spaces.
fn file_asked(name: &str) -> Option<Request>
    ensures { Asks result (spec.file_named name.now) }
{
    if name.is_empty() {
        None
    } else {
        Some(Request::Unserved)
    }
}

/// The edit that a text spells.
fn change_asked(alloc: Global, text: &str) -> Result<Option<Request>, AllocError>
    ensures { IfOk result (λ asked. Asks asked
        (option_map change (spec.edit_in (edit_asked text.now)))) }
{
    match Edit::parse(alloc, text) {
        Ok(Some(edit)) => Ok(Some(Request::Change(edit))),
        Ok(None) => Ok(None),
        Err(EditFault::Refused { .. }) => Ok(None),
        Err(EditFault::Memory) => Err(AllocError),
    }
}
