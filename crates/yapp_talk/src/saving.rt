//! The document of a session, kept as the file that a request names.

ghost use Rattle.std.specs.Prelude.{◌≡◌, ◌++◌, codes, IfOk, OnErr, option_map, string_bytes};
ghost use Rattle.serde_json.specs.Data.{string};
ghost use Rattle.serde_json.specs.Written.{compact_text};
ghost use Rattle.ybase_talk.specs.Talk.{IsUnanswered, party};
ghost use Rattle.yspec_session.specs.Requests.{request_of};
ghost use Rattle.ylive.specs.View.{view};
ghost use Rattle.yapp_talk.specs.Saving as spec;
ghost use Rattle.yapp_talk.specs.Saving.{AreKept, file_asked, IsSaved, IsSavedOrShort};

use serde_json::Value;
use std::alloc::{AllocError, Global};
use ybase_talk::Caller;
use yinst_path::cut;
use yinst_tree::write;
use ylive::Live;
use ysay_session::short_text;

/// The file that a request to save names.
pub(crate) fn file_named(line: &[u8]) -> Option<&str>
    ensures { option_map (λ file. file.now) result ≡ file_asked (request_of line.now) }
{
    match str::from_utf8(line) {
        Ok(text) => file_in(text),
        Err(_) => None,
    }
}

/// The file that a text names which spells a request to save.
fn file_in(text: &str) -> Option<&str>
    ensures { option_map (λ file. file.now) result ≡ spec.file_in text.now }
{
    match cut(text, b' ') {
        Some((verb, file)) => named_by(verb, file),
        None => None,
    }
}

/// The file that stands behind a verb, where that is `save`.
fn named_by<'t>(verb: &str, file: &'t str) -> Option<&'t str>
    ensures { option_map (λ file. file.now) result ≡ spec.named_by (verb.now, file.entry.now) }
{
    if verb == "save" && !file.is_empty() {
        Some(file)
    } else {
        None
    }
}

/// The document, as it is written to a file.
fn file_text(alloc: Global, live: &Live) -> Result<String, AllocError>
    ensures { IfOk result (λ text. string_bytes text ≡ spec.file_text (view live.now)) }
{
    let tree = live.tree()?;
    let mut text = write(alloc, live.schema(), &tree)?;
    text.push_str("\n")?;
    Ok(text)
}

/// A text as a string of JSON.
fn quoted(alloc: Global, text: &str) -> Result<String, AllocError>
    ensures { IfOk result (λ quoted. string_bytes quoted ≡ compact_text (string text.now)) }
{
    Value::String(String::from_str(alloc, text)?).to_string(alloc)
}

/// That the document was written to a file.
fn saved_text(alloc: Global, file: &str) -> Result<String, AllocError>
    ensures { IfOk result (λ text. string_bytes text ≡ spec.saved_text file.now) }
{
    let name = quoted(alloc, file)?;
    ["{\"saved\":", name.as_str(), "}"].concat(alloc)
}

/// That it couldn't be written to a file, and why.
fn unsaved_text(alloc: Global, file: &str, cause: &str) -> Result<String, AllocError>
    ensures { IfOk result (λ text. string_bytes text ≡ spec.unsaved_text file.now cause.now) }
{
    let message = ["Cannot write ", file, ": ", cause, "."].concat(alloc)?;
    let quoted = quoted(alloc, message.as_str())?;
    ["{\"refused\":\"save\",\"message\":", quoted.as_str(), "}"].concat(alloc)
}

/// Has the document kept as a file. What memory is needed for is made before, but for the words of a cause.
fn keep<C: Caller>(
    alloc: Global,
    live: &Live,
    file: &str,
    caller: &mut C,
) -> Result<String, AllocError>
    ensures ok { IfOk result (λ text. AreKept (IsSaved (view live.now) file.now (string_bytes text))
        (party C.events C.failures caller.old) (party C.events C.failures caller.new)) }
    ensures err { OnErr result (IsUnanswered (party C.events C.failures caller.old)
        (party C.events C.failures caller.new)) }
{
    let text = file_text(alloc, live)?;
    let saved = saved_text(alloc, file)?;
    match caller.keep(file, text.as_str()) {
        Ok(()) => Ok(saved),
        Err(cause) => unsaved_text(alloc, file, cause),
    }
}

/// The answer to a request to save. Where memory runs out for one, that is said if there is memory for it.
pub(crate) fn save<C: Caller>(
    alloc: Global,
    live: &Live,
    file: &str,
    caller: &mut C,
) -> Result<String, AllocError>
    ensures ok { IfOk result (λ text. AreKept (IsSavedOrShort (view live.now) file.now (string_bytes text))
        (party C.events C.failures caller.old) (party C.events C.failures caller.new)) }
    ensures err { OnErr result (IsUnanswered (party C.events C.failures caller.old)
        (party C.events C.failures caller.new)) }
{
    match keep(alloc, live, file, caller) {
        Ok(text) => Ok(text),
        Err(_) => short_text(alloc),
    }
}
