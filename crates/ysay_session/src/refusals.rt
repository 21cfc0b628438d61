//! What is answered to requests of which there is nothing to tell, and to those that are refused.

ghost use Rattle.std.specs.Prelude.{◌≡◌, ◌++◌, IfOk, decimal, option_map, string_bytes};
ghost use Rattle.serde_json.specs.Data.{string};
ghost use Rattle.serde_json.specs.Written.{compact_text};
ghost use Rattle.yspec_run.specs.RefusalData as run;
ghost use Rattle.yspec_run.specs.Script.{telling_code};
ghost use Rattle.yinst_path.specs.Applying.{refusal_view};
ghost use Rattle.yinst_tree.specs.Told.{code_number};
ghost use Rattle.ysay_session.specs.AnswerText as spec;

use itoa::Buffer;
use serde_json::Value;
use std::alloc::{AllocError, Global};
use yinst_path::EditCode;
use yinst_tree::DocCode;
use ysay_codes::explain;

fn code_text(alloc: Global, letter: &str, number: u8) -> Result<String, AllocError>
    ensures { IfOk result (λ text. string_bytes text ≡ letter.now ++ decimal number) }
{
    let mut digits = Buffer::new();
    [letter, digits.format(number)].concat(alloc)
}

/// Why a code is told.
fn cause_of(code: &str) -> &'static str
    ensures { result.now ≡ run.cause_of code.now }
{
    match explain(code) {
        Some(explanation) => explanation.cause,
        None => "",
    }
}

/// Why a code is told, as a string of JSON.
fn message_of(alloc: Global, letter: &str, number: u8) -> Result<String, AllocError>
    ensures { IfOk result (λ text. string_bytes text
        ≡ compact_text (string (run.cause_of (letter.now ++ decimal number)))) }
{
    let code = code_text(alloc, letter, number)?;
    let cause = String::from_str(alloc, cause_of(code.as_str()))?;
    Value::String(cause).to_string(alloc)
}

/// The code of a value that doesn't fit, as a member of an object.
fn document_member(alloc: Global, doc: Option<DocCode>) -> Result<String, AllocError>
    ensures { IfOk result (λ text. string_bytes text
        ≡ spec.document_member (option_map code_number doc)) }
{
    match doc {
        Some(doc) => {
            let mut digits = Buffer::new();
            ["\"document\":\"J", digits.format(doc.number()), "\","].concat(alloc)
        }
        None => Ok(String::new(alloc)),
    }
}

/// The cause of the code that says most of a refused edit: of its value's, where it has one.
fn edit_message(alloc: Global, code: EditCode, doc: Option<DocCode>) -> Result<String, AllocError>
    ensures { IfOk result (λ text. string_bytes text
        ≡ compact_text (string (run.cause_of (telling_code (refusal_view code doc))))) }
{
    match doc {
        Some(doc) => message_of(alloc, "J", doc.number()),
        None => message_of(alloc, "E", code.number()),
    }
}

/// That an edit is refused, by its code and why the value doesn't fit.
pub fn edit_refused_text(
    alloc: Global,
    code: EditCode,
    doc: Option<DocCode>,
) -> Result<String, AllocError>
    ensures { IfOk result (λ text. string_bytes text
        ≡ spec.edit_refused_text (refusal_view code doc)) }
{
    let document = document_member(alloc, doc)?;
    let message = edit_message(alloc, code, doc)?;
    let mut digits = Buffer::new();
    [
        "{\"refused\":\"E",
        digits.format(code.number()),
        "\",",
        document.as_str(),
        "\"message\":",
        message.as_str(),
        "}",
    ]
    .concat(alloc)
}

/// That a request is done, of which there is nothing to tell.
pub fn done_text(alloc: Global) -> Result<String, AllocError>
    ensures { IfOk result (λ text. string_bytes text ≡ spec.done_text) }
{
    String::from_str(alloc, "{\"done\":true}")
}

/// That nothing can be taken back.
pub fn nothing_text(alloc: Global) -> Result<String, AllocError>
    ensures { IfOk result (λ text. string_bytes text ≡ spec.nothing_text) }
{
    String::from_str(
        alloc,
        "{\"refused\":\"undo\",\"message\":\"Nothing is remembered.\"}",
    )
}

/// That edits together have begun already.
pub fn begun_text(alloc: Global) -> Result<String, AllocError>
    ensures { IfOk result (λ text. string_bytes text ≡ spec.begun_text) }
{
    String::from_str(
        alloc,
        "{\"refused\":\"begin\",\"message\":\"Edits together have begun.\"}",
    )
}

/// That no edits together have begun.
pub fn not_begun_text(alloc: Global) -> Result<String, AllocError>
    ensures { IfOk result (λ text. string_bytes text ≡ spec.not_begun_text) }
{
    String::from_str(
        alloc,
        "{\"refused\":\"end\",\"message\":\"No edits together have begun.\"}",
    )
}

/// That a line is no request.
pub fn not_understood_text(alloc: Global) -> Result<String, AllocError>
    ensures { IfOk result (λ text. string_bytes text ≡ spec.not_understood_text) }
{
    String::from_str(
        alloc,
        "{\"refused\":\"E1\",\"message\":\"The line is no request.\"}",
    )
}

/// That a request isn't served.
pub fn unserved_text(alloc: Global) -> Result<String, AllocError>
    ensures { IfOk result (λ text. string_bytes text ≡ spec.unserved_text) }
{
    String::from_str(
        alloc,
        "{\"refused\":\"E1\",\"message\":\"The request isn't served.\"}",
    )
}

/// That memory ran out, and all is as it was.
pub fn short_text(alloc: Global) -> Result<String, AllocError>
    ensures { IfOk result (λ text. string_bytes text ≡ spec.short_text) }
{
    String::from_str(
        alloc,
        "{\"refused\":\"E12\",\"message\":\"Memory ran out.\"}",
    )
}
