//! The texts of values.

ghost use Rattle.std.specs.Prelude.{◌≡◌, IfOk, Some, option_map, string_bytes};
ghost use Rattle.std.specs.List.{list_any};
ghost use Rattle.serde_json.specs.Data.{string};
ghost use Rattle.serde_json.specs.Written.{compact_text};
ghost use Rattle.ytype.specs.View as held;
ghost use Rattle.ysay_value.specs.Values as spec;

use serde_json::Value;
use std::alloc::{AllocError, Global};
use yinst_tree::value_of_leaf;
use ytype::Raw;

/// The value of a leaf or an item as its document has it.
pub fn value_text(alloc: Global, raw: Option<&Raw>) -> Result<String, AllocError>
    ensures { IfOk result (λ text. string_bytes text
        ≡ spec.value_text (option_map (λ r. held.raw_of r.now) raw.entry)) }
{
    value_of_leaf(alloc, raw)?.to_string(alloc)
}

/// The same without the quotes of a text.
pub(crate) fn bare_text(alloc: Global, raw: Option<&Raw>) -> Result<String, AllocError>
    ensures { IfOk result (λ text. string_bytes text
        ≡ spec.bare_text (option_map (λ r. held.raw_of r.now) raw.entry)) }
{
    match raw {
        Some(Raw::Text(text)) => text.clone(),
        Some(Raw::Empty) => Ok(String::new(alloc)),
        _ => value_text(alloc, raw),
    }
}

fn breaks_quotes(text: &str) -> bool
    ensures { result ≡ list_any spec.breaks_quotes text.now }
{
    for byte in text.as_bytes() {
        if *byte == b'\'' || *byte < b' ' {
            return true;
        }
    }
    false
}

/// A text as JSON has it.
pub(crate) fn json_text(alloc: Global, text: &str) -> Result<String, AllocError>
    ensures { IfOk result (λ quoted. string_bytes quoted ≡ compact_text (string text.now)) }
{
    Value::String(String::from_str(alloc, text)?).to_string(alloc)
}

/// A text in quotes.
pub(crate) fn quoted(alloc: Global, text: &str) -> Result<String, AllocError>
    ensures { IfOk result (λ quoted. string_bytes quoted ≡ spec.quoted text.now) }
{
    if breaks_quotes(text) {
        json_text(alloc, text)
    } else {
        ["'", text, "'"].concat(alloc)
    }
}
