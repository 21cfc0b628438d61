//! Arguments as they are shown.

ghost use Rattle.std.specs.Prelude.{◌≡◌, IfOk, string_bytes};
ghost use Rattle.ysay_types.specs.Quoted as spec;

use std::alloc::{AllocError, Global};
use ysay_text::shown;

/// A word, and an argument in quotes.
pub(crate) fn quoted(alloc: Global, word: &str, text: &str) -> Result<String, AllocError>
    ensures { IfOk result (λ said. string_bytes said ≡ spec.quoted word.now text.now) }
{
    let seen = shown(alloc, text.as_bytes())?;
    [word, " \"", seen.as_str(), "\""].concat(alloc)
}
